//! Where the fields of a request stand.

ghost use Rattle.std.specs.Prelude.{◌≡◌};
ghost use Rattle.x509_flat.specs.Fields.{flat_request, RequestTold, no_request, RequestOutlineTold};

use crate::span::FlatSpan;
use crate::status::Answer;
use std::alloc::Allocator;
use x509_fields::CertificationRequestFields;
use x509_outline_fields::fields_of_request;

/// Where the fields of a request stand, each with its tag and its length (RFC 2986, 4).
#[repr(C)]
#[derive(Clone, Copy, Debug, PartialEq, Eq)]
pub struct FlatRequest {
    /// `certificationRequestInfo CertificationRequestInfo`.
    pub certification_request_info: FlatSpan,
    /// `version INTEGER`.
    pub version: FlatSpan,
    /// `subject Name`.
    pub subject: FlatSpan,
    /// `subjectPKInfo SubjectPublicKeyInfo`.
    pub subject_public_key_info: FlatSpan,
    /// `attributes [0] IMPLICIT Attributes`.
    pub attributes: FlatSpan,
    /// `signatureAlgorithm AlgorithmIdentifier`.
    pub signature_algorithm: FlatSpan,
    /// `signature BIT STRING`.
    pub signature: FlatSpan,
}

impl FlatRequest {
    /// The same places.
    fn of(places: CertificationRequestFields) -> Self
        ensures { result ≡ flat_request places }
    {
        FlatRequest {
            certification_request_info: FlatSpan::of(places.certification_request_info),
            version: FlatSpan::of(places.fields.version),
            subject: FlatSpan::of(places.fields.subject),
            subject_public_key_info: FlatSpan::of(places.fields.subject_public_key_info),
            attributes: FlatSpan::of(places.fields.attributes),
            signature_algorithm: FlatSpan::of(places.signature_algorithm),
            signature: FlatSpan::of(places.signature),
        }
    }

    /// All zeros.
    fn none() -> Self
        ensures { result ≡ no_request }
    {
        FlatRequest {
            certification_request_info: FlatSpan { start: 0, end: 0 },
            version: FlatSpan { start: 0, end: 0 },
            subject: FlatSpan { start: 0, end: 0 },
            subject_public_key_info: FlatSpan { start: 0, end: 0 },
            attributes: FlatSpan { start: 0, end: 0 },
            signature_algorithm: FlatSpan { start: 0, end: 0 },
            signature: FlatSpan { start: 0, end: 0 },
        }
    }
}

/// Where the fields of a request stand. It takes no memory.
pub fn request_fields<A: Allocator + Copy>(alloc: A, bytes: &[u8]) -> Answer<FlatRequest>
    ensures { RequestTold A bytes.now result.status result.fields }
{
    match CertificationRequestFields::find(alloc, bytes) {
        Ok(places) => Answer::done(FlatRequest::of(places)),
        Err(error) => Answer::refused(error, FlatRequest::none()),
    }
}

/// The same of the outline of a request, whose algorithms may be of any kind. It takes no memory.
pub fn request_outline_fields<A: Allocator + Copy>(alloc: A, bytes: &[u8]) -> Answer<FlatRequest>
    ensures { RequestOutlineTold A bytes.now result.status result.fields }
{
    match fields_of_request(alloc, bytes) {
        Ok(places) => Answer::done(FlatRequest::of(places)),
        Err(error) => Answer::refused(error, FlatRequest::none()),
    }
}
