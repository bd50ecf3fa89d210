//! Where the fields of a certificate stand.

ghost use Rattle.std.specs.Prelude.{◌≡◌};
ghost use Rattle.x509_flat.specs.Fields.{flat_certificate, CertificateTold, no_certificate, CertificateOutlineTold};

use crate::span::FlatSpan;
use crate::status::Answer;
use std::alloc::Allocator;
use x509_fields::CertificateFields;
use x509_outline_fields::fields_of_certificate;

/// Where the fields of a certificate stand, each with its tag and its length (RFC 5280, 4.1).
#[repr(C)]
#[derive(Clone, Copy, Debug, PartialEq, Eq)]
pub struct FlatCertificate {
    /// `tbsCertificate TBSCertificate`.
    pub tbs_certificate: FlatSpan,
    /// `version [0] EXPLICIT Version DEFAULT v1`.
    pub version: FlatSpan,
    /// `serialNumber CertificateSerialNumber`.
    pub serial_number: FlatSpan,
    /// `signature AlgorithmIdentifier`.
    pub signature: FlatSpan,
    /// `issuer Name`.
    pub issuer: FlatSpan,
    /// `validity Validity`.
    pub validity: FlatSpan,
    /// `subject Name`.
    pub subject: FlatSpan,
    /// `subjectPublicKeyInfo SubjectPublicKeyInfo`.
    pub subject_public_key_info: FlatSpan,
    /// `issuerUniqueID [1] IMPLICIT UniqueIdentifier OPTIONAL`.
    pub issuer_unique_id: FlatSpan,
    /// `subjectUniqueID [2] IMPLICIT UniqueIdentifier OPTIONAL`.
    pub subject_unique_id: FlatSpan,
    /// `extensions [3] EXPLICIT Extensions OPTIONAL`.
    pub extensions: FlatSpan,
    /// `signatureAlgorithm AlgorithmIdentifier`.
    pub signature_algorithm: FlatSpan,
    /// `signatureValue BIT STRING`.
    pub signature_value: FlatSpan,
}

impl FlatCertificate {
    /// The same places.
    fn of(places: CertificateFields) -> Self
        ensures { result ≡ flat_certificate places }
    {
        FlatCertificate {
            tbs_certificate: FlatSpan::of(places.tbs_certificate),
            version: FlatSpan::of_optional(places.fields.version),
            serial_number: FlatSpan::of(places.fields.serial_number),
            signature: FlatSpan::of(places.fields.signature),
            issuer: FlatSpan::of(places.fields.issuer),
            validity: FlatSpan::of(places.fields.validity),
            subject: FlatSpan::of(places.fields.subject),
            subject_public_key_info: FlatSpan::of(places.fields.subject_public_key_info),
            issuer_unique_id: FlatSpan::of_optional(places.fields.issuer_unique_id),
            subject_unique_id: FlatSpan::of_optional(places.fields.subject_unique_id),
            extensions: FlatSpan::of_optional(places.fields.extensions),
            signature_algorithm: FlatSpan::of(places.signature_algorithm),
            signature_value: FlatSpan::of(places.signature_value),
        }
    }

    /// All zeros.
    fn none() -> Self
        ensures { result ≡ no_certificate }
    {
        FlatCertificate {
            tbs_certificate: FlatSpan { start: 0, end: 0 },
            version: FlatSpan { start: 0, end: 0 },
            serial_number: FlatSpan { start: 0, end: 0 },
            signature: FlatSpan { start: 0, end: 0 },
            issuer: FlatSpan { start: 0, end: 0 },
            validity: FlatSpan { start: 0, end: 0 },
            subject: FlatSpan { start: 0, end: 0 },
            subject_public_key_info: FlatSpan { start: 0, end: 0 },
            issuer_unique_id: FlatSpan { start: 0, end: 0 },
            subject_unique_id: FlatSpan { start: 0, end: 0 },
            extensions: FlatSpan { start: 0, end: 0 },
            signature_algorithm: FlatSpan { start: 0, end: 0 },
            signature_value: FlatSpan { start: 0, end: 0 },
        }
    }
}

/// Where the fields of a certificate stand. It takes no memory.
pub fn certificate_fields<A: Allocator + Copy>(alloc: A, bytes: &[u8]) -> Answer<FlatCertificate>
    ensures { CertificateTold A bytes.now result.status result.fields }
{
    match CertificateFields::find(alloc, bytes) {
        Ok(places) => Answer::done(FlatCertificate::of(places)),
        Err(error) => Answer::refused(error, FlatCertificate::none()),
    }
}

/// The same of the outline of a certificate, whose algorithms may be of any kind. It takes no memory.
pub fn certificate_outline_fields<A: Allocator + Copy>(
    alloc: A,
    bytes: &[u8],
) -> Answer<FlatCertificate>
    ensures { CertificateOutlineTold A bytes.now result.status result.fields }
{
    match fields_of_certificate(alloc, bytes) {
        Ok(places) => Answer::done(FlatCertificate::of(places)),
        Err(error) => Answer::refused(error, FlatCertificate::none()),
    }
}
