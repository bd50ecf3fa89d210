//! Where the fields of a request stand.

ghost use Rattle.std.specs.Prelude.{ℕ, List, IfOk, IfErr};
ghost use Rattle.x509_der.specs.Calls.{NoValue};
ghost use Rattle.x509_der.specs.Fields.{Stands};
ghost use Rattle.x509_der.specs.Tally.{Tally};
ghost use Rattle.picky_asn1_x509.specs.Requests.{InfoFields, info_inner, request};
ghost use Rattle.x509_fields.specs.Found.{RequestWithin, Found};
ghost use Rattle.x509_fields.specs.Requests.{InfoFieldsIn, RequestIn, info_spans};
ghost use Rattle.x509_fields.specs.Walks.{ToEnd};

use crate::span::Span;
use crate::walk::Walk;
use picky_asn1_x509::{
    AlgorithmIdentifier, CertificationRequest, CertificationRequestInfo, Name, ReadError,
    SubjectPublicKeyInfo, check, laws,
};
use std::alloc::Allocator;

/// Where the fields of what is signed of a request stand in an input: each with its tag and its length (RFC 2986, 4.1).
#[derive(Clone, Copy, Debug, PartialEq, Eq)]
pub struct CertificationRequestInfoFields {
    /// `version INTEGER`.
    pub version: Span,
    /// `subject Name`.
    pub subject: Span,
    /// `subjectPKInfo SubjectPublicKeyInfo`.
    pub subject_public_key_info: Span,
    /// `attributes [0] IMPLICIT Attributes`.
    pub attributes: Span,
}

/// Where the fields of a request stand in an input (RFC 2986, 4.2).
#[derive(Clone, Copy, Debug, PartialEq, Eq)]
pub struct CertificationRequestFields {
    /// `certificationRequestInfo CertificationRequestInfo`, which the signature covers.
    pub certification_request_info: Span,
    /// The fields of `certificationRequestInfo`.
    pub fields: CertificationRequestInfoFields,
    /// `signatureAlgorithm AlgorithmIdentifier`.
    pub signature_algorithm: Span,
    /// `signature BIT STRING`.
    pub signature: Span,
}

impl CertificationRequestFields {
    /// Where the fields of a request stand in the bytes that it was read from: in each span stand the bytes that encode
    /// the field. Takes no memory. Of bytes that don't encode the request the spans say nothing.
    pub fn of<A: Allocator + Copy>(value: &CertificationRequest<A>, bytes: &[u8]) -> Self
        ensures { (y : Tally) → (request {A = A}).spelled value.now bytes.now y → RequestIn value.now result bytes.now y }
    {
        let _ = value;
        Self::within::<A>(bytes)
    }

    /// Where the fields of the request stand that the bytes encode, whatever request it is: no value is needed. Takes no
    /// memory. Of bytes that encode no request the spans say nothing.
    pub fn within<A: Allocator + Copy>(bytes: &[u8]) -> Self
        ensures { RequestWithin A bytes.now result }
    {
        laws::certification_request_fields::<A>();
        laws::spellings_are_lawful::<CertificationRequestInfo<A>, A>();
        laws::spellings_are_lawful::<AlgorithmIdentifier<A>, A>();
        let mut outer = Walk::of(bytes).inside();
        let fields = info_fields::<A>(outer.inside());
        let certification_request_info = outer.next();
        let signature_algorithm = outer.next();
        let signature = outer.next();
        CertificationRequestFields {
            certification_request_info,
            fields,
            signature_algorithm,
            signature,
        }
    }

    /// Checks the bytes as `check` does, and answers where the fields of the request stand that they encode. It builds no
    /// value and takes no memory.
    ///
    /// # Errors
    /// Refused exactly where the bytes encode no request; never for memory.
    pub fn find<A: Allocator + Copy>(alloc: A, bytes: &[u8]) -> Result<Self, ReadError>
        ensures ok { IfOk result (Found (request {A = A}) RequestIn bytes.now) }
        ensures err { IfErr result (NoValue (request {A = A}) bytes.now) }
    {
        let _deviations = check::<CertificationRequest<A>, A>(alloc, bytes)?;
        Ok(Self::within::<A>(bytes))
    }
}

/// Where the fields of what is signed stand, which are walked over.
fn info_fields<A: Allocator + Copy>(walk: Walk<'_>) -> CertificationRequestInfoFields
    ensures { (f : InfoFields A) (string : List ℕ) (y : Tally) → Stands info_inner f walk.entry.at walk.entry.rest string y
        → InfoFieldsIn f result string y × ToEnd walk.entry (info_spans result) }
{
    laws::spellings_are_lawful::<Name<A>, A>();
    laws::spellings_are_lawful::<SubjectPublicKeyInfo<A>, A>();
    let mut walk = walk;
    let version = walk.next();
    let subject = walk.next();
    let subject_public_key_info = walk.next();
    let attributes = walk.next();
    CertificationRequestInfoFields {
        version,
        subject,
        subject_public_key_info,
        attributes,
    }
}
