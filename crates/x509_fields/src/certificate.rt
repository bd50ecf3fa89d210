//! Where the fields of a certificate stand.

ghost use Rattle.std.specs.Prelude.{◌≡◌, ℕ, List, length, IfOk, IfErr};
ghost use Rattle.x509_der.specs.Calls.{NoValue};
ghost use Rattle.x509_der.specs.Fields.{Stands};
ghost use Rattle.x509_der.specs.Tally.{Tally};
ghost use Rattle.picky_asn1_x509.specs.Certificates.{certificate};
ghost use Rattle.picky_asn1_x509.specs.TbsCertificates.{TbsFields, tbs_inner};
ghost use Rattle.x509_fields.specs.Found.{CertificateWithin, Found};
ghost use Rattle.x509_fields.specs.Certificates.{CertificateIn, TbsFieldsIn, tbs_spans};
ghost use Rattle.x509_fields.specs.Walks.{ToEnd};

use crate::span::Span;
use crate::walk::Walk;
use picky_asn1_x509::{
    AlgorithmIdentifier, Certificate, Name, ReadError, SubjectPublicKeyInfo, TbsCertificate,
    Validity, check, laws,
};
use std::alloc::Allocator;

/// The tag of a certificate's version, `[0]`.
const VERSION_TAG: u8 = 0xA0;
/// The tag of the issuer's unique identifier, `[1]`.
const ISSUER_UNIQUE_ID_TAG: u8 = 0x81;
/// The tag of the subject's unique identifier, `[2]`.
const SUBJECT_UNIQUE_ID_TAG: u8 = 0x82;
/// The tag of the extensions, `[3]`.
const EXTENSIONS_TAG: u8 = 0xA3;

/// Where the fields of what is signed of a certificate stand in an input: each with its tag and its length. What is not
/// encoded has no place (RFC 5280, 4.1.2).
#[derive(Clone, Copy, Debug, PartialEq, Eq)]
pub struct TbsCertificateFields {
    /// `version [0] EXPLICIT Version DEFAULT v1`.
    pub version: Option<Span>,
    /// `serialNumber CertificateSerialNumber`.
    pub serial_number: Span,
    /// `signature AlgorithmIdentifier`.
    pub signature: Span,
    /// `issuer Name`.
    pub issuer: Span,
    /// `validity Validity`.
    pub validity: Span,
    /// `subject Name`.
    pub subject: Span,
    /// `subjectPublicKeyInfo SubjectPublicKeyInfo`.
    pub subject_public_key_info: Span,
    /// `issuerUniqueID [1] IMPLICIT UniqueIdentifier OPTIONAL`.
    pub issuer_unique_id: Option<Span>,
    /// `subjectUniqueID [2] IMPLICIT UniqueIdentifier OPTIONAL`.
    pub subject_unique_id: Option<Span>,
    /// `extensions [3] EXPLICIT Extensions OPTIONAL`.
    pub extensions: Option<Span>,
}

/// Where the fields of a certificate stand in an input (RFC 5280, 4.1.1).
#[derive(Clone, Copy, Debug, PartialEq, Eq)]
pub struct CertificateFields {
    /// `tbsCertificate TBSCertificate`, which the signature covers.
    pub tbs_certificate: Span,
    /// The fields of `tbsCertificate`.
    pub fields: TbsCertificateFields,
    /// `signatureAlgorithm AlgorithmIdentifier`.
    pub signature_algorithm: Span,
    /// `signatureValue BIT STRING`.
    pub signature_value: Span,
}

impl CertificateFields {
    /// Where the fields of a certificate stand in the bytes that it was read from: in each span stand the bytes that
    /// encode the field. Takes no memory. Of bytes that don't encode the certificate the spans say nothing.
    pub fn of<A: Allocator + Copy>(value: &Certificate<A>, bytes: &[u8]) -> Self
        ensures { (y : Tally) → (certificate {A = A}).spelled value.now bytes.now y → CertificateIn value.now result bytes.now y }
    {
        let _ = value;
        Self::within::<A>(bytes)
    }

    /// Where the fields of the certificate stand that the bytes encode, whatever certificate it is: no value is needed. Takes no
    /// memory. Of bytes that encode no certificate the spans say nothing.
    pub fn within<A: Allocator + Copy>(bytes: &[u8]) -> Self
        ensures { CertificateWithin A bytes.now result }
    {
        laws::certificate_fields::<A>();
        laws::spellings_are_lawful::<TbsCertificate<A>, A>();
        laws::spellings_are_lawful::<AlgorithmIdentifier<A>, A>();
        let mut outer = Walk::of(bytes).inside();
        let fields = tbs_fields::<A>(outer.inside());
        let tbs_certificate = outer.next();
        let signature_algorithm = outer.next();
        let signature_value = outer.next();
        CertificateFields {
            tbs_certificate,
            fields,
            signature_algorithm,
            signature_value,
        }
    }

    /// Checks the bytes as `check` does, and answers where the fields of the certificate stand that they encode. It builds no
    /// value and takes no memory.
    ///
    /// # Errors
    /// Refused exactly where the bytes encode no certificate; never for memory.
    pub fn find<A: Allocator + Copy>(alloc: A, bytes: &[u8]) -> Result<Self, ReadError>
        ensures ok { IfOk result (Found (certificate {A = A}) CertificateIn bytes.now) }
        ensures err { IfErr result (NoValue (certificate {A = A}) bytes.now) }
    {
        let _deviations = check::<Certificate<A>, A>(alloc, bytes)?;
        Ok(Self::within::<A>(bytes))
    }
}

/// Where the fields of what is signed stand, which are walked over.
fn tbs_fields<A: Allocator + Copy>(walk: Walk<'_>) -> TbsCertificateFields
    ensures { (f : TbsFields A) (string : List ℕ) (y : Tally) → Stands tbs_inner f walk.entry.at walk.entry.rest string y
        → TbsFieldsIn f result string y × ToEnd walk.entry (tbs_spans result) }
{
    laws::spellings_are_lawful::<AlgorithmIdentifier<A>, A>();
    laws::spellings_are_lawful::<Name<A>, A>();
    laws::spellings_are_lawful::<Validity, A>();
    laws::spellings_are_lawful::<SubjectPublicKeyInfo<A>, A>();
    let mut walk = walk;
    let version = walk.next_if(VERSION_TAG);
    let serial_number = walk.next();
    let signature = walk.next();
    let issuer = walk.next();
    let validity = walk.next();
    let subject = walk.next();
    let subject_public_key_info = walk.next();
    let issuer_unique_id = walk.next_if(ISSUER_UNIQUE_ID_TAG);
    let subject_unique_id = walk.next_if(SUBJECT_UNIQUE_ID_TAG);
    let extensions = walk.next_if(EXTENSIONS_TAG);
    TbsCertificateFields {
        version,
        serial_number,
        signature,
        issuer,
        validity,
        subject,
        subject_public_key_info,
        issuer_unique_id,
        subject_unique_id,
        extensions,
    }
}
