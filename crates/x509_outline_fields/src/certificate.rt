//! Where the fields of the outline of a certificate stand.

ghost use Rattle.std.specs.Prelude.{ℕ, List, IfOk, IfErr};
ghost use Rattle.x509_der.specs.Calls.{NoValue};
ghost use Rattle.x509_der.specs.Fields.{Stands};
ghost use Rattle.x509_der.specs.Tally.{Tally};
ghost use Rattle.x509_fields.specs.Certificates.{tbs_spans};
ghost use Rattle.x509_fields.specs.Found.{Found, Within};
ghost use Rattle.x509_fields.specs.Walks.{ToEnd};
ghost use Rattle.x509_outline.specs.Certificates.{certificate};
ghost use Rattle.x509_outline.specs.TbsCertificates.{TbsFields, tbs_inner};
ghost use Rattle.x509_outline_fields.specs.Certificates.{CertificateIn, TbsFieldsIn};

use std::alloc::Allocator;
use x509_der::{ReadError, check, laws};
use x509_fields::{CertificateFields, TbsCertificateFields, Walk};
use x509_names::Validity;
use x509_outline::laws::certificate_outline_fields;
use x509_outline::{
    AlgorithmOutline, CertificateOutline, NameOutline, PublicKeyOutline, TbsCertificateOutline,
};

/// The tag of a certificate's version, `[0]`.
const VERSION_TAG: u8 = 0xA0;
/// The tag of the issuer's unique identifier, `[1]`.
const ISSUER_UNIQUE_ID_TAG: u8 = 0x81;
/// The tag of the subject's unique identifier, `[2]`.
const SUBJECT_UNIQUE_ID_TAG: u8 = 0x82;
/// The tag of the extensions, `[3]`.
const EXTENSIONS_TAG: u8 = 0xA3;

/// Checks that the bytes are the outline of a certificate, and answers where its fields stand, each with its tag and its
/// length (RFC 5280, 4.1). It builds no value and takes no memory.
///
/// # Errors
/// Refused exactly where the bytes encode no outline of a certificate; never for memory.
pub fn fields_of_certificate<A: Allocator + Copy>(
    alloc: A,
    bytes: &[u8],
) -> Result<CertificateFields, ReadError>
    ensures ok { IfOk result (Found (certificate {A = A}) CertificateIn bytes.now) }
    ensures err { IfErr result (NoValue (certificate {A = A}) bytes.now) }
{
    let _deviations = check::<CertificateOutline<A>, A>(alloc, bytes)?;
    Ok(fields_within::<A>(bytes))
}

/// Where the fields stand of the outline that the bytes encode. Of other bytes the spans say nothing.
fn fields_within<A: Allocator + Copy>(bytes: &[u8]) -> CertificateFields
    ensures { Within (certificate {A = A}) CertificateIn bytes.now result }
{
    certificate_outline_fields::<A>();
    laws::spellings_are_lawful::<TbsCertificateOutline<A>, A>();
    laws::spellings_are_lawful::<AlgorithmOutline<A>, A>();
    let mut outer = Walk::of(bytes).inside();
    let fields = tbs_fields::<A>(outer.inside());
    let tbs_certificate = outer.next();
    let signature_algorithm = outer.next();
    let signature_value = outer.next();
    CertificateFields {
        tbs_certificate,
        fields,
        signature_algorithm,
        signature_value,
    }
}

/// Where the fields of what is signed stand, which are walked over.
fn tbs_fields<A: Allocator + Copy>(walk: Walk<'_>) -> TbsCertificateFields
    ensures { (f : TbsFields A) (string : List ℕ) (y : Tally) → Stands tbs_inner f walk.entry.at walk.entry.rest string y
        → TbsFieldsIn f result string y × ToEnd walk.entry (tbs_spans result) }
{
    laws::spellings_are_lawful::<AlgorithmOutline<A>, A>();
    laws::spellings_are_lawful::<NameOutline<A>, A>();
    laws::spellings_are_lawful::<Validity, A>();
    laws::spellings_are_lawful::<PublicKeyOutline<A>, A>();
    let mut walk = walk;
    let version = walk.next_if(VERSION_TAG);
    let serial_number = walk.next();
    let signature = walk.next();
    let issuer = walk.next();
    let validity = walk.next();
    let subject = walk.next();
    let subject_public_key_info = walk.next();
    let issuer_unique_id = walk.next_if(ISSUER_UNIQUE_ID_TAG);
    let subject_unique_id = walk.next_if(SUBJECT_UNIQUE_ID_TAG);
    let extensions = walk.next_if(EXTENSIONS_TAG);
    TbsCertificateFields {
        version,
        serial_number,
        signature,
        issuer,
        validity,
        subject,
        subject_public_key_info,
        issuer_unique_id,
        subject_unique_id,
        extensions,
    }
}
