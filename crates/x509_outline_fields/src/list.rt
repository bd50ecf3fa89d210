//! Where the fields of a revocation list stand.

ghost use Rattle.std.specs.Prelude.{ℕ, List, IfOk, IfErr};
ghost use Rattle.x509_der.specs.Calls.{NoValue};
ghost use Rattle.x509_der.specs.Fields.{Stands};
ghost use Rattle.x509_der.specs.Tally.{Tally};
ghost use Rattle.x509_fields.specs.Found.{Found, Within};
ghost use Rattle.x509_fields.specs.Walks.{ToEnd};
ghost use Rattle.x509_list_outlines.specs.CertificateLists.{certificate_list};
ghost use Rattle.x509_list_outlines.specs.TbsCertLists.{TbsListFields, tbs_list_inner};
ghost use Rattle.x509_outline_fields.specs.Lists.{ListIn, TbsListFieldsIn, tbs_list_spans};
ghost use Rattle.x509_outline_fields.specs.Walks.{StepsWhere, is_time};

use std::alloc::Allocator;
use x509_der::parts::{GENERALIZED_TIME_TAG, INTEGER_TAG, SEQUENCE_TAG, UTC_TIME_TAG};
use x509_der::{ReadError, check, laws};
use x509_fields::{Span, Walk};
use x509_list_outlines::laws::certificate_list_outline_fields;
use x509_list_outlines::{CertificateListOutline, TbsCertListOutline};
use x509_names::{Time, Version};
use x509_outline::{AlgorithmOutline, NameOutline};

/// The tag of the extensions, `[0]`.
const EXTENSIONS_TAG: u8 = 0xA0;

/// Where the fields of what is signed of a revocation list stand in an input: each with its tag and its length. What is not
/// encoded has no place (RFC 5280, 5.1.2).
#[derive(Clone, Copy, Debug, PartialEq, Eq)]
pub struct TbsCertListFields {
    /// `version Version OPTIONAL`.
    pub version: Option<Span>,
    /// `signature AlgorithmIdentifier`.
    pub signature: Span,
    /// `issuer Name`.
    pub issuer: Span,
    /// `thisUpdate Time`.
    pub this_update: Span,
    /// `nextUpdate Time OPTIONAL`.
    pub next_update: Option<Span>,
    /// `revokedCertificates SEQUENCE OF SEQUENCE { .. } OPTIONAL`.
    pub revoked_certificates: Option<Span>,
    /// `crlExtensions [0] EXPLICIT Extensions OPTIONAL`.
    pub crl_extensions: Option<Span>,
}

/// Where the fields of a revocation list stand in an input (RFC 5280, 5.1.1).
#[derive(Clone, Copy, Debug, PartialEq, Eq)]
pub struct CertificateListFields {
    /// `tbsCertList TBSCertList`, which the signature covers.
    pub tbs_cert_list: Span,
    /// The fields of `tbsCertList`.
    pub fields: TbsCertListFields,
    /// `signatureAlgorithm AlgorithmIdentifier`.
    pub signature_algorithm: Span,
    /// `signatureValue BIT STRING`.
    pub signature_value: Span,
}

/// Checks that the bytes are a revocation list, and answers where its fields stand, each with its tag and its length (RFC
/// 5280, 5.1). It builds no value and takes no memory.
///
/// # Errors
/// Refused exactly where the bytes encode no revocation list; never for memory.
pub fn fields_of_list<A: Allocator + Copy>(
    alloc: A,
    bytes: &[u8],
) -> Result<CertificateListFields, ReadError>
    ensures ok { IfOk result (Found (certificate_list {A = A}) ListIn bytes.now) }
    ensures err { IfErr result (NoValue (certificate_list {A = A}) bytes.now) }
{
    let _deviations = check::<CertificateListOutline<A>, A>(alloc, bytes)?;
    Ok(fields_within::<A>(bytes))
}

/// Where the fields stand of the list that the bytes encode. Of other bytes the spans say nothing.
fn fields_within<A: Allocator + Copy>(bytes: &[u8]) -> CertificateListFields
    ensures { Within (certificate_list {A = A}) ListIn bytes.now result }
{
    certificate_list_outline_fields::<A>();
    laws::spellings_are_lawful::<TbsCertListOutline<A>, A>();
    laws::spellings_are_lawful::<AlgorithmOutline<A>, A>();
    let mut outer = Walk::of(bytes).inside();
    let fields = tbs_fields::<A>(outer.inside());
    let tbs_cert_list = outer.next();
    let signature_algorithm = outer.next();
    let signature_value = outer.next();
    CertificateListFields {
        tbs_cert_list,
        fields,
        signature_algorithm,
        signature_value,
    }
}

/// Goes past a time, where one comes next, and answers where it stands.
fn next_time(walk: &mut Walk<'_>) -> Option<Span>
    ensures { StepsWhere is_time walk.old walk.new result }
{
    match walk.next_if(UTC_TIME_TAG) {
        Some(span) => Some(span),
        None => walk.next_if(GENERALIZED_TIME_TAG),
    }
}

/// Where the fields of what is signed stand, which are walked over.
fn tbs_fields<A: Allocator + Copy>(walk: Walk<'_>) -> TbsCertListFields
    ensures { (f : TbsListFields A) (string : List ℕ) (y : Tally) → Stands tbs_list_inner f walk.entry.at walk.entry.rest string y
        → TbsListFieldsIn f result string y × ToEnd walk.entry (tbs_list_spans result) }
{
    laws::spellings_are_lawful::<Version, A>();
    laws::spellings_are_lawful::<AlgorithmOutline<A>, A>();
    laws::spellings_are_lawful::<NameOutline<A>, A>();
    laws::spellings_are_lawful::<Time, A>();
    let mut walk = walk;
    let version = walk.next_if(INTEGER_TAG);
    let signature = walk.next();
    let issuer = walk.next();
    let this_update = walk.next();
    let next_update = next_time(&mut walk);
    let revoked_certificates = walk.next_if(SEQUENCE_TAG);
    let crl_extensions = walk.next_if(EXTENSIONS_TAG);
    TbsCertListFields {
        version,
        signature,
        issuer,
        this_update,
        next_update,
        revoked_certificates,
        crl_extensions,
    }
}
