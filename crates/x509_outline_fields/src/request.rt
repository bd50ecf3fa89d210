//! Where the fields of the outline of a request stand.

ghost use Rattle.std.specs.Prelude.{ℕ, List, IfOk, IfErr};
ghost use Rattle.x509_der.specs.Calls.{NoValue};
ghost use Rattle.x509_der.specs.Fields.{Stands};
ghost use Rattle.x509_der.specs.Tally.{Tally};
ghost use Rattle.x509_fields.specs.Found.{Found, Within};
ghost use Rattle.x509_fields.specs.Requests.{info_spans};
ghost use Rattle.x509_fields.specs.Walks.{ToEnd};
ghost use Rattle.x509_more_outlines.specs.Requests.{InfoFields, info_inner, request};
ghost use Rattle.x509_outline_fields.specs.Requests.{InfoFieldsIn, RequestIn};

use std::alloc::Allocator;
use x509_der::{ReadError, check, laws};
use x509_fields::{CertificationRequestFields, CertificationRequestInfoFields, Walk};
use x509_more_outlines::laws::request_outline_fields;
use x509_more_outlines::{RequestInfoOutline, RequestOutline};
use x509_outline::{AlgorithmOutline, NameOutline, PublicKeyOutline};

/// Checks that the bytes are the outline of a request, and answers where its fields stand, each with its tag and its
/// length (RFC 2986, 4). It builds no value and takes no memory.
///
/// # Errors
/// Refused exactly where the bytes encode no outline of a request; never for memory.
pub fn fields_of_request<A: Allocator + Copy>(
    alloc: A,
    bytes: &[u8],
) -> Result<CertificationRequestFields, ReadError>
    ensures ok { IfOk result (Found (request {A = A}) RequestIn bytes.now) }
    ensures err { IfErr result (NoValue (request {A = A}) bytes.now) }
{
    let _deviations = check::<RequestOutline<A>, A>(alloc, bytes)?;
    Ok(fields_within::<A>(bytes))
}

/// Where the fields stand of the outline that the bytes encode. Of other bytes the spans say nothing.
fn fields_within<A: Allocator + Copy>(bytes: &[u8]) -> CertificationRequestFields
    ensures { Within (request {A = A}) RequestIn bytes.now result }
{
    request_outline_fields::<A>();
    laws::spellings_are_lawful::<RequestInfoOutline<A>, A>();
    laws::spellings_are_lawful::<AlgorithmOutline<A>, A>();
    let mut outer = Walk::of(bytes).inside();
    let fields = info_fields::<A>(outer.inside());
    let certification_request_info = outer.next();
    let signature_algorithm = outer.next();
    let signature = outer.next();
    CertificationRequestFields {
        certification_request_info,
        fields,
        signature_algorithm,
        signature,
    }
}

/// Where the fields of what is signed stand, which are walked over.
fn info_fields<A: Allocator + Copy>(walk: Walk<'_>) -> CertificationRequestInfoFields
    ensures { (f : InfoFields A) (string : List ℕ) (y : Tally) → Stands info_inner f walk.entry.at walk.entry.rest string y
        → InfoFieldsIn f result string y × ToEnd walk.entry (info_spans result) }
{
    laws::spellings_are_lawful::<NameOutline<A>, A>();
    laws::spellings_are_lawful::<PublicKeyOutline<A>, A>();
    let mut walk = walk;
    let version = walk.next();
    let subject = walk.next();
    let subject_public_key_info = walk.next();
    let attributes = walk.next();
    CertificationRequestInfoFields {
        version,
        subject,
        subject_public_key_info,
        attributes,
    }
}
