//! The calls over a block of memory, each in an arena of its own.

ghost use Rattle.std.specs.Prelude.{◌≡◌, ◌+◌, ◌*◌, ◌/◌, ◌<◌, ◌≤◌, length};
ghost use Rattle.picky_asn1_x509.specs.Certificates.{certificate};
ghost use Rattle.x509_flat.specs.Checks.{TellsOf};
ghost use Rattle.x509_flat.specs.Constraints.{ConstraintsTold};
ghost use Rattle.x509_flat.specs.Encodings.{EncodesOf};
ghost use Rattle.x509_flat.specs.Extensions.{CarriedTold, ListTold};
ghost use Rattle.x509_flat.specs.Fields.{CertificateTold, PrivateKeyTold, RequestTold};
ghost use Rattle.x509_flat.specs.Hosts.{HostMatched};
ghost use Rattle.x509_flat.specs.Places.{PlacesOf};
ghost use Rattle.x509_flat.specs.Purposes.{PurposesFill};
ghost use Rattle.x509_flat.specs.SignedParts.{SignedOf};
ghost use Rattle.x509_flat.specs.Spans.{flat_span, flat_span_if};
ghost use Rattle.x509_flat.specs.Usages.{UsageTold};
ghost use Rattle.x509_flat.specs.Validities.{ValidityTold};
ghost use Rattle.x509_flat.specs.Values.{GeneralNamesTold, NameFills, SpanTold};
ghost use Rattle.x509_values.specs.Certificates.{ExtensionCarried, SerialCarried};
ghost use Rattle.x509_flat_report.specs.Reports.{Reported};
ghost use Rattle.cimaroly_c.specs.Exports.{Arena};

use bumpalo::Bump;
use lent_memory::{Lent, OneBlock};
use x509_fields::Span;
use x509_flat::certificate_fields::{
    FlatCertificate, certificate_fields as flat_certificate_fields,
};
use x509_flat::check::{Checked, check as flat_check};
use x509_flat::constraints::{FlatConstraints, basic_constraints as flat_basic_constraints};
use x509_flat::encode::encode as flat_encode;
use x509_flat::extensions::{FlatExtension, of_certificate, of_extensions};
use x509_flat::kind::Kind;
use x509_flat::places::{FlatPlace, places as flat_places};
use x509_flat::private_key_fields::{
    FlatPrivateKey, private_key_fields as flat_private_key_fields,
};
use x509_flat::request_fields::{FlatRequest, request_fields as flat_request_fields};
use x509_flat::signed_part::{SignedAnswer, signed_part as flat_signed_part};
use x509_flat::span::FlatSpan;
use x509_flat::status::{Answer, Sized};
use x509_flat::usage::{FlatUsage, key_usage as flat_key_usage};
use x509_flat::validity::{FlatValidity, validity as flat_validity};
use x509_flat::values;
use x509_flat_report::{Reporter, report as flat_report};
use x509_values::{AttributePlace, GeneralNamePlace};

/// How many bytes an arena keeps of a chunk for itself, and how many it takes its parent to keep.
const KEPT: usize = 48;

const PARENT_KEPT: usize = 16;

const PAGE: usize = 4096;

/// The capacity with which an arena asks for as much of a block as it can: its chunks, with what is kept of them, come to
/// powers of two up to a page, and else to whole pages. So of a block it leaves little more than a page.
fn capacity(size: usize) -> usize
    ensures room { size ≤ result + PAGE + KEPT + PARENT_KEPT }
    ensures half { size < PAGE → size ≤ 2 * (result + KEPT + PARENT_KEPT) }
    ensures fits { result ≤ size }
{
    let most = size.saturating_add(PARENT_KEPT);
    let total = if most >= 2 * PAGE {
        most / PAGE * PAGE
    } else if most >= PAGE {
        PAGE
    } else {
        most / 2
    };
    total.saturating_sub(KEPT + PARENT_KEPT)
}

/// An arena over a block: one chunk that is as large as fits.
pub(crate) fn arena(block: &OneBlock) -> Bump<&OneBlock> {
    match Bump::try_with_capacity(block, capacity(block.size())) {
        Ok(arena) => arena,
        Err(_) => Bump::new(block),
    }
}

/// `check` of `x509_flat`. As all calls that build no value, it asks its arena for nothing, and so is lent none.
pub(crate) fn check(kind: Kind, bytes: &[u8]) -> Checked
    ensures told { TellsOf Arena kind bytes.now result.status result.verdict }
    ensures bound { result.verdict.headers ≤ length bytes.now / 2 + 1 }
{
    let mut nothing = Lent::nothing();
    let block = OneBlock::from_mut(&mut nothing);
    let arena = Bump::new(&block);
    flat_check(&arena, kind, bytes)
}

/// `encode` of `x509_flat`.
pub(crate) fn encode(block: &OneBlock, kind: Kind, bytes: &[u8], out: &mut [u8]) -> Sized
    ensures { EncodesOf Arena kind bytes.now out.old out.new result.status result.size }
{
    let arena = arena(block);
    flat_encode(&arena, kind, bytes, out)
}

/// `places` of `x509_flat`.
pub(crate) fn places(block: &OneBlock, kind: Kind, bytes: &[u8], out: &mut [FlatPlace]) -> Sized
    ensures { PlacesOf Arena kind bytes.now out.old out.new result.status result.size }
{
    let arena = arena(block);
    flat_places(&arena, kind, bytes, out)
}

/// `signed_part` of `x509_flat`.
pub(crate) fn signed_part(kind: Kind, bytes: &[u8]) -> SignedAnswer
    ensures { SignedOf Arena kind bytes.now result.status result.signed }
{
    let mut nothing = Lent::nothing();
    let block = OneBlock::from_mut(&mut nothing);
    let arena = Bump::new(&block);
    flat_signed_part(&arena, kind, bytes)
}

/// The fields of a certificate.
pub(crate) fn certificate_fields(bytes: &[u8]) -> Answer<FlatCertificate>
    ensures { CertificateTold Arena bytes.now result.status result.fields }
{
    let mut nothing = Lent::nothing();
    let block = OneBlock::from_mut(&mut nothing);
    let arena = Bump::new(&block);
    flat_certificate_fields(&arena, bytes)
}

/// The fields of a request.
pub(crate) fn request_fields(bytes: &[u8]) -> Answer<FlatRequest>
    ensures { RequestTold Arena bytes.now result.status result.fields }
{
    let mut nothing = Lent::nothing();
    let block = OneBlock::from_mut(&mut nothing);
    let arena = Bump::new(&block);
    flat_request_fields(&arena, bytes)
}

/// The fields of a private key.
pub(crate) fn private_key_fields(bytes: &[u8]) -> Answer<FlatPrivateKey>
    ensures { PrivateKeyTold Arena bytes.now result.status result.fields }
{
    let mut nothing = Lent::nothing();
    let block = OneBlock::from_mut(&mut nothing);
    let arena = Bump::new(&block);
    flat_private_key_fields(&arena, bytes)
}

/// The extensions of a certificate.
pub(crate) fn certificate_extensions(bytes: &[u8], out: &mut [FlatExtension]) -> Sized
    ensures { CarriedTold Arena bytes.now out.old out.new result.status result.size }
{
    let mut nothing = Lent::nothing();
    let block = OneBlock::from_mut(&mut nothing);
    let arena = Bump::new(&block);
    of_certificate(&arena, bytes, out)
}

/// The extensions of a list.
pub(crate) fn list_extensions(bytes: &[u8], out: &mut [FlatExtension]) -> Sized
    ensures { ListTold Arena bytes.now out.old out.new result.status result.size }
{
    let mut nothing = Lent::nothing();
    let block = OneBlock::from_mut(&mut nothing);
    let arena = Bump::new(&block);
    of_extensions(&arena, bytes, out)
}

/// When a certificate is valid.
pub(crate) fn validity(bytes: &[u8]) -> Answer<FlatValidity>
    ensures { ValidityTold Arena bytes.now result.status result.fields.not_before result.fields.not_after }
{
    let mut nothing = Lent::nothing();
    let block = OneBlock::from_mut(&mut nothing);
    let arena = Bump::new(&block);
    flat_validity(&arena, bytes)
}

/// The attributes of a certificate's subject.
pub(crate) fn subject_attributes(bytes: &[u8], out: &mut [AttributePlace]) -> Sized
    ensures { NameFills {A = Arena} (λ v. v.tbs_certificate.subject) bytes.now out.old out.new result.status result.size }
{
    let mut nothing = Lent::nothing();
    let block = OneBlock::from_mut(&mut nothing);
    let arena = Bump::new(&block);
    values::subject_attributes(&arena, bytes, out)
}

/// Those of its issuer.
pub(crate) fn issuer_attributes(bytes: &[u8], out: &mut [AttributePlace]) -> Sized
    ensures { NameFills {A = Arena} (λ v. v.tbs_certificate.issuer) bytes.now out.old out.new result.status result.size }
{
    let mut nothing = Lent::nothing();
    let block = OneBlock::from_mut(&mut nothing);
    let arena = Bump::new(&block);
    values::issuer_attributes(&arena, bytes, out)
}

/// The general names of a list.
pub(crate) fn general_names(bytes: &[u8], out: &mut [GeneralNamePlace]) -> Sized
    ensures { GeneralNamesTold Arena bytes.now out.old out.new result.status result.size }
{
    let mut nothing = Lent::nothing();
    let block = OneBlock::from_mut(&mut nothing);
    let arena = Bump::new(&block);
    values::general_names(&arena, bytes, out)
}

/// The value of the first extension with an identifier.
pub(crate) fn find_extension(bytes: &[u8], identifier: &[u8]) -> Answer<FlatSpan>
    ensures { SpanTold (certificate {A = Arena}) bytes.now flat_span_if (ExtensionCarried Arena identifier.now bytes.now) result.status result.fields }
{
    let mut nothing = Lent::nothing();
    let block = OneBlock::from_mut(&mut nothing);
    let arena = Bump::new(&block);
    values::find_extension(&arena, bytes, identifier)
}

/// The content of a certificate's serial number.
pub(crate) fn serial_number(bytes: &[u8]) -> Answer<FlatSpan>
    ensures { SpanTold (certificate {A = Arena}) bytes.now flat_span (SerialCarried Arena bytes.now) result.status result.fields }
{
    let mut nothing = Lent::nothing();
    let block = OneBlock::from_mut(&mut nothing);
    let arena = Bump::new(&block);
    values::serial_number(&arena, bytes)
}

/// What basic constraints say.
pub(crate) fn basic_constraints(octets: &[u8]) -> Answer<FlatConstraints>
    ensures { ConstraintsTold octets.now result.status result.fields }
{
    let mut nothing = Lent::nothing();
    let block = OneBlock::from_mut(&mut nothing);
    let arena = Bump::new(&block);
    flat_basic_constraints(&arena, octets)
}

/// The purposes of an extended key usage.
pub(crate) fn purposes(octets: &[u8], out: &mut [Span]) -> Sized
    ensures { PurposesFill octets.now out.old out.new result.status result.size }
{
    let mut nothing = Lent::nothing();
    let block = OneBlock::from_mut(&mut nothing);
    let arena = Bump::new(&block);
    values::purposes(&arena, octets, out)
}

/// What a key usage says.
pub(crate) fn key_usage(octets: &[u8]) -> Answer<FlatUsage>
    ensures { UsageTold octets.now result.status result.fields }
{
    let mut nothing = Lent::nothing();
    let block = OneBlock::from_mut(&mut nothing);
    let arena = Bump::new(&block);
    flat_key_usage(&arena, octets)
}

/// Whether a certificate is for a host.
pub(crate) fn host_matches(bytes: &[u8], host: &[u8]) -> Answer<bool>
    ensures { HostMatched Arena host.now bytes.now result.status result.fields }
{
    let mut nothing = Lent::nothing();
    let block = OneBlock::from_mut(&mut nothing);
    let arena = Bump::new(&block);
    values::host_matches(&arena, bytes, host)
}

/// `report` of `x509_flat_report`.
pub(crate) fn report<R: Reporter>(
    block: &OneBlock,
    reporter: &R,
    kind: Kind,
    bytes: &[u8],
    secrets: bool,
    out: &mut [u8],
) -> Sized
    ensures { Reported (R.writes Arena kind bytes.now secrets) out.old out.new result.status result.size }
{
    let arena = arena(block);
    flat_report(&arena, reporter, kind, bytes, secrets, out)
}
