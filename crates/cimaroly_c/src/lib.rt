//! The calls for C and for WebAssembly, over memory that the caller lends: no other memory is ever taken.
//! `bindings/c/cimaroly.h` documents them.
#![tactic(auto)]

ghost use Rattle.std.specs.Prelude.{◌≡◌, ◌+◌, ◌/◌, ◌≤◌, length};
ghost use Rattle.x509_flat.specs.Checks.{TellsOf, no_verdict};
ghost use Rattle.x509_flat.specs.Encodings.{EncodesOf, Untouched};
ghost use Rattle.x509_flat.specs.Extensions.{CarriedTold, ListTold};
ghost use Rattle.x509_flat.specs.Fields.{CertificateTold, PrivateKeyTold, RequestTold};
ghost use Rattle.x509_flat.specs.Places.{PlacesOf};
ghost use Rattle.x509_flat.specs.SignedParts.{SignedOf, no_signed};
ghost use Rattle.x509_flat.specs.Validities.{ValidityTold};
ghost use Rattle.x509_flat_report.specs.Reports.{Reported};
ghost use Rattle.cimaroly_c.specs.Exports.{Answers, AnswersFor, Arena, IsKind};

mod findings;
mod keys;
mod making;
mod oids;
mod outlines;
mod over;
mod over_keys;
mod over_making;
mod over_services;
mod pem;
mod services;
mod values;
mod version;

use lent_memory::{Lent, OneBlock};
use x509_flat::certificate_fields::FlatCertificate;
use x509_flat::check::Verdict;
use x509_flat::extensions::FlatExtension;
use x509_flat::kind::Kind;
use x509_flat::places::FlatPlace;
use x509_flat::private_key_fields::FlatPrivateKey;
use x509_flat::request_fields::FlatRequest;
use x509_flat::signed_part::FlatSigned;
use x509_flat::status::Status;
use x509_flat::validity::FlatTime;
use x509_flat_report::{Objects, Reporter};

/// Whether the input encodes a value of the kind, and how it deviates from the value's DER encoding.
#[unsafe(no_mangle)]
pub extern "C" fn cimaroly_check(kind: u32, der: &[u8], verdict: &mut Verdict) -> u32
    ensures known { IsKind kind → AnswersFor kind result (λ k status. TellsOf Arena k der.now status verdict.new) }
    ensures bound { verdict.new.headers ≤ length der.now / 2 + 1 }
    ensures unknown { (IsKind kind → ⊥) → (result ≡ 4) × (verdict.new ≡ no_verdict) }
{
    let Some(known) = Kind::from_number(kind) else {
        *verdict = Verdict::none();
        return Status::UnknownKind.number();
    };
    let checked = over::check(known, der);
    *verdict = checked.verdict;
    checked.status.number()
}

/// Writes the DER encoding of the value that the input encodes to the front of a buffer.
#[unsafe(no_mangle)]
pub extern "C" fn cimaroly_encode(
    memory: &mut Lent,
    kind: u32,
    der: &[u8],
    out: &mut [u8],
    size: &mut usize,
) -> u32
    ensures known { IsKind kind → AnswersFor kind result (λ k status. EncodesOf Arena k der.now out.old out.new status size.new) }
    ensures unknown { (IsKind kind → ⊥) → (result ≡ 4) × Untouched out.old out.new size.new }
{
    let Some(known) = Kind::from_number(kind) else {
        *size = 0;
        return Status::UnknownKind.number();
    };
    let block = OneBlock::from_mut(memory);
    let sized = over::encode(&block, known, der, out);
    block.give_back(memory);
    *size = sized.size;
    sized.status.number()
}

/// Writes where each deviation stands to the front of a buffer.
#[unsafe(no_mangle)]
pub extern "C" fn cimaroly_places(
    memory: &mut Lent,
    kind: u32,
    der: &[u8],
    places: &mut [FlatPlace],
    count: &mut usize,
) -> u32
    ensures known { IsKind kind → AnswersFor kind result (λ k status. PlacesOf Arena k der.now places.old places.new status count.new) }
    ensures unknown { (IsKind kind → ⊥) → (result ≡ 4) × Untouched places.old places.new count.new }
{
    let Some(known) = Kind::from_number(kind) else {
        *count = 0;
        return Status::UnknownKind.number();
    };
    let block = OneBlock::from_mut(memory);
    let sized = over::places(&block, known, der, places);
    block.give_back(memory);
    *count = sized.size;
    sized.status.number()
}

/// What the signature covers of a structure of a kind that is signed.
#[unsafe(no_mangle)]
pub extern "C" fn cimaroly_signed_part(kind: u32, der: &[u8], part: &mut FlatSigned) -> u32
    ensures known { IsKind kind → AnswersFor kind result (λ k status. SignedOf Arena k der.now status part.new) }
    ensures unknown { (IsKind kind → ⊥) → (result ≡ 4) × (part.new ≡ no_signed) }
{
    let Some(known) = Kind::from_number(kind) else {
        *part = FlatSigned::none();
        return Status::UnknownKind.number();
    };
    let answer = over::signed_part(known, der);
    *part = answer.signed;
    answer.status.number()
}

/// Where the fields of a certificate stand.
#[unsafe(no_mangle)]
pub extern "C" fn cimaroly_certificate_fields(der: &[u8], fields: &mut FlatCertificate) -> u32
    ensures { Answers result (λ status. CertificateTold Arena der.now status fields.new) }
{
    let answer = over::certificate_fields(der);
    *fields = answer.fields;
    answer.status.number()
}

/// Where the fields of a request stand.
#[unsafe(no_mangle)]
pub extern "C" fn cimaroly_request_fields(der: &[u8], fields: &mut FlatRequest) -> u32
    ensures { Answers result (λ status. RequestTold Arena der.now status fields.new) }
{
    let answer = over::request_fields(der);
    *fields = answer.fields;
    answer.status.number()
}

/// Where the fields of a private key stand.
#[unsafe(no_mangle)]
pub extern "C" fn cimaroly_private_key_fields(der: &[u8], fields: &mut FlatPrivateKey) -> u32
    ensures { Answers result (λ status. PrivateKeyTold Arena der.now status fields.new) }
{
    let answer = over::private_key_fields(der);
    *fields = answer.fields;
    answer.status.number()
}

/// Writes where each extension of a certificate, kind 1, or of a list, kind 9, stands to the front of a buffer.
#[unsafe(no_mangle)]
pub extern "C" fn cimaroly_extensions(
    kind: u32,
    der: &[u8],
    extensions: &mut [FlatExtension],
    count: &mut usize,
) -> u32
    ensures certificate { kind ≡ 1 → Answers result (λ status. CarriedTold Arena der.now extensions.old extensions.new status count.new) }
    ensures list { kind ≡ 9 → Answers result (λ status. ListTold Arena der.now extensions.old extensions.new status count.new) }
    ensures unknown { (kind ≡ 1 → ⊥) → (kind ≡ 9 → ⊥) → (result ≡ 4) × Untouched extensions.old extensions.new count.new }
{
    if kind != 1 && kind != 9 {
        *count = 0;
        return Status::UnknownKind.number();
    }
    let sized = if kind == 1 {
        over::certificate_extensions(der, extensions)
    } else {
        over::list_extensions(der, extensions)
    };
    *count = sized.size;
    sized.status.number()
}

/// Between which times a certificate is valid.
#[unsafe(no_mangle)]
pub extern "C" fn cimaroly_validity(
    der: &[u8],
    not_before: &mut FlatTime,
    not_after: &mut FlatTime,
) -> u32
    ensures { Answers result (λ status. ValidityTold Arena der.now status not_before.new not_after.new) }
{
    let answer = over::validity(der);
    *not_before = answer.fields.not_before;
    *not_after = answer.fields.not_after;
    answer.status.number()
}

/// Writes what stands in the input to the front of a buffer, as one JSON object.
#[unsafe(no_mangle)]
pub extern "C" fn cimaroly_report(
    memory: &mut Lent,
    kind: u32,
    der: &[u8],
    secrets: bool,
    out: &mut [u8],
    size: &mut usize,
) -> u32
    ensures known { IsKind kind → AnswersFor kind result (λ k status. Reported (⟦<Objects as Reporter>⟧.writes Arena k der.now secrets) out.old out.new status size.new) }
    ensures unknown { (IsKind kind → ⊥) → (result ≡ 4) × Untouched out.old out.new size.new }
{
    report_by(&Objects, memory, kind, der, secrets, out, size)
}

/// `cimaroly_report` over any reporter: what is written is an object of it about this input as this kind, with the secret
/// numbers of private keys where they are asked for.
fn report_by<R: Reporter>(
    reporter: &R,
    memory: &mut Lent,
    kind: u32,
    der: &[u8],
    secrets: bool,
    out: &mut [u8],
    size: &mut usize,
) -> u32
    ensures known { IsKind kind → AnswersFor kind result (λ k status. Reported (R.writes Arena k der.now secrets) out.old out.new status size.new) }
    ensures unknown { (IsKind kind → ⊥) → (result ≡ 4) × Untouched out.old out.new size.new }
{
    let Some(known) = Kind::from_number(kind) else {
        *size = 0;
        return Status::UnknownKind.number();
    };
    let block = OneBlock::from_mut(memory);
    let sized = over::report(&block, reporter, known, der, secrets, out);
    block.give_back(memory);
    *size = sized.size;
    sized.status.number()
}
