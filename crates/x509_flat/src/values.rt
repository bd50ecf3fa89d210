//! Values of certificates: where the attributes of their names stand, general names, the extension with an identifier, the
//! serial number. No call takes memory.

ghost use Rattle.std.specs.Prelude.{◌≡◌};
ghost use Rattle.picky_asn1_x509.specs.Certificates.{certificate};
ghost use Rattle.x509_values.specs.Certificates.{ExtensionCarried, SerialCarried};
ghost use Rattle.x509_flat.specs.Hosts.{HostMatched};
ghost use Rattle.x509_flat.specs.Purposes.{PurposesFill};
ghost use Rattle.x509_flat.specs.Spans.{flat_span, flat_span_if};
ghost use Rattle.x509_flat.specs.Values.{FrontTold, GeneralNamesTold, NameFills, SpanTold};

use crate::span::FlatSpan;
use crate::status::{Answer, Sized, Status, unsized_of};
use picky_asn1_x509::{ExtendedKeyUsage, check};
use std::alloc::Allocator;
use x509_der::laws::spellings_are_lawful;
use x509_fields::Span;
use x509_names::GeneralNames;
use x509_values::{AttributePlace, GeneralNamePlace, general_names_within, purposes_within};

/// What is told of so many items, of which those are written for which there is room.
fn front_of(count: usize, room: usize) -> Sized
    ensures size { result.size ≡ count }
    ensures status { FrontTold result.status count room }
{
    let status = if room < count {
        Status::TooShort
    } else {
        Status::Done
    };
    Sized {
        status,
        size: count,
    }
}

/// Writes where the attributes of a certificate's subject stand, as far as there is room, and tells how many there are.
pub fn subject_attributes<A: Allocator + Copy>(
    alloc: A,
    bytes: &[u8],
    out: &mut [AttributePlace],
) -> Sized
    ensures { NameFills {A = A} (λ v. v.tbs_certificate.subject) bytes.now out.old out.new result.status result.size }
{
    let room = out.len();
    match x509_values::subject_attributes(alloc, bytes, out) {
        Ok(count) => front_of(count, room),
        Err(error) => unsized_of(error),
    }
}

/// The same of its issuer.
pub fn issuer_attributes<A: Allocator + Copy>(
    alloc: A,
    bytes: &[u8],
    out: &mut [AttributePlace],
) -> Sized
    ensures { NameFills {A = A} (λ v. v.tbs_certificate.issuer) bytes.now out.old out.new result.status result.size }
{
    let room = out.len();
    match x509_values::issuer_attributes(alloc, bytes, out) {
        Ok(count) => front_of(count, room),
        Err(error) => unsized_of(error),
    }
}

/// Writes where the general names of a list stand (RFC 5280, 4.2.1.6), as far as there is room, and tells how many there
/// are.
pub fn general_names<A: Allocator + Copy>(
    alloc: A,
    bytes: &[u8],
    out: &mut [GeneralNamePlace],
) -> Sized
    ensures { GeneralNamesTold A bytes.now out.old out.new result.status result.size }
{
    spellings_are_lawful::<GeneralNames<A>, A>();
    let whole = Span {
        start: 0,
        end: bytes.len(),
    };
    let room = out.len();
    match check::<GeneralNames<A>, A>(alloc, bytes) {
        Ok(_deviations) => front_of(general_names_within::<A>(bytes, whole, out), room),
        Err(error) => unsized_of(error),
    }
}

/// Writes where the contents of the object identifiers stand of an extended key usage (RFC 5280, 4.2.1.12), which the octets
/// of an extension's value encode, as far as there is room, and tells how many there are.
pub fn purposes<A: Allocator + Copy>(alloc: A, octets: &[u8], out: &mut [Span]) -> Sized
    ensures { PurposesFill octets.now out.old out.new result.status result.size }
{
    spellings_are_lawful::<ExtendedKeyUsage<A>, A>();
    let whole = Span {
        start: 0,
        end: octets.len(),
    };
    let room = out.len();
    match check::<ExtendedKeyUsage<A>, A>(alloc, octets) {
        Ok(_deviations) => front_of(purposes_within::<A>(octets, whole, out), room),
        Err(error) => unsized_of(error),
    }
}

/// Where the content of the OCTET STRING stands that holds the value of a certificate's first extension with an identifier,
/// which is given by the content of its OBJECT IDENTIFIER.
pub fn find_extension<A: Allocator + Copy>(
    alloc: A,
    bytes: &[u8],
    identifier: &[u8],
) -> Answer<FlatSpan>
    ensures { SpanTold (certificate {A = A}) bytes.now flat_span_if (ExtensionCarried A identifier.now bytes.now) result.status result.fields }
{
    match x509_values::find_extension(alloc, bytes, identifier) {
        Ok(found) => Answer::done(FlatSpan::of_optional(found)),
        Err(error) => Answer::refused(error, FlatSpan { start: 0, end: 0 }),
    }
}

/// Where the content of a certificate's serial number stands.
pub fn serial_number<A: Allocator + Copy>(alloc: A, bytes: &[u8]) -> Answer<FlatSpan>
    ensures { SpanTold (certificate {A = A}) bytes.now flat_span (SerialCarried A bytes.now) result.status result.fields }
{
    match x509_values::serial_number(alloc, bytes) {
        Ok(found) => Answer::done(FlatSpan::of(found)),
        Err(error) => Answer::refused(error, FlatSpan { start: 0, end: 0 }),
    }
}

/// Whether a certificate is for the host that a text writes (RFC 9525, 6), as `host_matches` of `x509_values` says; where
/// the bytes encode no certificate, it isn't.
pub fn host_matches<A: Allocator + Copy>(alloc: A, bytes: &[u8], host: &[u8]) -> Answer<bool>
    ensures { HostMatched A host.now bytes.now result.status result.fields }
{
    match x509_values::host_matches(alloc, bytes, host) {
        Ok(matches) => Answer::done(matches),
        Err(error) => Answer::refused(error, false),
    }
}
