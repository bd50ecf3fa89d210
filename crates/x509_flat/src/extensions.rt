//! Where extensions stand.

ghost use Rattle.std.specs.Prelude.{◌≡◌, ◌+◌, ◌<◌, ◌≤◌, ◌^◌, length};
ghost use Rattle.x509_flat.specs.Extensions.{CarriedTold, Fronts, ListTold, PlacedAt, PutsAll};
ghost use Rattle.x509_flat.specs.Spans.{flat_span};

use crate::span::FlatSpan;
use crate::status::{Sized, Status, unsized_of};
use picky_asn1_x509::{Certificate, Extension, Extensions, check, laws};
use std::alloc::Allocator;
use x509_fields::{ExtensionFields, Span, Walk, certificate_items, listed_items};

/// Where an extension and its fields stand, each with its tag and its length (RFC 5280, 4.1).
#[repr(C)]
#[derive(Clone, Copy, Debug, PartialEq, Eq)]
pub struct FlatExtension {
    /// The extension.
    pub whole: FlatSpan,
    /// `extnID OBJECT IDENTIFIER`.
    pub extn_id: FlatSpan,
    /// `critical BOOLEAN DEFAULT FALSE`.
    pub critical: FlatSpan,
    /// `extnValue OCTET STRING`.
    pub extn_value: FlatSpan,
}

/// A span behind more bytes.
fn behind(start: usize, span: Span) -> FlatSpan
    ensures start { start + span.start < 2 ^ 64 → result.start ≡ start + span.start }
    ensures end { start + span.end < 2 ^ 64 → result.end ≡ start + span.end }
{
    FlatSpan {
        start: start.saturating_add(span.start),
        end: start.saturating_add(span.end),
    }
}

/// Where an extension and its fields stand in an input, of which a span encodes it.
fn placed<A: Allocator + Copy>(bytes: &[u8], span: Span) -> FlatExtension
    ensures whole { result.whole ≡ flat_span span }
    ensures stands { PlacedAt A bytes.now span result }
{
    let slice = span.slice(bytes).unwrap_or(&[]);
    let fields = ExtensionFields::within::<A>(slice);
    FlatExtension {
        whole: FlatSpan::of(span),
        extn_id: behind(span.start, fields.extn_id),
        critical: match fields.critical {
            Some(critical) => behind(span.start, critical),
            None => FlatSpan { start: 0, end: 0 },
        },
        extn_value: behind(span.start, fields.extn_value),
    }
}

/// Writes where so many extensions stand in an input, which are walked over.
fn write_places<A: Allocator + Copy>(
    size: usize,
    bytes: &[u8],
    items: Walk<'_>,
    out: &mut [FlatExtension],
)
    requires { size ≤ length out.old }
    ensures { Fronts A size bytes.now items.entry.at items.entry.rest out.old out.new }
{
    laws::spellings_are_lawful::<Extension<A>, A>();
    let mut items = items;
    for index in 0..size {
        let span = items.next();
        out[index] = placed::<A>(bytes, span);
    }
}

/// Writes where the extensions of a list stand, which is walked over, to the front of a slice that may be too short, and
/// tells how many there are.
fn put_places<A: Allocator + Copy>(
    bytes: &[u8],
    items: Walk<'_>,
    out: &mut [FlatExtension],
) -> Sized
    ensures { PutsAll A bytes.now items.entry.at items.entry.rest out.old out.new result.status result.size }
{
    laws::spellings_are_lawful::<Extension<A>, A>();
    let size = items.count();
    if out.len() < size {
        return Sized::too_short(size);
    }
    write_places::<A>(size, bytes, items, out);
    Sized {
        status: Status::Done,
        size,
    }
}

/// Writes where each extension of a certificate stands, and tells how many there are. It takes no memory.
pub fn of_certificate<A: Allocator + Copy>(
    alloc: A,
    bytes: &[u8],
    out: &mut [FlatExtension],
) -> Sized
    ensures { CarriedTold A bytes.now out.old out.new result.status result.size }
{
    match check::<Certificate<A>, A>(alloc, bytes) {
        Ok(_deviations) => put_places::<A>(bytes, certificate_items::<A>(bytes), out),
        Err(error) => unsized_of(error),
    }
}

/// Writes where each extension of a list stands, and tells how many there are. It takes no memory.
pub fn of_extensions<A: Allocator + Copy>(
    alloc: A,
    bytes: &[u8],
    out: &mut [FlatExtension],
) -> Sized
    ensures { ListTold A bytes.now out.old out.new result.status result.size }
{
    match check::<Extensions<A>, A>(alloc, bytes) {
        Ok(_deviations) => put_places::<A>(bytes, listed_items::<A>(bytes), out),
        Err(error) => unsized_of(error),
    }
}
