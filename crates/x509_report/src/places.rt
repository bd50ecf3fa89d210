//! Where fields stand, as the calls of `x509_fields` tell it.

ghost use Rattle.std.specs.Prelude.{◌≡◌};

use picky_asn1_x509::Extension;
use std::alloc::Allocator;
use x509_fields::{ExtensionFields, Span as FieldSpan};
use x509_report_parts::{Cursor, Element, Span};

/// A place, as a report tells it.
pub(crate) fn place(span: FieldSpan) -> Span
    ensures start { result.start ≡ span.start }
    ensures end { result.end ≡ span.end }
{
    let FieldSpan { start, end } = span;
    Span { start, end }
}

/// The field of an input that stands in a span, and what is in it.
pub(crate) fn field_at(bytes: &[u8], span: FieldSpan) -> Element<'_>
    ensures start { result.span.start ≡ span.start }
    ensures end { result.span.end ≡ span.end }
{
    let mut fields = Cursor::new(bytes).behind(span.start);
    let found = fields.next();
    Element {
        tag: found.tag,
        span: place(span),
        inside: found.inside,
    }
}

/// The place of a whole input.
pub(crate) fn whole(bytes: &[u8]) -> Span {
    Span {
        start: 0,
        end: bytes.len(),
    }
}

/// The OCTET STRING with the value of an extension that stands at a place of an input.
pub(crate) fn extn_value_at<'a, A: Allocator + Copy>(
    bytes: &'a [u8],
    at: Span,
    extension: &Extension<A>,
) -> Element<'a> {
    let Span { start, end } = at;
    let slice = FieldSpan { start, end }.slice(bytes).unwrap_or(&[]);
    let inside = ExtensionFields::of(extension, slice).extn_value;
    let span = FieldSpan {
        start: start.saturating_add(inside.start),
        end: start.saturating_add(inside.end),
    };
    field_at(bytes, span)
}
