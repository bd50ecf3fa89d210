//! Where something stands in an input.

ghost use Rattle.std.specs.Prelude.{◌≡◌};
ghost use Rattle.x509_flat.specs.Spans.{flat_span, flat_span_if};

use x509_fields::Span;

/// The bytes of an input from `start` up to `end`. Of what the input doesn't have, both are 0.
#[repr(C)]
#[derive(Clone, Copy, Debug, PartialEq, Eq)]
pub struct FlatSpan {
    /// How many bytes of the input stand before it.
    pub start: usize,
    /// How many bytes of the input stand before its end.
    pub end: usize,
}

impl FlatSpan {
    /// The same bytes.
    pub fn of(span: Span) -> Self
        ensures { result ≡ flat_span span }
    {
        FlatSpan {
            start: span.start,
            end: span.end,
        }
    }

    /// The same bytes, where there are any.
    pub fn of_optional(span: Option<Span>) -> Self
        ensures { result ≡ flat_span_if span }
    {
        match span {
            Some(span) => FlatSpan::of(span),
            None => FlatSpan { start: 0, end: 0 },
        }
    }
}
