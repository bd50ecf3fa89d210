//! The value of a field that stands in a span.

ghost use Rattle.std.specs.Prelude.{IfOk, IfErr};
ghost use Rattle.x509_values.specs.Values.{IsValueIn, NoValueIn};

use std::alloc::Allocator;
use x509_der::laws::spellings_are_lawful;
use x509_der::{FromDer, ReadError, from_bytes};
use x509_fields::Span;

/// The value that a span of an input encodes. Takes no memory where reading the type takes none.
///
/// # Errors
/// Where the type takes no memory, refused only where the span encodes no value.
pub fn value_within<T: FromDer<A>, A: Allocator + Copy>(
    alloc: A,
    bytes: &[u8],
    span: Span,
) -> Result<T, ReadError>
    ensures ok { IfOk result (IsValueIn T.shape bytes.now span) }
    ensures err { T.shape.frugal → IfErr result (λ e. NoValueIn T.shape bytes.now span) }
{
    spellings_are_lawful::<T, A>();
    from_bytes::<T, A>(alloc, span.slice(bytes).unwrap_or(&[]))
}
