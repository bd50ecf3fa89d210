//! Parts of an input that the port may read.

use std::alloc::{AllocError, Allocator};
use x509_der::{FromDer, ReadError, from_bytes};
use x509_report_parts::{Cursor, Element, Span};

/// The bytes of an input at a place; none where it doesn't lie in the input.
pub(crate) fn slice_at(bytes: &[u8], span: Span) -> &[u8] {
    bytes.get(span.start..span.end).unwrap_or(&[])
}

/// The element at the start of an input.
pub(crate) fn first_at(bytes: &[u8]) -> Element<'_> {
    let mut cursor = Cursor::new(bytes);
    cursor.next()
}

/// Bytes as a type that the port reads; `None` where they encode no value of it.
///
/// # Errors
/// `AllocError` where memory is refused.
pub(crate) fn known<T: FromDer<A>, A: Allocator + Copy>(
    alloc: A,
    bytes: &[u8],
) -> Result<Option<T>, AllocError> {
    match from_bytes::<T, A>(alloc, bytes) {
        Ok(value) => Ok(Some(value)),
        Err(ReadError::OutOfMemory) => Err(AllocError),
        Err(_) => Ok(None),
    }
}
