//! PEM in a text of a description.

use std::alloc::Allocator;
use x509_make_parts::Fault;
use x509_pem::{Cursor, Span, TextBlock, decode_in, next_in, room_for};

/// The bytes that a span says.
fn part(bytes: &[u8], span: Span) -> &[u8] {
    if span.start <= span.end && span.end <= bytes.len() {
        &bytes[span.start..span.end]
    } else {
        &bytes[bytes.len()..]
    }
}

/// The first block of a text.
fn first_block(text: &str) -> Option<TextBlock> {
    let front = Cursor {
        at: 0,
        line: 0,
        returned: false,
    };
    next_in(text.as_bytes(), front)
}

/// The bytes of base64 with white space between.
fn decoded<A: Allocator + Copy>(alloc: A, symbols: &[u8]) -> Result<Vec<u8, A>, Fault> {
    let Ok(mut bytes) = Vec::from_elem(alloc, 0u8, room_for(symbols)) else {
        return Err(Fault::OutOfMemory);
    };
    match decode_in(symbols, bytes.as_mut_slice()) {
        Some(count) => {
            bytes.truncate(count);
            Ok(bytes)
        }
        None => Err(Fault::Not("base64")),
    }
}

/// Whether a text begins with a line of PEM.
pub(crate) fn is_pem(text: &str) -> bool {
    text.trim_start().starts_with("-----BEGIN ")
}

/// Whether a text begins with the PEM of a request.
pub(crate) fn is_request(text: &str) -> bool {
    text.trim_start()
        .starts_with("-----BEGIN CERTIFICATE REQUEST-----")
}

/// The bytes of the first block of a text, which must have a label.
///
/// # Errors
/// What is asked for, where it has another label, or there is no block; `Not` where it isn't base64.
pub(crate) fn pem_bytes<A: Allocator + Copy>(
    alloc: A,
    text: &str,
    label: &'static str,
    what: &'static str,
) -> Result<Vec<u8, A>, Fault> {
    let Some(block) = first_block(text) else {
        return Err(Fault::Not(what));
    };
    if block.fault.is_some() || part(text.as_bytes(), block.label) != label.as_bytes() {
        return Err(Fault::Not(what));
    }
    decoded(alloc, part(text.as_bytes(), block.symbols))
}
