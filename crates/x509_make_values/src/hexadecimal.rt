//! Bytes in hexadecimal.

use hex::FromHexError;
use std::alloc::Allocator;
use x509_make_parts::Fault;

/// Whether pairs of digits stand between the colons of a text, if it has any.
fn is_paired(text: &str) -> bool {
    text.is_empty()
        || text
            .split(':')
            .all(|part| !part.is_empty() && part.len() % 2 == 0)
}

/// A text without its colons.
fn without_colons<A: Allocator>(alloc: A, text: &str) -> Result<Vec<u8, A>, Fault> {
    let mut digits: Vec<u8, A> = Vec::new(alloc);
    for byte in text.as_bytes() {
        if *byte != b':' && digits.push(*byte).is_err() {
            return Err(Fault::OutOfMemory);
        }
    }
    Ok(digits)
}

/// The bytes that a text says in hexadecimal, with or without colons between them.
///
/// # Errors
/// `Not` where it says none, and `OutOfMemory`.
pub fn hex_bytes<A: Allocator + Copy>(alloc: A, text: &str) -> Result<Vec<u8, A>, Fault> {
    if !is_paired(text) {
        return Err(Fault::Not("hexadecimal bytes: pairs of digits"));
    }
    let digits = without_colons(alloc, text)?;
    match hex::decode(alloc, digits.as_slice()) {
        Ok(bytes) => Ok(bytes),
        Err(FromHexError::OutOfMemory) => Err(Fault::OutOfMemory),
        Err(_) => Err(Fault::Not("hexadecimal bytes: pairs of digits")),
    }
}
