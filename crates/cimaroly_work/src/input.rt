//! Reading all of an input.

use crate::stop::Stop;
use std::alloc::Global;
use std::io::{self, Read};

/// How many bytes the form of an input is told by.
pub const FRONT: usize = 65536;

/// How many bytes an input other than PEM must stay below, and a PEM block's text may have.
pub const LONGEST: usize = 1 << 26;

/// Reads the front of an input.
///
/// # Errors
/// The input failed, or memory is refused.
pub fn read_front<R: Read>(alloc: Global, input: &mut R) -> io::Result<Vec<u8>> {
    let mut front = Vec::new(alloc);
    let mut limited = input.take(FRONT as u64);
    limited.read_to_end(&mut front)?;
    Ok(front)
}

/// Reads the rest of an input behind its front, up to some more than `LONGEST` bytes. Answers whether it has fewer.
///
/// # Errors
/// The input failed, or memory is refused.
pub fn read_rest<R: Read>(front: &mut Vec<u8>, input: &mut R) -> io::Result<bool> {
    let mut limited = input.take(LONGEST as u64);
    limited.read_to_end(front)?;
    Ok(front.len() < LONGEST)
}

/// The bytes that hexadecimal digits with white space between them stand for; `None` where these aren't such.
///
/// # Errors
/// Memory is refused.
pub fn decoded(alloc: Global, text: &[u8]) -> Result<Option<Vec<u8>>, Stop> {
    let mut digits = Vec::with_capacity(alloc, text.len())?;
    for byte in text {
        if !byte.is_ascii_whitespace() && digits.push(*byte).is_err() {
            return Err(Stop::memory());
        }
    }
    match hex::decode(alloc, digits.as_slice()) {
        Ok(bytes) => Ok(Some(bytes)),
        Err(hex::FromHexError::OutOfMemory) => Err(Stop::memory()),
        Err(_) => Ok(None),
    }
}
