//! Files that become texts of a description.

ghost use Rattle.std.specs.Prelude.{◌≡◌, ◌∷◌, [], ◌++◌, IfOk};
ghost use Rattle.std.specs.String.{string_bytes};
ghost use Rattle.base64.specs.Engines.{standard};
ghost use Rattle.base64.specs.GeneralPurpose.{encode_of};

use base64::engine::general_purpose::STANDARD;
use std::alloc::{AllocError, Allocator};
use x509_pem_writer::pem_text;

/// What begins a block of PEM.
const BEGIN: &str = "-----BEGIN ";

/// The PEM in a file, from its first block on; `None` if there is none.
fn pem_in(bytes: &[u8]) -> Option<&str> {
    let text = std::str::from_utf8(bytes).ok()?;
    let at = text.find(BEGIN)?;
    Some(&text[at..])
}

/// What a description has of a file: its PEM, from the first block on, or its bytes as a block with a label.
///
/// # Errors
/// `AllocError` where memory is refused.
pub fn as_pem<A: Allocator + Copy>(
    alloc: A,
    label: &str,
    bytes: &[u8],
) -> Result<String<A>, AllocError> {
    if let Some(text) = pem_in(bytes) {
        return String::from_str(alloc, text);
    }
    let block = pem_text(alloc, label, bytes)?;
    match String::from_utf8(block) {
        Ok(text) => Ok(text),
        // a block is ASCII, as its label is
        Err(_) => Err(AllocError),
    }
}

/// Bytes in base64, with a line feed behind them.
///
/// # Errors
/// `AllocError` where memory is refused.
pub fn base64_line<A: Allocator + Copy>(alloc: A, bytes: &[u8]) -> Result<String<A>, AllocError>
    ensures { IfOk result (λ l. string_bytes l ≡ encode_of standard bytes.now ++ 10 ∷ []) }
{
    let mut line = STANDARD.encode(alloc, bytes)?;
    line.push('\n')?;
    Ok(line)
}
