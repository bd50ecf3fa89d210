//! White space and the ends of lines (RFC 7468, 3).

ghost use Rattle.std.specs.Prelude.{◌≡◌, ◌≤◌, ◌<◌, ◌-◌, ◌+◌, ◌++◌, ℕ, true, false, length, slice_index, OnOk};
ghost use Rattle.x509_pem.specs.Line.{IsTrimmed};
ghost use Rattle.x509_pem.specs.Text.{is_line_end as ends_line, is_white as white, solid};

use std::alloc::{AllocError, Allocator};

/// Whether a byte ends a line.
pub(crate) fn is_line_end(byte: u8) -> bool
    ensures { result ≡ ends_line byte }
{
    byte == b'\n' || byte == b'\r'
}

/// Whether a byte is white space.
pub(crate) fn is_white(byte: u8) -> bool
    ensures { result ≡ white byte }
{
    is_line_end(byte) || matches!(byte, b' ' | b'\t' | 11 | 12)
}

/// Where the first byte stands that isn't white space: at the end, where all is.
fn front_end(bytes: &[u8]) -> usize
    ensures bound { result ≤ length bytes.now }
    ensures white { (k : ℕ) → k < result → white (slice_index bytes.now k) ≡ true }
    ensures other { result < length bytes.now → white (slice_index bytes.now result) ≡ false }
{
    'bytes: for at in 0..bytes.len() {
        if !is_white(bytes[at]) {
            return at;
        }
    }
    bytes.len()
}

/// Where the white space begins that stands at the end, `start` at the earliest.
pub(crate) fn back_start(bytes: &[u8], start: usize) -> usize
    requires { start ≤ length bytes.now }
    ensures low { start ≤ result }
    ensures bound { result ≤ length bytes.now }
    ensures white { (k : ℕ) → result ≤ k → k < length bytes.now → white (slice_index bytes.now k) ≡ true }
    ensures other { start < result → white (slice_index bytes.now (result - 1)) ≡ false }
{
    let mut end = bytes.len();
    'bytes: while end > start && is_white(bytes[end - 1]) {
        end -= 1;
    }
    end
}

/// The bytes without the white space at both ends.
pub(crate) fn trimmed(bytes: &[u8]) -> &[u8]
    ensures { IsTrimmed bytes.now result.now }
{
    let start = front_end(bytes);
    let end = back_start(bytes, start);
    &bytes[start..end]
}

/// How many bytes aren't white space.
pub(crate) fn solid_len(bytes: &[u8]) -> usize
    ensures { result ≡ length (solid bytes.now) }
{
    let mut len = 0;
    'bytes: for byte in bytes {
        if !is_white(*byte) {
            len += 1;
        }
    }
    len
}

/// Appends the bytes that aren't white space.
///
/// # Errors
/// Memory is refused.
pub(crate) fn append_solid<A: Allocator>(
    text: &mut Vec<u8, A>,
    bytes: &[u8],
) -> Result<(), AllocError>
    ensures ok { OnOk result (text.new.items ≡ text.old.items ++ solid bytes.now) }
    ensures bound { length text.new.items ≤ length text.old.items + length (solid bytes.now) }
{
    'bytes: for byte in bytes {
        if !is_white(*byte) && text.push(*byte).is_err() {
            return Err(AllocError);
        }
    }
    Ok(())
}
