//! BIT STRINGs.

ghost use Rattle.std.specs.Prelude.{OnOk};
ghost use Rattle.x509_make_parts.specs.Appending.{AppendsElement};

use crate::hexadecimal::hex_bytes;
use json::Value;
use std::alloc::Allocator;
use x509_der::BitString;
use x509_make_parts::node::{check_leaf, text_of};
use x509_make_parts::{Done, Fault, Maker};

/// How many bits a node says that there are, or all that so many bytes have.
fn count_of<A: Allocator + Copy>(node: &Value<'_, A>, bytes: usize) -> Result<usize, Fault> {
    let all = bytes.saturating_mul(8);
    let Some(told) = node.get("bits") else {
        return Ok(all);
    };
    match told.as_u64() {
        Some(count) if count <= all as u64 && all as u64 - count < 8 => Ok(count as usize),
        _ => Err(Fault::Said("bits is another number than value has")),
    }
}

/// Appends a string of the bits that a node says in hexadecimal, under a tag. Its member `bits` says how many there are,
/// where these aren't all of the bytes (X.690, 8.6).
///
/// # Errors
/// `Not` where it says none, `Said` where `bits` doesn't fit, and those of `check_leaf`.
pub fn bits<A: Allocator + Copy>(maker: &mut Maker<A>, tag: u8, node: &Value<'_, A>) -> Done
    ensures { OnOk result (AppendsElement tag maker.old.out.items maker.new.out.items) }
{
    check_leaf(&mut maker.place, node)?;
    let text = text_of(node, "hexadecimal bytes")?;
    let bytes = hex_bytes(maker.alloc, text)?;
    let count = count_of(node, bytes.len())?;
    let Ok(string) = BitString::with_bytes_and_len(bytes, count) else {
        return Err(Fault::OutOfMemory);
    };
    let start = maker.open();
    maker.put(&[string.get_num_unused_bits()])?;
    maker.put(string.payload_view())?;
    maker.close(start, tag)
}
