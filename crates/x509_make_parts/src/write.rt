//! Bytes behind those that are written.

ghost use Rattle.std.specs.Prelude.{◌≡◌, ◌++◌, take, drop, OnOk};
ghost use Rattle.x509_der.specs.Element.{element};

use crate::fault::{Done, Fault};
use crate::lent::LentElement;
use std::alloc::Allocator;
use x509_der::{ToDer, to_vec};

/// Appends bytes.
///
/// # Errors
/// `OutOfMemory`.
pub fn append<A: Allocator>(out: &mut Vec<u8, A>, bytes: &[u8]) -> Done
    ensures { OnOk result (out.new.items ≡ out.old.items ++ bytes.now) }
{
    match out.extend_from_slice(bytes) {
        Ok(()) => Ok(()),
        Err(_) => Err(Fault::OutOfMemory),
    }
}

/// Appends the DER encoding of a value.
///
/// # Errors
/// `OutOfMemory`.
pub fn append_value<T: ToDer, A: Allocator + Copy>(
    alloc: A,
    out: &mut Vec<u8, A>,
    value: &T,
) -> Done
    ensures { OnOk result (out.new.items ≡ out.old.items ++ T.strict value.now) }
{
    match to_vec(alloc, value) {
        Ok(bytes) => append(out, bytes.as_slice()),
        Err(_) => Err(Fault::OutOfMemory),
    }
}

/// Appends the element of a tag and a content (X.690, 8.1.1).
///
/// # Errors
/// `OutOfMemory`.
pub fn append_element<A: Allocator + Copy>(
    alloc: A,
    out: &mut Vec<u8, A>,
    tag: u8,
    content: &[u8],
) -> Done
    ensures { OnOk result (out.new.items ≡ out.old.items ++ element tag content.now) }
{
    append_value(alloc, out, &LentElement::of(tag, content))
}

/// The bytes from a place on: none where it is behind all.
fn from_place(bytes: &[u8], start: usize) -> &[u8]
    ensures { result.now ≡ drop start bytes.now }
{
    if start <= bytes.len() {
        &bytes[start..]
    } else {
        &bytes[bytes.len()..]
    }
}

/// Makes what stands from a start on the content of an element.
///
/// # Errors
/// `OutOfMemory`.
pub fn wrap<A: Allocator + Copy>(alloc: A, out: &mut Vec<u8, A>, start: usize, tag: u8) -> Done
    ensures { OnOk result (out.new.items ≡ take start out.old.items ++ element tag (drop start out.old.items)) }
{
    let made = to_vec(
        alloc,
        &LentElement::of(tag, from_place(out.as_slice(), start)),
    );
    match made {
        Ok(whole) => {
            out.truncate(start);
            append(out, whole.as_slice())
        }
        Err(_) => Err(Fault::OutOfMemory),
    }
}
