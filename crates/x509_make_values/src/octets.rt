//! OCTET STRINGs, and elements that are given as they are.

ghost use Rattle.std.specs.Prelude.{◌≡◌, ◌++◌, List, ℕ, OnOk};
ghost use Rattle.x509_der.specs.Element.{element};
ghost use Rattle.x509_make_parts.specs.Appending.{Appends};

use crate::hexadecimal::hex_bytes;
use json::Value;
use std::alloc::Allocator;
use x509_make_parts::node::{check_leaf, text_of};
use x509_make_parts::{Done, Fault, Maker};

/// The bytes that a node says.
fn bytes_of<A: Allocator + Copy>(alloc: A, node: &Value<'_, A>) -> Result<Vec<u8, A>, Fault> {
    let text = text_of(node, "hexadecimal bytes")?;
    hex_bytes(alloc, text)
}

/// Appends a string of the bytes that a node says in hexadecimal, under a tag.
///
/// # Errors
/// `Not` where it says none, `Said` where they are hidden, and those of `check_leaf`.
pub fn octets<A: Allocator + Copy>(maker: &mut Maker<A>, tag: u8, node: &Value<'_, A>) -> Done
    ensures { OnOk result ((content : List ℕ) × (maker.new.out.items ≡ maker.old.out.items ++ element tag content)) }
{
    check_leaf(&mut maker.place, node)?;
    let bytes = bytes_of(maker.alloc, node)?;
    maker.element(tag, bytes.as_slice())
}

/// Appends the elements that a node gives in hexadecimal.
///
/// # Errors
/// As `octets`.
pub fn given<A: Allocator + Copy>(maker: &mut Maker<A>, node: &Value<'_, A>) -> Done
    ensures { OnOk result (Appends maker.old.out.items maker.new.out.items) }
{
    check_leaf(&mut maker.place, node)?;
    let bytes = bytes_of(maker.alloc, node)?;
    maker.put(bytes.as_slice())
}
