//! INTEGERs.

ghost use Rattle.std.specs.Prelude.{◌≡◌, ◌++◌, List, ℕ, IsTrue, OnOk};
ghost use Rattle.x509_der.specs.Element.{element};
ghost use Rattle.x509_der.specs.Integer.{is_minimal, natural_content};
ghost use Rattle.x509_make_parts.specs.Appending.{AppendsElement};

use crate::hexadecimal::hex_bytes;
use json::Value;
use std::alloc::Allocator;
use x509_der::IntegerAsn1;
use x509_make_parts::node::{bare, check_leaf, check_shown};
use x509_make_parts::{Done, Fault, Maker};

/// Appends a number.
///
/// # Errors
/// `OutOfMemory`.
pub fn number<A: Allocator + Copy>(maker: &mut Maker<A>, tag: u8, number: u64) -> Done
    ensures { OnOk result (maker.new.out.items ≡ maker.old.out.items ++ element tag (natural_content number)) }
{
    match IntegerAsn1::from_u64(maker.alloc, number) {
        Ok(integer) => maker.element(tag, integer.as_bytes()),
        Err(_) => Err(Fault::OutOfMemory),
    }
}

/// Appends a number that isn't negative, of its bytes in hexadecimal.
fn unsigned<A: Allocator + Copy>(maker: &mut Maker<A>, tag: u8, text: &str) -> Done
    ensures { OnOk result (AppendsElement tag maker.old.out.items maker.new.out.items) }
{
    let bytes = hex_bytes(maker.alloc, text.strip_prefix("0x").unwrap_or(text))?;
    if bytes.is_empty() {
        return Err(Fault::Not("a number"));
    }
    match IntegerAsn1::from_bytes_be_unsigned(bytes) {
        Ok(integer) => maker.element(tag, integer.as_bytes()),
        Err(_) => Err(Fault::OutOfMemory),
    }
}

/// Appends an INTEGER of its content in hexadecimal: two's complement, as a report has it.
///
/// # Errors
/// `Not` where it is no hexadecimal, or not the shortest content (X.690, 8.3.2).
pub fn integer_content<A: Allocator + Copy>(maker: &mut Maker<A>, tag: u8, text: &str) -> Done
    ensures { OnOk result ((content : List ℕ) × IsTrue (is_minimal content)
        × (maker.new.out.items ≡ maker.old.out.items ++ element tag content)) }
{
    let bytes = hex_bytes(maker.alloc, text)?;
    match IntegerAsn1::from_signed_content(bytes) {
        Ok(integer) => maker.element(tag, integer.as_bytes()),
        Err(_) => Err(Fault::Not("the shortest content of an INTEGER")),
    }
}

/// The number below 2^64 that a node says in decimal.
///
/// # Errors
/// `Not` where it says none.
pub fn number_of<A: Allocator + Copy>(node: &Value<'_, A>) -> Result<u64, Fault> {
    match bare(node).as_u64() {
        Some(number) => Ok(number),
        None => Err(Fault::Not("a number from 0 to 2^64 - 1")),
    }
}

/// Appends an INTEGER under a tag. A text that is bare is a number that isn't negative, in hexadecimal, and a number of
/// JSON is one in decimal; the `value` of a node is the content in hexadecimal, in two's complement, as a report has it.
///
/// # Errors
/// `Not` where a node says none, `Said` where it is hidden, and those of `check_leaf`.
pub fn integer<A: Allocator + Copy>(maker: &mut Maker<A>, tag: u8, node: &Value<'_, A>) -> Done
    ensures { OnOk result (AppendsElement tag maker.old.out.items maker.new.out.items) }
{
    check_leaf(&mut maker.place, node)?;
    check_shown(node)?;
    if let Value::String(text) = node {
        return unsigned(maker, tag, *text);
    }
    match bare(node) {
        Value::String(text) => integer_content(maker, tag, *text),
        _ => {
            let value = number_of(node)?;
            number(maker, tag, value)
        }
    }
}
