//! Names on one line: `/C=DE/CN=example.org`, in order, and `CN=example.org, C=DE`, the last first (RFC 4514, 2.1).

ghost use Rattle.std.specs.Prelude.{ℕ, OnOk};
ghost use Rattle.x509_make_names.specs.SetOrder.{AppendsAttributes};
ghost use Rattle.x509_make_parts.specs.Appending.{Appends, AppendsElement};

use crate::attributes::usual_tag;
use crate::sets::{keep_from, put_sorted};
use std::alloc::Allocator;
use x509_make_parts::{Done, Fault, Maker};
use x509_make_values::hexadecimal::hex_bytes;
use x509_make_values::identifiers::{identifier_of, put_identifier};
use x509_make_values::strings::check_text;

/// What stands before a mark that isn't escaped, and what behind it.
fn cut(text: &str, mark: u8) -> (&str, Option<&str>) {
    let mut is_escaped = false;
    for (index, byte) in text.as_bytes().iter().enumerate() {
        if !is_escaped && *byte == mark {
            return (
                text.get(..index).unwrap_or(""),
                text.get(index.saturating_add(1)..),
            );
        }
        is_escaped = !is_escaped && *byte == b'\\';
    }
    (text, None)
}

/// The value of a hexadecimal digit.
fn digit(byte: u8) -> Option<u8> {
    match byte {
        b'0'..=b'9' => Some(byte - b'0'),
        b'a'..=b'f' => Some(byte - b'a' + 10),
        b'A'..=b'F' => Some(byte - b'A' + 10),
        _ => None,
    }
}

/// The byte that two hexadecimal digits are.
fn byte_of(high: u8, low: u8) -> Option<u8> {
    let high = digit(high)?;
    let low = digit(low)?;
    Some(high.wrapping_mul(16) | low)
}

/// The byte that a text begins with, without its escape (RFC 4514, 3), and what comes behind it.
fn first_byte(text: &[u8]) -> Result<(u8, &[u8]), Fault> {
    match text {
        [b'\\', high, low, rest @ ..] if byte_of(*high, *low).is_some() => {
            Ok((byte_of(*high, *low).unwrap_or(0), rest))
        }
        [b'\\', byte, rest @ ..] => Ok((*byte, rest)),
        [b'\\'] => Err(Fault::Said("a backslash with nothing behind it")),
        [byte, rest @ ..] => Ok((*byte, rest)),
        [] => Err(Fault::Said("a backslash with nothing behind it")),
    }
}

/// The bytes of a value without its escapes.
fn unescaped<A: Allocator + Copy>(alloc: A, text: &str) -> Result<Vec<u8, A>, Fault> {
    let mut bytes: Vec<u8, A> = Vec::new(alloc);
    let mut rest = text.as_bytes();
    for _ in 0..text.len() {
        if rest.is_empty() {
            break;
        }
        let (byte, more) = first_byte(rest)?;
        if bytes.push(byte).is_err() {
            return Err(Fault::OutOfMemory);
        }
        rest = more;
    }
    Ok(bytes)
}

/// Whether a text ends within an escape: behind an odd number of backslashes.
fn ends_escaped(text: &str) -> bool {
    let front = text.trim_end_matches('\\');
    text.len().saturating_sub(front.len()) % 2 == 1
}

/// A value without the spaces around it, but for a last one that is escaped.
fn trimmed(text: &str) -> &str {
    let inner = text.trim();
    if ends_escaped(inner) {
        let end = inner.len().saturating_add(1);
        return text.trim_start().get(..end).unwrap_or(inner);
    }
    inner
}

/// Appends a value: a text, or behind `#` an element in hexadecimal (RFC 4514, 2.4).
fn line_value<A: Allocator + Copy>(maker: &mut Maker<A>, tag: u8, text: &str) -> Done
    ensures { OnOk result (Appends maker.old.out.items maker.new.out.items) }
{
    if let Some(digits) = text.strip_prefix('#') {
        let element = hex_bytes(maker.alloc, digits)?;
        return maker.put(element.as_slice());
    }
    let bytes = unescaped(maker.alloc, text)?;
    if std::str::from_utf8(bytes.as_slice()).is_err() {
        return Err(Fault::Not("UTF-8"));
    }
    check_text(tag, bytes.as_slice())?;
    maker.element(tag, bytes.as_slice())
}

/// Appends an attribute that is written as `CN=example.org`.
fn assignment<A: Allocator + Copy>(maker: &mut Maker<A>, text: &str) -> Done
    ensures { OnOk result (AppendsElement 48 maker.old.out.items maker.new.out.items) }
{
    let (key, value) = cut(text, b'=');
    let Some(value) = value else {
        return Err(Fault::Not("a name: each part is as CN=example.org"));
    };
    let start = maker.open();
    let identifier = identifier_of(maker.alloc, key.trim())?;
    put_identifier(maker, 0x06, &identifier)?;
    line_value(maker, usual_tag(&identifier), trimmed(value))?;
    maker.close(start, 0x30)
}

/// Appends the attributes that are written as `CN=a+UID=b`, in the order of DER.
fn attributes_of_line<A: Allocator + Copy>(maker: &mut Maker<A>, text: &str) -> Done
    ensures { OnOk result ((count : ℕ) × AppendsAttributes A count maker.old.out.items maker.new.out.items) }
{
    let start = maker.open();
    let mut elements = Vec::new(maker.alloc);
    let mut rest = Some(text);
    'attributes: for _ in 0..text.len().saturating_add(1) {
        let Some(line) = rest else { break };
        let (front, more) = cut(line, b'+');
        assignment(maker, front)?;
        keep_from(maker, start, &mut elements)?;
        rest = more;
    }
    put_sorted(maker, elements)
}

/// Appends a set that is written as `CN=a+UID=b`.
fn set_line<A: Allocator + Copy>(maker: &mut Maker<A>, text: &str) -> Done
    ensures { OnOk result (AppendsElement 49 maker.old.out.items maker.new.out.items) }
{
    let start = maker.open();
    attributes_of_line(maker, text)?;
    maker.close(start, 0x31)
}

/// Appends the sets of a name behind slashes, in order.
fn sets_in_order<A: Allocator + Copy>(maker: &mut Maker<A>, text: &str) -> Done
    ensures { OnOk result (Appends maker.old.out.items maker.new.out.items) }
{
    let mut rest = Some(text);
    'sets: for _ in 0..text.len().saturating_add(1) {
        let Some(line) = rest else { break };
        let (front, more) = cut(line, b'/');
        set_line(maker, front)?;
        rest = more;
    }
    Ok(())
}

/// The parts of a name between commas.
fn parts_of<'t, A: Allocator + Copy>(alloc: A, text: &'t str) -> Result<Vec<&'t str, A>, Fault> {
    let mut parts: Vec<&'t str, A> = Vec::new(alloc);
    let mut rest = Some(text);
    for _ in 0..text.len().saturating_add(1) {
        let Some(line) = rest else { break };
        let (front, more) = cut(line, b',');
        if parts.push(front).is_err() {
            return Err(Fault::OutOfMemory);
        }
        rest = more;
    }
    Ok(parts)
}

/// Sees that the marks that older forms of names had are escaped (RFC 4514, 2.4).
fn check_marks(part: &str) -> Done {
    if cut(part, b'"').1.is_some() || cut(part, b';').1.is_some() {
        return Err(Fault::Said(
            "a quotation mark or a semicolon is written behind a backslash (RFC 4514)",
        ));
    }
    Ok(())
}

/// Appends the sets of a name between commas, the last first.
fn sets_reversed<A: Allocator + Copy>(maker: &mut Maker<A>, text: &str) -> Done
    ensures { OnOk result (Appends maker.old.out.items maker.new.out.items) }
{
    let parts = parts_of(maker.alloc, text)?;
    if let [first, _, ..] = parts.as_slice() {
        if first.trim().starts_with("C=") {
            return Err(Fault::Said(
                "between commas the country comes last, as CN=x, C=DE (RFC 4514); in order write /C=DE/CN=x",
            ));
        }
    }
    'parts: for part in parts.as_slice().iter().rev() {
        check_marks(*part)?;
        set_line(maker, *part)?;
    }
    Ok(())
}

/// Appends a name on one line. An empty one has no sets.
///
/// # Errors
/// `Not` where it is none, `Said` where it stands between commas and begins with the country, and those of its parts.
pub(crate) fn line<A: Allocator + Copy>(maker: &mut Maker<A>, text: &str) -> Done
    ensures { OnOk result (AppendsElement 48 maker.old.out.items maker.new.out.items) }
{
    let start = maker.open();
    match text.strip_prefix('/') {
        Some(list) => sets_in_order(maker, list)?,
        None if text.trim().is_empty() => {}
        None => sets_reversed(maker, text)?,
    }
    maker.close(start, 0x30)
}
