//! Attributes of names (RFC 4514, 2.3).

ghost use Rattle.std.specs.Prelude.{◌≡◌, ◌&&◌, ◌==◌, ◌%◌, ◌∷◌, ℕ, Bool, List, true, false, length, bytes_eq, option_map, MatchOption};
ghost use Rattle.std.specs.Str.{is_utf8};
ghost use Rattle.x509_der.specs.Element.{element, is_tag};
ghost use Rattle.x509_name_text.specs.Texts.{IsTypeText, NameAttribute, Spells, TellsShown, Writes, attribute_text, has_text, hex_text, short_name as short, value_text};

use crate::put::{put, put_hex};
use crate::value::{put_text, put_utf16};
use std::str;
use x509_oid_text::{NoText, oid_text};
use x509_report_parts::Cursor;

/// Whether a content is one that is looked for.
fn is(content: &[u8], wanted: &[u8]) -> bool
    ensures { result ≡ bytes_eq content.now wanted.now }
{
    content == wanted
}

/// The short name of a type that has one (RFC 4514, 3), by the content of its object identifier.
#[tactic(auto, unfolding(crate::specs::Texts::short_name))]
fn short_name(content: &[u8]) -> Option<&'static str>
    ensures { option_map (λ s. s.now) result ≡ short content.now }
{
    if is(content, &[0x55, 4, 3]) {
        return Some("CN");
    }
    if is(content, &[0x55, 4, 7]) {
        return Some("L");
    }
    if is(content, &[0x55, 4, 8]) {
        return Some("ST");
    }
    if is(content, &[0x55, 4, 10]) {
        return Some("O");
    }
    if is(content, &[0x55, 4, 11]) {
        return Some("OU");
    }
    if is(content, &[0x55, 4, 6]) {
        return Some("C");
    }
    if is(content, &[0x55, 4, 9]) {
        return Some("STREET");
    }
    if is(
        content,
        &[0x09, 0x92, 0x26, 0x89, 0x93, 0xf2, 0x2c, 0x64, 1, 25],
    ) {
        return Some("DC");
    }
    if is(
        content,
        &[0x09, 0x92, 0x26, 0x89, 0x93, 0xf2, 0x2c, 0x64, 1, 1],
    ) {
        return Some("UID");
    }
    None
}

/// Whether a tag is that of a string of UTF-8 or ASCII: UTF8String, NumericString, PrintableString, IA5String or
/// VisibleString.
#[tactic(auto, unfolding(crate::specs::Texts::has_text))]
fn is_text(tag: u8) -> bool
    ensures { result ≡ has_text tag }
{
    tag == 0x0c || tag == 0x12 || tag == 0x13 || tag == 0x16 || tag == 0x1a
}

/// The text of a value, if it is a string of UTF-8 or ASCII (UTF8String, NumericString, PrintableString, IA5String and
/// VisibleString).
fn text_of<'a>(tag: u8, content: &'a [u8]) -> Option<&'a str>
    ensures { MatchOption result
        ((has_text tag && is_utf8 content.now) ≡ false)
        (λ s. ((has_text tag && is_utf8 content.now) ≡ true) × (s.now ≡ content.now)) }
{
    if !is_text(tag) {
        return None;
    }
    match str::from_utf8(content) {
        Ok(text) => Some(text),
        Err(_) => None,
    }
}

/// Writes the dotted text of an object identifier; its content in hexadecimal, where an arc has more than 64 bits.
fn put_dotted(content: &[u8], at: usize, out: &mut [u8]) -> usize
    ensures { (text : List ℕ) → IsTypeText content.now text → Writes text at out.old result out.new }
{
    let from = at.min(out.len());
    match oid_text(content, &mut out[from..]) {
        Ok(size) => at.saturating_add(size),
        Err(NoText::TooShort(size)) => at.saturating_add(size),
        Err(NoText::TooLong) => usize::MAX,
        Err(NoText::Bad) => put_hex(false, content, at, out),
    }
}

/// Writes bytes in hexadecimal behind a number sign.
fn put_octets(octets: &[u8], at: usize, out: &mut [u8]) -> usize
    ensures { Writes (35 ∷ hex_text false octets.now) at out.old result out.new }
{
    let behind = put(b"#", at, out);
    put_hex(false, octets, behind, out)
}

/// Whether a value is a BMPString of whole units.
fn is_utf16(tag: u8, content: &[u8]) -> bool
    ensures { result ≡ (tag == 30 && length content.now % 2 == 0) }
{
    tag == 0x1e && content.len() % 2 == 0
}

/// Writes a value as text, or in hexadecimal where it isn't a string.
fn put_value(value: Cursor<'_>, at: usize, out: &mut [u8]) -> usize
    ensures { (shown : ℕ → Bool) (tag : ℕ) (content : List ℕ) → TellsShown shown → is_tag tag ≡ true →
        value.entry.rest.now ≡ element tag content → Writes (value_text shown tag content) at out.old result out.new }
{
    let mut fields = value;
    let found = fields.next();
    let content = found.inside.rest;
    if let Some(text) = text_of(found.tag, content) {
        return put_text(text, at, out);
    }
    if is_utf16(found.tag, content) {
        return put_utf16(content, at, out);
    }
    put_octets(value.rest, at, out)
}

/// Writes an attribute: its type, and its value as text, or in hexadecimal where it isn't a string or the type has no short
/// name.
pub(crate) fn put_attribute(attribute: Cursor<'_>, at: usize, out: &mut [u8]) -> usize
    ensures { (shown : ℕ → Bool) (a : NameAttribute) → TellsShown shown → Spells a attribute.entry.rest.now →
        Writes (attribute_text shown a) at out.old result out.new }
{
    let mut fields = attribute;
    let kind = fields.next().inside.rest;
    let Some(name) = short_name(kind) else {
        let behind = put_dotted(kind, at, out);
        let sign = put(b"=", behind, out);
        return put_octets(fields.rest, sign, out);
    };
    let behind = put(name.as_bytes(), at, out);
    let sign = put(b"=", behind, out);
    put_value(fields, sign, out)
}
