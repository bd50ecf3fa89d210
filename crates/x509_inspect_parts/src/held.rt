//! What stands in an element that isn't constructed: a value, or elements within a string.

use crate::header::{Header, header_at};
use std::fmt::{self, Write};
use std::str;
use x509_der::Arcs;
use x509_report_parts::Identifiers;
use x509_report_parts::shown::{Frame, Shown};
use x509_report_parts::text_sink::Named;
use x509_report_parts::values::{ShortHex, Utf16};

/// Whether bytes are text of ASCII, and not empty.
fn is_text(content: &[u8]) -> bool {
    !content.is_empty() && content.iter().all(|byte| matches!(*byte, b' '..=b'~'))
}

/// Writes what stands in an element without elements in it.
pub(crate) fn write_content<W: Write>(out: &mut W, tag: u8, content: &[u8]) -> fmt::Result {
    match tag {
        0x06 => write_identifier(out, content),
        0x0c | 0x12 | 0x13 | 0x16 | 0x17 | 0x18 | 0x1a => write_text(out, content),
        0x1e => write!(out, " \"{}\"", Shown(&Utf16(content), Frame::Quotes)),
        0x80..=0x9e if is_text(content) => write_text(out, content),
        _ if content.is_empty() => Ok(()),
        _ => write!(out, " {}", ShortHex(content)),
    }
}

/// Writes text, or the bytes of what is none.
fn write_text<W: Write>(out: &mut W, content: &[u8]) -> fmt::Result {
    match str::from_utf8(content) {
        Ok(text) => write!(out, " \"{}\"", Shown(&text, Frame::Quotes)),
        Err(_) => write!(out, " {}", ShortHex(content)),
    }
}

/// Writes an object identifier, or the bytes of what is none.
fn write_identifier<W: Write>(out: &mut W, content: &[u8]) -> fmt::Result {
    match Arcs::in_content(content) {
        Some(_) => write!(out, " {}", Named(content, Identifiers::Dotted)),
        None => write!(out, " {}", ShortHex(content)),
    }
}

/// Whether a content is made of elements that are whole, one behind another.
fn is_elements(content: &[u8]) -> bool {
    let mut at: usize = 0;
    for _ in 0..content.len() {
        if at == content.len() {
            return true;
        }
        match header_at(content, at, content.len()) {
            Some(header) if header.is_shortest() => at = header.stop,
            _ => return false,
        }
    }
    at == content.len()
}

/// Whether the content of a universal element is one that its tag may have, as far as that tells elements from other
/// bytes.
fn is_likely(header: &Header, content: &[u8]) -> bool {
    match (header.tag, content) {
        (0x30 | 0x31, _) => is_elements(content),
        (0x01, [0 | 0xff]) | (0x05, []) => true,
        (0x03, [0..=7, ..]) | (0x02 | 0x04 | 0x0a, [_, ..]) => true,
        (0x06, _) => Arcs::in_content(content).is_some(),
        (0x0c | 0x13 | 0x16, _) => is_text(content),
        _ => false,
    }
}

/// How many bytes stand before the element that the content of an OCTET STRING or a BIT STRING is, if it is one: it fills
/// the content, and is of a type that is met in such strings.
pub(crate) fn before_element(tag: u8, content: &[u8]) -> Option<usize> {
    let before = match (tag, content) {
        (0x04, _) => 0,
        (0x03, [0, ..]) => 1,
        _ => return None,
    };
    let header = header_at(content, before, content.len())?;
    let inside = content.get(header.content..)?;
    let fills = header.stop == content.len() && header.is_shortest();
    if fills && is_likely(&header, inside) {
        Some(before)
    } else {
        None
    }
}
