//! A report as JSON.

use crate::cursor::Span;
use crate::shown::is_plain;
use crate::sink::{Label, Shape, Sink, Value};
use crate::types::StringType;
use crate::values::{
    Address, Dotted, ElementHex, Hex, Latin1, Stamp, Utf16, Utf32, is_whole_utf16, is_whole_utf32,
    name_in,
};
use json::Writer;
use std::alloc::{AllocError, Allocator, Global};
use std::fmt::Display;
use std::str;

/// An object for each node, with its place under `at`. A node of fields has a member for each, a node of items has them
/// under `items`, and a field without nodes in it has its value under `value`.
#[derive(Drop)]
pub struct JsonSink<A: Allocator = Global> {
    writer: Writer<A>,
    scratch: String<A>,
    /// Whether the node that is open has items, in the lowest bit; in the others, those around it.
    lists: u64,
    /// Whether all characters of the strings that were written are shown as they are.
    is_shown: bool,
}

/// Whether all characters of a text are shown as they are, or are controls that `json::Writer` escapes.
fn is_shown(text: &str) -> bool {
    if text.is_ascii() {
        return !text.as_bytes().contains(&0x7f);
    }
    text.chars().all(is_plain)
}

impl<A: Allocator + Copy> JsonSink<A> {
    /// It writes behind what stands in a vector.
    pub fn new(alloc: A, out: Vec<u8, A>) -> Self {
        JsonSink {
            writer: Writer::new(out),
            scratch: String::new(alloc),
            lists: 0,
            is_shown: true,
        }
    }

    /// What was written, in which each character without a glyph stands as an escape.
    ///
    /// # Errors
    /// `AllocError` where memory is refused.
    pub fn finish(self, alloc: A) -> Result<Vec<u8, A>, AllocError> {
        let JsonSink {
            writer,
            scratch,
            is_shown,
            ..
        } = self;
        drop(scratch);
        let text = writer.into_inner();
        if is_shown {
            return Ok(text);
        }
        shielded(alloc, text)
    }

    /// What writes around the nodes. It isn't for text of the input, which `finish` wouldn't know of.
    pub fn writer(&mut self) -> &mut Writer<A> {
        &mut self.writer
    }

    /// Writes what a value prints as a string.
    ///
    /// # Errors
    /// `AllocError` where memory is refused.
    pub fn printed<T: Display>(&mut self, value: &T) -> Result<(), AllocError> {
        self.ascii(value)?;
        self.is_shown = self.is_shown && is_shown(self.scratch.as_str());
        Ok(())
    }

    /// Writes what a value prints as a string, which is digits, letters and marks of ASCII.
    fn ascii<T: Display>(&mut self, value: &T) -> Result<(), AllocError> {
        self.scratch.clear();
        write!(self.scratch, "{value}")?;
        self.writer.string(self.scratch.as_str())
    }

    /// Writes a string.
    fn string(&mut self, text: &str) -> Result<(), AllocError> {
        self.is_shown = self.is_shown && is_shown(text);
        self.writer.string(text)
    }

    /// Writes a member that is a string.
    ///
    /// # Errors
    /// `AllocError` where memory is refused.
    pub fn member(&mut self, name: &str, text: &str) -> Result<(), AllocError> {
        self.writer.key(name)?;
        self.string(text)
    }

    /// Writes a member that is a number.
    ///
    /// # Errors
    /// `AllocError` where memory is refused.
    pub fn count(&mut self, name: &str, count: u64) -> Result<(), AllocError> {
        self.writer.key(name)?;
        self.writer.u64(count)
    }

    /// Writes a place as a member: where it starts and where it ends.
    ///
    /// # Errors
    /// `AllocError` where memory is refused.
    pub fn place(&mut self, name: &str, span: Span) -> Result<(), AllocError> {
        self.writer.key(name)?;
        self.writer.begin_array()?;
        self.writer.u64(span.start as u64)?;
        self.writer.u64(span.end as u64)?;
        self.writer.end_array()
    }

    /// Writes an object identifier's members: `id`, with dots, and `name`, if it has one here.
    fn identifier(&mut self, content: &[u8]) -> Result<(), AllocError> {
        self.writer.key("id")?;
        self.ascii(&Dotted(content))?;
        match name_in(content) {
            Some(name) => {
                self.writer.key("name")?;
                self.writer.string(name)
            }
            None => Ok(()),
        }
    }

    /// Begins an object, with its place.
    fn object(&mut self, span: Span) -> Result<(), AllocError> {
        self.writer.begin_object()?;
        self.place("at", span)
    }

    /// Begins the object of a field: as a member among fields, and by its name among items.
    fn named(&mut self, name: &'static str, span: Span) -> Result<(), AllocError> {
        if self.lists % 2 == 0 {
            self.writer.key(name)?;
            return self.object(span);
        }
        self.object(span)?;
        self.writer.key("field")?;
        self.writer.string(name)
    }

    /// Begins an object under a label.
    fn open(&mut self, label: Label<'_>, span: Span) -> Result<(), AllocError> {
        match label {
            Label::Field(name) => self.named(name, span),
            Label::Identifier(content) => {
                self.object(span)?;
                self.identifier(content)
            }
            Label::Extension {
                content,
                is_critical,
                octets,
            } => {
                self.object(span)?;
                self.identifier(content)?;
                self.writer.key("critical")?;
                self.writer.boolean(is_critical)?;
                match octets {
                    Some(octets) => self.der(&Hex(octets)),
                    None => Ok(()),
                }
            }
        }
    }

    /// Writes words as an array.
    fn words(&mut self, words: &[&'static str]) -> Result<(), AllocError> {
        self.writer.begin_array()?;
        for word in words {
            self.writer.string(word)?;
        }
        self.writer.end_array()
    }

    /// Writes an object identifier as an object.
    fn identified(&mut self, content: &[u8]) -> Result<(), AllocError> {
        self.writer.begin_object()?;
        self.identifier(content)?;
        self.writer.end_object()
    }

    /// Writes why bytes don't encode what should stand there.
    fn malformed(&mut self, reason: &'static str, at: usize) -> Result<(), AllocError> {
        self.writer.key("malformed")?;
        self.writer.begin_object()?;
        self.writer.key("reason")?;
        self.writer.string(reason)?;
        self.count("at", at as u64)?;
        self.writer.end_object()
    }

    /// Writes a value.
    fn value(&mut self, value: Value<'_>) -> Result<(), AllocError> {
        match value {
            Value::Text(text) | Value::Typed(_, text) => self.string(text),
            Value::Utf16(bytes) => self.printed(&Utf16(bytes)),
            Value::Latin1(_, bytes) => self.printed(&Latin1(bytes)),
            Value::Utf32(bytes) => self.printed(&Utf32(bytes)),
            Value::Word(word) | Value::Algorithm(word) | Value::Enumerated(word) => {
                self.writer.string(word)
            }
            Value::Words(words) | Value::Usages(_, _, words) => self.words(words),
            Value::Identifier(content) | Value::UnreadIdentifier(content) => {
                self.identified(content)
            }
            Value::Number(number) | Value::Count(number) => self.writer.u64(number),
            Value::Integer(bytes)
            | Value::Octets(bytes)
            | Value::Raw(bytes)
            | Value::Kept(bytes)
            | Value::Opaque(bytes)
            | Value::Malformed { octets: bytes, .. }
            | Value::Sized(_, bytes)
            | Value::Bits(_, bytes) => self.ascii(&Hex(bytes)),
            Value::Flag(flag) => self.writer.boolean(flag),
            Value::Time(moment) | Value::UtcTime(moment) => self.ascii(&Stamp(moment)),
            Value::Address(bytes) => self.ascii(&Address(bytes)),
            Value::Null | Value::Hidden(_) => self.writer.null(),
        }
    }

    /// Writes how many bits or bytes a value has, where that is told.
    fn size(&mut self, value: Value<'_>) -> Result<(), AllocError> {
        match value {
            Value::Sized(count, _) | Value::Bits(count, _) | Value::Usages(count, _, _) => {
                self.count("bits", count)
            }
            Value::Kept(bytes) | Value::Malformed { octets: bytes, .. } => {
                self.count("length", bytes.len() as u64)
            }
            Value::Address(bytes) if !matches!(bytes.len(), 4 | 16) => {
                self.count("length", bytes.len() as u64)
            }
            _ => Ok(()),
        }
    }

    /// Writes the element as a member, if the value and its type don't tell it.
    fn element(&mut self, value: Value<'_>) -> Result<(), AllocError> {
        match value {
            Value::Raw(bytes) => self.der(&Hex(bytes)),
            Value::Text(text) if !StringType::Ia5.allows(text) => {
                self.der(&ElementHex(StringType::Ia5.tag(), None, text.as_bytes()))
            }
            Value::Typed(kind, text) if !kind.allows(text) => {
                self.der(&ElementHex(kind.tag(), None, text.as_bytes()))
            }
            Value::Utf16(bytes) if !is_whole_utf16(bytes) => self.der(&ElementHex(
                0x1e, None, bytes,
            )),
            Value::Utf32(bytes) if !is_whole_utf32(bytes) => {
                self.der(&ElementHex(0x1c, None, bytes))
            }
            Value::Usages(count, bytes, _) if !has_names(bytes) => {
                self.der(&ElementHex(0x03, Some(unused_of(count)), bytes))
            }
            _ => Ok(()),
        }
    }

    /// Writes an element as a member.
    fn der<T: Display>(&mut self, element: &T) -> Result<(), AllocError> {
        self.writer.key("der")?;
        self.ascii(element)
    }

    /// Writes the members that tell a value.
    fn told(&mut self, value: Value<'_>) -> Result<(), AllocError> {
        if let Value::Hidden(count) = value {
            return self.count("hidden", count);
        }
        if let Value::Malformed { reason, at, .. } = value {
            self.malformed(reason, at)?;
        }
        if let Value::UnreadIdentifier(_) = value {
            self.writer.key("read")?;
            self.writer.boolean(false)?;
        }
        if let Some(name) = type_of(value) {
            self.writer.key("asn1")?;
            self.writer.string(name)?;
        }
        self.size(value)?;
        self.writer.key("value")?;
        self.value(value)?;
        self.element(value)
    }
}

/// Whether no bit of a key usage is set but the nine that have names (RFC 5280, 4.2.1.3).
fn has_names(bytes: &[u8]) -> bool {
    match bytes {
        [_first, second, rest @ ..] => { second & 0x7f == 0 && rest.iter().all(|byte| *byte == 0) }
        _ => true,
    }
}

/// How many bits of the last byte aren't used where there are so many.
fn unused_of(count: u64) -> u8 {
    match (count % 8) as u8 {
        0 => 0,
        used => 8u8.saturating_sub(used),
    }
}

/// The ASN.1 type of a value, if it has one.
fn type_of(value: Value<'_>) -> Option<&'static str> {
    match value {
        Value::Text(_) => Some("IA5String"),
        Value::Typed(kind, _) => Some(kind.name()),
        Value::Utf16(_) => Some("BMPString"),
        Value::Latin1(kind, _) => Some(kind.name()),
        Value::Utf32(_) => Some("UniversalString"),
        Value::Enumerated(_) => Some("ENUMERATED"),
        Value::Word(_) | Value::Number(_) | Value::Integer(_) | Value::Sized(_, _) => {
            Some("INTEGER")
        }
        Value::Algorithm(_) => Some("AlgorithmIdentifier"),
        Value::Words(_) | Value::Usages(_, _, _) | Value::Bits(_, _) => Some("BIT STRING"),
        Value::Identifier(_) | Value::UnreadIdentifier(_) => Some("OBJECT IDENTIFIER"),
        Value::Octets(_) | Value::Kept(_) | Value::Malformed { .. } | Value::Address(_) => {
            Some("OCTET STRING")
        }
        Value::Flag(_) => Some("BOOLEAN"),
        Value::Time(_) => Some("GeneralizedTime"),
        Value::UtcTime(_) => Some("UTCTime"),
        Value::Null => Some("NULL"),
        Value::Raw(_) | Value::Opaque(_) | Value::Count(_) | Value::Hidden(_) => None,
    }
}

impl<A: Allocator + Copy> Sink for JsonSink<A> {
    type Error = AllocError;

    fn begin(&mut self, label: Label<'_>, span: Span, shape: Shape) -> Result<(), AllocError> {
        self.open(label, span)?;
        let is_list = matches!(shape, Shape::Items | Shape::Only);
        self.lists = self.lists.wrapping_mul(2) | u64::from(is_list);
        if is_list {
            self.writer.key("items")?;
            self.writer.begin_array()?;
        }
        Ok(())
    }

    fn field(&mut self, label: Label<'_>, span: Span, value: Value<'_>) -> Result<(), AllocError> {
        self.open(label, span)?;
        self.told(value)?;
        self.writer.end_object()
    }

    fn end(&mut self) -> Result<(), AllocError> {
        if self.lists % 2 == 1 {
            self.writer.end_array()?;
        }
        self.lists /= 2;
        self.writer.end_object()
    }
}

/// Writes a character of JSON, by its units of UTF-16 if it isn't one to be shown. Such a one stands in a string.
fn put<A: Allocator>(out: &mut String<A>, c: char) -> Result<(), AllocError> {
    if is_plain(c) {
        return out.push(c);
    }
    let mut units = [0; 2];
    for unit in c.encode_utf16(&mut units).iter() {
        write!(out, "\\u{unit:04x}")?;
    }
    Ok(())
}

/// The same JSON, in which each character without a glyph stands as an escape.
///
/// # Errors
/// `AllocError` where memory is refused.
fn shielded<A: Allocator + Copy>(alloc: A, text: Vec<u8, A>) -> Result<Vec<u8, A>, AllocError> {
    let mut out = String::new(alloc);
    if let Ok(text) = str::from_utf8(&text) {
        for c in text.chars() {
            put(&mut out, c)?;
        }
    }
    Ok(out.into_bytes())
}
