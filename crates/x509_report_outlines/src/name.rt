//! Names whose attributes have any element as value.

use crate::input::first_at;
use std::alloc::Allocator;
use std::fmt::{self, Display, Write};
use x509_outline::{NameOutline, RelativeNameOutline};
use x509_report_fields::name::{raw, write_attribute};
use x509_report_parts::values::is_whole_utf32;
use x509_report_parts::{ByteStringType, Element, Label, Shape, Sink, Value};

/// The value of an attribute, by its element: the text of a string of any type (X.690, 8.23), and else the bytes.
///
/// A BMPString is UTF-16, a UniversalString UTF-32, both with high bytes first. In a TeletexString and its like, whose
/// character sets are chosen by escape sequences, each byte is a character of ISO 8859-1 (`ByteStringType`).
pub(crate) fn text_of(element: &[u8]) -> Value<'_> {
    let found = first_at(element);
    let content = found.inside.rest;
    if let Some(kind) = ByteStringType::from_tag(found.tag) {
        return Value::Latin1(kind, content);
    }
    match found.tag {
        0x1e if content.len() % 2 == 0 => Value::Utf16(content),
        0x1c if is_whole_utf32(content) => Value::Utf32(content),
        _ => raw(element),
    }
}

/// Tells a name.
pub(crate) fn name<A: Allocator, S: Sink>(
    sink: &mut S,
    field: &'static str,
    at: Element<'_>,
    value: &NameOutline<A>,
) -> Result<(), S::Error> {
    let mut sets = at.inside;
    sink.begin(Label::Field(field), at.span, Shape::Items)?;
    for set in &value.0.0 {
        attributes(sink, sets.next(), set)?;
    }
    sink.end()
}

/// Tells the attributes of a set.
fn attributes<A: Allocator, S: Sink>(
    sink: &mut S,
    at: Element<'_>,
    set: &RelativeNameOutline<A>,
) -> Result<(), S::Error> {
    let shape = if set.0.len() == 1 {
        Shape::Only
    } else {
        Shape::Items
    };
    let mut items = at.inside;
    sink.begin(Label::Field("RelativeDistinguishedName"), at.span, shape)?;
    for item in &set.0 {
        let label = Label::Identifier(item.attribute_type.0.content());
        sink.field(label, items.next().span, text_of(item.value.as_bytes()))?;
    }
    sink.end()
}

/// A name on one line, as in `C=DE, O=Example, CN=example.org`: in the order of the input, with plus signs between the
/// attributes of a set.
#[derive(Drop)]
pub(crate) struct NameText<'a, A: Allocator>(pub(crate) &'a NameOutline<A>);

/// Writes a set of attributes.
fn write_set<A: Allocator, W: Write>(
    f: &mut fmt::Formatter<W>,
    set: &RelativeNameOutline<A>,
) -> fmt::Result {
    let mut is_first = true;
    for item in &set.0 {
        if !is_first {
            f.write_str(" + ")?;
        }
        is_first = false;
        let value = text_of(item.value.as_bytes());
        write_attribute(f, item.attribute_type.0.content(), value)?;
    }
    Ok(())
}

impl<A: Allocator> Display for NameText<'_, A> {
    fn fmt<W: Write>(&self, f: &mut fmt::Formatter<W>) -> fmt::Result {
        let name = self.0;
        if name.0.0.is_empty() {
            return f.write_str("(empty)");
        }
        let mut is_first = true;
        for set in &name.0.0 {
            if !is_first {
                f.write_str(", ")?;
            }
            is_first = false;
            write_set(f, set)?;
        }
        Ok(())
    }
}
