//! Attributes of requests.

use crate::certificate::alternative_names;
use crate::extension::extensions;
use picky_asn1_x509::{
    Asn1SequenceOf, Asn1SetOf, Attribute, AttributeValues, Attributes, Extensions, GeneralNames,
    ObjectIdentifierAsn1,
};
use std::alloc::Allocator;
use std::fmt::{self, Write};
use x509_report_further::Limited;
use x509_report_further::summary::write_services;
use x509_report_parts::{Cursor, Element, Label, Moment, Shape, Span, Value};

/// Tells attributes.
pub(crate) fn attributes<A: Allocator + Copy, S: Limited>(
    sink: &mut S,
    bytes: &[u8],
    at: Element<'_>,
    value: &Attributes<A>,
) -> Result<(), S::Error> {
    let mut items = at.inside;
    sink.begin(Label::Field("attributes"), at.span, Shape::Items)?;
    for item in &value.0 {
        attribute(sink, bytes, items.next(), item)?;
    }
    sink.end()
}

/// The alternative names that are asked for: those of the first list of extensions that has any (RFC 2985, 5.4.2).
pub(crate) fn requested_names<A: Allocator>(value: &Attributes<A>) -> Option<&GeneralNames<A>> {
    for attribute in &value.0 {
        if let AttributeValues::Extensions(lists) = &attribute.value {
            for list in &lists.0 {
                let names = alternative_names(list.0.0.as_slice());
                if names.is_some() {
                    return names;
                }
            }
        }
    }
    None
}

/// Writes the lines of a summary that tell of extensions which are asked for.
pub(crate) fn write_requested<A: Allocator + Copy, W: Write>(
    out: &mut W,
    value: &Attributes<A>,
) -> fmt::Result {
    for attribute in &value.0 {
        if let AttributeValues::Extensions(lists) = &attribute.value {
            write_lists(out, lists)?;
        }
    }
    Ok(())
}

/// Writes the lines of lists of extensions.
fn write_lists<A: Allocator + Copy, W: Write>(
    out: &mut W,
    lists: &Asn1SetOf<Extensions<A>, A>,
) -> fmt::Result {
    for list in &lists.0 {
        write_services(out, list.0.0.as_slice())?;
    }
    Ok(())
}

/// Tells an attribute, which was read from the element of an input: its values as the items of a node.
///
/// # Errors
/// What the sink fails with, also where memory is refused.
pub fn attribute<A: Allocator + Copy, S: Limited>(
    sink: &mut S,
    bytes: &[u8],
    at: Element<'_>,
    value: &Attribute<A>,
) -> Result<(), S::Error> {
    let mut fields = at.inside;
    let _type = fields.next();
    let values = fields.next();
    let label = Label::Identifier(value.ty.0.content());
    if let AttributeValues::Custom(element) = &value.value {
        return sink.field(label, at.span, Value::Raw(element.as_bytes()));
    }
    sink.begin(label, at.span, Shape::Items)?;
    items_of(sink, bytes, values.inside, &value.value)?;
    sink.end()
}

/// Tells the values of an attribute.
fn items_of<A: Allocator + Copy, S: Limited>(
    sink: &mut S,
    bytes: &[u8],
    mut items: Cursor<'_>,
    value: &AttributeValues<A>,
) -> Result<(), S::Error> {
    match value {
        AttributeValues::Extensions(lists) => {
            for list in &lists.0 {
                extensions(sink, "Extensions", bytes, items.next(), list)?;
            }
            Ok(())
        }
        AttributeValues::SpcStatementType(lists) => {
            for list in &lists.0 {
                statement_types(sink, items.next(), list)?;
            }
            Ok(())
        }
        _ => plain_items(sink, items, value),
    }
}

/// Tells the values of an attribute that have no fields in them.
fn plain_items<A: Allocator, S: Limited>(
    sink: &mut S,
    items: Cursor<'_>,
    value: &AttributeValues<A>,
) -> Result<(), S::Error> {
    match value {
        AttributeValues::ContentType(types) => identifiers(sink, items, "ContentType", &types.0),
        AttributeValues::MessageDigest(digests) => {
            let mut items = items;
            for digest in &digests.0 {
                let value = Value::Octets(digest.0.as_slice());
                sink.field(Label::Field("MessageDigest"), items.next().span, value)?;
            }
            Ok(())
        }
        AttributeValues::SigningTime(times) => {
            let mut items = items;
            for time in &times.0 {
                let moment = Moment {
                    date: (time.0.year(), time.0.month(), time.0.day()),
                    time: (time.0.hour(), time.0.minute(), time.0.second()),
                };
                let span: Span = items.next().span;
                sink.field(Label::Field("SigningTime"), span, Value::UtcTime(moment))?;
            }
            Ok(())
        }
        _ => Ok(()),
    }
}

/// Tells object identifiers.
fn identifiers<A: Allocator, S: Limited>(
    sink: &mut S,
    mut items: Cursor<'_>,
    field: &'static str,
    values: &[ObjectIdentifierAsn1<A>],
) -> Result<(), S::Error> {
    for value in values {
        let identifier = Value::Identifier(value.0.content());
        sink.field(Label::Field(field), items.next().span, identifier)?;
    }
    Ok(())
}

/// Tells a list of statement types.
fn statement_types<A: Allocator, S: Limited>(
    sink: &mut S,
    at: Element<'_>,
    value: &Asn1SequenceOf<ObjectIdentifierAsn1<A>, A>,
) -> Result<(), S::Error> {
    sink.begin(Label::Field("SpcStatementType"), at.span, Shape::Items)?;
    identifiers(sink, at.inside, "statementType", &value.0)?;
    sink.end()
}
