//! Attributes of requests and private keys.

use crate::extension::{extensions, write_extensions, write_names};
use crate::input::{known, slice_at};
use crate::name::text_of;
use picky_asn1_x509::Attribute;
use std::alloc::{AllocError, Allocator};
use std::fmt::{self, Write};
use x509_der::Asn1RawDer;
use x509_outline::{AttributeValuesOutline, ExtensionsOutline};
use x509_report::parts::attribute as known_attribute;
use x509_report_further::Limited;
use x509_report_parts::{Cursor, Element, Label, Shape};

/// The content of `id-ExtensionReq`, 1.2.840.113549.1.9.14 (RFC 2985, 5.4.2).
const REQUESTED: &[u8] = &[0x2a, 0x86, 0x48, 0x86, 0xf7, 0x0d, 0x01, 0x09, 0x0e];

/// Tells attributes.
pub(crate) fn attributes<A: Allocator + Copy, S: Limited>(
    sink: &mut S,
    alloc: A,
    bytes: &[u8],
    at: Element<'_>,
    values: &[AttributeValuesOutline<A>],
) -> Result<(), S::Error> {
    let mut items = at.inside;
    sink.begin(Label::Field("attributes"), at.span, Shape::Items)?;
    for item in values {
        attribute(sink, alloc, bytes, items.next(), item)?;
    }
    sink.end()
}

/// Tells an attribute.
fn attribute<A: Allocator + Copy, S: Limited>(
    sink: &mut S,
    alloc: A,
    bytes: &[u8],
    at: Element<'_>,
    value: &AttributeValuesOutline<A>,
) -> Result<(), S::Error> {
    let slice = slice_at(bytes, at.span);
    match known::<Attribute<A>, A>(alloc, slice) {
        Ok(Some(read)) => {
            let told = known_attribute(sink, bytes, at, &read);
            drop(read);
            told
        }
        Ok(None) => unread_attribute(sink, alloc, bytes, at, value),
        Err(AllocError) => Err(S::out_of_memory()),
    }
}

/// Tells an attribute that the port doesn't read: extensions that are asked for one by one, and other values as the text or
/// the bytes that they are.
fn unread_attribute<A: Allocator + Copy, S: Limited>(
    sink: &mut S,
    alloc: A,
    bytes: &[u8],
    at: Element<'_>,
    value: &AttributeValuesOutline<A>,
) -> Result<(), S::Error> {
    let content = value.attribute_type.0.content();
    let mut fields = at.inside;
    let _type = fields.next();
    let items = fields.next().inside;
    sink.begin(Label::Identifier(content), at.span, Shape::Items)?;
    let values = value.values.0.as_slice();
    if content == REQUESTED {
        requested(sink, alloc, bytes, items, values)?;
    } else {
        others(sink, items, values)?;
    }
    sink.end()
}

/// Tells lists of extensions that are asked for.
fn requested<A: Allocator + Copy, S: Limited>(
    sink: &mut S,
    alloc: A,
    bytes: &[u8],
    items: Cursor<'_>,
    values: &[Asn1RawDer<A>],
) -> Result<(), S::Error> {
    let mut items = items;
    for value in values {
        let at = items.next();
        match known::<ExtensionsOutline<A>, A>(alloc, value.as_bytes()) {
            Ok(Some(list)) => {
                let told = extensions(sink, alloc, bytes, "Extensions", at, &list);
                drop(list);
                told?;
            }
            Ok(None) => sink.field(Label::Field("value"), at.span, text_of(value.as_bytes()))?,
            Err(AllocError) => return Err(S::out_of_memory()),
        }
    }
    Ok(())
}

/// Tells values that aren't looked into.
fn others<A: Allocator, S: Limited>(
    sink: &mut S,
    items: Cursor<'_>,
    values: &[Asn1RawDer<A>],
) -> Result<(), S::Error> {
    let mut items = items;
    for value in values {
        let span = items.next().span;
        sink.field(Label::Field("value"), span, text_of(value.as_bytes()))?;
    }
    Ok(())
}

/// What is written of extensions that are asked for.
#[derive(Clone, Copy, Debug, PartialEq, Eq)]
pub(crate) enum Part {
    /// The lines of a summary.
    Lines,
    /// The alternative names of the subject, on one line.
    Names,
}

/// Writes what there is to be said of extensions that attributes ask for.
pub(crate) fn write_requested<A: Allocator + Copy, W: Write>(
    out: &mut W,
    alloc: A,
    values: &[AttributeValuesOutline<A>],
    part: Part,
) -> fmt::Result {
    for item in values {
        if item.attribute_type.0.content() == REQUESTED {
            write_lists(out, alloc, item.values.0.as_slice(), part)?;
        }
    }
    Ok(())
}

/// Writes the same of lists of extensions.
fn write_lists<A: Allocator + Copy, W: Write>(
    out: &mut W,
    alloc: A,
    values: &[Asn1RawDer<A>],
    part: Part,
) -> fmt::Result {
    for value in values {
        match known::<ExtensionsOutline<A>, A>(alloc, value.as_bytes()) {
            Ok(Some(list)) => {
                let written = write_part(out, alloc, &list, part);
                drop(list);
                written?;
            }
            Ok(None) => {}
            Err(AllocError) => return Err(fmt::Error),
        }
    }
    Ok(())
}

/// Writes the same of one list.
fn write_part<A: Allocator + Copy, W: Write>(
    out: &mut W,
    alloc: A,
    list: &ExtensionsOutline<A>,
    part: Part,
) -> fmt::Result {
    match part {
        Part::Lines => write_extensions(out, alloc, list),
        Part::Names => write_names(out, alloc, list, "", ""),
    }
}
