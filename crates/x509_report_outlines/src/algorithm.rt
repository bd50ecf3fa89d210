//! Algorithms with any parameters.

use crate::input::{known, slice_at};
use picky_asn1_x509::AlgorithmIdentifier;
use std::alloc::{AllocError, Allocator};
use std::fmt::{self, Write};
use x509_outline::AlgorithmOutline;
use x509_report_fields::algorithm::{algorithm as known_algorithm, write_algorithm};
use x509_report_further::Limited;
use x509_report_parts::text_sink::Unread;
use x509_report_parts::{Element, Label, Shape, Value};

/// The value of parameters that aren't looked into.
fn parameters_of(element: &[u8]) -> Value<'_> {
    match element {
        [0x05, 0x00] => Value::Null,
        _ => Value::Raw(element),
    }
}

/// Tells an algorithm that the port doesn't read: its identifier, and the bytes of its parameters.
fn unread_algorithm<A: Allocator, S: Limited>(
    sink: &mut S,
    field: &'static str,
    at: Element<'_>,
    value: &AlgorithmOutline<A>,
) -> Result<(), S::Error> {
    let mut fields = at.inside;
    sink.begin(Label::Field(field), at.span, Shape::Line)?;
    let identifier = Value::UnreadIdentifier(value.algorithm.0.content());
    sink.field(Label::Field("algorithm"), fields.next().span, identifier)?;
    if let Some(parameters) = &value.parameters {
        let span = fields.next().span;
        let parameters = parameters_of(parameters.as_bytes());
        sink.field(Label::Field("parameters"), span, parameters)?;
    }
    sink.end()
}

/// Tells an algorithm with its parameters.
pub(crate) fn algorithm<A: Allocator + Copy, S: Limited>(
    sink: &mut S,
    alloc: A,
    bytes: &[u8],
    field: &'static str,
    at: Element<'_>,
    value: &AlgorithmOutline<A>,
) -> Result<(), S::Error> {
    let slice = slice_at(bytes, at.span);
    match known::<AlgorithmIdentifier<A>, A>(alloc, slice) {
        Ok(Some(read)) => {
            let told = known_algorithm(sink, field, at, &read);
            drop(read);
            told
        }
        Ok(None) => unread_algorithm(sink, field, at, value),
        Err(AllocError) => Err(S::out_of_memory()),
    }
}

/// Writes the line of a summary that says by which algorithm something is signed, if the port doesn't read it.
pub(crate) fn write_unread<A: Allocator + Copy, W: Write>(
    out: &mut W,
    alloc: A,
    bytes: &[u8],
    at: Element<'_>,
    value: &AlgorithmOutline<A>,
) -> fmt::Result {
    let slice = slice_at(bytes, at.span);
    match known::<AlgorithmIdentifier<A>, A>(alloc, slice) {
        Ok(Some(read)) => {
            drop(read);
            Ok(())
        }
        Ok(None) => {
            let name = Unread(value.algorithm.0.content());
            writeln!(out, "  signature   {name}, not read by this library")
        }
        Err(AllocError) => Err(fmt::Error),
    }
}

/// Writes the name of an algorithm, or of one that the port doesn't read its identifier with dots and its name.
pub(crate) fn write_name<A: Allocator + Copy, W: Write>(
    out: &mut W,
    alloc: A,
    bytes: &[u8],
    at: Element<'_>,
    value: &AlgorithmOutline<A>,
) -> fmt::Result {
    let slice = slice_at(bytes, at.span);
    match known::<AlgorithmIdentifier<A>, A>(alloc, slice) {
        Ok(Some(read)) => {
            let written = write_algorithm(out, &read);
            drop(read);
            written
        }
        Ok(None) => write!(out, "{}", Unread(value.algorithm.0.content())),
        Err(AllocError) => Err(fmt::Error),
    }
}
