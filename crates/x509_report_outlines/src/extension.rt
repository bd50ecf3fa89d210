//! Extensions.

use crate::input::{known, slice_at};
use crate::list_extension::list_extension;
use picky_asn1_x509::{Extension, GeneralNames};
use std::alloc::{AllocError, Allocator};
use std::fmt::{self, Write};
use x509_der::{ReadError, Refused, check, read_explained};
use x509_outline::{ExtensionOutline, ExtensionsOutline};
use x509_report::parts::extension as known_extension;
use x509_report_fields::name::NamesLine;
use x509_report_further::summary::write_extension;
use x509_report_further::{Limited, Place};
use x509_report_parts::{Element, Label, Shape, Value};

/// The content of `id-ce-subjectAltName`, 2.5.29.17 (RFC 5280, 4.2.1.6).
const ALTERNATIVE_NAMES: &[u8] = &[0x55, 0x1d, 0x11];

/// Tells extensions.
pub(crate) fn extensions<A: Allocator + Copy, S: Limited>(
    sink: &mut S,
    alloc: A,
    bytes: &[u8],
    field: &'static str,
    at: Element<'_>,
    value: &ExtensionsOutline<A>,
) -> Result<(), S::Error> {
    let mut items = at.inside;
    sink.begin(Label::Field(field), at.span, Shape::Items)?;
    for item in &value.0.0 {
        extension(sink, alloc, bytes, items.next(), item)?;
    }
    sink.end()
}

/// The element in the octets of an extension.
fn inside_of(at: Element<'_>) -> Element<'_> {
    let mut fields = at.inside;
    let _identifier = fields.next();
    let _critical = fields.next_if(0x01);
    let mut octets = fields.next().inside;
    octets.next()
}

/// How many deviations stand in the frame of an extension.
fn frame_deviations<A: Allocator + Copy>(alloc: A, bytes: &[u8], at: Element<'_>) -> usize {
    let slice = slice_at(bytes, at.span);
    match check::<ExtensionOutline<A>, A>(alloc, slice) {
        Ok(deviations) => deviations.total(),
        Err(_) => 0,
    }
}

/// Tells an extension: by its fields where the port reads its value, or why that is malformed, and else by its octets.
fn extension<A: Allocator + Copy, S: Limited>(
    sink: &mut S,
    alloc: A,
    bytes: &[u8],
    at: Element<'_>,
    value: &ExtensionOutline<A>,
) -> Result<(), S::Error> {
    let content = value.extn_id.0.content();
    let place = Place {
        label: Label::Extension {
            content,
            is_critical: value.critical,
            octets: None,
        },
        span: at.span,
        inside: inside_of(at),
    };
    let octets = value.extn_value.0.as_slice();
    if list_extension(sink, alloc, place, content, octets)? {
        return Ok(());
    }
    match read_explained::<Extension<A>, A>(alloc, slice_at(bytes, at.span)) {
        Ok((read, deviations)) => {
            let told = known_extension(sink, bytes, at.span, &read);
            drop(read);
            told?;
            let inside = deviations
                .total()
                .saturating_sub(frame_deviations(alloc, bytes, at));
            sink.deviating(inside)
        }
        Err(refused) => malformed(sink, place, octets, at.span.start, refused),
    }
}

/// Tells that the octets of an extension don't encode what they should, as reading told it of bytes behind so many of the
/// input.
pub(crate) fn malformed<S: Limited>(
    sink: &mut S,
    place: Place<'_>,
    octets: &[u8],
    before: usize,
    refused: Refused,
) -> Result<(), S::Error> {
    if refused.error == ReadError::OutOfMemory {
        return Err(S::out_of_memory());
    }
    let value = Value::Malformed {
        octets,
        reason: refused.error.name(),
        at: before.saturating_add(refused.at),
    };
    sink.field(place.label, place.span, value)
}

/// Writes the alternative names of the subject, behind a title and in front of an ending, by the first extension that has
/// any; nothing where none has.
pub(crate) fn write_names<A: Allocator + Copy, W: Write>(
    out: &mut W,
    alloc: A,
    value: &ExtensionsOutline<A>,
    title: &str,
    ending: &str,
) -> fmt::Result {
    for item in &value.0.0 {
        if item.extn_id.0.content() == ALTERNATIVE_NAMES {
            let octets = item.extn_value.0.as_slice();
            return write_list(out, alloc, octets, title, ending);
        }
    }
    Ok(())
}

/// Writes names by the octets of their extension; nothing where these encode none.
fn write_list<A: Allocator + Copy, W: Write>(
    out: &mut W,
    alloc: A,
    octets: &[u8],
    title: &str,
    ending: &str,
) -> fmt::Result {
    match known::<GeneralNames<A>, A>(alloc, octets) {
        Ok(Some(names)) => {
            let written = write!(out, "{title}{}{ending}", NamesLine(&names));
            drop(names);
            written
        }
        Ok(None) => Ok(()),
        Err(AllocError) => Err(fmt::Error),
    }
}

/// Writes the lines of a summary that tell of extensions: alternative names, services, policies.
pub(crate) fn write_extensions<A: Allocator + Copy, W: Write>(
    out: &mut W,
    alloc: A,
    value: &ExtensionsOutline<A>,
) -> fmt::Result {
    write_names(out, alloc, value, "  names       ", "\n")?;
    for item in &value.0.0 {
        write_extension(out, alloc, &item.extn_id.0, item.extn_value.0.as_slice())?;
    }
    Ok(())
}
