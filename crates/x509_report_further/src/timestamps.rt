//! Timestamps of logs of certificates (RFC 6962, 3.3).

use crate::{Limited, Place, malformed};
use std::alloc::Allocator;
use x509_der::ReadError;
use x509_report_parts::{Cursor, Label, Shape, Span, Value};
use x509_timestamps::{BadList, read_timestamp, timestamps as listed};

/// How many bytes the length of a list has, and that of an item in it.
const LENGTH: usize = 2;

/// Tells the timestamps of a list in the form that TLS gives them.
pub(crate) fn timestamps<A: Allocator + Copy, S: Limited>(
    sink: &mut S,
    alloc: A,
    place: Place<'_>,
    list: &[u8],
) -> Result<(), S::Error> {
    let items = match listed(alloc, list) {
        Ok(items) => items,
        Err(BadList::OutOfMemory) => return Err(S::out_of_memory()),
        Err(BadList::Malformed) => {
            let at = place.inside.inside.at.saturating_add(misfit(list));
            let value = malformed(list, ReadError::BadLength, at);
            return sink.field(place.label, place.span, value);
        }
    };
    let mut rest = place.inside.inside.behind(LENGTH);
    sink.begin(place.label, place.span, Shape::Items)?;
    for item in items.as_slice() {
        let whole = LENGTH.saturating_add(item.len());
        timestamp(sink, span_of(rest, whole), *item)?;
        rest = rest.behind(whole);
    }
    sink.end()
}

/// The number of two bytes, the high one first.
fn joined(high: u8, low: u8) -> usize {
    usize::from(high) * 256 + usize::from(low)
}

/// What stands behind the item that bytes begin with, if they begin with one.
fn behind_item(bytes: &[u8]) -> Option<&[u8]> {
    match bytes {
        [high, low, rest @ ..] => rest.get(joined(*high, *low)..),
        _ => None,
    }
}

/// How many bytes of a list that is none stand before the length that doesn't fit what is behind it.
fn misfit(list: &[u8]) -> usize {
    let mut rest = match list {
        [high, low, content @ ..] if joined(*high, *low) == content.len() => content,
        _ => return 0,
    };
    for _ in 0..list.len() {
        match behind_item(rest) {
            Some(behind) => rest = behind,
            None => break,
        }
    }
    list.len().saturating_sub(rest.len())
}

/// Where so many bytes stand that a cursor comes to next.
fn span_of(at: Cursor<'_>, len: usize) -> Span {
    Span {
        start: at.at,
        end: at.behind(len).at,
    }
}

/// The value of bytes that are no timestamp which is known: malformed where they are none of version 1, whose number is 0.
fn unread(span: Span, bytes: &[u8]) -> Value<'_> {
    match bytes.first() {
        None => malformed(bytes, ReadError::BadLength, span.start),
        Some(0) => malformed(
            bytes,
            ReadError::BadLength,
            span.start.saturating_add(LENGTH),
        ),
        Some(_) => Value::Kept(bytes),
    }
}

/// Tells a timestamp: the log, the time in milliseconds since 1970, and the signature.
fn timestamp<S: Limited>(sink: &mut S, span: Span, bytes: &[u8]) -> Result<(), S::Error> {
    let label = Label::Field("SignedCertificateTimestamp");
    let Some(read) = read_timestamp(bytes) else {
        return sink.field(label, span, unread(span, bytes));
    };
    sink.begin(label, span, Shape::Line)?;
    sink.field(Label::Field("logID"), span, Value::Opaque(read.log_id))?;
    sink.field(Label::Field("timestamp"), span, Value::Count(read.time))?;
    sink.field(
        Label::Field("signature"),
        span,
        Value::Opaque(read.signature),
    )?;
    sink.end()
}
