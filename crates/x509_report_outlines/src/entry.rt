//! Entries of revocation lists.

use crate::extension::extensions;
use crate::list_extension::{is_reason, reason_word};
use std::alloc::Allocator;
use std::fmt::{self, Write};
use x509_list_outlines::RevokedCertificateOutline;
use x509_report::parts::{moment_of, time_of};
use x509_report_fields::number::NumberLine;
use x509_report_further::Limited;
use x509_report_parts::values::{Hex, Stamp};
use x509_report_parts::{Element, Label, Shape, Value};

/// Which entries of a revocation list are told.
#[derive(Clone, Copy, Drop)]
pub enum Entries<'a> {
    /// None, but their number.
    Counted,
    /// All.
    All,
    /// Those with a serial number, whose bytes these are, high bytes first.
    With(&'a [u8]),
}

/// A number without the zeros at its front, high bytes first.
fn without_zeros(bytes: &[u8]) -> &[u8] {
    let count = bytes.iter().take_while(|byte| **byte == 0).count();
    bytes.get(count..).unwrap_or(&[])
}

/// Whether the content of an INTEGER has the bytes of a number, but for zeros at their front.
pub fn is_serial(content: &[u8], number: &[u8]) -> bool {
    without_zeros(content) == without_zeros(number)
}

impl Entries<'_> {
    /// Whether an entry with this serial number is told.
    pub(crate) fn tells(self, content: &[u8]) -> bool {
        match self {
            Entries::Counted => false,
            Entries::All => true,
            Entries::With(number) => is_serial(content, number),
        }
    }
}

/// Tells an entry: on one line, where it has no extensions.
fn entry<A: Allocator + Copy, S: Limited>(
    sink: &mut S,
    alloc: A,
    bytes: &[u8],
    at: Element<'_>,
    value: &RevokedCertificateOutline<A>,
) -> Result<(), S::Error> {
    let list = &value.crl_entry_extensions;
    let shape = if list.0.0.is_empty() {
        Shape::Line
    } else {
        Shape::Fields
    };
    let mut fields = at.inside;
    sink.begin(Label::Field("revokedCertificate"), at.span, shape)?;
    let serial = Value::Integer(value.user_certificate.as_bytes());
    sink.field(Label::Field("userCertificate"), fields.next().span, serial)?;
    let date = time_of(&value.revocation_date);
    sink.field(Label::Field("revocationDate"), fields.next().span, date)?;
    if !list.0.0.is_empty() {
        extensions(
            sink,
            alloc,
            bytes,
            "crlEntryExtensions",
            fields.next(),
            list,
        )?;
    }
    sink.end()
}

/// Tells the entries of a list that are asked for.
pub(crate) fn tell_entries<A: Allocator + Copy, S: Limited>(
    sink: &mut S,
    alloc: A,
    bytes: &[u8],
    at: Element<'_>,
    values: &[RevokedCertificateOutline<A>],
    asked: Entries<'_>,
) -> Result<(), S::Error> {
    let label = Label::Field("revokedCertificates");
    if let Entries::Counted = asked {
        return sink.field(label, at.span, Value::Count(values.len() as u64));
    }
    let mut items = at.inside;
    sink.begin(label, at.span, Shape::Items)?;
    for item in values {
        let at = items.next();
        if asked.tells(item.user_certificate.as_bytes()) {
            entry(sink, alloc, bytes, at, item)?;
        }
    }
    sink.end()
}

/// Why a certificate was revoked, if its entry has a reason that the standard has a word for.
fn reason_of<A: Allocator>(value: &RevokedCertificateOutline<A>) -> Option<&'static str> {
    for extension in &value.crl_entry_extensions.0.0 {
        if is_reason(extension.extn_id.0.content()) {
            return reason_word(extension.extn_value.0.as_slice());
        }
    }
    None
}

/// Writes the line of a summary that tells an entry.
fn write_entry<A: Allocator, W: Write>(
    out: &mut W,
    value: &RevokedCertificateOutline<A>,
) -> fmt::Result {
    let serial = NumberLine(value.user_certificate.as_bytes());
    let date = Stamp(moment_of(&value.revocation_date));
    write!(out, "  entry       {serial}, revoked {date}")?;
    match reason_of(value) {
        Some(reason) => writeln!(out, ", {reason}"),
        None => out.write_str("\n"),
    }
}

/// Writes the lines of a summary that tell the entries with a serial number, or that there is none.
pub(crate) fn write_entries<A: Allocator, W: Write>(
    out: &mut W,
    values: &[RevokedCertificateOutline<A>],
    number: &[u8],
) -> fmt::Result {
    let mut is_found = false;
    for item in values {
        if is_serial(item.user_certificate.as_bytes(), number) {
            is_found = true;
            write_entry(out, item)?;
        }
    }
    if is_found {
        return Ok(());
    }
    writeln!(out, "  entry       none for {}", Hex(without_zeros(number)))
}
