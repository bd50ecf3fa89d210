//! What can be reported.

use std::fmt::{self, Write};
use x509_report_fields::column::Column;
use x509_report_further::Limited;
use x509_report_parts::{Moment, Secrets, Span};

/// A type whose values can be reported.
pub trait Reported {
    /// What the type is called in a report's first line, as in `Certificate`.
    const TITLE: &'static str;

    /// Tells a sink what stands in the value, which was read from the whole of these bytes.
    ///
    /// # Errors
    /// What the sink fails with.
    fn tell<S: Limited>(
        &self,
        sink: &mut S,
        bytes: &[u8],
        secrets: Secrets,
    ) -> Result<(), S::Error>;

    /// Where what a signature covers stands in the bytes that the value was read from, if the type is signed.
    fn signed(&self, bytes: &[u8]) -> Option<Span> {
        let _ = bytes;
        None
    }

    /// Writes the lines that say the most important, each behind two spaces and a word in twelve columns.
    ///
    /// # Errors
    /// What the writer fails with.
    fn summary<W: Write>(&self, out: &mut W) -> fmt::Result;

    /// Writes what a column tells of the value, if it is something that the value has; else nothing.
    ///
    /// # Errors
    /// What the writer fails with.
    fn column<W: Write>(&self, column: Column, out: &mut W) -> fmt::Result;

    /// Writes the most important on one line.
    ///
    /// # Errors
    /// What the writer fails with.
    fn brief<W: Write>(&self, out: &mut W) -> fmt::Result {
        self.column(Column::Key, out)
    }

    /// From when until when it is valid, both included, if the type says so (RFC 5280, 4.1.2.5).
    fn validity(&self) -> Option<(Moment, Moment)> {
        None
    }
}
