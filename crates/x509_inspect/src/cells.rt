//! The cells of a line in a table.

use crate::names::{NameTexts, Names};
use crate::path_sink::write_path;
use std::alloc::Allocator;
use std::fmt::{self, Write};
use x509_fingerprints::{Fingerprints, HexDigits, Pin};
use x509_inspect_parts::{Options, Source};
use x509_report::{Column, Reported};
use x509_report_parts::shown::ShownBytes;

/// What a cell tells.
#[derive(Clone, Copy, Debug, PartialEq, Eq)]
pub enum Cell<'a> {
    /// What a column has.
    Of(Column),
    /// The values at a path of the report's fields, as `subject.commonName`.
    At(&'a str),
}

/// Whether a name is a path: several names with full stops between them.
fn is_path(name: &str) -> bool {
    name.contains('.') && name.split('.').all(|part| !part.is_empty())
}

impl<'a> Cell<'a> {
    /// The cell of a column's name, or of a path.
    pub fn from_name(name: &'a str) -> Option<Self> {
        match Column::from_name(name) {
            Some(column) => Some(Cell::Of(column)),
            None if is_path(name) => Some(Cell::At(name)),
            None => None,
        }
    }
}

/// What is known of the structure that a line is about.
#[derive(Clone, Copy, Drop)]
pub struct Line<'a> {
    /// Where it comes from.
    pub source: Source<'a>,
    /// What the type is called as which it was read.
    pub kind: &'static str,
    /// The bytes.
    pub bytes: &'a [u8],
    /// How many deviations it has.
    pub deviations: usize,
    /// The pin of the public key, if it is asked for and the structure holds one.
    pub pin: Option<Pin>,
    /// What is told.
    pub options: Options,
}

/// Whether a line has the pin.
pub fn has_pin(cells: &[Cell<'_>]) -> bool {
    cells.iter().any(|cell| *cell == Cell::Of(Column::Pin))
}

/// Writes what a column has.
fn write_column<T: Reported, W: Write>(
    out: &mut W,
    line: &Line<'_>,
    value: &T,
    names: Names<'_>,
    column: Column,
) -> fmt::Result {
    match (column, names) {
        (Column::File, _) => write!(out, "{}", ShownBytes(line.source.file.as_bytes())),
        (Column::Line, _) => match line.source.block {
            Some((number, _)) => write!(out, "{number}"),
            None => Ok(()),
        },
        (Column::Type, _) => out.write_str(line.kind),
        (Column::Length, _) => write!(out, "{}", line.bytes.len()),
        (Column::Deviations, _) => write!(out, "{}", line.deviations),
        (Column::Sha256, _) => write!(out, "{}", HexDigits(&Fingerprints::of(line.bytes).sha256)),
        (Column::Sha1, _) => write!(out, "{}", HexDigits(&Fingerprints::of(line.bytes).sha1)),
        (Column::Pin, _) => match line.pin {
            Some(pin) => write!(out, "{pin}"),
            None => Ok(()),
        },
        (
            Column::Subject,
            Names {
                subject: Some(text),
                ..
            },
        ) => out.write_str(text),
        (
            Column::Issuer,
            Names {
                issuer: Some(text),
                ..
            },
        ) => out.write_str(text),
        _ => value.column(column, out),
    }
}

/// Writes what a cell tells.
fn write_cell<T: Reported, W: Write>(
    out: &mut W,
    line: &Line<'_>,
    value: &T,
    names: Names<'_>,
    cell: Cell<'_>,
) -> fmt::Result {
    match cell {
        Cell::Of(column) => write_column(out, line, value, names, column),
        Cell::At(path) => write_path(out, value, line.bytes, path, line.options.secrets),
    }
}

/// Writes cells, with tabs between them.
fn write_row<T: Reported, W: Write>(
    out: &mut W,
    line: &Line<'_>,
    value: &T,
    names: Names<'_>,
    cells: &[Cell<'_>],
) -> fmt::Result {
    let mut is_first = true;
    for cell in cells {
        if !is_first {
            out.write_str("\t")?;
        }
        is_first = false;
        write_cell(out, line, value, names, *cell)?;
    }
    Ok(())
}

/// Writes the cells of a line about a value, with tabs between them, and a line feed.
///
/// # Errors
/// What the writer fails with, and where memory for a name is refused.
pub fn write_cells<T: Reported, A: Allocator + Copy, W: Write>(
    alloc: A,
    out: &mut W,
    line: &Line<'_>,
    value: &T,
    cells: &[Cell<'_>],
) -> fmt::Result {
    let Ok(texts) = NameTexts::of(alloc, value, line.bytes, line.options.names) else {
        return Err(fmt::Error);
    };
    write_row(out, line, value, texts.as_names(), cells)?;
    out.write_str("\n")
}
