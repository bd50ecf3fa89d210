//! JSON objects of one line: where bytes come from, as what they are read, and why they are refused.

use crate::field_path::FieldPath;
use crate::kind::Kind;
use crate::options::Options;
use std::alloc::{AllocError, Allocator};
use x509_der::Refused;
use x509_report_parts::shown::ShownBytes;
use x509_report_parts::{JsonSink, Moment};

/// Where bytes come from.
#[derive(Clone, Copy, Drop)]
pub struct Source<'a> {
    /// The path of the file; `-` is standard input.
    pub file: &'a str,
    /// The line that begins the PEM block, and its label, where the bytes are those of one.
    pub block: Option<(u64, &'a [u8])>,
}

/// Whether all fields are told, or what the read came to alone.
#[derive(Clone, Copy, Debug, PartialEq, Eq)]
pub enum Extent {
    /// What the read came to.
    Outcome,
    /// The fields too.
    Fields(Options),
    /// What the read came to, and whether the value is valid at a time.
    OutcomeAt(Moment),
    /// What the read came to, what is wrong in extensions that the encoding keeps as octets, and where a time is asked for,
    /// whether the value is valid then.
    Deep(Option<Moment>),
}

/// What stands in an object besides what the read came to.
#[derive(Clone, Copy, Drop)]
pub struct Head<'a> {
    /// Where the bytes come from.
    pub source: Source<'a>,
    /// As what they are read.
    pub kind: Kind,
    /// The bytes.
    pub bytes: &'a [u8],
    /// What is told.
    pub extent: Extent,
}

/// Writes where the bytes come from.
fn write_source<A: Allocator + Copy>(
    sink: &mut JsonSink<A>,
    source: Source<'_>,
) -> Result<(), AllocError> {
    sink.member("file", source.file)?;
    if let Some((line, label)) = source.block {
        sink.count("line", line)?;
        sink.writer().key("label")?;
        sink.printed(&ShownBytes(label))?;
    }
    Ok(())
}

/// Writes why and where a read was refused.
///
/// # Errors
/// `AllocError` where memory is refused.
pub fn write_reason<A: Allocator + Copy>(
    sink: &mut JsonSink<A>,
    kind: Kind,
    bytes: &[u8],
    refused: Refused,
) -> Result<(), AllocError> {
    let at = refused.at;
    sink.member("reason", refused.error.name())?;
    sink.count("at", at as u64)?;
    let path = FieldPath {
        kind,
        bytes,
        at,
        separator: ".",
    };
    if path.is_empty() {
        return Ok(());
    }
    sink.writer().key("field")?;
    sink.printed(&path)
}

/// Begins the object, with where the bytes come from, as what they are read, and how many they are.
///
/// # Errors
/// `AllocError` where memory is refused.
pub fn begin<A: Allocator + Copy>(
    sink: &mut JsonSink<A>,
    head: &Head<'_>,
) -> Result<(), AllocError> {
    sink.writer().begin_object()?;
    write_source(sink, head.source)?;
    sink.member("type", head.kind.name())?;
    sink.count("length", head.bytes.len() as u64)
}

/// Writes the whole object of a refusal.
///
/// # Errors
/// `AllocError` where memory is refused.
pub fn write_refused<A: Allocator + Copy>(
    sink: &mut JsonSink<A>,
    head: &Head<'_>,
    refused: Refused,
) -> Result<(), AllocError> {
    begin(sink, head)?;
    sink.member("result", "refused")?;
    write_reason(sink, head.kind, head.bytes, refused)?;
    sink.writer().end_object()
}

/// The JSON that a sink wrote, with a line feed behind it.
///
/// # Errors
/// `AllocError` where memory is refused.
pub fn line_of<A: Allocator + Copy>(alloc: A, sink: JsonSink<A>) -> Result<Vec<u8, A>, AllocError> {
    let mut out = sink.finish(alloc)?;
    out.push(b'\n')?;
    Ok(out)
}

/// Appends the object of a block or a file that isn't read as any type, on one line.
///
/// # Errors
/// `AllocError` where memory is refused; what stood in the vector is dropped.
pub fn push_note<A: Allocator + Copy>(
    alloc: A,
    out: Vec<u8, A>,
    source: Source<'_>,
    outcome: &str,
    reason: &str,
) -> Result<Vec<u8, A>, AllocError> {
    let mut sink = JsonSink::new(alloc, out);
    sink.writer().begin_object()?;
    write_source(&mut sink, source)?;
    sink.member("result", outcome)?;
    sink.member("reason", reason)?;
    sink.writer().end_object()?;
    line_of(alloc, sink)
}
