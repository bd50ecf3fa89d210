//! The elements of any bytes in the basic encoding rules, with places, tags, names and first bytes.

use crate::header::{Header, Length, TagName, header_at};
use crate::held::{before_element, write_content};
use std::alloc::{AllocError, Allocator};
use std::fmt::{self, Write};
use x509_report_parts::values::ShortHex;

/// Why no tree was written.
#[derive(Clone, Copy, Debug, PartialEq, Eq)]
pub enum TreeError {
    /// A request for memory was refused.
    OutOfMemory,
    /// Writing failed.
    Write,
}

impl From<AllocError> for TreeError {
    fn from(_refused: AllocError) -> TreeError {
        TreeError::OutOfMemory
    }
}

impl From<fmt::Error> for TreeError {
    fn from(_failed: fmt::Error) -> TreeError {
        TreeError::Write
    }
}

/// How the elements of some bytes are encoded.
#[derive(Clone, Copy, Debug, PartialEq, Eq)]
pub struct Form {
    /// How many lengths are indefinite, or said in more bytes than needed.
    pub lengths: usize,
    /// The first byte at which no element could be read; where the last element is cut off, the end.
    pub stopped: Option<usize>,
}

/// How deep lines are indented at the most.
const DEEPEST: usize = 40;

/// How many strings with elements in them are gone into, one inside of another.
const STRINGS: usize = 8;

/// Writes the start of a line, up to the tag.
fn write_place<W: Write>(
    out: &mut W,
    start: usize,
    stop: Option<usize>,
    depth: usize,
) -> fmt::Result {
    match stop {
        Some(stop) => write!(out, "{start:>8}..{stop:<8}")?,
        None => write!(out, "{start:>8}..        ")?,
    }
    for _ in 0..depth.min(DEEPEST) {
        out.write_str("  ")?;
    }
    Ok(())
}

/// Writes what is to be said of a length.
fn write_length<W: Write>(out: &mut W, header: &Header) -> fmt::Result {
    match header.length {
        Length::Shortest => {}
        Length::Long => out.write_str(" (long-form length)")?,
        Length::Indefinite => out.write_str(" (indefinite length)")?,
    }
    match header.missing {
        0 => Ok(()),
        1 => out.write_str(" (1 byte missing)"),
        missing => write!(out, " ({missing} bytes missing)"),
    }
}

/// What a walk is in.
#[derive(Clone, Copy, Debug, PartialEq, Eq)]
struct Level {
    /// Where it ends, or else what it stands in, if its length is indefinite.
    end: usize,
    /// Whether its length is indefinite.
    is_indefinite: bool,
    /// Whether it is a string.
    is_string: bool,
}

/// A walk over elements: where it is, and what it is in.
#[derive(Drop)]
struct Walk<A: Allocator> {
    at: usize,
    levels: Vec<Level, A>,
    strings: usize,
    form: Form,
}

impl<A: Allocator + Copy> Walk<A> {
    /// Goes out of the innermost level.
    fn up(&mut self) {
        if let Some(level) = self.levels.pop() {
            self.strings = self.strings.saturating_sub(usize::from(level.is_string));
        }
    }

    /// Goes out of the elements that end here.
    fn leave(&mut self) {
        for _ in 0..self.levels.len() {
            match self.levels.last() {
                Some(level) if level.end <= self.at => {
                    let is_open = level.is_indefinite;
                    self.up();
                    // the end of contents is missing
                    if is_open {
                        self.stop(self.at);
                    }
                }
                _ => return,
            }
        }
    }

    /// Goes into an element.
    fn enter(&mut self, header: &Header, at: usize) -> Result<(), TreeError> {
        let is_string = !header.is_constructed();
        let level = Level {
            end: header.stop,
            is_indefinite: header.length == Length::Indefinite,
            is_string,
        };
        if self.levels.push(level).is_err() {
            return Err(TreeError::OutOfMemory);
        }
        self.strings = self.strings.saturating_add(usize::from(is_string));
        self.at = at;
        Ok(())
    }

    /// Notes how an element is encoded.
    fn note(&mut self, header: &Header) {
        if header.length != Length::Shortest && self.strings == 0 {
            self.form.lengths = self.form.lengths.saturating_add(1);
        }
        if header.missing > 0 {
            self.stop(header.stop);
        }
    }

    /// Notes that no element can be read at a place, unless what stands there may be no element.
    fn stop(&mut self, at: usize) {
        if self.strings == 0 && self.form.stopped.is_none() {
            self.form.stopped = Some(at);
        }
    }

    /// Writes the line of an element, and goes into it or behind it.
    fn element<W: Write>(
        &mut self,
        out: &mut W,
        bytes: &[u8],
        header: &Header,
    ) -> Result<(), TreeError> {
        self.note(header);
        let is_open = header.length == Length::Indefinite;
        let stop = if is_open { None } else { Some(header.stop) };
        write_place(out, header.start, stop, self.levels.len())?;
        write!(out, "{}", TagName(header.tag))?;
        if header.is_constructed() {
            write_length(out, header)?;
            out.write_str("\n")?;
            return self.enter(header, header.content);
        }
        self.primitive(out, bytes, header)
    }

    /// Writes the rest of the line of an element that isn't constructed, and goes into it or behind it.
    fn primitive<W: Write>(
        &mut self,
        out: &mut W,
        bytes: &[u8],
        header: &Header,
    ) -> Result<(), TreeError> {
        let content = bytes.get(header.content..header.stop).unwrap_or(&[]);
        if self.strings < STRINGS && header.missing == 0 {
            if let Some(before) = before_element(header.tag, content) {
                write_length(out, header)?;
                out.write_str(", which holds\n")?;
                return self.enter(header, header.content.saturating_add(before));
            }
        }
        write_content(out, header.tag, content)?;
        write_length(out, header)?;
        out.write_str("\n")?;
        self.at = header.stop;
        Ok(())
    }

    /// Writes the line of the two bytes that end a content of indefinite length, if they stand here, and goes behind them.
    fn end_of_contents<W: Write>(&mut self, out: &mut W, bytes: &[u8]) -> Result<bool, TreeError> {
        let stop = self.at.saturating_add(2);
        let is_open = self.levels.last().is_some_and(|level| level.is_indefinite);
        if !is_open || bytes.get(self.at..stop) != Some([0, 0].as_slice()) {
            return Ok(false);
        }
        self.up();
        write_place(out, self.at, Some(stop), self.levels.len())?;
        out.write_str("end of contents\n")?;
        self.at = stop;
        Ok(true)
    }

    /// Writes the line of bytes that are no element, up to the end of what they stand in.
    fn rest<W: Write>(&mut self, out: &mut W, bytes: &[u8], end: usize) -> Result<(), TreeError> {
        self.stop(self.at);
        write_place(out, self.at, Some(end), self.levels.len())?;
        let rest = bytes.get(self.at..end).unwrap_or(&[]);
        writeln!(out, "no element, {}", ShortHex(rest))?;
        self.at = end;
        Ok(())
    }

    /// Writes the next line.
    fn step<W: Write>(&mut self, out: &mut W, bytes: &[u8]) -> Result<(), TreeError> {
        self.leave();
        if self.end_of_contents(out, bytes)? {
            return Ok(());
        }
        let end = self.levels.last().map_or(bytes.len(), |level| level.end);
        match header_at(bytes, self.at, end) {
            Some(header) => self.element(out, bytes, &header),
            None => self.rest(out, bytes, end),
        }
    }
}

/// Writes a line for each element of the bytes: where it stands, its tag, and of one without elements in it what stands in
/// it. It goes into strings that hold an element too, and marks lengths that DER doesn't have, and what is cut off or no
/// element. Answers how the bytes are encoded.
///
/// # Errors
/// Writing failed, or memory is refused.
pub fn write_tree<A: Allocator + Copy, W: Write>(
    alloc: A,
    out: &mut W,
    bytes: &[u8],
) -> Result<Form, TreeError> {
    let mut walk = Walk {
        at: 0,
        levels: Vec::new(alloc),
        strings: 0,
        form: Form {
            lengths: 0,
            stopped: None,
        },
    };
    for _ in 0..bytes.len() {
        if walk.at >= bytes.len() {
            break;
        }
        walk.step(out, bytes)?;
    }
    walk.leave();
    Ok(walk.form)
}
