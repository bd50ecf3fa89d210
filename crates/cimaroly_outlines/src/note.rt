//! What the line of a refusal says of an outline.

use std::alloc::{AllocError, Global};
use std::fmt::{self, Display, Write};
use x509_der::{Place, ReadError};
use x509_inspect::Kind;
use x509_inspect_outlines::{check_outline, outline_kind, signed_part};
use x509_report_parts::Span;

/// How many deviations a line tells.
const TOLD: usize = 16;

/// What the outline of bytes that are refused comes to, as the end of their line.
#[derive(Drop)]
pub struct OutlineNote {
    /// The deviations; `None` where there is no outline, of which nothing is said.
    places: Option<Vec<Place>>,
    /// What is signed.
    signed: Option<Span>,
}

impl OutlineNote {
    /// Nothing.
    pub const NONE: OutlineNote = OutlineNote {
        places: None,
        signed: None,
    };
}

/// What the outline of bytes comes to that a type refuses.
///
/// # Errors
/// `AllocError` where memory for places is refused.
pub fn note_of(alloc: Global, kind: Kind, bytes: &[u8]) -> Result<OutlineNote, AllocError> {
    let Some(outline) = outline_kind(kind) else {
        return Ok(OutlineNote::NONE);
    };
    match check_outline(alloc, outline, bytes) {
        Ok(places) => Ok(OutlineNote {
            places: Some(places),
            signed: signed_part(outline, bytes),
        }),
        Err(refused) if refused.error == ReadError::OutOfMemory => Err(AllocError),
        Err(_refused) => Ok(OutlineNote::NONE),
    }
}

/// Writes the deviations' names and places.
fn write_places<W: Write>(f: &mut fmt::Formatter<W>, places: &[Place]) -> fmt::Result {
    let mut is_first = true;
    for place in places.iter().take(TOLD) {
        f.write_str(if is_first { ": " } else { ", " })?;
        is_first = false;
        let Place { kind, start, end } = *place;
        write!(f, "{kind} at {start}..{end}")?;
    }
    let others = places.len().saturating_sub(TOLD);
    if others > 0 {
        write!(f, ", and {others} more")?;
    }
    Ok(())
}

/// It prints as `; its outline is DER, bytes 4..1162 are signed`.
impl Display for OutlineNote {
    fn fmt<W: Write>(&self, f: &mut fmt::Formatter<W>) -> fmt::Result {
        let Some(places) = &self.places else {
            return Ok(());
        };
        match places.len() {
            0 => f.write_str("; its outline is DER")?,
            1 => f.write_str("; its outline has 1 deviation")?,
            count => write!(f, "; its outline has {count} deviations")?,
        }
        write_places(f, places.as_slice())?;
        let before = if places.is_empty() { "," } else { ";" };
        match self.signed {
            Some(Span { start, end }) => write!(f, "{before} bytes {start}..{end} are signed"),
            None => Ok(()),
        }
    }
}
