//! The lines that say what a structure comes to.

use crate::fault;
use cimaroly_outlines::OutlineNote;
use std::alloc::{AllocError, Global};
use std::fmt::{self, Display, Write};
use x509_der::Place;
use x509_inspect::{Fault, Kind, RefusalLine, Searched, Source, Standing};
use x509_report_parts::shown::ShownBytes;
use x509_report_parts::values::Count;
use x509_report_parts::{Colours, Mark};

/// What is made of something that isn't read as a type.
#[derive(Clone, Copy, Debug, PartialEq, Eq)]
pub(crate) enum Outcome {
    /// It is refused.
    Refused,
    /// It is passed over.
    PassedOver,
    /// It can't be opened, or can't be read to its end.
    Failed,
}

impl Outcome {
    /// What it is called.
    pub(crate) fn name(self) -> &'static str {
        match self {
            Outcome::Refused => "refused",
            Outcome::PassedOver => "passed over",
            Outcome::Failed => "failed",
        }
    }
}

/// How many deviations a line tells.
const TOLD: usize = 16;

/// Writes where a structure comes from, up to the colon behind it.
fn write_source(out: &mut String, source: Source<'_>) -> Result<(), AllocError> {
    write!(out, "{}", ShownBytes(source.file.as_bytes()))?;
    match source.block {
        Some((line, label)) => write!(out, ":{line}: {}: ", ShownBytes(label)),
        None => write!(out, ": "),
    }
}

/// Writes the line that says what was made of something that isn't read as a type.
pub(crate) fn write_note(
    out: &mut String,
    source: Source<'_>,
    outcome: Outcome,
    reason: &str,
    colours: Colours,
) -> Result<(), AllocError> {
    write_source(out, source)?;
    let name = outcome.name();
    if outcome == Outcome::PassedOver {
        return writeln!(out, "{name}: {reason}");
    }
    let begin = colours.begin(Mark::Refusal);
    writeln!(out, "{begin}{name}: {reason}{}", colours.end())
}

/// Writes the file and the line that a structure comes from.
pub(crate) fn write_place(out: &mut String, source: Source<'_>) -> Result<(), AllocError> {
    write!(out, "{}", ShownBytes(source.file.as_bytes()))?;
    match source.block {
        Some((line, _)) => write!(out, ":{line}"),
        None => Ok(()),
    }
}

/// Writes where a structure comes from and as what it is read, up to the colon behind it.
pub(crate) fn write_structure(
    out: &mut String,
    source: Source<'_>,
    kind: Kind,
) -> Result<(), AllocError> {
    write_named(out, source, kind.name())
}

/// The same of a type by its name.
pub(crate) fn write_named(
    out: &mut String,
    source: Source<'_>,
    name: &str,
) -> Result<(), AllocError> {
    write_place(out, source)?;
    write!(out, ": {name}: ")
}

/// The deviations on one line, as in `1 deviation: RSA parameters absent at 37..48`, and what else X.690 forbids.
#[derive(Clone, Copy, Drop)]
pub(crate) struct Deviations<'a>(pub(crate) &'a [Place], pub(crate) &'a [fault::Fault]);

impl Deviations<'_> {
    /// Whether there are none, and nothing else.
    pub(crate) fn is_ok(&self) -> bool {
        self.0.is_empty() && self.1.is_empty()
    }
}

/// Writes the deviations' names and places.
fn write_places<W: Write>(f: &mut fmt::Formatter<W>, places: &[Place]) -> fmt::Result {
    let mut is_first = true;
    for place in places.iter().take(TOLD) {
        f.write_str(if is_first { ": " } else { ", " })?;
        is_first = false;
        let Place { kind, start, end } = *place;
        write!(f, "{kind} at {start}..{end}")?;
    }
    let others = places.len().saturating_sub(TOLD);
    if others > 0 {
        write!(f, ", and {others} more")?;
    }
    Ok(())
}

/// Writes what X.690 forbids, as in `not in DER: key usage has trailing zero bits at 94..170 (X.690, 11.2.2)`.
fn write_loose<W: Write>(f: &mut fmt::Formatter<W>, faults: &[fault::Fault]) -> fmt::Result {
    let mut between = "not in DER: ";
    for fault in faults {
        write!(f, "{between}{fault}")?;
        between = ", ";
    }
    Ok(())
}

impl Display for Deviations<'_> {
    fn fmt<W: Write>(&self, f: &mut fmt::Formatter<W>) -> fmt::Result {
        let Deviations(places, faults) = *self;
        match places.len() {
            0 if faults.is_empty() => return f.write_str("ok"),
            0 => return write_loose(f, faults),
            1 => f.write_str("1 deviation")?,
            count => write!(f, "{count} deviations")?,
        }
        write_places(f, places)?;
        if faults.is_empty() {
            return Ok(());
        }
        f.write_str("; ")?;
        write_loose(f, faults)
    }
}

/// Writes the line of a structure that was read.
pub(crate) fn write_read(
    out: &mut String,
    source: Source<'_>,
    kind: Kind,
    deviations: Deviations<'_>,
    colours: Colours,
) -> Result<(), AllocError> {
    write_structure(out, source, kind)?;
    if deviations.is_ok() {
        return writeln!(out, "{deviations}");
    }
    let begin = colours.begin(Mark::Deviation);
    writeln!(out, "{begin}{deviations}{}", colours.end())
}

/// Writes the same, and whether the structure is valid at the time that was asked for.
pub(crate) fn write_dated(
    out: &mut String,
    source: Source<'_>,
    kind: Kind,
    (deviations, standing): (Deviations<'_>, Standing),
    colours: Colours,
) -> Result<(), AllocError> {
    if standing == Standing::Valid {
        return write_read(out, source, kind, deviations, colours);
    }
    write_structure(out, source, kind)?;
    let (begin, end) = (colours.begin(Mark::Deviation), colours.end());
    writeln!(out, "{begin}{}; {deviations}{end}", standing.name())
}

/// What is wrong in extensions that the encoding keeps as octets, each behind a semicolon; nothing where nothing is wrong.
#[derive(Clone, Copy, Drop)]
struct FaultsLine<'a>(&'a [Fault], usize);

/// Writes which octets don't encode what they should, and why.
fn write_faults<W: Write>(f: &mut fmt::Formatter<W>, faults: &[Fault]) -> fmt::Result {
    for fault in faults.iter().take(TOLD) {
        let Fault { name, reason, at } = *fault;
        write!(f, "; {name}, malformed: {reason} at byte {at}")?;
    }
    let others = faults.len().saturating_sub(TOLD);
    if others > 0 {
        write!(f, "; {others} more malformed")?;
    }
    Ok(())
}

impl Display for FaultsLine<'_> {
    fn fmt<W: Write>(&self, f: &mut fmt::Formatter<W>) -> fmt::Result {
        let FaultsLine(faults, deviations) = *self;
        write_faults(f, faults)?;
        match deviations {
            0 => Ok(()),
            count => write!(
                f,
                "; {} in extensions kept as octets",
                Count(count as u64, "deviation")
            ),
        }
    }
}

/// In which colour a line stands of what was searched.
fn mark_of(
    searched: &Searched<Global>,
    loose: &[fault::Fault],
    standing: Standing,
) -> Option<Mark> {
    if !searched.faults.malformed.is_empty() {
        return Some(Mark::Refusal);
    }
    let deviations = Deviations(searched.places.as_slice(), loose);
    let is_well = deviations.is_ok() && searched.faults.deviations == 0;
    if is_well && standing == Standing::Valid {
        return None;
    }
    Some(Mark::Deviation)
}

/// Writes the line of a structure that was read, with what is wrong in extensions that the encoding keeps as octets, and
/// whether it is valid at the time that was asked for.
pub(crate) fn write_searched(
    out: &mut String,
    source: Source<'_>,
    name: &str,
    (searched, loose, standing): (&Searched<Global>, &[fault::Fault], Standing),
    colours: Colours,
) -> Result<(), AllocError> {
    write_named(out, source, name)?;
    let (begin, end) = match mark_of(searched, loose, standing) {
        Some(mark) => (colours.begin(mark), colours.end()),
        None => ("", ""),
    };
    write!(out, "{begin}")?;
    if standing != Standing::Valid {
        write!(out, "{}; ", standing.name())?;
    }
    let faults = FaultsLine(
        searched.faults.malformed.as_slice(),
        searched.faults.deviations,
    );
    writeln!(
        out,
        "{}{faults}{end}",
        Deviations(searched.places.as_slice(), loose)
    )
}

/// Writes the line of a structure that was refused, with what its outline comes to.
pub(crate) fn write_refused(
    out: &mut String,
    source: Source<'_>,
    line: RefusalLine<'_>,
    note: &OutlineNote,
    colours: Colours,
) -> Result<(), AllocError> {
    write_structure(out, source, line.kind)?;
    let begin = colours.begin(Mark::Refusal);
    writeln!(out, "{begin}refused: {line}{note}{}", colours.end())
}
