//! A report as JSON: one object on one line, or the member `outline` of one.

use crate::task::{Asked, Task, faults_in, pin_of, run_as};
use std::alloc::{AllocError, Allocator};
use std::fmt::{self, Display, Write};
use x509_der::{Place, Refused};
use x509_fingerprints::{Fingerprints, HexDigits, Pin};
use x509_inspect::{Extent, Fault, Faults, Options, Secrets, Source, Standing};
use x509_report::Reported;
use x509_report_outlines::Keyholder;
use x509_report_parts::shown::ShownBytes;
use x509_report_parts::{FieldSink, JsonSink, Moment, Span};

/// Of how many deviations the field is told: to find one takes a walk over the whole.
const NAMED: usize = 16;

/// The field that stands over a place: it prints the names of the nodes around it.
#[derive(Drop)]
struct FieldOf<'a, R: Reported> {
    report: &'a R,
    bytes: &'a [u8],
    place: Span,
}

impl<R: Reported> Display for FieldOf<'_, R> {
    fn fmt<W: Write>(&self, f: &mut fmt::Formatter<W>) -> fmt::Result {
        let mut sink = FieldSink::new(f, self.place, ".");
        self.report.tell(&mut sink, self.bytes, Secrets::Hidden)
    }
}

/// Writes a deviation.
fn write_deviation<A: Allocator + Copy, R: Reported>(
    sink: &mut JsonSink<A>,
    report: &R,
    bytes: &[u8],
    place: &Place,
    is_named: bool,
) -> Result<(), AllocError> {
    let span = Span {
        start: place.start,
        end: place.end,
    };
    sink.writer().begin_object()?;
    sink.member("name", place.kind.name())?;
    sink.place("at", span)?;
    if is_named {
        let field = FieldOf {
            report,
            bytes,
            place: span,
        };
        sink.writer().key("field")?;
        sink.printed(&field)?;
    }
    sink.writer().end_object()
}

/// What a read came to, in a word.
fn word_of(places: &[Place]) -> &'static str {
    if places.is_empty() {
        "ok"
    } else {
        "deviations"
    }
}

/// Writes the deviations, and what is signed.
fn write_deviations<A: Allocator + Copy, R: Reported>(
    sink: &mut JsonSink<A>,
    report: &R,
    bytes: &[u8],
    places: &[Place],
) -> Result<(), AllocError> {
    sink.writer().key("deviations")?;
    sink.writer().begin_array()?;
    for (index, place) in places.iter().enumerate() {
        write_deviation(sink, report, bytes, place, index < NAMED)?;
    }
    sink.writer().end_array()?;
    match report.signed(bytes) {
        Some(span) => sink.place("signed", span),
        None => Ok(()),
    }
}

/// Writes a member that is a digest in hexadecimal.
fn write_digest<A: Allocator + Copy>(
    sink: &mut JsonSink<A>,
    name: &str,
    digest: &[u8],
) -> Result<(), AllocError> {
    sink.writer().key(name)?;
    sink.printed(&HexDigits(digest))
}

/// Writes fingerprints of what is signed, and the pin of the public key.
fn write_digests<A: Allocator + Copy>(
    sink: &mut JsonSink<A>,
    bytes: &[u8],
    is_signed: bool,
    pin: Option<Pin>,
) -> Result<(), AllocError> {
    if is_signed {
        let prints = Fingerprints::of(bytes);
        write_digest(sink, "sha256", &prints.sha256)?;
        write_digest(sink, "sha1", &prints.sha1)?;
    }
    match pin {
        Some(pin) => {
            sink.writer().key("pin")?;
            sink.printed(&pin)
        }
        None => Ok(()),
    }
}

/// Writes whether an outline is valid at a time, if one is asked for and it says for which it is.
fn write_validity<A: Allocator + Copy, R: Reported>(
    sink: &mut JsonSink<A>,
    report: &R,
    at: Option<Moment>,
) -> Result<(), AllocError> {
    match (at, report.validity()) {
        (Some(at), Some((first, last))) => {
            sink.member("validity", Standing::of(at, first, last).name())
        }
        _ => Ok(()),
    }
}

/// Writes octets that don't encode what they should.
fn write_fault<A: Allocator + Copy>(
    sink: &mut JsonSink<A>,
    fault: Fault,
) -> Result<(), AllocError> {
    let Fault { name, reason, at } = fault;
    sink.writer().begin_object()?;
    sink.member("name", name)?;
    sink.member("reason", reason)?;
    sink.count("at", at as u64)?;
    sink.writer().end_object()
}

/// Writes what is wrong in extensions that the encoding keeps as octets.
fn write_faults<A: Allocator + Copy>(
    sink: &mut JsonSink<A>,
    faults: &Faults<A>,
) -> Result<(), AllocError> {
    sink.writer().key("octets")?;
    sink.writer().begin_object()?;
    sink.writer().key("malformed")?;
    sink.writer().begin_array()?;
    for fault in faults.malformed.as_slice() {
        write_fault(sink, *fault)?;
    }
    sink.writer().end_array()?;
    sink.count("deviations", faults.deviations as u64)?;
    sink.writer().end_object()
}

/// Writes the fields, or what else is asked for.
fn write_extent<A: Allocator + Copy, R: Reported + Keyholder<A>>(
    sink: &mut JsonSink<A>,
    alloc: A,
    report: &R,
    bytes: &[u8],
    extent: Extent,
) -> Result<(), AllocError> {
    match extent {
        Extent::Fields(options) => {
            let pin = pin_of(alloc, report)?;
            write_digests(sink, bytes, report.signed(bytes).is_some(), pin)?;
            report.tell(sink, bytes, options.secrets)
        }
        Extent::Outcome => Ok(()),
        Extent::OutcomeAt(at) => write_validity(sink, report, Some(at)),
        Extent::Deep(at) => {
            write_validity(sink, report, at)?;
            let faults = faults_in(alloc, report, bytes)?;
            let written = write_faults(sink, &faults);
            drop(faults);
            written
        }
    }
}

/// The writing of the members that tell what a read came to, with `result` or without it.
#[derive(Drop)]
struct WriteMembers<'a, 's, A: Allocator> {
    alloc: A,
    sink: &'s mut JsonSink<A>,
    bytes: &'a [u8],
    extent: Extent,
    with_result: bool,
}

impl<A: Allocator + Copy> Task<A> for WriteMembers<'_, '_, A> {
    type Answer = Result<Result<usize, Refused>, AllocError>;

    fn run<R: Reported + Keyholder<A>>(
        self,
        report: &R,
        places: &[Place],
    ) -> Result<Result<usize, Refused>, AllocError> {
        let WriteMembers {
            alloc,
            sink,
            bytes,
            extent,
            with_result,
        } = self;
        if with_result {
            sink.member("result", word_of(places))?;
        }
        write_deviations(sink, report, bytes, places)?;
        write_extent(sink, alloc, report, bytes, extent)?;
        Ok(Ok(places.len()))
    }

    fn refuse(self, refused: Refused) -> Result<Result<usize, Refused>, AllocError> {
        Ok(Err(refused))
    }
}

/// Writes the members that tell what reading bytes as an outline came to.
fn write_members<A: Allocator + Copy>(
    alloc: A,
    sink: &mut JsonSink<A>,
    asked: Asked<'_>,
    extent: Extent,
) -> Result<Result<usize, Refused>, AllocError> {
    let task = WriteMembers {
        alloc,
        sink,
        bytes: asked.bytes,
        extent,
        with_result: true,
    };
    run_as(alloc, asked, task)
}

/// Writes why bytes are refused, and where.
fn write_reason<A: Allocator + Copy>(
    sink: &mut JsonSink<A>,
    refused: Refused,
) -> Result<(), AllocError> {
    sink.member("reason", refused.error.name())?;
    sink.count("at", refused.at as u64)
}

/// Begins an object, with where the bytes come from, as what they are read, and how many they are.
fn begin<A: Allocator + Copy>(
    sink: &mut JsonSink<A>,
    source: Source<'_>,
    asked: Asked<'_>,
) -> Result<(), AllocError> {
    sink.writer().begin_object()?;
    sink.member("file", source.file)?;
    if let Some((line, label)) = source.block {
        sink.count("line", line)?;
        sink.writer().key("label")?;
        sink.printed(&ShownBytes(label))?;
    }
    sink.member("type", asked.kind.name())?;
    sink.count("length", asked.bytes.len() as u64)
}

/// What was written, and how many deviations there are, or why the bytes are refused.
pub type Written<A> = (Vec<u8, A>, Result<usize, Refused>);

/// Writes the object of an outline.
fn write_object<A: Allocator + Copy>(
    alloc: A,
    sink: &mut JsonSink<A>,
    source: Source<'_>,
    asked: Asked<'_>,
    extent: Extent,
) -> Result<Result<usize, Refused>, AllocError> {
    begin(sink, source, asked)?;
    let outcome = write_members(alloc, sink, asked, extent)?;
    if let Err(refused) = outcome {
        sink.member("result", "refused")?;
        write_reason(sink, refused)?;
    }
    sink.writer().end_object()?;
    Ok(outcome)
}

/// Appends the object of bytes as an outline, on one line.
///
/// # Errors
/// `AllocError` where memory is refused; what stood in the vector is dropped.
pub fn push_outline<A: Allocator + Copy>(
    alloc: A,
    out: Vec<u8, A>,
    source: Source<'_>,
    asked: Asked<'_>,
    extent: Extent,
) -> Result<Written<A>, AllocError> {
    let mut sink = JsonSink::new(alloc, out);
    match write_object(alloc, &mut sink, source, asked, extent) {
        Ok(outcome) => {
            let mut line = sink.finish(alloc)?;
            line.push(b'\n')?;
            Ok((line, outcome))
        }
        Err(AllocError) => {
            drop(sink);
            Err(AllocError)
        }
    }
}

/// Writes an object with the members that stand behind `result`.
fn write_behind<A: Allocator + Copy>(
    alloc: A,
    sink: &mut JsonSink<A>,
    asked: Asked<'_>,
    options: Options,
) -> Result<Result<usize, Refused>, AllocError> {
    sink.writer().begin_object()?;
    let task = WriteMembers {
        alloc,
        sink: &mut *sink,
        bytes: asked.bytes,
        extent: Extent::Fields(options),
        with_result: false,
    };
    let outcome = run_as(alloc, asked, task)?;
    if let Err(refused) = outcome {
        write_reason(sink, refused)?;
    }
    sink.writer().end_object()?;
    Ok(outcome)
}

/// The object of bytes as an outline, with the members that stand behind `result`: all that is told but as what they are
/// read, how many they are, and what the read came to.
///
/// # Errors
/// `AllocError` where memory is refused.
pub fn outline_members<A: Allocator + Copy>(
    alloc: A,
    asked: Asked<'_>,
    options: Options,
) -> Result<Written<A>, AllocError> {
    let mut sink = JsonSink::new(alloc, Vec::new(alloc));
    match write_behind(alloc, &mut sink, asked, options) {
        Ok(outcome) => Ok((sink.finish(alloc)?, outcome)),
        Err(AllocError) => {
            drop(sink);
            Err(AllocError)
        }
    }
}

/// Writes an object of what reading bytes as an outline came to.
fn write_outline<A: Allocator + Copy>(
    alloc: A,
    sink: &mut JsonSink<A>,
    asked: Asked<'_>,
    extent: Extent,
) -> Result<(), AllocError> {
    sink.writer().begin_object()?;
    sink.member("type", asked.kind.name())?;
    let _outcome = write_members(alloc, sink, asked, extent)?;
    sink.writer().end_object()
}

/// Adds the member `outline` to the object at the end of a line, whose last bytes are a brace and a line feed.
///
/// # Errors
/// `AllocError` where memory is refused; the line is dropped.
pub fn push_refused<A: Allocator + Copy>(
    alloc: A,
    line: Vec<u8, A>,
    asked: Asked<'_>,
    extent: Extent,
) -> Result<Vec<u8, A>, AllocError> {
    let mut line = line;
    line.truncate(line.len().saturating_sub(2));
    line.extend_from_slice(b",\"outline\":")?;
    let mut sink = JsonSink::new(alloc, line);
    match write_outline(alloc, &mut sink, asked, extent) {
        Ok(()) => {
            let mut line = sink.finish(alloc)?;
            line.extend_from_slice(b"}\n")?;
            Ok(line)
        }
        Err(AllocError) => {
            drop(sink);
            Err(AllocError)
        }
    }
}
