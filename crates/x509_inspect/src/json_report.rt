//! A report as JSON: one object on one line.

ghost use Rattle.std.specs.Prelude.{IfOk, IfErr};
ghost use Rattle.x509_inspect.specs.Outcomes.{Counts, NotRead};

use crate::text_report::{FieldOf, NAMED};
use crate::told::{Task, faults_in, pin_told, read_told};
use std::alloc::{AllocError, Allocator};
use x509_der::{FromDer, Place, Refused};
use x509_fingerprints::{Fingerprints, HexDigits, Keyed};
use x509_inspect_parts::json_line::{begin, line_of, write_reason, write_refused};
use x509_inspect_parts::{Extent, Head, Kind, Options, Standing};
use x509_report::{Fault, JsonSink, Moment, Reported, Span};

/// What was read, where it deviates, and how much of it is told.
#[derive(Clone, Copy)]
struct Read<'a> {
    bytes: &'a [u8],
    places: &'a [Place],
    extent: Extent,
}

/// Writes a deviation.
fn write_deviation<T: Reported, A: Allocator + Copy>(
    sink: &mut JsonSink<A>,
    value: &T,
    bytes: &[u8],
    place: &Place,
    is_named: bool,
) -> Result<(), AllocError> {
    let span = Span {
        start: place.start,
        end: place.end,
    };
    sink.writer().begin_object()?;
    sink.member("name", place.kind.name())?;
    sink.place("at", span)?;
    if is_named {
        let field = FieldOf {
            value,
            bytes,
            place: span,
            separator: ".",
        };
        sink.writer().key("field")?;
        sink.printed(&field)?;
    }
    sink.writer().end_object()
}

/// Writes the deviations.
fn write_deviations<T: Reported, A: Allocator + Copy>(
    sink: &mut JsonSink<A>,
    value: &T,
    bytes: &[u8],
    places: &[Place],
) -> Result<(), AllocError> {
    sink.writer().key("deviations")?;
    sink.writer().begin_array()?;
    for (index, place) in places.iter().enumerate() {
        write_deviation(sink, value, bytes, place, index < NAMED)?;
    }
    sink.writer().end_array()
}

/// Writes a member that is a digest in hexadecimal.
fn write_digest<A: Allocator + Copy>(
    sink: &mut JsonSink<A>,
    name: &str,
    digest: &[u8],
) -> Result<(), AllocError> {
    sink.writer().key(name)?;
    sink.printed(&HexDigits(digest))
}

/// Writes the digests: fingerprints of what is signed, and the pin of the public key.
fn write_digests<T: Reported + Keyed<A>, A: Allocator + Copy>(
    sink: &mut JsonSink<A>,
    alloc: A,
    bytes: &[u8],
    value: &T,
) -> Result<(), AllocError> {
    if value.signed(bytes).is_some() {
        let prints = Fingerprints::of(bytes);
        write_digest(sink, "sha256", &prints.sha256)?;
        write_digest(sink, "sha1", &prints.sha1)?;
    }
    match pin_told(alloc, value) {
        Ok(Some(pin)) => {
            sink.writer().key("pin")?;
            sink.printed(&pin)
        }
        Ok(None) => Ok(()),
        Err(_) => Err(AllocError),
    }
}

/// Writes whether a value is valid at a time, if it says for which it is.
fn write_validity<T: Reported, A: Allocator + Copy>(
    sink: &mut JsonSink<A>,
    value: &T,
    at: Moment,
) -> Result<(), AllocError> {
    match value.validity() {
        Some((first, last)) => sink.member("validity", Standing::of(at, first, last).name()),
        None => Ok(()),
    }
}

/// Writes octets that don't encode what they should.
fn write_fault<A: Allocator + Copy>(
    sink: &mut JsonSink<A>,
    fault: Fault,
) -> Result<(), AllocError> {
    let Fault { name, reason, at } = fault;
    sink.writer().begin_object()?;
    sink.member("name", name)?;
    sink.member("reason", reason)?;
    sink.count("at", at as u64)?;
    sink.writer().end_object()
}

/// Writes what is wrong in extensions that the encoding keeps as octets.
fn write_deep<T: Reported, A: Allocator + Copy>(
    sink: &mut JsonSink<A>,
    alloc: A,
    bytes: &[u8],
    value: &T,
) -> Result<(), AllocError> {
    let faults = faults_in(alloc, value, bytes)?;
    sink.writer().key("octets")?;
    sink.writer().begin_object()?;
    sink.writer().key("malformed")?;
    sink.writer().begin_array()?;
    for fault in faults.malformed.as_slice() {
        write_fault(sink, *fault)?;
    }
    sink.writer().end_array()?;
    sink.count("deviations", faults.deviations as u64)?;
    sink.writer().end_object()
}

/// Writes what is told of a value behind what the read came to.
fn write_value<T: Reported + Keyed<A>, A: Allocator + Copy>(
    sink: &mut JsonSink<A>,
    alloc: A,
    read: Read<'_>,
    value: &T,
) -> Result<(), AllocError> {
    let Read {
        bytes,
        places,
        extent,
    } = read;
    write_deviations(sink, value, bytes, places)?;
    if let Some(span) = value.signed(bytes) {
        sink.place("signed", span)?;
    }
    match extent {
        Extent::Fields(options) => {
            write_digests(sink, alloc, bytes, value)?;
            value.tell(sink, bytes, options.secrets)
        }
        Extent::Outcome => Ok(()),
        Extent::OutcomeAt(at) => write_validity(sink, value, at),
        Extent::Deep(at) => {
            if let Some(at) = at {
                write_validity(sink, value, at)?;
            }
            write_deep(sink, alloc, bytes, value)
        }
    }
}

/// Writes the whole object of a value.
fn write_accepted<T: Reported + Keyed<A>, A: Allocator + Copy>(
    sink: &mut JsonSink<A>,
    alloc: A,
    head: &Head<'_>,
    value: &T,
    places: &[Place],
) -> Result<(), AllocError> {
    begin(sink, head)?;
    let result = if places.is_empty() {
        "ok"
    } else {
        "deviations"
    };
    sink.member("result", result)?;
    let read = Read {
        bytes: head.bytes,
        places,
        extent: head.extent,
    };
    write_value(sink, alloc, read, value)?;
    sink.writer().end_object()
}

/// The writing of an object behind what stands in a vector.
#[derive(Drop)]
pub(crate) struct WriteJson<'a, A: Allocator> {
    /// Where memory is asked for.
    pub(crate) alloc: A,
    /// What is appended to.
    pub(crate) out: Vec<u8, A>,
    /// What stands in the object besides.
    pub(crate) head: Head<'a>,
}

/// What was written, and how many deviations there are, or why the bytes are refused.
pub type Written<A> = (Vec<u8, A>, Result<usize, Refused>);

impl<A: Allocator + Copy> Task<A> for WriteJson<'_, A> {
    type Answer = Result<Written<A>, AllocError>;

    ghost says = { λ t V s r. IfOk r (λ written. IfOk written.1 (Counts V s t.head.bytes.now)) × IfOk r (λ written. IfErr written.1 (NotRead V s t.head.bytes.now)) };

    fn run<T: FromDer<A> + Reported + Keyed<A>>(self) -> Result<Written<A>, AllocError> {
        let WriteJson { alloc, out, head } = self;
        let mut sink = JsonSink::new(alloc, out);
        let (written, outcome) = match read_told::<T, A>(alloc, head.bytes) {
            Ok((value, places)) => {
                let written = write_accepted(&mut sink, alloc, &head, &value, places.as_slice());
                drop(value);
                (written, Ok(places.len()))
            }
            Err(refused) => (write_refused(&mut sink, &head, refused), Err(refused)),
        };
        written?;
        Ok((line_of(alloc, sink)?, outcome))
    }
}

/// The writing of the members behind what a read came to.
#[derive(Clone, Copy, Drop)]
pub(crate) struct WriteMembers<'a, A> {
    /// Where memory is asked for.
    pub(crate) alloc: A,
    /// As what the bytes are read.
    pub(crate) kind: Kind,
    /// The bytes.
    pub(crate) bytes: &'a [u8],
    /// How fields are told.
    pub(crate) options: Options,
}

impl<A: Allocator + Copy> Task<A> for WriteMembers<'_, A> {
    type Answer = Result<Written<A>, AllocError>;

    ghost says = { λ t V s r. IfOk r (λ written. IfOk written.1 (Counts V s t.bytes.now)) × IfOk r (λ written. IfErr written.1 (NotRead V s t.bytes.now)) };

    fn run<T: FromDer<A> + Reported + Keyed<A>>(self) -> Result<Written<A>, AllocError> {
        let WriteMembers {
            alloc,
            kind,
            bytes,
            options,
        } = self;
        let mut sink = JsonSink::new(alloc, Vec::new(alloc));
        sink.writer().begin_object()?;
        let (written, outcome) = match read_told::<T, A>(alloc, bytes) {
            Ok((value, places)) => {
                let read = Read {
                    bytes,
                    places: places.as_slice(),
                    extent: Extent::Fields(options),
                };
                let written = write_value(&mut sink, alloc, read, &value);
                let count = places.len();
                drop(value);
                (written, Ok(count))
            }
            Err(refused) => (write_reason(&mut sink, kind, bytes, refused), Err(refused)),
        };
        written?;
        sink.writer().end_object()?;
        Ok((sink.finish(alloc)?, outcome))
    }
}
