//! What every row goes through: all calls, with each request for memory refused in turn; the cuts at each byte; each
//! byte raised and lowered by one; and an element of each universal tag in the place of each field.

use super::checks::checks_as_read;
use super::cloning::copies;
use super::fields::{Field, SAMPLES, replaced};
use super::writing::writes;
use refusing::{Refusing, Turn, in_turn};
use std::alloc::{Allocator, Global};
use std::ops::ControlFlow;
use std::process::Abort;
use x509_der::{
    CloneEq, Deviation, Deviations, FromDer, Place, ReadError, ToDer, from_bytes, read_counted,
    read_located, read_metered, to_vec, write_to_slice,
};

/// The allocator of every row, which refuses what it is told to. This is all that rows and tests name of it: a function
/// over any such allocator is proved in a third of the time that it takes over the one that there is.
pub trait Heap: Allocator + Copy {
    /// Counts from 0 again, and refuses the request of this number, from 1 on; at 0 none.
    fn refuse(self, number: u64);

    /// Counts from 0 again, and refuses each request.
    fn refuse_all(self);

    /// The number of requests since the last `refuse` or `refuse_all`, those refused too.
    fn requests(self) -> u64;

    /// Whether the run in which the request of this number was refused has the next one follow; else the number of its
    /// requests, or none where it was wrong. Refuses nothing from then on.
    fn judge(self, number: u64, turn: Turn) -> ControlFlow<Option<u64>>;
}

impl Heap for &Refusing<Global> {
    fn refuse(self, number: u64) {
        Refusing::refuse(self, number);
    }

    fn refuse_all(self) {
        Refusing::refuse_all(self);
    }

    fn requests(self) -> u64 {
        Refusing::requests(self)
    }

    fn judge(self, number: u64, turn: Turn) -> ControlFlow<Option<u64>> {
        Refusing::judge(self, number, turn)
    }
}

/// An encoding in hexadecimal, the DER encoding of its value, where its deviations stand, how many headers it has, and
/// its fields.
#[derive(Clone, Copy)]
pub struct Row<'a> {
    pub input: &'a str,
    pub strict: &'a str,
    pub places: &'a [(Deviation, usize, usize)],
    pub headers: usize,
    pub fields: &'a [Field<'a>],
}

impl<'a> Row<'a> {
    /// A DER encoding with so many headers and no fields.
    pub(super) fn strict(input: &'a str, headers: usize) -> Row<'a> {
        Row {
            input,
            strict: input,
            places: &[],
            headers,
            fields: &[],
        }
    }
}

/// What is stated of a type, in hexadecimal: DER encodings with their headers, other rows, and what isn't read.
#[derive(Clone, Copy)]
pub struct Table<'a> {
    pub strict: &'a [(&'a str, usize)],
    pub rows: &'a [Row<'a>],
    pub refused: &'a [&'a str],
}

/// The bytes that the text has in hexadecimal.
pub(super) fn bytes_of<A: Heap>(rt: &impl Abort, heap: A, text: &str) -> Vec<u8, A> {
    hex::decode(heap, text).expect(rt, text)
}

/// The row is read and written as it says, also where memory is refused, no front of it is read, and its neighbours are
/// treated as the laws say.
fn is_coded<A: Heap, T: FromDer<A>>(rt: &impl Abort, heap: A, row: &Row<'_>) {
    let input = bytes_of(rt, heap, row.input);
    let strict = bytes_of(rt, heap, row.strict);
    reads::<A, T>(rt, heap, &input, row);
    reads_in_turn::<A, T>(rt, heap, &input, &strict);
    writes::<A, T>(rt, heap, &input, &strict);
    cuts::<A, T>(rt, heap, &input);
    neighbours::<A, T>(rt, heap, &input);
    all_others::<A, T>(rt, heap, &input, row.fields);
}

/// No front of the bytes is read.
fn cuts<A: Heap, T: FromDer<A>>(rt: &impl Abort, heap: A, input: &[u8]) {
    for length in 0..input.len() {
        refuses::<A, T>(rt, heap, &input[..length]);
    }
}

/// Each row of the table is read and written as it says, and what is refused isn't read.
pub(super) fn all_coded<A: Heap, T: FromDer<A>>(rt: &impl Abort, heap: A, table: &Table<'_>) {
    for (input, headers) in table.strict {
        is_coded::<A, T>(rt, heap, &Row::strict(*input, *headers));
    }
    for row in table.rows {
        is_coded::<A, T>(rt, heap, row);
    }
    all_refused::<A, T>(rt, heap, table.refused);
}

/// The same, and the value of each row is cloned.
pub(super) fn all_hold<A: Heap, T: FromDer<A> + CloneEq + PartialEq>(
    rt: &impl Abort,
    heap: A,
    table: &Table<'_>,
) {
    all_coded::<A, T>(rt, heap, table);
    for (input, _headers) in table.strict {
        copies::<A, T>(rt, heap, *input);
    }
    for row in table.rows {
        copies::<A, T>(rt, heap, row.input);
    }
}

/// Every call that reads answers the row's counts, headers and places.
fn reads<A: Heap, T: FromDer<A>>(rt: &impl Abort, heap: A, input: &[u8], row: &Row<'_>) {
    let (_value, deviations) = read_counted::<T, _>(heap, input).expect(rt, row.input);
    counts(rt, deviations, row);
    meters::<A, T>(rt, heap, input, row, deviations);
    locates::<A, T>(rt, heap, input, row);
    checks_as_read::<A, T>(rt, heap, input);
}

/// The counts are those of the row's places.
fn counts(rt: &impl Abort, deviations: Deviations, row: &Row<'_>) {
    totals(rt, deviations, row);
    for place in row.places {
        count_is(rt, deviations.count(place.0), row, place.0);
    }
}

/// As many deviations were met as the row has places.
fn totals(rt: &impl Abort, deviations: Deviations, row: &Row<'_>) {
    let total = deviations.total();
    let is_told = deviations.is_none() == row.places.is_empty();
    assert!(rt;
        total == row.places.len() && is_told,
        "{total} in {}",
        row.input
    );
}

/// As many of the kind were met as the row has places of it.
fn count_is(rt: &impl Abort, counted: usize, row: &Row<'_>, kind: Deviation) {
    assert!(rt; counted == alike(row, kind), "{counted} in {}", row.input);
}

/// How many of the row's places are of the kind.
fn alike(row: &Row<'_>, kind: Deviation) -> usize {
    let mut alike = 0usize;
    for place in row.places {
        if place.0 == kind {
            alike = alike.saturating_add(1);
        }
    }
    alike
}

/// The headers are the row's, and the counts are these.
fn meters<A: Heap, T: FromDer<A>>(
    rt: &impl Abort,
    heap: A,
    input: &[u8],
    row: &Row<'_>,
    deviations: Deviations,
) {
    let (metered, headers) = read_metered::<T, _>(heap, input);
    let (_value, again) = metered.expect(rt, row.input);
    assert!(rt; again == deviations, "in {}", row.input);
    assert!(rt;
        headers == row.headers,
        "{headers} headers of {}",
        row.input
    );
}

/// The places are the row's.
fn locates<A: Heap, T: FromDer<A>>(rt: &impl Abort, heap: A, input: &[u8], row: &Row<'_>) {
    let (_value, places) = read_located::<T, _>(heap, input).expect(rt, row.input);
    places_are(rt, places.as_slice(), row);
}

/// These are the row's places.
fn places_are(rt: &impl Abort, places: &[Place], row: &Row<'_>) {
    assert!(rt; places.len() == row.places.len(), "places in {}", row.input);
    for at in 0..row.places.len() {
        let place = places[at];
        let place = (place.kind, place.start, place.end);
        assert!(rt; place == row.places[at], "{place:?} in {}", row.input);
    }
}

/// A call that reads.
#[derive(Clone, Copy)]
pub enum Reading {
    Alone,
    Counted,
    Metered,
    Located,
}

/// All of them.
pub const READINGS: &[Reading] = &[
    Reading::Alone,
    Reading::Counted,
    Reading::Metered,
    Reading::Located,
];

/// The value that the call reads, without what it answers beside it.
pub(super) fn read_by<A: Heap, T: FromDer<A>>(
    reading: Reading,
    heap: A,
    input: &[u8],
) -> Result<T, ReadError> {
    match reading {
        Reading::Alone => from_bytes::<T, _>(heap, input),
        Reading::Counted => first(read_counted::<T, _>(heap, input)),
        Reading::Metered => first(read_metered::<T, _>(heap, input).0),
        Reading::Located => first(read_located::<T, _>(heap, input)),
    }
}

/// The first of two values that are answered.
fn first<T: Drop, R: Drop>(answer: Result<(T, R), ReadError>) -> Result<T, ReadError> {
    match answer {
        Ok((value, _beside)) => Ok(value),
        Err(error) => Err(error),
    }
}

/// What a read showed whose value should have this DER encoding, for which there is room.
fn read_turn<T: ToDer + Drop>(
    answer: Result<T, ReadError>,
    strict: &[u8],
    room: &mut [u8],
) -> Turn {
    match answer {
        Ok(value) => {
            let is_written = write_to_slice(&value, room) == Ok(strict.len());
            Turn::right(is_written && &*room == strict)
        }
        Err(ReadError::OutOfMemory) => Turn::Refused,
        Err(_other) => Turn::Wrong,
    }
}

/// How many requests the call makes where it reads the value of this DER encoding, and want of memory where one is
/// refused.
fn requests_of<A: Heap, T: FromDer<A>>(
    reading: Reading,
    heap: A,
    input: &[u8],
    strict: &[u8],
    room: &mut [u8],
) -> Option<u64> {
    in_turn!(
        heap,
        read_turn(read_by::<A, T>(reading, heap, input), strict, room)
    )
}

/// Each call that reads answers want of memory where a request of its own is refused, and the value where none is.
/// Places alone take memory beside the value's.
pub(super) fn reads_in_turn<A: Heap, T: FromDer<A>>(
    rt: &impl Abort,
    heap: A,
    input: &[u8],
    strict: &[u8],
) {
    let mut room = Vec::from_elem(heap, 0u8, strict.len()).expect(rt, "memory");
    let room = room.as_mut_slice();
    let alone = requests_of::<A, T>(Reading::Alone, heap, input, strict, room);
    let counted = requests_of::<A, T>(Reading::Counted, heap, input, strict, room);
    let metered = requests_of::<A, T>(Reading::Metered, heap, input, strict, room);
    let located = requests_of::<A, T>(Reading::Located, heap, input, strict, room);
    assert!(rt;
        alone.is_some() && counted == alone && metered == alone,
        "{input:?}"
    );
    assert!(rt;
        located >= alone && (located == alone) == (input == strict),
        "{input:?}"
    );
}

/// What a run showed that should be refused for what stands there.
fn refused_turn<T: Drop>(answer: Result<T, ReadError>) -> Turn {
    match answer {
        Ok(_value) => Turn::Wrong,
        Err(ReadError::OutOfMemory) => Turn::Refused,
        Err(_other) => Turn::Granted,
    }
}

/// No call reads the bytes, also where memory is refused first, and the headers are bounded.
pub(super) fn refuses<A: Heap, T: FromDer<A>>(rt: &impl Abort, heap: A, input: &[u8]) {
    for reading in READINGS {
        let requests = in_turn!(heap, refused_turn(read_by::<A, T>(*reading, heap, input)));
        assert!(rt; requests.is_some(), "{input:?} is read");
    }
    assert!(rt;
        headers_of::<A, T>(heap, input) <= input.len() / 2 + 1,
        "{input:?}"
    );
    checks_as_read::<A, T>(rt, heap, input);
}

/// How many headers a read shows that should be refused.
pub(super) fn headers_of<A: Heap, T: FromDer<A>>(heap: A, input: &[u8]) -> usize {
    let (_refused, headers) = read_metered::<T, _>(heap, input);
    headers
}

/// Each of these, in hexadecimal, is refused by every call.
fn all_refused<A: Heap, T: FromDer<A>>(rt: &impl Abort, heap: A, texts: &[&str]) {
    for text in texts {
        let input = bytes_of(rt, heap, *text);
        refuses::<A, T>(rt, heap, &input);
    }
}

/// Each byte is raised and lowered by one, and the laws are kept.
fn neighbours<A: Heap, T: FromDer<A>>(rt: &impl Abort, heap: A, input: &[u8]) {
    for place in 0..input.len() {
        for change in [1u8, 255] {
            let mut near = Vec::from_slice(heap, input).expect(rt, "memory");
            if let Some(byte) = near.get_mut(place) {
                *byte = byte.wrapping_add(change);
            }
            keeps_laws::<A, T>(rt, heap, &near);
        }
    }
}

/// Whether the value is rewritten to these bytes if they are strict, and to others if not.
fn is_rewritten<A: Heap, T: ToDer>(heap: A, value: &T, bytes: &[u8], is_strict: bool) -> bool {
    match to_vec(heap, value) {
        Ok(strict) => (strict.as_slice() == bytes) == is_strict,
        Err(_refused) => false,
    }
}

/// The headers are bounded, and where the bytes are accepted they are rewritten to themselves exactly where the total
/// is 0.
fn keeps_laws<A: Heap, T: FromDer<A>>(rt: &impl Abort, heap: A, bytes: &[u8]) {
    let (outcome, headers) = read_metered::<T, _>(heap, bytes);
    let is_lawful = match outcome {
        Ok((value, deviations)) => is_rewritten(heap, &value, bytes, deviations.is_none()),
        Err(error) => error != ReadError::OutOfMemory,
    };
    assert!(rt; is_lawful, "{bytes:?}");
    assert!(rt; headers <= bytes.len() / 2 + 1);
    checks_as_read::<A, T>(rt, heap, bytes);
}

/// Other elements in the place of each field are treated as is said.
fn all_others<A: Heap, T: FromDer<A>>(
    rt: &impl Abort,
    heap: A,
    input: &[u8],
    fields: &[Field<'_>],
) {
    for field in fields {
        others::<A, T>(rt, heap, input, field);
    }
}

/// In the place of the field, an element of each universal tag that may not stand there is refused, and any other is
/// read and keeps the laws.
fn others<A: Heap, T: FromDer<A>>(rt: &impl Abort, heap: A, input: &[u8], field: &Field<'_>) {
    for (tag, content) in SAMPLES {
        let bytes = replaced(rt, heap, input, field, *tag, *content);
        is_other::<A, T>(rt, heap, &bytes, field.tags.contains(tag));
    }
}

/// The bytes are read and keep the laws, or are refused.
fn is_other<A: Heap, T: FromDer<A>>(rt: &impl Abort, heap: A, bytes: &[u8], may_stand: bool) {
    if may_stand {
        let is_read = from_bytes::<T, _>(heap, bytes).is_ok();
        assert!(rt; is_read, "{bytes:?}");
        keeps_laws::<A, T>(rt, heap, bytes);
    } else {
        refuses::<A, T>(rt, heap, bytes);
    }
}
