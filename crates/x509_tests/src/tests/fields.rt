//! Other elements in the places of fields.

use super::rows::Heap;
use std::process::Abort;

/// A part of an input that has a tag of its own: where the elements around it start, from the outermost in, where it
/// starts, and the universal tags that may stand there.
#[derive(Clone, Copy)]
pub struct Field<'a> {
    pub around: &'a [usize],
    pub start: usize,
    pub tags: &'a [u8],
}

/// The universal tags whose numbers fit in one byte (X.680, 8.4), each with a content of its type; SEQUENCE, SET and
/// the types that are encoded like a SEQUENCE are empty.
pub const SAMPLES: &[(u8, &[u8])] = &[
    (0x01, b"\xFF"),
    (0x02, b"\x05"),
    (0x03, b"\x07\x80"),
    (0x04, b"\xA5"),
    (0x05, b""),
    (0x06, b"\x2A"),
    (0x07, b"a"),
    (0x09, b""),
    (0x0A, b"\x01"),
    (0x0C, b"a"),
    (0x0D, b"\x01"),
    (0x0E, b"2019"),
    (0x12, b"1"),
    (0x13, b"a"),
    (0x14, b"a"),
    (0x15, b"a"),
    (0x16, b"a"),
    (0x17, b"191017174128Z"),
    (0x18, b"20191017174128Z"),
    (0x19, b"a"),
    (0x1A, b"a"),
    (0x1B, b"a"),
    (0x1C, b"\x00\x00\x00a"),
    (0x1E, b"\x00a"),
    (0x28, b""),
    (0x2B, b""),
    (0x30, b""),
    (0x31, b""),
    (0x3D, b""),
];

/// The tags of all samples: what may stand in the place of any element.
pub const ANY: &[u8] = &[
    0x01, 0x02, 0x03, 0x04, 0x05, 0x06, 0x07, 0x09, 0x0A, 0x0C, 0x0D, 0x0E, 0x12, 0x13, 0x14, 0x15,
    0x16, 0x17, 0x18, 0x19, 0x1A, 0x1B, 0x1C, 0x1E, 0x28, 0x2B, 0x30, 0x31, 0x3D,
];

/// Where the content of the element at a place begins and ends, whose length has at most two bytes behind the first.
fn content_of(input: &[u8], start: usize) -> Option<(usize, usize)> {
    let (digits, len) = match input.get(start..)? {
        [_tag, 0x81, low, ..] => (1, usize::from(*low)),
        [_tag, 0x82, high, low, ..] => (2, usize::from(*high) * 256 + usize::from(*low)),
        [_tag, low, ..] => (0, usize::from(*low)),
        _ => return None,
    };
    let from = start.checked_add(2)?.checked_add(digits)?;
    Some((from, from.checked_add(len)?))
}

/// The element with a tag around a content of at most 65535 bytes, by hand: stated bytes never come from the library.
fn element<A: Heap>(rt: &impl Abort, heap: A, tag: u8, content: &[u8]) -> Vec<u8, A> {
    let len = u16::try_from(content.len()).expect(rt, "a short content");
    let whole = match len.to_be_bytes() {
        [0, low @ 0..=127] => Vec::from_slice(heap, &[tag, low]),
        [0, low] => Vec::from_slice(heap, &[tag, 0x81, low]),
        [high, low] => Vec::from_slice(heap, &[tag, 0x82, high, low]),
    };
    let mut whole = whole.expect(rt, "memory");
    whole.extend_from_slice(content).expect(rt, "memory");
    whole
}

/// The element at `outer` with another one in the place of what begins and ends within it.
fn around<A: Heap>(
    rt: &impl Abort,
    heap: A,
    input: &[u8],
    outer: usize,
    place: (usize, usize),
    inner: &[u8],
) -> Vec<u8, A> {
    let tag = *input.get(outer).expect(rt, "a tag");
    let (from, to) = content_of(input, outer).expect(rt, "an element around it");
    let before = input.get(from..place.0).expect(rt, "a field within");
    let behind = input.get(place.1..to).expect(rt, "a field within");
    let mut content = Vec::from_slice(heap, before).expect(rt, "memory");
    content.extend_from_slice(inner).expect(rt, "memory");
    content.extend_from_slice(behind).expect(rt, "memory");
    element(rt, heap, tag, &content)
}

/// The input with another element in the place of the field, and the lengths around it as they then are.
pub(super) fn replaced<A: Heap>(
    rt: &impl Abort,
    heap: A,
    input: &[u8],
    field: &Field<'_>,
    tag: u8,
    content: &[u8],
) -> Vec<u8, A> {
    let (_from, mut end) = content_of(input, field.start).expect(rt, "an element");
    let mut start = field.start;
    let mut inner = element(rt, heap, tag, content);
    for outer in field.around.iter().rev() {
        inner = around(rt, heap, input, *outer, (start, end), &inner);
        start = *outer;
        end = content_of(input, start)
            .expect(rt, "an element around it")
            .1;
    }
    inner
}
