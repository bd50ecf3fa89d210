//! Writing: every call gives the DER encoding, and `to_vec` alone takes memory, once.

use super::rows::Heap;
use refusing::{Turn, in_turn};
use std::process::Abort;
use x509_der::{
    FromDer, SliceError, ToDer, WriteError, encoded_len, from_bytes, to_vec, write_to_slice,
};

/// How many requests `to_vec` makes where it gives these bytes, and want of memory where one is refused.
fn writes_in_turn<A: Heap, T: ToDer>(heap: A, value: &T, strict: &[u8]) -> Option<u64> {
    in_turn!(
        heap,
        match to_vec(heap, value) {
            Ok(bytes) => Turn::right(bytes.as_slice() == strict),
            Err(WriteError::OutOfMemory) => Turn::Refused,
            Err(WriteError::TooLong) => Turn::Wrong,
        }
    )
}

/// Every call that writes gives the DER encoding and leaves what stands behind it; `to_vec` takes memory once, and the
/// others never.
pub(super) fn writes<A: Heap, T: FromDer<A>>(
    rt: &impl Abort,
    heap: A,
    input: &[u8],
    strict: &[u8],
) {
    let value = from_bytes::<T, _>(heap, input).expect(rt, "a value");
    is_written(rt, heap, &value, strict);
}

/// Every call that writes the value gives these bytes, and takes memory as above.
pub(super) fn is_written<A: Heap, T: ToDer>(rt: &impl Abort, heap: A, value: &T, strict: &[u8]) {
    let mut room = Vec::from_elem(heap, 0xEEu8, strict.len() + 6).expect(rt, "memory");
    makes(rt, heap, value, strict);
    fills_alone(rt, heap, value, strict, room.as_mut_slice());
}

/// `to_vec` gives these bytes, and takes memory once.
fn makes<A: Heap, T: ToDer>(rt: &impl Abort, heap: A, value: &T, strict: &[u8]) {
    let requests = writes_in_turn(heap, value, strict);
    assert!(rt; requests == Some(1), "{strict:?}");
}

/// The length is told and the value written where each request is refused, and none is made.
fn fills_alone<A: Heap, T: ToDer>(
    rt: &impl Abort,
    heap: A,
    value: &T,
    strict: &[u8],
    room: &mut [u8],
) {
    heap.refuse_all();
    assert!(rt; encoded_len(value) == Ok(strict.len()));
    fills(rt, value, strict, room);
    assert!(rt; heap.requests() == 0);
    heap.refuse(0);
}

/// The value is written in front of six bytes EE; a slice of EE that is too short by one stays as it was.
fn fills<T: ToDer>(rt: &impl Abort, value: &T, strict: &[u8], room: &mut [u8]) {
    let short = room.get_mut(1..strict.len()).expect(rt, "room");
    let refused = write_to_slice(value, short) == Err(SliceError::TooShort);
    assert!(rt; refused, "{strict:?}");
    for byte in short.iter() {
        assert!(rt; *byte == 0xEE, "{strict:?}");
    }
    assert!(rt;
        write_to_slice(value, room) == Ok(strict.len()),
        "{strict:?}"
    );
    assert!(rt; room.starts_with(strict) && room.ends_with(&[0xEE; 6]));
}
