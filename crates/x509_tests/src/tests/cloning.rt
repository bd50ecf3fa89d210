//! Cloning: the value of a row is cloned as itself, with each request for memory refused in turn.

use super::rows::{Heap, bytes_of};
use refusing::{Turn, in_turn};
use std::alloc::AllocError;
use std::process::Abort;
use x509_der::{CloneEq, FromDer, from_bytes};

/// What a run showed that should clone the one value, where the other is as it was before.
pub(super) fn copy_turn<T: CloneEq + PartialEq>(
    answer: Result<T, AllocError>,
    value: &T,
    before: &T,
) -> Turn {
    match answer {
        Ok(copy) => Turn::right(copy == *before),
        Err(AllocError) => Turn::stands(*value == *before),
    }
}

/// How many requests a clone of a value makes where it is equal, and want of memory where one is refused. The other
/// value is as the first was before.
fn copies_in_turn<'v, A: Heap, T: CloneEq + PartialEq>(
    heap: A,
    value: &'v T,
    before: &'v T,
) -> Option<u64> {
    in_turn!(heap, copy_turn(value.clone_eq(), value, before))
}

/// The value of the encoding is cloned as itself, also where memory is refused first.
pub(super) fn copies<A: Heap, T: FromDer<A> + CloneEq + PartialEq>(
    rt: &impl Abort,
    heap: A,
    text: &str,
) {
    let input = bytes_of(rt, heap, text);
    let value = from_bytes::<T, _>(heap, &input).expect(rt, text);
    let before = from_bytes::<T, _>(heap, &input).expect(rt, text);
    copies_agree(rt, heap, &value, &before, text);
}

/// A value is cloned as itself, also where memory is refused first.
pub(super) fn copies_agree<'v, A: Heap, T: CloneEq + PartialEq>(
    rt: &impl Abort,
    heap: A,
    value: &'v T,
    before: &'v T,
    text: &str,
) {
    let requests = copies_in_turn(heap, value, before);
    assert!(rt; requests.is_some(), "{text}");
}
