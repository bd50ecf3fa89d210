//! What tests share. An assertion as a call costs a proof less than the macro does in a function whose values are
//! dropped, `assert_eq!` five times as much and more.

use refusing::Turn;
use std::alloc::{AllocError, Global};
use std::fmt::Debug;
use std::process::Abort;
use x509_der::{ToDer, write_to_slice};

/// The two are equal.
pub(super) fn same<T: PartialEq + Debug>(rt: &impl Abort, left: &T, right: &T, what: &str) {
    assert!(rt; *left == *right, "{left:?} and not {right:?}: {what}");
}

/// The bytes are the stated ones.
pub(super) fn same_bytes(rt: &impl Abort, bytes: &[u8], stated: &[u8], what: &str) {
    assert!(rt; bytes == stated, "{bytes:?} and not {stated:?}: {what}");
}

/// It is so.
pub(super) fn is_so(rt: &impl Abort, is_right: bool, what: &str) {
    assert!(rt; is_right, "{what}");
}

/// Whether the value is written as these bytes, 80 at most. Takes no memory.
pub(super) fn is_written<T: ToDer>(value: &T, stated: &[u8]) -> bool {
    let mut room = [0u8; 80];
    match write_to_slice(value, room.as_mut_slice()) {
        Ok(len) => len == stated.len() && room.starts_with(stated),
        Err(_refused) => false,
    }
}

/// What a run of a maker showed whose value is to be written as these bytes, 80 at most. It is over any type, since a
/// proof in which a value of a large one goes out of scope costs ten times as much; so others end with `drop`.
pub(super) fn made_turn<T: ToDer + Drop>(made: Result<T, AllocError>, stated: &[u8]) -> Turn {
    match made {
        Ok(value) => Turn::right(is_written(&value, stated)),
        Err(AllocError) => Turn::Refused,
    }
}

/// What a run of a clone showed.
pub(super) fn clone_turn<T: PartialEq + Drop>(copy: Result<T, AllocError>, value: &T) -> Turn {
    match copy {
        Ok(copy) => Turn::right(copy == *value),
        Err(AllocError) => Turn::Refused,
    }
}

/// What a call gives that wants memory, and gets it.
pub(super) fn granted<T, E: Drop>(rt: &impl Abort, answer: Result<T, E>) -> T {
    answer.ok().expect(rt, "memory")
}

/// The bytes that the text has in hexadecimal.
pub(super) fn bytes_of(rt: &impl Abort, alloc: Global, text: &str) -> Vec<u8> {
    hex::decode(alloc, text).expect(rt, text)
}
