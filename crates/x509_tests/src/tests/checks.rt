//! Checks answer what reads answer, error and place included, without a value and without memory.

use super::rows::{Heap, headers_of};
use std::process::Abort;
use x509_der::{
    Deviations, FromDer, Place, ReadError, Refused, check, check_explained, check_located,
    check_metered, read_explained, read_located,
};

/// What a read comes to, but for the value.
fn read_of<A: Heap, T: FromDer<A>>(heap: A, bytes: &[u8]) -> Result<Deviations, Refused> {
    match read_explained::<T, A>(heap, bytes) {
        Ok((_value, deviations)) => Ok(deviations),
        Err(refused) => Err(refused),
    }
}

/// Each call that checks answers as the one that reads does, and asks for no memory.
pub(super) fn checks_as_read<A: Heap, T: FromDer<A>>(rt: &impl Abort, heap: A, bytes: &[u8]) {
    let read = read_of::<A, T>(heap, bytes);
    let headers = headers_of::<A, T>(heap, bytes);
    heap.refuse_all();
    let explained = check_explained::<T, A>(heap, bytes);
    let (metered, met) = check_metered::<T, A>(heap, bytes);
    let alone = check::<T, A>(heap, bytes);
    let requests = heap.requests();
    heap.refuse(0);
    assert!(rt;
        explained == read,
        "{bytes:?}: {explained:?} and not {read:?}"
    );
    assert!(rt; metered == read && met == headers, "{bytes:?}: {metered:?}");
    assert!(rt;
        error_of(alone) == read.err().map(|refused| refused.error),
        "{bytes:?}"
    );
    assert!(rt; requests == 0, "{bytes:?} take memory");
    locates_as_read::<A, T>(rt, heap, bytes);
}

/// Why bytes are refused, if they are.
fn error_of(checked: Result<Deviations, ReadError>) -> Option<ReadError> {
    checked.err()
}

/// The places are those that a read answers; where there are none, no memory is asked for.
fn locates_as_read<A: Heap, T: FromDer<A>>(rt: &impl Abort, heap: A, bytes: &[u8]) {
    let checked = check_located::<T, A>(heap, bytes);
    let is_same = match (read_located::<T, A>(heap, bytes), checked) {
        (Ok((_value, read)), Ok(places)) => {
            if places.is_empty() {
                finds_none::<A, T>(rt, heap, bytes);
            }
            are_same(read.as_slice(), places.as_slice())
        }
        (Err(read), Err(error)) => read == error,
        _ => false,
    };
    assert!(rt; is_same, "places in {bytes:?}");
}

/// No place is found where memory is refused.
fn finds_none<A: Heap, T: FromDer<A>>(rt: &impl Abort, heap: A, bytes: &[u8]) {
    heap.refuse_all();
    let is_found = check_located::<T, A>(heap, bytes).is_ok_and(|places| places.is_empty());
    heap.refuse(0);
    assert!(rt; is_found, "{bytes:?} take memory");
}

/// Whether these are the same places.
fn are_same(first: &[Place], second: &[Place]) -> bool {
    first.len() == second.len() && first.iter().zip(second).all(|(one, other)| *one == *other)
}
