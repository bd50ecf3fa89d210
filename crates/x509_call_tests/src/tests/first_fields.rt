//! The bytes of the first field of a SEQUENCE, which may be absent.

ghost use Rattle.std.proofs.Common.{◌≡◌, ap, refl};

use super::Heap;
use super::checks::same;
use refusing::{Refusing, Turn, in_turn};
use std::alloc::Allocator;
use std::process::Abort;
use x509_der::ReadError;
use x509_der::parts::{FirstField, Join, One, Optional, Structure, read_first_field};
use x509_keys::RawAlgorithmIdentifier;

/// A flag, and in front of it an algorithm identifier, which may be absent.
///
/// # Encoding
/// `SEQUENCE { algorithm AlgorithmIdentifier OPTIONAL, flag BOOLEAN }`
#[derive(Drop)]
struct Flagged<A: Allocator> {
    algorithm: Option<RawAlgorithmIdentifier<A>>,
    flag: bool,
}

/// The fields of a flag.
type WithFlag<A> = Join<Optional<RawAlgorithmIdentifier<A>>, One<bool>>;

impl<A: Allocator> Structure<WithFlag<A>> for Flagged<A> {
    ghost fields = { λ v. (v.algorithm, v.flag) };

    fn from_fields(parts: WithFlag<A>) -> Self {
        let Join(Optional(algorithm), One(flag)) = parts;
        Flagged { algorithm, flag }
    }

    ghost same = { λ v w e. ap (λ f. record { algorithm = f.0; flag = f.1 }) e };

    ghost made = { λ f. (record { algorithm = f.0; flag = f.1 }, refl) };
}

/// The flag that the bytes are read as, with the bytes of the algorithm in front of it.
fn flagged_of<A: Allocator + Copy>(
    alloc: A,
    bytes: &[u8],
) -> Result<FirstField<'_, Flagged<A>>, ReadError> {
    read_first_field::<Flagged<A>, Optional<RawAlgorithmIdentifier<A>>, One<bool>, A>(alloc, bytes)
}

/// It is a flag that is set, with no deviation, and in front of it an algorithm with these bytes, or none.
fn is_flagged<A: Allocator>(read: &FirstField<'_, Flagged<A>>, slice: &[u8]) -> bool {
    let is_none = read.inside.is_none() && read.outside.is_none();
    let is_there = read.value.algorithm.is_none() == slice.is_empty();
    read.value.flag && is_none && is_there && read.slice == slice
}

/// What a run showed that should read a flag behind an algorithm with these bytes, or behind none.
fn flagged_turn<A: Heap>(heap: A, bytes: &[u8], slice: &[u8]) -> Turn {
    match flagged_of(heap, bytes) {
        Ok(read) => Turn::right(is_flagged(&read, slice)),
        Err(ReadError::OutOfMemory) => Turn::Refused,
        Err(_other) => Turn::Wrong,
    }
}

/// Neither the identifier nor the slice takes memory.
fn optional_first_fields_are_sliced_over<A: Heap>(rt: &impl Abort, heap: A) {
    let algorithm = b"\x30\x05\x06\x01\x2A\x05\x00".as_slice();
    let there = b"\x30\x0A\x30\x05\x06\x01\x2A\x05\x00\x01\x01\xFF".as_slice();
    let requests = in_turn!(heap, flagged_turn(heap, there, algorithm));
    same(rt, &requests, &Some(0), "an algorithm");
    let absent = b"\x30\x03\x01\x01\xFF".as_slice();
    let requests = in_turn!(heap, flagged_turn(heap, absent, b""));
    same(rt, &requests, &Some(0), "no algorithm");
}

#[test]
fn optional_first_fields_are_sliced(rt: HostRuntime) {
    let heap = Refusing::new(rt.alloc());
    optional_first_fields_are_sliced_over(&rt, &heap);
}
