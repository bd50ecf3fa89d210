//! Makers and changes, with each request for memory refused in turn.

use super::Heap;
use super::checks::{made_turn, same};
use refusing::{Refusing, Turn, in_turn};
use std::alloc::{AllocError, Allocator};
use std::process::Abort;
use x509_der::{
    BitString, IntegerAsn1, ObjectIdentifier, ObjectIdentifierAsn1, OidError, ReadError, from_bytes,
};
use x509_prim::BmpString;

/// What a run showed that should make an identifier of these arcs.
fn arcs_turn<A: Allocator>(answer: Result<ObjectIdentifier<A>, OidError>, arcs: &[u64]) -> Turn {
    match answer {
        Ok(value) => Turn::right(value.is_arcs(arcs)),
        Err(OidError::OutOfMemory) => Turn::Refused,
        Err(OidError::Bad) => Turn::Wrong,
    }
}

/// An identifier of a content of 22 bytes takes no memory, and one of 23 takes it once.
fn identifiers_are_made_over<A: Heap>(rt: &impl Abort, heap: A) {
    let short = [1, 2, 840, 113549, u64::MAX, 1 << 41];
    let requests = in_turn!(
        heap,
        arcs_turn(ObjectIdentifier::from_arcs(heap, &short), &short)
    );
    same(rt, &requests, &Some(0), "22 bytes");
    let long = [1, 2, 840, 113549, u64::MAX, 1 << 48];
    let requests = in_turn!(
        heap,
        arcs_turn(ObjectIdentifier::from_arcs(heap, &long), &long)
    );
    same(rt, &requests, &Some(1), "23 bytes");
}

#[test]
fn identifiers_are_made(rt: HostRuntime) {
    let heap = Refusing::new(rt.alloc());
    identifiers_are_made_over(&rt, &heap);
}

/// What a run showed that should read an identifier of these arcs.
fn read_turn<A: Allocator>(
    answer: Result<ObjectIdentifierAsn1<A>, ReadError>,
    arcs: &[u64],
) -> Turn {
    match answer {
        Ok(value) => Turn::right(value.0.is_arcs(arcs)),
        Err(ReadError::OutOfMemory) => Turn::Refused,
        Err(_other) => Turn::Wrong,
    }
}

/// An identifier that is read takes no memory up to a content of 22 bytes, and takes it once beyond.
fn identifiers_are_read_over<A: Heap>(rt: &impl Abort, heap: A) {
    let bytes = b"\x06\x08\x2A\x86\x48\x86\xF7\x0D\x02\x09".as_slice();
    let arcs = [1, 2, 840, 113549, 2, 9];
    let requests = in_turn!(heap, read_turn(from_bytes(heap, bytes), &arcs));
    same(rt, &requests, &Some(0), "eight bytes");
    let bytes =
        b"\x06\x16\x2A\x01\x02\x03\x04\x05\x06\x07\x08\x09\x0A\x0B\x0C\x0D\x0E\x0F\x10\x11\x12\x13\x14\x15".as_slice();
    let arcs = [
        1, 2, 1, 2, 3, 4, 5, 6, 7, 8, 9, 10, 11, 12, 13, 14, 15, 16, 17, 18, 19, 20, 21,
    ];
    let requests = in_turn!(heap, read_turn(from_bytes(heap, bytes), &arcs));
    same(rt, &requests, &Some(0), "22 bytes");
    let bytes =
        b"\x06\x17\x2A\x01\x02\x03\x04\x05\x06\x07\x08\x09\x0A\x0B\x0C\x0D\x0E\x0F\x10\x11\x12\x13\x14\x15\x16".as_slice();
    let arcs = [
        1, 2, 1, 2, 3, 4, 5, 6, 7, 8, 9, 10, 11, 12, 13, 14, 15, 16, 17, 18, 19, 20, 21, 22,
    ];
    let requests = in_turn!(heap, read_turn(from_bytes(heap, bytes), &arcs));
    same(rt, &requests, &Some(1), "23 bytes");
}

#[test]
fn identifiers_are_read(rt: HostRuntime) {
    let heap = Refusing::new(rt.alloc());
    identifiers_are_read_over(&rt, &heap);
}

/// The integer of a signed number's bytes.
fn signed<A: Allocator + Copy>(alloc: A, bytes: &[u8]) -> Result<IntegerAsn1<A>, AllocError> {
    IntegerAsn1::from_bytes_be_signed(Vec::from_slice(alloc, bytes)?)
}

/// The integer of the bytes of a number without a sign.
fn unsigned<A: Allocator + Copy>(alloc: A, bytes: &[u8]) -> Result<IntegerAsn1<A>, AllocError> {
    IntegerAsn1::from_bytes_be_unsigned(Vec::from_slice(alloc, bytes)?)
}

/// Numbers, and their integers.
const NATURALS: &[(u64, &[u8])] = &[
    (0, b"\x02\x01\x00"),
    (127, b"\x02\x01\x7F"),
    (128, b"\x02\x02\x00\x80"),
    (256, b"\x02\x02\x01\x00"),
    (
        18446744073709551615,
        b"\x02\x09\x00\xFF\xFF\xFF\xFF\xFF\xFF\xFF\xFF",
    ),
];

/// A padded number is kept in its own memory, which is the one request; a number whose top bit is set takes room for a
/// zero byte; other numbers take memory once.
fn integers_are_made_over<A: Heap>(rt: &impl Abort, heap: A) {
    let padded = b"\x02\x02\x00\x80";
    let requests = in_turn!(heap, made_turn(signed(heap, b"\x00\x00\x80"), padded));
    same(rt, &requests, &Some(1), "a padded number");
    let large = b"\x02\x03\x00\x80\x00";
    let requests = in_turn!(heap, made_turn(unsigned(heap, b"\x80\x00"), large));
    same(rt, &requests, &Some(2), "a number whose top bit is set");
    let requests = in_turn!(heap, made_turn(IntegerAsn1::zero(heap), b"\x02\x01\x00"));
    same(rt, &requests, &Some(1), "zero");
    for (number, element) in NATURALS {
        let requests = in_turn!(
            heap,
            made_turn(IntegerAsn1::from_u64(heap, *number), *element)
        );
        same(rt, &requests, &Some(1), "a natural number");
    }
}

#[test]
fn integers_are_made(rt: HostRuntime) {
    let heap = Refusing::new(rt.alloc());
    integers_are_made_over(&rt, &heap);
}

/// What a run showed that should make bits of these bytes.
fn bits_turn<A: Allocator>(made: Result<BitString<A>, AllocError>, bytes: &[u8]) -> Turn {
    match made {
        Ok(bits) => Turn::right(bits.payload_view() == bytes),
        Err(AllocError) => Turn::Refused,
    }
}

/// A byte of set bits that is made so many bits.
fn resized<A: Allocator + Copy>(alloc: A, bits: usize) -> Result<BitString<A>, AllocError> {
    BitString::with_bytes_and_len(Vec::from_slice(alloc, b"\xFF")?, bits)
}

/// Bytes that are cut to bits stay in their own memory, and bits that are appended take more.
fn bit_strings_are_made_over<A: Heap>(rt: &impl Abort, heap: A) {
    let requests = in_turn!(heap, bits_turn(BitString::with_len(heap, 9), b"\x00\x00"));
    same(rt, &requests, &Some(1), "unset");
    let requests = in_turn!(heap, bits_turn(resized(heap, 3), b"\xE0"));
    same(rt, &requests, &Some(1), "cut");
    let requests = in_turn!(heap, bits_turn(resized(heap, 12), b"\xFF\x00"));
    same(rt, &requests, &Some(2), "grown");
}

#[test]
fn bit_strings_are_made(rt: HostRuntime) {
    let heap = Refusing::new(rt.alloc());
    bit_strings_are_made_over(&rt, &heap);
}

/// What a run showed in which a byte's bits should be grown, which stay as they were where memory is refused.
fn growth_turn<A: Allocator>(bytes: Result<Vec<u8, A>, AllocError>) -> Turn {
    let Ok(bytes) = bytes else {
        return Turn::Refused;
    };
    let mut bits = BitString::with_bytes(bytes);
    match bits.set_num_bits(1000) {
        Ok(()) => Turn::right(bits.get_num_bits() == 1000 && bits.is_set(0) && !bits.is_set(8)),
        Err(AllocError) => Turn::stands(
            bits.get_num_bits() == 8 && bits.payload_view() == b"\xA5".as_slice(),
        ),
    }
}

/// A refused `set_num_bits` leaves the bits as they were.
fn bit_strings_are_grown_over<A: Heap>(rt: &impl Abort, heap: A) {
    let requests = in_turn!(heap, growth_turn(Vec::from_slice(heap, b"\xA5")));
    same(rt, &requests, &Some(2), "requests");
}

#[test]
fn bit_strings_are_grown(rt: HostRuntime) {
    let heap = Refusing::new(rt.alloc());
    bit_strings_are_grown_over(&rt, &heap);
}

/// The units of U+1F600 and six letters (RFC 2781, 2.1).
const UNITS: &[u8] = b"\xD8\x3D\xDE\x00\x00a\x00b\x00c\x00d\x00e\x00f";

/// The bytes of a text's units take memory as they come.
fn units_are_made_over<A: Heap>(rt: &impl Abort, heap: A) {
    let requests = in_turn!(
        heap,
        match BmpString::from_string(heap, "\u{1F600}abcdef") {
            Ok(made) => Turn::right(made.as_bytes() == UNITS),
            Err(AllocError) => Turn::Refused,
        }
    );
    assert!(rt; requests > Some(0));
}

#[test]
fn units_are_made(rt: HostRuntime) {
    let heap = Refusing::new(rt.alloc());
    units_are_made_over(&rt, &heap);
}
