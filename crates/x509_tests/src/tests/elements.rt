//! NULL, raw elements, and what no type reads.

use super::rows::{Heap, Table, all_hold, bytes_of, headers_of, refuses};
use refusing::Refusing;
use std::process::Abort;
use x509_der::{Asn1RawDer, FromDer, ObjectIdentifierAsn1};
use x509_keys::RawAlgorithmIdentifier;

const NULL: Table<'static> = Table {
    strict: &[("0500", 1)],
    rows: &[],
    refused: &[
        "050100", // a content
        "058100", // a length that isn't minimal
        "05", // a tag alone
        "050000", // a byte left over
        "0400", // another tag
        "", // no bytes
    ],
};

/// The test of this name, over any such allocator.
fn null_over<A: Heap>(rt: &impl Abort, heap: A) {
    all_hold::<A, ()>(rt, heap, &NULL);
}

#[test]
fn null(rt: HostRuntime) {
    let heap = Refusing::new(rt.alloc());
    null_over(&rt, &heap);
}

const RAW_ELEMENTS: Table<'static> = Table {
    strict: &[("0000", 1), ("3003020501", 1), ("0500", 1)],
    rows: &[],
    refused: &[
        "1f00", // a tag of several bytes
        "05", // a tag alone
        "", // no bytes
        "050000", // a byte left over
        "ff810200", // a tag of several bytes
        "308100", // a length that isn't minimal
    ],
};

/// The test of this name, over any such allocator.
fn raw_elements_are_read_over<A: Heap>(rt: &impl Abort, heap: A) {
    all_hold::<A, Asn1RawDer<A>>(rt, heap, &RAW_ELEMENTS);
}

#[test]
fn raw_elements_are_read(rt: HostRuntime) {
    let heap = Refusing::new(rt.alloc());
    raw_elements_are_read_over(&rt, &heap);
}

/// Lengths that claim more than is there, that are indefinite, or whose tag is of several bytes; and the most headers.
const HOSTILE: &[(&str, usize)] = &[
    ("3084ffffffff", 4), // 2^32 - 1 bytes that aren't there
    ("3088ffffffffffffffff", 6), // 2^64 - 1 bytes that aren't there
    ("3089010000000000000000", 6), // a length above 64 bits
    ("30800000", 3), // an indefinite length
    ("1f8100", 2), // a tag of several bytes
    ("", 1), // no bytes
];

/// Hostile lengths are refused, with few headers.
fn hostile<A: Heap, T: FromDer<A>>(rt: &impl Abort, heap: A) {
    for (text, most) in HOSTILE {
        let bytes = bytes_of(rt, heap, *text);
        refuses::<A, T>(rt, heap, &bytes);
        let headers = headers_of::<A, T>(heap, &bytes);
        assert!(rt; headers <= *most, "{headers} headers of {text}");
    }
}

/// The test of this name, over any such allocator.
fn hostile_lengths_over<A: Heap>(rt: &impl Abort, heap: A) {
    hostile::<A, ()>(rt, heap);
    hostile::<A, Asn1RawDer<A>>(rt, heap);
}

#[test]
fn hostile_lengths(rt: HostRuntime) {
    let heap = Refusing::new(rt.alloc());
    hostile_lengths_over(&rt, &heap);
}

/// The test of this name, over any such allocator.
fn hostile_lengths_of_identifiers_over<A: Heap>(rt: &impl Abort, heap: A) {
    hostile::<A, ObjectIdentifierAsn1<A>>(rt, heap);
    hostile::<A, RawAlgorithmIdentifier<A>>(rt, heap);
}

#[test]
fn hostile_lengths_of_identifiers(rt: HostRuntime) {
    let heap = Refusing::new(rt.alloc());
    hostile_lengths_of_identifiers_over(&rt, &heap);
}
