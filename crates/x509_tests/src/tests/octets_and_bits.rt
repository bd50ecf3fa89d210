//! Octet strings and bit strings.

use super::rows::{Heap, Table, all_hold, bytes_of, reads_in_turn, refuses};
use super::writing::writes;
use refusing::Refusing;
use std::process::Abort;
use x509_der::{BitStringAsn1, OctetStringAsn1, encoded_len, to_vec};

/// So many octets are written behind these bytes in hexadecimal, and read back.
fn begins<A: Heap>(rt: &impl Abort, heap: A, count: usize, head: &str, whole: usize) {
    let head = bytes_of(rt, heap, head);
    let octets = Vec::from_elem(heap, 0xA5u8, count).expect(rt, "memory");
    let value = OctetStringAsn1(octets);
    assert!(rt; encoded_len(&value) == Ok(whole), "{count}");
    let written = to_vec(heap, &value).expect(rt, "memory");
    let is_headed = written.as_slice().starts_with(&head);
    assert!(rt; is_headed && written.len() == whole, "{count}");
    reads_in_turn::<A, OctetStringAsn1<A>>(rt, heap, &written, &written);
    writes::<A, OctetStringAsn1<A>>(rt, heap, &written, &written);
}

/// Numbers of octets, the bytes in front of them in hexadecimal, and the numbers of all bytes.
const LENGTHS: &[(usize, &str, usize)] = &[
    (127, "047f", 129),
    (128, "048180", 131),
    (255, "0481ff", 258),
    (256, "04820100", 260),
    (65535, "0482ffff", 65539),
    (65536, "0483010000", 65541),
];

/// The test of this name, over any such allocator.
fn octets_of_each_length_over<A: Heap>(rt: &impl Abort, heap: A) {
    for (count, head, whole) in LENGTHS {
        begins(rt, heap, *count, *head, *whole);
    }
}

#[test]
fn octets_of_each_length(rt: HostRuntime) {
    let heap = Refusing::new(rt.alloc());
    octets_of_each_length_over(&rt, &heap);
}

/// These bytes in hexadecimal are refused with up to so many octets behind them.
fn refuses_head<A: Heap>(rt: &impl Abort, heap: A, head: &str, most: usize) {
    let mut bytes = bytes_of(rt, heap, head);
    for _count in 0..most {
        refuses::<A, OctetStringAsn1<A>>(rt, heap, &bytes);
        bytes.push(0).expect(rt, "memory");
    }
}

/// The test of this name, over any such allocator.
fn lengths_are_the_shortest_over<A: Heap>(rt: &impl Abort, heap: A) {
    for head in &[
        "04817f", // a length that isn't minimal
        "0480", // an indefinite length
        "04820080", // a length that isn't minimal
    ] {
        refuses_head(rt, heap, *head, 131);
    }
}

#[test]
fn lengths_are_the_shortest(rt: HostRuntime) {
    let heap = Refusing::new(rt.alloc());
    lengths_are_the_shortest_over(&rt, &heap);
}

const OCTETS: Table<'static> = Table {
    strict: &[("0400", 1), ("0403a1b2c3", 1)],
    rows: &[],
    refused: &[
        "0300", // another tag
    ],
};

/// The test of this name, over any such allocator.
fn octets_are_read_over<A: Heap>(rt: &impl Abort, heap: A) {
    all_hold::<A, OctetStringAsn1<A>>(rt, heap, &OCTETS);
}

#[test]
fn octets_are_read(rt: HostRuntime) {
    let heap = Refusing::new(rt.alloc());
    octets_are_read_over(&rt, &heap);
}

const BITS: Table<'static> = Table {
    strict: &[
        ("03020780", 1),
        ("030100", 1),
        ("030200a1", 1),
        ("030401ffff00", 1),
    ],
    rows: &[],
    refused: &[
        "0300", // no count of unused bits
        "030101", // an unused bit of no byte
        "03020800", // eight unused bits
        "030201a1", // an unused bit that is set
        "0403020780", // another tag
    ],
};

/// The test of this name, over any such allocator.
fn bits_are_read_over<A: Heap>(rt: &impl Abort, heap: A) {
    all_hold::<A, BitStringAsn1<A>>(rt, heap, &BITS);
}

#[test]
fn bits_are_read(rt: HostRuntime) {
    let heap = Refusing::new(rt.alloc());
    bits_are_read_over(&rt, &heap);
}
