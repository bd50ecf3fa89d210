//! Truth values and integers.

use super::rows::{Heap, Table, all_hold};
use refusing::Refusing;
use std::process::Abort;
use x509_der::IntegerAsn1;

const SMALL_NUMBERS: Table<'static> = Table {
    strict: &[
        ("020100", 1),
        ("02017f", 1),
        ("02020080", 1),
        ("020200ff", 1),
    ],
    rows: &[],
    refused: &[
        "020180", // below 0
        "0202007f", // padded with a zero
        "02020100", // above 255
        "0200", // no content
        "0203000080", // padded with a zero
        "030101", // another tag
        "", // no bytes
        "3084ffffffff", // another tag, and 2^32 - 1 bytes that aren't there
        "3088ffffffffffffffff", // another tag, and 2^64 - 1 bytes that aren't there
        "3089010000000000000000", // another tag, and a length above 64 bits
        "30800000", // another tag, and an indefinite length
        "1f8100", // a tag of several bytes
    ],
};

/// The test of this name, over any such allocator.
fn small_numbers_over<A: Heap>(rt: &impl Abort, heap: A) {
    all_hold::<A, u8>(rt, heap, &SMALL_NUMBERS);
}

#[test]
fn small_numbers(rt: HostRuntime) {
    let heap = Refusing::new(rt.alloc());
    small_numbers_over(&rt, &heap);
}

const TRUTH_VALUES: Table<'static> = Table {
    strict: &[("0101ff", 1), ("010100", 1)],
    rows: &[],
    refused: &[
        "010101", // neither 00 nor FF
        "01020000", // two bytes
        "0100", // no content
        "0101", // cut short
        "0201ff", // another tag
    ],
};

/// The test of this name, over any such allocator.
fn truth_values_over<A: Heap>(rt: &impl Abort, heap: A) {
    all_hold::<A, bool>(rt, heap, &TRUTH_VALUES);
}

#[test]
fn truth_values(rt: HostRuntime) {
    let heap = Refusing::new(rt.alloc());
    truth_values_over(&rt, &heap);
}

const INTEGERS: Table<'static> = Table {
    strict: &[
        ("020100", 1),
        ("02017f", 1),
        ("020180", 1),
        ("0201ff", 1),
        ("02020080", 1),
        ("0202ff7f", 1),
        ("02050100000000", 1),
    ],
    rows: &[],
    refused: &[
        "0200", // no content
        "0202007f", // padded with a zero
        "0202ff80", // padded with ones
        "02030000ff", // padded with a zero
        "0301ff", // another tag
        "020200", // cut short
    ],
};

/// The test of this name, over any such allocator.
fn integers_over<A: Heap>(rt: &impl Abort, heap: A) {
    all_hold::<A, IntegerAsn1<A>>(rt, heap, &INTEGERS);
}

#[test]
fn integers(rt: HostRuntime) {
    let heap = Refusing::new(rt.alloc());
    integers_over(&rt, &heap);
}
