//! Versions, times, and the validity between two of them.

use super::fields::Field;
use super::rows::{Heap, Row, Table, all_hold};
use refusing::Refusing;
use std::process::Abort;
use x509_names::{Time, Validity, Version};

const VERSIONS: Table<'static> = Table {
    strict: &[("020100", 1), ("020101", 1), ("020102", 1)],
    rows: &[],
    refused: &[
        "020103", // version 4, the number 3
        "02010f", // the number 15
        "0201ff", // the number -1
        "02020080", // the number 128
        "02020001", // padded with a zero
        "0200", // no content
        "0a0100", // another tag, that of an ENUMERATED
        "a003020102", // version 3 under the tag 0
    ],
};

/// The test of this name, over any such allocator.
fn versions_over<A: Heap>(rt: &impl Abort, heap: A) {
    all_hold::<A, Version>(rt, heap, &VERSIONS);
}

#[test]
fn versions(rt: HostRuntime) {
    let heap = Refusing::new(rt.alloc());
    versions_over(&rt, &heap);
}

const TIMES: Table<'static> = Table {
    strict: &[
        // 500101000000Z
        ("170d3530303130313030303030305a", 1),
        // 00000229000000Z
        ("180f30303030303232393030303030305a", 1),
    ],
    rows: &[],
    refused: &[
        "", // no bytes
        "3084ffffffff", // another tag, and 2^32 - 1 bytes that aren't there
        "3088ffffffffffffffff", // another tag, and 2^64 - 1 bytes that aren't there
        "3089010000000000000000", // another tag, and a length above 64 bits
        "30800000", // another tag, and an indefinite length
        "1f8100", // a tag of several bytes
        "170d3139303232393030303030305a", // 190229000000Z: no leap year
        "180d3530303130313030303030305a", // 500101000000Z under the tag of the other form
        "170f32303139313031373137343135395a", // 20191017174159Z under the tag of the other form
    ],
};

/// The test of this name, over any such allocator.
fn times_over<A: Heap>(rt: &impl Abort, heap: A) {
    all_hold::<A, Time>(rt, heap, &TIMES);
}

#[test]
fn times(rt: HostRuntime) {
    let heap = Refusing::new(rt.alloc());
    times_over(&rt, &heap);
}

/// 191017174128Z to 221016174128Z.
const BOTH_UTC: &str = "301e170d3139313031373137343132385a170d3232313031363137343132385a";

/// 500101000000Z to 00000229000000Z: the times aren't compared.
const OF_TWO_FORMS: &str = "3020170d3530303130313030303030305a180f30303030303232393030303030305a";

/// The times, each in either form.
const FIRST_TIME: Field<'static> = Field {
    around: &[0],
    start: 2,
    tags: &[0x17, 0x18],
};

const SECOND_TIME: Field<'static> = Field {
    around: &[0],
    start: 17,
    tags: &[0x17, 0x18],
};

const VALIDITIES: Table<'static> = Table {
    strict: &[
        (
            "301e170d3530303130313030303030305a170d3439313233313233353935395a",
            3,
        ),
        (
            "3020180f32303139313031373137343132385a170d3439313233313233353935395a",
            3,
        ),
        // to the last second of 9999, which stands for no end (RFC 5280, 4.1.2.5)
        (
            "3022180f32303139313031373137343132385a180f39393939313233313233353935395a",
            3,
        ),
    ],
    rows: &[
        Row {
            input: BOTH_UTC,
            strict: BOTH_UTC,
            places: &[],
            headers: 3,
            fields: &[FIRST_TIME, SECOND_TIME],
        },
        Row {
            input: OF_TWO_FORMS,
            strict: OF_TWO_FORMS,
            places: &[],
            headers: 3,
            fields: &[FIRST_TIME, SECOND_TIME],
        },
    ],
    refused: &[
        // no time
        "3000",
        // a time alone
        "300f170d3530303130313030303030305a",
        // a number in the place of the first time
        "3012020105170d3530303130313030303030305a",
        // a byte left over
        "301e170d3530303130313030303030305a170d3439313233313233353935395a00",
        // another tag
        "311e170d3530303130313030303030305a170d3439313233313233353935395a",
        // a third time
        "302d170d3530303130313030303030305a170d3530303130313030303030305a170d3530303130313030303030305a",
    ],
};

/// The test of this name, over any such allocator.
fn validities_over<A: Heap>(rt: &impl Abort, heap: A) {
    all_hold::<A, Validity>(rt, heap, &VALIDITIES);
}

#[test]
fn validities(rt: HostRuntime) {
    let heap = Refusing::new(rt.alloc());
    validities_over(&rt, &heap);
}
