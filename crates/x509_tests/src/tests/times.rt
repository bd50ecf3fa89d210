//! Times.

use super::rows::{Heap, Table, all_hold};
use refusing::Refusing;
use std::process::Abort;
use x509_prim::{GeneralizedTimeAsn1, UtcTimeAsn1};

/// Texts in ASCII under the tag 17.
const UTC_TIMES: Table<'static> = Table {
    strict: &[
        // 500101000000Z
        ("170d3530303130313030303030305a", 1),
        // 491231235959Z
        ("170d3439313233313233353935395a", 1),
        // 191017174159Z
        ("170d3139313031373137343135395a", 1),
        // 000229000000Z
        ("170d3030303232393030303030305a", 1),
        // 991130010203Z
        ("170d3939313133303031303230335a", 1),
    ],
    rows: &[],
    refused: &[
        // 190229000000Z: no leap year
        "170d3139303232393030303030305a",
        // 191017174160Z: second 60
        "170d3139313031373137343136305a",
        // 191017240000Z: hour 24
        "170d3139313031373234303030305a",
        // 191017176000Z: minute 60
        "170d3139313031373137363030305a",
        // 191017174159: no Z
        "170c313931303137313734313539",
        // 1910171741Z: no seconds
        "170b313931303137313734315a",
        // 191017174128: no Z
        "170c313931303137313734313238",
        // 1910171741280: a digit for the Z
        "170d31393130313731373431323830",
        // 191017174159z: a small z
        "170d3139313031373137343135397a",
        // 191017174159.5Z: a fraction
        "170f3139313031373137343135392e355a",
        // 191017174159+0000: an offset
        "17113139313031373137343135392b30303030",
        // 191017174159+: a sign for the Z
        "170d3139313031373137343135392b",
        // 190431000000Z: no such day
        "170d3139303433313030303030305a",
        // 191301000000Z: month 13
        "170d3139313330313030303030305a",
        // 190001000000Z: month 0
        "170d3139303030313030303030305a",
        // 190100000000Z: day 0
        "170d3139303130303030303030305a",
        // +91017174159Z: a sign for a digit
        "170d2b39313031373137343135395a",
        // 1910171741 9Z: a space for a digit
        "170d3139313031373137343120395a",
        // 20191017174159Z: a year of four digits
        "170f32303139313031373137343135395a",
        // no text
        "1700",
        // 500101000000Z under the other tag
        "180d3530303130313030303030305a",
    ],
};

/// The test of this name, over any such allocator.
fn utc_times_over<A: Heap>(rt: &impl Abort, heap: A) {
    all_hold::<A, UtcTimeAsn1>(rt, heap, &UTC_TIMES);
}

#[test]
fn utc_times(rt: HostRuntime) {
    let heap = Refusing::new(rt.alloc());
    utc_times_over(&rt, &heap);
}

/// Texts in ASCII under the tag 18.
const GENERALIZED_TIMES: Table<'static> = Table {
    strict: &[
        // 00000229000000Z
        ("180f30303030303232393030303030305a", 1),
        // 00000101000000Z
        ("180f30303030303130313030303030305a", 1),
        // 20000229123456Z
        ("180f32303030303232393132333435365a", 1),
        // 19000228235959Z
        ("180f31393030303232383233353935395a", 1),
        // 99991231235959Z
        ("180f39393939313233313233353935395a", 1),
    ],
    rows: &[],
    refused: &[
        // 19000229000000Z: no leap year
        "180f31393030303232393030303030305a",
        // 20190229000000Z: no leap year
        "180f32303139303232393030303030305a",
        // 20191017174160Z: second 60
        "180f32303139313031373137343136305a",
        // 20191017240000Z: hour 24
        "180f32303139313031373234303030305a",
        // 20191017176000Z: minute 60
        "180f32303139313031373137363030305a",
        // 20191017174159: no Z
        "180e3230313931303137313734313539",
        // 201910171741Z: no seconds
        "180d3230313931303137313734315a",
        // 20191017174159.5Z: a fraction
        "181132303139313031373137343135392e355a",
        // 20191017174159+0000: an offset
        "181332303139313031373137343135392b30303030",
        // 20190931000000Z: no such day
        "180f32303139303933313030303030305a",
        // 20191301000000Z: month 13
        "180f32303139313330313030303030305a",
        // +0191017174159Z: a sign for a digit
        "180f2b303139313031373137343135395a",
        // 500101000000Z: a year of two digits
        "180d3530303130313030303030305a",
        // no text
        "1800",
        // 20191017174159Z under the other tag
        "170f32303139313031373137343135395a",
    ],
};

/// The test of this name, over any such allocator.
fn generalized_times_over<A: Heap>(rt: &impl Abort, heap: A) {
    all_hold::<A, GeneralizedTimeAsn1>(rt, heap, &GENERALIZED_TIMES);
}

#[test]
fn generalized_times(rt: HostRuntime) {
    let heap = Refusing::new(rt.alloc());
    generalized_times_over(&rt, &heap);
}
