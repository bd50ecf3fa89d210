//! Times.

use super::checks::{bytes_of, is_so, same, same_bytes};
use std::alloc::Global;
use x509_der::{from_bytes, to_vec};
use x509_prim::{GeneralizedTime, GeneralizedTimeAsn1, UTCTime, UtcTimeAsn1};

/// Year, month, day, hour, minute, second.
type Numbers = (u16, u8, u8, u8, u8, u8);

/// The UTCTime of these numbers.
fn utc_time(numbers: Numbers) -> Option<UTCTime> {
    let (year, month, day, hour, minute, second) = numbers;
    UTCTime::new(year, month, day, hour, minute, second)
}

/// The numbers that a UTCTime hands out.
fn numbers_of_utc(time: &UTCTime) -> Numbers {
    let (year, month, day) = (time.year(), time.month(), time.day());
    (year, month, day, time.hour(), time.minute(), time.second())
}

/// Encodings and their numbers.
const UTC_TIMES: &[(&str, Numbers)] = &[
    // 500101000000Z
    ("170d3530303130313030303030305a", (1950, 1, 1, 0, 0, 0)),
    // 491231235959Z
    ("170d3439313233313233353935395a", (2049, 12, 31, 23, 59, 59)),
    // 191017174159Z
    ("170d3139313031373137343135395a", (2019, 10, 17, 17, 41, 59)),
    // 000229000000Z
    ("170d3030303232393030303030305a", (2000, 2, 29, 0, 0, 0)),
    // 991130010203Z
    ("170d3939313133303031303230335a", (1999, 11, 30, 1, 2, 3)),
    // 191017174128Z
    ("170d3139313031373137343132385a", (2019, 10, 17, 17, 41, 28)),
];

#[test]
fn utc_times(rt: HostRuntime) {
    let alloc = rt.alloc();
    for (spelling, numbers) in UTC_TIMES {
        let bytes = bytes_of(&rt, alloc, *spelling);
        let read = from_bytes::<UtcTimeAsn1, Global>(alloc, &bytes).expect(&rt, "a time");
        let copy = UTCTime::from(read.clone().expect(&rt, "memory"));
        same(&rt, &numbers_of_utc(&copy), numbers, *spelling);
        let made = UtcTimeAsn1::from(utc_time(*numbers).expect(&rt, "a time"));
        let written = to_vec(alloc, &made).expect(&rt, "memory");
        same_bytes(&rt, &written, &bytes, *spelling);
        is_so(&rt, read == made, *spelling);
    }
}

/// The GeneralizedTime of these numbers.
fn generalized_time(numbers: Numbers) -> Option<GeneralizedTime> {
    let (year, month, day, hour, minute, second) = numbers;
    GeneralizedTime::new(year, month, day, hour, minute, second)
}

/// The numbers that a GeneralizedTime hands out.
fn numbers_of_generalized(time: &GeneralizedTime) -> Numbers {
    let (year, month, day) = (time.year(), time.month(), time.day());
    (year, month, day, time.hour(), time.minute(), time.second())
}

/// Encodings and their numbers.
const GENERALIZED_TIMES: &[(&str, Numbers)] = &[
    // 00000229000000Z
    ("180f30303030303232393030303030305a", (0, 2, 29, 0, 0, 0)),
    // 00000101000000Z
    ("180f30303030303130313030303030305a", (0, 1, 1, 0, 0, 0)),
    // 20000229123456Z
    (
        "180f32303030303232393132333435365a",
        (2000, 2, 29, 12, 34, 56),
    ),
    // 16000229000000Z
    ("180f31363030303232393030303030305a", (1600, 2, 29, 0, 0, 0)),
    // 19000228235959Z
    (
        "180f31393030303232383233353935395a",
        (1900, 2, 28, 23, 59, 59),
    ),
    // 99991231235959Z
    (
        "180f39393939313233313233353935395a",
        (9999, 12, 31, 23, 59, 59),
    ),
    // 20191017174128Z
    (
        "180f32303139313031373137343132385a",
        (2019, 10, 17, 17, 41, 28),
    ),
];

#[test]
fn generalized_times(rt: HostRuntime) {
    let alloc = rt.alloc();
    for (spelling, numbers) in GENERALIZED_TIMES {
        let bytes = bytes_of(&rt, alloc, *spelling);
        let read = from_bytes::<GeneralizedTimeAsn1, Global>(alloc, &bytes).expect(&rt, "a time");
        let copy = GeneralizedTime::from(read.clone().expect(&rt, "memory"));
        same(&rt, &numbers_of_generalized(&copy), numbers, *spelling);
        let made = GeneralizedTimeAsn1::from(generalized_time(*numbers).expect(&rt, "a time"));
        let written = to_vec(alloc, &made).expect(&rt, "memory");
        same_bytes(&rt, &written, &bytes, *spelling);
        is_so(&rt, read == made, *spelling);
    }
}
