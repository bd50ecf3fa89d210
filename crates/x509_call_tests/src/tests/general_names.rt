//! General names, times and versions that are made, with every request for memory refused.

use super::Heap;
use super::checks::{is_so, is_written, same};
use refusing::Refusing;
use std::process::Abort;
use x509_der::ToDer;
use x509_names::{DirectoryString, GeneralName, Name, Time, Version};
use x509_prim::{GeneralizedTime, GeneralizedTimeAsn1, UTCTime, UtcTimeAsn1, Utf8String};

/// No request was made since all were refused, and the value is written as these bytes; none is refused any more.
fn is_made<A: Heap, T: ToDer + Drop>(rt: &impl Abort, heap: A, value: T, stated: &[u8]) {
    same(rt, &heap.requests(), &0, "requests");
    is_so(rt, is_written(&value, stated), "the bytes");
    heap.refuse(0);
}

/// The text as a directory string, in its own memory.
fn directory_string<A: Heap>(rt: &impl Abort, heap: A, text: &str) -> DirectoryString<A> {
    let text = String::from_str(heap, text).expect(rt, "memory");
    DirectoryString::Utf8String(Utf8String::from(text))
}

/// A party `a`, which `b` named, and the empty name.
fn names_are_made_over<A: Heap>(rt: &impl Abort, heap: A) {
    let party = directory_string(rt, heap, "a");
    let assigner = Some(directory_string(rt, heap, "b"));
    heap.refuse_all();
    let name = GeneralName::new_edi_party_name(party, assigner);
    is_made(
        rt,
        heap,
        name,
        b"\xA5\x0A\xA0\x03\x0C\x01b\xA1\x03\x0C\x01a",
    );
    heap.refuse_all();
    let name = GeneralName::from(Name::new(heap));
    is_made(rt, heap, name, b"\xA4\x02\x30\x00");
}

#[test]
fn names_are_made(rt: HostRuntime) {
    let heap = Refusing::new(rt.alloc());
    names_are_made_over(&rt, &heap);
}

/// 1950-01-01 00:00:00.
fn utc_time(rt: &impl Abort) -> UTCTime {
    UTCTime::new(1950, 1, 1, 0, 0, 0).expect(rt, "a time")
}

/// 0000-02-29 00:00:00.
fn generalized_time(rt: &impl Abort) -> GeneralizedTime {
    GeneralizedTime::new(0, 2, 29, 0, 0, 0).expect(rt, "a time")
}

/// The two as elements.
const UTC: &[u8] = b"\x17\x0D500101000000Z";

const GENERALIZED: &[u8] = b"\x18\x0F00000229000000Z";

#[test]
fn times_are_moved(rt: HostRuntime) {
    let heap = Refusing::new(rt.alloc());
    heap.refuse_all();
    is_made(&rt, &heap, Time::from(utc_time(&rt)), UTC);
    heap.refuse_all();
    let time = UtcTimeAsn1::from(utc_time(&rt));
    is_made(&rt, &heap, Time::from(time), UTC);
    heap.refuse_all();
    is_made(&rt, &heap, Time::from(generalized_time(&rt)), GENERALIZED);
    heap.refuse_all();
    let time = GeneralizedTimeAsn1::from(generalized_time(&rt));
    is_made(&rt, &heap, Time::from(time), GENERALIZED);
}

/// Numbers and their versions.
const VERSIONS: &[(u8, Option<Version>)] = &[
    (0, Some(Version::V1)),
    (1, Some(Version::V2)),
    (2, Some(Version::V3)),
    (3, None),
    (15, None),
    (255, None),
];

#[test]
fn versions_have_numbers(rt: HostRuntime) {
    for (number, version) in VERSIONS {
        same(&rt, &Version::from_u8(*number), version, "a version");
    }
    same(&rt, &Version::default(), &Version::V1, "the default");
    same(&rt, &(Version::V3 as u8), &2, "a number");
}
