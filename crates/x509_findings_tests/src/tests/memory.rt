//! What takes memory to tell, with each request for it refused in turn.

use picky_asn1_x509::{Extension, Extensions, from_bytes};
use refusing::{Refusing, Turn, in_turn};
use std::alloc::{AllocError, Global};
use std::process::Abort;
use x509_findings_memory::{has_unsorted, repeats};
use x509_names::Name;

/// Names, and whether a set has its attributes in another order than that of DER: the encoding of `C=DE` is the shorter
/// one, and so stands in front of that of `CN=abc` (X.690, 11.6).
const NAMES: [(&[u8], bool); 4] = [
    (
        b"\x30\x19\x31\x17\x30\x09\x06\x03\x55\x04\x06\x13\x02DE\x30\x0A\x06\x03\x55\x04\x03\x0C\x03abc",
        false,
    ),
    (
        b"\x30\x19\x31\x17\x30\x0A\x06\x03\x55\x04\x03\x0C\x03abc\x30\x09\x06\x03\x55\x04\x06\x13\x02DE",
        true,
    ),
    // in two sets
    (
        b"\x30\x1B\x31\x0C\x30\x0A\x06\x03\x55\x04\x03\x0C\x03abc\x31\x0B\x30\x09\x06\x03\x55\x04\x06\x13\x02DE",
        false,
    ),
    // the same twice
    (
        b"\x30\x18\x31\x16\x30\x09\x06\x03\x55\x04\x06\x13\x02DE\x30\x09\x06\x03\x55\x04\x06\x13\x02DE",
        false,
    ),
];

/// Extensions, and whether one stands twice.
const LISTS: [(&[u8], bool); 4] = [
    (b"\x30\x00", false),
    (
        b"\x30\x18\x30\x0A\x06\x03\x55\x1D\x0E\x04\x03\x04\x01\xAA\x30\x0A\x06\x03\x55\x1D\x0E\x04\x03\x04\x01\xBB",
        true,
    ),
    (
        b"\x30\x18\x30\x0A\x06\x03\x55\x1D\x0E\x04\x03\x04\x01\xAA\x30\x0A\x06\x03\x55\x1D\x14\x04\x03\x02\x01\x01",
        false,
    ),
    (
        b"\x30\x24\x30\x0A\x06\x03\x55\x1D\x0E\x04\x03\x04\x01\xAA\x30\x0A\x06\x03\x55\x1D\x14\x04\x03\x02\x01\x01\x30\x0A\x06\x03\x55\x1D\x0E\x04\x03\x04\x01\xAA",
        true,
    ),
];

/// What a run showed that should tell this.
fn told_turn(told: Result<bool, AllocError>, wanted: bool) -> Turn {
    match told {
        Ok(told) => Turn::right(told == wanted),
        Err(AllocError) => Turn::Refused,
    }
}

/// The name is told so, also where memory is refused first.
fn name_is_told(rt: &impl Abort, heap: &Refusing<Global>, name: &Name, wanted: bool) {
    let requests = in_turn!(heap, told_turn(has_unsorted(heap, name), wanted));
    assert!(rt; requests.is_some());
}

#[test]
fn names_are_told(rt: HostRuntime) {
    let heap = Refusing::new(rt.alloc());
    for (bytes, wanted) in &NAMES {
        let name = from_bytes::<Name, Global>(rt.alloc(), *bytes).expect(&rt, "a name");
        name_is_told(&rt, &heap, &name, *wanted);
        drop(name);
    }
}

/// The extensions are told so, also where memory is refused first.
fn list_is_told(rt: &impl Abort, heap: &Refusing<Global>, items: &[Extension], wanted: bool) {
    let requests = in_turn!(heap, told_turn(repeats(heap, items), wanted));
    assert!(rt; requests.is_some());
}

#[test]
fn lists_are_told(rt: HostRuntime) {
    let heap = Refusing::new(rt.alloc());
    for (bytes, wanted) in &LISTS {
        let list = from_bytes::<Extensions, Global>(rt.alloc(), *bytes).expect(&rt, "a list");
        list_is_told(&rt, &heap, list.0.0.as_slice(), *wanted);
        drop(list);
    }
}
