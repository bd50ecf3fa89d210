//! Object identifiers.

use super::rows::{Heap, Table, all_hold};
use refusing::Refusing;
use std::process::Abort;
use x509_der::ObjectIdentifierAsn1;

const IDENTIFIERS: Table<'static> = Table {
    strict: &[
        ("06028837", 1),
        ("060a81ffffffffffffffff7f", 1),
        ("0603550403", 1),
        ("06082a864886f70d0209", 1),
        ("060100", 1),
        ("06014f", 1),
        ("060150", 1),
        ("060b2a81ffffffffffffffff7f", 1),
        // past 22 bytes, which a clone takes memory for
        (
            "061f5581ffffffffffffffff7f81ffffffffffffffff7f81ffffffffffffffff7f",
            1,
        ),
    ],
    rows: &[],
    refused: &[
        "060a82808080808080808000", // a first number above 64 bits
        "06028001", // a padded number
        "0600", // no content
        "060180", // a padded number without its last byte
        "06032a8001", // a padded second number
        "060b2a82808080808080808000", // a second number above 64 bits
        "05028837", // another tag
        "0602883700", // a byte left over
        "0681028837", // a length that isn't minimal
    ],
};

/// The test of this name, over any such allocator.
fn rows_hold_over<A: Heap>(rt: &impl Abort, heap: A) {
    all_hold::<A, ObjectIdentifierAsn1<A>>(rt, heap, &IDENTIFIERS);
}

#[test]
fn rows_hold(rt: HostRuntime) {
    let heap = Refusing::new(rt.alloc());
    rows_hold_over(&rt, &heap);
}
