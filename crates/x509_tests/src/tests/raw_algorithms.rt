//! Algorithm identifiers whose parameters are any element.

use super::fields::{ANY, Field};
use super::rows::{Heap, Row, Table, all_hold, reads_in_turn};
use refusing::Refusing;
use std::process::Abort;
use x509_der::Deviation;
use x509_keys::RawAlgorithmIdentifier;

/// HMAC with SHA-256, with NULL and without parameters.
const WITH_NULL: &str = "300c06082a864886f70d02090500";

const WITHOUT: &str = "300a06082a864886f70d0209";

/// A name's attribute has this shape too: 2.5.4.3 and a UTF8String.
const ATTRIBUTE: &str = "301606035504030c0f696e7465726d6564696174655f6361";

/// The identifier, which comes first.
const IDENTIFIER: Field<'static> = Field {
    around: &[0],
    start: 2,
    tags: &[0x06],
};

/// Any element behind the identifier of `WITH_NULL`.
const PARAMETERS: Field<'static> = Field {
    around: &[0],
    start: 12,
    tags: ANY,
};

/// Any element behind the identifier of `ATTRIBUTE`.
const ATTRIBUTE_VALUE: Field<'static> = Field {
    around: &[0],
    start: 7,
    tags: ANY,
};

const ROWS: &[Row<'static>] = &[
    Row {
        input: WITH_NULL,
        strict: WITH_NULL,
        places: &[],
        headers: 3,
        fields: &[IDENTIFIER, PARAMETERS],
    },
    Row {
        input: WITHOUT,
        strict: WITH_NULL,
        places: &[(Deviation::RawParametersAbsent, 0, 12)],
        headers: 2,
        fields: &[IDENTIFIER],
    },
    Row {
        input: ATTRIBUTE,
        strict: ATTRIBUTE,
        places: &[],
        headers: 3,
        fields: &[IDENTIFIER, ATTRIBUTE_VALUE],
    },
];

const ALGORITHMS: Table<'static> = Table {
    strict: &[],
    rows: ROWS,
    refused: &[
        "300a06082a864886f70d020905", // a byte left over behind it
        "300d06082a864886f70d0209050000", // a byte left over in it
        "300c06082a864886f70d0209050000", // a byte left over behind it
        "310c06082a864886f70d02090500", // another tag
        "3000", // no identifier
        "300e06082a864886f70d020905000500", // two elements behind the identifier
    ],
};

/// The test of this name, over any such allocator.
fn rows_hold_over<A: Heap>(rt: &impl Abort, heap: A) {
    all_hold::<A, RawAlgorithmIdentifier<A>>(rt, heap, &ALGORITHMS);
}

#[test]
fn rows_hold(rt: HostRuntime) {
    let heap = Refusing::new(rt.alloc());
    rows_hold_over(&rt, &heap);
}

/// Any element comes second, whatever its content is: also where that is none of its type.
fn any_element_comes_second_over<A: Heap>(rt: &impl Abort, heap: A) {
    for tag in ANY {
        let bytes = [0x30, 0x06, 0x06, 0x01, 0x2A, *tag, 0x01, 0x00];
        reads_in_turn::<A, RawAlgorithmIdentifier<A>>(rt, heap, &bytes, &bytes);
    }
}

#[test]
fn any_element_comes_second(rt: HostRuntime) {
    let heap = Refusing::new(rt.alloc());
    any_element_comes_second_over(&rt, &heap);
}
