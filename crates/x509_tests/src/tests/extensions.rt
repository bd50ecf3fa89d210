//! What extensions hold: key usage, basic constraints, extended key usage and authority key identifiers.

use super::fields::Field;
use super::rows::{Heap, Row, Table, all_hold};
use picky_asn1_x509::{AuthorityKeyIdentifier, BasicConstraints, ExtendedKeyUsage, KeyUsage};
use refusing::Refusing;
use std::alloc::{AllocError, Allocator};
use std::process::Abort;
use x509_der::Deviation;

/// Trailing unset bits are kept, and a set bit behind the last is refused.
const USAGES: Table<'static> = Table {
    strict: &[
        ("030100", 1),
        ("030201a0", 1),
        ("030205e0", 1),
        ("0303070000", 1),
    ],
    rows: &[],
    refused: &[
        "030201a1", // an unused bit that is set
        "030101", // an unused bit of no byte
        "0300", // no count of unused bits
        "030208a0", // eight unused bits
        "040201a0", // another tag
    ],
};

/// The test of this name, over any such allocator.
fn key_usages_over<A: Heap>(rt: &impl Abort, heap: A) {
    all_hold::<A, KeyUsage<A>>(rt, heap, &USAGES);
}

#[test]
fn key_usages(rt: HostRuntime) {
    let heap = Refusing::new(rt.alloc());
    key_usages_over(&rt, &heap);
}

/// A path length is 0 to 255: 300 is refused, and so is -128. FALSE that is encoded is no deviation.
const CONSTRAINTS: Table<'static> = Table {
    strict: &[
        ("3000", 1),
        ("3003010100", 2),
        ("3003020100", 2),
        ("3004020200ff", 2),
    ],
    rows: &[Row {
        input: "30060101ff020103",
        strict: "30060101ff020103",
        places: &[],
        headers: 3,
        fields: &[
            Field {
                around: &[0],
                start: 2,
                tags: &[0x01],
            },
            Field {
                around: &[0],
                start: 5,
                tags: &[0x02],
            },
        ],
    }],
    refused: &[
        "30040202012c", // a path length of 300
        "3003020180", // a path length of -128
        "3003010101", // a BOOLEAN that is neither 00 nor FF
        "30060201030101ff", // the path length before the BOOLEAN
        "30060101ff0101ff", // two BOOLEANs
        "30020500", // NULL, which is neither field
        "3100", // another tag
    ],
};

/// The test of this name, over any such allocator.
fn basic_constraints_over<A: Heap>(rt: &impl Abort, heap: A) {
    all_hold::<A, BasicConstraints>(rt, heap, &CONSTRAINTS);
}

#[test]
fn basic_constraints(rt: HostRuntime) {
    let heap = Refusing::new(rt.alloc());
    basic_constraints_over(&rt, &heap);
}

/// The purposes of clients, servers and code signing.
const THREE_PURPOSES: &str = "301e06082b0601050507030206082b0601050507030106082b06010505070303";

/// No purpose, any purpose, and three.
const PURPOSES: Table<'static> = Table {
    strict: &[("3000", 1), ("30060604551d2500", 2)],
    rows: &[Row {
        input: THREE_PURPOSES,
        strict: THREE_PURPOSES,
        places: &[],
        headers: 4,
        fields: &[
            Field {
                around: &[0],
                start: 2,
                tags: &[0x06],
            },
            Field {
                around: &[0],
                start: 22,
                tags: &[0x06],
            },
        ],
    }],
    refused: &[
        "3100", // another tag
        "30020500", // NULL in place of a purpose
        "3003060180", // a padded number without its last byte
        "300000", // a byte left over
    ],
};

/// The test of this name, over any such allocator.
fn extended_key_usages_over<A: Heap>(rt: &impl Abort, heap: A) {
    all_hold::<A, ExtendedKeyUsage<A>>(rt, heap, &PURPOSES);
}

#[test]
fn extended_key_usages(rt: HostRuntime) {
    let heap = Refusing::new(rt.alloc());
    extended_key_usages_over(&rt, &heap);
}

/// All three fields in their order.
const ALL_FIELDS: &str = "300b8001aaa103820161820101";

/// Fields that repeat or stand in another order have one deviation over the whole, beside those in the fields, also in
/// one that doesn't count.
const AUTHORITY_ROWS: &[Row<'static>] = &[
    Row {
        input: ALL_FIELDS,
        strict: ALL_FIELDS,
        places: &[],
        headers: 5,
        fields: &[
            Field {
                around: &[0],
                start: 2,
                tags: &[],
            },
            Field {
                around: &[0],
                start: 5,
                tags: &[],
            },
            Field {
                around: &[0, 5],
                start: 7,
                tags: &[],
            },
            Field {
                around: &[0],
                start: 10,
                tags: &[],
            },
        ],
    },
    Row {
        input: "30068001aa8001bb",
        strict: "30038001bb",
        places: &[(Deviation::AuthorityKeyFieldOrder, 0, 8)],
        headers: 3,
        fields: &[],
    },
    Row {
        input: "30098001aa8001bb8001cc",
        strict: "30038001cc",
        places: &[(Deviation::AuthorityKeyFieldOrder, 0, 11)],
        headers: 4,
        fields: &[],
    },
    Row {
        input: "30068201018001aa",
        strict: "30068001aa820101",
        places: &[(Deviation::AuthorityKeyFieldOrder, 0, 8)],
        headers: 3,
        fields: &[],
    },
    Row {
        input: "300ca105a203160161a103820162",
        strict: "3005a103820162",
        places: &[
            (Deviation::AuthorityKeyFieldOrder, 0, 14),
            (Deviation::GeneralNameForm, 4, 9),
        ],
        headers: 6,
        fields: &[Field {
            around: &[0, 2, 4],
            start: 6,
            tags: &[0x16],
        }],
    },
];

/// The second of the strict ones identifies a key by the hash of it.
const AUTHORITIES: Table<'static> = Table {
    strict: &[
        ("3000", 1),
        ("30168014b45ae4a5b3ded252f6b9d5a6950feb3ebcc7fdff", 2),
    ],
    rows: AUTHORITY_ROWS,
    refused: &[
        "300ca105a203160161a103830162", // two issuers, the second with a tag of no form
        "30058200820101", // two serial numbers, the first of no content
        "300482020001", // a serial number that is padded with a zero
        "3002a100", // no name of the issuer
        "3008a106820161820162", // two names of the issuer
        "3003830161", // a field with the tag 3
        "3100", // another tag
    ],
};

/// The test of this name, over any such allocator.
fn authority_key_identifiers_over<A: Heap>(rt: &impl Abort, heap: A) {
    all_hold::<A, AuthorityKeyIdentifier<A>>(rt, heap, &AUTHORITIES);
}

#[test]
fn authority_key_identifiers(rt: HostRuntime) {
    let heap = Refusing::new(rt.alloc());
    authority_key_identifiers_over(&rt, &heap);
}
