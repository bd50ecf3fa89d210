//! Attributes of names, and names.

use super::fields::{ANY, Field};
use super::lists::sets_in_list;
use super::rows::{Heap, Row, Table, all_hold, reads_in_turn, refuses};
use super::writing::writes;
use refusing::Refusing;
use std::alloc::Global;
use std::process::Abort;
use x509_der::{ReadError, read_metered};
use x509_names::{AttributeTypeAndValue, Name};

/// The common name `a` as a UTF8String.
const COMMON_NAME: &str = "300806035504030c0161";

/// The e-mail address `a@b`.
const EMAIL: &str = "301006092a864886f70d0109011603614062";

/// The title, 2.5.4.12, `b`: its kind is no directory string's here, so any element is its value.
const TITLE: &str = "3008060355040c0c0162";

/// The type, which comes first. No other tag may stand there.
const TYPE: Field<'static> = Field {
    around: &[0],
    start: 2,
    tags: &[0x06],
};

const ATTRIBUTES: Table<'static> = Table {
    strict: &[
        ("30080603550404130161", 3),
        ("300806035504050c0161", 3),
        ("30080603550406130161", 3),
        ("300806035504070c0161", 3),
        ("300806035504080c0161", 3),
        ("300906035504091e020061", 3),
        ("3008060355040a0c0161", 3),
        ("3008060355040b0c0161", 3),
        ("30080603550414130161", 3),
        ("3008060355042a0c0161", 3),
        ("3007060355042b0500", 3),
        ("300706035504030c00", 3),
    ],
    rows: &[
        Row {
            input: COMMON_NAME,
            strict: COMMON_NAME,
            places: &[],
            headers: 3,
            fields: &[
                TYPE,
                Field {
                    around: &[0],
                    start: 7,
                    tags: &[0x0C, 0x13, 0x1E],
                },
            ],
        },
        Row {
            input: EMAIL,
            strict: EMAIL,
            places: &[],
            headers: 3,
            fields: &[
                TYPE,
                Field {
                    around: &[0],
                    start: 13,
                    tags: &[0x16],
                },
            ],
        },
        Row {
            input: TITLE,
            strict: TITLE,
            places: &[],
            headers: 3,
            fields: &[
                TYPE,
                Field {
                    around: &[0],
                    start: 7,
                    tags: ANY,
                },
            ],
        },
    ],
    refused: &[
        "30080603550403160161", // a common name that is an IA5String
        "30080603550403140161", // a common name that is a TeletexString
        "301006092a864886f70d0109010c03614062", // an e-mail address that is a UTF8String
        "300e06092a864886f70d010901160180", // an e-mail address with a byte above 7F
        "30050603550403", // no value
        "300a06035504030c01610500", // NULL behind the value
        "310806035504030c0161", // another tag
        "3000", // no type
    ],
};

/// The test of this name, over any such allocator.
fn attributes_by_type_over<A: Heap>(rt: &impl Abort, heap: A) {
    all_hold::<A, AttributeTypeAndValue<A>>(rt, heap, &ATTRIBUTES);
}

#[test]
fn attributes_by_type(rt: HostRuntime) {
    let heap = Refusing::new(rt.alloc());
    attributes_by_type_over(&rt, &heap);
}

/// The common name `a`, and the title `b` in a set of its own.
const TWO_SETS: &str = "3018310a300806035504030c0161310a3008060355040c0c0162";

/// Each of the sets, which may be empty; its attribute, which may not; and the attribute's type and value.
const BOTH_SETS: &[Field<'static>] = &[
    Field {
        around: &[0],
        start: 2,
        tags: &[0x31],
    },
    Field {
        around: &[0, 2],
        start: 4,
        tags: &[],
    },
    Field {
        around: &[0, 2, 4],
        start: 6,
        tags: &[0x06],
    },
    Field {
        around: &[0, 2, 4],
        start: 11,
        tags: &[0x0C, 0x13, 0x1E],
    },
    Field {
        around: &[0],
        start: 14,
        tags: &[0x31],
    },
    Field {
        around: &[0, 14],
        start: 16,
        tags: &[],
    },
    Field {
        around: &[0, 14, 16],
        start: 18,
        tags: &[0x06],
    },
    Field {
        around: &[0, 14, 16],
        start: 23,
        tags: ANY,
    },
];

/// A name of the e-mail address `a@b` alone.
const ADDRESSED: &str = "30143112301006092a864886f70d0109011603614062";

/// Its set, the set's attribute, and the attribute's type and value.
const ONE_SET: &[Field<'static>] = &[
    Field {
        around: &[0],
        start: 2,
        tags: &[0x31],
    },
    Field {
        around: &[0, 2],
        start: 4,
        tags: &[],
    },
    Field {
        around: &[0, 2, 4],
        start: 6,
        tags: &[0x06],
    },
    Field {
        around: &[0, 2, 4],
        start: 17,
        tags: &[0x16],
    },
];

/// Empty names and sets are read, and no order is asked of a set.
const NAMES: Table<'static> = Table {
    strict: &[
        ("3000", 1),
        ("30023100", 2),
        ("301631143008060355040c0c0162300806035504030c0161", 8),
        (
            "301d311b301906035504030c12746573742e636f6e746f736f2e6c6f63616c",
            5,
        ),
    ],
    rows: &[
        Row {
            input: TWO_SETS,
            strict: TWO_SETS,
            places: &[],
            headers: 9,
            fields: BOTH_SETS,
        },
        Row {
            input: ADDRESSED,
            strict: ADDRESSED,
            places: &[],
            headers: 5,
            fields: ONE_SET,
        },
    ],
    refused: &[
        "", // no bytes
        "3100", // another tag
        "30023000", // SEQUENCE in place of a SET
        "300431023000", // an attribute without its type
        "30023100ff", // a byte left over
        "300c310a30080603550403160161", // a common name that is an IA5String
        "3084ffffffff", // 2^32 - 1 bytes that aren't there
        "3088ffffffffffffffff", // 2^64 - 1 bytes that aren't there
        "3089010000000000000000", // a length above 64 bits
        "30800000", // an indefinite length
        "1f8100", // a tag of several bytes
    ],
};

/// The test of this name, over any such allocator.
fn names_in_order_over<A: Heap>(rt: &impl Abort, heap: A) {
    all_hold::<A, Name<A>>(rt, heap, &NAMES);
}

#[test]
fn names_in_order(rt: HostRuntime) {
    let heap = Refusing::new(rt.alloc());
    names_in_order_over(&rt, &heap);
}

/// A name is read, or not, with so many headers.
fn headers_are(rt: &impl Abort, alloc: Global, bytes: &[u8], is_read: bool, count: usize) {
    let (read, headers) = read_metered::<Name, Global>(alloc, bytes);
    assert_eq!(rt; read.is_ok(), is_read);
    assert!(rt; read.err() != Some(ReadError::OutOfMemory));
    assert_eq!(rt; headers, count);
}

/// A name of a thousand empty sets, also where the last says that it isn't empty.
#[test]
fn headers_of_names_are_counted(rt: HostRuntime) {
    let alloc = rt.alloc();
    let whole = sets_in_list(&rt, alloc, 0);
    headers_are(&rt, alloc, &whole, true, 1001);
    let cut = sets_in_list(&rt, alloc, 1);
    headers_are(&rt, alloc, &cut, false, 1001);
}

/// Such a name is read and written as itself by every call, and the cut one is read by none, also where memory is
/// refused.
fn names_of_many_sets_over<A: Heap>(rt: &impl Abort, heap: A, alloc: Global) {
    let whole = sets_in_list(rt, alloc, 0);
    reads_in_turn::<A, Name<A>>(rt, heap, &whole, &whole);
    writes::<A, Name<A>>(rt, heap, &whole, &whole);
    let cut = sets_in_list(rt, alloc, 1);
    refuses::<A, Name<A>>(rt, heap, &cut);
}

#[test]
fn names_of_many_sets(rt: HostRuntime) {
    let heap = Refusing::new(rt.alloc());
    names_of_many_sets_over(&rt, &heap, rt.alloc());
}

#[test]
fn headers_before_a_fault_in_a_name_are_counted(rt: HostRuntime) {
    headers_are(&rt, rt.alloc(), &[0x30, 2, 0x31, 0, 0xFF], false, 2);
}
