//! Extensions, lists of them, and attributes.

use super::fields::{ANY, Field};
use super::rows::{Heap, Row, Table, all_hold};
use picky_asn1_x509::{Attribute, Extension, Extensions};
use refusing::Refusing;
use std::alloc::{AllocError, Allocator};
use std::process::Abort;
use x509_der::Deviation;

/// Empty basic constraints, with and without a FALSE that is encoded.
const FALSE_SPELLED: &str = "300c0603551d1301010004023000";

const NOT_CRITICAL: &str = "30090603551d1304023000";

/// An extension that isn't known: certificate policies, 2.5.29.32, here octets that are none.
const GENERIC: &str = "300b0603551d200404deadbeef";

/// The object identifier, which comes first.
const IDENTIFIER: Field<'static> = Field {
    around: &[0],
    start: 2,
    tags: &[0x06],
};

const EXTENSIONS: Table<'static> = Table {
    strict: &[
        ("300f0603551d25040830060604551d2500", 5),
        ("300e0603551d0f0101ff0404030201a0", 5),
        ("300a0603551d140403020101", 4),
        ("300a0603551d0e04030401aa", 4),
        ("300f0603551d23040830068001aa820101", 6),
        ("300f0603551d110101ff04053003820161", 6),
        ("300c0603551d1204053003820161", 5),
        ("30120603551d130101ff040830060101ff020103", 7),
    ],
    rows: &[
        Row {
            input: "30120603551d23010100040830068201018001aa",
            strict: "300f0603551d23040830068001aa820101",
            places: &[
                (Deviation::CriticalFalseSpelled, 0, 20),
                (Deviation::AuthorityKeyFieldOrder, 12, 20),
            ],
            headers: 7,
            fields: &[],
        },
        Row {
            input: FALSE_SPELLED,
            strict: NOT_CRITICAL,
            places: &[(Deviation::CriticalFalseSpelled, 0, 14)],
            headers: 5,
            fields: &[
                IDENTIFIER,
                Field {
                    around: &[0],
                    start: 7,
                    tags: &[0x01],
                },
                Field {
                    around: &[0, 10],
                    start: 12,
                    tags: &[0x30],
                },
            ],
        },
        Row {
            input: GENERIC,
            strict: GENERIC,
            places: &[],
            headers: 3,
            fields: &[
                IDENTIFIER,
                Field {
                    around: &[0],
                    start: 7,
                    tags: &[0x04],
                },
            ],
        },
    ],
    refused: &[
        "300c0603551d1301010104023000", // a BOOLEAN that is neither 00 nor FF
        "300b0603551d13040430000500", // NULL behind the basic constraints, in the OCTET STRING
        "300b0603551d13040230000500", // NULL behind the OCTET STRING
        "300a0603551d0f0403040100", // OCTET STRING in place of the BIT STRING of a key usage
        "30070603551d133000", // basic constraints without an OCTET STRING around them
        "30050603551d13", // no value
        "31090603551d1304023000", // another tag
        "3000", // no identifier
    ],
};

/// The test of this name, over any such allocator.
fn extensions_over<A: Heap>(rt: &impl Abort, heap: A) {
    all_hold::<A, Extension<A>>(rt, heap, &EXTENSIONS);
}

#[test]
fn extensions(rt: HostRuntime) {
    let heap = Refusing::new(rt.alloc());
    extensions_over(&rt, &heap);
}

/// Key identifiers: basic constraints, and the identifiers of the subject's key and of the issuer's.
const KEY_IDENTIFIERS: &str =
    "304b30090603551d1304023000301d0603551d0e041604141f74d63f29c17474453b05122c3da8bd435902a6301f0603551d23041830168014b45ae4a5b3ded252f6b9d5a6950feb3ebcc7fdff";

/// Purposes, usage, constraints and names of a server.
const SERVER: &str =
    "3081a830090603551d1304023000300b0603551d0f0404030205e030270603551d250420301e06082b0601050507030206082b0601050507030106082b0601050507030330650603551d11045e305c8211646576656c2e6578616d706c652e636f6d8210697076362e6578616d706c652e636f6d8210697076342e6578616d706c652e636f6d8210746573742e6578616d706c652e636f6d821170617274792e6578616d706c652e636f6d";

const LISTS: Table<'static> = Table {
    strict: &[("3000", 1), (KEY_IDENTIFIERS, 14), (SERVER, 25)],
    rows: &[Row {
        input: "301c300c0603551d1301010004023000300c0603551d1301010004023000",
        strict: "301630090603551d130402300030090603551d1304023000",
        places: &[
            (Deviation::CriticalFalseSpelled, 2, 16),
            (Deviation::CriticalFalseSpelled, 16, 30),
        ],
        headers: 11,
        fields: &[
            Field {
                around: &[0],
                start: 2,
                tags: &[],
            },
            Field {
                around: &[0],
                start: 16,
                tags: &[],
            },
        ],
    }],
    refused: &[
        "30020500", // NULL in place of an extension
        "300d30090603551d13040230000500", // NULL behind an extension
        "3100", // another tag
    ],
};

/// The test of this name, over any such allocator.
fn lists_over<A: Heap>(rt: &impl Abort, heap: A) {
    all_hold::<A, Extensions<A>>(rt, heap, &LISTS);
}

#[test]
fn lists(rt: HostRuntime) {
    let heap = Refusing::new(rt.alloc());
    lists_over(&rt, &heap);
}

/// A challenge password, which isn't known: any element.
const PASSWORD: &str = "301006092a864886f70d01090731030c0178";

/// The content type of data, whose set may be empty.
const CONTENT_TYPE: &str = "301806092a864886f70d010903310b06092a864886f70d010701";

const ATTRIBUTES: Table<'static> = Table {
    strict: &[
        ("300f06092a864886f70d01090e31023000", 4),
        ("301006092a864886f70d01090431030401aa", 4),
        (
            "301c06092a864886f70d010905310f170d3139313031373137343132385a",
            4,
        ),
        (
            "301c060a2b06010401823702010b310e300c060a2b060104018237020115",
            5,
        ),
    ],
    rows: &[
        Row {
            input: PASSWORD,
            strict: PASSWORD,
            places: &[],
            headers: 3,
            fields: &[
                IDENTIFIER,
                Field {
                    around: &[0],
                    start: 13,
                    tags: ANY,
                },
            ],
        },
        Row {
            input: CONTENT_TYPE,
            strict: CONTENT_TYPE,
            places: &[],
            headers: 4,
            fields: &[
                IDENTIFIER,
                Field {
                    around: &[0],
                    start: 13,
                    tags: &[0x31],
                },
                Field {
                    around: &[0, 13],
                    start: 15,
                    tags: &[0x06],
                },
            ],
        },
    ],
    refused: &[
        // a content type without a SET around it
        "301606092a864886f70d01090306092a864886f70d010701",
        // a signing time that is a GeneralizedTime
        "301e06092a864886f70d0109053111180f32303139313031373137343132385a",
        // no values
        "300b06092a864886f70d010907",
        // no type
        "3000",
    ],
};

/// The test of this name, over any such allocator.
fn attributes_over<A: Heap>(rt: &impl Abort, heap: A) {
    all_hold::<A, Attribute<A>>(rt, heap, &ATTRIBUTES);
}

#[test]
fn attributes(rt: HostRuntime) {
    let heap = Refusing::new(rt.alloc());
    attributes_over(&rt, &heap);
}
