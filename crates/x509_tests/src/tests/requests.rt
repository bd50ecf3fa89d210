//! Requests for certificates, what is signed of them, and their attributes.

use super::fields::Field;
use super::rows::{Heap, Row, Table, all_hold};
use picky_asn1_x509::{CertificationRequest, CertificationRequestInfo, OpenSslAttributes};
use refusing::Refusing;
use std::process::Abort;

/// No attributes, and a request for no extensions. The tag isn't left out.
const ATTRIBUTES: Table<'static> = Table {
    strict: &[("a000", 1)],
    rows: &[Row {
        input: "a011300f06092a864886f70d01090e31023000",
        strict: "a011300f06092a864886f70d01090e31023000",
        places: &[],
        headers: 5,
        fields: &[
            Field {
                around: &[0],
                start: 2,
                tags: &[],
            },
            Field {
                around: &[0, 2],
                start: 4,
                tags: &[0x06],
            },
            Field {
                around: &[0, 2],
                start: 15,
                tags: &[0x31],
            },
            Field {
                around: &[0, 2, 15],
                start: 17,
                tags: &[0x30],
            },
        ],
    }],
    refused: &[
        "", // no bytes
        "3000", // SEQUENCE in place of the tag 0
        "3100", // SET in place of the tag 0
        "a00100", // a byte alone under the tag
        "800000", // the tag 0 of a primitive element, and a byte left over
        "a0023000", // an attribute without its type
        "3084ffffffff", // another tag, and 2^32 - 1 bytes that aren't there
        "3088ffffffffffffffff", // another tag, and 2^64 - 1 bytes that aren't there
        "3089010000000000000000", // another tag, and a length above 64 bits
        "30800000", // another tag, and an indefinite length
        "1f8100", // a tag of several bytes
    ],
};

/// The test of this name, over any such allocator.
fn request_attributes_over<A: Heap>(rt: &impl Abort, heap: A) {
    all_hold::<A, OpenSslAttributes<A>>(rt, heap, &ATTRIBUTES);
}

#[test]
fn request_attributes(rt: HostRuntime) {
    let heap = Refusing::new(rt.alloc());
    request_attributes_over(&rt, &heap);
}

/// What is signed of a request, without attributes and with one.
const INFOS: Table<'static> = Table {
    strict: &[(
        "30240201003000300a300506032b6570030100a011300f06092a864886f70d01090e31023000",
        12,
    )],
    rows: &[Row {
        input: "30130201003000300a300506032b6570030100a000",
        strict: "30130201003000300a300506032b6570030100a000",
        places: &[],
        headers: 8,
        fields: &[
            Field {
                around: &[0],
                start: 2,
                tags: &[0x02],
            },
            Field {
                around: &[0],
                start: 5,
                tags: &[0x30],
            },
            Field {
                around: &[0],
                start: 7,
                tags: &[],
            },
            Field {
                around: &[0],
                start: 19,
                tags: &[],
            },
        ],
    }],
    refused: &[
        // no tag of the attributes
        "30110201003000300a300506032b6570030100",
        // a byte alone under the tag of the attributes
        "30140201003000300a300506032b6570030100a00100",
        // SEQUENCE in place of the tag of the attributes
        "30130201003000300a300506032b65700301003000",
    ],
};

/// The test of this name, over any such allocator.
fn request_infos_over<A: Heap>(rt: &impl Abort, heap: A) {
    all_hold::<A, CertificationRequestInfo<A>>(rt, heap, &INFOS);
}

#[test]
fn request_infos(rt: HostRuntime) {
    let heap = Refusing::new(rt.alloc());
    request_infos_over(&rt, &heap);
}

/// The request's signed part, its algorithm, and the signature.
const REQUEST_FIELDS: &[Field<'static>] = &[
    Field {
        around: &[0],
        start: 2,
        tags: &[],
    },
    Field {
        around: &[0],
        start: 23,
        tags: &[],
    },
    Field {
        around: &[0],
        start: 30,
        tags: &[0x03],
    },
];

/// A request without attributes; their tag isn't left out.
const REQUESTS: Table<'static> = Table {
    strict: &[],
    rows: &[Row {
        input: "301f30130201003000300a300506032b6570030100a000300506032b6570030100",
        strict: "301f30130201003000300a300506032b6570030100a000300506032b6570030100",
        places: &[],
        headers: 12,
        fields: REQUEST_FIELDS,
    }],
    refused: &[
        // no tag of the attributes
        "301d30110201003000300a300506032b6570030100300506032b6570030100",
        // a byte alone under the tag of the attributes
        "302030140201003000300a300506032b6570030100a00100300506032b6570030100",
        // no bytes
        "",
        // 2^32 - 1 bytes that aren't there
        "3084ffffffff",
        // a tag of several bytes
        "1f8100",
    ],
};

/// The test of this name, over any such allocator.
fn requests_over<A: Heap>(rt: &impl Abort, heap: A) {
    all_hold::<A, CertificationRequest<A>>(rt, heap, &REQUESTS);
}

#[test]
fn requests(rt: HostRuntime) {
    let heap = Refusing::new(rt.alloc());
    requests_over(&rt, &heap);
}
