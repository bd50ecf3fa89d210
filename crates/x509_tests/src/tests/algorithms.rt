//! Algorithm identifiers, and the parameters of AES and of elliptic curve keys.

use super::fields::Field;
use super::rows::{Heap, Row, Table, all_hold};
use refusing::Refusing;
use std::alloc::{AllocError, Allocator};
use std::process::Abort;
use x509_der::Deviation;
use x509_keys::{AesAuthEncParams, AesParameters, AlgorithmIdentifier, EcParameters};

/// The nonce of authenticated encryption, and the length of its integrity check value.
const NONCE: Field<'static> = Field {
    around: &[0],
    start: 2,
    tags: &[0x04],
};

const ICV_LEN: Field<'static> = Field {
    around: &[0],
    start: 5,
    tags: &[0x02],
};

/// Any INTEGER is read, also a negative one.
const AUTHENTICATED: Table<'static> = Table {
    strict: &[("30070401aa02020080", 3), ("30060401aa0201ff", 3)],
    rows: &[Row {
        input: "30060401aa020100",
        strict: "30060401aa020100",
        places: &[],
        headers: 3,
        fields: &[NONCE, ICV_LEN],
    }],
    refused: &[
        "30030401aa", // a nonce alone
        "3003020100", // a length alone
        "30060201000401aa", // the length before the nonce
        "30070401aa0202007f", // a length that is padded with a zero
        "30080401aa0201000500", // NULL behind the length
        "31060401aa020100", // another tag
    ],
};

/// NULL, an initialization vector, and what authenticated encryption takes.
const AES: Table<'static> = Table {
    strict: &[
        ("0500", 1),
        ("040ca5a5a5a5a5a5a5a5a5a5a5a5", 1),
        ("3011040cffffffffffffffffffffffff02010c", 3),
    ],
    rows: &[],
    refused: &[
        "050100", // a content of the NULL
        "020100", // INTEGER, which is none of the three
        "3000", // no nonce
        "0601", // another tag, and cut short
        "05000500", // a second NULL
    ],
};

/// The curve P-256, and any other identifier.
const CURVES: Table<'static> = Table {
    strict: &[("06082a8648ce3d030107", 1), ("06012a", 1)],
    rows: &[],
    refused: &[
        "0500", // NULL in place of the identifier
        "0600", // no content
        "300306012a", // SEQUENCE around the identifier
        "060180", // a padded number without its last byte
    ],
};

/// An identifier for which no other stands, since the parameters are its own.
const IDENTIFIER: Field<'static> = Field {
    around: &[0],
    start: 2,
    tags: &[],
};

/// The identifier of an RSA key, with NULL.
const RSA: &str = "300d06092a864886f70d0101010500";

/// RSASSA-PSS with SHA-256, and a salt of 32 bytes.
const PSS: &str =
    "304106092a864886f70d01010a3034a00f300d06096086480165030402010500a11c301a06092a864886f70d010108300d06096086480165030402010500a203020120";

/// The same with the NULL of both hash functions left out.
const PSS_WITHOUT_NULL: &str =
    "303d06092a864886f70d01010a3030a00d300b0609608648016503040201a11a301806092a864886f70d010108300b0609608648016503040201a203020120";

const ROWS: &[Row<'static>] = &[
    Row {
        input: RSA,
        strict: RSA,
        places: &[],
        headers: 3,
        fields: &[
            IDENTIFIER,
            Field {
                around: &[0],
                start: 13,
                tags: &[0x05],
            },
        ],
    },
    Row {
        input: "300b06092a864886f70d010101",
        strict: RSA,
        places: &[(Deviation::RsaParametersAbsent, 0, 13)],
        headers: 2,
        fields: &[IDENTIFIER],
    },
    Row {
        input: PSS_WITHOUT_NULL,
        strict: PSS,
        places: &[
            (Deviation::HashNullAbsent, 17, 30),
            (Deviation::HashNullAbsent, 45, 58),
        ],
        headers: 13,
        fields: &[],
    },
    Row {
        input: "300d06096086480165030401010500",
        strict: "300d06096086480165030401010500",
        places: &[],
        headers: 3,
        fields: &[
            IDENTIFIER,
            Field {
                around: &[0],
                start: 13,
                tags: &[0x04, 0x05],
            },
        ],
    },
    Row {
        input: "301306072a8648ce3d020106082a8648ce3d040302",
        strict: "301306072a8648ce3d020106082a8648ce3d040302",
        places: &[],
        headers: 3,
        fields: &[
            IDENTIFIER,
            Field {
                around: &[0],
                start: 11,
                tags: &[0x06],
            },
        ],
    },
];

const ALGORITHMS: Table<'static> = Table {
    strict: &[
        (PSS, 15),
        ("300b0609608648016503040129", 2),
        ("30190609608648016503040101040ca5a5a5a5a5a5a5a5a5a5a5a5", 3),
        (
            "301e06096086480165030401013011040cffffffffffffffffffffffff02010c",
            5,
        ),
        ("300d06096086480165030402080500", 3),
        ("300906052b0e03021a0500", 3),
        ("300b0609608648016503040311", 2),
        ("300506032b6570", 2),
        ("300906072a8648ce380403", 2),
        // RSA with SHA-1, SHA-224, SHA-256, SHA-384 and SHA-512
        ("300d06092a864886f70d0101050500", 3),
        ("300d06092a864886f70d01010e0500", 3),
        ("300d06092a864886f70d01010b0500", 3),
        ("300d06092a864886f70d01010c0500", 3),
        ("300d06092a864886f70d01010d0500", 3),
        // RSA with SHA3-224, SHA3-256, SHA3-384 and SHA3-512
        ("300d060960864801650304030d0500", 3),
        ("300d060960864801650304030e0500", 3),
        ("300d060960864801650304030f0500", 3),
        ("300d06096086480165030403100500", 3),
        // ECDSA with SHA-256, SHA-384 and SHA-512
        ("300a06082a8648ce3d040302", 2),
        ("300a06082a8648ce3d040303", 2),
        ("300a06082a8648ce3d040304", 2),
        // ECDSA with SHA3-224, SHA3-256, SHA3-384 and SHA3-512
        ("300b0609608648016503040309", 2),
        ("300b060960864801650304030a", 2),
        ("300b060960864801650304030b", 2),
        ("300b060960864801650304030c", 2),
        // Ed448, X25519 and X448
        ("300506032b6571", 2),
        ("300506032b656e", 2),
        ("300506032b656f", 2),
        // ML-DSA-65 and ML-DSA-87
        ("300b0609608648016503040312", 2),
        ("300b0609608648016503040313", 2),
    ],
    rows: ROWS,
    refused: &[
        "300e06092a864886f70d010101050100", // a content of the NULL
        "300d06092a864886f70d0101010400", // OCTET STRING in place of the NULL
        "300f06092a864886f70d01010105000500", // a second NULL
        "300b0609608648016503040201", // SHA-256 without its NULL
        "300b06072a8648ce3804030500", // NULL behind DSA with SHA-1
        "300d06092a864886f70d0101040500", // RSA with MD5, which isn't known
        "300c06082a864886f70d02050500", // MD5, which isn't known
        "300a06086086480165030401", // the arcs that AES stands under, by themselves
        "300c060860864801650304020500", // the arcs that hash functions stand under, by themselves
        "300906072a8648ce3d0201", // an elliptic curve key without its curve
        "300b06072a8648ce3d02010500", // NULL in place of the curve
        "300b06092a864886f70d01010a", // RSASSA-PSS without its parameters
        "300d06092a864886f70d01010a0500", // NULL in place of the parameters of RSASSA-PSS
        "300d06096086480165030403110500", // NULL behind ML-DSA-44
        "300e0609608648016503040129020100", // INTEGER in place of the parameters of AES
        "3003060129", // the algorithm 1.1, which isn't known
        "310d06092a864886f70d0101010500", // another tag
        "3000", // no identifier
        "", // no bytes
        "3084ffffffff", // 2^32 - 1 bytes that aren't there
        "3088ffffffffffffffff", // 2^64 - 1 bytes that aren't there
        "3089010000000000000000", // a length above 64 bits
        "30800000", // an indefinite length
        "1f8100", // a tag of several bytes
    ],
};

/// The test of this name, over any such allocator.
fn aes_parameters_hold_over<A: Heap>(rt: &impl Abort, heap: A) {
    all_hold::<A, AesAuthEncParams<A>>(rt, heap, &AUTHENTICATED);
    all_hold::<A, AesParameters<A>>(rt, heap, &AES);
}

#[test]
fn aes_parameters_hold(rt: HostRuntime) {
    let heap = Refusing::new(rt.alloc());
    aes_parameters_hold_over(&rt, &heap);
}

/// The test of this name, over any such allocator.
fn curves_hold_over<A: Heap>(rt: &impl Abort, heap: A) {
    all_hold::<A, EcParameters<A>>(rt, heap, &CURVES);
}

#[test]
fn curves_hold(rt: HostRuntime) {
    let heap = Refusing::new(rt.alloc());
    curves_hold_over(&rt, &heap);
}

/// The test of this name, over any such allocator.
fn algorithms_hold_over<A: Heap>(rt: &impl Abort, heap: A) {
    all_hold::<A, AlgorithmIdentifier<A>>(rt, heap, &ALGORITHMS);
}

#[test]
fn algorithms_hold(rt: HostRuntime) {
    let heap = Refusing::new(rt.alloc());
    algorithms_hold_over(&rt, &heap);
}
