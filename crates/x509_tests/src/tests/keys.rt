//! Public keys, by themselves and with their algorithms.

use super::cloning::copies_agree;
use super::fields::Field;
use super::rows::{Heap, Row, Table, all_hold, bytes_of};
use super::writing::is_written;
use refusing::Refusing;
use std::process::Abort;
use x509_der::{Deviation, from_bytes};
use x509_keys::{RsaPublicKey, SubjectPublicKeyInfo};

/// The numbers 5 and 3.
const RSA_PUBLIC_KEYS: Table<'static> = Table {
    strict: &[],
    rows: &[Row {
        input: "3006020105020103",
        strict: "3006020105020103",
        places: &[],
        headers: 3,
        fields: &[
            Field {
                around: &[0],
                start: 2,
                tags: &[0x02],
            },
            Field {
                around: &[0],
                start: 5,
                tags: &[0x02],
            },
        ],
    }],
    refused: &[
        "3003020105", // the modulus alone
        "3009020105020103020101", // a third number
        "3106020105020103", // another tag
        "300702010502020003", // an exponent that is padded with a zero
    ],
};

/// The test of this name, over any such allocator.
fn rsa_public_keys_over<A: Heap>(rt: &impl Abort, heap: A) {
    all_hold::<A, RsaPublicKey<A>>(rt, heap, &RSA_PUBLIC_KEYS);
}

#[test]
fn rsa_public_keys(rt: HostRuntime) {
    let heap = Refusing::new(rt.alloc());
    rsa_public_keys_over(&rt, &heap);
}

/// An RSA key of 5 and 3, with NULL behind the algorithm's identifier and without.
const RSA_SUBJECT: &str = "301a300d06092a864886f70d01010105000309003006020105020103";

const RSA_SUBJECT_WITHOUT_NULL: &str = "3018300b06092a864886f70d0101010309003006020105020103";

/// Keys without bits: of Ed25519, X25519, Ed448, X448, on the curve P-256, and of ML-DSA-44, ML-DSA-65 and ML-DSA-87.
const SUBJECTS: Table<'static> = Table {
    strict: &[
        ("300a300506032b656e030100", 4),
        ("300a300506032b6571030100", 4),
        ("300a300506032b656f030100", 4),
        ("3010300b0609608648016503040312030100", 4),
        ("3010300b0609608648016503040313030100", 4),
    ],
    rows: &[
        Row {
            input: "300a300506032b6570030100",
            strict: "300a300506032b6570030100",
            places: &[],
            headers: 4,
            fields: &[
                Field {
                    around: &[0],
                    start: 2,
                    tags: &[],
                },
                Field {
                    around: &[0, 2],
                    start: 4,
                    tags: &[],
                },
                Field {
                    around: &[0],
                    start: 9,
                    tags: &[0x03],
                },
            ],
        },
        Row {
            input: "3018301306072a8648ce3d020106082a8648ce3d030107030100",
            strict: "3018301306072a8648ce3d020106082a8648ce3d030107030100",
            places: &[],
            headers: 5,
            fields: &[
                Field {
                    around: &[0],
                    start: 2,
                    tags: &[],
                },
                Field {
                    around: &[0, 2],
                    start: 4,
                    tags: &[],
                },
                Field {
                    around: &[0, 2],
                    start: 13,
                    tags: &[0x06],
                },
                Field {
                    around: &[0],
                    start: 23,
                    tags: &[0x03],
                },
            ],
        },
        Row {
            input: "3010300b0609608648016503040311030100",
            strict: "3010300b0609608648016503040311030100",
            places: &[],
            headers: 4,
            fields: &[
                Field {
                    around: &[0],
                    start: 2,
                    tags: &[],
                },
                Field {
                    around: &[0, 2],
                    start: 4,
                    tags: &[],
                },
                Field {
                    around: &[0],
                    start: 15,
                    tags: &[0x03],
                },
            ],
        },
        Row {
            input: RSA_SUBJECT,
            strict: RSA_SUBJECT,
            places: &[],
            headers: 8,
            fields: &[
                Field {
                    around: &[0],
                    start: 2,
                    tags: &[],
                },
                Field {
                    around: &[0],
                    start: 17,
                    tags: &[],
                },
                Field {
                    around: &[0, 17],
                    start: 20,
                    tags: &[],
                },
                Field {
                    around: &[0, 17, 20],
                    start: 22,
                    tags: &[0x02],
                },
                Field {
                    around: &[0, 17, 20],
                    start: 25,
                    tags: &[0x02],
                },
            ],
        },
        Row {
            input: RSA_SUBJECT_WITHOUT_NULL,
            strict: RSA_SUBJECT,
            places: &[(Deviation::RsaParametersAbsent, 2, 15)],
            headers: 7,
            fields: &[
                Field {
                    around: &[0],
                    start: 15,
                    tags: &[],
                },
                Field {
                    around: &[0, 15, 18],
                    start: 20,
                    tags: &[0x02],
                },
            ],
        },
    ],
    refused: &[
        // an unused bit that is set
        "301a300d06092a864886f70d01010105000309013006020105020103",
        // an unused bit that isn't set, behind the RSA key of 5 and 2
        "301a300d06092a864886f70d01010105000309013006020105020102",
        // the algorithm 1.2.3, which isn't known
        "3009300406022a03030100",
        // SHA-256, which has no keys
        "3012300d06096086480165030402010500030100",
        // no RSA key in the BIT STRING
        "3012300d06092a864886f70d0101010500030100",
        // a byte left over behind the RSA key, in the BIT STRING
        "301b300d06092a864886f70d0101010500030a00300602010502010300",
        // OCTET STRING in place of the BIT STRING
        "300a300506032b6570040100",
        // no key
        "3007300506032b6570",
        // NULL behind the key
        "300c300506032b65700301000500",
    ],
};

/// The test of this name, over any such allocator.
fn keys_with_algorithms_over<A: Heap>(rt: &impl Abort, heap: A) {
    all_hold::<A, SubjectPublicKeyInfo<A>>(rt, heap, &SUBJECTS);
}

#[test]
fn keys_with_algorithms(rt: HostRuntime) {
    let heap = Refusing::new(rt.alloc());
    keys_with_algorithms_over(&rt, &heap);
}

/// Keys with their algorithms, and what is written of each key by itself.
const PUBLIC_KEYS: &[(&str, &str)] = &[
    (RSA_SUBJECT, "0309003006020105020103"),
    (
        "3019301306072a8648ce3d020106082a8648ce3d030107030200aa",
        "030200aa",
    ),
    ("300b300506032b6570030200bb", "030200bb"),
    ("3011300b0609608648016503040311030200cc", "030200cc"),
];

/// The key of the encoding is written by itself as these bytes, and cloned as itself, also where memory is refused.
fn public_key_alone<A: Heap>(rt: &impl Abort, heap: A, text: &str, alone: &str) {
    let input = bytes_of(rt, heap, text);
    let bytes = bytes_of(rt, heap, alone);
    let value = from_bytes::<SubjectPublicKeyInfo<A>, A>(heap, &input).expect(rt, text);
    let before = from_bytes::<SubjectPublicKeyInfo<A>, A>(heap, &input).expect(rt, text);
    is_written(rt, heap, &value.subject_public_key, &bytes);
    copies_agree(
        rt,
        heap,
        &value.subject_public_key,
        &before.subject_public_key,
        text,
    );
    drop(value);
    drop(before);
}

/// The test of this name, over any such allocator.
fn public_keys_alone_over<A: Heap>(rt: &impl Abort, heap: A) {
    for (text, alone) in PUBLIC_KEYS {
        public_key_alone(rt, heap, *text, *alone);
    }
}

#[test]
fn public_keys_alone(rt: HostRuntime) {
    let heap = Refusing::new(rt.alloc());
    public_keys_alone_over(&rt, &heap);
}
