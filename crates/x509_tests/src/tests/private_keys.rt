//! Private keys of RSA and on elliptic curves, and those that stand in `PrivateKeyInfo`, by themselves.

use super::cloning::copies_agree;
use super::fields::Field;
use super::private_key_infos::{ED_INFO_WITH_KEY, RSA_INFO};
use super::rows::{Heap, Row, Table, all_hold, bytes_of};
use super::writing::is_written;
use refusing::Refusing;
use std::process::Abort;
use x509_der::from_bytes;
use x509_keys::{ECPrivateKey, PrivateKeyInfo, RsaPrivateKey};

/// Eight numbers 1, with the versions 0 and 1; seven and nine of them are refused.
const RSA_PRIVATE_KEYS: Table<'static> = Table {
    strict: &[(
        "301b020101020101020101020101020101020101020101020101020101",
        10,
    )],
    rows: &[Row {
        input: "301b020100020101020101020101020101020101020101020101020101",
        strict: "301b020100020101020101020101020101020101020101020101020101",
        places: &[],
        headers: 10,
        fields: &[
            Field {
                around: &[0],
                start: 2,
                tags: &[0x02],
            },
            Field {
                around: &[0],
                start: 5,
                tags: &[0x02],
            },
            Field {
                around: &[0],
                start: 8,
                tags: &[0x02],
            },
            Field {
                around: &[0],
                start: 11,
                tags: &[0x02],
            },
            Field {
                around: &[0],
                start: 14,
                tags: &[0x02],
            },
            Field {
                around: &[0],
                start: 17,
                tags: &[0x02],
            },
            Field {
                around: &[0],
                start: 20,
                tags: &[0x02],
            },
            Field {
                around: &[0],
                start: 23,
                tags: &[0x02],
            },
            Field {
                around: &[0],
                start: 26,
                tags: &[0x02],
            },
        ],
    }],
    refused: &[
        // seven numbers behind the version
        "3018020100020101020101020101020101020101020101020101",
        // nine numbers behind the version
        "301e020100020101020101020101020101020101020101020101020101020101",
        // BIT STRING in place of the last number
        "301b020100020101020101020101020101020101020101020101030101",
    ],
};

/// The test of this name, over any such allocator.
fn rsa_private_keys_over<A: Heap>(rt: &impl Abort, heap: A) {
    all_hold::<A, RsaPrivateKey<A>>(rt, heap, &RSA_PRIVATE_KEYS);
}

#[test]
fn rsa_private_keys(rt: HostRuntime) {
    let heap = Refusing::new(rt.alloc());
    rsa_private_keys_over(&rt, &heap);
}

/// The secret AA alone, with a curve, with a point, and with both.
const EC_PRIVATE_KEYS: Table<'static> = Table {
    strict: &[
        ("30060201010401aa", 3),
        ("30120201010401aaa00a06082a8648ce3d030107", 5),
        ("300c0201010401aaa104030200bb", 5),
    ],
    rows: &[Row {
        input: "30180201010401aaa00a06082a8648ce3d030107a104030200bb",
        strict: "30180201010401aaa00a06082a8648ce3d030107a104030200bb",
        places: &[],
        headers: 7,
        fields: &[
            Field {
                around: &[0],
                start: 2,
                tags: &[],
            },
            Field {
                around: &[0],
                start: 5,
                tags: &[0x04],
            },
            Field {
                around: &[0],
                start: 8,
                tags: &[],
            },
            Field {
                around: &[0, 8],
                start: 10,
                tags: &[0x06],
            },
            Field {
                around: &[0],
                start: 20,
                tags: &[],
            },
            Field {
                around: &[0, 20],
                start: 22,
                tags: &[0x03],
            },
        ],
    }],
    refused: &[
        "30060201000401aa", // version 0
        "30060201020401aa", // version 2
        "3007020201010401aa", // version 257
        "30180201010401aaa104030200bba00a06082a8648ce3d030107", // the public key before the curve
        "30080201010401aaa000", // no curve under its tag
        "30080201010401aaa100", // no public key under its tag
        "30080201010401aa0500", // NULL behind the secret
    ],
};

/// The test of this name, over any such allocator.
fn ec_private_keys_over<A: Heap>(rt: &impl Abort, heap: A) {
    all_hold::<A, ECPrivateKey<A>>(rt, heap, &EC_PRIVATE_KEYS);
}

#[test]
fn ec_private_keys(rt: HostRuntime) {
    let heap = Refusing::new(rt.alloc());
    ec_private_keys_over(&rt, &heap);
}

/// Keys with their algorithms, and what is written of each private key by itself.
const PRIVATE_KEYS: &[(&str, &str)] = &[
    (
        RSA_INFO,
        "041d301b020100020101020101020101020101020101020101020101020101",
    ),
    (
        "302e020100301306072a8648ce3d020106082a8648ce3d030107041430120201010401aaa00a06082a8648ce3d030107",
        "041430120201010401aaa00a06082a8648ce3d030107",
    ),
    (ED_INFO_WITH_KEY, "04030401aa"),
];

/// The private key of the encoding is written by itself as these bytes, and cloned as itself, also where memory is
/// refused.
fn private_key_alone<A: Heap>(rt: &impl Abort, heap: A, text: &str, alone: &str) {
    let input = bytes_of(rt, heap, text);
    let bytes = bytes_of(rt, heap, alone);
    let value = from_bytes::<PrivateKeyInfo<A>, A>(heap, &input).expect(rt, text);
    let before = from_bytes::<PrivateKeyInfo<A>, A>(heap, &input).expect(rt, text);
    is_written(rt, heap, &value.private_key, &bytes);
    copies_agree(rt, heap, &value.private_key, &before.private_key, text);
    drop(value);
    drop(before);
}

/// The test of this name, over any such allocator.
fn private_keys_alone_over<A: Heap>(rt: &impl Abort, heap: A) {
    for (text, alone) in PRIVATE_KEYS {
        private_key_alone(rt, heap, *text, *alone);
    }
}

#[test]
fn private_keys_alone(rt: HostRuntime) {
    let heap = Refusing::new(rt.alloc());
    private_keys_alone_over(&rt, &heap);
}
