//! Private keys with their algorithms.

use super::fields::{ANY, Field};
use super::rows::{Heap, Row, Table, all_hold};
use refusing::Refusing;
use std::process::Abort;
use x509_der::Deviation;
use x509_keys::PrivateKeyInfo;

/// The secret AA of Ed25519, and with the public key BB.
const ED_INFO: &str = "300f020100300506032b657004030401aa";

pub(super) const ED_INFO_WITH_KEY: &str = "3015020100300506032b657004030401aaa104030200bb";

/// An RSA key of eight numbers 1.
pub(super) const RSA_INFO: &str =
    "3031020100300d06092a864886f70d0101010500041d301b020100020101020101020101020101020101020101020101020101";

/// An RSA key without NULL behind the algorithm's identifier, and an empty element behind the key.
const RSA_INFO_TWICE: &str =
    "3031020100300b06092a864886f70d010101041d301b020100020101020101020101020101020101020101020101020101a000";

const INFOS: Table<'static> = Table {
    strict: &[
        ("300f020101300506032b657104030401aa", 6),
        ("300f020100300506032b656e04030401aa", 6),
        ("300f020100300506032b656f04030401aa", 6),
        (ED_INFO_WITH_KEY, 8),
        (
            "3022020100301306072a8648ce3d020106082a8648ce3d030107040830060201010401aa",
            9,
        ),
    ],
    rows: &[
        Row {
            input: ED_INFO,
            strict: ED_INFO,
            places: &[],
            headers: 6,
            fields: &[
                Field {
                    around: &[0],
                    start: 2,
                    tags: &[],
                },
                Field {
                    around: &[0],
                    start: 5,
                    tags: &[],
                },
                Field {
                    around: &[0],
                    start: 12,
                    tags: &[],
                },
                Field {
                    around: &[0, 12],
                    start: 14,
                    tags: &[0x04],
                },
            ],
        },
        Row {
            input: "3015020101300506032b657004030401aaa104030200bb",
            strict: "3015020101300506032b657004030401aaa104030200bb",
            places: &[],
            headers: 8,
            fields: &[
                Field {
                    around: &[0],
                    start: 17,
                    tags: ANY,
                },
                Field {
                    around: &[0, 17],
                    start: 19,
                    tags: &[0x03],
                },
            ],
        },
        Row {
            input: RSA_INFO,
            strict: RSA_INFO,
            places: &[],
            headers: 16,
            fields: &[
                Field {
                    around: &[0],
                    start: 2,
                    tags: &[],
                },
                Field {
                    around: &[0],
                    start: 5,
                    tags: &[],
                },
                Field {
                    around: &[0],
                    start: 20,
                    tags: &[],
                },
                Field {
                    around: &[0, 20],
                    start: 22,
                    tags: &[],
                },
                Field {
                    around: &[0, 20, 22],
                    start: 24,
                    tags: &[0x02],
                },
                Field {
                    around: &[0, 20, 22],
                    start: 48,
                    tags: &[0x02],
                },
            ],
        },
        Row {
            input: "302e020100301306072a8648ce3d020106082a8648ce3d030107041430120201010401aaa00a06082a8648ce3d030107",
            strict: "302e020100301306072a8648ce3d020106082a8648ce3d030107041430120201010401aaa00a06082a8648ce3d030107",
            places: &[],
            headers: 11,
            fields: &[
                Field {
                    around: &[0],
                    start: 26,
                    tags: &[],
                },
                Field {
                    around: &[0, 26],
                    start: 28,
                    tags: &[],
                },
                Field {
                    around: &[0, 26, 28],
                    start: 30,
                    tags: &[],
                },
                Field {
                    around: &[0, 26, 28],
                    start: 33,
                    tags: &[0x04],
                },
                Field {
                    around: &[0, 26, 28],
                    start: 36,
                    tags: &[],
                },
                Field {
                    around: &[0, 26, 28, 36],
                    start: 38,
                    tags: &[0x06],
                },
            ],
        },
        Row {
            input: "3011020100300506032b657004030401aaa000",
            strict: ED_INFO,
            places: &[(Deviation::SkippedKeyElement, 0, 19)],
            headers: 7,
            fields: &[
                Field {
                    around: &[0],
                    start: 2,
                    tags: &[],
                },
                Field {
                    around: &[0],
                    start: 12,
                    tags: &[],
                },
                Field {
                    around: &[0],
                    start: 17,
                    tags: ANY,
                },
            ],
        },
        Row {
            input: "3017020100300506032b657004030401aaa000a104030200bb",
            strict: ED_INFO_WITH_KEY,
            places: &[(Deviation::SkippedKeyElement, 0, 25)],
            headers: 9,
            fields: &[
                Field {
                    around: &[0, 12],
                    start: 14,
                    tags: &[0x04],
                },
                Field {
                    around: &[0],
                    start: 17,
                    tags: ANY,
                },
                Field {
                    around: &[0],
                    start: 19,
                    tags: &[],
                },
                Field {
                    around: &[0, 19],
                    start: 21,
                    tags: &[0x03],
                },
            ],
        },
        Row {
            input: "3013020100300506032b657004030401aa810200bb",
            strict: ED_INFO,
            places: &[(Deviation::SkippedKeyElement, 0, 21)],
            headers: 7,
            fields: &[Field {
                around: &[0],
                start: 17,
                tags: ANY,
            }],
        },
        Row {
            input: RSA_INFO_TWICE,
            strict: RSA_INFO,
            places: &[
                (Deviation::SkippedKeyElement, 0, 51),
                (Deviation::RsaParametersAbsent, 5, 18),
            ],
            headers: 16,
            fields: &[
                Field {
                    around: &[0, 18, 20],
                    start: 22,
                    tags: &[0x02],
                },
                Field {
                    around: &[0],
                    start: 49,
                    tags: ANY,
                },
            ],
        },
    ],
    refused: &[
        // the public key under an implicit tag, behind an element that is skipped
        "3015020100300506032b657004030401aaa000810200bb",
        // two elements behind the private key, and no public key
        "3013020100300506032b657004030401aaa000a000",
        // NULL in place of the public key's BIT STRING
        "3013020100300506032b657004030401aaa1020500",
        // a tag of several bytes behind the private key
        "3011020100300506032b657004030401aa1f00",
        // no public key under its tag
        "3011020100300506032b657004030401aaa100",
        // NULL behind the public key, under its tag
        "3017020100300506032b657004030401aaa106030200bb0500",
        // an element behind the public key
        "3017020100300506032b657004030401aaa104030200bba000",
        // the public key twice
        "301b020100300506032b657004030401aaa104030200bba104030200bb",
        // two bytes fewer than the length says, and the public key twice
        "301d020100300506032b657004030401aaa104030200bba104030200bb",
        // version 2
        "300f020102300506032b657004030401aa",
        // version 2, with an RSA key
        "3031020102300d06092a864886f70d0101010500041d301b020100020101020101020101020101020101020101020101020101",
        // seven numbers behind the version of the RSA key
        "302e020100300d06092a864886f70d0101010500041a3018020100020101020101020101020101020101020101020101",
        // nine numbers behind the version of the RSA key
        "3034020100300d06092a864886f70d01010105000420301e020100020101020101020101020101020101020101020101020101020101",
        // ML-DSA-44, whose private keys aren't read
        "3015020100300b060960864801650304031104030401aa",
        // SHA-256, which has no keys
        "3017020100300d0609608648016503040201050004030401aa",
        // a secret of Ed25519 without the OCTET STRING of its own
        "300d020100300506032b65700401aa",
        // version 0 of the elliptic curve key
        "3022020100301306072a8648ce3d020106082a8648ce3d030107040830060201000401aa",
    ],
};

/// The test of this name, over any such allocator.
fn private_keys_with_algorithms_over<A: Heap>(rt: &impl Abort, heap: A) {
    all_hold::<A, PrivateKeyInfo<A>>(rt, heap, &INFOS);
}

#[test]
fn private_keys_with_algorithms(rt: HostRuntime) {
    let heap = Refusing::new(rt.alloc());
    private_keys_with_algorithms_over(&rt, &heap);
}
