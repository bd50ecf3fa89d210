//! Hash algorithms, and what is made of them: mask generation functions, parameters of RSASSA-PSS, and digests.

use super::fields::Field;
use super::rows::{Heap, Row, Table, all_hold};
use refusing::Refusing;
use std::process::Abort;
use x509_der::Deviation;
use x509_keys::{DigestInfo, HashAlgorithm, MaskGenAlgorithm, RsassaPssParams};

/// SHA-256, with NULL and without.
const SHA256: &str = "300d06096086480165030402010500";

const SHA256_ALONE: &str = "300b0609608648016503040201";

/// The identifier, of which only eight are read.
const IDENTIFIER: Field<'static> = Field {
    around: &[0],
    start: 2,
    tags: &[],
};

/// NULL behind it.
const NULL: Field<'static> = Field {
    around: &[0],
    start: 13,
    tags: &[0x05],
};

/// The identifiers 2.16.840.1.101.3.4.2.5, 1.3.14.3.2.26 and 2.16.840.1.101.3.4.2 aren't among the eight.
const HASHES: Table<'static> = Table {
    strict: &[
        ("300d06096086480165030402020500", 3),
        ("300d06096086480165030402030500", 3),
        ("300d06096086480165030402040500", 3),
        ("300d06096086480165030402070500", 3),
        ("300d06096086480165030402080500", 3),
        ("300d06096086480165030402090500", 3),
        ("300d060960864801650304020a0500", 3),
    ],
    rows: &[
        Row {
            input: SHA256,
            strict: SHA256,
            places: &[],
            headers: 3,
            fields: &[IDENTIFIER, NULL],
        },
        Row {
            input: SHA256_ALONE,
            strict: SHA256,
            places: &[(Deviation::HashNullAbsent, 0, 13)],
            headers: 2,
            fields: &[IDENTIFIER],
        },
    ],
    refused: &[
        "300d06096086480165030402050500", // SHA-512/224, which isn't among the eight
        "300906052b0e03021a0500", // SHA-1, which isn't among the eight
        "300c060860864801650304020500", // the arcs that hash functions stand under, by themselves
        "300e0609608648016503040201050100", // a content of the NULL
        "300f060960864801650304020105000500", // a second NULL
        "300d06096086480165030402010400", // OCTET STRING in place of the NULL
        "300d05000609608648016503040201", // the NULL before the identifier
        "310d06096086480165030402010500", // another tag
        "30020500", // NULL in place of the identifier
        "3000", // no identifier
    ],
};

/// The test of this name, over any such allocator.
fn hashes_hold_over<A: Heap>(rt: &impl Abort, heap: A) {
    all_hold::<A, HashAlgorithm>(rt, heap, &HASHES);
}

#[test]
fn hashes_hold(rt: HostRuntime) {
    let heap = Refusing::new(rt.alloc());
    hashes_hold_over(&rt, &heap);
}

/// MGF1 with SHA-256, with NULL and without.
const MGF1: &str = "301a06092a864886f70d010108300d06096086480165030402010500";

const MGF1_ALONE: &str = "301806092a864886f70d010108300b0609608648016503040201";

const MASKS: Table<'static> = Table {
    strict: &[],
    rows: &[
        Row {
            input: MGF1,
            strict: MGF1,
            places: &[],
            headers: 5,
            fields: &[
                Field {
                    around: &[0],
                    start: 2,
                    tags: &[0x06],
                },
                Field {
                    around: &[0],
                    start: 13,
                    tags: &[],
                },
            ],
        },
        Row {
            input: MGF1_ALONE,
            strict: MGF1,
            places: &[(Deviation::HashNullAbsent, 13, 26)],
            headers: 4,
            fields: &[],
        },
    ],
    refused: &[
        // no hash function
        "300b06092a864886f70d010108",
        // the hash function before the identifier
        "301a300d0609608648016503040201050006092a864886f70d010108",
        // NULL behind the hash function
        "301c06092a864886f70d010108300d060960864801650304020105000500",
        // SHA-512/224, which isn't among the eight
        "301a06092a864886f70d010108300d06096086480165030402050500",
    ],
};

/// The test of this name, over any such allocator.
fn masks_hold_over<A: Heap>(rt: &impl Abort, heap: A) {
    all_hold::<A, MaskGenAlgorithm<A>>(rt, heap, &MASKS);
}

#[test]
fn masks_hold(rt: HostRuntime) {
    let heap = Refusing::new(rt.alloc());
    masks_hold_over(&rt, &heap);
}

/// SHA-256, MGF1 with it, and a salt of 32 bytes.
const PARAMETERS: &str =
    "3034a00f300d06096086480165030402010500a11c301a06092a864886f70d010108300d06096086480165030402010500a203020120";

/// The same with a salt of 2^64 - 1 bytes, of 2^64, and of a number of twenty bytes.
const GREATEST: &str =
    "303ca00f300d06096086480165030402010500a11c301a06092a864886f70d010108300d06096086480165030402010500a20b020900ffffffffffffffff";

const ABOVE: &str =
    "303ca00f300d06096086480165030402010500a11c301a06092a864886f70d010108300d06096086480165030402010500a20b0209010000000000000000";

const FAR_ABOVE: &str =
    "3047a00f300d06096086480165030402010500a11c301a06092a864886f70d010108300d06096086480165030402010500a21602147fffffffffffffffffffffffffffffffffffffff";

/// The first with no NULL in either place.
const ALONE: &str =
    "3030a00d300b0609608648016503040201a11a301806092a864886f70d010108300b0609608648016503040201a203020120";

/// The hash function, the mask generation function, its identifier, and the salt's length, and the tags around them.
const FIELDS: &[Field<'static>] = &[
    Field {
        around: &[0],
        start: 2,
        tags: &[],
    },
    Field {
        around: &[0],
        start: 19,
        tags: &[],
    },
    Field {
        around: &[0],
        start: 49,
        tags: &[],
    },
    Field {
        around: &[0, 2],
        start: 4,
        tags: &[],
    },
    Field {
        around: &[0, 19],
        start: 21,
        tags: &[],
    },
    Field {
        around: &[0, 19, 21],
        start: 23,
        tags: &[0x06],
    },
    Field {
        around: &[0, 49],
        start: 51,
        tags: &[0x02],
    },
];

const SALTS: Table<'static> = Table {
    strict: &[
        (GREATEST, 13),
        // SHA-384 and SHA-512, each with a salt as long as the hash
        (
            "3034a00f300d06096086480165030402020500a11c301a06092a864886f70d010108300d06096086480165030402020500a203020130",
            13,
        ),
        (
            "3034a00f300d06096086480165030402030500a11c301a06092a864886f70d010108300d06096086480165030402030500a203020140",
            13,
        ),
        // SHA-256 with salts of 200 bytes, of none and of 2^63
        (
            "3035a00f300d06096086480165030402010500a11c301a06092a864886f70d010108300d06096086480165030402010500a204020200c8",
            13,
        ),
        (
            "3034a00f300d06096086480165030402010500a11c301a06092a864886f70d010108300d06096086480165030402010500a203020100",
            13,
        ),
        (
            "303ca00f300d06096086480165030402010500a11c301a06092a864886f70d010108300d06096086480165030402010500a20b0209008000000000000000",
            13,
        ),
    ],
    rows: &[
        Row {
            input: PARAMETERS,
            strict: PARAMETERS,
            places: &[],
            headers: 13,
            fields: FIELDS,
        },
        Row {
            input: ABOVE,
            strict: GREATEST,
            places: &[(Deviation::SaltTooLarge, 0, 62)],
            headers: 13,
            fields: &[],
        },
        Row {
            input: FAR_ABOVE,
            strict: GREATEST,
            places: &[(Deviation::SaltTooLarge, 0, 73)],
            headers: 13,
            fields: &[],
        },
        Row {
            input: ALONE,
            strict: PARAMETERS,
            places: &[
                (Deviation::HashNullAbsent, 4, 17),
                (Deviation::HashNullAbsent, 32, 45),
            ],
            headers: 11,
            fields: &[],
        },
    ],
    refused: &[
        // a salt length of -1
        "3034a00f300d06096086480165030402010500a11c301a06092a864886f70d010108300d06096086480165030402010500a2030201ff",
        // a salt length of -2^71
        "303ca00f300d06096086480165030402010500a11c301a06092a864886f70d010108300d06096086480165030402010500a20b0209800000000000000000",
        // a salt length that is padded with a zero
        "3035a00f300d06096086480165030402010500a11c301a06092a864886f70d010108300d06096086480165030402010500a20402020020",
        // a salt length of no content
        "3033a00f300d06096086480165030402010500a11c301a06092a864886f70d010108300d06096086480165030402010500a2020200",
        // no salt length
        "302fa00f300d06096086480165030402010500a11c301a06092a864886f70d010108300d06096086480165030402010500",
        // no hash function
        "3023a11c301a06092a864886f70d010108300d06096086480165030402010500a203020120",
        // no mask generation function
        "3016a00f300d06096086480165030402010500a203020120",
        // no fields
        "3000",
        // the mask generation function before the hash function
        "3034a11c301a06092a864886f70d010108300d06096086480165030402010500a00f300d06096086480165030402010500a203020120",
        // the trailer field behind the salt length
        "3039a00f300d06096086480165030402010500a11c301a06092a864886f70d010108300d06096086480165030402010500a203020120a303020101",
    ],
};

/// The test of this name, over any such allocator.
fn salts_hold_over<A: Heap>(rt: &impl Abort, heap: A) {
    all_hold::<A, RsassaPssParams<A>>(rt, heap, &SALTS);
}

#[test]
fn salts_hold(rt: HostRuntime) {
    let heap = Refusing::new(rt.alloc());
    salts_hold_over(&rt, &heap);
}

/// SHA-256 and 32 bytes.
const DIGEST: &str =
    "3031300d060960864801650304020105000420000102030405060708090a0b0c0d0e0f101112131415161718191a1b1c1d1e1f";

const DIGESTS: Table<'static> = Table {
    strict: &[],
    rows: &[
        Row {
            input: DIGEST,
            strict: DIGEST,
            places: &[],
            headers: 5,
            fields: &[
                Field {
                    around: &[0],
                    start: 2,
                    tags: &[],
                },
                Field {
                    around: &[0, 2],
                    start: 15,
                    tags: &[0x05],
                },
                Field {
                    around: &[0],
                    start: 17,
                    tags: &[0x04],
                },
            ],
        },
        // The RSA algorithm without its NULL.
        Row {
            input: "3010300b06092a864886f70d0101010401a5",
            strict: "3012300d06092a864886f70d01010105000401a5",
            places: &[(Deviation::RsaParametersAbsent, 2, 15)],
            headers: 4,
            fields: &[],
        },
    ],
    refused: &[
        "3010300b06096086480165030402010401a5", // SHA-256 without its NULL
        "30120401a5300d06096086480165030402010500", // the digest before its algorithm
        "300f300d06096086480165030402010500", // no digest
        "3014300d060960864801650304020105000401a50500", // NULL behind the digest
    ],
};

/// The test of this name, over any such allocator.
fn digests_hold_over<A: Heap>(rt: &impl Abort, heap: A) {
    all_hold::<A, DigestInfo<A>>(rt, heap, &DIGESTS);
}

#[test]
fn digests_hold(rt: HostRuntime) {
    let heap = Refusing::new(rt.alloc());
    digests_hold_over(&rt, &heap);
}
