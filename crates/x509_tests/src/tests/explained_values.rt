//! Where general names and lists are refused, and where an algorithm, an attribute or an extension whose value is missing, or is
//! in a form that isn't carried, is: by the element that names it, not behind it.

use super::damages::{Damaged, each_refused, is_refused};
use picky_asn1_x509::{
    AlgorithmIdentifier, Attribute, ExtendedKeyUsage, Extension, Extensions, GeneralName, Name,
    OpenSslAttributes, SubjectPublicKeyInfo,
};
use std::alloc::Global;
use std::process::Abort;
use x509_der::ReadError::{
    BadLength, BadNumber, BadOid, BadText, Truncated, Unsupported, WrongTag,
};
use x509_der::{FromDer, ReadError, Refused};

/// Damages of `GeneralName`: a DNS name.
const DNS_NAME: Damaged = (
    "82036e2e65",
    &[
        (0, 0x1f, WrongTag, 0),
        (1, 0x80, BadLength, 0),
        // longer than the input
        (1, 0x04, Truncated, 0),
        // no character of an IA5String
        (2, 0x80, BadText, 2),
    ],
);

/// Another name.
const OTHER_NAME: Damaged = (
    "a00906032a0304a0020500",
    &[
        (0, 0x1f, WrongTag, 0),
        (1, 0x80, BadLength, 0),
        (2, 0x1f, WrongTag, 2),
        (3, 0x80, BadLength, 2),
        (7, 0x1f, WrongTag, 7),
        (8, 0x80, BadLength, 7),
        (9, 0x1f, WrongTag, 9),
        (10, 0x80, BadLength, 9),
        // an arc that does not end
        (6, 0x84, BadOid, 4),
    ],
);

/// Damages of `Extensions`.
const EXTENSIONS: Damaged = (
    "300b30090603551d1304023000",
    &[
        (0, 0x1f, WrongTag, 0),
        (1, 0x80, BadLength, 0),
        (2, 0x1f, WrongTag, 2),
        (3, 0x80, BadLength, 2),
        (4, 0x1f, WrongTag, 4),
        (5, 0x80, BadLength, 4),
        (9, 0x1f, WrongTag, 9),
        (10, 0x80, BadLength, 9),
        (11, 0x1f, WrongTag, 11),
        (12, 0x80, BadLength, 11),
        // an arc that does not end
        (8, 0x93, BadOid, 6),
    ],
);

/// Damages of `ExtendedKeyUsage`.
const PURPOSES: Damaged = (
    "300a06082b06010505070301",
    &[
        (0, 0x1f, WrongTag, 0),
        (1, 0x80, BadLength, 0),
        (2, 0x1f, WrongTag, 2),
        (3, 0x80, BadLength, 2),
        // longer than the input
        (1, 0x0b, Truncated, 0),
        // longer than the content
        (3, 0x09, Truncated, 2),
        // an arc that does not end
        (11, 0x81, BadOid, 4),
    ],
);

/// Damages of `OpenSslAttributes`.
const ATTRIBUTES: Damaged = (
    "a012301006092a864886f70d01090431030401aa",
    &[
        (0, 0x1f, WrongTag, 0),
        (1, 0x80, BadLength, 0),
        (2, 0x1f, WrongTag, 2),
        (3, 0x80, BadLength, 2),
        (4, 0x1f, WrongTag, 4),
        (5, 0x80, BadLength, 4),
        (15, 0x1f, WrongTag, 15),
        (16, 0x80, BadLength, 15),
        (17, 0x1f, WrongTag, 17),
        (18, 0x80, BadLength, 17),
    ],
);

#[test]
fn values(rt: HostRuntime) {
    let alloc = rt.alloc();
    each_refused::<GeneralName>(&rt, alloc, &DNS_NAME);
    each_refused::<GeneralName>(&rt, alloc, &OTHER_NAME);
    each_refused::<Extensions>(&rt, alloc, &EXTENSIONS);
    each_refused::<ExtendedKeyUsage>(&rt, alloc, &PURPOSES);
    each_refused::<OpenSslAttributes>(&rt, alloc, &ATTRIBUTES);
}

/// An input in hexadecimal, and the error with its place.
type Refusal = (&'static str, ReadError, usize);

/// Each of the inputs is refused as is stated.
fn all_refused<T: FromDer<Global>>(rt: &impl Abort, alloc: Global, rows: &[Refusal]) {
    for row in rows {
        let bytes = hex::decode(alloc, row.0).expect(rt, row.0);
        let stated = Refused {
            error: row.1,
            at: row.2,
        };
        is_refused::<T>(rt, alloc, &bytes, stated);
    }
}

/// Algorithms whose parameters are missing, or are RSASSA-PSS's in another form than that with its three fields
/// (RFC 4055, 3.1).
const ALGORITHMS: &[Refusal] = &[
    // RSASSA-PSS: absent, all defaults, the hash function alone, and a trailer field
    ("300b06092a864886f70d01010a", Unsupported, 2),
    ("300d06092a864886f70d01010a3000", Unsupported, 2),
    (
        "301e06092a864886f70d01010a3011a00f300d06096086480165030402010500",
        Unsupported,
        2,
    ),
    (
        "304606092a864886f70d01010a3039a00f300d06096086480165030402010500a11c301a06092a864886f70d010108300d06096086480165030402010500a203020120a303020101",
        Unsupported,
        2,
    ),
    // a NULL in the place of its fields
    ("300f06092a864886f70d01010a30020500", WrongTag, 15),
    // a salt of -128 bytes
    (
        "304106092a864886f70d01010a3034a00f300d06096086480165030402010500a11c301a06092a864886f70d010108300d06096086480165030402010500a203020180",
        BadNumber,
        64,
    ),
    // an elliptic curve key without a curve, and hash functions without NULL
    ("300906072a8648ce3d0201", Truncated, 2),
    ("300706052b0e03021a", Truncated, 2),
    ("300b0609608648016503040201", Truncated, 2),
];

/// A public key of RSASSA-PSS without parameters.
const KEYS: &[Refusal] = &[("3010300b06092a864886f70d01010a030100", Unsupported, 4)];

/// An attribute of a name without its value.
const NAMES: &[Refusal] = &[("3009310730050603550403", Truncated, 6)];

/// An attribute of a request, and an extension, without values.
const REQUEST_ATTRIBUTES: &[Refusal] = &[("300b06092a864886f70d01090e", Truncated, 2)];

const EXTENSION: &[Refusal] = &[("30050603551d0f", Truncated, 2)];

#[test]
fn missing_values(rt: HostRuntime) {
    let alloc = rt.alloc();
    all_refused::<AlgorithmIdentifier>(&rt, alloc, ALGORITHMS);
    all_refused::<SubjectPublicKeyInfo>(&rt, alloc, KEYS);
    all_refused::<Name>(&rt, alloc, NAMES);
    all_refused::<Attribute>(&rt, alloc, REQUEST_ATTRIBUTES);
    all_refused::<Extension>(&rt, alloc, EXTENSION);
}
