//! Where refused inputs could not be read: the first byte of the element, or of the primitive content, that is damaged;
//! the first byte that is left over; or that of the structure whose fields don't go together.
//!
//! Each encoding is damaged in each of its elements: its tag by one of several bytes (`1f`), which stands in the place of
//! no field, so that an optional field is absent, and its length by an indefinite one (`80`). Then come a few contents.

use super::damages::{Damaged, each_refused, is_refused};
use picky_asn1_x509::{
    AlgorithmIdentifier, AuthorityKeyIdentifier, BasicConstraints, Certificate,
    CertificationRequest, DigestInfo, ECPrivateKey, Extension, Name, PrivateKeyInfo, RsaPrivateKey,
    SubjectPublicKeyInfo, TbsCertificate, Validity,
};
use x509_der::ReadError::{
    BadBits, BadBoolean, BadLength, BadNumber, BadOid, BadText, BadTime, BadVersion,
    ExtensionsNeedV3, LeftOver, Truncated, UniqueIdNeedsV2, Unsupported, WrongTag,
};
use x509_der::{ReadError, Refused};

/// Damages of `BasicConstraints`.
const CONSTRAINTS: Damaged = (
    "30060101ff020105",
    &[
        (0, 0x1f, WrongTag, 0),
        (1, 0x80, BadLength, 0),
        (2, 0x1f, LeftOver, 2),
        (3, 0x80, BadLength, 2),
        (5, 0x1f, LeftOver, 5),
        (6, 0x80, BadLength, 5),
        // longer than the input
        (1, 0x07, Truncated, 0),
        // an element longer than the content
        (1, 0x05, Truncated, 5),
        // neither 00 nor FF
        (4, 0x01, BadBoolean, 4),
        // below 0
        (7, 0x80, BadNumber, 7),
    ],
);

/// Damages of `Extension`.
const EXTENSION: Damaged = (
    "30120603551d130101ff040830060101ff020105",
    &[
        (0, 0x1f, WrongTag, 0),
        (1, 0x80, BadLength, 0),
        (2, 0x1f, WrongTag, 2),
        (3, 0x80, BadLength, 2),
        (7, 0x1f, WrongTag, 7),
        (8, 0x80, BadLength, 7),
        (10, 0x1f, WrongTag, 10),
        (11, 0x80, BadLength, 10),
        (12, 0x1f, WrongTag, 12),
        (13, 0x80, BadLength, 12),
        (14, 0x1f, LeftOver, 14),
        (15, 0x80, BadLength, 14),
        (17, 0x1f, LeftOver, 17),
        (18, 0x80, BadLength, 17),
        // an arc that is padded
        (4, 0x80, BadOid, 4),
        // neither 00 nor FF
        (9, 0x02, BadBoolean, 9),
        // a value that is longer than the content
        (11, 0x09, Truncated, 10),
        // within the value
        (16, 0x01, BadBoolean, 16),
    ],
);

/// Damages of `AlgorithmIdentifier`.
const ALGORITHM: Damaged = (
    "300d06092a864886f70d01010b0500",
    &[
        (0, 0x1f, WrongTag, 0),
        (1, 0x80, BadLength, 0),
        (2, 0x1f, WrongTag, 2),
        (3, 0x80, BadLength, 2),
        (13, 0x1f, LeftOver, 13),
        (14, 0x80, BadLength, 13),
        // an arc that does not end
        (12, 0x8b, BadOid, 4),
        // an algorithm that is not known
        (12, 0x7f, Unsupported, 2),
    ],
);

/// Damages of `Validity`.
const VALIDITY: Damaged = (
    "301e170d3139313031373137343132385a170d3232313031363137343132385a",
    &[
        (0, 0x1f, WrongTag, 0),
        (1, 0x80, BadLength, 0),
        (2, 0x1f, WrongTag, 2),
        (3, 0x80, BadLength, 2),
        (17, 0x1f, WrongTag, 17),
        (18, 0x80, BadLength, 17),
        // no digit
        (4, 0x78, BadTime, 4),
        // no Z
        (31, 0x59, BadTime, 19),
    ],
);

/// Damages of `Name`.
const NAME: Damaged = (
    "300d310b3009060355040313026162",
    &[
        (0, 0x1f, WrongTag, 0),
        (1, 0x80, BadLength, 0),
        (2, 0x1f, WrongTag, 2),
        (3, 0x80, BadLength, 2),
        (4, 0x1f, WrongTag, 4),
        (5, 0x80, BadLength, 4),
        (6, 0x1f, WrongTag, 6),
        (7, 0x80, BadLength, 6),
        (11, 0x1f, WrongTag, 11),
        (12, 0x80, BadLength, 11),
        // a character that is not printable
        (13, 0x2a, BadText, 13),
        // an arc that does not end
        (10, 0x83, BadOid, 8),
    ],
);

/// Damages of `AuthorityKeyIdentifier`.
const AUTHORITY: Damaged = (
    "30068001aa820105",
    &[
        (0, 0x1f, WrongTag, 0),
        (1, 0x80, BadLength, 0),
        (2, 0x1f, WrongTag, 2),
        (3, 0x80, BadLength, 2),
        (5, 0x1f, WrongTag, 5),
        (6, 0x80, BadLength, 5),
    ],
);

/// Damages of `SubjectPublicKeyInfo`.
const PUBLIC_KEY: Damaged = (
    "300a300506032b6570030100",
    &[
        (0, 0x1f, WrongTag, 0),
        (1, 0x80, BadLength, 0),
        (2, 0x1f, WrongTag, 2),
        (3, 0x80, BadLength, 2),
        (4, 0x1f, WrongTag, 4),
        (5, 0x80, BadLength, 4),
        (9, 0x1f, WrongTag, 9),
        (10, 0x80, BadLength, 9),
        // an algorithm that is not known
        (8, 0x7f, Unsupported, 4),
        // nine unused bits
        (11, 0x09, BadBits, 11),
    ],
);

/// Damages of `PrivateKeyInfo`.
const PRIVATE_KEY: Damaged = (
    "300e020100300506032b657004020400",
    &[
        (0, 0x1f, WrongTag, 0),
        (1, 0x80, BadLength, 0),
        (2, 0x1f, WrongTag, 2),
        (3, 0x80, BadLength, 2),
        (5, 0x1f, WrongTag, 5),
        (6, 0x80, BadLength, 5),
        (7, 0x1f, WrongTag, 7),
        (8, 0x80, BadLength, 7),
        (12, 0x1f, WrongTag, 12),
        (13, 0x80, BadLength, 12),
        // version 2
        (4, 0x02, BadVersion, 0),
        // within the key
        (15, 0x01, Truncated, 14),
    ],
);

/// Damages of `TbsCertificate`.
const SIGNED_PART: Damaged = (
    "3057a003020102020101300506032b65703000301e170d3139313031373137343132385a170d3232313031363137343132385a3000300a300506032b6570030100a316301430120603551d130101ff040830060101ff020105",
    &[
        (0, 0x1f, WrongTag, 0),
        (1, 0x80, BadLength, 0),
        (2, 0x1f, WrongTag, 2),
        (3, 0x80, BadLength, 2),
        (4, 0x1f, WrongTag, 4),
        (5, 0x80, BadLength, 4),
        (7, 0x1f, WrongTag, 7),
        (8, 0x80, BadLength, 7),
        (10, 0x1f, WrongTag, 10),
        (11, 0x80, BadLength, 10),
        (12, 0x1f, WrongTag, 12),
        (13, 0x80, BadLength, 12),
        (17, 0x1f, WrongTag, 17),
        (18, 0x80, BadLength, 17),
        (19, 0x1f, WrongTag, 19),
        (20, 0x80, BadLength, 19),
        (21, 0x1f, WrongTag, 21),
        (22, 0x80, BadLength, 21),
        (36, 0x1f, WrongTag, 36),
        (37, 0x80, BadLength, 36),
        (51, 0x1f, WrongTag, 51),
        (52, 0x80, BadLength, 51),
        (53, 0x1f, WrongTag, 53),
        (54, 0x80, BadLength, 53),
        (55, 0x1f, WrongTag, 55),
        (56, 0x80, BadLength, 55),
        (57, 0x1f, WrongTag, 57),
        (58, 0x80, BadLength, 57),
        (62, 0x1f, WrongTag, 62),
        (63, 0x80, BadLength, 62),
        (65, 0x1f, LeftOver, 65),
        (66, 0x80, BadLength, 65),
        (67, 0x1f, WrongTag, 67),
        (68, 0x80, BadLength, 67),
        (69, 0x1f, WrongTag, 69),
        (70, 0x80, BadLength, 69),
        (71, 0x1f, WrongTag, 71),
        (72, 0x80, BadLength, 71),
        (76, 0x1f, WrongTag, 76),
        (77, 0x80, BadLength, 76),
        (79, 0x1f, WrongTag, 79),
        (80, 0x80, BadLength, 79),
        (81, 0x1f, WrongTag, 81),
        (82, 0x80, BadLength, 81),
        (83, 0x1f, LeftOver, 83),
        (84, 0x80, BadLength, 83),
        (86, 0x1f, LeftOver, 86),
        (87, 0x80, BadLength, 86),
        // version 1 with extensions
        (6, 0x00, ExtensionsNeedV3, 0),
        // no version
        (6, 0x05, BadVersion, 4),
    ],
);

/// Damages of `Certificate`.
const CERTIFICATE: Damaged = (
    "3046303a020101300506032b65703000301e170d3139313031373137343132385a170d3232313031363137343132385a3000300a300506032b6570030100300506032b6570030100",
    &[
        (0, 0x1f, WrongTag, 0),
        (1, 0x80, BadLength, 0),
        (2, 0x1f, WrongTag, 2),
        (3, 0x80, BadLength, 2),
        (4, 0x1f, WrongTag, 4),
        (5, 0x80, BadLength, 4),
        (7, 0x1f, WrongTag, 7),
        (8, 0x80, BadLength, 7),
        (9, 0x1f, WrongTag, 9),
        (10, 0x80, BadLength, 9),
        (14, 0x1f, WrongTag, 14),
        (15, 0x80, BadLength, 14),
        (16, 0x1f, WrongTag, 16),
        (17, 0x80, BadLength, 16),
        (18, 0x1f, WrongTag, 18),
        (19, 0x80, BadLength, 18),
        (33, 0x1f, WrongTag, 33),
        (34, 0x80, BadLength, 33),
        (48, 0x1f, WrongTag, 48),
        (49, 0x80, BadLength, 48),
        (50, 0x1f, WrongTag, 50),
        (51, 0x80, BadLength, 50),
        (52, 0x1f, WrongTag, 52),
        (53, 0x80, BadLength, 52),
        (54, 0x1f, WrongTag, 54),
        (55, 0x80, BadLength, 54),
        (59, 0x1f, WrongTag, 59),
        (60, 0x80, BadLength, 59),
        (62, 0x1f, WrongTag, 62),
        (63, 0x80, BadLength, 62),
        (64, 0x1f, WrongTag, 64),
        (65, 0x80, BadLength, 64),
        (69, 0x1f, WrongTag, 69),
        (70, 0x80, BadLength, 69),
    ],
);

/// Damages of `CertificationRequest`. What stands inside the values of an attribute that isn't known isn't looked at.
const REQUEST: Damaged = (
    "303230260201003000300a300506032b6570030100a013301106092a864886f70d010907310413027077300506032b6570030100",
    &[
        (0, 0x1f, WrongTag, 0),
        (1, 0x80, BadLength, 0),
        (2, 0x1f, WrongTag, 2),
        (3, 0x80, BadLength, 2),
        (4, 0x1f, WrongTag, 4),
        (5, 0x80, BadLength, 4),
        (7, 0x1f, WrongTag, 7),
        (8, 0x80, BadLength, 7),
        (9, 0x1f, WrongTag, 9),
        (10, 0x80, BadLength, 9),
        (11, 0x1f, WrongTag, 11),
        (12, 0x80, BadLength, 11),
        (13, 0x1f, WrongTag, 13),
        (14, 0x80, BadLength, 13),
        (18, 0x1f, WrongTag, 18),
        (19, 0x80, BadLength, 18),
        (21, 0x1f, WrongTag, 21),
        (22, 0x80, BadLength, 21),
        (23, 0x1f, WrongTag, 23),
        (24, 0x80, BadLength, 23),
        (25, 0x1f, WrongTag, 25),
        (26, 0x80, BadLength, 25),
        (36, 0x1f, WrongTag, 36),
        (37, 0x80, BadLength, 36),
        (42, 0x1f, WrongTag, 42),
        (43, 0x80, BadLength, 42),
        (44, 0x1f, WrongTag, 44),
        (45, 0x80, BadLength, 44),
        (49, 0x1f, WrongTag, 49),
        (50, 0x80, BadLength, 49),
        // below 0
        (6, 0x80, BadNumber, 6),
    ],
);

/// Damages of `DigestInfo`.
const DIGEST: Damaged = (
    "3012300d060960864801650304020105000401aa",
    &[
        (0, 0x1f, WrongTag, 0),
        (1, 0x80, BadLength, 0),
        (2, 0x1f, WrongTag, 2),
        (3, 0x80, BadLength, 2),
        (4, 0x1f, WrongTag, 4),
        (5, 0x80, BadLength, 4),
        (15, 0x1f, WrongTag, 15),
        (16, 0x80, BadLength, 15),
        (17, 0x1f, WrongTag, 17),
        (18, 0x80, BadLength, 17),
    ],
);

/// Damages of `RsaPrivateKey`.
const RSA_KEY: Damaged = (
    "301b020100020101020102020103020104020105020106020107020108",
    &[
        (0, 0x1f, WrongTag, 0),
        (1, 0x80, BadLength, 0),
        (2, 0x1f, WrongTag, 2),
        (3, 0x80, BadLength, 2),
        (5, 0x1f, WrongTag, 5),
        (6, 0x80, BadLength, 5),
        (8, 0x1f, WrongTag, 8),
        (9, 0x80, BadLength, 8),
        (11, 0x1f, WrongTag, 11),
        (12, 0x80, BadLength, 11),
        (14, 0x1f, WrongTag, 14),
        (15, 0x80, BadLength, 14),
        (17, 0x1f, WrongTag, 17),
        (18, 0x80, BadLength, 17),
        (20, 0x1f, WrongTag, 20),
        (21, 0x80, BadLength, 20),
        (23, 0x1f, WrongTag, 23),
        (24, 0x80, BadLength, 23),
        (26, 0x1f, WrongTag, 26),
        (27, 0x80, BadLength, 26),
    ],
);

/// Damages of `ECPrivateKey`.
const CURVE_KEY: Damaged = (
    "30180201010401aaa00a06082a8648ce3d030107a10403020004",
    &[
        (0, 0x1f, WrongTag, 0),
        (1, 0x80, BadLength, 0),
        (2, 0x1f, WrongTag, 2),
        (3, 0x80, BadLength, 2),
        (5, 0x1f, WrongTag, 5),
        (6, 0x80, BadLength, 5),
        (8, 0x1f, LeftOver, 8),
        (9, 0x80, BadLength, 8),
        (10, 0x1f, WrongTag, 10),
        (11, 0x80, BadLength, 10),
        (20, 0x1f, LeftOver, 20),
        (21, 0x80, BadLength, 20),
        (22, 0x1f, WrongTag, 22),
        (23, 0x80, BadLength, 22),
        // version 2
        (4, 0x02, BadVersion, 0),
        // nine unused bits
        (24, 0x09, BadBits, 24),
    ],
);

#[test]
fn extensions(rt: HostRuntime) {
    let alloc = rt.alloc();
    each_refused::<BasicConstraints>(&rt, alloc, &CONSTRAINTS);
    each_refused::<Extension>(&rt, alloc, &EXTENSION);
    each_refused::<AuthorityKeyIdentifier>(&rt, alloc, &AUTHORITY);
}

#[test]
fn names_and_times(rt: HostRuntime) {
    let alloc = rt.alloc();
    each_refused::<Name>(&rt, alloc, &NAME);
    each_refused::<Validity>(&rt, alloc, &VALIDITY);
}

#[test]
fn algorithms(rt: HostRuntime) {
    let alloc = rt.alloc();
    each_refused::<AlgorithmIdentifier>(&rt, alloc, &ALGORITHM);
    each_refused::<DigestInfo>(&rt, alloc, &DIGEST);
}

#[test]
fn keys(rt: HostRuntime) {
    let alloc = rt.alloc();
    each_refused::<SubjectPublicKeyInfo>(&rt, alloc, &PUBLIC_KEY);
    each_refused::<PrivateKeyInfo>(&rt, alloc, &PRIVATE_KEY);
    each_refused::<RsaPrivateKey>(&rt, alloc, &RSA_KEY);
    each_refused::<ECPrivateKey>(&rt, alloc, &CURVE_KEY);
}

#[test]
fn certificates_and_requests(rt: HostRuntime) {
    let alloc = rt.alloc();
    each_refused::<TbsCertificate>(&rt, alloc, &SIGNED_PART);
    each_refused::<Certificate>(&rt, alloc, &CERTIFICATE);
    each_refused::<CertificationRequest>(&rt, alloc, &REQUEST);
}

/// Inputs that are refused as a whole, or for what stands behind an encoding.
const WHOLE: &[(&str, ReadError, usize)] = &[
    // no bytes
    ("", Truncated, 0),
    // a unique identifier in a certificate of version 1: its signed part begins behind the header
    (
        "304a303e020101300506032b65703000301e170d3139313031373137343132385a170d3232313031363137343132385a3000300a300506032b657003010081020700300506032b6570030100",
        UniqueIdNeedsV2,
        2,
    ),
    // bytes behind a whole certificate
    (
        "3046303a020101300506032b65703000301e170d3139313031373137343132385a170d3232313031363137343132385a3000300a300506032b6570030100300506032b65700301000500",
        LeftOver,
        72,
    ),
];

#[test]
fn whole_inputs(rt: HostRuntime) {
    let alloc = rt.alloc();
    for (input, error, at) in WHOLE {
        let bytes = hex::decode(alloc, input).expect(&rt, input);
        is_refused::<Certificate>(
            &rt,
            alloc,
            &bytes,
            Refused {
                error: *error,
                at: *at,
            },
        );
    }
}
