//! As `explained`, of the smaller structures: the algorithms' parameters, the parts of names, of requests and of keys.

use super::damages::{Damaged, each_refused};
use picky_asn1_x509::{
    AesAuthEncParams, Attribute, AttributeTypeAndValue, CertificationRequestInfo, EdiPartyName,
    HashAlgorithm, MaskGenAlgorithm, OtherName, RawAlgorithmIdentifier, RsaPublicKey,
    RsassaPssParams,
};
use x509_der::ReadError::{
    BadLength, BadNumber, BadOid, BadText, LeftOver, Truncated, Unsupported, WrongTag,
};

/// Damages of `RsaPublicKey`.
const RSA_PUBLIC_KEY: Damaged = (
    "3006020105020103",
    &[
        (0, 0x1f, WrongTag, 0),
        (1, 0x80, BadLength, 0),
        (2, 0x1f, WrongTag, 2),
        (3, 0x80, BadLength, 2),
        (5, 0x1f, WrongTag, 5),
        (6, 0x80, BadLength, 5),
        // longer than the input
        (1, 0x07, Truncated, 0),
        // longer than the content
        (6, 0x02, Truncated, 5),
    ],
);

/// Damages of `AttributeTypeAndValue`.
const NAME_ATTRIBUTE: Damaged = (
    "3009060355040313026162",
    &[
        (0, 0x1f, WrongTag, 0),
        (1, 0x80, BadLength, 0),
        (2, 0x1f, WrongTag, 2),
        (3, 0x80, BadLength, 2),
        (7, 0x1f, WrongTag, 7),
        (8, 0x80, BadLength, 7),
        // longer than the content
        (8, 0x03, Truncated, 7),
        // an arc that does not end
        (6, 0x83, BadOid, 4),
        // a character that is not printable
        (10, 0x2a, BadText, 9),
    ],
);

/// Damages of `OtherName`.
const OTHER_NAME: Damaged = (
    "300806022a03a0020500",
    &[
        (0, 0x1f, WrongTag, 0),
        (1, 0x80, BadLength, 0),
        (2, 0x1f, WrongTag, 2),
        (3, 0x80, BadLength, 2),
        (6, 0x1f, WrongTag, 6),
        (7, 0x80, BadLength, 6),
        (8, 0x1f, WrongTag, 8),
        (9, 0x80, BadLength, 8),
        // longer than the content
        (7, 0x03, Truncated, 6),
        // longer than what the tag holds
        (9, 0x01, Truncated, 8),
        // an arc that does not end
        (5, 0x83, BadOid, 4),
    ],
);

/// Damages of `EdiPartyName`.
const PARTY: Damaged = (
    "300aa003130161a103130162",
    &[
        (0, 0x1f, WrongTag, 0),
        (1, 0x80, BadLength, 0),
        (2, 0x1f, WrongTag, 2),
        (3, 0x80, BadLength, 2),
        (4, 0x1f, WrongTag, 4),
        (5, 0x80, BadLength, 4),
        (7, 0x1f, WrongTag, 7),
        (8, 0x80, BadLength, 7),
        (9, 0x1f, WrongTag, 9),
        (10, 0x80, BadLength, 9),
        // longer than the content
        (8, 0x04, Truncated, 7),
        // longer than what the tag holds
        (10, 0x02, Truncated, 9),
        // a character that is not printable
        (6, 0x2a, BadText, 6),
    ],
);

/// Damages of `RawAlgorithmIdentifier`.
const RAW_ALGORITHM: Damaged = (
    "300606022a030500",
    &[
        (0, 0x1f, WrongTag, 0),
        (1, 0x80, BadLength, 0),
        (2, 0x1f, WrongTag, 2),
        (3, 0x80, BadLength, 2),
        (6, 0x1f, LeftOver, 6),
        (7, 0x80, BadLength, 6),
        // longer than the content
        (7, 0x01, Truncated, 6),
        // an arc that does not end
        (5, 0x83, BadOid, 4),
    ],
);

/// Damages of `HashAlgorithm`.
const HASH: Damaged = (
    "300d06096086480165030402010500",
    &[
        (0, 0x1f, WrongTag, 0),
        (1, 0x80, BadLength, 0),
        (2, 0x1f, WrongTag, 2),
        (3, 0x80, BadLength, 2),
        (13, 0x1f, LeftOver, 13),
        (14, 0x80, BadLength, 13),
        // longer than the content
        (14, 0x01, Truncated, 13),
        // a hash function that is not known
        (12, 0x7f, Unsupported, 2),
    ],
);

/// Damages of `MaskGenAlgorithm`.
const MASK: Damaged = (
    "301a06092a864886f70d010108300d06096086480165030402010500",
    &[
        (0, 0x1f, WrongTag, 0),
        (1, 0x80, BadLength, 0),
        (2, 0x1f, WrongTag, 2),
        (3, 0x80, BadLength, 2),
        (13, 0x1f, WrongTag, 13),
        (14, 0x80, BadLength, 13),
        (15, 0x1f, WrongTag, 15),
        (16, 0x80, BadLength, 15),
        (26, 0x1f, LeftOver, 26),
        (27, 0x80, BadLength, 26),
        // longer than the content
        (14, 0x0e, Truncated, 13),
        // a hash function that is not known
        (25, 0x7f, Unsupported, 15),
    ],
);

/// Damages of `RsassaPssParams`.
const PSS: Damaged = (
    "3034a00f300d06096086480165030402010500a11c301a06092a864886f70d010108300d06096086480165030402010500a203020120",
    &[
        (0, 0x1f, WrongTag, 0),
        (1, 0x80, BadLength, 0),
        (2, 0x1f, WrongTag, 2),
        (3, 0x80, BadLength, 2),
        (4, 0x1f, WrongTag, 4),
        (5, 0x80, BadLength, 4),
        (6, 0x1f, WrongTag, 6),
        (7, 0x80, BadLength, 6),
        (17, 0x1f, LeftOver, 17),
        (18, 0x80, BadLength, 17),
        (19, 0x1f, WrongTag, 19),
        (20, 0x80, BadLength, 19),
        (21, 0x1f, WrongTag, 21),
        (22, 0x80, BadLength, 21),
        (23, 0x1f, WrongTag, 23),
        (24, 0x80, BadLength, 23),
        (34, 0x1f, WrongTag, 34),
        (35, 0x80, BadLength, 34),
        (36, 0x1f, WrongTag, 36),
        (37, 0x80, BadLength, 36),
        (47, 0x1f, LeftOver, 47),
        (48, 0x80, BadLength, 47),
        (49, 0x1f, WrongTag, 49),
        (50, 0x80, BadLength, 49),
        (51, 0x1f, WrongTag, 51),
        (52, 0x80, BadLength, 51),
        // longer than the content
        (50, 0x04, Truncated, 49),
        // below 0
        (53, 0x80, BadNumber, 51),
    ],
);

/// Damages of `AesAuthEncParams`.
const AES: Damaged = (
    "30060401aa02010c",
    &[
        (0, 0x1f, WrongTag, 0),
        (1, 0x80, BadLength, 0),
        (2, 0x1f, WrongTag, 2),
        (3, 0x80, BadLength, 2),
        (5, 0x1f, WrongTag, 5),
        (6, 0x80, BadLength, 5),
        // longer than the content
        (6, 0x02, Truncated, 5),
    ],
);

/// Damages of `CertificationRequestInfo`. What stands inside the values of an attribute that isn't known isn't looked at.
const REQUEST_INFO: Damaged = (
    "30260201003000300a300506032b6570030100a013301106092a864886f70d010907310413027077",
    &[
        (0, 0x1f, WrongTag, 0),
        (1, 0x80, BadLength, 0),
        (2, 0x1f, WrongTag, 2),
        (3, 0x80, BadLength, 2),
        (5, 0x1f, WrongTag, 5),
        (6, 0x80, BadLength, 5),
        (7, 0x1f, WrongTag, 7),
        (8, 0x80, BadLength, 7),
        (9, 0x1f, WrongTag, 9),
        (10, 0x80, BadLength, 9),
        (11, 0x1f, WrongTag, 11),
        (12, 0x80, BadLength, 11),
        (16, 0x1f, WrongTag, 16),
        (17, 0x80, BadLength, 16),
        (19, 0x1f, WrongTag, 19),
        (20, 0x80, BadLength, 19),
        (21, 0x1f, WrongTag, 21),
        (22, 0x80, BadLength, 21),
        (23, 0x1f, WrongTag, 23),
        (24, 0x80, BadLength, 23),
        (34, 0x1f, WrongTag, 34),
        (35, 0x80, BadLength, 34),
        // longer than the content
        (35, 0x05, Truncated, 34),
        // below 0
        (4, 0x80, BadNumber, 4),
    ],
);

/// Damages of `Attribute`.
const ATTRIBUTE: Damaged = (
    "301006092a864886f70d01090431030401aa",
    &[
        (0, 0x1f, WrongTag, 0),
        (1, 0x80, BadLength, 0),
        (2, 0x1f, WrongTag, 2),
        (3, 0x80, BadLength, 2),
        (13, 0x1f, WrongTag, 13),
        (14, 0x80, BadLength, 13),
        (15, 0x1f, WrongTag, 15),
        (16, 0x80, BadLength, 15),
        // longer than the content
        (14, 0x04, Truncated, 13),
        // longer than what the set holds
        (16, 0x02, Truncated, 15),
    ],
);

#[test]
fn names(rt: HostRuntime) {
    let alloc = rt.alloc();
    each_refused::<AttributeTypeAndValue>(&rt, alloc, &NAME_ATTRIBUTE);
    each_refused::<OtherName>(&rt, alloc, &OTHER_NAME);
    each_refused::<EdiPartyName>(&rt, alloc, &PARTY);
}

#[test]
fn algorithms(rt: HostRuntime) {
    let alloc = rt.alloc();
    each_refused::<RawAlgorithmIdentifier>(&rt, alloc, &RAW_ALGORITHM);
    each_refused::<HashAlgorithm>(&rt, alloc, &HASH);
    each_refused::<MaskGenAlgorithm>(&rt, alloc, &MASK);
    each_refused::<RsassaPssParams>(&rt, alloc, &PSS);
    each_refused::<AesAuthEncParams>(&rt, alloc, &AES);
}

#[test]
fn keys_and_requests(rt: HostRuntime) {
    let alloc = rt.alloc();
    each_refused::<RsaPublicKey>(&rt, alloc, &RSA_PUBLIC_KEY);
    each_refused::<CertificationRequestInfo>(&rt, alloc, &REQUEST_INFO);
    each_refused::<Attribute>(&rt, alloc, &ATTRIBUTE);
}
