//! Lists, containers and structures that are refused, with headers and errors as `refusals.rt` tells them.

use super::refusals::{Refusal, all_refused};
use picky_asn1_x509::{BasicConstraints, TbsCertificate};
use x509_der::ReadError::{
    BadBits, BadBoolean, BadLength, BadNumber, BadOid, BadText, BadTime, BadVersion,
    ExtensionsNeedV3, LeftOver, Truncated, UniqueIdNeedsV2, Unsupported, WrongTag,
};
use x509_der::{Asn1SequenceOf, Asn1SetOf, BitStringAsn1Container, OctetStringAsn1Container};
use x509_keys::{DigestInfo, ECPrivateKey, HashAlgorithm, PrivateKeyInfo, RawAlgorithmIdentifier};
use x509_names::{AttributeTypeAndValue, GeneralName, Validity};

/// No SEQUENCE OF INTEGER (0..255): the list is a header, and each item one.
const SEQUENCES: &[Refusal<'static>] = &[
    // no bytes
    ("", 1, Some(Truncated)),
    // another tag
    ("3106020101020102", 1, Some(WrongTag)),
    // a content that is cut
    ("3006020101", 1, Some(Truncated)),
    // a first item with another tag
    ("3003010100", 2, Some(WrongTag)),
    // a second item that is cut
    ("30050201010201", 3, Some(Truncated)),
    // a second item of a tag alone
    ("300402010102", 3, None),
    // a second item with another tag
    ("3006020101040102", 3, Some(WrongTag)),
    // a second item whose length is not the shortest
    ("300702010102810102", 3, Some(BadLength)),
    // a second item below 0
    ("3006020101020180", 3, Some(BadNumber)),
    // a third item above 255
    ("300a02010102010202020100", 4, Some(BadNumber)),
    // a byte behind a list of one
    ("300302010100", 2, Some(LeftOver)),
    // a byte behind an empty list
    ("300000", 1, Some(LeftOver)),
];

/// No SET OF INTEGER (0..255).
const SETS: &[Refusal<'static>] = &[
    // another tag
    ("3006020102020101", 1, Some(WrongTag)),
    // a second item with another tag
    ("3106020102010100", 3, Some(WrongTag)),
    // a second item below 0
    ("3106020102020180", 3, Some(BadNumber)),
    // a byte behind a set of two
    ("310602010202010100", 3, Some(LeftOver)),
];

#[test]
fn lists(rt: HostRuntime) {
    let alloc = rt.alloc();
    all_refused::<Asn1SequenceOf<u8>>(&rt, alloc, SEQUENCES);
    all_refused::<Asn1SetOf<u8>>(&rt, alloc, SETS);
}

/// No OCTET STRING around an INTEGER (0..255).
const IN_OCTETS: &[Refusal<'static>] = &[
    // no octets
    ("0400", 2, None),
    // another tag outside
    ("0503020105", 1, Some(WrongTag)),
    // another tag inside
    ("0403040105", 2, Some(WrongTag)),
    // cut outside
    ("04030201", 1, Some(Truncated)),
    // cut inside
    ("0403020205", 2, Some(Truncated)),
    // below 0
    ("0403020180", 2, Some(BadNumber)),
    // an element behind the value
    ("04050201050500", 2, Some(LeftOver)),
    // a byte behind it
    ("040302010500", 2, Some(LeftOver)),
];

/// No BIT STRING around an INTEGER (0..255): the count of unused bits is no header.
const IN_BITS: &[Refusal<'static>] = &[
    // no count of unused bits
    ("0300", 1, None),
    // a count alone
    ("030100", 2, None),
    // an unused bit that is set
    ("030401020105", 1, Some(BadBits)),
    // an unused bit
    ("030401020104", 1, None),
    // another tag inside
    ("030400040105", 2, Some(WrongTag)),
    // below 0
    ("030400020180", 2, Some(BadNumber)),
    // an element behind the value
    ("0306000201050500", 2, Some(LeftOver)),
    // a byte behind it
    ("03040002010500", 2, Some(LeftOver)),
];

#[test]
fn containers(rt: HostRuntime) {
    let alloc = rt.alloc();
    all_refused::<OctetStringAsn1Container<u8>>(&rt, alloc, IN_OCTETS);
    all_refused::<BitStringAsn1Container<u8>>(&rt, alloc, IN_BITS);
}

/// No general names. Which of the forms a name has is told by its first byte.
const GENERAL_NAMES: &[Refusal<'static>] = &[
    // no bytes
    ("", 0, None),
    // a tag of no form
    ("0400", 0, None),
    // a host with a byte above 7F
    ("8201ff", 1, Some(BadText)),
    // an explicit tag around nothing
    ("a200", 2, None),
    // an explicit tag around a number
    ("a203020161", 2, Some(WrongTag)),
    // an element behind the host
    ("a2051601610500", 2, Some(LeftOver)),
    // a byte behind it
    ("82016100", 1, Some(LeftOver)),
];

/// No SEQUENCE of a BOOLEAN and an INTEGER (0..255), each optional.
const CONSTRAINTS: &[Refusal<'static>] = &[
    // another tag
    ("3100", 1, Some(WrongTag)),
    // a field with a tag of neither
    ("30020500", 1, None),
    // a number below 0
    ("3003020180", 2, Some(BadNumber)),
    // neither 00 nor FF
    ("3003010101", 2, Some(BadBoolean)),
    // an element behind the number
    ("30050201050500", 2, Some(LeftOver)),
    // a number that is cut
    ("30030202a1", 2, Some(Truncated)),
    // fields in another order
    ("30060201050101ff", 2, None),
    // a byte behind it
    ("300000", 1, Some(LeftOver)),
];

#[test]
fn choices_and_optional_fields(rt: HostRuntime) {
    let alloc = rt.alloc();
    all_refused::<GeneralName>(&rt, alloc, GENERAL_NAMES);
    all_refused::<BasicConstraints>(&rt, alloc, CONSTRAINTS);
}

/// No identifier, or not the value that it asks for: 1.2.840.113549.1.9.1 an IA5String, 2.5.4.6 a text of several
/// types.
const ATTRIBUTES: &[Refusal<'static>] = &[
    // no identifier
    ("3000", 2, None),
    // an address, and no value
    ("300b06092a864886f70d010901", 3, None),
    // an address in another type of text
    ("300e06092a864886f70d0109010c0161", 3, Some(WrongTag)),
    // an address with a byte above 7F
    ("300e06092a864886f70d0109011601ff", 3, Some(BadText)),
    // a country, and a number
    ("30080603550406020105", 2, None),
    // an address, and an element behind it
    ("301006092a864886f70d0109011601610500", 3, Some(LeftOver)),
];

#[test]
fn values_by_identifiers(rt: HostRuntime) {
    let alloc = rt.alloc();
    all_refused::<AttributeTypeAndValue>(&rt, alloc, ATTRIBUTES);
}

/// No two times. Which of the two types a time has is told by its first byte.
const VALIDITIES: &[Refusal<'static>] = &[
    // no time
    ("3000", 1, None),
    // a number
    ("3003020105", 1, None),
    // a time alone
    ("300f170d3530303130313030303030305a", 2, None),
    // a second time that does not exist
    (
        "3020170d3530303130313030303030305a180f31393030303232393030303030305a",
        3,
        Some(BadTime),
    ),
    // a third time
    (
        "302f170d3530303130313030303030305a170d3530303130313030303030305a180f32303030303232393132333435365a",
        3,
        Some(LeftOver),
    ),
    // a byte behind it
    (
        "301e170d3530303130313030303030305a170d3530303130313030303030305a00",
        3,
        Some(LeftOver),
    ),
];

#[test]
fn periods(rt: HostRuntime) {
    let alloc = rt.alloc();
    all_refused::<Validity>(&rt, alloc, VALIDITIES);
}

/// No SEQUENCE of an OBJECT IDENTIFIER and at most one element.
const ALGORITHMS: &[Refusal<'static>] = &[
    // another tag
    ("310306012a", 1, Some(WrongTag)),
    // no identifier
    ("3000", 2, None),
    // another tag in its place
    ("300304012a", 2, Some(WrongTag)),
    // a number without its last byte
    ("3003060180", 2, Some(BadOid)),
    // parameters of a tag alone
    ("300406012a05", 3, None),
    // parameters that are cut
    ("300506012a0501", 3, Some(Truncated)),
    // two elements behind the identifier
    ("300706012a05000500", 3, Some(LeftOver)),
    // a byte behind it
    ("300506012a050000", 3, Some(LeftOver)),
    // a byte behind one without parameters
    ("300306012a00", 2, Some(LeftOver)),
];

/// No list of these.
const ALGORITHM_LISTS: &[Refusal<'static>] = &[
    // a second item without its last byte
    ("300a300306012a3003060180", 5, Some(BadOid)),
    // a second item with another tag
    ("300a300306012a310306012a", 4, Some(WrongTag)),
    // a byte behind it
    ("3005300306012a00", 3, Some(LeftOver)),
];

/// No hash function. An identifier that names none is refused before what stands behind it is looked at.
const HASHES: &[Refusal<'static>] = &[
    // no identifier
    ("3000", 2, None),
    // SHA-512/224, which isn't among those that are known
    ("300d06096086480165030402050500", 2, Some(Unsupported)),
    // the same with a content of the NULL
    ("300e0609608648016503040205050100", 2, Some(Unsupported)),
    // SHA-256 with a content of the NULL
    ("300e0609608648016503040201050100", 3, Some(LeftOver)),
    // SHA-256, and octets in the place of the NULL
    ("300d06096086480165030402010400", 2, None),
    // SHA-256 with a second NULL
    ("300f060960864801650304020105000500", 3, Some(LeftOver)),
];

/// No digests by SHA-256.
const DIGESTS: &[Refusal<'static>] = &[
    // no algorithm
    ("3000", 2, None),
    // no octets
    ("300f300d06096086480165030402010500", 5, None),
    // bits in their place
    (
        "3013300d0609608648016503040201050003020055",
        5,
        Some(WrongTag),
    ),
    // octets that are cut
    (
        "3012300d060960864801650304020105000402a5",
        5,
        Some(Truncated),
    ),
    // an element behind the octets
    (
        "3014300d060960864801650304020105000401a50500",
        5,
        Some(LeftOver),
    ),
    // a byte behind it
    (
        "3012300d060960864801650304020105000401a500",
        5,
        Some(LeftOver),
    ),
];

#[test]
fn algorithms(rt: HostRuntime) {
    let alloc = rt.alloc();
    all_refused::<RawAlgorithmIdentifier>(&rt, alloc, ALGORITHMS);
    all_refused::<Asn1SequenceOf<RawAlgorithmIdentifier>>(&rt, alloc, ALGORITHM_LISTS);
}

#[test]
fn digests(rt: HostRuntime) {
    let alloc = rt.alloc();
    all_refused::<HashAlgorithm>(&rt, alloc, HASHES);
    all_refused::<DigestInfo>(&rt, alloc, DIGESTS);
}

/// No signed parts of a certificate, for what their version doesn't have.
const SIGNED_PARTS: &[Refusal<'static>] = &[
    // an issuer's identifier without a version
    (
        "303e020101300506032b65703000301e170d3139313031373137343132385a170d3232313031363137343132385a3000300a300506032b6570030100810200aa",
        14,
        Some(UniqueIdNeedsV2),
    ),
    // a subject's identifier without a version
    (
        "303d020101300506032b65703000301e170d3139313031373137343132385a170d3232313031363137343132385a3000300a300506032b6570030100820100",
        14,
        Some(UniqueIdNeedsV2),
    ),
    // an issuer's identifier with version 1, spelled
    (
        "3043a003020100020101300506032b65703000301e170d3139313031373137343132385a170d3232313031363137343132385a3000300a300506032b6570030100810200aa",
        16,
        Some(UniqueIdNeedsV2),
    ),
    // extensions without a version
    (
        "3049020101300506032b65703000301e170d3139313031373137343132385a170d3232313031363137343132385a3000300a300506032b6570030100a30d300b30090603551d1304023000",
        19,
        Some(ExtensionsNeedV3),
    ),
    // extensions with version 2
    (
        "304ea003020101020101300506032b65703000301e170d3139313031373137343132385a170d3232313031363137343132385a3000300a300506032b6570030100a30d300b30090603551d1304023000",
        21,
        Some(ExtensionsNeedV3),
    ),
    // version 4
    (
        "303fa003020103020101300506032b65703000301e170d3139313031373137343132385a170d3232313031363137343132385a3000300a300506032b6570030100",
        3,
        Some(BadVersion),
    ),
];

/// No private keys, for their version or their algorithm.
const PRIVATE_KEYS: &[Refusal<'static>] = &[
    // the algorithm 1.2, which isn't known
    ("300d020100300506012a05000401aa", 4, Some(Unsupported)),
    // version 2, which is the third
    (
        "302e020102300506032b6570042204201111111111111111111111111111111111111111111111111111111111111111",
        6,
        Some(BadVersion),
    ),
];

/// No keys on an elliptic curve, for their version.
const CURVE_KEYS: &[Refusal<'static>] = &[
    // version 0
    ("30080201000403aabbcc", 3, Some(BadVersion)),
];

#[test]
fn versions(rt: HostRuntime) {
    let alloc = rt.alloc();
    all_refused::<TbsCertificate>(&rt, alloc, SIGNED_PARTS);
    all_refused::<PrivateKeyInfo>(&rt, alloc, PRIVATE_KEYS);
    all_refused::<ECPrivateKey>(&rt, alloc, CURVE_KEYS);
}
