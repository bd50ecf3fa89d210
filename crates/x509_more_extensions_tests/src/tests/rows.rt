//! Encodings that OpenSSL made, and others that aren't read: each type once, through every bound that it meets.

use refusing::{Refusing, Turn, in_turn};
use std::alloc::{Allocator, Global};
use std::ops::ControlFlow;
use std::process::Abort;
use x509_der::{CloneEq, FromDer, ReadError, check, from_bytes, read_counted, to_vec};
use x509_distribution_points::{
    CrlDistributionPoints, DistributionPoint, DistributionPointName, FreshestCrl,
    IssuingDistributionPoint, ReasonFlags,
};
use x509_more_extensions::{
    AccessDescription, AuthorityInfoAccess, GeneralSubtree, GeneralSubtrees, InhibitAnyPolicy,
    NameConstraints, PolicyConstraints, PolicyMapping, PolicyMappings, PrivateKeyUsagePeriod,
    SubjectInfoAccess,
};
use x509_policies::{
    CertificatePolicies, DisplayText, NoticeReference, PolicyInformation, PolicyQualifierInfo,
    UserNotice, VisibleStringAsn1,
};

/// An allocator that refuses what it is told to.
pub(super) trait Heap: Allocator + Copy {
    /// Counts from 0 again, and refuses the request of this number, from 1 on; at 0 none.
    fn refuse(self, number: u64);

    /// Whether the run in which the request of this number was refused has the next one follow; else the number of its
    /// requests, or none where it was wrong.
    fn judge(self, number: u64, turn: Turn) -> ControlFlow<Option<u64>>;
}

impl Heap for &Refusing<Global> {
    fn refuse(self, number: u64) {
        Refusing::refuse(self, number);
    }

    fn judge(self, number: u64, turn: Turn) -> ControlFlow<Option<u64>> {
        Refusing::judge(self, number, turn)
    }
}

/// The bytes that the text has in hexadecimal.
pub(super) fn bytes_of<A: Heap>(rt: &impl Abort, heap: A, text: &str) -> Vec<u8, A> {
    hex::decode(heap, text).expect(rt, text)
}

/// The value of the encoding.
pub(super) fn value_of<A: Heap, T: FromDer<A>>(rt: &impl Abort, heap: A, text: &str) -> T {
    let input = bytes_of(rt, heap, text);
    from_bytes::<T, _>(heap, &input).expect(rt, text)
}

/// What a run showed that should read the encoding of an equal value.
fn read_turn<T: PartialEq + Drop>(answer: Result<T, ReadError>, value: &T) -> Turn {
    match answer {
        Ok(read) => Turn::right(read == *value),
        Err(ReadError::OutOfMemory) => Turn::Refused,
        Err(_other) => Turn::Wrong,
    }
}

/// Whether the value is cloned as itself.
fn is_cloned<T: CloneEq + PartialEq>(value: &T) -> bool {
    match value.clone_eq() {
        Ok(copy) => copy == *value,
        Err(_refused) => false,
    }
}

/// Whether the value is written as these bytes.
fn is_written<A: Heap, T: FromDer<A>>(heap: A, value: &T, bytes: &[u8]) -> bool {
    match to_vec(heap, value) {
        Ok(written) => written.as_slice() == bytes,
        Err(_refused) => false,
    }
}

/// Whether the bytes have no deviation.
fn is_strict<A: Heap, T: FromDer<A>>(heap: A, bytes: &[u8]) -> bool {
    match check::<T, _>(heap, bytes) {
        Ok(deviations) => deviations.is_none(),
        Err(_refused) => false,
    }
}

/// The DER encoding is read, also where each request for memory is refused in turn; the value is cloned as itself and
/// written again.
fn holds<A: Heap, T: FromDer<A> + CloneEq + PartialEq>(rt: &impl Abort, heap: A, text: &str) {
    let input = bytes_of(rt, heap, text);
    let value: T = value_of(rt, heap, text);
    let requests = in_turn!(heap, read_turn::<T>(from_bytes(heap, &input), &value));
    assert!(rt; requests.is_some(), "{text}");
    assert!(rt; is_cloned(&value), "{text}");
    assert!(rt; is_written(heap, &value, &input), "{text}");
    assert!(rt; is_strict::<A, T>(heap, &input), "{text}");
}

/// The bytes are refused.
fn refuses<A: Heap, T: FromDer<A>>(rt: &impl Abort, heap: A, text: &str) {
    let input = bytes_of(rt, heap, text);
    let is_refused = read_counted::<T, _>(heap, &input).is_err();
    assert!(rt; is_refused, "{text} is read");
}

/// What is stated of a type, in hexadecimal: DER encodings, and what isn't read.
#[derive(Clone, Copy)]
pub(super) struct Table<'a> {
    pub(super) read: &'a [&'a str],
    pub(super) refused: &'a [&'a str],
}

/// Each of the table is read, or refused, as it says.
pub(super) fn all_hold<A: Heap, T: FromDer<A> + CloneEq + PartialEq>(
    rt: &impl Abort,
    heap: A,
    table: &Table<'_>,
) {
    for text in table.read {
        holds::<A, T>(rt, heap, *text);
    }
    for text in table.refused {
        refuses::<A, T>(rt, heap, *text);
    }
}

/// A responder's address, and where the issuer's certificate is found.
pub(super) const ACCESS: &str =
    "304f302306082b060105050730018617687474703a2f2f6f6373702e6578616d706c652e636f6d302806082b06010505073002861c687474703a2f2f63612e6578616d706c652e636f6d2f63612e636572";

const ACCESSES: Table<'static> = Table {
    read: &[
        ACCESS,
        "3026302406082b060105050730058618687474703a2f2f7265706f2e6578616d706c652e636f6d2f",
        "3000",
    ],
    refused: &[
        "3100", // another tag
        "300a300806062b0601050507", // no location
        "300730058203612e62", // the location alone
    ],
};

const ACCESS_DESCRIPTIONS: Table<'static> = Table {
    read: &["302306082b060105050730018617687474703a2f2f6f6373702e6578616d706c652e636f6d"],
    refused: &["3000", "302386176874"],
};

fn accesses_over<A: Heap>(rt: &impl Abort, heap: A) {
    all_hold::<A, AuthorityInfoAccess<A>>(rt, heap, &ACCESSES);
    all_hold::<A, SubjectInfoAccess<A>>(rt, heap, &ACCESSES);
    all_hold::<A, AccessDescription<A>>(rt, heap, &ACCESS_DESCRIPTIONS);
}

#[test]
fn accesses(rt: HostRuntime) {
    let heap = Refusing::new(rt.alloc());
    accesses_over(&rt, &heap);
}

/// Three places of lists: of full name, reasons and issuer; of a relative name; of two names.
pub(super) const PLACES: &str =
    "308188303fa022a020861e687474703a2f2f63726c2e6578616d706c652e636f6d2f616c6c2e63726c81020560a215a4133011310f300d06035504030c064973737565723010a00ea10c300a06035504030c0352656c3033a031a02f861c687474703a2f2f63726c2e6578616d706c652e636f6d2f622e63726c820f63726c2e6578616d706c652e636f6d";

const DISTRIBUTION_POINTS: Table<'static> = Table {
    read: &[
        PLACES,
        "30283026a024a0228620687474703a2f2f63726c2e6578616d706c652e636f6d2f64656c74612e63726c",
        "30023000",
        "3000",
    ],
    refused: &[
        "30063004a0028600", // the name without its explicit tag
        "30063004a2028600ff", // a byte left over
        "3008300681020560a000", // the reasons before the name
        "30043002a000", // no alternative within the explicit tag
        "30063004a002a200", // no alternative of the name
    ],
};

const DISTRIBUTION_POINT_NAMES: Table<'static> = Table {
    read: &["a0028600", "a10c300a06035504030c0352656c", "a000", "a100"],
    refused: &["a200", "8000", "30028600"],
};

const REASONS: Table<'static> = Table {
    read: &["03020560", "030100", "03020780"],
    refused: &["03020561", "0300", "04020560"],
};

fn places_over<A: Heap>(rt: &impl Abort, heap: A) {
    all_hold::<A, CrlDistributionPoints<A>>(rt, heap, &DISTRIBUTION_POINTS);
    all_hold::<A, FreshestCrl<A>>(rt, heap, &DISTRIBUTION_POINTS);
    all_hold::<A, DistributionPointName<A>>(rt, heap, &DISTRIBUTION_POINT_NAMES);
    all_hold::<A, ReasonFlags<A>>(rt, heap, &REASONS);
    holds::<A, DistributionPoint<A>>(rt, heap, "300481020560");
}

#[test]
fn places(rt: HostRuntime) {
    let heap = Refusing::new(rt.alloc());
    places_over(&rt, &heap);
}

/// A list of certificates of users, indirect, for two reasons.
pub(super) const ISSUING_POINT: &str =
    "302ca020a01e861c687474703a2f2f63726c2e6578616d706c652e636f6d2f692e63726c8101ff830205608401ff";

const ISSUING: Table<'static> = Table {
    read: &[ISSUING_POINT, "30038501ff", "3000"],
    refused: &[
        "30068401ff8101ff", // another order
        "30038101fe", // no BOOLEAN
        "30038601ff", // no such field
        "3005a1030101ff", // an explicit tag
    ],
};

fn issuing_over<A: Heap>(rt: &impl Abort, heap: A) {
    all_hold::<A, IssuingDistributionPoint<A>>(rt, heap, &ISSUING);
}

#[test]
fn issuing(rt: HostRuntime) {
    let heap = Refusing::new(rt.alloc());
    issuing_over(&rt, &heap);
}

/// A policy of domain validation, and one with an address and a notice.
pub(super) const POLICIES: &str =
    "307b3008060667810c010201306f06032b05083068302306082b060105050702011617687474703a2f2f6370732e6578616d706c652e636f6d2f304106082b060105050702023035301f1a114f7267616e69736174696f6e204e616d65300a0201010201020202012c0c124578706c6963697420546578742048657265";

const CERTIFICATE_POLICIES: Table<'static> = Table {
    read: &[POLICIES, "3000", "3008300606022a033000"],
    refused: &[
        "30043002060100", // no identifier of two arcs
        "300a300806022a0330020500", // a qualifier without its kind
        "300a300806022a0331003000", // a set of qualifiers
    ],
};

/// The notice of that policy.
const NOTICE: &str =
    "3035301f1a114f7267616e69736174696f6e204e616d65300a0201010201020202012c0c124578706c6963697420546578742048657265";

const NOTICES: Table<'static> = Table {
    read: &[NOTICE, "3000", "30030c0141", "30061e0400410042"],
    refused: &[
        "3003130141", // a PrintableString
        "30050c01413000", // the text before the reference
        "30031a017f", // a character that isn't printed
        "3003160180", // a character that isn't one of ASCII
        "30031e0141", // half a character
    ],
};

fn policies_over<A: Heap>(rt: &impl Abort, heap: A) {
    all_hold::<A, CertificatePolicies<A>>(rt, heap, &CERTIFICATE_POLICIES);
    all_hold::<A, UserNotice<A>>(rt, heap, &NOTICES);
    holds::<A, PolicyInformation<A>>(rt, heap, "3008060667810c010201");
    holds::<A, PolicyQualifierInfo<A>>(rt, heap, "300606022a030500");
    holds::<A, NoticeReference<A>>(rt, heap, "30051601413000");
}

#[test]
fn policies(rt: HostRuntime) {
    let heap = Refusing::new(rt.alloc());
    policies_over(&rt, &heap);
}

fn texts_over<A: Heap>(rt: &impl Abort, heap: A) {
    for text in ["160141", "1a0141", "1e020041", "0c0141"] {
        holds::<A, DisplayText<A>>(rt, heap, text);
    }
    holds::<A, VisibleStringAsn1<A>>(rt, heap, "1a02207e");
    refuses::<A, VisibleStringAsn1<A>>(rt, heap, "1a011f");
    refuses::<A, DisplayText<A>>(rt, heap, "130141");
}

#[test]
fn texts(rt: HostRuntime) {
    let heap = Refusing::new(rt.alloc());
    texts_over(&rt, &heap);
}

const MAPPINGS: Table<'static> = Table {
    read: &["300c300a06032a030406032a0305", "3000"],
    refused: &["3007300506032a0304", "300c310a06032a030406032a0305"],
};

const POLICY_CONSTRAINTS: Table<'static> = Table {
    read: &["3006800103810100", "3003810100", "3000"],
    refused: &["3006810100800103", "3003020103", "3005a003020103"],
};

fn mappings_over<A: Heap>(rt: &impl Abort, heap: A) {
    all_hold::<A, PolicyMappings<A>>(rt, heap, &MAPPINGS);
    holds::<A, PolicyMapping<A>>(rt, heap, "300a06032a030406032a0305");
    all_hold::<A, PolicyConstraints<A>>(rt, heap, &POLICY_CONSTRAINTS);
    holds::<A, InhibitAnyPolicy<A>>(rt, heap, "020102");
}

#[test]
fn mappings(rt: HostRuntime) {
    let heap = Refusing::new(rt.alloc());
    mappings_over(&rt, &heap);
}

const NAME_CONSTRAINTS: Table<'static> = Table {
    read: &[
        "301fa00f300d820b6578616d706c652e636f6da10c300a8708c0a80000ffff0000",
        "3000",
    ],
    refused: &["3002a200", "30028000", "3006a002a003"],
};

const SUBTREES: Table<'static> = Table {
    read: &["3003820161", "3006820161800100", "3009820161800100810103"],
    refused: &["3000", "3003800100", "3009820161810103800100"],
};

fn constraints_over<A: Heap>(rt: &impl Abort, heap: A) {
    all_hold::<A, NameConstraints<A>>(rt, heap, &NAME_CONSTRAINTS);
    all_hold::<A, GeneralSubtree<A>>(rt, heap, &SUBTREES);
    holds::<A, GeneralSubtrees<A>>(rt, heap, "30053003820161");
}

#[test]
fn constraints(rt: HostRuntime) {
    let heap = Refusing::new(rt.alloc());
    constraints_over(&rt, &heap);
}

const PERIODS: Table<'static> = Table {
    read: &[
        "3022800f32303236303130313030303030305a810f32303237303130313030303030305a",
        "3011810f32303237303130313030303030305a",
        "3000",
    ],
    refused: &[
        "3011180f32303236303130313030303030305a", // the type's own tag
        "3011800f32303236303133313030303030305b", // no time
    ],
};

fn periods_over<A: Heap>(rt: &impl Abort, heap: A) {
    all_hold::<A, PrivateKeyUsagePeriod>(rt, heap, &PERIODS);
}

#[test]
fn periods(rt: HostRuntime) {
    let heap = Refusing::new(rt.alloc());
    periods_over(&rt, &heap);
}
