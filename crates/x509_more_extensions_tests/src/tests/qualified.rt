//! What is stated of qualified certificates, attributes of the subject, and extensions of Netscape and Microsoft, as OpenSSL
//! encoded them.

use super::rows::{Heap, Table, all_hold, value_of};
use refusing::Refusing;
use std::process::Abort;
use x509_qualified::{
    CertUse, CertificateTemplate, DirectoryAttribute, NetscapeCertType, NetscapeComment,
    QcStatement, QcStatements, SubjectDirectoryAttributes, TemplateName,
};

/// QcCompliance, QcType with id-etsi-qct-web, and QcRetentionPeriod 10 (ETSI EN 319 412-5).
pub(super) const STATEMENTS: &str =
    "302c3008060604008e4601013013060604008e4601063009060704008e46010603300b060604008e46010302010a";

/// countryOfCitizenship DE and FR.
pub(super) const ATTRIBUTES: &str = "3016301406082b0601050507090431081302444513024652";

/// The template 1.3.6.1.4.1.311.21.8.1.2, version 100.3.
pub(super) const TEMPLATE: &str = "3013060b2b06010401823715080102020164020103";

const STATEMENT_LISTS: Table<'static> = Table {
    read: &[STATEMENTS, "3000"],
    refused: &[
        "3100", // another tag
        "30023000", // no identifier
        "300c300a060604008e4601010500ff", // bytes behind
    ],
};

const SINGLE_STATEMENTS: Table<'static> = Table {
    read: &["3008060604008e460101", "300b060604008e46010302010a"],
    refused: &["300d060604008e46010302010a0500"], // two elements behind
};

const ATTRIBUTE_LISTS: Table<'static> = Table {
    read: &[ATTRIBUTES, "3000"],
    refused: &[
        "300c300a06082b06010505070904", // no values
        "3016301406082b0601050507090430081302444513024652", // a SEQUENCE of values
    ],
};

const TEMPLATES: Table<'static> = Table {
    read: &[
        TEMPLATE,
        "300d060b2b06010401823715080102",
        "3010060b2b06010401823715080102020164",
    ],
    refused: &[
        "3000", // no template
        "300f060b2b060104018237150801020500", // no number
    ],
};

fn all_over<A: Heap>(rt: &impl Abort, heap: A) {
    all_hold::<A, QcStatements<A>>(rt, heap, &STATEMENT_LISTS);
    all_hold::<A, QcStatement<A>>(rt, heap, &SINGLE_STATEMENTS);
    all_hold::<A, SubjectDirectoryAttributes<A>>(rt, heap, &ATTRIBUTE_LISTS);
    all_hold::<A, CertificateTemplate<A>>(rt, heap, &TEMPLATES);
}

#[test]
fn qualified(rt: HostRuntime) {
    let heap = Refusing::new(rt.alloc());
    all_over(&rt, &heap);
}

const TYPES: Table<'static> = Table {
    read: &["030202a4", "030100"],
    refused: &["0300", "030209a4"],
};

const COMMENTS: Table<'static> = Table {
    read: &["16094120636f6d6d656e74", "1600"],
    refused: &["0c00", "160180"],
};

const NAMES: Table<'static> = Table {
    read: &["1e0c0047007200fc006e00640065", "1e00"],
    refused: &["1e0100", "1600"],
};

fn texts_over<A: Heap>(rt: &impl Abort, heap: A) {
    all_hold::<A, NetscapeCertType<A>>(rt, heap, &TYPES);
    all_hold::<A, NetscapeComment<A>>(rt, heap, &COMMENTS);
    all_hold::<A, TemplateName<A>>(rt, heap, &NAMES);
}

#[test]
fn texts(rt: HostRuntime) {
    let heap = Refusing::new(rt.alloc());
    texts_over(&rt, &heap);
}

/// The uses that have bits.
const USES: [CertUse; 7] = [
    CertUse::SslClient,
    CertUse::SslServer,
    CertUse::Smime,
    CertUse::ObjectSigning,
    CertUse::SslCa,
    CertUse::SmimeCa,
    CertUse::ObjectSigningCa,
];

fn uses_over<A: Heap>(rt: &impl Abort, heap: A) {
    let flags: NetscapeCertType<A> = value_of(rt, heap, "030202a4");
    let set = [true, false, true, false, true, false, false];
    for (purpose, is_set) in USES.iter().zip(&set) {
        assert!(rt; flags.has(*purpose) == *is_set);
    }
    let none: NetscapeCertType<A> = value_of(rt, heap, "030100");
    assert!(rt; !none.has(CertUse::SslClient));
}

#[test]
fn uses(rt: HostRuntime) {
    let heap = Refusing::new(rt.alloc());
    uses_over(&rt, &heap);
}

fn held_over<A: Heap>(rt: &impl Abort, heap: A) {
    let attributes: SubjectDirectoryAttributes<A> = value_of(rt, heap, ATTRIBUTES);
    let count = attributes.0.get(0).map_or(
        0,
        |attribute: &DirectoryAttribute<A>| attribute.values.0.len(),
    );
    assert!(rt; count == 2);
    let template: CertificateTemplate<A> = value_of(rt, heap, TEMPLATE);
    assert!(rt;
        template
            .template_id
            .0
            .is_arcs(&[1, 3, 6, 1, 4, 1, 311, 21, 8, 1, 2])
    );
    let major = template.version.0.get(0).and_then(|number| number.to_u64());
    assert!(rt; major == Some(100));
}

#[test]
fn held(rt: HostRuntime) {
    let heap = Refusing::new(rt.alloc());
    held_over(&rt, &heap);
}
