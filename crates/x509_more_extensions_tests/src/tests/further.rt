//! Extensions by their object identifiers, as OpenSSL wrote them, and what is told of those that don't fit.

use super::qualified::{ATTRIBUTES, STATEMENTS, TEMPLATE};
use super::rows::{ACCESS, Heap, ISSUING_POINT, PLACES, POLICIES, bytes_of, value_of};
use picky_asn1_x509::Extension;
use refusing::Refusing;
use std::process::Abort;
use x509_der::{ObjectIdentifier, ReadError};
use x509_further_extensions::{FurtherKind, Outcome, view, view_octets};

/// The extension with this identifier and these octets, in hexadecimal.
fn viewed<A: Heap>(rt: &impl Abort, heap: A, arcs: &[u64], octets: &str) -> Option<Outcome<A>> {
    let identifier = ObjectIdentifier::from_arcs(heap, arcs).expect(rt, octets);
    let octets = bytes_of(rt, heap, octets);
    view_octets(heap, &identifier, &octets)
}

/// Kinds, their identifiers, and octets.
const VIEWS: &[(FurtherKind, &[u64], &str)] = &[
    (
        FurtherKind::AuthorityInfoAccess,
        &[1, 3, 6, 1, 5, 5, 7, 1, 1],
        ACCESS,
    ),
    (
        FurtherKind::SubjectInfoAccess,
        &[1, 3, 6, 1, 5, 5, 7, 1, 11],
        "3026302406082b060105050730058618687474703a2f2f7265706f2e6578616d706c652e636f6d2f",
    ),
    (
        FurtherKind::TlsFeature,
        &[1, 3, 6, 1, 5, 5, 7, 1, 24],
        "3006020105020111",
    ),
    (
        FurtherKind::OcspNoCheck,
        &[1, 3, 6, 1, 5, 5, 7, 48, 1, 5],
        "0500",
    ),
    (
        FurtherKind::PrivateKeyUsagePeriod,
        &[2, 5, 29, 16],
        "3022800f32303236303130313030303030305a810f32303237303130313030303030305a",
    ),
    (
        FurtherKind::IssuingDistributionPoint,
        &[2, 5, 29, 28],
        ISSUING_POINT,
    ),
    (
        FurtherKind::NameConstraints,
        &[2, 5, 29, 30],
        "301fa00f300d820b6578616d706c652e636f6da10c300a8708c0a80000ffff0000",
    ),
    (FurtherKind::CrlDistributionPoints, &[2, 5, 29, 31], PLACES),
    (FurtherKind::CertificatePolicies, &[2, 5, 29, 32], POLICIES),
    (
        FurtherKind::PolicyMappings,
        &[2, 5, 29, 33],
        "300c300a06032a030406032a0305",
    ),
    (
        FurtherKind::PolicyConstraints,
        &[2, 5, 29, 36],
        "3006800103810100",
    ),
    (
        FurtherKind::FreshestCrl,
        &[2, 5, 29, 46],
        "30283026a024a0228620687474703a2f2f63726c2e6578616d706c652e636f6d2f64656c74612e63726c",
    ),
    (FurtherKind::InhibitAnyPolicy, &[2, 5, 29, 54], "020102"),
    (
        FurtherKind::SignedTimestamps,
        &[1, 3, 6, 1, 4, 1, 11129, 2, 4, 2],
        "04020000",
    ),
    (
        FurtherKind::Poison,
        &[1, 3, 6, 1, 4, 1, 11129, 2, 4, 3],
        "0500",
    ),
    (
        FurtherKind::QcStatements,
        &[1, 3, 6, 1, 5, 5, 7, 1, 3],
        STATEMENTS,
    ),
    (
        FurtherKind::SubjectDirectoryAttributes,
        &[2, 5, 29, 9],
        ATTRIBUTES,
    ),
    (
        FurtherKind::NetscapeCertType,
        &[2, 16, 840, 1, 113730, 1, 1],
        "030202a4",
    ),
    (
        FurtherKind::NetscapeComment,
        &[2, 16, 840, 1, 113730, 1, 13],
        "16094120636f6d6d656e74",
    ),
    (
        FurtherKind::TemplateName,
        &[1, 3, 6, 1, 4, 1, 311, 20, 2],
        "1e0c0047007200fc006e00640065",
    ),
    (
        FurtherKind::CertificateTemplate,
        &[1, 3, 6, 1, 4, 1, 311, 21, 7],
        TEMPLATE,
    ),
];

/// Whether it is an extension of this kind, in DER.
fn is_of<A: Heap>(seen: Option<Outcome<A>>, kind: FurtherKind) -> bool {
    match seen {
        Some(Ok((extension, deviations))) => extension.kind() == kind && deviations.is_none(),
        _ => false,
    }
}

fn kinds_over<A: Heap>(rt: &impl Abort, heap: A) {
    for (kind, arcs, octets) in VIEWS {
        let seen = viewed(rt, heap, *arcs, *octets);
        assert!(rt; is_of(seen, *kind), "{octets}");
    }
    assert!(rt; viewed(rt, heap, &[2, 5, 29, 14], "0400").is_none());
}

#[test]
fn kinds(rt: HostRuntime) {
    let heap = Refusing::new(rt.alloc());
    kinds_over(&rt, &heap);
}

/// Identifiers, octets that don't fit, why, and how far they were read.
const MISFITS: &[(&[u64], &str, ReadError, usize)] = &[
    (&[1, 3, 6, 1, 5, 5, 7, 1, 1], "3100", ReadError::WrongTag, 0),
    (
        &[1, 3, 6, 1, 5, 5, 7, 48, 1, 5],
        "0500ff",
        ReadError::LeftOver,
        2,
    ),
    (&[2, 5, 29, 31], "30063004a0028600", ReadError::WrongTag, 6),
    (&[2, 5, 29, 54], "0200", ReadError::BadNumber, 2),
];

/// Whether it is refused so.
fn is_misfit<A: Heap>(seen: Option<Outcome<A>>, error: ReadError, at: usize) -> bool {
    match seen {
        Some(Err(refused)) => refused.error == error && refused.at == at,
        _ => false,
    }
}

fn misfits_over<A: Heap>(rt: &impl Abort, heap: A) {
    for (arcs, octets, error, at) in MISFITS {
        let seen = viewed(rt, heap, *arcs, *octets);
        assert!(rt; is_misfit(seen, *error, *at), "{octets}");
    }
}

#[test]
fn misfits(rt: HostRuntime) {
    let heap = Refusing::new(rt.alloc());
    misfits_over(&rt, &heap);
}

fn extensions_over<A: Heap>(rt: &impl Abort, heap: A) {
    let skipped: Extension<A> = value_of(rt, heap, "300a0603551d360403020102");
    assert!(rt; is_of(view(heap, &skipped), FurtherKind::InhibitAnyPolicy));
    let usage: Extension<A> = value_of(rt, heap, "300b0603551d0f0404030205a0");
    assert!(rt; view(heap, &usage).is_none());
}

#[test]
fn extensions(rt: HostRuntime) {
    let heap = Refusing::new(rt.alloc());
    extensions_over(&rt, &heap);
}
