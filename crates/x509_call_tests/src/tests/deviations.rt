//! The kinds of deviations, and their counts.

use super::checks::{bytes_of, is_so, same};
use x509_der::{Deviation, Deviations, Place, read_located};
use x509_keys::RawAlgorithmIdentifier;

/// The kinds, each with its number and its name.
const KINDS: [(Deviation, usize, &'static str); 10] = [
    (Deviation::RsaParametersAbsent, 1, "RSA parameters absent"),
    (
        Deviation::RawParametersAbsent,
        2,
        "algorithm parameters absent",
    ),
    (Deviation::HashNullAbsent, 3, "hash parameters absent"),
    (Deviation::SaltTooLarge, 4, "salt length too large"),
    (Deviation::VersionZeroSpelled, 5, "default version encoded"),
    (
        Deviation::EmptyExtensionsSpelled,
        6,
        "empty extensions encoded",
    ),
    (
        Deviation::CriticalFalseSpelled,
        7,
        "default criticality encoded",
    ),
    (
        Deviation::AuthorityKeyFieldOrder,
        8,
        "authority key fields repeated or out of order",
    ),
    (
        Deviation::GeneralNameForm,
        9,
        "general name under the other kind of tag",
    ),
    (
        Deviation::SkippedKeyElement,
        10,
        "element skipped behind a private key",
    ),
];

#[test]
fn kinds_are_numbered_and_named(rt: HostRuntime) {
    for (kind, number, name) in KINDS {
        is_so(&rt, Deviation::ALL[number - 1] == kind, name);
        same(&rt, &kind.number(), &number, name);
        is_so(&rt, kind.name() == name, name);
        let printed = kind.to_string(rt.alloc()).expect(&rt, "memory");
        is_so(&rt, printed.as_str() == name, name);
    }
}

#[test]
fn places_that_are_read_are_counted(rt: HostRuntime) {
    let alloc = rt.alloc();
    let bytes = bytes_of(&rt, alloc, "300a06082a864886f70d0209");
    let read = read_located::<RawAlgorithmIdentifier, _>(alloc, &bytes);
    let (_, places) = read.expect(&rt, "an algorithm");
    let place = Place {
        kind: Deviation::RawParametersAbsent,
        start: 0,
        end: bytes.len(),
    };
    is_so(&rt, places.first() == Some(&place), "the whole");
    let counts = Deviations::of_places(&places);
    same(
        &rt,
        &counts.pairs()[1],
        &(Deviation::RawParametersAbsent, 1),
        "pairs",
    );
    same(&rt, &counts.total(), &1, "in all");
}
