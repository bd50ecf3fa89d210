//! Object identifiers.

use super::checks::{bytes_of, is_so};
use std::alloc::Global;
use std::process::Abort;
use x509_der::{ObjectIdentifier, ObjectIdentifierAsn1, from_bytes};

/// The identifier that the bytes in hexadecimal are read as.
fn identifier_of(rt: &impl Abort, alloc: Global, text: &str) -> ObjectIdentifier {
    let bytes = bytes_of(rt, alloc, text);
    let wrapped = from_bytes::<ObjectIdentifierAsn1, Global>(alloc, &bytes);
    ObjectIdentifier::from(wrapped.expect(rt, text))
}

/// Encodings in hexadecimal, and their two arcs.
const TWO_ARCS: &[(&str, u64, u64)] = &[
    ("06028837", 2, 999),
    ("060a81ffffffffffffffff7f", 2, 18446744073709551535),
    ("060100", 0, 0),
    ("06014f", 1, 39),
    ("060150", 2, 0),
];

#[test]
fn arcs_are_as_stated(rt: HostRuntime) {
    for (text, first, second) in TWO_ARCS {
        let value = identifier_of(&rt, rt.alloc(), *text);
        is_so(&rt, value.is_arcs(&[*first, *second]), *text);
        is_so(&rt, value.arcs().eq([*first, *second]), *text);
    }
}
