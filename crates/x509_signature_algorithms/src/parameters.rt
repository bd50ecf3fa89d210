//! Which parameters the algorithms of signatures have.

ghost use Rattle.std.specs.Prelude.{◌≡◌};
ghost use Rattle.std.specs.List.{list_any};
ghost use Rattle.x509_der.specs.ObjectIdentifier.{arcs_spelled, is_arcs};
ghost use Rattle.x509_signature_algorithms.specs.SignatureAlgorithms.{parameters_of, with_none, with_null};

use std::alloc::Allocator;
use x509_der::ObjectIdentifier;

/// The contents of the object identifiers of RSASSA-PKCS1-v1_5 with SHA-1, SHA-224, SHA-256, SHA-384, SHA-512 and SHA-3.
const WITH_NULL: &[&[u8]] = &[
    &[0x2A, 0x86, 0x48, 0x86, 0xF7, 0x0D, 1, 1, 5],
    &[0x2A, 0x86, 0x48, 0x86, 0xF7, 0x0D, 1, 1, 14],
    &[0x2A, 0x86, 0x48, 0x86, 0xF7, 0x0D, 1, 1, 11],
    &[0x2A, 0x86, 0x48, 0x86, 0xF7, 0x0D, 1, 1, 12],
    &[0x2A, 0x86, 0x48, 0x86, 0xF7, 0x0D, 1, 1, 13],
    &[0x60, 0x86, 0x48, 1, 0x65, 3, 4, 3, 13],
    &[0x60, 0x86, 0x48, 1, 0x65, 3, 4, 3, 14],
    &[0x60, 0x86, 0x48, 1, 0x65, 3, 4, 3, 15],
    &[0x60, 0x86, 0x48, 1, 0x65, 3, 4, 3, 16],
];

/// Those of ECDSA with SHA-256, SHA-384, SHA-512 and SHA-3, of Ed25519 and Ed448, ML-DSA, and DSA with SHA-1.
const WITH_NONE: &[&[u8]] = &[
    &[0x2A, 0x86, 0x48, 0xCE, 0x3D, 4, 3, 2],
    &[0x2A, 0x86, 0x48, 0xCE, 0x3D, 4, 3, 3],
    &[0x2A, 0x86, 0x48, 0xCE, 0x3D, 4, 3, 4],
    &[0x60, 0x86, 0x48, 1, 0x65, 3, 4, 3, 9],
    &[0x60, 0x86, 0x48, 1, 0x65, 3, 4, 3, 10],
    &[0x60, 0x86, 0x48, 1, 0x65, 3, 4, 3, 11],
    &[0x60, 0x86, 0x48, 1, 0x65, 3, 4, 3, 12],
    &[0x2B, 0x65, 112],
    &[0x2B, 0x65, 113],
    &[0x60, 0x86, 0x48, 1, 0x65, 3, 4, 3, 17],
    &[0x60, 0x86, 0x48, 1, 0x65, 3, 4, 3, 18],
    &[0x60, 0x86, 0x48, 1, 0x65, 3, 4, 3, 19],
    &[0x2A, 0x86, 0x48, 0xCE, 0x38, 4, 3],
];

/// Whether the content of an object identifier stands in a table.
fn is_among<A: Allocator>(algorithm: &ObjectIdentifier<A>, contents: &[&[u8]]) -> bool
    ensures { result ≡ list_any (λ content. is_arcs algorithm.now (arcs_spelled content.now)) contents.now }
{
    contents
        .iter()
        .any(|content| algorithm.is_content(*content))
}

/// Whether the algorithm has NULL.
fn has_null<A: Allocator>(algorithm: &ObjectIdentifier<A>) -> bool
    ensures { result ≡ list_any (is_arcs algorithm.now) with_null }
{
    is_among(algorithm, WITH_NULL)
}

/// Whether the algorithm has no parameters.
fn has_none<A: Allocator>(algorithm: &ObjectIdentifier<A>) -> bool
    ensures { result ≡ list_any (is_arcs algorithm.now) with_none }
{
    is_among(algorithm, WITH_NONE)
}

/// The parameters of an algorithm of signatures: NULL, or none; `None` where it isn't one of these, or has others.
pub(crate) fn parameters_of<A: Allocator>(algorithm: &ObjectIdentifier<A>) -> Option<Option<()>>
    ensures { result ≡ parameters_of algorithm.now }
{
    if has_null(algorithm) {
        Some(Some(()))
    } else if has_none(algorithm) {
        Some(None)
    } else {
        None
    }
}
