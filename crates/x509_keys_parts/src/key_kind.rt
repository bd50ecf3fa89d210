//! Which keys an algorithm has.

ghost use Rattle.std.specs.Prelude.{◌≡◌};
ghost use Rattle.std.specs.List.{list_any};
ghost use Rattle.x509_der.specs.ObjectIdentifier.{is_arcs};
ghost use Rattle.x509_keys_parts.specs.KeyKinds.{ed_algorithms, mldsa_algorithms, key_kind};

use crate::algorithm_parameters::{has_content, is_among};
use x509_der::parts::OidRef;

/// What an object identifier says of the keys of an algorithm.
#[derive(Debug, Drop, Clone, Copy, PartialEq, Eq)]
pub enum KeyKind {
    /// Those of RSA.
    Rsa,
    /// Those of elliptic curves, whose parameters say which curve.
    Ec,
    /// Those of Ed25519, X25519, Ed448 and X448.
    Ed,
    /// Those of ML-DSA.
    Mldsa,
    /// The object identifier isn't known, and so no key is read behind it.
    Unknown,
}

/// The contents of the object identifiers of Ed25519, X25519, Ed448 and X448.
const ED_CONTENTS: &[&[u8]] = &[
    &[0x2B, 0x65, 0x70],
    &[0x2B, 0x65, 0x6E],
    &[0x2B, 0x65, 0x71],
    &[0x2B, 0x65, 0x6F],
];

/// The contents of those of ML-DSA-44, ML-DSA-65 and ML-DSA-87.
const MLDSA_CONTENTS: &[&[u8]] = &[
    &[0x60, 0x86, 0x48, 1, 0x65, 3, 4, 3, 0x11],
    &[0x60, 0x86, 0x48, 1, 0x65, 3, 4, 3, 0x12],
    &[0x60, 0x86, 0x48, 1, 0x65, 3, 4, 3, 0x13],
];

/// Whether an object identifier is that of Ed25519, X25519, Ed448 or X448.
fn is_ed_algorithm(identifier: &OidRef<'_>) -> bool
    ensures { result ≡ list_any (is_arcs identifier.now) ed_algorithms }
{
    is_among(identifier, ED_CONTENTS)
}

/// Whether an object identifier is that of ML-DSA.
fn is_mldsa_algorithm(identifier: &OidRef<'_>) -> bool
    ensures { result ≡ list_any (is_arcs identifier.now) mldsa_algorithms }
{
    is_among(identifier, MLDSA_CONTENTS)
}

/// The kind of keys that an object identifier says. Contents are compared, and no arcs are decoded.
#[tactic(auto, unfolding(x509_der::specs::ObjectIdentifier::numbers_from))]
pub fn key_kind(identifier: &OidRef<'_>) -> KeyKind
    ensures { result ≡ key_kind identifier.now }
{
    if has_content(identifier, &[0x2A, 0x86, 0x48, 0x86, 0xF7, 0x0D, 1, 1, 1]) {
        KeyKind::Rsa
    } else if has_content(identifier, &[0x2A, 0x86, 0x48, 0xCE, 0x3D, 2, 1]) {
        KeyKind::Ec
    } else if is_ed_algorithm(identifier) {
        KeyKind::Ed
    } else if is_mldsa_algorithm(identifier) {
        KeyKind::Mldsa
    } else {
        KeyKind::Unknown
    }
}
