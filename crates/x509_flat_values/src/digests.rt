//! The digests of signature algorithms.

ghost use Rattle.std.specs.Prelude.{◌≡◌};
ghost use Rattle.x509_flat_values.specs.Digests.{digest_by as by_arcs, digest_number, digest_of_hash, sha3_by as sha3_by_arcs};
ghost use Rattle.x509_keys.specs.HashAlgorithms.{hash_of};

use crate::identifier::Identifier;

/// A hash function over which a signature is made.
#[derive(Clone, Copy, Debug, PartialEq, Eq)]
pub enum Digest {
    /// None that is said: that of an algorithm with its own, as Ed25519, or of no signature.
    None,
    /// SHA-1.
    Sha1,
    /// SHA-224.
    Sha224,
    /// SHA-256.
    Sha256,
    /// SHA-384.
    Sha384,
    /// SHA-512.
    Sha512,
    /// SHA3-224.
    Sha3With224,
    /// SHA3-256.
    Sha3With256,
    /// SHA3-384.
    Sha3With384,
    /// SHA3-512.
    Sha3With512,
}

impl Digest {
    /// The number, from 0 to 9 in the order above.
    pub fn number(self) -> u32
        ensures { result ≡ digest_number self }
    {
        match self {
            Digest::None => 0,
            Digest::Sha1 => 1,
            Digest::Sha224 => 2,
            Digest::Sha256 => 3,
            Digest::Sha384 => 4,
            Digest::Sha512 => 5,
            Digest::Sha3With224 => 6,
            Digest::Sha3With256 => 7,
            Digest::Sha3With384 => 8,
            Digest::Sha3With512 => 9,
        }
    }
}

/// The digest that an algorithm's identifier says (RFC 8017, A.2.4; RFC 5758, 3.2; RFC 3279, 2.2.2; NIST, Computer Security
/// Objects Register, sigAlgs).
#[tactic(auto, unfolding(x509_der::specs::ObjectIdentifier::numbers_from))]
pub fn digest_by(algorithm: &Identifier<'_>) -> Digest
    ensures { result ≡ by_arcs algorithm.now }
{
    if algorithm.is_content(&[0x2A, 0x86, 0x48, 0x86, 0xF7, 0x0D, 1, 1, 0x0B]) {
        Digest::Sha256
    } else if algorithm.is_content(&[0x2A, 0x86, 0x48, 0xCE, 0x3D, 4, 3, 2]) {
        Digest::Sha256
    } else if algorithm.is_content(&[0x2A, 0x86, 0x48, 0xCE, 0x3D, 4, 3, 3]) {
        Digest::Sha384
    } else if algorithm.is_content(&[0x2A, 0x86, 0x48, 0xCE, 0x3D, 4, 3, 4]) {
        Digest::Sha512
    } else if algorithm.is_content(&[0x2A, 0x86, 0x48, 0x86, 0xF7, 0x0D, 1, 1, 0x0C]) {
        Digest::Sha384
    } else if algorithm.is_content(&[0x2A, 0x86, 0x48, 0x86, 0xF7, 0x0D, 1, 1, 0x0D]) {
        Digest::Sha512
    } else if algorithm.is_content(&[0x2A, 0x86, 0x48, 0x86, 0xF7, 0x0D, 1, 1, 5]) {
        Digest::Sha1
    } else if algorithm.is_content(&[0x2A, 0x86, 0x48, 0x86, 0xF7, 0x0D, 1, 1, 0x0E]) {
        Digest::Sha224
    } else if algorithm.is_content(&[0x2A, 0x86, 0x48, 0xCE, 0x38, 4, 3]) {
        Digest::Sha1
    } else {
        sha3_by(algorithm)
    }
}

/// The same of the algorithms with SHA-3.
#[tactic(auto, unfolding(x509_der::specs::ObjectIdentifier::numbers_from))]
fn sha3_by(algorithm: &Identifier<'_>) -> Digest
    ensures { result ≡ sha3_by_arcs algorithm.now }
{
    if algorithm.is_content(&[0x60, 0x86, 0x48, 1, 0x65, 3, 4, 3, 9]) {
        Digest::Sha3With224
    } else if algorithm.is_content(&[0x60, 0x86, 0x48, 1, 0x65, 3, 4, 3, 0x0A]) {
        Digest::Sha3With256
    } else if algorithm.is_content(&[0x60, 0x86, 0x48, 1, 0x65, 3, 4, 3, 0x0B]) {
        Digest::Sha3With384
    } else if algorithm.is_content(&[0x60, 0x86, 0x48, 1, 0x65, 3, 4, 3, 0x0C]) {
        Digest::Sha3With512
    } else if algorithm.is_content(&[0x60, 0x86, 0x48, 1, 0x65, 3, 4, 3, 0x0D]) {
        Digest::Sha3With224
    } else if algorithm.is_content(&[0x60, 0x86, 0x48, 1, 0x65, 3, 4, 3, 0x0E]) {
        Digest::Sha3With256
    } else if algorithm.is_content(&[0x60, 0x86, 0x48, 1, 0x65, 3, 4, 3, 0x0F]) {
        Digest::Sha3With384
    } else if algorithm.is_content(&[0x60, 0x86, 0x48, 1, 0x65, 3, 4, 3, 0x10]) {
        Digest::Sha3With512
    } else {
        Digest::None
    }
}

/// The digest that an object identifier names (NIST, Computer Security Objects Register, hashAlgs).
#[tactic(auto, unfolding(x509_der::specs::ObjectIdentifier::numbers_from))]
pub fn digest_named(hash: &Identifier<'_>) -> Digest
    ensures { result ≡ digest_of_hash (hash_of hash.now) }
{
    if hash.is_content(&[0x60, 0x86, 0x48, 1, 0x65, 3, 4, 2, 4]) {
        Digest::Sha224
    } else if hash.is_content(&[0x60, 0x86, 0x48, 1, 0x65, 3, 4, 2, 1]) {
        Digest::Sha256
    } else if hash.is_content(&[0x60, 0x86, 0x48, 1, 0x65, 3, 4, 2, 2]) {
        Digest::Sha384
    } else if hash.is_content(&[0x60, 0x86, 0x48, 1, 0x65, 3, 4, 2, 3]) {
        Digest::Sha512
    } else if hash.is_content(&[0x60, 0x86, 0x48, 1, 0x65, 3, 4, 2, 7]) {
        Digest::Sha3With224
    } else if hash.is_content(&[0x60, 0x86, 0x48, 1, 0x65, 3, 4, 2, 8]) {
        Digest::Sha3With256
    } else if hash.is_content(&[0x60, 0x86, 0x48, 1, 0x65, 3, 4, 2, 9]) {
        Digest::Sha3With384
    } else if hash.is_content(&[0x60, 0x86, 0x48, 1, 0x65, 3, 4, 2, 0x0A]) {
        Digest::Sha3With512
    } else {
        Digest::None
    }
}
