//! Hash functions by name.

ghost use Rattle.std.specs.Prelude.{◌≡◌, IfOk, IfErr, None, Some};
ghost use Rattle.x509_der.specs.ObjectIdentifier.{dotted};
ghost use Rattle.x509_keys_parts.specs.ShaVariants.{sha_arcs, sha_of, sha_name};
ghost use Rattle.x509_keys_parts.specs.Unsupported.{Names};

use crate::errors::{AlgorithmError, unsupported};
use std::alloc::{AllocError, Allocator};
use x509_der::parts::from_lawful;
use x509_der::{ObjectIdentifier, SameEq};

/// A hash function, for makers of algorithm identifiers. It has no encoding of its own.
#[derive(Debug, Drop, Clone, Copy, PartialEq, Eq)]
pub enum ShaVariant {
    /// MD5 (RFC 1321).
    MD5,
    /// SHA-1.
    SHA1,
    /// SHA-224.
    SHA2_224,
    /// SHA-256.
    SHA2_256,
    /// SHA-384.
    SHA2_384,
    /// SHA-512.
    SHA2_512,
    /// SHA-512/224.
    SHA2_512_224,
    /// SHA-512/256.
    SHA2_512_256,
    /// SHA3-224.
    SHA3_224,
    /// SHA3-256.
    SHA3_256,
    /// SHA3-384.
    SHA3_384,
    /// SHA3-512.
    SHA3_512,
    /// SHAKE128.
    SHAKE128,
    /// SHAKE256.
    SHAKE256,
}

/// All hash functions.
const SHAS: &'static [ShaVariant] = &[
    ShaVariant::MD5,
    ShaVariant::SHA1,
    ShaVariant::SHA2_224,
    ShaVariant::SHA2_256,
    ShaVariant::SHA2_384,
    ShaVariant::SHA2_512,
    ShaVariant::SHA2_512_224,
    ShaVariant::SHA2_512_256,
    ShaVariant::SHA3_224,
    ShaVariant::SHA3_256,
    ShaVariant::SHA3_384,
    ShaVariant::SHA3_512,
    ShaVariant::SHAKE128,
    ShaVariant::SHAKE256,
];

/// The hash function that an object identifier names.
fn known<A: Allocator>(identifier: &ObjectIdentifier<A>) -> Option<ShaVariant>
    ensures { result ≡ sha_of identifier.now }
{
    for sha in SHAS {
        if identifier.is_arcs(sha.arcs()) {
            return Some(*sha);
        }
    }
    None
}

impl ShaVariant {
    /// The variant's name, as `SHA2_256`.
    pub fn name(self) -> &'static str
        ensures { result.now ≡ sha_name self }
    {
        match self {
            ShaVariant::MD5 => "MD5",
            ShaVariant::SHA1 => "SHA1",
            ShaVariant::SHA2_224 => "SHA2_224",
            ShaVariant::SHA2_256 => "SHA2_256",
            ShaVariant::SHA2_384 => "SHA2_384",
            ShaVariant::SHA2_512 => "SHA2_512",
            ShaVariant::SHA2_512_224 => "SHA2_512_224",
            ShaVariant::SHA2_512_256 => "SHA2_512_256",
            ShaVariant::SHA3_224 => "SHA3_224",
            ShaVariant::SHA3_256 => "SHA3_256",
            ShaVariant::SHA3_384 => "SHA3_384",
            ShaVariant::SHA3_512 => "SHA3_512",
            ShaVariant::SHAKE128 => "SHAKE128",
            ShaVariant::SHAKE256 => "SHAKE256",
        }
    }

    /// The arcs of its object identifier.
    fn arcs(self) -> &'static [u64]
        ensures { result.now ≡ sha_arcs self }
    {
        match self {
            ShaVariant::MD5 => &[1, 2, 840, 113549, 2, 5],
            ShaVariant::SHA1 => &[1, 3, 14, 3, 2, 26],
            ShaVariant::SHA2_224 => &[2, 16, 840, 1, 101, 3, 4, 2, 4],
            ShaVariant::SHA2_256 => &[2, 16, 840, 1, 101, 3, 4, 2, 1],
            ShaVariant::SHA2_384 => &[2, 16, 840, 1, 101, 3, 4, 2, 2],
            ShaVariant::SHA2_512 => &[2, 16, 840, 1, 101, 3, 4, 2, 3],
            ShaVariant::SHA2_512_224 => &[2, 16, 840, 1, 101, 3, 4, 2, 5],
            ShaVariant::SHA2_512_256 => &[2, 16, 840, 1, 101, 3, 4, 2, 6],
            ShaVariant::SHA3_224 => &[2, 16, 840, 1, 101, 3, 4, 2, 7],
            ShaVariant::SHA3_256 => &[2, 16, 840, 1, 101, 3, 4, 2, 8],
            ShaVariant::SHA3_384 => &[2, 16, 840, 1, 101, 3, 4, 2, 9],
            ShaVariant::SHA3_512 => &[2, 16, 840, 1, 101, 3, 4, 2, 10],
            ShaVariant::SHAKE128 => &[2, 16, 840, 1, 101, 3, 4, 2, 11],
            ShaVariant::SHAKE256 => &[2, 16, 840, 1, 101, 3, 4, 2, 12],
        }
    }

    /// Its object identifier, which is short enough to take no memory.
    ///
    /// # Errors
    /// `AllocError` where memory is refused.
    #[tactic(auto, using(crate::specs::facts::ShaVariantFacts::sha_lawful))]
    pub fn to_oid<A: Allocator>(self, alloc: A) -> Result<ObjectIdentifier<A>, AllocError>
        ensures { IfOk result (λ o. o ≡ sha_arcs self) }
    {
        from_lawful(alloc, self.arcs())
    }

    /// The hash function that an object identifier names. Takes memory only where there is none.
    ///
    /// # Errors
    /// Refused exactly where it names none of the fourteen: `Unsupported`, with the dotted text, or `OutOfMemory` where
    /// memory for that text is refused.
    pub fn from_oid<A: Allocator>(
        alloc: A,
        identifier: &ObjectIdentifier<A>,
    ) -> Result<Self, AlgorithmError<A>>
        ensures ok { IfOk result (λ sha. sha_of identifier.now ≡ Some sha) }
        ensures err { IfErr result (λ e. (sha_of identifier.now ≡ None) × Names e (dotted identifier.now)) }
    {
        match known(identifier) {
            Some(sha) => Ok(sha),
            None => Err(unsupported(alloc, identifier)),
        }
    }
}

impl SameEq for ShaVariant {
    fn decides() {}
}
