//! Where the fields of a private key stand.

ghost use Rattle.std.specs.Prelude.{◌≡◌};
ghost use Rattle.x509_flat.specs.Fields.{flat_private_key, PrivateKeyTold, no_private_key, PrivateKeyOutlineTold};

use crate::span::FlatSpan;
use crate::status::Answer;
use std::alloc::Allocator;
use x509_fields::PrivateKeyInfoFields;
use x509_outline_fields::fields_of_private_key;

/// Where the fields of a private key stand, each with its tag and its length (RFC 5958, 2).
#[repr(C)]
#[derive(Clone, Copy, Debug, PartialEq, Eq)]
pub struct FlatPrivateKey {
    /// `version INTEGER`.
    pub version: FlatSpan,
    /// `privateKeyAlgorithm AlgorithmIdentifier`.
    pub private_key_algorithm: FlatSpan,
    /// `privateKey OCTET STRING`.
    pub private_key: FlatSpan,
    /// One element that is not understood, such as `attributes [0]`.
    pub skipped: FlatSpan,
    /// `publicKey [1] BIT STRING OPTIONAL`.
    pub public_key: FlatSpan,
}

impl FlatPrivateKey {
    /// The same places.
    fn of(places: PrivateKeyInfoFields) -> Self
        ensures { result ≡ flat_private_key places }
    {
        FlatPrivateKey {
            version: FlatSpan::of(places.version),
            private_key_algorithm: FlatSpan::of(places.private_key_algorithm),
            private_key: FlatSpan::of(places.private_key),
            skipped: FlatSpan::of_optional(places.skipped),
            public_key: FlatSpan::of_optional(places.public_key),
        }
    }

    /// All zeros.
    fn none() -> Self
        ensures { result ≡ no_private_key }
    {
        FlatPrivateKey {
            version: FlatSpan { start: 0, end: 0 },
            private_key_algorithm: FlatSpan { start: 0, end: 0 },
            private_key: FlatSpan { start: 0, end: 0 },
            skipped: FlatSpan { start: 0, end: 0 },
            public_key: FlatSpan { start: 0, end: 0 },
        }
    }
}

/// Where the fields of a private key stand. It takes no memory.
pub fn private_key_fields<A: Allocator + Copy>(alloc: A, bytes: &[u8]) -> Answer<FlatPrivateKey>
    ensures { PrivateKeyTold A bytes.now result.status result.fields }
{
    match PrivateKeyInfoFields::find(alloc, bytes) {
        Ok(places) => Answer::done(FlatPrivateKey::of(places)),
        Err(error) => Answer::refused(error, FlatPrivateKey::none()),
    }
}

/// The same of the outline of a private key, whose algorithms may be of any kind. It takes no memory.
pub fn private_key_outline_fields<A: Allocator + Copy>(
    alloc: A,
    bytes: &[u8],
) -> Answer<FlatPrivateKey>
    ensures { PrivateKeyOutlineTold A bytes.now result.status result.fields }
{
    match fields_of_private_key(alloc, bytes) {
        Ok(places) => Answer::done(FlatPrivateKey::of(places)),
        Err(error) => Answer::refused(error, FlatPrivateKey::none()),
    }
}
