//! Where the fields of a private key with its algorithm stand.

ghost use Rattle.std.specs.Prelude.{ℕ, List, IfOk, IfErr};
ghost use Rattle.x509_der.specs.Calls.{NoValue};
ghost use Rattle.x509_der.specs.Tally.{Tally};
ghost use Rattle.x509_keys.specs.PrivateKeyInfos.{private_key_info};
ghost use Rattle.x509_fields.specs.Found.{PrivateKeyWithin, Found};
ghost use Rattle.x509_fields.specs.Keys.{PrivateKeyIn};

use crate::span::Span;
use crate::walk::Walk;
use picky_asn1_x509::{AlgorithmIdentifier, PrivateKeyInfo, ReadError, check, laws};
use std::alloc::Allocator;

/// The tag of a public key behind a private one, `[1]`.
const PUBLIC_KEY_TAG: u8 = 0xA1;

/// Where the fields of a private key with its algorithm stand in an input: each with its tag and its length. What is not
/// there has no place (RFC 5958, 2).
#[derive(Clone, Copy, Debug, PartialEq, Eq)]
pub struct PrivateKeyInfoFields {
    /// `version INTEGER`.
    pub version: Span,
    /// `privateKeyAlgorithm AlgorithmIdentifier`.
    pub private_key_algorithm: Span,
    /// `privateKey OCTET STRING`.
    pub private_key: Span,
    /// One element that is not understood, such as `attributes [0]`.
    pub skipped: Option<Span>,
    /// `publicKey [1] BIT STRING OPTIONAL`.
    pub public_key: Option<Span>,
}

impl PrivateKeyInfoFields {
    /// Where the fields of a private key stand in the bytes that it was read from: in each span stand the bytes that
    /// encode the field. Takes no memory. Of bytes that don't encode the key the spans say nothing.
    pub fn of<A: Allocator + Copy>(value: &PrivateKeyInfo<A>, bytes: &[u8]) -> Self
        ensures { (y : Tally) → (private_key_info {A = A}).spelled value.now bytes.now y → PrivateKeyIn value.now result bytes.now y }
    {
        let _ = value;
        Self::within::<A>(bytes)
    }

    /// Where the fields of the private key stand that the bytes encode, whatever private key it is: no value is needed. Takes no
    /// memory. Of bytes that encode no private key the spans say nothing.
    pub fn within<A: Allocator + Copy>(bytes: &[u8]) -> Self
        ensures { PrivateKeyWithin A bytes.now result }
    {
        laws::private_key_fields::<A>();
        laws::spellings_are_lawful::<AlgorithmIdentifier<A>, A>();
        let mut walk = Walk::of(bytes).inside();
        let version = walk.next();
        let private_key_algorithm = walk.next();
        let private_key = walk.next();
        let skipped = walk.next_unless(PUBLIC_KEY_TAG);
        let public_key = walk.next_if(PUBLIC_KEY_TAG);
        PrivateKeyInfoFields {
            version,
            private_key_algorithm,
            private_key,
            skipped,
            public_key,
        }
    }

    /// Checks the bytes as `check` does, and answers where the fields of the private key stand that they encode. It builds no
    /// value and takes no memory.
    ///
    /// # Errors
    /// Refused exactly where the bytes encode no private key; never for memory.
    pub fn find<A: Allocator + Copy>(alloc: A, bytes: &[u8]) -> Result<Self, ReadError>
        ensures ok { IfOk result (Found (private_key_info {A = A}) PrivateKeyIn bytes.now) }
        ensures err { IfErr result (NoValue (private_key_info {A = A}) bytes.now) }
    {
        let _deviations = check::<PrivateKeyInfo<A>, A>(alloc, bytes)?;
        Ok(Self::within::<A>(bytes))
    }
}
