//! Public keys.

ghost use Rattle.std.specs.Prelude.{false};
ghost use Rattle.std.proofs.Common.{eqb};
ghost use Rattle.x509_der.specs.Reading.{Ready, Reads, Passes, thrifty};
ghost use Rattle.x509_keys_parts.specs.KeyKinds.{key_kind as kind_by};
ghost use Rattle.x509_keys.specs.PublicKeys.{public_key_bytes, IsPublicKey, public_by_kind};

use crate::rsa_public_key::{EncapsulatedRsaPublicKey, RsaPublicKey};
use std::alloc::{Allocator, Global};
use x509_der::parts::{AnyDefinedBy, BIT_STRING_TAG, Field, Output, Reader};
use x509_der::{BitStringAsn1, CloneEq, OctetStringAsn1, ReadError, SameEq, ToDer, TooLong};
use x509_keys_parts::AlgorithmIdentifier;
use x509_keys_parts::key_kind::{KeyKind, key_kind};

/// A point of an elliptic curve, in octets (RFC 5480, 2.2). They aren't looked into.
pub type EcPoint<A = Global> = OctetStringAsn1<A>;

/// A public key of an elliptic curve in a BIT STRING (RFC 5480, 2.2; RFC 8410, 4). Its bits aren't looked into.
pub type EncapsulatedEcPoint<A = Global> = BitStringAsn1<A>;

/// A public key of ML-DSA in a BIT STRING (RFC 9881, 4). Its bits aren't looked into.
pub type EncapsulatedMldsaPublicKey<A = Global> = BitStringAsn1<A>;

/// A public key. Which of them an algorithm has, its object identifier says.
///
/// # Encoding
/// A BIT STRING (RFC 5280, 4.1.2.7). It is read behind the algorithm identifier that chooses it, and not alone.
#[derive(Drop)]
#[derive_where(Debug, PartialEq, Eq)]
#[derive_where(Clone; A: Copy)]
pub enum PublicKey<A: Allocator = Global> {
    /// Of RSA, in a BIT STRING without unused bits.
    Rsa(EncapsulatedRsaPublicKey<A>),
    /// Of an elliptic curve that the parameters say.
    Ec(EncapsulatedEcPoint<A>),
    /// Of Ed25519, X25519, Ed448 or X448.
    Ed(EncapsulatedEcPoint<A>),
    /// Of ML-DSA.
    Mldsa(EncapsulatedMldsaPublicKey<A>),
}

impl<A: Allocator + Copy> CloneEq for PublicKey<A> {
    ghost use Rattle.std.proofs.Common.{rules};

    ghost exact = { Prim.search (rules) };
}

impl<A: Allocator> SameEq for PublicKey<A> {
    fn decides() {
        EncapsulatedRsaPublicKey::<A>::decides();
        EncapsulatedEcPoint::<A>::decides();
        EncapsulatedMldsaPublicKey::<A>::decides();
    }
}

impl<A: Allocator> ToDer for PublicKey<A> {
    ghost strict = { public_key_bytes };

    fn put<O: Output>(&self, out: &mut [u8], at: usize) -> Result<usize, TooLong> {
        match self {
            PublicKey::Rsa(key) => key.put::<O>(out, at),
            PublicKey::Ec(bits) | PublicKey::Ed(bits) | PublicKey::Mldsa(bits) => {
                bits.put::<O>(out, at)
            }
        }
    }
}

/// Says that the key is one of its type. It does nothing when it runs.
fn known_key<A: Allocator + Copy>(key: &PublicKey<A>)
    ensures { IsPublicKey key.now }
{
    match key {
        PublicKey::Rsa(key) => key.known(),
        PublicKey::Ec(bits) | PublicKey::Ed(bits) | PublicKey::Mldsa(bits) => bits.known(),
    }
}

/// Reads a key of a kind.
///
/// # Errors
/// Refused where the kind isn't known or no key of it stands there, or memory is refused.
fn read_as<A: Allocator + Copy>(
    alloc: A,
    kind: KeyKind,
    reader: &mut Reader<'_, A>,
) -> Result<PublicKey<A>, ReadError>
    requires { Ready reader.old }
    ensures { Reads (public_by_kind kind) reader.old reader.new result }
{
    match kind {
        KeyKind::Rsa => Ok(PublicKey::Rsa(EncapsulatedRsaPublicKey::read(alloc, reader)?)),
        KeyKind::Ec => Ok(PublicKey::Ec(EncapsulatedEcPoint::read(alloc, reader)?)),
        KeyKind::Ed => Ok(PublicKey::Ed(EncapsulatedEcPoint::read(alloc, reader)?)),
        KeyKind::Mldsa => Ok(PublicKey::Mldsa(EncapsulatedMldsaPublicKey::read(alloc, reader)?)),
        KeyKind::Unknown => Err(ReadError::Unsupported),
    }
}

/// Goes past a key of a kind.
///
/// # Errors
/// Refused where the kind isn't known or no key of it stands there.
fn pass_as<A: Allocator + Copy>(
    alloc: A,
    kind: KeyKind,
    reader: &mut Reader<'_, A>,
) -> Result<(), ReadError>
    requires { Ready reader.old }
    ensures { Passes (thrifty (public_by_kind {A = A} kind)) (λ v. tt) reader.old reader.new result }
{
    match kind {
        KeyKind::Rsa => EncapsulatedRsaPublicKey::<A>::pass(alloc, reader),
        KeyKind::Ec => EncapsulatedEcPoint::<A>::pass(alloc, reader),
        KeyKind::Ed => EncapsulatedEcPoint::<A>::pass(alloc, reader),
        KeyKind::Mldsa => EncapsulatedMldsaPublicKey::<A>::pass(alloc, reader),
        KeyKind::Unknown => Err(ReadError::Unsupported),
    }
}

impl<A: Allocator + Copy> AnyDefinedBy<AlgorithmIdentifier<A>, A> for PublicKey<A> {
    ghost use Rattle.x509_keys.specs.facts.PublicKeys.{public_family, public_agrees};

    type Kind = KeyKind;

    type BriefBehind = ();

    ghost kind = { λ a. kind_by a.algorithm };

    ghost brief_behind = { λ v. tt };

    ghost shapes = { λ a. public_by_kind (kind_by a.algorithm) };

    ghost starts = { λ b. eqb b 3 };

    ghost avoids = { λ b. false };

    ghost family = { public_family (⟦<EncapsulatedRsaPublicKey<A> as Field<A>>⟧.lawful tt)
        (⟦<BitStringAsn1<A> as Field<A>>⟧.lawful tt) };

    ghost shapes_agree = { λ a v. public_agrees (kind_by a.algorithm) v };

    fn starts(byte: u8) -> bool {
        byte == BIT_STRING_TAG
    }

    fn known_behind(&self, _key: &AlgorithmIdentifier<A>) {
        known_key(self);
    }

    fn read_behind(
        alloc: A,
        key: &AlgorithmIdentifier<A>,
        reader: &mut Reader<'_, A>,
    ) -> Result<Self, ReadError> {
        read_as(alloc, key_kind(&key.oid().lent()), reader)
    }

    fn pass_key(alloc: A, reader: &mut Reader<'_, A>) -> Result<KeyKind, ReadError> {
        AlgorithmIdentifier::<A>::pass(alloc, reader)
    }

    fn pass_behind(alloc: A, chosen: KeyKind, reader: &mut Reader<'_, A>) -> Result<(), ReadError> {
        pass_as(alloc, chosen, reader)
    }
}
