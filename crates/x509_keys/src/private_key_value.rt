//! Private keys.

ghost use Rattle.std.specs.Prelude.{false};
ghost use Rattle.std.proofs.Common.{eqb};
ghost use Rattle.x509_der.specs.Reading.{Ready, Reads, Passes, thrifty};
ghost use Rattle.x509_keys_parts.specs.KeyKinds.{key_kind as kind_by};
ghost use Rattle.x509_keys.specs.PrivateKeyValues.{private_key_bytes, IsPrivateKey, private_by_kind};

use crate::ec_private_key::ECPrivateKey;
use crate::rsa_private_key::RsaPrivateKey;
use std::alloc::{Allocator, Global};
use x509_der::parts::{AnyDefinedBy, Field, OCTET_STRING_TAG, Output, Reader};
use x509_der::{
    CloneEq, OctetStringAsn1, OctetStringAsn1Container, ReadError, SameEq, ToDer, TooLong,
};
use x509_keys_parts::key_kind::{KeyKind, key_kind};
use x509_keys_parts::{AlgorithmIdentifier, EcParameters};

/// A secret of Ed25519, X25519, Ed448 or X448, in octets (RFC 8410, 7). They aren't looked into.
pub type EncapsulatedEcSecret<A = Global> = OctetStringAsn1<A>;

/// A private key. Which of them an algorithm has, its object identifier says.
///
/// # Encoding
/// An OCTET STRING around the key (RFC 5958, 2). It is read behind the algorithm identifier that chooses it, and not
/// alone.
#[derive(Drop)]
#[derive_where(Debug, PartialEq, Eq)]
#[derive_where(Clone; A: Copy)]
pub enum PrivateKeyValue<A: Allocator = Global> {
    /// Of RSA (RFC 8017, A.1.2).
    Rsa(OctetStringAsn1Container<RsaPrivateKey<A>>),
    /// Of an elliptic curve that the parameters say (RFC 5915, 3).
    EC(OctetStringAsn1Container<ECPrivateKey<A>>),
    /// Of Ed25519, X25519, Ed448 or X448 (RFC 8410, 7).
    ED(OctetStringAsn1Container<EncapsulatedEcSecret<A>>),
}

impl<A: Allocator + Copy> CloneEq for PrivateKeyValue<A> {
    ghost use Rattle.std.proofs.Common.{rules};

    ghost exact = { Prim.search (rules) };
}

impl<A: Allocator> SameEq for PrivateKeyValue<A> {
    fn decides() {
        OctetStringAsn1Container::<RsaPrivateKey<A>>::decides();
        OctetStringAsn1Container::<ECPrivateKey<A>>::decides();
        OctetStringAsn1Container::<EncapsulatedEcSecret<A>>::decides();
    }
}

impl<A: Allocator> ToDer for PrivateKeyValue<A> {
    ghost strict = { private_key_bytes };

    fn put<O: Output>(&self, out: &mut [u8], at: usize) -> Result<usize, TooLong> {
        match self {
            PrivateKeyValue::Rsa(key) => key.put::<O>(out, at),
            PrivateKeyValue::EC(key) => key.put::<O>(out, at),
            PrivateKeyValue::ED(secret) => secret.put::<O>(out, at),
        }
    }
}

/// Says that the key is one of its type. It does nothing when it runs.
fn known_key<A: Allocator + Copy>(key: &PrivateKeyValue<A>)
    ensures { IsPrivateKey key.now }
{
    match key {
        PrivateKeyValue::Rsa(key) => key.known(),
        PrivateKeyValue::EC(key) => key.known(),
        PrivateKeyValue::ED(secret) => secret.known(),
    }
}

/// Reads a key of a kind.
///
/// # Errors
/// Refused where the kind has no private keys or no key of it stands there, or memory is refused.
fn read_as<A: Allocator + Copy>(
    alloc: A,
    kind: KeyKind,
    reader: &mut Reader<'_, A>,
) -> Result<PrivateKeyValue<A>, ReadError>
    requires { Ready reader.old }
    ensures { Reads (private_by_kind kind) reader.old reader.new result }
{
    match kind {
        KeyKind::Rsa => Ok(PrivateKeyValue::Rsa(OctetStringAsn1Container::read(alloc, reader)?)),
        KeyKind::Ec => Ok(PrivateKeyValue::EC(OctetStringAsn1Container::read(alloc, reader)?)),
        KeyKind::Ed => Ok(PrivateKeyValue::ED(OctetStringAsn1Container::read(alloc, reader)?)),
        KeyKind::Mldsa | KeyKind::Unknown => Err(ReadError::Unsupported),
    }
}

/// Goes past a key of a kind.
///
/// # Errors
/// Refused where the kind has no private keys or no key of it stands there.
fn pass_as<A: Allocator + Copy>(
    alloc: A,
    kind: KeyKind,
    reader: &mut Reader<'_, A>,
) -> Result<(), ReadError>
    requires { Ready reader.old }
    ensures { Passes (thrifty (private_by_kind {A = A} kind)) (λ v. tt) reader.old reader.new result }
{
    match kind {
        KeyKind::Rsa => OctetStringAsn1Container::<RsaPrivateKey<A>>::pass(alloc, reader),
        KeyKind::Ec => OctetStringAsn1Container::<ECPrivateKey<A>>::pass(alloc, reader),
        KeyKind::Ed => OctetStringAsn1Container::<EncapsulatedEcSecret<A>>::pass(alloc, reader),
        KeyKind::Mldsa | KeyKind::Unknown => Err(ReadError::Unsupported),
    }
}

impl<A: Allocator + Copy> AnyDefinedBy<AlgorithmIdentifier<A>, A> for PrivateKeyValue<A> {
    ghost use Rattle.x509_keys.specs.facts.PrivateKeyValues.{private_family, private_agrees};

    type Kind = KeyKind;

    type BriefBehind = ();

    ghost kind = { λ a. kind_by a.algorithm };

    ghost brief_behind = { λ v. tt };

    ghost shapes = { λ a. private_by_kind (kind_by a.algorithm) };

    ghost starts = { λ b. eqb b 4 };

    ghost avoids = { λ b. false };

    ghost family = { private_family (⟦<OctetStringAsn1Container<RsaPrivateKey<A>> as Field<A>>⟧.lawful tt)
        (⟦<OctetStringAsn1Container<ECPrivateKey<A>> as Field<A>>⟧.lawful tt)
        (⟦<OctetStringAsn1Container<EncapsulatedEcSecret<A>> as Field<A>>⟧.lawful tt) };

    ghost shapes_agree = { λ a v. private_agrees (kind_by a.algorithm) v };

    fn starts(byte: u8) -> bool {
        byte == OCTET_STRING_TAG
    }

    fn known_behind(&self, _key: &AlgorithmIdentifier<A>) {
        known_key(self);
    }

    fn read_behind(
        alloc: A,
        key: &AlgorithmIdentifier<A>,
        reader: &mut Reader<'_, A>,
    ) -> Result<Self, ReadError> {
        read_as(alloc, key_kind(&key.oid().lent()), reader)
    }

    fn pass_key(alloc: A, reader: &mut Reader<'_, A>) -> Result<KeyKind, ReadError> {
        AlgorithmIdentifier::<A>::pass(alloc, reader)
    }

    fn pass_behind(alloc: A, chosen: KeyKind, reader: &mut Reader<'_, A>) -> Result<(), ReadError> {
        pass_as(alloc, chosen, reader)
    }
}
