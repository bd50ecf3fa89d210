//! AES: its modes, and the parameters of its algorithm identifiers.

ghost use Rattle.std.specs.Prelude.{◌≡◌, refl};
ghost use Rattle.x509_der.specs.laws.Structure.{structure_lawful, structure_element};
ghost use Rattle.x509_keys_parts.specs.AesParameters.{aes_parts, aes_base, aes_parameters};
ghost use Rattle.x509_keys_parts.specs.facts.AesParameters.{aes_of, aes_whole, aes_same, octets_apart, null_apart};

use crate::aes_auth_enc::AesAuthEncParams;
use std::alloc::{Allocator, Global};
use x509_der::parts::{Choice, Field, Output, Reader, Ref, Structure, pass_fields, read_fields};
use x509_der::{CloneEq, FromDer, OctetStringAsn1, ReadError, SameEq, ToDer, TooLong};

/// A mode of operation of AES, for which each key size has an algorithm of its own.
#[derive(Debug, Drop, Clone, Copy, PartialEq, Eq)]
pub enum AesMode {
    /// Electronic codebook.
    Ecb,
    /// Cipher block chaining.
    Cbc,
    /// Output feedback.
    Ofb,
    /// Cipher feedback.
    Cfb,
    /// Key wrap.
    Wrap,
    /// Galois/counter mode.
    Gcm,
    /// Counter with cipher block chaining message authentication code.
    Ccm,
    /// Key wrap with padding.
    WrapPad,
}

impl SameEq for AesMode {
    fn decides() {}
}

/// The parameters of an AES algorithm that has some, told apart by the tag.
///
/// # Encoding
/// `CHOICE { NULL, AES-IV OCTET STRING, SEQUENCE { aes-nonce OCTET STRING, aes-ICVlen INTEGER } }`: NULL for a mode
/// that takes none, an initialization vector (RFC 3565, 4.1), or what authenticated encryption takes (RFC 5084, 3.1
/// and 3.2).
#[derive(Drop)]
#[derive_where(Debug, PartialEq, Eq)]
#[derive_where(Clone; A: Copy)]
pub enum AesParameters<A: Allocator = Global> {
    /// None are needed.
    Null,
    /// The initialization vector.
    InitializationVector(OctetStringAsn1<A>),
    /// A nonce and the length of the integrity check value.
    AuthenticatedEncryptionParameters(AesAuthEncParams<A>),
}

impl<A: Allocator + Copy> CloneEq for AesParameters<A> {
    ghost use Rattle.std.proofs.Common.{rules};

    ghost exact = { Prim.search (rules) };
}

impl<A: Allocator> SameEq for AesParameters<A> {
    fn decides() {
        OctetStringAsn1::<A>::decides();
        AesAuthEncParams::<A>::decides();
    }
}

/// The alternatives, owned or borrowed.
type Nest<N, O, P> = Choice<N, Choice<O, P>>;

/// The alternatives, owned.
type Fields<A> = Nest<(), OctetStringAsn1<A>, AesAuthEncParams<A>>;

/// The alternative that is written, borrowed.
type Written<'a, A> = Nest<(), Ref<'a, OctetStringAsn1<A>>, Ref<'a, AesAuthEncParams<A>>>;

/// The alternative of parameters, to be written.
fn written<A: Allocator>(value: &AesParameters<A>) -> Written<'_, A>
    ensures { result ≡ aes_parts value.now }
{
    match value {
        AesParameters::Null => Choice::First(()),
        AesParameters::InitializationVector(vector) => Choice::Second(Choice::First(Ref(vector))),
        AesParameters::AuthenticatedEncryptionParameters(parameters) => {
            Choice::Second(Choice::Second(Ref(parameters)))
        }
    }
}

impl<A: Allocator> ToDer for AesParameters<A> {
    ghost strict = { λ v. aes_base.strict (aes_parts v) };

    fn put<O: Output>(&self, out: &mut [u8], at: usize) -> Result<usize, TooLong> {
        written(self).put::<O>(out, at)
    }
}

impl<A: Allocator> Structure<Fields<A>> for AesParameters<A> {
    ghost fields = { aes_parts };

    fn from_fields(parts: Fields<A>) -> Self {
        match parts {
            Choice::First(()) => AesParameters::Null,
            Choice::Second(Choice::First(vector)) => AesParameters::InitializationVector(vector),
            Choice::Second(Choice::Second(parameters)) => {
                AesParameters::AuthenticatedEncryptionParameters(parameters)
            }
        }
    }

    ghost same = { aes_same };

    ghost made = { λ f. (aes_of f, aes_whole _ f) };
}

impl<A: Allocator + Copy> Field<A> for AesParameters<A> {
    type Brief = ();

    ghost shape = { aes_parameters };

    ghost brief = { λ v. tt };

    ghost lawful = { λ h. structure_lawful aes_parts aes_base aes_same
        (⟦<Fields<A> as Field<A>>⟧.lawful (
          (tt, ((tt, tt), ((tt, tt), octets_apart))),
          ((tt, (tt, tt)), null_apart),
        )) };

    ghost elements = { λ h. structure_element aes_parts aes_base
        (⟦<Fields<A> as Field<A>>⟧.elements (tt, (tt, tt))) };

    ghost agrees = { λ v. refl };

    fn starts(byte: u8) -> bool {
        <Fields<A> as Field<A>>::starts(byte)
    }

    fn known(&self) {
        match self {
            AesParameters::Null => {}
            AesParameters::InitializationVector(vector) => vector.known(),
            AesParameters::AuthenticatedEncryptionParameters(parameters) => parameters.known(),
        }
    }

    fn read(alloc: A, reader: &mut Reader<'_, A>) -> Result<Self, ReadError> {
        read_fields::<Self, Fields<A>, A>(alloc, reader)
    }

    fn pass(alloc: A, reader: &mut Reader<'_, A>) -> Result<(), ReadError> {
        pass_fields::<Self, Fields<A>, A>(alloc, reader)
    }
}

impl<A: Allocator + Copy> FromDer<A> for AesParameters<A> {
    ghost stands_alone = { (tt, tt) };
}
