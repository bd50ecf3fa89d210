//! Public keys of any algorithm.

ghost use Rattle.std.specs.Prelude.{◌≡◌, refl};
ghost use Rattle.x509_der.specs.laws.Structure.{structure_lawful, structure_element};
ghost use Rattle.x509_outline_parts.specs.PublicKeys.{key_parts, key_base, public_key};
ghost use Rattle.x509_outline_parts.specs.facts.PublicKeys.{key_of, key_same};

use crate::algorithm_outline::AlgorithmOutline;
use std::alloc::{Allocator, Global};
use x509_der::parts::{
    Field, Join, One, Output, Reader, Ref, SEQUENCE_TAG, Sequence, Structure, Tagged,
    pass_sequence, put_element, read_sequence,
};
use x509_der::{BitStringAsn1, CloneEq, FromDer, ReadError, SameEq, ToDer, TooLong};

/// A public key of any algorithm, as its bits.
///
/// # Encoding
/// `SubjectPublicKeyInfo ::= SEQUENCE { algorithm AlgorithmIdentifier, subjectPublicKey BIT STRING }` (RFC 5280,
/// 4.1.2.7).
#[derive(Drop)]
#[derive_where(Debug, PartialEq, Eq)]
#[derive_where(Clone; A: Copy)]
pub struct PublicKeyOutline<A: Allocator = Global> {
    /// The algorithm.
    pub algorithm: AlgorithmOutline<A>,
    /// The bits of the key.
    pub subject_public_key: BitStringAsn1<A>,
}

/// The fields in the SEQUENCE, owned or borrowed.
type Nest<I, K> = Join<I, One<K>>;

/// The fields, owned.
type Inner<A> = Nest<AlgorithmOutline<A>, BitStringAsn1<A>>;

/// The SEQUENCE, owned.
type Fields<A> = Tagged<Sequence, Inner<A>>;

impl<A: Allocator + Copy> CloneEq for PublicKeyOutline<A> {
    ghost use Rattle.std.proofs.Common.{rules};

    ghost exact = { Prim.search (rules) };
}

impl<A: Allocator> SameEq for PublicKeyOutline<A> {
    fn decides() {
        AlgorithmOutline::<A>::decides();
        BitStringAsn1::<A>::decides();
    }
}

/// The fields of a key, to be written.
fn written<A: Allocator>(
    value: &PublicKeyOutline<A>,
) -> Nest<Ref<'_, AlgorithmOutline<A>>, Ref<'_, BitStringAsn1<A>>>
    ensures { result ≡ key_parts value.now }
{
    Join(Ref(&value.algorithm), One(Ref(&value.subject_public_key)))
}

impl<A: Allocator> ToDer for PublicKeyOutline<A> {
    ghost strict = { λ v. key_base.strict (key_parts v) };

    fn put<O: Output>(&self, out: &mut [u8], at: usize) -> Result<usize, TooLong> {
        put_element::<O, _>(SEQUENCE_TAG, &written(self), out, at)
    }
}

impl<A: Allocator> Structure<Inner<A>> for PublicKeyOutline<A> {
    ghost fields = { key_parts };

    fn from_fields(parts: Inner<A>) -> Self {
        let Join(algorithm, One(subject_public_key)) = parts;
        PublicKeyOutline {
            algorithm,
            subject_public_key,
        }
    }

    ghost same = { key_same };

    ghost made = { λ f. (key_of f, refl) };
}

impl<A: Allocator + Copy> Field<A> for PublicKeyOutline<A> {
    type Brief = ();

    ghost shape = { public_key };

    ghost brief = { λ v. tt };

    ghost lawful = { λ h. structure_lawful key_parts key_base key_same
        (⟦<Fields<A> as Field<A>>⟧.lawful (tt, tt, λ c h. refl)) };

    ghost elements = { λ h. structure_element key_parts key_base (⟦<Fields<A> as Field<A>>⟧.elements tt) };

    ghost agrees = { λ v. refl };

    fn starts(byte: u8) -> bool {
        byte == SEQUENCE_TAG
    }

    fn known(&self) {
        self.algorithm.known();
        self.subject_public_key.known();
    }

    fn read(alloc: A, reader: &mut Reader<'_, A>) -> Result<Self, ReadError> {
        read_sequence::<Self, Inner<A>, A>(alloc, reader)
    }

    fn pass(alloc: A, reader: &mut Reader<'_, A>) -> Result<(), ReadError> {
        pass_sequence::<Self, Inner<A>, A>(alloc, reader)
    }
}

impl<A: Allocator + Copy> FromDer<A> for PublicKeyOutline<A> {
    ghost stands_alone = { (tt, tt) };
}
