//! RSA public keys.

ghost use Rattle.std.specs.Prelude.{refl};
ghost use Rattle.x509_der.specs.laws.Structure.{structure_lawful, structure_element};
ghost use Rattle.x509_keys.specs.RsaPublicKeys.{public_parts, public_base, rsa_public_key};
ghost use Rattle.x509_keys.specs.facts.RsaPublicKeys.{public_key_of, public_key_same};

use std::alloc::{Allocator, Global};
use x509_der::parts::{
    Field, Join, One, Output, Reader, Ref, SEQUENCE_TAG, Sequence, Structure, Tagged,
    pass_sequence, read_sequence,
};
use x509_der::{
    BitStringAsn1Container, CloneEq, FromDer, IntegerAsn1, ReadError, SameEq, ToDer, TooLong,
};

/// The public key of RSA: two numbers, each held as the content of an INTEGER. They aren't looked into.
///
/// # Encoding
/// `RSAPublicKey ::= SEQUENCE { modulus INTEGER, publicExponent INTEGER }` (RFC 8017, A.1.1). Any INTEGERs are read.
#[derive(Drop)]
#[derive_where(Debug, PartialEq, Eq)]
#[derive_where(Clone; A: Copy)]
pub struct RsaPublicKey<A: Allocator = Global> {
    /// The modulus n.
    pub modulus: IntegerAsn1<A>,
    /// The public exponent e.
    pub public_exponent: IntegerAsn1<A>,
}

/// An RSA public key in a BIT STRING without unused bits (RFC 3279, 2.3.1).
pub type EncapsulatedRsaPublicKey<A = Global> = BitStringAsn1Container<RsaPublicKey<A>>;

impl<A: Allocator + Copy> CloneEq for RsaPublicKey<A> {
    ghost use Rattle.std.proofs.Common.{rules};

    ghost exact = { Prim.search (rules) };
}

impl<A: Allocator> SameEq for RsaPublicKey<A> {
    fn decides() {
        IntegerAsn1::<A>::decides();
    }
}

/// The fields as they stand in the SEQUENCE, owned or borrowed.
type Nest<I> = Tagged<Sequence, Join<I, One<I>>>;

/// The SEQUENCE, owned.
type Fields<A> = Nest<IntegerAsn1<A>>;

/// The fields, owned.
type Inner<A> = Join<IntegerAsn1<A>, One<IntegerAsn1<A>>>;

impl<A: Allocator> ToDer for RsaPublicKey<A> {
    ghost strict = { λ v. public_base.strict (public_parts v) };

    fn put<O: Output>(&self, out: &mut [u8], at: usize) -> Result<usize, TooLong> {
        Nest::new(Join(Ref(&self.modulus), One(Ref(&self.public_exponent)))).put::<O>(out, at)
    }
}

impl<A: Allocator> Structure<Inner<A>> for RsaPublicKey<A> {
    ghost fields = { public_parts };

    fn from_fields(parts: Inner<A>) -> Self {
        let Join(modulus, One(public_exponent)) = parts;
        RsaPublicKey {
            modulus,
            public_exponent,
        }
    }

    ghost same = { public_key_same };

    ghost made = { λ f. (public_key_of f, refl) };
}

impl<A: Allocator + Copy> Field<A> for RsaPublicKey<A> {
    type Brief = ();

    ghost brief = { λ v. tt };

    ghost shape = { rsa_public_key };

    ghost lawful = { λ h. structure_lawful public_parts public_base public_key_same
        (⟦<Fields<A> as Field<A>>⟧.lawful (tt, tt, λ c h. refl)) };

    ghost elements = { λ h. structure_element public_parts public_base
        (⟦<Fields<A> as Field<A>>⟧.elements tt) };

    ghost agrees = { λ v. refl };

    fn starts(byte: u8) -> bool {
        byte == SEQUENCE_TAG
    }

    fn known(&self) {
        self.modulus.known();
        self.public_exponent.known();
    }

    fn read(alloc: A, reader: &mut Reader<'_, A>) -> Result<Self, ReadError> {
        read_sequence::<Self, Inner<A>, A>(alloc, reader)
    }

    fn pass(alloc: A, reader: &mut Reader<'_, A>) -> Result<(), ReadError> {
        pass_sequence::<Self, Inner<A>, A>(alloc, reader)
    }
}

impl<A: Allocator + Copy> FromDer<A> for RsaPublicKey<A> {
    ghost stands_alone = { (tt, tt) };
}
