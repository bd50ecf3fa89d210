//! Algorithms with any parameters, or none.

ghost use Rattle.std.specs.Prelude.{◌≡◌, refl};
ghost use Rattle.x509_der.specs.laws.Structure.{structure_lawful, structure_element};
ghost use Rattle.x509_outline_parts.specs.Algorithms.{algorithm_parts, algorithm_base, algorithm as algorithms};
ghost use Rattle.x509_outline_parts.specs.facts.Algorithms.{algorithm_of, algorithm_same};

use std::alloc::{Allocator, Global};
use x509_der::parts::{
    Field, Join, One, Optional, Output, Reader, Ref, SEQUENCE_TAG, Sequence, Structure, Tagged,
    known_there, pass_fields, read_fields,
};
use x509_der::{
    Asn1RawDer, CloneEq, FromDer, ObjectIdentifierAsn1, ReadError, SameEq, ToDer, TooLong,
};

/// An algorithm, known or not, and its parameters, which are any element and aren't looked into. Parameters that are
/// absent and those that are NULL are two values.
///
/// # Encoding
/// `AlgorithmIdentifier ::= SEQUENCE { algorithm OBJECT IDENTIFIER, parameters ANY DEFINED BY algorithm OPTIONAL }`
/// (RFC 5280, 4.1.1.2).
#[derive(Drop)]
#[derive_where(Debug, PartialEq, Eq)]
#[derive_where(Clone; A: Copy)]
pub struct AlgorithmOutline<A: Allocator = Global> {
    /// The algorithm.
    pub algorithm: ObjectIdentifierAsn1<A>,
    /// The parameters, where there are any.
    pub parameters: Option<Asn1RawDer<A>>,
}

/// The fields as they stand in the SEQUENCE, owned or borrowed.
type Nest<I, P> = Tagged<Sequence, Join<I, One<Optional<P>>>>;

/// The fields, owned.
type Fields<A> = Nest<ObjectIdentifierAsn1<A>, Asn1RawDer<A>>;

/// The fields, borrowed.
type Written<'a, A> = Nest<Ref<'a, ObjectIdentifierAsn1<A>>, Ref<'a, Asn1RawDer<A>>>;

impl<A: Allocator + Copy> CloneEq for AlgorithmOutline<A> {
    ghost use Rattle.std.proofs.Common.{rules};

    ghost exact = { Prim.search (rules) };
}

impl<A: Allocator> SameEq for AlgorithmOutline<A> {
    fn decides() {
        ObjectIdentifierAsn1::<A>::decides();
        Option::<Asn1RawDer<A>>::decides();
    }
}

/// The fields of an algorithm, to be written.
fn written<A: Allocator>(value: &AlgorithmOutline<A>) -> Written<'_, A>
    ensures { result ≡ algorithm_parts value.now }
{
    Tagged::new(Join(
        Ref(&value.algorithm),
        One(Optional::borrowed(&value.parameters)),
    ))
}

impl<A: Allocator> ToDer for AlgorithmOutline<A> {
    ghost strict = { λ v. algorithm_base.strict (algorithm_parts v) };

    fn put<O: Output>(&self, out: &mut [u8], at: usize) -> Result<usize, TooLong> {
        written(self).put::<O>(out, at)
    }
}

impl<A: Allocator> Structure<Fields<A>> for AlgorithmOutline<A> {
    ghost fields = { algorithm_parts };

    fn from_fields(parts: Fields<A>) -> Self {
        let Join(algorithm, One(parameters)) = parts.into_inner();
        AlgorithmOutline {
            algorithm,
            parameters: parameters.0,
        }
    }

    ghost same = { algorithm_same };

    ghost made = { λ f. (algorithm_of f, refl) };
}

impl<A: Allocator + Copy> Field<A> for AlgorithmOutline<A> {
    type Brief = ();

    ghost shape = { algorithms };

    ghost brief = { λ v. tt };

    ghost lawful = { λ h. structure_lawful algorithm_parts algorithm_base algorithm_same
        (⟦<Fields<A> as Field<A>>⟧.lawful (tt, (tt, tt), λ c h. refl)) };

    ghost elements = { λ h. structure_element algorithm_parts algorithm_base
        (⟦<Fields<A> as Field<A>>⟧.elements tt) };

    ghost agrees = { λ v. refl };

    fn starts(byte: u8) -> bool {
        byte == SEQUENCE_TAG
    }

    fn known(&self) {
        self.algorithm.known();
        known_there::<Asn1RawDer<A>, A>(&self.parameters);
    }

    fn read(alloc: A, reader: &mut Reader<'_, A>) -> Result<Self, ReadError> {
        read_fields::<Self, Fields<A>, A>(alloc, reader)
    }

    fn pass(alloc: A, reader: &mut Reader<'_, A>) -> Result<(), ReadError> {
        pass_fields::<Self, Fields<A>, A>(alloc, reader)
    }
}

impl<A: Allocator + Copy> FromDer<A> for AlgorithmOutline<A> {
    ghost stands_alone = { (tt, tt) };
}
