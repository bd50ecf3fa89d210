//! Attributes of names, with any element as value.

ghost use Rattle.std.specs.Prelude.{◌≡◌, refl};
ghost use Rattle.x509_der.specs.laws.Structure.{structure_lawful, structure_element};
ghost use Rattle.x509_outline_parts.specs.Attributes.{attribute_parts, attribute_base, attribute};
ghost use Rattle.x509_outline_parts.specs.facts.Attributes.{attribute_of, attribute_same};

use std::alloc::{Allocator, Global};
use x509_der::parts::{
    Field, Join, One, Output, Reader, Ref, SEQUENCE_TAG, Sequence, Structure, Tagged, pass_fields,
    read_fields,
};
use x509_der::{
    Asn1RawDer, CloneEq, FromDer, ObjectIdentifierAsn1, ReadError, SameEq, ToDer, TooLong,
};

/// An attribute of a name, and its value, which is any element and isn't looked into: a string of any type, say.
///
/// # Encoding
/// `AttributeTypeAndValue ::= SEQUENCE { type OBJECT IDENTIFIER, value ANY DEFINED BY type }` (RFC 5280, 4.1.2.4).
#[derive(Drop)]
#[derive_where(Debug, PartialEq, Eq)]
#[derive_where(Clone; A: Copy)]
pub struct AttributeOutline<A: Allocator = Global> {
    /// Which attribute it is.
    pub attribute_type: ObjectIdentifierAsn1<A>,
    /// The value, with its tag.
    pub value: Asn1RawDer<A>,
}

/// The fields as they stand in the SEQUENCE, owned or borrowed.
type Nest<I, V> = Tagged<Sequence, Join<I, One<V>>>;

/// The fields, owned.
type Fields<A> = Nest<ObjectIdentifierAsn1<A>, Asn1RawDer<A>>;

/// The fields, borrowed.
type Written<'a, A> = Nest<Ref<'a, ObjectIdentifierAsn1<A>>, Ref<'a, Asn1RawDer<A>>>;

impl<A: Allocator + Copy> CloneEq for AttributeOutline<A> {
    ghost use Rattle.std.proofs.Common.{rules};

    ghost exact = { Prim.search (rules) };
}

impl<A: Allocator> SameEq for AttributeOutline<A> {
    fn decides() {
        ObjectIdentifierAsn1::<A>::decides();
        Asn1RawDer::<A>::decides();
    }
}

/// The fields of an attribute, to be written.
fn written<A: Allocator>(value: &AttributeOutline<A>) -> Written<'_, A>
    ensures { result ≡ attribute_parts value.now }
{
    Tagged::new(Join(Ref(&value.attribute_type), One(Ref(&value.value))))
}

impl<A: Allocator> ToDer for AttributeOutline<A> {
    ghost strict = { λ v. attribute_base.strict (attribute_parts v) };

    fn put<O: Output>(&self, out: &mut [u8], at: usize) -> Result<usize, TooLong> {
        written(self).put::<O>(out, at)
    }
}

impl<A: Allocator> Structure<Fields<A>> for AttributeOutline<A> {
    ghost fields = { attribute_parts };

    fn from_fields(parts: Fields<A>) -> Self {
        let Join(attribute_type, One(value)) = parts.into_inner();
        AttributeOutline {
            attribute_type,
            value,
        }
    }

    ghost same = { attribute_same };

    ghost made = { λ f. (attribute_of f, refl) };
}

impl<A: Allocator + Copy> Field<A> for AttributeOutline<A> {
    type Brief = ();

    ghost shape = { attribute };

    ghost brief = { λ v. tt };

    ghost lawful = { λ h. structure_lawful attribute_parts attribute_base attribute_same
        (⟦<Fields<A> as Field<A>>⟧.lawful (tt, tt, λ c h. refl)) };

    ghost elements = { λ h. structure_element attribute_parts attribute_base
        (⟦<Fields<A> as Field<A>>⟧.elements tt) };

    ghost agrees = { λ v. refl };

    fn starts(byte: u8) -> bool {
        byte == SEQUENCE_TAG
    }

    fn known(&self) {
        self.attribute_type.known();
        self.value.known();
    }

    fn read(alloc: A, reader: &mut Reader<'_, A>) -> Result<Self, ReadError> {
        read_fields::<Self, Fields<A>, A>(alloc, reader)
    }

    fn pass(alloc: A, reader: &mut Reader<'_, A>) -> Result<(), ReadError> {
        pass_fields::<Self, Fields<A>, A>(alloc, reader)
    }
}

impl<A: Allocator + Copy> FromDer<A> for AttributeOutline<A> {
    ghost stands_alone = { (tt, tt) };
}
