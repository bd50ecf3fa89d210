//! Attributes of requests and private keys, with any elements as values.

ghost use Rattle.std.specs.Prelude.{◌≡◌, refl};
ghost use Rattle.x509_der.specs.laws.Structure.{structure_lawful, structure_element};
ghost use Rattle.x509_outline_parts.specs.AttributeValues.{values_parts, values_base, attribute_values};
ghost use Rattle.x509_outline_parts.specs.facts.AttributeValues.{values_of, values_same};

use std::alloc::{Allocator, Global};
use x509_der::parts::{
    Field, Join, One, Output, Reader, Ref, SEQUENCE_TAG, Sequence, Structure, Tagged, pass_fields,
    read_fields,
};
use x509_der::{
    Asn1RawDer, Asn1SetOf, CloneEq, FromDer, ObjectIdentifierAsn1, ReadError, SameEq, ToDer,
    TooLong,
};

/// An attribute of a request or of a private key, and its values, which are any elements and aren't looked into.
///
/// # Encoding
/// `Attribute ::= SEQUENCE { type OBJECT IDENTIFIER, values SET SIZE (1..MAX) OF ANY DEFINED BY type }` (RFC 2986,
/// 4.1). An empty set is read, and the order of the values is kept.
#[derive(Drop)]
#[derive_where(Debug, PartialEq, Eq)]
#[derive_where(Clone; A: Copy)]
pub struct AttributeValuesOutline<A: Allocator = Global> {
    /// Which attribute it is.
    pub attribute_type: ObjectIdentifierAsn1<A>,
    /// The values, with their tags.
    pub values: Asn1SetOf<Asn1RawDer<A>, A>,
}

/// The fields as they stand in the SEQUENCE, owned or borrowed.
type Nest<I, V> = Tagged<Sequence, Join<I, One<V>>>;

/// The values.
type Values<A> = Asn1SetOf<Asn1RawDer<A>, A>;

/// The fields, owned.
type Fields<A> = Nest<ObjectIdentifierAsn1<A>, Values<A>>;

/// The fields, borrowed.
type Written<'a, A> = Nest<Ref<'a, ObjectIdentifierAsn1<A>>, Ref<'a, Values<A>>>;

impl<A: Allocator + Copy> CloneEq for AttributeValuesOutline<A> {
    ghost use Rattle.std.proofs.Common.{rules};

    ghost exact = { Prim.search (rules) };
}

impl<A: Allocator> SameEq for AttributeValuesOutline<A> {
    fn decides() {
        ObjectIdentifierAsn1::<A>::decides();
        Values::<A>::decides();
    }
}

/// The fields of an attribute, to be written.
fn written<A: Allocator>(value: &AttributeValuesOutline<A>) -> Written<'_, A>
    ensures { result ≡ values_parts value.now }
{
    Tagged::new(Join(Ref(&value.attribute_type), One(Ref(&value.values))))
}

impl<A: Allocator> ToDer for AttributeValuesOutline<A> {
    ghost strict = { λ v. values_base.strict (values_parts v) };

    fn put<O: Output>(&self, out: &mut [u8], at: usize) -> Result<usize, TooLong> {
        written(self).put::<O>(out, at)
    }
}

impl<A: Allocator> Structure<Fields<A>> for AttributeValuesOutline<A> {
    ghost fields = { values_parts };

    fn from_fields(parts: Fields<A>) -> Self {
        let Join(attribute_type, One(values)) = parts.into_inner();
        AttributeValuesOutline {
            attribute_type,
            values,
        }
    }

    ghost same = { values_same };

    ghost made = { λ f. (values_of f, refl) };
}

impl<A: Allocator + Copy> Field<A> for AttributeValuesOutline<A> {
    type Brief = ();

    ghost shape = { attribute_values };

    ghost brief = { λ v. tt };

    ghost lawful = { λ h. structure_lawful values_parts values_base values_same
        (⟦<Fields<A> as Field<A>>⟧.lawful (tt, (tt, tt), λ c h. refl)) };

    ghost elements = { λ h. structure_element values_parts values_base
        (⟦<Fields<A> as Field<A>>⟧.elements tt) };

    ghost agrees = { λ v. refl };

    fn starts(byte: u8) -> bool {
        byte == SEQUENCE_TAG
    }

    fn known(&self) {
        self.attribute_type.known();
        Field::<A>::known(&self.values);
    }

    fn read(alloc: A, reader: &mut Reader<'_, A>) -> Result<Self, ReadError> {
        read_fields::<Self, Fields<A>, A>(alloc, reader)
    }

    fn pass(alloc: A, reader: &mut Reader<'_, A>) -> Result<(), ReadError> {
        pass_fields::<Self, Fields<A>, A>(alloc, reader)
    }
}

impl<A: Allocator + Copy> FromDer<A> for AttributeValuesOutline<A> {
    ghost stands_alone = { (tt, tt) };
}
