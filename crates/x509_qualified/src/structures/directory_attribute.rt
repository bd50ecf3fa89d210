//! DirectoryAttribute, written by `tools/structures.py` from `declarations.asn1`.

ghost use Rattle.std.specs.Prelude.{◌≡◌, refl};
ghost use Rattle.x509_der.specs.laws.Structure.{structure_lawful};
ghost use Rattle.x509_qualified.specs.DirectoryAttribute.{directory_attribute_parts, directory_attribute_inner, directory_attribute_content};
ghost use Rattle.x509_qualified.specs.facts.structures.DirectoryAttribute.{directory_attribute_of, directory_attribute_same};

use std::alloc::{Allocator, Global};
use x509_der::parts::{
    Content, Field, FromContent, Join, One, Output, OwnTag, Reader, Ref, Sequence, Structure,
    ToContent, pass_as_content, read_as_content,
};
use x509_der::{Asn1RawDer, Asn1SetOf, CloneEq, ObjectIdentifierAsn1, ReadError, SameEq, TooLong};

/// An attribute of the subject, with its values, which aren't looked into (RFC 5280, 4.2.1.8). An empty set is read
/// too, and the order of the values is kept.
///
/// # Encoding
/// `Attribute ::= SEQUENCE { type AttributeType, values SET OF AttributeValue }`.
#[derive(Drop)]
#[derive_where(Debug, PartialEq, Eq)]
#[derive_where(Clone; A: Copy)]
pub struct DirectoryAttribute<A: Allocator = Global> {
    /// Which attribute it is.
    pub attribute_type: ObjectIdentifierAsn1<A>,
    /// The values, with their tags.
    pub values: Asn1SetOf<Asn1RawDer<A>, A>,
}

impl<A: Allocator + Copy> CloneEq for DirectoryAttribute<A> {
    ghost use Rattle.std.proofs.Common.{rules};

    ghost exact = { Prim.search (rules) };
}

impl<A: Allocator> SameEq for DirectoryAttribute<A> {
    fn decides() {
        ObjectIdentifierAsn1::<A>::decides();
        Asn1SetOf::<Asn1RawDer<A>, A>::decides();
    }
}

/// The fields in the SEQUENCE, owned or borrowed.
type Nest<B, C> = Join<B, One<C>>;

/// The fields, owned.
type Inner<A> = Nest<ObjectIdentifierAsn1<A>, Asn1SetOf<Asn1RawDer<A>, A>>;

/// The fields, borrowed.
type Written<'a, A> = Nest<Ref<'a, ObjectIdentifierAsn1<A>>, Ref<'a, Asn1SetOf<Asn1RawDer<A>, A>>>;

/// The fields of a value, to be written.
fn written<A: Allocator>(value: &DirectoryAttribute<A>) -> Written<'_, A>
    ensures { result ≡ directory_attribute_parts value.now }
{
    Join(Ref(&value.attribute_type), One(Ref(&value.values)))
}

impl<A: Allocator> ToContent for DirectoryAttribute<A> {
    ghost content = { λ v. directory_attribute_inner.strict (directory_attribute_parts v) };

    fn put_content<O: Output>(&self, out: &mut [u8], at: usize) -> Result<usize, TooLong> {
        written(self).put_content::<O>(out, at)
    }
}

impl<A: Allocator> Structure<Inner<A>> for DirectoryAttribute<A> {
    ghost fields = { directory_attribute_parts };

    fn from_fields(parts: Inner<A>) -> Self {
        let Join(attribute_type, One(values)) = parts;
        DirectoryAttribute {
            attribute_type,
            values,
        }
    }

    ghost same = { directory_attribute_same };

    ghost made = { λ f. (directory_attribute_of f, refl) };
}

impl<A: Allocator + Copy> Content<A> for DirectoryAttribute<A> {
    type ContentBrief = ();

    ghost content_shape = { directory_attribute_content };

    ghost content_brief = { λ v. tt };

    ghost content_lawful = { λ h. structure_lawful directory_attribute_parts directory_attribute_inner directory_attribute_same
        (⟦<Inner<A> as Content<A>>⟧.content_lawful (tt, (tt, tt), λ c h. refl)) };

    fn known_content(&self) {
        Field::<A>::known(&self.attribute_type);
        Field::<A>::known(&self.values);
    }

    fn read_content(alloc: A, reader: &mut Reader<'_, A>) -> Result<Self, ReadError> {
        read_as_content::<Self, Inner<A>, A>(alloc, reader)
    }

    fn pass_content(alloc: A, reader: &mut Reader<'_, A>) -> Result<(), ReadError> {
        pass_as_content::<Self, Inner<A>, A>(alloc, reader)
    }

    ghost content_agrees = { λ v. refl };
}

impl<A: Allocator + Copy> FromContent<A> for DirectoryAttribute<A> {
    ghost content_always = { tt };
}

impl<A: Allocator> OwnTag for DirectoryAttribute<A> {
    type Tag = Sequence;
}
