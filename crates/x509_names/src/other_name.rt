//! Names of forms that are told by an object identifier.

ghost use Rattle.std.specs.Prelude.{◌≡◌, refl};
ghost use Rattle.x509_der.specs.laws.Structure.{structure_lawful};
ghost use Rattle.x509_names.specs.OtherNames.{other_parts, other_inner, other_content};
ghost use Rattle.x509_names.specs.facts.OtherNames.{other_of, other_same};

use std::alloc::{Allocator, Global};
use x509_der::parts::{
    Content, ContextConstructed, Field, FromContent, Join, One, Output, OwnTag, Reader, Ref,
    Sequence, Structure, Tagged, ToContent, pass_as_content, read_as_content,
};
use x509_der::{Asn1RawDer, CloneEq, ObjectIdentifierAsn1, ReadError, SameEq, TooLong};

/// A name of the form that an object identifier tells (RFC 5280, 4.2.1.6).
///
/// # Encoding
/// `OtherName ::= SEQUENCE { type-id OBJECT IDENTIFIER, value [0] EXPLICIT ANY DEFINED BY type-id }`. The value isn't
/// looked into: it is any one element.
#[derive(Drop)]
#[derive_where(Debug, PartialEq, Eq)]
#[derive_where(Clone; A: Copy)]
pub struct OtherName<A: Allocator = Global> {
    /// The form.
    pub type_id: ObjectIdentifierAsn1<A>,
    /// The name, without its tag 0.
    pub value: Asn1RawDer<A>,
}

impl<A: Allocator + Copy> CloneEq for OtherName<A> {
    ghost use Rattle.std.proofs.Common.{rules};

    ghost exact = { Prim.search (rules) };
}

impl<A: Allocator> SameEq for OtherName<A> {
    fn decides() {
        ObjectIdentifierAsn1::<A>::decides();
        Asn1RawDer::<A>::decides();
    }
}

/// The fields in the SEQUENCE, owned or borrowed.
type Nest<I, V> = Join<I, One<Tagged<ContextConstructed<0>, One<V>>>>;

/// The fields, owned.
type Inner<A> = Nest<ObjectIdentifierAsn1<A>, Asn1RawDer<A>>;

/// The fields, borrowed.
type Written<'a, A> = Nest<Ref<'a, ObjectIdentifierAsn1<A>>, Ref<'a, Asn1RawDer<A>>>;

/// The fields of a name, to be written.
fn written<A: Allocator>(value: &OtherName<A>) -> Written<'_, A>
    ensures { result ≡ other_parts value.now }
{
    let element = Tagged::new(One(Ref(&value.value)));
    Join(Ref(&value.type_id), One(element))
}

impl<A: Allocator> ToContent for OtherName<A> {
    ghost content = { λ v. other_inner.strict (other_parts v) };

    fn put_content<O: Output>(&self, out: &mut [u8], at: usize) -> Result<usize, TooLong> {
        written(self).put_content::<O>(out, at)
    }
}

impl<A: Allocator> Structure<Inner<A>> for OtherName<A> {
    ghost fields = { other_parts };

    fn from_fields(parts: Inner<A>) -> Self {
        let Join(type_id, One(value)) = parts;
        OtherName {
            type_id,
            value: value.into_value(),
        }
    }

    ghost same = { other_same };

    ghost made = { λ f. (other_of f, refl) };
}

impl<A: Allocator + Copy> Content<A> for OtherName<A> {
    type ContentBrief = ();

    ghost content_shape = { other_content };

    ghost content_brief = { λ v. tt };

    ghost content_lawful = { λ h. structure_lawful other_parts other_inner other_same
        (⟦<Inner<A> as Content<A>>⟧.content_lawful (tt, tt, λ c h. refl)) };

    fn known_content(&self) {
        self.type_id.known();
        self.value.known();
    }

    fn read_content(alloc: A, reader: &mut Reader<'_, A>) -> Result<Self, ReadError> {
        read_as_content::<Self, Inner<A>, A>(alloc, reader)
    }

    fn pass_content(alloc: A, reader: &mut Reader<'_, A>) -> Result<(), ReadError> {
        pass_as_content::<Self, Inner<A>, A>(alloc, reader)
    }

    ghost content_agrees = { λ v. refl };
}

impl<A: Allocator + Copy> FromContent<A> for OtherName<A> {
    ghost content_always = { tt };
}

impl<A: Allocator> OwnTag for OtherName<A> {
    type Tag = Sequence;
}
