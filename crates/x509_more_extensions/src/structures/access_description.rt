//! AccessDescription, written by `tools/structures.py` from `declarations.asn1`.

ghost use Rattle.std.specs.Prelude.{◌≡◌, refl};
ghost use Rattle.x509_der.specs.laws.Structure.{structure_lawful};
ghost use Rattle.x509_more_extensions.specs.AccessDescription.{access_description_parts, access_description_inner, access_description_content};
ghost use Rattle.x509_more_extensions.specs.facts.structures.AccessDescription.{access_description_of, access_description_same};

use std::alloc::{Allocator, Global};
use x509_der::parts::{
    Content, Field, FromContent, Join, One, Output, OwnTag, Reader, Ref, Sequence, Structure,
    ToContent, pass_as_content, read_as_content,
};
use x509_der::{CloneEq, ObjectIdentifierAsn1, ReadError, SameEq, TooLong};
use x509_names::GeneralName;

/// Where a service is found, and which it is (RFC 5280, 4.2.2.1).
///
/// # Encoding
/// `AccessDescription ::= SEQUENCE { accessMethod OBJECT IDENTIFIER, accessLocation GeneralName }`.
#[derive(Drop)]
#[derive_where(Debug, PartialEq, Eq)]
#[derive_where(Clone; A: Copy)]
pub struct AccessDescription<A: Allocator = Global> {
    /// The service, or the form of what is found there.
    pub access_method: ObjectIdentifierAsn1<A>,
    /// Where it is found.
    pub access_location: GeneralName<A>,
}

impl<A: Allocator + Copy> CloneEq for AccessDescription<A> {
    ghost use Rattle.std.proofs.Common.{rules};

    ghost exact = { Prim.search (rules) };
}

impl<A: Allocator> SameEq for AccessDescription<A> {
    fn decides() {
        ObjectIdentifierAsn1::<A>::decides();
        GeneralName::<A>::decides();
    }
}

/// The fields in the SEQUENCE, owned or borrowed.
type Nest<B, C> = Join<B, One<C>>;

/// The fields, owned.
type Inner<A> = Nest<ObjectIdentifierAsn1<A>, GeneralName<A>>;

/// The fields, borrowed.
type Written<'a, A> = Nest<Ref<'a, ObjectIdentifierAsn1<A>>, Ref<'a, GeneralName<A>>>;

/// The fields of a value, to be written.
fn written<A: Allocator>(value: &AccessDescription<A>) -> Written<'_, A>
    ensures { result ≡ access_description_parts value.now }
{
    Join(Ref(&value.access_method), One(Ref(&value.access_location)))
}

impl<A: Allocator> ToContent for AccessDescription<A> {
    ghost content = { λ v. access_description_inner.strict (access_description_parts v) };

    fn put_content<O: Output>(&self, out: &mut [u8], at: usize) -> Result<usize, TooLong> {
        written(self).put_content::<O>(out, at)
    }
}

impl<A: Allocator> Structure<Inner<A>> for AccessDescription<A> {
    ghost fields = { access_description_parts };

    fn from_fields(parts: Inner<A>) -> Self {
        let Join(access_method, One(access_location)) = parts;
        AccessDescription {
            access_method,
            access_location,
        }
    }

    ghost same = { access_description_same };

    ghost made = { λ f. (access_description_of f, refl) };
}

impl<A: Allocator + Copy> Content<A> for AccessDescription<A> {
    type ContentBrief = ();

    ghost content_shape = { access_description_content };

    ghost content_brief = { λ v. tt };

    ghost content_lawful = { λ h. structure_lawful access_description_parts access_description_inner access_description_same
        (⟦<Inner<A> as Content<A>>⟧.content_lawful (tt, tt, λ c h. refl)) };

    fn known_content(&self) {
        Field::<A>::known(&self.access_method);
        Field::<A>::known(&self.access_location);
    }

    fn read_content(alloc: A, reader: &mut Reader<'_, A>) -> Result<Self, ReadError> {
        read_as_content::<Self, Inner<A>, A>(alloc, reader)
    }

    fn pass_content(alloc: A, reader: &mut Reader<'_, A>) -> Result<(), ReadError> {
        pass_as_content::<Self, Inner<A>, A>(alloc, reader)
    }

    ghost content_agrees = { λ v. refl };
}

impl<A: Allocator + Copy> FromContent<A> for AccessDescription<A> {
    ghost content_always = { tt };
}

impl<A: Allocator> OwnTag for AccessDescription<A> {
    type Tag = Sequence;
}
