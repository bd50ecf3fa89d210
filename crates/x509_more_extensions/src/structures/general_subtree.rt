//! GeneralSubtree, written by `tools/structures.py` from `declarations.asn1`.

ghost use Rattle.std.specs.Prelude.{◌≡◌, refl};
ghost use Rattle.x509_der.specs.laws.Structure.{structure_lawful};
ghost use Rattle.x509_more_extensions.specs.GeneralSubtree.{general_subtree_parts, general_subtree_inner, general_subtree_content};
ghost use Rattle.x509_more_extensions.specs.facts.structures.GeneralSubtree.{general_subtree_of, general_subtree_same, general_subtree_minimum_apart};

use std::alloc::{Allocator, Global};
use x509_der::parts::{
    Content, ContextPrimitive, Field, FromContent, Join, One, Optional, Output, OwnTag, Reader,
    Ref, Sequence, Structure, Tagged, ToContent, known_there, pass_as_content, read_as_content,
};
use x509_der::{CloneEq, IntegerAsn1, ReadError, SameEq, TooLong};
use x509_names::GeneralName;

/// The names below a name (RFC 5280, 4.2.1.10). The standard has a minimum of 0 and no maximum; others are read too,
/// and so is a minimum of 0 that is encoded.
///
/// # Encoding
/// `GeneralSubtree ::= SEQUENCE { base GeneralName, minimum [0] BaseDistance DEFAULT 0, maximum [1] BaseDistance
/// OPTIONAL }`.
#[derive(Drop)]
#[derive_where(Debug, PartialEq, Eq)]
#[derive_where(Clone; A: Copy)]
pub struct GeneralSubtree<A: Allocator = Global> {
    /// The name that the others are below.
    pub base: GeneralName<A>,
    /// From how far below it on; 0 where it is absent.
    pub minimum: Option<IntegerAsn1<A>>,
    /// Up to how far below it.
    pub maximum: Option<IntegerAsn1<A>>,
}

impl<A: Allocator + Copy> CloneEq for GeneralSubtree<A> {
    ghost use Rattle.std.proofs.Common.{rules};

    ghost exact = { Prim.search (rules) };
}

impl<A: Allocator> SameEq for GeneralSubtree<A> {
    fn decides() {
        GeneralName::<A>::decides();
        Option::<IntegerAsn1<A>>::decides();
    }
}

/// The fields in the SEQUENCE, owned or borrowed.
type Nest<B, C, D> = Join<
    B,
    Join<Optional<Tagged<ContextPrimitive<0>, C>>, One<Optional<Tagged<ContextPrimitive<1>, D>>>>,
>;

/// The fields, owned.
type Inner<A> = Nest<GeneralName<A>, IntegerAsn1<A>, IntegerAsn1<A>>;

/// The fields, borrowed.
type Written<'a, A> = Nest<
    Ref<'a, GeneralName<A>>,
    Ref<'a, IntegerAsn1<A>>,
    Ref<'a, IntegerAsn1<A>>,
>;

/// The fields of a value, to be written.
fn written<A: Allocator>(value: &GeneralSubtree<A>) -> Written<'_, A>
    ensures { result ≡ general_subtree_parts value.now }
{
    Join(
        Ref(&value.base),
        Join(
            Optional::borrowed_content(&value.minimum),
            One(Optional::borrowed_content(&value.maximum)),
        ),
    )
}

impl<A: Allocator> ToContent for GeneralSubtree<A> {
    ghost content = { λ v. general_subtree_inner.strict (general_subtree_parts v) };

    fn put_content<O: Output>(&self, out: &mut [u8], at: usize) -> Result<usize, TooLong> {
        written(self).put_content::<O>(out, at)
    }
}

impl<A: Allocator> Structure<Inner<A>> for GeneralSubtree<A> {
    ghost fields = { general_subtree_parts };

    fn from_fields(parts: Inner<A>) -> Self {
        let Join(base, Join(minimum, One(maximum))) = parts;
        GeneralSubtree {
            base,
            minimum: minimum.into_inner(),
            maximum: maximum.into_inner(),
        }
    }

    ghost same = { general_subtree_same };

    ghost made = { λ f. (general_subtree_of f, refl) };
}

impl<A: Allocator + Copy> Content<A> for GeneralSubtree<A> {
    type ContentBrief = ();

    ghost content_shape = { general_subtree_content };

    ghost content_brief = { λ v. tt };

    ghost content_lawful = { λ h. structure_lawful general_subtree_parts general_subtree_inner general_subtree_same
        (⟦<Inner<A> as Content<A>>⟧.content_lawful (tt, ((tt, tt), (tt, tt), general_subtree_minimum_apart), λ c h. refl)) };

    fn known_content(&self) {
        Field::<A>::known(&self.base);
        known_there::<IntegerAsn1<A>, A>(&self.minimum);
        known_there::<IntegerAsn1<A>, A>(&self.maximum);
    }

    fn read_content(alloc: A, reader: &mut Reader<'_, A>) -> Result<Self, ReadError> {
        read_as_content::<Self, Inner<A>, A>(alloc, reader)
    }

    fn pass_content(alloc: A, reader: &mut Reader<'_, A>) -> Result<(), ReadError> {
        pass_as_content::<Self, Inner<A>, A>(alloc, reader)
    }

    ghost content_agrees = { λ v. refl };
}

impl<A: Allocator + Copy> FromContent<A> for GeneralSubtree<A> {
    ghost content_always = { tt };
}

impl<A: Allocator> OwnTag for GeneralSubtree<A> {
    type Tag = Sequence;
}
