//! NameConstraints, written by `tools/structures.py` from `declarations.asn1`.

ghost use Rattle.std.specs.Prelude.{◌≡◌, refl};
ghost use Rattle.x509_der.specs.laws.Structure.{structure_lawful};
ghost use Rattle.x509_more_extensions.specs.NameConstraints.{name_constraints_parts, name_constraints_inner, name_constraints_content};
ghost use Rattle.x509_more_extensions.specs.facts.structures.NameConstraints.{name_constraints_of, name_constraints_same, name_constraints_permitted_subtrees_apart};

use crate::structures::GeneralSubtrees;
use std::alloc::{Allocator, Global};
use x509_der::parts::{
    Content, ContextConstructed, FromContent, Join, One, Optional, Output, OwnTag, Reader, Ref,
    Sequence, Structure, Tagged, ToContent, known_there, pass_as_content, read_as_content,
};
use x509_der::{CloneEq, ReadError, SameEq, TooLong};

/// The names that certificates below an authority's may have (RFC 5280, 4.2.1.10). A structure without fields is read
/// too.
///
/// # Encoding
/// `NameConstraints ::= SEQUENCE { permittedSubtrees [0] GeneralSubtrees OPTIONAL, excludedSubtrees [1] GeneralSubtrees
/// OPTIONAL }`.
#[derive(Drop)]
#[derive_where(Debug, PartialEq, Eq)]
#[derive_where(Clone; A: Copy)]
pub struct NameConstraints<A: Allocator = Global> {
    /// Names that they may have.
    pub permitted_subtrees: Option<GeneralSubtrees<A>>,
    /// Names that they may not have.
    pub excluded_subtrees: Option<GeneralSubtrees<A>>,
}

impl<A: Allocator + Copy> CloneEq for NameConstraints<A> {
    ghost use Rattle.std.proofs.Common.{rules};

    ghost exact = { Prim.search (rules) };
}

impl<A: Allocator> SameEq for NameConstraints<A> {
    fn decides() {
        Option::<GeneralSubtrees<A>>::decides();
    }
}

/// The fields in the SEQUENCE, owned or borrowed.
type Nest<B, C> = Join<
    Optional<Tagged<ContextConstructed<0>, B>>,
    One<Optional<Tagged<ContextConstructed<1>, C>>>,
>;

/// The fields, owned.
type Inner<A> = Nest<GeneralSubtrees<A>, GeneralSubtrees<A>>;

/// The fields, borrowed.
type Written<'a, A> = Nest<Ref<'a, GeneralSubtrees<A>>, Ref<'a, GeneralSubtrees<A>>>;

/// The fields of a value, to be written.
fn written<A: Allocator>(value: &NameConstraints<A>) -> Written<'_, A>
    ensures { result ≡ name_constraints_parts value.now }
{
    Join(
        Optional::borrowed_content(&value.permitted_subtrees),
        One(Optional::borrowed_content(&value.excluded_subtrees)),
    )
}

impl<A: Allocator> ToContent for NameConstraints<A> {
    ghost content = { λ v. name_constraints_inner.strict (name_constraints_parts v) };

    fn put_content<O: Output>(&self, out: &mut [u8], at: usize) -> Result<usize, TooLong> {
        written(self).put_content::<O>(out, at)
    }
}

impl<A: Allocator> Structure<Inner<A>> for NameConstraints<A> {
    ghost fields = { name_constraints_parts };

    fn from_fields(parts: Inner<A>) -> Self {
        let Join(permitted_subtrees, One(excluded_subtrees)) = parts;
        NameConstraints {
            permitted_subtrees: permitted_subtrees.into_inner(),
            excluded_subtrees: excluded_subtrees.into_inner(),
        }
    }

    ghost same = { name_constraints_same };

    ghost made = { λ f. (name_constraints_of f, refl) };
}

impl<A: Allocator + Copy> Content<A> for NameConstraints<A> {
    type ContentBrief = ();

    ghost content_shape = { name_constraints_content };

    ghost content_brief = { λ v. tt };

    ghost content_lawful = { λ h. structure_lawful name_constraints_parts name_constraints_inner name_constraints_same
        (⟦<Inner<A> as Content<A>>⟧.content_lawful (((tt, tt), tt), ((tt, tt), tt), name_constraints_permitted_subtrees_apart)) };

    fn known_content(&self) {
        known_there::<GeneralSubtrees<A>, A>(&self.permitted_subtrees);
        known_there::<GeneralSubtrees<A>, A>(&self.excluded_subtrees);
    }

    fn read_content(alloc: A, reader: &mut Reader<'_, A>) -> Result<Self, ReadError> {
        read_as_content::<Self, Inner<A>, A>(alloc, reader)
    }

    fn pass_content(alloc: A, reader: &mut Reader<'_, A>) -> Result<(), ReadError> {
        pass_as_content::<Self, Inner<A>, A>(alloc, reader)
    }

    ghost content_agrees = { λ v. refl };
}

impl<A: Allocator + Copy> FromContent<A> for NameConstraints<A> {
    ghost content_always = { tt };
}

impl<A: Allocator> OwnTag for NameConstraints<A> {
    type Tag = Sequence;
}
