//! PolicyConstraints, written by `tools/structures.py` from `declarations.asn1`.

ghost use Rattle.std.specs.Prelude.{◌≡◌, refl};
ghost use Rattle.x509_der.specs.laws.Structure.{structure_lawful};
ghost use Rattle.x509_more_extensions.specs.PolicyConstraints.{policy_constraints_parts, policy_constraints_inner, policy_constraints_content};
ghost use Rattle.x509_more_extensions.specs.facts.structures.PolicyConstraints.{policy_constraints_of, policy_constraints_same, policy_constraints_require_explicit_policy_apart};

use std::alloc::{Allocator, Global};
use x509_der::parts::{
    Content, ContextPrimitive, FromContent, Join, One, Optional, Output, OwnTag, Reader, Ref,
    Sequence, Structure, Tagged, ToContent, known_there, pass_as_content, read_as_content,
};
use x509_der::{CloneEq, IntegerAsn1, ReadError, SameEq, TooLong};

/// From which certificate of a path on policies are demanded, and aren't mapped any more (RFC 5280, 4.2.1.11). Negative
/// numbers are read too, and a structure without fields.
///
/// # Encoding
/// `PolicyConstraints ::= SEQUENCE { requireExplicitPolicy [0] SkipCerts OPTIONAL, inhibitPolicyMapping [1] SkipCerts
/// OPTIONAL }`.
#[derive(Drop)]
#[derive_where(Debug, PartialEq, Eq)]
#[derive_where(Clone; A: Copy)]
pub struct PolicyConstraints<A: Allocator = Global> {
    /// How many certificates further on each wants an acceptable policy.
    pub require_explicit_policy: Option<IntegerAsn1<A>>,
    /// How many certificates further on no policy is mapped.
    pub inhibit_policy_mapping: Option<IntegerAsn1<A>>,
}

impl<A: Allocator + Copy> CloneEq for PolicyConstraints<A> {
    ghost use Rattle.std.proofs.Common.{rules};

    ghost exact = { Prim.search (rules) };
}

impl<A: Allocator> SameEq for PolicyConstraints<A> {
    fn decides() {
        Option::<IntegerAsn1<A>>::decides();
    }
}

/// The fields in the SEQUENCE, owned or borrowed.
type Nest<B, C> = Join<
    Optional<Tagged<ContextPrimitive<0>, B>>,
    One<Optional<Tagged<ContextPrimitive<1>, C>>>,
>;

/// The fields, owned.
type Inner<A> = Nest<IntegerAsn1<A>, IntegerAsn1<A>>;

/// The fields, borrowed.
type Written<'a, A> = Nest<Ref<'a, IntegerAsn1<A>>, Ref<'a, IntegerAsn1<A>>>;

/// The fields of a value, to be written.
fn written<A: Allocator>(value: &PolicyConstraints<A>) -> Written<'_, A>
    ensures { result ≡ policy_constraints_parts value.now }
{
    Join(
        Optional::borrowed_content(&value.require_explicit_policy),
        One(Optional::borrowed_content(&value.inhibit_policy_mapping)),
    )
}

impl<A: Allocator> ToContent for PolicyConstraints<A> {
    ghost content = { λ v. policy_constraints_inner.strict (policy_constraints_parts v) };

    fn put_content<O: Output>(&self, out: &mut [u8], at: usize) -> Result<usize, TooLong> {
        written(self).put_content::<O>(out, at)
    }
}

impl<A: Allocator> Structure<Inner<A>> for PolicyConstraints<A> {
    ghost fields = { policy_constraints_parts };

    fn from_fields(parts: Inner<A>) -> Self {
        let Join(require_explicit_policy, One(inhibit_policy_mapping)) = parts;
        PolicyConstraints {
            require_explicit_policy: require_explicit_policy.into_inner(),
            inhibit_policy_mapping: inhibit_policy_mapping.into_inner(),
        }
    }

    ghost same = { policy_constraints_same };

    ghost made = { λ f. (policy_constraints_of f, refl) };
}

impl<A: Allocator + Copy> Content<A> for PolicyConstraints<A> {
    type ContentBrief = ();

    ghost content_shape = { policy_constraints_content };

    ghost content_brief = { λ v. tt };

    ghost content_lawful = { λ h. structure_lawful policy_constraints_parts policy_constraints_inner policy_constraints_same
        (⟦<Inner<A> as Content<A>>⟧.content_lawful ((tt, tt), (tt, tt), policy_constraints_require_explicit_policy_apart)) };

    fn known_content(&self) {
        known_there::<IntegerAsn1<A>, A>(&self.require_explicit_policy);
        known_there::<IntegerAsn1<A>, A>(&self.inhibit_policy_mapping);
    }

    fn read_content(alloc: A, reader: &mut Reader<'_, A>) -> Result<Self, ReadError> {
        read_as_content::<Self, Inner<A>, A>(alloc, reader)
    }

    fn pass_content(alloc: A, reader: &mut Reader<'_, A>) -> Result<(), ReadError> {
        pass_as_content::<Self, Inner<A>, A>(alloc, reader)
    }

    ghost content_agrees = { λ v. refl };
}

impl<A: Allocator + Copy> FromContent<A> for PolicyConstraints<A> {
    ghost content_always = { tt };
}

impl<A: Allocator> OwnTag for PolicyConstraints<A> {
    type Tag = Sequence;
}
