//! PolicyQualifierInfo, written by `tools/structures.py` from `declarations.asn1`.

ghost use Rattle.std.specs.Prelude.{◌≡◌, refl};
ghost use Rattle.x509_der.specs.laws.Structure.{structure_lawful};
ghost use Rattle.x509_policies.specs.PolicyQualifierInfo.{policy_qualifier_info_parts, policy_qualifier_info_inner, policy_qualifier_info_content};
ghost use Rattle.x509_policies.specs.facts.structures.PolicyQualifierInfo.{policy_qualifier_info_of, policy_qualifier_info_same};

use std::alloc::{Allocator, Global};
use x509_der::parts::{
    Content, Field, FromContent, Join, One, Output, OwnTag, Reader, Ref, Sequence, Structure,
    ToContent, pass_as_content, read_as_content,
};
use x509_der::{Asn1RawDer, CloneEq, ObjectIdentifierAsn1, ReadError, SameEq, TooLong};

/// Something that a policy says of itself, of a kind that an object identifier tells (RFC 5280, 4.2.1.4). The standard
/// has two kinds; others are read too, and what stands there isn't looked into.
///
/// # Encoding
/// `PolicyQualifierInfo ::= SEQUENCE { policyQualifierId PolicyQualifierId, qualifier ANY DEFINED BY policyQualifierId
/// }`.
#[derive(Drop)]
#[derive_where(Debug, PartialEq, Eq)]
#[derive_where(Clone; A: Copy)]
pub struct PolicyQualifierInfo<A: Allocator = Global> {
    /// The kind.
    pub policy_qualifier_id: ObjectIdentifierAsn1<A>,
    /// What it says, any one element.
    pub qualifier: Asn1RawDer<A>,
}

impl<A: Allocator + Copy> CloneEq for PolicyQualifierInfo<A> {
    ghost use Rattle.std.proofs.Common.{rules};

    ghost exact = { Prim.search (rules) };
}

impl<A: Allocator> SameEq for PolicyQualifierInfo<A> {
    fn decides() {
        ObjectIdentifierAsn1::<A>::decides();
        Asn1RawDer::<A>::decides();
    }
}

/// The fields in the SEQUENCE, owned or borrowed.
type Nest<B, C> = Join<B, One<C>>;

/// The fields, owned.
type Inner<A> = Nest<ObjectIdentifierAsn1<A>, Asn1RawDer<A>>;

/// The fields, borrowed.
type Written<'a, A> = Nest<Ref<'a, ObjectIdentifierAsn1<A>>, Ref<'a, Asn1RawDer<A>>>;

/// The fields of a value, to be written.
fn written<A: Allocator>(value: &PolicyQualifierInfo<A>) -> Written<'_, A>
    ensures { result ≡ policy_qualifier_info_parts value.now }
{
    Join(Ref(&value.policy_qualifier_id), One(Ref(&value.qualifier)))
}

impl<A: Allocator> ToContent for PolicyQualifierInfo<A> {
    ghost content = { λ v. policy_qualifier_info_inner.strict (policy_qualifier_info_parts v) };

    fn put_content<O: Output>(&self, out: &mut [u8], at: usize) -> Result<usize, TooLong> {
        written(self).put_content::<O>(out, at)
    }
}

impl<A: Allocator> Structure<Inner<A>> for PolicyQualifierInfo<A> {
    ghost fields = { policy_qualifier_info_parts };

    fn from_fields(parts: Inner<A>) -> Self {
        let Join(policy_qualifier_id, One(qualifier)) = parts;
        PolicyQualifierInfo {
            policy_qualifier_id,
            qualifier,
        }
    }

    ghost same = { policy_qualifier_info_same };

    ghost made = { λ f. (policy_qualifier_info_of f, refl) };
}

impl<A: Allocator + Copy> Content<A> for PolicyQualifierInfo<A> {
    type ContentBrief = ();

    ghost content_shape = { policy_qualifier_info_content };

    ghost content_brief = { λ v. tt };

    ghost content_lawful = { λ h. structure_lawful policy_qualifier_info_parts policy_qualifier_info_inner policy_qualifier_info_same
        (⟦<Inner<A> as Content<A>>⟧.content_lawful (tt, tt, λ c h. refl)) };

    fn known_content(&self) {
        Field::<A>::known(&self.policy_qualifier_id);
        Field::<A>::known(&self.qualifier);
    }

    fn read_content(alloc: A, reader: &mut Reader<'_, A>) -> Result<Self, ReadError> {
        read_as_content::<Self, Inner<A>, A>(alloc, reader)
    }

    fn pass_content(alloc: A, reader: &mut Reader<'_, A>) -> Result<(), ReadError> {
        pass_as_content::<Self, Inner<A>, A>(alloc, reader)
    }

    ghost content_agrees = { λ v. refl };
}

impl<A: Allocator + Copy> FromContent<A> for PolicyQualifierInfo<A> {
    ghost content_always = { tt };
}

impl<A: Allocator> OwnTag for PolicyQualifierInfo<A> {
    type Tag = Sequence;
}
