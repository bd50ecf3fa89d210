//! PolicyInformation, written by `tools/structures.py` from `declarations.asn1`.

ghost use Rattle.std.specs.Prelude.{◌≡◌, refl};
ghost use Rattle.x509_der.specs.laws.Structure.{structure_lawful};
ghost use Rattle.x509_policies.specs.PolicyInformation.{policy_information_parts, policy_information_inner, policy_information_content};
ghost use Rattle.x509_policies.specs.facts.structures.PolicyInformation.{policy_information_of, policy_information_same};

use crate::structures::PolicyQualifierInfo;
use std::alloc::{Allocator, Global};
use x509_der::parts::{
    Content, Field, FromContent, Join, One, Optional, Output, OwnTag, Reader, Ref, Sequence,
    Structure, ToContent, known_there, pass_as_content, read_as_content,
};
use x509_der::{Asn1SequenceOf, CloneEq, ObjectIdentifierAsn1, ReadError, SameEq, TooLong};

/// A policy under which a certificate is issued, and what it says of itself (RFC 5280, 4.2.1.4). An empty list of
/// qualifiers is read too.
///
/// # Encoding
/// `PolicyInformation ::= SEQUENCE { policyIdentifier CertPolicyId, policyQualifiers SEQUENCE SIZE (1..MAX) OF
/// PolicyQualifierInfo OPTIONAL }`.
#[derive(Drop)]
#[derive_where(Debug, PartialEq, Eq)]
#[derive_where(Clone; A: Copy)]
pub struct PolicyInformation<A: Allocator = Global> {
    /// The policy.
    pub policy_identifier: ObjectIdentifierAsn1<A>,
    /// What it says of itself.
    pub policy_qualifiers: Option<Asn1SequenceOf<PolicyQualifierInfo<A>, A>>,
}

impl<A: Allocator + Copy> CloneEq for PolicyInformation<A> {
    ghost use Rattle.std.proofs.Common.{rules};

    ghost exact = { Prim.search (rules) };
}

impl<A: Allocator> SameEq for PolicyInformation<A> {
    fn decides() {
        ObjectIdentifierAsn1::<A>::decides();
        Option::<Asn1SequenceOf<PolicyQualifierInfo<A>, A>>::decides();
    }
}

/// The fields in the SEQUENCE, owned or borrowed.
type Nest<B, C> = Join<B, One<Optional<C>>>;

/// The fields, owned.
type Inner<A> = Nest<ObjectIdentifierAsn1<A>, Asn1SequenceOf<PolicyQualifierInfo<A>, A>>;

/// The fields, borrowed.
type Written<'a, A> = Nest<
    Ref<'a, ObjectIdentifierAsn1<A>>,
    Ref<'a, Asn1SequenceOf<PolicyQualifierInfo<A>, A>>,
>;

/// The fields of a value, to be written.
fn written<A: Allocator>(value: &PolicyInformation<A>) -> Written<'_, A>
    ensures { result ≡ policy_information_parts value.now }
{
    Join(
        Ref(&value.policy_identifier),
        One(Optional::borrowed(&value.policy_qualifiers)),
    )
}

impl<A: Allocator> ToContent for PolicyInformation<A> {
    ghost content = { λ v. policy_information_inner.strict (policy_information_parts v) };

    fn put_content<O: Output>(&self, out: &mut [u8], at: usize) -> Result<usize, TooLong> {
        written(self).put_content::<O>(out, at)
    }
}

impl<A: Allocator> Structure<Inner<A>> for PolicyInformation<A> {
    ghost fields = { policy_information_parts };

    fn from_fields(parts: Inner<A>) -> Self {
        let Join(policy_identifier, One(policy_qualifiers)) = parts;
        PolicyInformation {
            policy_identifier,
            policy_qualifiers: policy_qualifiers.0,
        }
    }

    ghost same = { policy_information_same };

    ghost made = { λ f. (policy_information_of f, refl) };
}

impl<A: Allocator + Copy> Content<A> for PolicyInformation<A> {
    type ContentBrief = ();

    ghost content_shape = { policy_information_content };

    ghost content_brief = { λ v. tt };

    ghost content_lawful = { λ h. structure_lawful policy_information_parts policy_information_inner policy_information_same
        (⟦<Inner<A> as Content<A>>⟧.content_lawful (tt, ((tt, tt), tt), λ c h. refl)) };

    fn known_content(&self) {
        Field::<A>::known(&self.policy_identifier);
        known_there::<Asn1SequenceOf<PolicyQualifierInfo<A>, A>, A>(&self.policy_qualifiers);
    }

    fn read_content(alloc: A, reader: &mut Reader<'_, A>) -> Result<Self, ReadError> {
        read_as_content::<Self, Inner<A>, A>(alloc, reader)
    }

    fn pass_content(alloc: A, reader: &mut Reader<'_, A>) -> Result<(), ReadError> {
        pass_as_content::<Self, Inner<A>, A>(alloc, reader)
    }

    ghost content_agrees = { λ v. refl };
}

impl<A: Allocator + Copy> FromContent<A> for PolicyInformation<A> {
    ghost content_always = { tt };
}

impl<A: Allocator> OwnTag for PolicyInformation<A> {
    type Tag = Sequence;
}
