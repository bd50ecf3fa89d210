//! PolicyMapping, written by `tools/structures.py` from `declarations.asn1`.

ghost use Rattle.std.specs.Prelude.{◌≡◌, refl};
ghost use Rattle.x509_der.specs.laws.Structure.{structure_lawful};
ghost use Rattle.x509_more_extensions.specs.PolicyMapping.{policy_mapping_parts, policy_mapping_inner, policy_mapping_content};
ghost use Rattle.x509_more_extensions.specs.facts.structures.PolicyMapping.{policy_mapping_of, policy_mapping_same};

use std::alloc::{Allocator, Global};
use x509_der::parts::{
    Content, Field, FromContent, Join, One, Output, OwnTag, Reader, Ref, Sequence, Structure,
    ToContent, pass_as_content, read_as_content,
};
use x509_der::{CloneEq, ObjectIdentifierAsn1, ReadError, SameEq, TooLong};

/// Two policies that an authority takes for equivalent (RFC 5280, 4.2.1.5).
///
/// # Encoding
/// `PolicyMapping ::= SEQUENCE { issuerDomainPolicy CertPolicyId, subjectDomainPolicy CertPolicyId }`.
#[derive(Drop)]
#[derive_where(Debug, PartialEq, Eq)]
#[derive_where(Clone; A: Copy)]
pub struct PolicyMapping<A: Allocator = Global> {
    /// The policy of the issuer.
    pub issuer_domain_policy: ObjectIdentifierAsn1<A>,
    /// The policy of the subject.
    pub subject_domain_policy: ObjectIdentifierAsn1<A>,
}

impl<A: Allocator + Copy> CloneEq for PolicyMapping<A> {
    ghost use Rattle.std.proofs.Common.{rules};

    ghost exact = { Prim.search (rules) };
}

impl<A: Allocator> SameEq for PolicyMapping<A> {
    fn decides() {
        ObjectIdentifierAsn1::<A>::decides();
    }
}

/// The fields in the SEQUENCE, owned or borrowed.
type Nest<B, C> = Join<B, One<C>>;

/// The fields, owned.
type Inner<A> = Nest<ObjectIdentifierAsn1<A>, ObjectIdentifierAsn1<A>>;

/// The fields, borrowed.
type Written<'a, A> = Nest<Ref<'a, ObjectIdentifierAsn1<A>>, Ref<'a, ObjectIdentifierAsn1<A>>>;

/// The fields of a value, to be written.
fn written<A: Allocator>(value: &PolicyMapping<A>) -> Written<'_, A>
    ensures { result ≡ policy_mapping_parts value.now }
{
    Join(
        Ref(&value.issuer_domain_policy),
        One(Ref(&value.subject_domain_policy)),
    )
}

impl<A: Allocator> ToContent for PolicyMapping<A> {
    ghost content = { λ v. policy_mapping_inner.strict (policy_mapping_parts v) };

    fn put_content<O: Output>(&self, out: &mut [u8], at: usize) -> Result<usize, TooLong> {
        written(self).put_content::<O>(out, at)
    }
}

impl<A: Allocator> Structure<Inner<A>> for PolicyMapping<A> {
    ghost fields = { policy_mapping_parts };

    fn from_fields(parts: Inner<A>) -> Self {
        let Join(issuer_domain_policy, One(subject_domain_policy)) = parts;
        PolicyMapping {
            issuer_domain_policy,
            subject_domain_policy,
        }
    }

    ghost same = { policy_mapping_same };

    ghost made = { λ f. (policy_mapping_of f, refl) };
}

impl<A: Allocator + Copy> Content<A> for PolicyMapping<A> {
    type ContentBrief = ();

    ghost content_shape = { policy_mapping_content };

    ghost content_brief = { λ v. tt };

    ghost content_lawful = { λ h. structure_lawful policy_mapping_parts policy_mapping_inner policy_mapping_same
        (⟦<Inner<A> as Content<A>>⟧.content_lawful (tt, tt, λ c h. refl)) };

    fn known_content(&self) {
        Field::<A>::known(&self.issuer_domain_policy);
        Field::<A>::known(&self.subject_domain_policy);
    }

    fn read_content(alloc: A, reader: &mut Reader<'_, A>) -> Result<Self, ReadError> {
        read_as_content::<Self, Inner<A>, A>(alloc, reader)
    }

    fn pass_content(alloc: A, reader: &mut Reader<'_, A>) -> Result<(), ReadError> {
        pass_as_content::<Self, Inner<A>, A>(alloc, reader)
    }

    ghost content_agrees = { λ v. refl };
}

impl<A: Allocator + Copy> FromContent<A> for PolicyMapping<A> {
    ghost content_always = { tt };
}

impl<A: Allocator> OwnTag for PolicyMapping<A> {
    type Tag = Sequence;
}
