//! IssuingDistributionPoint, written by `tools/structures.py` from `declarations.asn1`.

ghost use Rattle.std.specs.Prelude.{◌≡◌, refl};
ghost use Rattle.x509_der.specs.laws.Structure.{structure_lawful};
ghost use Rattle.x509_distribution_points.specs.IssuingDistributionPoint.{issuing_distribution_point_parts, issuing_distribution_point_inner, issuing_distribution_point_content};
ghost use Rattle.x509_distribution_points.specs.facts.structures.IssuingDistributionPoint.{issuing_distribution_point_of, issuing_distribution_point_same, issuing_distribution_point_distribution_point_apart, issuing_distribution_point_only_contains_user_certs_apart, issuing_distribution_point_only_contains_ca_certs_apart, issuing_distribution_point_only_some_reasons_apart, issuing_distribution_point_indirect_crl_apart};

use crate::reason_flags::ReasonFlags;
use crate::structures::DistributionPointName;
use std::alloc::{Allocator, Global};
use x509_der::parts::{
    Content, ContextConstructed, ContextPrimitive, FromContent, Join, One, Optional, Output,
    OwnTag, Reader, Ref, Sequence, Structure, Tagged, ToContent, known_there, pass_as_content,
    read_as_content,
};
use x509_der::{CloneEq, ReadError, SameEq, TooLong};

/// Which certificates a revocation list covers, and where it is found (RFC 5280, 5.2.5). A flag that is absent is
/// unset; FALSE may be encoded too. That at most one of the three flags that begin with "only" is set isn't asked.
///
/// # Encoding
/// `IssuingDistributionPoint ::= SEQUENCE { distributionPoint [0] DistributionPointName OPTIONAL, onlyContainsUserCerts
/// [1] BOOLEAN DEFAULT FALSE, onlyContainsCACerts [2] BOOLEAN DEFAULT FALSE, onlySomeReasons [3] ReasonFlags OPTIONAL,
/// indirectCRL [4] BOOLEAN DEFAULT FALSE, onlyContainsAttributeCerts [5] BOOLEAN DEFAULT FALSE }`.
#[derive(Drop)]
#[derive_where(Debug, PartialEq, Eq)]
#[derive_where(Clone; A: Copy)]
pub struct IssuingDistributionPoint<A: Allocator = Global> {
    /// Where the list is found.
    pub distribution_point: Option<DistributionPointName<A>>,
    /// Whether it covers certificates of users alone.
    pub only_contains_user_certs: Option<bool>,
    /// Whether it covers certificates of authorities alone.
    pub only_contains_ca_certs: Option<bool>,
    /// The reasons that it covers; all where it is absent.
    pub only_some_reasons: Option<ReasonFlags<A>>,
    /// Whether it covers certificates of other issuers too.
    pub indirect_crl: Option<bool>,
    /// Whether it covers attribute certificates alone.
    pub only_contains_attribute_certs: Option<bool>,
}

impl<A: Allocator + Copy> CloneEq for IssuingDistributionPoint<A> {
    ghost use Rattle.std.proofs.Common.{rules};

    ghost exact = { Prim.search (rules) };
}

impl<A: Allocator> SameEq for IssuingDistributionPoint<A> {
    fn decides() {
        Option::<DistributionPointName<A>>::decides();
        Option::<bool>::decides();
        Option::<ReasonFlags<A>>::decides();
    }
}

/// The fields in the SEQUENCE, owned or borrowed.
type Nest<B, C, D, E, F, G> = Join<
    Optional<Tagged<ContextConstructed<0>, One<B>>>,
    Join<
        Optional<Tagged<ContextPrimitive<1>, C>>,
        Join<
            Optional<Tagged<ContextPrimitive<2>, D>>,
            Join<
                Optional<Tagged<ContextPrimitive<3>, E>>,
                Join<
                    Optional<Tagged<ContextPrimitive<4>, F>>,
                    One<Optional<Tagged<ContextPrimitive<5>, G>>>,
                >,
            >,
        >,
    >,
>;

/// The fields, owned.
type Inner<A> = Nest<DistributionPointName<A>, bool, bool, ReasonFlags<A>, bool, bool>;

/// The fields, borrowed.
type Written<'a, A> = Nest<
    Ref<'a, DistributionPointName<A>>,
    Ref<'a, bool>,
    Ref<'a, bool>,
    Ref<'a, ReasonFlags<A>>,
    Ref<'a, bool>,
    Ref<'a, bool>,
>;

/// The fields of a value, to be written.
fn written<A: Allocator>(value: &IssuingDistributionPoint<A>) -> Written<'_, A>
    ensures { result ≡ issuing_distribution_point_parts value.now }
{
    Join(
        Optional::borrowed_element(&value.distribution_point),
        Join(
            Optional::borrowed_content(&value.only_contains_user_certs),
            Join(
                Optional::borrowed_content(&value.only_contains_ca_certs),
                Join(
                    Optional::borrowed_content(&value.only_some_reasons),
                    Join(
                        Optional::borrowed_content(&value.indirect_crl),
                        One(Optional::borrowed_content(&value.only_contains_attribute_certs)),
                    ),
                ),
            ),
        ),
    )
}

impl<A: Allocator> ToContent for IssuingDistributionPoint<A> {
    ghost content = { λ v. issuing_distribution_point_inner.strict (issuing_distribution_point_parts v) };

    fn put_content<O: Output>(&self, out: &mut [u8], at: usize) -> Result<usize, TooLong> {
        written(self).put_content::<O>(out, at)
    }
}

impl<A: Allocator> Structure<Inner<A>> for IssuingDistributionPoint<A> {
    ghost fields = { issuing_distribution_point_parts };

    fn from_fields(parts: Inner<A>) -> Self {
        let Join(
            distribution_point,
            Join(
                only_contains_user_certs,
                Join(
                    only_contains_ca_certs,
                    Join(only_some_reasons, Join(indirect_crl, One(only_contains_attribute_certs))),
                ),
            ),
        ) = parts;
        IssuingDistributionPoint {
            distribution_point: distribution_point.into_value(),
            only_contains_user_certs: only_contains_user_certs.into_inner(),
            only_contains_ca_certs: only_contains_ca_certs.into_inner(),
            only_some_reasons: only_some_reasons.into_inner(),
            indirect_crl: indirect_crl.into_inner(),
            only_contains_attribute_certs: only_contains_attribute_certs.into_inner(),
        }
    }

    ghost same = { issuing_distribution_point_same };

    ghost made = { λ f. (issuing_distribution_point_of f, refl) };
}

impl<A: Allocator + Copy> Content<A> for IssuingDistributionPoint<A> {
    type ContentBrief = ();

    ghost content_shape = { issuing_distribution_point_content };

    ghost content_brief = { λ v. tt };

    ghost content_lawful = { λ h. structure_lawful issuing_distribution_point_parts issuing_distribution_point_inner issuing_distribution_point_same
        (⟦<Inner<A> as Content<A>>⟧.content_lawful ((tt, tt), ((tt, tt), ((tt, tt), ((tt, tt), ((tt, tt), (tt, tt), issuing_distribution_point_indirect_crl_apart), issuing_distribution_point_only_some_reasons_apart), issuing_distribution_point_only_contains_ca_certs_apart), issuing_distribution_point_only_contains_user_certs_apart), issuing_distribution_point_distribution_point_apart)) };

    fn known_content(&self) {
        known_there::<DistributionPointName<A>, A>(&self.distribution_point);
        known_there::<bool, A>(&self.only_contains_user_certs);
        known_there::<bool, A>(&self.only_contains_ca_certs);
        known_there::<ReasonFlags<A>, A>(&self.only_some_reasons);
        known_there::<bool, A>(&self.indirect_crl);
        known_there::<bool, A>(&self.only_contains_attribute_certs);
    }

    fn read_content(alloc: A, reader: &mut Reader<'_, A>) -> Result<Self, ReadError> {
        read_as_content::<Self, Inner<A>, A>(alloc, reader)
    }

    fn pass_content(alloc: A, reader: &mut Reader<'_, A>) -> Result<(), ReadError> {
        pass_as_content::<Self, Inner<A>, A>(alloc, reader)
    }

    ghost content_agrees = { λ v. refl };
}

impl<A: Allocator + Copy> FromContent<A> for IssuingDistributionPoint<A> {
    ghost content_always = { tt };
}

impl<A: Allocator> OwnTag for IssuingDistributionPoint<A> {
    type Tag = Sequence;
}
