//! DistributionPoint, written by `tools/structures.py` from `declarations.asn1`.

ghost use Rattle.std.specs.Prelude.{◌≡◌, refl};
ghost use Rattle.x509_der.specs.laws.Structure.{structure_lawful};
ghost use Rattle.x509_distribution_points.specs.DistributionPoint.{distribution_point_parts, distribution_point_inner, distribution_point_content};
ghost use Rattle.x509_distribution_points.specs.facts.structures.DistributionPoint.{distribution_point_of, distribution_point_same, distribution_point_distribution_point_apart, distribution_point_reasons_apart};

use crate::reason_flags::ReasonFlags;
use crate::structures::DistributionPointName;
use std::alloc::{Allocator, Global};
use x509_der::parts::{
    Content, ContextConstructed, ContextPrimitive, FromContent, Join, One, Optional, Output,
    OwnTag, Reader, Ref, Sequence, Structure, Tagged, ToContent, known_there, pass_as_content,
    read_as_content,
};
use x509_der::{CloneEq, ReadError, SameEq, TooLong};
use x509_names::GeneralNames;

/// A place of a revocation list, the reasons that it covers, and who issues it (RFC 5280, 4.2.1.13). A structure
/// without fields is read too.
///
/// # Encoding
/// `DistributionPoint ::= SEQUENCE { distributionPoint [0] DistributionPointName OPTIONAL, reasons [1] ReasonFlags
/// OPTIONAL, cRLIssuer [2] GeneralNames OPTIONAL }`.
#[derive(Drop)]
#[derive_where(Debug, PartialEq, Eq)]
#[derive_where(Clone; A: Copy)]
pub struct DistributionPoint<A: Allocator = Global> {
    /// Where the list is found.
    pub distribution_point: Option<DistributionPointName<A>>,
    /// The reasons for which it revokes; all where it is absent.
    pub reasons: Option<ReasonFlags<A>>,
    /// Who issues it; who issued the certificate where it is absent.
    pub crl_issuer: Option<GeneralNames<A>>,
}

impl<A: Allocator + Copy> CloneEq for DistributionPoint<A> {
    ghost use Rattle.std.proofs.Common.{rules};

    ghost exact = { Prim.search (rules) };
}

impl<A: Allocator> SameEq for DistributionPoint<A> {
    fn decides() {
        Option::<DistributionPointName<A>>::decides();
        Option::<ReasonFlags<A>>::decides();
        Option::<GeneralNames<A>>::decides();
    }
}

/// The fields in the SEQUENCE, owned or borrowed.
type Nest<B, C, D> = Join<
    Optional<Tagged<ContextConstructed<0>, One<B>>>,
    Join<Optional<Tagged<ContextPrimitive<1>, C>>, One<Optional<Tagged<ContextConstructed<2>, D>>>>,
>;

/// The fields, owned.
type Inner<A> = Nest<DistributionPointName<A>, ReasonFlags<A>, GeneralNames<A>>;

/// The fields, borrowed.
type Written<'a, A> = Nest<
    Ref<'a, DistributionPointName<A>>,
    Ref<'a, ReasonFlags<A>>,
    Ref<'a, GeneralNames<A>>,
>;

/// The fields of a value, to be written.
fn written<A: Allocator>(value: &DistributionPoint<A>) -> Written<'_, A>
    ensures { result ≡ distribution_point_parts value.now }
{
    Join(
        Optional::borrowed_element(&value.distribution_point),
        Join(
            Optional::borrowed_content(&value.reasons),
            One(Optional::borrowed_content(&value.crl_issuer)),
        ),
    )
}

impl<A: Allocator> ToContent for DistributionPoint<A> {
    ghost content = { λ v. distribution_point_inner.strict (distribution_point_parts v) };

    fn put_content<O: Output>(&self, out: &mut [u8], at: usize) -> Result<usize, TooLong> {
        written(self).put_content::<O>(out, at)
    }
}

impl<A: Allocator> Structure<Inner<A>> for DistributionPoint<A> {
    ghost fields = { distribution_point_parts };

    fn from_fields(parts: Inner<A>) -> Self {
        let Join(distribution_point, Join(reasons, One(crl_issuer))) = parts;
        DistributionPoint {
            distribution_point: distribution_point.into_value(),
            reasons: reasons.into_inner(),
            crl_issuer: crl_issuer.into_inner(),
        }
    }

    ghost same = { distribution_point_same };

    ghost made = { λ f. (distribution_point_of f, refl) };
}

impl<A: Allocator + Copy> Content<A> for DistributionPoint<A> {
    type ContentBrief = ();

    ghost content_shape = { distribution_point_content };

    ghost content_brief = { λ v. tt };

    ghost content_lawful = { λ h. structure_lawful distribution_point_parts distribution_point_inner distribution_point_same
        (⟦<Inner<A> as Content<A>>⟧.content_lawful ((tt, tt), ((tt, tt), ((tt, tt), tt), distribution_point_reasons_apart), distribution_point_distribution_point_apart)) };

    fn known_content(&self) {
        known_there::<DistributionPointName<A>, A>(&self.distribution_point);
        known_there::<ReasonFlags<A>, A>(&self.reasons);
        known_there::<GeneralNames<A>, A>(&self.crl_issuer);
    }

    fn read_content(alloc: A, reader: &mut Reader<'_, A>) -> Result<Self, ReadError> {
        read_as_content::<Self, Inner<A>, A>(alloc, reader)
    }

    fn pass_content(alloc: A, reader: &mut Reader<'_, A>) -> Result<(), ReadError> {
        pass_as_content::<Self, Inner<A>, A>(alloc, reader)
    }

    ghost content_agrees = { λ v. refl };
}

impl<A: Allocator + Copy> FromContent<A> for DistributionPoint<A> {
    ghost content_always = { tt };
}

impl<A: Allocator> OwnTag for DistributionPoint<A> {
    type Tag = Sequence;
}
