//! The points where revocation lists are found.

ghost use Rattle.x509_flat_values.specs.Points.{PointTold, PointsFill, TakesIf};

use crate::answers::nowhere;
use crate::lists::{Placing, list_told};
use std::alloc::Allocator;
use x509_distribution_points::DistributionPoint;
use x509_fields::Span;
use x509_flat::status::Sized;
use x509_values::elements::{Element, Elements};

/// The tag of `distributionPoint [0] DistributionPointName`.
const NAME_TAG: u8 = 0xA0;

/// The tag of `reasons [1] ReasonFlags`.
const REASONS_TAG: u8 = 0x81;

/// The tag of `cRLIssuer [2] GeneralNames`.
const ISSUER_TAG: u8 = 0xA2;

/// Where a distribution point stands in an input (RFC 5280, 4.2.1.13). What isn't there stands at 0..0.
#[repr(C)]
#[derive(Clone, Copy, Debug, PartialEq, Eq)]
pub struct PointPlace {
    /// The content of `distributionPoint [0] DistributionPointName`, which is an element.
    pub name: Span,
    /// The content of `reasons [1] ReasonFlags`: the number of bits that don't count, and the bits.
    pub reasons: Span,
    /// The content of `cRLIssuer [2] GeneralNames`: the names, one behind another.
    pub issuer: Span,
}

/// Goes past the next element where it has the tag, and answers where its content stands; else the walk stays.
fn content_if(fields: &mut Elements<'_>, tag: u8) -> Span
    ensures { TakesIf tag fields.old fields.new result }
{
    let [first, ..] = fields.bytes() else {
        return nowhere();
    };
    if *first != tag {
        return nowhere();
    }
    fields.take().inside.span()
}

/// Distribution points, of which the fields are told.
struct Points;

impl<A: Allocator + Copy> Placing<DistributionPoint<A>, A> for Points {
    type Place = PointPlace;

    ghost tells = { PointTold };

    fn placed(item: Element<'_>) -> PointPlace {
        let mut fields = item.inside;
        let name = content_if(&mut fields, NAME_TAG);
        let reasons = content_if(&mut fields, REASONS_TAG);
        let issuer = content_if(&mut fields, ISSUER_TAG);
        PointPlace {
            name,
            reasons,
            issuer,
        }
    }
}

/// Writes where the distribution points stand that the octets of an extension's value encode (RFC 5280, 4.2.1.13 and 4.2.1.15), in
/// order, as far as there is room, and tells how many there are. Takes no memory.
pub fn distribution_points<A: Allocator + Copy>(
    alloc: A,
    value: &[u8],
    out: &mut [PointPlace],
) -> Sized
    ensures { PointsFill A value.now out.old out.new result.status result.size }
{
    list_told::<Points, DistributionPoint<A>, A>(alloc, value, out)
}
