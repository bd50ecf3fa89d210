//! The names of a distribution point.

ghost use Rattle.std.specs.Prelude.{◌≡◌};
ghost use Rattle.x509_der.specs.Tally.{Tally};
ghost use Rattle.x509_distribution_points.specs.DistributionPointName.{distribution_point_name};
ghost use Rattle.x509_distribution_points.specs.declared.structures.distribution_point_name.DistributionPointName.{DistributionPointName as PointName};
ghost use Rattle.x509_fields.specs.Spans.{FieldIn, all_of};
ghost use Rattle.x509_values.specs.GeneralNames.{GeneralNameTold};
ghost use Rattle.x509_flat_values.specs.Points.{FullNamesFill, FullNamesTold};

use crate::lists::{Placing, each_told};
use crate::requests::front_of;
use picky_asn1_x509::check;
use std::alloc::Allocator;
use x509_der::laws::spellings_are_lawful;
use x509_distribution_points::DistributionPointName;
use x509_fields::Span;
use x509_flat::status::{Sized, unsized_of};
use x509_names::GeneralName;
use x509_values::GeneralNamePlace;
use x509_values::elements::{Element, Elements};

/// The tag of `fullName [0] GeneralNames`.
const FULL_NAME_TAG: u8 = 0xA0;

/// General names, of which the tag and the content are told.
struct Names;

impl<A: Allocator + Copy> Placing<GeneralName<A>, A> for Names {
    type Place = GeneralNamePlace;

    ghost tells = { GeneralNameTold };

    fn placed(item: Element<'_>) -> GeneralNamePlace {
        GeneralNamePlace {
            tag: item.tag,
            content: item.inside.span(),
        }
    }
}

/// Writes where the general names stand of the point's name that the bytes encode, whatever name it is, and answers how many there
/// are.
fn names_of<A: Allocator + Copy>(bytes: &[u8], out: &mut [GeneralNamePlace]) -> usize
    ensures { (v : PointName A) (whole : Tally) (f : FieldIn distribution_point_name v (all_of bytes.now) bytes.now whole) →
        FullNamesTold v 0 f.slice bytes.now whole out.old out.new result }
{
    spellings_are_lawful::<DistributionPointName<A>, A>();
    let whole = Span {
        start: 0,
        end: bytes.len(),
    };
    let mut choice = Elements::over(bytes, whole);
    let name = choice.take();
    if name.tag != FULL_NAME_TAG {
        return 0;
    }
    each_told::<Names, GeneralName<A>, A>(name.inside, out)
}

/// Writes where the general names stand of a distribution point's name, which the bytes encode (RFC 5280, 4.2.1.13), in order, as
/// far as there is room, and tells how many there are: none of a name that is relative to that of the list's issuer. Takes no
/// memory.
pub fn point_names<A: Allocator + Copy>(
    alloc: A,
    bytes: &[u8],
    out: &mut [GeneralNamePlace],
) -> Sized
    ensures { FullNamesFill A bytes.now out.old out.new result.status result.size }
{
    spellings_are_lawful::<DistributionPointName<A>, A>();
    let room = out.len();
    match check::<DistributionPointName<A>, A>(alloc, bytes) {
        Ok(_deviations) => front_of(names_of::<A>(bytes, out), room),
        Err(error) => unsized_of(error),
    }
}
