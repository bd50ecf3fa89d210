//! The lists of `x509_flat_values`, each in an arena of its own, which is lent nothing.

ghost use Rattle.x509_flat_values.specs.Accesses.{AccessesFill};
ghost use Rattle.x509_flat_values.specs.Points.{FullNamesFill, PointsFill};
ghost use Rattle.x509_flat_values.specs.Policies.{PoliciesFill};
ghost use Rattle.cimaroly_c.specs.Exports.{Arena};

use bumpalo::Bump;
use lent_memory::{Lent, OneBlock};
use x509_fields::Span;
use x509_flat::status::Sized;
use x509_flat_values::{AccessPlace, PointPlace, accesses, point_names, points, policies};
use x509_values::GeneralNamePlace;

/// Access descriptions.
pub(crate) fn access_descriptions(value: &[u8], out: &mut [AccessPlace]) -> Sized
    ensures { AccessesFill Arena value.now out.old out.new result.status result.size }
{
    let mut nothing = Lent::nothing();
    let block = OneBlock::from_mut(&mut nothing);
    let arena = Bump::new(&block);
    accesses::access_descriptions(&arena, value, out)
}

/// Policies.
pub(crate) fn certificate_policies(value: &[u8], out: &mut [Span]) -> Sized
    ensures { PoliciesFill Arena value.now out.old out.new result.status result.size }
{
    let mut nothing = Lent::nothing();
    let block = OneBlock::from_mut(&mut nothing);
    let arena = Bump::new(&block);
    policies::certificate_policies(&arena, value, out)
}

/// Distribution points.
pub(crate) fn distribution_points(value: &[u8], out: &mut [PointPlace]) -> Sized
    ensures { PointsFill Arena value.now out.old out.new result.status result.size }
{
    let mut nothing = Lent::nothing();
    let block = OneBlock::from_mut(&mut nothing);
    let arena = Bump::new(&block);
    points::distribution_points(&arena, value, out)
}

/// The general names of a distribution point's name.
pub(crate) fn names_of_point(name: &[u8], out: &mut [GeneralNamePlace]) -> Sized
    ensures { FullNamesFill Arena name.now out.old out.new result.status result.size }
{
    let mut nothing = Lent::nothing();
    let block = OneBlock::from_mut(&mut nothing);
    let arena = Bump::new(&block);
    point_names::point_names(&arena, name, out)
}
