//! The laws of fields of the plain structures of this crate, written by `tools/structures.py` from `declarations.asn1`.
//! A function here does nothing when it runs: its contract is the law.

ghost use Rattle.std.specs.Prelude.{List, ℕ};
ghost use Rattle.x509_der.specs.Fields.{ContentFirst};
ghost use Rattle.x509_der.specs.Items.{items};
ghost use Rattle.x509_der.specs.Tally.{Tally};
ghost use Rattle.x509_distribution_points.specs.DistributionPoint.{crl_distribution_points, distribution_point};
ghost use Rattle.x509_distribution_points.specs.DistributionPointName.{distribution_point_name};
ghost use Rattle.x509_distribution_points.specs.IssuingDistributionPoint.{issuing_distribution_point};
ghost use Rattle.x509_distribution_points.specs.fields.DistributionPoint.{DistributionPointAt};
ghost use Rattle.x509_distribution_points.specs.fields.DistributionPointName.{DistributionPointNameAt};
ghost use Rattle.x509_distribution_points.specs.fields.IssuingDistributionPoint.{IssuingDistributionPointAt};

use crate::structures::{
    CrlDistributionPoints, DistributionPoint, DistributionPointName, IssuingDistributionPoint,
};
use std::alloc::Allocator;
use x509_der::laws::fields;

/// The law of fields of `DistributionPointName`: each encoding is one of the alternative that was taken.
pub fn distribution_point_name_fields<A: Allocator + Copy>()
    ensures { (v : DistributionPointName A) (string : List ℕ) (y : Tally) → distribution_point_name.spelled v string y →
        DistributionPointNameAt v string y }
{
    fields::<DistributionPointName<A>, A>();
}

/// The law of fields of `DistributionPoint`: in each encoding they stand one behind the other, right behind the header.
pub fn distribution_point_fields<A: Allocator + Copy>()
    ensures { (v : DistributionPoint A) (string : List ℕ) (y : Tally) → distribution_point.spelled v string y →
        DistributionPointAt v string y }
{
    fields::<DistributionPoint<A>, A>();
}

/// The law of fields of `CrlDistributionPoints`: the items stand one behind another, right behind the header.
pub fn crl_distribution_points_fields<A: Allocator + Copy>()
    ensures { (v : List (DistributionPoint A)) (string : List ℕ) (y : Tally) → crl_distribution_points.spelled v string y →
        ContentFirst 48 (items distribution_point) v string y }
{
    fields::<CrlDistributionPoints<A>, A>();
}

/// The law of fields of `IssuingDistributionPoint`: in each encoding they stand one behind the other, right behind the
/// header.
pub fn issuing_distribution_point_fields<A: Allocator + Copy>()
    ensures { (v : IssuingDistributionPoint A) (string : List ℕ) (y : Tally) → issuing_distribution_point.spelled v string y →
        IssuingDistributionPointAt v string y }
{
    fields::<IssuingDistributionPoint<A>, A>();
}
