//! Values of extensions that certificates of the web have: where services and revocation lists are found, and under which
//! policies a certificate is issued. No call takes memory.

ghost use Rattle.x509_flat_values.specs.Accesses.{AccessesFill};
ghost use Rattle.x509_flat_values.specs.Points.{FullNamesFill, PointsFill};
ghost use Rattle.x509_flat_values.specs.Policies.{PoliciesFill};
ghost use Rattle.cimaroly_c.specs.Exports.{Answers, Arena};

use crate::over_services as over;
use x509_fields::Span;
use x509_flat_values::{AccessPlace, PointPlace};
use x509_values::GeneralNamePlace;

/// Writes where the access descriptions of an extension's value stand to the front of a buffer, as far as there is room.
#[unsafe(no_mangle)]
pub extern "C" fn cimaroly_access_descriptions(
    value: &[u8],
    descriptions: &mut [AccessPlace],
    count: &mut usize,
) -> u32
    ensures { Answers result (λ status. AccessesFill Arena value.now descriptions.old descriptions.new status count.new) }
{
    let told = over::access_descriptions(value, descriptions);
    *count = told.size;
    told.status.number()
}

/// Writes where the identifiers of certificate policies stand to the front of a buffer, as far as there is room.
#[unsafe(no_mangle)]
pub extern "C" fn cimaroly_policies(value: &[u8], policies: &mut [Span], count: &mut usize) -> u32
    ensures { Answers result (λ status. PoliciesFill Arena value.now policies.old policies.new status count.new) }
{
    let told = over::certificate_policies(value, policies);
    *count = told.size;
    told.status.number()
}

/// Writes where distribution points stand to the front of a buffer, as far as there is room.
#[unsafe(no_mangle)]
pub extern "C" fn cimaroly_distribution_points(
    value: &[u8],
    points: &mut [PointPlace],
    count: &mut usize,
) -> u32
    ensures { Answers result (λ status. PointsFill Arena value.now points.old points.new status count.new) }
{
    let told = over::distribution_points(value, points);
    *count = told.size;
    told.status.number()
}

/// Writes where the general names of a distribution point's name stand to the front of a buffer, as far as there is room.
#[unsafe(no_mangle)]
pub extern "C" fn cimaroly_point_names(
    name: &[u8],
    names: &mut [GeneralNamePlace],
    count: &mut usize,
) -> u32
    ensures { Answers result (λ status. FullNamesFill Arena name.now names.old names.new status count.new) }
{
    let told = over::names_of_point(name, names);
    *count = told.size;
    told.status.number()
}
