//! The name of an object identifier.

ghost use Rattle.std.specs.Prelude.{◌≡◌, option_map};
ghost use Rattle.x509_oid_names.specs.Names.{IsNameOf, name_by};

use crate::table::among;
use crate::{itu, members, organizations};

/// The name by the arcs before the last, and by that.
fn name_by(front: &[u64], last: u64) -> Option<&'static str>
    ensures { option_map (λ t. t.now) result ≡ name_by front.now last }
{
    if let Some(name) = among(itu::TABLE, front, last) {
        return Some(name);
    }
    if let Some(name) = among(organizations::TABLE, front, last) {
        return Some(name);
    }
    among(members::TABLE, front, last)
}

/// The name of an object identifier, if it has one here. Takes no memory.
pub fn name_of(arcs: &[u64]) -> Option<&'static str>
    ensures { IsNameOf arcs.now (option_map (λ t. t.now) result) }
{
    let (last, front) = arcs.split_last()?;
    name_by(front, *last)
}
