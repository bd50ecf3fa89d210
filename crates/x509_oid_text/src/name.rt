//! The name of an object identifier.

ghost use Rattle.std.specs.Prelude.{◌≡◌, ◌≤◌, MatchOption, option_map, length, take};
ghost use Rattle.x509_oid_text.specs.Names.{IsNameIn};

use x509_der::Arcs;
use x509_oid_names::name_of;

/// How many arcs an object identifier has at most that has a name.
const MOST: usize = 16;

/// Puts arcs into a row, and answers how many these are, if it holds them.
fn fill(arcs: Arcs<'_>, row: &mut [u64; MOST]) -> Option<usize>
    ensures { MatchOption result (17 ≤ length arcs.entry)
        (λ n. (n ≡ length arcs.entry) × (n ≤ 16) × (take n row.new ≡ arcs.entry)) }
{
    let mut count: usize = 0;
    'arcs: for arc in arcs {
        if count >= MOST {
            return None;
        }
        row[count] = arc;
        count += 1;
    }
    Some(count)
}

/// The name of the object identifier with this content, as the standards spell it, if it has one here. The content is
/// what stands behind its tag and its length. Takes no memory.
pub fn name_in(content: &[u8]) -> Option<&'static str>
    ensures { IsNameIn content.now (option_map (λ t. t.now) result) }
{
    let arcs = Arcs::in_content(content)?;
    let mut row = [0u64; MOST];
    let Some(count) = fill(arcs, &mut row) else {
        return None;
    };
    name_of(&row[..count])
}
