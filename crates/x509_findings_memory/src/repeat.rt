//! Extensions that stand twice.

ghost use Rattle.std.specs.Prelude.{◌↔◌, IfOk, IsTrue};
ghost use Rattle.x509_findings_memory.specs.Repeats.{Repeats};

use picky_asn1_x509_parts::Extension;
use std::alloc::{AllocError, Allocator};
use std::collections::BTreeSet;

/// Whether two of some extensions have one identifier (RFC 5280, 4.2). Takes memory for their identifiers, and time in
/// proportion to their number and its logarithm.
///
/// # Errors
/// `AllocError`, where memory is refused.
pub fn repeats<A: Allocator, B: Allocator + Copy>(
    alloc: B,
    extensions: &[Extension<A>],
) -> Result<bool, AllocError>
    ensures { IfOk result (λ told. IsTrue told ↔ Repeats extensions.now) }
{
    let mut seen: BTreeSet<&[u8], B> = BTreeSet::new(alloc);
    for extension in extensions {
        match seen.insert(extension.extn_id().0.content()) {
            Ok(true) => {}
            Ok(false) => return Ok(true),
            Err(_refused) => return Err(AllocError),
        }
    }
    Ok(false)
}
