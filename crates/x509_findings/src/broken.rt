//! Which rules a certificate breaks.

ghost use Rattle.std.specs.Prelude.{◌≡◌, ◌↔◌, false, IfOk, IsOk, IsTrue};
ghost use Rattle.x509_findings.specs.Broken.{Broken, FirstBroken, condition_of};
ghost use Rattle.x509_findings.specs.Conditions.{takes_memory};

use crate::condition::{condition_of, holds};
use picky_asn1_x509::Certificate;
use std::alloc::{AllocError, Allocator};
use x509_rules::Rule;

/// Whether a certificate breaks a rule. Takes memory for rules about the order of sets and about extensions that stand
/// twice, and for no others.
///
/// # Errors
/// `AllocError`, where memory is refused.
pub fn is_broken<A: Allocator, B: Allocator + Copy>(
    alloc: B,
    rule: Rule,
    certificate: &Certificate<A>,
) -> Result<bool, AllocError>
    ensures told { IfOk result (λ told. IsTrue told ↔ Broken rule certificate.now) }
    ensures free { takes_memory (condition_of rule) ≡ false → IsOk result }
{
    holds(alloc, condition_of(rule), certificate)
}

/// How many of some rules stand before the first one that a certificate breaks.
pub(crate) fn first_broken<A: Allocator, B: Allocator + Copy>(
    alloc: B,
    rules: &[Rule],
    certificate: &Certificate<A>,
) -> Result<Option<usize>, AllocError>
    ensures { IfOk result (λ found. FirstBroken certificate.now rules.now found) }
{
    for index in 0..rules.len() {
        if is_broken(alloc, rules[index], certificate)? {
            return Ok(Some(index));
        }
    }
    Ok(None)
}
