//! The dotted text of object identifiers: arcs in decimal, joined by points.

ghost use Rattle.std.specs.Prelude.{◌≡◌, ◌≢◌, ◌⊎◌, ℕ, ◌<◌, ◌^◌, List, Some, IfOk, IfErr, MatchOption};
ghost use Rattle.std.specs.Fmt.{decimal};
ghost use Rattle.x509_der.specs.ObjectIdentifier.{IsLawful};
ghost use Rattle.x509_der.specs.ObjectIdentifier.{dotted};

use super::{ObjectIdentifier, OidError, from_lawful, is_lawful};
use std::alloc::Allocator;
use std::fmt;

/// Prints the arcs in decimal, joined by points. Takes no memory of its own.
#[tactic(auto, using(std::proofs::lemmas::Grind::common_steps, crate::proofs::Texts::dotted_push))]
impl<A: Allocator> fmt::Display for ObjectIdentifier<A> {
    ghost output = { λ o. Some (dotted o) };

    fn fmt<W: fmt::Write>(&self, f: &mut fmt::Formatter<W>) -> fmt::Result {
        let mut arcs = self.arcs();
        if let Some(first) = arcs.next() {
            write!(f, "{first}")?;
            for arc in arcs {
                write!(f, ".{arc}")?;
            }
        }
        Ok(())
    }
}

/// The number that a piece writes in decimal digits with no leading zero, if it fits 64 bits.
fn read_arc(piece: &str) -> Option<u64>
    ensures { MatchOption result ((n : ℕ) → n < 2 ^ 64 → piece.now ≢ decimal n) (λ n. (n < 2 ^ 64) ×
        (piece.now ≡ decimal n)) }
{
    let bytes = piece.as_bytes();
    let Some(first) = bytes.first() else {
        return None;
    };
    if *first == b'+' {
        return None;
    }
    if *first == b'0' {
        return if bytes.len() == 1 { Some(0) } else { None };
    }
    piece.parse::<u64>().ok()
}

impl<A: Allocator + Copy> ObjectIdentifier<A> {
    /// The object identifier of a text: its arcs in decimal with no leading zeros, joined by points.
    ///
    /// # Errors
    /// `Bad`, exactly where the text is that of no object identifier; `OutOfMemory` where memory is refused.
    pub fn from_text(alloc: A, text: &str) -> Result<Self, OidError>
        ensures ok { IfOk result (λ o. IsLawful o × (text.now ≡ dotted o)) }
        ensures bad { IfErr result (λ e. (e ≡ OidError.OutOfMemory) ⊎
            ((e ≡ OidError.Bad) × ((arcs : List ℕ) → IsLawful arcs → text.now ≢ dotted arcs))) }
    {
        let mut arcs = Vec::new(alloc);
        for piece in text.split('.') {
            let Some(arc) = read_arc(piece) else {
                return Err(OidError::Bad);
            };
            arcs.push(arc)?;
        }
        if !is_lawful(&arcs) {
            return Err(OidError::Bad);
        }
        let identifier = from_lawful(alloc, &arcs)?;
        Ok(identifier)
    }
}
