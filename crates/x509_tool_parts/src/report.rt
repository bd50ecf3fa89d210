//! The report that the program prints.

ghost use Rattle.std.specs.Prelude.{◌≡◌, Some, IfOk};
ghost use Rattle.std.specs.String.{string_bytes};
ghost use Rattle.x509_tool_parts.specs.Output.{spaced, report_text};

use std::alloc::{AllocError, Allocator};
use std::fmt;

/// Numbers that print in decimal with a space between them.
#[derive(Clone, Copy)]
struct Spaced<'a>(&'a [usize]);

#[tactic(auto, using(std::proofs::lemmas::Grind::common_steps, crate::proofs::Texts::spaced_push))]
impl fmt::Display for Spaced<'_> {
    ghost output = { λ s. Some (spaced s.0.now) };

    fn fmt<W: fmt::Write>(&self, f: &mut fmt::Formatter<W>) -> fmt::Result {
        if let [first, rest @ ..] = self.0 {
            write!(f, "{first}")?;
            for count in rest {
                write!(f, " {count}")?;
            }
        }
        Ok(())
    }
}

/// Bytes in lower-case hexadecimal on a line, and counts on a line.
pub fn report<A: Allocator + Copy>(
    alloc: A,
    bytes: &[u8],
    counts: &[usize],
) -> Result<Vec<u8, A>, AllocError>
    ensures { IfOk result (λ v. v.items ≡ report_text bytes.now counts.now) }
{
    let digits = hex::encode(alloc, bytes)?;
    let counts = Spaced(counts);
    let text = format!(in alloc; "{digits}\n{counts}\n")?;
    Ok(text.into_bytes())
}
