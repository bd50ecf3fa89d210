//! The program's work, as a function of its argument and its input.

ghost use Rattle.std.specs.Prelude.{◌≡◌, ℕ, List, Err};
ghost use Rattle.x509_tool_parts.specs.Text.{IsTextOf, IsNoText, IsWithoutLineFeed};
ghost use Rattle.x509_tool_parts.specs.Output.{AnswersNamed, IsServed, IsUsageOrMemory, listed_answer};

use crate::fault::ToolFault;
use crate::served::Served;
use std::alloc::Allocator;

/// The text without one line feed at its end.
fn without_line_feed(text: &[u8]) -> &[u8]
    ensures { IsWithoutLineFeed text.now result.now }
{
    match text {
        [digits @ .., b'\n'] => digits,
        _ => text,
    }
}

/// What the program prints for the type's name and the hexadecimal text of an input: the DER encoding of the value in
/// lower-case hexadecimal on a line, and the ten counts of deviations on a line.
///
/// # Errors
/// `Usage`, exactly where the name isn't that of a type that is served, and before memory is asked for, or the text
/// isn't an even number of hexadecimal digits of either case with at most one line feed at its end; else `Refused`,
/// exactly where the bytes encode no value of the type; `TooLong`, exactly where its DER encoding is longer
/// than a `usize` can say. `OutOfMemory` may stand in place of any answer but that to an unknown name, where memory is
/// refused.
pub fn run_text<A: Allocator + Copy>(
    alloc: A,
    type_name: &str,
    input: &[u8],
) -> Result<Vec<u8, A>, ToolFault>
    ensures unknown { (IsServed type_name.now → ⊥) → result ≡ Err ToolFault.Usage }
    ensures no_text { IsServed type_name.now → IsNoText input.now →
        IsUsageOrMemory (listed_answer (λ v. v.items) result) }
    ensures text { (bytes : List ℕ) → IsServed type_name.now → IsTextOf bytes input.now →
        AnswersNamed A type_name.now bytes (listed_answer (λ v. v.items) result) }
{
    let Some(served) = Served::from_name(type_name) else {
        return Err(ToolFault::Usage);
    };
    let bytes = hex::decode(alloc, without_line_feed(input))?;
    served.answer(alloc, &bytes)
}
