//! What is done with an encoding: its bytes are counted, or written.

ghost use Rattle.std.specs.Prelude.{◌≡◌, ◌-◌, ◌≤◌, ◌∷◌, ℕ, List, Result};
ghost use Rattle.x509_der_parts.specs.Element.{digits};
ghost use Rattle.x509_der_parts.specs.Writing.{Counts, HasRoom, IsOutput, Writes};
ghost use Rattle.x509_der_parts.specs.declared.errors.TooLong.{TooLong as Long};
ghost use Rattle.x509_der_parts.specs.facts.Output.{counting_output, writing_output};

use crate::errors::TooLong;
use crate::header::{header_len, write_header};
use crate::write::write_bytes;

/// What is done with an encoding, from its end to its front: it is counted, or written into a slice. A place is how many
/// bytes were counted, or where in the slice they begin.
pub trait Output {
    /// That bytes fit in front of a place of a slice.
    ghost fits: { List ℕ → List ℕ → ℕ → Type 0 };

    /// What becomes of a slice, with what result, as bytes are put in front of a place of it.
    ghost puts: { List ℕ → List ℕ → ℕ → List ℕ → Result ℕ Long → Type 0 };

    /// Which of two places comes first.
    ghost Ordered: { ℕ → ℕ → Type 0 };

    /// How far two places are apart.
    ghost span: { ℕ → ℕ → ℕ };

    /// Parts that are put one in front of another are put together.
    ghost together: { IsOutput fits puts Ordered span };

    /// Puts bytes in front of a place, and answers the place in front of them.
    ///
    /// # Errors
    /// `TooLong`, exactly where more are counted than the greatest `usize`.
    fn bytes(bytes: &[u8], out: &mut [u8], at: usize) -> Result<usize, TooLong>
        requires { fits bytes.now out.old at }
        ensures { puts bytes.now out.old at out.new result };

    /// Puts a tag and the length digits of a content of `len` bytes in front of a place.
    ///
    /// # Errors
    /// As `bytes`.
    fn header(tag: u8, len: usize, out: &mut [u8], at: usize) -> Result<usize, TooLong>
        requires { fits (tag ∷ digits len) out.old at }
        ensures { puts (tag ∷ digits len) out.old at out.new result };

    /// How many bytes stand between two places.
    fn span(at: usize, start: usize) -> usize
        requires { Ordered at start }
        ensures { result ≡ span at start };
}

/// Counts.
#[derive(Drop)]
pub struct Counting;

impl Output for Counting {
    ghost fits = { λ bytes slice at. Unit {0} };

    ghost puts = { Counts };

    ghost Ordered = { λ at start. at ≤ start };

    ghost span = { λ at start. start - at };

    ghost together = { counting_output };

    fn bytes(bytes: &[u8], _out: &mut [u8], at: usize) -> Result<usize, TooLong> {
        at.checked_add(bytes.len()).ok_or(TooLong)
    }

    fn header(_tag: u8, len: usize, _out: &mut [u8], at: usize) -> Result<usize, TooLong> {
        at.checked_add(header_len(len)).ok_or(TooLong)
    }

    fn span(at: usize, start: usize) -> usize {
        start - at
    }
}

/// Writes into a slice, from a place to its front.
#[derive(Drop)]
pub struct Writing;

impl Output for Writing {
    ghost fits = { HasRoom };

    ghost puts = { Writes };

    ghost Ordered = { λ at start. start ≤ at };

    ghost span = { λ at start. at - start };

    ghost together = { writing_output };

    fn bytes(bytes: &[u8], out: &mut [u8], at: usize) -> Result<usize, TooLong> {
        Ok(write_bytes(bytes, &mut out[..at]))
    }

    fn header(tag: u8, len: usize, out: &mut [u8], at: usize) -> Result<usize, TooLong> {
        Ok(write_header(tag, len, &mut out[..at]))
    }

    fn span(at: usize, start: usize) -> usize {
        at - start
    }
}
