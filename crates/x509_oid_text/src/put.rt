//! Writing behind what was written before.

ghost use Rattle.std.specs.Prelude.{◌≡◌, ◌≤◌, ◌+◌, ◌++◌, List, ℕ, drop, length};
ghost use Rattle.std.specs.Fmt.{decimal};

use crate::decimal::{MOST, write_back};

/// Writes a text behind so many bytes of a buffer that has room for it, and answers where it ends.
pub(crate) fn put(text: &[u8], at: usize, out: &mut [u8]) -> usize
    requires { at + length text.now ≤ length out.old }
    ensures end { result ≡ at + length text.now }
    ensures text { (done base : List ℕ) → at ≡ length done → out.old ≡ done ++ drop at base →
        out.new ≡ (done ++ text.now) ++ drop result base }
{
    let end = at + text.len();
    out[at..end].copy_from_slice(text);
    end
}

/// Writes a number in decimal digits, in the same way.
pub(crate) fn put_decimal(number: u64, at: usize, out: &mut [u8]) -> usize
    requires { at + length (decimal number) ≤ length out.old }
    ensures end { result ≡ at + length (decimal number) }
    ensures text { (done base : List ℕ) → at ≡ length done → out.old ≡ done ++ drop at base →
        out.new ≡ (done ++ decimal number) ++ drop result base }
{
    let mut room = [0u8; MOST];
    let start = write_back(number, &mut room);
    put(&room[start..], at, out)
}
