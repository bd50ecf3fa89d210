//! The lines of a text in memory.

ghost use Rattle.std.specs.Prelude.{◌≡◌, ◌≤◌, ◌<◌, true, false, length, take, drop};
ghost use Rattle.x509_pem.specs.InText.{between, returned_at, Passes};
ghost use Rattle.x509_pem.specs.Text.{line_of, behind_line, number_behind, ends_return as ends_cr};

use crate::lines::line_part;

/// Where a text is read on: behind how many bytes, behind the line of which number, and whether CR ended that.
#[derive(Clone, Copy, Debug, PartialEq, Eq)]
pub struct Cursor {
    /// How many bytes of the text stand before it.
    pub at: usize,
    /// The number of the line before it, 0 at the front of a text.
    pub line: u64,
    /// Whether CR ended that line, so that LF right behind it belongs to it.
    pub returned: bool,
}

/// How long the first line of a text is, with the byte that ends it.
fn line_len(chunk: &[u8]) -> usize
    ensures bound { result ≤ length chunk.now }
    ensures some { 0 < length chunk.now → 0 < result }
    ensures line { take result chunk.now ≡ line_of chunk.now }
    ensures rest { drop result chunk.now ≡ behind_line chunk.now }
{
    line_part(chunk).0
}

/// Whether CR stands at the end of some bytes.
fn ends_return(line: &[u8]) -> bool
    ensures { result ≡ ends_cr line.now }
{
    line.last() == Some(&b'\r')
}

/// The number of the line behind line `number`: LF behind CR belongs to the line of the CR.
fn numbered(number: u64, returned: bool, line: &[u8]) -> u64
    ensures { result ≡ number_behind number returned line.now }
{
    if returned && line.len() == 1 && line[line.len() - 1] == b'\n' {
        return number;
    }
    number.saturating_add(1)
}

impl Cursor {
    /// The front of a text.
    pub fn front() -> Cursor
        ensures { (result.at ≡ 0) × (result.line ≡ 0) × (result.returned ≡ false) }
    {
        Cursor {
            at: 0,
            line: 0,
            returned: false,
        }
    }

    /// The place behind so many bytes of a text, and behind the line of a number.
    pub fn behind(text: &[u8], at: usize, line: u64) -> Cursor
        ensures place { (result.at ≡ at) × (result.line ≡ line) }
        ensures returned { result.returned ≡ returned_at text.now at }
    {
        let front = if at < text.len() { &text[..at] } else { text };
        Cursor {
            at,
            line,
            returned: ends_return(front),
        }
    }

    /// Goes past a line.
    pub(crate) fn step(self, text: &[u8]) -> Cursor
        requires { self.at < length text.now }
        ensures { Passes text.now self result }
    {
        let rest = &text[self.at..];
        let len = line_len(rest);
        let line = &rest[..len];
        Cursor {
            at: self.at + len,
            line: numbered(self.line, self.returned, line),
            returned: ends_return(line),
        }
    }
}
