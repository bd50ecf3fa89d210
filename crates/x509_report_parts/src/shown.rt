//! How text of the input is shown, so that it can't do anything to a terminal.

ghost use Rattle.std.specs.Prelude.{◌≡◌, ◌≤◌, ◌<◌, ◌⊎◌, ◌↔◌, IsTrue, All, false};
ghost use Rattle.x509_report_parts.specs.Seen.{InSome, IsControl, TurnsText, IsUnseen, IsShown, IsShownIn};
ghost use Rattle.x509_report_parts.specs.Seen.{privates, marks, harmless};

use std::fmt::{self, Display, Write};
use std::str;

/// Whether a character that UTF-16 writes by one unit has no glyph of its own: controls, marks that turn the direction of
/// text, and characters without a width (general categories Cc, Cf, Zl and Zp, and the other characters that Unicode calls
/// ignorable by default).
fn is_unseen(c: char) -> bool
    ensures { IsTrue result ↔ ((c < 0x10000) × IsUnseen c) }
{
    match c {
        '\u{0}'..='\u{1f}' | '\u{7f}'..='\u{9f}' | '\u{ad}' | '\u{34f}' => true,
        '\u{600}'..='\u{605}' | '\u{61c}' | '\u{6dd}' | '\u{70f}' | '\u{890}'..='\u{891}' => true,
        '\u{8e2}' | '\u{115f}'..='\u{1160}' | '\u{17b4}'..='\u{17b5}' => true,
        '\u{180b}'..='\u{180f}' | '\u{200b}'..='\u{200f}' | '\u{2028}'..='\u{202e}' => true,
        '\u{2060}'..='\u{206f}' | '\u{3164}' | '\u{fe00}'..='\u{fe0f}' | '\u{feff}' => true,
        '\u{ffa0}' | '\u{fff0}'..='\u{fffb}' => true,
        _ => false,
    }
}

/// Whether a character that UTF-16 writes by a pair of surrogates has no glyph of its own, or isn't assigned for
/// everybody: format controls, tags, the planes for private use.
fn is_far_unseen(c: char) -> bool
    ensures { IsTrue result ↔ ((0x10000 ≤ c) × (IsUnseen c ⊎ InSome privates c)) }
{
    match c {
        '\u{110bd}' | '\u{110cd}' | '\u{13430}'..='\u{1343f}' => true,
        '\u{1bca0}'..='\u{1bca3}' | '\u{1d173}'..='\u{1d17a}' => true,
        '\u{e0000}'..='\u{10ffff}' => true,
        _ => false,
    }
}

/// Whether a character is shown as it is. The code points from U+E000 up to U+F8FF, for private use, aren't.
pub fn is_plain(c: char) -> bool
    ensures exact { IsTrue result ↔ IsShown c }
    ensures control { IsControl c → result ≡ false }
    ensures direction { TurnsText c → result ≡ false }
{
    match c {
        ' '..='~' => true,
        '\u{e000}'..='\u{f8ff}' => false,
        _ => !is_unseen(c) && !is_far_unseen(c),
    }
}

/// Between which marks a text is shown.
#[derive(Clone, Copy, Debug, PartialEq, Eq)]
pub enum Frame {
    /// Between quotation marks.
    Quotes,
    /// In a name between commas, as in `C=DE, CN=example.org` (RFC 4514, 2.4).
    Name,
    /// Alone on a line, or at its end.
    Line,
}

/// Whether a character of a text might be taken for the end of what it stands in.
fn is_mark(frame: Frame, c: char) -> bool
    ensures { IsTrue result ↔ InSome (marks frame) c }
{
    match frame {
        Frame::Quotes => matches!(c, '"' | '\\'),
        Frame::Name => matches!(c, '"' | '\\' | ',' | '+' | '=' | ';' | '<' | '>'),
        Frame::Line => c == '\\',
    }
}

/// Writes a character: behind a backslash where it is a mark, and as `\u{202e}` where it isn't to be shown.
fn write_char<W: Write>(out: &mut W, frame: Frame, c: char) -> fmt::Result {
    if is_mark(frame, c) {
        out.write_char('\\')?;
        return out.write_char(c);
    }
    if is_plain(c) {
        return out.write_char(c);
    }
    let code = u32::from(c);
    write!(out, "\\u{{{code:x}}}")
}

/// Whether all characters of a text are letters and digits of ASCII, or some that stand for nothing in any frame.
pub(crate) fn is_harmless(text: &str) -> bool
    ensures exact { IsTrue result ↔ All (λ b. InSome harmless b) text.now }
    ensures shown { IsTrue result → (frame : Frame) → All (λ b. IsShownIn frame b) text.now }
{
    text.bytes().all(
        |b| matches!(b, b'a'..=b'z' | b'A'..=b'Z' | b'0'..=b'9' | b' ' | b'-' | b'.' | b'/' | b':' | b'@' | b'*'),
    )
}

/// A writer that escapes what it passes on.
#[derive(Drop)]
struct Escaping<'w, W: Write> {
    out: &'w mut W,
    frame: Frame,
}

impl<W: Write> Write for Escaping<'_, W> {
    fn write_str(&mut self, text: &str) -> fmt::Result {
        let frame = self.frame;
        if is_harmless(text) || text.chars().all(|c| is_plain(c) && !is_mark(frame, c)) {
            return self.out.write_str(text);
        }
        for c in text.chars() {
            write_char(self.out, frame, c)?;
        }
        Ok(())
    }
}

/// What prints as another value, with what isn't to be shown escaped.
#[derive(Clone, Copy, Drop)]
pub struct Shown<'a, T: Display>(pub &'a T, pub Frame);

impl<T: Display> Display for Shown<'_, T> {
    fn fmt<W: Write>(&self, f: &mut fmt::Formatter<W>) -> fmt::Result {
        let value = self.0;
        let frame = self.1;
        let mut out = Escaping { out: f, frame };
        write!(out, "{value}")
    }
}

/// Bytes of others, such as a label or a path: as text where they are UTF-8, and else with `\x80` for each byte that isn't
/// ASCII.
#[derive(Clone, Copy, Drop)]
pub struct ShownBytes<'a>(pub &'a [u8]);

/// Writes bytes that aren't UTF-8.
fn write_bytes<W: Write>(out: &mut W, bytes: &[u8]) -> fmt::Result {
    for byte in bytes {
        if byte.is_ascii() {
            write_char(out, Frame::Line, char::from(*byte))?;
        } else {
            write!(out, "\\x{byte:02x}")?;
        }
    }
    Ok(())
}

impl Display for ShownBytes<'_> {
    fn fmt<W: Write>(&self, f: &mut fmt::Formatter<W>) -> fmt::Result {
        match str::from_utf8(self.0) {
            Ok(text) => write!(f, "{}", Shown(&text, Frame::Line)),
            Err(_) => write_bytes(f, self.0),
        }
    }
}
