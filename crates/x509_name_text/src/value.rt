//! The values of attributes (RFC 4514, 2.4).

ghost use Rattle.std.specs.Prelude.{◌≡◌, ℕ, Bool, true, false, [], ◌||◌, ◌==◌, chars, length};
ghost use Rattle.std.specs.Char.Utf16.{utf16_lossy_chars};
ghost use Rattle.x509_name_text.specs.Texts.{TellsShown, Takes, Writes, escaped, hidden_text, is_special as special, left_text, pairs_text, symbol_text, units_of};

use crate::put::{put, put_char, put_hex};
use crate::utf16::first_of;
use x509_report_parts::shown::is_plain;

/// Whether a character is escaped wherever it stands.
#[tactic(auto, unfolding(crate::specs::Texts::is_special))]
fn is_special(symbol: char) -> bool
    ensures { result ≡ special symbol }
{
    symbol == '"'
        || symbol == '+'
        || symbol == ','
        || symbol == ';'
        || symbol == '<'
        || symbol == '>'
        || symbol == '\\'
}

/// Writes bytes, each in hexadecimal behind a backslash.
fn put_pairs(bytes: &[u8], at: usize, out: &mut [u8]) -> usize
    ensures { Writes (pairs_text bytes.now) at out.old result out.new }
{
    let mut at = at;
    'bytes: for byte in bytes {
        at = put(b"\\", at, out);
        at = put_hex(true, &[*byte], at, out);
    }
    at
}

/// Writes the bytes of a character, each in hexadecimal behind a backslash.
#[tactic(auto, unfolding(crate::specs::Texts::hidden_text))]
fn put_hidden(symbol: char, at: usize, out: &mut [u8]) -> usize
    ensures { Writes (hidden_text symbol) at out.old result out.new }
{
    let mut room = [0u8; 4];
    put_pairs(symbol.encode_utf8(&mut room).as_bytes(), at, out)
}

/// Whether a character that is shown stands behind a backslash.
fn is_marked(symbol: char, is_edge: bool) -> bool
    ensures { result ≡ (is_edge || special symbol) }
{
    is_edge || is_special(symbol)
}

/// Whether a character is escaped where it comes first.
fn is_lead(symbol: char) -> bool
    ensures { result ≡ (symbol == 32 || symbol == 35) }
{
    symbol == ' ' || symbol == '#'
}

/// Writes a character, escaped where it must be: at an edge of the value, or wherever it stands. What can't be seen, or changes
/// the direction of text, is escaped too.
fn put_symbol(symbol: char, is_edge: bool, at: usize, out: &mut [u8]) -> usize
    ensures { (shown : ℕ → Bool) → TellsShown shown → Writes (symbol_text shown is_edge symbol) at out.old result out.new }
{
    if !is_plain(symbol) {
        return put_hidden(symbol, at, out);
    }
    if is_marked(symbol, is_edge) {
        let behind = put(b"\\", at, out);
        return put_char(symbol, behind, out);
    }
    put_char(symbol, at, out)
}

/// What stands before the next character of a value.
#[derive(Clone, Copy)]
enum Before {
    /// Nothing.
    Nothing,
    /// A character that is written.
    Symbol,
    /// A space that is held back: it is escaped if it is the last character.
    Space,
}

/// How far a value is written.
#[derive(Clone, Copy)]
struct Progress {
    /// Where the next character goes.
    at: usize,
    /// What stands before it.
    before: Before,
}

/// Writes the first character.
fn first_symbol(symbol: char, at: usize, out: &mut [u8]) -> Progress
    ensures { (shown : ℕ → Bool) → TellsShown shown → Takes shown symbol (record { at = at; before = Before.Nothing }) out.old result out.new }
{
    let at = put_symbol(symbol, is_lead(symbol), at, out);
    Progress {
        at,
        before: Before::Symbol,
    }
}

/// Writes another character, or holds it back.
fn later_symbol(symbol: char, at: usize, out: &mut [u8]) -> Progress
    ensures { (shown : ℕ → Bool) → TellsShown shown → Takes shown symbol (record { at = at; before = Before.Symbol }) out.old result out.new }
{
    if symbol == ' ' {
        return Progress {
            at,
            before: Before::Space,
        };
    }
    let at = put_symbol(symbol, false, at, out);
    Progress {
        at,
        before: Before::Symbol,
    }
}

/// Writes the next character.
fn next_symbol(so_far: Progress, symbol: char, out: &mut [u8]) -> Progress
    ensures { (shown : ℕ → Bool) → TellsShown shown → Takes shown symbol so_far out.old result out.new }
{
    match so_far.before {
        Before::Nothing => first_symbol(symbol, so_far.at, out),
        Before::Symbol => later_symbol(symbol, so_far.at, out),
        Before::Space => {
            let at = put(b" ", so_far.at, out);
            later_symbol(symbol, at, out)
        }
    }
}

/// Where a value begins.
fn begin(at: usize) -> Progress
    ensures { result ≡ record { at = at; before = Before.Nothing } }
{
    Progress {
        at,
        before: Before::Nothing,
    }
}

/// Writes what was held back, and answers where the value ends.
fn end(so_far: Progress, out: &mut [u8]) -> usize
    ensures { (shown : ℕ → Bool) → TellsShown shown → Writes (left_text shown so_far.before []) so_far.at out.old result out.new }
{
    match so_far.before {
        Before::Space => put(b"\\ ", so_far.at, out),
        _ => so_far.at,
    }
}

/// Writes a text.
pub(crate) fn put_text(text: &str, at: usize, out: &mut [u8]) -> usize
    ensures { (shown : ℕ → Bool) → TellsShown shown → Writes (escaped shown true (chars text.now)) at out.old result out.new }
{
    let mut so_far = begin(at);
    'symbols: for symbol in text.chars() {
        so_far = next_symbol(so_far, symbol, out);
    }
    end(so_far, out)
}

/// Writes text in UTF-16, high bytes first; U+FFFD for a surrogate without a partner.
pub(crate) fn put_utf16(text: &[u8], at: usize, out: &mut [u8]) -> usize
    ensures { (shown : ℕ → Bool) → TellsShown shown → Writes (escaped shown true (utf16_lossy_chars (units_of text.now))) at out.old result out.new }
{
    let mut so_far = begin(at);
    let mut rest = text;
    'symbols: for _ in 0..text.len() {
        let Some((symbol, more)) = first_of(rest) else {
            break;
        };
        so_far = next_symbol(so_far, symbol, out);
        rest = more;
    }
    end(so_far, out)
}
