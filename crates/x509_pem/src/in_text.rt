//! Finds blocks in a text in memory, and takes none for it.

ghost use Rattle.std.specs.Prelude.{◌≡◌, ◌≤◌, ◌<◌, ◌-◌, ◌+◌, ℕ, List, [], length, drop, Ok, Option, Some, None, true, false, Contains, slice_index, ◌≢◌, IfSome, MatchOption};
ghost use Rattle.base64.specs.Engines.{standard};
ghost use Rattle.base64.specs.GeneralPurpose.{decode_of};
ghost use Rattle.x509_pem.specs.InText.{between, at_span, IsInside, StopsIn, StopsAt, BlockAt, NoBlock, BegunAt, InnerSays, IsMadeOf, IsRead};
ghost use Rattle.x509_pem.specs.Line.{IsBegin, BeginsNone, Trimmed};

use crate::boundary::{Kind, kind_of};
use crate::cursor::Cursor;
use crate::fault::Fault;
use crate::white::{back_start, trimmed};
use memchr::memchr;

/// Bytes of a text, from `start` up to `end`.
#[repr(C)]
#[derive(Clone, Copy, Debug, PartialEq, Eq)]
pub struct Span {
    /// How many bytes stand before them.
    pub start: usize,
    /// How many bytes stand before their end.
    pub end: usize,
}

/// A block of a text, or what is wrong with it.
#[derive(Clone, Copy, Debug, PartialEq, Eq)]
pub struct TextBlock {
    /// What is wrong: one of `LabelMismatch`, `NoEnd` and `HasHeaders`.
    pub fault: Option<Fault>,
    /// The label, such as `CERTIFICATE`.
    pub label: Span,
    /// The lines between the boundaries, whose base64 symbols stand for the bytes of the block.
    pub symbols: Span,
    /// The number of the line that begins the block.
    pub first_line: u64,
    /// The number of the line that ends the block, or that of the fault.
    pub last_line: u64,
    /// Where the next block is looked for.
    pub next: Cursor,
}

/// The line that begins a block: its label, and the place behind it.
#[derive(Clone, Copy, Debug)]
pub(crate) struct Begun {
    pub(crate) label: Span,
    pub(crate) behind: Cursor,
}

/// What a line is inside of a block.
#[derive(Clone, Copy, Debug)]
pub(crate) enum Inner {
    /// Text of the block.
    Text,
    /// It ends the block, or has the fault.
    Stop(Option<Fault>),
}

/// What stops a block: the place before it and behind.
#[derive(Clone, Copy, Debug)]
pub(crate) struct Stop {
    pub(crate) fault: Option<Fault>,
    pub(crate) there: Cursor,
    pub(crate) behind: Cursor,
}

/// The label in a line that begins a block.
fn label_in(line: &[u8]) -> Option<Span>
    ensures begins { MatchOption result (Trimmed line.now BeginsNone) (λ label. Trimmed line.now (IsBegin (at_span line.now label))) }
    ensures inside { MatchOption result (Unit {0}) (λ label. (label.start ≤ label.end) × (label.end ≤ length line.now)) }
{
    match kind_of(trimmed(line)) {
        Kind::Begin(label) => {
            let end = back_start(line, 0) - 5;
            Some(Span {
                start: end - label.len(),
                end,
            })
        }
        Kind::End(_) => None,
        Kind::Text => None,
    }
}

/// The next line that begins a block.
fn begin_of(text: &[u8], start: Cursor) -> Option<Begun>
    ensures { MatchOption result (NoBlock text.now start) (λ begun. BegunAt text.now start begun) }
{
    let mut cursor = start;
    'lines: while cursor.at < text.len() {
        let behind = cursor.step(text);
        match label_in(&text[cursor.at..behind.at]) {
            Some(label) => {
                let label = Span {
                    start: cursor.at + label.start,
                    end: cursor.at + label.end,
                };
                return Some(Begun { label, behind });
            }
            None => cursor = behind,
        }
    }
    None
}

/// Whether a line has a colon, as each header has.
fn has_colon(line: &[u8]) -> bool
    ensures some { result ≡ true → Contains line.now 58 }
    ensures none { result ≡ false → (k : ℕ) → k < length line.now → slice_index line.now k ≢ 58 }
{
    match memchr(b':', line) {
        Some(_) => true,
        None => false,
    }
}

/// What a line is inside of a block of a label.
fn inner_of(line: &[u8], label: &[u8]) -> Inner
    ensures { Trimmed line.now (InnerSays result label.now) }
{
    let line = trimmed(line);
    match kind_of(line) {
        Kind::End(other) => {
            if label == other {
                Inner::Stop(None)
            } else {
                Inner::Stop(Some(Fault::LabelMismatch))
            }
        }
        Kind::Begin(_) => Inner::Stop(Some(Fault::NoEnd)),
        Kind::Text => {
            if has_colon(line) {
                Inner::Stop(Some(Fault::HasHeaders))
            } else {
                Inner::Text
            }
        }
    }
}

/// What stops a block of a label whose text begins at a place.
fn stop_of(text: &[u8], label: &[u8], start: Cursor) -> Stop
    requires { start.at ≤ length text.now }
    ensures { StopsAt text.now label.now start result }
{
    let mut cursor = start;
    'lines: while cursor.at < text.len() {
        let behind = cursor.step(text);
        match inner_of(&text[cursor.at..behind.at], label) {
            Inner::Stop(fault) => {
                return Stop {
                    fault,
                    there: cursor,
                    behind,
                };
            }
            Inner::Text => cursor = behind,
        }
    }
    Stop {
        fault: Some(Fault::NoEnd),
        there: cursor,
        behind: cursor,
    }
}

/// The block that a line begins.
fn block_of(begun: Begun, stop: Stop) -> TextBlock
    ensures { IsMadeOf begun stop result }
{
    TextBlock {
        fault: stop.fault,
        label: begun.label,
        symbols: Span {
            start: begun.behind.at,
            end: stop.there.at,
        },
        first_line: begun.behind.line,
        last_line: stop.behind.line,
        next: if stop.fault == Some(Fault::NoEnd) {
            stop.there
        } else {
            stop.behind
        },
    }
}

/// The next block of a text, from a place on: `None` where no further line begins one. The grammar is that of
/// `PemReader::next_block`, but lines may have any length, and the base64 text isn't decoded. It takes no memory.
pub fn next_in(text: &[u8], start: Cursor) -> Option<TextBlock>
    ensures found { MatchOption result (NoBlock text.now start) (λ block. BlockAt text.now start block) }
    ensures read { IfSome result (λ block. IsRead text.now start block) }
{
    let begun = begin_of(text, start)?;
    let label = &text[begun.label.start..begun.label.end];
    Some(block_of(begun, stop_of(text, label, begun.behind)))
}
