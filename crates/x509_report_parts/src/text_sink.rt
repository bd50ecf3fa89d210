//! A report as text, a line for each node.

use crate::columns::{count_of, front_of};
use crate::cursor::Span;
use crate::shown::{Frame, Shown, is_harmless};
use crate::sink::{Label, Shape, Sink, Value};
use crate::values::{Address, Count, Dotted, Hex, Latin1, ShortHex, Stamp, Utf16, Utf32, name_in};
use std::fmt::{self, Display, Write};

/// Whether object identifiers that have names stand with their dots too.
#[derive(Clone, Copy, Debug, PartialEq, Eq)]
pub enum Identifiers {
    /// By their names alone.
    Named,
    /// By their names and with dots.
    Dotted,
}

/// In which column values begin.
const VALUES: usize = 34;

/// In which column the starts of places end.
const PLACES: usize = 84;

/// As many spaces as are written at a time, which go up to the column of places.
const SPACES: &str =
    "                                                                                    ";

/// How many columns a report has at least.
const NARROWEST: usize = 60;

/// How many columns stand behind the last that a value may fill: for two full stops, two spaces and a place below a
/// million.
const BEHIND: usize = 18;

/// How many columns stand behind the one in which the starts of places end.
const ENDS: usize = 9;

/// A writer that counts the characters which it passes on, and passes on no more than a line has room for.
#[derive(Drop)]
struct Counted<'w, W: Write> {
    out: &'w mut W,
    count: usize,
    limit: usize,
    is_cut: bool,
}

impl<W: Write> Write for Counted<'_, W> {
    fn write_str(&mut self, text: &str) -> fmt::Result {
        let room = self.limit.saturating_sub(self.count);
        if text.len() > room {
            return self.cut(text, room);
        }
        self.count = self.count.saturating_add(count_of(text));
        self.out.write_str(text)
    }
}

impl<W: Write> Counted<'_, W> {
    /// Writes as much of a text as there is room for.
    fn cut(&mut self, text: &str, room: usize) -> fmt::Result {
        let front = front_of(text, room);
        self.is_cut = self.is_cut || front.len() < text.len();
        self.count = self.count.saturating_add(count_of(front));
        self.out.write_str(front)
    }

    /// Writes a text of ASCII.
    fn put(&mut self, text: &str) -> fmt::Result {
        let room = self.limit.saturating_sub(self.count);
        if text.len() > room {
            return self.cut(text, room);
        }
        self.count = self.count.saturating_add(text.len());
        self.out.write_str(text)
    }

    /// Writes so many spaces; as many as there are at a time, where these are fewer.
    fn space(&mut self, count: usize) -> fmt::Result {
        self.put(SPACES.get(..count).unwrap_or(SPACES))
    }

    /// Writes spaces up to a column, and at least some.
    fn pad(&mut self, column: usize, least: usize) -> fmt::Result {
        self.space(column.saturating_sub(self.count).max(least))
    }

    /// Writes a text of the input between quotation marks.
    fn quote(&mut self, text: &str) -> fmt::Result {
        if !is_harmless(text) {
            return write_text(self, &text);
        }
        self.put("\"")?;
        self.put(text)?;
        self.put("\"")
    }
}

/// A line for each node, two spaces deeper for each node around it: the label, the value, and in a column on the right the
/// bytes that it covers, as in `13..35`. Nothing of the input is written as it is but characters that have a glyph.
#[derive(Drop)]
pub struct TextSink<'w, W: Write> {
    out: Counted<'w, W>,
    /// In which column the starts of places end.
    places: usize,
    identifiers: Identifiers,
    depth: usize,
    /// Whether the node that is open has no line of its own, in the lowest bit; in the others, those around it.
    only: u64,
    /// The place of the node whose fields stand on one line, while they do, and whether a value stands there.
    line: Option<(Span, bool)>,
}

/// An object identifier, by its content: its name, or with dots where it has none here, or both.
#[derive(Clone, Copy, Drop)]
pub struct Named<'a>(pub &'a [u8], pub Identifiers);

impl Display for Named<'_> {
    fn fmt<W: Write>(&self, f: &mut fmt::Formatter<W>) -> fmt::Result {
        write_identifier(f, self.0, self.1)
    }
}

/// Writes an object identifier, by its content.
fn write_identifier<W: Write>(
    out: &mut W,
    content: &[u8],
    identifiers: Identifiers,
) -> fmt::Result {
    let dotted = Dotted(content);
    match (name_in(content), identifiers) {
        (Some(name), Identifiers::Named) => out.write_str(name),
        (Some(name), Identifiers::Dotted) => write!(out, "{name} ({dotted})"),
        (None, _) => write!(out, "{dotted}"),
    }
}

/// The object identifier of something that isn't read, by its content: with dots, and its name in brackets, if it has one
/// here.
#[derive(Clone, Copy, Drop)]
pub struct Unread<'a>(pub &'a [u8]);

impl Display for Unread<'_> {
    fn fmt<W: Write>(&self, f: &mut fmt::Formatter<W>) -> fmt::Result {
        let dotted = Dotted(self.0);
        match name_in(self.0) {
            Some(name) => write!(f, "{dotted} ({name})"),
            None => write!(f, "{dotted}"),
        }
    }
}

/// Writes words with commas between them.
fn write_words<W: Write>(out: &mut W, words: &[&str]) -> fmt::Result {
    let mut is_first = true;
    for word in words {
        if !is_first {
            out.write_str(", ")?;
        }
        is_first = false;
        out.write_str(word)?;
    }
    Ok(())
}

/// Writes bytes, behind their number where they are too many for a line.
fn write_octets<W: Write>(out: &mut W, bytes: &[u8]) -> fmt::Result {
    let count = bytes.len();
    if count == 0 {
        return out.write_str("0 bytes");
    }
    if count > 32 {
        write!(out, "{count} bytes, ")?;
    }
    write!(out, "{}", ShortHex(bytes))
}

/// Writes bytes behind their number.
fn write_kept<W: Write>(out: &mut W, bytes: &[u8]) -> fmt::Result {
    match bytes.len() {
        0 => out.write_str("0 bytes"),
        count => write!(out, "{}, {}", Count(count as u64, "byte"), ShortHex(bytes)),
    }
}

/// The number whose last digits in base 256 these are, behind those of another number; modulo 2^64.
fn joined(front: u64, digits: &[u8]) -> u64 {
    let mut number = front;
    for digit in digits {
        number = number.wrapping_mul(256) | u64::from(*digit);
    }
    number
}

/// Writes a number of a key: in decimal where it has at most 64 bits, and else its size in bits, and its bytes.
fn write_number<W: Write>(out: &mut W, count: u64, bytes: &[u8]) -> fmt::Result {
    match bytes {
        [128..=255, ..] => write_negative(out, count, bytes),
        [0, digits @ ..] => write_natural(out, count, digits),
        digits => write_natural(out, count, digits),
    }
}

/// The same of a number that isn't below 0, by its digits in base 256.
fn write_natural<W: Write>(out: &mut W, count: u64, digits: &[u8]) -> fmt::Result {
    if count > 64 {
        return write_bits(out, count, digits);
    }
    write!(out, "{}", joined(0, digits))
}

/// The same of a number below 0, whose bytes are in two's complement.
fn write_negative<W: Write>(out: &mut W, count: u64, bytes: &[u8]) -> fmt::Result {
    if bytes.len() > 8 {
        return write!(
            out,
            "negative, {}, {}",
            Count(count, "bit"),
            ShortHex(bytes)
        );
    }
    let size = joined(u64::MAX, bytes).wrapping_neg();
    write!(out, "-{size}")
}

/// Writes a number of bits, and bytes.
fn write_bits<W: Write>(out: &mut W, count: u64, bytes: &[u8]) -> fmt::Result {
    write!(out, "{}", Count(count, "bit"))?;
    if bytes.is_empty() {
        return Ok(());
    }
    write!(out, ", {}", ShortHex(bytes))
}

/// Writes text between quotation marks.
fn write_text<W: Write, T: Display>(out: &mut W, text: &T) -> fmt::Result {
    write!(out, "\"{}\"", Shown(text, Frame::Quotes))
}

/// Writes a value.
fn write_value<W: Write>(
    out: &mut Counted<'_, W>,
    value: Value<'_>,
    identifiers: Identifiers,
) -> fmt::Result {
    match value {
        Value::Text(text) | Value::Typed(_, text) => out.quote(text),
        Value::Utf16(bytes) => write_text(out, &Utf16(bytes)),
        Value::Latin1(_, bytes) => write_text(out, &Latin1(bytes)),
        Value::Utf32(bytes) => write_text(out, &Utf32(bytes)),
        Value::Word(word) | Value::Algorithm(word) | Value::Enumerated(word) => out.put(word),
        Value::Words(words) | Value::Usages(_, _, words) => write_words(out, words),
        Value::Identifier(content) => write_identifier(out, content, identifiers),
        Value::UnreadIdentifier(content) => write!(out, "{}, not read", Unread(content)),
        Value::Number(number) | Value::Count(number) => write!(out, "{number}"),
        Value::Integer(bytes) => write!(out, "{}", Hex(bytes)),
        Value::Sized(count, bytes) => write_number(out, count, bytes),
        Value::Bits(count, bytes) => write_bits(out, count, bytes),
        Value::Octets(bytes) | Value::Raw(bytes) | Value::Opaque(bytes) => write_octets(out, bytes),
        Value::Kept(bytes) => write_kept(out, bytes),
        Value::Malformed { octets, reason, at } => {
            write!(out, "malformed: {reason} at byte {at}, ")?;
            write_kept(out, octets)
        }
        Value::Flag(flag) => write!(out, "{flag}"),
        Value::Time(moment) | Value::UtcTime(moment) => write!(out, "{}", Stamp(moment)),
        Value::Address(bytes) => write!(out, "{}", Address(bytes)),
        Value::Null => out.put("NULL"),
        Value::Hidden(count) => write!(out, "{}, not shown", Count(count, "byte")),
    }
}

/// Whether a value tells by itself what it is, in a line of several.
fn is_plain(value: Value<'_>) -> bool {
    matches!(
        value,
        Value::Identifier(_)
            | Value::UnreadIdentifier(_)
            | Value::Word(_)
            | Value::Algorithm(_)
            | Value::Enumerated(_)
    )
}

impl<'w, W: Write> TextSink<'w, W> {
    /// Nothing is written yet. Where there is a width, values that don't fit in are cut, and end with `..`.
    pub fn new(out: &'w mut W, identifiers: Identifiers, width: Option<usize>) -> Self {
        let (limit, places) = match width {
            Some(width) => {
                let width = width.max(NARROWEST);
                (width - BEHIND, PLACES.min(width - ENDS))
            }
            None => (usize::MAX, PLACES),
        };
        let out = Counted {
            out,
            count: 0,
            limit,
            is_cut: false,
        };
        TextSink {
            out,
            places,
            identifiers,
            depth: 0,
            only: 0,
            line: None,
        }
    }

    /// Writes what a line begins with: the label, and where it is a critical extension's, that it is. Answers whether a
    /// value has begun.
    fn start(&mut self, label: Label<'_>) -> Result<bool, fmt::Error> {
        self.out.count = 0;
        self.out.is_cut = false;
        self.out.space(self.depth.saturating_mul(2))?;
        self.label(label)?;
        let is_critical = matches!(
            label,
            Label::Extension {
                is_critical: true,
                ..
            }
        );
        if is_critical {
            self.out.pad(VALUES, 2)?;
            self.out.put("critical")?;
        }
        Ok(is_critical)
    }

    /// Writes what stands between a label, or a value before it, and a value.
    fn separate(&mut self, has_begun: bool) -> fmt::Result {
        if has_begun {
            self.out.put(", ")
        } else {
            self.out.pad(VALUES, 2)
        }
    }

    /// Writes a label.
    fn label(&mut self, label: Label<'_>) -> fmt::Result {
        let identifiers = self.identifiers;
        match label {
            Label::Field(name) => self.out.put(name),
            Label::Identifier(content) | Label::Extension { content, .. } => {
                write_identifier(&mut self.out, content, identifiers)
            }
        }
    }

    /// Writes what a line ends with: a place.
    fn finish(&mut self, span: Span) -> fmt::Result {
        let Span { start, end } = span;
        let width = match start {
            0..=9 => 1,
            10..=99 => 2,
            100..=999 => 3,
            1000..=9999 => 4,
            10000..=99999 => 5,
            100000..=999999 => 6,
            _ => 7,
        };
        let mut count = self.out.count;
        if self.out.is_cut {
            self.out.out.write_str("..")?;
            count = count.saturating_add(2);
        }
        // what a line ends with isn't counted
        let gap = self
            .places
            .saturating_sub(width)
            .saturating_sub(count)
            .max(2);
        self.out.out.write_str(SPACES.get(..gap).unwrap_or(SPACES))?;
        writeln!(self.out.out, "{start}..{end}")
    }

    /// Writes a field on the line of several.
    fn add(&mut self, has_begun: bool, label: Label<'_>, value: Value<'_>) -> fmt::Result {
        self.separate(has_begun)?;
        if !is_plain(value) {
            self.label(label)?;
            self.out.put(" ")?;
        }
        write_value(&mut self.out, value, self.identifiers)
    }
}

impl<W: Write> Sink for TextSink<'_, W> {
    type Error = fmt::Error;

    fn begin(&mut self, label: Label<'_>, span: Span, shape: Shape) -> fmt::Result {
        self.only = self.only.wrapping_mul(2) | u64::from(shape == Shape::Only);
        match shape {
            Shape::Only => return Ok(()),
            Shape::Line => {
                let has_begun = self.start(label)?;
                self.line = Some((span, has_begun));
            }
            Shape::Fields | Shape::Items => {
                let _ = self.start(label)?;
                self.finish(span)?;
            }
        }
        self.depth = self.depth.saturating_add(1);
        Ok(())
    }

    fn field(&mut self, label: Label<'_>, span: Span, value: Value<'_>) -> fmt::Result {
        if let Some((around, has_begun)) = self.line {
            if matches!(value, Value::Null) {
                return Ok(());
            }
            self.line = Some((around, true));
            return self.add(has_begun, label, value);
        }
        let has_begun = self.start(label)?;
        self.separate(has_begun)?;
        write_value(&mut self.out, value, self.identifiers)?;
        self.finish(span)
    }

    fn left_out(&mut self, label: Label<'_>, value: Value<'_>) -> fmt::Result {
        match self.line {
            Some((around, has_begun)) => {
                self.line = Some((around, true));
                self.add(has_begun, label, value)
            }
            None => Ok(()),
        }
    }

    fn end(&mut self) -> fmt::Result {
        let is_only = self.only % 2 == 1;
        self.only /= 2;
        if is_only {
            return Ok(());
        }
        self.depth = self.depth.saturating_sub(1);
        match self.line {
            Some((span, has_begun)) => {
                self.line = None;
                if !has_begun {
                    self.out.pad(VALUES, 2)?;
                    self.out.put("empty")?;
                }
                self.finish(span)
            }
            None => Ok(()),
        }
    }
}
