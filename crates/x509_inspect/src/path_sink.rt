//! The values at a path of a report's fields, as `subject.commonName`.

use std::fmt::{self, Display, Write};
use x509_report::{Label, Reported, Secrets, Shape, Sink, Span, Value};
use x509_report_fields::name::InLine;
use x509_report_further::Limited;
use x509_report_parts::Identifiers;
use x509_report_parts::text_sink::Named;
use x509_report_parts::values::{Count, Hex, Stamp, name_in};

/// In how many nodes a node may stand that is found.
const DEPTH: usize = 24;

/// A value as it stands in a cell: bytes in hexadecimal, and what else there is as in a text, but whole and without quotation
/// marks.
#[derive(Clone, Copy, Drop)]
struct InCell<'a>(Value<'a>);

/// Writes words with commas between them.
fn write_words<W: Write>(out: &mut W, words: &[&str]) -> fmt::Result {
    let mut is_first = true;
    for word in words {
        if !is_first {
            out.write_str(", ")?;
        }
        is_first = false;
        out.write_str(word)?;
    }
    Ok(())
}

impl Display for InCell<'_> {
    fn fmt<W: Write>(&self, f: &mut fmt::Formatter<W>) -> fmt::Result {
        match self.0 {
            Value::Word(word) | Value::Enumerated(word) | Value::Algorithm(word) => {
                f.write_str(word)
            }
            Value::Words(words) | Value::Usages(_, _, words) => write_words(f, words),
            Value::Identifier(content) | Value::UnreadIdentifier(content) => {
                write!(f, "{}", Named(content, Identifiers::Named))
            }
            Value::Number(number) | Value::Count(number) => write!(f, "{number}"),
            Value::Integer(bytes)
            | Value::Sized(_, bytes)
            | Value::Bits(_, bytes)
            | Value::Octets(bytes)
            | Value::Kept(bytes)
            | Value::Opaque(bytes)
            | Value::Malformed { octets: bytes, .. } => write!(f, "{}", Hex(bytes)),
            Value::Flag(flag) => write!(f, "{flag}"),
            Value::Time(moment) | Value::UtcTime(moment) => write!(f, "{}", Stamp(moment)),
            Value::Null => f.write_str("NULL"),
            Value::Hidden(count) => write!(f, "{}, not shown", Count(count, "byte")),
            value => write!(f, "{}", InLine(value)),
        }
    }
}

/// What a node is called in a path: by its field, or by the name of its object identifier, if it has one.
fn name_of(label: Label<'_>) -> &'static str {
    match label {
        Label::Field(name) => name,
        Label::Identifier(content) | Label::Extension { content, .. } => {
            name_in(content).unwrap_or("")
        }
    }
}

/// Which fronts of a path the names of nodes end with that stand in each other, by those that they end with without the
/// innermost: of each front a bit, from the shortest on.
fn fronts_of(path: &str, around: u64, name: &str) -> u64 {
    let mut fronts = 0;
    let mut before = 0;
    let mut bit: u64 = 1;
    for part in path.split('.') {
        if part == name && (before == 0 || around & before != 0) {
            fronts |= bit;
        }
        before = bit;
        bit = bit.wrapping_mul(2);
    }
    fronts
}

/// The bit of a whole path; none where it has more names than a number has bits.
fn whole_of(path: &str) -> u64 {
    let mut bit: u64 = 1;
    for _ in path.split('.').skip(1) {
        bit = bit.wrapping_mul(2);
    }
    bit
}

/// Writes the values of the nodes whose names, with those of the nodes around them, end with a path: with semicolons between
/// them, and of a node with nodes in it the values of those, with commas.
#[derive(Drop)]
struct PathSink<'w, 'p, W: Write> {
    out: &'w mut W,
    path: &'p str,
    /// Of each node that is open, which fronts of the path the names end with.
    open: [u64; DEPTH],
    depth: usize,
    /// How many nodes are open since the one that was found.
    found: usize,
    has_value: bool,
    has_part: bool,
}

impl<W: Write> PathSink<'_, '_, W> {
    /// The fronts of the path that the names end with around what comes next.
    fn around(&self) -> u64 {
        match self.depth.checked_sub(1) {
            Some(last) => self.open.get(last).copied().unwrap_or(0),
            None => 0,
        }
    }

    /// The same with a name behind it.
    fn with(&self, label: Label<'_>) -> u64 {
        fronts_of(self.path, self.around(), name_of(label))
    }

    /// A node that is asked for begins.
    fn begin_value(&mut self) -> fmt::Result {
        self.has_part = false;
        if self.has_value {
            self.out.write_str("; ")?;
        }
        self.has_value = true;
        Ok(())
    }

    /// Writes a value in a node that is asked for, behind its name.
    fn part(&mut self, label: Label<'_>, value: Value<'_>) -> fmt::Result {
        if self.has_part {
            self.out.write_str(", ")?;
        }
        self.has_part = true;
        write!(self.out, "{} {}", name_of(label), InCell(value))
    }
}

impl<W: Write> Sink for PathSink<'_, '_, W> {
    type Error = fmt::Error;

    fn begin(&mut self, label: Label<'_>, _span: Span, shape: Shape) -> fmt::Result {
        let is_set = matches!(label, Label::Field("RelativeDistinguishedName"));
        let fronts = if shape == Shape::Only || is_set {
            self.around()
        } else {
            self.with(label)
        };
        if self.found > 0 {
            self.found = self.found.saturating_add(1);
        } else if fronts & whole_of(self.path) != 0 {
            self.found = 1;
            self.begin_value()?;
        }
        if self.depth < DEPTH {
            self.open[self.depth] = fronts;
        }
        self.depth = self.depth.saturating_add(1);
        Ok(())
    }

    fn field(&mut self, label: Label<'_>, _span: Span, value: Value<'_>) -> fmt::Result {
        if self.found > 0 {
            return self.part(label, value);
        }
        if self.with(label) & whole_of(self.path) == 0 {
            return Ok(());
        }
        self.begin_value()?;
        write!(self.out, "{}", InCell(value))
    }

    fn left_out(&mut self, _label: Label<'_>, _value: Value<'_>) -> fmt::Result {
        Ok(())
    }

    fn deviating(&mut self, _count: usize) -> fmt::Result {
        Ok(())
    }

    fn end(&mut self) -> fmt::Result {
        self.depth = self.depth.saturating_sub(1);
        self.found = self.found.saturating_sub(1);
        Ok(())
    }
}

impl<W: Write> Limited for PathSink<'_, '_, W> {
    fn out_of_memory() -> fmt::Error {
        fmt::Error
    }
}

/// Writes the values at a path of the fields of a value that was read from these bytes.
pub(crate) fn write_path<T: Reported, W: Write>(
    out: &mut W,
    value: &T,
    bytes: &[u8],
    path: &str,
    secrets: Secrets,
) -> fmt::Result {
    let mut sink = PathSink {
        out,
        path,
        open: [0; DEPTH],
        depth: 0,
        found: 0,
        has_value: false,
        has_part: false,
    };
    value.tell(&mut sink, bytes, secrets)
}
