//! A report as text.

ghost use Rattle.std.specs.Prelude.{IfOk, IfErr};
ghost use Rattle.x509_inspect.specs.Outcomes.{Counts, NotRead, WantsMemory};

use crate::names::{NameTexts, Names};
use crate::told::{Task, pin_told, read_told};
use std::alloc::Allocator;
use std::fmt::{self, Display, Write};
use x509_der::{FromDer, Place, Refused};
use x509_fingerprints::{Fingerprints, HexDigits, Keyed, Pin};
use x509_inspect_parts::Options;
use x509_report::{FieldSink, Reported, Secrets, Span, TextSink};
use x509_report_parts::{Columns, Layout, Mark};

/// Of how many deviations the field is told: to find one takes a walk over the whole.
pub(crate) const NAMED: usize = 16;

/// A value with the bytes that it was read from and the deviations in them, which prints its report.
#[derive(Drop)]
pub struct TextReport<'a, T: Reported> {
    /// The value.
    pub value: &'a T,
    /// The bytes.
    pub bytes: &'a [u8],
    /// The deviations.
    pub places: &'a [Place],
    /// The pin of the public key, if the value holds one.
    pub pin: Option<Pin>,
    /// The names of the subject and the issuer by RFC 4514, where they are asked for.
    pub names: Names<'a>,
    /// What is told.
    pub options: Options,
    /// How it is laid out.
    pub layout: Layout,
}

/// The field that stands over a place: it prints the names of the nodes around it.
#[derive(Drop)]
pub(crate) struct FieldOf<'a, T: Reported> {
    pub(crate) value: &'a T,
    pub(crate) bytes: &'a [u8],
    pub(crate) place: Span,
    pub(crate) separator: &'static str,
}

impl<T: Reported> Display for FieldOf<'_, T> {
    fn fmt<W: Write>(&self, f: &mut fmt::Formatter<W>) -> fmt::Result {
        let mut sink = FieldSink::new(f, self.place, self.separator);
        self.value.tell(&mut sink, self.bytes, Secrets::Hidden)
    }
}

/// A line that ends with what is written, in brackets behind a space; with nothing, where nothing is written.
#[derive(Drop)]
struct Bracketed<'w, W: Write> {
    out: &'w mut W,
    has_begun: bool,
}

impl<W: Write> Write for Bracketed<'_, W> {
    fn write_str(&mut self, text: &str) -> fmt::Result {
        if !self.has_begun {
            self.has_begun = true;
            self.out.write_str(" (")?;
        }
        self.out.write_str(text)
    }
}

impl<W: Write> Bracketed<'_, W> {
    /// Ends the line.
    fn finish(&mut self) -> fmt::Result {
        self.out
            .write_str(if self.has_begun { ")\n" } else { "\n" })
    }
}

/// How many deviations, in words.
fn write_count<W: Write>(out: &mut W, count: usize) -> fmt::Result {
    match count {
        0 => out.write_str("DER"),
        1 => out.write_str("not DER: 1 deviation"),
        _ => write!(out, "not DER: {count} deviations"),
    }
}

impl<T: Reported> TextReport<'_, T> {
    /// Writes the line of a deviation, with the fields around it, where there are any.
    fn write_deviation<W: Write>(&self, out: &mut Columns<'_, W>, place: &Place) -> fmt::Result {
        let colours = self.layout.colours;
        let Place { kind, start, end } = *place;
        let field = FieldOf {
            value: self.value,
            bytes: self.bytes,
            place: Span { start, end },
            separator: ", ",
        };
        out.write_str("  deviation   ")?;
        out.unseen(colours.begin(Mark::Deviation))?;
        write!(out, "{kind}, at {start}..{end}")?;
        out.unseen(colours.end())?;
        let mut around = Bracketed {
            out,
            has_begun: false,
        };
        write!(around, "{field}")?;
        around.finish()
    }

    /// Writes the lines of the deviations.
    fn write_deviations<W: Write>(&self, out: &mut Columns<'_, W>) -> fmt::Result {
        for place in self.places.iter().take(NAMED) {
            self.write_deviation(out, place)?;
        }
        let others = self.places.len().saturating_sub(NAMED);
        if others > 0 {
            writeln!(out, "  deviation   {others} more")?;
        }
        Ok(())
    }

    /// Writes the lines that stand before the fields.
    fn write_head<W: Write>(&self, out: &mut Columns<'_, W>) -> fmt::Result {
        let len = self.bytes.len();
        let colours = self.layout.colours;
        out.unseen(colours.begin(Mark::Heading))?;
        write!(out, "{}, {len} bytes, ", T::TITLE)?;
        write_count(out, self.places.len())?;
        out.unseen(colours.end())?;
        out.write_str("\n")?;
        self.value.summary(out)?;
        self.names.write_lines(out)?;
        self.write_digests(out)?;
        self.write_deviations(out)
    }

    /// Writes the lines of digests: the pin of the public key, and of what is signed where that stands, and fingerprints.
    fn write_digests<W: Write>(&self, out: &mut Columns<'_, W>) -> fmt::Result {
        if let Some(pin) = self.pin {
            writeln!(out, "  pin         {pin}")?;
        }
        if let Some(Span { start, end }) = self.value.signed(self.bytes) {
            writeln!(out, "  signed      {start}..{end}")?;
            let prints = Fingerprints::of(self.bytes);
            writeln!(out, "  SHA-256     {}", HexDigits(&prints.sha256))?;
            writeln!(out, "  SHA-1       {}", HexDigits(&prints.sha1))?;
        }
        Ok(())
    }
}

impl<T: Reported> Display for TextReport<'_, T> {
    fn fmt<W: Write>(&self, f: &mut fmt::Formatter<W>) -> fmt::Result {
        let width = self.layout.width;
        self.write_head(&mut Columns::new(f, width))?;
        f.write_str("\n")?;
        let mut sink = TextSink::new(f, self.options.identifiers, width);
        self.value.tell(&mut sink, self.bytes, self.options.secrets)
    }
}

/// The writing of a report.
#[derive(Drop)]
pub(crate) struct WriteText<'a, 'w, A, W: Write> {
    /// Where memory is asked for.
    pub(crate) alloc: A,
    /// The bytes.
    pub(crate) bytes: &'a [u8],
    /// What is told.
    pub(crate) options: Options,
    /// How it is laid out.
    pub(crate) layout: Layout,
    /// What is written to.
    pub(crate) out: &'w mut W,
}

/// Writes the report of a value: of what it was read from, the deviations in that, the pin, and names.
///
/// # Errors
/// What the writer fails with.
pub fn print_report<'x, T: Reported, W: Write>(
    out: &mut W,
    value: &'x T,
    input: (&'x [u8], &'x [Place], Option<Pin>, Names<'x>),
    form: (Options, Layout),
) -> fmt::Result {
    let (bytes, places, pin, names) = input;
    let (options, layout) = form;
    let report = TextReport {
        value,
        bytes,
        places,
        pin,
        names,
        options,
        layout,
    };
    write!(out, "{report}")
}

/// Writes the report of a value.
///
/// # Errors
/// Memory for the pin is refused; inside, writing failed.
fn write_report<T: Reported + Keyed<A>, A: Allocator + Copy, W: Write>(
    alloc: A,
    out: &mut W,
    value: &T,
    input: (&[u8], &[Place]),
    form: (Options, Layout),
) -> Result<fmt::Result, Refused>
    ensures { IfErr result WantsMemory }
{
    let (bytes, places) = input;
    let pin = pin_told(alloc, value)?;
    let Ok(texts) = NameTexts::of(alloc, value, bytes, form.0.names) else {
        return Ok(Err(fmt::Error));
    };
    Ok(print_report(out, value, (bytes, places, pin, texts.as_names()), form))
}

impl<A: Allocator + Copy, W: Write> Task<A> for WriteText<'_, '_, A, W> {
    type Answer = Result<Result<usize, fmt::Error>, Refused>;

    ghost says = { λ t V s r. IfOk r (λ written. IfOk written (Counts V s t.bytes.now)) × IfErr r (NotRead V s t.bytes.now) };

    fn run<T: FromDer<A> + Reported + Keyed<A>>(
        self,
    ) -> Result<Result<usize, fmt::Error>, Refused> {
        let WriteText {
            alloc,
            bytes,
            options,
            layout,
            out,
        } = self;
        let (value, places) = read_told::<T, A>(alloc, bytes)?;
        let input = (bytes, places.as_slice());
        let written = write_report(alloc, out, &value, input, (options, layout));
        drop(value);
        Ok(written?.map(|()| places.len()))
    }
}
