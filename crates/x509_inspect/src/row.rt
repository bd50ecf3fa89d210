//! A structure on one line.

ghost use Rattle.std.specs.Prelude.{IfOk, IfErr};
ghost use Rattle.x509_inspect.specs.Outcomes.{Counts, NotRead, WantsMemory};

use crate::cells::{Cell, Line, has_pin, write_cells};
use crate::told::{Task, pin_told, read_told};
use std::alloc::Allocator;
use std::fmt::{self, Write};
use x509_der::{FromDer, Refused};
use x509_fingerprints::Keyed;
use x509_inspect_parts::{Kind, Options, Source};
use x509_report::Reported;

/// A structure that is told on one line.
#[derive(Clone, Copy, Drop)]
pub struct Row<'a> {
    /// Where it comes from.
    pub source: Source<'a>,
    /// As what it is read.
    pub kind: Kind,
    /// The bytes.
    pub bytes: &'a [u8],
    /// What is told.
    pub options: Options,
}

/// What a line tells.
#[derive(Clone, Copy, Drop)]
pub enum Told<'a> {
    /// The most important.
    Brief,
    /// Cells, with tabs between them.
    Cells(&'a [Cell<'a>]),
}

/// Writes the line of a value.
///
/// # Errors
/// Memory for the pin is refused; inside, writing failed.
fn write_value<T: Reported + Keyed<A>, A: Allocator + Copy, W: Write>(
    alloc: A,
    out: &mut W,
    row: &Row<'_>,
    value: &T,
    asked: (Told<'_>, usize),
) -> Result<fmt::Result, Refused>
    ensures { IfErr result WantsMemory }
{
    let (told, deviations) = asked;
    match told {
        Told::Brief => Ok(value.brief(out)),
        Told::Cells(cells) => {
            let pin = if has_pin(cells) {
                pin_told(alloc, value)?
            } else {
                None
            };
            let line = Line {
                source: row.source,
                kind: row.kind.name(),
                bytes: row.bytes,
                deviations,
                pin,
                options: row.options,
            };
            Ok(write_cells(alloc, out, &line, value, cells))
        }
    }
}

/// The writing of a line.
#[derive(Drop)]
pub(crate) struct WriteRow<'a, 'w, A, W: Write> {
    /// Where memory is asked for.
    pub(crate) alloc: A,
    /// The structure.
    pub(crate) row: Row<'a>,
    /// What is told of it.
    pub(crate) told: Told<'a>,
    /// What is written to.
    pub(crate) out: &'w mut W,
}

impl<A: Allocator + Copy, W: Write> Task<A> for WriteRow<'_, '_, A, W> {
    type Answer = Result<Result<usize, fmt::Error>, Refused>;

    ghost says = { λ t V s r. IfOk r (λ written. IfOk written (Counts V s t.row.bytes.now)) × IfErr r (NotRead V s t.row.bytes.now) };

    fn run<T: FromDer<A> + Reported + Keyed<A>>(
        self,
    ) -> Result<Result<usize, fmt::Error>, Refused> {
        let WriteRow {
            alloc,
            row,
            told,
            out,
        } = self;
        let (value, places) = read_told::<T, A>(alloc, row.bytes)?;
        let written = write_value(alloc, out, &row, &value, (told, places.len()));
        drop(value);
        Ok(written?.map(|()| places.len()))
    }
}
