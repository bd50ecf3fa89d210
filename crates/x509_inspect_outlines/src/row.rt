//! An outline on one line.

use crate::task::{Asked, Task, pin_of, run_as};
use std::alloc::{AllocError, Allocator};
use std::fmt::{self, Write};
use x509_der::{Place, Refused};
use x509_inspect::{Line, Options, Source, Told, write_cells};
use x509_report::Reported;
use x509_report_outlines::Keyholder;

/// The writing of a line.
#[derive(Drop)]
struct WriteRow<'a, 'w, A, W: Write> {
    alloc: A,
    source: Source<'a>,
    asked: Asked<'a>,
    told: Told<'a>,
    options: Options,
    out: &'w mut W,
}

impl<A: Allocator + Copy, W: Write> Task<A> for WriteRow<'_, '_, A, W> {
    type Answer = Result<Result<usize, fmt::Error>, Refused>;

    fn run<R: Reported + Keyholder<A>>(
        self,
        report: &R,
        places: &[Place],
    ) -> Result<Result<usize, fmt::Error>, Refused> {
        let WriteRow {
            alloc,
            source,
            asked,
            told,
            options,
            out,
        } = self;
        let deviations = places.len();
        let pin = match pin_of(alloc, report) {
            Ok(pin) => pin,
            Err(AllocError) => return Ok(Err(fmt::Error)),
        };
        let written = match told {
            Told::Brief => report.brief(out),
            Told::Cells(cells) => {
                let line = Line {
                    source,
                    kind: asked.kind.name(),
                    bytes: asked.bytes,
                    deviations,
                    pin,
                    options,
                };
                write_cells(alloc, out, &line, report, cells)
            }
        };
        Ok(written.map(|()| deviations))
    }

    fn refuse(self, refused: Refused) -> Result<Result<usize, fmt::Error>, Refused> {
        Err(refused)
    }
}

/// Writes an outline on one line, without a line feed where the most important is told, and answers how many deviations it
/// has.
///
/// # Errors
/// The bytes encode no value of the type, or memory is refused; inside, writing failed.
pub fn write_outline_row<A: Allocator + Copy, W: Write>(
    alloc: A,
    source: Source<'_>,
    asked: Asked<'_>,
    told: Told<'_>,
    options: Options,
    out: &mut W,
) -> Result<Result<usize, fmt::Error>, Refused> {
    let task = WriteRow {
        alloc,
        source,
        asked,
        told,
        options,
        out,
    };
    run_as(alloc, asked, task)
}
