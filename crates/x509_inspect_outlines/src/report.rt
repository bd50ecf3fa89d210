//! A report as text.

use crate::task::{Asked, Task, pin_of, run_as};
use std::alloc::{AllocError, Allocator};
use std::fmt::{self, Write};
use x509_der::{Place, Refused};
use x509_inspect::{NameTexts, Options, print_report};
use x509_report::Reported;
use x509_report_outlines::Keyholder;
use x509_report_parts::Layout;

/// The writing of a report.
#[derive(Drop)]
struct WriteText<'a, 'w, A, W: Write> {
    alloc: A,
    bytes: &'a [u8],
    options: Options,
    layout: Layout,
    out: &'w mut W,
}

impl<A: Allocator + Copy, W: Write> Task<A> for WriteText<'_, '_, A, W> {
    type Answer = Result<Result<usize, fmt::Error>, Refused>;

    fn run<R: Reported + Keyholder<A>>(
        self,
        report: &R,
        places: &[Place],
    ) -> Result<Result<usize, fmt::Error>, Refused> {
        let WriteText {
            alloc,
            bytes,
            options,
            layout,
            out,
        } = self;
        let pin = match pin_of(alloc, report) {
            Ok(pin) => pin,
            Err(AllocError) => return Ok(Err(fmt::Error)),
        };
        let Ok(texts) = NameTexts::of(alloc, report, bytes, options.names) else {
            return Ok(Err(fmt::Error));
        };
        let input = (bytes, places, pin, texts.as_names());
        let written = print_report(out, report, input, (options, layout));
        Ok(written.map(|()| places.len()))
    }

    fn refuse(self, refused: Refused) -> Result<Result<usize, fmt::Error>, Refused> {
        Err(refused)
    }
}

/// Writes the report of bytes as an outline, and answers how many deviations they have.
///
/// # Errors
/// The bytes encode no value of the type, or memory is refused; inside, writing failed.
pub fn write_outline<A: Allocator + Copy, W: Write>(
    alloc: A,
    asked: Asked<'_>,
    options: Options,
    layout: Layout,
    out: &mut W,
) -> Result<Result<usize, fmt::Error>, Refused> {
    let task = WriteText {
        alloc,
        bytes: asked.bytes,
        options,
        layout,
        out,
    };
    run_as(alloc, asked, task)
}
