//! How far the work is: a line each second, or a bar.

use cimaroly_work::Tally;
use std::io;
use std::time::{Clock, Duration, Instant};
use x509_report_parts::values::Count;

/// How progress is told.
#[derive(Clone, Copy, Debug, PartialEq, Eq)]
pub(crate) enum Telling {
    /// Not at all.
    Never,
    /// By a line each second.
    Lines,
    /// By a bar, ten times a second.
    Bar,
}

/// How wide the bar is.
const WIDTH: u64 = 20;

/// Goes to the start of a terminal's line, and clears it (ECMA-48, 8.3.41).
const CLEAR: &str = "\r\x1b[K";

/// When the work began, and when it was last told how far it is.
#[derive(Clone, Copy, Drop)]
struct Times {
    first: Instant,
    last: Instant,
}

/// How far the work is.
#[derive(Clone, Copy, Drop)]
pub(crate) struct Progress {
    telling: Telling,
    times: Option<Times>,
    is_drawn: bool,
    /// How many files were worked on.
    done: u64,
    /// How many are known.
    known: u64,
}

impl Progress {
    /// Nothing was told yet.
    ///
    /// # Errors
    /// The clock can't be read.
    pub(crate) fn new<R: Clock>(rt: &R, telling: Telling) -> io::Result<Progress> {
        let times = if telling == Telling::Never {
            None
        } else {
            let first = Instant::now(rt)?;
            Some(Times { first, last: first })
        };
        Ok(Progress {
            telling,
            times,
            is_drawn: false,
            done: 0,
            known: 0,
        })
    }

    /// So many more files are known.
    pub(crate) fn expect(&mut self, count: usize) {
        self.known = self.known.saturating_add(count as u64);
    }

    /// What was taken for a file is a folder of so many.
    pub(crate) fn open(&mut self, count: usize) {
        self.known = self.known.saturating_sub(1);
        self.expect(count);
    }

    /// One more file was worked on.
    pub(crate) fn pass(&mut self) {
        self.done = self.done.saturating_add(1);
    }

    /// Tells standard error how far the work is, where it is time for it.
    ///
    /// # Errors
    /// The clock can't be read, or standard error can't be written to.
    pub(crate) fn tick<R: Clock + Eprint>(&mut self, rt: &R, tally: &Tally) -> io::Result<()> {
        let Some(Times { first, last }) = self.times else {
            return Ok(());
        };
        let is_bar = self.telling == Telling::Bar;
        let least = if is_bar { 100 } else { 1000 };
        if last.elapsed(rt)?.as_millis() < least {
            return Ok(());
        }
        let last = Instant::now(rt)?;
        self.times = Some(Times { first, last });
        if !is_bar {
            return eprintln!(rt; "{tally}");
        }
        self.draw(rt, tally, first.elapsed(rt)?)
    }

    /// Draws the bar.
    fn draw<R: Eprint>(&mut self, rt: &R, tally: &Tally, since: Duration) -> io::Result<()> {
        let millis = u64::try_from(since.as_millis()).unwrap_or(u64::MAX).max(1);
        let Progress { done, known, .. } = *self;
        let known = known.max(done).max(1);
        let filled = done.saturating_mul(WIDTH) / known;
        eprint!(rt; "{CLEAR}[")?;
        for column in 0..WIDTH {
            eprint!(rt; "{}", if column < filled { '#' } else { ' ' })?;
        }
        let count = tally.structures();
        let rate = count.saturating_mul(1000) / millis;
        let (files, structures) = (Count(known, "file"), Count(count, "structure"));
        eprint!(rt; "] {done} of {files}, {structures}, {rate}/s")?;
        self.is_drawn = true;
        if done == 0 {
            return Ok(());
        }
        let left = millis.saturating_mul(known.saturating_sub(done)) / done / 1000;
        eprint!(rt; ", {left} s left")
    }

    /// Clears the bar, if it is there.
    ///
    /// # Errors
    /// Standard error can't be written to.
    pub(crate) fn clear<R: Eprint>(&mut self, rt: &R) -> io::Result<()> {
        if !self.is_drawn {
            return Ok(());
        }
        self.is_drawn = false;
        eprint!(rt; "{CLEAR}")
    }
}
