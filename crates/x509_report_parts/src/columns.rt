//! A writer of lines that fit in a number of columns.

use std::fmt::{self, Write};

/// The first characters of a text, at most so many.
pub(crate) fn front_of(text: &str, count: usize) -> &str {
    match text.char_indices().nth(count) {
        Some((end, _)) => text.get(..end).unwrap_or(""),
        None => text,
    }
}

/// How many characters a text has.
pub(crate) fn count_of(text: &str) -> usize {
    if text.is_ascii() {
        text.len()
    } else {
        text.chars().count()
    }
}

/// A writer that passes on as much of each line as there are columns for, and `..` in the place of the rest.
#[derive(Drop)]
pub struct Columns<'w, W: Write> {
    out: &'w mut W,
    limit: usize,
    count: usize,
    is_cut: bool,
}

impl<'w, W: Write> Columns<'w, W> {
    /// Lines of so many columns; of any number where there is none.
    pub fn new(out: &'w mut W, width: Option<usize>) -> Self {
        let limit = match width {
            Some(width) => width.saturating_sub(2),
            None => usize::MAX,
        };
        Columns {
            out,
            limit,
            count: 0,
            is_cut: false,
        }
    }

    /// Writes what takes no columns, as what turns colours on and off.
    ///
    /// # Errors
    /// What the writer fails with.
    pub fn unseen(&mut self, text: &'static str) -> fmt::Result {
        self.out.write_str(text)
    }

    /// Writes a part of a line, as far as there are columns for it.
    fn part(&mut self, text: &str) -> fmt::Result {
        let room = self.limit.saturating_sub(self.count);
        let front = if text.len() <= room {
            text
        } else {
            front_of(text, room)
        };
        self.is_cut = self.is_cut || front.len() < text.len();
        self.count = self.count.saturating_add(count_of(front));
        self.out.write_str(front)
    }

    /// Writes what a line that was cut ends with.
    ///
    /// # Errors
    /// What the writer fails with.
    pub fn finish(&mut self) -> fmt::Result {
        let is_cut = self.is_cut;
        self.count = 0;
        self.is_cut = false;
        if is_cut {
            return self.out.write_str("..");
        }
        Ok(())
    }
}

impl<W: Write> Write for Columns<'_, W> {
    fn write_str(&mut self, text: &str) -> fmt::Result {
        let mut is_first = true;
        for part in text.split('\n') {
            if !is_first {
                self.finish()?;
                self.out.write_str("\n")?;
            }
            is_first = false;
            self.part(part)?;
        }
        Ok(())
    }
}
