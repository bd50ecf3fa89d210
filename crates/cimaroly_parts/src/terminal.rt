//! What the program stands in: terminals, and what the environment says of them.

use cimaroly_work::Stop;
use std::env::{self, Env, VarError};

/// What is known of standard output and standard error.
#[derive(Clone, Copy, Debug, PartialEq, Eq)]
pub struct Terminal {
    /// Whether standard output is a terminal.
    pub has_output: bool,
    /// Whether standard error is a terminal.
    pub has_errors: bool,
    /// Whether colours aren't wanted (`NO_COLOR`).
    pub is_plain: bool,
    /// How many columns standard output has, if it is a terminal and this is known (`COLUMNS`).
    pub width: Option<usize>,
}

/// A variable of the environment, if it is there and not empty.
///
/// # Errors
/// Memory is refused.
fn variable<R: Env + AllocGlobal>(rt: &R, name: &str) -> Result<Option<String>, Stop> {
    match env::var(rt, name) {
        Ok(text) if text.is_empty() => Ok(None),
        Ok(text) => Ok(Some(text)),
        Err(VarError::OutOfMemory) => Err(Stop::memory()),
        Err(VarError::NotPresent | VarError::NotUnicode) => Ok(None),
    }
}

impl Terminal {
    /// What is known where standard output and standard error are terminals or not.
    ///
    /// # Errors
    /// Memory is refused.
    pub fn new<R: Env + AllocGlobal>(
        rt: &R,
        has_output: bool,
        has_errors: bool,
    ) -> Result<Terminal, Stop> {
        let plain = Terminal {
            has_output,
            has_errors,
            is_plain: true,
            width: None,
        };
        if !has_output {
            return Ok(plain);
        }
        let no_color = variable(rt, "NO_COLOR")?;
        let columns = variable(rt, "COLUMNS")?;
        Ok(Terminal {
            is_plain: no_color.is_some(),
            width: columns.and_then(|text| text.as_str().parse::<usize>().ok()),
            ..plain
        })
    }
}
