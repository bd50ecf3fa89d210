//! The words of the command line, and which of them are files.

use cimaroly_work::Stop;
use std::alloc::AllocError;
use std::env::{Env, FillError};
use std::fs;
use std::rt::Files;
use x509_report_parts::shown::ShownBytes;

/// What begins the word that stands for an argument which isn't UTF-8, and then is escaped. No argument has this character.
pub(crate) const MARK: char = '\0';

/// How many bytes are asked for at first.
const ROOM: usize = 256;

/// How often the room may double.
const DOUBLED: u32 = 40;

/// The bytes of an argument; `None` behind the last.
///
/// # Errors
/// Memory is refused.
fn argument<R: Env + AllocGlobal>(rt: &R, index: usize) -> Result<Option<Vec<u8>>, Stop> {
    let mut bytes = Vec::new(rt.alloc());
    let mut room = ROOM;
    for _ in 0..DOUBLED {
        bytes.resize(room, 0)?;
        match rt.arg(index, bytes.as_mut_slice()) {
            Ok(len) => {
                bytes.truncate(len);
                return Ok(Some(bytes));
            }
            Err(FillError::NotPresent) => return Ok(None),
            Err(FillError::TooLong) => room = room.saturating_mul(2),
        }
    }
    Err(Stop::memory())
}

/// The word that stands for an argument.
fn word_of<R: AllocGlobal>(rt: &R, bytes: Vec<u8>) -> Result<String, Stop> {
    match std::str::from_utf8(bytes.as_slice()) {
        Ok(text) => Ok(String::from_str(rt.alloc(), text)?),
        Err(_) => Ok(format!(in rt.alloc(); "{MARK}{}", ShownBytes(bytes.as_slice()))?),
    }
}

/// The words of the command line, the program's name among them. One that isn't UTF-8 is escaped, behind a mark.
///
/// # Errors
/// Memory is refused.
pub fn words<R: Env + AllocGlobal>(rt: &R) -> Result<Vec<String>, Stop> {
    let mut words = Vec::new(rt.alloc());
    for index in 0..usize::MAX {
        let Some(bytes) = argument(rt, index)? else {
            break;
        };
        if words.push(word_of(rt, bytes)?).is_err() {
            return Err(Stop::memory());
        }
    }
    Ok(words)
}

/// Whether a word that stands where a command does is a file, or an option of `show`.
fn is_shown<R: Files>(rt: &R, word: &str) -> bool {
    match word {
        "show" | "check" | "der" | "tree" | "match" | "lint" | "help" => false,
        "signed" | "assemble" | "request" | "certificate" | "make" => false,
        "-h" | "--help" | "-V" | "--version" => false,
        "-" => true,
        _ => word.starts_with('-') || is_path(word) || fs::metadata(rt, word).is_ok(),
    }
}

/// Whether a word has what paths have, and commands don't.
fn is_path(word: &str) -> bool {
    word.contains(MARK) || word.contains('.') || word.contains('/')
}

/// The same words with the command `show` where a file stands in the place of the command.
///
/// # Errors
/// Memory is refused.
pub(crate) fn with_command<'a, R: Files + AllocGlobal>(
    rt: &R,
    words: &'a [String],
) -> Result<Vec<&'a str>, AllocError> {
    let mut all = Vec::new(rt.alloc());
    for (index, word) in words.iter().enumerate() {
        if index == 1 && is_shown(rt, word.as_str()) {
            all.push("show")?;
        }
        all.push(word.as_str())?;
    }
    Ok(all)
}
