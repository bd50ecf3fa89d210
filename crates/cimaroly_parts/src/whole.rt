//! Inputs that are read whole, and outputs that are written at once.

use crate::cli::keep;
use crate::files::NO_TEXT;
use crate::words::MARK;
use anyhow::Error;
use cimaroly_work::input::{read_front, read_rest};
use cimaroly_work::{Status, Stop};
use clap::{Arg, ArgMatches};
use std::alloc::Global;
use std::fs::{self, File};
use std::io::{self, Read, Write};
use std::rt::Files;
use x509_pem_writer::pem_text;

/// What is said of an input that is too long.
const TOO_LONG: &str = "input must be under 64 MiB";

/// What is said where `--pem` is asked of something that has no label.
const NO_LABEL: &str = "PEM has no label for what was made (RFC 7468): leave out --pem";

/// The option that says where to write.
pub(crate) fn output_option<'a>(alloc: Global) -> Arg<'a> {
    Arg::new(alloc, "output")
        .short('o')
        .long("output")
        .value_name("FILE")
        .help("Write to this file instead of standard output")
}

/// All that an input has.
fn read_all<R: Read + Drop>(alloc: Global, path: &str, mut input: R) -> Result<Vec<u8>, Stop> {
    let mut bytes = match read_front(alloc, &mut input) {
        Ok(front) => front,
        Err(error) => return Err(Stop::at(Status::Failed, path, error)),
    };
    match read_rest(&mut bytes, &mut input) {
        Ok(true) => Ok(bytes),
        Ok(false) => Err(Stop::at(Status::Failed, path, TOO_LONG)),
        Err(error) => Err(Stop::at(Status::Failed, path, error)),
    }
}

/// All that a file has, or standard input where its path is `-`.
///
/// # Errors
/// The input failed or is too long, or memory is refused.
pub(crate) fn bytes_of<R>(rt: &R, path: &str) -> Result<Vec<u8>, Stop>
where
    R: Files<File = File> + Input + AllocGlobal,
{
    if let Some(name) = path.strip_prefix(MARK) {
        // it was escaped when it was made
        return Err(Stop {
            status: Status::Failed,
            error: Some(Error::msg(format_args!("{name}: {NO_TEXT}"))),
        });
    }
    if path == "-" {
        return read_all(rt.alloc(), path, rt.reader());
    }
    match fs::open(rt, path) {
        Ok(file) => read_all(rt.alloc(), path, file),
        Err(error) => Err(Stop::at(Status::Failed, path, error)),
    }
}

/// Writes bytes to the file that `-o` names, or to standard output.
///
/// # Errors
/// The output failed.
pub(crate) fn put_bytes<R>(rt: &R, matches: &ArgMatches<'_>, bytes: &[u8]) -> Result<(), Stop>
where
    R: Files<File = File> + Print + AllocGlobal,
{
    match matches.get_str("output") {
        Some(path) => keep(rt, path, bytes),
        None => {
            let mut out = io::writer(rt);
            out.write_all(bytes)?;
            out.flush()?;
            Ok(())
        }
    }
}

/// A block of PEM with a label.
///
/// # Errors
/// There is no label, or memory is refused.
pub(crate) fn labelled(alloc: Global, label: Option<&str>, der: &[u8]) -> Result<Vec<u8>, Stop> {
    match label {
        Some(label) => Ok(pem_text(alloc, label, der)?),
        None => Err(Stop::usage(Error::msg(NO_LABEL))),
    }
}

/// Writes what was made: in DER, or as PEM with a label where `--pem` asks for it.
///
/// # Errors
/// It has no label, the output failed, or memory is refused.
pub(crate) fn put<R>(
    rt: &R,
    matches: &ArgMatches<'_>,
    label: Option<&str>,
    der: &[u8],
) -> Result<(), Stop>
where
    R: Files<File = File> + Print + AllocGlobal,
{
    if !matches.get_flag("pem") {
        return put_bytes(rt, matches, der);
    }
    let text = labelled(rt.alloc(), label, der)?;
    put_bytes(rt, matches, text.as_slice())
}

/// Whether DER would be written to a terminal.
pub(crate) fn is_bare(matches: &ArgMatches<'_>) -> bool {
    !matches.get_flag("pem") && matches.get_str("output").is_none()
}
