//! What stands on both sides of a signer: `cimaroly signed` and `cimaroly assemble`.

use crate::cli::{BINARY, keep, outline_option, work, work_into};
use crate::progress::Telling;
use crate::terminal::Terminal;
use crate::whole::{bytes_of, is_bare, output_option, put};
use anyhow::Error;
use cimaroly_work::assemble::{Piece, Pieces, assembled};
use cimaroly_work::{Settings, Status, Stop};
use clap::{Arg, ArgAction, ArgMatches, Command};
use std::alloc::{AllocError, Global};
use std::fs::{self, File};
use std::rt::Files;
use std::time::Clock;
use x509_report_parts::shown::ShownBytes;
use x509_signature_algorithms::{NotNamed, signature_algorithm_by_name};

/// What is said where the bytes that a signature covers would be written to a terminal.
pub(crate) const NO_TERMINAL: &str = "what is signed isn't written to a terminal: use -o FILE";

/// What is said where both inputs would be standard input.
const BOTH: &str = "only one of PART and SIGNATURE can be standard input";

/// What is said of a name that doesn't say all of an algorithm.
const NO_SIGNATURE: &str =
    "no signature algorithm whose parameters are known: give its AlgorithmIdentifier as a file";

/// `cimaroly assemble`.
pub(crate) fn assemble_command<'a>(alloc: Global) -> Result<Command<'a>, AllocError> {
    Command::new(alloc, "assemble")
        .about("Puts a certificate or request together from its signed part and the signature")
        .arg(
            Arg::new(alloc, "algorithm")
                .long("algorithm")
                .value_name("ALGORITHM")
                .help(
                    "The algorithm of a request's signature, such as ecdsa-with-SHA256, or a file with it in DER",
                ),
        )?
        .arg(
            Arg::new(alloc, "raw-ecdsa")
                .long("raw-ecdsa")
                .action(ArgAction::SetTrue)
                .help("The signature is r and s, as PKCS #11 and Web Cryptography give them"),
        )?
        .arg(
            Arg::new(alloc, "pem")
                .long("pem")
                .action(ArgAction::SetTrue)
                .help("Write PEM"),
        )?
        .arg(output_option(alloc))?
        .arg(
            Arg::new(alloc, "part")
                .value_name("PART")
                .required(true)
                .help("What was signed, in DER; - is standard input"),
        )?
        .arg(
            Arg::new(alloc, "signature")
                .value_name("SIGNATURE")
                .required(true)
                .help("The signature's bytes; - is standard input"),
        )
}

/// `cimaroly signed`.
pub(crate) fn signed_command<'a>(alloc: Global) -> Result<Command<'a>, AllocError> {
    Command::new(alloc, "signed")
        .about("Writes the bytes that the signature of a certificate, request or CRL covers")
        .arg(outline_option(alloc))?
        .arg(output_option(alloc))?
        .arg(
            Arg::new(alloc, "paths")
                .value_name("FILE")
                .help("A file; - is standard input"),
        )
}

/// What is said of a text that names no algorithm, and no file.
const NO_ALGORITHM: &str =
    "neither a known algorithm, such as ecdsa-with-SHA256, nor a file with one in DER";

/// What is wrong with the value of `--algorithm`.
fn misnamed(text: &str, why: &'static str) -> Stop {
    let name = ShownBytes(text.as_bytes());
    Stop::usage(Error::msg(why).context(format_args!("--algorithm {name}")))
}

/// The algorithm in DER that an option's value names: by a name, by dots, or as a file.
fn algorithm_of<R>(rt: &R, text: &str) -> Result<Vec<u8>, Stop>
where
    R: Files<File = File> + Input + AllocGlobal,
{
    match signature_algorithm_by_name(rt.alloc(), text) {
        Ok(bytes) => Ok(bytes),
        Err(NotNamed::Unknown) if text == "-" || fs::metadata(rt, text).is_ok() => {
            bytes_of(rt, text)
        }
        Err(NotNamed::Unknown) => Err(misnamed(text, NO_ALGORITHM)),
        Err(NotNamed::NoSignature) => Err(misnamed(text, NO_SIGNATURE)),
        Err(NotNamed::OutOfMemory) => Err(Stop::memory()),
    }
}

/// Puts a certificate or a request together, and writes it.
///
/// # Errors
/// Input or output failed, an input is refused, memory is refused, or the program was called in a wrong way.
pub(crate) fn assemble<R>(
    rt: &R,
    matches: &ArgMatches<'_>,
    terminal: Terminal,
) -> Result<Status, Stop>
where
    R: Files<File = File> + Input + Print + AllocGlobal,
{
    if terminal.has_output && is_bare(matches) {
        return Err(Stop::usage(Error::msg(BINARY)));
    }
    let part = matches.get_str("part").unwrap_or("-");
    let signature = matches.get_str("signature").unwrap_or("-");
    if part == "-" && signature == "-" {
        return Err(Stop::usage(Error::msg(BOTH)));
    }
    let part_bytes = bytes_of(rt, part)?;
    let signature_bytes = bytes_of(rt, signature)?;
    let text = matches.get_str("algorithm");
    let algorithm_bytes = match text {
        Some(text) => algorithm_of(rt, text)?,
        None => Vec::new(rt.alloc()),
    };
    let pieces = Pieces {
        part: Piece {
            path: part,
            bytes: part_bytes.as_slice(),
        },
        signature: Piece {
            path: signature,
            bytes: signature_bytes.as_slice(),
        },
        algorithm: text.map(|path| Piece {
            path,
            bytes: algorithm_bytes.as_slice(),
        }),
        is_raw: matches.get_flag("raw-ecdsa"),
    };
    let (kind, der) = assembled(rt.alloc(), pieces)?;
    put(rt, matches, kind.label(), der.as_slice())?;
    Ok(Status::Der)
}

/// Writes what a signature covers.
///
/// # Errors
/// As `assemble`.
pub(crate) fn signed<R>(
    rt: &R,
    matches: &ArgMatches<'_>,
    settings: Settings,
    terminal: Terminal,
) -> Result<Status, Stop>
where
    R: Files<File = File> + Input + Print + Eprint + AllocGlobal + Clock + Clone + Drop,
{
    let Some(path) = matches.get_str("output") else {
        if terminal.has_output {
            return Err(Stop::usage(Error::msg(NO_TERMINAL)));
        }
        return Ok(work(rt, matches, settings, Telling::Never)?.status);
    };
    let mut out = Vec::new(rt.alloc());
    let tally = work_into(rt, matches, settings, Telling::Never, &mut out)?;
    keep(rt, path, out.as_slice())?;
    Ok(tally.status)
}
