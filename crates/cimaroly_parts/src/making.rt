//! What is made of descriptions: `cimaroly make`.

use crate::cli::{BINARY, flag};
use crate::terminal::Terminal;
use crate::whole::{bytes_of, is_bare, output_option, put, put_bytes};
use anyhow::Error;
use cimaroly_make::texts::{as_pem, base64_line};
use cimaroly_make::{NotMade, made};
use cimaroly_work::{Status, Stop};
use clap::{Arg, ArgMatches, Command};
use std::alloc::{AllocError, Global};
use std::fs::File;
use std::rt::Files;
use x509_inspect::{Determined, Kind, determine};
use x509_report_parts::shown::ShownBytes;

/// What is said of a description that isn't text.
const NO_TEXT: &str = "not JSON: invalid UTF-8";

/// What is said where several inputs would be standard input.
const SEVERAL: &str = "only one input can be standard input";

/// The option that names a key.
pub(crate) fn key_option<'a>(alloc: Global) -> Arg<'a> {
    Arg::new(alloc, "key").long("key").value_name("FILE").help(
        "The subject's public key, or a request with it, in PEM or DER",
    )
}

/// The option that names an issuer's certificate.
pub(crate) fn issuer_option<'a>(alloc: Global) -> Arg<'a> {
    Arg::new(alloc, "issuer")
        .long("issuer")
        .value_name("FILE")
        .help("The issuer's certificate, in PEM or DER")
}

/// `cimaroly make`.
pub(crate) fn make_command<'a>(alloc: Global) -> Result<Command<'a>, AllocError> {
    Command::new(alloc, "make")
        .about("Makes a structure of a description in JSON, such as the part of a request to sign")
        .arg(key_option(alloc))?
        .arg(issuer_option(alloc))?
        .arg(flag(
            alloc,
            "lines",
            "Read a description a line, and write a line of base64 for each",
        )
        .conflicts_with("pem")?)?
        .arg(flag(alloc, "pem", "Write PEM"))?
        .arg(output_option(alloc))?
        .arg(
            Arg::new(alloc, "description")
                .value_name("FILE")
                .help("A description in JSON; - is standard input"),
        )
}

/// The label of a key's block: of a request, where the bytes are one.
fn key_label(alloc: Global, bytes: &[u8]) -> &'static str {
    match determine(alloc, bytes) {
        Determined::One(Kind::Request) => "CERTIFICATE REQUEST",
        _ => "PUBLIC KEY",
    }
}

/// The text of a key's file.
///
/// # Errors
/// The input failed, or memory is refused.
pub(crate) fn key_text<R>(rt: &R, path: &str) -> Result<String, Stop>
where
    R: Files<File = File> + Input + AllocGlobal,
{
    let bytes = bytes_of(rt, path)?;
    let label = key_label(rt.alloc(), bytes.as_slice());
    Ok(as_pem(rt.alloc(), label, bytes.as_slice())?)
}

/// The text of a file with a label.
///
/// # Errors
/// The input failed, or memory is refused.
pub(crate) fn labelled_text<R>(rt: &R, path: &str, label: &str) -> Result<String, Stop>
where
    R: Files<File = File> + Input + AllocGlobal,
{
    let bytes = bytes_of(rt, path)?;
    Ok(as_pem(rt.alloc(), label, bytes.as_slice())?)
}

/// The key that an option names.
fn given_key<R>(rt: &R, matches: &ArgMatches<'_>) -> Result<Option<String>, Stop>
where
    R: Files<File = File> + Input + AllocGlobal,
{
    match matches.get_str("key") {
        Some(path) => Ok(Some(key_text(rt, path)?)),
        None => Ok(None),
    }
}

/// The issuer's certificate that an option names.
fn given_issuer<R>(rt: &R, matches: &ArgMatches<'_>) -> Result<Option<String>, Stop>
where
    R: Files<File = File> + Input + AllocGlobal,
{
    match matches.get_str("issuer") {
        Some(path) => Ok(Some(labelled_text(rt, path, "CERTIFICATE")?)),
        None => Ok(None),
    }
}

/// Nothing is made of a description.
pub(crate) fn refused(path: &str, why: NotMade) -> Stop {
    if why.is_out_of_memory() {
        return Stop::memory();
    }
    Stop::at(Status::Refused, path, why)
}

/// Writes a line for each line of a text: what is made of it in base64, or nothing where it is refused. Why, standard
/// error says. Lines without a description are passed over.
fn make_lines<R>(
    rt: &R,
    matches: &ArgMatches<'_>,
    path: &str,
    text: &str,
    key: Option<&str>,
    issuer: Option<&str>,
) -> Result<Status, Stop>
where
    R: Files<File = File> + Print + Eprint + AllocGlobal,
{
    let alloc = rt.alloc();
    let mut out = Vec::new(alloc);
    let mut status = Status::Der;
    for (index, line) in text.lines().enumerate() {
        match made(alloc, line, key, issuer) {
            Ok((_made, der)) => {
                let symbols = base64_line(alloc, der.as_slice())?;
                out.extend_from_slice(symbols.as_bytes())?;
            }
            Err(why) => {
                let name = ShownBytes(path.as_bytes());
                let number = index.saturating_add(1);
                eprintln!(rt; "{name}:{number}: {why}")?;
                out.extend_from_slice(b"\n")?;
                status = Status::Refused;
            }
        }
    }
    put_bytes(rt, matches, out.as_slice())?;
    Ok(status)
}

/// Whether more than one input is standard input.
fn are_several(inputs: [&str; 3]) -> bool {
    inputs.iter().filter(|input| **input == "-").count() > 1
}

/// Makes what a description says, and writes it.
///
/// # Errors
/// Input or output failed, the description is refused, memory is refused, or the program was called in a wrong way.
pub(crate) fn make<R>(rt: &R, matches: &ArgMatches<'_>, terminal: Terminal) -> Result<Status, Stop>
where
    R: Files<File = File> + Input + Print + Eprint + AllocGlobal,
{
    let is_by_line = matches.get_flag("lines");
    if terminal.has_output && !is_by_line && is_bare(matches) {
        return Err(Stop::usage(Error::msg(BINARY)));
    }
    let path = matches.get_str("description").unwrap_or("-");
    let key_path = matches.get_str("key").unwrap_or("");
    let issuer_path = matches.get_str("issuer").unwrap_or("");
    if are_several([path, key_path, issuer_path]) {
        return Err(Stop::usage(Error::msg(SEVERAL)));
    }
    let key = given_key(rt, matches)?;
    let issuer = given_issuer(rt, matches)?;
    let bytes = bytes_of(rt, path)?;
    let Ok(text) = std::str::from_utf8(bytes.as_slice()) else {
        return Err(Stop::at(Status::Refused, path, NO_TEXT));
    };
    let key_pem = key.as_ref().map(|pem| pem.as_str());
    let issuer_pem = issuer.as_ref().map(|pem| pem.as_str());
    if is_by_line {
        return make_lines(rt, matches, path, text, key_pem, issuer_pem);
    }
    match made(rt.alloc(), text, key_pem, issuer_pem) {
        Ok((made, der)) => {
            put(rt, matches, made.label(), der.as_slice())?;
            Ok(Status::Der)
        }
        Err(why) => Err(refused(path, why)),
    }
}
