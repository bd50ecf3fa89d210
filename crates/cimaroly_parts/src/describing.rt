//! Descriptions by options: `cimaroly request` and `cimaroly certificate`.

use crate::cli::flag;
use crate::making::{issuer_option, key_option, key_text, labelled_text, refused};
use crate::signing::NO_TERMINAL;
use crate::terminal::Terminal;
use crate::whole::{output_option, put_bytes};
use anyhow::Error;
use cimaroly_make::made;
use cimaroly_make::members::{begin_list, put_authority, put_text, text_of};
use cimaroly_work::{Status, Stop};
use clap::{Arg, ArgAction, ArgMatches, Command};
use json::Writer;
use std::alloc::{AllocError, Global};
use std::fs::File;
use std::rt::Files;

/// The options for names, and what stands before each name in a description.
const NAMES: [(&'static str, &'static str); 4] = [
    ("dns", "DNS:"),
    ("ip", "IP:"),
    ("email", "email:"),
    ("uri", "URI:"),
];

/// What is said of a length that isn't one.
const NO_LENGTH: &str = "--path-length isn't a number";

/// An option that can stand any number of times.
fn many<'a>(
    alloc: Global,
    name: &'static str,
    value_name: &'static str,
    help: &'static str,
) -> Arg<'a> {
    Arg::new(alloc, name)
        .long(name)
        .value_name(value_name)
        .action(ArgAction::Append)
        .help(help)
}

/// An option with a value.
fn single<'a>(
    alloc: Global,
    name: &'static str,
    value_name: &'static str,
    help: &'static str,
) -> Arg<'a> {
    Arg::new(alloc, name)
        .long(name)
        .value_name(value_name)
        .help(help)
}

/// The option that names a subject.
fn subject_option<'a>(alloc: Global) -> Arg<'a> {
    single(
        alloc,
        "subject",
        "NAME",
        "The subject, as 'CN=example.org, O=Example'",
    )
}

/// A command with the options for what stands in extensions, and for what is written.
fn with_extensions<'a>(alloc: Global, command: Command<'a>) -> Result<Command<'a>, AllocError> {
    command
        .arg(many(alloc, "dns", "NAME", "A host's name"))?
        .arg(many(
            alloc,
            "ip",
            "ADDRESS",
            "An address, as 192.0.2.7 or 2001:db8::7",
        ))?
        .arg(many(alloc, "email", "ADDRESS", "An e-mail address"))?
        .arg(many(alloc, "uri", "URI", "A URI"))?
        .arg(many(alloc, "usage", "NAME", "A key usage, as digitalSignature"))?
        .arg(many(
            alloc,
            "purpose",
            "NAME",
            "An extended key usage, as serverAuth",
        ))?
        .arg(flag(
            alloc,
            "ca",
            "An authority, which signs certificates and CRLs if no usage is given",
        ))?
        .arg(single(
            alloc,
            "path-length",
            "NUMBER",
            "How many authorities there may be below it",
        )
        .requires_arg("ca")?)?
        .arg(flag(
            alloc,
            "json",
            "Print the description that cimaroly make takes",
        ))?
        .arg(output_option(alloc))
}

/// `cimaroly request`.
pub(crate) fn request_command<'a>(alloc: Global) -> Result<Command<'a>, AllocError> {
    let command = Command::new(alloc, "request")
        .about("Writes what is to be signed of a certificate request")
        .arg(subject_option(alloc).required(true))?
        .arg(key_option(alloc).required(true))?;
    with_extensions(alloc, command)
}

/// `cimaroly certificate`.
pub(crate) fn certificate_command<'a>(alloc: Global) -> Result<Command<'a>, AllocError> {
    let command = Command::new(alloc, "certificate")
        .about("Writes what is to be signed of a certificate")
        .arg(single(
            alloc,
            "request",
            "FILE",
            "A request with subject and key (its extensions aren't taken)",
        ))?
        .arg(subject_option(alloc).required_unless_present("request")?)?
        .arg(
            key_option(alloc)
                .required_unless_present("request")?
                .conflicts_with("request")?,
        )?
        .arg(issuer_option(alloc).required_unless_present("self-issued")?)?
        .arg(flag(alloc, "self-issued", "The issuer is the subject").conflicts_with("issuer")?)?;
    with_extensions(alloc, with_terms(alloc, command)?)
}

/// A command with the options for what an issuer decides.
fn with_terms<'a>(alloc: Global, command: Command<'a>) -> Result<Command<'a>, AllocError> {
    command
        .arg(single(alloc, "serial", "HEX", "The serial number, as 1a2b").required(true))?
        .arg(single(
            alloc,
            "algorithm",
            "NAME",
            "The signature's algorithm, as ecdsa-with-SHA256",
        )
        .required(true))?
        .arg(single(alloc, "from", "TIME", "notBefore, as 2026-12-01T00:00:00Z").required(true))?
        .arg(single(alloc, "until", "TIME", "notAfter, as 2027-12-01T00:00:00Z").required(true))
}

/// Writes the names that options give as a list, if there are any.
fn put_names(alloc: Global, out: &mut Writer, matches: &ArgMatches<'_>) -> Result<(), AllocError> {
    let mut is_begun = false;
    for (option, mark) in NAMES {
        let names = matches.get_strs(option).unwrap_or(&[]);
        for name in names {
            if !is_begun {
                begin_list(out, "names")?;
                is_begun = true;
            }
            put_name(alloc, out, mark, *name)?;
        }
    }
    if is_begun { out.end_array() } else { Ok(()) }
}

/// Writes a name behind its mark.
fn put_name(alloc: Global, out: &mut Writer, mark: &str, name: &str) -> Result<(), AllocError> {
    let mut text = String::from_str(alloc, mark)?;
    text.push_str(name)?;
    out.string(text.as_str())
}

/// Writes the texts that an option gives as a list, if there are any.
fn put_list(
    out: &mut Writer,
    matches: &ArgMatches<'_>,
    option: &str,
    member: &str,
) -> Result<(), AllocError> {
    let texts = matches.get_strs(option).unwrap_or(&[]);
    if texts.is_empty() {
        return Ok(());
    }
    begin_list(out, member)?;
    for text in texts {
        out.string(*text)?;
    }
    out.end_array()
}

/// Writes the key usage: of an authority without any, that it signs certificates and CRLs (RFC 5280, 4.2.1.3).
fn put_usages(out: &mut Writer, matches: &ArgMatches<'_>) -> Result<(), AllocError> {
    if matches.get_flag("ca") && !matches.contains_id("usage") {
        begin_list(out, "keyUsage")?;
        out.string("keyCertSign")?;
        out.string("cRLSign")?;
        return out.end_array();
    }
    put_list(out, matches, "usage", "keyUsage")
}

/// How many authorities there may be below one.
fn path_length(matches: &ArgMatches<'_>) -> Result<Option<u64>, Stop> {
    let Some(text) = matches.get_str("path-length") else {
        return Ok(None);
    };
    match text.parse::<u64>() {
        Ok(length) => Ok(Some(length)),
        Err(_) => Err(Stop::usage(Error::msg(NO_LENGTH))),
    }
}

/// Writes what says what the key may be used for.
fn put_rights(out: &mut Writer, matches: &ArgMatches<'_>) -> Result<(), Stop> {
    let length = path_length(matches)?;
    if matches.get_flag("ca") {
        put_authority(out, length)?;
    }
    put_usages(out, matches)?;
    put_list(out, matches, "purpose", "extendedKeyUsage")?;
    Ok(())
}

/// Writes the text of an option as a member, if it is there.
fn put_option(
    out: &mut Writer,
    matches: &ArgMatches<'_>,
    option: &str,
    member: &str,
) -> Result<(), AllocError> {
    match matches.get_str(option) {
        Some(text) => put_text(out, member, text),
        None => Ok(()),
    }
}

/// Writes what is made of a description, or the description itself.
fn put_described<R>(
    rt: &R,
    matches: &ArgMatches<'_>,
    command: &str,
    out: Writer,
) -> Result<Status, Stop>
where
    R: Files<File = File> + Print + AllocGlobal,
{
    let mut text = text_of(out)?;
    if matches.get_flag("json") {
        text.push('\n')?;
        put_bytes(rt, matches, text.as_bytes())?;
        return Ok(Status::Der);
    }
    match made(rt.alloc(), text.as_str(), None, None) {
        Ok((_made, der)) => {
            put_bytes(rt, matches, der.as_slice())?;
            Ok(Status::Der)
        }
        Err(why) => Err(refused(command, why)),
    }
}

/// Sees that bytes wouldn't be written to a terminal.
fn check_terminal(matches: &ArgMatches<'_>, terminal: Terminal) -> Result<(), Stop> {
    let is_named = matches.get_flag("json") || matches.get_str("output").is_some();
    if terminal.has_output && !is_named {
        return Err(Stop::usage(Error::msg(NO_TERMINAL)));
    }
    Ok(())
}

/// Writes what is to be signed of a request.
///
/// # Errors
/// Input or output failed, what the options say is refused, memory is refused, or the program was called in a wrong way.
pub(crate) fn request<R>(
    rt: &R,
    matches: &ArgMatches<'_>,
    terminal: Terminal,
) -> Result<Status, Stop>
where
    R: Files<File = File> + Input + Print + AllocGlobal,
{
    check_terminal(matches, terminal)?;
    let path = matches.get_str("key").unwrap_or("-");
    let key = key_text(rt, path)?;
    let mut out = Writer::new(Vec::new(rt.alloc()));
    out.begin_object()?;
    put_text(&mut out, "type", "request-info")?;
    put_option(&mut out, matches, "subject", "subject")?;
    put_text(&mut out, "key", key.as_str())?;
    put_rights(&mut out, matches)?;
    put_names(rt.alloc(), &mut out, matches)?;
    out.end_object()?;
    put_described(rt, matches, "request", out)
}

/// Writes the issuer: the subject, or a certificate.
fn put_issuer<R>(rt: &R, out: &mut Writer, matches: &ArgMatches<'_>) -> Result<(), Stop>
where
    R: Files<File = File> + Input + AllocGlobal,
{
    let Some(path) = matches.get_str("issuer") else {
        put_text(out, "issuer", "subject")?;
        return Ok(());
    };
    let certificate = labelled_text(rt, path, "CERTIFICATE")?;
    put_text(out, "issuer", certificate.as_str())?;
    Ok(())
}

/// Writes the subject and its key: a request's own, or those that options give.
fn put_subject<R>(rt: &R, out: &mut Writer, matches: &ArgMatches<'_>) -> Result<(), Stop>
where
    R: Files<File = File> + Input + AllocGlobal,
{
    let Some(path) = matches.get_str("request") else {
        let key_path = matches.get_str("key").unwrap_or("-");
        let key = key_text(rt, key_path)?;
        put_option(out, matches, "subject", "subject")?;
        put_text(out, "key", key.as_str())?;
        return Ok(());
    };
    let request = labelled_text(rt, path, "CERTIFICATE REQUEST")?;
    if matches.contains_id("subject") {
        put_option(out, matches, "subject", "subject")?;
    } else {
        put_text(out, "subject", request.as_str())?;
    }
    put_text(out, "key", request.as_str())?;
    Ok(())
}

/// Writes what is to be signed of a certificate.
///
/// # Errors
/// As `request`.
pub(crate) fn certificate<R>(
    rt: &R,
    matches: &ArgMatches<'_>,
    terminal: Terminal,
) -> Result<Status, Stop>
where
    R: Files<File = File> + Input + Print + AllocGlobal,
{
    check_terminal(matches, terminal)?;
    let mut out = Writer::new(Vec::new(rt.alloc()));
    out.begin_object()?;
    put_text(&mut out, "type", "tbs-certificate")?;
    put_option(&mut out, matches, "serial", "serialNumber")?;
    put_option(&mut out, matches, "algorithm", "signature")?;
    put_issuer(rt, &mut out, matches)?;
    put_option(&mut out, matches, "from", "notBefore")?;
    put_option(&mut out, matches, "until", "notAfter")?;
    put_subject(rt, &mut out, matches)?;
    put_rights(&mut out, matches)?;
    put_text(&mut out, "subjectKeyIdentifier", "hash")?;
    put_text(&mut out, "authorityKeyIdentifier", "keyid")?;
    put_names(rt.alloc(), &mut out, matches)?;
    out.end_object()?;
    put_described(rt, matches, "certificate", out)
}
