//! The command line.

use crate::asked::{
    check_settings, der_settings, match_settings, show_settings, signed_settings, telling_of,
    tree_settings,
};
use crate::describing::{certificate, certificate_command, request, request_command};
use crate::files;
use crate::lint::{Totals, lint_command, lint_settings, list_objects, list_rules};
use crate::making::{make, make_command};
use crate::progress::{Progress, Telling};
use crate::signing::{assemble, assemble_command, signed, signed_command};
use crate::terminal::Terminal;
use crate::words::with_command;
use anyhow::Error;
use cimaroly_work::{Format, Session, Settings, Status, Stop, Tally};
use clap::error::ErrorKind;
use clap::{Arg, ArgAction, ArgMatches, Command};
use std::alloc::{AllocError, Global};
use std::fs::{self, File};
use std::io::{self, BufWriter, Write};
use std::rt::Files;
use std::time::Clock;
use x509_report_parts::shown::{Frame, Shown};

/// The names of the types, as `--type` takes them.
const KINDS: [&'static str; 13] = [
    "certificate",
    "request",
    "private-key",
    "public-key",
    "rsa-private-key",
    "rsa-public-key",
    "ec-private-key",
    "name",
    "extensions",
    "algorithm",
    "raw-algorithm",
    "request-info",
    "tbs-certificate",
];

/// What is said of files and folders.
pub(crate) const FOLDERS: &str = "Files, or folders with everything in them; - is standard input";

/// What `--fields` takes.
const COLUMNS: &str =
    "Print some of file, line, type, length, deviations, subject, issuer, serialNumber, notBefore, notAfter, names, key, signatureAlgorithm, sha256, sha1, pin, and paths such as subject.commonName, with commas between them";

/// What `--color` takes.
const WHEN: [&'static str; 3] = ["auto", "always", "never"];

/// What is said where bytes would be written to a terminal.
pub(crate) const BINARY: &str = "DER isn't written to a terminal: use -o FILE, or --pem";

/// What stands at the end of the help.
const AFTER: &str = "\
Input is PEM with text around it, DER, hexadecimal or bare base64; - or no FILE is standard input.
cimaroly FILE is short for cimaroly show FILE.

Exit status: 0 everything is in DER; 1 something was refused; 2 wrong usage; 3 something has deviations or
findings; 4 input or output failed; 5 out of memory.

Examples:
  cimaroly show cert.pem
  cimaroly check --progress /etc/ssl/certs
  cimaroly check --json certs.pem | jq -c 'select(.result != \"ok\")'
  cimaroly show --fields subject,notAfter,sha256 certs.pem
  cimaroly check --at 2026-12-31T23:59:59Z certs.pem
  cimaroly match cert.pem key.pem
  cimaroly lint --ignore modulus-short certs.pem
  cimaroly der --pem cert.pem > strict.pem
  cimaroly request --subject CN=example.org --dns example.org --key key.pub -o request.tbs
  cimaroly assemble request.tbs request.sig --algorithm ecdsa-with-SHA256 --pem > request.pem";

/// What stands below the words on what is wrong with a command line.
const EXAMPLE: &str = "Example: cimaroly show cert.pem";

/// An option without a value.
pub(crate) fn flag<'a>(alloc: Global, name: &'static str, help: &'static str) -> Arg<'a> {
    Arg::new(alloc, name)
        .long(name)
        .action(ArgAction::SetTrue)
        .help(help)
}

/// The option that says the type.
fn kind_option<'a>(alloc: Global) -> Arg<'a> {
    Arg::new(alloc, "type")
        .long("type")
        .value_name("TYPE")
        .value_parser(KINDS.as_slice())
        .help("Read everything as this type, whatever its label")
}

/// The option that says whether there are colours.
pub(crate) fn color_option<'a>(alloc: Global) -> Arg<'a> {
    Arg::new(alloc, "color")
        .long("color")
        .value_name("WHEN")
        .value_parser(WHEN.as_slice())
        .hide_possible_values(true)
        .help("Colour the text: auto (the default), always or never")
}

/// The option that has long values shown whole.
fn full_option<'a>(alloc: Global) -> Arg<'a> {
    flag(alloc, "full", "Don't cut long lines on a terminal")
}

/// The option that has outlines taken for structures.
pub(crate) fn outline_option<'a>(alloc: Global) -> Arg<'a> {
    flag(
        alloc,
        "outline",
        "Accept parts that aren't read, such as unknown algorithms",
    )
}

/// The option that has one entry shown of revocation lists.
fn serial_option<'a>(alloc: Global) -> Arg<'a> {
    Arg::new(alloc, "serial")
        .long("serial")
        .value_name("HEX")
        .help("Of CRLs, show the entry with this serial number, as in 01:e2")
}

/// The files.
pub(crate) fn paths<'a>(alloc: Global, value_name: &'static str, help: &'static str) -> Arg<'a> {
    Arg::new(alloc, "paths")
        .value_name(value_name)
        .num_args(0..)
        .help(help)
}

/// `cimaroly show`.
fn show_command<'a>(alloc: Global) -> Result<Command<'a>, AllocError> {
    let brief = flag(alloc, "brief", "Print one line for each structure")
        .conflicts_with("json")?
        .conflicts_with("fields")?;
    let fields = Arg::new(alloc, "fields")
        .long("fields")
        .value_name("NAMES")
        .help(COLUMNS)
        .conflicts_with("json")?;
    let names = flag(
        alloc,
        "rfc4514",
        "Write names by RFC 4514 too, as in CN=example.org,C=DE",
    )
    .conflicts_with("json")?
    .conflicts_with("brief")?;
    Command::new(alloc, "show")
        .about("Shows what each structure contains, and where")
        .arg(flag(alloc, "json", "Print one JSON object for each structure"))?
        .arg(brief)?
        .arg(fields)?
        .arg(flag(alloc, "secrets", "Show the secret numbers of private keys"))?
        .arg(flag(alloc, "oids", "Show object identifiers in dotted form too"))?
        .arg(names)?
        .arg(outline_option(alloc))?
        .arg(serial_option(alloc))?
        .arg(flag(
            alloc,
            "full",
            "Don't cut long lines on a terminal, and list the entries of CRLs",
        ))?
        .arg(color_option(alloc))?
        .arg(kind_option(alloc))?
        .arg(paths(alloc, "FILE|FOLDER", FOLDERS))
}

/// `cimaroly check`.
fn check_command<'a>(alloc: Global) -> Result<Command<'a>, AllocError> {
    let quiet = flag(alloc, "quiet", "Print nothing; only set the exit status")
        .short('q')
        .conflicts_with("json")?;
    Command::new(alloc, "check")
        .about("Says whether each structure is in DER, how it deviates, or why it is refused")
        .arg(flag(alloc, "json", "Print one JSON object for each structure"))?
        .arg(quiet)?
        .arg(
            Arg::new(alloc, "at").long("at").value_name("TIME").help(
                "Tell what is expired or not yet valid then, as in 2026-12-31T23:59:59Z",
            ),
        )?
        .arg(flag(
            alloc,
            "deep",
            "Read extensions that the encoding keeps as octets too",
        ))?
        .arg(flag(
            alloc,
            "progress",
            "Report progress on standard error every second",
        ))?
        .arg(flag(
            alloc,
            "strict-files",
            "Refuse files without a structure in folders too",
        ))?
        .arg(outline_option(alloc))?
        .arg(color_option(alloc))?
        .arg(kind_option(alloc))?
        .arg(paths(alloc, "FILE|FOLDER", FOLDERS))
}

/// `cimaroly match`.
fn match_command<'a>(alloc: Global) -> Result<Command<'a>, AllocError> {
    Command::new(alloc, "match")
        .about("Says whether keys, certificates and requests have the same public key")
        .arg(flag(alloc, "quiet", "Print nothing; only set the exit status").short('q'))?
        .arg(kind_option(alloc))?
        .arg(paths(alloc, "FILE|FOLDER", FOLDERS))
}

/// `cimaroly der`.
fn der_command<'a>(alloc: Global) -> Result<Command<'a>, AllocError> {
    Command::new(alloc, "der")
        .about("Writes the DER encoding of a structure")
        .arg(flag(
            alloc,
            "pem",
            "Write PEM, and allow any number of structures",
        ))?
        .arg(
            Arg::new(alloc, "output")
                .short('o')
                .long("output")
                .value_name("FILE")
                .help("Write to this file instead of standard output"),
        )?
        .arg(outline_option(alloc))?
        .arg(kind_option(alloc))?
        .arg(paths(alloc, "FILE", "Files; - is standard input"))
}

/// `cimaroly tree`.
fn tree_command<'a>(alloc: Global) -> Result<Command<'a>, AllocError> {
    Command::new(alloc, "tree")
        .about(
            "Shows the elements of any input, with places, tags and first bytes, even of secrets",
        )
        .arg(full_option(alloc))?
        .arg(color_option(alloc))?
        .arg(paths(alloc, "FILE", "Files; - is standard input"))
}

/// The whole command line.
fn command<'a>(alloc: Global) -> Result<Command<'a>, AllocError> {
    Command::new(alloc, "cimaroly")
        .version("0.1.0")
        .about("Shows, checks and makes X.509 certificates, requests, keys and their parts")
        .after_help(AFTER)
        .subcommand_required(true)
        .arg_required_else_help(true)
        .subcommand(show_command(alloc)?)?
        .subcommand(check_command(alloc)?)?
        .subcommand(der_command(alloc)?)?
        .subcommand(tree_command(alloc)?)?
        .subcommand(match_command(alloc)?)?
        .subcommand(lint_command(alloc)?)?
        .subcommand(signed_command(alloc)?)?
        .subcommand(assemble_command(alloc)?)?
        .subcommand(request_command(alloc)?)?
        .subcommand(certificate_command(alloc)?)?
        .subcommand(make_command(alloc)?)
}

/// The names of the cells of a table, as they are asked for.
fn fields_of(alloc: Global, matches: &ArgMatches<'_>) -> Result<String, AllocError> {
    let mut fields = String::new(alloc);
    fields.push_str(matches.get_str("fields").unwrap_or(""))?;
    Ok(fields)
}

/// Works on all paths, or on standard input where there are none, and writes to a writer.
pub(crate) fn work_into<R, W: Write>(
    rt: &R,
    matches: &ArgMatches<'_>,
    settings: Settings,
    telling: Telling,
    out: &mut W,
) -> Result<Tally, Stop>
where
    R: Files<File = File> + Input + Print + Eprint + AllocGlobal + Clock + Clone + Drop,
{
    let mut session = Session::new(rt.alloc(), out, settings);
    session.fields = fields_of(rt.alloc(), matches)?;
    let mut progress = Progress::new(rt, telling)?;
    let paths = matches.get_strs("paths").unwrap_or(&[]);
    session.is_one_of_many = paths.len() > 1;
    progress.expect(paths.len());
    for path in paths {
        files::path(rt, &mut session, path, &mut progress)?;
    }
    if paths.is_empty() {
        files::path(rt, &mut session, "-", &mut progress)?;
    }
    progress.clear(rt)?;
    session.finish()?;
    Ok(session.tally)
}

/// The same, which writes to standard output.
pub(crate) fn work<R>(
    rt: &R,
    matches: &ArgMatches<'_>,
    settings: Settings,
    telling: Telling,
) -> Result<Tally, Stop>
where
    R: Files<File = File> + Input + Print + Eprint + AllocGlobal + Clock + Clone + Drop,
{
    let mut out = BufWriter::new(rt.alloc(), io::writer(rt))?;
    work_into(rt, matches, settings, telling, &mut out)
}

/// Writes what was written to memory to a file, if there is anything.
pub(crate) fn keep<R: Files + AllocGlobal>(rt: &R, path: &str, bytes: &[u8]) -> Result<(), Stop> {
    if bytes.is_empty() {
        return Ok(());
    }
    match fs::write(rt, path, bytes) {
        Ok(()) => Ok(()),
        Err(error) => Err(Stop::at(Status::Failed, path, error)),
    }
}

/// Writes encodings to standard output or a file.
fn encode<R>(rt: &R, matches: &ArgMatches<'_>, terminal: Terminal) -> Result<Status, Stop>
where
    R: Files<File = File> + Input + Print + Eprint + AllocGlobal + Clock + Clone + Drop,
{
    let settings = der_settings(matches);
    let Some(path) = matches.get_str("output") else {
        if terminal.has_output && settings.format != Format::Pem {
            return Err(Stop::usage(Error::msg(BINARY)));
        }
        return Ok(work(rt, matches, settings, Telling::Never)?.status);
    };
    let mut out = Vec::new(rt.alloc());
    let tally = work_into(rt, matches, settings, Telling::Never, &mut out)?;
    keep(rt, path, out.as_slice())?;
    Ok(tally.status)
}

/// Checks, and tells standard error what it came to.
fn check<R>(rt: &R, matches: &ArgMatches<'_>, terminal: Terminal) -> Result<Status, Stop>
where
    R: Files<File = File> + Input + Print + Eprint + AllocGlobal + Clock + Clone + Drop,
{
    let settings = check_settings(matches, terminal)?;
    let tally = work(rt, matches, settings, telling_of(settings, terminal))?;
    if settings.format != Format::Quiet {
        eprintln!(rt; "{tally}")?;
    }
    Ok(tally.status)
}

/// Looks for what breaks rules, and tells standard error what it came to.
fn lint<R>(rt: &R, matches: &ArgMatches<'_>, terminal: Terminal) -> Result<Status, Stop>
where
    R: Files<File = File> + Input + Print + Eprint + AllocGlobal + Clock + Clone + Drop,
{
    if matches.get_flag("list") {
        return if matches.get_flag("json") {
            list_objects(rt)
        } else {
            list_rules(rt)
        };
    }
    let settings = lint_settings(matches, terminal)?;
    let tally = work(rt, matches, settings, Telling::Never)?;
    eprintln!(rt; "{}", Totals(tally))?;
    Ok(tally.status)
}

/// Does what a command asks for.
fn dispatch<R>(rt: &R, matches: &ArgMatches<'_>, terminal: Terminal) -> Result<Status, Stop>
where
    R: Files<File = File> + Input + Print + Eprint + AllocGlobal + Clock + Clone + Drop,
{
    let (inner, settings) = match matches.subcommand() {
        Some(("check", inner)) => return check(rt, inner, terminal),
        Some(("der", inner)) => return encode(rt, inner, terminal),
        Some(("lint", inner)) => return lint(rt, inner, terminal),
        Some(("signed", inner)) => return signed(rt, inner, signed_settings(inner), terminal),
        Some(("assemble", inner)) => return assemble(rt, inner, terminal),
        Some(("request", inner)) => return request(rt, inner, terminal),
        Some(("certificate", inner)) => return certificate(rt, inner, terminal),
        Some(("make", inner)) => return make(rt, inner, terminal),
        Some(("show", inner)) => (inner, show_settings(inner, terminal)?),
        Some(("match", inner)) => (inner, match_settings(inner)),
        Some(("tree", inner)) => (inner, tree_settings(inner, terminal)),
        _ => return Ok(Status::Usage),
    };
    Ok(work(rt, inner, settings, Telling::Never)?.status)
}

/// Tells what is wrong with a command line, in which its words are escaped.
fn explain<R: Eprint + AllocGlobal>(rt: &R, error: &clap::Error) -> Result<Status, Stop> {
    let text = format!(in rt.alloc(); "{error}")?;
    for line in text.as_str().lines() {
        eprintln!(rt; "{}", Shown(&line, Frame::Line))?;
    }
    eprintln!(rt; "\n{EXAMPLE}")?;
    Ok(Status::Usage)
}

/// Does what the command line asks for, the program's name among its words.
///
/// # Errors
/// Input or output failed, memory is refused, or the program was called in a wrong way.
pub fn run<R>(rt: &R, words: &[String], terminal: Terminal) -> Result<Status, Stop>
where
    R: Files<File = File> + Input + Print + Eprint + AllocGlobal + Clock + Clone + Drop,
{
    let words = with_command(rt, words)?;
    match command(rt.alloc())?.try_get_matches_from(words.as_slice()) {
        Ok(matches) => dispatch(rt, &matches, terminal),
        Err(error) if matches!(error.kind(), ErrorKind::OutOfMemory) => Err(Stop::memory()),
        Err(error) if error.use_stderr() => explain(rt, &error),
        Err(error) => {
            error.print(rt)?;
            Ok(Status::Der)
        }
    }
}
