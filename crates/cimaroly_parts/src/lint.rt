//! `cimaroly lint`: what is wrong with certificates and requests by the rules.

use crate::asked::{colours_of, plain, time_of};
use crate::cli::{FOLDERS, color_option, flag, paths};
use crate::terminal::Terminal;
use anyhow::Error;
use cimaroly_work::{Action, Format, RuleSet, Settings, Status, Stop, Tally};
use clap::{Arg, ArgMatches, Command};
use std::alloc::{AllocError, Global};
use std::fmt::{self, Display, Write};
use std::str;
use x509_findings::Rule;
use x509_report_parts::shown::ShownBytes;
use x509_report_parts::values::Count;
use x509_report_parts::{JsonSink, Layout};

/// `cimaroly lint`.
pub(crate) fn lint_command<'a>(alloc: Global) -> Result<Command<'a>, AllocError> {
    let rule = Arg::new(alloc, "rule")
        .long("rule")
        .value_name("NAMES")
        .help("Look at these rules only, as in serial-too-long,modulus-short");
    let ignore = Arg::new(alloc, "ignore")
        .long("ignore")
        .value_name("NAMES")
        .help("Leave out these rules");
    Command::new(alloc, "lint")
        .about("Says which rules of RFC 5280 and X.690 certificates and requests break, and where")
        .arg(flag(alloc, "json", "Print one JSON object for each structure"))?
        .arg(rule)?
        .arg(ignore)?
        .arg(flag(alloc, "list", "Print all rules, and why each matters"))?
        .arg(
            Arg::new(alloc, "at").long("at").value_name("TIME").help(
                "Tell what is expired or not yet valid then, as in 2026-12-31T23:59:59Z",
            ),
        )?
        .arg(color_option(alloc))?
        .arg(paths(alloc, "FILE|FOLDER", FOLDERS))
}

/// A set of rules with those of these names, which have commas between them, or without them.
fn changed(mut rules: RuleSet, names: &str, is_there: bool) -> Result<RuleSet, Stop> {
    for name in names.split(',') {
        let Some(rule) = Rule::from_name(name) else {
            return Err(Stop::usage(Error::msg(format_args!(
                "no rule is named '{}': see cimaroly lint --list",
                ShownBytes(name.as_bytes())
            ))));
        };
        rules.set(rule, is_there);
    }
    Ok(rules)
}

/// The rules that are asked for.
fn rules_of(matches: &ArgMatches<'_>) -> Result<RuleSet, Stop> {
    let asked = match matches.get_str("rule") {
        Some(names) => changed(RuleSet::NONE, names, true)?,
        None => RuleSet::ALL,
    };
    match matches.get_str("ignore") {
        Some(names) => changed(asked, names, false),
        None => Ok(asked),
    }
}

/// What `cimaroly lint` is asked for.
pub(crate) fn lint_settings(
    matches: &ArgMatches<'_>,
    terminal: Terminal,
) -> Result<Settings, Stop> {
    let format = if matches.get_flag("json") {
        Format::Json
    } else {
        Format::Text
    };
    Ok(Settings {
        format,
        layout: Layout {
            width: None,
            colours: colours_of(matches, terminal),
        },
        at: time_of(matches)?,
        rules: rules_of(matches)?,
        ..plain(Action::Lint)
    })
}

/// Prints all rules, and why each matters.
///
/// # Errors
/// Output failed.
pub(crate) fn list_rules<R: Print>(rt: &R) -> Result<Status, Stop> {
    for rule in &Rule::ALL {
        let (name, severity) = (rule.name(), rule.severity().name());
        println!(rt; "{name} ({severity}, {}): {}", rule.clause(), rule.text())?;
        println!(rt; "    {}", rule.reason())?;
    }
    Ok(Status::Der)
}

/// The object of a rule.
fn object_of(alloc: Global, rule: Rule) -> Result<Vec<u8>, AllocError> {
    let mut sink = JsonSink::new(alloc, Vec::new(alloc));
    sink.writer().begin_object()?;
    sink.member("rule", rule.name())?;
    sink.member("severity", rule.severity().name())?;
    sink.member("text", rule.text())?;
    sink.member("clause", rule.clause())?;
    sink.member("reason", rule.reason())?;
    sink.writer().end_object()?;
    sink.finish(alloc)
}

/// Prints an object for each rule, a line each.
///
/// # Errors
/// Output failed, or memory is refused.
pub(crate) fn list_objects<R: Print + AllocGlobal>(rt: &R) -> Result<Status, Stop> {
    for rule in &Rule::ALL {
        let object = object_of(rt.alloc(), *rule)?;
        println!(rt; "{}", str::from_utf8(object.as_slice()).unwrap_or(""))?;
    }
    Ok(Status::Der)
}

/// What `cimaroly lint` came to, as a line.
#[derive(Clone, Copy, Drop)]
pub(crate) struct Totals(pub(crate) Tally);

impl Display for Totals {
    fn fmt<W: Write>(&self, f: &mut fmt::Formatter<W>) -> fmt::Result {
        let tally = &self.0;
        write!(f, "{}: ", Count(tally.structures(), "structure"))?;
        write!(
            f,
            "{} without findings, {} with findings, ",
            tally.der, tally.deviating
        )?;
        write!(f, "{} refused", tally.refused)?;
        if tally.outdated > 0 {
            write!(f, "; {} expired or not yet valid", tally.outdated)?;
        }
        match tally.passed_over {
            0 => Ok(()),
            count => write!(f, "; {count} passed over"),
        }
    }
}
