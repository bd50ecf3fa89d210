//! What the command line asks for.

use crate::progress::Telling;
use crate::terminal::Terminal;
use anyhow::Error;
use cimaroly_outlines::{OutlineSettings, SerialNumber};
use cimaroly_work::time::moment_of;
use cimaroly_work::{Action, Format, RuleSet, Settings, Stop};
use clap::ArgMatches;
use x509_inspect::{Cell, Identifiers, Kind, Moment, NameForm, Options, Secrets};
use x509_report_parts::shown::ShownBytes;
use x509_report_parts::{Colours, Layout};

/// The type that is asked for.
fn kind_of(matches: &ArgMatches<'_>) -> Option<Kind> {
    match matches.get_str("type") {
        Some(name) => Kind::from_name(name),
        None => None,
    }
}

/// The colours that are asked for.
pub(crate) fn colours_of(matches: &ArgMatches<'_>, terminal: Terminal) -> Colours {
    let has_colours = match matches.get_str("color") {
        Some("always") => true,
        Some("never") => false,
        _ => terminal.has_output && !terminal.is_plain,
    };
    if has_colours {
        Colours::On
    } else {
        Colours::Off
    }
}

/// Settings that ask for nothing but an action, as text.
pub(crate) fn plain(action: Action) -> Settings {
    Settings {
        action,
        format: Format::Text,
        kind: None,
        options: Options {
            secrets: Secrets::Hidden,
            identifiers: Identifiers::Named,
            names: NameForm::InOrder,
        },
        layout: Layout::PLAIN,
        at: None,
        is_deep: false,
        outlines: OutlineSettings::NONE,
        has_progress: false,
        has_strict_files: false,
        rules: RuleSet::ALL,
    }
}

/// How text with long values is laid out.
fn layout_of(matches: &ArgMatches<'_>, terminal: Terminal) -> Layout {
    Layout {
        width: if matches.get_flag("full") {
            None
        } else {
            terminal.width
        },
        colours: colours_of(matches, terminal),
    }
}

/// How many cells the lines of a table may have.
const MOST: usize = 32;

/// Sees that names with commas between them are those of cells.
fn check_cells(names: &str) -> Result<(), Stop> {
    for name in names.split(',') {
        if Cell::from_name(name).is_none() {
            return Err(Stop::usage(Error::msg(format_args!(
                "no field is named '{}': see cimaroly help show",
                ShownBytes(name.as_bytes())
            ))));
        }
    }
    if names.split(',').count() > MOST {
        return Err(Stop::usage(Error::msg("at most 32 fields can be printed")));
    }
    Ok(())
}

/// In which form `cimaroly show` prints.
fn show_format(matches: &ArgMatches<'_>) -> Result<Format, Stop> {
    if let Some(names) = matches.get_str("fields") {
        check_cells(names)?;
        return Ok(Format::Table);
    }
    if matches.get_flag("json") {
        Ok(Format::Json)
    } else if matches.get_flag("brief") {
        Ok(Format::Brief)
    } else {
        Ok(Format::Text)
    }
}

/// The serial number that `--serial` says.
fn serial_of(matches: &ArgMatches<'_>) -> Result<Option<SerialNumber>, Stop> {
    let Some(text) = matches.get_str("serial") else {
        return Ok(None);
    };
    match SerialNumber::from_text(text) {
        Some(serial) => Ok(Some(serial)),
        None => Err(Stop::usage(Error::msg(format_args!(
            "'{}' isn't a serial number in hexadecimal such as 01:e2",
            ShownBytes(text.as_bytes())
        )))),
    }
}

/// What is asked for of outlines, where nothing is of entries.
fn outlines_of(matches: &ArgMatches<'_>) -> OutlineSettings {
    OutlineSettings {
        is_accepted: matches.get_flag("outline"),
        ..OutlineSettings::NONE
    }
}

/// What `cimaroly show` is asked for.
pub(crate) fn show_settings(
    matches: &ArgMatches<'_>,
    terminal: Terminal,
) -> Result<Settings, Stop> {
    let secrets = if matches.get_flag("secrets") {
        Secrets::Shown
    } else {
        Secrets::Hidden
    };
    let identifiers = if matches.get_flag("oids") {
        Identifiers::Dotted
    } else {
        Identifiers::Named
    };
    let names = if matches.get_flag("rfc4514") {
        NameForm::Rfc4514
    } else {
        NameForm::InOrder
    };
    Ok(Settings {
        format: show_format(matches)?,
        kind: kind_of(matches),
        options: Options {
            secrets,
            identifiers,
            names,
        },
        layout: layout_of(matches, terminal),
        outlines: OutlineSettings {
            has_entries: matches.get_flag("full"),
            serial: serial_of(matches)?,
            ..outlines_of(matches)
        },
        ..plain(Action::Show)
    })
}

/// The time that `--at` says.
pub(crate) fn time_of(matches: &ArgMatches<'_>) -> Result<Option<Moment>, Stop> {
    let Some(text) = matches.get_str("at") else {
        return Ok(None);
    };
    match moment_of(text) {
        Some(at) => Ok(Some(at)),
        None => Err(Stop::usage(Error::msg(format_args!(
            "'{}' isn't a time such as 2026-12-31T23:59:59Z",
            ShownBytes(text.as_bytes())
        )))),
    }
}

/// What `cimaroly check` is asked for.
pub(crate) fn check_settings(
    matches: &ArgMatches<'_>,
    terminal: Terminal,
) -> Result<Settings, Stop> {
    let format = if matches.get_flag("quiet") {
        Format::Quiet
    } else if matches.get_flag("json") {
        Format::Json
    } else {
        Format::Text
    };
    Ok(Settings {
        format,
        kind: kind_of(matches),
        layout: Layout {
            width: None,
            colours: colours_of(matches, terminal),
        },
        at: time_of(matches)?,
        is_deep: matches.get_flag("deep"),
        outlines: outlines_of(matches),
        has_progress: matches.get_flag("progress"),
        has_strict_files: matches.get_flag("strict-files"),
        ..plain(Action::Check)
    })
}

/// What `cimaroly der` is asked for.
pub(crate) fn der_settings(matches: &ArgMatches<'_>) -> Settings {
    let format = if matches.get_flag("pem") {
        Format::Pem
    } else {
        Format::Quiet
    };
    Settings {
        format,
        kind: kind_of(matches),
        outlines: outlines_of(matches),
        ..plain(Action::Encode)
    }
}

/// What `cimaroly tree` is asked for.
pub(crate) fn tree_settings(matches: &ArgMatches<'_>, terminal: Terminal) -> Settings {
    Settings {
        layout: layout_of(matches, terminal),
        ..plain(Action::Tree)
    }
}

/// What `cimaroly match` is asked for.
pub(crate) fn match_settings(matches: &ArgMatches<'_>) -> Settings {
    let format = if matches.get_flag("quiet") {
        Format::Quiet
    } else {
        Format::Text
    };
    Settings {
        format,
        kind: kind_of(matches),
        ..plain(Action::Match)
    }
}

/// What `cimaroly signed` is asked for.
pub(crate) fn signed_settings(matches: &ArgMatches<'_>) -> Settings {
    Settings {
        format: Format::Quiet,
        outlines: outlines_of(matches),
        ..plain(Action::Signed)
    }
}

/// How progress is told: a bar only where no text comes between.
pub(crate) fn telling_of(settings: Settings, terminal: Terminal) -> Telling {
    let is_alone = !terminal.has_output || settings.format == Format::Quiet;
    match settings.has_progress {
        false => Telling::Never,
        true if terminal.has_errors && is_alone => Telling::Bar,
        true => Telling::Lines,
    }
}
