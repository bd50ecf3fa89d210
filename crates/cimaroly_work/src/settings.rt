//! What the command line asks for.

use crate::rule_set::RuleSet;
use cimaroly_outlines::OutlineSettings;
use x509_inspect::{Kind, Moment, Options};
use x509_report_parts::Layout;

/// What is done with each structure.
#[derive(Clone, Copy, Debug, PartialEq, Eq)]
pub enum Action {
    /// Its report is shown.
    Show,
    /// It is said what it comes to.
    Check,
    /// Its DER encoding is written.
    Encode,
    /// Its elements are shown.
    Tree,
    /// Its public key is compared with those of the others.
    Match,
    /// It is said which rules it breaks.
    Lint,
    /// What its signature covers is written.
    Signed,
}

impl Action {
    /// Whether standard output is for the bytes of one structure alone.
    pub(crate) fn writes_bytes(self) -> bool {
        matches!(self, Action::Encode | Action::Signed)
    }
}

/// In which form something is printed.
#[derive(Clone, Copy, Debug, PartialEq, Eq)]
pub enum Format {
    /// As text.
    Text,
    /// One JSON object a line.
    Json,
    /// Not at all: the exit status tells.
    Quiet,
    /// As PEM.
    Pem,
    /// One line for each structure, with the most important.
    Brief,
    /// One line for each structure, with the cells whose names the session has.
    Table,
}

/// What the command line asks for.
#[derive(Clone, Copy, Debug, PartialEq, Eq)]
pub struct Settings {
    /// What is done.
    pub action: Action,
    /// In which form it is printed.
    pub format: Format,
    /// As which type everything is read; `None` where labels say it.
    pub kind: Option<Kind>,
    /// What reports tell.
    pub options: Options,
    /// How text is laid out.
    pub layout: Layout,
    /// For which time it is told whether structures are valid.
    pub at: Option<Moment>,
    /// Whether extensions that the encoding keeps as octets are read too, where it is said what a structure comes to.
    pub is_deep: bool,
    /// What is asked for of outlines.
    pub outlines: OutlineSettings,
    /// Whether progress is told.
    pub has_progress: bool,
    /// Whether files that hold nothing which is read are refused in folders too.
    pub has_strict_files: bool,
    /// Which rules are looked at.
    pub rules: RuleSet,
}
