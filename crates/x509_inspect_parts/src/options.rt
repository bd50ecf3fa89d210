//! What a report tells.

use x509_report_parts::{Identifiers, Secrets};

/// How the names of subjects and issuers are written.
#[derive(Clone, Copy, Debug, PartialEq, Eq)]
pub enum NameForm {
    /// In the order of the encoding, as in `C=DE, O=Example, CN=example.org`.
    InOrder,
    /// By RFC 4514, the last first, as in `CN=example.org,O=Example,C=DE`: in a text beside the other form, and in a table in
    /// its place.
    Rfc4514,
}

/// What a report tells besides what it always does.
#[derive(Clone, Copy, Debug, PartialEq, Eq)]
pub struct Options {
    /// Whether the secret numbers of private keys are told.
    pub secrets: Secrets,
    /// Whether object identifiers that have names stand with their dots too, in a text.
    pub identifiers: Identifiers,
    /// How the names of subjects and issuers are written, where they stand on one line.
    pub names: NameForm,
}
