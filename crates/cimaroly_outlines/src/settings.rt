//! What is asked for of outlines.

use crate::serial::SerialNumber;
use x509_inspect_outlines::{Asked, Entries, OutlineKind};

/// What is asked for of outlines.
#[derive(Clone, Copy, Debug, PartialEq, Eq)]
pub struct OutlineSettings {
    /// Whether a structure that isn't read, and whose outline is, is taken for its outline.
    pub is_accepted: bool,
    /// Whether a text tells the entries of revocation lists.
    pub has_entries: bool,
    /// The serial number of the entries that are told.
    pub serial: Option<SerialNumber>,
}

impl OutlineSettings {
    /// Nothing.
    pub const NONE: OutlineSettings = OutlineSettings {
        is_accepted: false,
        has_entries: false,
        serial: None,
    };

    /// Bytes as an outline, with the entries that a text tells.
    pub fn in_text<'a>(&'a self, kind: OutlineKind, bytes: &'a [u8]) -> Asked<'a> {
        let entries = match &self.serial {
            Some(serial) => Entries::With(serial.as_bytes()),
            None if self.has_entries => Entries::All,
            None => Entries::Counted,
        };
        Asked {
            kind,
            bytes,
            entries,
        }
    }

    /// Bytes as an outline, with the entries that JSON tells.
    pub fn in_json<'a>(&'a self, kind: OutlineKind, bytes: &'a [u8]) -> Asked<'a> {
        let entries = match &self.serial {
            Some(serial) => Entries::With(serial.as_bytes()),
            None => Entries::All,
        };
        Asked {
            kind,
            bytes,
            entries,
        }
    }
}
