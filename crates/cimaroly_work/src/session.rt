//! The work on structures, one after another, and what is printed of it.

use crate::keys::{Keys, Verdict};
use crate::lines::{Outcome, write_note};
use crate::settings::{Action, Format, Settings};
use crate::status::{Status, Tally};
use crate::stop::Stop;
use std::alloc::Global;
use std::io::Write;
use x509_inspect::{Kind, Source, Unread, push_note};
use x509_report_parts::Colours;

/// What is said of a file that has nothing in it which is read. (Every type is a SEQUENCE.)
pub const NOTHING: &str = "no PEM, DER, hexadecimal or base64 that can be read";

/// What is said of a PEM block of no type.
const UNKNOWN: &str = "unknown label";

/// Why something that is recognised is passed over. (Revocation lists are where public keys are compared.)
fn reason_of(unread: Unread) -> &'static str {
    if unread == Unread::RevocationList {
        "a CRL, which holds no public key"
    } else {
        unread.reason()
    }
}

/// Where the work stands: what was asked for, what was found, and memory that is used again.
#[derive(Drop)]
pub struct Session<'w, W: Write> {
    /// Where memory is asked for.
    pub alloc: Global,
    /// What is written to.
    pub out: &'w mut W,
    /// What was asked for.
    pub settings: Settings,
    /// What was found.
    pub tally: Tally,
    pub(crate) text: String,
    pub(crate) line: Vec<u8>,
    /// What standard error is to be told, where standard output is for encodings alone.
    pub notes: String,
    /// The names of the cells of a table, with commas between them.
    pub fields: String,
    /// The public keys that were found.
    pub(crate) keys: Keys,
    /// The DER encoding that is to be written at the end.
    pub(crate) encoding: Option<Vec<u8>>,
    /// Whether a report tells where its structure comes from.
    pub is_one_of_many: bool,
    /// Whether the input is one that was asked for by its name, and not one that a folder has.
    pub is_named: bool,
}

impl<'w, W: Write> Session<'w, W> {
    /// Nothing was found yet.
    pub fn new(alloc: Global, out: &'w mut W, settings: Settings) -> Self {
        Session {
            alloc,
            out,
            settings,
            tally: Tally::new(),
            text: String::new(alloc),
            line: Vec::new(alloc),
            notes: String::new(alloc),
            fields: String::new(alloc),
            keys: Keys::new(),
            encoding: None,
            is_one_of_many: false,
            is_named: true,
        }
    }

    /// Takes the memory for a line of JSON, which is empty.
    pub(crate) fn take_line(&mut self) -> Vec<u8> {
        let mut line = std::mem::replace(&mut self.line, Vec::new(self.alloc));
        line.clear();
        line
    }

    /// Writes a line of JSON, and keeps its memory.
    ///
    /// # Errors
    /// Output failed.
    pub(crate) fn put_line(&mut self, line: Vec<u8>) -> Result<(), Stop> {
        self.out.write_all(line.as_slice())?;
        self.line = line;
        Ok(())
    }

    /// Writes the text, which is then empty.
    ///
    /// # Errors
    /// Output failed.
    pub(crate) fn put_text(&mut self) -> Result<(), Stop> {
        self.out.write_all(self.text.as_bytes())?;
        self.text.clear();
        Ok(())
    }

    /// Writes a line that says what was made of something that isn't read as a type.
    ///
    /// # Errors
    /// Output failed, or memory is refused.
    pub(crate) fn note(
        &mut self,
        source: Source<'_>,
        outcome: Outcome,
        reason: &str,
    ) -> Result<(), Stop> {
        match self.settings.format {
            Format::Json => {
                let line = self.take_line();
                let line = push_note(self.alloc, line, source, outcome.name(), reason)?;
                self.put_line(line)
            }
            Format::Text | Format::Brief => {
                let colours = self.settings.layout.colours;
                write_note(&mut self.text, source, outcome, reason, colours)?;
                self.put_text()
            }
            Format::Quiet if !self.settings.action.writes_bytes() => Ok(()),
            Format::Quiet | Format::Pem | Format::Table => {
                write!(self.notes, "cimaroly: ")?;
                write_note(&mut self.notes, source, outcome, reason, Colours::Off)?;
                Ok(())
            }
        }
    }

    /// Tells that a block or a file is refused before it is read as any type.
    ///
    /// # Errors
    /// Output failed, or memory is refused.
    pub fn refuse(&mut self, source: Source<'_>, reason: &str) -> Result<(), Stop> {
        self.tally.refuse();
        self.note(source, Outcome::Refused, reason)
    }

    /// Tells that an input failed: in JSON, since it is told on standard error besides.
    ///
    /// # Errors
    /// Output failed, or memory is refused.
    pub fn fail(&mut self, file: &str, reason: &str) -> Result<(), Stop> {
        self.tally.note(Status::Failed);
        if self.settings.format != Format::Json {
            return Ok(());
        }
        let source = Source { file, block: None };
        self.note(source, Outcome::Failed, reason)
    }

    /// Tells that a block is passed over, by its label.
    ///
    /// # Errors
    /// Output failed, or memory is refused.
    pub(crate) fn pass_over(&mut self, source: Source<'_>, label: &[u8]) -> Result<(), Stop> {
        self.tally.pass_over();
        let reason = match Unread::from_label(label) {
            Some(unread) => reason_of(unread),
            None => UNKNOWN,
        };
        self.note(source, Outcome::PassedOver, reason)
    }

    /// Whether it counts as a refusal where nothing is read of the input.
    fn is_strict(&self) -> bool {
        self.is_named || self.settings.has_strict_files
    }

    /// Counts as refused that nothing was read of the input, where that counts.
    pub fn miss(&mut self) {
        if self.is_strict() {
            self.tally.note(Status::Refused);
        }
    }

    /// Tells that an input without PEM blocks is recognised as something that isn't read, or holds nothing which is.
    ///
    /// # Errors
    /// Output failed, or memory is refused.
    pub fn unread(&mut self, source: Source<'_>, front: &[u8]) -> Result<(), Stop> {
        match Unread::from_bytes(front) {
            Some(unread) => {
                self.tally.pass_over();
                self.miss();
                self.note(source, Outcome::PassedOver, reason_of(unread))
            }
            None => self.nothing(source, NOTHING),
        }
    }

    /// Tells that an input holds nothing which is read: it is refused, or where a folder has it, passed over, which text
    /// doesn't tell.
    ///
    /// # Errors
    /// Output failed, or memory is refused.
    pub fn nothing(&mut self, source: Source<'_>, reason: &str) -> Result<(), Stop> {
        if self.is_strict() {
            return self.refuse(source, reason);
        }
        self.tally.pass_over();
        if self.settings.format != Format::Json {
            return Ok(());
        }
        self.note(source, Outcome::PassedOver, reason)
    }

    /// Says what the public keys come to, where they are compared.
    ///
    /// # Errors
    /// Output failed, or memory is refused.
    pub(crate) fn compare(&mut self) -> Result<(), Stop> {
        if self.settings.action != Action::Match {
            return Ok(());
        }
        let verdict = self.keys.verdict();
        if verdict != Verdict::Same {
            self.tally.note(Status::Refused);
        }
        if self.settings.format == Format::Quiet {
            return Ok(());
        }
        writeln!(self.text, "{}", verdict.text())?;
        self.put_text()
    }

    /// The type that everything is read as, or the one of a label.
    pub(crate) fn kind_of(&self, label: &[u8]) -> Option<Kind> {
        match self.settings.kind {
            Some(kind) => Some(kind),
            None => Kind::from_label(label),
        }
    }
}
