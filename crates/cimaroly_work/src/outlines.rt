//! What is done with outlines: of structures that are refused, and of revocation lists.

use crate::cells::cells_of;
use crate::fault::Fault;
use crate::lines::{write_named, write_searched};
use crate::session::Session;
use crate::settings::{Action, Format, Settings};
use crate::stop::Stop;
use cimaroly_outlines::{OutlineNote, note_of};
use std::alloc::{AllocError, Global};
use std::io::Write;
use x509_der::{ReadError, Refused};
use x509_inspect::{
    Extent, Faults, Kind, Searched, Source, Standing, Told, Unread, check as check_whole,
};
use x509_inspect_outlines::{
    OutlineKind, accepts, check_outline, encoded_outline, outline_kind, outline_of, push_outline,
    push_refused, searched_outline, whole_kind, write_outline, write_outline_row,
};
use x509_report_parts::Mark;
use x509_report_parts::values::Count;

/// What there is to be said of an outline: of extensions that the encoding keeps as octets where that is asked for.
fn found_in(
    alloc: Global,
    settings: &Settings,
    kind: OutlineKind,
    bytes: &[u8],
) -> Result<Searched<Global>, Refused> {
    if !settings.is_deep && settings.at.is_none() {
        let places = check_outline(alloc, kind, bytes)?;
        return Ok(Searched {
            places,
            validity: None,
            faults: Faults::new(alloc),
        });
    }
    let Searched {
        places,
        validity,
        faults,
    } = searched_outline(alloc, kind, bytes)?;
    let faults = if settings.is_deep {
        faults
    } else {
        Faults::new(alloc)
    };
    Ok(Searched {
        places,
        validity,
        faults,
    })
}

impl<W: Write> Session<'_, W> {
    /// Whether something is a revocation list, and what is done with it can be done with one: it holds no key.
    pub(crate) fn reads_list(&self, unread: Option<Unread>) -> bool {
        unread == Some(Unread::RevocationList) && self.settings.action != Action::Match
    }

    /// As which type bytes without a label are told that no type accepts: as a certificate where only those are looked at, or as
    /// the type of their outline, or else as the one that got furthest.
    pub(crate) fn told_kind(&self, furthest: Kind, bytes: &[u8]) -> Kind {
        if self.settings.action == Action::Lint {
            return Kind::Certificate;
        }
        match outline_of(self.alloc, bytes) {
            Some(outline) => whole_kind(outline).unwrap_or(furthest),
            None => furthest,
        }
    }

    /// As which outline bytes are taken that a type refuses, where that is asked for.
    pub(crate) fn accepted_outline(&self, kind: Kind, bytes: &[u8]) -> Option<OutlineKind> {
        if !self.settings.outlines.is_accepted {
            return None;
        }
        let outline = outline_kind(kind)?;
        match check_whole(self.alloc, kind, bytes) {
            Err(refused) if refused.error != ReadError::OutOfMemory => {
                if accepts(self.alloc, outline, bytes) {
                    Some(outline)
                } else {
                    None
                }
            }
            _ => None,
        }
    }

    /// What the line of a refusal says of the outline, where it is said what structures come to.
    pub(crate) fn outline_note(&self, kind: Kind, bytes: &[u8]) -> Result<OutlineNote, Stop> {
        if self.settings.action != Action::Check {
            return Ok(OutlineNote::NONE);
        }
        Ok(note_of(self.alloc, kind, bytes)?)
    }

    /// Adds the report of the outline of bytes that are refused, where reports are shown.
    pub(crate) fn add_outline(&mut self, kind: Kind, bytes: &[u8]) -> Result<(), Stop> {
        let settings = self.settings;
        if settings.action != Action::Show || settings.format != Format::Text {
            return Ok(());
        }
        let Some(outline) = outline_kind(kind) else {
            return Ok(());
        };
        let asked = settings.outlines.in_text(outline, bytes);
        let (options, layout) = (settings.options, settings.layout);
        match write_outline(self.alloc, asked, options, layout, &mut self.text) {
            Ok(Ok(_deviations)) => Ok(()),
            Ok(Err(_failed)) => Err(Stop::memory()),
            Err(refused) if refused.error == ReadError::OutOfMemory => Err(Stop::memory()),
            Err(_refused) => Ok(()),
        }
    }

    /// Adds the outline of bytes that are refused to the line with their object.
    pub(crate) fn with_outline(
        &self,
        line: Vec<u8>,
        kind: Kind,
        bytes: &[u8],
        extent: Extent,
    ) -> Result<Vec<u8>, Stop> {
        match outline_kind(kind) {
            Some(outline) if accepts(self.alloc, outline, bytes) => {
                let settings = self.settings.outlines;
                let asked = settings.in_json(outline, bytes);
                Ok(push_refused(self.alloc, line, asked, extent)?)
            }
            _ => Ok(line),
        }
    }

    /// Works on bytes as an outline.
    pub(crate) fn outline(
        &mut self,
        source: Source<'_>,
        kind: OutlineKind,
        bytes: &[u8],
    ) -> Result<(), Stop> {
        match (self.settings.action, self.settings.format) {
            (Action::Encode, _) => self.encode_outline(source, kind, bytes),
            (Action::Signed, _) => self.signed_outline(source, kind, bytes),
            (Action::Lint, _) => self.pass_over_other(source),
            (Action::Show, Format::Json) => {
                let extent = Extent::Fields(self.settings.options);
                self.outline_json(source, kind, bytes, extent)
            }
            (_, Format::Json) => self.outline_json(source, kind, bytes, self.outline_extent()),
            (Action::Show, Format::Text) => self.show_outline(source, kind, bytes),
            (Action::Show, Format::Brief) => self.brief_outline(source, kind, bytes),
            (Action::Show, Format::Table) => self.outline_row(source, kind, bytes),
            _ => self.check_outline(source, kind, bytes),
        }
    }

    /// Counts a refused, and writes its line: where standard output is for other things, for standard error.
    pub(crate) fn refuse_outline(
        &mut self,
        source: Source<'_>,
        kind: OutlineKind,
        refused: Refused,
    ) -> Result<(), Stop> {
        if refused.error == ReadError::OutOfMemory {
            return Err(Stop::memory());
        }
        self.tally.refuse();
        match self.settings.format {
            Format::Quiet if !self.settings.action.writes_bytes() => Ok(()),
            Format::Quiet | Format::Pem | Format::Table => {
                write!(self.notes, "cimaroly: ")?;
                write_named(&mut self.notes, source, kind.name())?;
                writeln!(self.notes, "refused: {refused}")?;
                Ok(())
            }
            _ => {
                let colours = self.settings.layout.colours;
                let begin = colours.begin(Mark::Refusal);
                write_named(&mut self.text, source, kind.name())?;
                writeln!(self.text, "{begin}refused: {refused}{}", colours.end())?;
                self.put_text()
            }
        }
    }

    /// Says what an outline comes to.
    fn check_outline(
        &mut self,
        source: Source<'_>,
        kind: OutlineKind,
        bytes: &[u8],
    ) -> Result<(), Stop> {
        match found_in(self.alloc, &self.settings, kind, bytes) {
            Ok(searched) => {
                let standing: Standing = self.tally_searched(&searched);
                self.tally.add(searched.places.len());
                if self.settings.format == Format::Quiet {
                    return Ok(());
                }
                let colours = self.settings.layout.colours;
                let none: &[Fault] = &[];
                let come = (&searched, none, standing);
                write_searched(&mut self.text, source, kind.name(), come, colours)?;
                self.put_text()
            }
            Err(refused) => self.refuse_outline(source, kind, refused),
        }
    }

    /// What an object says of an outline whose fields aren't told.
    fn outline_extent(&self) -> Extent {
        match (self.settings.is_deep, self.settings.at) {
            (true, at) => Extent::Deep(at),
            (false, Some(at)) => Extent::OutcomeAt(at),
            (false, None) => Extent::Outcome,
        }
    }

    /// Writes the object of an outline.
    fn outline_json(
        &mut self,
        source: Source<'_>,
        kind: OutlineKind,
        bytes: &[u8],
        extent: Extent,
    ) -> Result<(), Stop> {
        if matches!(extent, Extent::Deep(_) | Extent::OutcomeAt(_)) {
            if let Ok(searched) = found_in(self.alloc, &self.settings, kind, bytes) {
                let _standing = self.tally_searched(&searched);
            }
        }
        let line = self.take_line();
        let settings = self.settings.outlines;
        let asked = settings.in_json(kind, bytes);
        let (line, outcome) = push_outline(self.alloc, line, source, asked, extent)?;
        self.count(outcome)?;
        self.put_line(line)
    }

    /// Shows the report of an outline.
    fn show_outline(
        &mut self,
        source: Source<'_>,
        kind: OutlineKind,
        bytes: &[u8],
    ) -> Result<(), Stop> {
        self.separate(source)?;
        let settings = self.settings;
        let asked = settings.outlines.in_text(kind, bytes);
        let (options, layout) = (settings.options, settings.layout);
        match write_outline(self.alloc, asked, options, layout, &mut self.text) {
            Ok(Ok(deviations)) => {
                self.tally.add(deviations);
                self.put_text()
            }
            Ok(Err(_failed)) => Err(Stop::memory()),
            Err(refused) => self.refuse_outline(source, kind, refused),
        }
    }

    /// Writes the most important of an outline on one line.
    fn brief_outline(
        &mut self,
        source: Source<'_>,
        kind: OutlineKind,
        bytes: &[u8],
    ) -> Result<(), Stop> {
        let settings = self.settings.outlines;
        let asked = settings.in_text(kind, bytes);
        write_named(&mut self.text, source, kind.name())?;
        match write_outline_row(
            self.alloc,
            source,
            asked,
            Told::Brief,
            self.settings.options,
            &mut self.text,
        ) {
            Ok(Ok(deviations)) => {
                self.tally.add(deviations);
                if deviations > 0 {
                    write!(self.text, "; {}", Count(deviations as u64, "deviation"))?;
                }
                writeln!(self.text)?;
                self.put_text()
            }
            Ok(Err(_failed)) => Err(Stop::memory()),
            Err(refused) => {
                self.text.clear();
                self.refuse_outline(source, kind, refused)
            }
        }
    }

    /// Writes the line of an outline in a table.
    fn outline_row(
        &mut self,
        source: Source<'_>,
        kind: OutlineKind,
        bytes: &[u8],
    ) -> Result<(), Stop> {
        let asked = self.settings.outlines.in_text(kind, bytes);
        let fields = std::mem::replace(&mut self.fields, String::new(self.alloc));
        let written = match cells_of(self.alloc, fields.as_str()) {
            Ok(cells) => write_outline_row(
                self.alloc,
                source,
                asked,
                Told::Cells(cells.as_slice()),
                self.settings.options,
                &mut self.text,
            ),
            Err(AllocError) => return Err(Stop::memory()),
        };
        self.fields = fields;
        match written {
            Ok(Ok(deviations)) => {
                self.tally.add(deviations);
                self.put_text()
            }
            Ok(Err(_failed)) => Err(Stop::memory()),
            Err(refused) => self.refuse_outline(source, kind, refused),
        }
    }

    /// Writes the DER encoding of an outline, or keeps it for the end.
    fn encode_outline(
        &mut self,
        source: Source<'_>,
        kind: OutlineKind,
        bytes: &[u8],
    ) -> Result<(), Stop> {
        self.expect_first()?;
        let name = (kind.name(), Some(kind.label()));
        match encoded_outline(self.alloc, kind, bytes) {
            Ok(written) => self.keep_encoding(source, name, bytes, written),
            Err(refused) => self.refuse_outline(source, kind, refused),
        }
    }
}
