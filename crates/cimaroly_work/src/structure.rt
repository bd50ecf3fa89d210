//! What is done with one structure.

use crate::cells::cells_of;
use crate::lines::{
    Deviations, write_dated, write_read, write_refused, write_searched, write_structure,
};
use crate::session::Session;
use crate::settings::{Action, Format, Settings};
use crate::status::Status;
use crate::stop::Stop;
use crate::strict::push_loose;
use cimaroly_outlines::OutlineNote;
use std::alloc::{AllocError, Global};
use std::io::Write;
use x509_der::ReadError;
use x509_inspect::{
    Determined, Extent, Form, Head, Kind, Moment, Outcomes, RefusalLine, Refused, Row, Searched,
    Source, Standing, Told, TreeError, Unread, check, dated, determine, pinned, push_json,
    searched, write_row, write_text, write_tree,
};
use x509_inspect_outlines::OutlineKind;
use x509_report_parts::shown::ShownBytes;
use x509_report_parts::values::Count;
use x509_report_parts::{Colours, Columns, Mark};

/// What a refusal says of bytes.
pub(crate) fn line_of(refused: Refused, kind: Kind, bytes: &[u8]) -> RefusalLine<'_> {
    RefusalLine {
        refused,
        kind,
        bytes,
    }
}

/// How a time that was asked for stands to that for which a structure is valid; `Valid` where none was, or where the
/// structure doesn't say.
pub(crate) fn standing_of(at: Option<Moment>, validity: Option<(Moment, Moment)>) -> Standing {
    match (at, validity) {
        (Some(at), Some((first, last))) => Standing::of(at, first, last),
        _ => Standing::Valid,
    }
}

impl<W: Write> Session<'_, W> {
    /// Works on a PEM block.
    ///
    /// # Errors
    /// Output failed, memory is refused, or the program was called in a wrong way.
    pub fn block(&mut self, source: Source<'_>, label: &[u8], bytes: &[u8]) -> Result<(), Stop> {
        if self.settings.action == Action::Tree {
            return self.tree(source, bytes);
        }
        match self.kind_of(label) {
            Some(kind) => self.structure(source, kind, bytes),
            None if self.reads_list(Unread::from_label(label)) => {
                self.outline(source, OutlineKind::RevocationList, bytes)
            }
            None => self.pass_over(source, label),
        }
    }

    /// Works on bytes without a label.
    ///
    /// # Errors
    /// As `block`.
    pub fn bare(&mut self, source: Source<'_>, bytes: &[u8]) -> Result<(), Stop> {
        if self.settings.action == Action::Tree {
            return self.tree(source, bytes);
        }
        if let Some(kind) = self.settings.kind {
            return self.structure(source, kind, bytes);
        }
        if bytes.first() != Some(&0x30) {
            return self.unread(source, bytes);
        }
        match determine(self.alloc, bytes) {
            Determined::One(kind) => self.structure(source, kind, bytes),
            _ if self.reads_list(Unread::from_bytes(bytes)) => {
                self.outline(source, OutlineKind::RevocationList, bytes)
            }
            _ if Unread::from_bytes(bytes).is_some() => self.unread(source, bytes),
            Determined::None(kind, _) => self.structure(source, self.told_kind(kind, bytes), bytes),
            Determined::Several(kinds) => self.ask(source, kinds),
        }
    }

    /// Asks as which type bytes are to be read, which could be several, or something else too.
    fn ask(&mut self, source: Source<'_>, kinds: Outcomes) -> Result<(), Stop> {
        self.tally.note(Status::Usage);
        let first = kinds.first().map_or("algorithm", |kind| kind.name());
        let choice = if kinds.count() == 1 {
            "to read it as that, use"
        } else {
            "choose with --type, as in"
        };
        let text = format!(in self.alloc; "could be {kinds}: {choice} --type {first}")?;
        self.refuse(source, text.as_str())
    }

    /// Works on bytes as a type.
    ///
    /// # Errors
    /// As `block`.
    fn structure(&mut self, source: Source<'_>, kind: Kind, bytes: &[u8]) -> Result<(), Stop> {
        if let Some(outline) = self.accepted_outline(kind, bytes) {
            return self.outline(source, outline, bytes);
        }
        match (self.settings.action, self.settings.format) {
            (Action::Encode, _) => self.encode(source, kind, bytes),
            (Action::Lint, _) => self.lint(source, kind, bytes),
            (Action::Signed, _) => self.signed(source, kind, bytes),
            (Action::Show, Format::Json) => {
                self.json(source, kind, bytes, Extent::Fields(self.settings.options))
            }
            (_, Format::Json) => self.json_at(source, kind, bytes),
            (Action::Show, Format::Text) => self.show(source, kind, bytes),
            (Action::Show, Format::Brief) => self.brief(source, kind, bytes),
            (Action::Show, Format::Table) => self.row(source, kind, bytes),
            (Action::Match, _) => self.pin(source, kind, bytes),
            _ => self.check(source, kind, bytes),
        }
    }

    /// Counts a refused, and writes its line.
    pub(crate) fn refuse_as(
        &mut self,
        source: Source<'_>,
        line: RefusalLine<'_>,
    ) -> Result<(), Stop> {
        if line.refused.error == ReadError::OutOfMemory {
            return Err(Stop::memory());
        }
        self.tally.refuse();
        if self.settings.format == Format::Quiet {
            return Ok(());
        }
        let note = self.outline_note(line.kind, line.bytes)?;
        let colours = self.settings.layout.colours;
        let written = write_refused(&mut self.text, source, line, &note, colours);
        drop(note);
        written?;
        self.add_outline(line.kind, line.bytes)?;
        self.put_text()
    }

    /// Says what a structure comes to, and whether it is valid at a time that was asked for.
    fn check(&mut self, source: Source<'_>, kind: Kind, bytes: &[u8]) -> Result<(), Stop> {
        if self.settings.is_deep {
            return self.check_deep(source, kind, bytes);
        }
        if let Some(at) = self.settings.at {
            return self.check_at(source, kind, bytes, at);
        }
        match check(self.alloc, kind, bytes) {
            Ok(places) => {
                let loose = self.loose_in(kind, bytes)?;
                self.tally.add(places.len() + loose.len());
                if self.settings.format == Format::Quiet {
                    return Ok(());
                }
                let colours = self.settings.layout.colours;
                let deviations = Deviations(places.as_slice(), loose.as_slice());
                write_read(&mut self.text, source, kind, deviations, colours)?;
                self.put_text()
            }
            Err(refused) => self.refuse_as(source, line_of(refused, kind, bytes)),
        }
    }

    /// The same, where a time was asked for.
    fn check_at(
        &mut self,
        source: Source<'_>,
        kind: Kind,
        bytes: &[u8],
        at: Moment,
    ) -> Result<(), Stop> {
        match dated(self.alloc, kind, bytes) {
            Ok((places, validity)) => {
                let loose = self.loose_in(kind, bytes)?;
                let standing = standing_of(Some(at), validity);
                self.tally.add(places.len() + loose.len());
                self.tally.date(standing);
                if self.settings.format == Format::Quiet {
                    return Ok(());
                }
                let colours = self.settings.layout.colours;
                let come = (Deviations(places.as_slice(), loose.as_slice()), standing);
                write_dated(&mut self.text, source, kind, come, colours)?;
                self.put_text()
            }
            Err(refused) => self.refuse_as(source, line_of(refused, kind, bytes)),
        }
    }

    /// The same, and what is wrong in extensions that the encoding keeps as octets.
    fn check_deep(&mut self, source: Source<'_>, kind: Kind, bytes: &[u8]) -> Result<(), Stop> {
        match searched(self.alloc, kind, bytes) {
            Ok(searched) => {
                let loose = self.loose_in(kind, bytes)?;
                let standing = self.tally_searched(&searched);
                self.tally.add(searched.places.len() + loose.len());
                if self.settings.format == Format::Quiet {
                    return Ok(());
                }
                let colours = self.settings.layout.colours;
                let come = (&searched, loose.as_slice(), standing);
                write_searched(&mut self.text, source, kind.name(), come, colours)?;
                self.put_text()
            }
            Err(refused) => self.refuse_as(source, line_of(refused, kind, bytes)),
        }
    }

    /// Counts what was found besides deviations, and answers how the time that was asked for stands to the structure's own.
    pub(crate) fn tally_searched(&mut self, searched: &Searched<Global>) -> Standing {
        let standing = standing_of(self.settings.at, searched.validity);
        self.tally.date(standing);
        let faults = &searched.faults;
        self.tally.search(faults.malformed.len(), faults.deviations);
        standing
    }

    /// Writes the most important of a structure on one line.
    fn brief(&mut self, source: Source<'_>, kind: Kind, bytes: &[u8]) -> Result<(), Stop> {
        let row = Row {
            source,
            kind,
            bytes,
            options: self.settings.options,
        };
        write_structure(&mut self.text, source, kind)?;
        match write_row(self.alloc, row, Told::Brief, &mut self.text) {
            Ok(Ok(deviations)) => {
                self.tally.add(deviations);
                if deviations > 0 {
                    write!(self.text, "; {}", Count(deviations as u64, "deviation"))?;
                }
                writeln!(self.text)?;
                self.put_text()
            }
            Ok(Err(_)) => Err(Stop::memory()),
            Err(refused) => {
                self.text.clear();
                self.refuse_as(source, line_of(refused, kind, bytes))
            }
        }
    }

    /// Writes the line of a structure in a table.
    fn row(&mut self, source: Source<'_>, kind: Kind, bytes: &[u8]) -> Result<(), Stop> {
        let row = Row {
            source,
            kind,
            bytes,
            options: self.settings.options,
        };
        let fields = std::mem::replace(&mut self.fields, String::new(self.alloc));
        let written = match cells_of(self.alloc, fields.as_str()) {
            Ok(cells) => write_row(
                self.alloc,
                row,
                Told::Cells(cells.as_slice()),
                &mut self.text,
            ),
            Err(AllocError) => return Err(Stop::memory()),
        };
        self.fields = fields;
        match written {
            Ok(Ok(deviations)) => {
                self.tally.add(deviations);
                self.put_text()
            }
            Ok(Err(_)) => Err(Stop::memory()),
            Err(refused) => self.refuse_aside(source, line_of(refused, kind, bytes)),
        }
    }

    /// Writes the pin of a structure's public key, and keeps it.
    fn pin(&mut self, source: Source<'_>, kind: Kind, bytes: &[u8]) -> Result<(), Stop> {
        match pinned(self.alloc, kind, bytes) {
            Ok((deviations, pin)) => {
                self.tally.add(deviations);
                self.keys.add(pin);
                if self.settings.format == Format::Quiet {
                    return Ok(());
                }
                write_structure(&mut self.text, source, kind)?;
                match pin {
                    Some(pin) => writeln!(self.text, "{pin}")?,
                    None => writeln!(self.text, "no public key")?,
                }
                self.put_text()
            }
            Err(refused) => self.refuse_as(source, line_of(refused, kind, bytes)),
        }
    }

    /// Writes the object of a structure.
    pub(crate) fn json(
        &mut self,
        source: Source<'_>,
        kind: Kind,
        bytes: &[u8],
        extent: Extent,
    ) -> Result<(), Stop> {
        let line = self.take_line();
        let head = Head {
            source,
            kind,
            bytes,
            extent,
        };
        let (line, outcome) = push_json(self.alloc, line, head)?;
        let Ok(deviations) = outcome else {
            self.count(outcome)?;
            let line = self.with_outline(line, kind, bytes, extent)?;
            return self.put_line(line);
        };
        let loose = self.loose_in(kind, bytes)?;
        self.tally.add(deviations.saturating_add(loose.len()));
        let line = push_loose(self.alloc, line, loose.as_slice())?;
        self.put_line(line)
    }

    /// Writes the object of a structure without its fields, and whether it is valid at a time that was asked for.
    fn json_at(&mut self, source: Source<'_>, kind: Kind, bytes: &[u8]) -> Result<(), Stop> {
        if self.settings.is_deep {
            return self.json_deep(source, kind, bytes);
        }
        let Some(at) = self.settings.at else {
            return self.json(source, kind, bytes, Extent::Outcome);
        };
        match dated(self.alloc, kind, bytes) {
            Ok((_places, validity)) => self.tally.date(standing_of(Some(at), validity)),
            Err(refused) if refused.error == ReadError::OutOfMemory => return Err(Stop::memory()),
            Err(_refused) => {}
        }
        self.json(source, kind, bytes, Extent::OutcomeAt(at))
    }

    /// The same, and what is wrong in extensions that the encoding keeps as octets.
    fn json_deep(&mut self, source: Source<'_>, kind: Kind, bytes: &[u8]) -> Result<(), Stop> {
        match searched(self.alloc, kind, bytes) {
            Ok(searched) => {
                let _standing = self.tally_searched(&searched);
            }
            Err(refused) if refused.error == ReadError::OutOfMemory => return Err(Stop::memory()),
            Err(_refused) => {}
        }
        self.json(source, kind, bytes, Extent::Deep(self.settings.at))
    }

    /// Counts what a structure came to.
    pub(crate) fn count(&mut self, outcome: Result<usize, Refused>) -> Result<(), Stop> {
        match outcome {
            Ok(deviations) => self.tally.add(deviations),
            Err(refused) => {
                if refused.error == ReadError::OutOfMemory {
                    return Err(Stop::memory());
                }
                self.tally.refuse();
            }
        }
        Ok(())
    }

    /// Writes what stands between two reports, and where the structure comes from, where there are several.
    pub(crate) fn separate(&mut self, source: Source<'_>) -> Result<(), Stop> {
        if self.tally.structures() > 0 {
            writeln!(self.text)?;
        } else if !self.is_one_of_many {
            return Ok(());
        }
        let colours = self.settings.layout.colours;
        let begin = colours.begin(Mark::Heading);
        write!(self.text, "{begin}# {}", ShownBytes(source.file.as_bytes()))?;
        if let Some((line, _)) = source.block {
            write!(self.text, ", line {line}")?;
        }
        writeln!(self.text, "{}", colours.end())?;
        Ok(())
    }

    /// Shows the report of a structure.
    fn show(&mut self, source: Source<'_>, kind: Kind, bytes: &[u8]) -> Result<(), Stop> {
        self.separate(source)?;
        let Settings {
            options,
            layout,
            ..
        } = self.settings;
        match write_text(self.alloc, kind, bytes, options, layout, &mut self.text) {
            Ok(Ok(deviations)) => {
                self.tally.add(deviations);
                self.put_text()
            }
            Ok(Err(_)) => Err(Stop::memory()),
            Err(refused) => self.refuse_as(source, line_of(refused, kind, bytes)),
        }
    }

    /// Counts that bytes are refused as a type, and notes why and where for standard error.
    pub(crate) fn refuse_with(
        &mut self,
        source: Source<'_>,
        refused: Refused,
        kind: Kind,
        bytes: &[u8],
    ) -> Result<(), Stop> {
        self.refuse_aside(source, line_of(refused, kind, bytes))
    }

    /// Counts a refusal, and notes it for standard error, where standard output is for other things.
    pub(crate) fn refuse_aside(
        &mut self,
        source: Source<'_>,
        line: RefusalLine<'_>,
    ) -> Result<(), Stop> {
        if line.refused.error == ReadError::OutOfMemory {
            return Err(Stop::memory());
        }
        self.tally.refuse();
        write!(self.notes, "cimaroly: ")?;
        write_refused(
            &mut self.notes,
            source,
            line,
            &OutlineNote::NONE,
            Colours::Off,
        )?;
        Ok(())
    }

    /// Shows the elements of bytes.
    fn tree(&mut self, source: Source<'_>, bytes: &[u8]) -> Result<(), Stop> {
        self.separate(source)?;
        let mut columns = Columns::new(&mut self.text, self.settings.layout.width);
        let written = write_tree(self.alloc, &mut columns, bytes);
        match written {
            Ok(form) => self.tell_form(form, bytes.len()),
            Err(TreeError::OutOfMemory | TreeError::Write) => Err(Stop::memory()),
        }
    }

    /// Counts what a tree came to, and writes its last line, if something is wrong with it.
    fn tell_form(&mut self, form: Form, len: usize) -> Result<(), Stop> {
        let colours = self.settings.layout.colours;
        match form.stopped {
            Some(at) => {
                self.tally.refuse();
                let begin = colours.begin(Mark::Refusal);
                let what = if at < len { "no element" } else { "cut off" };
                writeln!(self.text, "{begin}{what} at byte {at}{}", colours.end())?;
            }
            None => self.tally.add(form.lengths),
        }
        self.put_text()
    }

    /// Writes what was kept for the end.
    ///
    /// # Errors
    /// Output failed, or memory is refused.
    pub fn finish(&mut self) -> Result<(), Stop> {
        self.compare()?;
        if let Some(encoding) = self.encoding.take() {
            self.out.write_all(encoding.as_slice())?;
        }
        self.out.flush()?;
        Ok(())
    }
}
