//! Writing DER encodings.

use crate::session::Session;
use crate::settings::Format;
use crate::stop::Stop;
use crate::structure::line_of;
use anyhow::Error;
use base64::engine::general_purpose::STANDARD;
use std::io::Write;
use x509_der::WriteError;
use x509_inspect::{Kind, Source, encoded};
use x509_report_parts::shown::ShownBytes;

impl<W: Write> Session<'_, W> {
    /// Writes the DER encoding of a structure, or keeps it for the end.
    pub(crate) fn encode(
        &mut self,
        source: Source<'_>,
        kind: Kind,
        bytes: &[u8],
    ) -> Result<(), Stop> {
        self.expect_first()?;
        let name = (kind.name(), kind.label());
        match encoded(self.alloc, kind, bytes) {
            Ok(written) => self.keep_encoding(source, name, bytes, written),
            Err(refused) => self.refuse_aside(source, line_of(refused, kind, bytes)),
        }
    }

    /// Whether there is no encoding yet that is written at the end, as there may be one.
    pub(crate) fn expect_first(&self) -> Result<(), Stop> {
        match self.encoding {
            None => Ok(()),
            Some(_) => Err(Stop::usage(Error::msg(
                "more than one structure: write them as PEM, as in cimaroly der --pem FILE",
            ))),
        }
    }

    /// Writes an encoding as PEM, or keeps it for the end: of a type by its name and its label, if it has one, and the bytes
    /// that it was read from.
    pub(crate) fn keep_encoding(
        &mut self,
        source: Source<'_>,
        name: (&'static str, Option<&'static str>),
        bytes: &[u8],
        written: Result<Vec<u8>, WriteError>,
    ) -> Result<(), Stop> {
        let encoding = match written {
            Ok(encoding) => encoding,
            Err(WriteError::OutOfMemory) => return Err(Stop::memory()),
            Err(WriteError::TooLong) => return self.refuse(source, "the DER encoding is too long"),
        };
        self.tally.add(usize::from(encoding.as_slice() != bytes));
        if self.settings.format == Format::Pem {
            return self.pem(name, encoding.as_slice());
        }
        self.encoding = Some(encoding);
        Ok(())
    }

    /// Writes a PEM block (RFC 7468, 2): lines of 64 symbols.
    fn pem(
        &mut self,
        (name, label): (&'static str, Option<&'static str>),
        encoding: &[u8],
    ) -> Result<(), Stop> {
        let Some(label) = label else {
            return Err(Stop::usage(Error::msg(format_args!(
                "there is no PEM label for {name}: leave out --pem"
            ))));
        };
        let symbols = STANDARD.encode(self.alloc, encoding)?;
        writeln!(self.text, "-----BEGIN {label}-----")?;
        for line in symbols.as_bytes().chunks(64) {
            writeln!(self.text, "{}", ShownBytes(line))?;
        }
        writeln!(self.text, "-----END {label}-----")?;
        self.put_text()
    }
}
