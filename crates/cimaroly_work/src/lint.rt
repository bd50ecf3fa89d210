//! What is wrong with certificates and requests by the rules.

use crate::fault::{Fault, push_fault, write_fault};
use crate::lines::Outcome;
use crate::rule_set::RuleSet;
use crate::session::Session;
use crate::settings::Format;
use crate::stop::Stop;
use crate::structure::{line_of, standing_of};
use picky_asn1_x509::{Certificate, CertificationRequest, read_explained};
use std::alloc::{AllocError, Global};
use std::io::Write;
use x509_fields::CertificateFields;
use x509_findings::{Finding, Findings, RequestFindings, Rule};
use x509_inspect::{Extent, Kind, Refused, Source, Standing, dated};
use x509_report_parts::shown::ShownBytes;
use x509_report_parts::{JsonSink, Span};

/// What is said of structures of other types.
const OTHER: &str = "only certificates and requests are looked at";

/// Findings, one after another.
trait Found {
    /// The next finding.
    ///
    /// # Errors
    /// Memory is refused.
    fn following(&mut self) -> Result<Option<Finding>, AllocError>;
}

impl Found for Findings<'_, Global> {
    fn following(&mut self) -> Result<Option<Finding>, AllocError> {
        self.next()
    }
}

impl Found for RequestFindings<'_, Global> {
    fn following(&mut self) -> Result<Option<Finding>, AllocError> {
        self.next()
    }
}

/// All findings by the rules that are asked for, in the order of the rules.
fn faults_of<F: Found>(
    alloc: Global,
    rules: &RuleSet,
    findings: &mut F,
) -> Result<Vec<Fault>, AllocError> {
    let mut faults = Vec::new(alloc);
    for _ in 0..Rule::ALL.len() {
        let Some(finding) = findings.following()? else {
            break;
        };
        if rules.contains(finding.rule) {
            faults.push(Fault::of(finding))?;
        }
    }
    Ok(faults)
}

/// All that is wrong with a request, or with a certificate, by the rules that are asked for; `Err` where it is refused.
pub(crate) fn faults_in(
    alloc: Global,
    rules: &RuleSet,
    kind: Kind,
    bytes: &[u8],
) -> Result<Result<Vec<Fault>, AllocError>, Refused> {
    if kind == Kind::Request {
        let (request, _deviations) = read_explained::<CertificationRequest<Global>, Global>(
            alloc, bytes,
        )?;
        let mut findings = RequestFindings::of(alloc, &request, bytes);
        return Ok(faults_of(alloc, rules, &mut findings));
    }
    let (certificate, _deviations) = read_explained::<Certificate<Global>, Global>(alloc, bytes)?;
    let mut findings = Findings::of(alloc, &certificate, bytes);
    Ok(faults_of(alloc, rules, &mut findings))
}

/// Where a certificate's validity stands in its bytes.
fn validity_in(bytes: &[u8]) -> Span {
    let at = CertificateFields::within::<Global>(bytes).fields.validity;
    Span {
        start: at.start,
        end: at.end,
    }
}

/// The object of a structure with all that is wrong with it, and a line feed.
fn push_faults(
    alloc: Global,
    line: Vec<u8>,
    source: Source<'_>,
    kind: Kind,
    faults: &[Fault],
) -> Result<Vec<u8>, AllocError> {
    let mut sink = JsonSink::new(alloc, line);
    sink.writer().begin_object()?;
    sink.member("file", source.file)?;
    if let Some((line, label)) = source.block {
        sink.count("line", line)?;
        sink.writer().key("label")?;
        sink.printed(&ShownBytes(label))?;
    }
    sink.member("type", kind.name())?;
    sink.writer().key("findings")?;
    sink.writer().begin_array()?;
    for fault in faults {
        push_fault(&mut sink, *fault)?;
    }
    sink.writer().end_array()?;
    sink.writer().end_object()?;
    let mut out = sink.finish(alloc)?;
    out.push(b'\n')?;
    Ok(out)
}

impl<W: Write> Session<'_, W> {
    /// Tells what is wrong with a certificate or a request by the rules; a structure of another type is passed over.
    ///
    /// # Errors
    /// Output failed, or memory is refused.
    pub(crate) fn lint(
        &mut self,
        source: Source<'_>,
        kind: Kind,
        bytes: &[u8],
    ) -> Result<(), Stop> {
        if kind != Kind::Certificate && kind != Kind::Request {
            return self.pass_over_other(source);
        }
        match faults_in(self.alloc, &self.settings.rules, kind, bytes) {
            Ok(faults) => self.tell(source, kind, faults?, bytes),
            Err(_refused) if self.settings.format == Format::Json => {
                self.json(source, kind, bytes, Extent::Outcome)
            }
            Err(refused) => self.refuse_as(source, line_of(refused, kind, bytes)),
        }
    }

    /// Passes over a structure of another type. (Where a PEM text has nothing else, that is noted at its end.)
    ///
    /// # Errors
    /// Output failed, or memory is refused.
    pub(crate) fn pass_over_other(&mut self, source: Source<'_>) -> Result<(), Stop> {
        self.tally.pass_over();
        if source.block.is_none() {
            self.miss();
        }
        self.note(source, Outcome::PassedOver, OTHER)
    }

    /// How the time that was asked for stands to a certificate's validity; `Valid` where none was, and of a request.
    fn standing(&self, kind: Kind, bytes: &[u8]) -> Standing {
        match (self.settings.at, dated(self.alloc, kind, bytes)) {
            (Some(at), Ok((_places, validity))) => standing_of(Some(at), validity),
            _ => Standing::Valid,
        }
    }

    /// Tells what is wrong with a structure, and counts it.
    fn tell(
        &mut self,
        source: Source<'_>,
        kind: Kind,
        mut faults: Vec<Fault>,
        bytes: &[u8],
    ) -> Result<(), Stop> {
        let standing = self.standing(kind, bytes);
        self.tally.date(standing);
        if standing != Standing::Valid {
            let fault = Fault::outside(standing, validity_in(bytes));
            if faults.push(fault).is_err() {
                return Err(Stop::memory());
            }
        }
        self.tally.add(faults.len());
        if self.settings.format == Format::Json {
            let line = self.take_line();
            let line = push_faults(self.alloc, line, source, kind, faults.as_slice())?;
            return self.put_line(line);
        }
        let colours = self.settings.layout.colours;
        for fault in &faults {
            write_fault(&mut self.text, source, *fault, colours)?;
        }
        self.put_text()
    }
}
