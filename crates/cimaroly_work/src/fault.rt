//! The lines and objects that say what is wrong with a certificate.

use crate::lines::write_place;
use std::alloc::{AllocError, Global};
use std::fmt::{self, Display, Write};
use x509_findings::{Finding, Severity};
use x509_inspect::{Source, Standing};
use x509_report_parts::{Colours, JsonSink, Mark, Span};

/// The clause that says when a certificate is valid.
const VALIDITY: &str = "RFC 5280, 4.1.2.5";

/// One thing that is wrong: the name of the rule, how bad it is, what is wrong, by which clause, and where.
#[derive(Clone, Copy, Drop)]
pub(crate) struct Fault {
    name: &'static str,
    severity: Severity,
    text: &'static str,
    clause: &'static str,
    at: Span,
}

impl Fault {
    /// What a finding says.
    pub(crate) fn of(finding: Finding) -> Self {
        let Finding { rule, at } = finding;
        Fault {
            name: rule.name(),
            severity: rule.severity(),
            text: rule.text(),
            clause: rule.clause(),
            at: Span {
                start: at.start,
                end: at.end,
            },
        }
    }

    /// That a time is outside of the validity.
    pub(crate) fn outside(standing: Standing, at: Span) -> Self {
        Fault {
            name: if standing == Standing::Early {
                "not-yet-valid"
            } else {
                "expired"
            },
            severity: Severity::Error,
            text: standing.name(),
            clause: VALIDITY,
            at,
        }
    }
}

impl Display for Fault {
    fn fmt<W: Write>(&self, f: &mut fmt::Formatter<W>) -> fmt::Result {
        let Span { start, end } = self.at;
        write!(f, "{} at {start}..{end} ({})", self.text, self.clause)
    }
}

/// Writes the line of a finding.
pub(crate) fn write_fault(
    out: &mut String,
    source: Source<'_>,
    fault: Fault,
    colours: Colours,
) -> Result<(), AllocError> {
    write_place(out, source)?;
    let mark = match fault.severity {
        Severity::Error => Mark::Refusal,
        Severity::Warning => Mark::Deviation,
    };
    let (begin, end) = (colours.begin(mark), colours.end());
    let (severity, name) = (fault.severity.name(), fault.name);
    writeln!(out, ": {begin}{severity}{end}: {fault} [{name}]")
}

/// Writes the object of a finding.
pub(crate) fn push_fault(sink: &mut JsonSink<Global>, fault: Fault) -> Result<(), AllocError> {
    sink.writer().begin_object()?;
    sink.member("rule", fault.name)?;
    sink.member("severity", fault.severity.name())?;
    sink.member("text", fault.text)?;
    sink.member("clause", fault.clause)?;
    sink.place("at", fault.at)?;
    sink.writer().end_object()
}
