//! What X.690 forbids in certificates and requests, beside the deviations that a reader counts.

use crate::fault::{Fault, push_fault};
use crate::lint::faults_in;
use crate::rule_set::RuleSet;
use crate::session::Session;
use crate::settings::Action;
use crate::stop::Stop;
use std::alloc::{AllocError, Global};
use std::io::Write;
use x509_der::ReadError;
use x509_der::parts::BOOLEAN_TAG;
use x509_fields::{CertificateFields, CertificationRequestFields, Walk, certificate_items};
use x509_findings::Rule;
use x509_inspect::Kind;
use x509_report_parts::JsonSink;

/// How clauses of X.690 begin.
const STANDARD: &str = "X.690";

/// The elements of the identifiers of `keyUsage` and `basicConstraints`.
const KEY_USAGE: [u8; 5] = [6, 3, 0x55, 0x1D, 15];

const BASIC_CONSTRAINTS: [u8; 5] = [6, 3, 0x55, 0x1D, 19];

/// The element `cA FALSE`.
const SPELLED: [u8; 3] = [BOOLEAN_TAG, 1, 0];

/// How many bytes an algorithm has at most that isn't RSASSA-PSS with parameters.
const MOST_OF_OTHERS: usize = 32;

/// The rules of X.690.
fn rules_of_der() -> RuleSet {
    let mut rules = RuleSet::NONE;
    for rule in &Rule::ALL {
        rules.set(*rule, rule.clause().starts_with(STANDARD));
    }
    rules
}

/// Whether a name may have a set with more than one attribute.
fn has_wide_set(name: &[u8]) -> bool {
    let mut sets = Walk::of(name).inside();
    for _ in 0..name.len() {
        let attributes = sets.inside();
        if sets.step().is_none() {
            return false;
        }
        if attributes.count() > 1 {
            return true;
        }
    }
    false
}

/// Whether a BIT STRING may end with a zero bit. (Of one with a long length nothing is looked at.)
fn may_be_padded(element: &[u8]) -> bool {
    match element {
        [_, size, unused, .., last] => *size > 0x7F || (*last >> (*unused & 7)) & 1 == 0,
        _ => false,
    }
}

/// Whether basic constraints may have a default that is spelled.
fn may_spell_default(element: &[u8]) -> bool {
    match element {
        [_, size, rest @ ..] => *size > 0x7F || rest.starts_with(&SPELLED),
        _ => false,
    }
}

/// Whether an extension may break a rule of X.690.
fn is_loose_extension(identifier: &[u8], value: &[u8]) -> bool {
    if identifier == KEY_USAGE.as_slice() {
        return may_be_padded(value);
    }
    identifier == BASIC_CONSTRAINTS.as_slice() && may_spell_default(value)
}

/// Whether an extension of a certificate may break a rule of X.690.
fn has_loose_extension(bytes: &[u8]) -> bool {
    let mut items = certificate_items::<Global>(bytes);
    for _ in 0..bytes.len() {
        let mut fields = items.inside();
        if items.step().is_none() {
            return false;
        }
        let identifier = fields.next();
        let _critical = fields.next_if(BOOLEAN_TAG);
        let value = fields.inside().next();
        if let (Some(identifier), Some(value)) = (identifier.slice(bytes), value.slice(bytes)) {
            if is_loose_extension(identifier, value) {
                return true;
            }
        }
    }
    false
}

/// Whether a certificate may break a rule of X.690. Most can't, and of those no value is needed, which would take longer to
/// read than they take to check.
fn may_be_loose(bytes: &[u8]) -> bool {
    let places = CertificateFields::within::<Global>(bytes).fields;
    let algorithm = places.signature.slice(bytes).unwrap_or(&[]);
    let issuer = places.issuer.slice(bytes).unwrap_or(&[]);
    let subject = places.subject.slice(bytes).unwrap_or(&[]);
    algorithm.len() > MOST_OF_OTHERS
        || has_wide_set(issuer)
        || has_wide_set(subject)
        || has_loose_extension(bytes)
}

/// The same of a request, where any attribute may.
fn may_be_loose_request(bytes: &[u8]) -> bool {
    let places = CertificationRequestFields::within::<Global>(bytes);
    let algorithm = places.signature_algorithm.slice(bytes).unwrap_or(&[]);
    let subject = places.fields.subject.slice(bytes).unwrap_or(&[]);
    let attributes = places.fields.attributes.slice(bytes).unwrap_or(&[]);
    algorithm.len() > MOST_OF_OTHERS || has_wide_set(subject) || attributes.len() > 2
}

/// Adds the member `findings` to the object at the end of a line, whose last bytes are a brace and a line feed.
///
/// # Errors
/// `AllocError` where memory is refused; the line is dropped.
pub(crate) fn push_loose(
    alloc: Global,
    line: Vec<u8>,
    faults: &[Fault],
) -> Result<Vec<u8>, AllocError> {
    let mut line = line;
    if faults.is_empty() {
        return Ok(line);
    }
    line.truncate(line.len().saturating_sub(2));
    line.extend_from_slice(b",\"findings\":")?;
    let mut sink = JsonSink::new(alloc, line);
    sink.writer().begin_array()?;
    for fault in faults {
        push_fault(&mut sink, *fault)?;
    }
    sink.writer().end_array()?;
    let mut line = sink.finish(alloc)?;
    line.extend_from_slice(b"}\n")?;
    Ok(line)
}

impl<W: Write> Session<'_, W> {
    /// The rules of X.690 that a structure breaks which was read, where it is said what it comes to: certificates and requests
    /// are looked at.
    ///
    /// # Errors
    /// Memory is refused.
    pub(crate) fn loose_in(&self, kind: Kind, bytes: &[u8]) -> Result<Vec<Fault>, Stop> {
        let may_be = match kind {
            Kind::Certificate => may_be_loose(bytes),
            Kind::Request => may_be_loose_request(bytes),
            _ => false,
        };
        if self.settings.action != Action::Check || !may_be {
            return Ok(Vec::new(self.alloc));
        }
        match faults_in(self.alloc, &rules_of_der(), kind, bytes) {
            Ok(faults) => Ok(faults?),
            Err(refused) if refused.error == ReadError::OutOfMemory => Err(Stop::memory()),
            Err(_refused) => Ok(Vec::new(self.alloc)),
        }
    }
}
