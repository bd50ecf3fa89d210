//! What a report says of the extensions that the port keeps as octets: where services and revocation lists are found,
//! policies, constraints, timestamps of logs.
#![tactic(auto)]

mod access;
mod constraints;
pub mod faults;
mod others;
mod points;
mod policies;
pub mod summary;
mod timestamps;

use std::alloc::{AllocError, Allocator};
use std::fmt::{self, Write};
use x509_der::{IntegerAsn1, ObjectIdentifier, ReadError};
use x509_further_extensions::{Further, TlsFeature, view_octets};
use x509_report_parts::{Element, FieldSink, JsonSink, Label, Shape, Sink, Span, TextSink, Value};

/// A sink that can be told that memory is refused for what was to be written to it.
pub trait Limited: Sink {
    /// Why writing fails then.
    fn out_of_memory() -> Self::Error;
}

impl<A: Allocator + Copy> Limited for JsonSink<A> {
    fn out_of_memory() -> AllocError {
        AllocError
    }
}

impl<W: Write> Limited for TextSink<'_, W> {
    fn out_of_memory() -> fmt::Error {
        fmt::Error
    }
}

impl<W: Write> Limited for FieldSink<'_, W> {
    fn out_of_memory() -> fmt::Error {
        fmt::Error
    }
}

/// Where an extension stands, and what it is called.
#[derive(Clone, Copy, Drop)]
pub struct Place<'a> {
    /// By which name it is told.
    pub label: Label<'a>,
    /// Where it stands.
    pub span: Span,
    /// The element in its octets.
    pub inside: Element<'a>,
}

/// Octets that don't encode what they should: why not, and before which byte of the input.
pub(crate) fn malformed(octets: &[u8], error: ReadError, at: usize) -> Value<'_> {
    let reason = error.name();
    Value::Malformed { octets, reason, at }
}

/// The place of an extension whose octets are told too, since what is told of them by fields doesn't make them again.
fn with_octets<'a>(place: Place<'a>, octets: &'a [u8]) -> Place<'a> {
    let Label::Extension {
        content,
        is_critical,
        ..
    } = place.label
    else {
        return place;
    };
    let label = Label::Extension {
        content,
        is_critical,
        octets: Some(octets),
    };
    Place { label, ..place }
}

/// Tells an extension by what its octets hold, and where they encode no such extension, why not. Answers whether it did: not
/// where the identifier is none that is known. Then nothing is told.
///
/// # Errors
/// What the sink fails with, also where memory for the extension is refused.
pub fn further<A: Allocator + Copy, S: Limited>(
    sink: &mut S,
    alloc: A,
    place: Place<'_>,
    identifier: &ObjectIdentifier<A>,
    octets: &[u8],
) -> Result<bool, S::Error> {
    match view_octets(alloc, identifier, octets) {
        Some(Ok((value, deviations))) => {
            let told = tell(sink, alloc, with_octets(place, octets), &value);
            drop(value);
            let is_told = told?;
            sink.deviating(deviations.total())?;
            Ok(is_told)
        }
        Some(Err(refused)) if refused.error == ReadError::OutOfMemory => Err(S::out_of_memory()),
        Some(Err(refused)) => {
            let at = place.inside.span.start.saturating_add(refused.at);
            let value = malformed(octets, refused.error, at);
            sink.field(place.label, place.span, value)?;
            Ok(true)
        }
        None => Ok(false),
    }
}

/// Tells what was read.
fn tell<A: Allocator + Copy, S: Limited>(
    sink: &mut S,
    alloc: A,
    place: Place<'_>,
    value: &Further<A>,
) -> Result<bool, S::Error> {
    match value {
        Further::AuthorityInfoAccess(services) | Further::SubjectInfoAccess(services) => {
            access::services(sink, place, services.0.as_slice())?;
        }
        Further::CrlDistributionPoints(points) | Further::FreshestCrl(points) => {
            points::points(sink, place, points.0.as_slice())?;
        }
        Further::IssuingDistributionPoint(point) => points::issuing(sink, place, point)?,
        Further::CertificatePolicies(policies) => {
            policies::policies(sink, alloc, place, policies.0.as_slice())?;
        }
        Further::SignedTimestamps(list) => {
            timestamps::timestamps(sink, alloc, place, list.0.as_slice())?;
        }
        _ => return plain(sink, place, value),
    }
    Ok(true)
}

/// Tells what has no names, policies or timestamps in it.
fn plain<A: Allocator, S: Limited>(
    sink: &mut S,
    place: Place<'_>,
    value: &Further<A>,
) -> Result<bool, S::Error> {
    let Place { label, span, .. } = place;
    match value {
        Further::OcspNoCheck(()) | Further::Poison(()) => sink.field(label, span, Value::Null)?,
        Further::InhibitAnyPolicy(count) => sink.field(label, span, integer(count))?,
        Further::TlsFeature(features) => tls_features(sink, place, features)?,
        Further::PrivateKeyUsagePeriod(period) => constraints::period(sink, place, period)?,
        Further::NameConstraints(names) => constraints::names(sink, place, names)?,
        Further::PolicyConstraints(policy) => constraints::policy(sink, place, policy)?,
        Further::PolicyMappings(mappings) => {
            policies::mappings(sink, place, mappings.0.as_slice())?;
        }
        _ => return other(sink, place, value),
    }
    Ok(true)
}

/// Tells what was read of a kind that is known beside those of the RFCs on certificates of the web.
fn other<A: Allocator, S: Limited>(
    sink: &mut S,
    place: Place<'_>,
    value: &Further<A>,
) -> Result<bool, S::Error> {
    let Place { label, span, .. } = place;
    match value {
        Further::QcStatements(list) => others::statements(sink, place, list.0.as_slice())?,
        Further::SubjectDirectoryAttributes(list) => {
            others::attributes(sink, place, list.0.as_slice())?;
        }
        Further::NetscapeCertType(flags) => others::cert_type(sink, place, flags)?,
        Further::NetscapeComment(text) => sink.field(label, span, Value::Text(text.as_str()))?,
        Further::TemplateName(text) => sink.field(label, span, Value::Utf16(text.as_bytes()))?,
        Further::CertificateTemplate(template) => others::template(sink, place, template)?,
        _ => return Ok(false),
    }
    Ok(true)
}

/// The value of a number, most of which are small.
fn integer<A: Allocator>(number: &IntegerAsn1<A>) -> Value<'_> {
    match number.to_u64() {
        Some(small) => Value::Number(small),
        None => Value::Integer(number.as_bytes()),
    }
}

/// Tells which extensions of TLS a server has to support.
fn tls_features<A: Allocator, S: Limited>(
    sink: &mut S,
    place: Place<'_>,
    features: &TlsFeature<A>,
) -> Result<(), S::Error> {
    let mut items = place.inside.inside;
    sink.begin(place.label, place.span, Shape::Items)?;
    for feature in features.0.as_slice() {
        let span = items.next().span;
        sink.field(Label::Field("feature"), span, integer(feature))?;
    }
    sink.end()
}
