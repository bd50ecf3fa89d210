//! Where revocation lists are found (RFC 5280, 4.2.1.13).

use crate::Place;
use picky_asn1_x509::GeneralNames;
use std::alloc::Allocator;
use x509_distribution_points::{
    DistributionPoint, DistributionPointName, IssuingDistributionPoint, Reason, ReasonFlags,
};
use x509_report_fields::name::{general_names, relative_name};
use x509_report_parts::{Cursor, Element, Label, Shape, Sink, Span, Value};

/// The tag of the name of a point, `[0]`, and of its full name in it.
const NAME_TAG: u8 = 0xa0;
/// The tag of the reasons, `[1]`.
const REASONS_TAG: u8 = 0x81;
/// The tag of the issuer of the lists, `[2]`.
const ISSUER_TAG: u8 = 0xa2;

/// Tells where revocation lists are found.
pub(crate) fn points<A: Allocator, S: Sink>(
    sink: &mut S,
    place: Place<'_>,
    points: &[DistributionPoint<A>],
) -> Result<(), S::Error> {
    let mut items = place.inside.inside;
    sink.begin(place.label, place.span, Shape::Items)?;
    for point in points {
        distribution_point(sink, items.next(), point)?;
    }
    sink.end()
}

/// Tells one point.
fn distribution_point<A: Allocator, S: Sink>(
    sink: &mut S,
    at: Element<'_>,
    point: &DistributionPoint<A>,
) -> Result<(), S::Error> {
    let mut fields = at.inside;
    sink.begin(Label::Field("DistributionPoint"), at.span, Shape::Fields)?;
    if let (Some(name), Some(at)) = (&point.distribution_point, fields.next_if(NAME_TAG)) {
        point_name(sink, at.inside, name)?;
    }
    if let (Some(flags), Some(at)) = (&point.reasons, fields.next_if(REASONS_TAG)) {
        reasons(sink, "reasons", at.span, flags)?;
    }
    if let (Some(issuer), Some(at)) = (&point.crl_issuer, fields.next_if(ISSUER_TAG)) {
        names(sink, "cRLIssuer", at, issuer)?;
    }
    sink.end()
}

/// Tells which certificates a revocation list covers, and where it is found (RFC 5280, 5.2.5).
pub(crate) fn issuing<A: Allocator, S: Sink>(
    sink: &mut S,
    place: Place<'_>,
    point: &IssuingDistributionPoint<A>,
) -> Result<(), S::Error> {
    let mut fields = place.inside.inside;
    sink.begin(place.label, place.span, Shape::Fields)?;
    if let (Some(name), Some(at)) = (&point.distribution_point, fields.next_if(NAME_TAG)) {
        point_name(sink, at.inside, name)?;
    }
    let (users, authorities) = (point.only_contains_user_certs, point.only_contains_ca_certs);
    flag(sink, "onlyContainsUserCerts", &mut fields, 0x81, users)?;
    flag(sink, "onlyContainsCACerts", &mut fields, 0x82, authorities)?;
    if let (Some(flags), Some(at)) = (&point.only_some_reasons, fields.next_if(0x83)) {
        reasons(sink, "onlySomeReasons", at.span, flags)?;
    }
    flag(sink, "indirectCRL", &mut fields, 0x84, point.indirect_crl)?;
    let attributes = point.only_contains_attribute_certs;
    flag(
        sink,
        "onlyContainsAttributeCerts",
        &mut fields,
        0x85,
        attributes,
    )?;
    sink.end()
}

/// Tells a flag under a tag, if it is there.
fn flag<S: Sink>(
    sink: &mut S,
    field: &'static str,
    fields: &mut Cursor<'_>,
    tag: u8,
    flag: Option<bool>,
) -> Result<(), S::Error> {
    match (flag, fields.next_if(tag)) {
        (Some(flag), Some(at)) => sink.field(Label::Field(field), at.span, Value::Flag(flag)),
        _ => Ok(()),
    }
}

/// Tells the name of a point.
fn point_name<A: Allocator, S: Sink>(
    sink: &mut S,
    mut inside: Cursor<'_>,
    name: &DistributionPointName<A>,
) -> Result<(), S::Error> {
    let at = inside.next();
    match name {
        DistributionPointName::FullName(full) => names(sink, "fullName", at, full),
        DistributionPointName::NameRelativeToCrlIssuer(set) => {
            relative_name(sink, "nameRelativeToCRLIssuer", at, set)
        }
    }
}

/// Tells names.
fn names<A: Allocator, S: Sink>(
    sink: &mut S,
    field: &'static str,
    at: Element<'_>,
    names: &GeneralNames<A>,
) -> Result<(), S::Error> {
    sink.begin(Label::Field(field), at.span, Shape::Items)?;
    general_names(sink, at, names)?;
    sink.end()
}

/// The reasons for which a certificate is revoked, with the names of their bits.
const REASONS: [(Reason, &'static str); 8] = [
    (Reason::KeyCompromise, "keyCompromise"),
    (Reason::CaCompromise, "cACompromise"),
    (Reason::AffiliationChanged, "affiliationChanged"),
    (Reason::Superseded, "superseded"),
    (Reason::CessationOfOperation, "cessationOfOperation"),
    (Reason::CertificateHold, "certificateHold"),
    (Reason::PrivilegeWithdrawn, "privilegeWithdrawn"),
    (Reason::AaCompromise, "aACompromise"),
];

/// Tells for which reasons revocations are listed, by the names of the bits that are set.
fn reasons<A: Allocator, S: Sink>(
    sink: &mut S,
    field: &'static str,
    span: Span,
    flags: &ReasonFlags<A>,
) -> Result<(), S::Error> {
    let mut words = [""; 8];
    let mut count = 0;
    for (reason, word) in &REASONS {
        if flags.has(*reason) && count < words.len() {
            words[count] = *word;
            count += 1;
        }
    }
    let words = Value::Words(words.get(..count).unwrap_or(&[]));
    sink.field(Label::Field(field), span, words)
}
