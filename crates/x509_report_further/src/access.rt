//! Where services of an issuer or a subject are found (RFC 5280, 4.2.2).

use crate::Place;
use picky_asn1_x509::GeneralName;
use std::alloc::Allocator;
use x509_more_extensions::AccessDescription;
use x509_report_fields::name::general_name;
use x509_report_parts::{Element, Label, Shape, Sink};

/// Tells where services are found, each by how it is asked.
pub(crate) fn services<A: Allocator, S: Sink>(
    sink: &mut S,
    place: Place<'_>,
    services: &[AccessDescription<A>],
) -> Result<(), S::Error> {
    let mut items = place.inside.inside;
    sink.begin(place.label, place.span, Shape::Items)?;
    for service in services {
        description(sink, items.next(), service)?;
    }
    sink.end()
}

/// Tells where one is.
fn description<A: Allocator, S: Sink>(
    sink: &mut S,
    at: Element<'_>,
    service: &AccessDescription<A>,
) -> Result<(), S::Error> {
    let mut fields = at.inside;
    let _method = fields.next();
    let label = Label::Identifier(service.access_method.0.content());
    sink.begin(label, at.span, shape_around(&service.access_location))?;
    general_name(sink, fields.next(), &service.access_location)?;
    sink.end()
}

/// How a node is laid out that has a general name in it.
pub(crate) fn shape_around<A: Allocator>(name: &GeneralName<A>) -> Shape {
    match name {
        GeneralName::OtherName(_) | GeneralName::EdiPartyName(_) | GeneralName::DirectoryName(_) =>
            Shape::Fields,
        _ => Shape::Line,
    }
}
