//! What is stated of qualified certificates, attributes of the subject, and extensions of Netscape and Microsoft.

use crate::{Place, integer};
use std::alloc::Allocator;
use x509_qualified::{
    CertUse, CertificateTemplate, DirectoryAttribute, NetscapeCertType, QcStatement,
};
use x509_report_fields::name::raw;
use x509_report_parts::{Element, Label, Shape, Sink, Value};

/// Tells what is stated of a certificate (RFC 3739, 3.2.6).
pub(crate) fn statements<A: Allocator, S: Sink>(
    sink: &mut S,
    place: Place<'_>,
    statements: &[QcStatement<A>],
) -> Result<(), S::Error> {
    let mut items = place.inside.inside;
    sink.begin(place.label, place.span, Shape::Items)?;
    for statement in statements {
        let span = items.next().span;
        let identifier = statement.statement_id.0.content();
        let (label, value) = match &statement.statement_info {
            Some(element) => (Label::Identifier(identifier), raw(element.as_bytes())),
            None => (Label::Field("statementId"), Value::Identifier(identifier)),
        };
        sink.field(label, span, value)?;
    }
    sink.end()
}

/// Tells attributes of the subject (RFC 5280, 4.2.1.8).
pub(crate) fn attributes<A: Allocator, S: Sink>(
    sink: &mut S,
    place: Place<'_>,
    attributes: &[DirectoryAttribute<A>],
) -> Result<(), S::Error> {
    let mut items = place.inside.inside;
    sink.begin(place.label, place.span, Shape::Items)?;
    for attribute in attributes {
        values(sink, items.next(), attribute)?;
    }
    sink.end()
}

/// Tells the values of an attribute.
fn values<A: Allocator, S: Sink>(
    sink: &mut S,
    at: Element<'_>,
    attribute: &DirectoryAttribute<A>,
) -> Result<(), S::Error> {
    let mut fields = at.inside;
    let _type = fields.next();
    let mut items = fields.next().inside;
    let label = Label::Identifier(attribute.attribute_type.0.content());
    sink.begin(label, at.span, Shape::Items)?;
    for value in attribute.values.0.as_slice() {
        let span = items.next().span;
        sink.field(Label::Field("AttributeValue"), span, raw(value.as_bytes()))?;
    }
    sink.end()
}

/// What certificates are for, with the names of the bits.
const USES: [(CertUse, &'static str); 7] = [
    (CertUse::SslClient, "sslClient"),
    (CertUse::SslServer, "sslServer"),
    (CertUse::Smime, "smime"),
    (CertUse::ObjectSigning, "objectSigning"),
    (CertUse::SslCa, "sslCA"),
    (CertUse::SmimeCa, "smimeCA"),
    (CertUse::ObjectSigningCa, "objectSigningCA"),
];

/// Tells what a certificate is for, by the names of the bits that are set.
pub(crate) fn cert_type<A: Allocator, S: Sink>(
    sink: &mut S,
    place: Place<'_>,
    flags: &NetscapeCertType<A>,
) -> Result<(), S::Error> {
    let mut words = [""; 7];
    let mut count = 0;
    for (purpose, word) in &USES {
        if flags.has(*purpose) && count < words.len() {
            words[count] = *word;
            count += 1;
        }
    }
    let words = Value::Words(words.get(..count).unwrap_or(&[]));
    sink.field(place.label, place.span, words)
}

/// What the numbers of a template's version are called, in their order.
const VERSIONS: [&'static str; 2] = ["templateMajorVersion", "templateMinorVersion"];

/// Tells by which template a certificate was issued (MS-WCCE, 2.2.2.7.7.2); of numbers behind the version nothing.
pub(crate) fn template<A: Allocator, S: Sink>(
    sink: &mut S,
    place: Place<'_>,
    template: &CertificateTemplate<A>,
) -> Result<(), S::Error> {
    let mut fields = place.inside.inside;
    sink.begin(place.label, place.span, Shape::Line)?;
    let identifier = Value::Identifier(template.template_id.0.content());
    sink.field(Label::Field("templateID"), fields.next().span, identifier)?;
    for (number, name) in template.version.0.as_slice().iter().zip(&VERSIONS) {
        sink.field(Label::Field(*name), fields.next().span, integer(number))?;
    }
    sink.end()
}
