//! The policies under which a certificate is issued, and those that are taken for equivalent (RFC 5280, 4.2.1.4, 4.2.1.5).

use crate::{Limited, Place, malformed};
use std::alloc::Allocator;
use x509_der::ReadError;
use x509_more_extensions::PolicyMapping;
use x509_policies::{DisplayText, PolicyInformation, PolicyQualifierInfo, Qualifier, UserNotice};
use x509_report_parts::{Element, Label, Shape, Span, StringType, Value};

/// Tells the policies, each with what qualifies it.
pub(crate) fn policies<A: Allocator + Copy, S: Limited>(
    sink: &mut S,
    alloc: A,
    place: Place<'_>,
    policies: &[PolicyInformation<A>],
) -> Result<(), S::Error> {
    let mut items = place.inside.inside;
    sink.begin(place.label, place.span, Shape::Items)?;
    for policy in policies {
        information(sink, alloc, items.next(), policy)?;
    }
    sink.end()
}

/// Tells a policy.
fn information<A: Allocator + Copy, S: Limited>(
    sink: &mut S,
    alloc: A,
    at: Element<'_>,
    policy: &PolicyInformation<A>,
) -> Result<(), S::Error> {
    let mut fields = at.inside;
    let identifier = policy.policy_identifier.0.content();
    let Some(qualifiers) = &policy.policy_qualifiers else {
        let value = Value::Identifier(identifier);
        return sink.field(Label::Field("policyIdentifier"), at.span, value);
    };
    let _identifier = fields.next();
    let mut items = fields.next().inside;
    sink.begin(Label::Identifier(identifier), at.span, Shape::Items)?;
    for qualifier in qualifiers.0.as_slice() {
        qualified(sink, alloc, items.next(), qualifier)?;
    }
    sink.end()
}

/// Tells what qualifies a policy, and why not where its octets don't fit its identifier.
fn qualified<A: Allocator + Copy, S: Limited>(
    sink: &mut S,
    alloc: A,
    at: Element<'_>,
    qualifier: &PolicyQualifierInfo<A>,
) -> Result<(), S::Error> {
    let label = Label::Identifier(qualifier.policy_qualifier_id.0.content());
    match qualifier.read(alloc) {
        Ok((said, deviations)) => {
            let told = said_of(sink, label, at.span, &said);
            drop(said);
            told?;
            sink.deviating(deviations.total())
        }
        Err(refused) if refused.error == ReadError::OutOfMemory => Err(S::out_of_memory()),
        Err(refused) => {
            let mut fields = at.inside;
            let _identifier = fields.next();
            let place = fields.at.saturating_add(refused.at);
            let value = malformed(qualifier.qualifier.as_bytes(), refused.error, place);
            sink.field(label, at.span, value)
        }
    }
}

/// Tells what a qualifier says.
fn said_of<A: Allocator, S: Limited>(
    sink: &mut S,
    label: Label<'_>,
    span: Span,
    said: &Qualifier<A>,
) -> Result<(), S::Error> {
    match said {
        Qualifier::Cps(address) => sink.field(label, span, Value::Text(address.as_str())),
        Qualifier::UserNotice(notice) => sink.field(label, span, notice_of(notice)),
        Qualifier::Other(element) => sink.field(label, span, Value::Raw(element.as_bytes())),
    }
}

/// The text of a notice: the one that is to be shown, or else the name of who wrote the one that is referred to.
fn notice_of<A: Allocator>(notice: &UserNotice<A>) -> Value<'_> {
    match (&notice.explicit_text, &notice.notice_ref) {
        (Some(text), _) => display_text(text),
        (None, Some(reference)) => display_text(&reference.organization),
        (None, None) => Value::Text(""),
    }
}

/// The value of a text that is to be shown.
fn display_text<A: Allocator>(text: &DisplayText<A>) -> Value<'_> {
    match text {
        DisplayText::Ia5String(text) => Value::Text(text.as_str()),
        DisplayText::VisibleString(text) => Value::Typed(StringType::Visible, text.as_str()),
        DisplayText::BmpString(text) => Value::Utf16(text.as_bytes()),
        DisplayText::Utf8String(text) => Value::Typed(StringType::Utf8, text.as_str()),
    }
}

/// Tells which policies are taken for equivalent.
pub(crate) fn mappings<A: Allocator, S: Limited>(
    sink: &mut S,
    place: Place<'_>,
    mappings: &[PolicyMapping<A>],
) -> Result<(), S::Error> {
    let mut items = place.inside.inside;
    sink.begin(place.label, place.span, Shape::Items)?;
    for mapping in mappings {
        let at = items.next();
        let mut fields = at.inside;
        sink.begin(Label::Field("PolicyMapping"), at.span, Shape::Line)?;
        let issuer = Value::Identifier(mapping.issuer_domain_policy.0.content());
        sink.field(
            Label::Field("issuerDomainPolicy"),
            fields.next().span,
            issuer,
        )?;
        let subject = Value::Identifier(mapping.subject_domain_policy.0.content());
        sink.field(
            Label::Field("subjectDomainPolicy"),
            fields.next().span,
            subject,
        )?;
        sink.end()?;
    }
    sink.end()
}
