//! Constraints on names and on policies of certificates below, and when a private key is used (RFC 5280, 4.2.1.10,
//! 4.2.1.11 and A.2).

use crate::access::shape_around;
use crate::{Place, integer};
use std::alloc::Allocator;
use x509_more_extensions::{
    GeneralSubtree, GeneralSubtrees, NameConstraints, PolicyConstraints, PrivateKeyUsagePeriod,
};
use x509_prim::GeneralizedTimeAsn1;
use x509_report_fields::name::general_name;
use x509_report_parts::{Cursor, Element, Label, Moment, Shape, Sink, Value};

/// The tag of what a node has first, `[0]`, where it is made of elements.
const FIRST_TAG: u8 = 0xa0;
/// The tag of what it has second, `[1]`.
const SECOND_TAG: u8 = 0xa1;

/// Tells which names certificates below may have.
pub(crate) fn names<A: Allocator, S: Sink>(
    sink: &mut S,
    place: Place<'_>,
    names: &NameConstraints<A>,
) -> Result<(), S::Error> {
    let mut fields = place.inside.inside;
    sink.begin(place.label, place.span, Shape::Fields)?;
    if let (Some(trees), Some(at)) = (&names.permitted_subtrees, fields.next_if(FIRST_TAG)) {
        subtrees(sink, "permittedSubtrees", at, trees)?;
    }
    if let (Some(trees), Some(at)) = (&names.excluded_subtrees, fields.next_if(SECOND_TAG)) {
        subtrees(sink, "excludedSubtrees", at, trees)?;
    }
    sink.end()
}

/// Tells names and all below them.
fn subtrees<A: Allocator, S: Sink>(
    sink: &mut S,
    field: &'static str,
    at: Element<'_>,
    trees: &GeneralSubtrees<A>,
) -> Result<(), S::Error> {
    let mut items = at.inside;
    sink.begin(Label::Field(field), at.span, Shape::Items)?;
    for tree in trees.0.as_slice() {
        subtree(sink, items.next(), tree)?;
    }
    sink.end()
}

/// Tells a name and all below it.
fn subtree<A: Allocator, S: Sink>(
    sink: &mut S,
    at: Element<'_>,
    tree: &GeneralSubtree<A>,
) -> Result<(), S::Error> {
    let mut fields = at.inside;
    sink.begin(
        Label::Field("GeneralSubtree"),
        at.span,
        shape_around(&tree.base),
    )?;
    general_name(sink, fields.next(), &tree.base)?;
    if let (Some(minimum), Some(at)) = (&tree.minimum, fields.next_if(0x80)) {
        sink.field(Label::Field("minimum"), at.span, integer(minimum))?;
    }
    if let (Some(maximum), Some(at)) = (&tree.maximum, fields.next_if(0x81)) {
        sink.field(Label::Field("maximum"), at.span, integer(maximum))?;
    }
    sink.end()
}

/// Tells from where on policies are demanded.
pub(crate) fn policy<A: Allocator, S: Sink>(
    sink: &mut S,
    place: Place<'_>,
    policy: &PolicyConstraints<A>,
) -> Result<(), S::Error> {
    let mut fields = place.inside.inside;
    sink.begin(place.label, place.span, Shape::Line)?;
    if let (Some(count), Some(at)) = (&policy.require_explicit_policy, fields.next_if(0x80)) {
        sink.field(
            Label::Field("requireExplicitPolicy"),
            at.span,
            integer(count),
        )?;
    }
    if let (Some(count), Some(at)) = (&policy.inhibit_policy_mapping, fields.next_if(0x81)) {
        sink.field(
            Label::Field("inhibitPolicyMapping"),
            at.span,
            integer(count),
        )?;
    }
    sink.end()
}

/// Tells when a private key is used.
pub(crate) fn period<S: Sink>(
    sink: &mut S,
    place: Place<'_>,
    period: &PrivateKeyUsagePeriod,
) -> Result<(), S::Error> {
    let mut fields = place.inside.inside;
    sink.begin(place.label, place.span, Shape::Line)?;
    time(sink, "notBefore", &mut fields, 0x80, &period.not_before)?;
    time(sink, "notAfter", &mut fields, 0x81, &period.not_after)?;
    sink.end()
}

/// Tells a time under a tag, if it is there.
fn time<S: Sink>(
    sink: &mut S,
    field: &'static str,
    fields: &mut Cursor<'_>,
    tag: u8,
    time: &Option<GeneralizedTimeAsn1>,
) -> Result<(), S::Error> {
    let (Some(time), Some(at)) = (time, fields.next_if(tag)) else {
        return Ok(());
    };
    let moment = Moment {
        date: (time.0.year(), time.0.month(), time.0.day()),
        time: (time.0.hour(), time.0.minute(), time.0.second()),
    };
    sink.field(Label::Field(field), at.span, Value::Time(moment))
}
