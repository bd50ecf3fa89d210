//! What rules ask of a request.

ghost use Rattle.std.specs.Prelude.{◌≡◌, ◌↔◌, false, Any, IfOk, IsOk, IsTrue};
ghost use Rattle.x509_findings.specs.Conditions.{takes_memory};
ghost use Rattle.x509_findings.specs.Requests.{AsksTwice, BreaksRequest, BreaksRequestOrder, HoldsOfRequest, are_asked, asks, value_asks};
ghost use Rattle.std.specs.List.{list_any};
ghost use Rattle.x509_findings_memory.specs.Repeats.{Repeats};
ghost use Rattle.x509_findings_parts.specs.Features.{some_have};

use crate::condition::{Condition, FieldFault, OrderFault};
use picky_asn1_x509::{Attribute, AttributeValues, CertificationRequest, Extensions};
use std::alloc::{AllocError, Allocator};
use x509_findings_memory::{has_unsorted, repeats};
use x509_findings_parts::{
    Feature, has_empty_set, has_even_exponent, has_even_modulus, has_low_exponent, has_low_modulus,
    has_short_modulus, name_has_text_fault, some_have, spells_salt,
};

/// Whether a list has an extension with a feature.
fn list_has<A: Allocator>(list: &Extensions<A>, feature: Feature) -> bool
    ensures { result ≡ some_have feature list.now }
{
    some_have(list.0.0.as_slice(), feature)
}

/// Whether one of some lists has an extension with a feature.
fn lists_have<A: Allocator>(lists: &[Extensions<A>], feature: Feature) -> bool
    ensures { result ≡ list_any (some_have feature) lists.now }
{
    lists.iter().any(|list| list_has(list, feature))
}

/// Whether values of an attribute ask for an extension with a feature.
fn value_asks<A: Allocator>(value: &AttributeValues<A>, feature: Feature) -> bool
    ensures { result ≡ value_asks feature value.now }
{
    match value {
        AttributeValues::Extensions(lists) => lists_have(lists.0.as_slice(), feature),
        AttributeValues::ContentType(_)
        | AttributeValues::SpcStatementType(_)
        | AttributeValues::MessageDigest(_)
        | AttributeValues::SigningTime(_)
        | AttributeValues::Custom(_) => false,
    }
}

/// Whether an attribute asks for an extension with a feature.
fn asks<A: Allocator>(attribute: &Attribute<A>, feature: Feature) -> bool
    ensures { result ≡ asks feature attribute.now }
{
    value_asks(&attribute.value, feature)
}

/// Whether attributes ask for an extension with a feature.
fn are_asked<A: Allocator>(attributes: &[Attribute<A>], feature: Feature) -> bool
    ensures { result ≡ are_asked feature attributes.now }
{
    attributes.iter().any(|attribute| asks(attribute, feature))
}

/// Whether a list has an extension twice.
fn list_repeats<A: Allocator, B: Allocator + Copy>(
    alloc: B,
    list: &Extensions<A>,
) -> Result<bool, AllocError>
    ensures { IfOk result (λ told. IsTrue told ↔ Repeats list.now) }
{
    repeats(alloc, list.0.0.as_slice())
}

/// Whether one of some lists of extensions has an extension twice.
fn some_repeat<A: Allocator, B: Allocator + Copy>(
    alloc: B,
    lists: &[Extensions<A>],
) -> Result<bool, AllocError>
    ensures { IfOk result (λ told. IsTrue told ↔ Any Repeats lists.now) }
{
    for list in lists {
        if list_repeats(alloc, list)? {
            return Ok(true);
        }
    }
    Ok(false)
}

/// Whether an attribute asks for a list with an extension twice.
fn asks_twice<A: Allocator, B: Allocator + Copy>(
    alloc: B,
    attribute: &Attribute<A>,
) -> Result<bool, AllocError>
    ensures { IfOk result (λ told. IsTrue told ↔ AsksTwice attribute.now) }
{
    match &attribute.value {
        AttributeValues::Extensions(lists) => some_repeat(alloc, lists.0.as_slice()),
        AttributeValues::ContentType(_)
        | AttributeValues::SpcStatementType(_)
        | AttributeValues::MessageDigest(_)
        | AttributeValues::SigningTime(_)
        | AttributeValues::Custom(_) => Ok(false),
    }
}

/// Whether one of some attributes asks for a list with an extension twice.
fn some_ask_twice<A: Allocator, B: Allocator + Copy>(
    alloc: B,
    attributes: &[Attribute<A>],
) -> Result<bool, AllocError>
    ensures { IfOk result (λ told. IsTrue told ↔ Any AsksTwice attributes.now) }
{
    for attribute in attributes {
        if asks_twice(alloc, attribute)? {
            return Ok(true);
        }
    }
    Ok(false)
}

/// The attributes of a request.
fn attributes_of<A: Allocator>(request: &CertificationRequest<A>) -> &[Attribute<A>]
    ensures { result.now ≡ request.now.certification_request_info.attributes }
{
    request.certification_request_info.attributes.0.0.as_slice()
}

/// Whether the fields of a request have a fault.
fn breaks_request<A: Allocator>(fault: FieldFault, request: &CertificationRequest<A>) -> bool
    ensures { IsTrue result ↔ BreaksRequest fault request.now }
{
    let signed = &request.certification_request_info;
    let key = &signed.subject_public_key_info.subject_public_key;
    match fault {
        FieldFault::SpelledSalt => spells_salt(&request.signature_algorithm),
        FieldFault::EmptySubjectSet => has_empty_set(&signed.subject),
        FieldFault::LowModulus => has_low_modulus(key),
        FieldFault::EvenModulus => has_even_modulus(key),
        FieldFault::ShortModulus => has_short_modulus(key),
        FieldFault::LowExponent => has_low_exponent(key),
        FieldFault::EvenExponent => has_even_exponent(key),
        FieldFault::LowSerial
        | FieldFault::LongSerial
        | FieldFault::OtherAlgorithm
        | FieldFault::NoIssuer
        | FieldFault::EmptyIssuerSet
        | FieldFault::NoPeriod
        | FieldFault::EarlyStart
        | FieldFault::EarlyEnd
        | FieldFault::NoSubject
        | FieldFault::NoAuthority
        | FieldFault::HiddenMailbox
        | FieldFault::IssuerId
        | FieldFault::SubjectId
        | FieldFault::NoAuthorityKey
        | FieldFault::NeedlessNames => false,
    }
}

/// Whether something in a request isn't in order, or stands there twice.
fn breaks_request_order<A: Allocator, B: Allocator + Copy>(
    alloc: B,
    fault: OrderFault,
    request: &CertificationRequest<A>,
) -> Result<bool, AllocError>
    ensures { IfOk result (λ told. IsTrue told ↔ BreaksRequestOrder fault request.now) }
{
    let signed = &request.certification_request_info;
    match fault {
        OrderFault::UnsortedSubject => has_unsorted(alloc, &signed.subject),
        OrderFault::RepeatedExtension => some_ask_twice(alloc, attributes_of(request)),
        OrderFault::UnsortedIssuer => Ok(false),
    }
}

/// Whether what a rule asks holds of a request.
pub(crate) fn holds_of_request<A: Allocator, B: Allocator + Copy>(
    alloc: B,
    condition: Condition,
    request: &CertificationRequest<A>,
) -> Result<bool, AllocError>
    ensures told { IfOk result (λ told. IsTrue told ↔ HoldsOfRequest condition request.now) }
    ensures free { takes_memory condition ≡ false → IsOk result }
{
    let signed = &request.certification_request_info;
    match condition {
        Condition::Field(fault) => Ok(breaks_request(fault, request)),
        Condition::Subject(fault) => Ok(name_has_text_fault(&signed.subject, fault)),
        Condition::Has(feature) => Ok(are_asked(attributes_of(request), feature)),
        Condition::Issuer(_) | Condition::HasWithout(_, _) => Ok(false),
        Condition::Order(fault) => breaks_request_order(alloc, fault, request),
    }
}
