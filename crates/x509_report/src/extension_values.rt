//! What extensions hold.

use picky_asn1_x509::{AuthorityKeyIdentifier, BasicConstraints, ExtendedKeyUsage, KeyUsage};
use std::alloc::Allocator;
use x509_report_fields::name::general_name;
use x509_report_further::Limited;
use x509_report_parts::{Element, Label, Shape, Span, Value};

/// Tells what the certified key is for.
pub(crate) fn purposes<A: Allocator, S: Limited>(
    sink: &mut S,
    label: Label<'_>,
    span: Span,
    inside: Element<'_>,
    usage: &ExtendedKeyUsage<A>,
) -> Result<(), S::Error> {
    let mut items = inside.inside;
    sink.begin(label, span, Shape::Items)?;
    for purpose in usage.iter() {
        let value = Value::Identifier(purpose.0.content());
        sink.field(Label::Field("KeyPurposeId"), items.next().span, value)?;
    }
    sink.end()
}

/// The names of the bits of a key usage (RFC 5280, 4.2.1.3).
const USAGES: [&'static str; 9] = [
    "digitalSignature",
    "nonRepudiation",
    "keyEncipherment",
    "dataEncipherment",
    "keyAgreement",
    "keyCertSign",
    "cRLSign",
    "encipherOnly",
    "decipherOnly",
];

/// Which of the nine bits are set.
fn flags_of<A: Allocator>(usage: &KeyUsage<A>) -> [bool; 9] {
    [
        usage.digital_signature(),
        usage.content_commitment(),
        usage.key_encipherment(),
        usage.data_encipherment(),
        usage.key_agreement(),
        usage.key_cert_sign(),
        usage.crl_sign(),
        usage.encipher_only(),
        usage.decipher_only(),
    ]
}

/// Tells what the certified key may be used for, by the names of the bits that are set.
pub(crate) fn key_usage<A: Allocator, S: Limited>(
    sink: &mut S,
    label: Label<'_>,
    span: Span,
    usage: &KeyUsage<A>,
) -> Result<(), S::Error> {
    let flags = flags_of(usage);
    let mut words = [""; 9];
    let mut count = 0;
    for (word, flag) in USAGES.iter().zip(&flags) {
        if *flag && count < words.len() {
            words[count] = *word;
            count += 1;
        }
    }
    let bits = u64::try_from(usage.len()).unwrap_or(u64::MAX);
    let set = words.get(..count).unwrap_or(&[]);
    sink.field(label, span, Value::Usages(bits, usage.as_bytes(), set))
}

/// Tells whether the subject is an authority, and how many authorities may stand below it.
pub(crate) fn basic_constraints<S: Limited>(
    sink: &mut S,
    label: Label<'_>,
    span: Span,
    inside: Element<'_>,
    constraints: &BasicConstraints,
) -> Result<(), S::Error> {
    let mut fields = inside.inside;
    sink.begin(label, span, Shape::Line)?;
    match constraints.ca() {
        Some(ca) => sink.field(Label::Field("cA"), fields.next().span, Value::Flag(ca))?,
        None => sink.left_out(Label::Field("cA"), Value::Flag(false))?,
    }
    if let Some(length) = constraints.pathlen() {
        let length = Value::Number(u64::from(length));
        sink.field(
            Label::Field("pathLenConstraint"),
            fields.next().span,
            length,
        )?;
    }
    sink.end()
}

/// Tells which key signed. Of fields with one tag, the last counts.
pub(crate) fn authority<A: Allocator, S: Limited>(
    sink: &mut S,
    label: Label<'_>,
    span: Span,
    inside: Element<'_>,
    key: &AuthorityKeyIdentifier<A>,
) -> Result<(), S::Error> {
    let fields = inside.inside;
    let shape = match key.authority_cert_issuer() {
        Some(_) => Shape::Fields,
        None => Shape::Line,
    };
    sink.begin(label, span, shape)?;
    if let (Some(bytes), Some(at)) = (key.key_identifier(), fields.last(0x80)) {
        sink.field(Label::Field("keyIdentifier"), at.span, Value::Octets(bytes))?;
    }
    issuer(sink, fields.last(0xa1), key)?;
    if let (Some(number), Some(at)) = (key.authority_cert_serial_number(), fields.last(0x82)) {
        let number = Value::Integer(number.as_bytes());
        sink.field(Label::Field("authorityCertSerialNumber"), at.span, number)?;
    }
    sink.end()
}

/// Tells who certified the key that signed.
fn issuer<A: Allocator, S: Limited>(
    sink: &mut S,
    at: Option<Element<'_>>,
    key: &AuthorityKeyIdentifier<A>,
) -> Result<(), S::Error> {
    let (Some(name), Some(at)) = (key.authority_cert_issuer(), at) else {
        return Ok(());
    };
    let mut inside = at.inside;
    sink.begin(Label::Field("authorityCertIssuer"), at.span, Shape::Items)?;
    general_name(sink, inside.next(), name)?;
    sink.end()
}
