//! Algorithm identifiers.

use picky_asn1_x509::{
    AesAuthEncParams, AesParameters, AlgorithmIdentifier, AlgorithmIdentifierParameters,
    EcParameters, HashAlgorithm, MaskGenAlgorithm, RsassaPssParams,
};
use std::alloc::Allocator;
use std::fmt::{self, Write};
use x509_report_parts::text_sink::Named;
use x509_report_parts::{Element, Identifiers, Label, Shape, Sink, Value};

/// Tells an algorithm with its parameters.
pub fn algorithm<A: Allocator, S: Sink>(
    sink: &mut S,
    field: &'static str,
    at: Element<'_>,
    value: &AlgorithmIdentifier<A>,
) -> Result<(), S::Error> {
    let mut fields = at.inside;
    let parameters = value.parameters();
    sink.begin(Label::Field(field), at.span, shape_of(parameters))?;
    let identifier = Value::Identifier(value.oid().content());
    sink.field(Label::Field("algorithm"), fields.next().span, identifier)?;
    if fields.tag().is_some() {
        told_parameters(sink, fields.next(), parameters)?;
    }
    sink.end()
}

/// Writes the name of an algorithm, or its object identifier with dots.
pub fn write_algorithm<A: Allocator, W: Write>(
    out: &mut W,
    value: &AlgorithmIdentifier<A>,
) -> fmt::Result {
    write!(out, "{}", Named(value.oid().content(), Identifiers::Named))
}

/// Whether an algorithm stands on one line.
fn shape_of<A: Allocator>(parameters: &AlgorithmIdentifierParameters<A>) -> Shape {
    match parameters {
        AlgorithmIdentifierParameters::RsassaPss(_)
        | AlgorithmIdentifierParameters::Aes(AesParameters::AuthenticatedEncryptionParameters(_)) =>
            { Shape::Fields }
        _ => Shape::Line,
    }
}

/// Tells the parameters, where they are encoded.
fn told_parameters<A: Allocator, S: Sink>(
    sink: &mut S,
    at: Element<'_>,
    value: &AlgorithmIdentifierParameters<A>,
) -> Result<(), S::Error> {
    let label = Label::Field("parameters");
    match value {
        AlgorithmIdentifierParameters::None | AlgorithmIdentifierParameters::Null => {
            sink.field(label, at.span, Value::Null)
        }
        AlgorithmIdentifierParameters::Aes(value) => aes(sink, at, value),
        AlgorithmIdentifierParameters::Ec(EcParameters::NamedCurve(curve)) => {
            sink.field(label, at.span, Value::Identifier(curve.0.content()))
        }
        AlgorithmIdentifierParameters::RsassaPss(value) => pss(sink, at, value),
    }
}

/// Tells the parameters of AES.
fn aes<A: Allocator, S: Sink>(
    sink: &mut S,
    at: Element<'_>,
    value: &AesParameters<A>,
) -> Result<(), S::Error> {
    let label = Label::Field("parameters");
    match value {
        AesParameters::Null => sink.field(label, at.span, Value::Null),
        AesParameters::InitializationVector(octets) => {
            sink.field(label, at.span, Value::Octets(octets.0.as_slice()))
        }
        AesParameters::AuthenticatedEncryptionParameters(value) => aes_auth_enc(sink, at, value),
    }
}

/// Tells the parameters of authenticated encryption with AES.
fn aes_auth_enc<A: Allocator, S: Sink>(
    sink: &mut S,
    at: Element<'_>,
    value: &AesAuthEncParams<A>,
) -> Result<(), S::Error> {
    let mut fields = at.inside;
    sink.begin(Label::Field("parameters"), at.span, Shape::Line)?;
    let nonce = Value::Octets(value.nonce());
    sink.field(Label::Field("aes-nonce"), fields.next().span, nonce)?;
    let len = Value::Integer(value.icv_len());
    sink.field(Label::Field("aes-ICVlen"), fields.next().span, len)?;
    sink.end()
}

/// The name of a hash function.
fn hash_word(hash: HashAlgorithm) -> &'static str {
    match hash {
        HashAlgorithm::SHA224 => "id-sha224",
        HashAlgorithm::SHA256 => "id-sha256",
        HashAlgorithm::SHA384 => "id-sha384",
        HashAlgorithm::SHA512 => "id-sha512",
        HashAlgorithm::SHA3_224 => "id-sha3-224",
        HashAlgorithm::SHA3_256 => "id-sha3-256",
        HashAlgorithm::SHA3_384 => "id-sha3-384",
        HashAlgorithm::SHA3_512 => "id-sha3-512",
    }
}

/// Tells a mask generation function and its hash function.
fn mask<A: Allocator, S: Sink>(
    sink: &mut S,
    at: Element<'_>,
    value: &MaskGenAlgorithm<A>,
) -> Result<(), S::Error> {
    let mut inside = at.inside;
    let mut fields = inside.next().inside;
    sink.begin(Label::Field("maskGenAlgorithm"), at.span, Shape::Line)?;
    let identifier = Value::Identifier(value.mask_gen_algorithm.0.content());
    sink.field(Label::Field("algorithm"), fields.next().span, identifier)?;
    let hash = Value::Algorithm(hash_word(value.hash_algorithm));
    sink.field(Label::Field("parameters"), fields.next().span, hash)?;
    sink.end()
}

/// Tells the parameters of RSASSA-PSS.
fn pss<A: Allocator, S: Sink>(
    sink: &mut S,
    at: Element<'_>,
    value: &RsassaPssParams<A>,
) -> Result<(), S::Error> {
    let mut fields = at.inside;
    sink.begin(Label::Field("parameters"), at.span, Shape::Fields)?;
    if let Some(found) = fields.next_if(0xa0) {
        let hash = Value::Algorithm(hash_word(value.hash_algorithm));
        sink.field(Label::Field("hashAlgorithm"), found.span, hash)?;
    }
    if let Some(found) = fields.next_if(0xa1) {
        mask(sink, found, &value.mask_gen_algorithm)?;
    }
    if let Some(found) = fields.next_if(0xa2) {
        let length = Value::Number(value.salt_length as u64);
        sink.field(Label::Field("saltLength"), found.span, length)?;
    }
    sink.end()
}
