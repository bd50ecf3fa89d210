//! Public keys.

ghost use Rattle.std.specs.Prelude.{◌≡◌, ◌∷◌, List, ℕ};
ghost use Rattle.x509_der.specs.ObjectIdentifier.{IsOid, is_arcs};
ghost use Rattle.x509_der.specs.Tally.{Tally};
ghost use Rattle.x509_keys.specs.AlgorithmParameters.{by_kind};
ghost use Rattle.x509_keys.specs.KeyKinds.{rsa_encryption};
ghost use Rattle.x509_keys.specs.SubjectPublicKeyInfos.{subject_public_key_info};
ghost use Rattle.x509_keys.specs.Types.{AlgorithmIdentifierParameters as Parameters};
ghost use Rattle.x509_keys.specs.declared.subject_public_key_info.SubjectPublicKeyInfo.{SubjectPublicKeyInfo as Info};
ghost use Rattle.x509_keys_parts.specs.declared.algorithm_parameters.AlgorithmKind.{AlgorithmKind};
ghost use Rattle.x509_fields.specs.Spans.{FieldIn};
ghost use Rattle.picky_asn1_x509.specs.Certificates.{certificate};
ghost use Rattle.picky_asn1_x509.specs.Requests.{request};
ghost use Rattle.x509_flat_values.specs.Covered.{CoversAll, Within};
ghost use Rattle.x509_flat_values.specs.Curves.{size_or as own_size};
ghost use Rattle.x509_flat_values.specs.KeyParts.{CurveTold, PartsTold, no_curve as nothing};
ghost use Rattle.x509_flat_values.specs.Keys.{KeyTold, no_key};
ghost use Rattle.x509_flat_values.specs.Told.{Told};

use crate::answers::{done, nowhere, refused};
use crate::curves::{algorithm_size, curve_size};
use crate::identifier::{Identifier, is_identifier};
use crate::rsa::rsa_within;
use picky_asn1_x509::{SubjectPublicKeyInfo, check};
use std::alloc::Allocator;
use x509_der::laws::spellings_are_lawful;
use x509_der::parts::OBJECT_IDENTIFIER_TAG;
use x509_fields::{CertificateFields, CertificationRequestFields, Span};
use x509_flat::status::Answer;
use x509_values::elements::Elements;

/// Where the parts of a public key stand (RFC 5280, 4.1.2.7), and its size. Of what there isn't, the span is 0..0.
#[repr(C)]
#[derive(Clone, Copy, Debug, PartialEq, Eq)]
pub struct KeyPlaces {
    /// The content of the algorithm's object identifier.
    pub algorithm: Span,
    /// The content of the curve's, of a key on a named curve (RFC 5480, 2.1.1).
    pub curve: Span,
    /// How many bits the modulus of an RSA key has, the field of a curve that is known, or a key of Ed25519, Ed448, X25519 or
    /// X448; else 0.
    pub bits: usize,
    /// The content of an RSA key's modulus, a number in two's complement, the highest byte first (RFC 8017, A.1.1).
    pub modulus: Span,
    /// That of its exponent.
    pub exponent: Span,
    /// The bytes of another key: a point, or the key itself.
    pub key: Span,
}

impl KeyPlaces {
    /// All zeros.
    pub fn none() -> Self
        ensures { result ≡ no_key }
    {
        KeyPlaces {
            algorithm: nowhere(),
            curve: nowhere(),
            bits: 0,
            modulus: nowhere(),
            exponent: nowhere(),
            key: nowhere(),
        }
    }
}

/// A curve that parameters name.
#[derive(Clone, Copy, Debug, PartialEq, Eq)]
pub struct Curve {
    /// The content of its object identifier.
    pub place: Span,
    /// How many bits its field has, where there is a curve; 0 of one that isn't known.
    pub size: Option<usize>,
}

/// No curve.
fn no_curve() -> Curve
    ensures { result ≡ nothing }
{
    Curve {
        place: nowhere(),
        size: None,
    }
}

/// The curve that the parameters name which are left, if any.
fn curve_within<A: Allocator + Copy>(parameters: Elements<'_>) -> Curve
    ensures { (kind : AlgorithmKind) (v : Parameters A) (y : Tally) (string : List ℕ) → Within string parameters.entry →
        (by_kind kind).spelled v parameters.entry.rest y → CurveTold v string result }
{
    let mut parameters = parameters;
    let Some(first) = parameters.next() else {
        return no_curve();
    };
    if first.tag != OBJECT_IDENTIFIER_TAG {
        return no_curve();
    }
    let Some(curve) = Identifier::of(first.inside.bytes()) else {
        return no_curve();
    };
    Curve {
        place: first.inside.span(),
        size: Some(curve_size(&curve)),
    }
}

/// The bytes behind the first one, where there are any.
fn behind_first(bytes: Elements<'_>) -> Span
    ensures { (string more : List ℕ) (first : ℕ) → Within string bytes.entry → bytes.entry.rest ≡ first ∷ more →
        CoversAll string result more }
{
    let span = bytes.span();
    if span.start == span.end {
        return span;
    }
    Span {
        start: span.start + 1,
        end: span.end,
    }
}

/// The parts of a public key.
#[derive(Drop)]
struct Parts<'a> {
    /// The content of the algorithm's object identifier,
    identifier: &'a [u8],
    /// and where it stands.
    algorithm: Span,
    /// The curve.
    curve: Curve,
    /// What stands behind the number of unused bits.
    key: Span,
}

/// The parts of the public key that a span of an input encodes.
fn parts_within<A: Allocator + Copy>(bytes: &[u8], span: Span) -> Parts<'_>
    ensures { (v : Info A) (whole : Tally) → FieldIn subject_public_key_info v span bytes.now whole →
        PartsTold v bytes.now result.identifier.now result.algorithm result.curve result.key }
{
    let mut info = Elements::over(bytes, span);
    let mut fields = info.take().inside;
    let mut algorithm = fields.take().inside;
    let identifier = algorithm.take().inside;
    let curve = curve_within::<A>(algorithm);
    let key = behind_first(fields.take().inside);
    Parts {
        identifier: identifier.bytes(),
        algorithm: identifier.span(),
        curve,
        key,
    }
}

/// Whether an object identifier with this content is that of RSA keys (RFC 8017, A.1).
fn is_rsa(content: &[u8]) -> bool
    ensures { (arcs : List ℕ) → IsOid arcs content.now → result ≡ is_arcs arcs rsa_encryption }
{
    is_identifier(content, &[0x2A, 0x86, 0x48, 0x86, 0xF7, 0x0D, 1, 1, 1])
}

/// The size of a key that isn't one of RSA: that of its curve, if it has one, else that of the algorithm with this content.
fn size_or(content: &[u8], size: Option<usize>) -> usize
    ensures { (arcs : List ℕ) → IsOid arcs content.now → result ≡ own_size arcs size }
{
    if let Some(size) = size {
        return size;
    }
    match Identifier::of(content) {
        Some(algorithm) => algorithm_size(&algorithm),
        None => 0,
    }
}

/// Where the parts stand of the public key that a span of an input encodes, whatever key it is. Takes no memory. Of a span
/// that encodes none it says nothing.
pub fn key_within<A: Allocator + Copy>(bytes: &[u8], span: Span) -> KeyPlaces
    ensures { (v : Info A) (whole : Tally) → FieldIn subject_public_key_info v span bytes.now whole → KeyTold bytes.now v result }
{
    let parts = parts_within::<A>(bytes, span);
    if is_rsa(parts.identifier) {
        let rsa = rsa_within::<A>(bytes, parts.key);
        return KeyPlaces {
            algorithm: parts.algorithm,
            curve: parts.curve.place,
            bits: rsa.bits,
            modulus: rsa.modulus,
            exponent: rsa.exponent,
            key: nowhere(),
        };
    }
    KeyPlaces {
        algorithm: parts.algorithm,
        curve: parts.curve.place,
        bits: size_or(parts.identifier, parts.curve.size),
        modulus: nowhere(),
        exponent: nowhere(),
        key: parts.key,
    }
}

/// Where the parts of a certificate's public key stand.
pub fn of_certificate<A: Allocator + Copy>(alloc: A, bytes: &[u8]) -> Answer<KeyPlaces>
    ensures { Told (certificate {A = A}) bytes.now (λ v at. KeyTold bytes.now v.tbs_certificate.subject_public_key_info at) no_key
        result.status result.fields }
{
    match CertificateFields::find(alloc, bytes) {
        Ok(places) => done(key_within::<A>(bytes, places.fields.subject_public_key_info)),
        Err(error) => refused(error, KeyPlaces::none()),
    }
}

/// Where those of a request's public key stand.
pub fn of_request<A: Allocator + Copy>(alloc: A, bytes: &[u8]) -> Answer<KeyPlaces>
    ensures { Told (request {A = A}) bytes.now (λ v at. KeyTold bytes.now v.certification_request_info.subject_public_key_info at) no_key
        result.status result.fields }
{
    match CertificationRequestFields::find(alloc, bytes) {
        Ok(places) => done(key_within::<A>(bytes, places.fields.subject_public_key_info)),
        Err(error) => refused(error, KeyPlaces::none()),
    }
}

/// Where those of a public key by itself stand.
pub fn of_public_key<A: Allocator + Copy>(alloc: A, bytes: &[u8]) -> Answer<KeyPlaces>
    ensures { Told (subject_public_key_info {A = A}) bytes.now (λ v at. KeyTold bytes.now v at) no_key result.status result.fields }
{
    spellings_are_lawful::<SubjectPublicKeyInfo<A>, A>();
    let whole = Span {
        start: 0,
        end: bytes.len(),
    };
    match check::<SubjectPublicKeyInfo<A>, A>(alloc, bytes) {
        Ok(_deviations) => done(key_within::<A>(bytes, whole)),
        Err(error) => refused(error, KeyPlaces::none()),
    }
}
