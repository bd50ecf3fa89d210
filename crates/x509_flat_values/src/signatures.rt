//! The algorithms of signatures.

ghost use Rattle.std.specs.Prelude.{◌≡◌, List, ℕ};
ghost use Rattle.x509_der.specs.ObjectIdentifier.{IsOid, is_arcs};
ghost use Rattle.x509_der.specs.Tally.{Tally};
ghost use Rattle.x509_keys.specs.AlgorithmIdentifier.{Algorithm, algorithm_identifier};
ghost use Rattle.x509_keys.specs.AlgorithmKinds.{rsassa_pss_algorithm};
ghost use Rattle.x509_keys.specs.RsassaPss.{rsassa_pss};
ghost use Rattle.x509_keys.specs.Types.{RsassaPssParams};
ghost use Rattle.x509_fields.specs.Spans.{FieldIn};
ghost use Rattle.picky_asn1_x509.specs.Certificates.{certificate};
ghost use Rattle.picky_asn1_x509.specs.Requests.{request};
ghost use Rattle.x509_flat_values.specs.Digests.{digest_by as by_arcs, digest_of_hash};
ghost use Rattle.x509_flat_values.specs.Signatures.{SignatureTold, no_signature};
ghost use Rattle.x509_flat_values.specs.Told.{Told};

use crate::answers::{done, nowhere, refused};
use crate::digests::{Digest, digest_by, digest_named};
use crate::identifier::{Identifier, is_identifier};
use picky_asn1_x509::{AlgorithmIdentifier, check};
use std::alloc::Allocator;
use x509_der::laws::spellings_are_lawful;
use x509_fields::{CertificateFields, CertificationRequestFields, Span};
use x509_flat::status::Answer;
use x509_values::elements::Elements;

/// Where the identifier of a signature's algorithm stands (RFC 5280, 4.1.1.2), and which digest the algorithm has.
#[repr(C)]
#[derive(Clone, Copy, Debug, PartialEq, Eq)]
pub struct SignaturePlace {
    /// The content of its object identifier.
    pub algorithm: Span,
    /// The number of the digest, as `Digest::number` says; 0 where it has none.
    pub digest: u32,
}

impl SignaturePlace {
    /// All zeros.
    pub fn none() -> Self
        ensures { result ≡ no_signature }
    {
        SignaturePlace {
            algorithm: nowhere(),
            digest: 0,
        }
    }
}

/// The digest that the parameters of RSASSA-PSS name which are left (RFC 8017, A.2.3).
fn pss_digest<A: Allocator + Copy>(parameters: Elements<'_>) -> Digest
    ensures { (p : RsassaPssParams A) (y : Tally) → rsassa_pss.spelled p parameters.entry.rest y →
        result ≡ digest_of_hash (Some p.hash_algorithm) }
{
    let mut parameters = parameters;
    let mut fields = parameters.take().inside;
    let mut tagged = fields.take().inside;
    let mut hash = tagged.take().inside;
    match Identifier::of(hash.take().inside.bytes()) {
        Some(name) => digest_named(&name),
        None => Digest::None,
    }
}

/// Whether an object identifier with this content is that of RSASSA-PSS (RFC 8017, A.2.3).
fn is_pss(content: &[u8]) -> bool
    ensures { (arcs : List ℕ) → IsOid arcs content.now → result ≡ is_arcs arcs rsassa_pss_algorithm }
{
    is_identifier(content, &[0x2A, 0x86, 0x48, 0x86, 0xF7, 0x0D, 1, 1, 0x0A])
}

/// The digest that an algorithm's identifier with this content says.
fn own_digest(content: &[u8]) -> Digest
    ensures { (arcs : List ℕ) → IsOid arcs content.now → result ≡ by_arcs arcs }
{
    match Identifier::of(content) {
        Some(algorithm) => digest_by(&algorithm),
        None => Digest::None,
    }
}

/// The algorithm that a span of an input identifies, whatever algorithm it is, and its digest. Takes no memory. Of a span that
/// encodes no algorithm's identifier it says nothing.
pub fn signature_within<A: Allocator + Copy>(bytes: &[u8], span: Span) -> SignaturePlace
    ensures { (v : Algorithm A) (whole : Tally) → FieldIn algorithm_identifier v span bytes.now whole → SignatureTold bytes.now v result }
{
    let mut info = Elements::over(bytes, span);
    let mut fields = info.take().inside;
    let identifier = fields.take().inside;
    let content = identifier.bytes();
    let algorithm = identifier.span();
    if is_pss(content) {
        let digest = pss_digest::<A>(fields);
        return SignaturePlace {
            algorithm,
            digest: digest.number(),
        };
    }
    let digest = own_digest(content);
    SignaturePlace {
        algorithm,
        digest: digest.number(),
    }
}

/// The algorithm with which a certificate is signed (RFC 5280, 4.1.1.2).
pub fn of_certificate<A: Allocator + Copy>(alloc: A, bytes: &[u8]) -> Answer<SignaturePlace>
    ensures { Told (certificate {A = A}) bytes.now (λ v at. SignatureTold bytes.now v.signature_algorithm at) no_signature
        result.status result.fields }
{
    match CertificateFields::find(alloc, bytes) {
        Ok(places) => done(signature_within::<A>(bytes, places.signature_algorithm)),
        Err(error) => refused(error, SignaturePlace::none()),
    }
}

/// That with which a request is signed (RFC 2986, 4.2).
pub fn of_request<A: Allocator + Copy>(alloc: A, bytes: &[u8]) -> Answer<SignaturePlace>
    ensures { Told (request {A = A}) bytes.now (λ v at. SignatureTold bytes.now v.signature_algorithm at) no_signature
        result.status result.fields }
{
    match CertificationRequestFields::find(alloc, bytes) {
        Ok(places) => done(signature_within::<A>(bytes, places.signature_algorithm)),
        Err(error) => refused(error, SignaturePlace::none()),
    }
}

/// An algorithm's identifier by itself.
pub fn of_algorithm<A: Allocator + Copy>(alloc: A, bytes: &[u8]) -> Answer<SignaturePlace>
    ensures { Told (algorithm_identifier {A = A}) bytes.now (λ v at. SignatureTold bytes.now v at) no_signature result.status result.fields }
{
    spellings_are_lawful::<AlgorithmIdentifier<A>, A>();
    let whole = Span {
        start: 0,
        end: bytes.len(),
    };
    match check::<AlgorithmIdentifier<A>, A>(alloc, bytes) {
        Ok(_deviations) => done(signature_within::<A>(bytes, whole)),
        Err(error) => refused(error, SignaturePlace::none()),
    }
}
