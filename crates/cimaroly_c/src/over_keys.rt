//! The calls of `x509_flat_values`, each in an arena of its own, which is lent nothing.

ghost use Rattle.std.specs.Prelude.{◌≡◌, false};
ghost use Rattle.x509_der.specs.PrimitiveContent.{octets as bytes};
ghost use Rattle.x509_der.specs.Tagged.{tagged};
ghost use Rattle.x509_keys.specs.AlgorithmIdentifier.{algorithm_identifier as identifiers};
ghost use Rattle.x509_keys.specs.RsaPrivateKeys.{rsa_private_key as private_numbers};
ghost use Rattle.x509_keys.specs.SubjectPublicKeyInfos.{subject_public_key_info};
ghost use Rattle.picky_asn1_x509.specs.AuthorityKeyIdentifier.{authority_key_identifier as authorities};
ghost use Rattle.picky_asn1_x509.specs.Certificates.{certificate};
ghost use Rattle.picky_asn1_x509.specs.Requests.{request};
ghost use Rattle.x509_flat_values.specs.Covered.{CoversAll, CoversIf, no_span};
ghost use Rattle.x509_flat_values.specs.Further.{ExtensionChecked};
ghost use Rattle.x509_flat_values.specs.Keys.{KeyTold, no_key};
ghost use Rattle.x509_flat_values.specs.PrivateKeys.{NumbersTold, no_numbers};
ghost use Rattle.x509_flat_values.specs.Requests.{AttributesFill, SubjectFills};
ghost use Rattle.x509_flat_values.specs.Signatures.{SignatureTold, no_signature};
ghost use Rattle.x509_flat_values.specs.Told.{Told};
ghost use Rattle.cimaroly_c.specs.Exports.{Arena};
ghost use Rattle.cimaroly_c.specs.Oids.{NoName};

use bumpalo::Bump;
use lent_memory::{Lent, OneBlock};
use picky_asn1_x509::{Name, check};
use std::alloc::Allocator;
use x509_der::laws::spellings_are_lawful;
use x509_fields::Span;
use x509_flat::check::Checked;
use x509_flat::status::{Answer, Sized};
use x509_flat_values::{
    KeyPlaces, RequestAttributePlace, RsaPrivatePlaces, SignaturePlace, further, key_identifiers,
    keys, private_keys, request_attributes as attributes, requests, signatures,
};
use x509_values::AttributePlace;

/// The public key of a certificate.
pub(crate) fn certificate_key(bytes: &[u8]) -> Answer<KeyPlaces>
    ensures { Told (certificate {A = Arena}) bytes.now (λ v at. KeyTold bytes.now v.tbs_certificate.subject_public_key_info at) no_key result.status result.fields }
{
    let mut nothing = Lent::nothing();
    let block = OneBlock::from_mut(&mut nothing);
    let arena = Bump::new(&block);
    keys::of_certificate(&arena, bytes)
}

/// That of a request.
pub(crate) fn request_key(bytes: &[u8]) -> Answer<KeyPlaces>
    ensures { Told (request {A = Arena}) bytes.now (λ v at. KeyTold bytes.now v.certification_request_info.subject_public_key_info at) no_key result.status result.fields }
{
    let mut nothing = Lent::nothing();
    let block = OneBlock::from_mut(&mut nothing);
    let arena = Bump::new(&block);
    keys::of_request(&arena, bytes)
}

/// A public key.
pub(crate) fn public_key(bytes: &[u8]) -> Answer<KeyPlaces>
    ensures { Told (subject_public_key_info {A = Arena}) bytes.now (λ v at. KeyTold bytes.now v at) no_key result.status result.fields }
{
    let mut nothing = Lent::nothing();
    let block = OneBlock::from_mut(&mut nothing);
    let arena = Bump::new(&block);
    keys::of_public_key(&arena, bytes)
}

/// The algorithm with which a certificate is signed.
pub(crate) fn certificate_signature(bytes: &[u8]) -> Answer<SignaturePlace>
    ensures { Told (certificate {A = Arena}) bytes.now (λ v at. SignatureTold bytes.now v.signature_algorithm at) no_signature result.status result.fields }
{
    let mut nothing = Lent::nothing();
    let block = OneBlock::from_mut(&mut nothing);
    let arena = Bump::new(&block);
    signatures::of_certificate(&arena, bytes)
}

/// That with which a request is signed.
pub(crate) fn request_signature(bytes: &[u8]) -> Answer<SignaturePlace>
    ensures { Told (request {A = Arena}) bytes.now (λ v at. SignatureTold bytes.now v.signature_algorithm at) no_signature result.status result.fields }
{
    let mut nothing = Lent::nothing();
    let block = OneBlock::from_mut(&mut nothing);
    let arena = Bump::new(&block);
    signatures::of_request(&arena, bytes)
}

/// An algorithm by its identifier.
pub(crate) fn algorithm(bytes: &[u8]) -> Answer<SignaturePlace>
    ensures { Told (identifiers {A = Arena}) bytes.now (λ v at. SignatureTold bytes.now v at) no_signature result.status result.fields }
{
    let mut nothing = Lent::nothing();
    let block = OneBlock::from_mut(&mut nothing);
    let arena = Bump::new(&block);
    signatures::of_algorithm(&arena, bytes)
}

/// The attributes of a request's subject.
pub(crate) fn subject_attributes(bytes: &[u8], out: &mut [AttributePlace]) -> Sized
    ensures { SubjectFills Arena bytes.now out.old out.new result.status result.size }
{
    let mut nothing = Lent::nothing();
    let block = OneBlock::from_mut(&mut nothing);
    let arena = Bump::new(&block);
    requests::subject_attributes(&arena, bytes, out)
}

/// The attributes of a request.
pub(crate) fn request_attributes(bytes: &[u8], out: &mut [RequestAttributePlace]) -> Sized
    ensures { AttributesFill Arena bytes.now out.old out.new result.status result.size }
{
    let mut nothing = Lent::nothing();
    let block = OneBlock::from_mut(&mut nothing);
    let arena = Bump::new(&block);
    attributes::request_attributes(&arena, bytes, out)
}

/// The numbers of an RSA private key.
pub(crate) fn rsa_private_key(bytes: &[u8]) -> Answer<RsaPrivatePlaces>
    ensures { Told (private_numbers {A = Arena}) bytes.now (λ v at. NumbersTold v bytes.now at) no_numbers result.status result.fields }
{
    let mut nothing = Lent::nothing();
    let block = OneBlock::from_mut(&mut nothing);
    let arena = Bump::new(&block);
    private_keys::rsa_private_key(&arena, bytes)
}

/// What identifies a certificate's key.
pub(crate) fn subject_key_identifier(value: &[u8]) -> Answer<Span>
    ensures { Told (tagged 4 bytes) value.now (λ v at. CoversAll value.now at v) no_span result.status result.fields }
{
    let mut nothing = Lent::nothing();
    let block = OneBlock::from_mut(&mut nothing);
    let arena = Bump::new(&block);
    key_identifiers::subject_key_identifier(&arena, value)
}

/// What identifies that of its issuer.
pub(crate) fn authority_key_identifier(value: &[u8]) -> Answer<Span>
    ensures { Told (authorities {A = Arena}) value.now (λ v at. CoversIf value.now at v.key_identifier) no_span result.status result.fields }
{
    let mut nothing = Lent::nothing();
    let block = OneBlock::from_mut(&mut nothing);
    let arena = Bump::new(&block);
    key_identifiers::authority_key_identifier(&arena, value)
}

/// Whether an extension's value encodes what its identifier says.
pub(crate) fn check_extension(identifier: &[u8], octets: &[u8]) -> Checked
    ensures { ExtensionChecked Arena identifier.now octets.now result.status result.verdict }
{
    let mut nothing = Lent::nothing();
    let block = OneBlock::from_mut(&mut nothing);
    let arena = Bump::new(&block);
    further::check_extension(&arena, identifier, octets)
}

/// Whether bytes encode a name.
pub(crate) fn is_name(bytes: &[u8]) -> bool
    ensures { result ≡ false → NoName Arena bytes.now }
{
    let mut nothing = Lent::nothing();
    let block = OneBlock::from_mut(&mut nothing);
    let arena = Bump::new(&block);
    is_spelled(&arena, bytes)
}

/// The same with any allocator, which is asked for nothing.
fn is_spelled<A: Allocator + Copy>(alloc: A, bytes: &[u8]) -> bool
    ensures { result ≡ false → NoName A bytes.now }
{
    spellings_are_lawful::<Name<A>, A>();
    match check::<Name<A>, A>(alloc, bytes) {
        Ok(_deviations) => true,
        Err(_error) => false,
    }
}
