//! Values of keys, signatures, requests and extensions, without memory.

ghost use Rattle.std.specs.Prelude.{◌≡◌};
ghost use Rattle.x509_der.specs.PrimitiveContent.{octets as bytes};
ghost use Rattle.x509_der.specs.Tagged.{tagged};
ghost use Rattle.x509_keys.specs.AlgorithmIdentifier.{algorithm_identifier};
ghost use Rattle.x509_keys.specs.RsaPrivateKeys.{rsa_private_key};
ghost use Rattle.x509_keys.specs.SubjectPublicKeyInfos.{subject_public_key_info};
ghost use Rattle.picky_asn1_x509.specs.AuthorityKeyIdentifier.{authority_key_identifier};
ghost use Rattle.picky_asn1_x509.specs.Certificates.{certificate};
ghost use Rattle.picky_asn1_x509.specs.Requests.{request};
ghost use Rattle.x509_flat_values.specs.Covered.{CoversAll, CoversIf, no_span};
ghost use Rattle.x509_flat_values.specs.Further.{ExtensionChecked};
ghost use Rattle.x509_flat_values.specs.Keys.{KeyTold, no_key};
ghost use Rattle.x509_flat_values.specs.PrivateKeys.{NumbersTold, no_numbers};
ghost use Rattle.x509_flat_values.specs.Requests.{AttributesFill, SubjectFills};
ghost use Rattle.x509_flat_values.specs.Signatures.{SignatureTold, no_signature};
ghost use Rattle.x509_flat_values.specs.Told.{Told};
ghost use Rattle.cimaroly_c.specs.Exports.{Answers, Arena};

use crate::over_keys as over;
use x509_fields::Span;
use x509_flat::check::Verdict;
use x509_flat::status::Status;
use x509_flat_values::{KeyPlaces, RequestAttributePlace, RsaPrivatePlaces, SignaturePlace};
use x509_values::AttributePlace;

/// Where the parts stand of the public key of a certificate, kind 1, of a request, kind 2, or of a key itself, kind 4.
#[unsafe(no_mangle)]
pub extern "C" fn cimaroly_public_key(kind: u32, der: &[u8], key: &mut KeyPlaces) -> u32
    ensures certificate { kind ≡ 1 → Answers result (λ status. Told (certificate {A = Arena}) der.now (λ v at. KeyTold der.now v.tbs_certificate.subject_public_key_info at) no_key status key.new) }
    ensures request { kind ≡ 2 → Answers result (λ status. Told (request {A = Arena}) der.now (λ v at. KeyTold der.now v.certification_request_info.subject_public_key_info at) no_key status key.new) }
    ensures itself { kind ≡ 4 → Answers result (λ status. Told (subject_public_key_info {A = Arena}) der.now (λ v at. KeyTold der.now v at) no_key status key.new) }
    ensures unknown { (kind ≡ 1 → ⊥) → (kind ≡ 2 → ⊥) → (kind ≡ 4 → ⊥) → (result ≡ 4) × (key.new ≡ no_key) }
{
    match kind {
        1 => {
            let answer = over::certificate_key(der);
            *key = answer.fields;
            answer.status.number()
        }
        2 => {
            let answer = over::request_key(der);
            *key = answer.fields;
            answer.status.number()
        }
        4 => {
            let answer = over::public_key(der);
            *key = answer.fields;
            answer.status.number()
        }
        _ => {
            *key = KeyPlaces::none();
            Status::UnknownKind.number()
        }
    }
}

/// The algorithm with which a certificate, kind 1, or a request, kind 2, is signed, or that of an algorithm's identifier itself,
/// kind 10.
#[unsafe(no_mangle)]
pub extern "C" fn cimaroly_signed_with(kind: u32, der: &[u8], signature: &mut SignaturePlace) -> u32
    ensures certificate { kind ≡ 1 → Answers result (λ status. Told (certificate {A = Arena}) der.now (λ v at. SignatureTold der.now v.signature_algorithm at) no_signature status signature.new) }
    ensures request { kind ≡ 2 → Answers result (λ status. Told (request {A = Arena}) der.now (λ v at. SignatureTold der.now v.signature_algorithm at) no_signature status signature.new) }
    ensures itself { kind ≡ 10 → Answers result (λ status. Told (algorithm_identifier {A = Arena}) der.now (λ v at. SignatureTold der.now v at) no_signature status signature.new) }
    ensures unknown { (kind ≡ 1 → ⊥) → (kind ≡ 2 → ⊥) → (kind ≡ 10 → ⊥) → (result ≡ 4) × (signature.new ≡ no_signature) }
{
    match kind {
        1 => {
            let answer = over::certificate_signature(der);
            *signature = answer.fields;
            answer.status.number()
        }
        2 => {
            let answer = over::request_signature(der);
            *signature = answer.fields;
            answer.status.number()
        }
        10 => {
            let answer = over::algorithm(der);
            *signature = answer.fields;
            answer.status.number()
        }
        _ => {
            *signature = SignaturePlace::none();
            Status::UnknownKind.number()
        }
    }
}

/// Writes where the attributes of a request's subject stand to the front of a buffer, as far as there is room.
#[unsafe(no_mangle)]
pub extern "C" fn cimaroly_request_subject_attributes(
    der: &[u8],
    attributes: &mut [AttributePlace],
    count: &mut usize,
) -> u32
    ensures { Answers result (λ status. SubjectFills Arena der.now attributes.old attributes.new status count.new) }
{
    let told = over::subject_attributes(der, attributes);
    *count = told.size;
    told.status.number()
}

/// Writes where the attributes of a request stand to the front of a buffer, as far as there is room.
#[unsafe(no_mangle)]
pub extern "C" fn cimaroly_request_attributes(
    der: &[u8],
    attributes: &mut [RequestAttributePlace],
    count: &mut usize,
) -> u32
    ensures { Answers result (λ status. AttributesFill Arena der.now attributes.old attributes.new status count.new) }
{
    let told = over::request_attributes(der, attributes);
    *count = told.size;
    told.status.number()
}

/// Where the numbers of an RSA private key by itself stand.
#[unsafe(no_mangle)]
pub extern "C" fn cimaroly_rsa_private_key(der: &[u8], numbers: &mut RsaPrivatePlaces) -> u32
    ensures { Answers result (λ status. Told (rsa_private_key {A = Arena}) der.now (λ v at. NumbersTold v der.now at) no_numbers status numbers.new) }
{
    let told = over::rsa_private_key(der);
    *numbers = told.fields;
    told.status.number()
}

/// Where the octets stand that identify a certificate's key, in the value of an extension.
#[unsafe(no_mangle)]
pub extern "C" fn cimaroly_subject_key_identifier(value: &[u8], identifier: &mut Span) -> u32
    ensures { Answers result (λ status. Told (tagged 4 bytes) value.now (λ v at. CoversAll value.now at v) no_span status identifier.new) }
{
    let told = over::subject_key_identifier(value);
    *identifier = told.fields;
    told.status.number()
}

/// Where those stand that identify the key of its issuer, in the value of an extension.
#[unsafe(no_mangle)]
pub extern "C" fn cimaroly_authority_key_identifier(value: &[u8], identifier: &mut Span) -> u32
    ensures { Answers result (λ status. Told (authority_key_identifier {A = Arena}) value.now (λ v at. CoversIf value.now at v.key_identifier) no_span status identifier.new) }
{
    let told = over::authority_key_identifier(value);
    *identifier = told.fields;
    told.status.number()
}

/// Whether the value of an extension that the reader of certificates keeps as octets encodes what its identifier says.
#[unsafe(no_mangle)]
pub extern "C" fn cimaroly_check_extension(
    identifier: &[u8],
    value: &[u8],
    verdict: &mut Verdict,
) -> u32
    ensures { Answers result (λ status. ExtensionChecked Arena identifier.now value.now status verdict.new) }
{
    let checked = over::check_extension(identifier, value);
    *verdict = checked.verdict;
    checked.status.number()
}
