//! A request builder: a name, a key and its usages become the bytes to sign, and with the signature the request.

ghost use Rattle.std.specs.Prelude.{◌≡◌, ◌↔◌, ◌≤◌, ◌^◌, [], ◌∷◌, length, Err, IfOk};
ghost use Rattle.std.specs.String.{string_bytes};
ghost use Rattle.picky_asn1_x509.specs.Attributes.{text_attribute};
ghost use Rattle.picky_asn1_x509.specs.SubjectPublicKeyInfos.{ed_subject};
ghost use Rattle.picky_asn1_x509.specs.Types.write_error.{TooLong};
ghost use Rattle.picky_asn1_x509.specs.Requests.{new_info, with_attributes, info_bytes, request_bytes};
ghost use Rattle.x509_callers.specs.Requested.{asked, signed};

use picky_asn1_x509::{
    AlgorithmIdentifier, Attribute, BitString, BitStringAsn1, CertificationRequest,
    CertificationRequestInfo, DirectoryString, Extension, KeyUsage, Name, NameAttr,
    SubjectPublicKeyInfo, WriteError, oids, to_vec,
};
use std::alloc::{AllocError, Allocator};

/// A name of one common name, as a UTF8String.
///
/// # Errors
/// `AllocError` where memory is refused. The text is then dropped.
pub fn named<A: Allocator + Copy>(alloc: A, text: String<A>) -> Result<Name<A>, AllocError>
    ensures { IfOk result (λ name. name ≡ (text_attribute NameAttr.CommonName
        (DirectoryString.Utf8String (string_bytes text)) ∷ []) ∷ []) }
{
    Name::new_common_name(alloc, DirectoryString::from(text))
}

/// An Ed25519 key with its algorithm, 1.3.101.112 (RFC 8410).
///
/// # Errors
/// `AllocError` where memory is refused. The bits are then dropped.
pub fn ed25519_key<A: Allocator + Copy>(
    alloc: A,
    bits: BitString<A>,
) -> Result<SubjectPublicKeyInfo<A>, AllocError>
    ensures { IfOk result (λ key. key ≡ ed_subject (1 ∷ 3 ∷ 101 ∷ 112 ∷ []) bits) }
{
    let algorithm = oids::ed25519(alloc)?;
    Ok(SubjectPublicKeyInfo::new_ed_key(algorithm, bits))
}

/// A list of one item. It is over any type, so that what its exits drop costs the proof little.
fn list_of_one<T: Drop, A: Allocator>(alloc: A, item: T) -> Result<Vec<T, A>, AllocError>
    ensures { IfOk result (λ list. list.items ≡ item ∷ []) }
{
    let mut list = Vec::with_capacity(alloc, 1)?;
    list.push(item)?;
    Ok(list)
}

/// A request that a key usage be put into the certificate.
fn extension_request<A: Allocator + Copy>(
    alloc: A,
    usage: KeyUsage<A>,
) -> Result<Attribute<A>, AllocError>
    ensures { IfOk result (λ attribute. attribute ≡ asked usage) }
{
    let extension = Extension::new_key_usage(alloc, usage)?;
    let extensions = list_of_one(alloc, extension)?;
    Attribute::new_extension_request(alloc, extensions)
}

/// What is asked for: a certificate of this key, under this name, for these usages.
///
/// # Errors
/// `AllocError` where memory is refused.
pub fn requested<A: Allocator + Copy>(
    alloc: A,
    subject: Name<A>,
    key: SubjectPublicKeyInfo<A>,
    usage: KeyUsage<A>,
) -> Result<CertificationRequestInfo<A>, AllocError>
    ensures { IfOk result (λ info. info ≡ with_attributes (new_info subject key) (asked usage ∷ [])) }
{
    let attribute = extension_request(alloc, usage)?;
    let mut info = CertificationRequestInfo::new(alloc, subject, key);
    match info.add_attribute(attribute) {
        Ok(()) => Ok(info),
        Err(given_back) => {
            drop(given_back);
            drop(info);
            Err(AllocError)
        }
    }
}

/// The bytes that are to be signed.
///
/// # Errors
/// Their length is above the greatest `usize`, or memory is refused.
pub fn bytes_to_sign<A: Allocator + Copy>(
    alloc: A,
    info: &CertificationRequestInfo<A>,
) -> Result<Vec<u8, A>, WriteError>
    ensures ok { IfOk result (λ bytes. bytes.items ≡ info_bytes info.now) }
    ensures too_long { (result ≡ Err TooLong) ↔ (2 ^ 64 ≤ length (info_bytes info.now)) }
{
    to_vec(alloc, info)
}

/// The finished request.
///
/// # Errors
/// Its length is above the greatest `usize`, or memory is refused.
pub fn finished<A: Allocator + Copy>(
    alloc: A,
    info: CertificationRequestInfo<A>,
    algorithm: AlgorithmIdentifier<A>,
    signature: BitString<A>,
) -> Result<Vec<u8, A>, WriteError>
    ensures ok { IfOk result (λ bytes. bytes.items ≡ request_bytes (signed info algorithm signature)) }
    ensures too_long { (result ≡ Err TooLong) ↔ (2 ^ 64 ≤ length (request_bytes (signed info algorithm signature))) }
{
    let request = CertificationRequest {
        certification_request_info: info,
        signature_algorithm: algorithm,
        signature: BitStringAsn1(signature),
    };
    let written = to_vec(alloc, &request);
    drop(request);
    written
}
