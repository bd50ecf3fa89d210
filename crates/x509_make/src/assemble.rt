//! Certificates and requests of what was signed, the algorithm and the signature.

ghost use Rattle.std.specs.Prelude.{◌≡◌, ◌≤◌, ◌^◌, ◌↔◌, length, Err, IfOk, IfErr, OnOk};
ghost use Rattle.picky_asn1_x509.specs.Requests.{request_info, request_parts};
ghost use Rattle.picky_asn1_x509.specs.Certificates.{certificate_parts};
ghost use Rattle.picky_asn1_x509.specs.TbsCertificates.{tbs_certificate};
ghost use Rattle.x509_make.specs.Assembled.{assembled, IsSignedBy, IsAssembled, IsSignedPart, WhyNot, WhyNotSigned};

use crate::given::{Given, WholeBytes};
use crate::signature::{check_ecdsa, is_ecdsa};
use picky_asn1_x509::{AlgorithmIdentifier, CertificationRequestInfo, TbsCertificate};
use std::alloc::Allocator;
use x509_der::parts::{Join, One, Sequence, Tagged};
use x509_der::{FromDer, Refused, WriteError, check_explained, read_explained, to_vec};

/// Why nothing is put together.
#[derive(Clone, Copy, Debug, PartialEq, Eq)]
pub enum NotAssembled {
    /// The part isn't what is signed of such a structure: why, and where in it.
    Part(Refused),
    /// The algorithm isn't an `AlgorithmIdentifier` that is read, or memory for it was refused: why, and where in it.
    Algorithm(Refused),
    /// The algorithm deviates from DER.
    AlgorithmDeviates,
    /// The algorithm is ECDSA, and the signature isn't the encoding of r and s: why, and where in it.
    Signature(Refused),
    /// The structure would have 2^64 bytes or more.
    TooLong,
    /// Memory for the structure was refused.
    OutOfMemory,
}

/// Sees that an algorithm is in DER, and that a signature has the form that it gives.
///
/// # Errors
/// `Algorithm` or `AlgorithmDeviates` where it isn't, and `Signature` where the signature hasn't.
fn check_signed<A: Allocator + Copy>(
    alloc: A,
    algorithm: &[u8],
    signature: &[u8],
) -> Result<(), NotAssembled>
    ensures ok { OnOk result (IsSignedBy A algorithm.now signature.now) }
    ensures err { IfErr result (λ e. WhyNotSigned A algorithm.now signature.now e) }
{
    let (value, deviations) = match read_explained::<AlgorithmIdentifier<A>, A>(alloc, algorithm) {
        Ok(read) => read,
        Err(refused) => return Err(NotAssembled::Algorithm(refused)),
    };
    if !deviations.is_none() {
        return Err(NotAssembled::AlgorithmDeviates);
    }
    if !is_ecdsa(value.oid()) {
        return Ok(());
    }
    match check_ecdsa(alloc, signature) {
        Ok(()) => Ok(()),
        Err(refused) => Err(NotAssembled::Signature(refused)),
    }
}

/// The SEQUENCE of three parts.
///
/// # Errors
/// `TooLong` where it has 2^64 bytes or more, and `OutOfMemory`.
fn in_sequence<A: Allocator + Copy>(
    alloc: A,
    part: &[u8],
    algorithm: &[u8],
    signature: &[u8],
) -> Result<Vec<u8, A>, WriteError>
    ensures ok { IfOk result (λ b. b.items ≡ assembled part.now algorithm.now signature.now) }
    ensures too_long { (result ≡ Err WriteError.TooLong) ↔ (2 ^ 64 ≤ length (assembled part.now algorithm.now signature.now)) }
{
    let whole: Tagged<Sequence, _> = Tagged::new(Join(
        Given::of(part),
        Join(Given::of(algorithm), One(WholeBytes::of(signature))),
    ));
    to_vec(alloc, &whole)
}

/// A structure of its three parts. Takes memory for it, and for the parameters of the algorithm.
///
/// # Errors
/// As `NotAssembled` says, exactly then but for memory.
fn put_together<T: FromDer<A>, A: Allocator + Copy>(
    alloc: A,
    part: &[u8],
    algorithm: &[u8],
    signature: &[u8],
) -> Result<Vec<u8, A>, NotAssembled>
    ensures ok { IfOk result (λ b. IsAssembled A T.shape part.now algorithm.now signature.now b.items) }
    ensures err { IfErr result (λ e. WhyNot A T.shape part.now algorithm.now signature.now e) }
{
    if let Err(refused) = check_explained::<T, A>(alloc, part) {
        return Err(NotAssembled::Part(refused));
    }
    check_signed(alloc, algorithm, signature)?;
    match in_sequence(alloc, part, algorithm, signature) {
        Ok(bytes) => Ok(bytes),
        Err(WriteError::TooLong) => Err(NotAssembled::TooLong),
        Err(WriteError::OutOfMemory) => Err(NotAssembled::OutOfMemory),
    }
}

/// The certificate of a `TBSCertificate` in DER or not, an `AlgorithmIdentifier` in DER, and the bytes of the signature.
/// The part stands in it byte for byte, since these are the bytes that were signed, and no deviation stands outside of
/// them. Whether the signature is right isn't looked at, nor whether the algorithm is the one that the part names.
/// Takes memory for the certificate, and for the parameters of the algorithm.
///
/// # Encoding
/// `Certificate ::= SEQUENCE { tbsCertificate TBSCertificate, signatureAlgorithm AlgorithmIdentifier, signatureValue
/// BIT STRING }` (RFC 5280, 4.1.1).
///
/// # Errors
/// As `NotAssembled` says.
pub fn certificate<A: Allocator + Copy>(
    alloc: A,
    part: &[u8],
    algorithm: &[u8],
    signature: &[u8],
) -> Result<Vec<u8, A>, NotAssembled>
    ensures ok { IfOk result (λ b. IsAssembled A (tbs_certificate {A = A}) part.now algorithm.now signature.now b.items) }
    ensures read { IfOk result (λ b. IsSignedPart (certificate_parts {A = A}) tbs_certificate part.now b.items) }
    ensures err { IfErr result (λ e. WhyNot A (tbs_certificate {A = A}) part.now algorithm.now signature.now e) }
{
    match put_together::<TbsCertificate<A>, A>(alloc, part, algorithm, signature) {
        Ok(bytes) => Ok(bytes),
        Err(why) => Err(why),
    }
}

/// The request of a `CertificationRequestInfo`, an `AlgorithmIdentifier` in DER, and the bytes of the signature, as
/// `certificate`.
///
/// # Encoding
/// `CertificationRequest ::= SEQUENCE { certificationRequestInfo CertificationRequestInfo, signatureAlgorithm
/// AlgorithmIdentifier, signature BIT STRING }` (RFC 2986, 4.2).
///
/// # Errors
/// As `NotAssembled` says.
pub fn request<A: Allocator + Copy>(
    alloc: A,
    part: &[u8],
    algorithm: &[u8],
    signature: &[u8],
) -> Result<Vec<u8, A>, NotAssembled>
    ensures ok { IfOk result (λ b. IsAssembled A (request_info {A = A}) part.now algorithm.now signature.now b.items) }
    ensures read { IfOk result (λ b. IsSignedPart (request_parts {A = A}) request_info part.now b.items) }
    ensures err { IfErr result (λ e. WhyNot A (request_info {A = A}) part.now algorithm.now signature.now e) }
{
    match put_together::<CertificationRequestInfo<A>, A>(alloc, part, algorithm, signature) {
        Ok(bytes) => Ok(bytes),
        Err(why) => Err(why),
    }
}
