//! A checker: what it asks of a certificate before it verifies the signature.

ghost use Rattle.std.specs.Prelude.{◌≡◌, IfOk, IfErr, sum};
ghost use Rattle.std.specs.Bool.{Decides};
ghost use Rattle.picky_asn1_x509.specs.Calls.{CheckedRead, NoValue, NoWhole};
ghost use Rattle.picky_asn1_x509.specs.Certificates.{signature_fields, certificate_parts, certificate};
ghost use Rattle.picky_asn1_x509.specs.FirstField.{FirstPart};
ghost use Rattle.picky_asn1_x509.specs.SignedParts.{SignedPartOf};
ghost use Rattle.picky_asn1_x509.specs.TbsCertificates.{tbs_certificate};

use picky_asn1_x509::laws::equality_is_sameness;
use picky_asn1_x509::{Certificate, Deviations, Name, ReadError, SignedPart, SignedRead, check};
use std::alloc::Allocator;

/// How many deviations of each kind a certificate has. No value is built, and no memory is asked for.
///
/// # Errors
/// The bytes encode no certificate.
pub fn deviations<A: Allocator + Copy>(alloc: A, bytes: &[u8]) -> Result<Deviations, ReadError>
    ensures { CheckedRead (certificate {A = A}) bytes.now result }
{
    check::<Certificate<A>, A>(alloc, bytes)
}

/// The bytes of a certificate that the signature covers, and the deviations inside of them and outside. No value is
/// built, and no memory is asked for.
///
/// # Errors
/// The bytes encode no certificate.
pub fn signed_part<A: Allocator + Copy>(alloc: A, bytes: &[u8]) -> Result<SignedPart<'_>, ReadError>
    ensures ok { IfOk result (λ r. SignedPartOf (certificate_parts {A = A}) tbs_certificate signature_fields
        bytes.now r.signed.now r.inside r.outside) }
    ensures err { IfErr result (NoValue (certificate {A = A}) bytes.now) }
{
    Certificate::check_signed_part(alloc, bytes)
}

/// Reads a certificate: its fields, the bytes that the signature covers, and the deviations inside and outside of these
/// bytes.
///
/// # Errors
/// The bytes encode no certificate, or memory is refused.
pub fn read<A: Allocator + Copy>(
    alloc: A,
    bytes: &[u8],
) -> Result<SignedRead<'_, Certificate<A>>, ReadError>
    ensures ok { IfOk result (λ r. FirstPart certificate_parts tbs_certificate signature_fields
        bytes.now r.value r.signed.now r.inside r.outside) }
    ensures err { IfErr result (NoWhole (certificate {A = A}) bytes.now) }
{
    Certificate::read_with_signed_part(alloc, bytes)
}

/// Whether no deviation stands inside the bytes that the signature covers: then they are the DER encoding of the
/// fields. Takes no memory.
pub fn is_signed_in_der<A: Allocator>(read: &SignedRead<'_, Certificate<A>>) -> bool
    ensures { Decides result (sum read.now.inside ≡ 0) }
{
    read.inside.total() == 0
}

/// Whether issuer and subject are the same value, as in most self-issued certificates. RFC 5280, 7.1 also takes names
/// for the same that differ in case, spaces or string types. Takes no memory.
pub fn is_self_issued<A: Allocator>(certificate: &Certificate<A>) -> bool
    ensures { Decides result (certificate.now.tbs_certificate.issuer ≡ certificate.now.tbs_certificate.subject) }
{
    equality_is_sameness::<Name<A>>();
    certificate.tbs_certificate.issuer == certificate.tbs_certificate.subject
}
