//! Where a refused certificate could not be read, and the bytes of a field of one that was.

ghost use Rattle.std.specs.Prelude.{◌≡◌, IsSomeAnd};
ghost use Rattle.picky_asn1_x509.specs.Calls.{ExplainedRead};
ghost use Rattle.picky_asn1_x509.specs.Certificates.{certificate};
ghost use Rattle.picky_asn1_x509.specs.Names.{name};
ghost use Rattle.picky_asn1_x509.specs.Tally.{Tally};

use picky_asn1_x509::{Certificate, Deviations, Refused, read_explained};
use std::alloc::Allocator;
use x509_fields::CertificateFields;

/// Reads a certificate and counts the deviations in it, or says why and where it is refused, as
/// `wrong tag at byte 1043`.
///
/// # Errors
/// The bytes encode no certificate, or memory is refused.
pub fn explained<A: Allocator + Copy>(
    alloc: A,
    bytes: &[u8],
) -> Result<(Certificate<A>, Deviations), Refused>
    ensures { ExplainedRead (certificate {A = A}) bytes.now result }
{
    read_explained(alloc, bytes)
}

/// The bytes that encode the subject of a certificate, among those that it was read from. Takes no memory.
pub fn subject_bytes<'a, A: Allocator + Copy>(
    value: &Certificate<A>,
    bytes: &'a [u8],
) -> Option<&'a [u8]>
    ensures { (y : Tally) → (certificate {A = A}).spelled value.now bytes.now y → IsSomeAnd result
        (λ slice. (z : Tally) × (name {A = A}).spelled value.now.tbs_certificate.subject slice.now z) }
{
    let places = CertificateFields::of(value, bytes);
    places.fields.subject.slice(bytes)
}
