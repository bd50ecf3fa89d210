//! Values of a certificate.

ghost use Rattle.std.specs.Prelude.{IfOk, IfErr};
ghost use Rattle.x509_der.specs.Calls.{NoValue};
ghost use Rattle.picky_asn1_x509.specs.Certificates.{certificate};
ghost use Rattle.x509_values.specs.Certificates.{ExtensionCarried, NameOf, SerialCarried};
ghost use Rattle.x509_values.specs.Values.{Holds};

use crate::attributes::{AttributePlace, attributes_within};
use crate::elements::content_within;
use crate::extension::find_extension_within;
use crate::value::value_within;
use picky_asn1_x509::{Extensions, ReadError, Validity, laws};
use std::alloc::Allocator;
use x509_fields::{CertificateFields, Span};

/// The times between which the certificate is valid that the bytes encode, both included (RFC 5280, 4.1.2.5). Takes no
/// memory.
///
/// # Errors
/// Refused exactly where the bytes encode no certificate; never for memory.
pub fn certificate_validity<A: Allocator + Copy>(
    alloc: A,
    bytes: &[u8],
) -> Result<Validity, ReadError>
    ensures ok { IfOk result (Holds (certificate {A = A}) (λ v. v.tbs_certificate.validity) bytes.now) }
    ensures err { IfErr result (NoValue (certificate {A = A}) bytes.now) }
{
    laws::validity_takes_no_memory::<A>();
    let places = CertificateFields::find(alloc, bytes)?;
    value_within::<Validity, A>(alloc, bytes, places.fields.validity)
}

/// Writes where the attributes of the subject stand of the certificate that the bytes encode (RFC 5280, 4.1.2.6), in order,
/// as far as the slice has room, and answers how many there are. Takes no memory.
///
/// # Errors
/// Refused exactly where the bytes encode no certificate; never for memory. Nothing is written then.
pub fn subject_attributes<A: Allocator + Copy>(
    alloc: A,
    bytes: &[u8],
    out: &mut [AttributePlace],
) -> Result<usize, ReadError>
    ensures { NameOf {A = A} (λ v. v.tbs_certificate.subject) bytes.now out.old out.new result }
{
    let places = CertificateFields::find(alloc, bytes)?;
    Ok(attributes_within::<A>(bytes, places.fields.subject, out))
}

/// The same of the issuer (RFC 5280, 4.1.2.4).
///
/// # Errors
/// As `subject_attributes`.
pub fn issuer_attributes<A: Allocator + Copy>(
    alloc: A,
    bytes: &[u8],
    out: &mut [AttributePlace],
) -> Result<usize, ReadError>
    ensures { NameOf {A = A} (λ v. v.tbs_certificate.issuer) bytes.now out.old out.new result }
{
    let places = CertificateFields::find(alloc, bytes)?;
    Ok(attributes_within::<A>(bytes, places.fields.issuer, out))
}

/// Where the content of the serial number stands of the certificate that the bytes encode (RFC 5280, 4.1.2.2): a number in
/// two's complement, the highest byte first. Takes no memory.
///
/// # Errors
/// Refused exactly where the bytes encode no certificate; never for memory.
pub fn serial_number<A: Allocator + Copy>(alloc: A, bytes: &[u8]) -> Result<Span, ReadError>
    ensures ok { IfOk result (SerialCarried A bytes.now) }
    ensures err { IfErr result (NoValue (certificate {A = A}) bytes.now) }
{
    let places = CertificateFields::find(alloc, bytes)?;
    Ok(content_within(bytes, places.fields.serial_number))
}

/// Where the content of the OCTET STRING stands that holds the value of the first extension with an identifier, of the
/// certificate that the bytes encode (RFC 5280, 4.2), as `find_extension_within` finds it. Takes no memory.
///
/// It is `None` exactly where no extension of the certificate has the identifier.
///
/// # Errors
/// Refused exactly where the bytes encode no certificate; never for memory.
pub fn find_extension<A: Allocator + Copy>(
    alloc: A,
    bytes: &[u8],
    identifier: &[u8],
) -> Result<Option<Span>, ReadError>
    ensures ok { IfOk result (ExtensionCarried A identifier.now bytes.now) }
    ensures err { IfErr result (NoValue (certificate {A = A}) bytes.now) }
{
    laws::spellings_are_lawful::<Extensions<A>, A>();
    let places = CertificateFields::find(alloc, bytes)?;
    let Some(tagged) = places.fields.extensions else {
        return Ok(None);
    };
    let list = content_within(bytes, tagged);
    Ok(find_extension_within::<A>(bytes, list, identifier))
}
