//! Where the parts of a certificate, and of a request, stand that rules are about.

ghost use Rattle.std.specs.Prelude.{◌≡◌};
ghost use Rattle.x509_findings.specs.Places.{place_in_request, place_of};

use x509_fields::{CertificateFields, CertificationRequestFields, Span};
use x509_rules::Part;

/// Where a part of a certificate stands, by the places of its fields: what isn't encoded stands in all that is signed.
pub fn place_of(part: Part, places: &CertificateFields) -> Span
    ensures { result ≡ place_of part places.now }
{
    let fields = &places.fields;
    match part {
        Part::SerialNumber => fields.serial_number,
        Part::Signature => fields.signature,
        Part::Issuer => fields.issuer,
        Part::Validity => fields.validity,
        Part::Subject => fields.subject,
        Part::SubjectPublicKeyInfo => fields.subject_public_key_info,
        Part::IssuerUniqueId => fields.issuer_unique_id.unwrap_or(places.tbs_certificate),
        Part::SubjectUniqueId => fields.subject_unique_id.unwrap_or(places.tbs_certificate),
        Part::Extensions => fields.extensions.unwrap_or(places.tbs_certificate),
    }
}

/// Where a part of a request stands, by the places of its fields: extensions are asked for in its attributes, and what it
/// doesn't have stands in all that is signed.
pub fn place_in_request(part: Part, places: &CertificationRequestFields) -> Span
    ensures { result ≡ place_in_request part places.now }
{
    match part {
        Part::Signature => places.signature_algorithm,
        Part::Subject => places.fields.subject,
        Part::SubjectPublicKeyInfo => places.fields.subject_public_key_info,
        Part::Extensions => places.fields.attributes,
        Part::SerialNumber
        | Part::Issuer
        | Part::Validity
        | Part::IssuerUniqueId
        | Part::SubjectUniqueId => places.certification_request_info,
    }
}
