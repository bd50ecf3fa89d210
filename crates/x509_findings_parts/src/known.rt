//! The extensions of RFC 5280 by their identifiers.

ghost use Rattle.std.specs.Prelude.{◌≡◌};
ghost use Rattle.x509_der.specs.ObjectIdentifier.{is_arcs};
ghost use Rattle.x509_findings_parts.specs.Known.{arcs_of_known, is_of_standard};

use picky_asn1_x509_parts::Extension;
use std::alloc::Allocator;

/// An extension of RFC 5280, by its identifier (4.2.1, 4.2.2).
#[derive(Clone, Copy, Debug, PartialEq, Eq)]
pub enum Known {
    /// `id-ce-subjectDirectoryAttributes`.
    SubjectDirectoryAttributes,
    /// `id-ce-subjectKeyIdentifier`.
    SubjectKeyIdentifier,
    /// `id-ce-keyUsage`.
    KeyUsage,
    /// `id-ce-subjectAltName`.
    SubjectAltName,
    /// `id-ce-issuerAltName`.
    IssuerAltName,
    /// `id-ce-basicConstraints`.
    BasicConstraints,
    /// `id-ce-nameConstraints`.
    NameConstraints,
    /// `id-ce-cRLDistributionPoints`.
    CrlDistributionPoints,
    /// `id-ce-certificatePolicies`.
    CertificatePolicies,
    /// `id-ce-policyMappings`.
    PolicyMappings,
    /// `id-ce-authorityKeyIdentifier`.
    AuthorityKeyIdentifier,
    /// `id-ce-policyConstraints`.
    PolicyConstraints,
    /// `id-ce-extKeyUsage`.
    ExtKeyUsage,
    /// `id-ce-freshestCRL`.
    FreshestCrl,
    /// `id-ce-inhibitAnyPolicy`.
    InhibitAnyPolicy,
    /// `id-pe-authorityInfoAccess`.
    AuthorityInfoAccess,
    /// `id-pe-subjectInfoAccess`.
    SubjectInfoAccess,
}

/// All of them.
const ALL: [Known; 17] = [
    Known::SubjectDirectoryAttributes,
    Known::SubjectKeyIdentifier,
    Known::KeyUsage,
    Known::SubjectAltName,
    Known::IssuerAltName,
    Known::BasicConstraints,
    Known::NameConstraints,
    Known::CrlDistributionPoints,
    Known::CertificatePolicies,
    Known::PolicyMappings,
    Known::AuthorityKeyIdentifier,
    Known::PolicyConstraints,
    Known::ExtKeyUsage,
    Known::FreshestCrl,
    Known::InhibitAnyPolicy,
    Known::AuthorityInfoAccess,
    Known::SubjectInfoAccess,
];

/// Whether an extension has the identifier of a known one. Contents are compared: `0x55, 0x1D` encodes 2.5.29.
#[tactic(auto, unfolding(x509_der::specs::ObjectIdentifier::numbers_from))]
pub(crate) fn is_known<A: Allocator>(extension: &Extension<A>, known: Known) -> bool
    ensures { result ≡ is_arcs extension.now.extn_id (arcs_of_known known) }
{
    let identifier = &extension.extn_id().0;
    match known {
        Known::SubjectDirectoryAttributes => identifier.is_content(&[0x55, 0x1D, 9]),
        Known::SubjectKeyIdentifier => identifier.is_content(&[0x55, 0x1D, 14]),
        Known::KeyUsage => identifier.is_content(&[0x55, 0x1D, 15]),
        Known::SubjectAltName => identifier.is_content(&[0x55, 0x1D, 17]),
        Known::IssuerAltName => identifier.is_content(&[0x55, 0x1D, 18]),
        Known::BasicConstraints => identifier.is_content(&[0x55, 0x1D, 19]),
        Known::NameConstraints => identifier.is_content(&[0x55, 0x1D, 30]),
        Known::CrlDistributionPoints => identifier.is_content(&[0x55, 0x1D, 31]),
        Known::CertificatePolicies => identifier.is_content(&[0x55, 0x1D, 32]),
        Known::PolicyMappings => identifier.is_content(&[0x55, 0x1D, 33]),
        Known::AuthorityKeyIdentifier => identifier.is_content(&[0x55, 0x1D, 35]),
        Known::PolicyConstraints => identifier.is_content(&[0x55, 0x1D, 36]),
        Known::ExtKeyUsage => identifier.is_content(&[0x55, 0x1D, 37]),
        Known::FreshestCrl => identifier.is_content(&[0x55, 0x1D, 46]),
        Known::InhibitAnyPolicy => identifier.is_content(&[0x55, 0x1D, 54]),
        Known::AuthorityInfoAccess => identifier.is_content(&[0x2B, 6, 1, 5, 5, 7, 1, 1]),
        Known::SubjectInfoAccess => identifier.is_content(&[0x2B, 6, 1, 5, 5, 7, 1, 11]),
    }
}

/// Whether an extension is one of RFC 5280.
pub(crate) fn is_of_standard<A: Allocator>(extension: &Extension<A>) -> bool
    ensures { result ≡ is_of_standard extension.now.extn_id }
{
    ALL.iter().any(|known| is_known(extension, *known))
}
