//! Extensions that are read from the octets of their values, by the object identifier.

ghost use Rattle.std.specs.Prelude.{◌≡◌};
ghost use Rattle.x509_further_extensions.specs.Further.{kind_of, other_kind_of, kind_in, octets_in, IsRead, IsViewed, IsSeen};

use crate::reads;
use picky_asn1_x509::{Extension, ExtensionView};
use std::alloc::{Allocator, Global};
use x509_der::{
    Asn1SequenceOf, Deviations, IntegerAsn1, ObjectIdentifier, OctetStringAsn1, Refused,
};
use x509_distribution_points::{CrlDistributionPoints, FreshestCrl, IssuingDistributionPoint};
use x509_more_extensions::{
    AuthorityInfoAccess, InhibitAnyPolicy, NameConstraints, PolicyConstraints, PolicyMappings,
    PrivateKeyUsagePeriod, SubjectInfoAccess,
};
use x509_policies::CertificatePolicies;
use x509_qualified::{
    CertificateTemplate, NetscapeCertType, NetscapeComment, QcStatements,
    SubjectDirectoryAttributes, TemplateName,
};

/// The extensions of TLS that a server has to support, by their numbers: 5 is `status_request`, 17 `status_request_v2`.
///
/// # Encoding
/// `Features ::= SEQUENCE OF INTEGER` (RFC 7633, 4.1).
pub type TlsFeature<A = Global> = Asn1SequenceOf<IntegerAsn1<A>, A>;

/// The kinds of extensions that are read from octets.
#[derive(Clone, Copy, Debug, Drop, PartialEq, Eq)]
pub enum FurtherKind {
    /// `id-pe-authorityInfoAccess`, 1.3.6.1.5.5.7.1.1 (RFC 5280, 4.2.2.1).
    AuthorityInfoAccess,
    /// `id-pe-subjectInfoAccess`, 1.3.6.1.5.5.7.1.11 (RFC 5280, 4.2.2.2).
    SubjectInfoAccess,
    /// `id-pe-tlsfeature`, 1.3.6.1.5.5.7.1.24 (RFC 7633, 4.1).
    TlsFeature,
    /// `id-pkix-ocsp-nocheck`, 1.3.6.1.5.5.7.48.1.5 (RFC 6960, 4.2.2.2.1).
    OcspNoCheck,
    /// `id-ce-privateKeyUsagePeriod`, 2.5.29.16 (RFC 5280, A.2).
    PrivateKeyUsagePeriod,
    /// `id-ce-issuingDistributionPoint`, 2.5.29.28 (RFC 5280, 5.2.5).
    IssuingDistributionPoint,
    /// `id-ce-nameConstraints`, 2.5.29.30 (RFC 5280, 4.2.1.10).
    NameConstraints,
    /// `id-ce-cRLDistributionPoints`, 2.5.29.31 (RFC 5280, 4.2.1.13).
    CrlDistributionPoints,
    /// `id-ce-certificatePolicies`, 2.5.29.32 (RFC 5280, 4.2.1.4).
    CertificatePolicies,
    /// `id-ce-policyMappings`, 2.5.29.33 (RFC 5280, 4.2.1.5).
    PolicyMappings,
    /// `id-ce-policyConstraints`, 2.5.29.36 (RFC 5280, 4.2.1.11).
    PolicyConstraints,
    /// `id-ce-freshestCRL`, 2.5.29.46 (RFC 5280, 4.2.1.15).
    FreshestCrl,
    /// `id-ce-inhibitAnyPolicy`, 2.5.29.54 (RFC 5280, 4.2.1.14).
    InhibitAnyPolicy,
    /// The list of signed timestamps, 1.3.6.1.4.1.11129.2.4.2 (RFC 6962, 3.3).
    SignedTimestamps,
    /// The poison of certificates for logs, 1.3.6.1.4.1.11129.2.4.3 (RFC 6962, 3.1).
    Poison,
    /// `id-pe-qcStatements`, 1.3.6.1.5.5.7.1.3 (RFC 3739, 3.2.6).
    QcStatements,
    /// `id-ce-subjectDirectoryAttributes`, 2.5.29.9 (RFC 5280, 4.2.1.8).
    SubjectDirectoryAttributes,
    /// `netscape-cert-type`, 2.16.840.1.113730.1.1 (Netscape Certificate Extensions).
    NetscapeCertType,
    /// `netscape-comment`, 2.16.840.1.113730.1.13 (Netscape Certificate Extensions).
    NetscapeComment,
    /// The name of a template, 1.3.6.1.4.1.311.20.2 (MS-WCCE, 2.2.2.7.7.1).
    TemplateName,
    /// A template, 1.3.6.1.4.1.311.21.7 (MS-WCCE, 2.2.2.7.7.2).
    CertificateTemplate,
}

/// An extension, as the octets of its value encode it.
#[derive(Drop)]
#[derive_where(Debug)]
pub enum Further<A: Allocator = Global> {
    /// Where services of the issuer are found (RFC 5280, 4.2.2.1).
    AuthorityInfoAccess(AuthorityInfoAccess<A>),
    /// Where services of the subject are found (RFC 5280, 4.2.2.2).
    SubjectInfoAccess(SubjectInfoAccess<A>),
    /// Extensions of TLS that a server has to support (RFC 7633, 4.1).
    TlsFeature(TlsFeature<A>),
    /// That a responder's certificate isn't to be checked (RFC 6960, 4.2.2.2.1).
    OcspNoCheck(()),
    /// When the private key is used (RFC 5280, A.2).
    PrivateKeyUsagePeriod(PrivateKeyUsagePeriod),
    /// Which certificates a revocation list covers (RFC 5280, 5.2.5).
    IssuingDistributionPoint(IssuingDistributionPoint<A>),
    /// The names that certificates below may have (RFC 5280, 4.2.1.10).
    NameConstraints(NameConstraints<A>),
    /// Where revocation lists are found (RFC 5280, 4.2.1.13).
    CrlDistributionPoints(CrlDistributionPoints<A>),
    /// The policies under which the certificate is issued (RFC 5280, 4.2.1.4).
    CertificatePolicies(CertificatePolicies<A>),
    /// Policies that are taken for equivalent (RFC 5280, 4.2.1.5).
    PolicyMappings(PolicyMappings<A>),
    /// From where on policies are demanded (RFC 5280, 4.2.1.11).
    PolicyConstraints(PolicyConstraints<A>),
    /// Where lists of what was revoked since are found (RFC 5280, 4.2.1.15).
    FreshestCrl(FreshestCrl<A>),
    /// From where on any policy counts no more (RFC 5280, 4.2.1.14).
    InhibitAnyPolicy(InhibitAnyPolicy<A>),
    /// Timestamps of logs of certificates, in the form that TLS gives them (RFC 6962, 3.3).
    SignedTimestamps(OctetStringAsn1<A>),
    /// That a certificate is one for logs alone, and not to be used (RFC 6962, 3.1).
    Poison(()),
    /// What is stated of a qualified certificate (RFC 3739, 3.2.6).
    QcStatements(QcStatements<A>),
    /// Attributes of the subject (RFC 5280, 4.2.1.8).
    SubjectDirectoryAttributes(SubjectDirectoryAttributes<A>),
    /// What the certificate is for (Netscape Certificate Extensions).
    NetscapeCertType(NetscapeCertType<A>),
    /// What is to be shown of the certificate (Netscape Certificate Extensions).
    NetscapeComment(NetscapeComment<A>),
    /// The name of the template by which it was issued (MS-WCCE, 2.2.2.7.7.1).
    TemplateName(TemplateName<A>),
    /// The template by which it was issued (MS-WCCE, 2.2.2.7.7.2).
    CertificateTemplate(CertificateTemplate<A>),
}

/// What a read gives: the extension, and the deviations in its octets.
pub type Outcome<A = Global> = Result<(Further<A>, Deviations), Refused>;

impl FurtherKind {
    /// The kind that an object identifier tells, if it is one of these. Contents are compared, and no arcs are decoded:
    /// `0x55, 0x1D` encodes 2.5.29.
    #[tactic(auto, unfolding(x509_der::specs::ObjectIdentifier::numbers_from))]
    pub fn of<A: Allocator>(identifier: &ObjectIdentifier<A>) -> Option<FurtherKind>
        ensures { result ≡ kind_of identifier.now }
    {
        if identifier.is_content(&[0x2B, 6, 1, 5, 5, 7, 1, 1]) {
            Some(FurtherKind::AuthorityInfoAccess)
        } else if identifier.is_content(&[0x2B, 6, 1, 5, 5, 7, 1, 11]) {
            Some(FurtherKind::SubjectInfoAccess)
        } else if identifier.is_content(&[0x2B, 6, 1, 5, 5, 7, 1, 24]) {
            Some(FurtherKind::TlsFeature)
        } else if identifier.is_content(&[0x2B, 6, 1, 5, 5, 7, 48, 1, 5]) {
            Some(FurtherKind::OcspNoCheck)
        } else if identifier.is_content(&[0x55, 0x1D, 16]) {
            Some(FurtherKind::PrivateKeyUsagePeriod)
        } else if identifier.is_content(&[0x55, 0x1D, 28]) {
            Some(FurtherKind::IssuingDistributionPoint)
        } else if identifier.is_content(&[0x55, 0x1D, 30]) {
            Some(FurtherKind::NameConstraints)
        } else if identifier.is_content(&[0x55, 0x1D, 31]) {
            Some(FurtherKind::CrlDistributionPoints)
        } else if identifier.is_content(&[0x55, 0x1D, 32]) {
            Some(FurtherKind::CertificatePolicies)
        } else if identifier.is_content(&[0x55, 0x1D, 33]) {
            Some(FurtherKind::PolicyMappings)
        } else if identifier.is_content(&[0x55, 0x1D, 36]) {
            Some(FurtherKind::PolicyConstraints)
        } else if identifier.is_content(&[0x55, 0x1D, 46]) {
            Some(FurtherKind::FreshestCrl)
        } else if identifier.is_content(&[0x55, 0x1D, 54]) {
            Some(FurtherKind::InhibitAnyPolicy)
        } else if identifier.is_content(&[0x2B, 6, 1, 4, 1, 0xD6, 121, 2, 4, 2]) {
            Some(FurtherKind::SignedTimestamps)
        } else if identifier.is_content(&[0x2B, 6, 1, 4, 1, 0xD6, 121, 2, 4, 3]) {
            Some(FurtherKind::Poison)
        } else {
            FurtherKind::of_others(identifier)
        }
    }

    /// The same of kinds that are known beside those of the RFCs on certificates of the web.
    #[tactic(auto, unfolding(x509_der::specs::ObjectIdentifier::numbers_from))]
    fn of_others<A: Allocator>(identifier: &ObjectIdentifier<A>) -> Option<FurtherKind>
        ensures { result ≡ other_kind_of identifier.now }
    {
        if identifier.is_content(&[0x2B, 6, 1, 5, 5, 7, 1, 3]) {
            Some(FurtherKind::QcStatements)
        } else if identifier.is_content(&[0x55, 0x1D, 9]) {
            Some(FurtherKind::SubjectDirectoryAttributes)
        } else if identifier.is_content(&[0x60, 0x86, 0x48, 1, 0x86, 0xF8, 0x42, 1, 1]) {
            Some(FurtherKind::NetscapeCertType)
        } else if identifier.is_content(&[0x60, 0x86, 0x48, 1, 0x86, 0xF8, 0x42, 1, 13]) {
            Some(FurtherKind::NetscapeComment)
        } else if identifier.is_content(&[0x2B, 6, 1, 4, 1, 0x82, 0x37, 20, 2]) {
            Some(FurtherKind::TemplateName)
        } else if identifier.is_content(&[0x2B, 6, 1, 4, 1, 0x82, 0x37, 21, 7]) {
            Some(FurtherKind::CertificateTemplate)
        } else {
            None
        }
    }
}

impl<A: Allocator> Further<A> {
    /// The kind.
    pub fn kind(&self) -> FurtherKind
        ensures { result ≡ kind_in self.now }
    {
        match self {
            Further::AuthorityInfoAccess(_) => FurtherKind::AuthorityInfoAccess,
            Further::SubjectInfoAccess(_) => FurtherKind::SubjectInfoAccess,
            Further::TlsFeature(_) => FurtherKind::TlsFeature,
            Further::OcspNoCheck(_) => FurtherKind::OcspNoCheck,
            Further::PrivateKeyUsagePeriod(_) => FurtherKind::PrivateKeyUsagePeriod,
            Further::IssuingDistributionPoint(_) => FurtherKind::IssuingDistributionPoint,
            Further::NameConstraints(_) => FurtherKind::NameConstraints,
            Further::CrlDistributionPoints(_) => FurtherKind::CrlDistributionPoints,
            Further::CertificatePolicies(_) => FurtherKind::CertificatePolicies,
            Further::PolicyMappings(_) => FurtherKind::PolicyMappings,
            Further::PolicyConstraints(_) => FurtherKind::PolicyConstraints,
            Further::FreshestCrl(_) => FurtherKind::FreshestCrl,
            Further::InhibitAnyPolicy(_) => FurtherKind::InhibitAnyPolicy,
            Further::SignedTimestamps(_) => FurtherKind::SignedTimestamps,
            Further::Poison(_) => FurtherKind::Poison,
            Further::QcStatements(_) => FurtherKind::QcStatements,
            Further::SubjectDirectoryAttributes(_) => FurtherKind::SubjectDirectoryAttributes,
            Further::NetscapeCertType(_) => FurtherKind::NetscapeCertType,
            Further::NetscapeComment(_) => FurtherKind::NetscapeComment,
            Further::TemplateName(_) => FurtherKind::TemplateName,
            Further::CertificateTemplate(_) => FurtherKind::CertificateTemplate,
        }
    }
}

/// Reads an extension of a kind from the octets of its value.
///
/// # Errors
/// Refused exactly where the octets aren't an encoding of the kind, or memory is refused; with how far the reader had got
/// in the octets, as by `read_explained`.
pub fn read_further<A: Allocator + Copy>(alloc: A, kind: FurtherKind, octets: &[u8]) -> Outcome<A>
    ensures { IsRead kind octets.now result }
{
    match kind {
        FurtherKind::AuthorityInfoAccess => reads::authority_info_access(alloc, octets),
        FurtherKind::SubjectInfoAccess => reads::subject_info_access(alloc, octets),
        FurtherKind::TlsFeature => reads::tls_feature(alloc, octets),
        FurtherKind::OcspNoCheck => reads::ocsp_no_check(alloc, octets),
        FurtherKind::PrivateKeyUsagePeriod => reads::private_key_usage_period(alloc, octets),
        FurtherKind::IssuingDistributionPoint => reads::issuing_distribution_point(alloc, octets),
        FurtherKind::NameConstraints => reads::name_constraints(alloc, octets),
        FurtherKind::CrlDistributionPoints => reads::crl_distribution_points(alloc, octets),
        FurtherKind::CertificatePolicies => reads::certificate_policies(alloc, octets),
        FurtherKind::PolicyMappings => reads::policy_mappings(alloc, octets),
        FurtherKind::PolicyConstraints => reads::policy_constraints(alloc, octets),
        FurtherKind::FreshestCrl => reads::freshest_crl(alloc, octets),
        FurtherKind::InhibitAnyPolicy => reads::inhibit_any_policy(alloc, octets),
        FurtherKind::SignedTimestamps => reads::signed_timestamps(alloc, octets),
        FurtherKind::Poison => reads::poison(alloc, octets),
        FurtherKind::QcStatements => reads::qc_statements(alloc, octets),
        FurtherKind::SubjectDirectoryAttributes => reads::subject_directory_attributes(
            alloc, octets,
        ),
        FurtherKind::NetscapeCertType => reads::netscape_cert_type(alloc, octets),
        FurtherKind::NetscapeComment => reads::netscape_comment(alloc, octets),
        FurtherKind::TemplateName => reads::template_name(alloc, octets),
        FurtherKind::CertificateTemplate => reads::certificate_template(alloc, octets),
    }
}

/// Reads an extension by its object identifier, from the octets of its value: `None` exactly where the identifier tells
/// none of these kinds.
///
/// # Errors
/// As `read_further`.
pub fn view_octets<A: Allocator + Copy>(
    alloc: A,
    identifier: &ObjectIdentifier<A>,
    octets: &[u8],
) -> Option<Outcome<A>>
    ensures { IsViewed (kind_of identifier.now) octets.now result }
{
    let kind = FurtherKind::of(identifier)?;
    Some(read_further(alloc, kind, octets))
}

/// Reads an extension that the port keeps as octets: `None` exactly where it isn't one of these kinds.
///
/// # Errors
/// As `read_further`.
pub fn view<A: Allocator + Copy>(alloc: A, extension: &Extension<A>) -> Option<Outcome<A>>
    ensures { IsSeen (octets_in extension.now.extn_value) extension.now.extn_id result }
{
    match extension.extn_value() {
        ExtensionView::Generic(octets) => {
            view_octets(alloc, &extension.extn_id().0, octets.0.as_slice())
        }
        _ => None,
    }
}
