//! Reads of each kind of extension.

ghost use Rattle.std.specs.Prelude.{◌≡◌};
ghost use Rattle.x509_policies.specs.Explained.{ExplainedAs};
ghost use Rattle.x509_distribution_points.specs.DistributionPoint.{crl_distribution_points as crl_distribution_points_shape};
ghost use Rattle.x509_distribution_points.specs.IssuingDistributionPoint.{issuing_distribution_point as issuing_distribution_point_shape};
ghost use Rattle.x509_more_extensions.specs.AccessDescription.{authority_info_access as authority_info_access_shape, subject_info_access as subject_info_access_shape};
ghost use Rattle.x509_more_extensions.specs.NameConstraints.{name_constraints as name_constraints_shape};
ghost use Rattle.x509_more_extensions.specs.PolicyConstraints.{policy_constraints as policy_constraints_shape};
ghost use Rattle.x509_more_extensions.specs.PolicyMapping.{policy_mappings as policy_mappings_shape};
ghost use Rattle.x509_more_extensions.specs.PrivateKeyUsagePeriod.{private_key_usage_period as private_key_usage_period_shape};
ghost use Rattle.x509_policies.specs.PolicyInformation.{certificate_policies as certificate_policies_shape};
ghost use Rattle.x509_qualified.specs.QcStatement.{qc_statements as qc_statements_shape};
ghost use Rattle.x509_qualified.specs.DirectoryAttribute.{subject_directory_attributes as subject_directory_attributes_shape};
ghost use Rattle.x509_qualified.specs.NetscapeCertType.{netscape_cert_type as netscape_cert_type_shape};
ghost use Rattle.x509_qualified.specs.CertificateTemplate.{certificate_template as certificate_template_shape};
ghost use Rattle.x509_further_extensions.specs.Further.{tls_feature as tls_feature_shape, ocsp_no_check as ocsp_no_check_shape, inhibit_any_policy as inhibit_any_policy_shape, signed_timestamps as signed_timestamps_shape, poison as poison_shape, netscape_comment as netscape_comment_shape, template_name as template_name_shape};
ghost use Rattle.x509_further_extensions.specs.declared.further.Further.TheVariants as variant;

use crate::further::{Further, Outcome};
use std::alloc::Allocator;
use x509_der::read_explained;

/// Reads `id-pe-authorityInfoAccess` (RFC 5280, 4.2.2.1).
pub(crate) fn authority_info_access<A: Allocator + Copy>(alloc: A, octets: &[u8]) -> Outcome<A>
    ensures { ExplainedAs variant.AuthorityInfoAccess authority_info_access_shape octets.now result }
{
    match read_explained(alloc, octets) {
        Ok((value, deviations)) => Ok((Further::AuthorityInfoAccess(value), deviations)),
        Err(refused) => Err(refused),
    }
}

/// Reads `id-pe-subjectInfoAccess` (RFC 5280, 4.2.2.2).
pub(crate) fn subject_info_access<A: Allocator + Copy>(alloc: A, octets: &[u8]) -> Outcome<A>
    ensures { ExplainedAs variant.SubjectInfoAccess subject_info_access_shape octets.now result }
{
    match read_explained(alloc, octets) {
        Ok((value, deviations)) => Ok((Further::SubjectInfoAccess(value), deviations)),
        Err(refused) => Err(refused),
    }
}

/// Reads `id-pe-tlsfeature` (RFC 7633, 4.1).
pub(crate) fn tls_feature<A: Allocator + Copy>(alloc: A, octets: &[u8]) -> Outcome<A>
    ensures { ExplainedAs variant.TlsFeature tls_feature_shape octets.now result }
{
    match read_explained(alloc, octets) {
        Ok((value, deviations)) => Ok((Further::TlsFeature(value), deviations)),
        Err(refused) => Err(refused),
    }
}

/// Reads `id-pkix-ocsp-nocheck` (RFC 6960, 4.2.2.2.1).
pub(crate) fn ocsp_no_check<A: Allocator + Copy>(alloc: A, octets: &[u8]) -> Outcome<A>
    ensures { ExplainedAs variant.OcspNoCheck ocsp_no_check_shape octets.now result }
{
    match read_explained(alloc, octets) {
        Ok((value, deviations)) => Ok((Further::OcspNoCheck(value), deviations)),
        Err(refused) => Err(refused),
    }
}

/// Reads `id-ce-privateKeyUsagePeriod` (RFC 5280, A.2).
pub(crate) fn private_key_usage_period<A: Allocator + Copy>(alloc: A, octets: &[u8]) -> Outcome<A>
    ensures { ExplainedAs variant.PrivateKeyUsagePeriod private_key_usage_period_shape octets.now result }
{
    match read_explained(alloc, octets) {
        Ok((value, deviations)) => Ok((Further::PrivateKeyUsagePeriod(value), deviations)),
        Err(refused) => Err(refused),
    }
}

/// Reads `id-ce-issuingDistributionPoint` (RFC 5280, 5.2.5).
pub(crate) fn issuing_distribution_point<A: Allocator + Copy>(alloc: A, octets: &[u8]) -> Outcome<A>
    ensures { ExplainedAs variant.IssuingDistributionPoint issuing_distribution_point_shape octets.now result }
{
    match read_explained(alloc, octets) {
        Ok((value, deviations)) => Ok((Further::IssuingDistributionPoint(value), deviations)),
        Err(refused) => Err(refused),
    }
}

/// Reads `id-ce-nameConstraints` (RFC 5280, 4.2.1.10).
pub(crate) fn name_constraints<A: Allocator + Copy>(alloc: A, octets: &[u8]) -> Outcome<A>
    ensures { ExplainedAs variant.NameConstraints name_constraints_shape octets.now result }
{
    match read_explained(alloc, octets) {
        Ok((value, deviations)) => Ok((Further::NameConstraints(value), deviations)),
        Err(refused) => Err(refused),
    }
}

/// Reads `id-ce-cRLDistributionPoints` (RFC 5280, 4.2.1.13).
pub(crate) fn crl_distribution_points<A: Allocator + Copy>(alloc: A, octets: &[u8]) -> Outcome<A>
    ensures { ExplainedAs variant.CrlDistributionPoints crl_distribution_points_shape octets.now result }
{
    match read_explained(alloc, octets) {
        Ok((value, deviations)) => Ok((Further::CrlDistributionPoints(value), deviations)),
        Err(refused) => Err(refused),
    }
}

/// Reads `id-ce-certificatePolicies` (RFC 5280, 4.2.1.4).
pub(crate) fn certificate_policies<A: Allocator + Copy>(alloc: A, octets: &[u8]) -> Outcome<A>
    ensures { ExplainedAs variant.CertificatePolicies certificate_policies_shape octets.now result }
{
    match read_explained(alloc, octets) {
        Ok((value, deviations)) => Ok((Further::CertificatePolicies(value), deviations)),
        Err(refused) => Err(refused),
    }
}

/// Reads `id-ce-policyMappings` (RFC 5280, 4.2.1.5).
pub(crate) fn policy_mappings<A: Allocator + Copy>(alloc: A, octets: &[u8]) -> Outcome<A>
    ensures { ExplainedAs variant.PolicyMappings policy_mappings_shape octets.now result }
{
    match read_explained(alloc, octets) {
        Ok((value, deviations)) => Ok((Further::PolicyMappings(value), deviations)),
        Err(refused) => Err(refused),
    }
}

/// Reads `id-ce-policyConstraints` (RFC 5280, 4.2.1.11).
pub(crate) fn policy_constraints<A: Allocator + Copy>(alloc: A, octets: &[u8]) -> Outcome<A>
    ensures { ExplainedAs variant.PolicyConstraints policy_constraints_shape octets.now result }
{
    match read_explained(alloc, octets) {
        Ok((value, deviations)) => Ok((Further::PolicyConstraints(value), deviations)),
        Err(refused) => Err(refused),
    }
}

/// Reads `id-ce-freshestCRL` (RFC 5280, 4.2.1.15).
pub(crate) fn freshest_crl<A: Allocator + Copy>(alloc: A, octets: &[u8]) -> Outcome<A>
    ensures { ExplainedAs variant.FreshestCrl crl_distribution_points_shape octets.now result }
{
    match read_explained(alloc, octets) {
        Ok((value, deviations)) => Ok((Further::FreshestCrl(value), deviations)),
        Err(refused) => Err(refused),
    }
}

/// Reads `id-ce-inhibitAnyPolicy` (RFC 5280, 4.2.1.14).
pub(crate) fn inhibit_any_policy<A: Allocator + Copy>(alloc: A, octets: &[u8]) -> Outcome<A>
    ensures { ExplainedAs variant.InhibitAnyPolicy inhibit_any_policy_shape octets.now result }
{
    match read_explained(alloc, octets) {
        Ok((value, deviations)) => Ok((Further::InhibitAnyPolicy(value), deviations)),
        Err(refused) => Err(refused),
    }
}

/// Reads the list of signed timestamps (RFC 6962, 3.3).
pub(crate) fn signed_timestamps<A: Allocator + Copy>(alloc: A, octets: &[u8]) -> Outcome<A>
    ensures { ExplainedAs variant.SignedTimestamps signed_timestamps_shape octets.now result }
{
    match read_explained(alloc, octets) {
        Ok((value, deviations)) => Ok((Further::SignedTimestamps(value), deviations)),
        Err(refused) => Err(refused),
    }
}

/// Reads the poison of certificates for logs (RFC 6962, 3.1).
pub(crate) fn poison<A: Allocator + Copy>(alloc: A, octets: &[u8]) -> Outcome<A>
    ensures { ExplainedAs variant.Poison poison_shape octets.now result }
{
    match read_explained(alloc, octets) {
        Ok((value, deviations)) => Ok((Further::Poison(value), deviations)),
        Err(refused) => Err(refused),
    }
}

/// Reads `id-pe-qcStatements`, 1.3.6.1.5.5.7.1.3 (RFC 3739, 3.2.6).
pub(crate) fn qc_statements<A: Allocator + Copy>(alloc: A, octets: &[u8]) -> Outcome<A>
    ensures { ExplainedAs variant.QcStatements qc_statements_shape octets.now result }
{
    match read_explained(alloc, octets) {
        Ok((value, deviations)) => Ok((Further::QcStatements(value), deviations)),
        Err(refused) => Err(refused),
    }
}

/// Reads `id-ce-subjectDirectoryAttributes`, 2.5.29.9 (RFC 5280, 4.2.1.8).
pub(crate) fn subject_directory_attributes<A: Allocator + Copy>(
    alloc: A,
    octets: &[u8],
) -> Outcome<A>
    ensures { ExplainedAs variant.SubjectDirectoryAttributes subject_directory_attributes_shape octets.now result }
{
    match read_explained(alloc, octets) {
        Ok((value, deviations)) => Ok((Further::SubjectDirectoryAttributes(value), deviations)),
        Err(refused) => Err(refused),
    }
}

/// Reads `netscape-cert-type`, 2.16.840.1.113730.1.1 (Netscape Certificate Extensions).
pub(crate) fn netscape_cert_type<A: Allocator + Copy>(alloc: A, octets: &[u8]) -> Outcome<A>
    ensures { ExplainedAs variant.NetscapeCertType netscape_cert_type_shape octets.now result }
{
    match read_explained(alloc, octets) {
        Ok((value, deviations)) => Ok((Further::NetscapeCertType(value), deviations)),
        Err(refused) => Err(refused),
    }
}

/// Reads `netscape-comment`, 2.16.840.1.113730.1.13 (Netscape Certificate Extensions).
pub(crate) fn netscape_comment<A: Allocator + Copy>(alloc: A, octets: &[u8]) -> Outcome<A>
    ensures { ExplainedAs variant.NetscapeComment netscape_comment_shape octets.now result }
{
    match read_explained(alloc, octets) {
        Ok((value, deviations)) => Ok((Further::NetscapeComment(value), deviations)),
        Err(refused) => Err(refused),
    }
}

/// Reads the name of a template, 1.3.6.1.4.1.311.20.2 (MS-WCCE, 2.2.2.7.7.1).
pub(crate) fn template_name<A: Allocator + Copy>(alloc: A, octets: &[u8]) -> Outcome<A>
    ensures { ExplainedAs variant.TemplateName template_name_shape octets.now result }
{
    match read_explained(alloc, octets) {
        Ok((value, deviations)) => Ok((Further::TemplateName(value), deviations)),
        Err(refused) => Err(refused),
    }
}

/// Reads a template, 1.3.6.1.4.1.311.21.7 (MS-WCCE, 2.2.2.7.7.2).
pub(crate) fn certificate_template<A: Allocator + Copy>(alloc: A, octets: &[u8]) -> Outcome<A>
    ensures { ExplainedAs variant.CertificateTemplate certificate_template_shape octets.now result }
{
    match read_explained(alloc, octets) {
        Ok((value, deviations)) => Ok((Further::CertificateTemplate(value), deviations)),
        Err(refused) => Err(refused),
    }
}
