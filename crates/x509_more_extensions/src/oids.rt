//! Object identifiers of the extensions of this crate, and of what stands in them.
//!
//! Each has a constant, its dotted text, and a function that makes it.
#![tactic(auto, unfolding(x509_der::specs::ObjectIdentifier::digits))]

ghost use Rattle.std.specs.Prelude.{◌≡◌, ◌∷◌, [], IfOk};
ghost use Rattle.x509_der.specs.ObjectIdentifier.{dotted};

use std::alloc::{AllocError, Allocator};
use x509_der::ObjectIdentifier;
use x509_der::parts::from_lawful;

/// `1.3.6.1.5.5.7.1.1` (RFC 5280, 4.2.2.1).
pub const PE_AUTHORITY_INFO_ACCESS: &'static str = "1.3.6.1.5.5.7.1.1";

/// The object identifier `PE_AUTHORITY_INFO_ACCESS`, `1.3.6.1.5.5.7.1.1`.
///
/// # Errors
/// `AllocError` where memory is refused.
pub fn pe_authority_info_access<A: Allocator>(alloc: A) -> Result<ObjectIdentifier<A>, AllocError>
    ensures arcs { IfOk result (λ o. o ≡ 1 ∷ 3 ∷ 6 ∷ 1 ∷ 5 ∷ 5 ∷ 7 ∷ 1 ∷ 1 ∷ []) }
    ensures text { PE_AUTHORITY_INFO_ACCESS.now ≡ dotted (1 ∷ 3 ∷ 6 ∷ 1 ∷ 5 ∷ 5 ∷ 7 ∷ 1 ∷ 1 ∷ []) }
{
    from_lawful(alloc, &[1, 3, 6, 1, 5, 5, 7, 1, 1])
}

/// `1.3.6.1.5.5.7.1.11` (RFC 5280, 4.2.2.2).
pub const PE_SUBJECT_INFO_ACCESS: &'static str = "1.3.6.1.5.5.7.1.11";

/// The object identifier `PE_SUBJECT_INFO_ACCESS`, `1.3.6.1.5.5.7.1.11`.
///
/// # Errors
/// `AllocError` where memory is refused.
pub fn pe_subject_info_access<A: Allocator>(alloc: A) -> Result<ObjectIdentifier<A>, AllocError>
    ensures arcs { IfOk result (λ o. o ≡ 1 ∷ 3 ∷ 6 ∷ 1 ∷ 5 ∷ 5 ∷ 7 ∷ 1 ∷ 11 ∷ []) }
    ensures text { PE_SUBJECT_INFO_ACCESS.now ≡ dotted (1 ∷ 3 ∷ 6 ∷ 1 ∷ 5 ∷ 5 ∷ 7 ∷ 1 ∷ 11 ∷ []) }
{
    from_lawful(alloc, &[1, 3, 6, 1, 5, 5, 7, 1, 11])
}

/// `1.3.6.1.5.5.7.1.24` (RFC 7633, 6).
pub const PE_TLS_FEATURE: &'static str = "1.3.6.1.5.5.7.1.24";

/// The object identifier `PE_TLS_FEATURE`, `1.3.6.1.5.5.7.1.24`.
///
/// # Errors
/// `AllocError` where memory is refused.
pub fn pe_tls_feature<A: Allocator>(alloc: A) -> Result<ObjectIdentifier<A>, AllocError>
    ensures arcs { IfOk result (λ o. o ≡ 1 ∷ 3 ∷ 6 ∷ 1 ∷ 5 ∷ 5 ∷ 7 ∷ 1 ∷ 24 ∷ []) }
    ensures text { PE_TLS_FEATURE.now ≡ dotted (1 ∷ 3 ∷ 6 ∷ 1 ∷ 5 ∷ 5 ∷ 7 ∷ 1 ∷ 24 ∷ []) }
{
    from_lawful(alloc, &[1, 3, 6, 1, 5, 5, 7, 1, 24])
}

/// `1.3.6.1.5.5.7.2.1` (RFC 5280, 4.2.1.4).
pub const QT_CPS: &'static str = "1.3.6.1.5.5.7.2.1";

/// The object identifier `QT_CPS`, `1.3.6.1.5.5.7.2.1`.
///
/// # Errors
/// `AllocError` where memory is refused.
pub fn qt_cps<A: Allocator>(alloc: A) -> Result<ObjectIdentifier<A>, AllocError>
    ensures arcs { IfOk result (λ o. o ≡ 1 ∷ 3 ∷ 6 ∷ 1 ∷ 5 ∷ 5 ∷ 7 ∷ 2 ∷ 1 ∷ []) }
    ensures text { QT_CPS.now ≡ dotted (1 ∷ 3 ∷ 6 ∷ 1 ∷ 5 ∷ 5 ∷ 7 ∷ 2 ∷ 1 ∷ []) }
{
    from_lawful(alloc, &[1, 3, 6, 1, 5, 5, 7, 2, 1])
}

/// `1.3.6.1.5.5.7.2.2` (RFC 5280, 4.2.1.4).
pub const QT_USER_NOTICE: &'static str = "1.3.6.1.5.5.7.2.2";

/// The object identifier `QT_USER_NOTICE`, `1.3.6.1.5.5.7.2.2`.
///
/// # Errors
/// `AllocError` where memory is refused.
pub fn qt_user_notice<A: Allocator>(alloc: A) -> Result<ObjectIdentifier<A>, AllocError>
    ensures arcs { IfOk result (λ o. o ≡ 1 ∷ 3 ∷ 6 ∷ 1 ∷ 5 ∷ 5 ∷ 7 ∷ 2 ∷ 2 ∷ []) }
    ensures text { QT_USER_NOTICE.now ≡ dotted (1 ∷ 3 ∷ 6 ∷ 1 ∷ 5 ∷ 5 ∷ 7 ∷ 2 ∷ 2 ∷ []) }
{
    from_lawful(alloc, &[1, 3, 6, 1, 5, 5, 7, 2, 2])
}

/// `1.3.6.1.5.5.7.48.1` (RFC 5280, 4.2.2.1).
pub const AD_OCSP: &'static str = "1.3.6.1.5.5.7.48.1";

/// The object identifier `AD_OCSP`, `1.3.6.1.5.5.7.48.1`.
///
/// # Errors
/// `AllocError` where memory is refused.
pub fn ad_ocsp<A: Allocator>(alloc: A) -> Result<ObjectIdentifier<A>, AllocError>
    ensures arcs { IfOk result (λ o. o ≡ 1 ∷ 3 ∷ 6 ∷ 1 ∷ 5 ∷ 5 ∷ 7 ∷ 48 ∷ 1 ∷ []) }
    ensures text { AD_OCSP.now ≡ dotted (1 ∷ 3 ∷ 6 ∷ 1 ∷ 5 ∷ 5 ∷ 7 ∷ 48 ∷ 1 ∷ []) }
{
    from_lawful(alloc, &[1, 3, 6, 1, 5, 5, 7, 48, 1])
}

/// `1.3.6.1.5.5.7.48.2` (RFC 5280, 4.2.2.1).
pub const AD_CA_ISSUERS: &'static str = "1.3.6.1.5.5.7.48.2";

/// The object identifier `AD_CA_ISSUERS`, `1.3.6.1.5.5.7.48.2`.
///
/// # Errors
/// `AllocError` where memory is refused.
pub fn ad_ca_issuers<A: Allocator>(alloc: A) -> Result<ObjectIdentifier<A>, AllocError>
    ensures arcs { IfOk result (λ o. o ≡ 1 ∷ 3 ∷ 6 ∷ 1 ∷ 5 ∷ 5 ∷ 7 ∷ 48 ∷ 2 ∷ []) }
    ensures text { AD_CA_ISSUERS.now ≡ dotted (1 ∷ 3 ∷ 6 ∷ 1 ∷ 5 ∷ 5 ∷ 7 ∷ 48 ∷ 2 ∷ []) }
{
    from_lawful(alloc, &[1, 3, 6, 1, 5, 5, 7, 48, 2])
}

/// `1.3.6.1.5.5.7.48.3` (RFC 5280, 4.2.2.2).
pub const AD_TIME_STAMPING: &'static str = "1.3.6.1.5.5.7.48.3";

/// The object identifier `AD_TIME_STAMPING`, `1.3.6.1.5.5.7.48.3`.
///
/// # Errors
/// `AllocError` where memory is refused.
pub fn ad_time_stamping<A: Allocator>(alloc: A) -> Result<ObjectIdentifier<A>, AllocError>
    ensures arcs { IfOk result (λ o. o ≡ 1 ∷ 3 ∷ 6 ∷ 1 ∷ 5 ∷ 5 ∷ 7 ∷ 48 ∷ 3 ∷ []) }
    ensures text { AD_TIME_STAMPING.now ≡ dotted (1 ∷ 3 ∷ 6 ∷ 1 ∷ 5 ∷ 5 ∷ 7 ∷ 48 ∷ 3 ∷ []) }
{
    from_lawful(alloc, &[1, 3, 6, 1, 5, 5, 7, 48, 3])
}

/// `1.3.6.1.5.5.7.48.5` (RFC 5280, 4.2.2.2).
pub const AD_CA_REPOSITORY: &'static str = "1.3.6.1.5.5.7.48.5";

/// The object identifier `AD_CA_REPOSITORY`, `1.3.6.1.5.5.7.48.5`.
///
/// # Errors
/// `AllocError` where memory is refused.
pub fn ad_ca_repository<A: Allocator>(alloc: A) -> Result<ObjectIdentifier<A>, AllocError>
    ensures arcs { IfOk result (λ o. o ≡ 1 ∷ 3 ∷ 6 ∷ 1 ∷ 5 ∷ 5 ∷ 7 ∷ 48 ∷ 5 ∷ []) }
    ensures text { AD_CA_REPOSITORY.now ≡ dotted (1 ∷ 3 ∷ 6 ∷ 1 ∷ 5 ∷ 5 ∷ 7 ∷ 48 ∷ 5 ∷ []) }
{
    from_lawful(alloc, &[1, 3, 6, 1, 5, 5, 7, 48, 5])
}

/// `1.3.6.1.5.5.7.48.1.5` (RFC 6960, 4.2.2.2.1).
pub const OCSP_NO_CHECK: &'static str = "1.3.6.1.5.5.7.48.1.5";

/// The object identifier `OCSP_NO_CHECK`, `1.3.6.1.5.5.7.48.1.5`.
///
/// # Errors
/// `AllocError` where memory is refused.
pub fn ocsp_no_check<A: Allocator>(alloc: A) -> Result<ObjectIdentifier<A>, AllocError>
    ensures arcs { IfOk result (λ o. o ≡ 1 ∷ 3 ∷ 6 ∷ 1 ∷ 5 ∷ 5 ∷ 7 ∷ 48 ∷ 1 ∷ 5 ∷ []) }
    ensures text { OCSP_NO_CHECK.now ≡ dotted (1 ∷ 3 ∷ 6 ∷ 1 ∷ 5 ∷ 5 ∷ 7 ∷ 48 ∷ 1 ∷ 5 ∷ []) }
{
    from_lawful(alloc, &[1, 3, 6, 1, 5, 5, 7, 48, 1, 5])
}

/// `2.5.29.16` (RFC 5280, A.2).
pub const CE_PRIVATE_KEY_USAGE_PERIOD: &'static str = "2.5.29.16";

/// The object identifier `CE_PRIVATE_KEY_USAGE_PERIOD`, `2.5.29.16`.
///
/// # Errors
/// `AllocError` where memory is refused.
pub fn ce_private_key_usage_period<A: Allocator>(
    alloc: A,
) -> Result<ObjectIdentifier<A>, AllocError>
    ensures arcs { IfOk result (λ o. o ≡ 2 ∷ 5 ∷ 29 ∷ 16 ∷ []) }
    ensures text { CE_PRIVATE_KEY_USAGE_PERIOD.now ≡ dotted (2 ∷ 5 ∷ 29 ∷ 16 ∷ []) }
{
    from_lawful(alloc, &[2, 5, 29, 16])
}

/// `2.5.29.28` (RFC 5280, 5.2.5).
pub const CE_ISSUING_DISTRIBUTION_POINT: &'static str = "2.5.29.28";

/// The object identifier `CE_ISSUING_DISTRIBUTION_POINT`, `2.5.29.28`.
///
/// # Errors
/// `AllocError` where memory is refused.
pub fn ce_issuing_distribution_point<A: Allocator>(
    alloc: A,
) -> Result<ObjectIdentifier<A>, AllocError>
    ensures arcs { IfOk result (λ o. o ≡ 2 ∷ 5 ∷ 29 ∷ 28 ∷ []) }
    ensures text { CE_ISSUING_DISTRIBUTION_POINT.now ≡ dotted (2 ∷ 5 ∷ 29 ∷ 28 ∷ []) }
{
    from_lawful(alloc, &[2, 5, 29, 28])
}

/// `2.5.29.30` (RFC 5280, 4.2.1.10).
pub const CE_NAME_CONSTRAINTS: &'static str = "2.5.29.30";

/// The object identifier `CE_NAME_CONSTRAINTS`, `2.5.29.30`.
///
/// # Errors
/// `AllocError` where memory is refused.
pub fn ce_name_constraints<A: Allocator>(alloc: A) -> Result<ObjectIdentifier<A>, AllocError>
    ensures arcs { IfOk result (λ o. o ≡ 2 ∷ 5 ∷ 29 ∷ 30 ∷ []) }
    ensures text { CE_NAME_CONSTRAINTS.now ≡ dotted (2 ∷ 5 ∷ 29 ∷ 30 ∷ []) }
{
    from_lawful(alloc, &[2, 5, 29, 30])
}

/// `2.5.29.31` (RFC 5280, 4.2.1.13).
pub const CE_CRL_DISTRIBUTION_POINTS: &'static str = "2.5.29.31";

/// The object identifier `CE_CRL_DISTRIBUTION_POINTS`, `2.5.29.31`.
///
/// # Errors
/// `AllocError` where memory is refused.
pub fn ce_crl_distribution_points<A: Allocator>(alloc: A) -> Result<ObjectIdentifier<A>, AllocError>
    ensures arcs { IfOk result (λ o. o ≡ 2 ∷ 5 ∷ 29 ∷ 31 ∷ []) }
    ensures text { CE_CRL_DISTRIBUTION_POINTS.now ≡ dotted (2 ∷ 5 ∷ 29 ∷ 31 ∷ []) }
{
    from_lawful(alloc, &[2, 5, 29, 31])
}

/// `2.5.29.32` (RFC 5280, 4.2.1.4).
pub const CE_CERTIFICATE_POLICIES: &'static str = "2.5.29.32";

/// The object identifier `CE_CERTIFICATE_POLICIES`, `2.5.29.32`.
///
/// # Errors
/// `AllocError` where memory is refused.
pub fn ce_certificate_policies<A: Allocator>(alloc: A) -> Result<ObjectIdentifier<A>, AllocError>
    ensures arcs { IfOk result (λ o. o ≡ 2 ∷ 5 ∷ 29 ∷ 32 ∷ []) }
    ensures text { CE_CERTIFICATE_POLICIES.now ≡ dotted (2 ∷ 5 ∷ 29 ∷ 32 ∷ []) }
{
    from_lawful(alloc, &[2, 5, 29, 32])
}

/// `2.5.29.32.0` (RFC 5280, 4.2.1.4).
pub const ANY_POLICY: &'static str = "2.5.29.32.0";

/// The object identifier `ANY_POLICY`, `2.5.29.32.0`.
///
/// # Errors
/// `AllocError` where memory is refused.
pub fn any_policy<A: Allocator>(alloc: A) -> Result<ObjectIdentifier<A>, AllocError>
    ensures arcs { IfOk result (λ o. o ≡ 2 ∷ 5 ∷ 29 ∷ 32 ∷ 0 ∷ []) }
    ensures text { ANY_POLICY.now ≡ dotted (2 ∷ 5 ∷ 29 ∷ 32 ∷ 0 ∷ []) }
{
    from_lawful(alloc, &[2, 5, 29, 32, 0])
}

/// `2.5.29.33` (RFC 5280, 4.2.1.5).
pub const CE_POLICY_MAPPINGS: &'static str = "2.5.29.33";

/// The object identifier `CE_POLICY_MAPPINGS`, `2.5.29.33`.
///
/// # Errors
/// `AllocError` where memory is refused.
pub fn ce_policy_mappings<A: Allocator>(alloc: A) -> Result<ObjectIdentifier<A>, AllocError>
    ensures arcs { IfOk result (λ o. o ≡ 2 ∷ 5 ∷ 29 ∷ 33 ∷ []) }
    ensures text { CE_POLICY_MAPPINGS.now ≡ dotted (2 ∷ 5 ∷ 29 ∷ 33 ∷ []) }
{
    from_lawful(alloc, &[2, 5, 29, 33])
}

/// `2.5.29.36` (RFC 5280, 4.2.1.11).
pub const CE_POLICY_CONSTRAINTS: &'static str = "2.5.29.36";

/// The object identifier `CE_POLICY_CONSTRAINTS`, `2.5.29.36`.
///
/// # Errors
/// `AllocError` where memory is refused.
pub fn ce_policy_constraints<A: Allocator>(alloc: A) -> Result<ObjectIdentifier<A>, AllocError>
    ensures arcs { IfOk result (λ o. o ≡ 2 ∷ 5 ∷ 29 ∷ 36 ∷ []) }
    ensures text { CE_POLICY_CONSTRAINTS.now ≡ dotted (2 ∷ 5 ∷ 29 ∷ 36 ∷ []) }
{
    from_lawful(alloc, &[2, 5, 29, 36])
}

/// `2.5.29.46` (RFC 5280, 4.2.1.15).
pub const CE_FRESHEST_CRL: &'static str = "2.5.29.46";

/// The object identifier `CE_FRESHEST_CRL`, `2.5.29.46`.
///
/// # Errors
/// `AllocError` where memory is refused.
pub fn ce_freshest_crl<A: Allocator>(alloc: A) -> Result<ObjectIdentifier<A>, AllocError>
    ensures arcs { IfOk result (λ o. o ≡ 2 ∷ 5 ∷ 29 ∷ 46 ∷ []) }
    ensures text { CE_FRESHEST_CRL.now ≡ dotted (2 ∷ 5 ∷ 29 ∷ 46 ∷ []) }
{
    from_lawful(alloc, &[2, 5, 29, 46])
}

/// `2.5.29.54` (RFC 5280, 4.2.1.14).
pub const CE_INHIBIT_ANY_POLICY: &'static str = "2.5.29.54";

/// The object identifier `CE_INHIBIT_ANY_POLICY`, `2.5.29.54`.
///
/// # Errors
/// `AllocError` where memory is refused.
pub fn ce_inhibit_any_policy<A: Allocator>(alloc: A) -> Result<ObjectIdentifier<A>, AllocError>
    ensures arcs { IfOk result (λ o. o ≡ 2 ∷ 5 ∷ 29 ∷ 54 ∷ []) }
    ensures text { CE_INHIBIT_ANY_POLICY.now ≡ dotted (2 ∷ 5 ∷ 29 ∷ 54 ∷ []) }
{
    from_lawful(alloc, &[2, 5, 29, 54])
}

/// `2.23.140.1.1` (CA/Browser Forum, EV Guidelines, 7.1.6.1).
pub const EXTENDED_VALIDATION: &'static str = "2.23.140.1.1";

/// The object identifier `EXTENDED_VALIDATION`, `2.23.140.1.1`.
///
/// # Errors
/// `AllocError` where memory is refused.
pub fn extended_validation<A: Allocator>(alloc: A) -> Result<ObjectIdentifier<A>, AllocError>
    ensures arcs { IfOk result (λ o. o ≡ 2 ∷ 23 ∷ 140 ∷ 1 ∷ 1 ∷ []) }
    ensures text { EXTENDED_VALIDATION.now ≡ dotted (2 ∷ 23 ∷ 140 ∷ 1 ∷ 1 ∷ []) }
{
    from_lawful(alloc, &[2, 23, 140, 1, 1])
}

/// `2.23.140.1.2.1` (CA/Browser Forum, Baseline Requirements, 7.1.6.1).
pub const DOMAIN_VALIDATED: &'static str = "2.23.140.1.2.1";

/// The object identifier `DOMAIN_VALIDATED`, `2.23.140.1.2.1`.
///
/// # Errors
/// `AllocError` where memory is refused.
pub fn domain_validated<A: Allocator>(alloc: A) -> Result<ObjectIdentifier<A>, AllocError>
    ensures arcs { IfOk result (λ o. o ≡ 2 ∷ 23 ∷ 140 ∷ 1 ∷ 2 ∷ 1 ∷ []) }
    ensures text { DOMAIN_VALIDATED.now ≡ dotted (2 ∷ 23 ∷ 140 ∷ 1 ∷ 2 ∷ 1 ∷ []) }
{
    from_lawful(alloc, &[2, 23, 140, 1, 2, 1])
}

/// `2.23.140.1.2.2` (CA/Browser Forum, Baseline Requirements, 7.1.6.1).
pub const ORGANIZATION_VALIDATED: &'static str = "2.23.140.1.2.2";

/// The object identifier `ORGANIZATION_VALIDATED`, `2.23.140.1.2.2`.
///
/// # Errors
/// `AllocError` where memory is refused.
pub fn organization_validated<A: Allocator>(alloc: A) -> Result<ObjectIdentifier<A>, AllocError>
    ensures arcs { IfOk result (λ o. o ≡ 2 ∷ 23 ∷ 140 ∷ 1 ∷ 2 ∷ 2 ∷ []) }
    ensures text { ORGANIZATION_VALIDATED.now ≡ dotted (2 ∷ 23 ∷ 140 ∷ 1 ∷ 2 ∷ 2 ∷ []) }
{
    from_lawful(alloc, &[2, 23, 140, 1, 2, 2])
}

/// `2.23.140.1.2.3` (CA/Browser Forum, Baseline Requirements, 7.1.6.1).
pub const INDIVIDUAL_VALIDATED: &'static str = "2.23.140.1.2.3";

/// The object identifier `INDIVIDUAL_VALIDATED`, `2.23.140.1.2.3`.
///
/// # Errors
/// `AllocError` where memory is refused.
pub fn individual_validated<A: Allocator>(alloc: A) -> Result<ObjectIdentifier<A>, AllocError>
    ensures arcs { IfOk result (λ o. o ≡ 2 ∷ 23 ∷ 140 ∷ 1 ∷ 2 ∷ 3 ∷ []) }
    ensures text { INDIVIDUAL_VALIDATED.now ≡ dotted (2 ∷ 23 ∷ 140 ∷ 1 ∷ 2 ∷ 3 ∷ []) }
{
    from_lawful(alloc, &[2, 23, 140, 1, 2, 3])
}

/// `1.3.6.1.4.1.11129.2.4.2` (RFC 6962, 3.3).
pub const CT_TIMESTAMPS: &'static str = "1.3.6.1.4.1.11129.2.4.2";

/// The object identifier `CT_TIMESTAMPS`, `1.3.6.1.4.1.11129.2.4.2`.
///
/// # Errors
/// `AllocError` where memory is refused.
pub fn ct_timestamps<A: Allocator>(alloc: A) -> Result<ObjectIdentifier<A>, AllocError>
    ensures arcs { IfOk result (λ o. o ≡ 1 ∷ 3 ∷ 6 ∷ 1 ∷ 4 ∷ 1 ∷ 11129 ∷ 2 ∷ 4 ∷ 2 ∷ []) }
    ensures text { CT_TIMESTAMPS.now ≡ dotted (1 ∷ 3 ∷ 6 ∷ 1 ∷ 4 ∷ 1 ∷ 11129 ∷ 2 ∷ 4 ∷ 2 ∷ []) }
{
    from_lawful(alloc, &[1, 3, 6, 1, 4, 1, 11129, 2, 4, 2])
}

/// `1.3.6.1.4.1.11129.2.4.3` (RFC 6962, 3.1).
pub const CT_POISON: &'static str = "1.3.6.1.4.1.11129.2.4.3";

/// The object identifier `CT_POISON`, `1.3.6.1.4.1.11129.2.4.3`.
///
/// # Errors
/// `AllocError` where memory is refused.
pub fn ct_poison<A: Allocator>(alloc: A) -> Result<ObjectIdentifier<A>, AllocError>
    ensures arcs { IfOk result (λ o. o ≡ 1 ∷ 3 ∷ 6 ∷ 1 ∷ 4 ∷ 1 ∷ 11129 ∷ 2 ∷ 4 ∷ 3 ∷ []) }
    ensures text { CT_POISON.now ≡ dotted (1 ∷ 3 ∷ 6 ∷ 1 ∷ 4 ∷ 1 ∷ 11129 ∷ 2 ∷ 4 ∷ 3 ∷ []) }
{
    from_lawful(alloc, &[1, 3, 6, 1, 4, 1, 11129, 2, 4, 3])
}
