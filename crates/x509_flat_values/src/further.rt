//! Checks of an extension's octets, by its object identifier.

ghost use Rattle.std.specs.Prelude.{◌≡◌};
ghost use Rattle.x509_further_extensions.specs.Further.{kind_of as kind_by, other_kind_of as other_kind_by};
ghost use Rattle.x509_flat.specs.Checks.{Tells, no_verdict};
ghost use Rattle.x509_flat_values.specs.Further.{ExtensionChecked, TellsFurther};

use crate::identifier::Identifier;
use picky_asn1_x509::{FromDer, check_metered};
use std::alloc::Allocator;
use x509_der::OctetStringAsn1;
use x509_distribution_points::{CrlDistributionPoints, FreshestCrl, IssuingDistributionPoint};
use x509_flat::check::{Checked, Verdict};
use x509_flat::status::{Status, status_of};
use x509_further_extensions::{FurtherKind, TlsFeature};
use x509_more_extensions::{
    AuthorityInfoAccess, InhibitAnyPolicy, NameConstraints, PolicyConstraints, PolicyMappings,
    PrivateKeyUsagePeriod, SubjectInfoAccess,
};
use x509_policies::CertificatePolicies;
use x509_qualified::{
    CertificateTemplate, NetscapeCertType, NetscapeComment, QcStatements,
    SubjectDirectoryAttributes, TemplateName,
};

/// The kind of extensions that an object identifier tells, if it is one of these: as `FurtherKind::of`, of one that is lent.
#[tactic(auto, unfolding(x509_der::specs::ObjectIdentifier::numbers_from))]
pub fn kind_of(identifier: &Identifier<'_>) -> Option<FurtherKind>
    ensures { result ≡ kind_by identifier.now }
{
    if identifier.is_content(&[0x2B, 6, 1, 5, 5, 7, 1, 1]) {
        Some(FurtherKind::AuthorityInfoAccess)
    } else if identifier.is_content(&[0x2B, 6, 1, 5, 5, 7, 1, 11]) {
        Some(FurtherKind::SubjectInfoAccess)
    } else if identifier.is_content(&[0x2B, 6, 1, 5, 5, 7, 1, 24]) {
        Some(FurtherKind::TlsFeature)
    } else if identifier.is_content(&[0x2B, 6, 1, 5, 5, 7, 48, 1, 5]) {
        Some(FurtherKind::OcspNoCheck)
    } else if identifier.is_content(&[0x55, 0x1D, 16]) {
        Some(FurtherKind::PrivateKeyUsagePeriod)
    } else if identifier.is_content(&[0x55, 0x1D, 28]) {
        Some(FurtherKind::IssuingDistributionPoint)
    } else if identifier.is_content(&[0x55, 0x1D, 30]) {
        Some(FurtherKind::NameConstraints)
    } else if identifier.is_content(&[0x55, 0x1D, 31]) {
        Some(FurtherKind::CrlDistributionPoints)
    } else if identifier.is_content(&[0x55, 0x1D, 32]) {
        Some(FurtherKind::CertificatePolicies)
    } else if identifier.is_content(&[0x55, 0x1D, 33]) {
        Some(FurtherKind::PolicyMappings)
    } else if identifier.is_content(&[0x55, 0x1D, 36]) {
        Some(FurtherKind::PolicyConstraints)
    } else if identifier.is_content(&[0x55, 0x1D, 46]) {
        Some(FurtherKind::FreshestCrl)
    } else if identifier.is_content(&[0x55, 0x1D, 54]) {
        Some(FurtherKind::InhibitAnyPolicy)
    } else if identifier.is_content(&[0x2B, 6, 1, 4, 1, 0xD6, 121, 2, 4, 2]) {
        Some(FurtherKind::SignedTimestamps)
    } else if identifier.is_content(&[0x2B, 6, 1, 4, 1, 0xD6, 121, 2, 4, 3]) {
        Some(FurtherKind::Poison)
    } else {
        other_kind_of(identifier)
    }
}

/// The same of kinds that are known beside those of the RFCs on certificates of the web.
#[tactic(auto, unfolding(x509_der::specs::ObjectIdentifier::numbers_from))]
fn other_kind_of(identifier: &Identifier<'_>) -> Option<FurtherKind>
    ensures { result ≡ other_kind_by identifier.now }
{
    if identifier.is_content(&[0x2B, 6, 1, 5, 5, 7, 1, 3]) {
        Some(FurtherKind::QcStatements)
    } else if identifier.is_content(&[0x55, 0x1D, 9]) {
        Some(FurtherKind::SubjectDirectoryAttributes)
    } else if identifier.is_content(&[0x60, 0x86, 0x48, 1, 0x86, 0xF8, 0x42, 1, 1]) {
        Some(FurtherKind::NetscapeCertType)
    } else if identifier.is_content(&[0x60, 0x86, 0x48, 1, 0x86, 0xF8, 0x42, 1, 13]) {
        Some(FurtherKind::NetscapeComment)
    } else if identifier.is_content(&[0x2B, 6, 1, 4, 1, 0x82, 0x37, 20, 2]) {
        Some(FurtherKind::TemplateName)
    } else if identifier.is_content(&[0x2B, 6, 1, 4, 1, 0x82, 0x37, 21, 7]) {
        Some(FurtherKind::CertificateTemplate)
    } else {
        None
    }
}

/// Whether octets encode a value of a type.
fn check_as<T: FromDer<A>, A: Allocator + Copy>(alloc: A, octets: &[u8]) -> Checked
    ensures { Tells T.shape octets.now result.status result.verdict }
{
    let (outcome, headers) = check_metered::<T, A>(alloc, octets);
    match outcome {
        Ok(deviations) => Checked {
            status: Status::Done,
            verdict: Verdict {
                counts: deviations.array(),
                headers,
                error: 0,
                at: 0,
            },
        },
        Err(refused) => Checked {
            status: status_of(refused.error),
            verdict: Verdict {
                counts: [0; 10],
                headers,
                error: refused.error.number(),
                at: refused.at,
            },
        },
    }
}

/// Whether octets encode an extension of a kind, and how they deviate from its DER encoding; or why and where they are refused.
/// It builds no value and takes no memory.
pub fn check_further<A: Allocator + Copy>(alloc: A, kind: FurtherKind, octets: &[u8]) -> Checked
    ensures { TellsFurther A kind octets.now result.status result.verdict }
{
    match kind {
        FurtherKind::AuthorityInfoAccess => check_as::<AuthorityInfoAccess<A>, A>(alloc, octets),
        FurtherKind::SubjectInfoAccess => check_as::<SubjectInfoAccess<A>, A>(alloc, octets),
        FurtherKind::TlsFeature => check_as::<TlsFeature<A>, A>(alloc, octets),
        FurtherKind::OcspNoCheck => check_as::<(), A>(alloc, octets),
        FurtherKind::PrivateKeyUsagePeriod => check_as::<PrivateKeyUsagePeriod, A>(alloc, octets),
        FurtherKind::IssuingDistributionPoint => check_as::<IssuingDistributionPoint<A>, A>(
            alloc, octets,
        ),
        FurtherKind::NameConstraints => check_as::<NameConstraints<A>, A>(alloc, octets),
        FurtherKind::CrlDistributionPoints => check_as::<CrlDistributionPoints<A>, A>(
            alloc, octets,
        ),
        FurtherKind::CertificatePolicies => check_as::<CertificatePolicies<A>, A>(alloc, octets),
        FurtherKind::PolicyMappings => check_as::<PolicyMappings<A>, A>(alloc, octets),
        FurtherKind::PolicyConstraints => check_as::<PolicyConstraints<A>, A>(alloc, octets),
        FurtherKind::FreshestCrl => check_as::<FreshestCrl<A>, A>(alloc, octets),
        FurtherKind::InhibitAnyPolicy => check_as::<InhibitAnyPolicy<A>, A>(alloc, octets),
        FurtherKind::SignedTimestamps => check_as::<OctetStringAsn1<A>, A>(alloc, octets),
        FurtherKind::Poison => check_as::<(), A>(alloc, octets),
        FurtherKind::QcStatements => check_as::<QcStatements<A>, A>(alloc, octets),
        FurtherKind::SubjectDirectoryAttributes => check_as::<SubjectDirectoryAttributes<A>, A>(
            alloc, octets,
        ),
        FurtherKind::NetscapeCertType => check_as::<NetscapeCertType<A>, A>(alloc, octets),
        FurtherKind::NetscapeComment => check_as::<NetscapeComment<A>, A>(alloc, octets),
        FurtherKind::TemplateName => check_as::<TemplateName<A>, A>(alloc, octets),
        FurtherKind::CertificateTemplate => check_as::<CertificateTemplate<A>, A>(alloc, octets),
    }
}

/// No kind of extensions.
fn unknown() -> Checked
    ensures status { result.status ≡ Status.UnknownKind }
    ensures verdict { result.verdict ≡ no_verdict }
{
    Checked {
        status: Status::UnknownKind,
        verdict: Verdict::none(),
    }
}

/// Whether the octets of an extension's value encode the extension that an object identifier tells, which is given by its
/// content. Identifiers of no kind of `FurtherKind`, and bytes that are the content of none, are unknown.
pub fn check_extension<A: Allocator + Copy>(alloc: A, identifier: &[u8], octets: &[u8]) -> Checked
    ensures { ExtensionChecked A identifier.now octets.now result.status result.verdict }
{
    let Some(identifier) = Identifier::of(identifier) else {
        return unknown();
    };
    match kind_of(&identifier) {
        Some(kind) => check_further(alloc, kind, octets),
        None => unknown(),
    }
}
