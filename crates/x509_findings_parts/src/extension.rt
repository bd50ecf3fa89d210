//! Extensions. Each rule looks at all extensions of a list, also at several with one identifier.

ghost use Rattle.std.specs.Prelude.{◌≡◌, ◌&&◌, not};
ghost use Rattle.x509_findings_parts.specs.Extensions.{allows_signing, forbids_signing, has_no_purpose, identifies_authority_key, limits_no_path, limits_path, makes_authority, names_authority_by_half, names_authority_key, names_issuer, names_no_issuer, names_no_subject, names_subject, names_subject_key, says_usage, spells_default};
ghost use Rattle.x509_findings_parts.specs.Features.{has_feature, some_have};

use crate::alternative_name::{NameFault, name_has_fault, names_mailbox};
use crate::known::{Known, is_known, is_of_standard};
use crate::purpose::has_any_purpose;
use crate::usage::{allows_nothing, ends_unset};
use picky_asn1_x509_parts::{Extension, ExtensionView};
use std::alloc::Allocator;

/// What an extension may have.
#[derive(Clone, Copy)]
pub enum Feature {
    /// It makes the subject an authority.
    Authority,
    /// It makes the subject an authority, and isn't critical.
    UncriticalAuthority,
    /// It limits the length of paths, though the subject is no authority.
    IdlePathLength,
    /// It limits the length of paths, and makes the subject an authority.
    PathLength,
    /// It allows the key to sign certificates.
    Signing,
    /// It says what the key may be used for, and doesn't allow it to sign certificates.
    OtherUsage,
    /// It is critical, and has further names of the subject.
    CriticalNames,
    /// It is for further names of the subject, and has none.
    NoSubjectNames,
    /// It is for further names of the issuer, and has none.
    NoIssuerNames,
    /// It is for purposes of the key, and has none.
    NoPurposes,
    /// It says which key signed, and is critical.
    CriticalAuthorityKey,
    /// It identifies the certified key.
    SubjectKey,
    /// It identifies the certified key, and is critical.
    CriticalSubjectKey,
    /// It says what the key may be used for, which is nothing.
    NoUsages,
    /// It says what the key may be used for, and its last bit isn't set.
    UnsetUsage,
    /// It spells out that the subject is no authority, which is so by default.
    SpelledDefault,
    /// It says which key signed, by its identifier.
    AuthorityKey,
    /// It names the certificate of the key that signed by its issuer without its serial number, or the reverse.
    PartialAuthorityKey,
    /// It says what the key may be used for, and isn't critical.
    UncriticalUsage,
    /// It is critical, and has further names of the issuer.
    CriticalIssuerNames,
    /// It is critical, and allows any purpose of the key.
    CriticalAnyPurpose,
    /// It has further names of the subject, of which one is a mail address.
    Mailbox,
    /// It is critical, and none of RFC 5280.
    CriticalUnknown,
    /// It has further names, of which one has a fault.
    FaultyName(NameFault),
    /// It has the identifier of a known one.
    Has(Known),
    /// It has the identifier of a known one, and is critical.
    Critical(Known),
    /// It has the identifier of a known one, and isn't critical.
    Uncritical(Known),
}

/// Whether an extension makes the subject an authority.
fn makes_authority<A: Allocator>(extension: &Extension<A>) -> bool
    ensures { result ≡ makes_authority extension.now.extn_value }
{
    match extension.extn_value() {
        ExtensionView::BasicConstraints(constraints) => constraints.ca().unwrap_or(false),
        _ => false,
    }
}

/// Whether an extension limits the length of paths, though the subject is no authority.
fn limits_no_path<A: Allocator>(extension: &Extension<A>) -> bool
    ensures { result ≡ limits_no_path extension.now.extn_value }
{
    match extension.extn_value() {
        ExtensionView::BasicConstraints(constraints) => {
            constraints.pathlen().is_some() && !constraints.ca().unwrap_or(false)
        }
        _ => false,
    }
}

/// Whether an extension limits the length of paths, and makes the subject an authority.
fn limits_path<A: Allocator>(extension: &Extension<A>) -> bool
    ensures { result ≡ limits_path extension.now.extn_value }
{
    match extension.extn_value() {
        ExtensionView::BasicConstraints(constraints) => {
            constraints.pathlen().is_some() && constraints.ca().unwrap_or(false)
        }
        _ => false,
    }
}

/// Whether an extension allows the key to sign certificates.
fn allows_signing<A: Allocator>(extension: &Extension<A>) -> bool
    ensures { result ≡ allows_signing extension.now.extn_value }
{
    match extension.extn_value() {
        ExtensionView::KeyUsage(usage) => usage.key_cert_sign(),
        _ => false,
    }
}

/// Whether an extension says what the key may be used for, and doesn't allow it to sign certificates.
fn forbids_signing<A: Allocator>(extension: &Extension<A>) -> bool
    ensures { result ≡ forbids_signing extension.now.extn_value }
{
    match extension.extn_value() {
        ExtensionView::KeyUsage(usage) => !usage.key_cert_sign(),
        _ => false,
    }
}

/// Whether an extension says what the key may be used for.
fn says_usage<A: Allocator>(extension: &Extension<A>) -> bool
    ensures { result ≡ says_usage extension.now.extn_value }
{
    match extension.extn_value() {
        ExtensionView::KeyUsage(_) => true,
        _ => false,
    }
}

/// Whether an extension has further names of the subject.
fn names_subject<A: Allocator>(extension: &Extension<A>) -> bool
    ensures { result ≡ names_subject extension.now.extn_value }
{
    match extension.extn_value() {
        ExtensionView::SubjectAltName(_) => true,
        _ => false,
    }
}

/// Whether an extension has further names of the issuer.
fn names_issuer<A: Allocator>(extension: &Extension<A>) -> bool
    ensures { result ≡ names_issuer extension.now.extn_value }
{
    match extension.extn_value() {
        ExtensionView::IssuerAltName(_) => true,
        _ => false,
    }
}

/// Whether an extension is for further names of the subject, and has none.
fn names_no_subject<A: Allocator>(extension: &Extension<A>) -> bool
    ensures { result ≡ names_no_subject extension.now.extn_value }
{
    match extension.extn_value() {
        ExtensionView::SubjectAltName(names) => names.0.is_empty(),
        _ => false,
    }
}

/// Whether an extension is for further names of the issuer, and has none.
fn names_no_issuer<A: Allocator>(extension: &Extension<A>) -> bool
    ensures { result ≡ names_no_issuer extension.now.extn_value }
{
    match extension.extn_value() {
        ExtensionView::IssuerAltName(names) => names.0.is_empty(),
        _ => false,
    }
}

/// Whether an extension is for purposes of the key, and has none.
fn has_no_purpose<A: Allocator>(extension: &Extension<A>) -> bool
    ensures { result ≡ has_no_purpose extension.now.extn_value }
{
    match extension.extn_value() {
        ExtensionView::ExtendedKeyUsage(usage) => usage.iter().as_slice().is_empty(),
        _ => false,
    }
}

/// Whether an extension says which key signed.
fn names_authority_key<A: Allocator>(extension: &Extension<A>) -> bool
    ensures { result ≡ names_authority_key extension.now.extn_value }
{
    match extension.extn_value() {
        ExtensionView::AuthorityKeyIdentifier(_) => true,
        _ => false,
    }
}

/// Whether an extension says which key signed, by its identifier.
fn identifies_authority_key<A: Allocator>(extension: &Extension<A>) -> bool
    ensures { result ≡ identifies_authority_key extension.now.extn_value }
{
    match extension.extn_value() {
        ExtensionView::AuthorityKeyIdentifier(key) => key.key_identifier().is_some(),
        _ => false,
    }
}

/// Whether an extension names the certificate of the key that signed by its issuer without its serial number, or the
/// reverse.
fn names_authority_by_half<A: Allocator>(extension: &Extension<A>) -> bool
    ensures { result ≡ names_authority_by_half extension.now.extn_value }
{
    match extension.extn_value() {
        ExtensionView::AuthorityKeyIdentifier(key) => {
            let issuer = key.authority_cert_issuer().is_some();
            let serial_number = key.authority_cert_serial_number().is_some();
            (issuer && !serial_number) || (!issuer && serial_number)
        }
        _ => false,
    }
}

/// Whether an extension identifies the certified key.
fn names_subject_key<A: Allocator>(extension: &Extension<A>) -> bool
    ensures { result ≡ names_subject_key extension.now.extn_value }
{
    match extension.extn_value() {
        ExtensionView::SubjectKeyIdentifier(_) => true,
        _ => false,
    }
}

/// Whether an extension spells out that the subject is no authority.
fn spells_default<A: Allocator>(extension: &Extension<A>) -> bool
    ensures { result ≡ spells_default extension.now.extn_value }
{
    match extension.extn_value() {
        ExtensionView::BasicConstraints(constraints) => !constraints.ca().unwrap_or(true),
        _ => false,
    }
}

/// Whether an extension has a feature.
fn has_feature<A: Allocator>(extension: &Extension<A>, feature: Feature) -> bool
    ensures { result ≡ has_feature feature extension.now }
{
    match feature {
        Feature::Authority => makes_authority(extension),
        Feature::UncriticalAuthority => makes_authority(extension) && !extension.critical(),
        Feature::IdlePathLength => limits_no_path(extension),
        Feature::PathLength => limits_path(extension),
        Feature::Signing => allows_signing(extension),
        Feature::OtherUsage => forbids_signing(extension),
        Feature::CriticalNames => names_subject(extension) && extension.critical(),
        Feature::NoSubjectNames => names_no_subject(extension),
        Feature::NoIssuerNames => names_no_issuer(extension),
        Feature::NoPurposes => has_no_purpose(extension),
        Feature::CriticalAuthorityKey => names_authority_key(extension) && extension.critical(),
        Feature::SubjectKey => names_subject_key(extension),
        Feature::CriticalSubjectKey => names_subject_key(extension) && extension.critical(),
        Feature::NoUsages => allows_nothing(extension),
        Feature::UnsetUsage => ends_unset(extension),
        Feature::SpelledDefault => spells_default(extension),
        Feature::AuthorityKey => identifies_authority_key(extension),
        Feature::PartialAuthorityKey => names_authority_by_half(extension),
        Feature::UncriticalUsage => says_usage(extension) && !extension.critical(),
        Feature::CriticalIssuerNames => names_issuer(extension) && extension.critical(),
        Feature::CriticalAnyPurpose => has_any_purpose(extension) && extension.critical(),
        Feature::Mailbox => names_mailbox(extension),
        Feature::CriticalUnknown => !is_of_standard(extension) && extension.critical(),
        Feature::FaultyName(fault) => name_has_fault(extension, fault),
        Feature::Has(known) => is_known(extension, known),
        Feature::Critical(known) => is_known(extension, known) && extension.critical(),
        Feature::Uncritical(known) => is_known(extension, known) && !extension.critical(),
    }
}

/// Whether one of some extensions has a feature. Takes no memory.
pub fn some_have<A: Allocator>(extensions: &[Extension<A>], feature: Feature) -> bool
    ensures { result ≡ some_have feature extensions.now }
{
    for extension in extensions {
        if has_feature(extension, feature) {
            return true;
        }
    }
    false
}

/// Whether one of some extensions has a feature, and none has another. Takes no memory.
pub fn have_without<A: Allocator>(
    extensions: &[Extension<A>],
    feature: Feature,
    other: Feature,
) -> bool
    ensures { result ≡ (some_have feature extensions.now && not (some_have other extensions.now)) }
{
    some_have(extensions, feature) && !some_have(extensions, other)
}
