//! What rules ask of a certificate.

ghost use Rattle.std.specs.Prelude.{◌≡◌, ◌↔◌, false, IfOk, IsOk, IsTrue};
ghost use Rattle.x509_findings.specs.Broken.{condition_of};
ghost use Rattle.x509_findings.specs.Conditions.{BreaksField, BreaksOrder, Holds, LacksAuthorityKey, takes_memory};

use picky_asn1_x509::Certificate;
use std::alloc::{AllocError, Allocator};
use x509_findings_memory::{has_unsorted, repeats};
use x509_findings_parts::{
    Feature, Known, NameFault, TextFault, are_other_names, differ, has_email, has_empty_set,
    has_even_exponent, has_even_modulus, has_low_exponent, has_low_modulus, has_short_modulus,
    have_without, is_before, is_below, is_early, is_longer, is_unnamed, name_has_text_fault,
    some_have, spells_salt,
};
use x509_rules::Rule;

/// What is wrong with the fields of a certificate, other than one of its extensions alone.
#[derive(Clone, Copy)]
pub enum FieldFault {
    /// The serial number isn't positive.
    LowSerial,
    /// The serial number has more than 20 octets.
    LongSerial,
    /// The algorithm in the signed part isn't the one beside the signature.
    OtherAlgorithm,
    /// The algorithm is RSASSA-PSS, with a salt length that is the default.
    SpelledSalt,
    /// The issuer has no names.
    NoIssuer,
    /// A set of the issuer's attributes is empty.
    EmptyIssuerSet,
    /// The period of validity ends before it begins.
    NoPeriod,
    /// It begins before 2050, in a GeneralizedTime.
    EarlyStart,
    /// It ends before 2050, in a GeneralizedTime.
    EarlyEnd,
    /// The subject has no names, and no critical extension has some.
    NoSubject,
    /// The subject has no names, and is an authority.
    NoAuthority,
    /// A set of the subject's attributes is empty.
    EmptySubjectSet,
    /// The subject has a mail address, and no extension has one.
    HiddenMailbox,
    /// The modulus of the key isn't positive.
    LowModulus,
    /// The modulus of the key is even.
    EvenModulus,
    /// The modulus of the key has fewer than 2,048 bits.
    ShortModulus,
    /// The exponent of the key is below 3.
    LowExponent,
    /// The exponent of the key is even.
    EvenExponent,
    /// The issuer has a unique identifier.
    IssuerId,
    /// The subject has a unique identifier.
    SubjectId,
    /// No extension has the identifier of the key that signed, though issuer and subject are two names.
    NoAuthorityKey,
    /// The subject has names, and others that are critical.
    NeedlessNames,
}

/// What is wrong with a certificate and takes memory to tell.
#[derive(Clone, Copy)]
pub enum OrderFault {
    /// The attributes of a set of the issuer aren't in the order of DER.
    UnsortedIssuer,
    /// The attributes of a set of the subject aren't in the order of DER.
    UnsortedSubject,
    /// Two extensions have one identifier.
    RepeatedExtension,
}

/// What a rule asks. It is broken where this holds.
#[derive(Clone, Copy)]
pub enum Condition {
    /// The fields have a fault.
    Field(FieldFault),
    /// A text of the issuer has a fault.
    Issuer(TextFault),
    /// A text of the subject has a fault.
    Subject(TextFault),
    /// An extension has a feature.
    Has(Feature),
    /// An extension has a feature, and none has another.
    HasWithout(Feature, Feature),
    /// What stands there isn't in order, or stands there twice.
    Order(OrderFault),
}

/// What a rule asks.
pub(crate) fn condition_of(rule: Rule) -> Condition
    ensures { result ≡ condition_of rule }
{
    // From tools/tables/rules.tsv.
    match rule {
        Rule::SerialNotPositive => Condition::Field(FieldFault::LowSerial),
        Rule::SerialTooLong => Condition::Field(FieldFault::LongSerial),
        Rule::AlgorithmsDiffer => Condition::Field(FieldFault::OtherAlgorithm),
        Rule::SaltLengthSpelled => Condition::Field(FieldFault::SpelledSalt),
        Rule::IssuerEmpty => Condition::Field(FieldFault::NoIssuer),
        Rule::IssuerSetEmpty => Condition::Field(FieldFault::EmptyIssuerSet),
        Rule::IssuerSetOrder => Condition::Order(OrderFault::UnsortedIssuer),
        Rule::IssuerTextEmpty => Condition::Issuer(TextFault::Empty),
        Rule::IssuerTextLong => Condition::Issuer(TextFault::Long),
        Rule::IssuerCountry => Condition::Issuer(TextFault::NoCountry),
        Rule::IssuerStringType => Condition::Issuer(TextFault::StringType),
        Rule::ValidityReversed => Condition::Field(FieldFault::NoPeriod),
        Rule::NotBeforeForm => Condition::Field(FieldFault::EarlyStart),
        Rule::NotAfterForm => Condition::Field(FieldFault::EarlyEnd),
        Rule::SubjectEmpty => Condition::Field(FieldFault::NoSubject),
        Rule::AuthorityUnnamed => Condition::Field(FieldFault::NoAuthority),
        Rule::SubjectSetEmpty => Condition::Field(FieldFault::EmptySubjectSet),
        Rule::SubjectSetOrder => Condition::Order(OrderFault::UnsortedSubject),
        Rule::SubjectTextEmpty => Condition::Subject(TextFault::Empty),
        Rule::SubjectTextLong => Condition::Subject(TextFault::Long),
        Rule::SubjectCountry => Condition::Subject(TextFault::NoCountry),
        Rule::SubjectStringType => Condition::Subject(TextFault::StringType),
        Rule::SubjectMailboxUnnamed => Condition::Field(FieldFault::HiddenMailbox),
        Rule::ModulusNotPositive => Condition::Field(FieldFault::LowModulus),
        Rule::ModulusEven => Condition::Field(FieldFault::EvenModulus),
        Rule::ModulusShort => Condition::Field(FieldFault::ShortModulus),
        Rule::ExponentLow => Condition::Field(FieldFault::LowExponent),
        Rule::ExponentEven => Condition::Field(FieldFault::EvenExponent),
        Rule::IssuerUniqueId => Condition::Field(FieldFault::IssuerId),
        Rule::SubjectUniqueId => Condition::Field(FieldFault::SubjectId),
        Rule::ExtensionRepeated => Condition::Order(OrderFault::RepeatedExtension),
        Rule::CriticalUnknown => Condition::Has(Feature::CriticalUnknown),
        Rule::AuthorityKeyCritical => Condition::Has(Feature::CriticalAuthorityKey),
        Rule::AuthorityKeyMissing => Condition::Field(FieldFault::NoAuthorityKey),
        Rule::AuthorityKeyPartial => Condition::Has(Feature::PartialAuthorityKey),
        Rule::SubjectKeyCritical => Condition::Has(Feature::CriticalSubjectKey),
        Rule::SubjectKeyMissing => Condition::HasWithout(Feature::Authority, Feature::SubjectKey),
        Rule::KeyUsageEmpty => Condition::Has(Feature::NoUsages),
        Rule::KeyUsagePadded => Condition::Has(Feature::UnsetUsage),
        Rule::KeyUsageNotCritical => Condition::Has(Feature::UncriticalUsage),
        Rule::SigningWithoutAuthority => {
            Condition::HasWithout(Feature::Signing, Feature::Authority)
        }
        Rule::AuthorityWithoutSigning => {
            Condition::HasWithout(Feature::Authority, Feature::Signing)
        }
        Rule::PolicyMappingsNotCritical => {
            Condition::Has(Feature::Uncritical(Known::PolicyMappings))
        }
        Rule::SubjectNamesEmpty => Condition::Has(Feature::NoSubjectNames),
        Rule::SubjectNamesCritical => Condition::Field(FieldFault::NeedlessNames),
        Rule::AlternativeNameEmpty => Condition::Has(Feature::FaultyName(NameFault::EmptyName)),
        Rule::AddressLength => Condition::Has(Feature::FaultyName(NameFault::OddAddress)),
        Rule::MailboxWithoutAt => Condition::Has(Feature::FaultyName(NameFault::NoMailbox)),
        Rule::HostName => Condition::Has(Feature::FaultyName(NameFault::NoHost)),
        Rule::UriWithoutScheme => Condition::Has(Feature::FaultyName(NameFault::NoScheme)),
        Rule::IssuerNamesEmpty => Condition::Has(Feature::NoIssuerNames),
        Rule::IssuerNamesCritical => Condition::Has(Feature::CriticalIssuerNames),
        Rule::DirectoryAttributesCritical => {
            Condition::Has(Feature::Critical(Known::SubjectDirectoryAttributes))
        }
        Rule::AuthorityNotCritical => {
            Condition::HasWithout(Feature::UncriticalAuthority, Feature::OtherUsage)
        }
        Rule::PathLengthIdle => Condition::Has(Feature::IdlePathLength),
        Rule::PathLengthWithoutSigning => {
            Condition::HasWithout(Feature::PathLength, Feature::Signing)
        }
        Rule::AuthorityDefaultSpelled => Condition::Has(Feature::SpelledDefault),
        Rule::NameConstraintsNotCritical => {
            Condition::Has(Feature::Uncritical(Known::NameConstraints))
        }
        Rule::NameConstraintsWithoutAuthority => {
            Condition::HasWithout(Feature::Has(Known::NameConstraints), Feature::Authority)
        }
        Rule::PolicyConstraintsNotCritical => {
            Condition::Has(Feature::Uncritical(Known::PolicyConstraints))
        }
        Rule::PurposesEmpty => Condition::Has(Feature::NoPurposes),
        Rule::AnyPurposeCritical => Condition::Has(Feature::CriticalAnyPurpose),
        Rule::RevocationPointsCritical => {
            Condition::Has(Feature::Critical(Known::CrlDistributionPoints))
        }
        Rule::AnyPolicyNotCritical => Condition::Has(Feature::Uncritical(Known::InhibitAnyPolicy)),
        Rule::FreshestListCritical => Condition::Has(Feature::Critical(Known::FreshestCrl)),
        Rule::AuthorityAccessCritical => {
            Condition::Has(Feature::Critical(Known::AuthorityInfoAccess))
        }
        Rule::SubjectAccessCritical => Condition::Has(Feature::Critical(Known::SubjectInfoAccess)),
    }
}

/// Whether no extension has the identifier of the key that signed, though issuer and subject are two names.
fn lacks_authority_key<A: Allocator>(certificate: &Certificate<A>) -> bool
    ensures { IsTrue result ↔ LacksAuthorityKey certificate.now }
{
    if some_have(certificate.extensions(), Feature::AuthorityKey) {
        return false;
    }
    let signed = &certificate.tbs_certificate;
    are_other_names(&signed.issuer, &signed.subject)
}

/// Whether the fields of a certificate have a fault.
fn breaks_field<A: Allocator>(fault: FieldFault, certificate: &Certificate<A>) -> bool
    ensures { IsTrue result ↔ BreaksField fault certificate.now }
{
    let signed = &certificate.tbs_certificate;
    let (subject, validity) = (&signed.subject, &signed.validity);
    let key = &signed.subject_public_key_info.subject_public_key;
    let all = certificate.extensions();
    match fault {
        FieldFault::LowSerial => is_below(&signed.serial_number, 1),
        FieldFault::LongSerial => is_longer(&signed.serial_number, 20),
        FieldFault::OtherAlgorithm => differ(&signed.signature, &certificate.signature_algorithm),
        FieldFault::SpelledSalt => spells_salt(&signed.signature),
        FieldFault::NoIssuer => is_unnamed(&signed.issuer),
        FieldFault::EmptyIssuerSet => has_empty_set(&signed.issuer),
        FieldFault::NoPeriod => is_before(&validity.not_after, &validity.not_before),
        FieldFault::EarlyStart => is_early(&validity.not_before),
        FieldFault::EarlyEnd => is_early(&validity.not_after),
        FieldFault::NoSubject => is_unnamed(subject) && !some_have(all, Feature::CriticalNames),
        FieldFault::NoAuthority => is_unnamed(subject) && some_have(all, Feature::Authority),
        FieldFault::EmptySubjectSet => has_empty_set(subject),
        FieldFault::HiddenMailbox => has_email(subject) && !some_have(all, Feature::Mailbox),
        FieldFault::LowModulus => has_low_modulus(key),
        FieldFault::EvenModulus => has_even_modulus(key),
        FieldFault::ShortModulus => has_short_modulus(key),
        FieldFault::LowExponent => has_low_exponent(key),
        FieldFault::EvenExponent => has_even_exponent(key),
        FieldFault::IssuerId => signed.issuer_unique_id.is_some(),
        FieldFault::SubjectId => signed.subject_unique_id.is_some(),
        FieldFault::NoAuthorityKey => lacks_authority_key(certificate),
        FieldFault::NeedlessNames => !is_unnamed(subject) && some_have(all, Feature::CriticalNames),
    }
}

/// Whether something isn't in order, or stands there twice.
fn breaks_order<A: Allocator, B: Allocator + Copy>(
    alloc: B,
    fault: OrderFault,
    certificate: &Certificate<A>,
) -> Result<bool, AllocError>
    ensures { IfOk result (λ told. IsTrue told ↔ BreaksOrder fault certificate.now) }
{
    let signed = &certificate.tbs_certificate;
    match fault {
        OrderFault::UnsortedIssuer => has_unsorted(alloc, &signed.issuer),
        OrderFault::UnsortedSubject => has_unsorted(alloc, &signed.subject),
        OrderFault::RepeatedExtension => repeats(alloc, certificate.extensions()),
    }
}

/// Whether what a rule asks holds of a certificate.
pub(crate) fn holds<A: Allocator, B: Allocator + Copy>(
    alloc: B,
    condition: Condition,
    certificate: &Certificate<A>,
) -> Result<bool, AllocError>
    ensures told { IfOk result (λ told. IsTrue told ↔ Holds condition certificate.now) }
    ensures free { takes_memory condition ≡ false → IsOk result }
{
    let signed = &certificate.tbs_certificate;
    match condition {
        Condition::Field(fault) => Ok(breaks_field(fault, certificate)),
        Condition::Issuer(fault) => Ok(name_has_text_fault(&signed.issuer, fault)),
        Condition::Subject(fault) => Ok(name_has_text_fault(&signed.subject, fault)),
        Condition::Has(feature) => Ok(some_have(certificate.extensions(), feature)),
        Condition::HasWithout(feature, other) => {
            Ok(have_without(certificate.extensions(), feature, other))
        }
        Condition::Order(fault) => breaks_order(alloc, fault, certificate),
    }
}
