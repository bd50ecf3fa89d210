//! The rules.

ghost use Rattle.std.specs.Prelude.{◌≡◌, IfSome, IfNone};
ghost use Rattle.x509_rules.specs.Rules.{part_of, rule_name};

use crate::part::Part;

/// What may be wrong with a certificate.
#[derive(Clone, Copy, Debug, PartialEq, Eq)]
pub enum Rule {
    /// RFC 5280, 4.1.2.2: serial number isn't positive.
    SerialNotPositive,
    /// RFC 5280, 4.1.2.2: serial number has more than 20 octets.
    SerialTooLong,
    /// RFC 5280, 4.1.1.2: the algorithm in the signed part isn't the one beside the signature.
    AlgorithmsDiffer,
    /// X.690, 11.5: a salt length of 20 is encoded, though it is the default.
    SaltLengthSpelled,
    /// RFC 5280, 4.1.2.4: issuer is empty.
    IssuerEmpty,
    /// RFC 5280, 4.1.2.4: issuer has a set without attributes.
    IssuerSetEmpty,
    /// X.690, 11.6: issuer has a set whose attributes aren't in order.
    IssuerSetOrder,
    /// RFC 5280, A.1: issuer has a text without characters.
    IssuerTextEmpty,
    /// RFC 5280, A.1: issuer has a text that is longer than its attribute may be.
    IssuerTextLong,
    /// RFC 5280, A.1: countryName in issuer isn't a PrintableString of two letters.
    IssuerCountry,
    /// RFC 5280, 4.1.2.4: issuer has a string type that isn't for new names.
    IssuerStringType,
    /// RFC 5280, 4.1.2.5: notAfter is before notBefore.
    ValidityReversed,
    /// RFC 5280, 4.1.2.5: notBefore is a GeneralizedTime before 2050.
    NotBeforeForm,
    /// RFC 5280, 4.1.2.5: notAfter is a GeneralizedTime before 2050.
    NotAfterForm,
    /// RFC 5280, 4.1.2.6: subject is empty, and no critical subjectAltName names it.
    SubjectEmpty,
    /// RFC 5280, 4.1.2.6: subject of an authority is empty.
    AuthorityUnnamed,
    /// RFC 5280, 4.1.2.4: subject has a set without attributes.
    SubjectSetEmpty,
    /// X.690, 11.6: subject has a set whose attributes aren't in order.
    SubjectSetOrder,
    /// RFC 5280, A.1: subject has a text without characters.
    SubjectTextEmpty,
    /// RFC 5280, A.1: subject has a text that is longer than its attribute may be.
    SubjectTextLong,
    /// RFC 5280, A.1: countryName in subject isn't a PrintableString of two letters.
    SubjectCountry,
    /// RFC 5280, 4.1.2.4: subject has a string type that isn't for new names.
    SubjectStringType,
    /// RFC 5280, 4.1.2.6: subject has an emailAddress, but no rfc822Name is among the alternative names.
    SubjectMailboxUnnamed,
    /// RFC 8017, 3.1: RSA modulus isn't positive.
    ModulusNotPositive,
    /// RFC 8017, 3.1: RSA modulus is even.
    ModulusEven,
    /// NIST SP 800-131A, 3: RSA modulus has fewer than 2048 bits.
    ModulusShort,
    /// RFC 8017, 3.1: RSA exponent is below 3.
    ExponentLow,
    /// RFC 8017, 3.1: RSA exponent is even.
    ExponentEven,
    /// RFC 5280, 4.1.2.8: issuer has a unique identifier.
    IssuerUniqueId,
    /// RFC 5280, 4.1.2.8: subject has a unique identifier.
    SubjectUniqueId,
    /// RFC 5280, 4.2: an extension stands twice.
    ExtensionRepeated,
    /// RFC 5280, 4.2: an extension is critical that RFC 5280 doesn't define.
    CriticalUnknown,
    /// RFC 5280, 4.2.1.1: authority key identifier is critical.
    AuthorityKeyCritical,
    /// RFC 5280, 4.2.1.1: no authority key identifier has a keyIdentifier, though issuer and subject differ.
    AuthorityKeyMissing,
    /// RFC 5280, A.2: authority key identifier has one of authorityCertIssuer and authorityCertSerialNumber without the
    /// other.
    AuthorityKeyPartial,
    /// RFC 5280, 4.2.1.2: subject key identifier is critical.
    SubjectKeyCritical,
    /// RFC 5280, 4.2.1.2: authority has no subject key identifier.
    SubjectKeyMissing,
    /// RFC 5280, 4.2.1.3: key usage allows nothing.
    KeyUsageEmpty,
    /// X.690, 11.2.2: key usage has trailing zero bits.
    KeyUsagePadded,
    /// RFC 5280, 4.2.1.3: key usage isn't critical.
    KeyUsageNotCritical,
    /// RFC 5280, 4.2.1.9: key may sign certificates, but the subject isn't an authority.
    SigningWithoutAuthority,
    /// RFC 5280, 4.2.1.3: subject is an authority, but no key usage lets the key sign certificates.
    AuthorityWithoutSigning,
    /// RFC 5280, 4.2.1.5: policy mappings aren't critical.
    PolicyMappingsNotCritical,
    /// RFC 5280, 4.2.1.6: subjectAltName has no names.
    SubjectNamesEmpty,
    /// RFC 5280, 4.2.1.6: subjectAltName is critical, though the subject isn't empty.
    SubjectNamesCritical,
    /// RFC 5280, 4.2.1.6: an alternative name is empty.
    AlternativeNameEmpty,
    /// RFC 5280, 4.2.1.6: an iPAddress has neither four nor sixteen octets.
    AddressLength,
    /// RFC 5280, 4.2.1.6: an rfc822Name has no @.
    MailboxWithoutAt,
    /// RFC 5280, 4.2.1.6: a dNSName isn't the name of a host.
    HostName,
    /// RFC 5280, 4.2.1.6: a uniformResourceIdentifier has no scheme.
    UriWithoutScheme,
    /// RFC 5280, 4.2.1.7: issuerAltName has no names.
    IssuerNamesEmpty,
    /// RFC 5280, 4.2.1.7: issuerAltName is critical.
    IssuerNamesCritical,
    /// RFC 5280, 4.2.1.8: subjectDirectoryAttributes is critical.
    DirectoryAttributesCritical,
    /// RFC 5280, 4.2.1.9: basic constraints of an authority that may sign certificates aren't critical.
    AuthorityNotCritical,
    /// RFC 5280, 4.2.1.9: path length is limited, but the subject isn't an authority.
    PathLengthIdle,
    /// RFC 5280, 4.2.1.9: path length is limited, but no key usage lets the key sign certificates.
    PathLengthWithoutSigning,
    /// X.690, 11.5: cA FALSE is encoded, though it is the default.
    AuthorityDefaultSpelled,
    /// RFC 5280, 4.2.1.10: name constraints aren't critical.
    NameConstraintsNotCritical,
    /// RFC 5280, 4.2.1.10: name constraints are there, but the subject isn't an authority.
    NameConstraintsWithoutAuthority,
    /// RFC 5280, 4.2.1.11: policy constraints aren't critical.
    PolicyConstraintsNotCritical,
    /// RFC 5280, 4.2.1.12: extKeyUsage has no purposes.
    PurposesEmpty,
    /// RFC 5280, 4.2.1.12: extKeyUsage has anyExtendedKeyUsage, and is critical.
    AnyPurposeCritical,
    /// RFC 5280, 4.2.1.13: cRLDistributionPoints is critical.
    RevocationPointsCritical,
    /// RFC 5280, 4.2.1.14: inhibitAnyPolicy isn't critical.
    AnyPolicyNotCritical,
    /// RFC 5280, 4.2.1.15: freshestCRL is critical.
    FreshestListCritical,
    /// RFC 5280, 4.2.2.1: authorityInfoAccess is critical.
    AuthorityAccessCritical,
    /// RFC 5280, 4.2.2.2: subjectInfoAccess is critical.
    SubjectAccessCritical,
}

impl Rule {
    /// All rules, in the order of the places that they name.
    pub const ALL: [Rule; 67] = [
        Rule::SerialNotPositive,
        Rule::SerialTooLong,
        Rule::AlgorithmsDiffer,
        Rule::SaltLengthSpelled,
        Rule::IssuerEmpty,
        Rule::IssuerSetEmpty,
        Rule::IssuerSetOrder,
        Rule::IssuerTextEmpty,
        Rule::IssuerTextLong,
        Rule::IssuerCountry,
        Rule::IssuerStringType,
        Rule::ValidityReversed,
        Rule::NotBeforeForm,
        Rule::NotAfterForm,
        Rule::SubjectEmpty,
        Rule::AuthorityUnnamed,
        Rule::SubjectSetEmpty,
        Rule::SubjectSetOrder,
        Rule::SubjectTextEmpty,
        Rule::SubjectTextLong,
        Rule::SubjectCountry,
        Rule::SubjectStringType,
        Rule::SubjectMailboxUnnamed,
        Rule::ModulusNotPositive,
        Rule::ModulusEven,
        Rule::ModulusShort,
        Rule::ExponentLow,
        Rule::ExponentEven,
        Rule::IssuerUniqueId,
        Rule::SubjectUniqueId,
        Rule::ExtensionRepeated,
        Rule::CriticalUnknown,
        Rule::AuthorityKeyCritical,
        Rule::AuthorityKeyMissing,
        Rule::AuthorityKeyPartial,
        Rule::SubjectKeyCritical,
        Rule::SubjectKeyMissing,
        Rule::KeyUsageEmpty,
        Rule::KeyUsagePadded,
        Rule::KeyUsageNotCritical,
        Rule::SigningWithoutAuthority,
        Rule::AuthorityWithoutSigning,
        Rule::PolicyMappingsNotCritical,
        Rule::SubjectNamesEmpty,
        Rule::SubjectNamesCritical,
        Rule::AlternativeNameEmpty,
        Rule::AddressLength,
        Rule::MailboxWithoutAt,
        Rule::HostName,
        Rule::UriWithoutScheme,
        Rule::IssuerNamesEmpty,
        Rule::IssuerNamesCritical,
        Rule::DirectoryAttributesCritical,
        Rule::AuthorityNotCritical,
        Rule::PathLengthIdle,
        Rule::PathLengthWithoutSigning,
        Rule::AuthorityDefaultSpelled,
        Rule::NameConstraintsNotCritical,
        Rule::NameConstraintsWithoutAuthority,
        Rule::PolicyConstraintsNotCritical,
        Rule::PurposesEmpty,
        Rule::AnyPurposeCritical,
        Rule::RevocationPointsCritical,
        Rule::AnyPolicyNotCritical,
        Rule::FreshestListCritical,
        Rule::AuthorityAccessCritical,
        Rule::SubjectAccessCritical,
    ];

    /// The name, as `--rule` takes it.
    pub fn name(self) -> &'static str
        ensures { result.now ≡ rule_name self }
    {
        match self {
            Rule::SerialNotPositive => "serial-not-positive",
            Rule::SerialTooLong => "serial-too-long",
            Rule::AlgorithmsDiffer => "algorithms-differ",
            Rule::SaltLengthSpelled => "salt-length-spelled",
            Rule::IssuerEmpty => "issuer-empty",
            Rule::IssuerSetEmpty => "issuer-set-empty",
            Rule::IssuerSetOrder => "issuer-set-order",
            Rule::IssuerTextEmpty => "issuer-text-empty",
            Rule::IssuerTextLong => "issuer-text-long",
            Rule::IssuerCountry => "issuer-country",
            Rule::IssuerStringType => "issuer-string-type",
            Rule::ValidityReversed => "validity-reversed",
            Rule::NotBeforeForm => "not-before-form",
            Rule::NotAfterForm => "not-after-form",
            Rule::SubjectEmpty => "subject-empty",
            Rule::AuthorityUnnamed => "authority-unnamed",
            Rule::SubjectSetEmpty => "subject-set-empty",
            Rule::SubjectSetOrder => "subject-set-order",
            Rule::SubjectTextEmpty => "subject-text-empty",
            Rule::SubjectTextLong => "subject-text-long",
            Rule::SubjectCountry => "subject-country",
            Rule::SubjectStringType => "subject-string-type",
            Rule::SubjectMailboxUnnamed => "subject-mailbox-unnamed",
            Rule::ModulusNotPositive => "modulus-not-positive",
            Rule::ModulusEven => "modulus-even",
            Rule::ModulusShort => "modulus-short",
            Rule::ExponentLow => "exponent-low",
            Rule::ExponentEven => "exponent-even",
            Rule::IssuerUniqueId => "issuer-unique-id",
            Rule::SubjectUniqueId => "subject-unique-id",
            Rule::ExtensionRepeated => "extension-repeated",
            Rule::CriticalUnknown => "critical-unknown",
            Rule::AuthorityKeyCritical => "authority-key-critical",
            Rule::AuthorityKeyMissing => "authority-key-missing",
            Rule::AuthorityKeyPartial => "authority-key-partial",
            Rule::SubjectKeyCritical => "subject-key-critical",
            Rule::SubjectKeyMissing => "subject-key-missing",
            Rule::KeyUsageEmpty => "key-usage-empty",
            Rule::KeyUsagePadded => "key-usage-padded",
            Rule::KeyUsageNotCritical => "key-usage-not-critical",
            Rule::SigningWithoutAuthority => "signing-without-authority",
            Rule::AuthorityWithoutSigning => "authority-without-signing",
            Rule::PolicyMappingsNotCritical => "policy-mappings-not-critical",
            Rule::SubjectNamesEmpty => "subject-names-empty",
            Rule::SubjectNamesCritical => "subject-names-critical",
            Rule::AlternativeNameEmpty => "alternative-name-empty",
            Rule::AddressLength => "address-length",
            Rule::MailboxWithoutAt => "mailbox-without-at",
            Rule::HostName => "host-name",
            Rule::UriWithoutScheme => "uri-without-scheme",
            Rule::IssuerNamesEmpty => "issuer-names-empty",
            Rule::IssuerNamesCritical => "issuer-names-critical",
            Rule::DirectoryAttributesCritical => "directory-attributes-critical",
            Rule::AuthorityNotCritical => "authority-not-critical",
            Rule::PathLengthIdle => "path-length-idle",
            Rule::PathLengthWithoutSigning => "path-length-without-signing",
            Rule::AuthorityDefaultSpelled => "authority-default-spelled",
            Rule::NameConstraintsNotCritical => "name-constraints-not-critical",
            Rule::NameConstraintsWithoutAuthority => "name-constraints-without-authority",
            Rule::PolicyConstraintsNotCritical => "policy-constraints-not-critical",
            Rule::PurposesEmpty => "purposes-empty",
            Rule::AnyPurposeCritical => "any-purpose-critical",
            Rule::RevocationPointsCritical => "revocation-points-critical",
            Rule::AnyPolicyNotCritical => "any-policy-not-critical",
            Rule::FreshestListCritical => "freshest-list-critical",
            Rule::AuthorityAccessCritical => "authority-access-critical",
            Rule::SubjectAccessCritical => "subject-access-critical",
        }
    }

    /// The rule of a name, if it is one of theirs.
    pub fn from_name(name: &str) -> Option<Rule>
        ensures some { IfSome result (λ rule. name.now ≡ rule_name rule) }
        ensures none { IfNone result ((rule : Rule) → name.now ≡ rule_name rule → ⊥) }
    {
        match name {
            "serial-not-positive" => Some(Rule::SerialNotPositive),
            "serial-too-long" => Some(Rule::SerialTooLong),
            "algorithms-differ" => Some(Rule::AlgorithmsDiffer),
            "salt-length-spelled" => Some(Rule::SaltLengthSpelled),
            "issuer-empty" => Some(Rule::IssuerEmpty),
            "issuer-set-empty" => Some(Rule::IssuerSetEmpty),
            "issuer-set-order" => Some(Rule::IssuerSetOrder),
            "issuer-text-empty" => Some(Rule::IssuerTextEmpty),
            "issuer-text-long" => Some(Rule::IssuerTextLong),
            "issuer-country" => Some(Rule::IssuerCountry),
            "issuer-string-type" => Some(Rule::IssuerStringType),
            "validity-reversed" => Some(Rule::ValidityReversed),
            "not-before-form" => Some(Rule::NotBeforeForm),
            "not-after-form" => Some(Rule::NotAfterForm),
            "subject-empty" => Some(Rule::SubjectEmpty),
            "authority-unnamed" => Some(Rule::AuthorityUnnamed),
            "subject-set-empty" => Some(Rule::SubjectSetEmpty),
            "subject-set-order" => Some(Rule::SubjectSetOrder),
            "subject-text-empty" => Some(Rule::SubjectTextEmpty),
            "subject-text-long" => Some(Rule::SubjectTextLong),
            "subject-country" => Some(Rule::SubjectCountry),
            "subject-string-type" => Some(Rule::SubjectStringType),
            "subject-mailbox-unnamed" => Some(Rule::SubjectMailboxUnnamed),
            "modulus-not-positive" => Some(Rule::ModulusNotPositive),
            "modulus-even" => Some(Rule::ModulusEven),
            "modulus-short" => Some(Rule::ModulusShort),
            "exponent-low" => Some(Rule::ExponentLow),
            "exponent-even" => Some(Rule::ExponentEven),
            "issuer-unique-id" => Some(Rule::IssuerUniqueId),
            "subject-unique-id" => Some(Rule::SubjectUniqueId),
            "extension-repeated" => Some(Rule::ExtensionRepeated),
            "critical-unknown" => Some(Rule::CriticalUnknown),
            "authority-key-critical" => Some(Rule::AuthorityKeyCritical),
            "authority-key-missing" => Some(Rule::AuthorityKeyMissing),
            "authority-key-partial" => Some(Rule::AuthorityKeyPartial),
            "subject-key-critical" => Some(Rule::SubjectKeyCritical),
            "subject-key-missing" => Some(Rule::SubjectKeyMissing),
            "key-usage-empty" => Some(Rule::KeyUsageEmpty),
            "key-usage-padded" => Some(Rule::KeyUsagePadded),
            "key-usage-not-critical" => Some(Rule::KeyUsageNotCritical),
            "signing-without-authority" => Some(Rule::SigningWithoutAuthority),
            "authority-without-signing" => Some(Rule::AuthorityWithoutSigning),
            "policy-mappings-not-critical" => Some(Rule::PolicyMappingsNotCritical),
            "subject-names-empty" => Some(Rule::SubjectNamesEmpty),
            "subject-names-critical" => Some(Rule::SubjectNamesCritical),
            "alternative-name-empty" => Some(Rule::AlternativeNameEmpty),
            "address-length" => Some(Rule::AddressLength),
            "mailbox-without-at" => Some(Rule::MailboxWithoutAt),
            "host-name" => Some(Rule::HostName),
            "uri-without-scheme" => Some(Rule::UriWithoutScheme),
            "issuer-names-empty" => Some(Rule::IssuerNamesEmpty),
            "issuer-names-critical" => Some(Rule::IssuerNamesCritical),
            "directory-attributes-critical" => Some(Rule::DirectoryAttributesCritical),
            "authority-not-critical" => Some(Rule::AuthorityNotCritical),
            "path-length-idle" => Some(Rule::PathLengthIdle),
            "path-length-without-signing" => Some(Rule::PathLengthWithoutSigning),
            "authority-default-spelled" => Some(Rule::AuthorityDefaultSpelled),
            "name-constraints-not-critical" => Some(Rule::NameConstraintsNotCritical),
            "name-constraints-without-authority" => Some(Rule::NameConstraintsWithoutAuthority),
            "policy-constraints-not-critical" => Some(Rule::PolicyConstraintsNotCritical),
            "purposes-empty" => Some(Rule::PurposesEmpty),
            "any-purpose-critical" => Some(Rule::AnyPurposeCritical),
            "revocation-points-critical" => Some(Rule::RevocationPointsCritical),
            "any-policy-not-critical" => Some(Rule::AnyPolicyNotCritical),
            "freshest-list-critical" => Some(Rule::FreshestListCritical),
            "authority-access-critical" => Some(Rule::AuthorityAccessCritical),
            "subject-access-critical" => Some(Rule::SubjectAccessCritical),
            _ => None,
        }
    }

    /// The part of a certificate that it is about.
    pub fn part(self) -> Part
        ensures { result ≡ part_of self }
    {
        match self {
            Rule::SerialNotPositive => Part::SerialNumber,
            Rule::SerialTooLong => Part::SerialNumber,
            Rule::AlgorithmsDiffer => Part::Signature,
            Rule::SaltLengthSpelled => Part::Signature,
            Rule::IssuerEmpty => Part::Issuer,
            Rule::IssuerSetEmpty => Part::Issuer,
            Rule::IssuerSetOrder => Part::Issuer,
            Rule::IssuerTextEmpty => Part::Issuer,
            Rule::IssuerTextLong => Part::Issuer,
            Rule::IssuerCountry => Part::Issuer,
            Rule::IssuerStringType => Part::Issuer,
            Rule::ValidityReversed => Part::Validity,
            Rule::NotBeforeForm => Part::Validity,
            Rule::NotAfterForm => Part::Validity,
            Rule::SubjectEmpty => Part::Subject,
            Rule::AuthorityUnnamed => Part::Subject,
            Rule::SubjectSetEmpty => Part::Subject,
            Rule::SubjectSetOrder => Part::Subject,
            Rule::SubjectTextEmpty => Part::Subject,
            Rule::SubjectTextLong => Part::Subject,
            Rule::SubjectCountry => Part::Subject,
            Rule::SubjectStringType => Part::Subject,
            Rule::SubjectMailboxUnnamed => Part::Subject,
            Rule::ModulusNotPositive => Part::SubjectPublicKeyInfo,
            Rule::ModulusEven => Part::SubjectPublicKeyInfo,
            Rule::ModulusShort => Part::SubjectPublicKeyInfo,
            Rule::ExponentLow => Part::SubjectPublicKeyInfo,
            Rule::ExponentEven => Part::SubjectPublicKeyInfo,
            Rule::IssuerUniqueId => Part::IssuerUniqueId,
            Rule::SubjectUniqueId => Part::SubjectUniqueId,
            Rule::ExtensionRepeated => Part::Extensions,
            Rule::CriticalUnknown => Part::Extensions,
            Rule::AuthorityKeyCritical => Part::Extensions,
            Rule::AuthorityKeyMissing => Part::Extensions,
            Rule::AuthorityKeyPartial => Part::Extensions,
            Rule::SubjectKeyCritical => Part::Extensions,
            Rule::SubjectKeyMissing => Part::Extensions,
            Rule::KeyUsageEmpty => Part::Extensions,
            Rule::KeyUsagePadded => Part::Extensions,
            Rule::KeyUsageNotCritical => Part::Extensions,
            Rule::SigningWithoutAuthority => Part::Extensions,
            Rule::AuthorityWithoutSigning => Part::Extensions,
            Rule::PolicyMappingsNotCritical => Part::Extensions,
            Rule::SubjectNamesEmpty => Part::Extensions,
            Rule::SubjectNamesCritical => Part::Extensions,
            Rule::AlternativeNameEmpty => Part::Extensions,
            Rule::AddressLength => Part::Extensions,
            Rule::MailboxWithoutAt => Part::Extensions,
            Rule::HostName => Part::Extensions,
            Rule::UriWithoutScheme => Part::Extensions,
            Rule::IssuerNamesEmpty => Part::Extensions,
            Rule::IssuerNamesCritical => Part::Extensions,
            Rule::DirectoryAttributesCritical => Part::Extensions,
            Rule::AuthorityNotCritical => Part::Extensions,
            Rule::PathLengthIdle => Part::Extensions,
            Rule::PathLengthWithoutSigning => Part::Extensions,
            Rule::AuthorityDefaultSpelled => Part::Extensions,
            Rule::NameConstraintsNotCritical => Part::Extensions,
            Rule::NameConstraintsWithoutAuthority => Part::Extensions,
            Rule::PolicyConstraintsNotCritical => Part::Extensions,
            Rule::PurposesEmpty => Part::Extensions,
            Rule::AnyPurposeCritical => Part::Extensions,
            Rule::RevocationPointsCritical => Part::Extensions,
            Rule::AnyPolicyNotCritical => Part::Extensions,
            Rule::FreshestListCritical => Part::Extensions,
            Rule::AuthorityAccessCritical => Part::Extensions,
            Rule::SubjectAccessCritical => Part::Extensions,
        }
    }
}
