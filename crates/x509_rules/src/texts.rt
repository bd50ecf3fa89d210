//! What is wrong where a rule is broken.

// From tools/tables/rules.tsv.
pub(crate) const SERIAL_NOT_POSITIVE: &str = "serial number isn't positive";

pub(crate) const SERIAL_TOO_LONG: &str = "serial number has more than 20 octets";

pub(crate) const ALGORITHMS_DIFFER: &str =
    "the algorithm in the signed part isn't the one beside the signature";

pub(crate) const SALT_LENGTH_SPELLED: &str =
    "a salt length of 20 is encoded, though it is the default";

pub(crate) const ISSUER_EMPTY: &str = "issuer is empty";

pub(crate) const ISSUER_SET_EMPTY: &str = "issuer has a set without attributes";

pub(crate) const ISSUER_SET_ORDER: &str = "issuer has a set whose attributes aren't in order";

pub(crate) const ISSUER_TEXT_EMPTY: &str = "issuer has a text without characters";

pub(crate) const ISSUER_TEXT_LONG: &str =
    "issuer has a text that is longer than its attribute may be";

pub(crate) const ISSUER_COUNTRY: &str =
    "countryName in issuer isn't a PrintableString of two letters";

pub(crate) const ISSUER_STRING_TYPE: &str = "issuer has a string type that isn't for new names";

pub(crate) const VALIDITY_REVERSED: &str = "notAfter is before notBefore";

pub(crate) const NOT_BEFORE_FORM: &str = "notBefore is a GeneralizedTime before 2050";

pub(crate) const NOT_AFTER_FORM: &str = "notAfter is a GeneralizedTime before 2050";

pub(crate) const SUBJECT_EMPTY: &str = "subject is empty, and no critical subjectAltName names it";

pub(crate) const AUTHORITY_UNNAMED: &str = "subject of an authority is empty";

pub(crate) const SUBJECT_SET_EMPTY: &str = "subject has a set without attributes";

pub(crate) const SUBJECT_SET_ORDER: &str = "subject has a set whose attributes aren't in order";

pub(crate) const SUBJECT_TEXT_EMPTY: &str = "subject has a text without characters";

pub(crate) const SUBJECT_TEXT_LONG: &str =
    "subject has a text that is longer than its attribute may be";

pub(crate) const SUBJECT_COUNTRY: &str =
    "countryName in subject isn't a PrintableString of two letters";

pub(crate) const SUBJECT_STRING_TYPE: &str = "subject has a string type that isn't for new names";

pub(crate) const SUBJECT_MAILBOX_UNNAMED: &str =
    "subject has an emailAddress, but no rfc822Name is among the alternative names";

pub(crate) const MODULUS_NOT_POSITIVE: &str = "RSA modulus isn't positive";

pub(crate) const MODULUS_EVEN: &str = "RSA modulus is even";

pub(crate) const MODULUS_SHORT: &str = "RSA modulus has fewer than 2048 bits";

pub(crate) const EXPONENT_LOW: &str = "RSA exponent is below 3";

pub(crate) const EXPONENT_EVEN: &str = "RSA exponent is even";

pub(crate) const ISSUER_UNIQUE_ID: &str = "issuer has a unique identifier";

pub(crate) const SUBJECT_UNIQUE_ID: &str = "subject has a unique identifier";

pub(crate) const EXTENSION_REPEATED: &str = "an extension stands twice";

pub(crate) const CRITICAL_UNKNOWN: &str = "an extension is critical that RFC 5280 doesn't define";

pub(crate) const AUTHORITY_KEY_CRITICAL: &str = "authority key identifier is critical";

pub(crate) const AUTHORITY_KEY_MISSING: &str =
    "no authority key identifier has a keyIdentifier, though issuer and subject differ";

pub(crate) const AUTHORITY_KEY_PARTIAL: &str =
    "authority key identifier has one of authorityCertIssuer and authorityCertSerialNumber without the other";

pub(crate) const SUBJECT_KEY_CRITICAL: &str = "subject key identifier is critical";

pub(crate) const SUBJECT_KEY_MISSING: &str = "authority has no subject key identifier";

pub(crate) const KEY_USAGE_EMPTY: &str = "key usage allows nothing";

pub(crate) const KEY_USAGE_PADDED: &str = "key usage has trailing zero bits";

pub(crate) const KEY_USAGE_NOT_CRITICAL: &str = "key usage isn't critical";

pub(crate) const SIGNING_WITHOUT_AUTHORITY: &str =
    "key may sign certificates, but the subject isn't an authority";

pub(crate) const AUTHORITY_WITHOUT_SIGNING: &str =
    "subject is an authority, but no key usage lets the key sign certificates";

pub(crate) const POLICY_MAPPINGS_NOT_CRITICAL: &str = "policy mappings aren't critical";

pub(crate) const SUBJECT_NAMES_EMPTY: &str = "subjectAltName has no names";

pub(crate) const SUBJECT_NAMES_CRITICAL: &str =
    "subjectAltName is critical, though the subject isn't empty";

pub(crate) const ALTERNATIVE_NAME_EMPTY: &str = "an alternative name is empty";

pub(crate) const ADDRESS_LENGTH: &str = "an iPAddress has neither four nor sixteen octets";

pub(crate) const MAILBOX_WITHOUT_AT: &str = "an rfc822Name has no @";

pub(crate) const HOST_NAME: &str = "a dNSName isn't the name of a host";

pub(crate) const URI_WITHOUT_SCHEME: &str = "a uniformResourceIdentifier has no scheme";

pub(crate) const ISSUER_NAMES_EMPTY: &str = "issuerAltName has no names";

pub(crate) const ISSUER_NAMES_CRITICAL: &str = "issuerAltName is critical";

pub(crate) const DIRECTORY_ATTRIBUTES_CRITICAL: &str = "subjectDirectoryAttributes is critical";

pub(crate) const AUTHORITY_NOT_CRITICAL: &str =
    "basic constraints of an authority that may sign certificates aren't critical";

pub(crate) const PATH_LENGTH_IDLE: &str =
    "path length is limited, but the subject isn't an authority";

pub(crate) const PATH_LENGTH_WITHOUT_SIGNING: &str =
    "path length is limited, but no key usage lets the key sign certificates";

pub(crate) const AUTHORITY_DEFAULT_SPELLED: &str = "cA FALSE is encoded, though it is the default";

pub(crate) const NAME_CONSTRAINTS_NOT_CRITICAL: &str = "name constraints aren't critical";

pub(crate) const NAME_CONSTRAINTS_WITHOUT_AUTHORITY: &str =
    "name constraints are there, but the subject isn't an authority";

pub(crate) const POLICY_CONSTRAINTS_NOT_CRITICAL: &str = "policy constraints aren't critical";

pub(crate) const PURPOSES_EMPTY: &str = "extKeyUsage has no purposes";

pub(crate) const ANY_PURPOSE_CRITICAL: &str =
    "extKeyUsage has anyExtendedKeyUsage, and is critical";

pub(crate) const REVOCATION_POINTS_CRITICAL: &str = "cRLDistributionPoints is critical";

pub(crate) const ANY_POLICY_NOT_CRITICAL: &str = "inhibitAnyPolicy isn't critical";

pub(crate) const FRESHEST_LIST_CRITICAL: &str = "freshestCRL is critical";

pub(crate) const AUTHORITY_ACCESS_CRITICAL: &str = "authorityInfoAccess is critical";

pub(crate) const SUBJECT_ACCESS_CRITICAL: &str = "subjectInfoAccess is critical";

// Until here.
