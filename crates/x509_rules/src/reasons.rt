//! Why the rules matter, in a sentence each.

// From tools/tables/rules.tsv.
pub(crate) const SERIAL_NOT_POSITIVE: &str =
    "Programs print such numbers in different ways, so that entries of revocation lists may miss the certificate.";

pub(crate) const SERIAL_TOO_LONG: &str =
    "Programs need not read longer ones, and many cut or refuse them.";

pub(crate) const ALGORITHMS_DIFFER: &str =
    "The one beside the signature isn't signed, so anybody can change it.";

pub(crate) const SALT_LENGTH_SPELLED: &str =
    "One value has two encodings, so that the certificate isn't in DER.";

pub(crate) const ISSUER_EMPTY: &str = "The issuer's own certificate is looked for by this name.";

pub(crate) const ISSUER_SET_EMPTY: &str =
    "A set has at least one, and some programs refuse an empty one.";

pub(crate) const ISSUER_SET_ORDER: &str =
    "Such a name has several encodings, so that the certificate isn't in DER.";

pub(crate) const ISSUER_TEXT_EMPTY: &str =
    "A text has at least one, and programs compare such names in different ways.";

pub(crate) const ISSUER_TEXT_LONG: &str = "Programs may cut such a text or refuse it.";

pub(crate) const ISSUER_COUNTRY: &str =
    "It is no code of a country (ISO 3166), which is what policies look for.";

pub(crate) const ISSUER_STRING_TYPE: &str =
    "Programs compare texts of other string types in different ways, or not at all.";

pub(crate) const VALIDITY_REVERSED: &str = "The certificate is never valid.";

pub(crate) const NOT_BEFORE_FORM: &str =
    "From 1950 to 2049 a time has one form only, UTCTime, and some programs refuse the other.";

pub(crate) const NOT_AFTER_FORM: &str =
    "From 1950 to 2049 a time has one form only, UTCTime, and some programs refuse the other.";

pub(crate) const SUBJECT_EMPTY: &str =
    "A program that doesn't know subjectAltName doesn't know whose key it is.";

pub(crate) const AUTHORITY_UNNAMED: &str = "Certificates that it issues name it as their issuer.";

pub(crate) const SUBJECT_SET_EMPTY: &str =
    "A set has at least one, and some programs refuse an empty one.";

pub(crate) const SUBJECT_SET_ORDER: &str =
    "Such a name has several encodings, so that the certificate isn't in DER.";

pub(crate) const SUBJECT_TEXT_EMPTY: &str =
    "A text has at least one, and programs compare such names in different ways.";

pub(crate) const SUBJECT_TEXT_LONG: &str = "Programs may cut such a text or refuse it.";

pub(crate) const SUBJECT_COUNTRY: &str =
    "It is no code of a country (ISO 3166), which is what policies look for.";

pub(crate) const SUBJECT_STRING_TYPE: &str =
    "Programs compare texts of other string types in different ways, or not at all.";

pub(crate) const SUBJECT_MAILBOX_UNNAMED: &str =
    "Programs look for mail addresses among the alternative names, and name constraints are about those.";

pub(crate) const MODULUS_NOT_POSITIVE: &str =
    "No key has such a modulus: it is mostly one whose sign octet was left out.";

pub(crate) const MODULUS_EVEN: &str =
    "It isn't a product of odd primes, so that the private key can be found.";

pub(crate) const MODULUS_SHORT: &str = "It can be factored, or will be soon.";

pub(crate) const EXPONENT_LOW: &str = "With the exponent 1 a signature is the message itself.";

pub(crate) const EXPONENT_EVEN: &str = "No private exponent belongs to it.";

pub(crate) const ISSUER_UNIQUE_ID: &str =
    "Authorities must not issue such certificates: names are not used again.";

pub(crate) const SUBJECT_UNIQUE_ID: &str =
    "Authorities must not issue such certificates: names are not used again.";

pub(crate) const EXTENSION_REPEATED: &str =
    "Some programs go by the first one, others by the last.";

pub(crate) const CRITICAL_UNKNOWN: &str = "Programs that don't know it refuse the certificate.";

pub(crate) const AUTHORITY_KEY_CRITICAL: &str =
    "Programs that don't know it refuse the certificate, though they could do without it.";

pub(crate) const AUTHORITY_KEY_MISSING: &str =
    "Among several keys of the issuer the one that signed is found by it.";

pub(crate) const AUTHORITY_KEY_PARTIAL: &str = "Only both together name the issuer's certificate.";

pub(crate) const SUBJECT_KEY_CRITICAL: &str =
    "Programs that don't know it refuse the certificate, though they could do without it.";

pub(crate) const SUBJECT_KEY_MISSING: &str =
    "Among several keys of an authority the right one is found by it.";

pub(crate) const KEY_USAGE_EMPTY: &str =
    "Some programs let such a key do nothing, others anything.";

pub(crate) const KEY_USAGE_PADDED: &str =
    "One set of usages has two encodings, so that the certificate isn't in DER.";

pub(crate) const KEY_USAGE_NOT_CRITICAL: &str =
    "Programs that don't know the extension use the key for anything.";

pub(crate) const SIGNING_WITHOUT_AUTHORITY: &str =
    "Programs that look at one of the two extensions alone trust what the subject signs.";

pub(crate) const AUTHORITY_WITHOUT_SIGNING: &str =
    "Programs refuse the certificates that it signs.";

pub(crate) const POLICY_MAPPINGS_NOT_CRITICAL: &str =
    "Programs that don't know the extension take the issuer's policies for unrelated ones.";

pub(crate) const SUBJECT_NAMES_EMPTY: &str =
    "A list of names has at least one, and programs refuse an empty one.";

pub(crate) const SUBJECT_NAMES_CRITICAL: &str =
    "Programs that don't know some form of a name refuse the certificate.";

pub(crate) const ALTERNATIVE_NAME_EMPTY: &str = "Some programs take an empty name for any name.";

pub(crate) const ADDRESS_LENGTH: &str =
    "It is no address: mostly one with a mask, or written as text, which no host has.";

pub(crate) const MAILBOX_WITHOUT_AT: &str =
    "It is no address of a mailbox: mostly a host name in the wrong form.";

pub(crate) const HOST_NAME: &str =
    "No host is found by it: mostly an address, or a name with an underscore or a blank.";

pub(crate) const URI_WITHOUT_SCHEME: &str = "It is relative, but to nothing.";

pub(crate) const ISSUER_NAMES_EMPTY: &str =
    "A list of names has at least one, and programs refuse an empty one.";

pub(crate) const ISSUER_NAMES_CRITICAL: &str =
    "Programs that don't know it refuse the certificate, though they could do without it.";

pub(crate) const DIRECTORY_ATTRIBUTES_CRITICAL: &str =
    "Programs that don't know it refuse the certificate, though they could do without it.";

pub(crate) const AUTHORITY_NOT_CRITICAL: &str =
    "Programs that don't know the extension ignore the limits in it.";

pub(crate) const PATH_LENGTH_IDLE: &str =
    "The limit says nothing, and whoever set it meant an authority.";

pub(crate) const PATH_LENGTH_WITHOUT_SIGNING: &str =
    "The limit is about certificates that the key may not sign.";

pub(crate) const AUTHORITY_DEFAULT_SPELLED: &str =
    "One value has two encodings, so that the certificate isn't in DER.";

pub(crate) const NAME_CONSTRAINTS_NOT_CRITICAL: &str =
    "Programs that don't know the extension accept names that the authority may not give.";

pub(crate) const NAME_CONSTRAINTS_WITHOUT_AUTHORITY: &str =
    "The constraints say nothing, and whoever set them meant an authority.";

pub(crate) const POLICY_CONSTRAINTS_NOT_CRITICAL: &str =
    "Programs that don't know the extension accept paths that the issuer forbids.";

pub(crate) const PURPOSES_EMPTY: &str =
    "A list of purposes has at least one, and some programs take an empty one for any purpose.";

pub(crate) const ANY_PURPOSE_CRITICAL: &str =
    "Programs that don't know the extension refuse the certificate, though it allows any purpose.";

pub(crate) const REVOCATION_POINTS_CRITICAL: &str =
    "Programs that look for revoked certificates elsewhere refuse the certificate.";

pub(crate) const ANY_POLICY_NOT_CRITICAL: &str =
    "Programs that don't know the extension accept policies that the issuer forbids.";

pub(crate) const FRESHEST_LIST_CRITICAL: &str =
    "Programs that don't know it refuse the certificate, though they could do without it.";

pub(crate) const AUTHORITY_ACCESS_CRITICAL: &str =
    "Programs that don't know it refuse the certificate, though they could do without it.";

pub(crate) const SUBJECT_ACCESS_CRITICAL: &str =
    "Programs that don't know it refuse the certificate, though they could do without it.";

// Until here.
