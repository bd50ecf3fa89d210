//! The identifiers of the two tables, each with its name. This file is written by `tools/make_object_identifiers.py`.

use super::are_named;
use std::alloc::Global;
use std::process::Abort;
use x509_oids_algorithms as algorithms;
use x509_oids_objects as objects;

const NAMES_1: &'static [(&'static str, &'static str)] = &[
    (algorithms::DSA_WITH_SHA1, "id-dsa-with-sha1"),
    (algorithms::DIFFIE_HELLMAN, "dhpublicnumber"),
    (algorithms::EC_PUBLIC_KEY, "id-ecPublicKey"),
    (algorithms::SECP192R1, "secp192r1"),
    (algorithms::SECP256R1, "secp256r1"),
    (algorithms::ECDSA_WITH_SHA256, "ecdsa-with-SHA256"),
    (algorithms::ECDSA_WITH_SHA384, "ecdsa-with-SHA384"),
    (algorithms::ECDSA_WITH_SHA512, "ecdsa-with-SHA512"),
    (algorithms::RSA_ENCRYPTION, "rsaEncryption"),
    (algorithms::MD5_WITH_RSA_ENCRYPTHION, "md5WithRSAEncryption"),
    (
        algorithms::SHA1_WITH_RSA_ENCRYPTION,
        "sha1WithRSAEncryption",
    ),
    (algorithms::ID_MGF1, "id-mgf1"),
    (algorithms::RSASSA_PSS, "id-RSASSA-PSS"),
    (
        algorithms::SHA256_WITH_RSA_ENCRYPTION,
        "sha256WithRSAEncryption",
    ),
    (
        algorithms::SHA384_WITH_RSA_ENCRYPTION,
        "sha384WithRSAEncryption",
    ),
    (
        algorithms::SHA512_WITH_RSA_ENCRYPTION,
        "sha512WithRSAEncryption",
    ),
];

fn names_1(rt: &impl Abort, alloc: Global) {
    are_named(rt, alloc, NAMES_1);
}

const NAMES_2: &'static [(&'static str, &'static str)] = &[
    (
        algorithms::SHA224_WITH_RSA_ENCRYPTION,
        "sha224WithRSAEncryption",
    ),
    (algorithms::PBKDF2, "id-PBKDF2"),
    (algorithms::PBES2, "id-PBES2"),
    (algorithms::DSA_WITH_SHA224, "id-dsa-with-sha224"),
    (algorithms::DSA_WITH_SHA256, "id-dsa-with-sha256"),
    (algorithms::DSA_WITH_SHA384, "id-dsa-with-sha384"),
    (algorithms::DSA_WITH_SHA512, "id-dsa-with-sha512"),
    (algorithms::ID_ECDSA_WITH_SHA3_224, "id-ecdsa-with-sha3-224"),
    (algorithms::ID_ECDSA_WITH_SHA3_256, "id-ecdsa-with-sha3-256"),
    (algorithms::ID_ECDSA_WITH_SHA3_384, "id-ecdsa-with-sha3-384"),
    (algorithms::ID_ECDSA_WITH_SHA3_512, "id-ecdsa-with-sha3-512"),
    (
        algorithms::ID_RSASSA_PKCS1_V1_5_WITH_SHA3_224,
        "id-rsassa-pkcs1-v1-5-with-sha3-224",
    ),
    (
        algorithms::ID_RSASSA_PKCS1_V1_5_WITH_SHA3_256,
        "id-rsassa-pkcs1-v1-5-with-sha3-256",
    ),
    (
        algorithms::ID_RSASSA_PKCS1_V1_5_WITH_SHA3_384,
        "id-rsassa-pkcs1-v1-5-with-sha3-384",
    ),
    (
        algorithms::ID_RSASSA_PKCS1_V1_5_WITH_SHA3_512,
        "id-rsassa-pkcs1-v1-5-with-sha3-512",
    ),
    (algorithms::ID_MLDSA_44, "id-ml-dsa-44"),
];

fn names_2(rt: &impl Abort, alloc: Global) {
    are_named(rt, alloc, NAMES_2);
}

const NAMES_3: &'static [(&'static str, &'static str)] = &[
    (algorithms::ID_MLDSA_65, "id-ml-dsa-65"),
    (algorithms::ID_MLDSA_87, "id-ml-dsa-87"),
    (algorithms::SECT163K1, "sect163k1"),
    (algorithms::SECT163R2, "sect163r2"),
    (algorithms::SECT283K1, "sect283k1"),
    (algorithms::SECT283R1, "sect283r1"),
    (algorithms::SECT233K1, "sect233k1"),
    (algorithms::SECT233R1, "sect233r1"),
    (algorithms::SECP224R1, "secp224r1"),
    (algorithms::SECP384R1, "secp384r1"),
    (algorithms::SECP521R1, "secp521r1"),
    (algorithms::SECT409K1, "sect409k1"),
    (algorithms::SECT409R1, "sect409r1"),
    (algorithms::SECT571K1, "sect571k1"),
    (algorithms::SECT571R1, "sect571r1"),
    (algorithms::X25519, "id-X25519"),
];

fn names_3(rt: &impl Abort, alloc: Global) {
    are_named(rt, alloc, NAMES_3);
}

const NAMES_4: &'static [(&'static str, &'static str)] = &[
    (algorithms::X448, "id-X448"),
    (algorithms::ED25519, "id-Ed25519"),
    (algorithms::ED448, "id-Ed448"),
    (algorithms::AES128_ECB, "id-aes128-ECB"),
    (algorithms::AES128_CBC, "id-aes128-CBC"),
    (algorithms::AES128_OFB, "id-aes128-OFB"),
    (algorithms::AES128_CFB, "id-aes128-CFB"),
    (algorithms::AES128_WRAP, "id-aes128-wrap"),
    (algorithms::AES128_GCM, "id-aes128-GCM"),
    (algorithms::AES128_CCM, "id-aes128-CCM"),
    (algorithms::AES128_WRAP_PAD, "id-aes128-wrap-pad"),
    (algorithms::AES192_ECB, "id-aes192-ECB"),
    (algorithms::AES192_CBC, "id-aes192-CBC"),
    (algorithms::AES192_OFB, "id-aes192-OFB"),
    (algorithms::AES192_CFB, "id-aes192-CFB"),
    (algorithms::AES192_WRAP, "id-aes192-wrap"),
];

fn names_4(rt: &impl Abort, alloc: Global) {
    are_named(rt, alloc, NAMES_4);
}

const NAMES_5: &'static [(&'static str, &'static str)] = &[
    (algorithms::AES192_GCM, "id-aes192-GCM"),
    (algorithms::AES192_CCM, "id-aes192-CCM"),
    (algorithms::AES192_WRAP_PAD, "id-aes192-wrap-pad"),
    (algorithms::AES256_ECB, "id-aes256-ECB"),
    (algorithms::AES256_CBC, "id-aes256-CBC"),
    (algorithms::AES256_OFB, "id-aes256-OFB"),
    (algorithms::AES256_CFB, "id-aes256-CFB"),
    (algorithms::AES256_WRAP, "id-aes256-wrap"),
    (algorithms::AES256_GCM, "id-aes256-GCM"),
    (algorithms::AES256_CCM, "id-aes256-CCM"),
    (algorithms::AES256_WRAP_PAD, "id-aes256-wrap-pad"),
    (algorithms::DIGEST_ALGORITHM, "digestAlgorithm"),
    (algorithms::MD5, "id-md5"),
    (algorithms::HMAC_WITH_SHA1, "id-hmacWithSHA1"),
    (algorithms::HMAC_WITH_SHA224, "id-hmacWithSHA224"),
    (algorithms::HMAC_WITH_SHA256, "id-hmacWithSHA256"),
];

fn names_5(rt: &impl Abort, alloc: Global) {
    are_named(rt, alloc, NAMES_5);
}

const NAMES_6: &'static [(&'static str, &'static str)] = &[
    (algorithms::HMAC_WITH_SHA384, "id-hmacWithSHA384"),
    (algorithms::HMAC_WITH_SHA512, "id-hmacWithSHA512"),
    (algorithms::SHA1, "id-sha1"),
    (algorithms::SHA256, "id-sha256"),
    (algorithms::SHA384, "id-sha384"),
    (algorithms::SHA512, "id-sha512"),
    (algorithms::SHA224, "id-sha224"),
    (algorithms::SHA512_224, "id-sha512-224"),
    (algorithms::SHA512_256, "id-sha512-256"),
    (algorithms::SHA3_224, "id-sha3-224"),
    (algorithms::SHA3_256, "id-sha3-256"),
    (algorithms::SHA3_384, "id-sha3-384"),
    (algorithms::SHA3_512, "id-sha3-512"),
    (algorithms::SHAKE128, "id-shake128"),
    (algorithms::SHAKE256, "id-shake256"),
    (objects::CONTENT_INFO_TYPE_DATA, "id-data"),
];

fn names_6(rt: &impl Abort, alloc: Global) {
    are_named(rt, alloc, NAMES_6);
}

const NAMES_7: &'static [(&'static str, &'static str)] = &[
    (objects::SIGNED_DATA, "id-signedData"),
    (objects::ENVELOPED_DATA, "id-envelopedData"),
    (
        objects::CONTENT_INFO_TYPE_ENCRYPTED_DATA,
        "id-encryptedData",
    ),
    (objects::EMAIL_ADDRESS, "emailAddress"),
    (objects::CONTENT_TYPE, "contentType"),
    (objects::MESSAGE_DIGEST, "messageDigest"),
    (objects::SIGNING_TIME, "signingTime"),
    (objects::COUNTER_SIGN, "countersignature"),
    (objects::EXTENSION_REQ, "extensionRequest"),
    (objects::ATTRIBUTE_PKCS12_FRIENDLY_NAME, "friendlyName"),
    (objects::ATTRIBUTE_PKCS12_LOCAL_KEY_ID, "localKeyId"),
    (objects::CERT_SAFE_BAG_TYPE_X509, "x509Certificate"),
    (objects::CRL_SAFE_BAG_TYPE_X509, "x509CRL"),
    (
        objects::PKCS12_PBE_WITH_SHA_AND_3_KEY_TRIPLE_DES_CBC,
        "pbeWithSHAAnd3-KeyTripleDES-CBC",
    ),
    (
        objects::PKCS12_PBE_WITH_SHA_AND_40_BIT_RC2_CBC,
        "pbeWithSHAAnd40BitRC2-CBC",
    ),
    (objects::SAFE_BAG_TYPE_KEY, "keyBag"),
];

fn names_7(rt: &impl Abort, alloc: Global) {
    are_named(rt, alloc, NAMES_7);
}

const NAMES_8: &'static [(&'static str, &'static str)] = &[
    (objects::SAFE_BAG_TYPE_SHROUDED_KEY, "pkcs8ShroudedKeyBag"),
    (objects::SAFE_BAG_TYPE_CERT, "certBag"),
    (objects::SAFE_BAG_TYPE_CRL, "crlBag"),
    (objects::SAFE_BAG_TYPE_SECRET, "secretBag"),
    (objects::SAFE_BAG_TYPE_SAFE_CONTENTS, "safeContentsBag"),
    (objects::KP_SERVER_AUTH, "id-kp-serverAuth"),
    (objects::KP_CLIENT_AUTH, "id-kp-clientAuth"),
    (objects::KP_CODE_SIGNING, "id-kp-codeSigning"),
    (objects::KP_EMAIL_PROTECTION, "id-kp-emailProtection"),
    (objects::KP_IPSEC_END_SYSTEM, "id-kp-ipsecEndSystem"),
    (objects::KP_IPSPEC_TUNNEL, "id-kp-ipsecTunnel"),
    (objects::KP_IPSEC_USER, "id-kp-ipsecUser"),
    (objects::KP_TIME_STAMPING, "id-kp-timeStamping"),
    (objects::KP_OCSP_SIGNING, "id-kp-OCSPSigning"),
    (
        objects::SUBJECT_KEY_IDENTIFIER,
        "id-ce-subjectKeyIdentifier",
    ),
    (objects::KEY_USAGE, "id-ce-keyUsage"),
];

fn names_8(rt: &impl Abort, alloc: Global) {
    are_named(rt, alloc, NAMES_8);
}

const NAMES_9: &'static [(&'static str, &'static str)] = &[
    (objects::SUBJECT_ALTERNATIVE_NAME, "id-ce-subjectAltName"),
    (objects::ISSUER_ALTERNATIVE_NAME, "id-ce-issuerAltName"),
    (objects::BASIC_CONSTRAINTS, "id-ce-basicConstraints"),
    (objects::CRL_NUMBER, "id-ce-cRLNumber"),
    (
        objects::AUTHORITY_KEY_IDENTIFIER,
        "id-ce-authorityKeyIdentifier",
    ),
    (objects::EXTENDED_KEY_USAGE, "id-ce-extKeyUsage"),
    (objects::KP_ANY_EXTENDED_KEY_USAGE, "anyExtendedKeyUsage"),
    (objects::AT_COMMON_NAME, "commonName"),
    (objects::AT_SURNAME, "surname"),
    (objects::AT_SERIAL_NUMBER, "serialNumber"),
    (objects::AT_COUNTRY_NAME, "countryName"),
    (objects::AT_LOCALITY_NAME, "localityName"),
    (objects::AT_STATE_OR_PROVINCE_NAME, "stateOrProvinceName"),
    (objects::AT_STREET_NAME, "streetAddress"),
    (objects::AT_ORGANIZATION_NAME, "organizationName"),
    (
        objects::AT_ORGANIZATIONAL_UNIT_NAME,
        "organizationalUnitName",
    ),
];

fn names_9(rt: &impl Abort, alloc: Global) {
    are_named(rt, alloc, NAMES_9);
}

const NAMES_10: &'static [(&'static str, &'static str)] = &[
    (objects::AT_PHONE, "telephoneNumber"),
    (objects::AT_GIVENNAME, "givenName"),
    (objects::SPC_INDIRECT_DATA_OBJID, "SPC_INDIRECT_DATA"),
    (objects::SPC_STATEMENT_TYPE, "SPC_STATEMENT_TYPE"),
    (objects::SPC_SP_OPUS_INFO_OBJID, "SPC_SP_OPUS_INFO"),
    (objects::SPC_PE_IMAGE_DATAOBJ, "SPC_PE_IMAGE_DATA"),
    (objects::SPC_SIPINFO_OBJID, "SPC_SIPINFO"),
    (objects::NTLM_SSP, "NTLMSSP"),
    (objects::NEGOEX, "NEGOEX"),
    (objects::TIMESTAMP_REQUEST, "timestampRequest"),
    (objects::MS_COUNTER_SIGN, "RFC3161_counterSign"),
    (objects::CERT_TRUST_LIST, "CTL"),
    (objects::ROOT_LIST_SIGNER, "ROOT_LIST_SIGNER"),
    (objects::KP_LIFETIME_SIGNING, "KP_LIFETIME_SIGNING"),
    (objects::SMART_CARD_LOGON, "KP_SMARTCARD_LOGON"),
    (objects::USER_PRINCIPAL_NAME, "NT_PRINCIPAL_NAME"),
];

fn names_10(rt: &impl Abort, alloc: Global) {
    are_named(rt, alloc, NAMES_10);
}

const NAMES_11: &'static [(&'static str, &'static str)] = &[
    (
        objects::AUTO_UPDATE_END_REVOCATION,
        "AUTO_UPDATE_END_REVOCATION",
    ),
    (
        objects::PROTECTION_DESCRIPTOR_TYPE,
        "protectionDescriptorType",
    ),
    (objects::SID_PROTECTION_DESCRIPTOR, "sidProtected"),
    (objects::KEY_FILE_PROTECTION_DESCRIPTOR, "keyFileProtected"),
    (objects::SSDL_PROTECTION_DESCRIPTOR, "sddlProtected"),
    (objects::LOCAL_PROTECTION_DESCRIPTOR, "localProtected"),
    (
        objects::CERT_ENHKEY_USAGE_PROP_ID,
        "CERT_ENHKEY_USAGE_PROP_ID",
    ),
    (
        objects::CERT_FRIENDLY_NAME_PROP_ID,
        "CERT_FRIENDLY_NAME_PROP_ID",
    ),
    (
        objects::CERT_KEY_IDENTIFIER_PROP_ID,
        "CERT_KEY_IDENTIFIER_PROP_ID",
    ),
    (
        objects::CERT_SUBJECT_NAME_MD5_HASH_PROP_ID,
        "CERT_SUBJECT_NAME_MD5_HASH_PROP_ID",
    ),
    (
        objects::CERT_ROOT_PROGRAM_CERT_POLICIES_PROP_ID,
        "CERT_ROOT_PROGRAM_CERT_POLICIES_PROP_ID",
    ),
    (
        objects::CERT_AUTH_ROOT_SHA256_HASH_PROP_ID,
        "CERT_AUTH_ROOT_SHA256_HASH_PROP_ID",
    ),
    (
        objects::CERT_DISALLOWED_FILETIME_PROP_ID,
        "CERT_DISALLOWED_FILETIME_PROP_ID",
    ),
    (
        objects::CERT_ROOT_PROGRAM_CHAIN_POLICIES_PROP_ID,
        "CERT_ROOT_PROGRAM_CHAIN_POLICIES_PROP_ID",
    ),
    (
        objects::DISALLOWED_ENHKEY_USAGE,
        "CERT_DISALLOWED_ENHKEY_USAGE_PROP_ID",
    ),
    (
        objects::UNKNOWN_RESERVED_PROP_ID_126,
        "reservedPropertyId-126",
    ),
];

fn names_11(rt: &impl Abort, alloc: Global) {
    are_named(rt, alloc, NAMES_11);
}

const NAMES_12: &'static [(&'static str, &'static str)] = &[
    (
        objects::UNKNOWN_RESERVED_PROP_ID_127,
        "reservedPropertyId-127",
    ),
    (objects::KRB5, "krb5"),
    (objects::KRB5_USER_TO_USER, "krb5-user-to-user"),
    (objects::MS_KRB5, "ms-krb5"),
    (objects::PKINIT_AUTH_DATA, "id-pkinit-authData"),
    (objects::PKINIT_DH_KEY_DATA, "id-pkinit-DHKeyData"),
    (objects::IAKERB5, "iakerb"),
    (objects::GSS_PKU2U, "pku2u"),
    (objects::SPNEGO, "spnego"),
];

fn names_12(rt: &impl Abort, alloc: Global) {
    are_named(rt, alloc, NAMES_12);
}

/// Asks that each identifier has its name.
pub(super) fn all_named(rt: &impl Abort, alloc: Global) {
    names_1(rt, alloc);
    names_2(rt, alloc);
    names_3(rt, alloc);
    names_4(rt, alloc);
    names_5(rt, alloc);
    names_6(rt, alloc);
    names_7(rt, alloc);
    names_8(rt, alloc);
    names_9(rt, alloc);
    names_10(rt, alloc);
    names_11(rt, alloc);
    names_12(rt, alloc);
}
