//! What the names of attributes, extensions, key purposes and other objects stand for.
//!
//! This file is written by `tools/make_object_identifiers.py`.

use crate::table::Table;

/// From `AUTO_UPDATE_END_REVOCATION` to `NT_PRINCIPAL_NAME`.
const NAMES_1: Table = &[
    (
        "AUTO_UPDATE_END_REVOCATION",
        &[1, 3, 6, 1, 4, 1, 311, 60, 3, 2],
    ),
    (
        "CERT_AUTH_ROOT_SHA256_HASH_PROP_ID",
        &[1, 3, 6, 1, 4, 1, 311, 10, 11, 98],
    ),
    (
        "CERT_DISALLOWED_ENHKEY_USAGE_PROP_ID",
        &[1, 3, 6, 1, 4, 1, 311, 10, 11, 122],
    ),
    (
        "CERT_DISALLOWED_FILETIME_PROP_ID",
        &[1, 3, 6, 1, 4, 1, 311, 10, 11, 104],
    ),
    (
        "CERT_ENHKEY_USAGE_PROP_ID",
        &[1, 3, 6, 1, 4, 1, 311, 10, 11, 9],
    ),
    (
        "CERT_FRIENDLY_NAME_PROP_ID",
        &[1, 3, 6, 1, 4, 1, 311, 10, 11, 11],
    ),
    (
        "CERT_KEY_IDENTIFIER_PROP_ID",
        &[1, 3, 6, 1, 4, 1, 311, 10, 11, 20],
    ),
    (
        "CERT_ROOT_PROGRAM_CERT_POLICIES_PROP_ID",
        &[1, 3, 6, 1, 4, 1, 311, 10, 11, 83],
    ),
    (
        "CERT_ROOT_PROGRAM_CHAIN_POLICIES_PROP_ID",
        &[1, 3, 6, 1, 4, 1, 311, 10, 11, 105],
    ),
    (
        "CERT_SUBJECT_NAME_MD5_HASH_PROP_ID",
        &[1, 3, 6, 1, 4, 1, 311, 10, 11, 29],
    ),
    ("CTL", &[1, 3, 6, 1, 4, 1, 311, 10, 1]),
    ("KP_LIFETIME_SIGNING", &[1, 3, 6, 1, 4, 1, 311, 10, 3, 13]),
    ("KP_SMARTCARD_LOGON", &[1, 3, 6, 1, 4, 1, 311, 20, 2, 2]),
    ("NEGOEX", &[1, 3, 6, 1, 4, 1, 311, 2, 2, 30]),
    ("NTLMSSP", &[1, 3, 6, 1, 4, 1, 311, 2, 2, 10]),
    ("NT_PRINCIPAL_NAME", &[1, 3, 6, 1, 4, 1, 311, 20, 2, 3]),
];

/// From `RFC3161_counterSign` to `extensionRequest`.
const NAMES_2: Table = &[
    ("RFC3161_counterSign", &[1, 3, 6, 1, 4, 1, 311, 3, 3, 1]),
    ("ROOT_LIST_SIGNER", &[1, 3, 6, 1, 4, 1, 311, 10, 3, 9]),
    ("SPC_INDIRECT_DATA", &[1, 3, 6, 1, 4, 1, 311, 2, 1, 4]),
    ("SPC_PE_IMAGE_DATA", &[1, 3, 6, 1, 4, 1, 311, 2, 1, 15]),
    ("SPC_SIPINFO", &[1, 3, 6, 1, 4, 1, 311, 2, 1, 30]),
    ("SPC_SP_OPUS_INFO", &[1, 3, 6, 1, 4, 1, 311, 2, 1, 12]),
    ("SPC_STATEMENT_TYPE", &[1, 3, 6, 1, 4, 1, 311, 2, 1, 11]),
    ("anyExtendedKeyUsage", &[2, 5, 29, 37, 0]),
    ("certBag", &[1, 2, 840, 113549, 1, 12, 10, 1, 3]),
    ("commonName", &[2, 5, 4, 3]),
    ("contentType", &[1, 2, 840, 113549, 1, 9, 3]),
    ("countersignature", &[1, 2, 840, 113549, 1, 9, 6]),
    ("countryName", &[2, 5, 4, 6]),
    ("crlBag", &[1, 2, 840, 113549, 1, 12, 10, 1, 4]),
    ("emailAddress", &[1, 2, 840, 113549, 1, 9, 1]),
    ("extensionRequest", &[1, 2, 840, 113549, 1, 9, 14]),
];

/// From `friendlyName` to `id-kp-clientAuth`.
const NAMES_3: Table = &[
    ("friendlyName", &[1, 2, 840, 113549, 1, 9, 20]),
    ("givenName", &[2, 5, 4, 42]),
    ("iakerb", &[1, 3, 6, 1, 5, 2, 5]),
    ("id-ce-authorityKeyIdentifier", &[2, 5, 29, 35]),
    ("id-ce-basicConstraints", &[2, 5, 29, 19]),
    ("id-ce-cRLNumber", &[2, 5, 29, 20]),
    ("id-ce-extKeyUsage", &[2, 5, 29, 37]),
    ("id-ce-issuerAltName", &[2, 5, 29, 18]),
    ("id-ce-keyUsage", &[2, 5, 29, 15]),
    ("id-ce-subjectAltName", &[2, 5, 29, 17]),
    ("id-ce-subjectKeyIdentifier", &[2, 5, 29, 14]),
    ("id-data", &[1, 2, 840, 113549, 1, 7, 1]),
    ("id-encryptedData", &[1, 2, 840, 113549, 1, 7, 6]),
    ("id-envelopedData", &[1, 2, 840, 113549, 1, 7, 3]),
    ("id-kp-OCSPSigning", &[1, 3, 6, 1, 5, 5, 7, 3, 9]),
    ("id-kp-clientAuth", &[1, 3, 6, 1, 5, 5, 7, 3, 2]),
];

/// From `id-kp-codeSigning` to `localProtected`.
const NAMES_4: Table = &[
    ("id-kp-codeSigning", &[1, 3, 6, 1, 5, 5, 7, 3, 3]),
    ("id-kp-emailProtection", &[1, 3, 6, 1, 5, 5, 7, 3, 4]),
    ("id-kp-ipsecEndSystem", &[1, 3, 6, 1, 5, 5, 7, 3, 5]),
    ("id-kp-ipsecTunnel", &[1, 3, 6, 1, 5, 5, 7, 3, 6]),
    ("id-kp-ipsecUser", &[1, 3, 6, 1, 5, 5, 7, 3, 7]),
    ("id-kp-serverAuth", &[1, 3, 6, 1, 5, 5, 7, 3, 1]),
    ("id-kp-timeStamping", &[1, 3, 6, 1, 5, 5, 7, 3, 8]),
    ("id-pkinit-DHKeyData", &[1, 3, 6, 1, 5, 2, 3, 2]),
    ("id-pkinit-authData", &[1, 3, 6, 1, 5, 2, 3, 1]),
    ("id-signedData", &[1, 2, 840, 113549, 1, 7, 2]),
    ("keyBag", &[1, 2, 840, 113549, 1, 12, 10, 1, 1]),
    ("keyFileProtected", &[1, 3, 6, 1, 4, 1, 311, 74, 1, 2]),
    ("krb5", &[1, 2, 840, 113554, 1, 2, 2]),
    ("krb5-user-to-user", &[1, 2, 840, 113554, 1, 2, 2, 3]),
    ("localKeyId", &[1, 2, 840, 113549, 1, 9, 21]),
    ("localProtected", &[1, 3, 6, 1, 4, 1, 311, 74, 1, 8]),
];

/// From `localityName` to `serialNumber`.
const NAMES_5: Table = &[
    ("localityName", &[2, 5, 4, 7]),
    ("messageDigest", &[1, 2, 840, 113549, 1, 9, 4]),
    ("ms-krb5", &[1, 2, 840, 48018, 1, 2, 2]),
    ("organizationName", &[2, 5, 4, 10]),
    ("organizationalUnitName", &[2, 5, 4, 11]),
    (
        "pbeWithSHAAnd3-KeyTripleDES-CBC",
        &[1, 2, 840, 113549, 1, 12, 1, 3],
    ),
    (
        "pbeWithSHAAnd40BitRC2-CBC",
        &[1, 2, 840, 113549, 1, 12, 1, 6],
    ),
    ("pkcs8ShroudedKeyBag", &[1, 2, 840, 113549, 1, 12, 10, 1, 2]),
    ("pku2u", &[1, 3, 6, 1, 5, 2, 7]),
    ("protectionDescriptorType", &[1, 3, 6, 1, 4, 1, 311, 74, 1]),
    (
        "reservedPropertyId-126",
        &[1, 3, 6, 1, 4, 1, 311, 10, 11, 126],
    ),
    (
        "reservedPropertyId-127",
        &[1, 3, 6, 1, 4, 1, 311, 10, 11, 127],
    ),
    ("safeContentsBag", &[1, 2, 840, 113549, 1, 12, 10, 1, 6]),
    ("sddlProtected", &[1, 3, 6, 1, 4, 1, 311, 74, 1, 5]),
    ("secretBag", &[1, 2, 840, 113549, 1, 12, 10, 1, 5]),
    ("serialNumber", &[2, 5, 4, 5]),
];

/// From `sidProtected` to `x509Certificate`.
const NAMES_6: Table = &[
    ("sidProtected", &[1, 3, 6, 1, 4, 1, 311, 74, 1, 1]),
    ("signingTime", &[1, 2, 840, 113549, 1, 9, 5]),
    ("spnego", &[1, 3, 6, 1, 5, 5, 2]),
    ("stateOrProvinceName", &[2, 5, 4, 8]),
    ("streetAddress", &[2, 5, 4, 9]),
    ("surname", &[2, 5, 4, 4]),
    ("telephoneNumber", &[2, 5, 4, 20]),
    ("timestampRequest", &[1, 3, 6, 1, 4, 1, 311, 3, 2, 1]),
    ("x509CRL", &[1, 2, 840, 113549, 1, 9, 23, 1]),
    ("x509Certificate", &[1, 2, 840, 113549, 1, 9, 22, 1]),
];

/// All of them.
pub const TABLES: &'static [Table] = &[NAMES_1, NAMES_2, NAMES_3, NAMES_4, NAMES_5, NAMES_6];
