//! Names of the identifiers of organizations that ISO knows, under 1.3.
//! This file is written by `tools/make_object_identifiers.py`.

use crate::table::{Names, Table};

/// The names under 1.3.101.
const UNDER_1_3_101: Names = &[
    (110, "id-X25519"),
    (111, "id-X448"),
    (112, "id-Ed25519"),
    (113, "id-Ed448"),
];

/// The names under 1.3.132.0.
const UNDER_1_3_132_0: Names = &[
    (1, "sect163k1"),
    (15, "sect163r2"),
    (16, "sect283k1"),
    (17, "sect283r1"),
    (26, "sect233k1"),
    (27, "sect233r1"),
    (33, "secp224r1"),
    (34, "secp384r1"),
    (35, "secp521r1"),
    (36, "sect409k1"),
    (37, "sect409r1"),
    (38, "sect571k1"),
    (39, "sect571r1"),
];

/// The names under 1.3.14.3.2.
const UNDER_1_3_14_3_2: Names = &[(26, "id-sha1")];

/// The names under 1.3.6.1.5.2.
const UNDER_1_3_6_1_5_2: Names = &[(5, "iakerb"), (7, "pku2u")];

/// The names under 1.3.6.1.5.5.
const UNDER_1_3_6_1_5_5: Names = &[(2, "spnego")];

/// The names under 1.3.6.1.5.2.3.
const UNDER_1_3_6_1_5_2_3: Names = &[(1, "id-pkinit-authData"), (2, "id-pkinit-DHKeyData")];

/// The names under 1.3.6.1.4.1.311.10.
const UNDER_1_3_6_1_4_1_311_10: Names = &[(1, "CTL")];

/// The names under 1.3.6.1.4.1.311.20.
const UNDER_1_3_6_1_4_1_311_20: Names = &[(2, "ENROLL_CERTTYPE_EXTENSION")];

/// The names under 1.3.6.1.4.1.311.21.
const UNDER_1_3_6_1_4_1_311_21: Names = &[(7, "CERTIFICATE_TEMPLATE")];

/// The names under 1.3.6.1.4.1.311.74.
const UNDER_1_3_6_1_4_1_311_74: Names = &[(1, "protectionDescriptorType")];

/// The names under 1.3.6.1.5.5.7.1.
const UNDER_1_3_6_1_5_5_7_1: Names = &[
    (1, "id-pe-authorityInfoAccess"),
    (3, "id-pe-qcStatements"),
    (11, "id-pe-subjectInfoAccess"),
    (24, "id-pe-tlsfeature"),
];

/// The names under 1.3.6.1.5.5.7.2.
const UNDER_1_3_6_1_5_5_7_2: Names = &[(1, "id-qt-cps"), (2, "id-qt-unotice")];

/// The names under 1.3.6.1.5.5.7.3.
const UNDER_1_3_6_1_5_5_7_3: Names = &[
    (1, "id-kp-serverAuth"),
    (2, "id-kp-clientAuth"),
    (3, "id-kp-codeSigning"),
    (4, "id-kp-emailProtection"),
    (5, "id-kp-ipsecEndSystem"),
    (6, "id-kp-ipsecTunnel"),
    (7, "id-kp-ipsecUser"),
    (8, "id-kp-timeStamping"),
    (9, "id-kp-OCSPSigning"),
];

/// The names under 1.3.6.1.5.5.7.9.
const UNDER_1_3_6_1_5_5_7_9: Names = &[
    (1, "id-pda-dateOfBirth"),
    (2, "id-pda-placeOfBirth"),
    (3, "id-pda-gender"),
    (4, "id-pda-countryOfCitizenship"),
    (5, "id-pda-countryOfResidence"),
];

/// The names under 1.3.6.1.5.5.7.11.
const UNDER_1_3_6_1_5_5_7_11: Names = &[
    (1, "id-qcs-pkixQCSyntax-v1"),
    (2, "id-qcs-pkixQCSyntax-v2"),
];

/// The names under 1.3.6.1.5.5.7.48.
const UNDER_1_3_6_1_5_5_7_48: Names = &[
    (1, "id-ad-ocsp"),
    (2, "id-ad-caIssuers"),
    (3, "id-ad-timeStamping"),
    (5, "id-ad-caRepository"),
];

/// The names under 1.3.6.1.4.1.311.2.1.
const UNDER_1_3_6_1_4_1_311_2_1: Names = &[
    (4, "SPC_INDIRECT_DATA"),
    (11, "SPC_STATEMENT_TYPE"),
    (12, "SPC_SP_OPUS_INFO"),
    (15, "SPC_PE_IMAGE_DATA"),
    (30, "SPC_SIPINFO"),
];

/// The names under 1.3.6.1.4.1.311.2.2.
const UNDER_1_3_6_1_4_1_311_2_2: Names = &[(10, "NTLMSSP"), (30, "NEGOEX")];

/// The names under 1.3.6.1.4.1.311.3.2.
const UNDER_1_3_6_1_4_1_311_3_2: Names = &[(1, "timestampRequest")];

/// The names under 1.3.6.1.4.1.311.3.3.
const UNDER_1_3_6_1_4_1_311_3_3: Names = &[(1, "RFC3161_counterSign")];

/// The names under 1.3.6.1.4.1.311.10.3.
const UNDER_1_3_6_1_4_1_311_10_3: Names = &[(9, "ROOT_LIST_SIGNER"), (13, "KP_LIFETIME_SIGNING")];

/// The names under 1.3.6.1.4.1.311.10.11.
const UNDER_1_3_6_1_4_1_311_10_11: Names = &[
    (9, "CERT_ENHKEY_USAGE_PROP_ID"),
    (11, "CERT_FRIENDLY_NAME_PROP_ID"),
    (20, "CERT_KEY_IDENTIFIER_PROP_ID"),
    (29, "CERT_SUBJECT_NAME_MD5_HASH_PROP_ID"),
    (83, "CERT_ROOT_PROGRAM_CERT_POLICIES_PROP_ID"),
    (98, "CERT_AUTH_ROOT_SHA256_HASH_PROP_ID"),
    (104, "CERT_DISALLOWED_FILETIME_PROP_ID"),
    (105, "CERT_ROOT_PROGRAM_CHAIN_POLICIES_PROP_ID"),
    (122, "CERT_DISALLOWED_ENHKEY_USAGE_PROP_ID"),
    (126, "reservedPropertyId-126"),
    (127, "reservedPropertyId-127"),
];

/// The names under 1.3.6.1.4.1.311.20.2.
const UNDER_1_3_6_1_4_1_311_20_2: Names = &[(2, "KP_SMARTCARD_LOGON"), (3, "NT_PRINCIPAL_NAME")];

/// The names under 1.3.6.1.4.1.311.60.3.
const UNDER_1_3_6_1_4_1_311_60_3: Names = &[(2, "AUTO_UPDATE_END_REVOCATION")];

/// The names under 1.3.6.1.4.1.311.74.1.
const UNDER_1_3_6_1_4_1_311_74_1: Names = &[
    (1, "sidProtected"),
    (2, "keyFileProtected"),
    (5, "sddlProtected"),
    (8, "localProtected"),
];

/// The names under 1.3.6.1.4.1.11129.2.4.
const UNDER_1_3_6_1_4_1_11129_2_4: Names = &[
    (2, "signedCertificateTimestampList"),
    (3, "precertificatePoison"),
];

/// The names under 1.3.6.1.5.5.7.48.1.
const UNDER_1_3_6_1_5_5_7_48_1: Names = &[(5, "id-pkix-ocsp-nocheck")];

/// The names under 1.3.6.1.4.1.311.60.2.1.
const UNDER_1_3_6_1_4_1_311_60_2_1: Names = &[
    (1, "jurisdictionLocalityName"),
    (2, "jurisdictionStateOrProvinceName"),
    (3, "jurisdictionCountryName"),
];

/// All of them, by the arcs before the last.
pub const TABLE: Table = &[
    (&[1, 3, 101], UNDER_1_3_101),
    (&[1, 3, 132, 0], UNDER_1_3_132_0),
    (&[1, 3, 14, 3, 2], UNDER_1_3_14_3_2),
    (&[1, 3, 6, 1, 5, 2], UNDER_1_3_6_1_5_2),
    (&[1, 3, 6, 1, 5, 5], UNDER_1_3_6_1_5_5),
    (&[1, 3, 6, 1, 5, 2, 3], UNDER_1_3_6_1_5_2_3),
    (&[1, 3, 6, 1, 4, 1, 311, 10], UNDER_1_3_6_1_4_1_311_10),
    (&[1, 3, 6, 1, 4, 1, 311, 20], UNDER_1_3_6_1_4_1_311_20),
    (&[1, 3, 6, 1, 4, 1, 311, 21], UNDER_1_3_6_1_4_1_311_21),
    (&[1, 3, 6, 1, 4, 1, 311, 74], UNDER_1_3_6_1_4_1_311_74),
    (&[1, 3, 6, 1, 5, 5, 7, 1], UNDER_1_3_6_1_5_5_7_1),
    (&[1, 3, 6, 1, 5, 5, 7, 2], UNDER_1_3_6_1_5_5_7_2),
    (&[1, 3, 6, 1, 5, 5, 7, 3], UNDER_1_3_6_1_5_5_7_3),
    (&[1, 3, 6, 1, 5, 5, 7, 9], UNDER_1_3_6_1_5_5_7_9),
    (&[1, 3, 6, 1, 5, 5, 7, 11], UNDER_1_3_6_1_5_5_7_11),
    (&[1, 3, 6, 1, 5, 5, 7, 48], UNDER_1_3_6_1_5_5_7_48),
    (&[1, 3, 6, 1, 4, 1, 311, 2, 1], UNDER_1_3_6_1_4_1_311_2_1),
    (&[1, 3, 6, 1, 4, 1, 311, 2, 2], UNDER_1_3_6_1_4_1_311_2_2),
    (&[1, 3, 6, 1, 4, 1, 311, 3, 2], UNDER_1_3_6_1_4_1_311_3_2),
    (&[1, 3, 6, 1, 4, 1, 311, 3, 3], UNDER_1_3_6_1_4_1_311_3_3),
    (&[1, 3, 6, 1, 4, 1, 311, 10, 3], UNDER_1_3_6_1_4_1_311_10_3),
    (
        &[1, 3, 6, 1, 4, 1, 311, 10, 11],
        UNDER_1_3_6_1_4_1_311_10_11,
    ),
    (&[1, 3, 6, 1, 4, 1, 311, 20, 2], UNDER_1_3_6_1_4_1_311_20_2),
    (&[1, 3, 6, 1, 4, 1, 311, 60, 3], UNDER_1_3_6_1_4_1_311_60_3),
    (&[1, 3, 6, 1, 4, 1, 311, 74, 1], UNDER_1_3_6_1_4_1_311_74_1),
    (
        &[1, 3, 6, 1, 4, 1, 11129, 2, 4],
        UNDER_1_3_6_1_4_1_11129_2_4,
    ),
    (&[1, 3, 6, 1, 5, 5, 7, 48, 1], UNDER_1_3_6_1_5_5_7_48_1),
    (
        &[1, 3, 6, 1, 4, 1, 311, 60, 2, 1],
        UNDER_1_3_6_1_4_1_311_60_2_1,
    ),
];
