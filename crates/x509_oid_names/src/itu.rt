//! Names of ITU-T's identifiers, under arc 0, and of those that it shares with ISO, under arc 2.
//! This file is written by `tools/make_object_identifiers.py`.

use crate::table::{Names, Table};

/// The names under 2.5.4.
const UNDER_2_5_4: Names = &[
    (3, "commonName"),
    (4, "surname"),
    (5, "serialNumber"),
    (6, "countryName"),
    (7, "localityName"),
    (8, "stateOrProvinceName"),
    (9, "streetAddress"),
    (10, "organizationName"),
    (11, "organizationalUnitName"),
    (12, "title"),
    (13, "description"),
    (15, "businessCategory"),
    (17, "postalCode"),
    (20, "telephoneNumber"),
    (41, "name"),
    (42, "givenName"),
    (43, "initials"),
    (44, "generationQualifier"),
    (46, "dnQualifier"),
    (65, "pseudonym"),
    (97, "organizationIdentifier"),
];

/// The names under 2.5.29.
const UNDER_2_5_29: Names = &[
    (9, "id-ce-subjectDirectoryAttributes"),
    (14, "id-ce-subjectKeyIdentifier"),
    (15, "id-ce-keyUsage"),
    (16, "id-ce-privateKeyUsagePeriod"),
    (17, "id-ce-subjectAltName"),
    (18, "id-ce-issuerAltName"),
    (19, "id-ce-basicConstraints"),
    (20, "id-ce-cRLNumber"),
    (21, "id-ce-cRLReasons"),
    (23, "id-ce-holdInstructionCode"),
    (24, "id-ce-invalidityDate"),
    (27, "id-ce-deltaCRLIndicator"),
    (28, "id-ce-issuingDistributionPoint"),
    (29, "id-ce-certificateIssuer"),
    (30, "id-ce-nameConstraints"),
    (31, "id-ce-cRLDistributionPoints"),
    (32, "id-ce-certificatePolicies"),
    (33, "id-ce-policyMappings"),
    (35, "id-ce-authorityKeyIdentifier"),
    (36, "id-ce-policyConstraints"),
    (37, "id-ce-extKeyUsage"),
    (46, "id-ce-freshestCRL"),
    (54, "id-ce-inhibitAnyPolicy"),
];

/// The names under 2.5.29.32.
const UNDER_2_5_29_32: Names = &[(0, "anyPolicy")];

/// The names under 2.5.29.37.
const UNDER_2_5_29_37: Names = &[(0, "anyExtendedKeyUsage")];

/// The names under 2.23.140.1.
const UNDER_2_23_140_1: Names = &[(1, "ev-guidelines")];

/// The names under 0.4.0.1862.1.
const UNDER_0_4_0_1862_1: Names = &[
    (1, "id-etsi-qcs-QcCompliance"),
    (2, "id-etsi-qcs-QcLimitValue"),
    (3, "id-etsi-qcs-QcRetentionPeriod"),
    (4, "id-etsi-qcs-QcSSCD"),
    (5, "id-etsi-qcs-QcPDS"),
    (6, "id-etsi-qcs-QcType"),
    (7, "id-etsi-qcs-QcCClegislation"),
];

/// The names under 2.23.140.1.2.
const UNDER_2_23_140_1_2: Names = &[
    (1, "domain-validated"),
    (2, "organization-validated"),
    (3, "individual-validated"),
];

/// The names under 0.4.0.1862.1.6.
const UNDER_0_4_0_1862_1_6: Names = &[
    (1, "id-etsi-qct-esign"),
    (2, "id-etsi-qct-eseal"),
    (3, "id-etsi-qct-web"),
];

/// The names under 0.9.2342.19200300.100.1.
const UNDER_0_9_2342_19200300_100_1: Names = &[(1, "userId"), (25, "domainComponent")];

/// The names under 2.16.840.1.113730.1.
const UNDER_2_16_840_1_113730_1: Names = &[(1, "netscape-cert-type"), (13, "netscape-comment")];

/// The names under 2.16.840.1.101.3.4.1.
const UNDER_2_16_840_1_101_3_4_1: Names = &[
    (1, "id-aes128-ECB"),
    (2, "id-aes128-CBC"),
    (3, "id-aes128-OFB"),
    (4, "id-aes128-CFB"),
    (5, "id-aes128-wrap"),
    (6, "id-aes128-GCM"),
    (7, "id-aes128-CCM"),
    (8, "id-aes128-wrap-pad"),
    (21, "id-aes192-ECB"),
    (22, "id-aes192-CBC"),
    (23, "id-aes192-OFB"),
    (24, "id-aes192-CFB"),
    (25, "id-aes192-wrap"),
    (26, "id-aes192-GCM"),
    (27, "id-aes192-CCM"),
    (28, "id-aes192-wrap-pad"),
    (41, "id-aes256-ECB"),
    (42, "id-aes256-CBC"),
    (43, "id-aes256-OFB"),
    (44, "id-aes256-CFB"),
    (45, "id-aes256-wrap"),
    (46, "id-aes256-GCM"),
    (47, "id-aes256-CCM"),
    (48, "id-aes256-wrap-pad"),
];

/// The names under 2.16.840.1.101.3.4.2.
const UNDER_2_16_840_1_101_3_4_2: Names = &[
    (1, "id-sha256"),
    (2, "id-sha384"),
    (3, "id-sha512"),
    (4, "id-sha224"),
    (5, "id-sha512-224"),
    (6, "id-sha512-256"),
    (7, "id-sha3-224"),
    (8, "id-sha3-256"),
    (9, "id-sha3-384"),
    (10, "id-sha3-512"),
    (11, "id-shake128"),
    (12, "id-shake256"),
];

/// The names under 2.16.840.1.101.3.4.3.
const UNDER_2_16_840_1_101_3_4_3: Names = &[
    (1, "id-dsa-with-sha224"),
    (2, "id-dsa-with-sha256"),
    (3, "id-dsa-with-sha384"),
    (4, "id-dsa-with-sha512"),
    (9, "id-ecdsa-with-sha3-224"),
    (10, "id-ecdsa-with-sha3-256"),
    (11, "id-ecdsa-with-sha3-384"),
    (12, "id-ecdsa-with-sha3-512"),
    (13, "id-rsassa-pkcs1-v1-5-with-sha3-224"),
    (14, "id-rsassa-pkcs1-v1-5-with-sha3-256"),
    (15, "id-rsassa-pkcs1-v1-5-with-sha3-384"),
    (16, "id-rsassa-pkcs1-v1-5-with-sha3-512"),
    (17, "id-ml-dsa-44"),
    (18, "id-ml-dsa-65"),
    (19, "id-ml-dsa-87"),
];

/// All of them, by the arcs before the last.
pub const TABLE: Table = &[
    (&[2, 5, 4], UNDER_2_5_4),
    (&[2, 5, 29], UNDER_2_5_29),
    (&[2, 5, 29, 32], UNDER_2_5_29_32),
    (&[2, 5, 29, 37], UNDER_2_5_29_37),
    (&[2, 23, 140, 1], UNDER_2_23_140_1),
    (&[0, 4, 0, 1862, 1], UNDER_0_4_0_1862_1),
    (&[2, 23, 140, 1, 2], UNDER_2_23_140_1_2),
    (&[0, 4, 0, 1862, 1, 6], UNDER_0_4_0_1862_1_6),
    (
        &[0, 9, 2342, 19200300, 100, 1],
        UNDER_0_9_2342_19200300_100_1,
    ),
    (&[2, 16, 840, 1, 113730, 1], UNDER_2_16_840_1_113730_1),
    (&[2, 16, 840, 1, 101, 3, 4, 1], UNDER_2_16_840_1_101_3_4_1),
    (&[2, 16, 840, 1, 101, 3, 4, 2], UNDER_2_16_840_1_101_3_4_2),
    (&[2, 16, 840, 1, 101, 3, 4, 3], UNDER_2_16_840_1_101_3_4_3),
];
