//! What further names stand for, and short ones.
//!
//! This file is written by `tools/make_object_identifiers.py`.

use crate::table::Table;

/// From `C` to `UID`.
const NAMES_1: Table = &[
    ("C", &[2, 5, 4, 6]),
    ("CERTIFICATE_TEMPLATE", &[1, 3, 6, 1, 4, 1, 311, 21, 7]),
    ("CN", &[2, 5, 4, 3]),
    ("DC", &[0, 9, 2342, 19200300, 100, 1, 25]),
    ("ENROLL_CERTTYPE_EXTENSION", &[1, 3, 6, 1, 4, 1, 311, 20, 2]),
    ("Ed25519", &[1, 3, 101, 112]),
    ("Ed448", &[1, 3, 101, 113]),
    ("GN", &[2, 5, 4, 42]),
    ("L", &[2, 5, 4, 7]),
    ("O", &[2, 5, 4, 10]),
    ("OCSPSigning", &[1, 3, 6, 1, 5, 5, 7, 3, 9]),
    ("OU", &[2, 5, 4, 11]),
    ("SN", &[2, 5, 4, 4]),
    ("ST", &[2, 5, 4, 8]),
    ("STREET", &[2, 5, 4, 9]),
    ("UID", &[0, 9, 2342, 19200300, 100, 1, 1]),
];

/// From `anyPolicy` to `id-GostR3410-2001`.
const NAMES_2: Table = &[
    ("anyPolicy", &[2, 5, 29, 32, 0]),
    ("businessCategory", &[2, 5, 4, 15]),
    ("challengePassword", &[1, 2, 840, 113549, 1, 9, 7]),
    ("clientAuth", &[1, 3, 6, 1, 5, 5, 7, 3, 2]),
    ("codeSigning", &[1, 3, 6, 1, 5, 5, 7, 3, 3]),
    ("curveSM2", &[1, 2, 156, 10197, 1, 301]),
    ("description", &[2, 5, 4, 13]),
    ("dhKeyAgreement", &[1, 2, 840, 113549, 1, 3, 1]),
    ("dnQualifier", &[2, 5, 4, 46]),
    ("domain-validated", &[2, 23, 140, 1, 2, 1]),
    ("domainComponent", &[0, 9, 2342, 19200300, 100, 1, 25]),
    ("ecdsa-with-SHA1", &[1, 2, 840, 10045, 4, 1]),
    ("emailProtection", &[1, 3, 6, 1, 5, 5, 7, 3, 4]),
    ("ev-guidelines", &[2, 23, 140, 1, 1]),
    ("generationQualifier", &[2, 5, 4, 44]),
    ("id-GostR3410-2001", &[1, 2, 643, 2, 2, 19]),
];

/// From `id-GostR3411-94-with-GostR3410-2001` to `id-ce-nameConstraints`.
const NAMES_3: Table = &[
    ("id-GostR3411-94-with-GostR3410-2001", &[1, 2, 643, 2, 2, 3]),
    ("id-ad-caIssuers", &[1, 3, 6, 1, 5, 5, 7, 48, 2]),
    ("id-ad-caRepository", &[1, 3, 6, 1, 5, 5, 7, 48, 5]),
    ("id-ad-ocsp", &[1, 3, 6, 1, 5, 5, 7, 48, 1]),
    ("id-ad-timeStamping", &[1, 3, 6, 1, 5, 5, 7, 48, 3]),
    ("id-ce-cRLDistributionPoints", &[2, 5, 29, 31]),
    ("id-ce-cRLReasons", &[2, 5, 29, 21]),
    ("id-ce-certificateIssuer", &[2, 5, 29, 29]),
    ("id-ce-certificatePolicies", &[2, 5, 29, 32]),
    ("id-ce-deltaCRLIndicator", &[2, 5, 29, 27]),
    ("id-ce-freshestCRL", &[2, 5, 29, 46]),
    ("id-ce-holdInstructionCode", &[2, 5, 29, 23]),
    ("id-ce-inhibitAnyPolicy", &[2, 5, 29, 54]),
    ("id-ce-invalidityDate", &[2, 5, 29, 24]),
    ("id-ce-issuingDistributionPoint", &[2, 5, 29, 28]),
    ("id-ce-nameConstraints", &[2, 5, 29, 30]),
];

/// From `id-ce-policyConstraints` to `id-pda-countryOfCitizenship`.
const NAMES_4: Table = &[
    ("id-ce-policyConstraints", &[2, 5, 29, 36]),
    ("id-ce-policyMappings", &[2, 5, 29, 33]),
    ("id-ce-privateKeyUsagePeriod", &[2, 5, 29, 16]),
    ("id-ce-subjectDirectoryAttributes", &[2, 5, 29, 9]),
    ("id-dsa", &[1, 2, 840, 10040, 4, 1]),
    ("id-etsi-qcs-QcCClegislation", &[0, 4, 0, 1862, 1, 7]),
    ("id-etsi-qcs-QcCompliance", &[0, 4, 0, 1862, 1, 1]),
    ("id-etsi-qcs-QcLimitValue", &[0, 4, 0, 1862, 1, 2]),
    ("id-etsi-qcs-QcPDS", &[0, 4, 0, 1862, 1, 5]),
    ("id-etsi-qcs-QcRetentionPeriod", &[0, 4, 0, 1862, 1, 3]),
    ("id-etsi-qcs-QcSSCD", &[0, 4, 0, 1862, 1, 4]),
    ("id-etsi-qcs-QcType", &[0, 4, 0, 1862, 1, 6]),
    ("id-etsi-qct-eseal", &[0, 4, 0, 1862, 1, 6, 2]),
    ("id-etsi-qct-esign", &[0, 4, 0, 1862, 1, 6, 1]),
    ("id-etsi-qct-web", &[0, 4, 0, 1862, 1, 6, 3]),
    ("id-pda-countryOfCitizenship", &[1, 3, 6, 1, 5, 5, 7, 9, 4]),
];

/// From `id-pda-countryOfResidence` to `id-tc26-signwithdigest-gost3410-12-256`.
const NAMES_5: Table = &[
    ("id-pda-countryOfResidence", &[1, 3, 6, 1, 5, 5, 7, 9, 5]),
    ("id-pda-dateOfBirth", &[1, 3, 6, 1, 5, 5, 7, 9, 1]),
    ("id-pda-gender", &[1, 3, 6, 1, 5, 5, 7, 9, 3]),
    ("id-pda-placeOfBirth", &[1, 3, 6, 1, 5, 5, 7, 9, 2]),
    ("id-pe-authorityInfoAccess", &[1, 3, 6, 1, 5, 5, 7, 1, 1]),
    ("id-pe-qcStatements", &[1, 3, 6, 1, 5, 5, 7, 1, 3]),
    ("id-pe-subjectInfoAccess", &[1, 3, 6, 1, 5, 5, 7, 1, 11]),
    ("id-pe-tlsfeature", &[1, 3, 6, 1, 5, 5, 7, 1, 24]),
    ("id-pkix-ocsp-nocheck", &[1, 3, 6, 1, 5, 5, 7, 48, 1, 5]),
    ("id-qcs-pkixQCSyntax-v1", &[1, 3, 6, 1, 5, 5, 7, 11, 1]),
    ("id-qcs-pkixQCSyntax-v2", &[1, 3, 6, 1, 5, 5, 7, 11, 2]),
    ("id-qt-cps", &[1, 3, 6, 1, 5, 5, 7, 2, 1]),
    ("id-qt-unotice", &[1, 3, 6, 1, 5, 5, 7, 2, 2]),
    ("id-tc26-gost3410-12-256", &[1, 2, 643, 7, 1, 1, 1, 1]),
    ("id-tc26-gost3410-12-512", &[1, 2, 643, 7, 1, 1, 1, 2]),
    (
        "id-tc26-signwithdigest-gost3410-12-256",
        &[1, 2, 643, 7, 1, 1, 3, 2],
    ),
];

/// From `id-tc26-signwithdigest-gost3410-12-512` to `serverAuth`.
const NAMES_6: Table = &[
    (
        "id-tc26-signwithdigest-gost3410-12-512",
        &[1, 2, 643, 7, 1, 1, 3, 3],
    ),
    ("individual-validated", &[2, 23, 140, 1, 2, 3]),
    ("initials", &[2, 5, 4, 43]),
    (
        "jurisdictionCountryName",
        &[1, 3, 6, 1, 4, 1, 311, 60, 2, 1, 3],
    ),
    (
        "jurisdictionLocalityName",
        &[1, 3, 6, 1, 4, 1, 311, 60, 2, 1, 1],
    ),
    (
        "jurisdictionStateOrProvinceName",
        &[1, 3, 6, 1, 4, 1, 311, 60, 2, 1, 2],
    ),
    ("md2WithRSAEncryption", &[1, 2, 840, 113549, 1, 1, 2]),
    ("name", &[2, 5, 4, 41]),
    ("netscape-cert-type", &[2, 16, 840, 1, 113730, 1, 1]),
    ("netscape-comment", &[2, 16, 840, 1, 113730, 1, 13]),
    ("organization-validated", &[2, 23, 140, 1, 2, 2]),
    ("organizationIdentifier", &[2, 5, 4, 97]),
    ("postalCode", &[2, 5, 4, 17]),
    ("precertificatePoison", &[1, 3, 6, 1, 4, 1, 11129, 2, 4, 3]),
    ("pseudonym", &[2, 5, 4, 65]),
    ("serverAuth", &[1, 3, 6, 1, 5, 5, 7, 3, 1]),
];

/// From `signedCertificateTimestampList` to `userId`.
const NAMES_7: Table = &[
    (
        "signedCertificateTimestampList",
        &[1, 3, 6, 1, 4, 1, 11129, 2, 4, 2],
    ),
    ("sm2sign-with-sm3", &[1, 2, 156, 10197, 1, 501]),
    ("timeStamping", &[1, 3, 6, 1, 5, 5, 7, 3, 8]),
    ("title", &[2, 5, 4, 12]),
    ("unstructuredName", &[1, 2, 840, 113549, 1, 9, 2]),
    ("userId", &[0, 9, 2342, 19200300, 100, 1, 1]),
];

/// All of them.
pub const TABLES: &'static [Table] = &[
    NAMES_1, NAMES_2, NAMES_3, NAMES_4, NAMES_5, NAMES_6, NAMES_7,
];
