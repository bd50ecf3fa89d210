//! Names of the identifiers of ISO's member bodies, under 1.2.
//! This file is written by `tools/make_object_identifiers.py`.

use crate::table::{Names, Table};

/// The names under 1.2.840.113549.
const UNDER_1_2_840_113549: Names = &[(2, "digestAlgorithm")];

/// The names under 1.2.156.10197.1.
const UNDER_1_2_156_10197_1: Names = &[(301, "curveSM2"), (501, "sm2sign-with-sm3")];

/// The names under 1.2.643.2.2.
const UNDER_1_2_643_2_2: Names = &[
    (3, "id-GostR3411-94-with-GostR3410-2001"),
    (19, "id-GostR3410-2001"),
];

/// The names under 1.2.840.10040.4.
const UNDER_1_2_840_10040_4: Names = &[(1, "id-dsa"), (3, "id-dsa-with-sha1")];

/// The names under 1.2.840.10045.2.
const UNDER_1_2_840_10045_2: Names = &[(1, "id-ecPublicKey")];

/// The names under 1.2.840.10045.4.
const UNDER_1_2_840_10045_4: Names = &[(1, "ecdsa-with-SHA1")];

/// The names under 1.2.840.10046.2.
const UNDER_1_2_840_10046_2: Names = &[(1, "dhpublicnumber")];

/// The names under 1.2.840.113549.2.
const UNDER_1_2_840_113549_2: Names = &[
    (5, "id-md5"),
    (7, "id-hmacWithSHA1"),
    (8, "id-hmacWithSHA224"),
    (9, "id-hmacWithSHA256"),
    (10, "id-hmacWithSHA384"),
    (11, "id-hmacWithSHA512"),
];

/// The names under 1.2.840.10045.3.1.
const UNDER_1_2_840_10045_3_1: Names = &[(1, "secp192r1"), (7, "secp256r1")];

/// The names under 1.2.840.10045.4.3.
const UNDER_1_2_840_10045_4_3: Names = &[
    (2, "ecdsa-with-SHA256"),
    (3, "ecdsa-with-SHA384"),
    (4, "ecdsa-with-SHA512"),
];

/// The names under 1.2.840.48018.1.2.
const UNDER_1_2_840_48018_1_2: Names = &[(2, "ms-krb5")];

/// The names under 1.2.840.113549.1.1.
const UNDER_1_2_840_113549_1_1: Names = &[
    (1, "rsaEncryption"),
    (2, "md2WithRSAEncryption"),
    (4, "md5WithRSAEncryption"),
    (5, "sha1WithRSAEncryption"),
    (8, "id-mgf1"),
    (10, "id-RSASSA-PSS"),
    (11, "sha256WithRSAEncryption"),
    (12, "sha384WithRSAEncryption"),
    (13, "sha512WithRSAEncryption"),
    (14, "sha224WithRSAEncryption"),
];

/// The names under 1.2.840.113549.1.3.
const UNDER_1_2_840_113549_1_3: Names = &[(1, "dhKeyAgreement")];

/// The names under 1.2.840.113549.1.5.
const UNDER_1_2_840_113549_1_5: Names = &[(12, "id-PBKDF2"), (13, "id-PBES2")];

/// The names under 1.2.840.113549.1.7.
const UNDER_1_2_840_113549_1_7: Names = &[
    (1, "id-data"),
    (2, "id-signedData"),
    (3, "id-envelopedData"),
    (6, "id-encryptedData"),
];

/// The names under 1.2.840.113549.1.9.
const UNDER_1_2_840_113549_1_9: Names = &[
    (1, "emailAddress"),
    (2, "unstructuredName"),
    (3, "contentType"),
    (4, "messageDigest"),
    (5, "signingTime"),
    (6, "countersignature"),
    (7, "challengePassword"),
    (14, "extensionRequest"),
    (20, "friendlyName"),
    (21, "localKeyId"),
];

/// The names under 1.2.840.113554.1.2.
const UNDER_1_2_840_113554_1_2: Names = &[(2, "krb5")];

/// The names under 1.2.643.7.1.1.1.
const UNDER_1_2_643_7_1_1_1: Names = &[
    (1, "id-tc26-gost3410-12-256"),
    (2, "id-tc26-gost3410-12-512"),
];

/// The names under 1.2.643.7.1.1.3.
const UNDER_1_2_643_7_1_1_3: Names = &[
    (2, "id-tc26-signwithdigest-gost3410-12-256"),
    (3, "id-tc26-signwithdigest-gost3410-12-512"),
];

/// The names under 1.2.840.113549.1.9.22.
const UNDER_1_2_840_113549_1_9_22: Names = &[(1, "x509Certificate")];

/// The names under 1.2.840.113549.1.9.23.
const UNDER_1_2_840_113549_1_9_23: Names = &[(1, "x509CRL")];

/// The names under 1.2.840.113549.1.12.1.
const UNDER_1_2_840_113549_1_12_1: Names = &[
    (3, "pbeWithSHAAnd3-KeyTripleDES-CBC"),
    (6, "pbeWithSHAAnd40BitRC2-CBC"),
];

/// The names under 1.2.840.113554.1.2.2.
const UNDER_1_2_840_113554_1_2_2: Names = &[(3, "krb5-user-to-user")];

/// The names under 1.2.840.113549.1.12.10.1.
const UNDER_1_2_840_113549_1_12_10_1: Names = &[
    (1, "keyBag"),
    (2, "pkcs8ShroudedKeyBag"),
    (3, "certBag"),
    (4, "crlBag"),
    (5, "secretBag"),
    (6, "safeContentsBag"),
];

/// All of them, by the arcs before the last.
pub const TABLE: Table = &[
    (&[1, 2, 840, 113549], UNDER_1_2_840_113549),
    (&[1, 2, 156, 10197, 1], UNDER_1_2_156_10197_1),
    (&[1, 2, 643, 2, 2], UNDER_1_2_643_2_2),
    (&[1, 2, 840, 10040, 4], UNDER_1_2_840_10040_4),
    (&[1, 2, 840, 10045, 2], UNDER_1_2_840_10045_2),
    (&[1, 2, 840, 10045, 4], UNDER_1_2_840_10045_4),
    (&[1, 2, 840, 10046, 2], UNDER_1_2_840_10046_2),
    (&[1, 2, 840, 113549, 2], UNDER_1_2_840_113549_2),
    (&[1, 2, 840, 10045, 3, 1], UNDER_1_2_840_10045_3_1),
    (&[1, 2, 840, 10045, 4, 3], UNDER_1_2_840_10045_4_3),
    (&[1, 2, 840, 48018, 1, 2], UNDER_1_2_840_48018_1_2),
    (&[1, 2, 840, 113549, 1, 1], UNDER_1_2_840_113549_1_1),
    (&[1, 2, 840, 113549, 1, 3], UNDER_1_2_840_113549_1_3),
    (&[1, 2, 840, 113549, 1, 5], UNDER_1_2_840_113549_1_5),
    (&[1, 2, 840, 113549, 1, 7], UNDER_1_2_840_113549_1_7),
    (&[1, 2, 840, 113549, 1, 9], UNDER_1_2_840_113549_1_9),
    (&[1, 2, 840, 113554, 1, 2], UNDER_1_2_840_113554_1_2),
    (&[1, 2, 643, 7, 1, 1, 1], UNDER_1_2_643_7_1_1_1),
    (&[1, 2, 643, 7, 1, 1, 3], UNDER_1_2_643_7_1_1_3),
    (&[1, 2, 840, 113549, 1, 9, 22], UNDER_1_2_840_113549_1_9_22),
    (&[1, 2, 840, 113549, 1, 9, 23], UNDER_1_2_840_113549_1_9_23),
    (&[1, 2, 840, 113549, 1, 12, 1], UNDER_1_2_840_113549_1_12_1),
    (&[1, 2, 840, 113554, 1, 2, 2], UNDER_1_2_840_113554_1_2_2),
    (
        &[1, 2, 840, 113549, 1, 12, 10, 1],
        UNDER_1_2_840_113549_1_12_10_1,
    ),
];
