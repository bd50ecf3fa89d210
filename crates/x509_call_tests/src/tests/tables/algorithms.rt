//! The object identifiers of algorithms, beside their texts.

use super::Checked;
use std::alloc::Allocator;
use x509_oids_algorithms as oids;

fn lines_1<A: Allocator + Copy>(alloc: A, checked: &mut Checked) {
    lines! { checked, alloc:
        DSA_WITH_SHA1 dsa_with_sha1 "1.2.840.10040.4.3";
        DIFFIE_HELLMAN diffie_hellman "1.2.840.10046.2.1";
        EC_PUBLIC_KEY ec_public_key "1.2.840.10045.2.1";
        SECP192R1 secp192r1 "1.2.840.10045.3.1.1";
        SECP256R1 secp256r1 "1.2.840.10045.3.1.7";
        ECDSA_WITH_SHA256 ecdsa_with_sha256 "1.2.840.10045.4.3.2";
        ECDSA_WITH_SHA384 ecdsa_with_sha384 "1.2.840.10045.4.3.3";
        ECDSA_WITH_SHA512 ecdsa_with_sha512 "1.2.840.10045.4.3.4";
        RSA_ENCRYPTION rsa_encryption "1.2.840.113549.1.1.1";
        MD5_WITH_RSA_ENCRYPTHION md5_with_rsa_encryption "1.2.840.113549.1.1.4";
        SHA1_WITH_RSA_ENCRYPTION sha1_with_rsa_encryption "1.2.840.113549.1.1.5";
        ID_MGF1 id_mgf1 "1.2.840.113549.1.1.8";
        RSASSA_PSS rsassa_pss "1.2.840.113549.1.1.10";
        SHA256_WITH_RSA_ENCRYPTION sha256_with_rsa_encryption "1.2.840.113549.1.1.11";
        SHA384_WITH_RSA_ENCRYPTION sha384_with_rsa_encryption "1.2.840.113549.1.1.12";
        SHA512_WITH_RSA_ENCRYPTION sha512_with_rsa_encryption "1.2.840.113549.1.1.13";
    }
}

fn lines_2<A: Allocator + Copy>(alloc: A, checked: &mut Checked) {
    lines! { checked, alloc:
        SHA224_WITH_RSA_ENCRYPTION sha224_with_rsa_encryption "1.2.840.113549.1.1.14";
        PBKDF2 pbkdf2 "1.2.840.113549.1.5.12";
        PBES2 pbes2 "1.2.840.113549.1.5.13";
        DSA_WITH_SHA224 dsa_with_sha224 "2.16.840.1.101.3.4.3.1";
        DSA_WITH_SHA256 dsa_with_sha256 "2.16.840.1.101.3.4.3.2";
        DSA_WITH_SHA384 dsa_with_sha384 "2.16.840.1.101.3.4.3.3";
        DSA_WITH_SHA512 dsa_with_sha512 "2.16.840.1.101.3.4.3.4";
        ID_ECDSA_WITH_SHA3_224 id_ecdsa_with_sha3_224 "2.16.840.1.101.3.4.3.9";
        ID_ECDSA_WITH_SHA3_256 id_ecdsa_with_sha3_256 "2.16.840.1.101.3.4.3.10";
        ID_ECDSA_WITH_SHA3_384 id_ecdsa_with_sha3_384 "2.16.840.1.101.3.4.3.11";
        ID_ECDSA_WITH_SHA3_512 id_ecdsa_with_sha3_512 "2.16.840.1.101.3.4.3.12";
        ID_RSASSA_PKCS1_V1_5_WITH_SHA3_224 id_rsassa_pkcs1_v1_5_with_sha3_224 "2.16.840.1.101.3.4.3.13";
        ID_RSASSA_PKCS1_V1_5_WITH_SHA3_256 id_rsassa_pkcs1_v1_5_with_sha3_256 "2.16.840.1.101.3.4.3.14";
        ID_RSASSA_PKCS1_V1_5_WITH_SHA3_384 id_rsassa_pkcs1_v1_5_with_sha3_384 "2.16.840.1.101.3.4.3.15";
        ID_RSASSA_PKCS1_V1_5_WITH_SHA3_512 id_rsassa_pkcs1_v1_5_with_sha3_512 "2.16.840.1.101.3.4.3.16";
        ID_MLDSA_44 id_mldsa_44 "2.16.840.1.101.3.4.3.17";
    }
}

fn lines_3<A: Allocator + Copy>(alloc: A, checked: &mut Checked) {
    lines! { checked, alloc:
        ID_MLDSA_65 id_mldsa_65 "2.16.840.1.101.3.4.3.18";
        ID_MLDSA_87 id_mldsa_87 "2.16.840.1.101.3.4.3.19";
        SECT163K1 sect163k1 "1.3.132.0.1";
        SECT163R2 sect163r2 "1.3.132.0.15";
        SECT283K1 sect283k1 "1.3.132.0.16";
        SECT283R1 sect283r1 "1.3.132.0.17";
        SECT233K1 sect233k1 "1.3.132.0.26";
        SECT233R1 sect233r1 "1.3.132.0.27";
        SECP224R1 secp224r1 "1.3.132.0.33";
        SECP384R1 secp384r1 "1.3.132.0.34";
        SECP521R1 secp521r1 "1.3.132.0.35";
        SECT409K1 sect409k1 "1.3.132.0.36";
        SECT409R1 sect409r1 "1.3.132.0.37";
        SECT571K1 sect571k1 "1.3.132.0.38";
        SECT571R1 sect571r1 "1.3.132.0.39";
        X25519 x25519 "1.3.101.110";
    }
}

fn lines_4<A: Allocator + Copy>(alloc: A, checked: &mut Checked) {
    lines! { checked, alloc:
        X448 x448 "1.3.101.111";
        ED25519 ed25519 "1.3.101.112";
        ED448 ed448 "1.3.101.113";
        AES128_ECB aes128_ecb "2.16.840.1.101.3.4.1.1";
        AES128_CBC aes128_cbc "2.16.840.1.101.3.4.1.2";
        AES128_OFB aes128_ofb "2.16.840.1.101.3.4.1.3";
        AES128_CFB aes128_cfb "2.16.840.1.101.3.4.1.4";
        AES128_WRAP aes128_wrap "2.16.840.1.101.3.4.1.5";
        AES128_GCM aes128_gcm "2.16.840.1.101.3.4.1.6";
        AES128_CCM aes128_ccm "2.16.840.1.101.3.4.1.7";
        AES128_WRAP_PAD aes128_wrap_pad "2.16.840.1.101.3.4.1.8";
        AES192_ECB aes192_ecb "2.16.840.1.101.3.4.1.21";
        AES192_CBC aes192_cbc "2.16.840.1.101.3.4.1.22";
        AES192_OFB aes192_ofb "2.16.840.1.101.3.4.1.23";
        AES192_CFB aes192_cfb "2.16.840.1.101.3.4.1.24";
        AES192_WRAP aes192_wrap "2.16.840.1.101.3.4.1.25";
    }
}

fn lines_5<A: Allocator + Copy>(alloc: A, checked: &mut Checked) {
    lines! { checked, alloc:
        AES192_GCM aes192_gcm "2.16.840.1.101.3.4.1.26";
        AES192_CCM aes192_ccm "2.16.840.1.101.3.4.1.27";
        AES192_WRAP_PAD aes192_wrap_pad "2.16.840.1.101.3.4.1.28";
        AES256_ECB aes256_ecb "2.16.840.1.101.3.4.1.41";
        AES256_CBC aes256_cbc "2.16.840.1.101.3.4.1.42";
        AES256_OFB aes256_ofb "2.16.840.1.101.3.4.1.43";
        AES256_CFB aes256_cfb "2.16.840.1.101.3.4.1.44";
        AES256_WRAP aes256_wrap "2.16.840.1.101.3.4.1.45";
        AES256_GCM aes256_gcm "2.16.840.1.101.3.4.1.46";
        AES256_CCM aes256_ccm "2.16.840.1.101.3.4.1.47";
        AES256_WRAP_PAD aes256_wrap_pad "2.16.840.1.101.3.4.1.48";
        DIGEST_ALGORITHM digest_algorithm "1.2.840.113549.2";
        MD5 md5 "1.2.840.113549.2.5";
        HMAC_WITH_SHA1 hmac_with_sha1 "1.2.840.113549.2.7";
        HMAC_WITH_SHA224 hmac_with_sha224 "1.2.840.113549.2.8";
        HMAC_WITH_SHA256 hmac_with_sha256 "1.2.840.113549.2.9";
    }
}

fn lines_6<A: Allocator + Copy>(alloc: A, checked: &mut Checked) {
    lines! { checked, alloc:
        HMAC_WITH_SHA384 hmac_with_sha384 "1.2.840.113549.2.10";
        HMAC_WITH_SHA512 hmac_with_sha512 "1.2.840.113549.2.11";
        SHA1 sha1 "1.3.14.3.2.26";
        SHA256 sha256 "2.16.840.1.101.3.4.2.1";
        SHA384 sha384 "2.16.840.1.101.3.4.2.2";
        SHA512 sha512 "2.16.840.1.101.3.4.2.3";
        SHA224 sha224 "2.16.840.1.101.3.4.2.4";
        SHA512_224 sha512_224 "2.16.840.1.101.3.4.2.5";
        SHA512_256 sha512_256 "2.16.840.1.101.3.4.2.6";
        SHA3_224 sha3_224 "2.16.840.1.101.3.4.2.7";
        SHA3_256 sha3_256 "2.16.840.1.101.3.4.2.8";
        SHA3_384 sha3_384 "2.16.840.1.101.3.4.2.9";
        SHA3_512 sha3_512 "2.16.840.1.101.3.4.2.10";
        SHAKE128 shake128 "2.16.840.1.101.3.4.2.11";
        SHAKE256 shake256 "2.16.840.1.101.3.4.2.12";
    }
}

/// Each line in turn.
pub(super) fn lines<A: Allocator + Copy>(alloc: A, checked: &mut Checked) {
    lines_1(alloc, checked);
    lines_2(alloc, checked);
    lines_3(alloc, checked);
    lines_4(alloc, checked);
    lines_5(alloc, checked);
    lines_6(alloc, checked);
}
