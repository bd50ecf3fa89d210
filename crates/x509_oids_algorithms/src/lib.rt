//! Object identifiers of algorithms and curves.
//!
//! Each has a constant, its dotted text, and a function that makes it. This file is written by
//! `tools/make_object_identifiers.py` from `tools/object_identifiers.tsv`.
#![tactic(auto, unfolding(x509_der::specs::ObjectIdentifier::digits))]

ghost use Rattle.std.specs.Prelude.{◌≡◌, ◌∷◌, [], IfOk};
ghost use Rattle.x509_der.specs.ObjectIdentifier.{dotted};

use std::alloc::{AllocError, Allocator};
use x509_der::ObjectIdentifier;
use x509_der::parts::from_lawful;

/// `1.2.840.10040.4.3` (RFC 3279, 2.2.2).
pub const DSA_WITH_SHA1: &'static str = "1.2.840.10040.4.3";

/// The object identifier `DSA_WITH_SHA1`, `1.2.840.10040.4.3`.
///
/// # Errors
/// `AllocError` where memory is refused.
pub fn dsa_with_sha1<A: Allocator>(alloc: A) -> Result<ObjectIdentifier<A>, AllocError>
    ensures arcs { IfOk result (λ o. o ≡ 1 ∷ 2 ∷ 840 ∷ 10040 ∷ 4 ∷ 3 ∷ []) }
    ensures text { DSA_WITH_SHA1.now ≡ dotted (1 ∷ 2 ∷ 840 ∷ 10040 ∷ 4 ∷ 3 ∷ []) }
{
    from_lawful(alloc, &[1, 2, 840, 10040, 4, 3])
}

/// `1.2.840.10046.2.1` (RFC 3279, 2.3.3).
pub const DIFFIE_HELLMAN: &'static str = "1.2.840.10046.2.1";

/// The object identifier `DIFFIE_HELLMAN`, `1.2.840.10046.2.1`.
///
/// # Errors
/// `AllocError` where memory is refused.
pub fn diffie_hellman<A: Allocator>(alloc: A) -> Result<ObjectIdentifier<A>, AllocError>
    ensures arcs { IfOk result (λ o. o ≡ 1 ∷ 2 ∷ 840 ∷ 10046 ∷ 2 ∷ 1 ∷ []) }
    ensures text { DIFFIE_HELLMAN.now ≡ dotted (1 ∷ 2 ∷ 840 ∷ 10046 ∷ 2 ∷ 1 ∷ []) }
{
    from_lawful(alloc, &[1, 2, 840, 10046, 2, 1])
}

/// `1.2.840.10045.2.1` (RFC 5480, 2.1.1).
pub const EC_PUBLIC_KEY: &'static str = "1.2.840.10045.2.1";

/// The object identifier `EC_PUBLIC_KEY`, `1.2.840.10045.2.1`.
///
/// # Errors
/// `AllocError` where memory is refused.
pub fn ec_public_key<A: Allocator>(alloc: A) -> Result<ObjectIdentifier<A>, AllocError>
    ensures arcs { IfOk result (λ o. o ≡ 1 ∷ 2 ∷ 840 ∷ 10045 ∷ 2 ∷ 1 ∷ []) }
    ensures text { EC_PUBLIC_KEY.now ≡ dotted (1 ∷ 2 ∷ 840 ∷ 10045 ∷ 2 ∷ 1 ∷ []) }
{
    from_lawful(alloc, &[1, 2, 840, 10045, 2, 1])
}

/// `1.2.840.10045.3.1.1` (RFC 5480, 2.1.1.1).
pub const SECP192R1: &'static str = "1.2.840.10045.3.1.1";

/// The object identifier `SECP192R1`, `1.2.840.10045.3.1.1`.
///
/// # Errors
/// `AllocError` where memory is refused.
pub fn secp192r1<A: Allocator>(alloc: A) -> Result<ObjectIdentifier<A>, AllocError>
    ensures arcs { IfOk result (λ o. o ≡ 1 ∷ 2 ∷ 840 ∷ 10045 ∷ 3 ∷ 1 ∷ 1 ∷ []) }
    ensures text { SECP192R1.now ≡ dotted (1 ∷ 2 ∷ 840 ∷ 10045 ∷ 3 ∷ 1 ∷ 1 ∷ []) }
{
    from_lawful(alloc, &[1, 2, 840, 10045, 3, 1, 1])
}

/// `1.2.840.10045.3.1.7` (RFC 5480, 2.1.1.1).
pub const SECP256R1: &'static str = "1.2.840.10045.3.1.7";

/// The object identifier `SECP256R1`, `1.2.840.10045.3.1.7`.
///
/// # Errors
/// `AllocError` where memory is refused.
pub fn secp256r1<A: Allocator>(alloc: A) -> Result<ObjectIdentifier<A>, AllocError>
    ensures arcs { IfOk result (λ o. o ≡ 1 ∷ 2 ∷ 840 ∷ 10045 ∷ 3 ∷ 1 ∷ 7 ∷ []) }
    ensures text { SECP256R1.now ≡ dotted (1 ∷ 2 ∷ 840 ∷ 10045 ∷ 3 ∷ 1 ∷ 7 ∷ []) }
{
    from_lawful(alloc, &[1, 2, 840, 10045, 3, 1, 7])
}

/// `1.2.840.10045.4.3.2` (RFC 5758, 3.2).
pub const ECDSA_WITH_SHA256: &'static str = "1.2.840.10045.4.3.2";

/// The object identifier `ECDSA_WITH_SHA256`, `1.2.840.10045.4.3.2`.
///
/// # Errors
/// `AllocError` where memory is refused.
pub fn ecdsa_with_sha256<A: Allocator>(alloc: A) -> Result<ObjectIdentifier<A>, AllocError>
    ensures arcs { IfOk result (λ o. o ≡ 1 ∷ 2 ∷ 840 ∷ 10045 ∷ 4 ∷ 3 ∷ 2 ∷ []) }
    ensures text { ECDSA_WITH_SHA256.now ≡ dotted (1 ∷ 2 ∷ 840 ∷ 10045 ∷ 4 ∷ 3 ∷ 2 ∷ []) }
{
    from_lawful(alloc, &[1, 2, 840, 10045, 4, 3, 2])
}

/// `1.2.840.10045.4.3.3` (RFC 5758, 3.2).
pub const ECDSA_WITH_SHA384: &'static str = "1.2.840.10045.4.3.3";

/// The object identifier `ECDSA_WITH_SHA384`, `1.2.840.10045.4.3.3`.
///
/// # Errors
/// `AllocError` where memory is refused.
pub fn ecdsa_with_sha384<A: Allocator>(alloc: A) -> Result<ObjectIdentifier<A>, AllocError>
    ensures arcs { IfOk result (λ o. o ≡ 1 ∷ 2 ∷ 840 ∷ 10045 ∷ 4 ∷ 3 ∷ 3 ∷ []) }
    ensures text { ECDSA_WITH_SHA384.now ≡ dotted (1 ∷ 2 ∷ 840 ∷ 10045 ∷ 4 ∷ 3 ∷ 3 ∷ []) }
{
    from_lawful(alloc, &[1, 2, 840, 10045, 4, 3, 3])
}

/// `1.2.840.10045.4.3.4` (RFC 5758, 3.2).
pub const ECDSA_WITH_SHA512: &'static str = "1.2.840.10045.4.3.4";

/// The object identifier `ECDSA_WITH_SHA512`, `1.2.840.10045.4.3.4`.
///
/// # Errors
/// `AllocError` where memory is refused.
pub fn ecdsa_with_sha512<A: Allocator>(alloc: A) -> Result<ObjectIdentifier<A>, AllocError>
    ensures arcs { IfOk result (λ o. o ≡ 1 ∷ 2 ∷ 840 ∷ 10045 ∷ 4 ∷ 3 ∷ 4 ∷ []) }
    ensures text { ECDSA_WITH_SHA512.now ≡ dotted (1 ∷ 2 ∷ 840 ∷ 10045 ∷ 4 ∷ 3 ∷ 4 ∷ []) }
{
    from_lawful(alloc, &[1, 2, 840, 10045, 4, 3, 4])
}

/// `1.2.840.113549.1.1.1` (RFC 8017, A.1).
pub const RSA_ENCRYPTION: &'static str = "1.2.840.113549.1.1.1";

/// The object identifier `RSA_ENCRYPTION`, `1.2.840.113549.1.1.1`.
///
/// # Errors
/// `AllocError` where memory is refused.
pub fn rsa_encryption<A: Allocator>(alloc: A) -> Result<ObjectIdentifier<A>, AllocError>
    ensures arcs { IfOk result (λ o. o ≡ 1 ∷ 2 ∷ 840 ∷ 113549 ∷ 1 ∷ 1 ∷ 1 ∷ []) }
    ensures text { RSA_ENCRYPTION.now ≡ dotted (1 ∷ 2 ∷ 840 ∷ 113549 ∷ 1 ∷ 1 ∷ 1 ∷ []) }
{
    from_lawful(alloc, &[1, 2, 840, 113549, 1, 1, 1])
}

/// `1.2.840.113549.1.1.4` (RFC 8017, A.2.4).
pub const MD5_WITH_RSA_ENCRYPTHION: &'static str = "1.2.840.113549.1.1.4";

/// The object identifier `MD5_WITH_RSA_ENCRYPTHION`, `1.2.840.113549.1.1.4`.
///
/// # Errors
/// `AllocError` where memory is refused.
pub fn md5_with_rsa_encryption<A: Allocator>(alloc: A) -> Result<ObjectIdentifier<A>, AllocError>
    ensures arcs { IfOk result (λ o. o ≡ 1 ∷ 2 ∷ 840 ∷ 113549 ∷ 1 ∷ 1 ∷ 4 ∷ []) }
    ensures text { MD5_WITH_RSA_ENCRYPTHION.now ≡ dotted (1 ∷ 2 ∷ 840 ∷ 113549 ∷ 1 ∷ 1 ∷ 4 ∷ []) }
{
    from_lawful(alloc, &[1, 2, 840, 113549, 1, 1, 4])
}

/// `1.2.840.113549.1.1.5` (RFC 8017, A.2.4).
pub const SHA1_WITH_RSA_ENCRYPTION: &'static str = "1.2.840.113549.1.1.5";

/// The object identifier `SHA1_WITH_RSA_ENCRYPTION`, `1.2.840.113549.1.1.5`.
///
/// # Errors
/// `AllocError` where memory is refused.
pub fn sha1_with_rsa_encryption<A: Allocator>(alloc: A) -> Result<ObjectIdentifier<A>, AllocError>
    ensures arcs { IfOk result (λ o. o ≡ 1 ∷ 2 ∷ 840 ∷ 113549 ∷ 1 ∷ 1 ∷ 5 ∷ []) }
    ensures text { SHA1_WITH_RSA_ENCRYPTION.now ≡ dotted (1 ∷ 2 ∷ 840 ∷ 113549 ∷ 1 ∷ 1 ∷ 5 ∷ []) }
{
    from_lawful(alloc, &[1, 2, 840, 113549, 1, 1, 5])
}

/// `1.2.840.113549.1.1.8` (RFC 8017, A.2.1).
pub const ID_MGF1: &'static str = "1.2.840.113549.1.1.8";

/// The object identifier `ID_MGF1`, `1.2.840.113549.1.1.8`.
///
/// # Errors
/// `AllocError` where memory is refused.
pub fn id_mgf1<A: Allocator>(alloc: A) -> Result<ObjectIdentifier<A>, AllocError>
    ensures arcs { IfOk result (λ o. o ≡ 1 ∷ 2 ∷ 840 ∷ 113549 ∷ 1 ∷ 1 ∷ 8 ∷ []) }
    ensures text { ID_MGF1.now ≡ dotted (1 ∷ 2 ∷ 840 ∷ 113549 ∷ 1 ∷ 1 ∷ 8 ∷ []) }
{
    from_lawful(alloc, &[1, 2, 840, 113549, 1, 1, 8])
}

/// `1.2.840.113549.1.1.10` (RFC 8017, A.2.3).
pub const RSASSA_PSS: &'static str = "1.2.840.113549.1.1.10";

/// The object identifier `RSASSA_PSS`, `1.2.840.113549.1.1.10`.
///
/// # Errors
/// `AllocError` where memory is refused.
pub fn rsassa_pss<A: Allocator>(alloc: A) -> Result<ObjectIdentifier<A>, AllocError>
    ensures arcs { IfOk result (λ o. o ≡ 1 ∷ 2 ∷ 840 ∷ 113549 ∷ 1 ∷ 1 ∷ 10 ∷ []) }
    ensures text { RSASSA_PSS.now ≡ dotted (1 ∷ 2 ∷ 840 ∷ 113549 ∷ 1 ∷ 1 ∷ 10 ∷ []) }
{
    from_lawful(alloc, &[1, 2, 840, 113549, 1, 1, 10])
}

/// `1.2.840.113549.1.1.11` (RFC 8017, A.2.4).
pub const SHA256_WITH_RSA_ENCRYPTION: &'static str = "1.2.840.113549.1.1.11";

/// The object identifier `SHA256_WITH_RSA_ENCRYPTION`, `1.2.840.113549.1.1.11`.
///
/// # Errors
/// `AllocError` where memory is refused.
pub fn sha256_with_rsa_encryption<A: Allocator>(alloc: A) -> Result<ObjectIdentifier<A>, AllocError>
    ensures arcs { IfOk result (λ o. o ≡ 1 ∷ 2 ∷ 840 ∷ 113549 ∷ 1 ∷ 1 ∷ 11 ∷ []) }
    ensures text { SHA256_WITH_RSA_ENCRYPTION.now ≡ dotted (1 ∷ 2 ∷ 840 ∷ 113549 ∷ 1 ∷ 1 ∷ 11 ∷ []) }
{
    from_lawful(alloc, &[1, 2, 840, 113549, 1, 1, 11])
}

/// `1.2.840.113549.1.1.12` (RFC 8017, A.2.4).
pub const SHA384_WITH_RSA_ENCRYPTION: &'static str = "1.2.840.113549.1.1.12";

/// The object identifier `SHA384_WITH_RSA_ENCRYPTION`, `1.2.840.113549.1.1.12`.
///
/// # Errors
/// `AllocError` where memory is refused.
pub fn sha384_with_rsa_encryption<A: Allocator>(alloc: A) -> Result<ObjectIdentifier<A>, AllocError>
    ensures arcs { IfOk result (λ o. o ≡ 1 ∷ 2 ∷ 840 ∷ 113549 ∷ 1 ∷ 1 ∷ 12 ∷ []) }
    ensures text { SHA384_WITH_RSA_ENCRYPTION.now ≡ dotted (1 ∷ 2 ∷ 840 ∷ 113549 ∷ 1 ∷ 1 ∷ 12 ∷ []) }
{
    from_lawful(alloc, &[1, 2, 840, 113549, 1, 1, 12])
}

/// `1.2.840.113549.1.1.13` (RFC 8017, A.2.4).
pub const SHA512_WITH_RSA_ENCRYPTION: &'static str = "1.2.840.113549.1.1.13";

/// The object identifier `SHA512_WITH_RSA_ENCRYPTION`, `1.2.840.113549.1.1.13`.
///
/// # Errors
/// `AllocError` where memory is refused.
pub fn sha512_with_rsa_encryption<A: Allocator>(alloc: A) -> Result<ObjectIdentifier<A>, AllocError>
    ensures arcs { IfOk result (λ o. o ≡ 1 ∷ 2 ∷ 840 ∷ 113549 ∷ 1 ∷ 1 ∷ 13 ∷ []) }
    ensures text { SHA512_WITH_RSA_ENCRYPTION.now ≡ dotted (1 ∷ 2 ∷ 840 ∷ 113549 ∷ 1 ∷ 1 ∷ 13 ∷ []) }
{
    from_lawful(alloc, &[1, 2, 840, 113549, 1, 1, 13])
}

/// `1.2.840.113549.1.1.14` (RFC 8017, A.2.4).
pub const SHA224_WITH_RSA_ENCRYPTION: &'static str = "1.2.840.113549.1.1.14";

/// The object identifier `SHA224_WITH_RSA_ENCRYPTION`, `1.2.840.113549.1.1.14`.
///
/// # Errors
/// `AllocError` where memory is refused.
pub fn sha224_with_rsa_encryption<A: Allocator>(alloc: A) -> Result<ObjectIdentifier<A>, AllocError>
    ensures arcs { IfOk result (λ o. o ≡ 1 ∷ 2 ∷ 840 ∷ 113549 ∷ 1 ∷ 1 ∷ 14 ∷ []) }
    ensures text { SHA224_WITH_RSA_ENCRYPTION.now ≡ dotted (1 ∷ 2 ∷ 840 ∷ 113549 ∷ 1 ∷ 1 ∷ 14 ∷ []) }
{
    from_lawful(alloc, &[1, 2, 840, 113549, 1, 1, 14])
}

/// `1.2.840.113549.1.5.12` (RFC 8018, A.2).
pub const PBKDF2: &'static str = "1.2.840.113549.1.5.12";

/// The object identifier `PBKDF2`, `1.2.840.113549.1.5.12`.
///
/// # Errors
/// `AllocError` where memory is refused.
pub fn pbkdf2<A: Allocator>(alloc: A) -> Result<ObjectIdentifier<A>, AllocError>
    ensures arcs { IfOk result (λ o. o ≡ 1 ∷ 2 ∷ 840 ∷ 113549 ∷ 1 ∷ 5 ∷ 12 ∷ []) }
    ensures text { PBKDF2.now ≡ dotted (1 ∷ 2 ∷ 840 ∷ 113549 ∷ 1 ∷ 5 ∷ 12 ∷ []) }
{
    from_lawful(alloc, &[1, 2, 840, 113549, 1, 5, 12])
}

/// `1.2.840.113549.1.5.13` (RFC 8018, A.4).
pub const PBES2: &'static str = "1.2.840.113549.1.5.13";

/// The object identifier `PBES2`, `1.2.840.113549.1.5.13`.
///
/// # Errors
/// `AllocError` where memory is refused.
pub fn pbes2<A: Allocator>(alloc: A) -> Result<ObjectIdentifier<A>, AllocError>
    ensures arcs { IfOk result (λ o. o ≡ 1 ∷ 2 ∷ 840 ∷ 113549 ∷ 1 ∷ 5 ∷ 13 ∷ []) }
    ensures text { PBES2.now ≡ dotted (1 ∷ 2 ∷ 840 ∷ 113549 ∷ 1 ∷ 5 ∷ 13 ∷ []) }
{
    from_lawful(alloc, &[1, 2, 840, 113549, 1, 5, 13])
}

/// `2.16.840.1.101.3.4.3.1` (RFC 5758, 3.1).
pub const DSA_WITH_SHA224: &'static str = "2.16.840.1.101.3.4.3.1";

/// The object identifier `DSA_WITH_SHA224`, `2.16.840.1.101.3.4.3.1`.
///
/// # Errors
/// `AllocError` where memory is refused.
pub fn dsa_with_sha224<A: Allocator>(alloc: A) -> Result<ObjectIdentifier<A>, AllocError>
    ensures arcs { IfOk result (λ o. o ≡ 2 ∷ 16 ∷ 840 ∷ 1 ∷ 101 ∷ 3 ∷ 4 ∷ 3 ∷ 1 ∷ []) }
    ensures text { DSA_WITH_SHA224.now ≡ dotted (2 ∷ 16 ∷ 840 ∷ 1 ∷ 101 ∷ 3 ∷ 4 ∷ 3 ∷ 1 ∷ []) }
{
    from_lawful(alloc, &[2, 16, 840, 1, 101, 3, 4, 3, 1])
}

/// `2.16.840.1.101.3.4.3.2` (RFC 5758, 3.1).
pub const DSA_WITH_SHA256: &'static str = "2.16.840.1.101.3.4.3.2";

/// The object identifier `DSA_WITH_SHA256`, `2.16.840.1.101.3.4.3.2`.
///
/// # Errors
/// `AllocError` where memory is refused.
pub fn dsa_with_sha256<A: Allocator>(alloc: A) -> Result<ObjectIdentifier<A>, AllocError>
    ensures arcs { IfOk result (λ o. o ≡ 2 ∷ 16 ∷ 840 ∷ 1 ∷ 101 ∷ 3 ∷ 4 ∷ 3 ∷ 2 ∷ []) }
    ensures text { DSA_WITH_SHA256.now ≡ dotted (2 ∷ 16 ∷ 840 ∷ 1 ∷ 101 ∷ 3 ∷ 4 ∷ 3 ∷ 2 ∷ []) }
{
    from_lawful(alloc, &[2, 16, 840, 1, 101, 3, 4, 3, 2])
}

/// `2.16.840.1.101.3.4.3.3` (NIST, Computer Security Objects Register, sigAlgs).
pub const DSA_WITH_SHA384: &'static str = "2.16.840.1.101.3.4.3.3";

/// The object identifier `DSA_WITH_SHA384`, `2.16.840.1.101.3.4.3.3`.
///
/// # Errors
/// `AllocError` where memory is refused.
pub fn dsa_with_sha384<A: Allocator>(alloc: A) -> Result<ObjectIdentifier<A>, AllocError>
    ensures arcs { IfOk result (λ o. o ≡ 2 ∷ 16 ∷ 840 ∷ 1 ∷ 101 ∷ 3 ∷ 4 ∷ 3 ∷ 3 ∷ []) }
    ensures text { DSA_WITH_SHA384.now ≡ dotted (2 ∷ 16 ∷ 840 ∷ 1 ∷ 101 ∷ 3 ∷ 4 ∷ 3 ∷ 3 ∷ []) }
{
    from_lawful(alloc, &[2, 16, 840, 1, 101, 3, 4, 3, 3])
}

/// `2.16.840.1.101.3.4.3.4` (NIST, Computer Security Objects Register, sigAlgs).
pub const DSA_WITH_SHA512: &'static str = "2.16.840.1.101.3.4.3.4";

/// The object identifier `DSA_WITH_SHA512`, `2.16.840.1.101.3.4.3.4`.
///
/// # Errors
/// `AllocError` where memory is refused.
pub fn dsa_with_sha512<A: Allocator>(alloc: A) -> Result<ObjectIdentifier<A>, AllocError>
    ensures arcs { IfOk result (λ o. o ≡ 2 ∷ 16 ∷ 840 ∷ 1 ∷ 101 ∷ 3 ∷ 4 ∷ 3 ∷ 4 ∷ []) }
    ensures text { DSA_WITH_SHA512.now ≡ dotted (2 ∷ 16 ∷ 840 ∷ 1 ∷ 101 ∷ 3 ∷ 4 ∷ 3 ∷ 4 ∷ []) }
{
    from_lawful(alloc, &[2, 16, 840, 1, 101, 3, 4, 3, 4])
}

/// `2.16.840.1.101.3.4.3.9` (NIST, Computer Security Objects Register, sigAlgs).
pub const ID_ECDSA_WITH_SHA3_224: &'static str = "2.16.840.1.101.3.4.3.9";

/// The object identifier `ID_ECDSA_WITH_SHA3_224`, `2.16.840.1.101.3.4.3.9`.
///
/// # Errors
/// `AllocError` where memory is refused.
pub fn id_ecdsa_with_sha3_224<A: Allocator>(alloc: A) -> Result<ObjectIdentifier<A>, AllocError>
    ensures arcs { IfOk result (λ o. o ≡ 2 ∷ 16 ∷ 840 ∷ 1 ∷ 101 ∷ 3 ∷ 4 ∷ 3 ∷ 9 ∷ []) }
    ensures text { ID_ECDSA_WITH_SHA3_224.now ≡ dotted (2 ∷ 16 ∷ 840 ∷ 1 ∷ 101 ∷ 3 ∷ 4 ∷ 3 ∷ 9 ∷ []) }
{
    from_lawful(alloc, &[2, 16, 840, 1, 101, 3, 4, 3, 9])
}

/// `2.16.840.1.101.3.4.3.10` (NIST, Computer Security Objects Register, sigAlgs).
pub const ID_ECDSA_WITH_SHA3_256: &'static str = "2.16.840.1.101.3.4.3.10";

/// The object identifier `ID_ECDSA_WITH_SHA3_256`, `2.16.840.1.101.3.4.3.10`.
///
/// # Errors
/// `AllocError` where memory is refused.
pub fn id_ecdsa_with_sha3_256<A: Allocator>(alloc: A) -> Result<ObjectIdentifier<A>, AllocError>
    ensures arcs { IfOk result (λ o. o ≡ 2 ∷ 16 ∷ 840 ∷ 1 ∷ 101 ∷ 3 ∷ 4 ∷ 3 ∷ 10 ∷ []) }
    ensures text { ID_ECDSA_WITH_SHA3_256.now ≡ dotted (2 ∷ 16 ∷ 840 ∷ 1 ∷ 101 ∷ 3 ∷ 4 ∷ 3 ∷ 10 ∷ []) }
{
    from_lawful(alloc, &[2, 16, 840, 1, 101, 3, 4, 3, 10])
}

/// `2.16.840.1.101.3.4.3.11` (NIST, Computer Security Objects Register, sigAlgs).
pub const ID_ECDSA_WITH_SHA3_384: &'static str = "2.16.840.1.101.3.4.3.11";

/// The object identifier `ID_ECDSA_WITH_SHA3_384`, `2.16.840.1.101.3.4.3.11`.
///
/// # Errors
/// `AllocError` where memory is refused.
pub fn id_ecdsa_with_sha3_384<A: Allocator>(alloc: A) -> Result<ObjectIdentifier<A>, AllocError>
    ensures arcs { IfOk result (λ o. o ≡ 2 ∷ 16 ∷ 840 ∷ 1 ∷ 101 ∷ 3 ∷ 4 ∷ 3 ∷ 11 ∷ []) }
    ensures text { ID_ECDSA_WITH_SHA3_384.now ≡ dotted (2 ∷ 16 ∷ 840 ∷ 1 ∷ 101 ∷ 3 ∷ 4 ∷ 3 ∷ 11 ∷ []) }
{
    from_lawful(alloc, &[2, 16, 840, 1, 101, 3, 4, 3, 11])
}

/// `2.16.840.1.101.3.4.3.12` (NIST, Computer Security Objects Register, sigAlgs).
pub const ID_ECDSA_WITH_SHA3_512: &'static str = "2.16.840.1.101.3.4.3.12";

/// The object identifier `ID_ECDSA_WITH_SHA3_512`, `2.16.840.1.101.3.4.3.12`.
///
/// # Errors
/// `AllocError` where memory is refused.
pub fn id_ecdsa_with_sha3_512<A: Allocator>(alloc: A) -> Result<ObjectIdentifier<A>, AllocError>
    ensures arcs { IfOk result (λ o. o ≡ 2 ∷ 16 ∷ 840 ∷ 1 ∷ 101 ∷ 3 ∷ 4 ∷ 3 ∷ 12 ∷ []) }
    ensures text { ID_ECDSA_WITH_SHA3_512.now ≡ dotted (2 ∷ 16 ∷ 840 ∷ 1 ∷ 101 ∷ 3 ∷ 4 ∷ 3 ∷ 12 ∷ []) }
{
    from_lawful(alloc, &[2, 16, 840, 1, 101, 3, 4, 3, 12])
}

/// `2.16.840.1.101.3.4.3.13` (NIST, Computer Security Objects Register, sigAlgs).
pub const ID_RSASSA_PKCS1_V1_5_WITH_SHA3_224: &'static str = "2.16.840.1.101.3.4.3.13";

/// The object identifier `ID_RSASSA_PKCS1_V1_5_WITH_SHA3_224`, `2.16.840.1.101.3.4.3.13`.
///
/// # Errors
/// `AllocError` where memory is refused.
pub fn id_rsassa_pkcs1_v1_5_with_sha3_224<A: Allocator>(
    alloc: A,
) -> Result<ObjectIdentifier<A>, AllocError>
    ensures arcs { IfOk result (λ o. o ≡ 2 ∷ 16 ∷ 840 ∷ 1 ∷ 101 ∷ 3 ∷ 4 ∷ 3 ∷ 13 ∷ []) }
    ensures text { ID_RSASSA_PKCS1_V1_5_WITH_SHA3_224.now ≡ dotted (2 ∷ 16 ∷ 840 ∷ 1 ∷ 101 ∷ 3 ∷ 4 ∷ 3 ∷ 13 ∷ []) }
{
    from_lawful(alloc, &[2, 16, 840, 1, 101, 3, 4, 3, 13])
}

/// `2.16.840.1.101.3.4.3.14` (NIST, Computer Security Objects Register, sigAlgs).
pub const ID_RSASSA_PKCS1_V1_5_WITH_SHA3_256: &'static str = "2.16.840.1.101.3.4.3.14";

/// The object identifier `ID_RSASSA_PKCS1_V1_5_WITH_SHA3_256`, `2.16.840.1.101.3.4.3.14`.
///
/// # Errors
/// `AllocError` where memory is refused.
pub fn id_rsassa_pkcs1_v1_5_with_sha3_256<A: Allocator>(
    alloc: A,
) -> Result<ObjectIdentifier<A>, AllocError>
    ensures arcs { IfOk result (λ o. o ≡ 2 ∷ 16 ∷ 840 ∷ 1 ∷ 101 ∷ 3 ∷ 4 ∷ 3 ∷ 14 ∷ []) }
    ensures text { ID_RSASSA_PKCS1_V1_5_WITH_SHA3_256.now ≡ dotted (2 ∷ 16 ∷ 840 ∷ 1 ∷ 101 ∷ 3 ∷ 4 ∷ 3 ∷ 14 ∷ []) }
{
    from_lawful(alloc, &[2, 16, 840, 1, 101, 3, 4, 3, 14])
}

/// `2.16.840.1.101.3.4.3.15` (NIST, Computer Security Objects Register, sigAlgs).
pub const ID_RSASSA_PKCS1_V1_5_WITH_SHA3_384: &'static str = "2.16.840.1.101.3.4.3.15";

/// The object identifier `ID_RSASSA_PKCS1_V1_5_WITH_SHA3_384`, `2.16.840.1.101.3.4.3.15`.
///
/// # Errors
/// `AllocError` where memory is refused.
pub fn id_rsassa_pkcs1_v1_5_with_sha3_384<A: Allocator>(
    alloc: A,
) -> Result<ObjectIdentifier<A>, AllocError>
    ensures arcs { IfOk result (λ o. o ≡ 2 ∷ 16 ∷ 840 ∷ 1 ∷ 101 ∷ 3 ∷ 4 ∷ 3 ∷ 15 ∷ []) }
    ensures text { ID_RSASSA_PKCS1_V1_5_WITH_SHA3_384.now ≡ dotted (2 ∷ 16 ∷ 840 ∷ 1 ∷ 101 ∷ 3 ∷ 4 ∷ 3 ∷ 15 ∷ []) }
{
    from_lawful(alloc, &[2, 16, 840, 1, 101, 3, 4, 3, 15])
}

/// `2.16.840.1.101.3.4.3.16` (NIST, Computer Security Objects Register, sigAlgs).
pub const ID_RSASSA_PKCS1_V1_5_WITH_SHA3_512: &'static str = "2.16.840.1.101.3.4.3.16";

/// The object identifier `ID_RSASSA_PKCS1_V1_5_WITH_SHA3_512`, `2.16.840.1.101.3.4.3.16`.
///
/// # Errors
/// `AllocError` where memory is refused.
pub fn id_rsassa_pkcs1_v1_5_with_sha3_512<A: Allocator>(
    alloc: A,
) -> Result<ObjectIdentifier<A>, AllocError>
    ensures arcs { IfOk result (λ o. o ≡ 2 ∷ 16 ∷ 840 ∷ 1 ∷ 101 ∷ 3 ∷ 4 ∷ 3 ∷ 16 ∷ []) }
    ensures text { ID_RSASSA_PKCS1_V1_5_WITH_SHA3_512.now ≡ dotted (2 ∷ 16 ∷ 840 ∷ 1 ∷ 101 ∷ 3 ∷ 4 ∷ 3 ∷ 16 ∷ []) }
{
    from_lawful(alloc, &[2, 16, 840, 1, 101, 3, 4, 3, 16])
}

/// `2.16.840.1.101.3.4.3.17` (FIPS 204; NIST, Computer Security Objects Register, sigAlgs).
pub const ID_MLDSA_44: &'static str = "2.16.840.1.101.3.4.3.17";

/// The object identifier `ID_MLDSA_44`, `2.16.840.1.101.3.4.3.17`.
///
/// # Errors
/// `AllocError` where memory is refused.
pub fn id_mldsa_44<A: Allocator>(alloc: A) -> Result<ObjectIdentifier<A>, AllocError>
    ensures arcs { IfOk result (λ o. o ≡ 2 ∷ 16 ∷ 840 ∷ 1 ∷ 101 ∷ 3 ∷ 4 ∷ 3 ∷ 17 ∷ []) }
    ensures text { ID_MLDSA_44.now ≡ dotted (2 ∷ 16 ∷ 840 ∷ 1 ∷ 101 ∷ 3 ∷ 4 ∷ 3 ∷ 17 ∷ []) }
{
    from_lawful(alloc, &[2, 16, 840, 1, 101, 3, 4, 3, 17])
}

/// `2.16.840.1.101.3.4.3.18` (FIPS 204; NIST, Computer Security Objects Register, sigAlgs).
pub const ID_MLDSA_65: &'static str = "2.16.840.1.101.3.4.3.18";

/// The object identifier `ID_MLDSA_65`, `2.16.840.1.101.3.4.3.18`.
///
/// # Errors
/// `AllocError` where memory is refused.
pub fn id_mldsa_65<A: Allocator>(alloc: A) -> Result<ObjectIdentifier<A>, AllocError>
    ensures arcs { IfOk result (λ o. o ≡ 2 ∷ 16 ∷ 840 ∷ 1 ∷ 101 ∷ 3 ∷ 4 ∷ 3 ∷ 18 ∷ []) }
    ensures text { ID_MLDSA_65.now ≡ dotted (2 ∷ 16 ∷ 840 ∷ 1 ∷ 101 ∷ 3 ∷ 4 ∷ 3 ∷ 18 ∷ []) }
{
    from_lawful(alloc, &[2, 16, 840, 1, 101, 3, 4, 3, 18])
}

/// `2.16.840.1.101.3.4.3.19` (FIPS 204; NIST, Computer Security Objects Register, sigAlgs).
pub const ID_MLDSA_87: &'static str = "2.16.840.1.101.3.4.3.19";

/// The object identifier `ID_MLDSA_87`, `2.16.840.1.101.3.4.3.19`.
///
/// # Errors
/// `AllocError` where memory is refused.
pub fn id_mldsa_87<A: Allocator>(alloc: A) -> Result<ObjectIdentifier<A>, AllocError>
    ensures arcs { IfOk result (λ o. o ≡ 2 ∷ 16 ∷ 840 ∷ 1 ∷ 101 ∷ 3 ∷ 4 ∷ 3 ∷ 19 ∷ []) }
    ensures text { ID_MLDSA_87.now ≡ dotted (2 ∷ 16 ∷ 840 ∷ 1 ∷ 101 ∷ 3 ∷ 4 ∷ 3 ∷ 19 ∷ []) }
{
    from_lawful(alloc, &[2, 16, 840, 1, 101, 3, 4, 3, 19])
}

/// `1.3.132.0.1` (SEC 2, appendix A.2).
pub const SECT163K1: &'static str = "1.3.132.0.1";

/// The object identifier `SECT163K1`, `1.3.132.0.1`.
///
/// # Errors
/// `AllocError` where memory is refused.
pub fn sect163k1<A: Allocator>(alloc: A) -> Result<ObjectIdentifier<A>, AllocError>
    ensures arcs { IfOk result (λ o. o ≡ 1 ∷ 3 ∷ 132 ∷ 0 ∷ 1 ∷ []) }
    ensures text { SECT163K1.now ≡ dotted (1 ∷ 3 ∷ 132 ∷ 0 ∷ 1 ∷ []) }
{
    from_lawful(alloc, &[1, 3, 132, 0, 1])
}

/// `1.3.132.0.15` (SEC 2, appendix A.2).
pub const SECT163R2: &'static str = "1.3.132.0.15";

/// The object identifier `SECT163R2`, `1.3.132.0.15`.
///
/// # Errors
/// `AllocError` where memory is refused.
pub fn sect163r2<A: Allocator>(alloc: A) -> Result<ObjectIdentifier<A>, AllocError>
    ensures arcs { IfOk result (λ o. o ≡ 1 ∷ 3 ∷ 132 ∷ 0 ∷ 15 ∷ []) }
    ensures text { SECT163R2.now ≡ dotted (1 ∷ 3 ∷ 132 ∷ 0 ∷ 15 ∷ []) }
{
    from_lawful(alloc, &[1, 3, 132, 0, 15])
}

/// `1.3.132.0.16` (SEC 2, appendix A.2).
pub const SECT283K1: &'static str = "1.3.132.0.16";

/// The object identifier `SECT283K1`, `1.3.132.0.16`.
///
/// # Errors
/// `AllocError` where memory is refused.
pub fn sect283k1<A: Allocator>(alloc: A) -> Result<ObjectIdentifier<A>, AllocError>
    ensures arcs { IfOk result (λ o. o ≡ 1 ∷ 3 ∷ 132 ∷ 0 ∷ 16 ∷ []) }
    ensures text { SECT283K1.now ≡ dotted (1 ∷ 3 ∷ 132 ∷ 0 ∷ 16 ∷ []) }
{
    from_lawful(alloc, &[1, 3, 132, 0, 16])
}

/// `1.3.132.0.17` (SEC 2, appendix A.2).
pub const SECT283R1: &'static str = "1.3.132.0.17";

/// The object identifier `SECT283R1`, `1.3.132.0.17`.
///
/// # Errors
/// `AllocError` where memory is refused.
pub fn sect283r1<A: Allocator>(alloc: A) -> Result<ObjectIdentifier<A>, AllocError>
    ensures arcs { IfOk result (λ o. o ≡ 1 ∷ 3 ∷ 132 ∷ 0 ∷ 17 ∷ []) }
    ensures text { SECT283R1.now ≡ dotted (1 ∷ 3 ∷ 132 ∷ 0 ∷ 17 ∷ []) }
{
    from_lawful(alloc, &[1, 3, 132, 0, 17])
}

/// `1.3.132.0.26` (SEC 2, appendix A.2).
pub const SECT233K1: &'static str = "1.3.132.0.26";

/// The object identifier `SECT233K1`, `1.3.132.0.26`.
///
/// # Errors
/// `AllocError` where memory is refused.
pub fn sect233k1<A: Allocator>(alloc: A) -> Result<ObjectIdentifier<A>, AllocError>
    ensures arcs { IfOk result (λ o. o ≡ 1 ∷ 3 ∷ 132 ∷ 0 ∷ 26 ∷ []) }
    ensures text { SECT233K1.now ≡ dotted (1 ∷ 3 ∷ 132 ∷ 0 ∷ 26 ∷ []) }
{
    from_lawful(alloc, &[1, 3, 132, 0, 26])
}

/// `1.3.132.0.27` (SEC 2, appendix A.2).
pub const SECT233R1: &'static str = "1.3.132.0.27";

/// The object identifier `SECT233R1`, `1.3.132.0.27`.
///
/// # Errors
/// `AllocError` where memory is refused.
pub fn sect233r1<A: Allocator>(alloc: A) -> Result<ObjectIdentifier<A>, AllocError>
    ensures arcs { IfOk result (λ o. o ≡ 1 ∷ 3 ∷ 132 ∷ 0 ∷ 27 ∷ []) }
    ensures text { SECT233R1.now ≡ dotted (1 ∷ 3 ∷ 132 ∷ 0 ∷ 27 ∷ []) }
{
    from_lawful(alloc, &[1, 3, 132, 0, 27])
}

/// `1.3.132.0.33` (SEC 2, appendix A.2).
pub const SECP224R1: &'static str = "1.3.132.0.33";

/// The object identifier `SECP224R1`, `1.3.132.0.33`.
///
/// # Errors
/// `AllocError` where memory is refused.
pub fn secp224r1<A: Allocator>(alloc: A) -> Result<ObjectIdentifier<A>, AllocError>
    ensures arcs { IfOk result (λ o. o ≡ 1 ∷ 3 ∷ 132 ∷ 0 ∷ 33 ∷ []) }
    ensures text { SECP224R1.now ≡ dotted (1 ∷ 3 ∷ 132 ∷ 0 ∷ 33 ∷ []) }
{
    from_lawful(alloc, &[1, 3, 132, 0, 33])
}

/// `1.3.132.0.34` (SEC 2, appendix A.2).
pub const SECP384R1: &'static str = "1.3.132.0.34";

/// The object identifier `SECP384R1`, `1.3.132.0.34`.
///
/// # Errors
/// `AllocError` where memory is refused.
pub fn secp384r1<A: Allocator>(alloc: A) -> Result<ObjectIdentifier<A>, AllocError>
    ensures arcs { IfOk result (λ o. o ≡ 1 ∷ 3 ∷ 132 ∷ 0 ∷ 34 ∷ []) }
    ensures text { SECP384R1.now ≡ dotted (1 ∷ 3 ∷ 132 ∷ 0 ∷ 34 ∷ []) }
{
    from_lawful(alloc, &[1, 3, 132, 0, 34])
}

/// `1.3.132.0.35` (SEC 2, appendix A.2).
pub const SECP521R1: &'static str = "1.3.132.0.35";

/// The object identifier `SECP521R1`, `1.3.132.0.35`.
///
/// # Errors
/// `AllocError` where memory is refused.
pub fn secp521r1<A: Allocator>(alloc: A) -> Result<ObjectIdentifier<A>, AllocError>
    ensures arcs { IfOk result (λ o. o ≡ 1 ∷ 3 ∷ 132 ∷ 0 ∷ 35 ∷ []) }
    ensures text { SECP521R1.now ≡ dotted (1 ∷ 3 ∷ 132 ∷ 0 ∷ 35 ∷ []) }
{
    from_lawful(alloc, &[1, 3, 132, 0, 35])
}

/// `1.3.132.0.36` (SEC 2, appendix A.2).
pub const SECT409K1: &'static str = "1.3.132.0.36";

/// The object identifier `SECT409K1`, `1.3.132.0.36`.
///
/// # Errors
/// `AllocError` where memory is refused.
pub fn sect409k1<A: Allocator>(alloc: A) -> Result<ObjectIdentifier<A>, AllocError>
    ensures arcs { IfOk result (λ o. o ≡ 1 ∷ 3 ∷ 132 ∷ 0 ∷ 36 ∷ []) }
    ensures text { SECT409K1.now ≡ dotted (1 ∷ 3 ∷ 132 ∷ 0 ∷ 36 ∷ []) }
{
    from_lawful(alloc, &[1, 3, 132, 0, 36])
}

/// `1.3.132.0.37` (SEC 2, appendix A.2).
pub const SECT409R1: &'static str = "1.3.132.0.37";

/// The object identifier `SECT409R1`, `1.3.132.0.37`.
///
/// # Errors
/// `AllocError` where memory is refused.
pub fn sect409r1<A: Allocator>(alloc: A) -> Result<ObjectIdentifier<A>, AllocError>
    ensures arcs { IfOk result (λ o. o ≡ 1 ∷ 3 ∷ 132 ∷ 0 ∷ 37 ∷ []) }
    ensures text { SECT409R1.now ≡ dotted (1 ∷ 3 ∷ 132 ∷ 0 ∷ 37 ∷ []) }
{
    from_lawful(alloc, &[1, 3, 132, 0, 37])
}

/// `1.3.132.0.38` (SEC 2, appendix A.2).
pub const SECT571K1: &'static str = "1.3.132.0.38";

/// The object identifier `SECT571K1`, `1.3.132.0.38`.
///
/// # Errors
/// `AllocError` where memory is refused.
pub fn sect571k1<A: Allocator>(alloc: A) -> Result<ObjectIdentifier<A>, AllocError>
    ensures arcs { IfOk result (λ o. o ≡ 1 ∷ 3 ∷ 132 ∷ 0 ∷ 38 ∷ []) }
    ensures text { SECT571K1.now ≡ dotted (1 ∷ 3 ∷ 132 ∷ 0 ∷ 38 ∷ []) }
{
    from_lawful(alloc, &[1, 3, 132, 0, 38])
}

/// `1.3.132.0.39` (SEC 2, appendix A.2).
pub const SECT571R1: &'static str = "1.3.132.0.39";

/// The object identifier `SECT571R1`, `1.3.132.0.39`.
///
/// # Errors
/// `AllocError` where memory is refused.
pub fn sect571r1<A: Allocator>(alloc: A) -> Result<ObjectIdentifier<A>, AllocError>
    ensures arcs { IfOk result (λ o. o ≡ 1 ∷ 3 ∷ 132 ∷ 0 ∷ 39 ∷ []) }
    ensures text { SECT571R1.now ≡ dotted (1 ∷ 3 ∷ 132 ∷ 0 ∷ 39 ∷ []) }
{
    from_lawful(alloc, &[1, 3, 132, 0, 39])
}

/// `1.3.101.110` (RFC 8410, 3).
pub const X25519: &'static str = "1.3.101.110";

/// The object identifier `X25519`, `1.3.101.110`.
///
/// # Errors
/// `AllocError` where memory is refused.
pub fn x25519<A: Allocator>(alloc: A) -> Result<ObjectIdentifier<A>, AllocError>
    ensures arcs { IfOk result (λ o. o ≡ 1 ∷ 3 ∷ 101 ∷ 110 ∷ []) }
    ensures text { X25519.now ≡ dotted (1 ∷ 3 ∷ 101 ∷ 110 ∷ []) }
{
    from_lawful(alloc, &[1, 3, 101, 110])
}

/// `1.3.101.111` (RFC 8410, 3).
pub const X448: &'static str = "1.3.101.111";

/// The object identifier `X448`, `1.3.101.111`.
///
/// # Errors
/// `AllocError` where memory is refused.
pub fn x448<A: Allocator>(alloc: A) -> Result<ObjectIdentifier<A>, AllocError>
    ensures arcs { IfOk result (λ o. o ≡ 1 ∷ 3 ∷ 101 ∷ 111 ∷ []) }
    ensures text { X448.now ≡ dotted (1 ∷ 3 ∷ 101 ∷ 111 ∷ []) }
{
    from_lawful(alloc, &[1, 3, 101, 111])
}

/// `1.3.101.112` (RFC 8410, 3).
pub const ED25519: &'static str = "1.3.101.112";

/// The object identifier `ED25519`, `1.3.101.112`.
///
/// # Errors
/// `AllocError` where memory is refused.
pub fn ed25519<A: Allocator>(alloc: A) -> Result<ObjectIdentifier<A>, AllocError>
    ensures arcs { IfOk result (λ o. o ≡ 1 ∷ 3 ∷ 101 ∷ 112 ∷ []) }
    ensures text { ED25519.now ≡ dotted (1 ∷ 3 ∷ 101 ∷ 112 ∷ []) }
{
    from_lawful(alloc, &[1, 3, 101, 112])
}

/// `1.3.101.113` (RFC 8410, 3).
pub const ED448: &'static str = "1.3.101.113";

/// The object identifier `ED448`, `1.3.101.113`.
///
/// # Errors
/// `AllocError` where memory is refused.
pub fn ed448<A: Allocator>(alloc: A) -> Result<ObjectIdentifier<A>, AllocError>
    ensures arcs { IfOk result (λ o. o ≡ 1 ∷ 3 ∷ 101 ∷ 113 ∷ []) }
    ensures text { ED448.now ≡ dotted (1 ∷ 3 ∷ 101 ∷ 113 ∷ []) }
{
    from_lawful(alloc, &[1, 3, 101, 113])
}

/// `2.16.840.1.101.3.4.1.1` (NIST, Computer Security Objects Register, aes).
pub const AES128_ECB: &'static str = "2.16.840.1.101.3.4.1.1";

/// The object identifier `AES128_ECB`, `2.16.840.1.101.3.4.1.1`.
///
/// # Errors
/// `AllocError` where memory is refused.
pub fn aes128_ecb<A: Allocator>(alloc: A) -> Result<ObjectIdentifier<A>, AllocError>
    ensures arcs { IfOk result (λ o. o ≡ 2 ∷ 16 ∷ 840 ∷ 1 ∷ 101 ∷ 3 ∷ 4 ∷ 1 ∷ 1 ∷ []) }
    ensures text { AES128_ECB.now ≡ dotted (2 ∷ 16 ∷ 840 ∷ 1 ∷ 101 ∷ 3 ∷ 4 ∷ 1 ∷ 1 ∷ []) }
{
    from_lawful(alloc, &[2, 16, 840, 1, 101, 3, 4, 1, 1])
}

/// `2.16.840.1.101.3.4.1.2` (NIST, Computer Security Objects Register, aes).
pub const AES128_CBC: &'static str = "2.16.840.1.101.3.4.1.2";

/// The object identifier `AES128_CBC`, `2.16.840.1.101.3.4.1.2`.
///
/// # Errors
/// `AllocError` where memory is refused.
pub fn aes128_cbc<A: Allocator>(alloc: A) -> Result<ObjectIdentifier<A>, AllocError>
    ensures arcs { IfOk result (λ o. o ≡ 2 ∷ 16 ∷ 840 ∷ 1 ∷ 101 ∷ 3 ∷ 4 ∷ 1 ∷ 2 ∷ []) }
    ensures text { AES128_CBC.now ≡ dotted (2 ∷ 16 ∷ 840 ∷ 1 ∷ 101 ∷ 3 ∷ 4 ∷ 1 ∷ 2 ∷ []) }
{
    from_lawful(alloc, &[2, 16, 840, 1, 101, 3, 4, 1, 2])
}

/// `2.16.840.1.101.3.4.1.3` (NIST, Computer Security Objects Register, aes).
pub const AES128_OFB: &'static str = "2.16.840.1.101.3.4.1.3";

/// The object identifier `AES128_OFB`, `2.16.840.1.101.3.4.1.3`.
///
/// # Errors
/// `AllocError` where memory is refused.
pub fn aes128_ofb<A: Allocator>(alloc: A) -> Result<ObjectIdentifier<A>, AllocError>
    ensures arcs { IfOk result (λ o. o ≡ 2 ∷ 16 ∷ 840 ∷ 1 ∷ 101 ∷ 3 ∷ 4 ∷ 1 ∷ 3 ∷ []) }
    ensures text { AES128_OFB.now ≡ dotted (2 ∷ 16 ∷ 840 ∷ 1 ∷ 101 ∷ 3 ∷ 4 ∷ 1 ∷ 3 ∷ []) }
{
    from_lawful(alloc, &[2, 16, 840, 1, 101, 3, 4, 1, 3])
}

/// `2.16.840.1.101.3.4.1.4` (NIST, Computer Security Objects Register, aes).
pub const AES128_CFB: &'static str = "2.16.840.1.101.3.4.1.4";

/// The object identifier `AES128_CFB`, `2.16.840.1.101.3.4.1.4`.
///
/// # Errors
/// `AllocError` where memory is refused.
pub fn aes128_cfb<A: Allocator>(alloc: A) -> Result<ObjectIdentifier<A>, AllocError>
    ensures arcs { IfOk result (λ o. o ≡ 2 ∷ 16 ∷ 840 ∷ 1 ∷ 101 ∷ 3 ∷ 4 ∷ 1 ∷ 4 ∷ []) }
    ensures text { AES128_CFB.now ≡ dotted (2 ∷ 16 ∷ 840 ∷ 1 ∷ 101 ∷ 3 ∷ 4 ∷ 1 ∷ 4 ∷ []) }
{
    from_lawful(alloc, &[2, 16, 840, 1, 101, 3, 4, 1, 4])
}

/// `2.16.840.1.101.3.4.1.5` (NIST, Computer Security Objects Register, aes).
pub const AES128_WRAP: &'static str = "2.16.840.1.101.3.4.1.5";

/// The object identifier `AES128_WRAP`, `2.16.840.1.101.3.4.1.5`.
///
/// # Errors
/// `AllocError` where memory is refused.
pub fn aes128_wrap<A: Allocator>(alloc: A) -> Result<ObjectIdentifier<A>, AllocError>
    ensures arcs { IfOk result (λ o. o ≡ 2 ∷ 16 ∷ 840 ∷ 1 ∷ 101 ∷ 3 ∷ 4 ∷ 1 ∷ 5 ∷ []) }
    ensures text { AES128_WRAP.now ≡ dotted (2 ∷ 16 ∷ 840 ∷ 1 ∷ 101 ∷ 3 ∷ 4 ∷ 1 ∷ 5 ∷ []) }
{
    from_lawful(alloc, &[2, 16, 840, 1, 101, 3, 4, 1, 5])
}

/// `2.16.840.1.101.3.4.1.6` (NIST, Computer Security Objects Register, aes).
pub const AES128_GCM: &'static str = "2.16.840.1.101.3.4.1.6";

/// The object identifier `AES128_GCM`, `2.16.840.1.101.3.4.1.6`.
///
/// # Errors
/// `AllocError` where memory is refused.
pub fn aes128_gcm<A: Allocator>(alloc: A) -> Result<ObjectIdentifier<A>, AllocError>
    ensures arcs { IfOk result (λ o. o ≡ 2 ∷ 16 ∷ 840 ∷ 1 ∷ 101 ∷ 3 ∷ 4 ∷ 1 ∷ 6 ∷ []) }
    ensures text { AES128_GCM.now ≡ dotted (2 ∷ 16 ∷ 840 ∷ 1 ∷ 101 ∷ 3 ∷ 4 ∷ 1 ∷ 6 ∷ []) }
{
    from_lawful(alloc, &[2, 16, 840, 1, 101, 3, 4, 1, 6])
}

/// `2.16.840.1.101.3.4.1.7` (NIST, Computer Security Objects Register, aes).
pub const AES128_CCM: &'static str = "2.16.840.1.101.3.4.1.7";

/// The object identifier `AES128_CCM`, `2.16.840.1.101.3.4.1.7`.
///
/// # Errors
/// `AllocError` where memory is refused.
pub fn aes128_ccm<A: Allocator>(alloc: A) -> Result<ObjectIdentifier<A>, AllocError>
    ensures arcs { IfOk result (λ o. o ≡ 2 ∷ 16 ∷ 840 ∷ 1 ∷ 101 ∷ 3 ∷ 4 ∷ 1 ∷ 7 ∷ []) }
    ensures text { AES128_CCM.now ≡ dotted (2 ∷ 16 ∷ 840 ∷ 1 ∷ 101 ∷ 3 ∷ 4 ∷ 1 ∷ 7 ∷ []) }
{
    from_lawful(alloc, &[2, 16, 840, 1, 101, 3, 4, 1, 7])
}

/// `2.16.840.1.101.3.4.1.8` (NIST, Computer Security Objects Register, aes).
pub const AES128_WRAP_PAD: &'static str = "2.16.840.1.101.3.4.1.8";

/// The object identifier `AES128_WRAP_PAD`, `2.16.840.1.101.3.4.1.8`.
///
/// # Errors
/// `AllocError` where memory is refused.
pub fn aes128_wrap_pad<A: Allocator>(alloc: A) -> Result<ObjectIdentifier<A>, AllocError>
    ensures arcs { IfOk result (λ o. o ≡ 2 ∷ 16 ∷ 840 ∷ 1 ∷ 101 ∷ 3 ∷ 4 ∷ 1 ∷ 8 ∷ []) }
    ensures text { AES128_WRAP_PAD.now ≡ dotted (2 ∷ 16 ∷ 840 ∷ 1 ∷ 101 ∷ 3 ∷ 4 ∷ 1 ∷ 8 ∷ []) }
{
    from_lawful(alloc, &[2, 16, 840, 1, 101, 3, 4, 1, 8])
}

/// `2.16.840.1.101.3.4.1.21` (NIST, Computer Security Objects Register, aes).
pub const AES192_ECB: &'static str = "2.16.840.1.101.3.4.1.21";

/// The object identifier `AES192_ECB`, `2.16.840.1.101.3.4.1.21`.
///
/// # Errors
/// `AllocError` where memory is refused.
pub fn aes192_ecb<A: Allocator>(alloc: A) -> Result<ObjectIdentifier<A>, AllocError>
    ensures arcs { IfOk result (λ o. o ≡ 2 ∷ 16 ∷ 840 ∷ 1 ∷ 101 ∷ 3 ∷ 4 ∷ 1 ∷ 21 ∷ []) }
    ensures text { AES192_ECB.now ≡ dotted (2 ∷ 16 ∷ 840 ∷ 1 ∷ 101 ∷ 3 ∷ 4 ∷ 1 ∷ 21 ∷ []) }
{
    from_lawful(alloc, &[2, 16, 840, 1, 101, 3, 4, 1, 21])
}

/// `2.16.840.1.101.3.4.1.22` (NIST, Computer Security Objects Register, aes).
pub const AES192_CBC: &'static str = "2.16.840.1.101.3.4.1.22";

/// The object identifier `AES192_CBC`, `2.16.840.1.101.3.4.1.22`.
///
/// # Errors
/// `AllocError` where memory is refused.
pub fn aes192_cbc<A: Allocator>(alloc: A) -> Result<ObjectIdentifier<A>, AllocError>
    ensures arcs { IfOk result (λ o. o ≡ 2 ∷ 16 ∷ 840 ∷ 1 ∷ 101 ∷ 3 ∷ 4 ∷ 1 ∷ 22 ∷ []) }
    ensures text { AES192_CBC.now ≡ dotted (2 ∷ 16 ∷ 840 ∷ 1 ∷ 101 ∷ 3 ∷ 4 ∷ 1 ∷ 22 ∷ []) }
{
    from_lawful(alloc, &[2, 16, 840, 1, 101, 3, 4, 1, 22])
}

/// `2.16.840.1.101.3.4.1.23` (NIST, Computer Security Objects Register, aes).
pub const AES192_OFB: &'static str = "2.16.840.1.101.3.4.1.23";

/// The object identifier `AES192_OFB`, `2.16.840.1.101.3.4.1.23`.
///
/// # Errors
/// `AllocError` where memory is refused.
pub fn aes192_ofb<A: Allocator>(alloc: A) -> Result<ObjectIdentifier<A>, AllocError>
    ensures arcs { IfOk result (λ o. o ≡ 2 ∷ 16 ∷ 840 ∷ 1 ∷ 101 ∷ 3 ∷ 4 ∷ 1 ∷ 23 ∷ []) }
    ensures text { AES192_OFB.now ≡ dotted (2 ∷ 16 ∷ 840 ∷ 1 ∷ 101 ∷ 3 ∷ 4 ∷ 1 ∷ 23 ∷ []) }
{
    from_lawful(alloc, &[2, 16, 840, 1, 101, 3, 4, 1, 23])
}

/// `2.16.840.1.101.3.4.1.24` (NIST, Computer Security Objects Register, aes).
pub const AES192_CFB: &'static str = "2.16.840.1.101.3.4.1.24";

/// The object identifier `AES192_CFB`, `2.16.840.1.101.3.4.1.24`.
///
/// # Errors
/// `AllocError` where memory is refused.
pub fn aes192_cfb<A: Allocator>(alloc: A) -> Result<ObjectIdentifier<A>, AllocError>
    ensures arcs { IfOk result (λ o. o ≡ 2 ∷ 16 ∷ 840 ∷ 1 ∷ 101 ∷ 3 ∷ 4 ∷ 1 ∷ 24 ∷ []) }
    ensures text { AES192_CFB.now ≡ dotted (2 ∷ 16 ∷ 840 ∷ 1 ∷ 101 ∷ 3 ∷ 4 ∷ 1 ∷ 24 ∷ []) }
{
    from_lawful(alloc, &[2, 16, 840, 1, 101, 3, 4, 1, 24])
}

/// `2.16.840.1.101.3.4.1.25` (NIST, Computer Security Objects Register, aes).
pub const AES192_WRAP: &'static str = "2.16.840.1.101.3.4.1.25";

/// The object identifier `AES192_WRAP`, `2.16.840.1.101.3.4.1.25`.
///
/// # Errors
/// `AllocError` where memory is refused.
pub fn aes192_wrap<A: Allocator>(alloc: A) -> Result<ObjectIdentifier<A>, AllocError>
    ensures arcs { IfOk result (λ o. o ≡ 2 ∷ 16 ∷ 840 ∷ 1 ∷ 101 ∷ 3 ∷ 4 ∷ 1 ∷ 25 ∷ []) }
    ensures text { AES192_WRAP.now ≡ dotted (2 ∷ 16 ∷ 840 ∷ 1 ∷ 101 ∷ 3 ∷ 4 ∷ 1 ∷ 25 ∷ []) }
{
    from_lawful(alloc, &[2, 16, 840, 1, 101, 3, 4, 1, 25])
}

/// `2.16.840.1.101.3.4.1.26` (NIST, Computer Security Objects Register, aes).
pub const AES192_GCM: &'static str = "2.16.840.1.101.3.4.1.26";

/// The object identifier `AES192_GCM`, `2.16.840.1.101.3.4.1.26`.
///
/// # Errors
/// `AllocError` where memory is refused.
pub fn aes192_gcm<A: Allocator>(alloc: A) -> Result<ObjectIdentifier<A>, AllocError>
    ensures arcs { IfOk result (λ o. o ≡ 2 ∷ 16 ∷ 840 ∷ 1 ∷ 101 ∷ 3 ∷ 4 ∷ 1 ∷ 26 ∷ []) }
    ensures text { AES192_GCM.now ≡ dotted (2 ∷ 16 ∷ 840 ∷ 1 ∷ 101 ∷ 3 ∷ 4 ∷ 1 ∷ 26 ∷ []) }
{
    from_lawful(alloc, &[2, 16, 840, 1, 101, 3, 4, 1, 26])
}

/// `2.16.840.1.101.3.4.1.27` (NIST, Computer Security Objects Register, aes).
pub const AES192_CCM: &'static str = "2.16.840.1.101.3.4.1.27";

/// The object identifier `AES192_CCM`, `2.16.840.1.101.3.4.1.27`.
///
/// # Errors
/// `AllocError` where memory is refused.
pub fn aes192_ccm<A: Allocator>(alloc: A) -> Result<ObjectIdentifier<A>, AllocError>
    ensures arcs { IfOk result (λ o. o ≡ 2 ∷ 16 ∷ 840 ∷ 1 ∷ 101 ∷ 3 ∷ 4 ∷ 1 ∷ 27 ∷ []) }
    ensures text { AES192_CCM.now ≡ dotted (2 ∷ 16 ∷ 840 ∷ 1 ∷ 101 ∷ 3 ∷ 4 ∷ 1 ∷ 27 ∷ []) }
{
    from_lawful(alloc, &[2, 16, 840, 1, 101, 3, 4, 1, 27])
}

/// `2.16.840.1.101.3.4.1.28` (NIST, Computer Security Objects Register, aes).
pub const AES192_WRAP_PAD: &'static str = "2.16.840.1.101.3.4.1.28";

/// The object identifier `AES192_WRAP_PAD`, `2.16.840.1.101.3.4.1.28`.
///
/// # Errors
/// `AllocError` where memory is refused.
pub fn aes192_wrap_pad<A: Allocator>(alloc: A) -> Result<ObjectIdentifier<A>, AllocError>
    ensures arcs { IfOk result (λ o. o ≡ 2 ∷ 16 ∷ 840 ∷ 1 ∷ 101 ∷ 3 ∷ 4 ∷ 1 ∷ 28 ∷ []) }
    ensures text { AES192_WRAP_PAD.now ≡ dotted (2 ∷ 16 ∷ 840 ∷ 1 ∷ 101 ∷ 3 ∷ 4 ∷ 1 ∷ 28 ∷ []) }
{
    from_lawful(alloc, &[2, 16, 840, 1, 101, 3, 4, 1, 28])
}

/// `2.16.840.1.101.3.4.1.41` (NIST, Computer Security Objects Register, aes).
pub const AES256_ECB: &'static str = "2.16.840.1.101.3.4.1.41";

/// The object identifier `AES256_ECB`, `2.16.840.1.101.3.4.1.41`.
///
/// # Errors
/// `AllocError` where memory is refused.
pub fn aes256_ecb<A: Allocator>(alloc: A) -> Result<ObjectIdentifier<A>, AllocError>
    ensures arcs { IfOk result (λ o. o ≡ 2 ∷ 16 ∷ 840 ∷ 1 ∷ 101 ∷ 3 ∷ 4 ∷ 1 ∷ 41 ∷ []) }
    ensures text { AES256_ECB.now ≡ dotted (2 ∷ 16 ∷ 840 ∷ 1 ∷ 101 ∷ 3 ∷ 4 ∷ 1 ∷ 41 ∷ []) }
{
    from_lawful(alloc, &[2, 16, 840, 1, 101, 3, 4, 1, 41])
}

/// `2.16.840.1.101.3.4.1.42` (NIST, Computer Security Objects Register, aes).
pub const AES256_CBC: &'static str = "2.16.840.1.101.3.4.1.42";

/// The object identifier `AES256_CBC`, `2.16.840.1.101.3.4.1.42`.
///
/// # Errors
/// `AllocError` where memory is refused.
pub fn aes256_cbc<A: Allocator>(alloc: A) -> Result<ObjectIdentifier<A>, AllocError>
    ensures arcs { IfOk result (λ o. o ≡ 2 ∷ 16 ∷ 840 ∷ 1 ∷ 101 ∷ 3 ∷ 4 ∷ 1 ∷ 42 ∷ []) }
    ensures text { AES256_CBC.now ≡ dotted (2 ∷ 16 ∷ 840 ∷ 1 ∷ 101 ∷ 3 ∷ 4 ∷ 1 ∷ 42 ∷ []) }
{
    from_lawful(alloc, &[2, 16, 840, 1, 101, 3, 4, 1, 42])
}

/// `2.16.840.1.101.3.4.1.43` (NIST, Computer Security Objects Register, aes).
pub const AES256_OFB: &'static str = "2.16.840.1.101.3.4.1.43";

/// The object identifier `AES256_OFB`, `2.16.840.1.101.3.4.1.43`.
///
/// # Errors
/// `AllocError` where memory is refused.
pub fn aes256_ofb<A: Allocator>(alloc: A) -> Result<ObjectIdentifier<A>, AllocError>
    ensures arcs { IfOk result (λ o. o ≡ 2 ∷ 16 ∷ 840 ∷ 1 ∷ 101 ∷ 3 ∷ 4 ∷ 1 ∷ 43 ∷ []) }
    ensures text { AES256_OFB.now ≡ dotted (2 ∷ 16 ∷ 840 ∷ 1 ∷ 101 ∷ 3 ∷ 4 ∷ 1 ∷ 43 ∷ []) }
{
    from_lawful(alloc, &[2, 16, 840, 1, 101, 3, 4, 1, 43])
}

/// `2.16.840.1.101.3.4.1.44` (NIST, Computer Security Objects Register, aes).
pub const AES256_CFB: &'static str = "2.16.840.1.101.3.4.1.44";

/// The object identifier `AES256_CFB`, `2.16.840.1.101.3.4.1.44`.
///
/// # Errors
/// `AllocError` where memory is refused.
pub fn aes256_cfb<A: Allocator>(alloc: A) -> Result<ObjectIdentifier<A>, AllocError>
    ensures arcs { IfOk result (λ o. o ≡ 2 ∷ 16 ∷ 840 ∷ 1 ∷ 101 ∷ 3 ∷ 4 ∷ 1 ∷ 44 ∷ []) }
    ensures text { AES256_CFB.now ≡ dotted (2 ∷ 16 ∷ 840 ∷ 1 ∷ 101 ∷ 3 ∷ 4 ∷ 1 ∷ 44 ∷ []) }
{
    from_lawful(alloc, &[2, 16, 840, 1, 101, 3, 4, 1, 44])
}

/// `2.16.840.1.101.3.4.1.45` (NIST, Computer Security Objects Register, aes).
pub const AES256_WRAP: &'static str = "2.16.840.1.101.3.4.1.45";

/// The object identifier `AES256_WRAP`, `2.16.840.1.101.3.4.1.45`.
///
/// # Errors
/// `AllocError` where memory is refused.
pub fn aes256_wrap<A: Allocator>(alloc: A) -> Result<ObjectIdentifier<A>, AllocError>
    ensures arcs { IfOk result (λ o. o ≡ 2 ∷ 16 ∷ 840 ∷ 1 ∷ 101 ∷ 3 ∷ 4 ∷ 1 ∷ 45 ∷ []) }
    ensures text { AES256_WRAP.now ≡ dotted (2 ∷ 16 ∷ 840 ∷ 1 ∷ 101 ∷ 3 ∷ 4 ∷ 1 ∷ 45 ∷ []) }
{
    from_lawful(alloc, &[2, 16, 840, 1, 101, 3, 4, 1, 45])
}

/// `2.16.840.1.101.3.4.1.46` (NIST, Computer Security Objects Register, aes).
pub const AES256_GCM: &'static str = "2.16.840.1.101.3.4.1.46";

/// The object identifier `AES256_GCM`, `2.16.840.1.101.3.4.1.46`.
///
/// # Errors
/// `AllocError` where memory is refused.
pub fn aes256_gcm<A: Allocator>(alloc: A) -> Result<ObjectIdentifier<A>, AllocError>
    ensures arcs { IfOk result (λ o. o ≡ 2 ∷ 16 ∷ 840 ∷ 1 ∷ 101 ∷ 3 ∷ 4 ∷ 1 ∷ 46 ∷ []) }
    ensures text { AES256_GCM.now ≡ dotted (2 ∷ 16 ∷ 840 ∷ 1 ∷ 101 ∷ 3 ∷ 4 ∷ 1 ∷ 46 ∷ []) }
{
    from_lawful(alloc, &[2, 16, 840, 1, 101, 3, 4, 1, 46])
}

/// `2.16.840.1.101.3.4.1.47` (NIST, Computer Security Objects Register, aes).
pub const AES256_CCM: &'static str = "2.16.840.1.101.3.4.1.47";

/// The object identifier `AES256_CCM`, `2.16.840.1.101.3.4.1.47`.
///
/// # Errors
/// `AllocError` where memory is refused.
pub fn aes256_ccm<A: Allocator>(alloc: A) -> Result<ObjectIdentifier<A>, AllocError>
    ensures arcs { IfOk result (λ o. o ≡ 2 ∷ 16 ∷ 840 ∷ 1 ∷ 101 ∷ 3 ∷ 4 ∷ 1 ∷ 47 ∷ []) }
    ensures text { AES256_CCM.now ≡ dotted (2 ∷ 16 ∷ 840 ∷ 1 ∷ 101 ∷ 3 ∷ 4 ∷ 1 ∷ 47 ∷ []) }
{
    from_lawful(alloc, &[2, 16, 840, 1, 101, 3, 4, 1, 47])
}

/// `2.16.840.1.101.3.4.1.48` (NIST, Computer Security Objects Register, aes).
pub const AES256_WRAP_PAD: &'static str = "2.16.840.1.101.3.4.1.48";

/// The object identifier `AES256_WRAP_PAD`, `2.16.840.1.101.3.4.1.48`.
///
/// # Errors
/// `AllocError` where memory is refused.
pub fn aes256_wrap_pad<A: Allocator>(alloc: A) -> Result<ObjectIdentifier<A>, AllocError>
    ensures arcs { IfOk result (λ o. o ≡ 2 ∷ 16 ∷ 840 ∷ 1 ∷ 101 ∷ 3 ∷ 4 ∷ 1 ∷ 48 ∷ []) }
    ensures text { AES256_WRAP_PAD.now ≡ dotted (2 ∷ 16 ∷ 840 ∷ 1 ∷ 101 ∷ 3 ∷ 4 ∷ 1 ∷ 48 ∷ []) }
{
    from_lawful(alloc, &[2, 16, 840, 1, 101, 3, 4, 1, 48])
}

/// `1.2.840.113549.2` (RFC 8018, appendix C).
pub const DIGEST_ALGORITHM: &'static str = "1.2.840.113549.2";

/// The object identifier `DIGEST_ALGORITHM`, `1.2.840.113549.2`.
///
/// # Errors
/// `AllocError` where memory is refused.
pub fn digest_algorithm<A: Allocator>(alloc: A) -> Result<ObjectIdentifier<A>, AllocError>
    ensures arcs { IfOk result (λ o. o ≡ 1 ∷ 2 ∷ 840 ∷ 113549 ∷ 2 ∷ []) }
    ensures text { DIGEST_ALGORITHM.now ≡ dotted (1 ∷ 2 ∷ 840 ∷ 113549 ∷ 2 ∷ []) }
{
    from_lawful(alloc, &[1, 2, 840, 113549, 2])
}

/// `1.2.840.113549.2.5` (RFC 8017, B.1).
pub const MD5: &'static str = "1.2.840.113549.2.5";

/// The object identifier `MD5`, `1.2.840.113549.2.5`.
///
/// # Errors
/// `AllocError` where memory is refused.
pub fn md5<A: Allocator>(alloc: A) -> Result<ObjectIdentifier<A>, AllocError>
    ensures arcs { IfOk result (λ o. o ≡ 1 ∷ 2 ∷ 840 ∷ 113549 ∷ 2 ∷ 5 ∷ []) }
    ensures text { MD5.now ≡ dotted (1 ∷ 2 ∷ 840 ∷ 113549 ∷ 2 ∷ 5 ∷ []) }
{
    from_lawful(alloc, &[1, 2, 840, 113549, 2, 5])
}

/// `1.2.840.113549.2.7` (RFC 8018, B.1).
pub const HMAC_WITH_SHA1: &'static str = "1.2.840.113549.2.7";

/// The object identifier `HMAC_WITH_SHA1`, `1.2.840.113549.2.7`.
///
/// # Errors
/// `AllocError` where memory is refused.
pub fn hmac_with_sha1<A: Allocator>(alloc: A) -> Result<ObjectIdentifier<A>, AllocError>
    ensures arcs { IfOk result (λ o. o ≡ 1 ∷ 2 ∷ 840 ∷ 113549 ∷ 2 ∷ 7 ∷ []) }
    ensures text { HMAC_WITH_SHA1.now ≡ dotted (1 ∷ 2 ∷ 840 ∷ 113549 ∷ 2 ∷ 7 ∷ []) }
{
    from_lawful(alloc, &[1, 2, 840, 113549, 2, 7])
}

/// `1.2.840.113549.2.8` (RFC 8018, B.1).
pub const HMAC_WITH_SHA224: &'static str = "1.2.840.113549.2.8";

/// The object identifier `HMAC_WITH_SHA224`, `1.2.840.113549.2.8`.
///
/// # Errors
/// `AllocError` where memory is refused.
pub fn hmac_with_sha224<A: Allocator>(alloc: A) -> Result<ObjectIdentifier<A>, AllocError>
    ensures arcs { IfOk result (λ o. o ≡ 1 ∷ 2 ∷ 840 ∷ 113549 ∷ 2 ∷ 8 ∷ []) }
    ensures text { HMAC_WITH_SHA224.now ≡ dotted (1 ∷ 2 ∷ 840 ∷ 113549 ∷ 2 ∷ 8 ∷ []) }
{
    from_lawful(alloc, &[1, 2, 840, 113549, 2, 8])
}

/// `1.2.840.113549.2.9` (RFC 8018, B.1).
pub const HMAC_WITH_SHA256: &'static str = "1.2.840.113549.2.9";

/// The object identifier `HMAC_WITH_SHA256`, `1.2.840.113549.2.9`.
///
/// # Errors
/// `AllocError` where memory is refused.
pub fn hmac_with_sha256<A: Allocator>(alloc: A) -> Result<ObjectIdentifier<A>, AllocError>
    ensures arcs { IfOk result (λ o. o ≡ 1 ∷ 2 ∷ 840 ∷ 113549 ∷ 2 ∷ 9 ∷ []) }
    ensures text { HMAC_WITH_SHA256.now ≡ dotted (1 ∷ 2 ∷ 840 ∷ 113549 ∷ 2 ∷ 9 ∷ []) }
{
    from_lawful(alloc, &[1, 2, 840, 113549, 2, 9])
}

/// `1.2.840.113549.2.10` (RFC 8018, B.1).
pub const HMAC_WITH_SHA384: &'static str = "1.2.840.113549.2.10";

/// The object identifier `HMAC_WITH_SHA384`, `1.2.840.113549.2.10`.
///
/// # Errors
/// `AllocError` where memory is refused.
pub fn hmac_with_sha384<A: Allocator>(alloc: A) -> Result<ObjectIdentifier<A>, AllocError>
    ensures arcs { IfOk result (λ o. o ≡ 1 ∷ 2 ∷ 840 ∷ 113549 ∷ 2 ∷ 10 ∷ []) }
    ensures text { HMAC_WITH_SHA384.now ≡ dotted (1 ∷ 2 ∷ 840 ∷ 113549 ∷ 2 ∷ 10 ∷ []) }
{
    from_lawful(alloc, &[1, 2, 840, 113549, 2, 10])
}

/// `1.2.840.113549.2.11` (RFC 8018, B.1).
pub const HMAC_WITH_SHA512: &'static str = "1.2.840.113549.2.11";

/// The object identifier `HMAC_WITH_SHA512`, `1.2.840.113549.2.11`.
///
/// # Errors
/// `AllocError` where memory is refused.
pub fn hmac_with_sha512<A: Allocator>(alloc: A) -> Result<ObjectIdentifier<A>, AllocError>
    ensures arcs { IfOk result (λ o. o ≡ 1 ∷ 2 ∷ 840 ∷ 113549 ∷ 2 ∷ 11 ∷ []) }
    ensures text { HMAC_WITH_SHA512.now ≡ dotted (1 ∷ 2 ∷ 840 ∷ 113549 ∷ 2 ∷ 11 ∷ []) }
{
    from_lawful(alloc, &[1, 2, 840, 113549, 2, 11])
}

/// `1.3.14.3.2.26` (RFC 8017, B.1).
pub const SHA1: &'static str = "1.3.14.3.2.26";

/// The object identifier `SHA1`, `1.3.14.3.2.26`.
///
/// # Errors
/// `AllocError` where memory is refused.
pub fn sha1<A: Allocator>(alloc: A) -> Result<ObjectIdentifier<A>, AllocError>
    ensures arcs { IfOk result (λ o. o ≡ 1 ∷ 3 ∷ 14 ∷ 3 ∷ 2 ∷ 26 ∷ []) }
    ensures text { SHA1.now ≡ dotted (1 ∷ 3 ∷ 14 ∷ 3 ∷ 2 ∷ 26 ∷ []) }
{
    from_lawful(alloc, &[1, 3, 14, 3, 2, 26])
}

/// `2.16.840.1.101.3.4.2.1` (NIST, Computer Security Objects Register, hashAlgs).
pub const SHA256: &'static str = "2.16.840.1.101.3.4.2.1";

/// The object identifier `SHA256`, `2.16.840.1.101.3.4.2.1`.
///
/// # Errors
/// `AllocError` where memory is refused.
pub fn sha256<A: Allocator>(alloc: A) -> Result<ObjectIdentifier<A>, AllocError>
    ensures arcs { IfOk result (λ o. o ≡ 2 ∷ 16 ∷ 840 ∷ 1 ∷ 101 ∷ 3 ∷ 4 ∷ 2 ∷ 1 ∷ []) }
    ensures text { SHA256.now ≡ dotted (2 ∷ 16 ∷ 840 ∷ 1 ∷ 101 ∷ 3 ∷ 4 ∷ 2 ∷ 1 ∷ []) }
{
    from_lawful(alloc, &[2, 16, 840, 1, 101, 3, 4, 2, 1])
}

/// `2.16.840.1.101.3.4.2.2` (NIST, Computer Security Objects Register, hashAlgs).
pub const SHA384: &'static str = "2.16.840.1.101.3.4.2.2";

/// The object identifier `SHA384`, `2.16.840.1.101.3.4.2.2`.
///
/// # Errors
/// `AllocError` where memory is refused.
pub fn sha384<A: Allocator>(alloc: A) -> Result<ObjectIdentifier<A>, AllocError>
    ensures arcs { IfOk result (λ o. o ≡ 2 ∷ 16 ∷ 840 ∷ 1 ∷ 101 ∷ 3 ∷ 4 ∷ 2 ∷ 2 ∷ []) }
    ensures text { SHA384.now ≡ dotted (2 ∷ 16 ∷ 840 ∷ 1 ∷ 101 ∷ 3 ∷ 4 ∷ 2 ∷ 2 ∷ []) }
{
    from_lawful(alloc, &[2, 16, 840, 1, 101, 3, 4, 2, 2])
}

/// `2.16.840.1.101.3.4.2.3` (NIST, Computer Security Objects Register, hashAlgs).
pub const SHA512: &'static str = "2.16.840.1.101.3.4.2.3";

/// The object identifier `SHA512`, `2.16.840.1.101.3.4.2.3`.
///
/// # Errors
/// `AllocError` where memory is refused.
pub fn sha512<A: Allocator>(alloc: A) -> Result<ObjectIdentifier<A>, AllocError>
    ensures arcs { IfOk result (λ o. o ≡ 2 ∷ 16 ∷ 840 ∷ 1 ∷ 101 ∷ 3 ∷ 4 ∷ 2 ∷ 3 ∷ []) }
    ensures text { SHA512.now ≡ dotted (2 ∷ 16 ∷ 840 ∷ 1 ∷ 101 ∷ 3 ∷ 4 ∷ 2 ∷ 3 ∷ []) }
{
    from_lawful(alloc, &[2, 16, 840, 1, 101, 3, 4, 2, 3])
}

/// `2.16.840.1.101.3.4.2.4` (NIST, Computer Security Objects Register, hashAlgs).
pub const SHA224: &'static str = "2.16.840.1.101.3.4.2.4";

/// The object identifier `SHA224`, `2.16.840.1.101.3.4.2.4`.
///
/// # Errors
/// `AllocError` where memory is refused.
pub fn sha224<A: Allocator>(alloc: A) -> Result<ObjectIdentifier<A>, AllocError>
    ensures arcs { IfOk result (λ o. o ≡ 2 ∷ 16 ∷ 840 ∷ 1 ∷ 101 ∷ 3 ∷ 4 ∷ 2 ∷ 4 ∷ []) }
    ensures text { SHA224.now ≡ dotted (2 ∷ 16 ∷ 840 ∷ 1 ∷ 101 ∷ 3 ∷ 4 ∷ 2 ∷ 4 ∷ []) }
{
    from_lawful(alloc, &[2, 16, 840, 1, 101, 3, 4, 2, 4])
}

/// `2.16.840.1.101.3.4.2.5` (NIST, Computer Security Objects Register, hashAlgs).
pub const SHA512_224: &'static str = "2.16.840.1.101.3.4.2.5";

/// The object identifier `SHA512_224`, `2.16.840.1.101.3.4.2.5`.
///
/// # Errors
/// `AllocError` where memory is refused.
pub fn sha512_224<A: Allocator>(alloc: A) -> Result<ObjectIdentifier<A>, AllocError>
    ensures arcs { IfOk result (λ o. o ≡ 2 ∷ 16 ∷ 840 ∷ 1 ∷ 101 ∷ 3 ∷ 4 ∷ 2 ∷ 5 ∷ []) }
    ensures text { SHA512_224.now ≡ dotted (2 ∷ 16 ∷ 840 ∷ 1 ∷ 101 ∷ 3 ∷ 4 ∷ 2 ∷ 5 ∷ []) }
{
    from_lawful(alloc, &[2, 16, 840, 1, 101, 3, 4, 2, 5])
}

/// `2.16.840.1.101.3.4.2.6` (NIST, Computer Security Objects Register, hashAlgs).
pub const SHA512_256: &'static str = "2.16.840.1.101.3.4.2.6";

/// The object identifier `SHA512_256`, `2.16.840.1.101.3.4.2.6`.
///
/// # Errors
/// `AllocError` where memory is refused.
pub fn sha512_256<A: Allocator>(alloc: A) -> Result<ObjectIdentifier<A>, AllocError>
    ensures arcs { IfOk result (λ o. o ≡ 2 ∷ 16 ∷ 840 ∷ 1 ∷ 101 ∷ 3 ∷ 4 ∷ 2 ∷ 6 ∷ []) }
    ensures text { SHA512_256.now ≡ dotted (2 ∷ 16 ∷ 840 ∷ 1 ∷ 101 ∷ 3 ∷ 4 ∷ 2 ∷ 6 ∷ []) }
{
    from_lawful(alloc, &[2, 16, 840, 1, 101, 3, 4, 2, 6])
}

/// `2.16.840.1.101.3.4.2.7` (NIST, Computer Security Objects Register, hashAlgs).
pub const SHA3_224: &'static str = "2.16.840.1.101.3.4.2.7";

/// The object identifier `SHA3_224`, `2.16.840.1.101.3.4.2.7`.
///
/// # Errors
/// `AllocError` where memory is refused.
pub fn sha3_224<A: Allocator>(alloc: A) -> Result<ObjectIdentifier<A>, AllocError>
    ensures arcs { IfOk result (λ o. o ≡ 2 ∷ 16 ∷ 840 ∷ 1 ∷ 101 ∷ 3 ∷ 4 ∷ 2 ∷ 7 ∷ []) }
    ensures text { SHA3_224.now ≡ dotted (2 ∷ 16 ∷ 840 ∷ 1 ∷ 101 ∷ 3 ∷ 4 ∷ 2 ∷ 7 ∷ []) }
{
    from_lawful(alloc, &[2, 16, 840, 1, 101, 3, 4, 2, 7])
}

/// `2.16.840.1.101.3.4.2.8` (NIST, Computer Security Objects Register, hashAlgs).
pub const SHA3_256: &'static str = "2.16.840.1.101.3.4.2.8";

/// The object identifier `SHA3_256`, `2.16.840.1.101.3.4.2.8`.
///
/// # Errors
/// `AllocError` where memory is refused.
pub fn sha3_256<A: Allocator>(alloc: A) -> Result<ObjectIdentifier<A>, AllocError>
    ensures arcs { IfOk result (λ o. o ≡ 2 ∷ 16 ∷ 840 ∷ 1 ∷ 101 ∷ 3 ∷ 4 ∷ 2 ∷ 8 ∷ []) }
    ensures text { SHA3_256.now ≡ dotted (2 ∷ 16 ∷ 840 ∷ 1 ∷ 101 ∷ 3 ∷ 4 ∷ 2 ∷ 8 ∷ []) }
{
    from_lawful(alloc, &[2, 16, 840, 1, 101, 3, 4, 2, 8])
}

/// `2.16.840.1.101.3.4.2.9` (NIST, Computer Security Objects Register, hashAlgs).
pub const SHA3_384: &'static str = "2.16.840.1.101.3.4.2.9";

/// The object identifier `SHA3_384`, `2.16.840.1.101.3.4.2.9`.
///
/// # Errors
/// `AllocError` where memory is refused.
pub fn sha3_384<A: Allocator>(alloc: A) -> Result<ObjectIdentifier<A>, AllocError>
    ensures arcs { IfOk result (λ o. o ≡ 2 ∷ 16 ∷ 840 ∷ 1 ∷ 101 ∷ 3 ∷ 4 ∷ 2 ∷ 9 ∷ []) }
    ensures text { SHA3_384.now ≡ dotted (2 ∷ 16 ∷ 840 ∷ 1 ∷ 101 ∷ 3 ∷ 4 ∷ 2 ∷ 9 ∷ []) }
{
    from_lawful(alloc, &[2, 16, 840, 1, 101, 3, 4, 2, 9])
}

/// `2.16.840.1.101.3.4.2.10` (NIST, Computer Security Objects Register, hashAlgs).
pub const SHA3_512: &'static str = "2.16.840.1.101.3.4.2.10";

/// The object identifier `SHA3_512`, `2.16.840.1.101.3.4.2.10`.
///
/// # Errors
/// `AllocError` where memory is refused.
pub fn sha3_512<A: Allocator>(alloc: A) -> Result<ObjectIdentifier<A>, AllocError>
    ensures arcs { IfOk result (λ o. o ≡ 2 ∷ 16 ∷ 840 ∷ 1 ∷ 101 ∷ 3 ∷ 4 ∷ 2 ∷ 10 ∷ []) }
    ensures text { SHA3_512.now ≡ dotted (2 ∷ 16 ∷ 840 ∷ 1 ∷ 101 ∷ 3 ∷ 4 ∷ 2 ∷ 10 ∷ []) }
{
    from_lawful(alloc, &[2, 16, 840, 1, 101, 3, 4, 2, 10])
}

/// `2.16.840.1.101.3.4.2.11` (NIST, Computer Security Objects Register, hashAlgs).
pub const SHAKE128: &'static str = "2.16.840.1.101.3.4.2.11";

/// The object identifier `SHAKE128`, `2.16.840.1.101.3.4.2.11`.
///
/// # Errors
/// `AllocError` where memory is refused.
pub fn shake128<A: Allocator>(alloc: A) -> Result<ObjectIdentifier<A>, AllocError>
    ensures arcs { IfOk result (λ o. o ≡ 2 ∷ 16 ∷ 840 ∷ 1 ∷ 101 ∷ 3 ∷ 4 ∷ 2 ∷ 11 ∷ []) }
    ensures text { SHAKE128.now ≡ dotted (2 ∷ 16 ∷ 840 ∷ 1 ∷ 101 ∷ 3 ∷ 4 ∷ 2 ∷ 11 ∷ []) }
{
    from_lawful(alloc, &[2, 16, 840, 1, 101, 3, 4, 2, 11])
}

/// `2.16.840.1.101.3.4.2.12` (NIST, Computer Security Objects Register, hashAlgs).
pub const SHAKE256: &'static str = "2.16.840.1.101.3.4.2.12";

/// The object identifier `SHAKE256`, `2.16.840.1.101.3.4.2.12`.
///
/// # Errors
/// `AllocError` where memory is refused.
pub fn shake256<A: Allocator>(alloc: A) -> Result<ObjectIdentifier<A>, AllocError>
    ensures arcs { IfOk result (λ o. o ≡ 2 ∷ 16 ∷ 840 ∷ 1 ∷ 101 ∷ 3 ∷ 4 ∷ 2 ∷ 12 ∷ []) }
    ensures text { SHAKE256.now ≡ dotted (2 ∷ 16 ∷ 840 ∷ 1 ∷ 101 ∷ 3 ∷ 4 ∷ 2 ∷ 12 ∷ []) }
{
    from_lawful(alloc, &[2, 16, 840, 1, 101, 3, 4, 2, 12])
}
