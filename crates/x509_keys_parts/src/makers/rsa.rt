//! Makers of the algorithm identifiers of RSA.

ghost use Rattle.std.specs.Prelude.{◌≡◌, ◌∷◌, [], IfOk, IfErr, IsSome, Some, None};
ghost use Rattle.x509_keys_parts.specs.AlgorithmIdentifier.{identified};
ghost use Rattle.x509_keys_parts.specs.RsaSignatures.{rsa_with_sha};
ghost use Rattle.x509_keys_parts.specs.ShaVariants.{sha_name};
ghost use Rattle.x509_keys_parts.specs.Unsupported.{Names};

use crate::algorithm_identifier::AlgorithmIdentifier;
use crate::algorithm_parameters::AlgorithmIdentifierParameters;
use crate::errors::{AlgorithmError, named_by};
use crate::makers::{with_null, with_parameters};
use crate::rsassa_pss::RsassaPssParams;
use crate::sha_variant::ShaVariant;
use std::alloc::{AllocError, Allocator};
use x509_oids_algorithms as oids;

/// The error of a hash function with which no RSA signature is known: its name, or want of memory for that.
fn unsupported_hash<A: Allocator>(alloc: A, variant: ShaVariant) -> AlgorithmError<A>
    ensures { Names result (sha_name variant) }
{
    named_by(String::from_str(alloc, variant.name()))
}

impl<A: Allocator> AlgorithmIdentifier<A> {
    /// RSASSA-PKCS1-v1_5 with MD5: `1.2.840.113549.1.1.4`, with NULL. It isn't read back,
    /// since an `AlgorithmIdentifier` with MD5 is refused.
    ///
    /// # Errors
    /// `AllocError` where memory is refused.
    pub fn new_md5_with_rsa_encryption(alloc: A) -> Result<Self, AllocError>
        ensures { IfOk result (λ v. v ≡ identified (1 ∷ 2 ∷ 840 ∷ 113549 ∷ 1 ∷ 1 ∷ 4 ∷ [])
            AlgorithmIdentifierParameters.Null) }
    {
        with_null(oids::md5_with_rsa_encryption(alloc))
    }

    /// RSASSA-PKCS1-v1_5 with SHA-1: `1.2.840.113549.1.1.5`, with NULL.
    ///
    /// # Errors
    /// `AllocError` where memory is refused.
    pub fn new_sha1_with_rsa_encryption(alloc: A) -> Result<Self, AllocError>
        ensures { IfOk result (λ v. v ≡ identified (1 ∷ 2 ∷ 840 ∷ 113549 ∷ 1 ∷ 1 ∷ 5 ∷ [])
            AlgorithmIdentifierParameters.Null) }
    {
        with_null(oids::sha1_with_rsa_encryption(alloc))
    }

    /// RSASSA-PKCS1-v1_5 with SHA-224: `1.2.840.113549.1.1.14`, with NULL.
    ///
    /// # Errors
    /// `AllocError` where memory is refused.
    pub fn new_sha224_with_rsa_encryption(alloc: A) -> Result<Self, AllocError>
        ensures { IfOk result (λ v. v ≡ identified (1 ∷ 2 ∷ 840 ∷ 113549 ∷ 1 ∷ 1 ∷ 14 ∷ [])
            AlgorithmIdentifierParameters.Null) }
    {
        with_null(oids::sha224_with_rsa_encryption(alloc))
    }

    /// RSASSA-PKCS1-v1_5 with SHA-256: `1.2.840.113549.1.1.11`, with NULL.
    ///
    /// # Errors
    /// `AllocError` where memory is refused.
    pub fn new_sha256_with_rsa_encryption(alloc: A) -> Result<Self, AllocError>
        ensures { IfOk result (λ v. v ≡ identified (1 ∷ 2 ∷ 840 ∷ 113549 ∷ 1 ∷ 1 ∷ 11 ∷ [])
            AlgorithmIdentifierParameters.Null) }
    {
        with_null(oids::sha256_with_rsa_encryption(alloc))
    }

    /// RSASSA-PKCS1-v1_5 with SHA-384: `1.2.840.113549.1.1.12`, with NULL.
    ///
    /// # Errors
    /// `AllocError` where memory is refused.
    pub fn new_sha384_with_rsa_encryption(alloc: A) -> Result<Self, AllocError>
        ensures { IfOk result (λ v. v ≡ identified (1 ∷ 2 ∷ 840 ∷ 113549 ∷ 1 ∷ 1 ∷ 12 ∷ [])
            AlgorithmIdentifierParameters.Null) }
    {
        with_null(oids::sha384_with_rsa_encryption(alloc))
    }

    /// RSASSA-PKCS1-v1_5 with SHA-512: `1.2.840.113549.1.1.13`, with NULL.
    ///
    /// # Errors
    /// `AllocError` where memory is refused.
    pub fn new_sha512_with_rsa_encryption(alloc: A) -> Result<Self, AllocError>
        ensures { IfOk result (λ v. v ≡ identified (1 ∷ 2 ∷ 840 ∷ 113549 ∷ 1 ∷ 1 ∷ 13 ∷ [])
            AlgorithmIdentifierParameters.Null) }
    {
        with_null(oids::sha512_with_rsa_encryption(alloc))
    }

    /// RSASSA-PKCS1-v1_5 with SHA3-224: `2.16.840.1.101.3.4.3.13`, with NULL.
    ///
    /// # Errors
    /// `AllocError` where memory is refused.
    pub fn new_sha3_224_with_rsa_encryption(alloc: A) -> Result<Self, AllocError>
        ensures { IfOk result (λ v. v ≡ identified (2 ∷ 16 ∷ 840 ∷ 1 ∷ 101 ∷ 3 ∷ 4 ∷ 3 ∷ 13 ∷ [])
            AlgorithmIdentifierParameters.Null) }
    {
        with_null(oids::id_rsassa_pkcs1_v1_5_with_sha3_224(alloc))
    }

    /// RSASSA-PKCS1-v1_5 with SHA3-256: `2.16.840.1.101.3.4.3.14`, with NULL.
    ///
    /// # Errors
    /// `AllocError` where memory is refused.
    pub fn new_sha3_256_with_rsa_encryption(alloc: A) -> Result<Self, AllocError>
        ensures { IfOk result (λ v. v ≡ identified (2 ∷ 16 ∷ 840 ∷ 1 ∷ 101 ∷ 3 ∷ 4 ∷ 3 ∷ 14 ∷ [])
            AlgorithmIdentifierParameters.Null) }
    {
        with_null(oids::id_rsassa_pkcs1_v1_5_with_sha3_256(alloc))
    }

    /// RSASSA-PKCS1-v1_5 with SHA3-384: `2.16.840.1.101.3.4.3.15`, with NULL.
    ///
    /// # Errors
    /// `AllocError` where memory is refused.
    pub fn new_sha3_384_with_rsa_encryption(alloc: A) -> Result<Self, AllocError>
        ensures { IfOk result (λ v. v ≡ identified (2 ∷ 16 ∷ 840 ∷ 1 ∷ 101 ∷ 3 ∷ 4 ∷ 3 ∷ 15 ∷ [])
            AlgorithmIdentifierParameters.Null) }
    {
        with_null(oids::id_rsassa_pkcs1_v1_5_with_sha3_384(alloc))
    }

    /// RSASSA-PKCS1-v1_5 with SHA3-512: `2.16.840.1.101.3.4.3.16`, with NULL.
    ///
    /// # Errors
    /// `AllocError` where memory is refused.
    pub fn new_sha3_512_with_rsa_encryption(alloc: A) -> Result<Self, AllocError>
        ensures { IfOk result (λ v. v ≡ identified (2 ∷ 16 ∷ 840 ∷ 1 ∷ 101 ∷ 3 ∷ 4 ∷ 3 ∷ 16 ∷ [])
            AlgorithmIdentifierParameters.Null) }
    {
        with_null(oids::id_rsassa_pkcs1_v1_5_with_sha3_512(alloc))
    }

    /// RSA keys: `1.2.840.113549.1.1.1`, with NULL.
    ///
    /// # Errors
    /// `AllocError` where memory is refused.
    pub fn new_rsa_encryption(alloc: A) -> Result<Self, AllocError>
        ensures { IfOk result (λ v. v ≡ identified (1 ∷ 2 ∷ 840 ∷ 113549 ∷ 1 ∷ 1 ∷ 1 ∷ [])
            AlgorithmIdentifierParameters.Null) }
    {
        with_null(oids::rsa_encryption(alloc))
    }

    /// RSASSA-PSS with parameters: `1.2.840.113549.1.1.10`.
    ///
    /// # Errors
    /// `AllocError` where memory is refused; the parameters are dropped.
    pub fn new_rsassa_pss(alloc: A, parameters: RsassaPssParams<A>) -> Result<Self, AllocError>
        ensures { IfOk result (λ v. v ≡ identified (1 ∷ 2 ∷ 840 ∷ 113549 ∷ 1 ∷ 1 ∷ 10 ∷ [])
            (AlgorithmIdentifierParameters.RsassaPss parameters)) }
    {
        with_parameters(
            oids::rsassa_pss(alloc),
            AlgorithmIdentifierParameters::RsassaPss(parameters),
        )
    }

    /// RSASSA-PKCS1-v1_5 with a hash function by name, with NULL. Known are SHA2_224, SHA2_256, SHA2_384, SHA2_512,
    /// SHA3_384 and SHA3_512.
    ///
    /// # Errors
    /// `Unsupported`, with the variant's name, exactly where it is another, or `OutOfMemory` where memory for that text
    /// is refused; of those that are known `OutOfMemory` alone.
    pub fn new_rsa_encryption_with_sha(
        alloc: A,
        variant: ShaVariant,
    ) -> Result<Self, AlgorithmError<A>>
        ensures ok { IfOk result (λ v. (rsa_with_sha variant ≡ Some v.algorithm) ×
            (v.parameters ≡ AlgorithmIdentifierParameters.Null)) }
        ensures known { IfErr result (λ e. IsSome (rsa_with_sha variant) → e ≡ AlgorithmError.OutOfMemory) }
        ensures unknown { IfErr result (λ e. rsa_with_sha variant ≡ None → Names e (sha_name variant)) }
    {
        let made = match variant {
            ShaVariant::SHA2_224 => Self::new_sha224_with_rsa_encryption(alloc),
            ShaVariant::SHA2_256 => Self::new_sha256_with_rsa_encryption(alloc),
            ShaVariant::SHA2_384 => Self::new_sha384_with_rsa_encryption(alloc),
            ShaVariant::SHA2_512 => Self::new_sha512_with_rsa_encryption(alloc),
            ShaVariant::SHA3_384 => Self::new_sha3_384_with_rsa_encryption(alloc),
            ShaVariant::SHA3_512 => Self::new_sha3_512_with_rsa_encryption(alloc),
            ShaVariant::MD5
            | ShaVariant::SHA1
            | ShaVariant::SHA2_512_224
            | ShaVariant::SHA2_512_256
            | ShaVariant::SHA3_224
            | ShaVariant::SHA3_256
            | ShaVariant::SHAKE128
            | ShaVariant::SHAKE256 => return Err(unsupported_hash(alloc, variant)),
        };
        Ok(made?)
    }
}
