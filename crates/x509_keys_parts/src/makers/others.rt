//! Makers of the algorithm identifiers of DSA, ML-DSA and hash functions.

ghost use Rattle.std.specs.Prelude.{◌≡◌, ◌∷◌, [], IfOk};
ghost use Rattle.x509_keys_parts.specs.AlgorithmIdentifier.{identified};
ghost use Rattle.x509_keys_parts.specs.ShaVariants.{sha_arcs};

use crate::algorithm_identifier::AlgorithmIdentifier;
use crate::algorithm_parameters::AlgorithmIdentifierParameters;
use crate::makers::{with_null, without_parameters};
use crate::sha_variant::ShaVariant;
use std::alloc::{AllocError, Allocator};
use x509_oids_algorithms as oids;

impl<A: Allocator> AlgorithmIdentifier<A> {
    /// DSA with SHA-1: `1.2.840.10040.4.3`, with NULL. It isn't read back, since the
    /// `AlgorithmIdentifier` of DSA with SHA-1 has no parameters (RFC 3279, 2.2.2).
    ///
    /// # Errors
    /// `AllocError` where memory is refused.
    pub fn new_dsa_with_sha1(alloc: A) -> Result<Self, AllocError>
        ensures { IfOk result (λ v. v ≡ identified (1 ∷ 2 ∷ 840 ∷ 10040 ∷ 4 ∷ 3 ∷ [])
            AlgorithmIdentifierParameters.Null) }
    {
        with_null(oids::dsa_with_sha1(alloc))
    }

    /// ML-DSA-44: `2.16.840.1.101.3.4.3.17`, without parameters.
    ///
    /// # Errors
    /// `AllocError` where memory is refused.
    pub fn new_mldsa_44(alloc: A) -> Result<Self, AllocError>
        ensures { IfOk result (λ v. v ≡ identified (2 ∷ 16 ∷ 840 ∷ 1 ∷ 101 ∷ 3 ∷ 4 ∷ 3 ∷ 17 ∷ [])
            AlgorithmIdentifierParameters.None) }
    {
        without_parameters(oids::id_mldsa_44(alloc))
    }

    /// ML-DSA-65: `2.16.840.1.101.3.4.3.18`, without parameters.
    ///
    /// # Errors
    /// `AllocError` where memory is refused.
    pub fn new_mldsa_65(alloc: A) -> Result<Self, AllocError>
        ensures { IfOk result (λ v. v ≡ identified (2 ∷ 16 ∷ 840 ∷ 1 ∷ 101 ∷ 3 ∷ 4 ∷ 3 ∷ 18 ∷ [])
            AlgorithmIdentifierParameters.None) }
    {
        without_parameters(oids::id_mldsa_65(alloc))
    }

    /// ML-DSA-87: `2.16.840.1.101.3.4.3.19`, without parameters.
    ///
    /// # Errors
    /// `AllocError` where memory is refused.
    pub fn new_mldsa_87(alloc: A) -> Result<Self, AllocError>
        ensures { IfOk result (λ v. v ≡ identified (2 ∷ 16 ∷ 840 ∷ 1 ∷ 101 ∷ 3 ∷ 4 ∷ 3 ∷ 19 ∷ [])
            AlgorithmIdentifierParameters.None) }
    {
        without_parameters(oids::id_mldsa_87(alloc))
    }

    /// SHA-1: `1.3.14.3.2.26`, with NULL.
    ///
    /// # Errors
    /// `AllocError` where memory is refused.
    pub fn new_sha1(alloc: A) -> Result<Self, AllocError>
        ensures { IfOk result (λ v. v ≡ identified (1 ∷ 3 ∷ 14 ∷ 3 ∷ 2 ∷ 26 ∷ [])
            AlgorithmIdentifierParameters.Null) }
    {
        with_null(oids::sha1(alloc))
    }

    /// A hash function by name, with NULL. That of MD5 isn't read back, since an `AlgorithmIdentifier` with MD5 is
    /// refused.
    ///
    /// # Errors
    /// `AllocError` where memory is refused.
    pub fn new_sha(alloc: A, variant: ShaVariant) -> Result<Self, AllocError>
        ensures { IfOk result (λ v. v ≡ identified (sha_arcs variant) AlgorithmIdentifierParameters.Null) }
    {
        with_null(variant.to_oid(alloc))
    }
}
