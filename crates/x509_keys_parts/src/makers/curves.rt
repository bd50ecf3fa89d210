//! Makers of the algorithm identifiers of elliptic curves.

ghost use Rattle.std.specs.Prelude.{◌≡◌, ◌∷◌, [], IfOk};
ghost use Rattle.x509_keys_parts.specs.AlgorithmIdentifier.{identified};

use crate::algorithm_identifier::AlgorithmIdentifier;
use crate::algorithm_parameters::AlgorithmIdentifierParameters;
use crate::ec_parameters::EcParameters;
use crate::makers::{with_parameters, without_parameters};
use std::alloc::{AllocError, Allocator};
use x509_oids_algorithms as oids;

impl<A: Allocator> AlgorithmIdentifier<A> {
    /// Elliptic curve keys on a curve: `1.2.840.10045.2.1`, with the curve.
    ///
    /// # Errors
    /// `AllocError` where memory is refused; the parameters are dropped.
    pub fn new_elliptic_curve(alloc: A, parameters: EcParameters<A>) -> Result<Self, AllocError>
        ensures { IfOk result (λ v. v ≡ identified (1 ∷ 2 ∷ 840 ∷ 10045 ∷ 2 ∷ 1 ∷ [])
            (AlgorithmIdentifierParameters.Ec parameters)) }
    {
        with_parameters(
            oids::ec_public_key(alloc),
            AlgorithmIdentifierParameters::Ec(parameters),
        )
    }

    /// ECDSA with SHA-256: `1.2.840.10045.4.3.2`, without parameters.
    ///
    /// # Errors
    /// `AllocError` where memory is refused.
    pub fn new_ecdsa_with_sha256(alloc: A) -> Result<Self, AllocError>
        ensures { IfOk result (λ v. v ≡ identified (1 ∷ 2 ∷ 840 ∷ 10045 ∷ 4 ∷ 3 ∷ 2 ∷ [])
            AlgorithmIdentifierParameters.None) }
    {
        without_parameters(oids::ecdsa_with_sha256(alloc))
    }

    /// ECDSA with SHA-384: `1.2.840.10045.4.3.3`, without parameters.
    ///
    /// # Errors
    /// `AllocError` where memory is refused.
    pub fn new_ecdsa_with_sha384(alloc: A) -> Result<Self, AllocError>
        ensures { IfOk result (λ v. v ≡ identified (1 ∷ 2 ∷ 840 ∷ 10045 ∷ 4 ∷ 3 ∷ 3 ∷ [])
            AlgorithmIdentifierParameters.None) }
    {
        without_parameters(oids::ecdsa_with_sha384(alloc))
    }

    /// ECDSA with SHA-512: `1.2.840.10045.4.3.4`, without parameters.
    ///
    /// # Errors
    /// `AllocError` where memory is refused.
    pub fn new_ecdsa_with_sha512(alloc: A) -> Result<Self, AllocError>
        ensures { IfOk result (λ v. v ≡ identified (1 ∷ 2 ∷ 840 ∷ 10045 ∷ 4 ∷ 3 ∷ 4 ∷ [])
            AlgorithmIdentifierParameters.None) }
    {
        without_parameters(oids::ecdsa_with_sha512(alloc))
    }

    /// ECDSA with SHA3-224: `2.16.840.1.101.3.4.3.9`, without parameters.
    ///
    /// # Errors
    /// `AllocError` where memory is refused.
    pub fn new_ecdsa_with_sha3_224(alloc: A) -> Result<Self, AllocError>
        ensures { IfOk result (λ v. v ≡ identified (2 ∷ 16 ∷ 840 ∷ 1 ∷ 101 ∷ 3 ∷ 4 ∷ 3 ∷ 9 ∷ [])
            AlgorithmIdentifierParameters.None) }
    {
        without_parameters(oids::id_ecdsa_with_sha3_224(alloc))
    }

    /// ECDSA with SHA3-256: `2.16.840.1.101.3.4.3.10`, without parameters.
    ///
    /// # Errors
    /// `AllocError` where memory is refused.
    pub fn new_ecdsa_with_sha3_256(alloc: A) -> Result<Self, AllocError>
        ensures { IfOk result (λ v. v ≡ identified (2 ∷ 16 ∷ 840 ∷ 1 ∷ 101 ∷ 3 ∷ 4 ∷ 3 ∷ 10 ∷ [])
            AlgorithmIdentifierParameters.None) }
    {
        without_parameters(oids::id_ecdsa_with_sha3_256(alloc))
    }

    /// ECDSA with SHA3-384: `2.16.840.1.101.3.4.3.11`, without parameters.
    ///
    /// # Errors
    /// `AllocError` where memory is refused.
    pub fn new_ecdsa_with_sha3_384(alloc: A) -> Result<Self, AllocError>
        ensures { IfOk result (λ v. v ≡ identified (2 ∷ 16 ∷ 840 ∷ 1 ∷ 101 ∷ 3 ∷ 4 ∷ 3 ∷ 11 ∷ [])
            AlgorithmIdentifierParameters.None) }
    {
        without_parameters(oids::id_ecdsa_with_sha3_384(alloc))
    }

    /// ECDSA with SHA3-512: `2.16.840.1.101.3.4.3.12`, without parameters.
    ///
    /// # Errors
    /// `AllocError` where memory is refused.
    pub fn new_ecdsa_with_sha3_512(alloc: A) -> Result<Self, AllocError>
        ensures { IfOk result (λ v. v ≡ identified (2 ∷ 16 ∷ 840 ∷ 1 ∷ 101 ∷ 3 ∷ 4 ∷ 3 ∷ 12 ∷ [])
            AlgorithmIdentifierParameters.None) }
    {
        without_parameters(oids::id_ecdsa_with_sha3_512(alloc))
    }

    /// Ed25519: `1.3.101.112`, without parameters.
    ///
    /// # Errors
    /// `AllocError` where memory is refused.
    pub fn new_ed25519(alloc: A) -> Result<Self, AllocError>
        ensures { IfOk result (λ v. v ≡ identified (1 ∷ 3 ∷ 101 ∷ 112 ∷ [])
            AlgorithmIdentifierParameters.None) }
    {
        without_parameters(oids::ed25519(alloc))
    }

    /// X25519: `1.3.101.110`, without parameters.
    ///
    /// # Errors
    /// `AllocError` where memory is refused.
    pub fn new_x25519(alloc: A) -> Result<Self, AllocError>
        ensures { IfOk result (λ v. v ≡ identified (1 ∷ 3 ∷ 101 ∷ 110 ∷ [])
            AlgorithmIdentifierParameters.None) }
    {
        without_parameters(oids::x25519(alloc))
    }

    /// Ed448: `1.3.101.113`, without parameters.
    ///
    /// # Errors
    /// `AllocError` where memory is refused.
    pub fn new_ed448(alloc: A) -> Result<Self, AllocError>
        ensures { IfOk result (λ v. v ≡ identified (1 ∷ 3 ∷ 101 ∷ 113 ∷ [])
            AlgorithmIdentifierParameters.None) }
    {
        without_parameters(oids::ed448(alloc))
    }

    /// X448: `1.3.101.111`, without parameters.
    ///
    /// # Errors
    /// `AllocError` where memory is refused.
    pub fn new_x448(alloc: A) -> Result<Self, AllocError>
        ensures { IfOk result (λ v. v ≡ identified (1 ∷ 3 ∷ 101 ∷ 111 ∷ [])
            AlgorithmIdentifierParameters.None) }
    {
        without_parameters(oids::x448(alloc))
    }
}
