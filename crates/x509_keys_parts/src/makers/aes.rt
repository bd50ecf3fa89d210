//! Makers of the algorithm identifiers of AES.

ghost use Rattle.std.specs.Prelude.{◌≡◌, ◌+◌, ◌≤◌, ◌∷◌, [], IfOk};
ghost use Rattle.x509_keys_parts.specs.AesParameters.{mode_number};
ghost use Rattle.x509_keys_parts.specs.AlgorithmIdentifier.{identified};

use crate::aes::{AesMode, AesParameters};
use crate::algorithm_identifier::AlgorithmIdentifier;
use crate::algorithm_parameters::AlgorithmIdentifierParameters;
use crate::makers::{with_parameters, without_parameters};
use std::alloc::{AllocError, Allocator};
use x509_der::ObjectIdentifier;
use x509_der::parts::from_lawful;

/// Where a mode stands among those of a key size, from 1.
fn mode_number(mode: AesMode) -> u64
    ensures number { result ≡ mode_number mode }
    ensures few { result ≤ 8 }
{
    match mode {
        AesMode::Ecb => 1,
        AesMode::Cbc => 2,
        AesMode::Ofb => 3,
        AesMode::Cfb => 4,
        AesMode::Wrap => 5,
        AesMode::Gcm => 6,
        AesMode::Ccm => 7,
        AesMode::WrapPad => 8,
    }
}

/// AES in a mode. The identifiers of a key size stand in the order of the modes behind an arc: 0 for 128 bits, 20 for
/// 192 and 40 for 256.
///
/// # Errors
/// `AllocError` where memory is refused.
fn aes_oid<A: Allocator>(
    alloc: A,
    size: u64,
    mode: AesMode,
) -> Result<ObjectIdentifier<A>, AllocError>
    requires { size ≤ 40 }
    ensures { IfOk result (λ o. o ≡ 2 ∷ 16 ∷ 840 ∷ 1 ∷ 101 ∷ 3 ∷ 4 ∷ 1 ∷ (size + mode_number mode) ∷ []) }
{
    from_lawful(
        alloc,
        &[2, 16, 840, 1, 101, 3, 4, 1, size + mode_number(mode)],
    )
}

impl<A: Allocator> AlgorithmIdentifier<A> {
    /// AES with a key of 128 bits in a mode, and parameters: `2.16.840.1.101.3.4.1.1` to `.8` in the modes' order.
    ///
    /// # Errors
    /// `AllocError` where memory is refused; the parameters are dropped.
    pub fn new_aes128(
        alloc: A,
        mode: AesMode,
        parameters: AesParameters<A>,
    ) -> Result<Self, AllocError>
        ensures { IfOk result (λ v. v ≡ identified (2 ∷ 16 ∷ 840 ∷ 1 ∷ 101 ∷ 3 ∷ 4 ∷ 1 ∷ (0 + mode_number
            mode) ∷ []) (AlgorithmIdentifierParameters.Aes parameters)) }
    {
        with_parameters(
            aes_oid(alloc, 0, mode),
            AlgorithmIdentifierParameters::Aes(parameters),
        )
    }

    /// AES with a key of 192 bits in a mode, and parameters: `2.16.840.1.101.3.4.1.21` to `.28` in the modes' order.
    ///
    /// # Errors
    /// `AllocError` where memory is refused; the parameters are dropped.
    pub fn new_aes192(
        alloc: A,
        mode: AesMode,
        parameters: AesParameters<A>,
    ) -> Result<Self, AllocError>
        ensures { IfOk result (λ v. v ≡ identified (2 ∷ 16 ∷ 840 ∷ 1 ∷ 101 ∷ 3 ∷ 4 ∷ 1 ∷ (20 + mode_number
            mode) ∷ []) (AlgorithmIdentifierParameters.Aes parameters)) }
    {
        with_parameters(
            aes_oid(alloc, 20, mode),
            AlgorithmIdentifierParameters::Aes(parameters),
        )
    }

    /// AES with a key of 256 bits in a mode, and parameters: `2.16.840.1.101.3.4.1.41` to `.48` in the modes' order.
    ///
    /// # Errors
    /// `AllocError` where memory is refused; the parameters are dropped.
    pub fn new_aes256(
        alloc: A,
        mode: AesMode,
        parameters: AesParameters<A>,
    ) -> Result<Self, AllocError>
        ensures { IfOk result (λ v. v ≡ identified (2 ∷ 16 ∷ 840 ∷ 1 ∷ 101 ∷ 3 ∷ 4 ∷ 1 ∷ (40 + mode_number
            mode) ∷ []) (AlgorithmIdentifierParameters.Aes parameters)) }
    {
        with_parameters(
            aes_oid(alloc, 40, mode),
            AlgorithmIdentifierParameters::Aes(parameters),
        )
    }

    /// AES with a key of 256 bits in a mode, without parameters: `2.16.840.1.101.3.4.1.41` to `.48` in the modes'
    /// order.
    ///
    /// # Errors
    /// `AllocError` where memory is refused.
    pub fn new_aes256_empty(alloc: A, mode: AesMode) -> Result<Self, AllocError>
        ensures { IfOk result (λ v. v ≡ identified (2 ∷ 16 ∷ 840 ∷ 1 ∷ 101 ∷ 3 ∷ 4 ∷ 1 ∷ (40 + mode_number
            mode) ∷ []) AlgorithmIdentifierParameters.None) }
    {
        without_parameters(aes_oid(alloc, 40, mode))
    }
}
