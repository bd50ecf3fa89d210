//! Makers of algorithm identifiers.

ghost use Rattle.std.specs.Prelude.{◌≡◌, MatchResult, IsOkAnd, Err};
ghost use Rattle.x509_keys_parts.specs.AlgorithmIdentifier.{identified};

mod aes;
mod curves;
mod others;
mod rsa;

use crate::algorithm_identifier::{AlgorithmIdentifier, new_unchecked};
use crate::algorithm_parameters::AlgorithmIdentifierParameters;
use std::alloc::{AllocError, Allocator};
use x509_der::ObjectIdentifier;

/// The algorithm with parameters, if there was memory for its identifier.
///
/// # Errors
/// `AllocError` where there was none; the parameters are dropped.
fn with_parameters<A: Allocator>(
    algorithm: Result<ObjectIdentifier<A>, AllocError>,
    parameters: AlgorithmIdentifierParameters<A>,
) -> Result<AlgorithmIdentifier<A>, AllocError>
    ensures { MatchResult algorithm (λ o. IsOkAnd result (λ v. v ≡ identified o parameters)) (λ e. result ≡ Err e) }
{
    Ok(new_unchecked(algorithm?, parameters))
}

/// The algorithm with NULL for its parameters, if there was memory for its identifier.
///
/// # Errors
/// `AllocError` where there was none.
fn with_null<A: Allocator>(
    algorithm: Result<ObjectIdentifier<A>, AllocError>,
) -> Result<AlgorithmIdentifier<A>, AllocError>
    ensures { MatchResult algorithm (λ o. IsOkAnd result (λ v. v ≡ identified o AlgorithmIdentifierParameters.Null))
        (λ e. result ≡ Err e) }
{
    with_parameters(algorithm, AlgorithmIdentifierParameters::Null)
}

/// The algorithm without parameters, if there was memory for its identifier.
///
/// # Errors
/// `AllocError` where there was none.
fn without_parameters<A: Allocator>(
    algorithm: Result<ObjectIdentifier<A>, AllocError>,
) -> Result<AlgorithmIdentifier<A>, AllocError>
    ensures { MatchResult algorithm (λ o. IsOkAnd result (λ v. v ≡ identified o AlgorithmIdentifierParameters.None))
        (λ e. result ≡ Err e) }
{
    with_parameters(algorithm, AlgorithmIdentifierParameters::None)
}
