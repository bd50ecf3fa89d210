//! Why an algorithm isn't taken.

ghost use Rattle.std.specs.Prelude.{◌≡◌, IfOk, IfErr};
ghost use Rattle.x509_der.specs.ObjectIdentifier.{dotted};
ghost use Rattle.x509_keys_parts.specs.Unsupported.{Names};

use std::alloc::{AllocError, Allocator, Global};
use thiserror::Error;
use x509_der::ObjectIdentifier;

/// An algorithm is not one that is understood.
#[derive(Drop, Error)]
#[derive_where(Debug, PartialEq, Eq)]
#[error("unsupported algorithm:  {algorithm}")]
pub struct UnsupportedAlgorithmError<A: Allocator = Global> {
    /// The algorithm: its object identifier as dotted text, or its name.
    pub algorithm: String<A>,
}

/// Why an algorithm isn't taken.
#[derive(Drop, Error)]
#[derive_where(Debug, PartialEq, Eq)]
pub enum AlgorithmError<A: Allocator = Global> {
    /// The algorithm is not one that is understood.
    #[error(transparent)]
    Unsupported(UnsupportedAlgorithmError<A>),
    /// A request for memory was refused.
    #[error("out of memory")]
    OutOfMemory,
}

impl<A: Allocator> From<AllocError> for AlgorithmError<A> {
    ghost use Rattle.std.specs.Prelude.{◌≡◌};
    ghost use Rattle.x509_keys_parts.specs.declared.errors.AlgorithmError.TheVariants as variants;

    ghost from_gives = { λ _ e. e ≡ variants.OutOfMemory };

    fn from(_refused: AllocError) -> Self {
        AlgorithmError::OutOfMemory
    }
}

/// The error that names an algorithm by a text; where there was no memory for the text, want of it.
pub(crate) fn named_by<A: Allocator>(text: Result<String<A>, AllocError>) -> AlgorithmError<A>
    ensures text { IfOk text (λ algorithm. result ≡ AlgorithmError.Unsupported (record { algorithm = algorithm })) }
    ensures memory { IfErr text (λ _. result ≡ AlgorithmError.OutOfMemory) }
{
    match text {
        Ok(algorithm) => AlgorithmError::Unsupported(UnsupportedAlgorithmError { algorithm }),
        Err(refused) => AlgorithmError::from(refused),
    }
}

/// The error of an object identifier that isn't understood: its dotted text, or want of memory for that.
pub(crate) fn unsupported<A: Allocator>(
    alloc: A,
    identifier: &ObjectIdentifier<A>,
) -> AlgorithmError<A>
    ensures { Names result (dotted identifier.now) }
{
    named_by(identifier.to_string(alloc))
}
