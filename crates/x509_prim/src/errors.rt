//! Why bytes are no string of a type.

use thiserror::Error;
use x509_der::SameEq;

/// A character is not one that the string type allows.
#[derive(Clone, Copy, Debug, PartialEq, Eq, Error)]
#[error("a character is not one that the string type allows")]
pub struct CharSetError;

impl SameEq for CharSetError {
    fn decides() {}
}
