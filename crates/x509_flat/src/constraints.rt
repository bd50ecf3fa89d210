//! What an extension of basic constraints says.

ghost use Rattle.std.specs.Prelude.{◌≡◌};
ghost use Rattle.x509_flat.specs.Constraints.{ConstraintsTold, flat_constraints, no_constraints};

use crate::status::Answer;
use picky_asn1_x509::{BasicConstraints, from_bytes, laws};
use std::alloc::Allocator;

/// What basic constraints say (RFC 5280, 4.2.1.9).
#[repr(C)]
#[derive(Clone, Copy, Debug, PartialEq, Eq)]
pub struct FlatConstraints {
    /// Whether the subject is an authority. It isn't one where `cA` is absent.
    pub is_ca: bool,
    /// Whether the path length is limited.
    pub has_path_length: bool,
    /// How many intermediate certificates may follow, or 0 where that isn't limited.
    pub path_length: u8,
}

impl FlatConstraints {
    /// The same constraints.
    fn of(constraints: &BasicConstraints) -> Self
        ensures { result ≡ flat_constraints constraints.now }
    {
        FlatConstraints {
            is_ca: constraints.ca().unwrap_or(false),
            has_path_length: constraints.pathlen().is_some(),
            path_length: constraints.pathlen().unwrap_or(0),
        }
    }

    /// All zeros.
    fn none() -> Self
        ensures { result ≡ no_constraints }
    {
        FlatConstraints {
            is_ca: false,
            has_path_length: false,
            path_length: 0,
        }
    }
}

/// What the basic constraints say that the octets of an extension's value encode. It takes no memory.
pub fn basic_constraints<A: Allocator + Copy>(alloc: A, octets: &[u8]) -> Answer<FlatConstraints>
    ensures { ConstraintsTold octets.now result.status result.fields }
{
    laws::basic_constraints_takes_no_memory::<A>();
    match from_bytes::<BasicConstraints, A>(alloc, octets) {
        Ok(constraints) => Answer::done(FlatConstraints::of(&constraints)),
        Err(error) => Answer::refused(error, FlatConstraints::none()),
    }
}
