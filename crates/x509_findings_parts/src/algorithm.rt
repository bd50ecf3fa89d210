//! Algorithms.

ghost use Rattle.std.specs.Prelude.{◌≡◌};
ghost use Rattle.x509_findings_parts.specs.Algorithms.{spells_salt, spells_salt_of};

use std::alloc::Allocator;
use x509_keys::{AlgorithmIdentifier, AlgorithmIdentifierParameters};

/// The length of a salt by default (RFC 4055, 3.1).
const SALT: usize = 20;

/// Whether parameters are those of RSASSA-PSS, with a salt of 20 bytes.
fn spells_salt_of<A: Allocator>(parameters: &AlgorithmIdentifierParameters<A>) -> bool
    ensures { result ≡ spells_salt_of parameters.now }
{
    match parameters {
        AlgorithmIdentifierParameters::RsassaPss(parameters) => parameters.salt_length == SALT,
        AlgorithmIdentifierParameters::None
        | AlgorithmIdentifierParameters::Null
        | AlgorithmIdentifierParameters::Aes(_)
        | AlgorithmIdentifierParameters::Ec(_) => false,
    }
}

/// Whether an algorithm is RSASSA-PSS, with a salt of 20 bytes: the default, which is encoded all the same wherever it is
/// read. Takes no memory.
pub fn spells_salt<A: Allocator>(algorithm: &AlgorithmIdentifier<A>) -> bool
    ensures { result ≡ spells_salt algorithm.now }
{
    spells_salt_of(algorithm.parameters())
}
