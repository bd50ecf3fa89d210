//! Keys of RSA. Of another key each answer is that the rule is kept.

ghost use Rattle.std.specs.Prelude.{◌↔◌, IsTrue};
ghost use Rattle.x509_findings_parts.specs.Keys.{HasEvenExponent, HasEvenModulus, HasLowExponent, HasLowModulus, HasShortModulus};

use crate::number::{is_below, is_even};
use std::alloc::Allocator;
use x509_keys::PublicKey;

/// How many octets the INTEGER of a modulus has at most that has fewer than 2,048 bits.
const MOST_OF_SHORT: usize = 256;

/// Whether a key is one of RSA whose modulus isn't positive. Takes no memory.
pub fn has_low_modulus<A: Allocator>(key: &PublicKey<A>) -> bool
    ensures { IsTrue result ↔ HasLowModulus key.now }
{
    match key {
        PublicKey::Rsa(key) => is_below(&key.0.modulus, 1),
        PublicKey::Ec(_) | PublicKey::Ed(_) | PublicKey::Mldsa(_) => false,
    }
}

/// Whether a key is one of RSA whose modulus is even. Takes no memory.
pub fn has_even_modulus<A: Allocator>(key: &PublicKey<A>) -> bool
    ensures { IsTrue result ↔ HasEvenModulus key.now }
{
    match key {
        PublicKey::Rsa(key) => is_even(&key.0.modulus),
        PublicKey::Ec(_) | PublicKey::Ed(_) | PublicKey::Mldsa(_) => false,
    }
}

/// Whether a key is one of RSA whose modulus has fewer than 2,048 bits. Takes no memory.
pub fn has_short_modulus<A: Allocator>(key: &PublicKey<A>) -> bool
    ensures { IsTrue result ↔ HasShortModulus key.now }
{
    match key {
        PublicKey::Rsa(key) => key.0.modulus.as_bytes().len() <= MOST_OF_SHORT,
        PublicKey::Ec(_) | PublicKey::Ed(_) | PublicKey::Mldsa(_) => false,
    }
}

/// Whether a key is one of RSA whose exponent is below 3. Takes no memory.
pub fn has_low_exponent<A: Allocator>(key: &PublicKey<A>) -> bool
    ensures { IsTrue result ↔ HasLowExponent key.now }
{
    match key {
        PublicKey::Rsa(key) => is_below(&key.0.public_exponent, 3),
        PublicKey::Ec(_) | PublicKey::Ed(_) | PublicKey::Mldsa(_) => false,
    }
}

/// Whether a key is one of RSA whose exponent is even. Takes no memory.
pub fn has_even_exponent<A: Allocator>(key: &PublicKey<A>) -> bool
    ensures { IsTrue result ↔ HasEvenExponent key.now }
{
    match key {
        PublicKey::Rsa(key) => is_even(&key.0.public_exponent),
        PublicKey::Ec(_) | PublicKey::Ed(_) | PublicKey::Mldsa(_) => false,
    }
}
