//! The numbers of an RSA key.

ghost use Rattle.std.specs.Prelude.{List, ℕ};
ghost use Rattle.x509_der.specs.Tally.{Tally};
ghost use Rattle.x509_keys.specs.RsaPublicKeys.{rsa_public_key};
ghost use Rattle.x509_keys.specs.declared.rsa_public_key.RsaPublicKey.{RsaPublicKey};
ghost use Rattle.x509_flat_values.specs.Covered.{CoversAll};
ghost use Rattle.x509_flat_values.specs.KeyParts.{RsaTold};

use crate::numbers::bit_length;
use std::alloc::Allocator;
use x509_fields::Span;
use x509_values::elements::Elements;

/// Where the numbers of an RSA key stand.
#[derive(Clone, Copy, Debug, PartialEq, Eq)]
pub struct RsaPlaces {
    /// The content of `modulus INTEGER`.
    pub modulus: Span,
    /// The content of `publicExponent INTEGER`.
    pub exponent: Span,
    /// How many bits the modulus has.
    pub bits: usize,
}

/// Where the numbers stand of the RSA key that a span of an input encodes (RFC 8017, A.1.1).
pub(crate) fn rsa_within<A: Allocator + Copy>(bytes: &[u8], span: Span) -> RsaPlaces
    ensures { (k : RsaPublicKey A) (slice : List ℕ) (y : Tally) → CoversAll bytes.now span slice → rsa_public_key.spelled k slice y →
        RsaTold k bytes.now result }
{
    let mut key = Elements::over(bytes, span);
    let mut numbers = key.take().inside;
    let modulus = numbers.take().inside;
    let exponent = numbers.take().inside;
    RsaPlaces {
        modulus: modulus.span(),
        exponent: exponent.span(),
        bits: bit_length(modulus.bytes()),
    }
}
