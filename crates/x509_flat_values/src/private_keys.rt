//! The numbers of an RSA private key.

ghost use Rattle.std.specs.Prelude.{◌≡◌};
ghost use Rattle.x509_der.specs.Tally.{Tally};
ghost use Rattle.x509_keys.specs.RsaPrivateKeys.{rsa_private_key as private_keys};
ghost use Rattle.x509_keys.specs.declared.rsa_private_key.RsaPrivateKey.{RsaPrivateKey as Key};
ghost use Rattle.x509_flat_values.specs.PrivateKeys.{NumbersTold, TakesOne, no_numbers};
ghost use Rattle.x509_flat_values.specs.Told.{Told};

use crate::answers::{done, nowhere, refused};
use picky_asn1_x509::{RsaPrivateKey, check};
use std::alloc::Allocator;
use x509_fields::Span;
use x509_flat::status::Answer;
use x509_values::elements::Elements;

/// Where the numbers of an RSA private key stand in an input (RFC 8017, A.1.2): the contents of its INTEGERs, which are in two's
/// complement.
#[repr(C)]
#[derive(Clone, Copy, Debug, PartialEq, Eq)]
pub struct RsaPrivatePlaces {
    /// `version`.
    pub version: Span,
    /// `modulus`.
    pub modulus: Span,
    /// `publicExponent`.
    pub public_exponent: Span,
    /// `privateExponent`.
    pub private_exponent: Span,
    /// `prime1`.
    pub prime_1: Span,
    /// `prime2`.
    pub prime_2: Span,
    /// `exponent1`.
    pub exponent_1: Span,
    /// `exponent2`.
    pub exponent_2: Span,
    /// `coefficient`.
    pub coefficient: Span,
}

impl RsaPrivatePlaces {
    /// All at 0..0.
    pub fn none() -> Self
        ensures { result ≡ no_numbers }
    {
        RsaPrivatePlaces {
            version: nowhere(),
            modulus: nowhere(),
            public_exponent: nowhere(),
            private_exponent: nowhere(),
            prime_1: nowhere(),
            prime_2: nowhere(),
            exponent_1: nowhere(),
            exponent_2: nowhere(),
            coefficient: nowhere(),
        }
    }
}

/// Goes past the next element, and answers where its content stands.
fn content(fields: &mut Elements<'_>) -> Span
    ensures { TakesOne fields.old fields.new result }
{
    fields.take().inside.span()
}

/// Where the numbers stand of the RSA private key that the bytes encode.
fn numbers_of<A: Allocator + Copy>(bytes: &[u8]) -> RsaPrivatePlaces
    ensures { (v : Key A) (y : Tally) → private_keys.spelled v bytes.now y → NumbersTold v bytes.now result }
{
    let whole = Span {
        start: 0,
        end: bytes.len(),
    };
    let mut key = Elements::over(bytes, whole);
    let mut numbers = key.take().inside;
    let version = content(&mut numbers);
    let modulus = content(&mut numbers);
    let public_exponent = content(&mut numbers);
    let private_exponent = content(&mut numbers);
    let prime_1 = content(&mut numbers);
    let prime_2 = content(&mut numbers);
    let exponent_1 = content(&mut numbers);
    let exponent_2 = content(&mut numbers);
    let coefficient = content(&mut numbers);
    RsaPrivatePlaces {
        version,
        modulus,
        public_exponent,
        private_exponent,
        prime_1,
        prime_2,
        exponent_1,
        exponent_2,
        coefficient,
    }
}

/// Where the numbers stand of the RSA private key that the bytes encode, by itself (RFC 8017, A.1.2). Takes no memory.
pub fn rsa_private_key<A: Allocator + Copy>(alloc: A, bytes: &[u8]) -> Answer<RsaPrivatePlaces>
    ensures { Told (private_keys {A = A}) bytes.now (λ v at. NumbersTold v bytes.now at) no_numbers result.status result.fields }
{
    match check::<RsaPrivateKey<A>, A>(alloc, bytes) {
        Ok(_deviations) => done(numbers_of::<A>(bytes)),
        Err(error) => refused(error, RsaPrivatePlaces::none()),
    }
}
