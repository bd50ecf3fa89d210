//! Signatures of ECDSA as hardware modules and the Web Cryptography API give them.

ghost use Rattle.std.specs.Prelude.{◌≡◌, ◌≢◌, ◌≤◌, ◌^◌, length, Err, IfOk, IfErr};
ghost use Rattle.x509_der.specs.Integer.{natural_content, unsigned_value};
ghost use Rattle.x509_signing.specs.RawSignatures.{AreTwo, WhyNotConverted, ecdsa_signature_of, ecdsa_value};

use std::alloc::{AllocError, Allocator};
use x509_der::parts::{Join, One, Ref, Sequence, Tagged, known_bytes};
use x509_der::{IntegerAsn1, WriteError, to_vec};

/// Why a signature isn't converted.
#[derive(Clone, Copy, Debug, PartialEq, Eq)]
pub enum NotConverted {
    /// The bytes aren't two numbers of equal length: there are none, or an odd number of them.
    BadLength,
    /// The encoding would have 2^64 bytes or more.
    TooLong,
    /// Memory was refused.
    OutOfMemory,
}

impl From<AllocError> for NotConverted {
    ghost use Rattle.std.specs.Prelude.{◌≡◌};
    ghost use Rattle.x509_signing.specs.declared.raw_signature.NotConverted.TheVariants.{OutOfMemory};

    ghost from_gives = { λ _ e. e ≡ OutOfMemory };

    fn from(_refused: AllocError) -> NotConverted {
        NotConverted::OutOfMemory
    }
}

/// The integer whose digits in base 256 the bytes are, the highest first.
///
/// # Errors
/// `AllocError` where memory is refused.
fn natural<A: Allocator>(alloc: A, digits: &[u8]) -> Result<IntegerAsn1<A>, AllocError>
    ensures { IfOk result (λ i. i ≡ natural_content (unsigned_value digits.now)) }
{
    let bytes = Vec::from_slice(alloc, digits)?;
    let integer = IntegerAsn1::from_bytes_be_unsigned(bytes)?;
    known_bytes(integer.as_bytes());
    Ok(integer)
}

/// The SEQUENCE of two integers.
///
/// # Errors
/// `TooLong` where it has 2^64 bytes or more, and `OutOfMemory`.
fn sequence_of<A: Allocator + Copy>(
    alloc: A,
    r: &IntegerAsn1<A>,
    s: &IntegerAsn1<A>,
) -> Result<Vec<u8, A>, NotConverted>
    ensures ok { IfOk result (λ b. b.items ≡ ecdsa_value r.now s.now) }
    ensures too_long { result ≡ Err NotConverted.TooLong → 2 ^ 64 ≤ length (ecdsa_value r.now s.now) }
    ensures length { result ≢ Err NotConverted.BadLength }
{
    let numbers: Tagged<Sequence, _> = Tagged::new(Join(Ref(r), One(Ref(s))));
    match to_vec(alloc, &numbers) {
        Ok(bytes) => Ok(bytes),
        Err(WriteError::TooLong) => Err(NotConverted::TooLong),
        Err(WriteError::OutOfMemory) => Err(NotConverted::OutOfMemory),
    }
}

/// The signature of ECDSA that X.509 has, of r and s as PKCS #11 (3.1, 6.3.1) and the Web Cryptography API give them:
/// two numbers without a sign, the highest byte first, in as many bytes each. Zero bytes in front of either say nothing.
/// Takes memory for both numbers and for the encoding.
///
/// # Encoding
/// `Ecdsa-Sig-Value ::= SEQUENCE { r INTEGER, s INTEGER }` (RFC 3279, 2.2.3).
///
/// # Errors
/// As `NotConverted` says: `BadLength` exactly where the bytes aren't two numbers.
pub fn ecdsa_signature<A: Allocator + Copy>(
    alloc: A,
    raw: &[u8],
) -> Result<Vec<u8, A>, NotConverted>
    ensures two { IfOk result (λ _. AreTwo raw.now) }
    ensures ok { IfOk result (λ b. b.items ≡ ecdsa_signature_of raw.now) }
    ensures err { IfErr result (WhyNotConverted raw.now) }
{
    if raw.is_empty() || raw.len() % 2 == 1 {
        return Err(NotConverted::BadLength);
    }
    let (first, second) = raw.split_at(raw.len() / 2);
    let r = natural(alloc, first)?;
    let s = natural(alloc, second)?;
    sequence_of(alloc, &r, &s)
}
