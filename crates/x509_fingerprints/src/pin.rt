//! Pins of public keys.

ghost use Rattle.std.specs.Prelude.{◌≡◌, IfOk, option_map};
ghost use Rattle.sha2.specs.Sha256.{sha256};

use crate::keyed::Keyed;
use base64::engine::general_purpose::STANDARD;
use sha2::{Digest, Sha256};
use std::alloc::Allocator;
use std::fmt::{self, Display, Write};
use std::str;
use x509_der::WriteError;

/// How many symbols a pin has.
const SYMBOLS: usize = 44;

/// The pin of a public key: the SHA-256 of the DER encoding of its `SubjectPublicKeyInfo` (RFC 7469, 2.4).
#[derive(Clone, Copy, Debug, PartialEq, Eq)]
pub struct Pin {
    /// The digest.
    pub sha256: [u8; 32],
}

/// It prints in base64, as `pin-sha256` has it.
impl Display for Pin {
    fn fmt<W: Write>(&self, f: &mut fmt::Formatter<W>) -> fmt::Result {
        let mut symbols = [0; SYMBOLS];
        match STANDARD.encode_slice(&self.sha256, &mut symbols) {
            Ok(_) => f.write_str(str::from_utf8(&symbols).unwrap_or("")),
            Err(_) => Ok(()),
        }
    }
}

/// The pin of an encoded key, where there is one.
fn pin_in<A: Allocator>(encoded: Option<Vec<u8, A>>) -> Option<Pin>
    ensures { option_map (λ p. p.sha256) result ≡ option_map sha256 (option_map (λ b. b.items) encoded) }
{
    match encoded {
        Some(bytes) => Some(Pin {
            sha256: Sha256::digest(bytes.as_slice()),
        }),
        None => None,
    }
}

/// The pin of the public key that a value holds; `None` where it holds none. Takes memory for the encoded key, and gives
/// it back.
///
/// # Errors
/// `OutOfMemory` where memory is refused, and `TooLong` where the key would have 2^64 bytes or more.
pub fn pin_of<T: Keyed<A>, A: Allocator + Copy>(
    alloc: A,
    value: &T,
) -> Result<Option<Pin>, WriteError>
    ensures ok { IfOk result (λ pin. option_map (λ p. p.sha256) pin ≡ option_map sha256 (T.key value.now)) }
{
    let encoded = value.encoded_key(alloc)?;
    Ok(pin_in(encoded))
}
