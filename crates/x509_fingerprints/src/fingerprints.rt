//! Digests of bytes.

ghost use Rattle.std.specs.Prelude.{◌≡◌};
ghost use Rattle.sha1.specs.Sha1.{sha1};
ghost use Rattle.sha2.specs.Sha256.{sha256};

use sha1::Sha1;
use sha2::{Digest, Sha256};
use std::fmt::{self, Display, Write};

/// The digests of some bytes (FIPS 180-4).
#[derive(Clone, Copy, Debug, PartialEq, Eq)]
pub struct Fingerprints {
    /// Their SHA-256.
    pub sha256: [u8; 32],
    /// Their SHA-1.
    pub sha1: [u8; 20],
}

impl Fingerprints {
    /// The digests of some bytes. Takes no memory.
    pub fn of(bytes: &[u8]) -> Self
        ensures sha256 { result.sha256 ≡ sha256 bytes.now }
        ensures sha1 { result.sha1 ≡ sha1 bytes.now }
    {
        Fingerprints {
            sha256: Sha256::digest(bytes),
            sha1: Sha1::digest(bytes),
        }
    }
}

/// Bytes in lower-case hexadecimal without anything between them, as `sha256sum` writes them.
#[derive(Clone, Copy, Drop)]
pub struct HexDigits<'a>(pub &'a [u8]);

impl Display for HexDigits<'_> {
    fn fmt<W: Write>(&self, f: &mut fmt::Formatter<W>) -> fmt::Result {
        for byte in self.0 {
            write!(f, "{byte:02x}")?;
        }
        Ok(())
    }
}
