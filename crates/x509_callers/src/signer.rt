//! A signer: writes what it read, and tells whether the bytes are the same.

ghost use Rattle.std.specs.Prelude.{◌≡◌, IfOk, IfErr};
ghost use Rattle.std.specs.Bool.{Decides};
ghost use Rattle.picky_asn1_x509.specs.Calls.{IsWhole};
ghost use Rattle.picky_asn1_x509.specs.Certificates.{certificate, certificate_bytes};
ghost use Rattle.picky_asn1_x509.specs.Tally.{Tally};
ghost use Rattle.x509_callers.specs.Rewriting.{NotRewritten};

use picky_asn1_x509::{Certificate, ReadError, WriteError, read_counted, to_vec};
use std::alloc::Allocator;
use thiserror::Error;

/// Why a certificate isn't rewritten.
#[derive(Clone, Copy, Debug, Error)]
pub enum RewriteError {
    /// It wasn't read.
    #[error("not read: {0}")]
    Read(#[source] ReadError),
    /// It wasn't written.
    #[error("not written: {0}")]
    Write(#[source] WriteError),
}

impl From<ReadError> for RewriteError {
    ghost use Rattle.std.specs.Prelude.{◌≡◌};
    ghost use Rattle.x509_callers.specs.declared.signer.RewriteError.TheVariants as variants;

    ghost from_gives = { λ error why. why ≡ variants.Read error };

    fn from(error: ReadError) -> Self {
        RewriteError::Read(error)
    }
}

impl From<WriteError> for RewriteError {
    ghost use Rattle.std.specs.Prelude.{◌≡◌};
    ghost use Rattle.x509_callers.specs.declared.signer.RewriteError.TheVariants as variants;

    ghost from_gives = { λ error why. why ≡ variants.Write error };

    fn from(error: WriteError) -> Self {
        RewriteError::Write(error)
    }
}

/// A certificate as it is written.
#[derive(Drop)]
#[derive_where(Debug, PartialEq, Eq)]
pub struct Rewritten<A: Allocator> {
    /// Its DER encoding.
    pub encoding: Vec<u8, A>,
    /// Whether these are the bytes that were read.
    pub is_same: bool,
}

/// Reads a certificate and writes it again.
///
/// # Errors
/// The bytes encode no certificate, its encoding is longer than a `usize` can say, or memory is refused.
pub fn rewrite<A: Allocator + Copy>(alloc: A, bytes: &[u8]) -> Result<Rewritten<A>, RewriteError>
    ensures ok { IfOk result (λ r. (v : _) × (y : Tally) × IsWhole (certificate {A = A}) bytes.now v y
        × (r.encoding.items ≡ certificate_bytes v) × Decides r.is_same (r.encoding.items ≡ bytes.now)) }
    ensures err { IfErr result (NotRewritten A bytes.now) }
{
    let (certificate, deviations): (Certificate<A>, _) = read_counted(alloc, bytes)?;
    let written = to_vec(alloc, &certificate);
    // handed on: where it goes out of scope at an exit, the proof walks through its type
    drop(certificate);
    let encoding = written?;
    let is_same = deviations.total() == 0;
    Ok(Rewritten { encoding, is_same })
}
