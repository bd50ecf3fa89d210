//! An importer: looks at many certificates, one after another, in one arena.

ghost use Rattle.std.specs.Prelude.{IfOk, IfErr};
ghost use Rattle.picky_asn1_x509.specs.Calls.{NoWhole};
ghost use Rattle.picky_asn1_x509.specs.Certificates.{certificate};
ghost use Rattle.x509_callers.specs.Importing.{CountsIn};

use bumpalo::Bump;
use picky_asn1_x509::{Certificate, Deviations, Field, ReadError, read_counted};
use std::alloc::Allocator;

/// How many deviations of each kind a certificate has.
///
/// # Errors
/// The bytes encode no certificate, or memory is refused.
fn count<A: Allocator + Copy>(alloc: A, bytes: &[u8]) -> Result<Deviations, ReadError>
    ensures ok { IfOk result (CountsIn (certificate {A = A}) bytes.now) }
    ensures err { IfErr result (NoWhole (certificate {A = A}) bytes.now) }
{
    match read_counted::<Certificate<A>, A>(alloc, bytes) {
        Ok((certificate, deviations)) => {
            drop(certificate);
            Ok(deviations)
        }
        Err(error) => Err(error),
    }
}

/// How many deviations of each kind a certificate has. The certificate stands in the arena while it is looked at; then
/// the arena is reset, so that the next one takes the same memory.
///
/// # Errors
/// The bytes encode no certificate, or memory is refused.
pub fn import(arena: &mut Bump, bytes: &[u8]) -> Result<Deviations, ReadError>
    ensures ok { IfOk result (CountsIn ⟦<Certificate<&'static Bump> as Field<&'static Bump>>⟧.shape bytes.now) }
    ensures err { IfErr result (NoWhole ⟦<Certificate<&'static Bump> as Field<&'static Bump>>⟧.shape bytes.now) }
{
    let counted = count(&*arena, bytes);
    // it is refused only where something in the arena was forgotten, which the next reset gives back
    let _emptied = arena.reset();
    counted
}
