//! Signatures that have a form of their own.

ghost use Rattle.std.specs.Prelude.{◌≡◌, IfOk, IfErr, OnOk};
ghost use Rattle.x509_der.specs.Calls.{NoValue};
ghost use Rattle.x509_make.specs.Signatures.{is_ecdsa, ecdsa_signatures, IsEcdsaSignature};

use picky_asn1_x509::{ObjectIdentifier, RsaPublicKey};
use std::alloc::Allocator;
use x509_der::{Refused, check_explained};

/// Whether the algorithm is ECDSA. Contents are compared: `0x60, 0x86, 0x48, 1, 0x65` spells 2.16.840.1.101.
#[tactic(auto, unfolding(x509_der::specs::ObjectIdentifier::numbers_from))]
pub(crate) fn is_ecdsa<A: Allocator>(algorithm: &ObjectIdentifier<A>) -> bool
    ensures { result ≡ is_ecdsa algorithm.now }
{
    algorithm.starts_under(&[1, 2, 840, 10045, 4])
        || algorithm.is_content(&[0x60, 0x86, 0x48, 1, 0x65, 3, 4, 3, 9])
        || algorithm.is_content(&[0x60, 0x86, 0x48, 1, 0x65, 3, 4, 3, 10])
        || algorithm.is_content(&[0x60, 0x86, 0x48, 1, 0x65, 3, 4, 3, 11])
        || algorithm.is_content(&[0x60, 0x86, 0x48, 1, 0x65, 3, 4, 3, 12])
}

/// Sees that bytes are a signature by ECDSA: a SEQUENCE of two INTEGERs, as an RSA public key is. Takes no memory.
///
/// # Errors
/// Refused exactly where they aren't.
pub(crate) fn check_ecdsa<A: Allocator + Copy>(alloc: A, signature: &[u8]) -> Result<(), Refused>
    ensures ok { OnOk result (IsEcdsaSignature signature.now) }
    ensures err { IfErr result (λ r. NoValue ecdsa_signatures signature.now r.error) }
{
    match check_explained::<RsaPublicKey<A>, A>(alloc, signature) {
        Ok(_deviations) => Ok(()),
        Err(refused) => Err(refused),
    }
}
