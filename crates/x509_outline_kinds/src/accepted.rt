//! Which type bytes are of.

ghost use Rattle.std.specs.Prelude.{◌↔◌, IsTrue, IfSome, IfNone};
ghost use Rattle.x509_outline_kinds.specs.Outcomes.{Encodes};
ghost use Rattle.x509_outline_kinds.specs.Shapes.{Value, shape_of};

use crate::kind::OutlineKind;
use std::alloc::Allocator;
use x509_der::{FromDer, check_explained};
use x509_list_outlines::CertificateListOutline;
use x509_more_outlines::{PrivateKeyOutline, RequestOutline};
use x509_outline::{CertificateOutline, PublicKeyOutline};

/// Whether bytes encode a value.
fn is_read<T: FromDer<A>, A: Allocator + Copy>(alloc: A, bytes: &[u8]) -> bool
    ensures { IsTrue result ↔ Encodes T T.shape bytes.now }
{
    match check_explained::<T, A>(alloc, bytes) {
        Ok(_deviations) => true,
        Err(_refused) => false,
    }
}

/// Whether bytes are of a type. It builds no value and takes no memory.
pub fn accepts<A: Allocator + Copy>(alloc: A, kind: OutlineKind, bytes: &[u8]) -> bool
    ensures { IsTrue result ↔ Encodes (Value A kind) (shape_of A kind) bytes.now }
{
    match kind {
        OutlineKind::Certificate => is_read::<CertificateOutline<A>, A>(alloc, bytes),
        OutlineKind::Request => is_read::<RequestOutline<A>, A>(alloc, bytes),
        OutlineKind::PrivateKey => is_read::<PrivateKeyOutline<A>, A>(alloc, bytes),
        OutlineKind::PublicKey => is_read::<PublicKeyOutline<A>, A>(alloc, bytes),
        OutlineKind::RevocationList => is_read::<CertificateListOutline<A>, A>(alloc, bytes),
    }
}

/// The type that bytes are of; `None` where they are of none. It builds no value and takes no memory.
pub fn outline_of<A: Allocator + Copy>(alloc: A, bytes: &[u8]) -> Option<OutlineKind>
    ensures some { IfSome result (λ kind. Encodes (Value A kind) (shape_of A kind) bytes.now) }
    ensures none { IfNone result ((kind : OutlineKind) → Encodes (Value A kind) (shape_of A kind) bytes.now → ⊥) }
{
    if accepts(alloc, OutlineKind::Certificate, bytes) {
        Some(OutlineKind::Certificate)
    } else if accepts(alloc, OutlineKind::Request, bytes) {
        Some(OutlineKind::Request)
    } else if accepts(alloc, OutlineKind::PrivateKey, bytes) {
        Some(OutlineKind::PrivateKey)
    } else if accepts(alloc, OutlineKind::PublicKey, bytes) {
        Some(OutlineKind::PublicKey)
    } else if accepts(alloc, OutlineKind::RevocationList, bytes) {
        Some(OutlineKind::RevocationList)
    } else {
        None
    }
}
