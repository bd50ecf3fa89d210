//! What is done with bytes as a type.

ghost use Rattle.std.specs.Prelude.{IfOk, IfErr};
ghost use Rattle.x509_outline_kinds.specs.Outcomes.{Finds, IsEncoding, NotRead};
ghost use Rattle.x509_outline_kinds.specs.Shapes.{Value, shape_of};

use crate::kind::OutlineKind;
use std::alloc::Allocator;
use x509_der::{
    FromDer, Place, ReadError, Refused, WriteError, check_explained, check_located, read_explained,
    to_vec,
};
use x509_list_outlines::CertificateListOutline;
use x509_more_outlines::{PrivateKeyOutline, RequestOutline};
use x509_outline::{CertificateOutline, PublicKeyOutline};

/// The deviations of bytes as a type.
///
/// # Errors
/// The bytes encode no value of the type, or memory for places is refused.
fn check_as<T: FromDer<A>, A: Allocator + Copy>(
    alloc: A,
    bytes: &[u8],
) -> Result<Vec<Place, A>, Refused>
    ensures ok { IfOk result (λ places. Finds T T.shape bytes.now places.items) }
    ensures err { IfErr result (NotRead T T.shape bytes.now) }
{
    if let Err(refused) = check_explained::<T, A>(alloc, bytes) {
        return Err(refused);
    }
    match check_located::<T, A>(alloc, bytes) {
        Ok(places) => Ok(places),
        Err(_error) => Err(Refused {
            error: ReadError::OutOfMemory,
            at: 0,
        }),
    }
}

/// The deviations of bytes as an outline, by start and then by kind: none where the bytes are in DER. It builds no value, and
/// takes memory for places alone.
///
/// # Errors
/// The bytes encode no value of the type, or memory for places is refused.
pub fn check_outline<A: Allocator + Copy>(
    alloc: A,
    kind: OutlineKind,
    bytes: &[u8],
) -> Result<Vec<Place, A>, Refused>
    ensures ok { IfOk result (λ places. Finds (Value A kind) (shape_of A kind) bytes.now places.items) }
    ensures err { IfErr result (NotRead (Value A kind) (shape_of A kind) bytes.now) }
{
    match kind {
        OutlineKind::Certificate => check_as::<CertificateOutline<A>, A>(alloc, bytes),
        OutlineKind::Request => check_as::<RequestOutline<A>, A>(alloc, bytes),
        OutlineKind::PrivateKey => check_as::<PrivateKeyOutline<A>, A>(alloc, bytes),
        OutlineKind::PublicKey => check_as::<PublicKeyOutline<A>, A>(alloc, bytes),
        OutlineKind::RevocationList => check_as::<CertificateListOutline<A>, A>(alloc, bytes),
    }
}

/// The DER encoding of the value that bytes encode.
///
/// # Errors
/// The bytes encode no value of the type, or memory is refused; inside, writing is refused.
fn encode_as<T: FromDer<A>, A: Allocator + Copy>(
    alloc: A,
    bytes: &[u8],
) -> Result<Result<Vec<u8, A>, WriteError>, Refused>
    ensures ok { IfOk result (λ written. IfOk written (λ encoding. IsEncoding T T.shape bytes.now encoding.items)) }
    ensures err { IfErr result (NotRead T T.shape bytes.now) }
{
    let (value, _deviations) = read_explained::<T, A>(alloc, bytes)?;
    let written = to_vec(alloc, &value);
    drop(value);
    Ok(written)
}

/// The DER encoding of the outline that bytes encode.
///
/// # Errors
/// The bytes encode no value of the type, or memory is refused; inside, writing is refused.
pub fn encoded_outline<A: Allocator + Copy>(
    alloc: A,
    kind: OutlineKind,
    bytes: &[u8],
) -> Result<Result<Vec<u8, A>, WriteError>, Refused>
    ensures ok { IfOk result (λ written. IfOk written (λ encoding. IsEncoding (Value A kind) (shape_of A kind) bytes.now encoding.items)) }
    ensures err { IfErr result (NotRead (Value A kind) (shape_of A kind) bytes.now) }
{
    match kind {
        OutlineKind::Certificate => encode_as::<CertificateOutline<A>, A>(alloc, bytes),
        OutlineKind::Request => encode_as::<RequestOutline<A>, A>(alloc, bytes),
        OutlineKind::PrivateKey => encode_as::<PrivateKeyOutline<A>, A>(alloc, bytes),
        OutlineKind::PublicKey => encode_as::<PublicKeyOutline<A>, A>(alloc, bytes),
        OutlineKind::RevocationList => encode_as::<CertificateListOutline<A>, A>(alloc, bytes),
    }
}
