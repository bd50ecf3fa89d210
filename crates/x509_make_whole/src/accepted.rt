//! Seeing that bytes are the DER encoding of a value.

ghost use Rattle.std.specs.Prelude.{OnOk};
ghost use Rattle.x509_make_whole.specs.Encodings.{IsDer, IsMade};

use crate::made::Made;
use crate::not_made::Why;
use picky_asn1_x509::{
    AlgorithmIdentifier, Certificate, CertificationRequest, CertificationRequestInfo, ECPrivateKey,
    Extensions, Name, PrivateKeyInfo, RawAlgorithmIdentifier, RsaPrivateKey, RsaPublicKey,
    SubjectPublicKeyInfo, TbsCertificate,
};
use std::alloc::Allocator;
use x509_der::{FromDer, ReadError, Refused, check_located, read_explained};
use x509_make_parts::Fault;

/// Why bytes aren't the DER encoding of a value, and at which byte.
#[derive(Clone, Copy, Drop)]
pub(crate) struct Unfit {
    pub(crate) why: Why,
    pub(crate) at: usize,
}

/// At which byte the first deviation from DER stands; 0 where that isn't known.
fn first_deviation<T: FromDer<A>, A: Allocator + Copy>(alloc: A, bytes: &[u8]) -> usize {
    match check_located::<T, A>(alloc, bytes) {
        Ok(places) => places.first().map_or(0, |place| place.start),
        Err(_) => 0,
    }
}

/// Why bytes that a reader refuses don't fit.
fn why_unfit(refused: Refused) -> Unfit {
    let why = match refused.error {
        ReadError::OutOfMemory => Why::Fault(Fault::OutOfMemory),
        error => Why::Refused(error),
    };
    Unfit {
        why,
        at: refused.at,
    }
}

/// Sees that bytes are the DER encoding of a value of a type.
fn accepted<T: FromDer<A>, A: Allocator + Copy>(alloc: A, bytes: &[u8]) -> Result<(), Unfit>
    ensures { OnOk result (IsDer T.shape bytes.now) }
{
    match read_explained::<T, A>(alloc, bytes) {
        Ok((value, deviations)) => {
            drop(value);
            if deviations.is_none() {
                Ok(())
            } else {
                Err(Unfit {
                    why: Why::Deviates,
                    at: first_deviation::<T, A>(alloc, bytes),
                })
            }
        }
        Err(refused) => Err(why_unfit(refused)),
    }
}

/// Sees that bytes are the DER encoding of a value of the type that is made.
pub(crate) fn check_made<A: Allocator + Copy>(
    alloc: A,
    made: Made,
    bytes: &[u8],
) -> Result<(), Unfit>
    ensures { OnOk result (IsMade A made bytes.now) }
{
    match made {
        Made::RequestInfo => accepted::<CertificationRequestInfo<A>, A>(alloc, bytes),
        Made::TbsCertificate => accepted::<TbsCertificate<A>, A>(alloc, bytes),
        Made::Certificate => accepted::<Certificate<A>, A>(alloc, bytes),
        Made::Request => accepted::<CertificationRequest<A>, A>(alloc, bytes),
        Made::PublicKey => accepted::<SubjectPublicKeyInfo<A>, A>(alloc, bytes),
        Made::RsaPublicKey => accepted::<RsaPublicKey<A>, A>(alloc, bytes),
        Made::Name => accepted::<Name<A>, A>(alloc, bytes),
        Made::Extensions => accepted::<Extensions<A>, A>(alloc, bytes),
        Made::Algorithm => accepted::<AlgorithmIdentifier<A>, A>(alloc, bytes),
        Made::RawAlgorithm => accepted::<RawAlgorithmIdentifier<A>, A>(alloc, bytes),
        Made::PrivateKey => accepted::<PrivateKeyInfo<A>, A>(alloc, bytes),
        Made::RsaPrivateKey => accepted::<RsaPrivateKey<A>, A>(alloc, bytes),
        Made::EcPrivateKey => accepted::<ECPrivateKey<A>, A>(alloc, bytes),
    }
}
