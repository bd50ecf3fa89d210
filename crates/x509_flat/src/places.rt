//! Where deviations stand.

ghost use Rattle.std.specs.Prelude.{◌≡◌, ◌≤◌, ◌++◌, length, drop, map};
ghost use Rattle.x509_flat.specs.Places.{flat_place, PutsPlaces, Places, PlacesOf};

use crate::kind::Kind;
use crate::status::{Sized, Status, unsized_of};
use picky_asn1_x509::{
    AlgorithmIdentifier, Certificate, CertificationRequest, CertificationRequestInfo, ECPrivateKey,
    Extensions, FromDer, Name, Place, PrivateKeyInfo, RawAlgorithmIdentifier, RsaPrivateKey,
    RsaPublicKey, SubjectPublicKeyInfo, TbsCertificate, check_located,
};
use std::alloc::Allocator;
use x509_list_outlines::CertificateListOutline;
use x509_more_outlines::{PrivateKeyOutline, RequestOutline};
use x509_outline::{CertificateOutline, PublicKeyOutline};

/// A deviation, and the bytes that it covers.
#[repr(C)]
#[derive(Clone, Copy, Debug, PartialEq, Eq)]
pub struct FlatPlace {
    /// The number of its kind, from 1 to 10.
    pub deviation: usize,
    /// How many bytes of the input stand before it.
    pub start: usize,
    /// How many bytes of the input stand before its end.
    pub end: usize,
}

impl FlatPlace {
    /// The same place.
    fn of(place: Place) -> Self
        ensures { result ≡ flat_place place }
    {
        FlatPlace {
            deviation: place.kind.number(),
            start: place.start,
            end: place.end,
        }
    }
}

/// Writes places to the front of a slice.
fn copy_places(places: &[Place], out: &mut [FlatPlace])
    requires { length places.now ≤ length out.old }
    ensures { out.new ≡ map flat_place places.now ++ drop (length places.now) out.old }
{
    for (index, place) in places.iter().enumerate() {
        out[index] = FlatPlace::of(*place);
    }
}

/// Writes places to the front of a slice that may be too short, and tells how many there are.
fn put_places(places: &[Place], out: &mut [FlatPlace]) -> Sized
    ensures { PutsPlaces places.now out.old out.new result.status result.size }
{
    let size = places.len();
    if out.len() < size {
        return Sized::too_short(size);
    }
    copy_places(places, out);
    Sized {
        status: Status::Done,
        size,
    }
}

/// Writes where each deviation stands in bytes that encode a value of a type, which isn't built.
fn places_as<T: FromDer<A>, A: Allocator + Copy>(
    alloc: A,
    bytes: &[u8],
    out: &mut [FlatPlace],
) -> Sized
    ensures { Places T.shape bytes.now out.old out.new result.status result.size }
{
    match check_located::<T, A>(alloc, bytes) {
        Ok(places) => put_places(&places, out),
        Err(error) => unsized_of(error),
    }
}

/// Writes where each deviation stands to the front of a slice, by start and then by kind, and tells how many there are. It takes
/// memory for the places alone, and so none where no deviation stands in the bytes.
pub fn places<A: Allocator + Copy>(
    alloc: A,
    kind: Kind,
    bytes: &[u8],
    out: &mut [FlatPlace],
) -> Sized
    ensures { PlacesOf A kind bytes.now out.old out.new result.status result.size }
{
    match kind {
        Kind::Certificate => places_as::<Certificate<A>, A>(alloc, bytes, out),
        Kind::Request => places_as::<CertificationRequest<A>, A>(alloc, bytes, out),
        Kind::PrivateKey => places_as::<PrivateKeyInfo<A>, A>(alloc, bytes, out),
        Kind::PublicKey => places_as::<SubjectPublicKeyInfo<A>, A>(alloc, bytes, out),
        Kind::RsaPrivateKey => places_as::<RsaPrivateKey<A>, A>(alloc, bytes, out),
        Kind::RsaPublicKey => places_as::<RsaPublicKey<A>, A>(alloc, bytes, out),
        Kind::EcPrivateKey => places_as::<ECPrivateKey<A>, A>(alloc, bytes, out),
        Kind::Name => places_as::<Name<A>, A>(alloc, bytes, out),
        Kind::Extensions => places_as::<Extensions<A>, A>(alloc, bytes, out),
        Kind::Algorithm => places_as::<AlgorithmIdentifier<A>, A>(alloc, bytes, out),
        Kind::RawAlgorithm => places_as::<RawAlgorithmIdentifier<A>, A>(alloc, bytes, out),
        Kind::RequestInfo => places_as::<CertificationRequestInfo<A>, A>(alloc, bytes, out),
        Kind::TbsCertificate => places_as::<TbsCertificate<A>, A>(alloc, bytes, out),
        Kind::CertificateOutline => places_as::<CertificateOutline<A>, A>(alloc, bytes, out),
        Kind::RequestOutline => places_as::<RequestOutline<A>, A>(alloc, bytes, out),
        Kind::PrivateKeyOutline => places_as::<PrivateKeyOutline<A>, A>(alloc, bytes, out),
        Kind::PublicKeyOutline => places_as::<PublicKeyOutline<A>, A>(alloc, bytes, out),
        Kind::Crl => places_as::<CertificateListOutline<A>, A>(alloc, bytes, out),
    }
}
