//! The DER encoding of what bytes encode.

ghost use Rattle.std.specs.Prelude.{◌≡◌};
ghost use Rattle.x509_flat.specs.Encodings.{Writes, Encodes, EncodesOf};

use crate::kind::Kind;
use crate::status::{Sized, Status, unsized_of};
use picky_asn1_x509::{
    AlgorithmIdentifier, Certificate, CertificationRequest, CertificationRequestInfo, ECPrivateKey,
    Extensions, FromDer, Name, PrivateKeyInfo, RawAlgorithmIdentifier, RsaPrivateKey, RsaPublicKey,
    SubjectPublicKeyInfo, TbsCertificate, ToDer, encoded_len, from_bytes, write_to_slice,
};
use std::alloc::Allocator;
use x509_list_outlines::CertificateListOutline;
use x509_more_outlines::{PrivateKeyOutline, RequestOutline};
use x509_outline::{CertificateOutline, PublicKeyOutline};

/// Writes a value's DER encoding to the front of a slice.
fn put<T: ToDer>(value: &T, out: &mut [u8]) -> Sized
    ensures { Writes (T.strict value.now) out.old out.new result.status result.size }
{
    let Ok(size) = encoded_len(value) else {
        return Sized {
            status: Status::TooLong,
            size: 0,
        };
    };
    match write_to_slice(value, out) {
        Ok(_) => Sized {
            status: Status::Done,
            size,
        },
        Err(_) => Sized {
            status: Status::TooShort,
            size,
        },
    }
}

/// Writes the DER encoding of the value of a type that bytes encode.
fn encode_as<T: FromDer<A>, A: Allocator + Copy>(alloc: A, bytes: &[u8], out: &mut [u8]) -> Sized
    ensures { Encodes T.shape bytes.now out.old out.new result.status result.size }
{
    match from_bytes::<T, A>(alloc, bytes) {
        Ok(value) => {
            let sized = put(&value, out);
            drop(value);
            sized
        }
        Err(error) => unsized_of(error),
    }
}

/// Writes the DER encoding of the value that bytes encode to the front of a slice, and tells its size.
pub fn encode<A: Allocator + Copy>(alloc: A, kind: Kind, bytes: &[u8], out: &mut [u8]) -> Sized
    ensures { EncodesOf A kind bytes.now out.old out.new result.status result.size }
{
    match kind {
        Kind::Certificate => encode_as::<Certificate<A>, A>(alloc, bytes, out),
        Kind::Request => encode_as::<CertificationRequest<A>, A>(alloc, bytes, out),
        Kind::PrivateKey => encode_as::<PrivateKeyInfo<A>, A>(alloc, bytes, out),
        Kind::PublicKey => encode_as::<SubjectPublicKeyInfo<A>, A>(alloc, bytes, out),
        Kind::RsaPrivateKey => encode_as::<RsaPrivateKey<A>, A>(alloc, bytes, out),
        Kind::RsaPublicKey => encode_as::<RsaPublicKey<A>, A>(alloc, bytes, out),
        Kind::EcPrivateKey => encode_as::<ECPrivateKey<A>, A>(alloc, bytes, out),
        Kind::Name => encode_as::<Name<A>, A>(alloc, bytes, out),
        Kind::Extensions => encode_as::<Extensions<A>, A>(alloc, bytes, out),
        Kind::Algorithm => encode_as::<AlgorithmIdentifier<A>, A>(alloc, bytes, out),
        Kind::RawAlgorithm => encode_as::<RawAlgorithmIdentifier<A>, A>(alloc, bytes, out),
        Kind::RequestInfo => encode_as::<CertificationRequestInfo<A>, A>(alloc, bytes, out),
        Kind::TbsCertificate => encode_as::<TbsCertificate<A>, A>(alloc, bytes, out),
        Kind::CertificateOutline => encode_as::<CertificateOutline<A>, A>(alloc, bytes, out),
        Kind::RequestOutline => encode_as::<RequestOutline<A>, A>(alloc, bytes, out),
        Kind::PrivateKeyOutline => encode_as::<PrivateKeyOutline<A>, A>(alloc, bytes, out),
        Kind::PublicKeyOutline => encode_as::<PublicKeyOutline<A>, A>(alloc, bytes, out),
        Kind::Crl => encode_as::<CertificateListOutline<A>, A>(alloc, bytes, out),
    }
}
