//! Certificates and requests, put together into a buffer.

ghost use Rattle.picky_asn1_x509.specs.Requests.{request_info};
ghost use Rattle.picky_asn1_x509.specs.TbsCertificates.{tbs_certificate};
ghost use Rattle.x509_flat_make.specs.Assembling.{AssemblesTo};

use crate::{nothing, put};
use std::alloc::Allocator;
use x509_flat::status::{Sized, Status};
use x509_make::NotAssembled;

/// `certificate` of `x509_make`, to the front of a slice.
pub fn certificate<A: Allocator + Copy>(
    alloc: A,
    part: &[u8],
    algorithm: &[u8],
    signature: &[u8],
    out: &mut [u8],
) -> Sized
    ensures { AssemblesTo A (tbs_certificate {A = A}) part.now algorithm.now signature.now out.old out.new result.status result.size }
{
    match x509_make::certificate(alloc, part, algorithm, signature) {
        Ok(made) => put(&made, out),
        Err(NotAssembled::Part(_)) => nothing(Status::Refused),
        Err(NotAssembled::Algorithm(_)) => nothing(Status::Refused),
        Err(NotAssembled::AlgorithmDeviates) => nothing(Status::Refused),
        Err(NotAssembled::Signature(_)) => nothing(Status::Refused),
        Err(NotAssembled::TooLong) => nothing(Status::TooLong),
        Err(NotAssembled::OutOfMemory) => nothing(Status::OutOfMemory),
    }
}

/// `request` of `x509_make`, to the front of a slice.
pub fn request<A: Allocator + Copy>(
    alloc: A,
    part: &[u8],
    algorithm: &[u8],
    signature: &[u8],
    out: &mut [u8],
) -> Sized
    ensures { AssemblesTo A (request_info {A = A}) part.now algorithm.now signature.now out.old out.new result.status result.size }
{
    match x509_make::request(alloc, part, algorithm, signature) {
        Ok(made) => put(&made, out),
        Err(NotAssembled::Part(_)) => nothing(Status::Refused),
        Err(NotAssembled::Algorithm(_)) => nothing(Status::Refused),
        Err(NotAssembled::AlgorithmDeviates) => nothing(Status::Refused),
        Err(NotAssembled::Signature(_)) => nothing(Status::Refused),
        Err(NotAssembled::TooLong) => nothing(Status::TooLong),
        Err(NotAssembled::OutOfMemory) => nothing(Status::OutOfMemory),
    }
}
