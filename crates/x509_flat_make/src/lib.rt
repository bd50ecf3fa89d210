//! What is made for signers and of what they give, into a caller's buffer: the calls for C over any allocator.
#![tactic(auto)]

ghost use Rattle.std.specs.Prelude.{◌≡◌};
ghost use Rattle.x509_flat.specs.Encodings.{Writes};
ghost use Rattle.x509_flat_make.specs.Making.{ConvertsTo, NamesTo, WritesPem};

pub mod assemble;
pub mod described;

use std::alloc::Allocator;
use x509_flat::status::{Sized, Status};
use x509_pem_writer::pem_text;
use x509_signature_algorithms::{NotNamed, signature_algorithm_by_name};
use x509_signing::NotConverted;

/// A status without a size.
pub(crate) fn nothing(status: Status) -> Sized
    ensures status { result.status ≡ status }
    ensures size { result.size ≡ 0 }
{
    Sized { status, size: 0 }
}

/// Writes bytes to the front of a slice, and tells how many there are.
pub(crate) fn put(bytes: &[u8], out: &mut [u8]) -> Sized
    ensures { Writes bytes.now out.old out.new result.status result.size }
{
    let size = bytes.len();
    if out.len() < size {
        return Sized {
            status: Status::TooShort,
            size,
        };
    }
    out[..size].copy_from_slice(bytes);
    Sized {
        status: Status::Done,
        size,
    }
}

/// `ecdsa_signature` of `x509_signing`, to the front of a slice.
pub fn ecdsa_signature<A: Allocator + Copy>(alloc: A, raw: &[u8], out: &mut [u8]) -> Sized
    ensures { ConvertsTo raw.now out.old out.new result.status result.size }
{
    match x509_signing::ecdsa_signature(alloc, raw) {
        Ok(made) => put(&made, out),
        Err(NotConverted::BadLength) => nothing(Status::Refused),
        Err(NotConverted::TooLong) => nothing(Status::TooLong),
        Err(NotConverted::OutOfMemory) => nothing(Status::OutOfMemory),
    }
}

/// `signature_algorithm_by_name` of `x509_signature_algorithms`, to the front of a slice.
pub fn signature_algorithm<A: Allocator + Copy>(alloc: A, text: &str, out: &mut [u8]) -> Sized
    ensures { NamesTo text.now out.old out.new result.status result.size }
{
    match signature_algorithm_by_name(alloc, text) {
        Ok(made) => put(&made, out),
        Err(NotNamed::Unknown) => nothing(Status::Refused),
        Err(NotNamed::NoSignature) => nothing(Status::Refused),
        Err(NotNamed::OutOfMemory) => nothing(Status::OutOfMemory),
    }
}

/// `pem_text` of `x509_pem_writer`, to the front of a slice.
pub fn pem<A: Allocator + Copy>(alloc: A, label: &str, bytes: &[u8], out: &mut [u8]) -> Sized
    ensures { WritesPem label.now bytes.now out.old out.new result.status result.size }
{
    match pem_text(alloc, label, bytes) {
        Ok(made) => put(&made, out),
        Err(_refused) => nothing(Status::OutOfMemory),
    }
}
