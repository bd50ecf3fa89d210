//! Structures made of descriptions, into a buffer.

ghost use Rattle.x509_flat_make.specs.Describing.{DescribesTo, Explains};

use crate::{nothing, put};
use std::alloc::Allocator;
use x509_flat::status::{Sized, Status};
use x509_make_whole::make;

/// `make` of `x509_make_whole`, to the front of a slice.
pub fn described<A: Allocator + Copy>(alloc: A, text: &str, out: &mut [u8]) -> Sized
    ensures { DescribesTo A out.old out.new result.status result.size }
{
    match make(alloc, text) {
        Ok((_made, bytes)) => put(&bytes, out),
        Err(why) if why.is_out_of_memory() => nothing(Status::OutOfMemory),
        Err(_why) => nothing(Status::Refused),
    }
}

/// Why nothing is made of a description, to the front of a slice; `Refused` where something is.
pub fn why_not_described<A: Allocator + Copy>(alloc: A, text: &str, out: &mut [u8]) -> Sized
    ensures { Explains out.old out.new result.status result.size }
{
    match make(alloc, text) {
        Ok(_made) => nothing(Status::Refused),
        Err(why) if why.is_out_of_memory() => nothing(Status::OutOfMemory),
        Err(why) => match why.to_string(alloc) {
            Ok(message) => put(message.as_bytes(), out),
            Err(_refused) => nothing(Status::OutOfMemory),
        },
    }
}
