//! Bit strings that are lent, to be written without a copy.

ghost use Rattle.std.specs.Prelude.{◌≡◌, refl};
ghost use Rattle.x509_der.specs.BitString.{bit_content};

use crate::bit_string::BitString;
use std::alloc::Allocator;
use std::marker::Model;
use x509_der_parts::errors::TooLong;
use x509_der_parts::parts::{Output, OwnTag, ToContent, Universal};

/// A BIT STRING, lent. Contracts see its content: how many bits of the last byte are unused, and the bytes.
#[derive(Drop)]
pub struct BorrowedBits<'a> {
    unused: u8,
    bytes: &'a [u8],
}

impl<'a> Model for BorrowedBits<'a> {
    ghost use Rattle.std.specs.Prelude.{◌∷◌, List, ℕ};

    ghost Value = { List ℕ };

    ghost view = { λ b. b.unused ∷ b.bytes.now };
}

impl<'a> BorrowedBits<'a> {
    /// The bits, lent.
    pub fn of<A: Allocator>(bits: &'a BitString<A>) -> Self
        ensures { result ≡ bit_content bits.now }
    {
        BorrowedBits {
            unused: bits.get_num_unused_bits(),
            bytes: bits.payload_view(),
        }
    }
}

impl<'a> ToContent for BorrowedBits<'a> {
    ghost content = { λ b. b };

    fn put_content<O: Output>(&self, out: &mut [u8], at: usize) -> Result<usize, TooLong> {
        let at = O::bytes(self.bytes, out, at)?;
        O::bytes(&[self.unused], out, at)
    }
}

impl<'a> OwnTag for BorrowedBits<'a> {
    type Tag = Universal<3>;
}
