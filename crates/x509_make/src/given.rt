//! Bytes that are written as they are.

ghost use Rattle.std.specs.Prelude.{◌≡◌, ◌∷◌};

use std::marker::Model;
use x509_der::parts::{Output, OwnTag, ToContent, Universal};
use x509_der::{ToDer, TooLong};

/// Bytes in DER, lent. Contracts see them.
#[derive(Drop)]
pub(crate) struct Given<'a> {
    bytes: &'a [u8],
}

impl<'a> Model for Given<'a> {
    ghost use Rattle.std.specs.Prelude.{List, ℕ};

    ghost Value = { List ℕ };

    ghost view = { λ g. g.bytes.now };
}

impl<'a> Given<'a> {
    /// These bytes.
    pub(crate) fn of(bytes: &'a [u8]) -> Self
        ensures { result ≡ bytes.now }
    {
        Given { bytes }
    }
}

impl<'a> ToDer for Given<'a> {
    ghost strict = { λ g. g };

    fn put<O: Output>(&self, out: &mut [u8], at: usize) -> Result<usize, TooLong> {
        O::bytes(self.bytes, out, at)
    }
}

/// Whole bytes as a BIT STRING, lent. Contracts see its content: no bit of the last byte is unused, and the bytes.
#[derive(Drop)]
pub(crate) struct WholeBytes<'a> {
    bytes: &'a [u8],
}

impl<'a> Model for WholeBytes<'a> {
    ghost use Rattle.std.specs.Prelude.{◌∷◌, List, ℕ};

    ghost Value = { List ℕ };

    ghost view = { λ g. 0 ∷ g.bytes.now };
}

impl<'a> WholeBytes<'a> {
    /// The bits of these bytes.
    pub(crate) fn of(bytes: &'a [u8]) -> Self
        ensures { result ≡ 0 ∷ bytes.now }
    {
        WholeBytes { bytes }
    }
}

impl<'a> ToContent for WholeBytes<'a> {
    ghost content = { λ g. g };

    fn put_content<O: Output>(&self, out: &mut [u8], at: usize) -> Result<usize, TooLong> {
        let at = O::bytes(self.bytes, out, at)?;
        O::bytes(&[0], out, at)
    }
}

impl<'a> OwnTag for WholeBytes<'a> {
    type Tag = Universal<3>;
}
