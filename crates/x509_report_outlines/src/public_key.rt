//! Public keys by themselves.

use crate::input::first_at;
use crate::key::{Keyholder, public_key, write_key};
use std::alloc::Allocator;
use std::fmt::{self, Write};
use x509_outline::PublicKeyOutline;
use x509_report::{Column, Reported};
use x509_report_further::Limited;
use x509_report_parts::Secrets;

/// A public key of which the frame was read from some bytes, to be reported.
#[derive(Drop)]
pub struct PublicKeyReport<'a, A: Allocator> {
    /// Where memory is asked for.
    pub alloc: A,
    /// The bytes.
    pub bytes: &'a [u8],
    /// What was read.
    pub value: &'a PublicKeyOutline<A>,
}

impl<A: Allocator + Copy> PublicKeyReport<'_, A> {
    /// Writes what is said of the key.
    fn write_key<W: Write>(&self, out: &mut W) -> fmt::Result {
        write_key(
            out,
            self.alloc,
            self.bytes,
            first_at(self.bytes),
            self.value,
        )
    }
}

impl<A: Allocator + Copy> Reported for PublicKeyReport<'_, A> {
    const TITLE: &'static str = "Public key outline";

    fn tell<S: Limited>(
        &self,
        sink: &mut S,
        bytes: &[u8],
        _secrets: Secrets,
    ) -> Result<(), S::Error> {
        let alloc = self.alloc;
        let value = self.value;
        let at = first_at(bytes);
        public_key(sink, alloc, bytes, "SubjectPublicKeyInfo", at, value)
    }

    fn summary<W: Write>(&self, out: &mut W) -> fmt::Result {
        out.write_str("  key         ")?;
        self.write_key(out)?;
        out.write_str("\n")
    }

    fn column<W: Write>(&self, column: Column, out: &mut W) -> fmt::Result {
        match column {
            Column::Key => self.write_key(out),
            _ => Ok(()),
        }
    }
}

impl<A: Allocator> Keyholder<A> for PublicKeyReport<'_, A> {
    fn public_key(&self) -> Option<&PublicKeyOutline<A>> {
        Some(self.value)
    }
}
