//! Public keys of any algorithm.

use crate::algorithm::algorithm;
use crate::input::{known, slice_at};
use picky_asn1_x509::SubjectPublicKeyInfo;
use std::alloc::{AllocError, Allocator};
use std::fmt::{self, Write};
use x509_outline::PublicKeyOutline;
use x509_report_fields::key::{bits, public_key as known_key, public_line};
use x509_report_further::Limited;
use x509_report_parts::text_sink::Unread;
use x509_report_parts::{Element, Label, Shape};

/// An outline that may hold a public key.
pub trait Keyholder<A: Allocator> {
    /// The public key with its algorithm; `None` where it holds none.
    fn public_key(&self) -> Option<&PublicKeyOutline<A>>;
}

/// Tells a public key that the port doesn't read: its algorithm, and its bits.
fn unread_key<A: Allocator + Copy, S: Limited>(
    sink: &mut S,
    alloc: A,
    bytes: &[u8],
    field: &'static str,
    at: Element<'_>,
    value: &PublicKeyOutline<A>,
) -> Result<(), S::Error> {
    let mut fields = at.inside;
    sink.begin(Label::Field(field), at.span, Shape::Fields)?;
    algorithm(
        sink,
        alloc,
        bytes,
        "algorithm",
        fields.next(),
        &value.algorithm,
    )?;
    let key = bits(&value.subject_public_key.0);
    sink.field(Label::Field("subjectPublicKey"), fields.next().span, key)?;
    sink.end()
}

/// Tells a public key with its algorithm.
pub(crate) fn public_key<A: Allocator + Copy, S: Limited>(
    sink: &mut S,
    alloc: A,
    bytes: &[u8],
    field: &'static str,
    at: Element<'_>,
    value: &PublicKeyOutline<A>,
) -> Result<(), S::Error> {
    let slice = slice_at(bytes, at.span);
    match known::<SubjectPublicKeyInfo<A>, A>(alloc, slice) {
        Ok(Some(read)) => {
            let told = known_key(sink, field, at, &read);
            drop(read);
            told
        }
        Ok(None) => unread_key(sink, alloc, bytes, field, at, value),
        Err(AllocError) => Err(S::out_of_memory()),
    }
}

/// Writes what is said of a public key on one line: as of a key that the port reads, or its algorithm and that it isn't
/// read.
pub(crate) fn write_key<A: Allocator + Copy, W: Write>(
    out: &mut W,
    alloc: A,
    bytes: &[u8],
    at: Element<'_>,
    value: &PublicKeyOutline<A>,
) -> fmt::Result {
    let slice = slice_at(bytes, at.span);
    match known::<SubjectPublicKeyInfo<A>, A>(alloc, slice) {
        Ok(Some(read)) => {
            let written = write!(out, "{}", public_line(&read));
            drop(read);
            written
        }
        Ok(None) => write_unread(out, value.algorithm.algorithm.0.content()),
        Err(AllocError) => Err(fmt::Error),
    }
}

/// Writes that the keys of an algorithm aren't read.
pub(crate) fn write_unread<W: Write>(out: &mut W, content: &[u8]) -> fmt::Result {
    write!(out, "{}, not read by this library", Unread(content))
}
