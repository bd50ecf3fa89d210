//! Private keys.

use crate::algorithm::algorithm;
use crate::attribute::attributes;
use crate::input::first_at;
use crate::key::{Keyholder, write_unread};
use std::alloc::Allocator;
use std::fmt::{self, Write};
use x509_more_outlines::{PrivateKeyOutline, PublicBitsOutline};
use x509_outline::PublicKeyOutline;
use x509_report::parts::secret_octets;
use x509_report::{Column, Reported};
use x509_report_fields::key::bits;
use x509_report_further::Limited;
use x509_report_parts::{Cursor, Label, Secrets, Shape, Value};

/// A private key of which the frame was read from some bytes, to be reported.
#[derive(Drop)]
pub struct PrivateKeyReport<'a, A: Allocator> {
    /// Where memory is asked for.
    pub alloc: A,
    /// The bytes.
    pub bytes: &'a [u8],
    /// What was read.
    pub value: &'a PrivateKeyOutline<A>,
}

/// The version: `v1` is 0, and `v2` is 1 (RFC 5958, 2).
fn version_of(version: u8) -> Value<'static> {
    match version {
        0 => Value::Word("v1"),
        1 => Value::Word("v2"),
        _ => Value::Number(u64::from(version)),
    }
}

/// Tells what stands behind the key: attributes, and the public key.
fn tail<A: Allocator + Copy, S: Limited>(
    sink: &mut S,
    alloc: A,
    bytes: &[u8],
    fields: &mut Cursor<'_>,
    value: &PrivateKeyOutline<A>,
) -> Result<(), S::Error> {
    if let Some(list) = &value.attributes {
        attributes(sink, alloc, bytes, fields.next(), list.0.as_slice())?;
    }
    match &value.public_key {
        Some(PublicBitsOutline::Implicit(key) | PublicBitsOutline::Explicit(key)) => {
            sink.field(Label::Field("publicKey"), fields.next().span, bits(&key.0))
        }
        None => Ok(()),
    }
}

impl<A: Allocator + Copy> PrivateKeyReport<'_, A> {
    /// Writes what is said of the key.
    fn write_key<W: Write>(&self, out: &mut W) -> fmt::Result {
        let value = self.value;
        write_unread(out, value.private_key_algorithm.algorithm.0.content())
    }
}

impl<A: Allocator + Copy> Reported for PrivateKeyReport<'_, A> {
    const TITLE: &'static str = "Private key outline";

    fn tell<S: Limited>(
        &self,
        sink: &mut S,
        bytes: &[u8],
        secrets: Secrets,
    ) -> Result<(), S::Error> {
        let alloc = self.alloc;
        let value = self.value;
        let at = first_at(bytes);
        let mut fields = at.inside;
        sink.begin(Label::Field("PrivateKeyInfo"), at.span, Shape::Fields)?;
        let version = version_of(value.version);
        sink.field(Label::Field("version"), fields.next().span, version)?;
        let kind = &value.private_key_algorithm;
        algorithm(
            sink,
            alloc,
            bytes,
            "privateKeyAlgorithm",
            fields.next(),
            kind,
        )?;
        let secret = secret_octets(value.private_key.0.as_slice(), secrets);
        sink.field(Label::Field("privateKey"), fields.next().span, secret)?;
        tail(sink, alloc, bytes, &mut fields, value)?;
        sink.end()
    }

    fn summary<W: Write>(&self, out: &mut W) -> fmt::Result {
        out.write_str("  key         ")?;
        self.write_key(out)?;
        out.write_str("\n")
    }

    fn column<W: Write>(&self, column: Column, out: &mut W) -> fmt::Result {
        match column {
            Column::Key => self.write_key(out),
            _ => Ok(()),
        }
    }
}

/// The public key beside a private one of an algorithm that isn't read is none with its own algorithm: which that would have
/// is said by the algorithm's standard.
impl<A: Allocator> Keyholder<A> for PrivateKeyReport<'_, A> {
    fn public_key(&self) -> Option<&PublicKeyOutline<A>> {
        None
    }
}
