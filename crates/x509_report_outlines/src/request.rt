//! Certification requests.

use crate::algorithm::{algorithm, write_name, write_unread};
use crate::attribute::{Part, attributes, write_requested};
use crate::input::first_at;
use crate::key::{Keyholder, public_key, write_key};
use crate::name::{NameText, name};
use std::alloc::Allocator;
use std::fmt::{self, Write};
use x509_more_outlines::{RequestInfoOutline, RequestOutline};
use x509_outline::PublicKeyOutline;
use x509_report::{Column, Reported};
use x509_report_fields::key::bits;
use x509_report_further::Limited;
use x509_report_parts::{Element, Label, Secrets, Shape, Span, Value};

/// A request of which the frame was read from some bytes, to be reported.
#[derive(Drop)]
pub struct RequestReport<'a, A: Allocator> {
    /// Where memory is asked for.
    pub alloc: A,
    /// The bytes.
    pub bytes: &'a [u8],
    /// What was read.
    pub value: &'a RequestOutline<A>,
}

/// Where the fields stand that are told of beside the tree.
#[derive(Clone, Copy, Drop)]
struct Places<'a> {
    /// What is signed.
    info: Element<'a>,
    /// The public key.
    key: Element<'a>,
    /// The algorithm of the signature.
    algorithm: Element<'a>,
}

/// Where they stand in a request.
fn places_of(bytes: &[u8]) -> Places<'_> {
    let mut outer = first_at(bytes).inside;
    let info = outer.next();
    let mut fields = info.inside;
    let _version = fields.next();
    let _subject = fields.next();
    let key = fields.next();
    Places {
        info,
        key,
        algorithm: outer.next(),
    }
}

/// The version of a request: `v1` is 0 (RFC 2986, 4.1).
fn version_of(version: u8) -> Value<'static> {
    match version {
        0 => Value::Word("v1"),
        _ => Value::Number(u64::from(version)),
    }
}

/// Tells what is signed.
fn request_info<A: Allocator + Copy, S: Limited>(
    sink: &mut S,
    alloc: A,
    bytes: &[u8],
    at: Element<'_>,
    value: &RequestInfoOutline<A>,
) -> Result<(), S::Error> {
    let mut fields = at.inside;
    let label = Label::Field("certificationRequestInfo");
    sink.begin(label, at.span, Shape::Fields)?;
    let version = version_of(value.version);
    sink.field(Label::Field("version"), fields.next().span, version)?;
    name(sink, "subject", fields.next(), &value.subject)?;
    let key = &value.subject_public_key_info;
    public_key(sink, alloc, bytes, "subjectPKInfo", fields.next(), key)?;
    let list = value.attributes.0.as_slice();
    attributes(sink, alloc, bytes, fields.next(), list)?;
    sink.end()
}

impl<A: Allocator + Copy> RequestReport<'_, A> {
    /// Writes what is said of the public key.
    fn write_key<W: Write>(&self, out: &mut W) -> fmt::Result {
        let at = places_of(self.bytes).key;
        let key = &self
            .value
            .certification_request_info
            .subject_public_key_info;
        write_key(out, self.alloc, self.bytes, at, key)
    }
}

impl<A: Allocator + Copy> Reported for RequestReport<'_, A> {
    const TITLE: &'static str = "Certification request outline";

    fn tell<S: Limited>(
        &self,
        sink: &mut S,
        bytes: &[u8],
        _secrets: Secrets,
    ) -> Result<(), S::Error> {
        let alloc = self.alloc;
        let value = self.value;
        let at = first_at(bytes);
        let mut fields = at.inside;
        sink.begin(Label::Field("CertificationRequest"), at.span, Shape::Fields)?;
        let info = &value.certification_request_info;
        request_info(sink, alloc, bytes, fields.next(), info)?;
        let kind = &value.signature_algorithm;
        algorithm(
            sink,
            alloc,
            bytes,
            "signatureAlgorithm",
            fields.next(),
            kind,
        )?;
        let signature = bits(&value.signature.0);
        sink.field(Label::Field("signature"), fields.next().span, signature)?;
        sink.end()
    }

    fn signed(&self, bytes: &[u8]) -> Option<Span> {
        Some(places_of(bytes).info.span)
    }

    fn summary<W: Write>(&self, out: &mut W) -> fmt::Result {
        let info = &self.value.certification_request_info;
        writeln!(out, "  subject     {}", NameText(&info.subject))?;
        write_requested(out, self.alloc, info.attributes.0.as_slice(), Part::Lines)?;
        out.write_str("  key         ")?;
        self.write_key(out)?;
        out.write_str("\n")?;
        let at = places_of(self.bytes).algorithm;
        write_unread(
            out,
            self.alloc,
            self.bytes,
            at,
            &self.value.signature_algorithm,
        )
    }

    fn column<W: Write>(&self, column: Column, out: &mut W) -> fmt::Result {
        let info = &self.value.certification_request_info;
        match column {
            Column::Subject => write!(out, "{}", NameText(&info.subject)),
            Column::Names => {
                write_requested(out, self.alloc, info.attributes.0.as_slice(), Part::Names)
            }
            Column::Key => self.write_key(out),
            Column::SignatureAlgorithm => {
                let at = places_of(self.bytes).algorithm;
                write_name(
                    out,
                    self.alloc,
                    self.bytes,
                    at,
                    &self.value.signature_algorithm,
                )
            }
            _ => Ok(()),
        }
    }

    fn brief<W: Write>(&self, out: &mut W) -> fmt::Result {
        let info = &self.value.certification_request_info;
        write!(out, "{}; ", NameText(&info.subject))?;
        self.write_key(out)
    }
}

impl<A: Allocator> Keyholder<A> for RequestReport<'_, A> {
    fn public_key(&self) -> Option<&PublicKeyOutline<A>> {
        Some(
            &self
                .value
                .certification_request_info
                .subject_public_key_info,
        )
    }
}
