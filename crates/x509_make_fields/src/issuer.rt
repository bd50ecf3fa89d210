//! What is taken byte for byte of the issuer's certificate, its subject and the identifier of its key, and of a request,
//! its subject and its key.

ghost use Rattle.std.specs.Prelude.{IfSome, OnOk};
ghost use Rattle.x509_make_fields.specs.KeyBits.{KeyBits};
ghost use Rattle.x509_make_parts.specs.Appending.{Appends};

use crate::pem::pem_bytes;
use std::alloc::Allocator;
use x509_der::parts::first_element;
use x509_make_parts::{Done, Fault, Maker};
use x509_report_parts::Cursor;

/// An element: its tag, its content, the whole, and what comes behind it.
#[derive(Clone, Copy, Drop)]
struct Found<'a> {
    tag: u8,
    content: &'a [u8],
    whole: &'a [u8],
    rest: &'a [u8],
}

/// The element that begins the bytes.
fn first(bytes: &[u8]) -> Option<Found<'_>> {
    let element = first_element(bytes)?;
    Some(Found {
        tag: element.tag,
        content: bytes.get(element.start..element.end)?,
        whole: bytes.get(..element.end)?,
        rest: bytes.get(element.end..)?,
    })
}

/// What comes behind so many elements.
fn behind(bytes: &[u8], count: u8) -> Option<&[u8]> {
    let mut rest = bytes;
    for _ in 0..count {
        let found = first(rest)?;
        rest = found.rest;
    }
    Some(rest)
}

/// The fields of what is signed of a certificate, behind its version (RFC 5280, 4.1).
fn fields(certificate: &[u8]) -> Option<&[u8]> {
    let whole = first(certificate)?;
    let signed = first(whole.content)?;
    let version = first(signed.content)?;
    if version.tag == 0xa0 {
        Some(version.rest)
    } else {
        Some(signed.content)
    }
}

/// The subject of a certificate: its element.
fn subject(certificate: &[u8]) -> Option<&[u8]> {
    let found = first(behind(fields(certificate)?, 4)?)?;
    Some(found.whole)
}

/// The extensions of a certificate, one behind another: none where it has none.
fn extensions(certificate: &[u8]) -> Option<&[u8]> {
    let mut rest = behind(fields(certificate)?, 6)?;
    for _ in 0..3 {
        let found = first(rest)?;
        if found.tag == 0xa3 {
            return Some(first(found.content)?.content);
        }
        rest = found.rest;
    }
    None
}

/// The content of the object identifier of the subject key identifier: 2.5.29.14.
const SUBJECT_KEY: [u8; 3] = [0x55, 0x1d, 0x0e];

/// The octets that a subject key identifier holds, if the content of an extension is that of one.
fn identifier_in(extension: &[u8]) -> Option<&[u8]> {
    let own = first(extension)?;
    if own.content != SUBJECT_KEY.as_slice() {
        return None;
    }
    let second = first(own.rest)?;
    let string = if second.tag == 0x01 {
        first(second.rest)?
    } else {
        second
    };
    Some(first(string.content)?.content)
}

/// The identifier of the key of a certificate.
fn key_identifier(certificate: &[u8]) -> Option<&[u8]> {
    let mut rest = extensions(certificate)?;
    for _ in 0..rest.len() {
        let extension = first(rest)?;
        if let Some(octets) = identifier_in(extension.content) {
            return Some(octets);
        }
        rest = extension.rest;
    }
    None
}

/// The content of the bits of a public key with its algorithm, behind the number of unused bits (RFC 5280, 4.1.2.7).
pub(crate) fn key_bits(key: &[u8]) -> Option<&[u8]>
    ensures { IfSome result (λ bits. KeyBits key.now bits.now) }
{
    let mut key = Cursor::new(key);
    let mut fields = key.take()?.inside;
    let _algorithm = fields.take()?;
    let string = fields.take()?.inside.rest;
    let (_unused, bits) = string.split_first()?;
    Some(bits)
}

/// The subject of a request and what comes behind it, its key first (RFC 2986, 4.1).
fn requested(request: &[u8]) -> Option<Found<'_>> {
    let whole = first(request)?;
    let signed = first(whole.content)?;
    first(behind(signed.content, 1)?)
}

/// The bytes of a request in PEM.
fn request<A: Allocator + Copy>(alloc: A, text: &str) -> Result<Vec<u8, A>, Fault> {
    let what = "a request in PEM (-----BEGIN CERTIFICATE REQUEST-----)";
    pem_bytes(alloc, text, "CERTIFICATE REQUEST", what)
}

/// Appends the subject of a request in PEM, as it stands there.
///
/// # Errors
/// `Not` where it is no request.
pub(crate) fn requested_subject<A: Allocator + Copy>(maker: &mut Maker<A>, text: &str) -> Done
    ensures { OnOk result (Appends maker.old.out.items maker.new.out.items) }
{
    let bytes = request(maker.alloc, text)?;
    match requested(bytes.as_slice()) {
        Some(subject) => maker.put(subject.whole),
        None => Err(Fault::Not("a request")),
    }
}

/// Appends the public key of a request in PEM, as it stands there.
///
/// # Errors
/// `Not` where it is no request.
pub(crate) fn requested_key<A: Allocator + Copy>(maker: &mut Maker<A>, text: &str) -> Done
    ensures { OnOk result (Appends maker.old.out.items maker.new.out.items) }
{
    let bytes = request(maker.alloc, text)?;
    let key = requested(bytes.as_slice()).and_then(|subject| first(subject.rest));
    match key {
        Some(key) => maker.put(key.whole),
        None => Err(Fault::Not("a request")),
    }
}

/// The bytes of a certificate in PEM.
fn certificate<A: Allocator + Copy>(alloc: A, text: &str) -> Result<Vec<u8, A>, Fault> {
    pem_bytes(alloc, text, "CERTIFICATE", "a certificate in PEM")
}

/// Appends the subject of a certificate in PEM, as it stands there.
///
/// # Errors
/// `Not` where it is no certificate.
pub(crate) fn subject_of<A: Allocator + Copy>(maker: &mut Maker<A>, text: &str) -> Done
    ensures { OnOk result (Appends maker.old.out.items maker.new.out.items) }
{
    let bytes = certificate(maker.alloc, text)?;
    match subject(bytes.as_slice()) {
        Some(name) => maker.put(name),
        None => Err(Fault::Not("a certificate")),
    }
}

/// Appends the identifier of the key of a certificate in PEM.
///
/// # Errors
/// `Not` where it is no certificate, `Said` where it has none.
pub(crate) fn key_identifier_of<A: Allocator + Copy>(maker: &mut Maker<A>, text: &str) -> Done
    ensures { OnOk result (Appends maker.old.out.items maker.new.out.items) }
{
    let bytes = certificate(maker.alloc, text)?;
    match key_identifier(bytes.as_slice()) {
        Some(identifier) => maker.put(identifier),
        None => Err(Fault::Said("the issuer's certificate has no subjectKeyIdentifier")),
    }
}
