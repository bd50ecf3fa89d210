//! Extensions and attributes: what their makers give, also where memory is refused, whether they are critical, and what
//! is lent of them.

use super::Heap;
use super::checks::{clone_turn, granted, is_so, is_written, made_turn, same};
use picky_asn1_x509::{Attribute, ExtendedKeyUsage, Extension, ExtensionView, Extensions};
use refusing::{Refusing, Turn, in_turn};
use std::alloc::{AllocError, Allocator};
use std::process::Abort;
use x509_der::{
    Asn1SequenceOf, IntegerAsn1, OctetStringAsn1, OctetStringAsn1Container, from_bytes,
};
use x509_prim::UTCTime;

/// The octets AA identify the subject's key.
fn subject_key<A: Allocator + Copy>(alloc: A) -> Result<Extension<A>, AllocError> {
    let octets = Vec::from_slice(alloc, &[0xAA])?;
    Extension::new_subject_key_identifier(alloc, octets)
}

const SUBJECT_KEY: &[u8] = b"\x30\x0A\x06\x03\x55\x1D\x0E\x04\x03\x04\x01\xAA";

/// The number 1.
fn one<A: Allocator + Copy>(alloc: A) -> Result<IntegerAsn1<A>, AllocError> {
    IntegerAsn1::from_bytes_be_unsigned(Vec::from_slice(alloc, &[1])?)
}

/// The octets AA identify the key, and the serial number is 1.
fn authority_key<A: Allocator + Copy>(alloc: A) -> Result<Extension<A>, AllocError> {
    let key = OctetStringAsn1(Vec::from_slice(alloc, &[0xAA])?);
    let serial = one(alloc)?;
    Extension::new_authority_key_identifier(alloc, Some(key), None, Some(serial))
}

const AUTHORITY_KEY: &[u8] =
    b"\x30\x0F\x06\x03\x55\x1D\x23\x04\x08\x30\x06\x80\x01\xAA\x82\x01\x01";

/// An authority with a path length of 3: 2.5.29.19 is critical.
const CONSTRAINTS: &[u8] =
    b"\x30\x12\x06\x03\x55\x1D\x13\x01\x01\xFF\x04\x08\x30\x06\x01\x01\xFF\x02\x01\x03";

/// A list of no purposes, which is critical.
const NO_PURPOSES: &[u8] = b"\x30\x0C\x06\x03\x55\x1D\x25\x01\x01\xFF\x04\x02\x30\x00";

/// A list of no names of the subject, which is critical.
const NO_SUBJECT_NAMES: &[u8] = b"\x30\x0C\x06\x03\x55\x1D\x11\x01\x01\xFF\x04\x02\x30\x00";

/// And of the issuer, which isn't.
const NO_ISSUER_NAMES: &[u8] = b"\x30\x09\x06\x03\x55\x1D\x12\x04\x02\x30\x00";

/// The number of a revocation list is 1.
fn crl_number<A: Allocator + Copy>(alloc: A) -> Result<Extension<A>, AllocError> {
    Extension::new_crl_number(alloc, OctetStringAsn1Container(one(alloc)?))
}

const CRL_NUMBER: &[u8] = b"\x30\x0A\x06\x03\x55\x1D\x14\x04\x03\x02\x01\x01";

/// Each maker of keys and constraints gives what is stated, also where memory is refused.
fn keys_are_made_over<A: Heap>(rt: &impl Abort, heap: A) {
    let subject = in_turn!(heap, made_turn(subject_key(heap), SUBJECT_KEY));
    is_so(rt, subject.is_some(), "subject key");
    let authority = in_turn!(heap, made_turn(authority_key(heap), AUTHORITY_KEY));
    is_so(rt, authority.is_some(), "authority key");
    let constraints = in_turn!(
        heap,
        made_turn(
            Extension::new_basic_constraints(heap, Some(true), Some(3)),
            CONSTRAINTS,
        )
    );
    same(rt, &constraints, &Some(0), "basic constraints");
}

#[test]
fn keys_are_made(rt: HostRuntime) {
    let heap = Refusing::new(rt.alloc());
    keys_are_made_over(&rt, &heap);
}

/// The makers of purposes, names and numbers.
fn names_are_made_over<A: Heap>(rt: &impl Abort, heap: A) {
    let purposes = in_turn!(
        heap,
        made_turn(
            Extension::new_extended_key_usage(heap, ExtendedKeyUsage::new(Vec::new(heap))),
            NO_PURPOSES,
        )
    );
    same(rt, &purposes, &Some(0), "purposes");
    let subject = in_turn!(
        heap,
        made_turn(
            Extension::new_subject_alt_name(heap, Asn1SequenceOf(Vec::new(heap))),
            NO_SUBJECT_NAMES,
        )
    );
    same(rt, &subject, &Some(0), "the subject's");
    let issuer = in_turn!(
        heap,
        made_turn(
            Extension::new_issuer_alt_name(heap, Asn1SequenceOf(Vec::new(heap))),
            NO_ISSUER_NAMES,
        )
    );
    same(rt, &issuer, &Some(0), "the issuer's");
    let number = in_turn!(heap, made_turn(crl_number(heap), CRL_NUMBER));
    is_so(rt, number.is_some(), "a list's number");
}

#[test]
fn names_are_made(rt: HostRuntime) {
    let heap = Refusing::new(rt.alloc());
    names_are_made_over(&rt, &heap);
}

/// A request for no extensions.
const REQUEST: &[u8] = b"\x30\x0F\x06\x09\x2A\x86\x48\x86\xF7\x0D\x01\x09\x0E\x31\x02\x30\x00";

/// The content type of data.
const CONTENT_TYPE: &[u8] =
    b"\x30\x18\x06\x09\x2A\x86\x48\x86\xF7\x0D\x01\x09\x03\x31\x0B\x06\x09\x2A\x86\x48\x86\xF7\x0D\x01\x07\x01";

/// A time in 2019.
fn signing_time<A: Allocator + Copy>(alloc: A) -> Result<Attribute<A>, AllocError> {
    match UTCTime::new(2019, 10, 17, 17, 41, 28) {
        Some(time) => Attribute::new_signing_time(alloc, time),
        None => Err(AllocError),
    }
}

const SIGNING_TIME: &[u8] =
    b"\x30\x1C\x06\x09\x2A\x86\x48\x86\xF7\x0D\x01\x09\x05\x31\x0F\x17\x0D191017174128Z";

/// The octets AA.
fn digest<A: Allocator + Copy>(alloc: A) -> Result<Attribute<A>, AllocError> {
    Attribute::new_message_digest(alloc, Vec::from_slice(alloc, &[0xAA])?)
}

const DIGEST: &[u8] = b"\x30\x10\x06\x09\x2A\x86\x48\x86\xF7\x0D\x01\x09\x04\x31\x03\x04\x01\xAA";

/// Each maker of attributes gives what is stated, also where memory is refused.
fn attributes_are_made_over<A: Heap>(rt: &impl Abort, heap: A) {
    let request = in_turn!(
        heap,
        made_turn(
            Attribute::new_extension_request(heap, Vec::new(heap)),
            REQUEST,
        )
    );
    is_so(rt, request.is_some(), "a request");
    let content = in_turn!(
        heap,
        made_turn(Attribute::new_content_type_pkcs7(heap), CONTENT_TYPE)
    );
    is_so(rt, content.is_some(), "a content type");
    let time = in_turn!(heap, made_turn(signing_time(heap), SIGNING_TIME));
    is_so(rt, time.is_some(), "a time");
    let made = in_turn!(heap, made_turn(digest(heap), DIGEST));
    is_so(rt, made.is_some(), "a digest");
}

#[test]
fn attributes_are_made(rt: HostRuntime) {
    let heap = Refusing::new(rt.alloc());
    attributes_are_made_over(&rt, &heap);
}

/// Values by themselves are cloned by one request for their set, and octets by one more.
fn values_are_cloned_over<A: Heap>(rt: &impl Abort, heap: A) {
    let attribute = granted(rt, digest(heap));
    let values = &attribute.value;
    let requests = in_turn!(heap, clone_turn(values.clone(), values));
    same(rt, &requests, &Some(2), "a digest");
    drop(attribute);
}

#[test]
fn values_are_cloned(rt: HostRuntime) {
    let heap = Refusing::new(rt.alloc());
    values_are_cloned_over(&rt, &heap);
}

/// Octets DE AD BE EF of 2.5.29.32, which isn't known, not critical and critical.
const GENERIC: &[u8] = b"\x30\x0B\x06\x03\x55\x1D\x20\x04\x04\xDE\xAD\xBE\xEF";

const CRITICAL: &[u8] = b"\x30\x0E\x06\x03\x55\x1D\x20\x01\x01\xFF\x04\x04\xDE\xAD\xBE\xEF";

/// Whether the extension is critical is told, and changed with nothing else, and its identifier is lent; no memory is
/// asked for.
fn critical_is_changed_over<A: Heap>(rt: &impl Abort, heap: A) {
    let mut extension = from_bytes::<Extension<A>, A>(heap, GENERIC).expect(rt, "an extension");
    heap.refuse_all();
    is_so(rt, !extension.critical(), "not critical");
    extension.set_critical(true);
    is_so(rt, is_written(&extension, CRITICAL), "critical");
    let extension = extension.into_non_critical();
    is_so(rt, is_written(&extension, GENERIC), "no more");
    let extension = extension.into_critical();
    is_so(rt, extension.critical(), "critical again");
    let is_policies = extension.extn_id().0.is_arcs(&[2, 5, 29, 32]);
    is_so(rt, is_policies, "certificate policies");
    same(rt, &heap.requests(), &0, "requests");
    drop(extension);
}

#[test]
fn critical_is_changed(rt: HostRuntime) {
    let heap = Refusing::new(rt.alloc());
    critical_is_changed_over(&rt, &heap);
}

/// An extension of each variant of the view, in the variants' order.
const VARIANTS: &[(u8, &[u8])] = &[
    (
        0,
        b"\x30\x0F\x06\x03\x55\x1D\x23\x04\x08\x30\x06\x80\x01\xAA\x82\x01\x01",
    ),
    (1, b"\x30\x0A\x06\x03\x55\x1D\x0E\x04\x03\x04\x01\xAA"),
    (2, b"\x30\x0B\x06\x03\x55\x1D\x0F\x04\x04\x03\x02\x01\xA0"),
    (
        3,
        b"\x30\x0C\x06\x03\x55\x1D\x11\x04\x05\x30\x03\x82\x01\x61",
    ),
    (
        4,
        b"\x30\x0C\x06\x03\x55\x1D\x12\x04\x05\x30\x03\x82\x01\x61",
    ),
    (5, b"\x30\x09\x06\x03\x55\x1D\x13\x04\x02\x30\x00"),
    (
        6,
        b"\x30\x0F\x06\x03\x55\x1D\x25\x04\x08\x30\x06\x06\x04\x55\x1D\x25\x00",
    ),
    (7, GENERIC),
    (8, b"\x30\x0A\x06\x03\x55\x1D\x14\x04\x03\x02\x01\x01"),
];

/// The place of a variant, where what it lends is what stands in `VARIANTS`.
fn place_of<A: Allocator>(view: ExtensionView<'_, A>) -> Option<u8> {
    let (place, is_right) = match view {
        ExtensionView::AuthorityKeyIdentifier(key) => {
            let is_serial = key.authority_cert_serial_number().is_some();
            (0, is_serial && key.authority_cert_issuer().is_none())
        }
        ExtensionView::SubjectKeyIdentifier(key) => (1, key.0.len() == 1),
        ExtensionView::KeyUsage(usage) => (2, usage.key_encipherment()),
        ExtensionView::SubjectAltName(names) => (3, names.0.len() == 1),
        ExtensionView::IssuerAltName(names) => (4, names.0.len() == 1),
        ExtensionView::BasicConstraints(constraints) => (5, constraints.ca().is_none()),
        ExtensionView::ExtendedKeyUsage(usage) => (6, usage.iter().next().is_some()),
        ExtensionView::Generic(octets) => (7, octets.0.len() == 4),
        ExtensionView::CrlNumber(number) => (8, is_written(&number.0, b"\x02\x01\x01")),
    };
    if is_right { Some(place) } else { None }
}

/// The value of the extension is lent in the variant at this place, and lending it takes no memory.
fn is_lent<A: Heap>(rt: &impl Abort, heap: A, place: u8, bytes: &[u8]) {
    let extension = from_bytes::<Extension<A>, A>(heap, bytes).expect(rt, "an extension");
    heap.refuse_all();
    let lent = place_of(extension.extn_value());
    same(rt, &lent, &Some(place), "the variant");
    let cloned = clone_turn(extension.extn_value().clone(), &extension.extn_value());
    same(rt, &cloned, &Turn::Granted, "a clone");
    same(rt, &heap.requests(), &0, "requests");
    heap.refuse(0);
    drop(extension);
}

/// The variant is the one that the identifier says.
#[test]
fn values_are_lent(rt: HostRuntime) {
    let heap = Refusing::new(rt.alloc());
    for (place, bytes) in VARIANTS {
        is_lent(&rt, &heap, *place, *bytes);
    }
}

/// A list of the one extension that isn't known.
const LIST: &[u8] = b"\x30\x0D\x30\x0B\x06\x03\x55\x1D\x20\x04\x04\xDE\xAD\xBE\xEF";

/// A list is made of a `Vec`, which takes no memory.
fn lists_are_made_over<A: Heap>(rt: &impl Abort, heap: A) {
    let mut items = Vec::new(heap);
    let extension = from_bytes::<Extension<A>, A>(heap, GENERIC).expect(rt, "an extension");
    granted(rt, items.push(extension));
    heap.refuse_all();
    let list = Extensions::from(items);
    is_so(rt, is_written(&list, LIST), "the same items");
    same(rt, &heap.requests(), &0, "requests");
    drop(list);
}

#[test]
fn lists_are_made(rt: HostRuntime) {
    let heap = Refusing::new(rt.alloc());
    lists_are_made_over(&rt, &heap);
}
