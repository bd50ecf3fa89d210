//! Look-ups of extensions in certificates, and attributes that requests are given.

use super::Heap;
use super::checks::{granted, is_so, is_written, same};
use picky_asn1_x509::Attribute;
use picky_asn1_x509::certificate::Certificate;
use picky_asn1_x509::certification_request::{CertificationRequestInfo, OpenSslAttributes};
use refusing::{Refusing, Turn, in_turn};
use std::alloc::{AllocError, Allocator};
use std::process::Abort;
use x509_der::{Asn1SequenceOf, BitString, ObjectIdentifier, ToDer, from_bytes};
use x509_keys::SubjectPublicKeyInfo;
use x509_names::Name;

/// A certificate of version 2 with both unique identifiers, of which the subject's has no bits.
const IDENTIFIED: &str =
    "30583046a003020101020101300506032b65703000301e170d3139313031373137343132385a170d3232313031363137343132385a3000300a300506032b6570030100810200aa820100300b06092a864886f70d01010b030100";

/// A certificate with basic constraints.
const CONSTRAINED: &str =
    "30643052a003020102020101300506032b65703000301e170d3139313031373137343132385a170d3232313031363137343132385a3000300a300506032b6570030100810200aaa30d300b30090603551d1304023000300b06092a864886f70d01010b030100";

/// A certificate, the identifiers of the subject's key and of the issuer's that are found in it, whether constraints
/// are, and how many extensions it has.
struct LookUp<'a> {
    input: &'a str,
    subject_key: Option<&'a [u8]>,
    issuer_key: Option<&'a [u8]>,
    is_constrained: bool,
    extensions: usize,
}

const LOOK_UPS: &[LookUp<'static>] = &[
    // two identifiers of the subject's key, AA and BB
    LookUp {
        input: "306d305ba003020102020101300506032b65703000301e170d3139313031373137343132385a170d3232313031363137343132385a3000300a300506032b6570030100a31a3018300a0603551d0e04030401aa300a0603551d0e04030401bb300b06092a864886f70d01010b030100",
        subject_key: Some(b"\xAA"),
        issuer_key: None,
        is_constrained: false,
        extensions: 2,
    },
    // the identifier CC of the issuer's key, with a serial number
    LookUp {
        input: "30663054a003020102020101300506032b65703000301e170d3139313031373137343132385a170d3232313031363137343132385a3000300a300506032b6570030100a3133011300f0603551d23040830068001cc820101300b06092a864886f70d01010b030100",
        subject_key: None,
        issuer_key: Some(b"\xCC"),
        is_constrained: false,
        extensions: 1,
    },
    LookUp {
        input: CONSTRAINED,
        subject_key: None,
        issuer_key: None,
        is_constrained: true,
        extensions: 1,
    },
    // no extensions
    LookUp {
        input: IDENTIFIED,
        subject_key: None,
        issuer_key: None,
        is_constrained: false,
        extensions: 0,
    },
];

/// The identifier of the issuer's key.
fn issuer_key<A: Allocator>(certificate: &Certificate<A>) -> Option<&[u8]> {
    match certificate.authority_key_identifier() {
        Some(authority) => authority.key_identifier(),
        None => None,
    }
}

/// What the row says is found, the first of two, and without memory.
fn is_found<A: Heap>(rt: &impl Abort, heap: A, certificate: &Certificate<A>, row: &LookUp<'_>) {
    heap.refuse_all();
    let is_key = certificate.subject_key_identifier() == row.subject_key;
    is_so(rt, is_key, row.input);
    is_so(rt, issuer_key(certificate) == row.issuer_key, row.input);
    let is_constrained = certificate.basic_constraints().is_some();
    same(rt, &is_constrained, &row.is_constrained, row.input);
    same(
        rt,
        &certificate.extensions().len(),
        &row.extensions,
        row.input,
    );
    same(rt, &heap.requests(), &0, row.input);
    heap.refuse(0);
}

/// The same, in the row's certificate.
fn is_found_in<A: Heap>(rt: &impl Abort, heap: A, row: &LookUp<'_>) {
    let input = hex::decode(heap, row.input).expect(rt, row.input);
    let read = from_bytes::<Certificate<A>, A>(heap, input.as_slice()).expect(rt, row.input);
    is_found(rt, heap, &read, row);
    drop(read);
}

/// The test of this name, over any such allocator.
fn first_extensions_are_found_over<A: Heap>(rt: &impl Abort, heap: A) {
    for row in LOOK_UPS {
        is_found_in(rt, heap, row);
    }
}

#[test]
fn first_extensions_are_found(rt: HostRuntime) {
    let heap = Refusing::new(rt.alloc());
    first_extensions_are_found_over(&rt, &heap);
}

/// What is signed of a request without attributes.
const BARE: &[u8] = &[
    0x30, 0x13, 0x02, 0x01, 0x00, 0x30, 0x00, 0x30, 0x0A, 0x30, 0x05, 0x06, 0x03, 0x2B, 0x65, 0x70,
    0x03, 0x01, 0x00, 0xA0, 0x00,
];

/// And of one with a request for no extensions.
const ASKING: &[u8] = &[
    0x30, 0x24, 0x02, 0x01, 0x00, 0x30, 0x00, 0x30, 0x0A, 0x30, 0x05, 0x06, 0x03, 0x2B, 0x65, 0x70,
    0x03, 0x01, 0x00, 0xA0, 0x11, 0x30, 0x0F, 0x06, 0x09, 0x2A, 0x86, 0x48, 0x86, 0xF7, 0x0D, 0x01,
    0x09, 0x0E, 0x31, 0x02, 0x30, 0x00,
];

/// A request for no extensions by itself.
const REQUESTED: &[u8] = b"\x30\x0F\x06\x09\x2A\x86\x48\x86\xF7\x0D\x01\x09\x0E\x31\x02\x30\x00";

/// A request for an Ed25519 key of no bits, without attributes, which is made without memory.
fn bare<A: Heap>(rt: &impl Abort, heap: A) -> CertificationRequestInfo<A> {
    let ed25519 = ObjectIdentifier::from_arcs(heap, &[1, 3, 101, 112]).expect(rt, "lawful arcs");
    let bits = BitString::with_len(heap, 0).expect(rt, "memory");
    let key = SubjectPublicKeyInfo::new_ed_key(ed25519, bits);
    heap.refuse_all();
    let info = CertificationRequestInfo::new(heap, Name::new(heap), key);
    same(rt, &heap.requests(), &0, "requests");
    heap.refuse(0);
    info
}

/// What a run showed that should add an attribute to the request: both as they were where memory was refused.
fn added_turn<I: ToDer, T: ToDer + Drop>(answer: Result<(), T>, info: &I) -> Turn {
    match answer {
        Ok(()) => Turn::right(is_written(info, ASKING)),
        Err(back) => Turn::stands(is_written(info, BARE) && is_written(&back, REQUESTED)),
    }
}

/// What a run showed that should make an attribute and add it in place.
fn added_in_place_turn<A: Heap>(heap: A, info: &mut CertificationRequestInfo<A>) -> Turn {
    match Attribute::new_extension_request(heap, Vec::new(heap)) {
        Ok(attribute) => {
            let answer = info.add_attribute(attribute);
            added_turn(answer, &*info)
        }
        Err(AllocError) => Turn::Refused,
    }
}

/// An attribute is added in place; where memory is refused, the request stands as it was, and the attribute comes back.
fn attributes_are_added_in_place_over<A: Heap>(rt: &impl Abort, heap: A) {
    let mut info = bare(rt, heap);
    let requests = in_turn!(heap, added_in_place_turn(heap, &mut info));
    is_so(rt, requests.is_some(), "an attribute");
    drop(info);
}

#[test]
fn attributes_are_added_in_place(rt: HostRuntime) {
    let heap = Refusing::new(rt.alloc());
    attributes_are_added_in_place_over(&rt, &heap);
}

/// Whether a request comes back with an attribute more.
fn is_asking<I: ToDer + Drop, B: Drop>(answer: Result<I, B>) -> bool {
    match answer {
        Ok(info) => is_written(&info, ASKING),
        Err(_back) => false,
    }
}

/// A request takes an attribute, and a list of attributes is put under its tag.
fn requests_take_attributes_over<A: Heap>(rt: &impl Abort, heap: A) {
    let info = bare(rt, heap);
    let attribute = granted(rt, Attribute::new_extension_request(heap, Vec::new(heap)));
    is_so(
        rt,
        is_asking(info.with_attribute(attribute)),
        "an attribute",
    );
    let attributes = OpenSslAttributes::from(Asn1SequenceOf(Vec::new(heap)));
    is_so(rt, is_written(&attributes, b"\xA0\x00"), "no attributes");
    drop(attributes);
}

#[test]
fn requests_take_attributes(rt: HostRuntime) {
    let heap = Refusing::new(rt.alloc());
    requests_take_attributes_over(&rt, &heap);
}
