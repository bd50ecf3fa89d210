//! Where fields stand: the places that `openssl asn1parse` tells of the same bytes.

use picky_asn1_x509::{Certificate, CertificationRequest, Extension, PrivateKeyInfo, from_bytes};
use std::alloc::Global;
use std::process::Abort;
use x509_der::FromDer;
use x509_fields::{
    CertificateFields, CertificationRequestFields, ExtensionFields, PrivateKeyInfoFields, Span,
};

/// A certificate with all that may be left out.
const CERTIFICATE: &str =
    "3078306ca003020102020101300506032b65703000301e170d3139313031373137343132385a170d3232313031363137343132385a300d310b3009060355040313026162300a300506032b65700301008102070082020780a316301430120603551d130101ff040830060101ff020105300506032b6570030100";

/// A request with one attribute.
const REQUEST: &str =
    "303230260201003000300a300506032b6570030100a013301106092a864886f70d010907310413027077300506032b6570030100";

/// A private key with an element that is skipped, and its public key.
const PRIVATE_KEY: &str = "3015020101300506032b657004020400a000a103030100";

/// An extension that is critical.
const EXTENSION: &str = "30120603551d130101ff040830060101ff020105";

/// The value that the bytes encode.
fn value_of<T: FromDer<Global>>(rt: &impl Abort, alloc: Global, bytes: &[u8]) -> T {
    from_bytes(alloc, bytes).expect(rt, "it is read")
}

/// The element of so many bytes behind so many others.
fn at(start: usize, size: usize) -> Span {
    Span {
        start,
        end: start.saturating_add(size),
    }
}

#[test]
fn certificate(rt: HostRuntime) {
    let alloc = rt.alloc();
    let bytes = hex::decode(alloc, CERTIFICATE).expect(&rt, CERTIFICATE);
    let value: Certificate = value_of(&rt, alloc, &bytes);
    let found = CertificateFields::of(&value, &bytes);
    assert!(rt; found.tbs_certificate == at(2, 110));
    assert!(rt; found.signature_algorithm == at(112, 7));
    assert!(rt; found.signature_value == at(119, 3));
    let fields = found.fields;
    assert!(rt; fields.version == Some(at(4, 5)));
    assert!(rt; fields.serial_number == at(9, 3));
    assert!(rt; fields.signature == at(12, 7));
    assert!(rt; fields.issuer == at(19, 2));
    assert!(rt; fields.validity == at(21, 32));
    assert!(rt; fields.subject == at(53, 15));
    assert!(rt; fields.subject_public_key_info == at(68, 12));
    assert!(rt; fields.issuer_unique_id == Some(at(80, 4)));
    assert!(rt; fields.subject_unique_id == Some(at(84, 4)));
    assert!(rt; fields.extensions == Some(at(88, 24)));
}

#[test]
fn request(rt: HostRuntime) {
    let alloc = rt.alloc();
    let bytes = hex::decode(alloc, REQUEST).expect(&rt, REQUEST);
    let value: CertificationRequest = value_of(&rt, alloc, &bytes);
    let found = CertificationRequestFields::of(&value, &bytes);
    assert!(rt; found.certification_request_info == at(2, 40));
    assert!(rt; found.signature_algorithm == at(42, 7));
    assert!(rt; found.signature == at(49, 3));
    assert!(rt; found.fields.version == at(4, 3));
    assert!(rt; found.fields.subject == at(7, 2));
    assert!(rt; found.fields.subject_public_key_info == at(9, 12));
    assert!(rt; found.fields.attributes == at(21, 21));
}

#[test]
fn private_key(rt: HostRuntime) {
    let alloc = rt.alloc();
    let bytes = hex::decode(alloc, PRIVATE_KEY).expect(&rt, PRIVATE_KEY);
    let value: PrivateKeyInfo = value_of(&rt, alloc, &bytes);
    let found = PrivateKeyInfoFields::of(&value, &bytes);
    assert!(rt; found.version == at(2, 3));
    assert!(rt; found.private_key_algorithm == at(5, 7));
    assert!(rt; found.private_key == at(12, 4));
    assert!(rt; found.skipped == Some(at(16, 2)));
    assert!(rt; found.public_key == Some(at(18, 5)));
}

#[test]
fn extension(rt: HostRuntime) {
    let alloc = rt.alloc();
    let bytes = hex::decode(alloc, EXTENSION).expect(&rt, EXTENSION);
    let value: Extension = value_of(&rt, alloc, &bytes);
    let found = ExtensionFields::of(&value, &bytes);
    assert!(rt; found.extn_id == at(2, 5));
    assert!(rt; found.critical == Some(at(7, 3)));
    assert!(rt; found.extn_value == at(10, 10));
    assert!(rt; found.extn_value.slice(&bytes).is_some());
}
