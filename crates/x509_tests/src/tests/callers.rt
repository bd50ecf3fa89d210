//! The callers of `x509_callers` over a certificate and a request that OpenSSL 3.0 wrote.

use bumpalo::Bump;
use picky_asn1_x509::{
    AlgorithmIdentifier, BitString, CertificationRequestInfo, Deviation, GeneralName, KeyUsage,
    from_bytes,
};
use std::alloc::Global;
use std::process::Abort;
use x509_callers::checker::{is_self_issued, is_signed_in_der, read};
use x509_callers::importer::import;
use x509_callers::inspector::{
    Description, NameText, Report, alternative_names, common_name, located,
};
use x509_callers::requester::{bytes_to_sign, ed25519_key, finished, named, requested};
use x509_callers::signer::{RewriteError, rewrite};

/// `openssl req -x509 -newkey ed25519 -subj /CN=example.org -addext
/// subjectAltName=DNS:example.org,DNS:www.example.org`.
const CERTIFICATE: &str =
    "3082016c3082011ea003020102021414bb4cad8585d1ea295b7c111ad4edda6ecb64e5300506032b657030163114301206035504030c0b6578616d706c652e6f72673020170d3236313132333137353833365a180f32303532313132363137353833365a30163114301206035504030c0b6578616d706c652e6f7267302a300506032b6570032100ba84c7798a75156907599828af317a1edd687e5fef585051081ddb2d081eaa8ca37c307a301d0603551d0e04160414c419ed6d3f911a0ba5bf773fbd1bab940148d62a301f0603551d23041830168014c419ed6d3f911a0ba5bf773fbd1bab940148d62a300f0603551d130101ff040530030101ff30270603551d110420301e820b6578616d706c652e6f7267820f7777772e6578616d706c652e6f7267300506032b6570034100f57cb93dfa81e4fe974f6d1bd1a0905c1317741d386fda5bf3c470e1aff1467f14d940b119ead0a08467b33e77d841cf8d062e3426ac9caca4a478094ade970f";

/// `openssl req -new -key KEY -subj /CN=example.org -addext keyUsage=critical,digitalSignature`.
const REQUEST: &str =
    "3081b6306a02010030163114301206035504030c0b6578616d706c652e6f7267302a300506032b6570032100ba84c7798a75156907599828af317a1edd687e5fef585051081ddb2d081eaa8ca021301f06092a864886f70d01090e31123010300e0603551d0f0101ff040403020780300506032b6570034100c6a1c21b52774e218f26a561d871068f16bf88cd5af2050f24011acc7f15d5939ec4a8a28dbd48a0b8759ce5762d0aab813929c9ea4de923d067cbe069148900";

/// Its part that is signed.
const SIGNED: &str =
    "306a02010030163114301206035504030c0b6578616d706c652e6f7267302a300506032b6570032100ba84c7798a75156907599828af317a1edd687e5fef585051081ddb2d081eaa8ca021301f06092a864886f70d01090e31123010300e0603551d0f0101ff040403020780";

/// Its key.
const KEY: &str = "ba84c7798a75156907599828af317a1edd687e5fef585051081ddb2d081eaa8c";

/// Its signature.
const SIGNATURE: &str =
    "c6a1c21b52774e218f26a561d871068f16bf88cd5af2050f24011acc7f15d5939ec4a8a28dbd48a0b8759ce5762d0aab813929c9ea4de923d067cbe069148900";

/// A certificate whose signature's algorithm lacks the NULL of RSA.
const WITHOUT_NULL: &str =
    "304c303a020101300506032b65703000301e170d3139313031373137343132385a170d3232313031363137343132385a3000300a300506032b6570030100300b06092a864886f70d01010b030100";

/// The bytes of these digits.
fn bytes_of(rt: &impl Abort, alloc: Global, digits: &str) -> Vec<u8> {
    hex::decode(alloc, digits).expect(rt, "digits")
}

#[test]
fn a_certificate_is_checked(rt: HostRuntime) {
    let bytes = bytes_of(&rt, rt.alloc(), CERTIFICATE);
    let read = read(rt.alloc(), &bytes).expect(&rt, "a certificate");
    assert!(rt; bytes.get(4..294) == Some(read.signed));
    assert!(rt; is_signed_in_der(&read) && is_self_issued(&read.value));
    drop(read);
}

#[test]
fn a_request_is_no_certificate(rt: HostRuntime) {
    let bytes = bytes_of(&rt, rt.alloc(), REQUEST);
    let refused = read(rt.alloc(), &bytes);
    assert!(rt; refused.is_err());
    drop(refused);
}

#[test]
fn certificates_are_imported(rt: HostRuntime) {
    let alloc = rt.alloc();
    let mut arena = Bump::new(alloc);
    let clean = import(&mut arena, &bytes_of(&rt, alloc, CERTIFICATE)).expect(&rt, "a certificate");
    let marked = import(&mut arena, &bytes_of(&rt, alloc, WITHOUT_NULL)).expect(&rt, "another");
    assert!(rt; clean.total() == 0 && marked.total() == 1);
    assert!(rt; import(&mut arena, &bytes_of(&rt, alloc, REQUEST)).is_err());
}

#[test]
fn a_certificate_is_described(rt: HostRuntime) {
    let bytes = bytes_of(&rt, rt.alloc(), CERTIFICATE);
    let (certificate, places) = located(rt.alloc(), &bytes).expect(&rt, "a certificate");
    assert!(rt; places.is_empty());
    assert!(rt; common_name(&certificate).is_some());
    assert!(rt; alternative_names(&certificate).map(|names| names.0.len()) == Some(2));
    let text = format!(in rt.alloc(); "{}", Description(&certificate)).expect(&rt, "memory");
    drop(certificate);
    let lines =
        "subject: CN=example.org\nvalid: 2026-11-23 17:58:36 to 2052-11-26 17:58:36\nhost: example.org\nhost: www.example.org\n";
    assert_eq!(rt; text.as_str(), lines);
}

#[test]
fn a_deviation_is_located(rt: HostRuntime) {
    let bytes = bytes_of(&rt, rt.alloc(), WITHOUT_NULL);
    let (certificate, places) = located(rt.alloc(), &bytes).expect(&rt, "a certificate");
    drop(certificate);
    let found = places
        .first()
        .map(|place| (place.kind, place.start, place.end));
    assert!(rt; found == Some((Deviation::RsaParametersAbsent, 62, 75)) && places.len() == 1);
    let text = format!(in rt.alloc(); "{}", Report(&places)).expect(&rt, "memory");
    assert_eq!(rt; text.as_str(), "RSA parameters absent: bytes 62..75\n");
}

/// What a general name prints.
fn printed(rt: &impl Abort, alloc: Global, digits: &str) -> String {
    let bytes = bytes_of(rt, alloc, digits);
    let name: GeneralName = from_bytes(alloc, &bytes).expect(rt, "a general name");
    let text = format!(in alloc; "{}", NameText(&name)).expect(rt, "memory");
    drop(name);
    text
}

#[test]
fn each_form_of_name_prints(rt: HostRuntime) {
    for (digits, text) in [
        ("a00806022a03a0020500", "other name: 1.2.3=#0500"),
        ("8103614062", "mail: a@b"),
        ("820161", "host: a"),
        ("a40e300c310a300806035504030c0161", "directory: CN=a"),
        ("a505a1030c0161", "party: a"),
        ("a50aa0030c0162a1030c0161", "party: a"),
        ("8604753a2f78", "uri: u:/x"),
        ("8704c0000201", "address: 192.0.2.1"),
        (
            "871020010db8000000000000000000000001",
            "address: #20010db8000000000000000000000001",
        ),
        ("88032a0304", "identifier: 1.2.3.4"),
    ] {
        let shown = printed(&rt, rt.alloc(), digits);
        assert_eq!(rt; shown.as_str(), text);
    }
}

/// What is asked for: a signing key.
fn asked_for(rt: &impl Abort, alloc: Global) -> CertificationRequestInfo {
    let mut usage = KeyUsage::new(alloc, 1).expect(rt, "memory");
    usage.set_digital_signature(true).expect(rt, "memory");
    let text = String::from_str(alloc, "example.org").expect(rt, "memory");
    let name = named(alloc, text).expect(rt, "memory");
    let bits = BitString::with_bytes(bytes_of(rt, alloc, KEY));
    let key = ed25519_key(alloc, bits).expect(rt, "memory");
    requested(alloc, name, key, usage).expect(rt, "memory")
}

#[test]
fn a_request_is_built(rt: HostRuntime) {
    let info = asked_for(&rt, rt.alloc());
    let signed = bytes_to_sign(rt.alloc(), &info).expect(&rt, "memory");
    drop(info);
    assert!(rt; signed.as_slice() == bytes_of(&rt, rt.alloc(), SIGNED).as_slice());
}

#[test]
fn a_request_is_finished(rt: HostRuntime) {
    let info = asked_for(&rt, rt.alloc());
    let algorithm = AlgorithmIdentifier::new_ed25519(rt.alloc()).expect(&rt, "memory");
    let signature = BitString::with_bytes(bytes_of(&rt, rt.alloc(), SIGNATURE));
    let request = finished(rt.alloc(), info, algorithm, signature).expect(&rt, "memory");
    assert!(rt; request.as_slice() == bytes_of(&rt, rt.alloc(), REQUEST).as_slice());
}

#[test]
fn a_certificate_is_rewritten(rt: HostRuntime) {
    let bytes = bytes_of(&rt, rt.alloc(), CERTIFICATE);
    let rewritten = rewrite(rt.alloc(), &bytes).expect(&rt, "a certificate");
    assert!(rt; rewritten.is_same && rewritten.encoding.as_slice() == bytes.as_slice());
}

#[test]
fn other_bytes_are_told(rt: HostRuntime) {
    let bytes = bytes_of(&rt, rt.alloc(), WITHOUT_NULL);
    let rewritten = rewrite(rt.alloc(), &bytes).expect(&rt, "a certificate");
    assert!(rt; !rewritten.is_same && rewritten.encoding.len() == 80);
    let refused = rewrite(rt.alloc(), b"\x30\x00");
    assert!(rt; matches!(refused, Err(RewriteError::Read(_))));
}
