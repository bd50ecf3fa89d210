//! Signatures and certificates of OpenSSL, in other forms and taken apart.

use refusing::{Refusing, Turn, in_turn};
use std::alloc::Global;
use std::process::Abort;
use x509_pem_writer::pem_text;
use x509_signature_algorithms::{NotNamed, signature_algorithm_by_name};
use x509_signing::{NotConverted, ecdsa_signature, signature_algorithm};

/// A signature on P-256 by `openssl req -x509`, and its two numbers, of which the second has its first bit set.
const SIGNATURE: &str =
    "30450220712b5539c980a288265c90404126b89c24fa03b19ed4511ca54df7e5debdbc52022100cf076347ed91a144a52ead1e22605474c5826b20ade47145885839498265aba7";

const NUMBERS: &str =
    "712b5539c980a288265c90404126b89c24fa03b19ed4511ca54df7e5debdbc52cf076347ed91a144a52ead1e22605474c5826b20ade47145885839498265aba7";

/// A certificate with a key of Ed25519 by `openssl req -x509`, what is signed of it, and its PEM by `openssl x509`.
const CERTIFICATE: &str =
    "3082012c3081dfa00302010202147c23b92668eae82bc06d577f1bdcbf797a3129f4300506032b6570300c310a300806035504030c0161301e170d3236313132393039303030305a170d3237303330393039303030305a300c310a300806035504030c0161302a300506032b65700321006563851c49b4abb8ef37570ce0948095a1edc3abecef00f673b47ac32960a3baa3533051301d0603551d0e04160414d63208f834efe05d8144979a84458b4ddadd0448301f0603551d23041830168014d63208f834efe05d8144979a84458b4ddadd0448300f0603551d130101ff040530030101ff300506032b6570034100521bab3613a16fdef83ac9bb6b5b0a980b4a6fd2c7cdf02a327370197f8569aee1b4067ab18f36a1637484b025d2b1b4de57663412886b98ee84258116ee5f07";

const PART: &str =
    "3081dfa00302010202147c23b92668eae82bc06d577f1bdcbf797a3129f4300506032b6570300c310a300806035504030c0161301e170d3236313132393039303030305a170d3237303330393039303030305a300c310a300806035504030c0161302a300506032b65700321006563851c49b4abb8ef37570ce0948095a1edc3abecef00f673b47ac32960a3baa3533051301d0603551d0e04160414d63208f834efe05d8144979a84458b4ddadd0448301f0603551d23041830168014d63208f834efe05d8144979a84458b4ddadd0448300f0603551d130101ff040530030101ff";

const PEM: &str = "\
-----BEGIN CERTIFICATE-----\n\
MIIBLDCB36ADAgECAhR8I7kmaOroK8BtV38b3L95ejEp9DAFBgMrZXAwDDEKMAgG\n\
A1UEAwwBYTAeFw0yNjExMjkwOTAwMDBaFw0yNzAzMDkwOTAwMDBaMAwxCjAIBgNV\n\
BAMMAWEwKjAFBgMrZXADIQBlY4UcSbSruO83VwzglICVoe3Dq+zvAPZztHrDKWCj\n\
uqNTMFEwHQYDVR0OBBYEFNYyCPg07+BdgUSXmoRFi03a3QRIMB8GA1UdIwQYMBaA\n\
FNYyCPg07+BdgUSXmoRFi03a3QRIMA8GA1UdEwEB/wQFMAMBAf8wBQYDK2VwA0EA\n\
UhurNhOhb974Osm7a1sKmAtKb9LHzfAqMnNwGX+Faa7htAZ6sY82oWN0hLAl0rG0\n\
3ldmNBKIa5juhCWBFu5fBw==\n\
-----END CERTIFICATE-----\n";

/// What is signed of a certificate of version 1, which has no field for it.
const OLDER_PART: &str =
    "30818702144b3a521914715ab0a7abf2005eb1f831045ff9bb300506032b6570300c310a300806035504030c01613020170d3236313132383136313331365a180f32313236313130343136313331365a300c310a300806035504030c0161302a300506032b65700321008f2d1275ac585958618d0bf42f3d3d978e3a9c29e3bdd367231cc9e71faeabcb";

/// The bytes of hexadecimal digits.
fn bytes(rt: &impl Abort, alloc: Global, digits: &str) -> Vec<u8> {
    hex::decode(alloc, digits).expect(rt, "hexadecimal")
}

#[test]
fn signatures_are_converted(rt: HostRuntime) {
    let heap = Refusing::new(rt.alloc());
    let raw = bytes(&rt, rt.alloc(), NUMBERS);
    let whole = bytes(&rt, rt.alloc(), SIGNATURE);
    let requests = in_turn!(
        heap,
        match ecdsa_signature(&heap, &raw) {
            Ok(made) => Turn::right(made.as_slice() == whole.as_slice()),
            Err(NotConverted::OutOfMemory) => Turn::Refused,
            Err(_other) => Turn::Wrong,
        }
    );
    assert!(&rt; requests.is_some());
}

/// Two numbers give this signature.
fn gives(rt: &impl Abort, alloc: Global, raw: &[u8], digits: &str) {
    let whole = bytes(rt, alloc, digits);
    match ecdsa_signature(alloc, raw) {
        Ok(made) => assert!(rt; made.as_slice() == whole.as_slice()),
        Err(_why) => assert!(rt; false, "it isn't converted"),
    }
}

#[test]
fn zeros_say_nothing(rt: HostRuntime) {
    gives(&rt, rt.alloc(), &[1, 2], "3006020101020102");
    gives(&rt, rt.alloc(), &[0, 1, 0, 0x80], "300702010102020080");
    gives(&rt, rt.alloc(), &[0, 0, 0, 0], "3006020100020100");
}

#[test]
fn other_lengths_are_refused(rt: HostRuntime) {
    let none = ecdsa_signature(rt.alloc(), &[]);
    assert!(&rt; matches!(none, Err(NotConverted::BadLength)));
    let odd = ecdsa_signature(rt.alloc(), &[1, 2, 3]);
    assert!(&rt; matches!(odd, Err(NotConverted::BadLength)));
}

/// A part names this algorithm.
fn names(rt: &impl Abort, alloc: Global, part: &str, algorithm: &str) {
    let part = bytes(rt, alloc, part);
    let algorithm = bytes(rt, alloc, algorithm);
    match signature_algorithm(&part) {
        Some(found) => assert!(rt; found == algorithm.as_slice()),
        None => assert!(rt; false, "none is found"),
    }
}

#[test]
fn parts_name_their_algorithm(rt: HostRuntime) {
    names(&rt, rt.alloc(), PART, "300506032b6570");
    names(&rt, rt.alloc(), OLDER_PART, "300506032b6570");
    let other = bytes(&rt, rt.alloc(), SIGNATURE);
    assert!(&rt; signature_algorithm(&other).is_none());
}

/// A text names this algorithm.
fn stands_for(rt: &impl Abort, alloc: Global, text: &str, algorithm: &str) {
    let algorithm = bytes(rt, alloc, algorithm);
    match signature_algorithm_by_name(alloc, text) {
        Ok(found) => assert!(rt; found.as_slice() == algorithm.as_slice()),
        Err(_why) => assert!(rt; false, "it isn't known"),
    }
}

#[test]
fn names_stand_for_algorithms(rt: HostRuntime) {
    stands_for(
        &rt,
        rt.alloc(),
        "sha256WithRSAEncryption",
        "300d06092a864886f70d01010b0500",
    );
    stands_for(
        &rt,
        rt.alloc(),
        "ecdsa-with-SHA256",
        "300a06082a8648ce3d040302",
    );
    stands_for(&rt, rt.alloc(), "id-Ed25519", "300506032b6570");
    stands_for(&rt, rt.alloc(), "1.3.101.113", "300506032b6571");
}

/// A text is refused for this.
fn is_refused(rt: &impl Abort, alloc: Global, text: &str, why: NotNamed) {
    match signature_algorithm_by_name(alloc, text) {
        Ok(_found) => assert!(rt; false, "it is known"),
        Err(error) => assert!(rt; error == why),
    }
}

#[test]
fn other_names_are_refused(rt: HostRuntime) {
    is_refused(&rt, rt.alloc(), "id-RSASSA-PSS", NotNamed::NoSignature);
    is_refused(&rt, rt.alloc(), "rsaEncryption", NotNamed::NoSignature);
    is_refused(&rt, rt.alloc(), "ecdsa", NotNamed::Unknown);
}

#[test]
fn pem_is_written(rt: HostRuntime) {
    let heap = Refusing::new(rt.alloc());
    let der = bytes(&rt, rt.alloc(), CERTIFICATE);
    let requests = in_turn!(
        heap,
        match pem_text(&heap, "CERTIFICATE", &der) {
            Ok(text) => Turn::right(text.as_slice() == PEM.as_bytes()),
            Err(_refused) => Turn::Refused,
        }
    );
    assert!(&rt; requests.is_some());
}
