//! Certificates and requests of OpenSSL, taken apart at its `asn1parse` and put together again, and what is refused.

use refusing::{Refusing, Turn, in_turn};
use std::alloc::Global;
use std::process::Abort;
use x509_der::{ReadError, Refused};
use x509_make::{NotAssembled, certificate, request};

/// What was signed, the algorithm, the signature, and the whole, in hexadecimal.
#[derive(Clone, Copy, Drop)]
struct Row {
    part: &'static str,
    algorithm: &'static str,
    signature: &'static str,
    whole: &'static str,
}

/// By `openssl req -x509` with a key of Ed25519.
const ED25519: Row = Row {
    part: "30818702144b3a521914715ab0a7abf2005eb1f831045ff9bb300506032b6570300c310a300806035504030c01613020170d3236313132383136313331365a180f32313236313130343136313331365a300c310a300806035504030c0161302a300506032b65700321008f2d1275ac585958618d0bf42f3d3d978e3a9c29e3bdd367231cc9e71faeabcb",
    algorithm: "300506032b6570",
    signature: "2a8d2a5e99facd2130b942db9d9ea220149ea37a79c9d35a6f8e09a636c7c60c4a238a8e34e9f09dd4f631a36c1bdc0c172726eccc099665440eca6a89c51207",
    whole: "3081d430818702144b3a521914715ab0a7abf2005eb1f831045ff9bb300506032b6570300c310a300806035504030c01613020170d3236313132383136313331365a180f32313236313130343136313331365a300c310a300806035504030c0161302a300506032b65700321008f2d1275ac585958618d0bf42f3d3d978e3a9c29e3bdd367231cc9e71faeabcb300506032b65700341002a8d2a5e99facd2130b942db9d9ea220149ea37a79c9d35a6f8e09a636c7c60c4a238a8e34e9f09dd4f631a36c1bdc0c172726eccc099665440eca6a89c51207",
};

/// By `openssl req -x509 -sha256` with a key on P-256.
const ECDSA: Row = Row {
    part: "3081bb0214434288ebe76f9974317a0d309bb728074e973482300a06082a8648ce3d040302300c310a300806035504030c01613020170d3236313132383136313331365a180f32313236313130343136313331365a300c310a300806035504030c01613059301306072a8648ce3d020106082a8648ce3d03010703420004f3d2877df568bc9a2e1d743184079d60954842b61ac2a2b5d945a0ee3d6db6e37e4052854c096548d0956354b73fb508814d13f014d5402a01510cd8b152a63f",
    algorithm: "300a06082a8648ce3d040302",
    signature: "30450220712b5539c980a288265c90404126b89c24fa03b19ed4511ca54df7e5debdbc52022100cf076347ed91a144a52ead1e22605474c5826b20ade47145885839498265aba7",
    whole: "308201143081bb0214434288ebe76f9974317a0d309bb728074e973482300a06082a8648ce3d040302300c310a300806035504030c01613020170d3236313132383136313331365a180f32313236313130343136313331365a300c310a300806035504030c01613059301306072a8648ce3d020106082a8648ce3d03010703420004f3d2877df568bc9a2e1d743184079d60954842b61ac2a2b5d945a0ee3d6db6e37e4052854c096548d0956354b73fb508814d13f014d5402a01510cd8b152a63f300a06082a8648ce3d04030203480030450220712b5539c980a288265c90404126b89c24fa03b19ed4511ca54df7e5debdbc52022100cf076347ed91a144a52ead1e22605474c5826b20ade47145885839498265aba7",
};

/// By `openssl req -new -sha384` with a key on P-256.
const REQUEST: Row = Row {
    part: "306e020100300c310a300806035504030c01613059301306072a8648ce3d020106082a8648ce3d03010703420004f3d2877df568bc9a2e1d743184079d60954842b61ac2a2b5d945a0ee3d6db6e37e4052854c096548d0956354b73fb508814d13f014d5402a01510cd8b152a63fa000",
    algorithm: "300a06082a8648ce3d040303",
    signature: "30460221008697d5d338ba37db2fe62c99fa0c2c9b3268c579328340237047747fb154f5f5022100b0a839d909b484ad916a7895c991efd74e8409c0d4e252c2f12dd86c498c1eef",
    whole: "3081c7306e020100300c310a300806035504030c01613059301306072a8648ce3d020106082a8648ce3d03010703420004f3d2877df568bc9a2e1d743184079d60954842b61ac2a2b5d945a0ee3d6db6e37e4052854c096548d0956354b73fb508814d13f014d5402a01510cd8b152a63fa000300a06082a8648ce3d04030303490030460221008697d5d338ba37db2fe62c99fa0c2c9b3268c579328340237047747fb154f5f5022100b0a839d909b484ad916a7895c991efd74e8409c0d4e252c2f12dd86c498c1eef",
};

/// The bytes of hexadecimal digits.
fn bytes(rt: &impl Abort, alloc: Global, digits: &str) -> Vec<u8> {
    hex::decode(alloc, digits).expect(rt, "hexadecimal")
}

/// The parts of a certificate give it, and want of memory where a request is refused.
fn gives_certificate(rt: &impl Abort, alloc: Global, row: &Row) {
    let heap = Refusing::new(alloc);
    let part = bytes(rt, alloc, row.part);
    let algorithm = bytes(rt, alloc, row.algorithm);
    let signature = bytes(rt, alloc, row.signature);
    let whole = bytes(rt, alloc, row.whole);
    let requests = in_turn!(
        heap,
        match certificate(&heap, &part, &algorithm, &signature) {
            Ok(made) => Turn::right(made.as_slice() == whole.as_slice()),
            Err(NotAssembled::OutOfMemory) => Turn::Refused,
            Err(_other) => Turn::Wrong,
        }
    );
    assert!(rt; requests == Some(1));
}

#[test]
fn certificates_are_put_together(rt: HostRuntime) {
    gives_certificate(&rt, rt.alloc(), &ED25519);
    gives_certificate(&rt, rt.alloc(), &ECDSA);
}

#[test]
fn requests_are_put_together(rt: HostRuntime) {
    let alloc = rt.alloc();
    let part = bytes(&rt, alloc, REQUEST.part);
    let algorithm = bytes(&rt, alloc, REQUEST.algorithm);
    let signature = bytes(&rt, alloc, REQUEST.signature);
    let whole = bytes(&rt, alloc, REQUEST.whole);
    let made = request(alloc, &part, &algorithm, &signature).expect(&rt, "a request");
    assert!(rt; made.as_slice() == whole.as_slice());
}

/// The parts are refused for this.
fn refuses(rt: &impl Abort, alloc: Global, row: &Row, why: NotAssembled) {
    let part = bytes(rt, alloc, row.part);
    let algorithm = bytes(rt, alloc, row.algorithm);
    let signature = bytes(rt, alloc, row.signature);
    match certificate(alloc, &part, &algorithm, &signature) {
        Ok(_made) => assert!(rt; false, "it is made"),
        Err(error) => assert!(rt; error == why),
    }
}

#[test]
fn parts_that_are_none_are_refused(rt: HostRuntime) {
    let truncated = Refused {
        error: ReadError::Truncated,
        at: 0,
    };
    let alloc = rt.alloc();
    let no_part = Row {
        part: "3003",
        ..ED25519
    };
    refuses(&rt, alloc, &no_part, NotAssembled::Part(truncated));
    let no_algorithm = Row {
        algorithm: "300506032b657000",
        ..ED25519
    };
    let left_over = Refused {
        error: ReadError::LeftOver,
        at: 7,
    };
    refuses(
        &rt,
        alloc,
        &no_algorithm,
        NotAssembled::Algorithm(left_over),
    );
}

#[test]
fn algorithms_that_deviate_are_refused(rt: HostRuntime) {
    // sha256WithRSAEncryption without its NULL
    let deviating = Row {
        algorithm: "300b06092a864886f70d01010b",
        ..ED25519
    };
    refuses(&rt, rt.alloc(), &deviating, NotAssembled::AlgorithmDeviates);
}

#[test]
fn signatures_in_another_form_are_refused(rt: HostRuntime) {
    // r and s as a hardware module gives them, without the SEQUENCE of RFC 3279: what stands there is cut short
    let raw = Row {
        signature: "712b5539c980a288cf076347ed91a144",
        ..ECDSA
    };
    let truncated = Refused {
        error: ReadError::Truncated,
        at: 0,
    };
    refuses(&rt, rt.alloc(), &raw, NotAssembled::Signature(truncated));
}
