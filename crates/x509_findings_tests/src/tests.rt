//! Certificates and a request that were encoded by hand, and whose fields stand where OpenSSL's `asn1parse` says.

mod memory;

use picky_asn1_x509::{Certificate, CertificationRequest, from_bytes};
use std::alloc::{AllocError, Global};
use std::process::Abort;
use x509_fields::Span;
use x509_findings::{Finding, Findings, RequestFindings, Rule};

/// A certificate in hexadecimal, the one rule that it breaks, and where.
#[derive(Clone, Copy, Drop)]
struct Row {
    whole: &'static str,
    rule: Rule,
    at: Span,
}

/// One that keeps all rules.
const KEPT: &str =
    "308201143081c7a003020102020101300506032b65703011310f300d06035504030c06697373756572301e170d3230303130313030303030305a170d3439303130313030303030305a30123110300e06035504030c077375626a656374302a300506032b6570032100000102030405060708090a0b0c0d0e0f101112131415161718191a1b1c1d1e1fa3433041300f0603551d130101ff040530030101ff300e0603551d0f0101ff040403020106300d0603551d0e0406040401020304300f0603551d2304083006800401020304300506032b657003410000000000000000000000000000000000000000000000000000000000000000000000000000000000000000000000000000000000000000000000000000000000";

const ROWS: [Row; 4] = [
    // serial number 0
    Row {
        whole: "308201143081c7a003020102020100300506032b65703011310f300d06035504030c06697373756572301e170d3230303130313030303030305a170d3439303130313030303030305a30123110300e06035504030c077375626a656374302a300506032b6570032100000102030405060708090a0b0c0d0e0f101112131415161718191a1b1c1d1e1fa3433041300f0603551d130101ff040530030101ff300e0603551d0f0101ff040403020106300d0603551d0e0406040401020304300f0603551d2304083006800401020304300506032b657003410000000000000000000000000000000000000000000000000000000000000000000000000000000000000000000000000000000000000000000000000000000000",
        rule: Rule::SerialNotPositive,
        at: Span { start: 12, end: 15 },
    },
    // an issuer without a name
    Row {
        whole: "308201033081b6a003020102020101300506032b65703000301e170d3230303130313030303030305a170d3439303130313030303030305a30123110300e06035504030c077375626a656374302a300506032b6570032100000102030405060708090a0b0c0d0e0f101112131415161718191a1b1c1d1e1fa3433041300f0603551d130101ff040530030101ff300e0603551d0f0101ff040403020106300d0603551d0e0406040401020304300f0603551d2304083006800401020304300506032b657003410000000000000000000000000000000000000000000000000000000000000000000000000000000000000000000000000000000000000000000000000000000000",
        rule: Rule::IssuerEmpty,
        at: Span { start: 22, end: 24 },
    },
    // another algorithm beside the signature
    Row {
        whole: "308201143081c7a003020102020101300506032b65703011310f300d06035504030c06697373756572301e170d3230303130313030303030305a170d3439303130313030303030305a30123110300e06035504030c077375626a656374302a300506032b6570032100000102030405060708090a0b0c0d0e0f101112131415161718191a1b1c1d1e1fa3433041300f0603551d130101ff040530030101ff300e0603551d0f0101ff040403020106300d0603551d0e0406040401020304300f0603551d2304083006800401020304300506032b657103410000000000000000000000000000000000000000000000000000000000000000000000000000000000000000000000000000000000000000000000000000000000",
        rule: Rule::AlgorithmsDiffer,
        at: Span { start: 15, end: 22 },
    },
    // a usage of eight bits, of which the last is unset
    Row {
        whole: "3081f53081a8a003020102020101300506032b65703011310f300d06035504030c06697373756572301e170d3230303130313030303030305a170d3439303130313030303030305a30123110300e06035504030c077375626a656374302a300506032b6570032100000102030405060708090a0b0c0d0e0f101112131415161718191a1b1c1d1e1fa3243022300f0603551d0f0101ff04050303078000300f0603551d2304083006800401020304300506032b657003410000000000000000000000000000000000000000000000000000000000000000000000000000000000000000000000000000000000000000000000000000000000",
        rule: Rule::KeyUsagePadded,
        at: Span {
            start: 136,
            end: 174,
        },
    },
];

/// What is found next, if memory isn't refused.
type Found = Result<Option<Finding>, AllocError>;

/// What is found first in a certificate, and then.
fn first_two(rt: &impl Abort, alloc: Global, digits: &str) -> (Found, Found) {
    let bytes = hex::decode(alloc, digits).expect(rt, "hexadecimal");
    let certificate: Certificate = from_bytes(alloc, &bytes).expect(rt, "a certificate");
    let mut findings = Findings::of(alloc, &certificate, &bytes);
    let first = findings.next();
    let second = findings.next();
    drop(findings);
    drop(certificate);
    (first, second)
}

#[test]
fn a_rule_is_told_where_it_is_broken(rt: HostRuntime) {
    for row in &ROWS {
        let (first, second) = first_two(&rt, rt.alloc(), row.whole);
        let wanted = Finding {
            rule: row.rule,
            at: row.at,
        };
        assert!(rt; first == Ok(Some(wanted)));
        assert!(rt; second == Ok(None));
    }
}

#[test]
fn nothing_is_found_where_all_rules_are_kept(rt: HostRuntime) {
    let (first, _second) = first_two(&rt, rt.alloc(), KEPT);
    assert!(rt; first == Ok(None));
}

/// A request whose subject has two common names, b in front of a, in one set, and which asks for a usage of two bits, of which
/// the last is unset.
const REQUEST: &str =
    "3081b6306a02010030163114300806035504030c0162300806035504030c0161302a300506032b6570032100000102030405060708090a0b0c0d0e0f101112131415161718191a1b1c1d1e1fa021301f06092a864886f70d01090e31123010300e0603551d0f0101ff040403020680300506032b657003410000000000000000000000000000000000000000000000000000000000000000000000000000000000000000000000000000000000000000000000000000000000";

/// What is found first in a request, then, and at last.
fn first_three(rt: &impl Abort, alloc: Global, digits: &str) -> (Found, Found, Found) {
    let bytes = hex::decode(alloc, digits).expect(rt, "hexadecimal");
    let request: CertificationRequest = from_bytes(alloc, &bytes).expect(rt, "a request");
    let mut findings = RequestFindings::of(alloc, &request, &bytes);
    let told = (findings.next(), findings.next(), findings.next());
    drop(findings);
    drop(request);
    told
}

#[test]
fn rules_are_told_where_a_request_breaks_them(rt: HostRuntime) {
    let (first, second, third) = first_three(&rt, rt.alloc(), REQUEST);
    let order = Finding {
        rule: Rule::SubjectSetOrder,
        at: Span { start: 8, end: 32 },
    };
    let usage = Finding {
        rule: Rule::KeyUsagePadded,
        at: Span {
            start: 76,
            end: 111,
        },
    };
    assert!(rt; first == Ok(Some(order)));
    assert!(rt; second == Ok(Some(usage)));
    assert!(rt; third == Ok(None));
}
