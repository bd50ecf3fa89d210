//! What the encodings hold, field by field, as `openssl x509 -text` prints it.

use super::rows::{ACCESS, Heap, ISSUING_POINT, PLACES, POLICIES, value_of};
use refusing::Refusing;
use std::alloc::Allocator;
use std::process::Abort;
use x509_der::IntegerAsn1;
use x509_distribution_points::{
    CrlDistributionPoints, DistributionPoint, DistributionPointName, IssuingDistributionPoint,
    Reason, ReasonFlags,
};
use x509_more_extensions::{
    AccessDescription, AuthorityInfoAccess, PolicyConstraints, PolicyMapping, PolicyMappings,
};
use x509_names::GeneralName;
use x509_policies::{
    CertificatePolicies, DisplayText, NoticeReference, PolicyInformation, PolicyQualifierInfo,
    Qualifier,
};

/// Whether the name is this address.
fn is_uri<A: Allocator>(name: &GeneralName<A>, text: &str) -> bool {
    match name {
        GeneralName::Uri(uri) => uri.as_str() == text,
        _ => false,
    }
}

/// Whether the service of these arcs is found at this address.
fn is_access<A: Allocator>(
    access: Option<&AccessDescription<A>>,
    arcs: &[u64],
    text: &str,
) -> bool {
    match access {
        Some(access) => {
            access.access_method.0.is_arcs(arcs) && is_uri(&access.access_location, text)
        }
        None => false,
    }
}

fn accesses_over<A: Heap>(rt: &impl Abort, heap: A) {
    let access: AuthorityInfoAccess<A> = value_of(rt, heap, ACCESS);
    let ocsp = [1, 3, 6, 1, 5, 5, 7, 48, 1];
    let issuers = [1, 3, 6, 1, 5, 5, 7, 48, 2];
    assert!(rt; access.0.len() == 2);
    assert!(rt; is_access(access.0.get(0), &ocsp, "http://ocsp.example.com"));
    assert!(rt; is_access(access.0.get(1), &issuers, "http://ca.example.com/ca.cer"));
}

#[test]
fn accesses(rt: HostRuntime) {
    let heap = Refusing::new(rt.alloc());
    accesses_over(&rt, &heap);
}

/// Whether it is the list at these names, for two reasons, of this issuer.
fn is_full<A: Allocator>(point: Option<&DistributionPoint<A>>, text: &str) -> bool {
    match point {
        Some(point) => is_named(&point.distribution_point, text) && point.crl_issuer.is_some(),
        None => false,
    }
}

/// Whether the first of the names is this address.
fn is_named<A: Allocator>(name: &Option<DistributionPointName<A>>, text: &str) -> bool {
    match name {
        Some(DistributionPointName::FullName(names)) => match names.0.get(0) {
            Some(name) => is_uri(name, text),
            None => false,
        },
        _ => false,
    }
}

/// Whether the reasons are these two of all.
fn are_compromises<A: Allocator>(reasons: &Option<ReasonFlags<A>>) -> bool {
    match reasons {
        Some(reasons) => {
            reasons.has(Reason::KeyCompromise)
                && reasons.has(Reason::CaCompromise)
                && !reasons.has(Reason::Superseded)
        }
        None => false,
    }
}

/// How many attributes the relative name has; none where it is another.
fn attributes_of<A: Allocator>(point: Option<&DistributionPoint<A>>) -> Option<usize> {
    match point {
        Some(
            DistributionPoint {
                distribution_point: Some(DistributionPointName::NameRelativeToCrlIssuer(name)),
                ..
            },
        ) => Some(name.0.len()),
        _ => None,
    }
}

fn places_over<A: Heap>(rt: &impl Abort, heap: A) {
    let points: CrlDistributionPoints<A> = value_of(rt, heap, PLACES);
    assert!(rt; points.0.len() == 3);
    assert!(rt; is_full(points.0.get(0), "http://crl.example.com/all.crl"));
    assert!(rt; attributes_of(points.0.get(1)) == Some(1));
    assert!(rt; attributes_of(points.0.get(2)).is_none());
}

#[test]
fn places(rt: HostRuntime) {
    let heap = Refusing::new(rt.alloc());
    places_over(&rt, &heap);
}

fn reasons_over<A: Heap>(rt: &impl Abort, heap: A) {
    let issuing: IssuingDistributionPoint<A> = value_of(rt, heap, ISSUING_POINT);
    assert!(rt; is_named(&issuing.distribution_point, "http://crl.example.com/i.crl"));
    assert!(rt; are_compromises(&issuing.only_some_reasons));
    assert!(rt;
        issuing.only_contains_user_certs == Some(true) && issuing.indirect_crl == Some(true)
    );
    assert!(rt; issuing.only_contains_ca_certs.is_none());
}

#[test]
fn reasons(rt: HostRuntime) {
    let heap = Refusing::new(rt.alloc());
    reasons_over(&rt, &heap);
}

/// Whether the policy has these arcs and says so many things.
fn is_policy<A: Allocator>(
    policy: Option<&PolicyInformation<A>>,
    arcs: &[u64],
    says: usize,
) -> bool {
    match policy {
        Some(policy) => {
            policy.policy_identifier.0.is_arcs(arcs) && qualifiers_of(policy).len() == says
        }
        None => false,
    }
}

/// What the policy says.
fn qualifiers_of<A: Allocator>(policy: &PolicyInformation<A>) -> &[PolicyQualifierInfo<A>] {
    match &policy.policy_qualifiers {
        Some(qualifiers) => qualifiers.0.as_slice(),
        None => &[],
    }
}

/// What the policy says, read.
fn read_said<A: Heap>(heap: A, said: Option<&PolicyQualifierInfo<A>>) -> Option<Qualifier<A>> {
    match said?.read(heap) {
        Ok((said, _deviations)) => Some(said),
        Err(_refused) => None,
    }
}

/// Whether what the policy says is this address.
fn is_address<A: Allocator>(said: &Option<Qualifier<A>>, text: &str) -> bool {
    match said {
        Some(Qualifier::Cps(address)) => address.as_str() == text,
        _ => false,
    }
}

/// Whether what the policy says is a notice with this text and so many numbers.
fn is_notice<A: Allocator>(said: &Option<Qualifier<A>>, text: &str, numbers: usize) -> bool {
    match said {
        Some(Qualifier::UserNotice(notice)) => {
            is_text(&notice.explicit_text, text) && numbers_in(&notice.notice_ref) == numbers
        }
        _ => false,
    }
}

/// Whether it is this text, in UTF-8.
fn is_text<A: Allocator>(shown: &Option<DisplayText<A>>, text: &str) -> bool {
    match shown {
        Some(DisplayText::Utf8String(shown)) => shown.as_str() == text,
        _ => false,
    }
}

/// How many statements are named.
fn numbers_in<A: Allocator>(reference: &Option<NoticeReference<A>>) -> usize {
    match reference {
        Some(reference) => reference.notice_numbers.0.len(),
        None => 0,
    }
}

fn says_over<A: Heap>(rt: &impl Abort, heap: A, said: &[PolicyQualifierInfo<A>]) {
    let address = read_said(heap, said.get(0));
    assert!(rt; is_address(&address, "http://cps.example.com/"));
    let notice = read_said(heap, said.get(1));
    assert!(rt; is_notice(&notice, "Explicit Text Here", 3));
}

fn policies_over<A: Heap>(rt: &impl Abort, heap: A) {
    let policies: CertificatePolicies<A> = value_of(rt, heap, POLICIES);
    assert!(rt; is_policy(policies.0.get(0), &[2, 23, 140, 1, 2, 1], 0));
    assert!(rt; is_policy(policies.0.get(1), &[1, 3, 5, 8], 2));
    says_over(
        rt,
        heap,
        qualifiers_of(policies.0.get(1).expect(rt, "a policy")),
    );
}

#[test]
fn policies(rt: HostRuntime) {
    let heap = Refusing::new(rt.alloc());
    policies_over(&rt, &heap);
}

/// Whether the first mapping has these policies.
fn is_mapping<A: Allocator>(
    mapping: Option<&PolicyMapping<A>>,
    issuer: &[u64],
    subject: &[u64],
) -> bool {
    match mapping {
        Some(mapping) => {
            mapping.issuer_domain_policy.0.is_arcs(issuer)
                && mapping.subject_domain_policy.0.is_arcs(subject)
        }
        None => false,
    }
}

fn mappings_over<A: Heap>(rt: &impl Abort, heap: A) {
    let mappings: PolicyMappings<A> = value_of(rt, heap, "300c300a06032a030406032a0305");
    assert!(rt; is_mapping(mappings.0.get(0), &[1, 2, 3, 4], &[1, 2, 3, 5]));
    let constraints: PolicyConstraints<A> = value_of(rt, heap, "3006800103810100");
    assert!(rt; is_number(&constraints.require_explicit_policy, 3));
    assert!(rt; is_number(&constraints.inhibit_policy_mapping, 0));
}

/// Whether the number is there, and this one.
fn is_number<A: Allocator>(number: &Option<IntegerAsn1<A>>, wanted: u64) -> bool {
    match number {
        Some(number) => number.to_u64() == Some(wanted),
        None => false,
    }
}

#[test]
fn mappings(rt: HostRuntime) {
    let heap = Refusing::new(rt.alloc());
    mappings_over(&rt, &heap);
}
