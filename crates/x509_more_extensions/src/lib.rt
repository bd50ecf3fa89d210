//! Extensions of certificates that the port keeps as octets: where services are found, policies that are mapped and
//! asked for, constraints on names, and when a private key is used (RFC 5280, 4.2).
//!
//! Each is read from the octets of its `extnValue`, by the calls of `x509_der`. They are plain structures, and written by
//! `tools/structures.py` from `declarations.asn1`.
#![tactic(auto)]

pub mod laws;
pub mod oids;
pub mod structures;

pub use crate::structures::{
    AccessDescription, AuthorityInfoAccess, GeneralSubtree, GeneralSubtrees, NameConstraints,
    PolicyConstraints, PolicyMapping, PolicyMappings, PrivateKeyUsagePeriod, SubjectInfoAccess,
};
use std::alloc::Global;
use x509_der::IntegerAsn1;

/// How many certificates further on a path the policy 2.5.29.32.0, any policy, counts no more (RFC 5280, 4.2.1.14).
///
/// # Encoding
/// `InhibitAnyPolicy ::= SkipCerts`, where `SkipCerts ::= INTEGER (0..MAX)`. A negative number is read too.
pub type InhibitAnyPolicy<A = Global> = IntegerAsn1<A>;
