//! CertificatePolicies, written by `tools/structures.py` from `declarations.asn1`.

use crate::structures::PolicyInformation;
use std::alloc::Global;
use x509_der::Asn1SequenceOf;

/// The policies under which a certificate is issued, or for which an authority may issue (RFC 5280, 4.2.1.4). An empty
/// list is read too, and one that has a policy twice.
///
/// # Encoding
/// `CertificatePolicies ::= SEQUENCE SIZE (1..MAX) OF PolicyInformation`.
pub type CertificatePolicies<A = Global> = Asn1SequenceOf<PolicyInformation<A>, A>;
