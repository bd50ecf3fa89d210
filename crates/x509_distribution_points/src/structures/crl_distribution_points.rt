//! CrlDistributionPoints, written by `tools/structures.py` from `declarations.asn1`.

use crate::structures::DistributionPoint;
use std::alloc::Global;
use x509_der::Asn1SequenceOf;

/// Where revocation lists of the certificate are found (RFC 5280, 4.2.1.13). An empty list is read too.
///
/// # Encoding
/// `CRLDistributionPoints ::= SEQUENCE SIZE (1..MAX) OF DistributionPoint`.
pub type CrlDistributionPoints<A = Global> = Asn1SequenceOf<DistributionPoint<A>, A>;
