//! Where revocation lists are found: the extensions cRLDistributionPoints and freshestCRL of certificates (RFC 5280,
//! 4.2.1.13 and 4.2.1.15), and issuingDistributionPoint of the lists (5.2.5).
//!
//! Each is read from the octets of its `extnValue`, by the calls of `x509_der`. The plain structures are written by
//! `tools/structures.py` from `declarations.asn1`.
#![tactic(auto)]

pub mod laws;
pub mod reason_flags;
pub mod structures;

pub use crate::reason_flags::{Reason, ReasonFlags};
pub use crate::structures::{
    CrlDistributionPoints, DistributionPoint, DistributionPointName, IssuingDistributionPoint,
};
use std::alloc::Global;

/// Where lists of what was revoked since a complete list are found.
///
/// # Encoding
/// `FreshestCRL ::= CRLDistributionPoints` (RFC 5280, 4.2.1.15).
pub type FreshestCrl<A = Global> = CrlDistributionPoints<A>;
