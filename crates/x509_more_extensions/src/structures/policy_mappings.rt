//! PolicyMappings, written by `tools/structures.py` from `declarations.asn1`.

use crate::structures::PolicyMapping;
use std::alloc::Global;
use x509_der::Asn1SequenceOf;

/// The policies that an authority takes for equivalent (RFC 5280, 4.2.1.5). An empty list is read too.
///
/// # Encoding
/// `PolicyMappings ::= SEQUENCE SIZE (1..MAX) OF PolicyMapping`.
pub type PolicyMappings<A = Global> = Asn1SequenceOf<PolicyMapping<A>, A>;
