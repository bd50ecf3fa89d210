//! AuthorityInfoAccess, written by `tools/structures.py` from `declarations.asn1`.

use crate::structures::AccessDescription;
use std::alloc::Global;
use x509_der::Asn1SequenceOf;

/// Where services of the issuer are found: its certificates, and the status of those that it issued (RFC 5280,
/// 4.2.2.1). An empty list is read too.
///
/// # Encoding
/// `AuthorityInfoAccessSyntax ::= SEQUENCE SIZE (1..MAX) OF AccessDescription`.
pub type AuthorityInfoAccess<A = Global> = Asn1SequenceOf<AccessDescription<A>, A>;
