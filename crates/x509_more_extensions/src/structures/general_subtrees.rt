//! GeneralSubtrees, written by `tools/structures.py` from `declarations.asn1`.

use crate::structures::GeneralSubtree;
use std::alloc::Global;
use x509_der::Asn1SequenceOf;

/// The names below each of several names (RFC 5280, 4.2.1.10). An empty list is read too.
///
/// # Encoding
/// `GeneralSubtrees ::= SEQUENCE SIZE (1..MAX) OF GeneralSubtree`.
pub type GeneralSubtrees<A = Global> = Asn1SequenceOf<GeneralSubtree<A>, A>;
