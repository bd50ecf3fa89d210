//! SubjectInfoAccess, written by `tools/structures.py` from `declarations.asn1`.

use crate::structures::AccessDescription;
use std::alloc::Global;
use x509_der::Asn1SequenceOf;

/// Where services of the subject are found (RFC 5280, 4.2.2.2). An empty list is read too.
///
/// # Encoding
/// `SubjectInfoAccessSyntax ::= SEQUENCE SIZE (1..MAX) OF AccessDescription`.
pub type SubjectInfoAccess<A = Global> = Asn1SequenceOf<AccessDescription<A>, A>;
