//! SubjectDirectoryAttributes, written by `tools/structures.py` from `declarations.asn1`.

use crate::structures::DirectoryAttribute;
use std::alloc::Global;
use x509_der::Asn1SequenceOf;

/// Attributes of the subject (RFC 5280, 4.2.1.8). An empty list is read too.
///
/// # Encoding
/// `SubjectDirectoryAttributes ::= SEQUENCE SIZE (1..MAX) OF Attribute`.
pub type SubjectDirectoryAttributes<A = Global> = Asn1SequenceOf<DirectoryAttribute<A>, A>;
