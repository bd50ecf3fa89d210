//! QcStatements, written by `tools/structures.py` from `declarations.asn1`.

use crate::structures::QcStatement;
use std::alloc::Global;
use x509_der::Asn1SequenceOf;

/// What is stated of a certificate: of a qualified one, mostly in the words of ETSI EN 319 412-5 (RFC 3739, 3.2.6). An
/// empty list is read too.
///
/// # Encoding
/// `QCStatements ::= SEQUENCE OF QCStatement`.
pub type QcStatements<A = Global> = Asn1SequenceOf<QcStatement<A>, A>;
