//! Extensions beside those of RFC 5280 that certificates have: what is stated of qualified certificates (RFC 3739, 3.2.6),
//! attributes of the subject (RFC 5280, 4.2.1.8), and those of Netscape and Microsoft.
//!
//! Each is read from the octets of its `extnValue`, by the calls of `x509_der`. The plain structures are written by
//! `tools/structures.py` from `declarations.asn1`.
#![tactic(auto)]

pub mod cert_type;
pub mod laws;
pub mod structures;
pub mod template;

pub use crate::cert_type::{CertUse, NetscapeCertType};
pub use crate::structures::{
    DirectoryAttribute, QcStatement, QcStatements, SubjectDirectoryAttributes,
};
pub use crate::template::CertificateTemplate;
use std::alloc::Global;
use x509_prim::{BmpStringAsn1, Ia5StringAsn1};

/// What is to be shown to whoever looks at a certificate.
///
/// # Encoding
/// `netscape-comment`, 2.16.840.1.113730.1.13: an IA5String (Netscape Certificate Extensions).
pub type NetscapeComment<A = Global> = Ia5StringAsn1<A>;

/// The name of the template by which an authority of Microsoft's issued a certificate.
///
/// # Encoding
/// 1.3.6.1.4.1.311.20.2: a BMPString (MS-WCCE, 2.2.2.7.7.1).
pub type TemplateName<A = Global> = BmpStringAsn1<A>;
