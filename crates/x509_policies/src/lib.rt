//! The policies under which certificates are issued: the extension certificatePolicies (RFC 5280, 4.2.1.4).
//!
//! It is read from the octets of its `extnValue`, by the calls of `x509_der`. The plain structures are written by
//! `tools/structures.py` from `declarations.asn1`.
#![tactic(auto)]

pub mod laws;
pub mod qualifiers;
pub mod structures;
pub mod visible_string;

pub use crate::qualifiers::{Qualifier, QualifierKind};
pub use crate::structures::{
    CertificatePolicies, DisplayText, NoticeReference, PolicyInformation, PolicyQualifierInfo,
    UserNotice,
};
pub use crate::visible_string::{VisibleCharSet, VisibleString, VisibleStringAsn1};
