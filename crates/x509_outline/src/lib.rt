//! Outlines of certificates: their frames alone are read, so that algorithms, attributes, keys and extensions may be of any
//! kind.
#![tactic(auto)]

pub mod certificate_outline;
pub mod laws;
mod required_fields;
pub mod sequences;
pub mod signed_read;
pub mod tbs_certificate_outline;

pub use crate::certificate_outline::CertificateOutline;
pub use crate::signed_read::{SignedPart, SignedRead};
pub use crate::tbs_certificate_outline::TbsCertificateOutline;
pub use x509_outline_parts::{
    AlgorithmOutline, AttributeOutline, AttributeValuesOutline, ExtensionOutline,
    ExtensionsOutline, NameOutline, PublicKeyOutline, RelativeNameOutline,
};
