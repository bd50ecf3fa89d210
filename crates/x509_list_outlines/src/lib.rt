//! Outlines of revocation lists: their frames alone are read, so that algorithms, attributes and extensions may be of any
//! kind.
#![tactic(auto)]

pub mod certificate_list_outline;
mod extension_lists;
pub mod laws;
mod required_fields;
pub mod revoked_certificate_outline;
pub mod tbs_cert_list_outline;

pub use crate::certificate_list_outline::CertificateListOutline;
pub use crate::revoked_certificate_outline::RevokedCertificateOutline;
pub use crate::tbs_cert_list_outline::TbsCertListOutline;
