//! Where the fields of certificates, requests, private keys and extensions stand in the bytes that were read. Each call
//! walks over the elements that its type is made of, and takes no memory.
#![tactic(auto)]

pub mod certificate;
pub mod extension;
pub mod extension_list;
pub mod private_key;
pub mod request;
pub mod span;
pub mod walk;

pub use crate::certificate::{CertificateFields, TbsCertificateFields};
pub use crate::extension::ExtensionFields;
pub use crate::extension_list::{
    certificate_extensions, certificate_items, listed_extensions, listed_items,
};
pub use crate::private_key::PrivateKeyInfoFields;
pub use crate::request::{CertificationRequestFields, CertificationRequestInfoFields};
pub use crate::span::Span;
pub use crate::walk::Walk;
