//! Where the fields of outlines stand in the bytes that were read: of certificates, requests, private keys and
//! revocation lists, of any algorithm. Each call checks the bytes, walks over the elements that its type is made of, and takes no memory.
#![tactic(auto)]

pub mod certificate;
pub mod list;
pub mod private_key;
pub mod request;

pub use crate::certificate::fields_of_certificate;
pub use crate::list::{CertificateListFields, TbsCertListFields, fields_of_list};
pub use crate::private_key::fields_of_private_key;
pub use crate::request::fields_of_request;
