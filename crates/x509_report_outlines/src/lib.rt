//! Reports of outlines: what stands in certificates, requests, keys and revocation lists of which the frame alone is read,
//! whatever algorithms, attributes and keys stand in them.
//!
//! What the port reads of the parts is told as it tells it: algorithms, public keys, attributes, extensions. What it
//! doesn't is marked as not read: an algorithm by its object identifier, and beside it the octets in hexadecimal.
#![tactic(auto)]

mod algorithm;
mod attribute;
mod certificate;
mod entry;
mod extension;
mod input;
mod key;
mod list;
mod list_extension;
mod name;
mod private_key;
mod public_key;
mod request;

pub use crate::certificate::CertificateReport;
pub use crate::entry::{Entries, is_serial};
pub use crate::key::Keyholder;
pub use crate::list::ListReport;
pub use crate::private_key::PrivateKeyReport;
pub use crate::public_key::PublicKeyReport;
pub use crate::request::RequestReport;
