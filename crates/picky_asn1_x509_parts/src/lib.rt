//! Extensions of certificates, key usage and constraints; `picky_asn1_x509` passes them on.
#![tactic(auto)]

pub mod attribute;
pub mod authority_key_identifier;
pub mod basic_constraints;
pub mod extended_key_usage;
pub mod extension;
mod extension_value;
mod extension_view;
pub mod extensions;
pub mod key_identifier;
pub mod key_usage;
pub mod laws;
mod matching_fields;

pub use crate::attribute::{Attribute, AttributeValues, Attributes};
pub use crate::authority_key_identifier::AuthorityKeyIdentifier;
pub use crate::basic_constraints::BasicConstraints;
pub use crate::extended_key_usage::ExtendedKeyUsage;
pub use crate::extension::{Extension, ExtensionView};
pub use crate::extensions::Extensions;
pub use crate::key_identifier::{KeyIdentifier, SubjectKeyIdentifier};
pub use crate::key_usage::KeyUsage;
