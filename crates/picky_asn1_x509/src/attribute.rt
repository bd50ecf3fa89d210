//! Attributes of requests and of signed messages.

pub use picky_asn1_x509_parts::{Attribute, AttributeValues, Attributes};
