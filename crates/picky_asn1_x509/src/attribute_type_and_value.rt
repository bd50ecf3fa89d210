//! Attributes of names.

pub use x509_names::{AttributeTypeAndValue, AttributeTypeAndValueParameters};
