//! Object identifiers themselves.

pub use x509_der::{ObjectIdentifier, ObjectIdentifierAsn1, OidError};
