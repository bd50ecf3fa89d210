//! The version of a certificate.

pub use x509_names::Version;
