//! The times between which a certificate is valid.

pub use x509_names::{Time, Validity};
