//! Strings of names.

pub use x509_names::DirectoryString;
