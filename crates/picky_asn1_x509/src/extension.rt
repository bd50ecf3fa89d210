//! Extensions and what they hold.

pub use picky_asn1_x509_parts::{
    AuthorityKeyIdentifier, BasicConstraints, ExtendedKeyUsage, Extension, ExtensionView,
    Extensions, KeyIdentifier, KeyUsage, SubjectKeyIdentifier,
};
