//! Public keys and their algorithms.

pub use x509_keys::{
    EcPoint, EncapsulatedEcPoint, EncapsulatedMldsaPublicKey, EncapsulatedRsaPublicKey, PublicKey,
    RsaPublicKey, SubjectPublicKeyInfo,
};
