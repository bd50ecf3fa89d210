//! Private keys and their algorithms.

pub use x509_keys::{
    ECPrivateKey, EncapsulatedEcSecret, PRIVATE_KEY_INFO_VERSION_1, PRIVATE_KEY_INFO_VERSION_2,
    PrivateKeyInfo, PrivateKeyValue, RsaPrivateKey,
};
