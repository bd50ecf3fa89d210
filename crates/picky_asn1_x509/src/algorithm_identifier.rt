//! Algorithms, by their object identifiers, and their parameters.

pub use x509_keys::{
    AesAuthEncParams, AesMode, AesParameters, AlgorithmError, AlgorithmIdentifier,
    AlgorithmIdentifierParameters, DigestInfo, EcParameters, HashAlgorithm, MaskGenAlgorithm,
    RawAlgorithmIdentifier, RsassaPssParams, ShaVariant, UnsupportedAlgorithmError,
};
