//! Algorithm identifiers.
#![tactic(auto)]

pub mod aes;
pub mod aes_auth_enc;
pub mod algorithm_identifier;
pub mod algorithm_parameters;
pub mod digest_info;
pub mod ec_parameters;
pub mod errors;
pub mod hash_algorithm;
pub mod key_kind;
pub mod laws;
pub mod makers;
mod pss_form;
pub mod raw_algorithm_identifier;
pub mod rsassa_pss;
mod salt;
mod salt_length;
pub mod sha_variant;

pub use crate::aes::{AesMode, AesParameters};
pub use crate::aes_auth_enc::AesAuthEncParams;
pub use crate::algorithm_identifier::AlgorithmIdentifier;
pub use crate::algorithm_parameters::AlgorithmIdentifierParameters;
pub use crate::digest_info::DigestInfo;
pub use crate::ec_parameters::EcParameters;
pub use crate::errors::{AlgorithmError, UnsupportedAlgorithmError};
pub use crate::hash_algorithm::HashAlgorithm;
pub use crate::raw_algorithm_identifier::RawAlgorithmIdentifier;
pub use crate::rsassa_pss::{MaskGenAlgorithm, RsassaPssParams};
pub use crate::sha_variant::ShaVariant;
