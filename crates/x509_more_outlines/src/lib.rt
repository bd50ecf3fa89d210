//! Outlines of requests for certificates and of private keys: their frames alone are read, so that algorithms, attributes
//! and keys may be of any kind.
#![tactic(auto)]

pub mod laws;
pub mod private_key_outline;
pub mod public_bits_outline;
pub mod request_info_outline;
pub mod request_outline;

pub use crate::private_key_outline::PrivateKeyOutline;
pub use crate::public_bits_outline::PublicBitsOutline;
pub use crate::request_info_outline::RequestInfoOutline;
pub use crate::request_outline::RequestOutline;
