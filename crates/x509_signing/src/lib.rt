//! What signers outside of a program give and need: signatures of ECDSA in the form that X.509 has, and the algorithm that a
//! certificate's signed part names.
#![tactic(auto)]

mod elements;
pub mod raw_signature;
pub mod signature_field;

pub use crate::raw_signature::{NotConverted, ecdsa_signature};
pub use crate::signature_field::signature_algorithm;
