//! The algorithms of signatures by their names, as `AlgorithmIdentifier` in DER.
#![tactic(auto)]

pub mod by_name;
mod parameters;

pub use crate::by_name::{NotNamed, signature_algorithm_by_name};
