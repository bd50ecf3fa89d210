//! Algorithms and private keys of a description in JSON as elements, by their fields.
#![tactic(auto)]

pub mod algorithms;
pub mod members;
pub mod private_keys;
