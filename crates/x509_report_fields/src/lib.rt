//! How names, algorithm identifiers and public keys are told to a sink, and what is said of them on one line.
#![tactic(auto)]

pub mod algorithm;
pub mod column;
pub mod key;
pub mod name;
pub mod number;
