//! What ties outlines to the types that they are outlines of.
#![tactic(auto)]

pub mod laws;
