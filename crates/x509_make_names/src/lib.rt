//! Names and general names of a description in JSON as elements (RFC 5280, 4.1.2.4 and 4.2.1.6).
#![tactic(auto)]

pub mod attributes;
pub mod general_names;
mod line;
pub mod names;
mod other_names;
mod sets;
