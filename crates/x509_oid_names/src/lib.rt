//! The names of object identifiers, as the standards spell them.
#![tactic(auto)]

pub mod itu;
pub mod members;
pub mod name;
pub mod organizations;
pub mod table;

pub use crate::name::name_of;
