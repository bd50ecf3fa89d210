//! The object identifiers that names stand for, as the standards spell these, and that are written with dots.
#![tactic(auto)]

pub mod algorithms;
pub mod by_name;
pub mod further;
pub mod objects;
pub mod table;

pub use crate::by_name::{arcs_by_name, oid_by_name};
