//! The text of an object identifier, and its name, in a buffer of the caller's, by the content of its OBJECT IDENTIFIER.
//! No call takes memory.
#![tactic(auto)]

mod decimal;
pub mod name;
mod put;
pub mod text;

pub use crate::name::name_in;
pub use crate::text::{NoText, oid_text};
