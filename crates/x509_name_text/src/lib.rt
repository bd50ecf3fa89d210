//! The text of a name by RFC 4514, in a buffer of the caller's. No call takes memory.
#![tactic(auto)]

mod attribute;
mod put;
pub mod text;
mod utf16;
mod value;

pub use crate::text::name_text;
