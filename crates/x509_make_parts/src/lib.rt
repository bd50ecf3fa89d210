//! What descriptions in JSON are written by as elements in DER: the bytes so far and the place of the description,
//! its nodes and their members, and what is wrong with it.
#![tactic(auto)]

pub mod fault;
mod lent;
pub mod maker;
pub mod marks;
pub mod node;
pub mod place;
pub mod write;

pub use crate::fault::{Done, Fault};
pub use crate::maker::Maker;
pub use crate::marks::Marks;
pub use crate::place::Place;
