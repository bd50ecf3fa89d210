//! What rules ask of parts of certificates that takes memory to tell: whether sets are in the order of DER, and whether
//! an extension stands twice.
#![tactic(auto)]

pub mod order;
pub mod repeat;

pub use crate::order::has_unsorted;
pub use crate::repeat::repeats;
