//! Descriptions that a command line gives, and what is made of them.
#![tactic(auto)]

pub mod completed;
pub mod members;
pub mod texts;

pub use crate::completed::made;
pub use x509_make_whole::{Made, NotMade};
