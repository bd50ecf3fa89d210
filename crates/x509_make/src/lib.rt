//! Signed structures put together by who has the signature: from a library of another language, a hardware module or a
//! key service.
#![tactic(auto)]

pub mod assemble;
mod given;
mod signature;

pub use crate::assemble::{NotAssembled, certificate, request};
