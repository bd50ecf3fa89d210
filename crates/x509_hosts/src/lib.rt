//! For which hosts a certificate is (RFC 9525), by the names and the addresses that it presents. No call takes memory.
#![tactic(auto)]

pub mod host;
pub mod name;

pub use crate::host::Host;
pub use crate::name::{is_host_name, is_name_for};
