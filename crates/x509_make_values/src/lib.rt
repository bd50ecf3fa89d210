//! Values of a description in JSON as elements: bytes, numbers, bits, object identifiers, times, addresses and texts.
#![tactic(auto)]

pub mod addresses;
pub mod bits;
pub mod fields;
pub mod hexadecimal;
pub mod identifiers;
pub mod numbers;
pub mod octets;
pub mod strings;
pub mod times;

pub use crate::fields::Fields;
