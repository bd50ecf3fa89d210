//! What structures and keys are told apart by: digests of their bytes, and pins of their public keys.
#![tactic(auto)]

mod fingerprints;
mod keyed;
mod pin;
mod structures;

pub use crate::fingerprints::{Fingerprints, HexDigits};
pub use crate::keyed::Keyed;
pub use crate::pin::{Pin, pin_of};
