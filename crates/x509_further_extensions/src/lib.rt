//! The extensions of certificates and revocation lists that the port keeps as octets, told apart by their object
//! identifiers and read.
#![tactic(auto)]

pub mod further;
mod reads;

pub use crate::further::{
    Further, FurtherKind, Outcome, TlsFeature, read_further, view, view_octets,
};
