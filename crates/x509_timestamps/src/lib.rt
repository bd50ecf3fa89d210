//! Signed certificate timestamps, as the extension of certificates lists them (RFC 6962, 3.3): in the presentation
//! language of TLS, within an OCTET STRING.
#![tactic(auto)]

pub mod list;
pub mod timestamp;
mod vectors;

pub use crate::list::{BadList, timestamps};
pub use crate::timestamp::{Timestamp, read_timestamp};
