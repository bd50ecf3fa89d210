//! Values of certificates, as callers ask for them, out of the bytes that encode them. No call takes memory.
#![tactic(auto)]

pub mod attributes;
pub mod certificate;
pub mod elements;
pub mod extension;
pub mod general_names;
pub mod hosts;
pub mod moment;
pub mod purposes;
pub mod put;
mod times;
pub mod usage;
pub mod value;

pub use crate::attributes::{AttributePlace, attributes_within};
pub use crate::certificate::{
    certificate_validity, find_extension, issuer_attributes, serial_number, subject_attributes,
};
pub use crate::elements::content_within;
pub use crate::extension::find_extension_within;
pub use crate::general_names::{GeneralNamePlace, general_names_within};
pub use crate::hosts::{host_matches, host_within};
pub use crate::moment::Moment;
pub use crate::purposes::purposes_within;
pub use crate::usage::usage_bit_within;
pub use crate::value::value_within;
