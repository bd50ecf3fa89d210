//! What is wrong with parts of certificates, by RFC 5280 and RFC 8017: numbers, times, keys and lists of extensions. Each
//! call answers whether a rule is broken, and takes no memory.
#![tactic(auto)]

pub mod algorithm;
pub mod alternative_name;
pub mod extension;
mod host;
pub mod key;
pub mod known;
pub mod name;
pub mod number;
mod purpose;
pub mod text;
pub mod time;
mod usage;

pub use crate::algorithm::spells_salt;
pub use crate::alternative_name::NameFault;
pub use crate::extension::{Feature, have_without, some_have};
pub use crate::key::{
    has_even_exponent, has_even_modulus, has_low_exponent, has_low_modulus, has_short_modulus,
};
pub use crate::known::Known;
pub use crate::name::{are_other_names, differ, is_unnamed};
pub use crate::number::{is_below, is_even, is_longer};
pub use crate::text::{TextFault, has_email, has_empty_set, name_has_text_fault};
pub use crate::time::{is_before, is_early};
