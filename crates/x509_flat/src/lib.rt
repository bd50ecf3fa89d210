//! The codec's calls over numbers, slices and flat structs, for callers outside of Rattle: C, and what calls C. Each is
//! generic over the allocator, and its contract says what each status means.
#![tactic(auto)]

pub mod certificate_fields;
pub mod check;
pub mod constraints;
pub mod encode;
pub mod extensions;
pub mod kind;
pub mod list_fields;
pub mod places;
pub mod private_key_fields;
pub mod request_fields;
pub mod signed_part;
pub mod span;
pub mod status;
pub mod usage;
pub mod validity;
pub mod values;
