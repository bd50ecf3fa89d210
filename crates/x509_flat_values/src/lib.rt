//! Values of keys, signatures, requests and extensions over numbers, slices and flat structs, for C and what calls C. Each
//! call is generic over the allocator and takes no memory, and its contract says what each status means.
#![tactic(auto)]

pub mod accesses;
mod answers;
pub mod curves;
pub mod digests;
pub mod further;
pub mod identifier;
pub mod key_identifiers;
pub mod keys;
mod lists;
pub mod numbers;
pub mod point_names;
pub mod points;
pub mod policies;
pub mod private_keys;
pub mod request_attributes;
pub mod requests;
mod rsa;
pub mod signatures;

pub use crate::accesses::AccessPlace;
pub use crate::digests::Digest;
pub use crate::identifier::Identifier;
pub use crate::keys::KeyPlaces;
pub use crate::points::PointPlace;
pub use crate::private_keys::RsaPrivatePlaces;
pub use crate::request_attributes::RequestAttributePlace;
pub use crate::signatures::SignaturePlace;
