//! What outlines of certificates are made of: algorithms, attributes, names, extensions and public keys, of which the
//! frame is read alone.
#![tactic(auto)]

pub mod algorithm_outline;
pub mod attribute_outline;
pub mod attribute_values_outline;
pub mod extension_outline;
pub mod extensions_outline;
pub mod laws;
pub mod name_outline;
pub mod public_key_outline;

pub use crate::algorithm_outline::AlgorithmOutline;
pub use crate::attribute_outline::AttributeOutline;
pub use crate::attribute_values_outline::AttributeValuesOutline;
pub use crate::extension_outline::ExtensionOutline;
pub use crate::extensions_outline::ExtensionsOutline;
pub use crate::name_outline::{NameOutline, RelativeNameOutline};
pub use crate::public_key_outline::PublicKeyOutline;
