//! As which outline bytes are read: the types, which of them accepts bytes, where the deviations stand, and the DER encoding.
#![tactic(auto)]

mod accepted;
mod kind;
mod work;

pub use crate::accepted::{accepts, outline_of};
pub use crate::kind::OutlineKind;
pub use crate::work::{check_outline, encoded_outline};
