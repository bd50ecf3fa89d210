//! What is told of bytes that are read as a type: the types' names and labels, where a read was refused, and the elements of
//! anything.
#![tactic(auto)]

mod field_path;
mod header;
mod held;
pub mod json_line;
mod kind;
mod options;
mod refusal;
mod standing;
mod tree;
mod unread;

pub use crate::json_line::{Extent, Head, Source, push_note};
pub use crate::kind::Kind;
pub use crate::options::{NameForm, Options};
pub use crate::refusal::RefusalLine;
pub use crate::standing::Standing;
pub use crate::tree::{Form, TreeError, write_tree};
pub use crate::unread::Unread;
