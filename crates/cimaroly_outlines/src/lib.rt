//! What the program `cimaroly` is asked of outlines, and what it says of them.
#![tactic(auto)]

mod note;
mod serial;
mod settings;

pub use crate::note::{OutlineNote, note_of};
pub use crate::serial::SerialNumber;
pub use crate::settings::OutlineSettings;
