//! What the program `cimaroly` does with one structure, and in which form an input is.
#![tactic(auto)]

pub mod assemble;
mod cells;
mod encoding;
mod fault;
pub mod form;
pub mod input;
mod keys;
mod lines;
mod lint;
mod outlines;
mod rule_set;
mod session;
mod settings;
mod signed;
mod status;
mod stop;
mod strict;
mod structure;
pub mod time;

pub use crate::rule_set::RuleSet;
pub use crate::session::{NOTHING, Session};
pub use crate::settings::{Action, Format, Settings};
pub use crate::status::{Status, Tally};
pub use crate::stop::Stop;
