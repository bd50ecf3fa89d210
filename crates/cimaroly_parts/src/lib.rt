//! What the program `cimaroly` does: its command line, its files and folders, its statuses.
#![tactic(auto)]

mod asked;
pub mod cli;
mod describing;
mod files;
mod lint;
mod making;
mod progress;
mod run;
mod signing;
mod terminal;
mod whole;
pub mod words;

pub use crate::terminal::Terminal;
pub use cimaroly_work::{Status, Stop};
