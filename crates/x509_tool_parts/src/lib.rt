//! What the program `x509_tool` does: its argument, its input, its answer, and what it shows of it.
#![tactic(auto)]

pub mod console;
pub mod fault;
mod report;
pub mod run_text;
mod served;
