//! Tests of what the program `x509_tool` does: its answers, its argument and its input, and what it shows.
#![tactic(auto)]

#[cfg(test)]
mod outcome_tests;
#[cfg(test)]
mod tests;
