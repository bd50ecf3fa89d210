//! Tests that cross crates: worked bytes from the standards and from outside, as tables.
#![tactic(auto)]

#[cfg(test)]
mod tests;
