//! Tests of what reports are made of. No function of this crate is for use.
#![tactic(auto)]

#[cfg(test)]
mod tests;
