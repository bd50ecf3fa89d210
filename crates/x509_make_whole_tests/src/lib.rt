//! Tests of what is made of descriptions.
#![tactic(auto)]

#[cfg(test)]
mod tests;
