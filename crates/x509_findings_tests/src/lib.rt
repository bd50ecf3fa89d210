//! Tests of what is found wrong with certificates.
#![tactic(auto)]

#[cfg(test)]
mod tests;
