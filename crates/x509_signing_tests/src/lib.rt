//! Tests of what signers give and need, and of PEM that is written.
#![tactic(auto)]

#[cfg(test)]
mod tests;
