//! Tests of structures that are put together of what was signed, the algorithm and the signature.
#![tactic(auto)]

#[cfg(test)]
mod tests;
