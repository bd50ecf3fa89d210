//! Tests of the extensions that the port keeps as octets. No function of this crate is for use.
#![tactic(auto)]

#[cfg(test)]
mod tests;
