//! Tests of single calls: makers, changes, accessors, conversions, stated values, and the tables of object identifiers.
#![tactic(auto)]

#[cfg(test)]
mod tests;
