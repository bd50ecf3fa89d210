//! For what calls C: which rules a certificate or request breaks, and where, in a caller's buffer.
#![tactic(auto)]

pub mod findings;
pub mod number;
pub mod request_findings;
