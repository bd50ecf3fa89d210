//! What is wrong with a certificate or a request by RFC 5280, X.690 and RFC 8017, though it is read: which rules of
//! `x509_rules` it breaks, and where.
#![tactic(auto)]

pub mod broken;
pub mod condition;
pub mod findings;
pub mod place;
mod request_condition;
pub mod request_findings;

pub use crate::broken::is_broken;
pub use crate::findings::{Finding, Findings};
pub use crate::place::{place_in_request, place_of};
pub use crate::request_findings::{RequestFindings, is_broken_by_request};
pub use x509_rules::{Part, Rule, Severity};
