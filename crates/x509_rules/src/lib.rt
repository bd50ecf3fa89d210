//! What may be wrong with certificates beyond their encoding: rules of RFC 5280, X.690 and RFC 8017 by name, with the part
//! of a certificate that each is about. Which certificates break them, `x509_findings` says.
#![tactic(auto)]

pub mod part;
mod reasons;
pub mod rule;
mod said;
mod texts;

pub use crate::part::Part;
pub use crate::rule::Rule;
pub use crate::said::Severity;
