//! The times of ASN.1. No other crate lists this one: `x509_prim` passes all of it on.
#![tactic(auto)]

mod calendar;
pub mod date;
pub mod generalized_time;
pub mod time_asn1;
pub mod utc_time;

pub use crate::date::{Date, Years};
pub use crate::generalized_time::{GeneralizedTime, GeneralizedTimeAsn1, GeneralizedYears};
pub use crate::time_asn1::TimeAsn1;
pub use crate::utc_time::{UTCTime, UtcTimeAsn1, UtcYears};
