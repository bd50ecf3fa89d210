//! Reports of X.509 structures: what stands in them and where, for people as text and for programs as JSON.
//!
//! One walk over a value beside the bytes that it was read from tells each field to a sink. It re-exports what
//! callers need of the crates below.
#![tactic(auto)]

mod attribute;
mod certificate;
mod extension;
mod extension_values;
pub mod parts;
mod places;
mod private_key;
mod reported;
mod request;
mod signed_parts;
mod small;

pub use crate::reported::Reported;
pub use x509_report_fields::column::Column;
pub use x509_report_further::faults::{Fault, Faults};
pub use x509_report_parts::{
    Cursor, Element, FieldSink, Identifiers, JsonSink, Label, Moment, Secrets, Shape, Sink, Span,
    TextSink, Value,
};
