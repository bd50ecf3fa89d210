//! Certificates, requests and their parts of a description in JSON as elements: by their fields, or in a short form.
#![tactic(auto)]

mod attributes;
pub mod certificates;
pub mod extension_values;
pub mod extensions;
mod issuer;
pub mod key_usage;
pub mod keys;
mod members;
mod pem;
pub mod requests;
mod short;
pub mod short_certificates;
mod short_extensions;
pub mod short_requests;
