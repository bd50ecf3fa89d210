//! Directory strings, times, validity and version of certificates; `x509_names` passes them on.
#![tactic(auto)]

pub mod directory_string;
pub mod directory_text;
pub mod laws;
pub mod time;
pub mod validity;
pub mod version;

pub use crate::directory_string::DirectoryString;
pub use crate::time::Time;
pub use crate::validity::Validity;
pub use crate::version::Version;
