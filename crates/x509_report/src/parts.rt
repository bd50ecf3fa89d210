//! What reports of other types are made of too.

pub use crate::attribute::attribute;
pub use crate::certificate::{moment_of, time_of, validity, version_word};
pub use crate::extension::extension;
pub use crate::private_key::secret_octets;
