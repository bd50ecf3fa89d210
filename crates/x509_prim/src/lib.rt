//! The restricted character strings and the times of ASN.1, which names, extensions and certificates hold.
#![tactic(auto)]

pub mod bmp_string;
pub mod errors;
pub mod ia5_string;
pub mod laws;
pub mod printable_string;
pub mod restricted_string;
mod utf16;
pub mod utf8_string;

pub use crate::bmp_string::{BmpCharSet, BmpString, BmpStringAsn1};
pub use crate::errors::CharSetError;
pub use crate::ia5_string::{Ia5CharSet, Ia5String, Ia5StringAsn1};
pub use crate::printable_string::{PrintableCharSet, PrintableString, PrintableStringAsn1};
pub use crate::restricted_string::{AsciiCharSet, CharSet, RestrictedString, RestrictedStringAsn1};
pub use crate::utf8_string::Utf8String;
pub use x509_prim_parts::generalized_time::{GeneralizedTime, GeneralizedTimeAsn1};
pub use x509_prim_parts::time_asn1::TimeAsn1;
pub use x509_prim_parts::utc_time::{UTCTime, UtcTimeAsn1};
