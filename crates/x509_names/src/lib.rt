//! Names, general names, directory strings, times, validity and version of certificates (RFC 5280).
#![tactic(auto)]

pub mod attribute_type_and_value;
mod attribute_value;
pub mod edi_party_name;
pub mod general_name;
pub mod laws;
pub mod name;
pub mod name_attr;
pub mod other_name;
pub mod pretty;

pub use crate::attribute_type_and_value::{AttributeTypeAndValue, AttributeTypeAndValueParameters};
pub use crate::edi_party_name::EdiPartyName;
pub use crate::general_name::{GeneralName, GeneralNames};
pub use crate::name::{DirectoryName, Name, RdnSequence, RelativeDistinguishedName};
pub use crate::name_attr::NameAttr;
pub use crate::other_name::OtherName;
pub use crate::pretty::NamePrettyFormatter;
pub use x509_names_parts::{DirectoryString, Time, Validity, Version};
