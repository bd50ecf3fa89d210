//! Names, and what stands for them in extensions.

pub use x509_names::{
    DirectoryName, EdiPartyName, GeneralName, GeneralNames, Name, NameAttr, NamePrettyFormatter,
    OtherName, RdnSequence, RelativeDistinguishedName,
};
