//! The plain structures of this crate, written by `tools/structures.py` from `declarations.asn1`.

pub mod directory_attribute;
pub mod laws;
pub mod qc_statement;
pub mod qc_statements;
pub mod subject_directory_attributes;

pub use self::directory_attribute::DirectoryAttribute;
pub use self::qc_statement::QcStatement;
pub use self::qc_statements::QcStatements;
pub use self::subject_directory_attributes::SubjectDirectoryAttributes;
