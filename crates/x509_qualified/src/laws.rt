//! Laws of the types of this crate. A function here does nothing when it runs: its contract is the law.

pub use crate::structures::laws::{
    directory_attribute_fields, qc_statement_fields, qc_statements_fields,
    subject_directory_attributes_fields,
};
