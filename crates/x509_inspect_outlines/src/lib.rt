//! Reads bytes as an outline, of which the frame alone is read, and tells what stands in them: as text, as JSON, or which
//! deviations they have and where.
#![tactic(auto)]

mod json;
mod kinds;
mod report;
mod row;
mod task;

pub use crate::json::{Written, outline_members, push_outline, push_refused};
pub use crate::kinds::{outline_kind, signed_part, whole_kind};
pub use crate::report::write_outline;
pub use crate::row::write_outline_row;
pub use crate::task::{Asked, searched_outline};
pub use x509_outline_kinds::{OutlineKind, accepts, check_outline, encoded_outline, outline_of};
pub use x509_report_outlines::Entries;
