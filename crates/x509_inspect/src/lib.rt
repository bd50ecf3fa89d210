//! Reads bytes as one of the types that a report knows, and tells what stands in them: as text, as JSON, or which
//! deviations they have and where; or why and where they are refused. It passes the crate below on.
#![tactic(auto)]

mod cells;
mod json_report;
mod kinds;
mod names;
mod path_sink;
mod row;
mod task;
mod text_report;
mod told;

pub use crate::cells::{Cell, Line, write_cells};
pub use crate::json_report::Written;
pub use crate::kinds::{Determined, Outcomes, determine};
pub use crate::names::{NameTexts, Names};
pub use crate::row::{Row, Told};
pub use crate::task::{
    check, dated, encoded, members, pinned, push_json, searched, write_row, write_text,
};
pub use crate::text_report::{TextReport, print_report};
pub use crate::told::{Dated, Pinned, Searched};
pub use x509_der::Refused;
pub use x509_fingerprints::Pin;
pub use x509_inspect_parts::{
    Extent, Form, Head, Kind, NameForm, Options, RefusalLine, Source, Standing, TreeError, Unread,
    push_note, write_tree,
};
pub use x509_report::{Column, Fault, Faults, Identifiers, Moment, Secrets};
