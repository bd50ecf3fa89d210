//! What reports are made of: a cursor that tells where elements stand, the trait of what a report is written to, text and
//! JSON that it is written as, and how values of the input are shown.
#![tactic(auto)]

pub mod colour;
pub mod columns;
pub mod cursor;
pub mod field_sink;
pub mod json_sink;
pub mod layout;
mod secrets;
pub mod shown;
pub mod sink;
pub mod text_sink;
mod types;
pub mod values;

pub use crate::colour::{Colours, Mark};
pub use crate::columns::Columns;
pub use crate::cursor::{Cursor, Element, Span};
pub use crate::field_sink::FieldSink;
pub use crate::json_sink::JsonSink;
pub use crate::layout::Layout;
pub use crate::secrets::Secrets;
pub use crate::sink::{Label, Moment, Shape, Sink, Value};
pub use crate::text_sink::{Identifiers, TextSink};
pub use crate::types::{ByteStringType, StringType};
