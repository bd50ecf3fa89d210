//! What is wrong with a description.

use std::fmt::{self, Display, Write};

/// What comes of writing a part.
pub type Done = Result<(), Fault>;

/// What is wrong at a place of a description.
#[derive(Clone, Copy, Debug, Drop)]
pub enum Fault {
    /// Memory is refused.
    OutOfMemory,
    /// A member is missing: its name.
    Missing(&'static str),
    /// No member with this name has a meaning here.
    Unknown,
    /// A member stands in the object before, with the same name.
    Twice,
    /// Something else is asked for: what.
    Not(&'static str),
    /// Something doesn't fit: what.
    Said(&'static str),
}

impl Display for Fault {
    fn fmt<W: Write>(&self, f: &mut fmt::Formatter<W>) -> fmt::Result {
        match self {
            Fault::OutOfMemory => f.write_str("out of memory"),
            Fault::Missing(name) => write!(f, "{name} is missing"),
            Fault::Unknown => f.write_str("no such member here"),
            Fault::Twice => f.write_str("given twice"),
            Fault::Not(what) => write!(f, "not {what}"),
            Fault::Said(what) => f.write_str(*what),
        }
    }
}
