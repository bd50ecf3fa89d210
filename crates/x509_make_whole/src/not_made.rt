//! Why nothing is made of a description.

use std::alloc::{Allocator, Global};
use std::fmt::{self, Display, Write};
use x509_der::ReadError;
use x509_make_parts::Fault;
use x509_report_parts::shown::{Frame, Shown};

/// Why nothing is made.
#[derive(Clone, Copy, Debug, Drop)]
pub enum Why {
    /// The text is no JSON.
    NotJson,
    /// Something is wrong with the description.
    Fault(Fault),
    /// What it says encodes no value of the type.
    Refused(ReadError),
    /// What it says isn't in DER.
    Deviates,
}

/// Why nothing is made of a description, and where in it.
#[derive(Drop, Debug)]
pub struct NotMade<A: Allocator = Global> {
    /// Why.
    pub why: Why,
    /// The place in the description, as `tbsCertificate.validity.notAfter`; empty where it is the whole, or isn't
    /// known.
    pub path: String<A>,
    /// The front of the text that stands there, at most 40 characters: empty where it is no text, or part of a private
    /// key.
    pub word: String<A>,
}

impl<A: Allocator> NotMade<A> {
    /// Whether memory was refused, so that nothing is known of the description.
    pub fn is_out_of_memory(&self) -> bool {
        matches!(self.why, Why::Fault(Fault::OutOfMemory))
    }
}

impl Display for Why {
    fn fmt<W: Write>(&self, f: &mut fmt::Formatter<W>) -> fmt::Result {
        match self {
            Why::NotJson => f.write_str("not JSON"),
            Why::Fault(fault) => write!(f, "{fault}"),
            Why::Refused(error) => write!(f, "what is described isn't accepted: {error}"),
            Why::Deviates => f.write_str("what is described isn't in DER"),
        }
    }
}

/// One line: the place, why, and the front of the text that stands there, escaped.
impl<A: Allocator> Display for NotMade<A> {
    fn fmt<W: Write>(&self, f: &mut fmt::Formatter<W>) -> fmt::Result {
        if !self.path.is_empty() {
            write!(f, "{}: ", self.path)?;
        }
        write!(f, "{}", self.why)?;
        if !self.word.is_empty() {
            let word = self.word.as_str();
            write!(f, ": \"{}\"", Shown(&word, Frame::Quotes))?;
        }
        Ok(())
    }
}
