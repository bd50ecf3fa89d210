//! Where the element stands that bytes begin with.

ghost use Rattle.std.specs.Prelude.{◌≡◌, ◌+◌};
ghost use Rattle.x509_der_parts.specs.FirstElement.{Finds};

use crate::header::split_first;

/// Where an element stands in bytes that begin with it (X.690, 8.1).
#[derive(Clone, Copy, Debug, PartialEq, Eq)]
pub struct Element {
    /// The tag, which is one byte.
    pub tag: u8,
    /// How many bytes the tag and the length are: the content begins behind them.
    pub start: usize,
    /// How many bytes the element is: its content ends there.
    pub end: usize,
}

/// The element that begins the bytes, whatever stands in it. Takes no memory.
///
/// It is `None` exactly where the bytes begin with no element whose tag is one byte and whose length is in its shortest
/// form (X.690, 10.1).
pub fn first_element(bytes: &[u8]) -> Option<Element>
    ensures { Finds bytes.now result }
{
    let Ok((tag, content, after)) = split_first(bytes) else {
        return None;
    };
    let end = bytes.len() - after.len();
    let start = end - content.len();
    Some(Element { tag, start, end })
}
