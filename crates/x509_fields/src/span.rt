//! Where something stands in an input.

ghost use Rattle.x509_fields.specs.Slices.{SliceAt};

/// Bytes of an input, from the first on up to the one behind the last.
#[repr(C)]
#[derive(Clone, Copy, Debug, PartialEq, Eq)]
pub struct Span {
    /// How many bytes of the input stand before it.
    pub start: usize,
    /// How many bytes of the input stand before its end: it covers the bytes `start..end`.
    pub end: usize,
}

impl Span {
    /// The bytes of the input that it covers. Takes no memory.
    ///
    /// It is `None` exactly where it ends before it starts, or behind the input.
    pub fn slice<'a>(&self, bytes: &'a [u8]) -> Option<&'a [u8]>
        ensures { SliceAt bytes.now self.now.start self.now.end result }
    {
        if self.end < self.start || bytes.len() < self.end {
            return None;
        }
        let (front, _) = bytes.split_at(self.end);
        let (_, slice) = front.split_at(self.start);
        Some(slice)
    }
}
