//! Which field stands over some bytes.

use crate::cursor::Span;
use crate::sink::{Label, Shape, Sink, Value};
use crate::text_sink::{Identifiers, Named};
use std::fmt::{self, Write};

/// Writes the names of the nodes that contain a place, from the outermost in, with a separator between them; the node
/// around all isn't among them.
#[derive(Drop)]
pub struct FieldSink<'w, W: Write> {
    out: &'w mut W,
    place: Span,
    separator: &'static str,
    depth: usize,
    written: usize,
}

impl<'w, W: Write> FieldSink<'w, W> {
    /// Nothing is written yet.
    pub fn new(out: &'w mut W, place: Span, separator: &'static str) -> Self {
        FieldSink {
            out,
            place,
            separator,
            depth: 0,
            written: 0,
        }
    }

    /// Writes a label, if its node contains the place and stands in another.
    fn name(&mut self, label: Label<'_>, span: Span) -> fmt::Result {
        if self.depth == 0 || !span.contains(self.place) {
            return Ok(());
        }
        if self.written > 0 {
            self.out.write_str(self.separator)?;
        }
        self.written = self.written.saturating_add(1);
        match label {
            Label::Field(name) => self.out.write_str(name),
            Label::Identifier(content) | Label::Extension { content, .. } => {
                write!(self.out, "{}", Named(content, Identifiers::Named))
            }
        }
    }
}

impl<W: Write> Sink for FieldSink<'_, W> {
    type Error = fmt::Error;

    fn begin(&mut self, label: Label<'_>, span: Span, shape: Shape) -> fmt::Result {
        if shape != Shape::Only {
            self.name(label, span)?;
        }
        self.depth = self.depth.saturating_add(1);
        Ok(())
    }

    fn field(&mut self, label: Label<'_>, span: Span, _value: Value<'_>) -> fmt::Result {
        self.name(label, span)
    }

    fn end(&mut self) -> fmt::Result {
        self.depth = self.depth.saturating_sub(1);
        Ok(())
    }
}
