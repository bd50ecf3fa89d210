//! What is wrong in extensions that the encoding around them keeps as octets.

use crate::Limited;
use std::alloc::{AllocError, Allocator, Global};
use x509_report_parts::values::name_in;
use x509_report_parts::{Label, Shape, Sink, Span, Value};

/// Octets that don't encode what they should.
#[derive(Clone, Copy, Debug, Drop, PartialEq, Eq)]
pub struct Fault {
    /// The name of the extension, or of what in it has octets of its own, as a qualifier of a policy.
    pub name: &'static str,
    /// Why they don't.
    pub reason: &'static str,
    /// How many bytes of the input stand before the first that couldn't be read.
    pub at: usize,
}

/// What is told is looked through for octets that don't encode what they should, and for deviations in those that do.
#[derive(Drop)]
pub struct Faults<A: Allocator = Global> {
    /// Octets that don't, in the order of the input.
    pub malformed: Vec<Fault, A>,
    /// How many deviations there are in the others.
    pub deviations: usize,
}

impl<A: Allocator> Faults<A> {
    /// Nothing was told yet.
    pub fn new(alloc: A) -> Self {
        Faults {
            malformed: Vec::new(alloc),
            deviations: 0,
        }
    }
}

/// What a node is called; nothing where it has an identifier without a name.
fn name_of(label: Label<'_>) -> &'static str {
    match label {
        Label::Field(name) => name,
        Label::Identifier(content) | Label::Extension { content, .. } => {
            name_in(content).unwrap_or("")
        }
    }
}

impl<A: Allocator> Sink for Faults<A> {
    type Error = AllocError;

    fn begin(&mut self, _label: Label<'_>, _span: Span, _shape: Shape) -> Result<(), AllocError> {
        Ok(())
    }

    fn field(&mut self, label: Label<'_>, _span: Span, value: Value<'_>) -> Result<(), AllocError> {
        if let Value::Malformed { reason, at, .. } = value {
            let name = name_of(label);
            self.malformed.push(Fault { name, reason, at })?;
        }
        Ok(())
    }

    fn left_out(&mut self, _label: Label<'_>, _value: Value<'_>) -> Result<(), AllocError> {
        Ok(())
    }

    fn deviating(&mut self, count: usize) -> Result<(), AllocError> {
        self.deviations = self.deviations.saturating_add(count);
        Ok(())
    }

    fn end(&mut self) -> Result<(), AllocError> {
        Ok(())
    }
}

impl<A: Allocator> Limited for Faults<A> {
    fn out_of_memory() -> AllocError {
        AllocError
    }
}
