//! What is written so far, and where in the description the writing is.

ghost use Rattle.std.specs.Prelude.{◌≡◌, ◌++◌, [], take, drop, OnOk, vec_len};
ghost use Rattle.x509_der.specs.Element.{element};

use crate::fault::Done;
use crate::marks::Marks;
use crate::place::Place;
use crate::write::{append, append_element, wrap};
use std::alloc::Allocator;

/// The bytes written so far, and the place of the value that is being written: where writing fails, that of the fault.
#[derive(Drop)]
pub struct Maker<A: Allocator> {
    /// Where memory comes from.
    pub alloc: A,
    /// What is written.
    pub out: Vec<u8, A>,
    /// Where in the description.
    pub place: Place,
    /// Which bytes came of which place.
    pub marks: Marks<A>,
}

impl<A: Allocator + Copy> Maker<A> {
    /// Nothing is written yet. `keeps`: whether it is kept which bytes come of which place.
    pub fn new(alloc: A, keeps: bool) -> Self
        ensures { result.out.items ≡ [] }
    {
        Maker {
            alloc,
            out: Vec::new(alloc),
            place: Place::root(),
            marks: Marks::new(alloc, keeps),
        }
    }

    /// What was written.
    pub fn into_written(self) -> Vec<u8, A>
        ensures { result ≡ self.out }
    {
        let Maker {
            alloc: _,
            out,
            place: _,
            marks,
        } = self;
        drop(marks);
        out
    }

    /// Where an element begins.
    pub fn open(&self) -> usize
        ensures { result ≡ vec_len self.now.out }
    {
        self.out.len()
    }

    /// Makes what stands from a start on the content of an element.
    ///
    /// # Errors
    /// `OutOfMemory`.
    pub fn close(&mut self, start: usize, tag: u8) -> Done
        ensures { OnOk result (self.new.out.items ≡
            take start self.old.out.items ++ element tag (drop start self.old.out.items)) }
    {
        let end = self.out.len();
        wrap(self.alloc, &mut self.out, start, tag)?;
        self.marks.shift(start, self.out.len().saturating_sub(end));
        Ok(())
    }

    /// Appends an element.
    ///
    /// # Errors
    /// `OutOfMemory`.
    pub fn element(&mut self, tag: u8, content: &[u8]) -> Done
        ensures { OnOk result (self.new.out.items ≡ self.old.out.items ++ element tag content.now) }
    {
        append_element(self.alloc, &mut self.out, tag, content)
    }

    /// Appends bytes.
    ///
    /// # Errors
    /// `OutOfMemory`.
    pub fn put(&mut self, bytes: &[u8]) -> Done
        ensures { OnOk result (self.new.out.items ≡ self.old.out.items ++ bytes.now) }
    {
        append(&mut self.out, bytes)
    }

    /// Goes back from a place whose bytes begin at a start.
    ///
    /// # Errors
    /// `OutOfMemory`.
    pub fn leave_from(&mut self, start: usize) -> Done
        ensures { self.new.out ≡ self.old.out }
    {
        let end = self.out.len();
        self.marks.add(self.place, start, end)?;
        self.place.leave();
        Ok(())
    }
}
