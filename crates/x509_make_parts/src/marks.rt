//! Which bytes came of which place of a description.

use crate::fault::{Done, Fault};
use crate::place::Place;
use std::alloc::Allocator;

/// The bytes from one place of what is written up to another, and the place of the description that they came of.
#[derive(Clone, Copy, Drop)]
struct Mark {
    place: Place,
    start: usize,
    end: usize,
}

/// Which bytes came of which place, if that is kept.
#[derive(Drop)]
pub struct Marks<A: Allocator> {
    keeps: bool,
    marks: Vec<Mark, A>,
}

impl<A: Allocator + Copy> Marks<A> {
    /// Nothing came of any place yet.
    pub fn new(alloc: A, keeps: bool) -> Self {
        Marks {
            keeps,
            marks: Vec::new(alloc),
        }
    }

    /// Bytes came of a place, if that is kept.
    ///
    /// # Errors
    /// `OutOfMemory`.
    pub fn add(&mut self, place: Place, start: usize, end: usize) -> Done {
        if !self.keeps {
            return Ok(());
        }
        match self.marks.push(Mark { place, start, end }) {
            Ok(()) => Ok(()),
            Err(_) => Err(Fault::OutOfMemory),
        }
    }

    /// What stands from a start on is moved back by so many bytes.
    pub fn shift(&mut self, start: usize, count: usize) {
        for mark in self.marks.iter_mut() {
            if mark.start >= start {
                mark.start = mark.start.saturating_add(count);
                mark.end = mark.end.saturating_add(count);
            }
        }
    }

    /// The innermost place that a byte came of; the root where none is known.
    pub fn place_of(&self, at: usize) -> Place {
        let mut found = Place::root();
        let mut least = usize::MAX;
        for mark in &self.marks {
            let size = mark.end.saturating_sub(mark.start);
            if mark.start <= at && at < mark.end && size < least {
                least = size;
                found = mark.place;
            }
        }
        found
    }
}
