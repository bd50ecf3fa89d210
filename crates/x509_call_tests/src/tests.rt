//! Calls by themselves: what they answer, what they take, and what they leave.

mod algorithm_makers;
mod algorithms;
mod certificates;
mod character_strings;
mod checks;
mod deviations;
mod directory_strings;
mod extension_lists;
mod extensions;
mod first_fields;
mod general_names;
mod hash_algorithms;
mod identifiers;
mod keys;
mod lists;
mod memory;
mod names;
mod no_memory;
mod signed_parts;
mod tables;
mod times;

use refusing::{Refusing, Turn};
use std::alloc::{Allocator, Global};
use std::ops::ControlFlow;

/// An allocator that refuses what it is told to. This is all that most tests name of it: a function over any such
/// allocator is proved in a third of the time that it takes over the one that there is.
pub trait Heap: Allocator + Copy {
    /// Counts from 0 again, and refuses the request of this number, from 1 on; at 0 none.
    fn refuse(self, number: u64);

    /// Counts from 0 again, and refuses each request.
    fn refuse_all(self);

    /// The number of requests since the last `refuse` or `refuse_all`, those refused too.
    fn requests(self) -> u64;

    /// Whether the run in which the request of this number was refused has the next one follow; else the number of its
    /// requests, or none where it was wrong. Refuses nothing from then on.
    fn judge(self, number: u64, turn: Turn) -> ControlFlow<Option<u64>>;
}

impl Heap for &Refusing<Global> {
    fn refuse(self, number: u64) {
        Refusing::refuse(self, number);
    }

    fn refuse_all(self) {
        Refusing::refuse_all(self);
    }

    fn requests(self) -> u64 {
        Refusing::requests(self)
    }

    fn judge(self, number: u64, turn: Turn) -> ControlFlow<Option<u64>> {
        Refusing::judge(self, number, turn)
    }
}
