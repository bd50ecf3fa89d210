//! For tests: an allocator that refuses chosen requests for memory and counts all of them, and `in_turn`, which refuses
//! each request of a call in turn.
#![tactic(auto)]

ghost use Rattle.std.specs.Prelude.{◌≡◌, true, false};

use std::alloc::{AllocError, Allocator};
use std::cell::Cell;
use std::ops::ControlFlow;

#[cfg(test)]
mod tests;

/// How many requests were seen, and which are refused: those numbered from `first` to `last`, counted from 1.
#[derive(Drop)]
struct Gate {
    seen: Cell<u64>,
    first: Cell<u64>,
    last: Cell<u64>,
}

/// Counts a request, and says whether it passes.
fn admits(gate: &Gate) -> bool {
    let number = gate.seen.get().saturating_add(1);
    gate.seen.set(number);
    number < gate.first.get() || gate.last.get() < number
}

/// An allocator that passes a request on to the allocator within, or refuses it. A `&` to it is an allocator that is
/// `Copy`, as the calls ask.
#[derive(Drop)]
pub struct Refusing<B: Allocator> {
    inner: B,
    gate: Gate,
}

impl<B: Allocator> Refusing<B> {
    /// One that refuses nothing.
    pub fn new(inner: B) -> Refusing<B> {
        Refusing {
            inner,
            gate: Gate {
                seen: Cell::new(0),
                first: Cell::new(0),
                last: Cell::new(0),
            },
        }
    }

    /// Counts from 0 again, and refuses the request of this number, from 1 on; at 0 none.
    pub fn refuse(&self, number: u64) {
        self.gate.seen.set(0);
        self.gate.first.set(number);
        self.gate.last.set(number);
    }

    /// Counts from 0 again, and refuses each request.
    pub fn refuse_all(&self) {
        self.gate.seen.set(0);
        self.gate.first.set(0);
        self.gate.last.set(u64::MAX);
    }

    /// The number of requests since the last `refuse` or `refuse_all`, those refused too.
    pub fn requests(&self) -> u64 {
        self.gate.seen.get()
    }
}

unsafe impl<B: Allocator> Allocator for Refusing<B> {
    ghost dealloc_token = { λ heap ty ptr. B.dealloc_token heap.inner ty ptr };

    fn allocate(&self, size: usize, align: usize) -> Result<*mut u8, AllocError> {
        if !admits(&self.gate) {
            return Err(AllocError);
        }
        self.inner.allocate(size, align)
    }

    unsafe fn deallocate(&self, ptr: *mut u8, size: usize, align: usize) {
        self.inner.deallocate(ptr, size, align);
    }
}

/// What one run of a call showed.
#[derive(Clone, Copy, PartialEq, Eq, Debug)]
pub enum Turn {
    /// Want of memory was answered by its own name, and all that was lent stands as before.
    Refused,
    /// The stated answer was given.
    Granted,
    /// Neither.
    Wrong,
}

impl Turn {
    /// A run that gave an answer, and whether that is the stated one.
    pub fn right(is_right: bool) -> Turn
        ensures yes { is_right ≡ true → result ≡ Turn.Granted }
        ensures no { is_right ≡ false → result ≡ Turn.Wrong }
    {
        if is_right { Turn::Granted } else { Turn::Wrong }
    }

    /// A run that was refused memory, and whether all that was lent stands as before.
    pub fn stands(is_same: bool) -> Turn
        ensures yes { is_same ≡ true → result ≡ Turn.Refused }
        ensures no { is_same ≡ false → result ≡ Turn.Wrong }
    {
        if is_same { Turn::Refused } else { Turn::Wrong }
    }
}

/// Runs an expression with its first request to an allocator refused, then its second, until a run meets no refusal.
/// The allocator is a name; the expression is a `Turn`.
///
/// The number of requests that the last run made, as an `Option<u64>`; none where a run was wrong, answered want of
/// memory that it wasn't refused, or gave its answer though a request was refused. A loop and no closure, since a
/// closure is proved as three functions more.
#[macro_export]
macro_rules! in_turn {
    ($heap:ident, $run:expr) => {{
        let mut requests = None;
        for number in 1..$crate::MOST_REQUESTS {
            $heap.refuse(number);
            if let std::ops::ControlFlow::Break(answer) = $heap.judge(number, $run) {
                requests = answer;
                break;
            }
        }
        requests
    }};
}

/// More requests than any call of a test makes.
pub const MOST_REQUESTS: u64 = 1_000_000;

impl<B: Allocator> Refusing<B> {
    /// Whether the run in which the request of this number was refused has the next one follow. Else the number of its
    /// requests; none where it was wrong, answered want of memory that it wasn't refused, or gave its answer though a
    /// request was refused. Refuses nothing from then on.
    pub fn judge(&self, number: u64, turn: Turn) -> ControlFlow<Option<u64>> {
        let requests = self.requests();
        self.refuse(0);
        match turn {
            Turn::Refused if requests >= number => ControlFlow::Continue(()),
            Turn::Granted if requests == number.saturating_sub(1) => ControlFlow::Break(Some(
                requests,
            )),
            _ => ControlFlow::Break(None),
        }
    }
}
