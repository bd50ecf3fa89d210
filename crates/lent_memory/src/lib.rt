//! Memory that a caller lends, as an allocator: one block, which is handed out, taken back, and at last given back.
#![tactic(auto)]

ghost use Rattle.std.specs.Prelude.{◌≡◌, ◌%◌, ◌<◌, ◌≤◌, IfSome};
ghost use Rattle.lent_memory.specs.Lending.{lent_at, lent_token};

use std::alloc::{AllocError, Allocator};
use std::cell::Cell;
use std::marker::Model;
use std::mem::replace;
use std::ptr::null_mut;

/// What the block's place is a multiple of, and each size that is handed out.
const UNIT: usize = 16;

/// Memory that a caller lends. Its place is a multiple of 16; what stands behind the last multiple of 16 bytes isn't
/// used. At size 0 there is none, wherever it points. A drop frees nothing: the memory is then not the caller's again.
#[repr(C)]
#[derive(Drop)]
pub struct Lent {
    at: *mut u8,
    size: usize,
}

impl Model for Lent {
    ghost also_owns = { λ l. lent_at l.at l.size };
}

impl Lent {
    /// No memory.
    pub fn nothing() -> Lent
        ensures { result.size ≡ 0 }
    {
        Lent {
            at: null_mut(),
            size: 0,
        }
    }

    fn measured(self) -> (usize, Lent)
        ensures { (result.0 ≡ self.size) × (result.1 ≡ self) }
    {
        let Lent { at, size } = self;
        (size, Lent { at, size })
    }
}

/// An allocator over one block of memory: it hands the block out once, as a whole, until it is back. It is itself the
/// memory's owner; what allocates takes a `&` to it.
#[derive(Drop)]
pub struct OneBlock {
    whole: usize,
    slot: Cell<Option<Lent>>,
}

impl OneBlock {
    /// Takes what is lent, and leaves nothing in its place.
    pub fn from_mut(lent: &mut Lent) -> OneBlock
        ensures whole { result.whole ≡ lent.old.size }
        ensures nothing { lent.new.size ≡ 0 }
    {
        let (whole, lent) = replace(lent, Lent::nothing()).measured();
        OneBlock {
            whole,
            slot: Cell::new(Some(lent)),
        }
    }

    /// How many bytes were lent.
    pub fn size(&self) -> usize
        ensures { result ≡ self.now.whole }
    {
        self.whole
    }

    /// Gives the memory back, where no block of it is out; else leaves what stands there.
    pub fn give_back(self, lent: &mut Lent) {
        let OneBlock { whole: _, slot } = self;
        if let Some(mine) = slot.into_inner() {
            *lent = mine;
        }
    }

    /// The memory, where it is there and has room for so many bytes.
    fn take(&self, size: usize, align: usize) -> Option<Lent>
        ensures { IfSome result (λ l. (l.size ≡ self.now.whole) × (size ≤ l.size) × (size % 16 ≡ 0) × (0 < size)) }
    {
        if align > UNIT || size == 0 || size % UNIT != 0 {
            return None;
        }
        let (whole, lent) = self.slot.replace(None)?.measured();
        if whole == self.whole && size <= whole {
            Some(lent)
        } else {
            self.put(lent);
            None
        }
    }

    /// Puts the memory back.
    fn put(&self, lent: Lent) {
        self.slot.set(Some(lent));
    }
}

unsafe impl Allocator for OneBlock {
    ghost dealloc_token = { λ one. lent_token one.whole };

    fn allocate(&self, size: usize, align: usize) -> Result<*mut u8, AllocError> {
        match self.take(size, align) {
            Some(Lent { at, size: _ }) => Ok(at),
            None => Err(AllocError),
        }
    }

    unsafe fn deallocate(&self, ptr: *mut u8, _size: usize, _align: usize) {
        let size = self.size();
        self.put(Lent { at: ptr, size });
    }
}
