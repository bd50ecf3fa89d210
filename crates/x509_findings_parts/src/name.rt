//! Names, and algorithms.

ghost use Rattle.std.specs.Prelude.{◌≡◌, ◌↔◌, IsTrue};
ghost use Rattle.x509_der.specs.Items.{no_items};

use std::alloc::Allocator;
use x509_der::SameEq;
use x509_keys::AlgorithmIdentifier;
use x509_names::Name;

/// Whether a name has nothing in it. Takes no memory.
pub fn is_unnamed<A: Allocator>(name: &Name<A>) -> bool
    ensures { result ≡ no_items name.now }
{
    name.0.0.is_empty()
}

/// Whether two values are the same.
fn are_same<T: SameEq>(first: &T, second: &T) -> bool
    ensures { IsTrue result ↔ (first.now ≡ second.now) }
{
    T::decides();
    first == second
}

/// Whether two algorithms differ, or their parameters. Takes no memory.
pub fn differ<A: Allocator>(first: &AlgorithmIdentifier<A>, second: &AlgorithmIdentifier<A>) -> bool
    ensures { IsTrue result ↔ (first.now ≡ second.now → ⊥) }
{
    !are_same(first, second)
}

/// Whether two names differ: in an attribute, its type or string type, or in their order. Takes no memory.
pub fn are_other_names<A: Allocator>(first: &Name<A>, second: &Name<A>) -> bool
    ensures { IsTrue result ↔ (first.now ≡ second.now → ⊥) }
{
    !are_same(first, second)
}
