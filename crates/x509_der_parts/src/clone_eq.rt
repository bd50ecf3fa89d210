//! Clones that equal what they are made from.

ghost use Rattle.std.specs.Prelude.{◌≡◌, IfOk};

use std::alloc::{AllocError, Allocator};

/// A type whose clone equals what it is made from.
pub trait CloneEq: Clone {
    /// What may be a clone of a value is that value.
    ghost exact: { (x y : Self) → Self.is_clone x y → y ≡ x };

    /// A value equal to this one, by its `clone`.
    ///
    /// # Errors
    /// `AllocError` where memory is refused.
    final fn clone_eq(&self) -> Result<Self, AllocError>
        ensures { IfOk result (λ copy. copy ≡ self.now) }
    {
        self.clone()
    }
}

impl CloneEq for () {
    ghost exact = { λ x y h. h };
}

impl CloneEq for bool {
    ghost exact = { λ x y h. h };
}

impl CloneEq for u8 {
    ghost exact = { λ x y h. h };
}

impl<T: CloneEq> CloneEq for Option<T> {
    ghost use Rattle.std.proofs.Common.{rules};

    ghost exact = { Prim.search (rules, T.exact) };
}

/// Clones of two values. A structure that is cloned by pairs and threes has fewer ways out on which its fields are
/// dropped.
///
/// # Errors
/// `AllocError` where memory is refused.
pub fn clone_both<S: CloneEq, T: CloneEq>(first: &S, second: &T) -> Result<(S, T), AllocError>
    ensures { IfOk result (λ copies. copies ≡ (first.now, second.now)) }
{
    let first = first.clone()?;
    let second = second.clone()?;
    Ok((first, second))
}

/// Clones of three values.
///
/// # Errors
/// `AllocError` where memory is refused.
pub fn clone_three<S: CloneEq, T: CloneEq, U: CloneEq>(
    first: &S,
    second: &T,
    third: &U,
) -> Result<(S, T, U), AllocError>
    ensures { IfOk result (λ copies. copies ≡ (first.now, second.now, third.now)) }
{
    let first = first.clone()?;
    let second = second.clone()?;
    let third = third.clone()?;
    Ok((first, second, third))
}

/// Clones of values, in their order.
///
/// # Errors
/// `AllocError` where memory is refused.
pub fn clone_items<T: CloneEq, A: Allocator>(alloc: A, items: &[T]) -> Result<Vec<T, A>, AllocError>
    ensures { IfOk result (λ copies. copies.items ≡ items.now) }
{
    let mut copies = Vec::with_capacity(alloc, items.len())?;
    for item in items {
        let copy = item.clone()?;
        copies.push(copy)?;
    }
    Ok(copies)
}
