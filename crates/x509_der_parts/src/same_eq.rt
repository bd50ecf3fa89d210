//! Equality that holds of the same value alone.

use crate::deviation::{Deviation, Deviations, Place};
use crate::element::Element;
use crate::errors::{ReadError, Refused, SliceError, TooLong, WriteError};
use crate::reader::Spot;

/// A type whose `==` answers true exactly where the two values are the same.
pub trait SameEq: Eq {
    ghost use Rattle.std.specs.Prelude.{◌≡◌};
    ghost use Rattle.std.specs.Bool.{Decides};

    /// `==` decides whether two values are the same. It does nothing when it runs: its contract is the law.
    fn decides()
        ensures { (x y : Self) → Decides (Self.eq x y) (x ≡ y) };
}

impl SameEq for Deviation {
    fn decides() {}
}

impl SameEq for () {
    fn decides() {}
}

impl SameEq for Deviations {
    fn decides() {}
}

impl SameEq for Place {
    fn decides() {}
}

impl SameEq for Spot {
    fn decides() {}
}

impl SameEq for ReadError {
    fn decides() {}
}

impl SameEq for Refused {
    fn decides() {}
}

impl SameEq for Element {
    fn decides() {}
}

impl SameEq for WriteError {
    fn decides() {}
}

impl SameEq for SliceError {
    fn decides() {}
}

impl SameEq for TooLong {
    fn decides() {}
}

impl<T: SameEq> SameEq for Option<T> {
    fn decides() {
        T::decides();
    }
}
