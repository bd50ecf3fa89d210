//! A walk over elements that stand one behind another.

ghost use Rattle.std.specs.Prelude.{◌≡◌, ◌+◌, ◌<◌, ◌≤◌, ◌^◌, List, [], ℕ, length};
ghost use Rattle.x509_fields.specs.Slices.{Covers};
ghost use Rattle.x509_fields.specs.Walks.{Counts, Inside, Steps, StepsIf, StepsOn, StepsUnless};

use crate::span::Span;
use std::marker::Model;
use x509_der::parts::first_element;

/// The elements of a content, one behind another, and where they stand in an input. Contracts see what is left of the
/// content, and how many bytes of the input stand before it.
#[derive(Drop)]
pub struct Walk<'a> {
    rest: &'a [u8],
    at: usize,
}

impl<'a> Model for Walk<'a> {
    ghost use Rattle.std.specs.Prelude.{◌+◌, ◌<◌, ◌^◌, length};
    ghost use Rattle.x509_fields.specs.Walks.{Walk as Walked};

    ghost Value = { Walked };

    ghost view = { λ w. record { rest = w.rest.now; at = w.at } };

    ghost invariant = { λ w. w.at + length w.rest.now < 2 ^ 64 };
}

impl<'a> Walk<'a> {
    /// The elements that an input is made of.
    pub fn of(bytes: &'a [u8]) -> Self
        ensures rest { result.rest ≡ bytes.now }
        ensures at { result.at ≡ 0 }
    {
        Walk { rest: bytes, at: 0 }
    }

    /// The elements in a span of an input: none where the span doesn't lie in it.
    pub fn over(bytes: &'a [u8], span: Span) -> Self
        ensures covered { (slice : List ℕ) → Covers bytes.now span.start span.end slice → (result.rest ≡ slice) × (result.at ≡ span.start) }
        ensures outside { (span.start ≤ span.end → span.end ≤ length bytes.now → ⊥) → (result.rest ≡ []) × (result.at ≡ span.start) }
    {
        let at = span.start;
        match span.slice(bytes) {
            Some(rest) => Walk { rest, at },
            None => Walk { rest: &[], at },
        }
    }

    /// Goes past the next element, and answers where it stands; where none does, the walk stays.
    pub fn step(&mut self) -> Option<Span>
        ensures { StepsOn self.old self.new result }
    {
        let start = self.at;
        let Some(element) = first_element(self.rest) else {
            return None;
        };
        let (_, after) = self.rest.split_at(element.end);
        let end = start + element.end;
        self.rest = after;
        self.at = end;
        Some(Span { start, end })
    }

    /// Goes past the next element, and answers where it stands: an empty span where none does.
    pub fn next(&mut self) -> Span
        ensures { Steps self.old self.new result }
    {
        let start = self.at;
        match self.step() {
            Some(span) => span,
            None => Span { start, end: start },
        }
    }

    /// How many elements are left, up to where no element comes next.
    pub fn count(&self) -> usize
        ensures { Counts self.now.rest result }
    {
        let mut walk = Walk {
            rest: self.rest,
            at: self.at,
        };
        let mut count: usize = 0;
        'elements: while let Some(_span) = walk.step() {
            count += 1;
        }
        count
    }

    /// Goes past the next element where the first byte that is left is the tag, and answers where it stands; else the walk
    /// stays. The span is empty where no element stands there.
    pub fn next_if(&mut self, tag: u8) -> Option<Span>
        ensures { StepsIf tag self.old self.new result }
    {
        match self.rest {
            [first, ..] if *first == tag => Some(self.next()),
            _ => None,
        }
    }

    /// Goes past the next element where bytes are left and the first isn't the tag, and answers where it stands; else the
    /// walk stays. The span is empty where no element stands there.
    pub fn next_unless(&mut self, tag: u8) -> Option<Span>
        ensures { StepsUnless tag self.old self.new result }
    {
        match self.rest {
            [first, ..] if *first != tag => Some(self.next()),
            _ => None,
        }
    }

    /// The elements in the next element: none where no element comes next.
    pub fn inside(&self) -> Walk<'a>
        ensures { Inside self.now result }
    {
        match first_element(self.rest) {
            Some(element) => {
                let (whole, _) = self.rest.split_at(element.end);
                let (_, content) = whole.split_at(element.start);
                Walk {
                    rest: content,
                    at: self.at + element.start,
                }
            }
            None => Walk {
                rest: &[],
                at: self.at,
            },
        }
    }
}
