//! A cursor over bytes, which counts the headers that it decodes and the deviations that it meets.

ghost use Rattle.std.specs.Prelude.{◌≡◌, ◌+◌, ◌≤◌, ◌<◌, ◌*◌, ◌^◌, ◌++◌, ◌∷◌, [], ℕ, List, length, drop, true, ◌==◌, IfSome, IfNone, IfOk, IfErr, Option, Some, None, sum, slice_set, slice_index, replicate};
ghost use Rattle.x509_der_parts.specs.Element.{AreBytes};
ghost use Rattle.x509_der_parts.specs.Reading.{Cursor, Ready, TakesElement, TakesRaw, PassesRest, TakesNext, Enters, Leaves, IsSpot, GoesBack, Marks, carried, listed, is_tag};
ghost use Rattle.x509_der_parts.specs.declared.errors.ReadError.TheVariants.{OutOfMemory};

use crate::deviation::{Deviation, Deviations, Place};
use crate::errors::ReadError;
use crate::header::split_first;
use std::alloc::{Allocator, Global};
use std::marker::Model;

/// Says that each item is a byte. It does nothing when it runs.
pub fn known_bytes(bytes: &[u8])
    ensures { AreBytes bytes.now }
{}

/// Where an element begins, and how many places were carried before it.
#[derive(Clone, Copy, Debug, PartialEq, Eq)]
pub struct Spot {
    /// How many bytes of the input stand before the element.
    pub start: usize,
    /// How many places were carried when it began.
    pub before: usize,
}

/// Bytes to read, and what was counted so far. It has no clone, and its bytes are reached by its calls alone:
/// each element is decoded by one reader, and so counted once.
///
/// It carries places for `read_located` alone, and takes memory for nothing else.
#[derive(Drop)]
pub struct Reader<'a, A: Allocator = Global> {
    rest: &'a [u8],
    at: usize,
    headers: usize,
    deviations: Deviations,
    places: Option<Vec<Place, A>>,
}

impl<'a, A: Allocator> Model for Reader<'a, A> {
    ghost use Rattle.x509_der_parts.specs.Reading.{Cursor, listed};

    ghost Value = { Cursor };

    ghost view = { λ r. record {
      rest = r.rest.now;
      at = r.at;
      headers = r.headers;
      counts = r.deviations;
      places = listed (λ v. v.items) r.places;
    } };
}

/// A reader of a whole input. It is for the calls on whole values alone, and no crate above the core is given it: so
/// what was read is never decoded and counted a second time.
pub fn whole_reader<A: Allocator>(bytes: &[u8]) -> Reader<'_, A>
    ensures rest { result.rest ≡ bytes.now }
    ensures at { result.at ≡ 0 }
    ensures places { result.places ≡ None }
    ensures headers { result.headers ≡ 0 }
    ensures counts { result.counts ≡ replicate 10 0 }
    ensures ready { Ready result }
{
    Reader {
        rest: bytes,
        at: 0,
        headers: 0,
        deviations: Deviations::none(),
        places: None,
    }
}

/// A reader of a whole input that carries the places of deviations.
pub fn locating_reader<A: Allocator>(alloc: A, bytes: &[u8]) -> Reader<'_, A>
    ensures rest { result.rest ≡ bytes.now }
    ensures at { result.at ≡ 0 }
    ensures places { result.places ≡ Some [] }
    ensures headers { result.headers ≡ 0 }
    ensures counts { result.counts ≡ replicate 10 0 }
    ensures ready { Ready result }
{
    Reader {
        rest: bytes,
        at: 0,
        headers: 0,
        deviations: Deviations::none(),
        places: Some(Vec::new(alloc)),
    }
}

impl<'a, A: Allocator> Reader<'a, A> {
    /// The places of deviations, where they were carried.
    pub fn into_places(self) -> Option<Vec<Place, A>>
        ensures { listed (λ v. v.items) result ≡ self.entry.places }
    {
        let Reader {
            rest: _,
            at: _,
            headers: _,
            deviations: _,
            places: carried,
        } = self;
        carried
    }

    /// Where the rest begins. Asked before an element is read, it tells `mark` what to cover.
    pub fn spot(&self) -> Spot
        ensures { IsSpot self.now result }
    {
        let before = match &self.places {
            Some(places) => places.len(),
            None => 0,
        };
        Spot {
            start: self.at,
            before,
        }
    }

    /// Whether nothing is left.
    pub fn is_empty(&self) -> bool
        ensures { result ≡ (length self.now.rest == 0) }
    {
        self.rest.is_empty()
    }

    /// How many headers were decoded, those that were refused among them.
    pub fn headers(&self) -> usize
        ensures { result ≡ self.now.headers }
    {
        self.headers
    }

    /// How many deviations of each kind were met.
    pub fn deviations(&self) -> Deviations
        ensures { result ≡ self.now.counts }
    {
        self.deviations
    }

    /// The byte that comes next. Looking at it is no decoding.
    pub fn peek(&self) -> Option<u8>
        ensures some { IfSome result (λ b. self.now.rest ≡ b ∷ drop 1 self.now.rest) }
        ensures none { IfNone result (self.now.rest ≡ []) }
    {
        match self.rest {
            [] => None,
            [first, ..] => Some(*first),
        }
    }

    /// The byte that comes next, which it goes past. It is for contents alone that begin with a byte of their own: a
    /// header that is read in this way is not counted.
    pub fn byte(&mut self) -> Option<u8>
        requires { Ready self.old }
        ensures { TakesNext self.old self.new result }
    {
        match self.rest {
            [] => None,
            [first, after @ ..] => {
                self.at += 1;
                self.rest = after;
                Some(*first)
            }
        }
    }

    /// Decodes one header and goes past its element: its tag and its content. This call and `enter` alone count headers,
    /// also where they are refused.
    ///
    /// # Errors
    /// Refused exactly where the rest begins with no element whose tag is one byte; never for memory.
    pub fn element(&mut self) -> Result<(u8, &'a [u8]), ReadError>
        requires { Ready self.old }
        ensures headers { self.new.headers ≡ self.old.headers + 1 }
        ensures counts { self.new.counts ≡ self.old.counts }
        ensures at { self.new.at + length self.new.rest ≡ self.old.at + length self.old.rest }
        ensures places { self.new.places ≡ self.old.places }
        ensures kind { IfErr result (λ e. e ≡ OutOfMemory → ⊥) }
        ensures takes { TakesElement self.old self.new result }
    {
        self.headers += 1;
        let bytes = self.rest;
        match split_first(bytes) {
            Ok((tag, content, after)) => {
                self.at += bytes.len() - after.len();
                self.rest = after;
                Ok((tag, content))
            }
            Err(error) => Err(error),
        }
    }

    /// Decodes one header and goes past its element: the whole of it, header and content.
    ///
    /// # Errors
    /// As `element`.
    pub fn whole_element(&mut self) -> Result<&'a [u8], ReadError>
        requires { Ready self.old }
        ensures headers { self.new.headers ≡ self.old.headers + 1 }
        ensures counts { self.new.counts ≡ self.old.counts }
        ensures at { self.new.at + length self.new.rest ≡ self.old.at + length self.old.rest }
        ensures places { self.new.places ≡ self.old.places }
        ensures kind { IfErr result (λ e. e ≡ OutOfMemory → ⊥) }
        ensures takes { TakesRaw self.old self.new result }
    {
        let bytes = self.rest;
        let (_tag, _content) = self.element()?;
        let size = bytes.len() - self.rest.len();
        let (whole, _) = bytes.split_at(size);
        Ok(whole)
    }

    /// Books a deviation over all that was read from a spot on.
    ///
    /// # Errors
    /// `OutOfMemory`, where places are carried and memory for one more is refused. Without places it takes no memory.
    pub fn mark(&mut self, kind: Deviation, spot: Spot) -> Result<(), ReadError>
        requires ready { Ready self.old }
        requires room { sum self.old.counts < self.old.headers }
        requires place { spot.before ≤ carried self.old.places }
        ensures { Marks self.old self.new kind spot result }
    {
        if let Some(places) = &mut self.places {
            let place = Place {
                kind,
                start: spot.start,
                end: self.at,
            };
            places.insert(spot.before, place)?;
        }
        self.deviations.add(kind);
        Ok(())
    }

    /// Decodes one header and goes into its element, which has the tag; answers what comes behind it, for `leave`.
    ///
    /// # Errors
    /// Refused exactly where the rest begins with no element of that tag; never for memory. The reader then still stands
    /// where the element would begin.
    #[inline(always)]
    pub fn enter(&mut self, tag: u8) -> Result<&'a [u8], ReadError>
        requires ready { Ready self.old }
        requires tag { is_tag tag ≡ true }
        ensures headers { self.new.headers ≡ self.old.headers + 1 }
        ensures kind { IfErr result (λ e. e ≡ OutOfMemory → ⊥) }
        ensures enters { Enters tag self.old self.new result }
    {
        self.headers += 1;
        let bytes = self.rest;
        let (found, content, after) = split_first(bytes)?;
        if found != tag {
            return Err(ReadError::WrongTag);
        }
        self.at += bytes.len() - content.len() - after.len();
        self.rest = content;
        Ok(after)
    }

    /// Goes on behind an element, from the end of its content.
    pub fn leave(&mut self, behind: &'a [u8])
        ensures { Leaves self.old self.new behind.now }
    {
        self.rest = behind;
    }

    /// All that is left, for the content of a primitive type. Looking at it is not going past it: a reader that refuses
    /// the content stands at its first byte.
    pub fn rest(&self) -> &'a [u8]
        ensures bytes { AreBytes result.now }
        ensures all { result.now ≡ self.now.rest }
    {
        let bytes = self.rest;
        known_bytes(bytes);
        bytes
    }

    /// Goes past all that is left.
    pub fn pass_rest(&mut self)
        requires { Ready self.old }
        ensures { PassesRest self.old self.new }
    {
        self.at += self.rest.len();
        self.rest = &[];
    }

    /// Stands again where a spot was taken: there the reader is refused what it read from the spot on as a whole.
    pub fn go_back(&mut self, spot: Spot)
        ensures { GoesBack self.old self.new spot }
    {
        self.at = spot.start;
    }
}
