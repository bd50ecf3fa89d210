//! Times as elements.

ghost use Rattle.std.specs.Prelude.{◌≡◌, refl};
ghost use Rattle.x509_der.specs.PrimitiveContent.{plain};
ghost use Rattle.x509_der.specs.laws.PrimitiveContent.{plain_lawful};

use crate::date::{Date, Years};
use std::alloc::Allocator;
use std::marker::Model;
use x509_der::parts::{Content, FromContent, Output, OwnTag, Reader, ToContent};
use x509_der::{CloneEq, ReadError, SameEq, TooLong};

/// A second of the years `Y` as an element. Contracts see its six numbers.
///
/// # Encoding
/// The tag of `Y`, and the text of the second. Reading it takes no memory.
#[derive(Drop)]
#[derive_where(Clone, Debug, PartialEq, Eq)]
pub struct TimeAsn1<Y: Years>(pub Date<Y>);

impl<Y: Years> Model for TimeAsn1<Y> {
    ghost use Rattle.x509_prim_parts.specs.Calendar.{Moment};

    ghost Value = { Moment };

    ghost view = { λ t. t.0 };

    ghost inverse = { λ t. record { 0 = t } };
}

impl<Y: Years> From<Date<Y>> for TimeAsn1<Y> {
    ghost from_gives = { λ time element. element ≡ time };

    fn from(time: Date<Y>) -> Self {
        TimeAsn1(time)
    }
}

impl<Y: Years> From<TimeAsn1<Y>> for Date<Y> {
    ghost from_gives = { λ element time. time ≡ element };

    fn from(element: TimeAsn1<Y>) -> Self {
        element.0
    }
}

impl<Y: Years> CloneEq for TimeAsn1<Y> {
    ghost use Rattle.std.proofs.Common.{rules};

    ghost exact = { Prim.search (rules) };
}

impl<Y: Years> SameEq for TimeAsn1<Y> {
    fn decides() {
        Date::<Y>::decides();
    }
}

impl<Y: Years> ToContent for TimeAsn1<Y> {
    ghost content = { Y.text };

    fn put_content<O: Output>(&self, out: &mut [u8], at: usize) -> Result<usize, TooLong> {
        Y::put_text::<O>(self.0.moment(), out, at)
    }
}

impl<Y: Years, A: Allocator + Copy> Content<A> for TimeAsn1<Y> {
    type ContentBrief = ();

    ghost content_shape = { plain Y.says Y.text Y.allowed (Unit {0}) };

    ghost content_brief = { λ t. tt };

    ghost content_lawful = { λ h. plain_lawful Y.says Y.text Y.allowed (Unit {0}) Y.plain };

    ghost content_agrees = { λ t. refl };

    fn known_content(&self) {
        // To look at it is to know its invariant.
        let _ = self.0.moment();
    }

    fn read_content(_alloc: A, reader: &mut Reader<'_, A>) -> Result<Self, ReadError> {
        let Some(moment) = Y::moment_of(reader.rest()) else {
            return Err(ReadError::BadTime);
        };
        reader.pass_rest();
        Ok(TimeAsn1(Date::from_allowed(moment)))
    }

    fn pass_content(_alloc: A, reader: &mut Reader<'_, A>) -> Result<(), ReadError> {
        let Some(_moment) = Y::moment_of(reader.rest()) else {
            return Err(ReadError::BadTime);
        };
        reader.pass_rest();
        Ok(())
    }
}

impl<Y: Years, A: Allocator + Copy> FromContent<A> for TimeAsn1<Y> {
    ghost content_always = { tt };
}

impl<Y: Years> OwnTag for TimeAsn1<Y> {
    type Tag = Y;
}
