//! What the two types of times have in common.

ghost use Rattle.std.specs.Prelude.{◌≡◌, ◌↔◌, ℕ, List, IsTrue, SomeIff, IfSome, IfNone};
ghost use Rattle.x509_der.specs.Element.{form_bit};
ghost use Rattle.x509_der.specs.laws.PrimitiveContent.{IsPlain};
ghost use Rattle.x509_prim_parts.specs.Calendar.{Moment, IsMoment, moment};

use crate::calendar::DateTime;
use std::marker::{Model, PhantomData};
use x509_der::parts::{Output, Tag};
use x509_der::{CloneEq, SameEq, TooLong};

/// The years of a type of times, at the level of types, with the type's tag and its texts.
pub trait Years: Tag {
    /// The seconds of these years.
    ghost allowed: { Moment → Type 0 };

    /// Each of them is a second of a day of the calendar.
    ghost lawful: { (m : Moment) → allowed m → IsMoment m };

    /// The seconds that a text says.
    ghost says: { Moment → List ℕ → Type 0 };

    /// The text of a second.
    ghost text: { Moment → List ℕ };

    /// A text says one second, of these years, and is its text; and the text of each second of these years says it.
    ghost plain: { IsPlain says text allowed };

    /// Whether a second is one of these years. Takes no memory.
    fn have(moment: DateTime) -> bool
        ensures { IsTrue result ↔ allowed moment };

    /// The second that a text says. Takes no memory.
    fn moment_of(content: &[u8]) -> Option<DateTime>
        ensures some { IfSome result (λ t. says t content.now) }
        ensures none { IfNone result ((t : Moment) → says t content.now → ⊥) };

    /// Puts the text of a second in front of a place, to be counted or written. Takes no memory.
    ///
    /// # Errors
    /// `TooLong`, exactly where more is counted than the greatest `usize`.
    fn put_text<O: Output>(moment: &DateTime, out: &mut [u8], at: usize) -> Result<usize, TooLong>
        requires { O.fits (text moment.now) out.old at }
        ensures { O.puts (text moment.now) out.old at out.new result };

    /// The tag is a primitive one.
    ghost primitive: { form_bit Self.BYTE ≡ 0 };
}

/// A second of a day of the years `Y`, in the Gregorian calendar and in UTC. Contracts see its six numbers.
#[derive(Drop)]
#[derive_where(Clone, Debug, PartialEq, Eq)]
pub struct Date<Y: Years> {
    moment: DateTime,
    years: PhantomData<Y>,
}

impl<Y: Years> Model for Date<Y> {
    ghost use Rattle.x509_prim_parts.specs.Calendar.{Moment};

    ghost Value = { Moment };

    ghost view = { λ t. t.moment };

    ghost invariant = { λ t. Y.allowed t.moment };

    ghost inverse = { λ t. record { moment = t; years = record {} } };
}

impl<Y: Years> Date<Y> {
    /// A second of which the caller knows that it is one of these years.
    pub(crate) fn from_allowed(moment: DateTime) -> Self
        requires { Y.allowed moment }
        ensures { result ≡ moment }
    {
        Date {
            moment,
            years: PhantomData,
        }
    }

    /// This second: month and day from 1, hour to 23, minute and second to 59. None, exactly where the type doesn't
    /// have the year or there is no such second. Takes no memory.
    pub fn new(year: u16, month: u8, day: u8, hour: u8, minute: u8, second: u8) -> Option<Self>
        ensures { SomeIff result (Y.allowed (moment year month day hour minute second))
            (moment year month day hour minute second) }
    {
        let moment = DateTime::new(year, month, day, hour, minute, second)?;
        if !Y::have(moment) {
            return None;
        }
        Some(Date::from_allowed(moment))
    }

    /// The year, one of those of the type.
    pub fn year(&self) -> u16
        ensures year { result ≡ self.now.year }
        ensures lawful { Y.allowed self.now }
    {
        self.moment.year()
    }

    /// The month, from 1.
    pub fn month(&self) -> u8
        ensures { result ≡ self.now.month }
    {
        self.moment.month()
    }

    /// The day of the month, from 1.
    pub fn day(&self) -> u8
        ensures { result ≡ self.now.day }
    {
        self.moment.day()
    }

    /// The hour: 0 to 23.
    pub fn hour(&self) -> u8
        ensures { result ≡ self.now.hour }
    {
        self.moment.hour()
    }

    /// The minute: 0 to 59.
    pub fn minute(&self) -> u8
        ensures { result ≡ self.now.minute }
    {
        self.moment.minute()
    }

    /// The second: 0 to 59.
    pub fn second(&self) -> u8
        ensures { result ≡ self.now.second }
    {
        self.moment.second()
    }

    /// The six numbers.
    pub(crate) fn moment(&self) -> &DateTime
        ensures moment { result.now ≡ self.now }
        ensures lawful { Y.allowed self.now }
    {
        &self.moment
    }
}

impl<Y: Years> CloneEq for Date<Y> {
    ghost use Rattle.std.proofs.Common.{rules};

    ghost exact = { Prim.search (rules) };
}

impl<Y: Years> SameEq for Date<Y> {
    fn decides() {}
}
