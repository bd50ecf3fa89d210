//! A second, in one of two forms.

ghost use Rattle.std.specs.Prelude.{◌≡◌, refl};
ghost use Rattle.x509_der.specs.laws.Structure.{structure_lawful, structure_element};
ghost use Rattle.x509_names_parts.specs.Time.{time_parts, time_base, time as times};
ghost use Rattle.x509_names_parts.specs.facts.Time.{time_of, time_whole, time_same, times_apart};

use std::alloc::Allocator;
use x509_der::parts::{
    Choice, Field, GENERALIZED_TIME_TAG, Output, Reader, Ref, Structure, UTC_TIME_TAG, pass_fields,
    read_fields,
};
use x509_der::{CloneEq, FromDer, ReadError, SameEq, ToDer, TooLong};
use x509_prim::{GeneralizedTime, GeneralizedTimeAsn1, UTCTime, UtcTimeAsn1};

/// A second, in one of two forms (RFC 5280, 4.1.2.5). Each form is read in all of its years: that a year up to 2049 is
/// to stand as UTCTime isn't asked.
///
/// # Encoding
/// `Time ::= CHOICE { utcTime UTCTime, generalTime GeneralizedTime }`. Reading it takes no memory.
#[derive(Clone, Debug, Drop, PartialEq, Eq)]
pub enum Time {
    /// In the years 1950 to 2049.
    Utc(UtcTimeAsn1),
    /// In the years 0 to 9999.
    Generalized(GeneralizedTimeAsn1),
}

impl From<UtcTimeAsn1> for Time {
    ghost use Rattle.x509_names_parts.specs.declared.time.Time.TheVariants.{Utc};

    ghost from_gives = { λ moment time. time ≡ Utc moment };

    fn from(time: UtcTimeAsn1) -> Self {
        Time::Utc(time)
    }
}

impl From<UTCTime> for Time {
    ghost use Rattle.x509_names_parts.specs.declared.time.Time.TheVariants.{Utc};

    ghost from_gives = { λ moment time. time ≡ Utc moment };

    fn from(time: UTCTime) -> Self {
        Time::Utc(UtcTimeAsn1(time))
    }
}

impl From<GeneralizedTimeAsn1> for Time {
    ghost use Rattle.x509_names_parts.specs.declared.time.Time.TheVariants.{Generalized};

    ghost from_gives = { λ moment time. time ≡ Generalized moment };

    fn from(time: GeneralizedTimeAsn1) -> Self {
        Time::Generalized(time)
    }
}

impl From<GeneralizedTime> for Time {
    ghost use Rattle.x509_names_parts.specs.declared.time.Time.TheVariants.{Generalized};

    ghost from_gives = { λ moment time. time ≡ Generalized moment };

    fn from(time: GeneralizedTime) -> Self {
        Time::Generalized(GeneralizedTimeAsn1(time))
    }
}

impl CloneEq for Time {
    ghost use Rattle.std.proofs.Common.{rules};

    ghost exact = { Prim.search (rules) };
}

impl SameEq for Time {
    fn decides() {
        UtcTimeAsn1::decides();
        GeneralizedTimeAsn1::decides();
    }
}

/// The alternatives.
type Forms = Choice<UtcTimeAsn1, GeneralizedTimeAsn1>;

/// The alternative of a time, to be written.
fn written(value: &Time) -> Choice<Ref<'_, UtcTimeAsn1>, Ref<'_, GeneralizedTimeAsn1>>
    ensures { result ≡ time_parts value.now }
{
    match value {
        Time::Utc(time) => Choice::First(Ref(time)),
        Time::Generalized(time) => Choice::Second(Ref(time)),
    }
}

impl ToDer for Time {
    ghost strict = { λ v. time_base.strict (time_parts v) };

    fn put<O: Output>(&self, out: &mut [u8], at: usize) -> Result<usize, TooLong> {
        written(self).put::<O>(out, at)
    }
}

impl Structure<Forms> for Time {
    ghost fields = { time_parts };

    fn from_fields(parts: Forms) -> Self {
        match parts {
            Choice::First(time) => Time::Utc(time),
            Choice::Second(time) => Time::Generalized(time),
        }
    }

    ghost same = { time_same };

    ghost made = { λ f. (time_of f, time_whole f) };
}

impl<A: Allocator + Copy> Field<A> for Time {
    type Brief = ();

    ghost shape = { times };

    ghost brief = { λ v. tt };

    ghost lawful = { λ h. structure_lawful time_parts time_base time_same
        (⟦<Forms as Field<A>>⟧.lawful ((tt, tt), ((tt, tt), times_apart))) };

    ghost elements = { λ h. structure_element time_parts time_base
        (⟦<Forms as Field<A>>⟧.elements (tt, tt)) };

    ghost agrees = { λ v. refl };

    fn starts(byte: u8) -> bool {
        byte == UTC_TIME_TAG || byte == GENERALIZED_TIME_TAG
    }

    fn known(&self) {
        match self {
            Time::Utc(time) => Field::<A>::known(time),
            Time::Generalized(time) => Field::<A>::known(time),
        }
    }

    fn read(alloc: A, reader: &mut Reader<'_, A>) -> Result<Self, ReadError> {
        read_fields::<Self, Forms, A>(alloc, reader)
    }

    fn pass(alloc: A, reader: &mut Reader<'_, A>) -> Result<(), ReadError> {
        pass_fields::<Self, Forms, A>(alloc, reader)
    }
}

impl<A: Allocator + Copy> FromDer<A> for Time {
    ghost stands_alone = { (tt, tt) };
}
