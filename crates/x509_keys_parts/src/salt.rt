//! Lengths of salt_lengths, as they are read.

ghost use Rattle.std.specs.Prelude.{◌≡◌, refl};
ghost use Rattle.x509_der.specs.Integer.{magnitude};
ghost use Rattle.x509_der.specs.laws.Meaning.{seen_lawful, seen_element};
ghost use Rattle.x509_keys_parts.specs.RsassaPss.{salt_base, salt_meaning, salt_lengths};
ghost use Rattle.x509_keys_parts.specs.facts.RsassaPssFacts.{salt_is, salt_keeps};

use std::alloc::{Allocator, Global};
use std::marker::Model;
use x509_der::parts::{
    Field, INTEGER_TAG, Judge, Output, Reader, View, WholeDeviations, pass_viewed, read_viewed,
};
use x509_der::{IntegerAsn1, Magnitude, ReadError, ToDer, TooLong};

/// An INTEGER that isn't negative. Contracts see its content.
#[derive(Drop)]
pub(crate) struct Salt<A: Allocator = Global>(IntegerAsn1<A>);

impl<A: Allocator> Model for Salt<A> {
    ghost use Rattle.std.specs.Prelude.{◌≡◌, false, List, ℕ};
    ghost use Rattle.x509_der.specs.Integer.{sign_bit};

    ghost Value = { List ℕ };

    ghost view = { λ s. s.0 };

    ghost invariant = { λ s. sign_bit s.0 ≡ false };
}

impl<A: Allocator> Salt<A> {
    /// The number.
    pub(crate) fn number(&self) -> &IntegerAsn1<A>
        ensures { result.now ≡ self.now }
    {
        &self.0
    }
}

impl<A: Allocator> ToDer for Salt<A> {
    ghost strict = { λ v. salt_lengths.strict v };

    fn put<O: Output>(&self, out: &mut [u8], at: usize) -> Result<usize, TooLong> {
        self.0.put::<O>(out, at)
    }
}

impl<A: Allocator + Copy> View<IntegerAsn1<A>, A> for Salt<A> {
    ghost base = { salt_base };

    ghost view = { salt_meaning };

    ghost keeps = { salt_keeps };

    fn meaning(_alloc: A, parts: IntegerAsn1<A>) -> Result<(Self, WholeDeviations), ReadError> {
        if parts.is_negative() {
            return Err(ReadError::BadNumber);
        }
        Ok((Salt(parts), WholeDeviations::Nothing))
    }
}

impl<A: Allocator + Copy> Judge<IntegerAsn1<A>, A> for Salt<A> {
    type Glimpse = Magnitude;

    type Kept = Magnitude;

    ghost glimpse = { magnitude };

    ghost kept = { magnitude };

    fn judge(brief: Magnitude) -> Result<(Magnitude, WholeDeviations), ReadError> {
        match brief {
            Magnitude::Negative => Err(ReadError::BadNumber),
            Magnitude::Byte(_) | Magnitude::Small | Magnitude::Large => {
                Ok((brief, WholeDeviations::Nothing))
            }
        }
    }
}

impl<A: Allocator + Copy> Field<A> for Salt<A> {
    type Brief = Magnitude;

    ghost shape = { salt_lengths };

    ghost brief = { magnitude };

    ghost lawful = { λ h. seen_lawful salt_meaning salt_base salt_keeps };

    ghost elements = { λ h. seen_element salt_meaning salt_base
        (⟦<IntegerAsn1<A> as Field<A>>⟧.elements tt) salt_is };

    ghost agrees = { λ v. refl };

    fn starts(byte: u8) -> bool {
        byte == INTEGER_TAG
    }

    fn known(&self) {
        self.0.known();
    }

    fn read(alloc: A, reader: &mut Reader<'_, A>) -> Result<Self, ReadError> {
        read_viewed::<Self, IntegerAsn1<A>, A>(alloc, reader)
    }

    fn pass(alloc: A, reader: &mut Reader<'_, A>) -> Result<Magnitude, ReadError> {
        pass_viewed::<Self, IntegerAsn1<A>, A>(alloc, reader)
    }
}
