//! A SEQUENCE of three parts, over any such, of which the last is a content: a proof about it doesn't have all that
//! stands in them.

ghost use Rattle.std.specs.Prelude.{◌≡◌, ◌++◌, ℕ, List};
ghost use Rattle.x509_der.specs.Element.{element};
ghost use Rattle.x509_der.specs.Join.{join, Apart};
ghost use Rattle.x509_der.specs.Reading.{Ready, Reads, Passes, thrifty};
ghost use Rattle.x509_der.specs.Structure.{structure};
ghost use Rattle.x509_der.specs.Tagged.{tagged};
ghost use Rattle.x509_der.specs.Tally.{Tally};
ghost use Rattle.x509_der.specs.View.{seen};

use std::alloc::Allocator;
use x509_der::parts::{
    Content, Field, Join, Judge, Output, Reader, Ref, SEQUENCE_TAG, Sequence, Structure, Tagged,
    ToContent, View, pass_sequence, pass_viewed, put_element, read_sequence, read_viewed,
};
use x509_der::{ReadError, ToDer, TooLong};

/// Puts the SEQUENCE of two fields and a content in front of a place, to be counted or written. Takes no memory.
///
/// # Errors
/// `TooLong`, exactly where more is counted than the greatest `usize`.
pub fn put_three<O: Output, F: ToDer, G: ToDer, H: ToContent>(
    first: &F,
    second: &G,
    third: &H,
    out: &mut [u8],
    at: usize,
) -> Result<usize, TooLong>
    requires { O.fits (element 48 (F.strict first.now ++ (G.strict second.now ++ H.content third.now))) out.old at }
    ensures { O.puts (element 48 (F.strict first.now ++ (G.strict second.now ++ H.content third.now))) out.old at
        out.new result }
{
    put_element::<O, _>(
        SEQUENCE_TAG,
        &Join(Ref(first), Join(Ref(second), Ref(third))),
        out,
        at,
    )
}

/// Reads a value by way of the SEQUENCE of its two fields and a content.
///
/// # Errors
/// As the fields; also where another element stands there, or its content has bytes behind them.
pub fn read_three<
    T: Structure<Join<F, Join<G, H>>> + Drop,
    F: Field<A> + Drop,
    G: Field<A> + Drop,
    H: Content<A>,
    A: Allocator + Copy,
>(alloc: A, reader: &mut Reader<'_, A>) -> Result<T, ReadError>
    requires ready { Ready reader.old }
    requires fits { F.fits × (G.fits × H.content_fits × Apart G.shape H.content_shape)
        × Apart F.shape (join (λ (j : G × H). j.0) (λ j. j.1) G.shape H.content_shape) }
    ensures { Reads (structure T.fields (tagged 48 (join (λ j. j.0) (λ j. j.1) F.shape
        (join (λ j. j.0) (λ j. j.1) G.shape H.content_shape)))) reader.old reader.new result }
{
    read_sequence::<T, Join<F, Join<G, H>>, A>(alloc, reader)
}

/// Reads a value by way of what the two fields and the content in a SEQUENCE mean.
///
/// # Errors
/// As the fields; also where another element stands there, or its content has bytes behind them, and by the name that
/// `meaning` gives, where they mean nothing.
pub fn read_three_meanings<
    T: View<Tagged<Sequence, Join<F, Join<G, H>>>, A>,
    F: Field<A> + Drop,
    G: Field<A> + Drop,
    H: Content<A> + Drop,
    A: Allocator + Copy,
>(alloc: A, reader: &mut Reader<'_, A>) -> Result<T, ReadError>
    requires ready { Ready reader.old }
    requires fits { F.fits × (G.fits × H.content_fits × Apart G.shape H.content_shape)
        × Apart F.shape (join (λ (j : G × H). j.0) (λ j. j.1) G.shape H.content_shape) }
    requires base { (b : F × (G × H)) (p : List ℕ) (y : Tally) → (tagged 48 (join (λ j. j.0) (λ j. j.1) F.shape
        (join (λ j. j.0) (λ j. j.1) G.shape H.content_shape))).spelled b p y → T.base.spelled b p y }
    ensures { Reads (seen T.view (tagged 48 (join (λ j. j.0) (λ j. j.1) F.shape
        (join (λ j. j.0) (λ j. j.1) G.shape H.content_shape)))) reader.old reader.new result }
{
    read_viewed::<T, Tagged<Sequence, Join<F, Join<G, H>>>, A>(alloc, reader)
}

/// Goes past a value by way of the SEQUENCE of its two fields and a content.
///
/// # Errors
/// As the fields; also where another element stands there, or its content has bytes behind them.
pub fn pass_three<
    T: Structure<Join<F, Join<G, H>>> + Drop,
    F: Field<A> + Drop,
    G: Field<A> + Drop,
    H: Content<A>,
    A: Allocator + Copy,
>(alloc: A, reader: &mut Reader<'_, A>) -> Result<(), ReadError>
    requires ready { Ready reader.old }
    requires fits { F.fits × (G.fits × H.content_fits × Apart G.shape H.content_shape)
        × Apart F.shape (join (λ (j : G × H). j.0) (λ j. j.1) G.shape H.content_shape) }
    ensures { Passes (thrifty (structure T.fields (tagged 48 (join (λ j. j.0) (λ j. j.1) F.shape
        (join (λ j. j.0) (λ j. j.1) G.shape H.content_shape))))) (λ v. tt) reader.old reader.new result }
{
    pass_sequence::<T, Join<F, Join<G, H>>, A>(alloc, reader)
}

/// Goes past a value by way of what the two fields and the content in a SEQUENCE mean.
///
/// # Errors
/// As the fields; also where another element stands there, or its content has bytes behind them, and by the name that
/// `meaning` gives, where they mean nothing.
pub fn pass_three_meanings<
    T: Judge<
        Tagged<Sequence, Join<F, Join<G, H>>>,
        A,
        Glimpse = (F::Brief, (G::Brief, H::ContentBrief)),
    >,
    F: Field<A> + Drop,
    G: Field<A> + Drop,
    H: Content<A> + Drop,
    A: Allocator + Copy,
>(alloc: A, reader: &mut Reader<'_, A>) -> Result<T::Kept, ReadError>
    requires ready { Ready reader.old }
    requires fits { F.fits × (G.fits × H.content_fits × Apart G.shape H.content_shape)
        × Apart F.shape (join (λ (j : G × H). j.0) (λ j. j.1) G.shape H.content_shape) }
    requires base { (b : F × (G × H)) (p : List ℕ) (y : Tally) → (tagged 48 (join (λ j. j.0) (λ j. j.1) F.shape
        (join (λ j. j.0) (λ j. j.1) G.shape H.content_shape))).spelled b p y → T.base.spelled b p y }
    requires brief { (b : F × (G × H)) → T.glimpse b ≡ (F.brief b.0, (G.brief b.1.0, H.content_brief b.1.1)) }
    ensures { Passes (thrifty (seen T.view (tagged 48 (join (λ j. j.0) (λ j. j.1) F.shape
        (join (λ j. j.0) (λ j. j.1) G.shape H.content_shape))))) T.kept reader.old reader.new result }
{
    pass_viewed::<T, Tagged<Sequence, Join<F, Join<G, H>>>, A>(alloc, reader)
}
