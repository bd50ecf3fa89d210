//! Fields among which an element is passed over: it is lent, and no copy of it is made.

ghost use Rattle.std.specs.Prelude.{◌≡◌, ◌≤◌, ℕ, List, length, Option};
ghost use Rattle.x509_der.specs.Join.{Apart};
ghost use Rattle.x509_der.specs.Optional.{optional};
ghost use Rattle.x509_der.specs.RawIn.{raws_in};
ghost use Rattle.x509_der.specs.Reading.{Ready, Reads};
ghost use Rattle.x509_der.specs.Tagged.{tagged};
ghost use Rattle.x509_der.specs.Tally.{Tally};
ghost use Rattle.x509_der.specs.Types.{Deviation};
ghost use Rattle.x509_der.specs.View.{if_found, seen};
ghost use Rattle.x509_keys.specs.PrivateKeyInfos.{is_skipped, skipped_kinds};
ghost use Rattle.x509_keys.specs.Skipping.{skip_before, skip_between, skipping, Told};

use std::alloc::Allocator;
use std::marker::Model;
use x509_der::parts::{
    ContextConstructed, Field, Join, Optional, Reader, SEQUENCE_TAG, Tag, View, WholeDeviations,
    pass_over,
};
use x509_der::{Deviation, RawIn, ReadError, Tags};

/// An element that was passed over, lent. Contracts see its bytes.
#[derive(Drop)]
pub struct PassedOver<'a>(&'a [u8]);

impl<'a> Model for PassedOver<'a> {
    ghost use Rattle.std.specs.Prelude.{List, ℕ};

    ghost Value = { List ℕ };

    ghost view = { λ p. p.0.now };
}

/// An element that may be passed over, and a field.
type SkipBefore<'a, G> = Join<Optional<PassedOver<'a>>, G>;

/// The same behind a field.
type SkipBetween<'a, F, G> = Join<F, SkipBefore<'a, G>>;

/// The same behind two.
pub type Skipping<'a, E, F, G> = Join<E, SkipBetween<'a, F, G>>;

/// Passes over the element that comes next, where its tag is of the set.
///
/// # Errors
/// Refused where such a tag begins no element; never for memory.
fn pass_over_next<'a, K: Tags, A: Allocator + Copy>(
    reader: &mut Reader<'a, A>,
) -> Result<Optional<PassedOver<'a>>, ReadError>
    requires { Ready reader.old }
    ensures { Reads (optional (raws_in K.keep)) reader.old reader.new result }
{
    match reader.peek() {
        Some(byte) if RawIn::<K, A>::starts(byte) => {
            let element = pass_over::<K, A>(reader)?;
            Ok(Optional(Some(PassedOver(element))))
        }
        _ => Ok(Optional(None)),
    }
}

/// Reads what may be passed over, and the field behind it.
///
/// # Errors
/// As both.
fn read_skip_before<'a, K: Tags, G: Field<A>, A: Allocator + Copy>(
    alloc: A,
    reader: &mut Reader<'a, A>,
) -> Result<SkipBefore<'a, G>, ReadError>
    requires ready { Ready reader.old }
    requires fits { G.fits }
    requires apart { Apart (optional (raws_in K.keep)) G.shape }
    ensures { Reads (skip_before K.keep G.shape) reader.old reader.new result }
{
    let skipped = pass_over_next::<K, A>(reader)?;
    let field = G::read(alloc, reader)?;
    Ok(Join(skipped, field))
}

/// Reads a field, what may be passed over behind it, and the field behind that.
///
/// # Errors
/// As these.
fn read_skip_between<'a, F: Field<A> + Drop, K: Tags, G: Field<A>, A: Allocator + Copy>(
    alloc: A,
    reader: &mut Reader<'a, A>,
) -> Result<SkipBetween<'a, F, G>, ReadError>
    requires ready { Ready reader.old }
    requires first { F.fits }
    requires last { G.fits }
    requires second { Apart F.shape (skip_before K.keep G.shape) }
    requires skipped { Apart (optional (raws_in K.keep)) G.shape }
    ensures { Reads (skip_between F.shape K.keep G.shape) reader.old reader.new result }
{
    let first = F::read(alloc, reader)?;
    let rest = read_skip_before::<K, G, A>(alloc, reader)?;
    Ok(Join(first, rest))
}

/// Reads the fields.
///
/// # Errors
/// As these.
fn read_fields<
    'a,
    E: Field<A> + Drop,
    F: Field<A> + Drop,
    K: Tags,
    G: Field<A>,
    A: Allocator + Copy,
>(alloc: A, reader: &mut Reader<'a, A>) -> Result<Skipping<'a, E, F, G>, ReadError>
    requires ready { Ready reader.old }
    requires first { E.fits }
    requires second { F.fits }
    requires last { G.fits }
    requires told { Told E.shape F.shape K.keep G.shape }
    ensures { Reads (skipping E.shape F.shape K.keep G.shape) reader.old reader.new result }
{
    let first = E::read(alloc, reader)?;
    let rest = read_skip_between::<F, K, G, A>(alloc, reader)?;
    Ok(Join(first, rest))
}

/// Reads a SEQUENCE of the fields.
///
/// # Errors
/// As these; also where another element stands there, or its content has bytes behind the fields.
fn read_sequence<
    'a,
    E: Field<A> + Drop,
    F: Field<A> + Drop,
    K: Tags,
    G: Field<A> + Drop,
    A: Allocator + Copy,
>(alloc: A, reader: &mut Reader<'a, A>) -> Result<Skipping<'a, E, F, G>, ReadError>
    requires ready { Ready reader.old }
    requires first { E.fits }
    requires second { F.fits }
    requires last { G.fits }
    requires told { Told E.shape F.shape K.keep G.shape }
    ensures { Reads (tagged 48 (skipping E.shape F.shape K.keep G.shape)) reader.old reader.new result }
{
    let after = reader.enter(SEQUENCE_TAG)?;
    let outcome = read_fields::<E, F, K, G, A>(alloc, reader);
    let done = reader.is_empty();
    reader.leave(after);
    let fields = outcome?;
    if done {
        Ok(fields)
    } else {
        Err(ReadError::LeftOver)
    }
}

/// Reads a value by way of a SEQUENCE of fields, and books the deviation that they have. The fields must be encoded as
/// the base of the view says, and have one deviation at most.
///
/// # Errors
/// As the fields; also what `meaning` names, where they mean nothing. The reader then stands where the SEQUENCE begins.
pub fn read_skipping<
    'a,
    T: View<Skipping<'a, E, F, G>, A>,
    E: Field<A> + Drop,
    F: Field<A> + Drop,
    K: Tags,
    G: Field<A> + Drop,
    A: Allocator + Copy,
>(alloc: A, reader: &mut Reader<'a, A>) -> Result<T, ReadError>
    requires ready { Ready reader.old }
    requires first { E.fits }
    requires second { F.fits }
    requires last { G.fits }
    requires told { Told E.shape F.shape K.keep G.shape }
    requires base { (b : E × (F × (Option (List ℕ) × G))) (p : List ℕ) (y : Tally)
        → (tagged 48 (skipping E.shape F.shape K.keep G.shape)).spelled b p y → T.base.spelled b p y }
    requires one { (b : E × (F × (Option (List ℕ) × G))) (v : T) (ks : List Deviation)
        → T.view.of b ≡ Some (v, ks) → length ks ≤ 1 }
    ensures { Reads (seen T.view (tagged 48 (skipping E.shape F.shape K.keep G.shape))) reader.old reader.new result }
{
    let spot = reader.spot();
    let fields = read_sequence::<E, F, K, G, A>(alloc, reader)?;
    let (value, found) = match T::meaning(alloc, fields) {
        Ok(meant) => meant,
        Err(refusal) => {
            reader.go_back(spot);
            return Err(refusal);
        }
    };
    match found {
        WholeDeviations::Nothing => Ok(value),
        WholeDeviations::One(kind) => {
            reader.mark(kind, spot)?;
            Ok(value)
        }
        WholeDeviations::Two(..) => unreachable!(),
    }
}

/// Tags of elements that are skipped: all but that of a public key.
#[derive(Drop)]
pub(crate) struct SkippedTags;

impl Tags for SkippedTags {
    ghost keep = { is_skipped };

    fn keeps(tag: u8) -> bool {
        tag != ContextConstructed::<1>::BYTE
    }
}

/// The deviation of an element that is skipped.
pub(crate) fn deviation_of(skipped: &Option<PassedOver<'_>>) -> Option<Deviation>
    ensures { if_found result ≡ skipped_kinds skipped.now }
{
    match skipped {
        Some(_) => Some(Deviation::SkippedKeyElement),
        None => None,
    }
}

/// The same, where the element is held.
pub(crate) fn deviation_of_held<A: Allocator>(
    skipped: &Option<RawIn<SkippedTags, A>>,
) -> Option<Deviation>
    ensures { if_found result ≡ skipped_kinds skipped.now }
{
    match skipped {
        Some(_) => Some(Deviation::SkippedKeyElement),
        None => None,
    }
}
