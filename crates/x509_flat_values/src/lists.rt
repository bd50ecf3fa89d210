//! Lists, of which each item is told.

ghost use Rattle.std.specs.Prelude.{◌≡◌, ◌+◌, true, List, ℕ};
ghost use Rattle.x509_der.specs.Element.{element, header, is_tag};
ghost use Rattle.x509_der.specs.Fields.{Stands};
ghost use Rattle.x509_der.specs.Tally.{Tally};
ghost use Rattle.x509_fields.specs.Spans.{FieldIn};
ghost use Rattle.x509_values.specs.Told.{EachTold, Fills};
ghost use Rattle.x509_der.specs.Items.{ItemsAt, items};
ghost use Rattle.x509_der.specs.Tagged.{tagged};
ghost use Rattle.x509_flat_values.specs.Lists.{ListFills, ListTold};

use crate::requests::front_of;
use picky_asn1_x509::{FromDer, check};
use std::alloc::Allocator;
use x509_der::Asn1SequenceOf;
use x509_der::laws::spellings_are_lawful;
use x509_fields::Span;
use x509_flat::status::{Sized, unsized_of};
use x509_values::elements::{Element, Elements};
use x509_values::put::put;

/// What is told of an item of a list.
pub(crate) trait Placing<T: FromDer<A>, A: Allocator + Copy> {
    /// Where it stands.
    type Place: Copy;

    /// What is told of an item in a slice of an input, behind so many bytes.
    ghost tells: { List ℕ → Tally → T → ℕ → List ℕ → Self.Place → Type 0 };

    /// Where the item stands that is an element.
    fn placed(item: Element<'_>) -> Self::Place
        ensures { (v : T) (n : ℕ) (slice string : List ℕ) (whole : Tally) → Stands T.shape v n slice string whole →
            slice ≡ element item.entry.tag item.entry.inside.rest → item.entry.inside.at ≡ n + header item.entry.inside.rest →
            tells string whole v n slice result };
}

/// Writes where the items stand that are walked over, whatever items they are, in order, as far as the slice has room, and
/// answers how many there are.
pub(crate) fn each_told<P: Placing<T, A>, T: FromDer<A>, A: Allocator + Copy>(
    walk: Elements<'_>,
    out: &mut [P::Place],
) -> usize
    ensures { (v : List T) (n : ℕ) (slice string : List ℕ) (whole : Tally) (h : ItemsAt T.shape string whole v n slice) →
        walk.entry.rest ≡ slice → walk.entry.at ≡ n →
        Fills (EachTold T.shape string whole (P.tells string whole) v n slice h) out.old out.new result }
{
    spellings_are_lawful::<T, A>();
    let mut items = walk;
    let mut told: usize = 0;
    'items: while let Some(item) = items.next() {
        put(P::placed(item), told, out);
        told += 1;
    }
    told
}

/// Writes where the items stand of the list that a span of an input encodes, under whatever tag and whatever list it is, in order,
/// as far as the slice has room, and answers how many there are. Of a span that encodes no such list it says nothing.
pub(crate) fn items_within<P: Placing<T, A>, T: FromDer<A>, A: Allocator + Copy>(
    bytes: &[u8],
    span: Span,
    out: &mut [P::Place],
) -> usize
    ensures { (t : ℕ) → is_tag t ≡ true → (v : List T) (whole : Tally) (f : FieldIn (tagged t (items T.shape)) v span bytes.now whole) →
        Fills (ListTold t T.shape P.tells v span.start f.slice bytes.now whole) out.old out.new result }
{
    spellings_are_lawful::<T, A>();
    let mut list = Elements::over(bytes, span);
    each_told::<P, T, A>(list.take().inside, out)
}

/// Writes where the items stand of the list that the bytes encode, in order, as far as the slice has room, and tells how many
/// there are. Takes no memory.
pub(crate) fn list_told<P: Placing<T, A>, T: FromDer<A>, A: Allocator + Copy>(
    alloc: A,
    bytes: &[u8],
    out: &mut [P::Place],
) -> Sized
    ensures { ListFills T.shape P.tells bytes.now out.old out.new result.status result.size }
{
    spellings_are_lawful::<Asn1SequenceOf<T, A>, A>();
    let whole = Span {
        start: 0,
        end: bytes.len(),
    };
    let room = out.len();
    match check::<Asn1SequenceOf<T, A>, A>(alloc, bytes) {
        Ok(_deviations) => front_of(items_within::<P, T, A>(bytes, whole, out), room),
        Err(error) => unsized_of(error),
    }
}
