//! A field, and then another that the first one's value chooses.

ghost use Rattle.std.specs.Prelude.{◌≡◌, ◌++◌, ◌||◌, refl};
ghost use Rattle.x509_der_parts.specs.facts.Lists.{same_append, same_pair};
ghost use Rattle.x509_der_parts.specs.DefinedBy.{defined_by, KeyApart};
ghost use Rattle.x509_der_parts.specs.laws.DefinedBy.{defined_by_lawful};
ghost use Rattle.x509_der_parts.specs.Reading.{MayGoBack};

use crate::errors::{ReadError, TooLong};
use crate::output::Output;
use crate::reader::{Reader, Spot};
use crate::traits::{AnyDefinedBy, Field, ToDer};
use std::alloc::Allocator;
use std::marker::Model;

/// Goes back to a key that allows no value that is known, and to one whose value is missing: it is the key that is told,
/// and not what stands behind the whole.
fn stand_at_key<A: Allocator>(error: ReadError, reader: &mut Reader<'_, A>, key: Spot, value: Spot)
    ensures { MayGoBack reader.old reader.new key }
{
    let is_at_key = error == ReadError::Unsupported || reader.is_empty();
    if is_at_key && reader.spot().start == value.start {
        reader.go_back(key);
    }
}

/// A key, and then the value whose encoding the key chooses: a field DEFINED BY another, as a value by its object
/// identifier. The key is any field that may be followed by whatever begins a value. Contracts see the pair of the two.
///
/// # Errors
/// A read is refused where the key is, or where no value that the key allows follows it. Where the key allows none that is
/// known, and where none follows at all, the reader then stands where the key begins.
#[derive(Drop)]
pub struct DefinedBy<K, V>(pub K, pub V);

impl<K, V> Model for DefinedBy<K, V> {
    ghost Value = { K × V };

    ghost view = { λ c. (c.0, c.1) };
}

impl<K: ToDer, V: ToDer> ToDer for DefinedBy<K, V> {
    ghost strict = { λ c. K.strict c.0 ++ V.strict c.1 };

    fn put<O: Output>(&self, out: &mut [u8], at: usize) -> Result<usize, TooLong> {
        let at = self.1.put::<O>(out, at)?;
        self.0.put::<O>(out, at)
    }
}

impl<A: Allocator + Copy, K: Field<A> + Drop, V: AnyDefinedBy<K, A>> Field<A> for DefinedBy<K, V> {
    type Brief = (V::Kind, V::BriefBehind);

    ghost shape = { defined_by (λ c. c.0) (λ c. c.1) K.shape V.shapes V.starts V.avoids };

    ghost brief = { λ c. (V.kind c.0, V.brief_behind c.1) };

    ghost fits = { K.fits × KeyApart K.shape V.starts };

    ghost lawful = { λ h. defined_by_lawful (λ c. c.0) (λ c. c.1)
        (same_pair (λ c. c.0) (λ c. c.1) (λ a b. (a, b)) (λ x. refl)) K.shape V.shapes V.starts V.avoids
        (K.lawful h.0) V.family h.1 };

    ghost alone = { ⊥ };

    ghost elements = { λ h. absurd h };

    ghost agrees = { λ c. same_append (K.agrees c.0) (V.shapes_agree c.0 c.1) };

    fn starts(byte: u8) -> bool {
        K::starts(byte) || V::starts(byte)
    }

    fn known(&self) {
        self.0.known();
        self.1.known_behind(&self.0);
    }

    fn read(alloc: A, reader: &mut Reader<'_, A>) -> Result<Self, ReadError> {
        let spot = reader.spot();
        let key = K::read(alloc, reader)?;
        let behind = reader.spot();
        match V::read_behind(alloc, &key, reader) {
            Ok(value) => Ok(DefinedBy(key, value)),
            Err(error) => {
                stand_at_key(error, reader, spot, behind);
                Err(error)
            }
        }
    }

    fn pass(alloc: A, reader: &mut Reader<'_, A>) -> Result<Self::Brief, ReadError> {
        let spot = reader.spot();
        let kind = V::pass_key(alloc, reader)?;
        let behind = reader.spot();
        match V::pass_behind(alloc, kind, reader) {
            Ok(brief) => Ok((kind, brief)),
            Err(error) => {
                stand_at_key(error, reader, spot, behind);
                Err(error)
            }
        }
    }
}
