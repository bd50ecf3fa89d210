//! A SEQUENCE that is read with the slice of its first field, as the part that a signature covers.

ghost use Rattle.std.specs.Prelude.{◌≡◌, ◌+◌, ◌≤◌, IfOk, IfErr};
ghost use Rattle.x509_der_parts.specs.Calls.{NoWhole};
ghost use Rattle.x509_der_parts.specs.FirstField.{in_sequence, FirstPart, StartsContent, TakesBoth};
ghost use Rattle.x509_der_parts.specs.Join.{Apart};
ghost use Rattle.x509_der_parts.specs.Reading.{Ready};
ghost use Rattle.x509_der_parts.specs.declared.errors.ReadError.TheVariants.{OutOfMemory};

use crate::deviation::Deviations;
use crate::errors::ReadError;
use crate::join::Join;
use crate::reader::{Reader, whole_reader};
use crate::structure::Structure;
use crate::tags::SEQUENCE_TAG;
use crate::traits::{Content, Field};
use std::alloc::Allocator;

/// A value that was read from a SEQUENCE, with the bytes of its first field.
#[derive(Drop)]
pub struct FirstField<'a, T> {
    /// The value.
    pub value: T,
    /// The bytes that encode the value's first field.
    pub slice: &'a [u8],
    /// How many bytes of the input stand before them: the header of the SEQUENCE.
    pub start: usize,
    /// How many deviations of each kind stand inside the slice.
    pub inside: Deviations,
    /// How many stand outside of it.
    pub outside: Deviations,
}

/// Reads one field and then another, and answers where the first one ends, with the deviations that were counted there.
///
/// # Errors
/// As the fields.
fn read_both<F: Field<A> + Drop, G: Content<A>, A: Allocator + Copy>(
    alloc: A,
    reader: &mut Reader<'_, A>,
) -> Result<(Join<F, G>, usize, Deviations), ReadError>
    requires ready { Ready reader.old }
    requires first { F.fits }
    requires second { G.content_fits }
    requires apart { Apart F.shape G.content_shape }
    ensures { TakesBoth F.shape G.content_shape reader.old reader.new result }
{
    let first = F::read(alloc, reader)?;
    let end = reader.spot().start;
    let inside = reader.deviations();
    let second = G::read_content(alloc, reader)?;
    Ok((Join(first, second), end, inside))
}

/// Reads a value from the whole of the bytes, which are a SEQUENCE of the fields `F` and `G`, and answers the bytes of
/// the first field with it, as a signature covers them. The deviations inside those bytes are counted apart from the
/// others: where there are none inside, the bytes are the first field's DER encoding, and else they aren't.
///
/// # Errors
/// Refused exactly where the grammar relates the bytes to no value, or memory is refused. Fields that can be read
/// without memory are never refused for it.
pub fn read_first_field<
    'a,
    T: Structure<Join<F, G>> + Drop,
    F: Field<A> + Drop,
    G: Content<A>,
    A: Allocator + Copy,
>(alloc: A, bytes: &'a [u8]) -> Result<FirstField<'a, T>, ReadError>
    requires first { F.fits }
    requires second { G.content_fits }
    requires apart { Apart F.shape G.content_shape }
    ensures ok { IfOk result (λ r. FirstPart T.fields F.shape G.content_shape bytes.now r.value r.slice.now r.inside
        r.outside) }
    ensures start { IfOk result (λ r. StartsContent bytes.now r.start) }
    ensures err { IfErr result (NoWhole (in_sequence T.fields F.shape G.content_shape) bytes.now) }
    ensures frugal { F.shape.frugal → G.content_shape.frugal → IfErr result (λ e. e ≡ OutOfMemory → ⊥) }
{
    let mut reader = whole_reader::<A>(bytes);
    let behind = reader.enter(SEQUENCE_TAG)?;
    let start = reader.spot().start;
    let (fields, end, inside) = read_both::<F, G, A>(alloc, &mut reader)?;
    let value = T::from_fields(fields);
    if !reader.is_empty() {
        return Err(ReadError::LeftOver);
    }
    if !behind.is_empty() {
        return Err(ReadError::LeftOver);
    }
    let slice = &bytes[start..end];
    let outside = reader.deviations().since(&inside);
    Ok(FirstField {
        value,
        slice,
        start,
        inside,
        outside,
    })
}
