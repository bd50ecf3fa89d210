//! A SEQUENCE that is gone past, with the slice of its first field, as the part that a signature covers.

ghost use Rattle.std.specs.Prelude.{IfOk, IfErr};
ghost use Rattle.x509_der_parts.specs.Calls.{NoValue};
ghost use Rattle.x509_der_parts.specs.FirstField.{in_sequence, FirstPart, StartsContent, PassesBoth};
ghost use Rattle.x509_der_parts.specs.Join.{Apart};
ghost use Rattle.x509_der_parts.specs.Reading.{Ready, thrifty};

use crate::deviation::Deviations;
use crate::errors::ReadError;
use crate::join::Join;
use crate::reader::{Reader, whole_reader};
use crate::structure::Structure;
use crate::tags::SEQUENCE_TAG;
use crate::traits::{Content, Field};
use std::alloc::Allocator;

/// The bytes of the first field of a SEQUENCE, with the deviations inside of them and outside.
#[derive(Drop)]
pub struct FirstSlice<'a> {
    /// The bytes that encode the first field.
    pub slice: &'a [u8],
    /// How many bytes of the input stand before them: the header of the SEQUENCE.
    pub start: usize,
    /// How many deviations of each kind stand inside the slice.
    pub inside: Deviations,
    /// How many stand outside of it.
    pub outside: Deviations,
}

/// Goes past one field and then another, and answers where the first one ends, with the deviations that were counted
/// there.
///
/// # Errors
/// As the fields.
fn pass_both<F: Field<A>, G: Content<A>, A: Allocator + Copy>(
    alloc: A,
    reader: &mut Reader<'_, A>,
) -> Result<(usize, Deviations), ReadError>
    requires ready { Ready reader.old }
    requires first { F.fits }
    requires second { G.content_fits }
    requires apart { Apart F.shape G.content_shape }
    ensures { PassesBoth (thrifty F.shape) (thrifty G.content_shape) reader.old reader.new result }
{
    let _first = F::pass(alloc, reader)?;
    let end = reader.spot().start;
    let inside = reader.deviations();
    let _second = G::pass_content(alloc, reader)?;
    Ok((end, inside))
}

/// Checks the whole of the bytes as `read_first_field` reads them, and answers the bytes of the first field, as a
/// signature covers them. It builds no value and takes no memory.
///
/// # Errors
/// Refused exactly where the grammar relates the bytes to no value; never for memory.
pub fn check_first_field<
    'a,
    T: Structure<Join<F, G>>,
    F: Field<A>,
    G: Content<A>,
    A: Allocator + Copy,
>(alloc: A, bytes: &'a [u8]) -> Result<FirstSlice<'a>, ReadError>
    requires first { F.fits }
    requires second { G.content_fits }
    requires apart { Apart F.shape G.content_shape }
    ensures ok { IfOk result (λ r. (value : T) × FirstPart T.fields F.shape G.content_shape bytes.now value r.slice.now
        r.inside r.outside) }
    ensures start { IfOk result (λ r. StartsContent bytes.now r.start) }
    ensures err { IfErr result (NoValue (in_sequence T.fields F.shape G.content_shape) bytes.now) }
{
    let mut reader = whole_reader::<A>(bytes);
    let behind = reader.enter(SEQUENCE_TAG)?;
    let start = reader.spot().start;
    let (end, inside) = pass_both::<F, G, A>(alloc, &mut reader)?;
    if !reader.is_empty() {
        return Err(ReadError::LeftOver);
    }
    if !behind.is_empty() {
        return Err(ReadError::LeftOver);
    }
    let slice = &bytes[start..end];
    let outside = reader.deviations().since(&inside);
    Ok(FirstSlice {
        slice,
        start,
        inside,
        outside,
    })
}
