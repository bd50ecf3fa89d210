//! The order of the attributes of a name.

ghost use Rattle.std.specs.Prelude.{◌≡◌, ◌↔◌, ◌<◌, ◌+◌, Any, IfOk, IsTrue, length};
ghost use Rattle.x509_names.specs.Attributes.{attribute};
ghost use Rattle.x509_findings_memory.specs.Orders.{Descends, DescendsAt, HasUnsorted, IsUnsorted, octet_at};

use std::alloc::{AllocError, Allocator};
use x509_der::to_vec;
use x509_names::{AttributeTypeAndValue, Name, RelativeDistinguishedName};

/// The octet of an encoding at a place, or 0 behind its end.
fn octet_at(encoding: &[u8], place: usize) -> u8
    ensures { result ≡ octet_at encoding.now place }
{
    match encoding.get(place) {
        Some(octet) => *octet,
        None => 0,
    }
}

/// Whether the second of two encodings is the lesser one.
fn descends(first: &[u8], second: &[u8]) -> bool
    ensures { IsTrue result ↔ Descends first.now second.now }
{
    let most = first.len().max(second.len());
    for place in 0..most {
        let (one, other) = (octet_at(first, place), octet_at(second, place));
        if one != other {
            return other < one;
        }
    }
    false
}

/// The encoding of an attribute.
fn encoding_of<A: Allocator, B: Allocator>(
    alloc: B,
    value: &AttributeTypeAndValue<A>,
) -> Result<Vec<u8, B>, AllocError>
    ensures { IfOk result (λ bytes. bytes.items ≡ attribute.strict value.now) }
{
    match to_vec(alloc, value) {
        Ok(bytes) => Ok(bytes),
        Err(_refused) => Err(AllocError),
    }
}

/// Whether the attribute at a place of a set has a greater encoding than the one behind it.
#[tactic(auto, unfolding(crate::specs::Orders::DescendsAt))]
fn descends_at<A: Allocator, B: Allocator + Copy>(
    alloc: B,
    set: &[AttributeTypeAndValue<A>],
    index: usize,
) -> Result<bool, AllocError>
    requires { index + 1 < length set.now }
    ensures { IfOk result (λ told. IsTrue told ↔ DescendsAt set.now index) }
{
    let first = encoding_of(alloc, &set[index])?;
    let second = encoding_of(alloc, &set[index + 1])?;
    Ok(descends(first.as_slice(), second.as_slice()))
}

/// Whether an attribute of a set stands in front of a lesser one.
fn is_unsorted<A: Allocator, B: Allocator + Copy>(
    alloc: B,
    set: &[AttributeTypeAndValue<A>],
) -> Result<bool, AllocError>
    ensures { IfOk result (λ told. IsTrue told ↔ IsUnsorted set.now) }
{
    for index in 0..set.len().saturating_sub(1) {
        if descends_at(alloc, set, index)? {
            return Ok(true);
        }
    }
    Ok(false)
}

/// Whether one of some sets has an attribute in front of a lesser one.
fn some_unsorted<A: Allocator, B: Allocator + Copy>(
    alloc: B,
    sets: &[RelativeDistinguishedName<A>],
) -> Result<bool, AllocError>
    ensures { IfOk result (λ told. IsTrue told ↔ Any IsUnsorted sets.now) }
{
    for set in sets {
        if is_unsorted(alloc, set.0.as_slice())? {
            return Ok(true);
        }
    }
    Ok(false)
}

/// Whether a set of a name has its attributes in another order than that of DER (X.690, 11.6). Takes memory for the
/// encodings of two attributes at a time, where a set has two or more.
///
/// # Errors
/// `AllocError`, where memory is refused, or an encoding would be longer than the greatest `usize`.
pub fn has_unsorted<A: Allocator, B: Allocator + Copy>(
    alloc: B,
    name: &Name<A>,
) -> Result<bool, AllocError>
    ensures { IfOk result (λ told. IsTrue told ↔ HasUnsorted name.now) }
{
    some_unsorted(alloc, name.0.0.as_slice())
}
