//! Elements of a SET OF in order.

ghost use Rattle.std.specs.Prelude.{◌≡◌, ◌++◌, ◌∷◌, [], List, ℕ, take, drop, flat_map, OnOk, IfOk, Vec};
ghost use Rattle.x509_make_names.specs.SetOrder.{IsSetContent, Keeps};

use std::alloc::Allocator;
use x509_make_parts::{Done, Fault, Maker};

/// The bytes from a place on.
fn part_from(bytes: &[u8], start: usize) -> &[u8]
    ensures { result.now ≡ drop start bytes.now }
{
    if start <= bytes.len() {
        &bytes[start..]
    } else {
        &[]
    }
}

/// Takes back what was written from a place on.
///
/// # Errors
/// `OutOfMemory`.
fn taken_back<A: Allocator + Copy>(maker: &mut Maker<A>, start: usize) -> Result<Vec<u8, A>, Fault>
    ensures taken { IfOk result (λ element. element.items ≡ drop start maker.old.out.items) }
    ensures rest { OnOk result (maker.new.out.items ≡ take start maker.old.out.items) }
{
    let Ok(element) = Vec::from_slice(maker.alloc, part_from(maker.out.as_slice(), start)) else {
        return Err(Fault::OutOfMemory);
    };
    maker.out.truncate(start);
    Ok(element)
}

/// Takes back what was written from a place on, and keeps it as the last of some elements.
///
/// # Errors
/// `OutOfMemory`.
pub(crate) fn keep_from<A: Allocator + Copy>(
    maker: &mut Maker<A>,
    start: usize,
    elements: &mut Vec<Vec<u8, A>, A>,
) -> Done
    ensures rest { OnOk result (maker.new.out.items ≡ take start maker.old.out.items) }
    ensures kept { OnOk result (Keeps A (drop start maker.old.out.items) elements.old.items elements.new.items) }
{
    let element = taken_back(maker, start)?;
    match elements.push(element) {
        Ok(()) => Ok(()),
        Err(_) => Err(Fault::OutOfMemory),
    }
}

/// Appends elements one behind another.
fn put_all<A: Allocator + Copy>(maker: &mut Maker<A>, elements: &[Vec<u8, A>]) -> Done
    ensures { OnOk result (maker.new.out.items ≡ maker.old.out.items ++ flat_map (λ (e : Vec ℕ A). e.items) elements.now) }
{
    for element in elements {
        maker.put(element.as_slice())?;
    }
    Ok(())
}

/// Appends the elements of a SET OF in the order of DER (X.690, 11.6).
///
/// # Errors
/// `OutOfMemory`.
pub(crate) fn put_sorted<A: Allocator + Copy>(
    maker: &mut Maker<A>,
    mut elements: Vec<Vec<u8, A>, A>,
) -> Done
    ensures { OnOk result ((content : List ℕ) × IsSetContent (λ (e : Vec ℕ A). e.items) elements.items content
        × (maker.new.out.items ≡ maker.old.out.items ++ content)) }
{
    if elements.sort().is_err() {
        return Err(Fault::OutOfMemory);
    }
    put_all(maker, elements.as_slice())
}
