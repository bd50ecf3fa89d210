//! Members of a structure that are values of one kind.

ghost use Rattle.std.specs.Prelude.{OnOk};
ghost use Rattle.x509_make_parts.specs.Appending.{AppendsElement};

use crate::algorithms::algorithm;
use json::Value;
use std::alloc::Allocator;
use x509_make_parts::{Done, Maker};
use x509_make_values::Fields;
use x509_make_values::bits::bits;
use x509_make_values::numbers::integer;

/// Appends an INTEGER that is a member.
///
/// # Errors
/// `Missing`, and those of `integer`.
pub fn integer_member<A: Allocator + Copy>(
    maker: &mut Maker<A>,
    fields: &mut Fields<'_, '_, A>,
    member: &'static str,
) -> Done
    ensures { OnOk result (AppendsElement 2 maker.old.out.items maker.new.out.items) }
{
    let from = maker.open();
    let node = fields.need(&mut maker.place, member)?;
    integer(maker, 0x02, node)?;
    maker.leave_from(from)
}

/// Appends an algorithm that is a member.
///
/// # Errors
/// `Missing`, and those of `algorithm`.
pub fn algorithm_member<A: Allocator + Copy>(
    maker: &mut Maker<A>,
    fields: &mut Fields<'_, '_, A>,
    member: &'static str,
) -> Done
    ensures { OnOk result (AppendsElement 48 maker.old.out.items maker.new.out.items) }
{
    let from = maker.open();
    let node = fields.need(&mut maker.place, member)?;
    algorithm(maker, node)?;
    maker.leave_from(from)
}

/// Appends a BIT STRING that is a member.
///
/// # Errors
/// `Missing`, and those of `bits`.
pub fn bits_member<A: Allocator + Copy>(
    maker: &mut Maker<A>,
    fields: &mut Fields<'_, '_, A>,
    member: &'static str,
) -> Done
    ensures { OnOk result (AppendsElement 3 maker.old.out.items maker.new.out.items) }
{
    let from = maker.open();
    let node = fields.need(&mut maker.place, member)?;
    bits(maker, 0x03, node)?;
    maker.leave_from(from)
}
