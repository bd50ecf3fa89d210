//! Extensions.

ghost use Rattle.std.specs.Prelude.{OnOk};
ghost use Rattle.x509_make_parts.specs.Appending.{Appends, AppendsElement};

use crate::extension_values::{
    authority, constraints, value_given, value_integer, value_names, value_octets, value_purposes,
    value_usage,
};
use crate::members::flag_in;
use json::Value;
use std::alloc::Allocator;
use x509_der::ObjectIdentifier;
use x509_make_parts::node::{check_members, items_of};
use x509_make_parts::{Done, Maker};
use x509_make_values::Fields;
use x509_make_values::identifiers::{own_identifier, put_identifier};

/// The last arc of an extension of RFC 5280 under 2.5.29, id-ce.
fn arc_of<A: Allocator>(identifier: &ObjectIdentifier<A>) -> Option<u64> {
    if identifier.len() == 4 && identifier.starts_under(&[2, 5, 29]) {
        identifier.arc(3)
    } else {
        None
    }
}

/// Appends what an extension holds: of those that are known by their fields, and of any other the octets that the
/// member `value` gives.
fn held<A: Allocator + Copy>(
    maker: &mut Maker<A>,
    identifier: &ObjectIdentifier<A>,
    node: &Value<'_, A>,
    fields: &mut Fields<'_, '_, A>,
) -> Done
    ensures { OnOk result (Appends maker.old.out.items maker.new.out.items) }
{
    match arc_of(identifier) {
        Some(14) => value_octets(maker, fields),
        Some(15) => value_usage(maker, fields),
        Some(17 | 18) => value_names(maker, node, fields),
        Some(19) => constraints(maker, fields),
        Some(20) => value_integer(maker, fields),
        Some(35) => authority(maker, fields),
        Some(37) => value_purposes(maker, node, fields),
        _ => value_given(maker, fields),
    }
}

/// Appends that an extension is critical, where it is: as it says, or as is usual.
///
/// # Errors
/// `Not` where it says neither true nor false.
pub(crate) fn critical<A: Allocator + Copy>(
    maker: &mut Maker<A>,
    fields: &mut Fields<'_, '_, A>,
    usual: bool,
) -> Done
    ensures { OnOk result (Appends maker.old.out.items maker.new.out.items) }
{
    let mut is_critical = usual;
    if let Some(told) = fields.enter(&mut maker.place, "critical") {
        is_critical = flag_in(&mut maker.place, told)?;
        maker.place.leave();
    }
    if is_critical {
        return maker.element(0x01, &[0xff]);
    }
    Ok(())
}

/// Appends an extension.
fn extension<A: Allocator + Copy>(maker: &mut Maker<A>, node: &Value<'_, A>) -> Done
    ensures { OnOk result (AppendsElement 48 maker.old.out.items maker.new.out.items) }
{
    let start = maker.open();
    let mut fields = Fields::of(&mut maker.place, node)?;
    let identifier = own_identifier(maker.alloc, &mut maker.place, &mut fields)?;
    put_identifier(maker, 0x06, &identifier)?;
    critical(maker, &mut fields, false)?;
    let string = maker.open();
    held(maker, &identifier, node, &mut fields)?;
    maker.close(string, 0x04)?;
    fields.finish(&mut maker.place)?;
    maker.close(start, 0x30)
}

/// Appends extensions one behind another: the items of a node, or those of a list.
///
/// # Errors
/// `Not` where there is no list, and those of what stands in it.
pub fn extension_items<A: Allocator + Copy>(maker: &mut Maker<A>, node: &Value<'_, A>) -> Done
    ensures { OnOk result (Appends maker.old.out.items maker.new.out.items) }
{
    if let Value::Object(_) = node {
        check_members(&mut maker.place, node, &["items"])?;
    }
    'items: for (index, item) in items_of(&mut maker.place, node)?.iter().enumerate() {
        let from = maker.open();
        maker.place.enter(index);
        extension(maker, item)?;
        maker.leave_from(from)?;
    }
    maker.place.leave();
    Ok(())
}

/// Appends `Extensions` (RFC 5280, 4.1).
///
/// # Errors
/// As `extension_items`.
pub fn extensions<A: Allocator + Copy>(maker: &mut Maker<A>, node: &Value<'_, A>) -> Done
    ensures { OnOk result (AppendsElement 48 maker.old.out.items maker.new.out.items) }
{
    let start = maker.open();
    extension_items(maker, node)?;
    maker.close(start, 0x30)
}
