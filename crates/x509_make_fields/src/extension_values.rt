//! What extensions hold, by their fields.

ghost use Rattle.std.specs.Prelude.{◌≡◌, OnOk};
ghost use Rattle.x509_make_parts.specs.Appending.{Appends, AppendsElement};

use crate::key_usage::key_usage;
use crate::members::flag_in;
use json::Value;
use std::alloc::Allocator;
use x509_make_names::general_names::{general_items, general_names};
use x509_make_parts::node::{bare, check_leaf, check_members, items_of};
use x509_make_parts::{Done, Fault, Maker};
use x509_make_values::Fields;
use x509_make_values::identifiers::identified;
use x509_make_values::numbers::{integer, integer_content, number, number_of};
use x509_make_values::octets::{given, octets};

/// Appends an OCTET STRING of the member `value`.
pub(crate) fn value_octets<A: Allocator + Copy>(
    maker: &mut Maker<A>,
    fields: &mut Fields<'_, '_, A>,
) -> Done
    ensures { OnOk result (AppendsElement 4 maker.old.out.items maker.new.out.items) }
{
    fields.pass(&["asn1", "length"]);
    let value = fields.need(&mut maker.place, "value")?;
    octets(maker, 0x04, value)?;
    maker.place.leave();
    Ok(())
}

/// Appends the elements that the member `der` gives in hexadecimal, beside which a report tells what they mean for people,
/// or else the member `value`.
pub(crate) fn value_given<A: Allocator + Copy>(
    maker: &mut Maker<A>,
    fields: &mut Fields<'_, '_, A>,
) -> Done
    ensures { OnOk result (Appends maker.old.out.items maker.new.out.items) }
{
    if let Some(elements) = fields.enter(&mut maker.place, "der") {
        given(maker, elements)?;
        maker.place.leave();
        fields.pass_all();
        return Ok(());
    }
    fields.pass(&["asn1", "length", "malformed"]);
    let value = fields.need(&mut maker.place, "value")?;
    given(maker, value)?;
    maker.place.leave();
    Ok(())
}

/// Appends an INTEGER whose content the member `value` gives.
pub(crate) fn value_integer<A: Allocator + Copy>(
    maker: &mut Maker<A>,
    fields: &mut Fields<'_, '_, A>,
) -> Done
    ensures { OnOk result (AppendsElement 2 maker.old.out.items maker.new.out.items) }
{
    fields.pass(&["asn1"]);
    let value = fields.need(&mut maker.place, "value")?;
    if let Value::String(content) = value {
        integer_content(maker, 0x02, *content)?;
    } else {
        integer(maker, 0x02, value)?;
    }
    maker.place.leave();
    Ok(())
}

/// The number of bits that the member `bits` tells, if it is there.
fn told_bits<A: Allocator + Copy>(
    maker: &mut Maker<A>,
    fields: &mut Fields<'_, '_, A>,
) -> Result<Option<u64>, Fault>
    ensures { maker.new.out ≡ maker.old.out }
{
    let Some(told) = fields.enter(&mut maker.place, "bits") else {
        return Ok(None);
    };
    let bits = number_of(told)?;
    maker.place.leave();
    Ok(Some(bits))
}

/// Appends a key usage of the members `value` and `bits`, or the element that the member `der` gives.
pub(crate) fn value_usage<A: Allocator + Copy>(
    maker: &mut Maker<A>,
    fields: &mut Fields<'_, '_, A>,
) -> Done
    ensures { OnOk result (Appends maker.old.out.items maker.new.out.items) }
{
    fields.pass(&["asn1"]);
    let told = told_bits(maker, fields)?;
    if let Some(element) = fields.enter(&mut maker.place, "der") {
        fields.pass(&["value"]);
        given(maker, element)?;
        maker.place.leave();
        return Ok(());
    }
    let value = fields.need(&mut maker.place, "value")?;
    key_usage(maker, value, told)?;
    maker.place.leave();
    Ok(())
}

/// Appends general names: those of the member `value`, or the items of the node.
pub(crate) fn value_names<A: Allocator + Copy>(
    maker: &mut Maker<A>,
    node: &Value<'_, A>,
    fields: &mut Fields<'_, '_, A>,
) -> Done
    ensures { OnOk result (AppendsElement 48 maker.old.out.items maker.new.out.items) }
{
    if let Some(list) = fields.enter(&mut maker.place, "value") {
        general_names(maker, list)?;
        maker.place.leave();
        return Ok(());
    }
    fields.pass(&["items"]);
    general_names(maker, node)
}

/// Appends an `ExtKeyUsageSyntax` of a list of key purposes (RFC 5280, 4.2.1.12).
///
/// # Errors
/// `Not` where there is no list, and those of `identified`.
pub fn purposes<A: Allocator + Copy>(maker: &mut Maker<A>, node: &Value<'_, A>) -> Done
    ensures { OnOk result (AppendsElement 48 maker.old.out.items maker.new.out.items) }
{
    let start = maker.open();
    'items: for (index, item) in items_of(&mut maker.place, node)?.iter().enumerate() {
        maker.place.enter(index);
        identified(maker, 0x06, item)?;
        maker.place.leave();
    }
    maker.place.leave();
    maker.close(start, 0x30)
}

/// Appends key purposes: those of the member `value`, or the items of the node.
pub(crate) fn value_purposes<A: Allocator + Copy>(
    maker: &mut Maker<A>,
    node: &Value<'_, A>,
    fields: &mut Fields<'_, '_, A>,
) -> Done
    ensures { OnOk result (AppendsElement 48 maker.old.out.items maker.new.out.items) }
{
    if let Some(list) = fields.enter(&mut maker.place, "value") {
        purposes(maker, list)?;
        maker.place.leave();
        return Ok(());
    }
    fields.pass(&["items"]);
    purposes(maker, node)
}

/// Appends whether the subject is an authority, if it is told. That it isn't is written only where a report says so.
fn authority_flag<A: Allocator + Copy>(
    maker: &mut Maker<A>,
    fields: &mut Fields<'_, '_, A>,
    member: &'static str,
    tells_no: bool,
) -> Done
    ensures { OnOk result (Appends maker.old.out.items maker.new.out.items) }
{
    let Some(told) = fields.enter(&mut maker.place, member) else {
        return Ok(());
    };
    let is_ca = flag_in(&mut maker.place, told)?;
    maker.place.leave();
    if is_ca || tells_no {
        return maker.element(0x01, &[if is_ca { 0xff } else { 0 }]);
    }
    Ok(())
}

/// Appends how many further authorities a path may have, if it is told.
fn path_length<A: Allocator + Copy>(
    maker: &mut Maker<A>,
    fields: &mut Fields<'_, '_, A>,
    member: &'static str,
) -> Done
    ensures { OnOk result (Appends maker.old.out.items maker.new.out.items) }
{
    let Some(told) = fields.enter(&mut maker.place, member) else {
        return Ok(());
    };
    check_leaf(&mut maker.place, told)?;
    let length = number_of(told)?;
    if length > 255 {
        return Err(Fault::Not("a number up to 255"));
    }
    number(maker, 0x02, length)?;
    maker.place.leave();
    Ok(())
}

/// Appends `BasicConstraints` by `cA` and `pathLenConstraint` (RFC 5280, 4.2.1.9).
pub(crate) fn constraints<A: Allocator + Copy>(
    maker: &mut Maker<A>,
    fields: &mut Fields<'_, '_, A>,
) -> Done
    ensures { OnOk result (AppendsElement 48 maker.old.out.items maker.new.out.items) }
{
    let start = maker.open();
    authority_flag(maker, fields, "cA", true)?;
    path_length(maker, fields, "pathLenConstraint")?;
    maker.close(start, 0x30)
}

/// Appends `BasicConstraints` by `ca` and `pathLen`.
pub(crate) fn short_constraints<A: Allocator + Copy>(
    maker: &mut Maker<A>,
    fields: &mut Fields<'_, '_, A>,
) -> Done
    ensures { OnOk result (AppendsElement 48 maker.old.out.items maker.new.out.items) }
{
    let start = maker.open();
    authority_flag(maker, fields, "ca", false)?;
    path_length(maker, fields, "pathLen")?;
    maker.close(start, 0x30)
}

/// Appends the names of the issuer of an authority's certificate, if they are told.
fn authority_names<A: Allocator + Copy>(
    maker: &mut Maker<A>,
    fields: &mut Fields<'_, '_, A>,
) -> Done
    ensures { OnOk result (Appends maker.old.out.items maker.new.out.items) }
{
    let start = maker.open();
    let Some(names) = fields.enter(&mut maker.place, "authorityCertIssuer") else {
        return Ok(());
    };
    if let Value::Object(_) = names {
        check_members(&mut maker.place, names, &["items"])?;
    }
    general_items(maker, bare(names))?;
    maker.place.leave();
    maker.close(start, 0xa1)
}

/// Appends an `AuthorityKeyIdentifier` by its fields (RFC 5280, 4.2.1.1).
pub(crate) fn authority<A: Allocator + Copy>(
    maker: &mut Maker<A>,
    fields: &mut Fields<'_, '_, A>,
) -> Done
    ensures { OnOk result (AppendsElement 48 maker.old.out.items maker.new.out.items) }
{
    let start = maker.open();
    if let Some(key) = fields.enter(&mut maker.place, "keyIdentifier") {
        octets(maker, 0x80, key)?;
        maker.place.leave();
    }
    authority_names(maker, fields)?;
    if let Some(serial) = fields.enter(&mut maker.place, "authorityCertSerialNumber") {
        integer(maker, 0x82, serial)?;
        maker.place.leave();
    }
    maker.close(start, 0x30)
}
