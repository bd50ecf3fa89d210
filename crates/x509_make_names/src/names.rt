//! Names: on one line, by the names of their attributes, or as a list of sets.

ghost use Rattle.std.specs.Prelude.{ℕ, length, OnOk};
ghost use Rattle.x509_make_names.specs.SetOrder.{AppendsAttributes};
ghost use Rattle.x509_make_parts.specs.Appending.{Appends, AppendsElement};

use crate::attributes::{assigned, attribute};
use crate::line::line;
use crate::sets::{keep_from, put_sorted};
use json::Value;
use std::alloc::Allocator;
use x509_make_parts::node::items_of;
use x509_make_parts::{Done, Fault, Maker};
use x509_make_values::Fields;

/// Appends the attributes of a set by their names and values, in the order of DER.
fn attributes_of_set<A: Allocator + Copy>(
    maker: &mut Maker<A>,
    members: &[(&str, Value<'_, A>)],
) -> Done
    ensures { OnOk result (AppendsAttributes A (length members.now) maker.old.out.items maker.new.out.items) }
{
    let start = maker.open();
    let mut elements = Vec::new(maker.alloc);
    'members: for (index, (key, value)) in members.iter().enumerate() {
        maker.place.enter(index);
        assigned(maker, *key, value)?;
        maker.place.leave();
        keep_from(maker, start, &mut elements)?;
    }
    put_sorted(maker, elements)
}

/// The same of a node that must be an object.
fn members_of_set<A: Allocator + Copy>(maker: &mut Maker<A>, node: &Value<'_, A>) -> Done
    ensures { OnOk result ((count : ℕ) × AppendsAttributes A count maker.old.out.items maker.new.out.items) }
{
    match node {
        Value::Object(members) => attributes_of_set(maker, members.as_slice()),
        _ => Err(Fault::Not("a set of attributes")),
    }
}

/// Appends the attributes of a set by their fields, in the order in which they stand.
fn items_of_set<A: Allocator + Copy>(maker: &mut Maker<A>, node: &Value<'_, A>) -> Done
    ensures { OnOk result (Appends maker.old.out.items maker.new.out.items) }
{
    'items: for (index, item) in items_of(&mut maker.place, node)?.iter().enumerate() {
        let from = maker.open();
        maker.place.enter(index);
        attribute(maker, item)?;
        maker.leave_from(from)?;
    }
    maker.place.leave();
    Ok(())
}

/// Appends a set of attributes: the members of an object, or the items of a node.
fn set<A: Allocator + Copy>(maker: &mut Maker<A>, node: &Value<'_, A>) -> Done
    ensures { OnOk result (AppendsElement 49 maker.old.out.items maker.new.out.items) }
{
    let start = maker.open();
    let has_items = node.get("items").is_some();
    let mut fields = Fields::of(&mut maker.place, node)?;
    if has_items {
        fields.pass(&["items"]);
        fields.finish(&mut maker.place)?;
        items_of_set(maker, node)?;
    } else {
        members_of_set(maker, node)?;
    }
    maker.close(start, 0x31)
}

/// Appends a set of one attribute.
fn single<A: Allocator + Copy>(maker: &mut Maker<A>, key: &str, value: &Value<'_, A>) -> Done
    ensures { OnOk result (AppendsElement 49 maker.old.out.items maker.new.out.items) }
{
    let start = maker.open();
    assigned(maker, key, value)?;
    maker.close(start, 0x31)
}

/// Appends a set for each value of an attribute.
fn each_value<A: Allocator + Copy>(maker: &mut Maker<A>, key: &str, value: &Value<'_, A>) -> Done
    ensures { OnOk result (Appends maker.old.out.items maker.new.out.items) }
{
    let Value::Array(list) = value else {
        return single(maker, key, value);
    };
    'items: for (index, item) in list.iter().enumerate() {
        maker.place.enter(index);
        single(maker, key, item)?;
        maker.place.leave();
    }
    Ok(())
}

/// Appends the sets of a name by the names and values of their attributes: a set for each value, in their order.
fn sets_by_member<A: Allocator + Copy>(maker: &mut Maker<A>, node: &Value<'_, A>) -> Done
    ensures { OnOk result (Appends maker.old.out.items maker.new.out.items) }
{
    let fields = Fields::of(&mut maker.place, node)?;
    drop(fields);
    let Value::Object(members) = node else {
        return Err(Fault::Not("a name"));
    };
    'members: for (index, (key, value)) in members.iter().enumerate() {
        maker.place.enter(index);
        each_value(maker, *key, value)?;
        maker.place.leave();
    }
    Ok(())
}

/// Appends the sets of a name that are listed.
fn sets_listed<A: Allocator + Copy>(maker: &mut Maker<A>, node: &Value<'_, A>) -> Done
    ensures { OnOk result (Appends maker.old.out.items maker.new.out.items) }
{
    if let Value::Object(_) = node {
        let mut fields = Fields::of(&mut maker.place, node)?;
        fields.pass(&["items"]);
        fields.finish(&mut maker.place)?;
    }
    'items: for (index, item) in items_of(&mut maker.place, node)?.iter().enumerate() {
        let from = maker.open();
        maker.place.enter(index);
        set(maker, item)?;
        maker.leave_from(from)?;
    }
    maker.place.leave();
    Ok(())
}

/// Appends a `Name` (RFC 5280, 4.1.2.4): on one line, by the names and values of its attributes, or by its sets.
///
/// # Errors
/// `Not` where a node is none, and those of what stands in it.
pub fn name<A: Allocator + Copy>(maker: &mut Maker<A>, node: &Value<'_, A>) -> Done
    ensures { OnOk result (AppendsElement 48 maker.old.out.items maker.new.out.items) }
{
    if let Value::String(text) = node {
        return line(maker, *text);
    }
    let start = maker.open();
    let is_listed = matches!(node, Value::Array(_)) || node.get("items").is_some();
    if is_listed {
        sets_listed(maker, node)?;
    } else {
        sets_by_member(maker, node)?;
    }
    maker.close(start, 0x30)
}

/// Appends the `Name` that a text on one line is: `/C=DE/CN=x` in order, `CN=x, C=DE` the last first (RFC 4514, 2.1).
///
/// # Errors
/// As `name`.
pub fn name_line<A: Allocator + Copy>(maker: &mut Maker<A>, text: &str) -> Done
    ensures { OnOk result (AppendsElement 48 maker.old.out.items maker.new.out.items) }
{
    line(maker, text)
}
