//! Nodes of a description, and their members.

use crate::fault::{Done, Fault};
use crate::place::Place;
use json::Value;
use std::alloc::Allocator;

/// Members that a report has for people, and that aren't read.
const TOLD: [&'static str; 2] = ["at", "field"];

/// The members of a value without fields.
const LEAF: [&'static str; 6] = ["value", "asn1", "der", "bits", "length", "hidden"];

/// The value of a node: its member `value`, or itself where it is bare.
pub fn bare<'t, 'v, A: Allocator + Copy>(node: &'t Value<'v, A>) -> &'t Value<'v, A> {
    node.get("value").unwrap_or(node)
}

/// Whether a name is among some.
fn is_among(name: &str, names: &[&'static str]) -> bool {
    names.iter().any(|known| *known == name)
}

/// Whether a member stands before another of its name.
fn is_again<A: Allocator>(members: &[(&str, Value<'_, A>)], index: usize, name: &str) -> bool {
    for (before, (key, _)) in members.iter().enumerate() {
        if before < index && *key == name {
            return true;
        }
    }
    false
}

/// Sees that an object has members with these names alone, beside those for people, and none twice.
///
/// # Errors
/// `Not` where it is no object, `Unknown` or `Twice`, at that member.
pub fn check_members<A: Allocator + Copy>(
    place: &mut Place,
    node: &Value<'_, A>,
    names: &[&'static str],
) -> Done {
    let Value::Object(members) = node else {
        return Err(Fault::Not("an object"));
    };
    for (index, (key, _)) in members.iter().enumerate() {
        if !is_among(*key, names) && !is_among(*key, &TOLD) {
            place.enter(index);
            return Err(Fault::Unknown);
        }
        if is_again(members.as_slice(), index, *key) {
            place.enter(index);
            return Err(Fault::Twice);
        }
    }
    Ok(())
}

/// Sees that a value without fields has the members of one alone, where it is an object.
///
/// # Errors
/// As `check_members`.
pub fn check_leaf<A: Allocator + Copy>(place: &mut Place, node: &Value<'_, A>) -> Done {
    match node {
        Value::Object(_) => check_members(place, node, &LEAF),
        _ => Ok(()),
    }
}

/// Sees that a node isn't a secret that a report leaves out.
///
/// # Errors
/// `Said`.
pub fn check_shown<A: Allocator + Copy>(node: &Value<'_, A>) -> Done {
    if node.get("hidden").is_some() {
        return Err(Fault::Said("hidden: the report was made without --secrets"));
    }
    Ok(())
}

/// The text of a node.
///
/// # Errors
/// `Said` where it is hidden, `Not` where it has none.
pub fn text_of<'t, A: Allocator + Copy>(
    node: &'t Value<'_, A>,
    what: &'static str,
) -> Result<&'t str, Fault> {
    check_shown(node)?;
    match bare(node) {
        Value::String(text) => Ok(*text),
        _ => Err(Fault::Not(what)),
    }
}

/// Whether a node says yes or no.
///
/// # Errors
/// `Not` where it says neither.
pub fn flag_of<A: Allocator + Copy>(node: &Value<'_, A>) -> Result<bool, Fault> {
    match bare(node) {
        Value::Bool(flag) => Ok(*flag),
        _ => Err(Fault::Not("true or false")),
    }
}

/// The member of an object, to which it goes.
///
/// # Errors
/// `Missing`.
pub fn need<'t, 'v, A: Allocator + Copy>(
    place: &mut Place,
    node: &'t Value<'v, A>,
    name: &'static str,
) -> Result<&'t Value<'v, A>, Fault> {
    match node.get(name) {
        Some(value) => {
            place.enter_member(node, name);
            Ok(value)
        }
        None => Err(Fault::Missing(name)),
    }
}

/// The items of a node: its member `items`, to which it goes, or itself where it is bare. From either it is left.
///
/// # Errors
/// `Not` where there is no list.
pub fn items_of<'t, 'v, A: Allocator + Copy>(
    place: &mut Place,
    node: &'t Value<'v, A>,
) -> Result<&'t [Value<'v, A>], Fault> {
    place.enter_member(node, "items");
    match node.get("items").unwrap_or(node) {
        Value::Array(items) => Ok(items.as_slice()),
        _ => Err(Fault::Not("a list")),
    }
}
