//! OBJECT IDENTIFIERs.

ghost use Rattle.std.specs.Prelude.{◌≡◌, ◌++◌, List, ℕ, OnOk, IfOk};
ghost use Rattle.x509_der.specs.Element.{element};
ghost use Rattle.x509_der.specs.ObjectIdentifier.{oid_content};
ghost use Rattle.x509_make_parts.specs.Appending.{AppendsElement};
ghost use Rattle.x509_oids_by_name.specs.Names.{Names};

use crate::fields::Fields;
use json::Value;
use std::alloc::Allocator;
use x509_der::{ObjectIdentifier, OidError};
use x509_make_parts::node::{bare, check_leaf};
use x509_make_parts::{Done, Fault, Maker, Place};
use x509_oids_by_name::{arcs_by_name, oid_by_name};

/// The object identifier that a text names, or says with dots.
///
/// # Errors
/// `Not` where it does neither, and `OutOfMemory`.
pub fn identifier_of<A: Allocator + Copy>(
    alloc: A,
    text: &str,
) -> Result<ObjectIdentifier<A>, Fault>
    ensures { IfOk result (λ o. Names text.now o) }
{
    match oid_by_name(alloc, text) {
        Ok(identifier) => Ok(identifier),
        Err(OidError::OutOfMemory) => Err(Fault::OutOfMemory),
        Err(OidError::Bad) => Err(Fault::Not(
            "an object identifier, by a name that is known or with dots",
        )),
    }
}

/// Appends an object identifier under a tag.
///
/// # Errors
/// `OutOfMemory`.
pub fn put_identifier<A: Allocator + Copy>(
    maker: &mut Maker<A>,
    tag: u8,
    identifier: &ObjectIdentifier<A>,
) -> Done
    ensures { OnOk result (maker.new.out.items ≡ maker.old.out.items ++ element tag (oid_content identifier.now)) }
{
    maker.element(tag, identifier.content())
}

/// Appends the object identifier that a text names, or says with dots, under a tag.
///
/// # Errors
/// As `identifier_of`.
pub fn identifier<A: Allocator + Copy>(maker: &mut Maker<A>, tag: u8, text: &str) -> Done
    ensures { OnOk result ((arcs : List ℕ) × Names text.now arcs
        × (maker.new.out.items ≡ maker.old.out.items ++ element tag (oid_content arcs))) }
{
    let found = identifier_of(maker.alloc, text)?;
    put_identifier(maker, tag, &found)
}

/// The text of a member.
fn text_in<'v, A: Allocator + Copy>(value: &Value<'v, A>) -> Result<&'v str, Fault> {
    match value {
        Value::String(text) => Ok(*text),
        _ => Err(Fault::Not("an object identifier")),
    }
}

/// Sees that a name is that of an object identifier.
fn check_name<A: Allocator>(identifier: &ObjectIdentifier<A>, name: &str) -> Done {
    match arcs_by_name(name) {
        Some(arcs) if identifier.is_arcs(arcs) => Ok(()),
        Some(_) => Err(Fault::Said("id and name are of two object identifiers")),
        None => Err(Fault::Not("a name that is known")),
    }
}

/// The object identifier that the members `id` and `name` of an object say: one of them, or both alike.
///
/// # Errors
/// `Missing` where there is neither, `Said` where they are of two, and those of `identifier_of`.
pub fn own_identifier<A: Allocator + Copy>(
    alloc: A,
    place: &mut Place,
    fields: &mut Fields<'_, '_, A>,
) -> Result<ObjectIdentifier<A>, Fault> {
    if !fields.has("id") {
        let Some(name) = fields.enter(place, "name") else {
            return Err(Fault::Missing("id"));
        };
        let found = identifier_of(alloc, text_in(name)?)?;
        place.leave();
        return Ok(found);
    }
    let id = fields.need(place, "id")?;
    let found = identifier_of(alloc, text_in(id)?)?;
    place.leave();
    if let Some(name) = fields.enter(place, "name") {
        check_name(&found, text_in(name)?)?;
        place.leave();
    }
    Ok(found)
}

/// The object identifier that a node says: a name or dots, or an object with `id` and `name`.
///
/// # Errors
/// As `own_identifier`, and `Unknown` or `Twice`.
pub fn identifier_in<A: Allocator + Copy>(
    alloc: A,
    place: &mut Place,
    node: &Value<'_, A>,
) -> Result<ObjectIdentifier<A>, Fault> {
    let is_held = node.get("value").is_some();
    if is_held {
        check_leaf(place, node)?;
        place.enter_member(node, "value");
    }
    let inner = bare(node);
    let found = if let Value::String(text) = inner {
        identifier_of(alloc, *text)?
    } else {
        let mut fields = Fields::of(place, inner)?;
        let found = own_identifier(alloc, place, &mut fields)?;
        fields.finish(place)?;
        found
    };
    if is_held {
        place.leave();
    }
    Ok(found)
}

/// Appends the object identifier that a node says, under a tag.
///
/// # Errors
/// As `identifier_in`.
pub fn identified<A: Allocator + Copy>(maker: &mut Maker<A>, tag: u8, node: &Value<'_, A>) -> Done
    ensures { OnOk result (AppendsElement tag maker.old.out.items maker.new.out.items) }
{
    let found = identifier_in(maker.alloc, &mut maker.place, node)?;
    put_identifier(maker, tag, &found)
}
