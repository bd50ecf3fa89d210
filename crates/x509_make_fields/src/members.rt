//! Members of a structure that are values of one kind.

ghost use Rattle.std.specs.Prelude.{OnOk};
ghost use Rattle.x509_make_parts.specs.Appending.{Appends, AppendsElement};

use crate::issuer::requested_subject;
use crate::keys::public_key;
use crate::pem::is_pem;
use json::Value;
use std::alloc::Allocator;
use x509_make_names::names::name;
use x509_make_parts::node::{check_leaf, flag_of, text_of};
use x509_make_parts::{Done, Fault, Maker, Place};
use x509_make_values::Fields;

/// Whether a node says yes or no.
///
/// # Errors
/// `Not` where it says neither, and those of `check_leaf`.
pub(crate) fn flag_in<A: Allocator + Copy>(
    place: &mut Place,
    node: &Value<'_, A>,
) -> Result<bool, Fault> {
    check_leaf(place, node)?;
    flag_of(node)
}

/// The text of a node that says a version.
///
/// # Errors
/// `Not` where it has none, and those of `check_leaf`.
pub(crate) fn version_in<'t, A: Allocator + Copy>(
    place: &mut Place,
    node: &'t Value<'_, A>,
) -> Result<&'t str, Fault> {
    check_leaf(place, node)?;
    text_of(node, "v1, v2 or v3")
}

/// Appends a name that is a member.
///
/// # Errors
/// `Missing`, and those of `name`.
pub(crate) fn name_member<A: Allocator + Copy>(
    maker: &mut Maker<A>,
    fields: &mut Fields<'_, '_, A>,
    member: &'static str,
) -> Done
    ensures { OnOk result (AppendsElement 48 maker.old.out.items maker.new.out.items) }
{
    let from = maker.open();
    let node = fields.need(&mut maker.place, member)?;
    name(maker, node)?;
    maker.leave_from(from)
}

/// Appends the subject, a name or that of a request in PEM, which is the member `subject`.
///
/// # Errors
/// `Missing`, and those of `name` and `requested_subject`.
pub(crate) fn subject_member<A: Allocator + Copy>(
    maker: &mut Maker<A>,
    fields: &mut Fields<'_, '_, A>,
) -> Done
    ensures { OnOk result (Appends maker.old.out.items maker.new.out.items) }
{
    let from = maker.open();
    match fields.need(&mut maker.place, "subject")? {
        Value::String(text) if is_pem(*text) => requested_subject(maker, *text)?,
        node => name(maker, node)?,
    }
    maker.leave_from(from)
}

/// Appends a public key that is a member.
///
/// # Errors
/// `Missing`, and those of `public_key`.
pub(crate) fn key_member<A: Allocator + Copy>(
    maker: &mut Maker<A>,
    fields: &mut Fields<'_, '_, A>,
    member: &'static str,
) -> Done
    ensures { OnOk result (Appends maker.old.out.items maker.new.out.items) }
{
    let from = maker.open();
    let node = fields.need(&mut maker.place, member)?;
    public_key(maker, node)?;
    maker.leave_from(from)
}

/// Whether a list that may be a member has items.
pub(crate) fn has_items<A: Allocator + Copy>(node: &Value<'_, A>, member: &str) -> bool {
    match node.get(member) {
        None => false,
        Some(list) => match list.get("items").unwrap_or(list) {
            Value::Array(items) => !items.is_empty(),
            _ => true,
        },
    }
}
