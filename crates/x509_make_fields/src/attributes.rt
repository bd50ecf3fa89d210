//! Attributes of requests (RFC 2986, 4.1).

ghost use Rattle.std.specs.Prelude.{OnOk};
ghost use Rattle.x509_make_parts.specs.Appending.{Appends, AppendsElement};

use crate::extension_values::purposes;
use crate::extensions::extensions;
use json::Value;
use std::alloc::Allocator;
use x509_der::ObjectIdentifier;
use x509_make_parts::node::{check_members, items_of};
use x509_make_parts::{Done, Maker};
use x509_make_values::Fields;
use x509_make_values::identifiers::{identified, own_identifier, put_identifier};
use x509_make_values::octets::{given, octets};
use x509_make_values::times::time;

/// The attributes whose values are known by their fields.
#[derive(Clone, Copy, Drop)]
enum Kind {
    ExtensionRequest,
    ContentType,
    MessageDigest,
    SigningTime,
    StatementType,
    Other,
}

/// Which attribute it is (RFC 2985, 5.3 and 5.4; SpcSpStatementType of Authenticode).
fn kind_of<A: Allocator>(identifier: &ObjectIdentifier<A>) -> Kind {
    if identifier.is_arcs(&[1, 2, 840, 113549, 1, 9, 14]) {
        Kind::ExtensionRequest
    } else if identifier.is_arcs(&[1, 2, 840, 113549, 1, 9, 3]) {
        Kind::ContentType
    } else if identifier.is_arcs(&[1, 2, 840, 113549, 1, 9, 4]) {
        Kind::MessageDigest
    } else if identifier.is_arcs(&[1, 2, 840, 113549, 1, 9, 5]) {
        Kind::SigningTime
    } else if identifier.is_arcs(&[1, 3, 6, 1, 4, 1, 311, 2, 1, 11]) {
        Kind::StatementType
    } else {
        Kind::Other
    }
}

/// Appends a value of an attribute.
fn attribute_value<A: Allocator + Copy>(
    maker: &mut Maker<A>,
    kind: Kind,
    node: &Value<'_, A>,
) -> Done
    ensures { OnOk result (Appends maker.old.out.items maker.new.out.items) }
{
    match kind {
        Kind::ExtensionRequest => extensions(maker, node),
        Kind::ContentType => identified(maker, 0x06, node),
        Kind::MessageDigest => octets(maker, 0x04, node),
        Kind::SigningTime => time(maker, node),
        Kind::StatementType => {
            if let Value::Object(_) = node {
                check_members(&mut maker.place, node, &["items"])?;
            }
            purposes(maker, node)
        }
        Kind::Other => given(maker, node),
    }
}

/// Appends the values of an attribute in their SET, as they stand.
fn attribute_values<A: Allocator + Copy>(
    maker: &mut Maker<A>,
    kind: Kind,
    node: &Value<'_, A>,
) -> Done
    ensures { OnOk result (AppendsElement 49 maker.old.out.items maker.new.out.items) }
{
    let start = maker.open();
    'items: for (index, item) in items_of(&mut maker.place, node)?.iter().enumerate() {
        maker.place.enter(index);
        attribute_value(maker, kind, item)?;
        maker.place.leave();
    }
    maker.place.leave();
    maker.close(start, 0x31)
}

/// Appends an attribute: its values in `items`, or the whole SET in hexadecimal in `der` or `value`.
fn attribute<A: Allocator + Copy>(maker: &mut Maker<A>, node: &Value<'_, A>) -> Done
    ensures { OnOk result (AppendsElement 48 maker.old.out.items maker.new.out.items) }
{
    let start = maker.open();
    let mut fields = Fields::of(&mut maker.place, node)?;
    let identifier = own_identifier(maker.alloc, &mut maker.place, &mut fields)?;
    put_identifier(maker, 0x06, &identifier)?;
    if fields.has("items") {
        fields.pass(&["items"]);
        attribute_values(maker, kind_of(&identifier), node)?;
    } else {
        set_given(maker, &mut fields)?;
    }
    fields.finish(&mut maker.place)?;
    maker.close(start, 0x30)
}

/// Appends the SET that the member `der`, or else `value`, gives in hexadecimal.
fn set_given<A: Allocator + Copy>(maker: &mut Maker<A>, fields: &mut Fields<'_, '_, A>) -> Done
    ensures { OnOk result (Appends maker.old.out.items maker.new.out.items) }
{
    if fields.has("der") {
        fields.pass(&["value", "length"]);
        let set = fields.need(&mut maker.place, "der")?;
        given(maker, set)?;
    } else {
        let set = fields.need(&mut maker.place, "value")?;
        given(maker, set)?;
    }
    maker.place.leave();
    Ok(())
}

/// Appends attributes one behind another under [0].
///
/// # Errors
/// `Not` where there is no list, and those of what stands in it.
pub(crate) fn attributes<A: Allocator + Copy>(maker: &mut Maker<A>, node: &Value<'_, A>) -> Done
    ensures { OnOk result (AppendsElement 160 maker.old.out.items maker.new.out.items) }
{
    let start = maker.open();
    if let Value::Object(_) = node {
        check_members(&mut maker.place, node, &["items"])?;
    }
    'items: for (index, item) in items_of(&mut maker.place, node)?.iter().enumerate() {
        let from = maker.open();
        maker.place.enter(index);
        attribute(maker, item)?;
        maker.leave_from(from)?;
    }
    maker.place.leave();
    maker.close(start, 0xa0)
}
