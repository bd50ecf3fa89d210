//! General names: `DNS:example.org` and the like, or by their fields.

ghost use Rattle.std.specs.Prelude.{OnOk};
ghost use Rattle.x509_make_parts.specs.Appending.{Appends, AppendsElement};

use crate::line::line;
use crate::names::name;
use crate::other_names::{edi_party, other_name};
use json::Value;
use std::alloc::Allocator;
use x509_make_parts::node::{check_leaf, items_of, text_of};
use x509_make_parts::{Done, Fault, Maker};
use x509_make_values::Fields;
use x509_make_values::addresses::{address, address_text};
use x509_make_values::identifiers::{identified, identifier};

/// What a general name is asked to be.
const FORM: &'static str =
    "a name of a form, as DNS:example.org, IP:192.0.2.7 or email:a@b.example";

/// Appends a text in ASCII under a tag.
fn ascii<A: Allocator + Copy>(maker: &mut Maker<A>, tag: u8, text: &str) -> Done
    ensures { OnOk result (AppendsElement tag maker.old.out.items maker.new.out.items) }
{
    if !text.is_ascii() {
        return Err(Fault::Not("ASCII (a domain is written with its xn-- labels)"));
    }
    maker.element(tag, text.as_bytes())
}

/// Appends a name under [4].
fn directory_line<A: Allocator + Copy>(maker: &mut Maker<A>, text: &str) -> Done
    ensures { OnOk result (AppendsElement 164 maker.old.out.items maker.new.out.items) }
{
    let start = maker.open();
    line(maker, text)?;
    maker.close(start, 0xa4)
}

/// Appends a general name that is written as `DNS:example.org`, as in OpenSSL's configuration.
fn general_line<A: Allocator + Copy>(maker: &mut Maker<A>, text: &str) -> Done
    ensures { OnOk result (Appends maker.old.out.items maker.new.out.items) }
{
    let Some((form, value)) = text.split_once(':') else {
        return Err(Fault::Not(FORM));
    };
    match form {
        "DNS" => ascii(maker, 0x82, value),
        "IP" => address_text(maker, 0x87, value),
        "email" => ascii(maker, 0x81, value),
        "URI" => ascii(maker, 0x86, value),
        "RID" => identifier(maker, 0x88, value),
        "dirName" => directory_line(maker, value),
        _ => Err(Fault::Not(FORM)),
    }
}

/// Appends a text in ASCII that a node says, under a tag.
fn ascii_of<A: Allocator + Copy>(maker: &mut Maker<A>, tag: u8, node: &Value<'_, A>) -> Done
    ensures { OnOk result (AppendsElement tag maker.old.out.items maker.new.out.items) }
{
    check_leaf(&mut maker.place, node)?;
    let text = text_of(node, "a text")?;
    ascii(maker, tag, text)
}

/// Appends a name under [4].
fn directory_name<A: Allocator + Copy>(maker: &mut Maker<A>, node: &Value<'_, A>) -> Done
    ensures { OnOk result (AppendsElement 164 maker.old.out.items maker.new.out.items) }
{
    let start = maker.open();
    name(maker, node)?;
    maker.close(start, 0xa4)
}

/// Appends a name that has fields of its own.
fn with_fields<A: Allocator + Copy>(
    maker: &mut Maker<A>,
    is_party: bool,
    node: &Value<'_, A>,
) -> Done
    ensures { OnOk result (Appends maker.old.out.items maker.new.out.items) }
{
    let mut fields = Fields::of(&mut maker.place, node)?;
    if is_party {
        edi_party(maker, &mut fields)?;
    } else {
        other_name(maker, &mut fields)?;
    }
    fields.finish(&mut maker.place)
}

/// Appends a general name of a form.
fn of_form<A: Allocator + Copy>(maker: &mut Maker<A>, form: &str, node: &Value<'_, A>) -> Done
    ensures { OnOk result (Appends maker.old.out.items maker.new.out.items) }
{
    match form {
        "rfc822Name" => ascii_of(maker, 0x81, node),
        "dNSName" => ascii_of(maker, 0x82, node),
        "uniformResourceIdentifier" => ascii_of(maker, 0x86, node),
        "iPAddress" => address(maker, 0x87, node),
        "registeredID" => identified(maker, 0x88, node),
        "directoryName" => directory_name(maker, node),
        "otherName" => with_fields(maker, false, node),
        "ediPartyName" => with_fields(maker, true, node),
        _ => Err(Fault::Not("a form of general names")),
    }
}

/// Appends a general name: `DNS:example.org`, an object with its form as `field`, or one with its form as its member.
fn general_name<A: Allocator + Copy>(maker: &mut Maker<A>, node: &Value<'_, A>) -> Done
    ensures { OnOk result (Appends maker.old.out.items maker.new.out.items) }
{
    if let Value::String(text) = node {
        return general_line(maker, *text);
    }
    if let Some(Value::String(form)) = node.get("field") {
        return of_form(maker, *form, node);
    }
    let Value::Object(members) = node else {
        return Err(Fault::Not(FORM));
    };
    let [(form, value)] = members.as_slice() else {
        return Err(Fault::Not("a name of one form"));
    };
    maker.place.enter(0);
    of_form(maker, *form, value)?;
    maker.place.leave();
    Ok(())
}

/// Appends general names one behind another. That the node has no other members than its items is seen by the caller.
///
/// # Errors
/// `Not` where there is no list, and those of what stands in it.
pub fn general_items<A: Allocator + Copy>(maker: &mut Maker<A>, node: &Value<'_, A>) -> Done
    ensures { OnOk result (Appends maker.old.out.items maker.new.out.items) }
{
    'items: for (index, item) in items_of(&mut maker.place, node)?.iter().enumerate() {
        let from = maker.open();
        maker.place.enter(index);
        general_name(maker, item)?;
        maker.leave_from(from)?;
    }
    maker.place.leave();
    Ok(())
}

/// Appends `GeneralNames` (RFC 5280, 4.2.1.6). That the node has no other members than its items is seen by the caller.
///
/// # Errors
/// As `general_items`.
pub fn general_names<A: Allocator + Copy>(maker: &mut Maker<A>, node: &Value<'_, A>) -> Done
    ensures { OnOk result (AppendsElement 48 maker.old.out.items maker.new.out.items) }
{
    let start = maker.open();
    general_items(maker, node)?;
    maker.close(start, 0x30)
}
