//! Extensions of a short description.

ghost use Rattle.std.specs.Prelude.{OnOk};
ghost use Rattle.x509_make_parts.specs.Appending.{Appends, AppendsElement};

use crate::extension_values::{purposes, short_constraints};
use crate::extensions::{critical, extension_items};
use crate::issuer::key_identifier_of;
use crate::key_usage::key_usage;
use crate::keys::key_digest;
use crate::pem::is_pem;
use crate::short::Short;
use json::Value;
use std::alloc::Allocator;
use x509_make_names::general_names::general_names;
use x509_make_parts::node::text_of;
use x509_make_parts::{Done, Fault, Maker};
use x509_make_values::Fields;
use x509_make_values::hexadecimal::hex_bytes;
use x509_make_values::identifiers::identifier;

/// The members that stand for extensions of a request.
pub(crate) const OF_REQUESTS: [&'static str; 6] = [
    "names",
    "keyUsage",
    "basicConstraints",
    "extendedKeyUsage",
    "subjectKeyIdentifier",
    "extensions",
];

/// The members that stand for extensions of a certificate.
pub(crate) const OF_CERTIFICATES: [&'static str; 8] = [
    "names",
    "issuerNames",
    "keyUsage",
    "basicConstraints",
    "extendedKeyUsage",
    "subjectKeyIdentifier",
    "authorityKeyIdentifier",
    "extensions",
];

/// Appends the bytes that a text says in hexadecimal.
fn put_hex<A: Allocator + Copy>(maker: &mut Maker<A>, text: &str) -> Done
    ensures { OnOk result (Appends maker.old.out.items maker.new.out.items) }
{
    let bytes = hex_bytes(maker.alloc, text)?;
    maker.put(bytes.as_slice())
}

/// Appends the identifier of the subject's key: `hash`, or in hexadecimal.
fn subject_identifier<A: Allocator + Copy>(
    maker: &mut Maker<A>,
    node: &Value<'_, A>,
    key: &[u8],
) -> Done
    ensures { OnOk result (AppendsElement 4 maker.old.out.items maker.new.out.items) }
{
    let text = text_of(node, "hash, or hexadecimal bytes")?;
    let start = maker.open();
    if text == "hash" {
        key_digest(maker, key)?;
    } else {
        put_hex(maker, text)?;
    }
    maker.close(start, 0x04)
}

/// Appends the identifier of the issuer's key: of the key itself, where the issuer is the subject, or out of the
/// issuer's certificate.
fn issuer_digest<A: Allocator + Copy>(maker: &mut Maker<A>, root: &Value<'_, A>, key: &[u8]) -> Done
    ensures { OnOk result (Appends maker.old.out.items maker.new.out.items) }
{
    match root.get("issuer") {
        Some(Value::String("subject")) => key_digest(maker, key),
        Some(Value::String(issuer)) if is_pem(*issuer) => key_identifier_of(maker, *issuer),
        _ => Err(Fault::Said(
            "keyid is for an issuer that is given by its certificate, or is the subject",
        )),
    }
}

/// Appends the identifier of the issuer's key under [0]: `keyid`, or in hexadecimal.
fn issuer_identifier<A: Allocator + Copy>(
    maker: &mut Maker<A>,
    root: &Value<'_, A>,
    node: &Value<'_, A>,
    key: &[u8],
) -> Done
    ensures { OnOk result (AppendsElement 48 maker.old.out.items maker.new.out.items) }
{
    let text = text_of(node, "keyid, or hexadecimal bytes")?;
    let start = maker.open();
    if text == "keyid" {
        issuer_digest(maker, root, key)?;
    } else {
        put_hex(maker, text)?;
    }
    maker.close(start, 0x80)?;
    maker.close(start, 0x30)
}

/// Appends what an extension holds, by its value.
fn held<A: Allocator + Copy>(
    maker: &mut Maker<A>,
    root: &Value<'_, A>,
    short: Short,
    node: &Value<'_, A>,
    key: &[u8],
) -> Done
    ensures { OnOk result (Appends maker.old.out.items maker.new.out.items) }
{
    match short {
        Short::Names | Short::IssuerNames => general_names(maker, node),
        Short::KeyUsage => key_usage(maker, node, None),
        Short::ExtendedKeyUsage => purposes(maker, node),
        Short::SubjectKey => subject_identifier(maker, node, key),
        Short::AuthorityKey => issuer_identifier(maker, root, node, key),
        Short::BasicConstraints => {
            let mut fields = Fields::of(&mut maker.place, node)?;
            fields.pass(&["critical"]);
            short_constraints(maker, &mut fields)?;
            fields.finish(&mut maker.place)
        }
    }
}

/// Appends whether an extension is critical, and what it holds: of the members `critical` and `value`.
fn with_members<A: Allocator + Copy>(
    maker: &mut Maker<A>,
    root: &Value<'_, A>,
    short: Short,
    node: &Value<'_, A>,
    key: &[u8],
) -> Done
    ensures { OnOk result (Appends maker.old.out.items maker.new.out.items) }
{
    let mut fields = Fields::of(&mut maker.place, node)?;
    critical(maker, &mut fields, short.is_critical(root, node))?;
    let string = maker.open();
    if let Short::BasicConstraints = short {
        held(maker, root, short, node, key)?;
        return maker.close(string, 0x04);
    }
    let value = fields.need(&mut maker.place, "value")?;
    held(maker, root, short, value, key)?;
    maker.place.leave();
    fields.finish(&mut maker.place)?;
    maker.close(string, 0x04)
}

/// Appends an extension by its member.
fn extension<A: Allocator + Copy>(
    maker: &mut Maker<A>,
    root: &Value<'_, A>,
    short: Short,
    node: &Value<'_, A>,
    key: &[u8],
) -> Done
    ensures { OnOk result (AppendsElement 48 maker.old.out.items maker.new.out.items) }
{
    let start = maker.open();
    identifier(maker, 0x06, short.identifier())?;
    if let Value::Object(_) = node {
        with_members(maker, root, short, node, key)?;
        return maker.close(start, 0x30);
    }
    if short.is_critical(root, node) {
        maker.element(0x01, &[0xff])?;
    }
    let string = maker.open();
    held(maker, root, short, node, key)?;
    maker.close(string, 0x04)?;
    maker.close(start, 0x30)
}

/// Appends the extension or the extensions that a member stands for.
fn of_member<A: Allocator + Copy>(
    maker: &mut Maker<A>,
    root: &Value<'_, A>,
    name: &str,
    node: &Value<'_, A>,
    key: &[u8],
) -> Done
    ensures { OnOk result (Appends maker.old.out.items maker.new.out.items) }
{
    match Short::of(name) {
        Some(short) => extension(maker, root, short, node, key),
        None if name == "extensions" => extension_items(maker, node),
        None => Ok(()),
    }
}

/// Appends `Extensions` in the order of the members that stand for them, and answers whether there are any.
///
/// # Errors
/// Those of what stands in the description.
pub(crate) fn short_extensions<A: Allocator + Copy>(
    maker: &mut Maker<A>,
    root: &Value<'_, A>,
    key: &[u8],
) -> Result<bool, Fault>
    ensures { OnOk result (AppendsElement 48 maker.old.out.items maker.new.out.items) }
{
    let start = maker.open();
    let Value::Object(members) = root else {
        return Err(Fault::Not("an object"));
    };
    'members: for (index, (name, node)) in members.iter().enumerate() {
        let from = maker.open();
        maker.place.enter(index);
        of_member(maker, root, *name, node, key)?;
        maker.leave_from(from)?;
    }
    let is_any = maker.open() > start;
    maker.close(start, 0x30)?;
    Ok(is_any)
}
