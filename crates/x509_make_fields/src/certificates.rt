//! Certificates by their fields (RFC 5280, 4.1).

ghost use Rattle.std.specs.Prelude.{OnOk};
ghost use Rattle.x509_make_parts.specs.Appending.{Appends, AppendsElement};

use crate::extensions::extensions;
use crate::members::{has_items, key_member, name_member, version_in};
use json::Value;
use std::alloc::Allocator;
use x509_make_keys::members::{algorithm_member, bits_member, integer_member};
use x509_make_parts::{Done, Fault, Maker, Place};
use x509_make_values::Fields;
use x509_make_values::bits::bits;
use x509_make_values::numbers::number;
use x509_make_values::times::time;

/// The number of the version of a certificate: as it is told, or else by what stands in it (RFC 5280, 4.1.2.1).
fn version_of<A: Allocator + Copy>(
    place: &mut Place,
    node: &Value<'_, A>,
    fields: &mut Fields<'_, '_, A>,
) -> Result<u64, Fault> {
    let Some(told) = fields.enter(place, "version") else {
        return Ok(usual_version(node));
    };
    let version = match version_in(place, told)? {
        "v1" => 0,
        "v2" => 1,
        "v3" => 2,
        _ => return Err(Fault::Not("v1, v2 or v3")),
    };
    place.leave();
    Ok(version)
}

/// The number of the version that what stands in a certificate asks for.
fn usual_version<A: Allocator + Copy>(node: &Value<'_, A>) -> u64 {
    let has_identifier = node.get("issuerUniqueID").is_some()
        || node.get("subjectUniqueID").is_some();
    if has_items(node, "extensions") {
        2
    } else if has_identifier {
        1
    } else {
        0
    }
}

/// Appends a version under [0], if it isn't 0, which is the default.
///
/// # Errors
/// `OutOfMemory`.
pub(crate) fn put_version<A: Allocator + Copy>(maker: &mut Maker<A>, version: u64) -> Done
    ensures { OnOk result (Appends maker.old.out.items maker.new.out.items) }
{
    if version == 0 {
        return Ok(());
    }
    let start = maker.open();
    number(maker, 0x02, version)?;
    maker.close(start, 0xa0)
}

/// Appends a time that is a member.
fn time_member<A: Allocator + Copy>(
    maker: &mut Maker<A>,
    fields: &mut Fields<'_, '_, A>,
    member: &'static str,
) -> Done
    ensures { OnOk result (Appends maker.old.out.items maker.new.out.items) }
{
    let from = maker.open();
    let node = fields.need(&mut maker.place, member)?;
    time(maker, node)?;
    maker.leave_from(from)
}

/// Appends a `Validity` of the members `notBefore` and `notAfter` (RFC 5280, 4.1.2.5).
///
/// # Errors
/// `Missing`, and those of `time`.
pub(crate) fn validity<A: Allocator + Copy>(
    maker: &mut Maker<A>,
    fields: &mut Fields<'_, '_, A>,
) -> Done
    ensures { OnOk result (AppendsElement 48 maker.old.out.items maker.new.out.items) }
{
    let start = maker.open();
    time_member(maker, fields, "notBefore")?;
    time_member(maker, fields, "notAfter")?;
    maker.close(start, 0x30)
}

/// Appends a validity that is a member.
fn validity_member<A: Allocator + Copy>(
    maker: &mut Maker<A>,
    fields: &mut Fields<'_, '_, A>,
) -> Done
    ensures { OnOk result (AppendsElement 48 maker.old.out.items maker.new.out.items) }
{
    let from = maker.open();
    let node = fields.need(&mut maker.place, "validity")?;
    let mut times = Fields::of(&mut maker.place, node)?;
    validity(maker, &mut times)?;
    times.finish(&mut maker.place)?;
    maker.leave_from(from)
}

/// Appends a unique identifier, if it is told.
fn unique_identifier<A: Allocator + Copy>(
    maker: &mut Maker<A>,
    fields: &mut Fields<'_, '_, A>,
    member: &'static str,
    tag: u8,
) -> Done
    ensures { OnOk result (Appends maker.old.out.items maker.new.out.items) }
{
    if let Some(told) = fields.enter(&mut maker.place, member) {
        bits(maker, tag, told)?;
        maker.place.leave();
    }
    Ok(())
}

/// Appends extensions under [3], if there are any.
fn extensions_member<A: Allocator + Copy>(
    maker: &mut Maker<A>,
    node: &Value<'_, A>,
    fields: &mut Fields<'_, '_, A>,
) -> Done
    ensures { OnOk result (Appends maker.old.out.items maker.new.out.items) }
{
    let start = maker.open();
    let is_any = has_items(node, "extensions");
    if let Some(list) = fields.enter(&mut maker.place, "extensions") {
        if is_any {
            extensions(maker, list)?;
            maker.close(start, 0xa3)?;
        }
        maker.leave_from(start)?;
    }
    Ok(())
}

/// Appends a `TBSCertificate` by its fields (RFC 5280, 4.1.2).
///
/// # Errors
/// `Missing`, and those of what stands in it.
pub fn tbs_certificate<A: Allocator + Copy>(maker: &mut Maker<A>, node: &Value<'_, A>) -> Done
    ensures { OnOk result (AppendsElement 48 maker.old.out.items maker.new.out.items) }
{
    let start = maker.open();
    let mut fields = Fields::of(&mut maker.place, node)?;
    let version = version_of(&mut maker.place, node, &mut fields)?;
    put_version(maker, version)?;
    integer_member(maker, &mut fields, "serialNumber")?;
    algorithm_member(maker, &mut fields, "signature")?;
    name_member(maker, &mut fields, "issuer")?;
    validity_member(maker, &mut fields)?;
    name_member(maker, &mut fields, "subject")?;
    key_member(maker, &mut fields, "subjectPublicKeyInfo")?;
    unique_identifier(maker, &mut fields, "issuerUniqueID", 0x81)?;
    unique_identifier(maker, &mut fields, "subjectUniqueID", 0x82)?;
    extensions_member(maker, node, &mut fields)?;
    fields.finish(&mut maker.place)?;
    maker.close(start, 0x30)
}

/// Appends a `Certificate` by its fields (RFC 5280, 4.1.1).
///
/// # Errors
/// `Missing`, and those of what stands in it.
pub fn certificate<A: Allocator + Copy>(maker: &mut Maker<A>, node: &Value<'_, A>) -> Done
    ensures { OnOk result (AppendsElement 48 maker.old.out.items maker.new.out.items) }
{
    let start = maker.open();
    let mut fields = Fields::of(&mut maker.place, node)?;
    let inside = fields.need(&mut maker.place, "tbsCertificate")?;
    tbs_certificate(maker, inside)?;
    maker.leave_from(start)?;
    algorithm_member(maker, &mut fields, "signatureAlgorithm")?;
    bits_member(maker, &mut fields, "signatureValue")?;
    fields.finish(&mut maker.place)?;
    maker.close(start, 0x30)
}
