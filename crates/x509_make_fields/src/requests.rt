//! Requests by their fields (RFC 2986, 4).

ghost use Rattle.std.specs.Prelude.{OnOk};
ghost use Rattle.x509_make_parts.specs.Appending.{AppendsElement};

use crate::attributes::attributes;
use crate::members::{key_member, name_member};
use json::Value;
use std::alloc::Allocator;
use x509_make_keys::members::{algorithm_member, bits_member};
use x509_make_parts::node::{bare, check_leaf};
use x509_make_parts::{Done, Fault, Maker, Place};
use x509_make_values::Fields;
use x509_make_values::numbers::{number, number_of};

/// The number of the version of a request that a node says: v1 is 0, and a report tells others by their numbers.
fn version_of<A: Allocator + Copy>(place: &mut Place, node: &Value<'_, A>) -> Result<u64, Fault> {
    check_leaf(place, node)?;
    match bare(node) {
        Value::String(text) => if *text == "v1" {
            Ok(0)
        } else {
            Err(Fault::Not("v1"))
        },
        _ => number_of(node),
    }
}

/// Appends the version of a request, which is v1 where none is told.
fn version<A: Allocator + Copy>(maker: &mut Maker<A>, fields: &mut Fields<'_, '_, A>) -> Done
    ensures { OnOk result (AppendsElement 2 maker.old.out.items maker.new.out.items) }
{
    let mut version = 0;
    if let Some(told) = fields.enter(&mut maker.place, "version") {
        version = version_of(&mut maker.place, told)?;
        maker.place.leave();
    }
    number(maker, 0x02, version)
}

/// Appends a `CertificationRequestInfo` by its fields (RFC 2986, 4.1).
///
/// # Errors
/// `Missing`, and those of what stands in it.
pub fn request_info<A: Allocator + Copy>(maker: &mut Maker<A>, node: &Value<'_, A>) -> Done
    ensures { OnOk result (AppendsElement 48 maker.old.out.items maker.new.out.items) }
{
    let start = maker.open();
    let mut fields = Fields::of(&mut maker.place, node)?;
    version(maker, &mut fields)?;
    name_member(maker, &mut fields, "subject")?;
    key_member(maker, &mut fields, "subjectPKInfo")?;
    let from = maker.open();
    if let Some(list) = fields.enter(&mut maker.place, "attributes") {
        attributes(maker, list)?;
        maker.leave_from(from)?;
    } else {
        maker.element(0xa0, &[])?;
    }
    fields.finish(&mut maker.place)?;
    maker.close(start, 0x30)
}

/// Appends a `CertificationRequest` by its fields (RFC 2986, 4.2).
///
/// # Errors
/// `Missing`, and those of what stands in it.
pub fn request<A: Allocator + Copy>(maker: &mut Maker<A>, node: &Value<'_, A>) -> Done
    ensures { OnOk result (AppendsElement 48 maker.old.out.items maker.new.out.items) }
{
    let start = maker.open();
    let mut fields = Fields::of(&mut maker.place, node)?;
    let inside = fields.need(&mut maker.place, "certificationRequestInfo")?;
    request_info(maker, inside)?;
    maker.leave_from(start)?;
    algorithm_member(maker, &mut fields, "signatureAlgorithm")?;
    bits_member(maker, &mut fields, "signature")?;
    fields.finish(&mut maker.place)?;
    maker.close(start, 0x30)
}
