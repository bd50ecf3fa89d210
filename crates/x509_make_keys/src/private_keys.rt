//! Private keys.

ghost use Rattle.std.specs.Prelude.{OnOk};
ghost use Rattle.x509_make_parts.specs.Appending.{Appends, AppendsElement};

use crate::members::{algorithm_member, integer_member};
use json::Value;
use std::alloc::Allocator;
use x509_make_parts::node::{bare, check_leaf, text_of};
use x509_make_parts::{Done, Fault, Maker, Place};
use x509_make_values::Fields;
use x509_make_values::bits::bits;
use x509_make_values::identifiers::identified;
use x509_make_values::numbers::{integer, number};
use x509_make_values::octets::octets;

/// The numbers of an RSA private key behind its version (RFC 8017, A.1.2).
const NUMBERS: [&'static str; 8] = [
    "modulus",
    "publicExponent",
    "privateExponent",
    "prime1",
    "prime2",
    "exponent1",
    "exponent2",
    "coefficient",
];

/// Appends the version of an RSA private key: two-prime is 0, and a report tells others by their numbers.
fn rsa_version<A: Allocator + Copy>(maker: &mut Maker<A>, fields: &mut Fields<'_, '_, A>) -> Done
    ensures { OnOk result (AppendsElement 2 maker.old.out.items maker.new.out.items) }
{
    let from = maker.open();
    let Some(node) = fields.enter(&mut maker.place, "version") else {
        return number(maker, 0x02, 0);
    };
    match bare(node) {
        Value::String("two-prime") => {
            check_leaf(&mut maker.place, node)?;
            number(maker, 0x02, 0)?;
        }
        _ => integer(maker, 0x02, node)?,
    }
    maker.leave_from(from)
}

/// Appends an `RSAPrivateKey` by its numbers (RFC 8017, A.1.2).
///
/// # Errors
/// `Missing`, and those of what stands in it.
pub fn rsa_private_key<A: Allocator + Copy>(maker: &mut Maker<A>, node: &Value<'_, A>) -> Done
    ensures { OnOk result (AppendsElement 48 maker.old.out.items maker.new.out.items) }
{
    let start = maker.open();
    let mut fields = Fields::of(&mut maker.place, node)?;
    rsa_version(maker, &mut fields)?;
    'numbers: for member in &NUMBERS {
        integer_member(maker, &mut fields, *member)?;
    }
    fields.finish(&mut maker.place)?;
    maker.close(start, 0x30)
}

/// Sees that the version of an elliptic curve's key is the only one that there is, where it is told.
fn check_ec_version<A: Allocator + Copy>(
    place: &mut Place,
    fields: &mut Fields<'_, '_, A>,
) -> Done {
    if let Some(node) = fields.enter(place, "version") {
        check_leaf(place, node)?;
        if text_of(node, "ecPrivkeyVer1")? != "ecPrivkeyVer1" {
            return Err(Fault::Not("ecPrivkeyVer1"));
        }
        place.leave();
    }
    Ok(())
}

/// Appends the curve of a private key under [0], where it is told.
fn curve<A: Allocator + Copy>(maker: &mut Maker<A>, fields: &mut Fields<'_, '_, A>) -> Done
    ensures { OnOk result (Appends maker.old.out.items maker.new.out.items) }
{
    let from = maker.open();
    if let Some(node) = fields.enter(&mut maker.place, "parameters") {
        identified(maker, 0x06, node)?;
        maker.leave_from(from)?;
        maker.close(from, 0xa0)?;
    }
    Ok(())
}

/// Appends the public key beside a private key under [1], where it is told.
fn public_bits<A: Allocator + Copy>(maker: &mut Maker<A>, fields: &mut Fields<'_, '_, A>) -> Done
    ensures { OnOk result (Appends maker.old.out.items maker.new.out.items) }
{
    let from = maker.open();
    if let Some(node) = fields.enter(&mut maker.place, "publicKey") {
        bits(maker, 0x03, node)?;
        maker.leave_from(from)?;
        maker.close(from, 0xa1)?;
    }
    Ok(())
}

/// Appends an `ECPrivateKey` by its fields (RFC 5915, 3).
///
/// # Errors
/// `Missing`, and those of what stands in it.
pub fn ec_private_key<A: Allocator + Copy>(maker: &mut Maker<A>, node: &Value<'_, A>) -> Done
    ensures { OnOk result (AppendsElement 48 maker.old.out.items maker.new.out.items) }
{
    let start = maker.open();
    let mut fields = Fields::of(&mut maker.place, node)?;
    check_ec_version(&mut maker.place, &mut fields)?;
    number(maker, 0x02, 1)?;
    let from = maker.open();
    let secret = fields.need(&mut maker.place, "privateKey")?;
    octets(maker, 0x04, secret)?;
    maker.leave_from(from)?;
    curve(maker, &mut fields)?;
    public_bits(maker, &mut fields)?;
    fields.finish(&mut maker.place)?;
    maker.close(start, 0x30)
}

/// Appends a private key in its OCTET STRING: of RSA or an elliptic curve by its fields, and any other by its octets (RFC
/// 8410, 7).
fn key_octets<A: Allocator + Copy>(maker: &mut Maker<A>, node: &Value<'_, A>) -> Done
    ensures { OnOk result (AppendsElement 4 maker.old.out.items maker.new.out.items) }
{
    let start = maker.open();
    if node.get("modulus").is_some() {
        rsa_private_key(maker, node)?;
    } else if node.get("privateKey").is_some() {
        ec_private_key(maker, node)?;
    } else {
        octets(maker, 0x04, node)?;
    }
    maker.close(start, 0x04)
}

/// The number of the version of a private key (RFC 5958, 2): as it is told, or else by whether a public key is there.
fn version_of<A: Allocator + Copy>(
    place: &mut Place,
    node: &Value<'_, A>,
    fields: &mut Fields<'_, '_, A>,
) -> Result<u64, Fault> {
    let Some(told) = fields.enter(place, "version") else {
        return Ok(u64::from(node.get("publicKey").is_some()));
    };
    check_leaf(place, told)?;
    let version = match text_of(told, "v1 or v2")? {
        "v1" => 0,
        "v2" => 1,
        _ => return Err(Fault::Not("v1 or v2")),
    };
    place.leave();
    Ok(version)
}

/// Appends a `PrivateKeyInfo` by its fields (RFC 5958, 2), without what a reader skipped.
///
/// # Errors
/// `Missing`, and those of what stands in it.
pub fn private_key_info<A: Allocator + Copy>(maker: &mut Maker<A>, node: &Value<'_, A>) -> Done
    ensures { OnOk result (AppendsElement 48 maker.old.out.items maker.new.out.items) }
{
    let start = maker.open();
    let mut fields = Fields::of(&mut maker.place, node)?;
    fields.pass(&["skipped"]);
    let version = version_of(&mut maker.place, node, &mut fields)?;
    number(maker, 0x02, version)?;
    algorithm_member(maker, &mut fields, "privateKeyAlgorithm")?;
    let from = maker.open();
    let key = fields.need(&mut maker.place, "privateKey")?;
    key_octets(maker, key)?;
    maker.leave_from(from)?;
    public_bits(maker, &mut fields)?;
    fields.finish(&mut maker.place)?;
    maker.close(start, 0x30)
}
