//! Algorithm identifiers.

ghost use Rattle.std.specs.Prelude.{OnOk};
ghost use Rattle.x509_make_parts.specs.Appending.{Appends, AppendsElement};

use json::Value;
use std::alloc::Allocator;
use x509_der::ObjectIdentifier;
use x509_make_parts::node::{bare, check_leaf};
use x509_make_parts::{Done, Maker};
use x509_make_values::Fields;
use x509_make_values::identifiers::{identified, identifier_in, identifier_of, put_identifier};
use x509_make_values::numbers::integer;
use x509_make_values::octets::{given, octets};

/// Whether an algorithm has NULL for its parameters where none are given: RSA encryption and signatures of PKCS #1
/// (RFC 8017, A.1 and A.2.4; RFC 8702 and NIST for SHA-3), and hash functions (RFC 5754, 2).
fn has_null<A: Allocator>(algorithm: &ObjectIdentifier<A>) -> bool {
    is_rsa(algorithm)
        || algorithm.is_arcs(&[1, 3, 14, 3, 2, 26])
        || algorithm.starts_under(&[2, 16, 840, 1, 101, 3, 4, 2])
}

/// Whether an algorithm is RSA encryption, or a signature of PKCS #1, version 1.5.
fn is_rsa<A: Allocator>(algorithm: &ObjectIdentifier<A>) -> bool {
    const PKCS: [u64; 6] = [1, 2, 840, 113549, 1, 1];
    const NIST: [u64; 8] = [2, 16, 840, 1, 101, 3, 4, 3];
    match algorithm.arc(6) {
        Some(1 | 2 | 4 | 5 | 11 | 12 | 13 | 14) if algorithm.len() == 7 => {
            algorithm.starts_under(&PKCS)
        }
        _ => match algorithm.arc(8) {
            Some(13 | 14 | 15 | 16) if algorithm.len() == 9 => algorithm.starts_under(&NIST),
            _ => false,
        },
    }
}

/// Appends an algorithm with NULL, where it has that, or with nothing.
fn plain<A: Allocator + Copy>(maker: &mut Maker<A>, algorithm: &ObjectIdentifier<A>) -> Done
    ensures { OnOk result (AppendsElement 48 maker.old.out.items maker.new.out.items) }
{
    let start = maker.open();
    put_identifier(maker, 0x06, algorithm)?;
    if has_null(algorithm) {
        maker.element(0x05, &[])?;
    }
    maker.close(start, 0x30)
}

/// Appends a hash function with NULL, as RSASSA-PSS has it (RFC 4055, 2.1).
fn hash<A: Allocator + Copy>(maker: &mut Maker<A>, node: &Value<'_, A>) -> Done
    ensures { OnOk result (AppendsElement 48 maker.old.out.items maker.new.out.items) }
{
    let start = maker.open();
    identified(maker, 0x06, node)?;
    maker.element(0x05, &[])?;
    maker.close(start, 0x30)
}

/// Appends a mask generation function (RFC 4055, 2.2).
fn mask<A: Allocator + Copy>(maker: &mut Maker<A>, node: &Value<'_, A>) -> Done
    ensures { OnOk result (AppendsElement 48 maker.old.out.items maker.new.out.items) }
{
    let start = maker.open();
    let mut fields = Fields::of(&mut maker.place, node)?;
    let function = fields.need(&mut maker.place, "algorithm")?;
    identified(maker, 0x06, function)?;
    maker.place.leave();
    let digest = fields.need(&mut maker.place, "parameters")?;
    hash(maker, digest)?;
    maker.place.leave();
    fields.finish(&mut maker.place)?;
    maker.close(start, 0x30)
}

/// Appends the parameters of RSASSA-PSS (RFC 4055, 3.1).
fn pss<A: Allocator + Copy>(maker: &mut Maker<A>, node: &Value<'_, A>) -> Done
    ensures { OnOk result (AppendsElement 48 maker.old.out.items maker.new.out.items) }
{
    let start = maker.open();
    let mut fields = Fields::of(&mut maker.place, node)?;
    let digest = fields.need(&mut maker.place, "hashAlgorithm")?;
    hash(maker, digest)?;
    maker.place.leave();
    maker.close(start, 0xa0)?;
    let second = maker.open();
    let function = fields.need(&mut maker.place, "maskGenAlgorithm")?;
    mask(maker, function)?;
    maker.place.leave();
    maker.close(second, 0xa1)?;
    let third = maker.open();
    let salt = fields.need(&mut maker.place, "saltLength")?;
    integer(maker, 0x02, salt)?;
    maker.place.leave();
    maker.close(third, 0xa2)?;
    fields.finish(&mut maker.place)?;
    maker.close(start, 0x30)
}

/// Appends the parameters of authenticated encryption with AES (RFC 5084, 3.2).
fn aes<A: Allocator + Copy>(maker: &mut Maker<A>, node: &Value<'_, A>) -> Done
    ensures { OnOk result (AppendsElement 48 maker.old.out.items maker.new.out.items) }
{
    let start = maker.open();
    let mut fields = Fields::of(&mut maker.place, node)?;
    let nonce = fields.need(&mut maker.place, "aes-nonce")?;
    octets(maker, 0x04, nonce)?;
    maker.place.leave();
    let length = fields.need(&mut maker.place, "aes-ICVlen")?;
    integer(maker, 0x02, length)?;
    maker.place.leave();
    fields.finish(&mut maker.place)?;
    maker.close(start, 0x30)
}

/// Appends parameters: those of RSASSA-PSS or AES by their fields, NULL, the octets of an initialization vector in a
/// node, or the object identifier of a curve.
fn parameters<A: Allocator + Copy>(maker: &mut Maker<A>, node: &Value<'_, A>) -> Done
    ensures { OnOk result (Appends maker.old.out.items maker.new.out.items) }
{
    if node.get("hashAlgorithm").is_some() {
        return pss(maker, node);
    }
    if node.get("aes-nonce").is_some() {
        return aes(maker, node);
    }
    if bare(node).is_null() {
        check_leaf(&mut maker.place, node)?;
        return maker.element(0x05, &[]);
    }
    if matches!(node, Value::Object(_)) && bare(node).as_str().is_some() {
        return octets(maker, 0x04, node);
    }
    identified(maker, 0x06, node)
}

/// Appends an `AlgorithmIdentifier` (RFC 5280, 4.1.1.2): by its name, or by `algorithm` and `parameters`.
///
/// # Errors
/// `Not` where a node is none, and those of what stands in it.
pub fn algorithm<A: Allocator + Copy>(maker: &mut Maker<A>, node: &Value<'_, A>) -> Done
    ensures { OnOk result (AppendsElement 48 maker.old.out.items maker.new.out.items) }
{
    if let Value::String(text) = node {
        let named = identifier_of(maker.alloc, *text)?;
        return plain(maker, &named);
    }
    let start = maker.open();
    let mut fields = Fields::of(&mut maker.place, node)?;
    let member = fields.need(&mut maker.place, "algorithm")?;
    let named = identifier_in(maker.alloc, &mut maker.place, member)?;
    maker.place.leave();
    put_identifier(maker, 0x06, &named)?;
    let from = maker.open();
    if let Some(told) = fields.enter(&mut maker.place, "parameters") {
        parameters(maker, told)?;
        maker.leave_from(from)?;
    } else if has_null(&named) {
        maker.element(0x05, &[])?;
    }
    fields.finish(&mut maker.place)?;
    maker.close(start, 0x30)
}

/// Appends parameters of which only the element is known: that of the member `der`, or as those of other algorithms.
fn raw_parameters<A: Allocator + Copy>(maker: &mut Maker<A>, node: &Value<'_, A>) -> Done
    ensures { OnOk result (Appends maker.old.out.items maker.new.out.items) }
{
    match node.get("der") {
        Some(element) => {
            check_leaf(&mut maker.place, node)?;
            given(maker, element)
        }
        None => parameters(maker, node),
    }
}

/// Appends an `AlgorithmIdentifier` with any parameters, NULL where none are told.
///
/// # Errors
/// As `algorithm`.
pub fn raw_algorithm<A: Allocator + Copy>(maker: &mut Maker<A>, node: &Value<'_, A>) -> Done
    ensures { OnOk result (AppendsElement 48 maker.old.out.items maker.new.out.items) }
{
    let start = maker.open();
    let mut fields = Fields::of(&mut maker.place, node)?;
    let member = fields.need(&mut maker.place, "algorithm")?;
    identified(maker, 0x06, member)?;
    maker.place.leave();
    let from = maker.open();
    if let Some(told) = fields.enter(&mut maker.place, "parameters") {
        raw_parameters(maker, told)?;
        maker.leave_from(from)?;
    } else {
        maker.element(0x05, &[])?;
    }
    fields.finish(&mut maker.place)?;
    maker.close(start, 0x30)
}
