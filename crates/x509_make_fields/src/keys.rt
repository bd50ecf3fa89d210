//! Public keys.

ghost use Rattle.std.specs.Prelude.{◌≡◌, ◌++◌, List, ℕ, OnOk};
ghost use Rattle.sha1.specs.Sha1.{sha1};
ghost use Rattle.x509_make_fields.specs.KeyBits.{KeyBits};
ghost use Rattle.x509_make_parts.specs.Appending.{Appends, AppendsElement};

use crate::issuer::{key_bits, requested_key};
use crate::pem::{is_request, pem_bytes};
use json::Value;
use sha1::Sha1;
use std::alloc::Allocator;
use x509_make_keys::members::{algorithm_member, integer_member};
use x509_make_parts::{Done, Fault, Maker};
use x509_make_values::Fields;
use x509_make_values::bits::bits;

/// Appends an `RSAPublicKey` by its numbers (RFC 8017, A.1.1).
///
/// # Errors
/// `Missing`, and those of what stands in it.
pub fn rsa_public_key<A: Allocator + Copy>(maker: &mut Maker<A>, node: &Value<'_, A>) -> Done
    ensures { OnOk result (AppendsElement 48 maker.old.out.items maker.new.out.items) }
{
    let start = maker.open();
    let mut fields = Fields::of(&mut maker.place, node)?;
    integer_member(maker, &mut fields, "modulus")?;
    integer_member(maker, &mut fields, "publicExponent")?;
    fields.finish(&mut maker.place)?;
    maker.close(start, 0x30)
}

/// Appends a public key in its BIT STRING.
fn subject_key<A: Allocator + Copy>(maker: &mut Maker<A>, node: &Value<'_, A>) -> Done
    ensures { OnOk result (AppendsElement 3 maker.old.out.items maker.new.out.items) }
{
    if node.get("modulus").is_none() {
        return bits(maker, 0x03, node);
    }
    let start = maker.open();
    maker.put(&[0])?;
    rsa_public_key(maker, node)?;
    maker.close(start, 0x03)
}

/// Appends a `SubjectPublicKeyInfo` (RFC 5280, 4.1.2.7): in PEM, that of a request in PEM, or by its fields.
///
/// # Errors
/// `Not` where a node is none, and those of what stands in it.
pub fn public_key<A: Allocator + Copy>(maker: &mut Maker<A>, node: &Value<'_, A>) -> Done
    ensures { OnOk result (Appends maker.old.out.items maker.new.out.items) }
{
    if let Value::String(text) = node {
        if is_request(*text) {
            return requested_key(maker, *text);
        }
        let what = "a public key in PEM (-----BEGIN PUBLIC KEY-----)";
        let bytes = pem_bytes(maker.alloc, *text, "PUBLIC KEY", what)?;
        return maker.put(bytes.as_slice());
    }
    let start = maker.open();
    let mut fields = Fields::of(&mut maker.place, node)?;
    algorithm_member(maker, &mut fields, "algorithm")?;
    let from = maker.open();
    let key = fields.need(&mut maker.place, "subjectPublicKey")?;
    subject_key(maker, key)?;
    maker.leave_from(from)?;
    fields.finish(&mut maker.place)?;
    maker.close(start, 0x30)
}

/// Appends the SHA-1 digest of the bits of a public key with its algorithm (RFC 5280, 4.2.1.2, method 1).
///
/// # Errors
/// `Said` where it is no key.
pub(crate) fn key_digest<A: Allocator + Copy>(maker: &mut Maker<A>, key: &[u8]) -> Done
    ensures { OnOk result ((bits : List ℕ) × KeyBits key.now bits × (maker.new.out.items ≡ maker.old.out.items ++ sha1 bits)) }
{
    let Some(bits) = key_bits(key) else {
        return Err(Fault::Said("no key to take the digest of"));
    };
    let digest = Sha1::digest(bits);
    maker.put(&digest)
}
