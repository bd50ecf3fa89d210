//! Makers of public and private keys, and what is asked of them.

use super::Heap;
use super::checks::{is_so, is_written, made_turn, same_bytes};
use refusing::{Refusing, Turn, in_turn};
use std::alloc::{AllocError, Allocator};
use std::process::Abort;
use x509_der::{
    BitString, IntegerAsn1, ObjectIdentifier, OctetStringAsn1, OidError, ReadError, from_bytes,
};
use x509_keys::{
    PRIVATE_KEY_INFO_VERSION_1, PRIVATE_KEY_INFO_VERSION_2, PrivateKeyInfo, RsaPrivateKey,
    SubjectPublicKeyInfo,
};

/// An RSA key of 5 and 3, with its algorithm.
const RSA_SUBJECT: &[u8] = &[
    0x30, 0x1A, 0x30, 0x0D, 0x06, 0x09, 0x2A, 0x86, 0x48, 0x86, 0xF7, 0x0D, 0x01, 0x01, 0x01, 0x05,
    0x00, 0x03, 0x09, 0x00, 0x30, 0x06, 0x02, 0x01, 0x05, 0x02, 0x01, 0x03,
];

/// The bits 10101010 on P-256.
const EC_SUBJECT: &[u8] = &[
    0x30, 0x19, 0x30, 0x13, 0x06, 0x07, 0x2A, 0x86, 0x48, 0xCE, 0x3D, 0x02, 0x01, 0x06, 0x08, 0x2A,
    0x86, 0x48, 0xCE, 0x3D, 0x03, 0x01, 0x07, 0x03, 0x02, 0x00, 0xAA,
];

/// The secret AA on P-256, with the curve outside of the key alone, and the point of the byte BB.
const EC_INFO: &[u8] = &[
    0x30, 0x28, 0x02, 0x01, 0x00, 0x30, 0x13, 0x06, 0x07, 0x2A, 0x86, 0x48, 0xCE, 0x3D, 0x02, 0x01,
    0x06, 0x08, 0x2A, 0x86, 0x48, 0xCE, 0x3D, 0x03, 0x01, 0x07, 0x04, 0x0E, 0x30, 0x0C, 0x02, 0x01,
    0x01, 0x04, 0x01, 0xAA, 0xA1, 0x04, 0x03, 0x02, 0x00, 0xBB,
];

/// The secret AA of Ed25519, with the public key BB.
const ED_INFO_WITH_KEY: &[u8] = &[
    0x30, 0x15, 0x02, 0x01, 0x01, 0x30, 0x05, 0x06, 0x03, 0x2B, 0x65, 0x70, 0x04, 0x03, 0x04, 0x01,
    0xAA, 0xA1, 0x04, 0x03, 0x02, 0x00, 0xBB,
];

/// An identifier of lawful arcs.
fn identifier<A: Allocator + Copy>(
    alloc: A,
    arcs: &[u64],
) -> Result<ObjectIdentifier<A>, AllocError> {
    match ObjectIdentifier::from_arcs(alloc, arcs) {
        Ok(identifier) => Ok(identifier),
        Err(OidError::OutOfMemory | OidError::Bad) => Err(AllocError),
    }
}

/// The curve P-256.
const P256: &[u64] = &[1, 2, 840, 10045, 3, 1, 7];

/// An RSA key of 5 and 3.
fn rsa_key<A: Allocator + Copy>(alloc: A) -> Result<SubjectPublicKeyInfo<A>, AllocError> {
    let modulus = IntegerAsn1::from_u64(alloc, 5)?;
    let public_exponent = IntegerAsn1::from_u64(alloc, 3)?;
    SubjectPublicKeyInfo::new_rsa_key(alloc, modulus, public_exponent)
}

/// A point of the bits 10101010 on P-256.
fn ec_key<A: Allocator + Copy>(alloc: A) -> Result<SubjectPublicKeyInfo<A>, AllocError> {
    let curve = identifier(alloc, P256)?;
    let point = Vec::from_slice(alloc, b"\xAA")?;
    SubjectPublicKeyInfo::new_ec_key(alloc, curve, BitString::with_bytes(point))
}

/// The makers of public keys that take memory.
fn public_keys_are_made_over<A: Heap>(rt: &impl Abort, heap: A) {
    let requests = in_turn!(heap, made_turn(rsa_key(heap), RSA_SUBJECT));
    is_so(rt, requests.is_some(), "an RSA key");
    let requests = in_turn!(heap, made_turn(ec_key(heap), EC_SUBJECT));
    is_so(rt, requests.is_some(), "a point");
}

#[test]
fn public_keys_are_made(rt: HostRuntime) {
    let heap = Refusing::new(rt.alloc());
    public_keys_are_made_over(&rt, &heap);
}

/// An RSA key of the version 0 and the numbers 1 to 8.
const RSA_KEY: &[u8] = &[
    0x30, 0x1B, 0x02, 0x01, 0x00, 0x02, 0x01, 0x01, 0x02, 0x01, 0x02, 0x02, 0x01, 0x03, 0x02, 0x01,
    0x04, 0x02, 0x01, 0x05, 0x02, 0x01, 0x06, 0x02, 0x01, 0x07, 0x02, 0x01, 0x08,
];

/// The same with its algorithm.
const RSA_INFO: &[u8] = &[
    0x30, 0x31, 0x02, 0x01, 0x00, 0x30, 0x0D, 0x06, 0x09, 0x2A, 0x86, 0x48, 0x86, 0xF7, 0x0D, 0x01,
    0x01, 0x01, 0x05, 0x00, 0x04, 0x1D, 0x30, 0x1B, 0x02, 0x01, 0x00, 0x02, 0x01, 0x01, 0x02, 0x01,
    0x02, 0x02, 0x01, 0x03, 0x02, 0x01, 0x04, 0x02, 0x01, 0x05, 0x02, 0x01, 0x06, 0x02, 0x01, 0x07,
    0x02, 0x01, 0x08,
];

/// The key of these numbers.
fn rsa_info<A: Allocator + Copy>(
    alloc: A,
    key: RsaPrivateKey<A>,
) -> Result<PrivateKeyInfo<A>, AllocError> {
    PrivateKeyInfo::new_rsa_encryption(
        alloc,
        key.modulus,
        key.public_exponent,
        key.private_exponent,
        (key.prime_1, key.prime_2),
        (key.exponent_1, key.exponent_2),
        key.coefficient,
    )
}

/// What a run showed that should read the numbers of a key and make what is written as these bytes.
fn rsa_turn<A: Allocator + Copy>(alloc: A, numbers: &[u8], bytes: &[u8]) -> Turn {
    match from_bytes::<RsaPrivateKey<A>, A>(alloc, numbers) {
        Ok(key) => made_turn(rsa_info(alloc, key), bytes),
        Err(ReadError::OutOfMemory) => Turn::Refused,
        Err(_other) => Turn::Wrong,
    }
}

/// The numbers are taken in their order, and both versions are 0.
fn rsa_private_keys_are_made_over<A: Heap>(rt: &impl Abort, heap: A) {
    let requests = in_turn!(heap, rsa_turn(heap, RSA_KEY, RSA_INFO));
    is_so(rt, requests.is_some(), "the numbers 1 to 8");
}

#[test]
fn rsa_private_keys_are_made(rt: HostRuntime) {
    let heap = Refusing::new(rt.alloc());
    rsa_private_keys_are_made_over(&rt, &heap);
}

/// The secret AA on P-256, with the point of the byte BB.
fn ec_info<A: Allocator + Copy>(alloc: A) -> Result<PrivateKeyInfo<A>, AllocError> {
    let curve = identifier(alloc, P256)?;
    let secret = Vec::from_slice(alloc, b"\xAA")?;
    let point = BitString::with_bytes(Vec::from_slice(alloc, b"\xBB")?);
    PrivateKeyInfo::new_ec_encryption(alloc, curve, OctetStringAsn1(secret), Some(point), true)
}

/// The test of this name, over any such allocator.
fn ec_private_keys_are_made_over<A: Heap>(rt: &impl Abort, heap: A) {
    let requests = in_turn!(heap, made_turn(ec_info(heap), EC_INFO));
    is_so(rt, requests.is_some(), "a point in the key");
}

#[test]
fn ec_private_keys_are_made(rt: HostRuntime) {
    let heap = Refusing::new(rt.alloc());
    ec_private_keys_are_made_over(&rt, &heap);
}

/// A key is made with each request for memory refused. With a public key the version is 1, without one 0.
fn bare_private_keys_take_no_memory_over<A: Heap>(rt: &impl Abort, heap: A) {
    let algorithm = identifier(heap, &[1, 3, 101, 112]).expect(rt, "lawful arcs");
    let secret = OctetStringAsn1(Vec::from_slice(heap, b"\xAA").expect(rt, "memory"));
    let key = BitString::with_bytes(Vec::from_slice(heap, b"\xBB").expect(rt, "memory"));
    heap.refuse_all();
    let info = PrivateKeyInfo::new_ed_encryption(algorithm, secret, Some(key));
    is_so(rt, heap.requests() == 0, "no memory");
    is_so(rt, is_written(&info, ED_INFO_WITH_KEY), "bytes");
    is_so(rt, info.version == PRIVATE_KEY_INFO_VERSION_2, "version");
    is_so(rt, PRIVATE_KEY_INFO_VERSION_1 == 0, "the other");
    drop(info);
}

#[test]
fn bare_private_keys_take_no_memory(rt: HostRuntime) {
    let heap = Refusing::new(rt.alloc());
    bare_private_keys_take_no_memory_over(&rt, &heap);
}

/// The integer is this byte.
fn is_byte<A: Allocator>(rt: &impl Abort, number: &IntegerAsn1<A>, byte: u8) {
    same_bytes(rt, number.as_bytes(), &[byte], "a number of the key");
}

/// The numbers are lent one by one and in pairs, and the public ones taken out.
fn numbers_of_keys_are_lent_over<A: Heap>(rt: &impl Abort, heap: A) {
    let key = from_bytes::<RsaPrivateKey<A>, A>(heap, RSA_KEY).expect(rt, "an RSA key");
    heap.refuse_all();
    is_byte(rt, key.modulus(), 1);
    is_byte(rt, key.public_exponent(), 2);
    is_byte(rt, key.private_exponent(), 3);
    is_byte(rt, key.prime_1(), 4);
    is_byte(rt, key.prime_2(), 5);
    is_byte(rt, key.exponent_1(), 6);
    is_byte(rt, key.exponent_2(), 7);
    is_byte(rt, key.coefficient(), 8);
    let (primes, exponents) = (key.primes(), key.exponents());
    is_byte(rt, primes.1, 5);
    is_byte(rt, exponents.1, 7);
    let (modulus, public_exponent) = key.into_public_components();
    is_byte(rt, &modulus, 1);
    is_byte(rt, &public_exponent, 2);
    is_so(rt, heap.requests() == 0, "no memory");
}

#[test]
fn numbers_of_keys_are_lent(rt: HostRuntime) {
    let heap = Refusing::new(rt.alloc());
    numbers_of_keys_are_lent_over(&rt, &heap);
}
