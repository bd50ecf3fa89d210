//! Hash functions by their identifiers and names, and what is made of them.

use super::Heap;
use super::checks::{bytes_of, is_so, made_turn, same, same_bytes};
use refusing::{Refusing, in_turn};
use std::alloc::Global;
use std::process::Abort;
use x509_der::{ObjectIdentifier, OidError, from_bytes};
use x509_keys::{AlgorithmError, HashAlgorithm, MaskGenAlgorithm, RsassaPssParams, ShaVariant};
use x509_prim::CharSetError;

/// The last arc behind 2.16.840.1.101.3.4.2, and the length of a hash (FIPS 180-4, FIPS 202).
const HASHES: &[(HashAlgorithm, u64, usize)] = &[
    (HashAlgorithm::SHA224, 4, 28),
    (HashAlgorithm::SHA256, 1, 32),
    (HashAlgorithm::SHA384, 2, 48),
    (HashAlgorithm::SHA512, 3, 64),
    (HashAlgorithm::SHA3_224, 7, 28),
    (HashAlgorithm::SHA3_256, 8, 32),
    (HashAlgorithm::SHA3_384, 9, 48),
    (HashAlgorithm::SHA3_512, 10, 64),
];

/// The arcs and the name of each.
const SHAS: &[(ShaVariant, &[u64], &str)] = &[
    (ShaVariant::MD5, &[1, 2, 840, 113549, 2, 5], "MD5"),
    (ShaVariant::SHA1, &[1, 3, 14, 3, 2, 26], "SHA1"),
    (
        ShaVariant::SHA2_224,
        &[2, 16, 840, 1, 101, 3, 4, 2, 4],
        "SHA2_224",
    ),
    (
        ShaVariant::SHA2_256,
        &[2, 16, 840, 1, 101, 3, 4, 2, 1],
        "SHA2_256",
    ),
    (
        ShaVariant::SHA2_384,
        &[2, 16, 840, 1, 101, 3, 4, 2, 2],
        "SHA2_384",
    ),
    (
        ShaVariant::SHA2_512,
        &[2, 16, 840, 1, 101, 3, 4, 2, 3],
        "SHA2_512",
    ),
    (
        ShaVariant::SHA2_512_224,
        &[2, 16, 840, 1, 101, 3, 4, 2, 5],
        "SHA2_512_224",
    ),
    (
        ShaVariant::SHA2_512_256,
        &[2, 16, 840, 1, 101, 3, 4, 2, 6],
        "SHA2_512_256",
    ),
    (
        ShaVariant::SHA3_224,
        &[2, 16, 840, 1, 101, 3, 4, 2, 7],
        "SHA3_224",
    ),
    (
        ShaVariant::SHA3_256,
        &[2, 16, 840, 1, 101, 3, 4, 2, 8],
        "SHA3_256",
    ),
    (
        ShaVariant::SHA3_384,
        &[2, 16, 840, 1, 101, 3, 4, 2, 9],
        "SHA3_384",
    ),
    (
        ShaVariant::SHA3_512,
        &[2, 16, 840, 1, 101, 3, 4, 2, 10],
        "SHA3_512",
    ),
    (
        ShaVariant::SHAKE128,
        &[2, 16, 840, 1, 101, 3, 4, 2, 11],
        "SHAKE128",
    ),
    (
        ShaVariant::SHAKE256,
        &[2, 16, 840, 1, 101, 3, 4, 2, 12],
        "SHAKE256",
    ),
];

/// The identifier of these arcs; from here on each request is refused.
fn last_identifier<A: Heap>(rt: &impl Abort, heap: A, arcs: &[u64]) -> ObjectIdentifier<A> {
    let identifier = ObjectIdentifier::from_arcs(heap, arcs).expect(rt, "lawful arcs");
    heap.refuse_all();
    identifier
}

/// It is so, and no request was made since all were refused; none is refused any more.
fn needs_none<A: Heap>(rt: &impl Abort, heap: A, is_right: bool, what: &str) {
    is_so(rt, is_right, what);
    same(rt, &heap.requests(), &0, what);
    heap.refuse(0);
}

/// Whether the answer is this one.
fn is_value<T: PartialEq + Drop, E: Drop>(answer: Result<T, E>, value: &T) -> bool {
    match answer {
        Ok(found) => found == *value,
        Err(_refused) => false,
    }
}

/// A hash function is found by its identifier, and tells it and its length, without memory.
fn hashes_are_found_over<A: Heap>(rt: &impl Abort, heap: A) {
    for (hash, last, len) in HASHES {
        let identifier = last_identifier(rt, heap, &[2, 16, 840, 1, 101, 3, 4, 2, *last]);
        let is_found = is_value(HashAlgorithm::from_oid(heap, &identifier), hash);
        let is_told = is_value(hash.to_oid(heap), &identifier);
        let is_long = hash.len() == *len && !hash.is_empty();
        needs_none(rt, heap, is_found && is_told && is_long, "a hash function");
    }
}

#[test]
fn hashes_are_found(rt: HostRuntime) {
    let heap = Refusing::new(rt.alloc());
    hashes_are_found_over(&rt, &heap);
}

/// A hash function is found by its identifier, and tells it and its name, without memory.
fn shas_are_found_over<A: Heap>(rt: &impl Abort, heap: A) {
    for (sha, arcs, name) in SHAS {
        let identifier = last_identifier(rt, heap, *arcs);
        let is_found = is_value(ShaVariant::from_oid(heap, &identifier), sha);
        let is_told = is_value(sha.to_oid(heap), &identifier) && sha.name() == *name;
        needs_none(rt, heap, is_found && is_told, *name);
    }
}

#[test]
fn shas_are_found(rt: HostRuntime) {
    let heap = Refusing::new(rt.alloc());
    shas_are_found_over(&rt, &heap);
}

/// The error of an identifier that names no hash function.
fn error_of(rt: &impl Abort, alloc: Global, arcs: &[u64]) -> AlgorithmError {
    let identifier = ObjectIdentifier::from_arcs(alloc, arcs).expect(rt, "lawful arcs");
    HashAlgorithm::from_oid(alloc, &identifier)
        .err()
        .expect(rt, "another")
}

#[test]
fn errors_are_printed(rt: HostRuntime) {
    let alloc = rt.alloc();
    let error = error_of(&rt, alloc, &[1, 3, 14, 3, 2, 26]);
    let text = format!(in alloc; "{error}").expect(&rt, "memory");
    same_bytes(
        &rt,
        text.as_bytes(),
        b"unsupported algorithm:  1.3.14.3.2.26",
        "an algorithm",
    );
}

#[test]
fn errors_are_compared(rt: HostRuntime) {
    let sha1 = error_of(&rt, rt.alloc(), &[1, 3, 14, 3, 2, 26]);
    let again = error_of(&rt, rt.alloc(), &[1, 3, 14, 3, 2, 26]);
    is_so(&rt, sha1 == again, "the same name");
    is_so(&rt, sha1 != AlgorithmError::OutOfMemory, "another error");
    is_so(&rt, OidError::Bad != OidError::OutOfMemory, "arcs");
    is_so(&rt, CharSetError == CharSetError, "the only error");
}

#[test]
fn want_of_memory_is_printed(rt: HostRuntime) {
    let error = AlgorithmError::<Global>::OutOfMemory;
    let text = format!(in rt.alloc(); "{error}").expect(&rt, "memory");
    same_bytes(&rt, text.as_bytes(), b"out of memory", "no memory");
}

/// MGF1 with SHA3-384.
const MASK: &str = "301a06092a864886f70d010108300d06096086480165030402090500";

/// The mask generation function takes no memory.
fn masks_are_made_over<A: Heap>(rt: &impl Abort, heap: A, alloc: Global) {
    let bytes = bytes_of(rt, alloc, MASK);
    let requests = in_turn!(
        heap,
        {
            made_turn(
                MaskGenAlgorithm::new(heap, HashAlgorithm::SHA3_384),
                &bytes,
            )
        }
    );
    same(rt, &requests, &Some(0), "requests");
}

#[test]
fn masks_are_made(rt: HostRuntime) {
    let heap = Refusing::new(rt.alloc());
    masks_are_made_over(&rt, &heap, rt.alloc());
}

/// The salt's length that the parameters in hexadecimal are read with, which are made of SHA-256.
fn salt_in(rt: &impl Abort, alloc: Global, text: &str) -> usize {
    let bytes = bytes_of(rt, alloc, text);
    let read = from_bytes::<RsassaPssParams, Global>(alloc, &bytes).expect(rt, text);
    let made = RsassaPssParams::new(alloc, HashAlgorithm::SHA256).expect(rt, "memory");
    let is_made = read.hash_algorithm == made.hash_algorithm;
    is_so(
        rt,
        is_made && read.mask_gen_algorithm == made.mask_gen_algorithm,
        text,
    );
    read.salt_length
}

/// Lengths of salts, and parameters that have them.
const SALTS: &[(usize, &str)] = &[
    (
        0,
        "3034a00f300d06096086480165030402010500a11c301a06092a864886f70d010108300d06096086480165030402010500a203020100",
    ),
    (
        200,
        "3035a00f300d06096086480165030402010500a11c301a06092a864886f70d010108300d06096086480165030402010500a204020200c8",
    ),
    (
        18446744073709551615,
        "303ca00f300d06096086480165030402010500a11c301a06092a864886f70d010108300d06096086480165030402010500a20b020900ffffffffffffffff",
    ),
    (
        18446744073709551615,
        "303ca00f300d06096086480165030402010500a11c301a06092a864886f70d010108300d06096086480165030402010500a20b0209010000000000000000",
    ),
];

#[test]
fn salts_are_read(rt: HostRuntime) {
    for (length, text) in SALTS {
        let read = salt_in(&rt, rt.alloc(), *text);
        same(&rt, &read, length, *text);
    }
}
