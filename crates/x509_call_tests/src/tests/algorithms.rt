//! Algorithm identifiers with parameters: their makers and clones, and what they and their parameters answer.

use super::Heap;
use super::checks::{bytes_of, clone_turn, is_so, made_turn, same};
use refusing::{Refusing, in_turn};
use std::alloc::{AllocError, Allocator, Global};
use std::process::Abort;
use x509_der::{ObjectIdentifier, ObjectIdentifierAsn1};
use x509_keys::{
    AesAuthEncParams, AesMode, AesParameters, AlgorithmIdentifier, AlgorithmIdentifierParameters,
    EcParameters, HashAlgorithm, RsassaPssParams,
};
use x509_oids_algorithms as oids;

/// RSASSA-PSS with SHA-256.
fn pss<A: Allocator + Copy>(alloc: A) -> Result<AlgorithmIdentifier<A>, AllocError> {
    let parameters = RsassaPssParams::new(alloc, HashAlgorithm::SHA256)?;
    AlgorithmIdentifier::new_rsassa_pss(alloc, parameters)
}

/// An elliptic curve key. That its curve is the identifier of another algorithm isn't looked at.
fn curve<A: Allocator + Copy>(alloc: A) -> Result<AlgorithmIdentifier<A>, AllocError> {
    let named = ObjectIdentifierAsn1::from(oids::ecdsa_with_sha256(alloc)?);
    AlgorithmIdentifier::new_elliptic_curve(alloc, EcParameters::from(named))
}

/// AES with a nonce of twelve bytes.
fn authenticated<A: Allocator + Copy>(alloc: A) -> Result<AlgorithmIdentifier<A>, AllocError> {
    let nonce = Vec::from_slice(alloc, &[0xFF; 12])?;
    let parameters = AesAuthEncParams::new(alloc, nonce, 12)?;
    AlgorithmIdentifier::new_aes128(
        alloc,
        AesMode::Ecb,
        AesParameters::AuthenticatedEncryptionParameters(parameters),
    )
}

/// What these three are written as.
const PSS: &str =
    "304106092a864886f70d01010a3034a00f300d06096086480165030402010500a11c301a06092a864886f70d010108300d06096086480165030402010500a203020120";

const CURVE: &str = "301306072a8648ce3d020106082a8648ce3d040302";

const AUTHENTICATED: &str = "301e06096086480165030401013011040cffffffffffffffffffffffff02010c";

/// The nonce takes memory, and the length.
fn algorithms_with_parameters_over<A: Heap>(rt: &impl Abort, heap: A, alloc: Global) {
    let bytes = bytes_of(rt, alloc, PSS);
    let requests = in_turn!(heap, made_turn(pss(heap), &bytes));
    same(rt, &requests, &Some(0), PSS);
    let bytes = bytes_of(rt, alloc, CURVE);
    let requests = in_turn!(heap, made_turn(curve(heap), &bytes));
    same(rt, &requests, &Some(0), CURVE);
    let bytes = bytes_of(rt, alloc, AUTHENTICATED);
    let requests = in_turn!(heap, made_turn(authenticated(heap), &bytes));
    same(rt, &requests, &Some(2), AUTHENTICATED);
}

#[test]
fn algorithms_with_parameters(rt: HostRuntime) {
    let heap = Refusing::new(rt.alloc());
    algorithms_with_parameters_over(&rt, &heap, rt.alloc());
}

/// Whether an identifier of an elliptic curve key answers as stated to those of a curve and of the key.
fn answers<A: Allocator>(value: &AlgorithmIdentifier<A>, others: &[ObjectIdentifier<A>]) -> bool {
    match (others.get(1), others.get(..1)) {
        (Some(key), Some(curve)) => {
            let is_key = value.oid() == key && value.oid_asn1().0 == *key && value.is_a(key);
            is_key && value.is_one_of(others) && !value.is_one_of(curve)
        }
        _ => false,
    }
}

/// Whether parameters are the curve of these algorithms, or have the nonce and the length of the check value.
fn are_stated<A: Allocator>(parameters: &AlgorithmIdentifierParameters<A>) -> bool {
    match parameters {
        AlgorithmIdentifierParameters::Ec(parameters) => {
            parameters.curve_oid().is_arcs(&[1, 2, 840, 10045, 4, 3, 2])
        }
        AlgorithmIdentifierParameters::Aes(
            AesParameters::AuthenticatedEncryptionParameters(parameters),
        ) => {
            let is_nonce = parameters.nonce() == [0xFF; 12].as_slice();
            is_nonce && parameters.icv_len() == b"\x0C".as_slice()
        }
        _ => false,
    }
}

/// Adds the identifier of these arcs to a list.
fn add<A: Heap>(rt: &impl Abort, heap: A, list: &mut Vec<ObjectIdentifier<A>, A>, arcs: &[u64]) {
    let identifier = ObjectIdentifier::from_arcs(heap, arcs).expect(rt, "lawful arcs");
    is_so(rt, list.push(identifier).is_ok(), "memory");
}

/// An algorithm identifier and its parameters are looked at without memory.
fn algorithms_are_looked_at_over<A: Heap>(rt: &impl Abort, heap: A) {
    let value = curve(heap).expect(rt, CURVE);
    let aes = authenticated(heap).expect(rt, AUTHENTICATED);
    let named = EcParameters::from(oids::ecdsa_with_sha256(heap).expect(rt, "memory"));
    let mut others = Vec::new(heap);
    add(rt, heap, &mut others, &[1, 2, 840, 10045, 4, 3, 2]);
    add(rt, heap, &mut others, &[1, 2, 840, 10045, 2, 1]);
    heap.refuse_all();
    is_so(rt, answers(&value, &others), "an algorithm");
    is_so(rt, are_stated(value.parameters()), "a curve");
    is_so(
        rt,
        others.first() == Some(named.curve_oid()),
        "another curve",
    );
    is_so(rt, are_stated(aes.parameters()), "AES");
    same(rt, &heap.requests(), &0, "requests");
    heap.refuse(0);
    drop(value);
    drop(aes);
}

#[test]
fn algorithms_are_looked_at(rt: HostRuntime) {
    let heap = Refusing::new(rt.alloc());
    algorithms_are_looked_at_over(&rt, &heap);
}

/// The parameters are cloned with so many requests.
fn is_cloned<A: Heap>(
    rt: &impl Abort,
    heap: A,
    made: Result<AlgorithmIdentifier<A>, AllocError>,
    requests: u64,
    what: &str,
) {
    let value = made.expect(rt, what);
    let parameters = value.parameters();
    let counted = in_turn!(heap, clone_turn(parameters.clone(), parameters));
    same(rt, &counted, &Some(requests), what);
    heap.refuse(0);
    drop(value);
}

#[test]
fn parameters_are_cloned(rt: HostRuntime) {
    let heap = Refusing::new(rt.alloc());
    is_cloned(&rt, &heap, curve(&heap), 0, CURVE);
    is_cloned(&rt, &heap, authenticated(&heap), 2, AUTHENTICATED);
}
