//! What extensions hold: getters, setters and look-ups.

use super::Heap;
use super::checks::{granted, is_so, is_written, same, same_bytes};
use picky_asn1_x509::{BasicConstraints, ExtendedKeyUsage, KeyUsage};
use refusing::{Refusing, Turn, in_turn};
use std::alloc::{AllocError, Allocator};
use std::process::Abort;
use x509_der::ObjectIdentifier;

/// Sets or clears the bit at a place by the setter of its name.
fn set_to<A: Allocator>(
    usage: &mut KeyUsage<A>,
    bit: usize,
    value: bool,
) -> Result<(), AllocError> {
    match bit {
        0 => usage.set_digital_signature(value),
        1 => usage.set_content_commitment(value),
        2 => usage.set_key_encipherment(value),
        3 => usage.set_data_encipherment(value),
        4 => usage.set_key_agreement(value),
        5 => usage.set_key_cert_sign(value),
        6 => usage.set_crl_sign(value),
        7 => usage.set_encipher_only(value),
        _ => usage.set_decipher_only(value),
    }
}

/// No bits.
const NONE: &[u8] = b"\x03\x01\x00";

/// What a run showed in which a bit past the end should be changed, after which the usage is written as these bytes; no
/// bits stand as they were where memory is refused.
fn lengthened_turn<A: Allocator>(
    usage: Result<KeyUsage<A>, AllocError>,
    bit: usize,
    value: bool,
    bytes: &[u8],
) -> Turn {
    let Ok(mut usage) = usage else {
        return Turn::Refused;
    };
    match set_to(&mut usage, bit, value) {
        Ok(()) => Turn::right(is_written(&usage, bytes)),
        Err(AllocError) => Turn::stands(is_written(&usage, NONE)),
    }
}

/// No bits, after the one at a place is set, and after it is cleared.
const LENGTHENED: &[(usize, &[u8], &[u8])] = &[
    (0, b"\x03\x02\x07\x80", b"\x03\x02\x07\x00"),
    (1, b"\x03\x02\x06\x40", b"\x03\x02\x06\x00"),
    (2, b"\x03\x02\x05\x20", b"\x03\x02\x05\x00"),
    (3, b"\x03\x02\x04\x10", b"\x03\x02\x04\x00"),
    (4, b"\x03\x02\x03\x08", b"\x03\x02\x03\x00"),
    (5, b"\x03\x02\x02\x04", b"\x03\x02\x02\x00"),
    (6, b"\x03\x02\x01\x02", b"\x03\x02\x01\x00"),
    (7, b"\x03\x02\x00\x01", b"\x03\x02\x00\x00"),
    (8, b"\x03\x03\x07\x00\x80", b"\x03\x03\x07\x00\x00"),
];

/// A setter past the end lengthens to its bit and no further, also to clear it, and takes memory once.
fn usages_are_lengthened_over<A: Heap>(rt: &impl Abort, heap: A) {
    for (bit, set, cleared) in LENGTHENED {
        let requests = in_turn!(
            heap,
            lengthened_turn(KeyUsage::new(heap, 0), *bit, true, *set)
        );
        same(rt, &requests, &Some(1), "set");
        let requests = in_turn!(
            heap,
            lengthened_turn(KeyUsage::new(heap, 0), *bit, false, *cleared)
        );
        same(rt, &requests, &Some(1), "cleared");
    }
}

#[test]
fn usages_are_lengthened(rt: HostRuntime) {
    let heap = Refusing::new(rt.alloc());
    usages_are_lengthened_over(&rt, &heap);
}

/// The bit at a place by the getter of its name.
fn bit_of<A: Allocator>(usage: &KeyUsage<A>, bit: usize) -> bool {
    match bit {
        0 => usage.digital_signature(),
        1 => usage.content_commitment(),
        2 => usage.key_encipherment(),
        3 => usage.data_encipherment(),
        4 => usage.key_agreement(),
        5 => usage.key_cert_sign(),
        6 => usage.crl_sign(),
        7 => usage.encipher_only(),
        _ => usage.decipher_only(),
    }
}

/// Each bit by itself, in nine.
const BITS: &[(usize, &[u8])] = &[
    (0, b"\x80\x00"),
    (1, b"\x40\x00"),
    (2, b"\x20\x00"),
    (3, b"\x10\x00"),
    (4, b"\x08\x00"),
    (5, b"\x04\x00"),
    (6, b"\x02\x00"),
    (7, b"\x01\x00"),
    (8, b"\x00\x80"),
];

/// Of unset bits the one at each place is set, seen and cleared.
fn bits_are_set_over<A: Heap>(rt: &impl Abort, heap: A) {
    let mut usage = KeyUsage::new_default(heap).expect(rt, "memory");
    heap.refuse_all();
    for (bit, bytes) in BITS {
        is_so(rt, set_to(&mut usage, *bit, true).is_ok(), "set");
        same_bytes(rt, usage.as_bytes(), *bytes, "a bit");
        is_so(rt, bit_of(&usage, *bit), "seen");
        is_so(rt, set_to(&mut usage, *bit, false).is_ok(), "cleared");
    }
    same(rt, &heap.requests(), &0, "no request");
    heap.refuse(0);
}

#[test]
fn bits_are_set(rt: HostRuntime) {
    let heap = Refusing::new(rt.alloc());
    bits_are_set_over(&rt, &heap);
}

/// Any purpose is looked up in a list of it.
fn purposes_are_looked_up_over<A: Heap>(rt: &impl Abort, heap: A) {
    let any = ObjectIdentifier::from_arcs(heap, &[2, 5, 29, 37, 0]).expect(rt, "lawful arcs");
    let mut list = Vec::new(heap);
    let purpose = granted(rt, any.clone());
    granted(rt, list.push(purpose.into()));
    heap.refuse_all();
    let mut usage = ExtendedKeyUsage::from(list);
    is_so(rt, usage.contains(&any), "any purpose");
    is_so(rt, usage.iter().next().is_some(), "the first");
    is_so(rt, usage.get_mut(0).is_some(), "to be changed");
    is_so(rt, usage.get_mut(1).is_none(), "no second");
    same(rt, &heap.requests(), &0, "no request");
    heap.refuse(0);
    drop(usage);
}

#[test]
fn purposes_are_looked_up(rt: HostRuntime) {
    let heap = Refusing::new(rt.alloc());
    purposes_are_looked_up_over(&rt, &heap);
}

#[test]
fn constraints_are_seen(rt: HostRuntime) {
    let made = BasicConstraints::new(Some(true), Some(3));
    is_so(&rt, made.ca() == Some(true), "an authority");
    is_so(&rt, made.pathlen() == Some(3), "three may follow");
    let none = BasicConstraints::new(None, None);
    is_so(&rt, none.ca().is_none() && none.pathlen().is_none(), "none");
}
