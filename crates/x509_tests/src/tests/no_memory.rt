//! Types whose values take no memory, read with every request refused.

use super::rows::{Heap, READINGS, bytes_of, read_by};
use picky_asn1_x509::BasicConstraints;
use refusing::Refusing;
use std::process::Abort;
use x509_der::{FromDer, ReadError};
use x509_names::{Time, Validity, Version};
use x509_prim::{GeneralizedTimeAsn1, UtcTimeAsn1};

/// Each call answers these bytes in hexadecimal without memory: the value, or the refusal by its own name.
fn reads<A: Heap, T: FromDer<A>>(rt: &impl Abort, heap: A, text: &str, refusal: Option<ReadError>) {
    let bytes = bytes_of(rt, heap, text);
    heap.refuse_all();
    for reading in READINGS {
        let refused = read_by::<A, T>(*reading, heap, &bytes).err();
        assert!(rt; refused == refusal, "{text}");
    }
    assert!(rt; heap.requests() == 0, "{text}");
    heap.refuse(0);
}

/// The test of this name, over any such allocator.
fn truth_values_are_read_over<A: Heap>(rt: &impl Abort, heap: A) {
    reads::<A, bool>(rt, heap, "0101ff", None);
    reads::<A, bool>(rt, heap, "010101", Some(ReadError::BadBoolean));
    reads::<A, bool>(rt, heap, "0101", Some(ReadError::Truncated));
}

#[test]
fn truth_values_are_read(rt: HostRuntime) {
    let heap = Refusing::new(rt.alloc());
    truth_values_are_read_over(&rt, &heap);
}

/// The test of this name, over any such allocator.
fn small_numbers_are_read_over<A: Heap>(rt: &impl Abort, heap: A) {
    reads::<A, u8>(rt, heap, "020200ff", None);
    reads::<A, u8>(rt, heap, "020180", Some(ReadError::BadNumber));
    reads::<A, ()>(rt, heap, "0500", None);
    reads::<A, ()>(rt, heap, "05000500", Some(ReadError::LeftOver));
}

#[test]
fn small_numbers_are_read(rt: HostRuntime) {
    let heap = Refusing::new(rt.alloc());
    small_numbers_are_read_over(&rt, &heap);
}

/// The test of this name, over any such allocator.
fn times_are_read_over<A: Heap>(rt: &impl Abort, heap: A) {
    let utc = "170d3530303130313030303030305a";
    reads::<A, UtcTimeAsn1>(rt, heap, utc, None);
    let no_day = "170d3139303232393030303030305a";
    reads::<A, UtcTimeAsn1>(rt, heap, no_day, Some(ReadError::BadTime));
    let generalized = "180f30303030303232393030303030305a";
    reads::<A, GeneralizedTimeAsn1>(rt, heap, generalized, None);
    let no_day = "180f31393030303232393030303030305a";
    reads::<A, GeneralizedTimeAsn1>(rt, heap, no_day, Some(ReadError::BadTime));
}

#[test]
fn times_are_read(rt: HostRuntime) {
    let heap = Refusing::new(rt.alloc());
    times_are_read_over(&rt, &heap);
}

/// The test of this name, over any such allocator.
fn versions_are_read_over<A: Heap>(rt: &impl Abort, heap: A) {
    reads::<A, Version>(rt, heap, "020102", None);
    reads::<A, Version>(rt, heap, "020103", Some(ReadError::BadVersion));
    reads::<A, Version>(rt, heap, "02020001", Some(ReadError::BadNumber));
}

#[test]
fn versions_are_read(rt: HostRuntime) {
    let heap = Refusing::new(rt.alloc());
    versions_are_read_over(&rt, &heap);
}

/// The test of this name, over any such allocator.
fn validities_are_read_over<A: Heap>(rt: &impl Abort, heap: A) {
    let generalized = "180f30303030303232393030303030305a";
    reads::<A, Time>(rt, heap, generalized, None);
    reads::<A, Time>(rt, heap, "1700", Some(ReadError::BadTime));
    let validity = "301e170d3139313031373137343132385a170d3232313031363137343132385a";
    reads::<A, Validity>(rt, heap, validity, None);
    reads::<A, Validity>(rt, heap, "30021700", Some(ReadError::BadTime));
}

#[test]
fn validities_are_read(rt: HostRuntime) {
    let heap = Refusing::new(rt.alloc());
    validities_are_read_over(&rt, &heap);
}

/// The test of this name, over any such allocator.
fn constraints_are_read_over<A: Heap>(rt: &impl Abort, heap: A) {
    reads::<A, BasicConstraints>(rt, heap, "30060101ff020103", None);
    let above = "30040202012c";
    reads::<A, BasicConstraints>(rt, heap, above, Some(ReadError::BadNumber));
}

#[test]
fn constraints_are_read(rt: HostRuntime) {
    let heap = Refusing::new(rt.alloc());
    constraints_are_read_over(&rt, &heap);
}
