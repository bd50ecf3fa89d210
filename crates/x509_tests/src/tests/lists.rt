//! Lists and containers.

use super::fields::Field;
use super::rows::{Heap, Row, Table, all_hold, refuses};
use refusing::Refusing;
use std::alloc::Global;
use std::process::Abort;
use x509_der::{
    Asn1SequenceOf, Asn1SetOf, BitStringAsn1Container, Deviation, IntegerAsn1,
    OctetStringAsn1Container, ReadError, read_metered,
};
use x509_keys::RawAlgorithmIdentifier;

/// Two integers stand in a list.
const TWO_INTEGERS: &[Field<'static>] = &[
    Field {
        around: &[0],
        start: 2,
        tags: &[0x02],
    },
    Field {
        around: &[0],
        start: 5,
        tags: &[0x02],
    },
];

const SEQUENCES: Table<'static> = Table {
    strict: &[("3000", 1)],
    rows: &[Row {
        input: "3006020101020102",
        strict: "3006020101020102",
        places: &[],
        headers: 3,
        fields: TWO_INTEGERS,
    }],
    refused: &[
        "30050201010201", // a second item cut short
        "3100", // another tag
        "3003010100", // an item with another tag
    ],
};

/// The test of this name, over any such allocator.
fn sequences_over<A: Heap>(rt: &impl Abort, heap: A) {
    all_hold::<A, Asn1SequenceOf<u8, A>>(rt, heap, &SEQUENCES);
    all_hold::<A, Asn1SequenceOf<IntegerAsn1<A>, A>>(rt, heap, &SEQUENCES);
}

#[test]
fn sequences(rt: HostRuntime) {
    let heap = Refusing::new(rt.alloc());
    sequences_over(&rt, &heap);
}

/// The order of a SET OF is kept, though its strict order is another.
const SETS: Table<'static> = Table {
    strict: &[],
    rows: &[Row {
        input: "3106020102020101",
        strict: "3106020102020101",
        places: &[],
        headers: 3,
        fields: TWO_INTEGERS,
    }],
    refused: &[
        "3006020102020101", // another tag
    ],
};

/// The test of this name, over any such allocator.
fn sets_over<A: Heap>(rt: &impl Abort, heap: A) {
    all_hold::<A, Asn1SetOf<u8, A>>(rt, heap, &SETS);
    all_hold::<A, Asn1SetOf<IntegerAsn1<A>, A>>(rt, heap, &SETS);
}

#[test]
fn sets(rt: HostRuntime) {
    let heap = Refusing::new(rt.alloc());
    sets_over(&rt, &heap);
}

/// An integer stands in an OCTET STRING.
const IN_OCTETS: Table<'static> = Table {
    strict: &[],
    rows: &[Row {
        input: "0403020105",
        strict: "0403020105",
        places: &[],
        headers: 2,
        fields: &[Field {
            around: &[0],
            start: 2,
            tags: &[0x02],
        }],
    }],
    refused: &[
        "04050201050500", // an element behind the number
    ],
};

/// An integer stands in a BIT STRING, behind the count of its unused bits.
const IN_BITS: Table<'static> = Table {
    strict: &[],
    rows: &[Row {
        input: "030400020105",
        strict: "030400020105",
        places: &[],
        headers: 2,
        fields: &[Field {
            around: &[0],
            start: 3,
            tags: &[0x02],
        }],
    }],
    refused: &[
        "030401020105", // an unused bit
    ],
};

/// The test of this name, over any such allocator.
fn containers_over<A: Heap>(rt: &impl Abort, heap: A) {
    all_hold::<A, OctetStringAsn1Container<u8>>(rt, heap, &IN_OCTETS);
    all_hold::<A, BitStringAsn1Container<u8>>(rt, heap, &IN_BITS);
}

#[test]
fn containers(rt: HostRuntime) {
    let heap = Refusing::new(rt.alloc());
    containers_over(&rt, &heap);
}

/// The test of this name, over any such allocator.
fn containers_of_what_takes_memory_over<A: Heap>(rt: &impl Abort, heap: A) {
    all_hold::<A, OctetStringAsn1Container<IntegerAsn1<A>>>(rt, heap, &IN_OCTETS);
    all_hold::<A, BitStringAsn1Container<IntegerAsn1<A>>>(rt, heap, &IN_BITS);
}

#[test]
fn containers_of_what_takes_memory(rt: HostRuntime) {
    let heap = Refusing::new(rt.alloc());
    containers_of_what_takes_memory_over(&rt, &heap);
}

/// A list of 2000 bytes whose items are empty sets, but for the last, which has this length byte.
pub(super) fn sets_in_list(rt: &impl Abort, alloc: Global, last: u8) -> Vec<u8> {
    let mut bytes = Vec::from_slice(alloc, &[0x30, 0x82, 0x07, 0xD0]).expect(rt, "memory");
    for _set in 0..999 {
        bytes.extend_from_slice(&[0x31, 0]).expect(rt, "memory");
    }
    bytes.extend_from_slice(&[0x31, last]).expect(rt, "memory");
    bytes
}

/// A list of sets is read, or not, with so many headers.
fn headers_are(rt: &impl Abort, alloc: Global, bytes: &[u8], is_read: bool, count: usize) {
    let (read, headers) = read_metered::<Asn1SequenceOf<Asn1SetOf<u8>>, Global>(alloc, bytes);
    assert_eq!(rt; read.is_ok(), is_read);
    assert!(rt; read.err() != Some(ReadError::OutOfMemory));
    assert_eq!(rt; headers, count);
}

#[test]
fn many_headers_are_counted(rt: HostRuntime) {
    let alloc = rt.alloc();
    let whole = sets_in_list(&rt, alloc, 0);
    headers_are(&rt, alloc, &whole, true, 1001);
}

/// The bytes are no list of sets.
fn sets_are_refused<A: Heap>(rt: &impl Abort, heap: A, bytes: &[u8]) {
    refuses::<A, Asn1SequenceOf<Asn1SetOf<u8, A>, A>>(rt, heap, bytes);
}

#[test]
fn headers_before_a_fault_are_counted(rt: HostRuntime) {
    let alloc = rt.alloc();
    headers_are(&rt, alloc, &[0x30, 2, 0x31, 0, 0xFF], false, 2);
    let cut = sets_in_list(&rt, alloc, 1);
    headers_are(&rt, alloc, &cut, false, 1001);
    let heap = Refusing::new(alloc);
    sets_are_refused(&rt, &heap, &cut);
}

/// The items' deviations are placed from the input's start; an item that is refused stands behind one with a place.
/// Five items and five places need more room than the least that a `Vec` takes.
const ITEMS_WITHOUT_PARAMETERS: Table<'static> = Table {
    strict: &[],
    rows: &[
        Row {
            input: "300c300a06082a864886f70d0209",
            strict: "300e300c06082a864886f70d02090500",
            places: &[(Deviation::RawParametersAbsent, 2, 14)],
            headers: 3,
            fields: &[Field {
                around: &[0, 2],
                start: 4,
                tags: &[0x06],
            }],
        },
        Row {
            input: "30233005060355040330050603550403300506035504033005060355040330050603550403",
            strict: "302d300706035504030500300706035504030500300706035504030500300706035504030500300706035504030500",
            places: &[
                (Deviation::RawParametersAbsent, 2, 9),
                (Deviation::RawParametersAbsent, 9, 16),
                (Deviation::RawParametersAbsent, 16, 23),
                (Deviation::RawParametersAbsent, 23, 30),
                (Deviation::RawParametersAbsent, 30, 37),
            ],
            headers: 11,
            fields: &[],
        },
    ],
    refused: &[
        "3009300506035504030500", // a second item with another tag
    ],
};

/// The test of this name, over any such allocator.
fn deviations_in_items_are_located_over<A: Heap>(rt: &impl Abort, heap: A) {
    let table = &ITEMS_WITHOUT_PARAMETERS;
    all_hold::<A, Asn1SequenceOf<RawAlgorithmIdentifier<A>, A>>(rt, heap, table);
}

#[test]
fn deviations_in_items_are_located(rt: HostRuntime) {
    let heap = Refusing::new(rt.alloc());
    deviations_in_items_are_located_over(&rt, &heap);
}
