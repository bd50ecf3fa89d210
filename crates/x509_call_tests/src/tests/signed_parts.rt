//! Signed parts of certificates and requests, with each request for memory refused in turn: over inputs with deviations
//! inside of the signed part, outside of it, both and neither.

use super::Heap;
use super::checks::{is_so, same};
use picky_asn1_x509::SignedRead;
use picky_asn1_x509::certificate::Certificate;
use picky_asn1_x509::certification_request::CertificationRequest;
use refusing::{Refusing, Turn, in_turn};
use std::process::Abort;
use x509_der::{Deviation, Deviations, FromDer, ReadError, from_bytes};

/// An input, where its signed part begins and ends, and the kinds of the deviations inside of that and outside of it,
/// each of which stands there once.
struct Row<'a> {
    input: &'a str,
    begin: usize,
    end: usize,
    inside: &'a [Deviation],
    outside: &'a [Deviation],
}

const CERTIFICATES: &[Row<'static>] = &[
    Row {
        input: "3046303a020101300506032b65703000301e170d3139313031373137343132385a170d3232313031363137343132385a3000300a300506032b6570030100300506032b6570030100",
        begin: 2,
        end: 62,
        inside: &[],
        outside: &[],
    },
    // version 1, spelled
    Row {
        input: "304b303fa003020100020101300506032b65703000301e170d3139313031373137343132385a170d3232313031363137343132385a3000300a300506032b6570030100300506032b6570030100",
        begin: 2,
        end: 67,
        inside: &[Deviation::VersionZeroSpelled],
        outside: &[],
    },
    // an RSA key without NULL, a criticality that is FALSE, and a serial number in front of a key identifier
    Row {
        input: "307d3071a003020102020101300506032b65703000301e170d3139313031373137343132385a170d3232313031363137343132385a30003018300b06092a864886f70d0101010309003006020105020103a3223020300d0603551d0e01010004030401aa300f0603551d23040830068201018001cc300506032b6570030100",
        begin: 2,
        end: 117,
        inside: &[
            Deviation::RsaParametersAbsent,
            Deviation::CriticalFalseSpelled,
            Deviation::AuthorityKeyFieldOrder,
        ],
        outside: &[],
    },
    // an RSA signature without NULL
    Row {
        input: "3061304fa003020102020101300506032b65703000301e170d3139313031373137343132385a170d3232313031363137343132385a3000300a300506032b6570030100a30e300c300a0603551d0e04030401aa300b06092a864886f70d01010b030100",
        begin: 2,
        end: 83,
        inside: &[],
        outside: &[Deviation::RsaParametersAbsent],
    },
    // version 1 and an empty list of extensions, spelled, and an RSA signature without NULL
    Row {
        input: "30553043a003020100020101300506032b65703000301e170d3139313031373137343132385a170d3232313031363137343132385a3000300a300506032b6570030100a3023000300b06092a864886f70d01010b030100",
        begin: 2,
        end: 71,
        inside: &[
            Deviation::VersionZeroSpelled,
            Deviation::EmptyExtensionsSpelled,
        ],
        outside: &[Deviation::RsaParametersAbsent],
    },
    // one kind both inside and outside
    Row {
        input: "3081833071a003020102020101300506032b65703000301e170d3139313031373137343132385a170d3232313031363137343132385a30003018300b06092a864886f70d0101010309003006020105020103a3223020300d0603551d0e01010004030401aa300f0603551d23040830068201018001cc300b06092a864886f70d01010b030100",
        begin: 3,
        end: 118,
        inside: &[
            Deviation::RsaParametersAbsent,
            Deviation::CriticalFalseSpelled,
            Deviation::AuthorityKeyFieldOrder,
        ],
        outside: &[Deviation::RsaParametersAbsent],
    },
];

const REQUESTS: &[Row<'static>] = &[
    // a request for an extension
    Row {
        input: "303c30300201003000300a300506032b6570030100a01d301b06092a864886f70d01090e310e300c300a0603551d0e04030401aa300506032b6570030100",
        begin: 2,
        end: 52,
        inside: &[],
        outside: &[],
    },
    // an RSA key without NULL, and requests for extensions with deviations
    Row {
        input: "305e305202010030003018300b06092a864886f70d0101010309003006020105020103a031302f06092a864886f70d01090e31223020300d0603551d0e01010004030401aa300f0603551d23040830068201018001cc300506032b6570030100",
        begin: 2,
        end: 86,
        inside: &[
            Deviation::RsaParametersAbsent,
            Deviation::CriticalFalseSpelled,
            Deviation::AuthorityKeyFieldOrder,
        ],
        outside: &[],
    },
    // an RSA signature without NULL
    Row {
        input: "302530130201003000300a300506032b6570030100a000300b06092a864886f70d01010b030100",
        begin: 2,
        end: 23,
        inside: &[],
        outside: &[Deviation::RsaParametersAbsent],
    },
    // one kind both inside and outside
    Row {
        input: "3064305202010030003018300b06092a864886f70d0101010309003006020105020103a031302f06092a864886f70d01090e31223020300d0603551d0e01010004030401aa300f0603551d23040830068201018001cc300b06092a864886f70d01010b030100",
        begin: 2,
        end: 86,
        inside: &[
            Deviation::RsaParametersAbsent,
            Deviation::CriticalFalseSpelled,
            Deviation::AuthorityKeyFieldOrder,
        ],
        outside: &[Deviation::RsaParametersAbsent],
    },
];

/// Whether these are the counts of the kinds, each of which was met once.
fn are_counted(counts: &Deviations, kinds: &[Deviation]) -> bool {
    let mut are_once = true;
    for kind in kinds {
        are_once &= counts.count(*kind) == 1;
    }
    are_once && counts.total() == kinds.len()
}

/// Whether the slice, its place and the counts are the row's.
fn is_row<T>(read: &SignedRead<'_, T>, input: &[u8], row: &Row<'_>) -> bool {
    let is_slice = input.get(row.begin..row.end) == Some(read.signed) && read.start == row.begin;
    let is_inside = are_counted(&read.inside, row.inside);
    is_slice && is_inside && are_counted(&read.outside, row.outside)
}

/// What a run showed that should read the row with its signed part. It is over any type that is read, since a large one
/// that goes out of scope costs a proof much.
fn sliced_turn<T: Drop>(
    answer: Result<SignedRead<'_, T>, ReadError>,
    input: &[u8],
    row: &Row<'_>,
) -> Turn {
    match answer {
        Ok(read) => Turn::right(is_row(&read, input, row)),
        Err(ReadError::OutOfMemory) => Turn::Refused,
        Err(_other) => Turn::Wrong,
    }
}

/// What a run showed that should read the value alone.
fn read_turn<T: FromDer<A>, A: Heap>(heap: A, input: &[u8]) -> Turn {
    match from_bytes::<T, A>(heap, input) {
        Ok(_value) => Turn::Granted,
        Err(ReadError::OutOfMemory) => Turn::Refused,
        Err(_other) => Turn::Wrong,
    }
}

/// How many requests reading the value alone makes, each of which was refused in turn.
fn requests_of<T: FromDer<A>, A: Heap>(heap: A, input: &[u8]) -> Option<u64> {
    in_turn!(heap, read_turn::<T, A>(heap, input))
}

/// The certificate is read with the row's signed part, or memory is wanted, as often as without the signed part.
fn certificate_is_sliced<A: Heap>(rt: &impl Abort, heap: A, row: &Row<'_>) {
    let input = hex::decode(heap, row.input).expect(rt, row.input);
    let bytes = input.as_slice();
    let requests = in_turn!(
        heap,
        sliced_turn(Certificate::read_with_signed_part(heap, bytes), bytes, row)
    );
    is_so(rt, requests.is_some(), row.input);
    let alone = requests_of::<Certificate<A>, A>(heap, bytes);
    same(rt, &requests, &alone, row.input);
}

/// The same of a request.
fn request_is_sliced<A: Heap>(rt: &impl Abort, heap: A, row: &Row<'_>) {
    let input = hex::decode(heap, row.input).expect(rt, row.input);
    let bytes = input.as_slice();
    let requests = in_turn!(
        heap,
        sliced_turn(
            CertificationRequest::read_with_signed_part(heap, bytes),
            bytes,
            row
        )
    );
    is_so(rt, requests.is_some(), row.input);
    let alone = requests_of::<CertificationRequest<A>, A>(heap, bytes);
    same(rt, &requests, &alone, row.input);
}

/// The test of this name, over any such allocator.
fn certificates_are_sliced_over<A: Heap>(rt: &impl Abort, heap: A) {
    for row in CERTIFICATES {
        certificate_is_sliced(rt, heap, row);
    }
}

#[test]
fn certificates_are_sliced(rt: HostRuntime) {
    let heap = Refusing::new(rt.alloc());
    certificates_are_sliced_over(&rt, &heap);
}

/// The test of this name, over any such allocator.
fn requests_are_sliced_over<A: Heap>(rt: &impl Abort, heap: A) {
    for row in REQUESTS {
        request_is_sliced(rt, heap, row);
    }
}

#[test]
fn requests_are_sliced(rt: HostRuntime) {
    let heap = Refusing::new(rt.alloc());
    requests_are_sliced_over(&rt, &heap);
}
