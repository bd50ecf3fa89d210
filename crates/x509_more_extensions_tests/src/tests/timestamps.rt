//! Timestamps of a certificate that `openssl x509 -text` prints.

use super::rows::{Heap, bytes_of};
use refusing::Refusing;
use std::process::Abort;
use x509_timestamps::{BadList, read_timestamp, timestamps};

/// Two timestamps of version 1, of the milliseconds 1735166787584, signed with SHA-256 and ECDSA.
const TIMESTAMPS: &str =
    "00f0007600016a257732769e22c759bd6c41c075e72661406a93184b84b00ab0ebd5388c5300000194000000000000040300473045022100067c7e4c5a88fea806fbf7fe67c6a449e12049a7b94d43f3cd938b94ef97cf100220fb50e4a1af2b6916ed152c1878da02259b2e5148b28dd6e42a032fe9ece609b7007600331f29d5c6efa61876233727a24bbd74a10a0927d00927f9a713a9b2fc54237a00000194000000000000040300473045022100fd93739986d3c8399c8b36a93acf64e21c0da6481c9cc1bfedf5d60576d55e2a02202aac7c06f34f5cde423de7765748b18a74615860f754ca0fe4042371c852c163";

/// Their logs.
const LOGS: &[&str] = &[
    "016a257732769e22c759bd6c41c075e72661406a93184b84b00ab0ebd5388c53",
    "331f29d5c6efa61876233727a24bbd74a10a0927d00927f9a713a9b2fc54237a",
];

/// Whether it is a timestamp of this log.
fn is_of(item: &[u8], log: &[u8]) -> bool {
    match read_timestamp(item) {
        Some(stamp) => {
            stamp.log_id == log
                && stamp.time == 1_735_166_787_584
                && stamp.extensions.is_empty()
                && (stamp.hash, stamp.signature_kind) == (4, 3)
                && stamp.signature.len() == 71
        }
        None => false,
    }
}

fn logs_over<A: Heap>(rt: &impl Abort, heap: A) {
    let list = bytes_of(rt, heap, TIMESTAMPS);
    let items = timestamps(heap, &list).expect(rt, "a list");
    assert!(rt; items.len() == 2);
    for at in 0..LOGS.len() {
        let log = bytes_of(rt, heap, LOGS[at]);
        let item = items.get(at).expect(rt, "an item");
        assert!(rt; is_of(item, &log), "{at}");
    }
}

#[test]
fn logs(rt: HostRuntime) {
    let heap = Refusing::new(rt.alloc());
    logs_over(&rt, &heap);
}

/// What isn't a list.
const NO_LISTS: &[&str] = &["", "00", "0001", "000100", "00020001", "000000"];

fn no_lists_over<A: Heap>(rt: &impl Abort, heap: A) {
    for text in NO_LISTS {
        let bytes = bytes_of(rt, heap, *text);
        let is_malformed = match timestamps(heap, &bytes) {
            Err(error) => error == BadList::Malformed,
            Ok(_items) => false,
        };
        assert!(rt; is_malformed, "{text}");
    }
}

#[test]
fn no_lists(rt: HostRuntime) {
    let heap = Refusing::new(rt.alloc());
    no_lists_over(&rt, &heap);
}
