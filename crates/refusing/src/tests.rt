//! The allocator refuses what it was told to refuse, and the runner tells right calls from wrong ones.

use crate::{Refusing, Turn, in_turn};
use std::alloc::{AllocError, Allocator};

/// Takes memory twice.
fn two_requests<A: Allocator + Copy>(alloc: A) -> Result<(), AllocError> {
    let _first = Vec::from_slice(alloc, b"one")?;
    let _second = Vec::from_slice(alloc, b"two")?;
    Ok(())
}

/// What a run showed that should answer `()` or want of memory.
fn turn_of(answer: Result<(), AllocError>) -> Turn {
    match answer {
        Ok(()) => Turn::Granted,
        Err(AllocError) => Turn::Refused,
    }
}

#[test]
fn one_request_is_refused(rt: HostRuntime) {
    let heap = Refusing::new(rt.alloc());
    heap.refuse(2);
    assert!(rt; two_requests(&heap).is_err());
    assert_eq!(rt; heap.requests(), 2);
    assert!(rt; two_requests(&heap).is_ok());
    assert_eq!(rt; heap.requests(), 4);
}

#[test]
fn all_requests_are_refused(rt: HostRuntime) {
    let heap = Refusing::new(rt.alloc());
    heap.refuse_all();
    assert!(rt; two_requests(&heap).is_err());
    assert!(rt; two_requests(&heap).is_err());
    assert_eq!(rt; heap.requests(), 2);
    heap.refuse(0);
    assert!(rt; two_requests(&heap).is_ok());
    assert_eq!(rt; heap.requests(), 2);
}

#[test]
fn each_request_is_refused_in_turn(rt: HostRuntime) {
    let heap = Refusing::new(rt.alloc());
    assert_eq!(rt; in_turn!(heap, turn_of(two_requests(&heap))), Some(2));
    assert_eq!(rt; in_turn!(heap, Turn::Granted), Some(0));
    // A call that always answers want of memory, and one that goes on without it, are wrong.
    assert_eq!(rt; in_turn!(heap, Turn::Refused), None);
    assert_eq!(rt;
        in_turn!(
            heap,
            {
                let _ = two_requests(&heap);
                Turn::Granted
            }
        ),
        None
    );
    assert_eq!(rt; in_turn!(heap, Turn::Wrong), None);
}
