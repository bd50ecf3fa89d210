//! Lists and containers under implicit tags.

use super::Heap;
use refusing::{Refusing, Turn, in_turn};
use std::process::Abort;
use x509_der::parts::{ContextConstructed, ContextPrimitive, OneTag, TagOf, Tagged};
use x509_der::{
    Asn1SequenceOf, Asn1SetOf, BitStringAsn1Container, IntegerAsn1, OctetStringAsn1Container,
    ReadError, from_bytes,
};

/// What a run showed that should read this value under an implicit tag.
fn content_turn<A: Heap, N: TagOf<T::Form> + Drop, T: OneTag<A> + PartialEq>(
    heap: A,
    bytes: &[u8],
    stated: &T,
) -> Turn {
    match from_bytes::<Tagged<N, T>, A>(heap, bytes) {
        Ok(element) => Turn::right(element.into_inner() == *stated),
        Err(ReadError::OutOfMemory) => Turn::Refused,
        Err(_other) => Turn::Wrong,
    }
}

/// An element is read with another tag in the place of its own, also where memory is refused first.
fn content_is_read<A: Heap, N: TagOf<T::Form> + Drop, T: OneTag<A> + PartialEq>(
    rt: &impl Abort,
    heap: A,
    element: &[u8],
    under: &[u8],
) {
    let stated = from_bytes::<T, _>(heap, element).expect(rt, "a value");
    let requests = in_turn!(heap, content_turn::<_, N, _>(heap, under, &stated));
    assert!(rt; requests.is_some(), "{element:?}");
}

/// The test of this name, over any such allocator.
fn contents_are_read_over<A: Heap>(rt: &impl Abort, heap: A) {
    content_is_read::<A, ContextConstructed<0>, Asn1SequenceOf<u8, A>>(
        rt,
        heap,
        &[0x30, 6, 2, 1, 1, 2, 1, 2],
        &[0xA0, 6, 2, 1, 1, 2, 1, 2],
    );
    content_is_read::<A, ContextConstructed<0>, Asn1SetOf<u8, A>>(
        rt,
        heap,
        &[0x31, 6, 2, 1, 2, 2, 1, 1],
        &[0xA0, 6, 2, 1, 2, 2, 1, 1],
    );
    content_is_read::<A, ContextPrimitive<0>, OctetStringAsn1Container<IntegerAsn1<A>>>(
        rt,
        heap,
        &[4, 3, 2, 1, 5],
        &[0x80, 3, 2, 1, 5],
    );
    content_is_read::<A, ContextPrimitive<0>, BitStringAsn1Container<IntegerAsn1<A>>>(
        rt,
        heap,
        &[3, 4, 0, 2, 1, 5],
        &[0x80, 4, 0, 2, 1, 5],
    );
}

#[test]
fn contents_are_read(rt: HostRuntime) {
    let heap = Refusing::new(rt.alloc());
    contents_are_read_over(&rt, &heap);
}
