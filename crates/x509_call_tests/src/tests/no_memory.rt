//! Calls that take no memory, run with every request refused.

use super::Heap;
use super::checks::{is_so, same};
use refusing::Refusing;
use std::alloc::Allocator;
use std::process::Abort;
use x509_der::{
    Asn1RawDer, Asn1SequenceOf, Asn1SetOf, BitString, BitStringAsn1, BitStringAsn1Container,
    IntegerAsn1, ObjectIdentifier, ObjectIdentifierAsn1, OctetStringAsn1, OctetStringAsn1Container,
    ToDer,
};
use x509_keys::RawAlgorithmIdentifier;
use x509_prim::{CharSetError, Ia5String, Ia5StringAsn1, Utf8String};

/// The answer is the stated one, and no request was made since all were refused; none is refused any more.
fn needs_none<A: Heap>(rt: &impl Abort, heap: A, what: &str, is_right: bool) {
    is_so(rt, is_right, what);
    same(rt, &heap.requests(), &0, what);
    heap.refuse(0);
}

/// The bytes in their own memory; from here on each request is refused.
fn last_bytes<A: Heap>(rt: &impl Abort, heap: A, bytes: &[u8]) -> Vec<u8, A> {
    let owned = Vec::from_slice(heap, bytes).expect(rt, "memory");
    heap.refuse_all();
    owned
}

/// The text in its own memory; from here on each request is refused.
fn last_text<A: Heap>(rt: &impl Abort, heap: A, text: &str) -> String<A> {
    let owned = String::from_str(heap, text).expect(rt, "memory");
    heap.refuse_all();
    owned
}

/// Wrapped and unwrapped, 2.5.4.3 answers as stated.
fn identifier_answers<A: Allocator>(value: ObjectIdentifier<A>) -> bool {
    let value = ObjectIdentifier::from(ObjectIdentifierAsn1::from(value));
    let are_arcs = value.len() == 4 && value.arc(3) == Some(3);
    are_arcs && value.is_arcs(&[2, 5, 4, 3]) && value.starts_under(&[2, 5])
}

/// The test of this name, over any such allocator.
fn identifiers_are_looked_at_over<A: Heap>(rt: &impl Abort, heap: A) {
    let value = ObjectIdentifier::from_arcs(heap, &[2, 5, 4, 3]).expect(rt, "lawful arcs");
    heap.refuse_all();
    needs_none(rt, heap, "2.5.4.3", identifier_answers(value));
}

#[test]
fn identifiers_are_looked_at(rt: HostRuntime) {
    let heap = Refusing::new(rt.alloc());
    identifiers_are_looked_at_over(&rt, &heap);
}

/// The bytes of 128 are taken as a content, and handed out as they are and without the sign.
fn content_answers<A: Allocator>(bytes: Vec<u8, A>) -> bool {
    match IntegerAsn1::from_signed_content(bytes) {
        Ok(number) => {
            let is_held = number.as_bytes() == b"\x00\x80".as_slice();
            let is_natural = number.as_unsigned_bytes_be() == b"\x80".as_slice();
            is_held && is_natural && !number.is_negative()
        }
        Err(_back) => false,
    }
}

/// What was refused comes back as it was.
fn is_back<T: Drop, A: Allocator>(answer: Result<T, Vec<u8, A>>, bytes: &[u8]) -> bool {
    match answer {
        Ok(_taken) => false,
        Err(back) => back.as_slice() == bytes,
    }
}

/// The test of this name, over any such allocator.
fn numbers_are_looked_at_over<A: Heap>(rt: &impl Abort, heap: A) {
    let minimal = last_bytes(rt, heap, b"\x00\x80");
    needs_none(rt, heap, "a minimal content", content_answers(minimal));
    let padded = last_bytes(rt, heap, b"\x00\x7F");
    let refused = IntegerAsn1::from_signed_content(padded);
    needs_none(rt, heap, "a padded content", is_back(refused, b"\x00\x7F"));
}

#[test]
fn numbers_are_looked_at(rt: HostRuntime) {
    let heap = Refusing::new(rt.alloc());
    numbers_are_looked_at_over(&rt, &heap);
}

/// Wrapped and unwrapped, cut to twelve bits and changed, sixteen set bits answer as stated.
fn bits_answer<A: Allocator + Copy>(bytes: Vec<u8, A>) -> bool {
    let mut bits = BitString::from(BitStringAsn1::from(BitString::with_bytes(bytes)));
    let is_cut = bits.set_num_bits(12).is_ok() && bits.get_num_bits() == 12;
    let is_set = bits.set(0, false) && bits.is_set(11) && !bits.set(12, true);
    let is_held = bits.get_num_unused_bits() == 4 && bits.payload_view() == b"\x7F\xF0".as_slice();
    is_cut && is_set && is_held
}

/// The test of this name, over any such allocator.
fn bits_are_cut_and_set_over<A: Heap>(rt: &impl Abort, heap: A) {
    let bytes = last_bytes(rt, heap, b"\xFF\xFF");
    needs_none(rt, heap, "bits", bits_answer(bytes));
}

#[test]
fn bits_are_cut_and_set(rt: HostRuntime) {
    let heap = Refusing::new(rt.alloc());
    bits_are_cut_and_set_over(&rt, &heap);
}

/// NULL is taken as an element, and held as no parameters of an algorithm.
fn null_is_taken<A: Allocator + Copy>(algorithm: ObjectIdentifier<A>, bytes: Vec<u8, A>) -> bool {
    match Asn1RawDer::from_vec(bytes) {
        Ok(element) => {
            let is_null = element.as_bytes() == b"\x05\x00".as_slice();
            let value = RawAlgorithmIdentifier::from_parts(algorithm, Some(element));
            is_null && value.parameters().is_none() && value.algorithm().is_arcs(&[2, 5, 4, 3])
        }
        Err(_back) => false,
    }
}

/// The test of this name, over any such allocator.
fn raw_elements_are_taken_or_handed_back_over<A: Heap>(rt: &impl Abort, heap: A) {
    let algorithm = ObjectIdentifier::from_arcs(heap, &[2, 5, 4, 3]).expect(rt, "lawful arcs");
    let one = last_bytes(rt, heap, b"\x05\x00");
    needs_none(rt, heap, "one element", null_is_taken(algorithm, one));
    let two = last_bytes(rt, heap, b"\x05\x00\x05\x00");
    let refused = Asn1RawDer::from_vec(two);
    needs_none(
        rt,
        heap,
        "two elements",
        is_back(refused, b"\x05\x00\x05\x00"),
    );
}

#[test]
fn raw_elements_are_taken_or_handed_back(rt: HostRuntime) {
    let heap = Refusing::new(rt.alloc());
    raw_elements_are_taken_or_handed_back_over(&rt, &heap);
}

/// The bytes stay through each type that they are wrapped in.
fn bytes_stay<A: Allocator>(bytes: Vec<u8, A>) -> bool {
    let octets = Vec::from(OctetStringAsn1::from(bytes));
    let list = Vec::from(Asn1SequenceOf::from(octets));
    let set = Vec::from(Asn1SetOf::from(list));
    let OctetStringAsn1Container(inner) = OctetStringAsn1Container::from(set);
    let BitStringAsn1Container(inner) = BitStringAsn1Container::from(inner);
    inner.as_slice() == b"octets".as_slice()
}

/// The test of this name, over any such allocator.
fn values_are_wrapped_over<A: Heap>(rt: &impl Abort, heap: A) {
    let bytes = last_bytes(rt, heap, b"octets");
    needs_none(rt, heap, "wrapped", bytes_stay(bytes));
}

#[test]
fn values_are_wrapped(rt: HostRuntime) {
    let heap = Refusing::new(rt.alloc());
    values_are_wrapped_over(&rt, &heap);
}

/// A text is a UTF-8 string, and comes back from it.
fn text_answers<A: Allocator + Copy>(text: String<A>) -> bool {
    let string = Utf8String::from(text);
    let is_same = string.as_str().as_bytes() == string.as_bytes();
    is_same && String::from(string).as_str() == "*\u{E9}"
}

/// An asterisk is a character of IA5, and the same when it is wrapped and unwrapped.
fn ia5_answers<A: Allocator + Copy>(made: Result<Ia5String<A>, CharSetError>) -> bool {
    match made {
        Ok(string) => {
            let string = Ia5String::from(Ia5StringAsn1::from(string));
            let bytes = Ia5StringAsn1::from(string).into_bytes();
            bytes.as_slice() == b"a*".as_slice()
        }
        Err(_other) => false,
    }
}

/// The test of this name, over any such allocator.
fn strings_are_made_over<A: Heap>(rt: &impl Abort, heap: A) {
    let text = last_text(rt, heap, "*\u{E9}");
    needs_none(rt, heap, "a text", text_answers(text));
    let made = Ia5String::from_string(last_text(rt, heap, "a*"));
    needs_none(rt, heap, "a text of IA5", ia5_answers(made));
    let made = Ia5String::from_bytes(last_bytes(rt, heap, b"a*"));
    needs_none(rt, heap, "bytes", ia5_answers(made));
    let accent = Ia5String::from_bytes(last_bytes(rt, heap, b"\xC3\xA9"));
    needs_none(rt, heap, "bytes with an accent", accent.is_err());
}

#[test]
fn strings_are_made(rt: HostRuntime) {
    let heap = Refusing::new(rt.alloc());
    strings_are_made_over(&rt, &heap);
}

/// Fills the front of a slice with a value's DER encoding, if it fits.
fn filled<T: ToDer>(value: &T, room: &mut [u8]) -> Option<usize> {
    match value.encoded_len() {
        Ok(len) if len <= room.len() => Some(value.write(room)),
        _ => None,
    }
}

#[test]
fn values_are_written_to_the_front(rt: HostRuntime) {
    let mut room: [u8; 5] = [7; 5];
    assert!(rt; filled(&true, &mut room) == Some(3));
    assert!(rt; room == [1, 1, 0xff, 7, 7]);
}
