//! Directory strings: what they are made of and turned into, and what is printed, with requests for memory refused.

use super::Heap;
use super::checks::{granted, is_so, same};
use refusing::{Refusing, Turn, in_turn};
use std::alloc::{AllocError, Allocator};
use std::borrow::CowStr;
use std::fmt::{Display, Write};
use std::process::Abort;
use x509_der::from_bytes;
use x509_names::{DirectoryString, Name, NamePrettyFormatter};
use x509_prim::{BmpString, BmpStringAsn1, PrintableString, PrintableStringAsn1};

/// The letter a, a surrogate without a partner and the letter b.
const UNPAIRED: &[u8] = b"\x1E\x06\x00a\xDC\x00\x00b";

/// Its characters.
const UNPAIRED_TEXT: &str = "a\u{FFFD}b";

/// The directory string that the bytes encode.
fn string_of<A: Heap>(rt: &impl Abort, heap: A, bytes: &[u8]) -> DirectoryString<A> {
    from_bytes(heap, bytes).expect(rt, "a directory string")
}

/// What a run of `to_utf8_lossy` showed of a string, which is as the other one.
fn lossy_turn<A: Allocator + Copy>(
    answer: Result<CowStr<'_, A>, AllocError>,
    text: &str,
    string: &DirectoryString<A>,
    before: &DirectoryString<A>,
) -> Turn {
    match answer {
        Ok(answer) => Turn::right(answer.as_str() == text),
        Err(AllocError) => Turn::stands(*string == *before),
    }
}

/// How many requests the characters of a string make.
fn lossy_requests<A: Heap>(rt: &impl Abort, heap: A, bytes: &[u8], text: &str) -> Option<u64> {
    let string = string_of(rt, heap, bytes);
    let before = string_of(rt, heap, bytes);
    in_turn!(
        heap,
        lossy_turn(string.to_utf8_lossy(heap), text, &string, &before)
    )
}

/// The characters of a printable and of a UTF-8 string are lent, and those of a BMP string are made.
fn characters_are_lent_or_made_over<A: Heap>(rt: &impl Abort, heap: A) {
    let printable = lossy_requests(rt, heap, b"\x13\x01a", "a");
    same(rt, &printable, &Some(0), "printable");
    let utf8 = lossy_requests(rt, heap, b"\x0C\x02\xC3\xA9", "\u{E9}");
    same(rt, &utf8, &Some(0), "UTF-8");
    let bmp = lossy_requests(rt, heap, UNPAIRED, UNPAIRED_TEXT);
    is_so(rt, bmp > Some(0), "BMP");
}

#[test]
fn characters_are_lent_or_made(rt: HostRuntime) {
    let heap = Refusing::new(rt.alloc());
    characters_are_lent_or_made_over(&rt, &heap);
}

/// What a run of `into_string` showed of a string that was read from these bytes, which is handed back as it was.
fn owned_turn<A: Allocator + Copy>(
    answer: Result<String<A>, DirectoryString<A>>,
    text: &str,
    before: &DirectoryString<A>,
) -> Turn {
    match answer {
        Ok(answer) => Turn::right(answer.as_str() == text),
        Err(back) => Turn::stands(back == *before),
    }
}

/// What a run showed that makes a string and turns it into text.
fn turned<A: Allocator + Copy>(
    alloc: A,
    made: Result<DirectoryString<A>, AllocError>,
    text: &str,
    before: &DirectoryString<A>,
) -> Turn {
    match made {
        Ok(string) => owned_turn(string.into_string(alloc), text, before),
        Err(AllocError) => Turn::Refused,
    }
}

/// How many requests a copy of a string makes that is turned into text.
fn owned_requests<A: Heap>(rt: &impl Abort, heap: A, bytes: &[u8], text: &str) -> Option<u64> {
    let before = string_of(rt, heap, bytes);
    in_turn!(heap, turned(heap, before.clone(), text, &before))
}

/// The characters of a BMP string are made, and those of the others moved, behind the one request of the copy.
fn strings_are_turned_into_text_over<A: Heap>(rt: &impl Abort, heap: A) {
    let utf8 = owned_requests(rt, heap, b"\x0C\x02\xC3\xA9", "\u{E9}");
    same(rt, &utf8, &Some(1), "UTF-8");
    let printable = owned_requests(rt, heap, b"\x13\x01a", "a");
    same(rt, &printable, &Some(1), "printable");
    let bmp = owned_requests(rt, heap, UNPAIRED, UNPAIRED_TEXT);
    is_so(rt, bmp > Some(1), "BMP");
}

#[test]
fn strings_are_turned_into_text(rt: HostRuntime) {
    let heap = Refusing::new(rt.alloc());
    strings_are_turned_into_text_over(&rt, &heap);
}

/// The string has this content, and no request was made since all were refused; none is refused any more.
fn holds<A: Heap>(rt: &impl Abort, heap: A, string: &DirectoryString<A>, content: &[u8]) {
    is_so(rt, string.as_bytes() == content, "content");
    same(rt, &heap.requests(), &0, "requests");
    heap.refuse(0);
}

/// The bytes in their own memory.
fn owned_bytes<A: Heap>(rt: &impl Abort, heap: A, bytes: &[u8]) -> Vec<u8, A> {
    Vec::from_slice(heap, bytes).expect(rt, "memory")
}

/// A text is moved into a directory string, also as a UTF-8 string, and out of it.
fn texts_are_moved_over<A: Heap>(rt: &impl Abort, heap: A) {
    let text = String::from_str(heap, "\u{E9}").expect(rt, "memory");
    heap.refuse_all();
    holds(rt, heap, &DirectoryString::from(text), b"\xC3\xA9");
    let copy = granted(rt, DirectoryString::from_text(heap, "b"));
    heap.refuse_all();
    let moved = granted(rt, copy.into_utf8_string(heap));
    holds(rt, heap, &DirectoryString::from(moved), b"b");
}

#[test]
fn texts_are_moved(rt: HostRuntime) {
    let heap = Refusing::new(rt.alloc());
    texts_are_moved_over(&rt, &heap);
}

/// A printable string is moved, also as an element, and a BMP string as an element.
fn others_are_moved_over<A: Heap>(rt: &impl Abort, heap: A) {
    let string = PrintableString::from_bytes(owned_bytes(rt, heap, b"a")).expect(rt, "printable");
    heap.refuse_all();
    holds(rt, heap, &DirectoryString::from(string), b"a");
    let string = PrintableString::from_bytes(owned_bytes(rt, heap, b"b")).expect(rt, "printable");
    heap.refuse_all();
    let string = DirectoryString::from(PrintableStringAsn1::from(string));
    holds(rt, heap, &string, b"b");
    let string = BmpString::from_bytes(owned_bytes(rt, heap, b"\xD8\x00")).expect(rt, "units");
    heap.refuse_all();
    let string = DirectoryString::from(BmpStringAsn1::from(string));
    holds(rt, heap, &string, b"\xD8\x00");
}

#[test]
fn others_are_moved(rt: HostRuntime) {
    let heap = Refusing::new(rt.alloc());
    others_are_moved_over(&rt, &heap);
}

/// The value prints this text where every request is refused and there is room for the text.
fn prints_without_memory<A: Heap, T: Display>(rt: &impl Abort, heap: A, value: &T, text: &str) {
    let mut printed = String::with_capacity(heap, 64).expect(rt, "memory");
    heap.refuse_all();
    write!(printed, "{value}").expect(rt, "room for the text");
    same(rt, &heap.requests(), &0, text);
    heap.refuse(0);
    is_so(rt, printed.as_str() == text, text);
}

/// A common name and a title, which has no variant of its own.
const NAME: &[u8] =
    b"\x30\x18\x31\x0A\x30\x08\x06\x03\x55\x04\x03\x0C\x01a\x31\x0A\x30\x08\x06\x03\x55\x04\x0C\x0C\x01b";

/// What it prints.
const NAME_TEXT: &str = "CN=a,2.5.4.12=#0c0162";

/// A directory string prints without memory, and a name in both forms.
fn names_print_without_memory_over<A: Heap>(rt: &impl Abort, heap: A) {
    let string = string_of(rt, heap, UNPAIRED);
    prints_without_memory(rt, heap, &string, UNPAIRED_TEXT);
    let name = from_bytes::<Name<A>, A>(heap, NAME).expect(rt, "a name");
    prints_without_memory(rt, heap, &name, NAME_TEXT);
    prints_without_memory(rt, heap, &NamePrettyFormatter(&name), NAME_TEXT);
}

#[test]
fn names_print_without_memory(rt: HostRuntime) {
    let heap = Refusing::new(rt.alloc());
    names_print_without_memory_over(&rt, &heap);
}
