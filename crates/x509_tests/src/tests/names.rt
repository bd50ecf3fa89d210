//! Directory strings, and what they and names print.

use super::rows::{Heap, Table, all_hold, bytes_of};
use refusing::Refusing;
use std::alloc::{AllocError, Allocator};
use std::fmt::Display;
use std::process::Abort;
use x509_der::{FromDer, from_bytes};
use x509_names::{DirectoryString, Name, NamePrettyFormatter};

/// Strings of the three types, empty ones too, with surrogates that have a partner and that have none. A star isn't
/// printable, a surrogate isn't UTF-8, an odd byte is no unit, and the other string types aren't alternatives.
const STRINGS: Table<'static> = Table {
    strict: &[
        ("130161", 1),
        ("1300", 1),
        ("0c0161", 1),
        ("0c00", 1),
        ("0c04f09f9880", 1),
        ("0c022a40", 1),
        ("1e00", 1),
        ("1e02d800", 1),
        ("1e04d83dde00", 1),
        ("1e060061dc000062", 1),
    ],
    rows: &[],
    refused: &[
        "13012a", // an asterisk
        "0c01ff", // a byte that begins no character
        "0c03eda080", // a surrogate, U+D800
        "1e0161", // an odd number of bytes
        "140161", // a TeletexString
        "160161", // an IA5String
        "1c0400000061", // a UniversalString
        "330161", // the tag of a constructed string
        "13016100", // a byte left over
    ],
};

/// The test of this name, over any such allocator.
fn directory_strings_are_read_over<A: Heap>(rt: &impl Abort, heap: A) {
    all_hold::<A, DirectoryString<A>>(rt, heap, &STRINGS);
}

#[test]
fn directory_strings_are_read(rt: HostRuntime) {
    let heap = Refusing::new(rt.alloc());
    directory_strings_are_read_over(&rt, &heap);
}

/// The two texts are equal.
fn is_printed(rt: &impl Abort, printed: &str, stated: &str) {
    assert!(rt; printed == stated, "{printed} and not {stated}");
}

/// The value prints this text, whatever options are given.
fn prints_always<A: Heap, T: Display>(rt: &impl Abort, heap: A, value: &T, text: &str) {
    let printed = value.to_string(heap).expect(rt, "memory");
    is_printed(rt, printed.as_str(), text);
    let printed = format!(in heap; "{value:#}").expect(rt, "memory");
    is_printed(rt, printed.as_str(), text);
    let printed = format!(in heap; "{value:>40}").expect(rt, "memory");
    is_printed(rt, printed.as_str(), text);
}

/// The value that the bytes encode prints this text.
fn prints<A: Heap, T: FromDer<A> + Display>(rt: &impl Abort, heap: A, input: &str, text: &str) {
    let input = bytes_of(rt, heap, input);
    let value = from_bytes::<T, A>(heap, &input).expect(rt, text);
    prints_always(rt, heap, &value, text);
}

/// Directory strings and what they print. A pair of surrogates is one character, and one without a partner is U+FFFD.
const STRING_TEXTS: &[(&str, &str)] = &[
    ("130161", "a"),
    ("0c04f09f9880", "\u{1F600}"),
    ("0c00", ""),
    ("1e00", ""),
    ("1e0400610042", "aB"),
    ("1e02d800", "\u{FFFD}"),
    ("1e04d83dde00", "\u{1F600}"),
    ("1e060061dc000062", "a\u{FFFD}b"),
    ("1e08d83dd83dde00dbff", "\u{FFFD}\u{1F600}\u{FFFD}"),
    ("1e04d8000061", "\u{FFFD}a"),
    ("1e04dbffdfff", "\u{10FFFF}"),
    ("1e06d7ffe000ffff", "\u{D7FF}\u{E000}\u{FFFF}"),
];

/// The test of this name, over any such allocator.
fn directory_strings_are_printed_over<A: Heap>(rt: &impl Abort, heap: A) {
    for (input, text) in STRING_TEXTS {
        prints::<A, DirectoryString<A>>(rt, heap, *input, *text);
    }
}

#[test]
fn directory_strings_are_printed(rt: HostRuntime) {
    let heap = Refusing::new(rt.alloc());
    directory_strings_are_printed_over(&rt, &heap);
}

/// An attribute of each variant, each in a set of its own: 2.5.4.3 to 11, the e-mail address, 2.5.4.42 and 20.
const EACH: &str =
    "308196310a300806035504030c0161310a300806035504040c0162310a300806035504050c0163310a300806035504060c0164310a300806035504070c0165310a300806035504080c0166310a300806035504090c0167310a3008060355040a0c0168310a3008060355040b0c01693110300e06092a864886f70d01090116016a310a3008060355042a0c016b310a300806035504140c016c";

/// What it prints.
const EACH_TEXT: &str =
    "CN=a,SURNAME=b,SN=c,C=d,L=e,ST=f,STREET NAME=g,O=h,OU=i,EMAIL=j,GIVENNAME=k,PHONE=l";

/// A title, which has no variant of its own, of 33 characters.
const LONG: &str =
    "302c312a3028060355040c0c21616161616161616161616161616161616161616161616161616161616161616161";

/// What it prints.
const LONG_TEXT: &str =
    "2.5.4.12=#0c21616161616161616161616161616161616161616161616161616161616161616161";

/// Names and what they print, of which nothing is escaped. Empty names and sets print nothing.
const NAME_TEXTS: &[(&str, &str)] = &[
    ("3000", ""),
    ("30023100", ""),
    ("30103100310a300806035504030c01613100", "CN=a"),
    (
        "3018310a300806035504030c0161310a3008060355040c0c0162",
        "CN=a,2.5.4.12=#0c0162",
    ),
    ("30143112301006092a864886f70d0109011603614062", "EMAIL=a@b"),
    (
        "30163114300806035504030c0161300806035504140c0162",
        "CN=a,PHONE=b",
    ),
    (
        "3018310a300806035504030c0161310a300806035504140c0162",
        "CN=a,PHONE=b",
    ),
    ("3010310e300c06035504030c05612c623d63", "CN=a,b=c"),
    (
        "3011310f300d06035504031e06d83dde00dc00",
        "CN=\u{1F600}\u{FFFD}",
    ),
    ("300d310b3009060355040613024445", "C=DE"),
    (EACH, EACH_TEXT),
    (LONG, LONG_TEXT),
];

/// The test of this name, over any such allocator.
fn names_are_printed_over<A: Heap>(rt: &impl Abort, heap: A) {
    for (input, text) in NAME_TEXTS {
        prints::<A, Name<A>>(rt, heap, *input, *text);
    }
}

#[test]
fn names_are_printed(rt: HostRuntime) {
    let heap = Refusing::new(rt.alloc());
    names_are_printed_over(&rt, &heap);
}

/// The name that the bytes encode prints this text by its formatter too.
fn is_formatted<A: Heap>(rt: &impl Abort, heap: A, input: &str, text: &str) {
    let input = bytes_of(rt, heap, input);
    let name = from_bytes::<Name<A>, A>(heap, &input).expect(rt, text);
    let printed = NamePrettyFormatter(&name)
        .to_string(heap)
        .expect(rt, "memory");
    is_printed(rt, printed.as_str(), text);
}

/// The test of this name, over any such allocator.
fn names_are_formatted_over<A: Heap>(rt: &impl Abort, heap: A) {
    for (input, text) in NAME_TEXTS {
        is_formatted(rt, heap, *input, *text);
    }
}

#[test]
fn names_are_formatted(rt: HostRuntime) {
    let heap = Refusing::new(rt.alloc());
    names_are_formatted_over(&rt, &heap);
}
