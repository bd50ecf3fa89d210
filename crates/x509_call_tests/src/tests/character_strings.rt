//! Printable and BMP strings.

use super::checks::{bytes_of, is_so, same_bytes};
use std::alloc::Global;
use std::fmt;
use std::process::Abort;
use x509_prim::{BmpString, PrintableString, PrintableStringAsn1, Utf8String};

/// The value prints as the text.
fn prints<T: fmt::Display>(rt: &impl Abort, alloc: Global, value: &T, text: &str) {
    let printed = value.to_string(alloc).expect(rt, "memory");
    is_so(rt, printed.as_str() == text, text);
}

/// The characters of PrintableString (X.680, 41.4, table 10).
const PRINTABLE: &'static str =
    "ABCDEFGHIJKLMNOPQRSTUVWXYZabcdefghijklmnopqrstuvwxyz0123456789 '()+,-./:=?";

#[test]
fn printable_bytes(rt: HostRuntime) {
    for byte in 0..=u8::MAX {
        let bytes = Vec::from_slice(rt.alloc(), &[byte]).expect(&rt, "memory");
        let made = PrintableString::from_bytes(bytes).is_ok();
        assert_eq!(rt; made, PRINTABLE.as_bytes().contains(&byte), "{byte}");
    }
}

#[test]
fn printable_texts(rt: HostRuntime) {
    let text = String::from_str(rt.alloc(), PRINTABLE).expect(&rt, "memory");
    let string = PrintableString::from_string(text)
        .ok()
        .expect(&rt, "printable");
    same_bytes(&rt, string.as_bytes(), PRINTABLE.as_bytes(), "text");
    is_so(&rt, string.as_str() == PRINTABLE, "text");
    prints(&rt, rt.alloc(), &string, PRINTABLE);
    let string = PrintableStringAsn1::from(string);
    same_bytes(&rt, string.as_bytes(), PRINTABLE.as_bytes(), "element");
    is_so(&rt, string.as_str() == PRINTABLE, "element");
    prints(&rt, rt.alloc(), &string, PRINTABLE);
    is_so(&rt, string.into_string().as_str() == PRINTABLE, "moved");
}

/// Texts and their units in hexadecimal; the last but one is the example of RFC 2781, 5.
const UNITS: &[(&str, &str)] = &[
    ("", ""),
    ("\u{1F600}", "d83dde00"),
    ("\u{FFFF}\u{10000}", "ffffd800dc00"),
    ("\u{12345}=Ra", "d808df45003d00520061"),
    ("\u{10FFFF}", "dbffdfff"),
];

#[test]
fn units_of_texts(rt: HostRuntime) {
    let alloc = rt.alloc();
    for (text, units) in UNITS {
        let units = bytes_of(&rt, alloc, *units);
        let string = BmpString::from_string(alloc, *text).expect(&rt, "memory");
        same_bytes(&rt, string.as_bytes(), &units, *text);
        let same = BmpString::from_bytes(units).ok().expect(&rt, "units");
        is_so(&rt, same == string, *text);
        prints(&rt, alloc, &string, *text);
        let string = String::from_str(alloc, *text).expect(&rt, "memory");
        prints(&rt, alloc, &Utf8String(string), *text);
    }
}

/// Units with a surrogate that has no partner, and their text (RFC 2781, 2.2).
const LONE: &[(&str, &str)] = &[
    ("d83d", "\u{FFFD}"),
    ("de000061", "\u{FFFD}a"),
    ("d83d0061", "\u{FFFD}a"),
    ("d83dd83dde00", "\u{FFFD}\u{1F600}"),
];

#[test]
fn lone_surrogates_are_replaced(rt: HostRuntime) {
    for (units, text) in LONE {
        let units = bytes_of(&rt, rt.alloc(), *units);
        let string = BmpString::from_bytes(units).ok().expect(&rt, "units");
        prints(&rt, rt.alloc(), &string, *text);
    }
}
