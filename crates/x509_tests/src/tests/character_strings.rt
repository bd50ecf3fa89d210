//! Printable, IA5, BMP and UTF-8 strings.

use super::rows::{Heap, Table, all_hold};
use refusing::Refusing;
use std::process::Abort;
use x509_prim::{BmpStringAsn1, Ia5StringAsn1, PrintableStringAsn1, Utf8String};

/// The texts of these and of IA5 are examples of RSA Laboratories' "A Layman's Guide to a Subset of ASN.1, BER, and
/// DER", 5.8 and 5.13.
const PRINTABLE_STRINGS: Table<'static> = Table {
    strict: &[("1300", 1), ("130b5465737420557365722031", 1)],
    rows: &[],
    refused: &[
        "13012a", // an asterisk
        "130140", // an at sign
        "130180", // a byte above 7F
        "13024100ff", // a zero byte in it, and a byte left over
        "0c0141", // another tag
    ],
};

/// The test of this name, over any such allocator.
fn rows_of_printable_strings_over<A: Heap>(rt: &impl Abort, heap: A) {
    all_hold::<A, PrintableStringAsn1<A>>(rt, heap, &PRINTABLE_STRINGS);
}

#[test]
fn rows_of_printable_strings(rt: HostRuntime) {
    let heap = Refusing::new(rt.alloc());
    rows_of_printable_strings_over(&rt, &heap);
}

const IA5_STRINGS: Table<'static> = Table {
    strict: &[
        ("1600", 1),
        ("160d7465737431407273612e636f6d", 1),
        ("1602007f", 1),
    ],
    rows: &[],
    refused: &[
        "160180", // a byte above 7F
        "160241ff", // a byte above 7F
        "130141", // another tag
        "36034101ff", // the tag of a constructed string
    ],
};

/// The test of this name, over any such allocator.
fn rows_of_ia5_strings_over<A: Heap>(rt: &impl Abort, heap: A) {
    all_hold::<A, Ia5StringAsn1<A>>(rt, heap, &IA5_STRINGS);
}

#[test]
fn rows_of_ia5_strings(rt: HostRuntime) {
    let heap = Refusing::new(rt.alloc());
    rows_of_ia5_strings_over(&rt, &heap);
}

const BMP_STRINGS: Table<'static> = Table {
    strict: &[
        ("1e00", 1),
        ("1e04d83dde00", 1),
        ("1e02d800", 1),
        ("1e040061ffff", 1),
    ],
    rows: &[],
    refused: &[
        "1e0161", // an odd number of bytes
        "1e03006100", // an odd number of bytes
        "0c020061", // another tag
    ],
};

/// The test of this name, over any such allocator.
fn rows_of_bmp_strings_over<A: Heap>(rt: &impl Abort, heap: A) {
    all_hold::<A, BmpStringAsn1<A>>(rt, heap, &BMP_STRINGS);
}

#[test]
fn rows_of_bmp_strings(rt: HostRuntime) {
    let heap = Refusing::new(rt.alloc());
    rows_of_bmp_strings_over(&rt, &heap);
}

/// The examples of RFC 3629, 7; and encodings that are too long, are surrogates, or pass U+10FFFF (RFC 3629, 3 and 10).
const UTF8_STRINGS: Table<'static> = Table {
    strict: &[
        ("0c00", 1),
        ("0c0100", 1),
        ("0c0741e289a2ce912e", 1),
        ("0c09ed959ceab5adec96b4", 1),
        ("0c09e697a5e69cace8aa9e", 1),
        ("0c07efbbbff0a38eb4", 1),
        ("0c04f48fbfbf", 1),
    ],
    rows: &[],
    refused: &[
        "0c0180", // a byte that begins no character
        "0c02c080", // U+0000 in two bytes, not one
        "0c03e08080", // U+0000 in three bytes, not one
        "0c03eda080", // a surrogate, U+D800
        "0c06eda18cedbeb4", // two surrogates, U+D84C and U+DFB4
        "0c04f4908080", // U+110000, above U+10FFFF
        "0c02e289", // a character cut short
        "130141", // another tag
    ],
};

/// The test of this name, over any such allocator.
fn rows_of_utf8_strings_over<A: Heap>(rt: &impl Abort, heap: A) {
    all_hold::<A, Utf8String<A>>(rt, heap, &UTF8_STRINGS);
}

#[test]
fn rows_of_utf8_strings(rt: HostRuntime) {
    let heap = Refusing::new(rt.alloc());
    rows_of_utf8_strings_over(&rt, &heap);
}
