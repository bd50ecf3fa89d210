//! Names against the tables, and how values of the input are shown.

mod names;

use names::all_named;
use std::alloc::Global;
use std::fmt::Display;
use std::process::Abort;
use x509_der::ObjectIdentifier;
use x509_oid_names::name_of;
use x509_report_parts::Moment;
use x509_report_parts::shown::{Frame, Shown, ShownBytes};
use x509_report_parts::values::{Address, Dotted, Hex, ShortHex, Stamp, Utf16, name_in};

/// Asks that an identifier has a name.
fn is_named(rt: &impl Abort, alloc: Global, text: &str, name: &str) {
    let identifier: ObjectIdentifier = ObjectIdentifier::from_text(alloc, text).expect(
        rt,
        "an identifier",
    );
    assert!(rt; name_in(identifier.content()) == Some(name), "{text}");
}

/// Asks that identifiers have these names.
fn are_named(rt: &impl Abort, alloc: Global, rows: &[(&'static str, &'static str)]) {
    for (text, name) in rows {
        is_named(rt, alloc, text, name);
    }
}

#[test]
fn each_identifier_has_its_name(rt: HostRuntime) {
    all_named(&rt, rt.alloc());
}

#[test]
fn others_have_none(rt: HostRuntime) {
    assert!(rt; name_of(&[2, 5, 4]).is_none());
    assert!(rt; name_of(&[2, 5, 4, 3, 0]).is_none());
    assert!(rt; name_of(&[1, 2, 3]).is_none());
    assert!(rt; name_of(&[]).is_none());
}

/// Asks what a value prints.
fn prints<T: Display>(rt: &impl Abort, alloc: Global, value: &T, wanted: &str) {
    let printed = format!(in alloc; "{value}").expect(rt, "memory");
    assert!(rt; printed.as_str() == wanted, "{printed}");
}

/// Texts, what they are shown as between quotation marks, and in a name.
const TEXTS: &'static [(&'static str, &'static str, &'static str)] = &[
    ("example.org", "example.org", "example.org"),
    ("Gründe 中文", "Gründe 中文", "Gründe 中文"),
    ("a\"b\\c", "a\\\"b\\\\c", "a\\\"b\\\\c"),
    ("a, b=c+d", "a, b=c+d", "a\\, b\\=c\\+d"),
    (
        "line\nnext\ttab",
        "line\\u{a}next\\u{9}tab",
        "line\\u{a}next\\u{9}tab",
    ),
    (
        "\u{1b}[31m\u{7f}\u{9b}",
        "\\u{1b}[31m\\u{7f}\\u{9b}",
        "\\u{1b}[31m\\u{7f}\\u{9b}",
    ),
    (
        "\u{202e}\u{2066}\u{200f}\u{61c}",
        "\\u{202e}\\u{2066}\\u{200f}\\u{61c}",
        "\\u{202e}\\u{2066}\\u{200f}\\u{61c}",
    ),
    (
        "\u{200b}\u{feff}\u{ad}\u{2028}",
        "\\u{200b}\\u{feff}\\u{ad}\\u{2028}",
        "\\u{200b}\\u{feff}\\u{ad}\\u{2028}",
    ),
    (
        "\u{e0041}\u{e000}\u{10ffff}",
        "\\u{e0041}\\u{e000}\\u{10ffff}",
        "\\u{e0041}\\u{e000}\\u{10ffff}",
    ),
];

#[test]
fn texts(rt: HostRuntime) {
    for (text, quoted, named) in TEXTS {
        prints(&rt, rt.alloc(), &Shown(text, Frame::Quotes), quoted);
        prints(&rt, rt.alloc(), &Shown(text, Frame::Name), named);
    }
}

#[test]
fn bytes_that_are_no_text(rt: HostRuntime) {
    prints(&rt, rt.alloc(), &ShownBytes(b"a\xff\x1b"), "a\\xff\\u{1b}");
    prints(
        &rt,
        rt.alloc(),
        &ShownBytes("ü\u{202e}".as_bytes()),
        "ü\\u{202e}",
    );
}

/// Addresses of RFC 5952, 1 and 4, and others.
const ADDRESSES: &'static [(&'static [u8], &'static str)] = &[
    (&[192, 0, 2, 7], "192.0.2.7"),
    (
        &[0x20, 1, 0xd, 0xb8, 0, 0, 0, 0, 0, 1, 0, 0, 0, 0, 0, 1],
        "2001:db8::1:0:0:1",
    ),
    (
        &[0x20, 1, 0xd, 0xb8, 0, 0, 0, 1, 0, 1, 0, 1, 0, 1, 0, 1],
        "2001:db8:0:1:1:1:1:1",
    ),
    (
        &[0x20, 1, 0, 0, 0, 0, 0, 1, 0, 0, 0, 0, 0, 0, 0, 1],
        "2001:0:0:1::1",
    ),
    (&[0, 0, 0, 0, 0, 0, 0, 0, 0, 0, 0, 0, 0, 0, 0, 0], "::"),
    (&[0, 0, 0, 0, 0, 0, 0, 0, 0, 0, 0, 0, 0, 0, 0, 1], "::1"),
    (
        &[0xfe, 0x80, 0, 0, 0, 0, 0, 0, 0, 0, 0, 0, 0, 0, 0, 0],
        "fe80::",
    ),
    (&[1, 2, 3], "01:02:03"),
];

#[test]
fn addresses(rt: HostRuntime) {
    for (bytes, wanted) in ADDRESSES {
        prints(&rt, rt.alloc(), &Address(bytes), wanted);
    }
}

#[test]
fn other_values(rt: HostRuntime) {
    prints(&rt, rt.alloc(), &Hex(&[0, 10, 255]), "00:0a:ff");
    prints(&rt, rt.alloc(), &Hex(&[]), "");
    prints(
        &rt,
        rt.alloc(),
        &ShortHex(&[7; 33]),
        "07:07:07:07:07:07:07:07:07:07:07:07:07:07:07:07:..",
    );
    prints(&rt, rt.alloc(), &Dotted(&[0x55, 0x04, 0x03]), "2.5.4.3");
    prints(
        &rt,
        rt.alloc(),
        &Utf16(&[0, 0x41, 0xd8, 0x3d, 0xde, 0, 0xd8, 0]),
        "A😀\u{fffd}",
    );
}

#[test]
fn times(rt: HostRuntime) {
    let moment = Moment {
        date: (2019, 1, 7),
        time: (7, 1, 8),
    };
    prints(&rt, rt.alloc(), &Stamp(moment), "2019-01-07T07:01:08Z");
}
