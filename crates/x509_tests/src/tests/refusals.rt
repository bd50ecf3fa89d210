//! What is refused, with the headers that are decoded on the way and the error's name.
//!
//! A header is one decoding of a tag with its length digits, a failed one among them. Looking at a tag byte, to choose
//! an alternative or to tell whether an optional field is there, is none. The numbers follow from that and from the
//! order in which elements are read: the outer one first, and then what stands in it, from front to back.

use std::alloc::Global;
use std::process::Abort;
use x509_der::ReadError::{
    BadBits, BadBoolean, BadLength, BadNumber, BadOid, BadText, BadTime, LeftOver, Truncated,
    WrongTag,
};
use x509_der::{
    Asn1RawDer, BitStringAsn1, FromDer, IntegerAsn1, ObjectIdentifierAsn1, OctetStringAsn1,
    ReadError, read_metered,
};
use x509_prim::{
    BmpStringAsn1, GeneralizedTimeAsn1, Ia5StringAsn1, PrintableStringAsn1, UtcTimeAsn1, Utf8String,
};

/// An input in hexadecimal that is refused, how many headers are decoded until then, and the error, where its name is
/// the only one that fits.
pub(super) type Refusal<'a> = (&'a str, usize, Option<ReadError>);

/// The error that the bytes are refused with, and how many headers were decoded.
fn refusal_of<T: FromDer<Global>>(alloc: Global, bytes: &[u8]) -> (Option<ReadError>, usize) {
    let (outcome, headers) = read_metered::<T, Global>(alloc, bytes);
    (outcome.err(), headers)
}

/// The answer is as is stated.
fn is_as_stated(rt: &impl Abort, found: (Option<ReadError>, usize), stated: &Refusal<'_>) {
    let (error, headers) = found;
    let is_named = error == stated.2 || (error.is_some() && stated.2.is_none());
    assert!(rt; is_named, "{error:?} of {}", stated.0);
    assert!(rt; headers == stated.1, "{headers} headers of {}", stated.0);
}

/// Each of the inputs is refused as is stated.
pub(super) fn all_refused<T: FromDer<Global>>(
    rt: &impl Abort,
    alloc: Global,
    table: &[Refusal<'_>],
) {
    for stated in table {
        let bytes = hex::decode(alloc, stated.0).expect(rt, stated.0);
        is_as_stated(rt, refusal_of::<T>(alloc, &bytes), stated);
    }
}

/// What begins with no element that has this tag, of no type.
const NOTHING: &[Refusal<'static>] = &[
    // no bytes
    ("", 1, Some(Truncated)),
    // a tag of several bytes
    ("1f0100", 1, Some(WrongTag)),
    // an application's tag
    ("4000", 1, Some(WrongTag)),
];

/// No NULL.
const NULLS: &[Refusal<'static>] = &[
    // a tag alone
    ("05", 1, None),
    // an element that is cut
    ("0501", 1, Some(Truncated)),
    // another tag
    ("0400", 1, Some(WrongTag)),
    // a length that is not the shortest
    ("058100", 1, Some(BadLength)),
    // an indefinite length
    ("05800000", 1, Some(BadLength)),
    // a content
    ("050100", 1, Some(LeftOver)),
    // a second element
    ("05000500", 1, Some(LeftOver)),
];

#[test]
fn nulls(rt: HostRuntime) {
    let alloc = rt.alloc();
    all_refused::<()>(&rt, alloc, NULLS);
    all_refused::<()>(&rt, alloc, NOTHING);
}

/// No BOOLEAN.
const TRUTH_VALUES: &[Refusal<'static>] = &[
    // a content that is cut
    ("0101", 1, Some(Truncated)),
    // another tag
    ("0201ff", 1, Some(WrongTag)),
    // a length that is not the shortest
    ("018101ff", 1, Some(BadLength)),
    // neither 00 nor FF
    ("010101", 1, Some(BadBoolean)),
    // no content
    ("0100", 1, None),
    // two bytes
    ("01020000", 1, None),
    // a byte behind it
    ("0101ff00", 1, Some(LeftOver)),
];

/// No INTEGER of 0 to 255.
const SMALL_NUMBERS: &[Refusal<'static>] = &[
    // a content that is cut
    ("020200", 1, Some(Truncated)),
    // another tag
    ("030101", 1, Some(WrongTag)),
    // a length that is not the shortest, and no content
    ("02820001", 1, Some(BadLength)),
    // below 0
    ("020180", 1, Some(BadNumber)),
    // above 255
    ("02020100", 1, Some(BadNumber)),
    // padded
    ("0202007f", 1, Some(BadNumber)),
    // no content
    ("0200", 1, None),
    // an element behind it
    ("0201050500", 1, Some(LeftOver)),
];

/// No INTEGER.
const INTEGERS: &[Refusal<'static>] = &[
    // a content that is cut
    ("020200", 1, Some(Truncated)),
    // another tag
    ("0301ff", 1, Some(WrongTag)),
    // padded with zeros
    ("0202007f", 1, Some(BadNumber)),
    // padded with ones
    ("0202ff80", 1, Some(BadNumber)),
    // no content
    ("0200", 1, None),
    // a byte behind it
    ("02010005", 1, Some(LeftOver)),
];

#[test]
fn numbers(rt: HostRuntime) {
    let alloc = rt.alloc();
    all_refused::<bool>(&rt, alloc, TRUTH_VALUES);
    all_refused::<bool>(&rt, alloc, NOTHING);
    all_refused::<u8>(&rt, alloc, SMALL_NUMBERS);
    all_refused::<u8>(&rt, alloc, NOTHING);
}

#[test]
fn integers(rt: HostRuntime) {
    let alloc = rt.alloc();
    all_refused::<IntegerAsn1>(&rt, alloc, INTEGERS);
    all_refused::<IntegerAsn1>(&rt, alloc, NOTHING);
}

/// No OCTET STRING.
const OCTETS: &[Refusal<'static>] = &[
    // a content that is cut
    ("0402a1", 1, Some(Truncated)),
    // another tag
    ("0300", 1, Some(WrongTag)),
    // put together of parts
    ("24020400", 1, Some(WrongTag)),
    // a length that is not the shortest
    ("048101a1", 1, Some(BadLength)),
    // a length of nine bytes
    ("0489010000000000000000", 1, Some(BadLength)),
    // a byte behind it
    ("040000", 1, Some(LeftOver)),
];

/// No BIT STRING.
const BITS: &[Refusal<'static>] = &[
    // a content that is cut
    ("030200", 1, Some(Truncated)),
    // another tag
    ("0403020780", 1, Some(WrongTag)),
    // no count of unused bits
    ("0300", 1, None),
    // unused bits of no byte
    ("030101", 1, Some(BadBits)),
    // eight unused bits
    ("03020800", 1, Some(BadBits)),
    // an unused bit that is set
    ("030201a1", 1, Some(BadBits)),
    // a byte behind it
    ("0302078000", 1, Some(LeftOver)),
];

#[test]
fn strings_of_octets_and_bits(rt: HostRuntime) {
    let alloc = rt.alloc();
    all_refused::<OctetStringAsn1>(&rt, alloc, OCTETS);
    all_refused::<OctetStringAsn1>(&rt, alloc, NOTHING);
    all_refused::<BitStringAsn1>(&rt, alloc, BITS);
    all_refused::<BitStringAsn1>(&rt, alloc, NOTHING);
}

/// No OBJECT IDENTIFIER.
const IDENTIFIERS: &[Refusal<'static>] = &[
    // a content that is cut
    ("060288", 1, Some(Truncated)),
    // another tag
    ("05028837", 1, Some(WrongTag)),
    // a length that is not the shortest
    ("0681028837", 1, Some(BadLength)),
    // a number without its last byte
    ("060180", 1, Some(BadOid)),
    // a padded number
    ("06032a8001", 1, Some(BadOid)),
    // a number above 64 bits
    ("060b2a82808080808080808000", 1, Some(BadOid)),
    // no content
    ("0600", 1, Some(BadOid)),
    // a byte behind it
    ("0602883700", 1, Some(LeftOver)),
];

/// No element, or more than one.
const ELEMENTS: &[Refusal<'static>] = &[
    // no bytes
    ("", 1, Some(Truncated)),
    // a tag of several bytes
    ("1f0100", 1, Some(WrongTag)),
    // a tag alone
    ("05", 1, None),
    // a content that is cut
    ("30030205", 1, Some(Truncated)),
    // a length that is not the shortest
    ("308100", 1, Some(BadLength)),
    // a byte behind it
    ("050000", 1, Some(LeftOver)),
];

#[test]
fn identifiers(rt: HostRuntime) {
    let alloc = rt.alloc();
    all_refused::<ObjectIdentifierAsn1>(&rt, alloc, IDENTIFIERS);
    all_refused::<ObjectIdentifierAsn1>(&rt, alloc, NOTHING);
}

#[test]
fn elements(rt: HostRuntime) {
    let alloc = rt.alloc();
    all_refused::<Asn1RawDer>(&rt, alloc, ELEMENTS);
}

/// No PrintableString.
const PRINTABLE_STRINGS: &[Refusal<'static>] = &[
    // an asterisk
    ("13012a", 1, Some(BadText)),
    // another tag
    ("0c0141", 1, Some(WrongTag)),
    // a content that is cut
    ("130241", 1, Some(Truncated)),
    // a byte behind it
    ("13014100", 1, Some(LeftOver)),
];

/// No IA5String.
const IA5_STRINGS: &[Refusal<'static>] = &[
    // a byte above 7F
    ("160241ff", 1, Some(BadText)),
    // another tag
    ("130141", 1, Some(WrongTag)),
    // a content that is cut
    ("160241", 1, Some(Truncated)),
    // a byte behind it
    ("16014100", 1, Some(LeftOver)),
];

/// No BMPString.
const BMP_STRINGS: &[Refusal<'static>] = &[
    // an odd byte
    ("1e0161", 1, Some(BadText)),
    // another tag
    ("0c020061", 1, Some(WrongTag)),
    // a content that is cut
    ("1e0200", 1, Some(Truncated)),
    // a byte behind it
    ("1e02006100", 1, Some(LeftOver)),
];

/// No UTF8String.
const UTF8_STRINGS: &[Refusal<'static>] = &[
    // a surrogate
    ("0c03eda080", 1, Some(BadText)),
    // a byte that begins no character
    ("0c0180", 1, Some(BadText)),
    // another tag
    ("130141", 1, Some(WrongTag)),
    // a content that is cut
    ("0c0241", 1, Some(Truncated)),
    // a byte behind it
    ("0c014100", 1, Some(LeftOver)),
];

#[test]
fn texts(rt: HostRuntime) {
    let alloc = rt.alloc();
    all_refused::<PrintableStringAsn1>(&rt, alloc, PRINTABLE_STRINGS);
    all_refused::<Ia5StringAsn1>(&rt, alloc, IA5_STRINGS);
}

#[test]
fn texts_of_larger_sets(rt: HostRuntime) {
    let alloc = rt.alloc();
    all_refused::<BmpStringAsn1>(&rt, alloc, BMP_STRINGS);
    all_refused::<Utf8String>(&rt, alloc, UTF8_STRINGS);
}

/// No UTCTime.
const UTC_TIMES: &[Refusal<'static>] = &[
    // 190229000000Z: no leap year
    ("170d3139303232393030303030305a", 1, Some(BadTime)),
    // 191017174160Z: second 60
    ("170d3139313031373137343136305a", 1, Some(BadTime)),
    // no text
    ("1700", 1, Some(BadTime)),
    // another tag
    ("180d3530303130313030303030305a", 1, Some(WrongTag)),
    // a content that is cut
    ("170d31393032", 1, Some(Truncated)),
    // a byte behind it
    ("170d3530303130313030303030305a00", 1, Some(LeftOver)),
];

/// No GeneralizedTime.
const GENERALIZED_TIMES: &[Refusal<'static>] = &[
    // 19000229000000Z: no leap year
    ("180f31393030303232393030303030305a", 1, Some(BadTime)),
    // 20191017174159.5Z: a fraction
    ("181132303139313031373137343135392e355a", 1, Some(BadTime)),
    // no text
    ("1800", 1, Some(BadTime)),
    // another tag
    ("170f32303139313031373137343135395a", 1, Some(WrongTag)),
    // a content that is cut
    ("180f3139", 1, Some(Truncated)),
    // a byte behind it
    ("180f32303030303232393132333435365a00", 1, Some(LeftOver)),
];

#[test]
fn times(rt: HostRuntime) {
    let alloc = rt.alloc();
    all_refused::<UtcTimeAsn1>(&rt, alloc, UTC_TIMES);
    all_refused::<GeneralizedTimeAsn1>(&rt, alloc, GENERALIZED_TIMES);
}
