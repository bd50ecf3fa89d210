//! Texts in the string types of ASN.1.

ghost use Rattle.std.specs.Prelude.{◌≡◌, ◌==◌, ◌++◌, if◌then◌else◌, OnOk};
ghost use Rattle.x509_der.specs.Element.{element};
ghost use Rattle.x509_make_parts.specs.Appending.{Appends};
ghost use Rattle.x509_prim.specs.Utf16.{utf16_bytes};

use crate::octets::given;
use json::Value;
use std::alloc::Allocator;
use x509_make_parts::node::text_of;
use x509_make_parts::{Done, Fault, Maker};
use x509_prim::{BmpString, CharSet, Ia5CharSet, PrintableCharSet};

/// The tag of a UTF8String.
pub const UTF8: u8 = 0x0c;

/// The tag of a NumericString.
const NUMERIC: u8 = 0x12;

/// The tag of a PrintableString.
pub const PRINTABLE: u8 = 0x13;

/// The tag of an IA5String.
pub const IA5: u8 = 0x16;

/// The tag of a VisibleString.
const VISIBLE: u8 = 0x1a;

/// The tag of a BMPString.
const BMP: u8 = 0x1e;

/// The tag of a string type.
fn tag_of(name: &str) -> Option<u8> {
    match name {
        "UTF8String" => Some(UTF8),
        "NumericString" => Some(NUMERIC),
        "PrintableString" => Some(PRINTABLE),
        "IA5String" => Some(IA5),
        "VisibleString" => Some(VISIBLE),
        "BMPString" => Some(BMP),
        _ => None,
    }
}

/// Sees that a text may stand in a string with a tag (X.680, 41).
///
/// # Errors
/// `Not`.
pub fn check_text(tag: u8, text: &[u8]) -> Done {
    match tag {
        NUMERIC if !text.iter().all(|b| b.is_ascii_digit() || *b == b' ') => {
            Err(Fault::Not("a NumericString: digits and spaces alone"))
        }
        PRINTABLE if !PrintableCharSet::allows(text) => Err(Fault::Not(
            "a PrintableString: letters and digits of ASCII, spaces and '()+,-./:=? alone",
        )),
        IA5 if !Ia5CharSet::allows(text) => Err(Fault::Not("ASCII")),
        VISIBLE if !text.iter().all(|b| 32 <= *b && *b < 127) => {
            Err(Fault::Not("a VisibleString: characters of ASCII that print"))
        }
        _ => Ok(()),
    }
}

/// Appends a text in the string type with a tag.
///
/// # Errors
/// `Not` where it has a character that the type doesn't have.
pub fn string<A: Allocator + Copy>(maker: &mut Maker<A>, tag: u8, text: &str) -> Done
    ensures { OnOk result (maker.new.out.items ≡ maker.old.out.items
        ++ element tag (if tag == 30 then utf16_bytes text.now else text.now)) }
{
    check_text(tag, text.as_bytes())?;
    if tag != BMP {
        return maker.element(tag, text.as_bytes());
    }
    match BmpString::from_string(maker.alloc, text) {
        Ok(units) => maker.element(tag, units.as_bytes()),
        Err(_) => Err(Fault::OutOfMemory),
    }
}

/// The tag that the member `asn1` of a node names, or else the usual one.
fn tag_in<A: Allocator + Copy>(node: &Value<'_, A>, usual: u8) -> Option<u8> {
    match node.get("asn1") {
        None => Some(usual),
        Some(Value::String(name)) => tag_of(*name),
        Some(_) => None,
    }
}

/// Appends the text of a node in the string type that its member `asn1` names, or else in the usual one; or the element
/// that its member `der` gives. That it has no other members is seen by the caller.
///
/// # Errors
/// `Not` where `asn1` names no type, or the text has a character that the type doesn't have.
pub fn typed<A: Allocator + Copy>(maker: &mut Maker<A>, node: &Value<'_, A>, usual: u8) -> Done
    ensures { OnOk result (Appends maker.old.out.items maker.new.out.items) }
{
    if let Some(element) = node.get("der") {
        return given(maker, element);
    }
    let Some(tag) = tag_in(node, usual) else {
        maker.place.enter_member(node, "asn1");
        return Err(Fault::Not("a string type"));
    };
    let text = text_of(node, "a text")?;
    string(maker, tag, text)
}
