//! Names as text.

ghost use Rattle.std.specs.Prelude.{◌++◌, Some};
ghost use Rattle.std.specs.Fmt.{WritesOnOk};
ghost use Rattle.hex.specs.Hex.{encode_lower};
ghost use Rattle.x509_names.specs.NameTexts.{attribute_text, name_text, lead, texts};

use crate::attribute_type_and_value::{AttributeTypeAndValue, AttributeTypeAndValueParameters};
use crate::name::{Name, RelativeDistinguishedName};
use std::alloc::{Allocator, Global};
use std::{fmt, str};

/// A name that prints all its attributes in order, with commas between them: of each the label of its value, `=` and
/// its text, of which nothing is escaped.
///
/// The labels are CN, SURNAME, SN, C, L, ST, `STREET NAME`, O, OU, EMAIL, GIVENNAME and PHONE: that of the value's
/// variant, whatever the type is. A `Custom` value prints as the dotted type, `=#` and the element in lower-case
/// hexadecimal. Takes no memory of its own.
#[derive(Drop)]
pub struct NamePrettyFormatter<'a, A: Allocator = Global>(pub &'a Name<A>);

/// Writes bytes in lower-case hexadecimal.
fn write_hex<W: fmt::Write>(f: &mut fmt::Formatter<W>, bytes: &[u8]) -> fmt::Result
    ensures { WritesOnOk W.write_str_gives f.old result (encode_lower bytes.now) f.new }
{
    let mut digits = [0u8; 64];
    for piece in bytes.chunks(32) {
        let out = &mut digits[..2 * piece.len()];
        let Ok(()) = hex::encode_to_slice(piece, out) else {
            unreachable!();
        };
        let Ok(text) = str::from_utf8(out) else {
            unreachable!();
        };
        f.write_str(text)?;
    }
    Ok(())
}

/// Writes an attribute.
#[tactic(auto, unfolding(crate::specs::NameTexts::attribute_text))]
fn write_attribute<W: fmt::Write, A: Allocator>(
    f: &mut fmt::Formatter<W>,
    attribute: &AttributeTypeAndValue<A>,
) -> fmt::Result
    ensures { WritesOnOk W.write_str_gives f.old result (attribute_text attribute.now) f.new }
{
    let ty = &attribute.ty.0;
    match &attribute.value {
        AttributeTypeAndValueParameters::CommonName(text) => write!(f, "CN={text}"),
        AttributeTypeAndValueParameters::Surname(text) => write!(f, "SURNAME={text}"),
        AttributeTypeAndValueParameters::SerialNumber(text) => write!(f, "SN={text}"),
        AttributeTypeAndValueParameters::CountryName(text) => write!(f, "C={text}"),
        AttributeTypeAndValueParameters::LocalityName(text) => write!(f, "L={text}"),
        AttributeTypeAndValueParameters::StateOrProvinceName(text) => write!(f, "ST={text}"),
        AttributeTypeAndValueParameters::StreetName(text) => write!(f, "STREET NAME={text}"),
        AttributeTypeAndValueParameters::OrganizationName(text) => write!(f, "O={text}"),
        AttributeTypeAndValueParameters::OrganizationalUnitName(text) => write!(f, "OU={text}"),
        AttributeTypeAndValueParameters::EmailAddress(address) => {
            write!(f, "EMAIL={}", address.as_str())
        }
        AttributeTypeAndValueParameters::GivenName(text) => write!(f, "GIVENNAME={text}"),
        AttributeTypeAndValueParameters::Phone(text) => write!(f, "PHONE={text}"),
        AttributeTypeAndValueParameters::Custom(element) => {
            write!(f, "{ty}=#")?;
            write_hex(f, element.as_bytes())
        }
    }
}

/// Writes an attribute, behind a comma unless it is the first.
fn write_next<W: fmt::Write, A: Allocator>(
    f: &mut fmt::Formatter<W>,
    first: bool,
    attribute: &AttributeTypeAndValue<A>,
) -> fmt::Result
    ensures { WritesOnOk W.write_str_gives f.old result (lead first ++ attribute_text attribute.now) f.new }
{
    if !first {
        f.write_str(",")?;
    }
    write_attribute(f, attribute)
}

/// Writes attributes, each behind a comma but for the first.
fn write_set<W: fmt::Write, A: Allocator>(
    f: &mut fmt::Formatter<W>,
    first: bool,
    attributes: &[AttributeTypeAndValue<A>],
) -> fmt::Result
    ensures { WritesOnOk W.write_str_gives f.old result (texts first attributes.now) f.new }
{
    let mut none_yet = first;
    for attribute in attributes {
        write_next(f, none_yet, attribute)?;
        none_yet = false;
    }
    Ok(())
}

/// Writes the attributes of all sets.
fn write_sets<W: fmt::Write, A: Allocator>(
    f: &mut fmt::Formatter<W>,
    sets: &[RelativeDistinguishedName<A>],
) -> fmt::Result
    ensures { WritesOnOk W.write_str_gives f.old result (name_text sets.now) f.new }
{
    let mut first = true;
    for set in sets {
        let attributes = set.0.as_slice();
        write_set(f, first, attributes)?;
        first &= attributes.is_empty();
    }
    Ok(())
}

impl<A: Allocator> fmt::Display for NamePrettyFormatter<'_, A> {
    ghost output = { λ formatter. Some (name_text formatter.0.now) };

    fn fmt<W: fmt::Write>(&self, f: &mut fmt::Formatter<W>) -> fmt::Result {
        let name = self.0;
        write_sets(f, name.0.0.as_slice())
    }
}

impl<A: Allocator> fmt::Display for Name<A> {
    ghost output = { λ name. Some (name_text name) };

    fn fmt<W: fmt::Write>(&self, f: &mut fmt::Formatter<W>) -> fmt::Result {
        NamePrettyFormatter(self).fmt(f)
    }
}
