//! Attributes of names.

ghost use Rattle.std.specs.Prelude.{◌≡◌, OnOk};
ghost use Rattle.x509_make_names.specs.UsualTags.{IsIa5, IsPrintable};
ghost use Rattle.x509_make_parts.specs.Appending.{Appends, AppendsElement};

use json::Value;
use std::alloc::Allocator;
use x509_der::ObjectIdentifier;
use x509_make_parts::{Done, Maker};
use x509_make_values::Fields;
use x509_make_values::identifiers::{identifier_of, own_identifier, put_identifier};
use x509_make_values::strings::{IA5, PRINTABLE, UTF8, typed};

/// The members of a string.
const STRING: [&'static str; 3] = ["value", "asn1", "der"];

/// The tag of the string type that an attribute's value has where nothing else is said: a PrintableString of
/// countryName, serialNumber and dnQualifier, an IA5String of emailAddress and domainComponent (RFC 5280, A.1), and else
/// a UTF8String.
pub fn usual_tag<A: Allocator>(identifier: &ObjectIdentifier<A>) -> u8
    ensures printable { IsPrintable identifier.now → result ≡ 19 }
    ensures ia5 { IsIa5 identifier.now → result ≡ 22 }
    ensures other { (IsPrintable identifier.now → ⊥) → (IsIa5 identifier.now → ⊥) → result ≡ 12 }
{
    if identifier.is_arcs(&[2, 5, 4, 6])
        || identifier.is_arcs(&[2, 5, 4, 5])
        || identifier.is_arcs(&[2, 5, 4, 46])
    {
        return PRINTABLE;
    }
    if identifier.is_arcs(&[1, 2, 840, 113549, 1, 9, 1])
        || identifier.is_arcs(&[0, 9, 2342, 19200300, 100, 1, 25])
    {
        return IA5;
    }
    UTF8
}

/// Appends a string by its text, or an object with the members of a string.
///
/// # Errors
/// As `typed`, and `Unknown` or `Twice`.
pub fn string_value<A: Allocator + Copy>(
    maker: &mut Maker<A>,
    node: &Value<'_, A>,
    usual: u8,
) -> Done
    ensures { OnOk result (Appends maker.old.out.items maker.new.out.items) }
{
    if let Value::Object(_) = node {
        let mut fields = Fields::of(&mut maker.place, node)?;
        fields.pass(&STRING);
        fields.finish(&mut maker.place)?;
    }
    typed(maker, node, usual)
}

/// Appends an attribute by its fields: `id` or `name`, and the members of a string.
///
/// # Errors
/// As `own_identifier` and `typed`, and `Unknown` or `Twice`.
pub(crate) fn attribute<A: Allocator + Copy>(maker: &mut Maker<A>, node: &Value<'_, A>) -> Done
    ensures { OnOk result (AppendsElement 48 maker.old.out.items maker.new.out.items) }
{
    let start = maker.open();
    let mut fields = Fields::of(&mut maker.place, node)?;
    let identifier = own_identifier(maker.alloc, &mut maker.place, &mut fields)?;
    fields.pass(&STRING);
    fields.finish(&mut maker.place)?;
    put_identifier(maker, 0x06, &identifier)?;
    typed(maker, node, usual_tag(&identifier))?;
    maker.close(start, 0x30)
}

/// Appends an attribute by its name and its value.
///
/// # Errors
/// As `identifier_of` and `string_value`.
pub(crate) fn assigned<A: Allocator + Copy>(
    maker: &mut Maker<A>,
    key: &str,
    value: &Value<'_, A>,
) -> Done
    ensures { OnOk result (AppendsElement 48 maker.old.out.items maker.new.out.items) }
{
    let start = maker.open();
    let identifier = identifier_of(maker.alloc, key)?;
    put_identifier(maker, 0x06, &identifier)?;
    string_value(maker, value, usual_tag(&identifier))?;
    maker.close(start, 0x30)
}
