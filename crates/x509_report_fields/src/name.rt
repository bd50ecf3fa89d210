//! Names.

use picky_asn1_x509::{
    AttributeTypeAndValue, AttributeTypeAndValueParameters, DirectoryString, EdiPartyName,
    GeneralName, GeneralNames, Name, OtherName, RelativeDistinguishedName,
};
use std::alloc::Allocator;
use std::fmt::{self, Display, Write};
use x509_report_parts::shown::{Frame, Shown};
use x509_report_parts::text_sink::Named;
use x509_report_parts::values::{Address, Dotted, Hex, Latin1, Utf16, Utf32};
use x509_report_parts::{Cursor, Element, Identifiers, Label, Shape, Sink, StringType, Value};

/// Tells a name.
pub fn name<A: Allocator, S: Sink>(
    sink: &mut S,
    field: &'static str,
    at: Element<'_>,
    value: &Name<A>,
) -> Result<(), S::Error> {
    let mut sets = at.inside;
    sink.begin(Label::Field(field), at.span, Shape::Items)?;
    for set in &value.0.0 {
        attributes(sink, sets.next(), set)?;
    }
    sink.end()
}

/// Tells the attributes of a set.
fn attributes<A: Allocator, S: Sink>(
    sink: &mut S,
    at: Element<'_>,
    set: &RelativeDistinguishedName<A>,
) -> Result<(), S::Error> {
    let shape = if set.0.len() == 1 {
        Shape::Only
    } else {
        Shape::Items
    };
    sink.begin(Label::Field("RelativeDistinguishedName"), at.span, shape)?;
    each_attribute(sink, at, set)?;
    sink.end()
}

/// Tells the attributes of a set as the items of a node that has begun.
fn each_attribute<A: Allocator, S: Sink>(
    sink: &mut S,
    at: Element<'_>,
    set: &RelativeDistinguishedName<A>,
) -> Result<(), S::Error> {
    let mut items = at.inside;
    for item in &set.0 {
        let span = items.next().span;
        sink.field(
            Label::Identifier(item.ty.0.content()),
            span,
            held(&item.value),
        )?;
    }
    Ok(())
}

/// Tells a set of attributes that is a field by itself.
pub fn relative_name<A: Allocator, S: Sink>(
    sink: &mut S,
    field: &'static str,
    at: Element<'_>,
    set: &RelativeDistinguishedName<A>,
) -> Result<(), S::Error> {
    sink.begin(Label::Field(field), at.span, Shape::Items)?;
    each_attribute(sink, at, set)?;
    sink.end()
}

/// The value of a directory string.
pub fn text<A: Allocator>(text: &DirectoryString<A>) -> Value<'_> {
    match text {
        DirectoryString::PrintableString(text) => {
            Value::Typed(StringType::Printable, text.as_str())
        }
        DirectoryString::Utf8String(text) => Value::Typed(StringType::Utf8, text.as_str()),
        DirectoryString::BmpString(text) => Value::Utf16(text.as_bytes()),
    }
}

/// The value of an attribute.
fn held<A: Allocator>(value: &AttributeTypeAndValueParameters<A>) -> Value<'_> {
    match value {
        AttributeTypeAndValueParameters::CommonName(held)
        | AttributeTypeAndValueParameters::Surname(held)
        | AttributeTypeAndValueParameters::SerialNumber(held)
        | AttributeTypeAndValueParameters::CountryName(held)
        | AttributeTypeAndValueParameters::LocalityName(held)
        | AttributeTypeAndValueParameters::StateOrProvinceName(held)
        | AttributeTypeAndValueParameters::StreetName(held)
        | AttributeTypeAndValueParameters::OrganizationName(held)
        | AttributeTypeAndValueParameters::OrganizationalUnitName(held)
        | AttributeTypeAndValueParameters::GivenName(held)
        | AttributeTypeAndValueParameters::Phone(held) => text(held),
        AttributeTypeAndValueParameters::EmailAddress(address) => Value::Text(address.as_str()),
        AttributeTypeAndValueParameters::Custom(element) => raw(element.as_bytes()),
    }
}

/// The value of an element that isn't looked into: its text, if it is a string of ASCII or UTF-8 (X.690, 8.23), and else
/// its bytes.
pub fn raw(bytes: &[u8]) -> Value<'_> {
    let mut cursor = Cursor::new(bytes);
    let element = cursor.next();
    let Some(kind) = StringType::from_tag(element.tag) else {
        return Value::Raw(bytes);
    };
    match std::str::from_utf8(element.inside.rest) {
        Ok(text) => Value::Typed(kind, text),
        Err(_) => Value::Raw(bytes),
    }
}

/// Tells general names as the items of a node that has begun.
pub fn general_names<A: Allocator, S: Sink>(
    sink: &mut S,
    at: Element<'_>,
    names: &GeneralNames<A>,
) -> Result<(), S::Error> {
    let mut items = at.inside;
    for name in &names.0 {
        general_name(sink, items.next(), name)?;
    }
    Ok(())
}

/// Tells a general name.
pub fn general_name<A: Allocator, S: Sink>(
    sink: &mut S,
    at: Element<'_>,
    value: &GeneralName<A>,
) -> Result<(), S::Error> {
    match value {
        GeneralName::OtherName(other) => return other_name(sink, at, other),
        GeneralName::EdiPartyName(party) => return edi_party_name(sink, at, party),
        GeneralName::DirectoryName(value) => return directory_name(sink, at, value),
        _ => {}
    }
    let (field, value) = simple_name(value);
    sink.field(Label::Field(field), at.span, value)
}

/// The field and the value of a general name that has no fields in it.
fn simple_name<A: Allocator>(value: &GeneralName<A>) -> (&'static str, Value<'_>) {
    match value {
        GeneralName::Rfc822Name(text) => ("rfc822Name", Value::Text(text.as_str())),
        GeneralName::DnsName(text) => ("dNSName", Value::Text(text.as_str())),
        GeneralName::Uri(text) => ("uniformResourceIdentifier", Value::Text(text.as_str())),
        GeneralName::IpAddress(address) => ("iPAddress", Value::Address(address.0.as_slice())),
        GeneralName::RegisteredId(identifier) => {
            ("registeredID", Value::Identifier(identifier.0.content()))
        }
        _ => ("", Value::Null),
    }
}

/// Tells a name of the directory: a `Name` under its tag, or the content of one, which is a deviation.
fn directory_name<A: Allocator, S: Sink>(
    sink: &mut S,
    at: Element<'_>,
    value: &Name<A>,
) -> Result<(), S::Error> {
    let mut inside = at.inside;
    match inside.next_if(0x30) {
        Some(sequence) => name(
            sink,
            "directoryName",
            Element {
                tag: at.tag,
                span: at.span,
                inside: sequence.inside,
            },
            value,
        ),
        None => name(sink, "directoryName", at, value),
    }
}

/// Tells a name of a form of its own.
fn other_name<A: Allocator, S: Sink>(
    sink: &mut S,
    at: Element<'_>,
    value: &OtherName<A>,
) -> Result<(), S::Error> {
    let mut fields = at.inside;
    sink.begin(Label::Field("otherName"), at.span, Shape::Fields)?;
    let form = Value::Identifier(value.type_id.0.content());
    sink.field(Label::Field("type-id"), fields.next().span, form)?;
    let span = fields.next().span;
    sink.field(Label::Field("value"), span, raw(value.value.as_bytes()))?;
    sink.end()
}

/// Tells a party to electronic data interchange.
fn edi_party_name<A: Allocator, S: Sink>(
    sink: &mut S,
    at: Element<'_>,
    value: &EdiPartyName<A>,
) -> Result<(), S::Error> {
    let mut fields = at.inside;
    sink.begin(Label::Field("ediPartyName"), at.span, Shape::Fields)?;
    if let Some(assigner) = &value.name_assigner {
        sink.field(
            Label::Field("nameAssigner"),
            fields.next().span,
            text(assigner),
        )?;
    }
    let party = text(&value.party_name);
    sink.field(Label::Field("partyName"), fields.next().span, party)?;
    sink.end()
}

/// The short name of an attribute's type, as names are written with it (RFC 4514, 3; OpenSSL), if it has one.
fn short_name(content: &[u8]) -> Option<&'static str> {
    match content {
        // 2.5.4.3
        [0x55, 0x04, 0x03] => Some("CN"),
        // 2.5.4.4
        [0x55, 0x04, 0x04] => Some("SN"),
        // 2.5.4.6
        [0x55, 0x04, 0x06] => Some("C"),
        // 2.5.4.7
        [0x55, 0x04, 0x07] => Some("L"),
        // 2.5.4.8
        [0x55, 0x04, 0x08] => Some("ST"),
        // 2.5.4.9
        [0x55, 0x04, 0x09] => Some("street"),
        // 2.5.4.10
        [0x55, 0x04, 0x0a] => Some("O"),
        // 2.5.4.11
        [0x55, 0x04, 0x0b] => Some("OU"),
        // 2.5.4.42
        [0x55, 0x04, 0x2a] => Some("GN"),
        // 0.9.2342.19200300.100.1.1
        [0x09, 0x92, 0x26, 0x89, 0x93, 0xf2, 0x2c, 0x64, 0x01, 0x01] => Some("UID"),
        // 0.9.2342.19200300.100.1.25
        [0x09, 0x92, 0x26, 0x89, 0x93, 0xf2, 0x2c, 0x64, 0x01, 0x19] => Some("DC"),
        _ => None,
    }
}

/// A value as it stands in a name on one line.
#[derive(Clone, Copy, Drop)]
pub struct InLine<'a>(pub Value<'a>);

impl Display for InLine<'_> {
    fn fmt<W: Write>(&self, f: &mut fmt::Formatter<W>) -> fmt::Result {
        match self.0 {
            Value::Text(text) | Value::Typed(_, text) => {
                write!(f, "{}", Shown(&text, Frame::Name))
            }
            Value::Utf16(bytes) => write!(f, "{}", Shown(&Utf16(bytes), Frame::Name)),
            Value::Latin1(_, bytes) => write!(f, "{}", Shown(&Latin1(bytes), Frame::Name)),
            Value::Utf32(bytes) => write!(f, "{}", Shown(&Utf32(bytes), Frame::Name)),
            Value::Raw(bytes) | Value::Octets(bytes) => write!(f, "#{}", Hex(bytes)),
            Value::Address(bytes) => write!(f, "{}", Address(bytes)),
            Value::Identifier(content) => write!(f, "{}", Dotted(content)),
            _ => Ok(()),
        }
    }
}

/// Writes an attribute as it stands in a name on one line, by the content of its type's object identifier and its value.
///
/// # Errors
/// What the writer fails with.
pub fn write_attribute<W: Write>(out: &mut W, content: &[u8], value: Value<'_>) -> fmt::Result {
    match short_name(content) {
        Some(short) => out.write_str(short)?,
        None => write!(out, "{}", Named(content, Identifiers::Named))?,
    }
    write!(out, "={}", InLine(value))
}

/// An attribute as it stands in a name on one line.
#[derive(Drop)]
struct AttributeLine<'a, A: Allocator>(&'a AttributeTypeAndValue<A>);

impl<A: Allocator> Display for AttributeLine<'_, A> {
    fn fmt<W: Write>(&self, f: &mut fmt::Formatter<W>) -> fmt::Result {
        let attribute = self.0;
        write_attribute(f, attribute.ty.0.content(), held(&attribute.value))
    }
}

/// A name on one line, as in `C=DE, O=Example, CN=example.org`: in the order of the input, with plus signs between the
/// attributes of a set.
#[derive(Drop)]
pub struct NameLine<'a, A: Allocator>(pub &'a Name<A>);

/// Writes a set of attributes.
fn write_set<A: Allocator, W: Write>(
    f: &mut fmt::Formatter<W>,
    set: &RelativeDistinguishedName<A>,
) -> fmt::Result {
    let mut is_first = true;
    for attribute in &set.0 {
        if !is_first {
            f.write_str(" + ")?;
        }
        is_first = false;
        write!(f, "{}", AttributeLine(attribute))?;
    }
    Ok(())
}

impl<A: Allocator> Display for NameLine<'_, A> {
    fn fmt<W: Write>(&self, f: &mut fmt::Formatter<W>) -> fmt::Result {
        let name = self.0;
        if name.0.0.is_empty() {
            return f.write_str("(empty)");
        }
        let mut is_first = true;
        for set in &name.0.0 {
            if !is_first {
                f.write_str(", ")?;
            }
            is_first = false;
            write_set(f, set)?;
        }
        Ok(())
    }
}

/// The word for a general name's form.
fn form_word<A: Allocator>(name: &GeneralName<A>) -> &'static str {
    match name {
        GeneralName::OtherName(_) => "other",
        GeneralName::Rfc822Name(_) => "email",
        GeneralName::DnsName(_) => "DNS",
        GeneralName::DirectoryName(_) => "directory",
        GeneralName::EdiPartyName(_) => "EDI party",
        GeneralName::Uri(_) => "URI",
        GeneralName::IpAddress(_) => "IP",
        GeneralName::RegisteredId(_) => "registered",
    }
}

/// Writes a general name's form and value.
fn write_general_name<A: Allocator, W: Write>(
    f: &mut fmt::Formatter<W>,
    name: &GeneralName<A>,
) -> fmt::Result {
    write!(f, "{} ", form_word(name))?;
    match name {
        GeneralName::OtherName(other) => {
            let form = Named(other.type_id.0.content(), Identifiers::Named);
            write!(f, "{form} {}", InLine(raw(other.value.as_bytes())))
        }
        GeneralName::EdiPartyName(party) => write!(f, "{}", InLine(text(&party.party_name))),
        GeneralName::DirectoryName(value) => write!(f, "({})", NameLine(value)),
        _ => write!(f, "{}", InLine(simple_name(name).1)),
    }
}

/// General names on one line, as in `DNS example.org, IP 192.0.2.7`.
#[derive(Drop)]
pub struct NamesLine<'a, A: Allocator>(pub &'a GeneralNames<A>);

impl<A: Allocator> Display for NamesLine<'_, A> {
    fn fmt<W: Write>(&self, f: &mut fmt::Formatter<W>) -> fmt::Result {
        let names = self.0;
        let mut is_first = true;
        for name in &names.0 {
            if !is_first {
                f.write_str(", ")?;
            }
            is_first = false;
            write_general_name(f, name)?;
        }
        Ok(())
    }
}

/// A general name on one line: an address as it is, and what is none behind the word for its form.
#[derive(Drop)]
pub struct AddressLine<'a, A: Allocator>(pub &'a GeneralName<A>);

impl<A: Allocator> Display for AddressLine<'_, A> {
    fn fmt<W: Write>(&self, f: &mut fmt::Formatter<W>) -> fmt::Result {
        match self.0 {
            GeneralName::Uri(text) => write!(f, "{}", InLine(Value::Text(text.as_str()))),
            name => write_general_name(f, name),
        }
    }
}
