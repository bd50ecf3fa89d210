//! Texts of names.

ghost use Rattle.std.specs.Prelude.{◌≡◌};
ghost use Rattle.std.specs.List.{count_by, list_all, list_any};
ghost use Rattle.std.specs.Char.{is_ascii_alphabetic};
ghost use Rattle.x509_der.specs.Items.{no_items};
ghost use Rattle.x509_findings_parts.specs.Texts.{begins, has_text_fault, is_blank, is_blank_value, is_country, is_email, is_foreign_value, is_long_value, is_longer_than, is_no_country, is_no_printable, is_wide, set_has_email, set_has_fault};

use std::alloc::Allocator;
use x509_names::{AttributeTypeAndValue, AttributeTypeAndValueParameters, DirectoryString, Name};

/// What may be wrong with a text of a name.
#[derive(Clone, Copy, Debug, PartialEq, Eq)]
pub enum TextFault {
    /// It has no characters.
    Empty,
    /// It has more characters than its attribute has at most.
    Long,
    /// It is a country, and not two letters.
    NoCountry,
    /// It is of a string type that new names don't have.
    StringType,
}

/// How many octets of a text in UTF-8 begin a character.
fn beginnings(octets: &[u8]) -> usize
    ensures { result ≡ count_by begins octets.now }
{
    octets
        .iter()
        .filter(|octet| **octet < 0x80 || **octet >= 0xC0)
        .count()
}

/// Whether a text has more characters than a bound.
fn is_longer_than<A: Allocator>(text: &DirectoryString<A>, most: u16) -> bool
    ensures { result ≡ is_longer_than most text.now }
{
    let most = usize::from(most);
    match text {
        DirectoryString::PrintableString(text) => text.as_bytes().len() > most,
        DirectoryString::Utf8String(text) => beginnings(text.as_bytes()) > most,
        DirectoryString::BmpString(text) => text.as_bytes().len() > 2 * most,
    }
}

/// Whether the value of an attribute has more characters than it has at most.
fn is_long_value<A: Allocator>(value: &AttributeTypeAndValueParameters<A>) -> bool
    ensures { result ≡ is_long_value value.now }
{
    match value {
        AttributeTypeAndValueParameters::CommonName(text)
        | AttributeTypeAndValueParameters::SerialNumber(text)
        | AttributeTypeAndValueParameters::OrganizationName(text)
        | AttributeTypeAndValueParameters::OrganizationalUnitName(text) => is_longer_than(text, 64),
        AttributeTypeAndValueParameters::LocalityName(text)
        | AttributeTypeAndValueParameters::StateOrProvinceName(text) => is_longer_than(text, 128),
        AttributeTypeAndValueParameters::Surname(text)
        | AttributeTypeAndValueParameters::GivenName(text) => is_longer_than(text, 32768),
        AttributeTypeAndValueParameters::EmailAddress(address) => address.as_bytes().len() > 255,
        AttributeTypeAndValueParameters::CountryName(_)
        | AttributeTypeAndValueParameters::StreetName(_)
        | AttributeTypeAndValueParameters::Phone(_)
        | AttributeTypeAndValueParameters::Custom(_) => false,
    }
}

/// Whether a text has no characters.
fn is_blank<A: Allocator>(text: &DirectoryString<A>) -> bool
    ensures { result ≡ is_blank text.now }
{
    match text {
        DirectoryString::PrintableString(text) => text.as_bytes().is_empty(),
        DirectoryString::Utf8String(text) => text.as_bytes().is_empty(),
        DirectoryString::BmpString(text) => text.as_bytes().is_empty(),
    }
}

/// Whether the value of an attribute is a text without characters.
fn is_blank_value<A: Allocator>(value: &AttributeTypeAndValueParameters<A>) -> bool
    ensures { result ≡ is_blank_value value.now }
{
    match value {
        AttributeTypeAndValueParameters::CommonName(text)
        | AttributeTypeAndValueParameters::Surname(text)
        | AttributeTypeAndValueParameters::SerialNumber(text)
        | AttributeTypeAndValueParameters::CountryName(text)
        | AttributeTypeAndValueParameters::LocalityName(text)
        | AttributeTypeAndValueParameters::StateOrProvinceName(text)
        | AttributeTypeAndValueParameters::StreetName(text)
        | AttributeTypeAndValueParameters::OrganizationName(text)
        | AttributeTypeAndValueParameters::OrganizationalUnitName(text)
        | AttributeTypeAndValueParameters::GivenName(text)
        | AttributeTypeAndValueParameters::Phone(text) => is_blank(text),
        AttributeTypeAndValueParameters::EmailAddress(address) => address.as_bytes().is_empty(),
        AttributeTypeAndValueParameters::Custom(_) => false,
    }
}

/// Whether octets are letters of ASCII alone.
fn are_letters(octets: &[u8]) -> bool
    ensures { result ≡ list_all is_ascii_alphabetic octets.now }
{
    octets.iter().all(|octet| octet.is_ascii_alphabetic())
}

/// Whether a text is a PrintableString of two letters.
fn is_country<A: Allocator>(text: &DirectoryString<A>) -> bool
    ensures { result ≡ is_country text.now }
{
    match text {
        DirectoryString::PrintableString(text) => {
            let octets = text.as_bytes();
            octets.len() == 2 && are_letters(octets)
        }
        DirectoryString::Utf8String(_) | DirectoryString::BmpString(_) => false,
    }
}

/// Whether the value of an attribute is a country, and not two letters.
fn is_no_country<A: Allocator>(value: &AttributeTypeAndValueParameters<A>) -> bool
    ensures { result ≡ is_no_country value.now }
{
    match value {
        AttributeTypeAndValueParameters::CountryName(text) => !is_country(text),
        _ => false,
    }
}

/// Whether a text is a BMPString.
fn is_wide<A: Allocator>(text: &DirectoryString<A>) -> bool
    ensures { result ≡ is_wide text.now }
{
    match text {
        DirectoryString::BmpString(_) => true,
        DirectoryString::PrintableString(_) | DirectoryString::Utf8String(_) => false,
    }
}

/// Whether a text isn't a PrintableString.
fn is_no_printable<A: Allocator>(text: &DirectoryString<A>) -> bool
    ensures { result ≡ is_no_printable text.now }
{
    match text {
        DirectoryString::PrintableString(_) => false,
        DirectoryString::Utf8String(_) | DirectoryString::BmpString(_) => true,
    }
}

/// Whether the value of an attribute is of a string type that new names don't have.
fn is_foreign_value<A: Allocator>(value: &AttributeTypeAndValueParameters<A>) -> bool
    ensures { result ≡ is_foreign_value value.now }
{
    match value {
        AttributeTypeAndValueParameters::SerialNumber(text) => is_no_printable(text),
        AttributeTypeAndValueParameters::CommonName(text)
        | AttributeTypeAndValueParameters::Surname(text)
        | AttributeTypeAndValueParameters::LocalityName(text)
        | AttributeTypeAndValueParameters::StateOrProvinceName(text)
        | AttributeTypeAndValueParameters::StreetName(text)
        | AttributeTypeAndValueParameters::OrganizationName(text)
        | AttributeTypeAndValueParameters::OrganizationalUnitName(text)
        | AttributeTypeAndValueParameters::GivenName(text)
        | AttributeTypeAndValueParameters::Phone(text) => is_wide(text),
        AttributeTypeAndValueParameters::CountryName(_)
        | AttributeTypeAndValueParameters::EmailAddress(_)
        | AttributeTypeAndValueParameters::Custom(_) => false,
    }
}

/// Whether an attribute has a text with a fault.
fn has_text_fault<A: Allocator>(attribute: &AttributeTypeAndValue<A>, fault: TextFault) -> bool
    ensures { result ≡ has_text_fault fault attribute.now.value }
{
    let value = &attribute.value;
    match fault {
        TextFault::Empty => is_blank_value(value),
        TextFault::Long => is_long_value(value),
        TextFault::NoCountry => is_no_country(value),
        TextFault::StringType => is_foreign_value(value),
    }
}

/// Whether one of some attributes has a text with a fault.
fn set_has_fault<A: Allocator>(set: &[AttributeTypeAndValue<A>], fault: TextFault) -> bool
    ensures { result ≡ set_has_fault fault set.now }
{
    set.iter().any(|attribute| has_text_fault(attribute, fault))
}

/// Whether a name has a text with a fault. Takes no memory.
pub fn name_has_text_fault<A: Allocator>(name: &Name<A>, fault: TextFault) -> bool
    ensures { result ≡ list_any (set_has_fault fault) name.now }
{
    name.0
        .0
        .iter()
        .any(|set| set_has_fault(set.0.as_slice(), fault))
}

/// Whether a name has a set without attributes. Takes no memory.
pub fn has_empty_set<A: Allocator>(name: &Name<A>) -> bool
    ensures { result ≡ list_any no_items name.now }
{
    name.0.0.iter().any(|set| set.0.is_empty())
}

/// Whether an attribute is a mail address.
fn is_email<A: Allocator>(attribute: &AttributeTypeAndValue<A>) -> bool
    ensures { result ≡ is_email attribute.now.value }
{
    match &attribute.value {
        AttributeTypeAndValueParameters::EmailAddress(_) => true,
        _ => false,
    }
}

/// Whether one of some attributes is a mail address.
fn set_has_email<A: Allocator>(set: &[AttributeTypeAndValue<A>]) -> bool
    ensures { result ≡ set_has_email set.now }
{
    set.iter().any(|attribute| is_email(attribute))
}

/// Whether a name has a mail address. Takes no memory.
pub fn has_email<A: Allocator>(name: &Name<A>) -> bool
    ensures { result ≡ list_any set_has_email name.now }
{
    name.0.0.iter().any(|set| set_has_email(set.0.as_slice()))
}
