//! Values of attributes of names, each of the kind that the attribute's type says.

ghost use Rattle.std.specs.Prelude.{◌≡◌, true, false, refl};
ghost use Rattle.x509_der.specs.Reading.{Ready, Reads, Passes, thrifty};
ghost use Rattle.x509_names.specs.Attributes.{kind_of as kind_by, held as held_by};
ghost use Rattle.x509_names.specs.Attributes.{text_value as text_by, value_bytes, IsValue, by_kind};

use crate::name_attr::{NameAttr, attr_of};
use std::alloc::{Allocator, Global};
use x509_der::parts::{AnyDefinedBy, Choice, Field, OidRef, Output, Reader, Ref, pass_oid};
use x509_der::{Asn1RawDer, CloneEq, ObjectIdentifierAsn1, ReadError, SameEq, ToDer, TooLong};
use x509_names_parts::DirectoryString;
use x509_prim::Ia5StringAsn1;

/// The value of an attribute, by its type (RFC 5280, 4.1.2.4 and appendix A.1; X.520).
#[derive(Drop)]
#[derive_where(Debug, PartialEq, Eq)]
#[derive_where(Clone; A: Copy)]
pub enum AttributeTypeAndValueParameters<A: Allocator = Global> {
    /// Of `id-at-commonName`, 2.5.4.3.
    CommonName(DirectoryString<A>),
    /// Of `id-at-surname`, 2.5.4.4.
    Surname(DirectoryString<A>),
    /// Of `id-at-serialNumber`, 2.5.4.5.
    SerialNumber(DirectoryString<A>),
    /// Of `id-at-countryName`, 2.5.4.6.
    CountryName(DirectoryString<A>),
    /// Of `id-at-localityName`, 2.5.4.7.
    LocalityName(DirectoryString<A>),
    /// Of `id-at-stateOrProvinceName`, 2.5.4.8.
    StateOrProvinceName(DirectoryString<A>),
    /// Of `id-at-streetAddress`, 2.5.4.9.
    StreetName(DirectoryString<A>),
    /// Of `id-at-organizationName`, 2.5.4.10.
    OrganizationName(DirectoryString<A>),
    /// Of `id-at-organizationalUnitName`, 2.5.4.11.
    OrganizationalUnitName(DirectoryString<A>),
    /// Of `id-emailAddress`, 1.2.840.113549.1.9.1.
    EmailAddress(Ia5StringAsn1<A>),
    /// Of `id-at-givenName`, 2.5.4.42.
    GivenName(DirectoryString<A>),
    /// Of `id-at-telephoneNumber`, 2.5.4.20.
    Phone(DirectoryString<A>),
    /// Of any other type: one element, which isn't looked into.
    Custom(Asn1RawDer<A>),
}

impl<A: Allocator + Copy> CloneEq for AttributeTypeAndValueParameters<A> {
    ghost use Rattle.std.proofs.Common.{rules};

    ghost exact = { Prim.search (rules) };
}

impl<A: Allocator> SameEq for AttributeTypeAndValueParameters<A> {
    fn decides() {
        DirectoryString::<A>::decides();
        Ia5StringAsn1::<A>::decides();
        Asn1RawDer::<A>::decides();
    }
}

/// What an object identifier says of the value.
#[derive(Clone, Copy, Debug, Drop)]
pub enum AttributeKind {
    /// A directory string, of this attribute.
    Text(NameAttr),
    /// An IA5String: an e-mail address.
    Email,
    /// Any element.
    Other,
}

/// The content of the object identifier of an e-mail address, 1.2.840.113549.1.9.1.
const EMAIL: &'static [u8] = &[0x2A, 0x86, 0x48, 0x86, 0xF7, 0x0D, 1, 9, 1];

/// The kind of value that an object identifier says. Contents are compared, and no arcs are decoded.
#[tactic(auto, unfolding(x509_der::specs::ObjectIdentifier::numbers_from))]
fn kind_of(identifier: &OidRef<'_>) -> AttributeKind
    ensures { result ≡ kind_by identifier.now }
{
    if let Some(attr) = attr_of(identifier) {
        return AttributeKind::Text(attr);
    }
    if identifier.is_content(EMAIL) {
        AttributeKind::Email
    } else {
        AttributeKind::Other
    }
}

/// The value of an attribute that is a directory string.
pub(crate) fn text_value<A: Allocator>(
    attr: NameAttr,
    text: DirectoryString<A>,
) -> AttributeTypeAndValueParameters<A>
    ensures { result ≡ text_by attr text }
{
    match attr {
        NameAttr::CommonName => AttributeTypeAndValueParameters::CommonName(text),
        NameAttr::Surname => AttributeTypeAndValueParameters::Surname(text),
        NameAttr::SerialNumber => AttributeTypeAndValueParameters::SerialNumber(text),
        NameAttr::CountryName => AttributeTypeAndValueParameters::CountryName(text),
        NameAttr::LocalityName => AttributeTypeAndValueParameters::LocalityName(text),
        NameAttr::StateOrProvinceName => AttributeTypeAndValueParameters::StateOrProvinceName(text),
        NameAttr::StreetName => AttributeTypeAndValueParameters::StreetName(text),
        NameAttr::OrganizationName => AttributeTypeAndValueParameters::OrganizationName(text),
        NameAttr::OrganizationalUnitName => {
            AttributeTypeAndValueParameters::OrganizationalUnitName(text)
        }
        NameAttr::GivenName => AttributeTypeAndValueParameters::GivenName(text),
        NameAttr::Phone => AttributeTypeAndValueParameters::Phone(text),
    }
}

/// What a value holds, to be written.
type Held<'a, A> = Choice<
    Ref<'a, DirectoryString<A>>,
    Choice<Ref<'a, Ia5StringAsn1<A>>, Ref<'a, Asn1RawDer<A>>>,
>;

/// What a value holds.
fn held<A: Allocator>(value: &AttributeTypeAndValueParameters<A>) -> Held<'_, A>
    ensures { result ≡ held_by value.now }
{
    match value {
        AttributeTypeAndValueParameters::CommonName(text)
        | AttributeTypeAndValueParameters::Surname(text)
        | AttributeTypeAndValueParameters::SerialNumber(text)
        | AttributeTypeAndValueParameters::CountryName(text)
        | AttributeTypeAndValueParameters::LocalityName(text)
        | AttributeTypeAndValueParameters::StateOrProvinceName(text)
        | AttributeTypeAndValueParameters::StreetName(text)
        | AttributeTypeAndValueParameters::OrganizationName(text)
        | AttributeTypeAndValueParameters::OrganizationalUnitName(text)
        | AttributeTypeAndValueParameters::GivenName(text)
        | AttributeTypeAndValueParameters::Phone(text) => Choice::First(Ref(text)),
        AttributeTypeAndValueParameters::EmailAddress(address) => {
            Choice::Second(Choice::First(Ref(address)))
        }
        AttributeTypeAndValueParameters::Custom(element) => {
            Choice::Second(Choice::Second(Ref(element)))
        }
    }
}

impl<A: Allocator> ToDer for AttributeTypeAndValueParameters<A> {
    ghost strict = { value_bytes };

    fn put<O: Output>(&self, out: &mut [u8], at: usize) -> Result<usize, TooLong> {
        held(self).put::<O>(out, at)
    }
}

/// Says that the value is one of its type. It does nothing when it runs.
pub(crate) fn known_value<A: Allocator + Copy>(value: &AttributeTypeAndValueParameters<A>)
    ensures { IsValue value.now }
{
    match value {
        AttributeTypeAndValueParameters::CommonName(text)
        | AttributeTypeAndValueParameters::Surname(text)
        | AttributeTypeAndValueParameters::SerialNumber(text)
        | AttributeTypeAndValueParameters::CountryName(text)
        | AttributeTypeAndValueParameters::LocalityName(text)
        | AttributeTypeAndValueParameters::StateOrProvinceName(text)
        | AttributeTypeAndValueParameters::StreetName(text)
        | AttributeTypeAndValueParameters::OrganizationName(text)
        | AttributeTypeAndValueParameters::OrganizationalUnitName(text)
        | AttributeTypeAndValueParameters::GivenName(text)
        | AttributeTypeAndValueParameters::Phone(text) => text.known(),
        AttributeTypeAndValueParameters::EmailAddress(address) => address.known(),
        AttributeTypeAndValueParameters::Custom(element) => element.known(),
    }
}

/// Reads a value of a kind.
///
/// # Errors
/// Refused where no value of the kind stands there, or memory is refused.
fn read_as<A: Allocator + Copy>(
    alloc: A,
    kind: AttributeKind,
    reader: &mut Reader<'_, A>,
) -> Result<AttributeTypeAndValueParameters<A>, ReadError>
    requires { Ready reader.old }
    ensures { Reads (by_kind kind) reader.old reader.new result }
{
    match kind {
        AttributeKind::Text(attr) => {
            let text = DirectoryString::read(alloc, reader)?;
            Ok(text_value(attr, text))
        }
        AttributeKind::Email => {
            let address = Ia5StringAsn1::read(alloc, reader)?;
            Ok(AttributeTypeAndValueParameters::EmailAddress(address))
        }
        AttributeKind::Other => {
            let element = Asn1RawDer::read(alloc, reader)?;
            Ok(AttributeTypeAndValueParameters::Custom(element))
        }
    }
}

/// Goes past a value of a kind.
///
/// # Errors
/// Refused where no value of the kind stands there.
fn pass_as<A: Allocator + Copy>(
    alloc: A,
    kind: AttributeKind,
    reader: &mut Reader<'_, A>,
) -> Result<(), ReadError>
    requires { Ready reader.old }
    ensures { Passes (thrifty (by_kind {A = A} kind)) (λ v. tt) reader.old reader.new result }
{
    match kind {
        AttributeKind::Text(_attr) => DirectoryString::pass(alloc, reader),
        AttributeKind::Email => Ia5StringAsn1::pass(alloc, reader),
        AttributeKind::Other => Asn1RawDer::pass(alloc, reader),
    }
}

impl<A: Allocator + Copy> AnyDefinedBy<ObjectIdentifierAsn1<A>, A>
    for AttributeTypeAndValueParameters<A> {
    ghost use Rattle.x509_names.specs.facts.AttributeFacts.{value_family, value_agrees};

    type Kind = AttributeKind;

    type BriefBehind = ();

    ghost shapes = { λ arcs. by_kind (kind_by arcs) };

    ghost kind = { kind_by };

    ghost brief_behind = { λ v. tt };

    ghost starts = { λ b. true };

    ghost avoids = { λ b. false };

    ghost family = { value_family (⟦<DirectoryString<A> as Field<A>>⟧.lawful tt) (λ c. refl) };

    ghost shapes_agree = { λ arcs v. value_agrees (kind_by arcs) v };

    fn starts(_byte: u8) -> bool {
        true
    }

    fn known_behind(&self, _key: &ObjectIdentifierAsn1<A>) {
        known_value(self);
    }

    fn read_behind(
        alloc: A,
        key: &ObjectIdentifierAsn1<A>,
        reader: &mut Reader<'_, A>,
    ) -> Result<Self, ReadError> {
        read_as(alloc, kind_of(&key.0.lent()), reader)
    }

    fn pass_key(_alloc: A, reader: &mut Reader<'_, A>) -> Result<AttributeKind, ReadError> {
        let identifier = pass_oid(reader)?;
        Ok(kind_of(&identifier))
    }

    fn pass_behind(
        alloc: A,
        chosen: AttributeKind,
        reader: &mut Reader<'_, A>,
    ) -> Result<(), ReadError> {
        pass_as(alloc, chosen, reader)
    }
}
