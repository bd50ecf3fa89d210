//! Attributes of names: a type, and its value.

ghost use Rattle.std.specs.Prelude.{◌≡◌, refl, IfOk};
ghost use Rattle.x509_der.specs.Element.{element};
ghost use Rattle.x509_der.specs.laws.Structure.{structure_lawful, structure_element};
ghost use Rattle.x509_names.specs.Attributes.{attribute_parts, attribute_base, attribute, attribute_bytes};
ghost use Rattle.x509_names.specs.Attributes.{text_attribute as text_by_attr, email_attribute};
ghost use Rattle.x509_names.specs.facts.Attributes.{attribute_of, attribute_same};
ghost use Rattle.x509_names.specs.declared.name_attr.NameAttr.TheVariants as attr;

use crate::attribute_value::{known_value, text_value};
pub use crate::attribute_value::{AttributeKind, AttributeTypeAndValueParameters};
use crate::name_attr::{NameAttr, identifier_of};
use std::alloc::{AllocError, Allocator, Global};
use x509_der::parts::{
    DefinedBy, Field, One, Output, Reader, Ref, SEQUENCE_TAG, Sequence, Structure, Tagged,
    pass_sequence, put_element, read_sequence,
};
use x509_der::{CloneEq, FromDer, ObjectIdentifierAsn1, ReadError, SameEq, ToDer, TooLong};
use x509_names_parts::DirectoryString;
use x509_oids_objects as oids;
use x509_prim::Ia5StringAsn1;

/// An attribute of a name: its type, and its value, which the type says.
///
/// # Encoding
/// `SEQUENCE { type OBJECT IDENTIFIER, value ANY DEFINED BY type }` (RFC 5280, 4.1.2.4). It is written by its parts.
/// Where the value is of another kind than the type says, what is written is refused or read as another attribute.
#[derive(Drop)]
#[derive_where(Debug, PartialEq, Eq)]
#[derive_where(Clone; A: Copy)]
pub struct AttributeTypeAndValue<A: Allocator = Global> {
    /// The type.
    pub ty: ObjectIdentifierAsn1<A>,
    /// The value.
    pub value: AttributeTypeAndValueParameters<A>,
}

impl<A: Allocator + Copy> CloneEq for AttributeTypeAndValue<A> {
    ghost use Rattle.std.proofs.Common.{rules};

    ghost exact = { Prim.search (rules) };
}

impl<A: Allocator> SameEq for AttributeTypeAndValue<A> {
    fn decides() {
        ObjectIdentifierAsn1::<A>::decides();
        AttributeTypeAndValueParameters::<A>::decides();
    }
}

/// The attribute with its object identifier and a directory string.
///
/// # Errors
/// `AllocError` where memory is refused. The string is then dropped.
pub(crate) fn text_attribute<A: Allocator>(
    alloc: A,
    attr: NameAttr,
    text: DirectoryString<A>,
) -> Result<AttributeTypeAndValue<A>, AllocError>
    ensures { IfOk result (λ a. a ≡ text_by_attr attr text) }
{
    let identifier = identifier_of(alloc, &attr)?;
    Ok(AttributeTypeAndValue {
        ty: ObjectIdentifierAsn1(identifier),
        value: text_value(attr, text),
    })
}

impl<A: Allocator> AttributeTypeAndValue<A> {
    /// A common name: type 2.5.4.3.
    ///
    /// # Errors
    /// `AllocError` where memory is refused. The string is then dropped.
    pub fn new_common_name(alloc: A, text: DirectoryString<A>) -> Result<Self, AllocError>
        ensures { IfOk result (λ a. a ≡ text_by_attr attr.CommonName text) }
    {
        text_attribute(alloc, NameAttr::CommonName, text)
    }

    /// A surname: type 2.5.4.4.
    ///
    /// # Errors
    /// `AllocError` where memory is refused. The string is then dropped.
    pub fn new_surname(alloc: A, text: DirectoryString<A>) -> Result<Self, AllocError>
        ensures { IfOk result (λ a. a ≡ text_by_attr attr.Surname text) }
    {
        text_attribute(alloc, NameAttr::Surname, text)
    }

    /// A serial number: type 2.5.4.5.
    ///
    /// # Errors
    /// `AllocError` where memory is refused. The string is then dropped.
    pub fn new_serial_number(alloc: A, text: DirectoryString<A>) -> Result<Self, AllocError>
        ensures { IfOk result (λ a. a ≡ text_by_attr attr.SerialNumber text) }
    {
        text_attribute(alloc, NameAttr::SerialNumber, text)
    }

    /// A country: type 2.5.4.6.
    ///
    /// # Errors
    /// `AllocError` where memory is refused. The string is then dropped.
    pub fn new_country_name(alloc: A, text: DirectoryString<A>) -> Result<Self, AllocError>
        ensures { IfOk result (λ a. a ≡ text_by_attr attr.CountryName text) }
    {
        text_attribute(alloc, NameAttr::CountryName, text)
    }

    /// A locality: type 2.5.4.7.
    ///
    /// # Errors
    /// `AllocError` where memory is refused. The string is then dropped.
    pub fn new_locality_name(alloc: A, text: DirectoryString<A>) -> Result<Self, AllocError>
        ensures { IfOk result (λ a. a ≡ text_by_attr attr.LocalityName text) }
    {
        text_attribute(alloc, NameAttr::LocalityName, text)
    }

    /// A state or province: type 2.5.4.8.
    ///
    /// # Errors
    /// `AllocError` where memory is refused. The string is then dropped.
    pub fn new_state_or_province_name(
        alloc: A,
        text: DirectoryString<A>,
    ) -> Result<Self, AllocError>
        ensures { IfOk result (λ a. a ≡ text_by_attr attr.StateOrProvinceName text) }
    {
        text_attribute(alloc, NameAttr::StateOrProvinceName, text)
    }

    /// A street address: type 2.5.4.9.
    ///
    /// # Errors
    /// `AllocError` where memory is refused. The string is then dropped.
    pub fn new_street_name(alloc: A, text: DirectoryString<A>) -> Result<Self, AllocError>
        ensures { IfOk result (λ a. a ≡ text_by_attr attr.StreetName text) }
    {
        text_attribute(alloc, NameAttr::StreetName, text)
    }

    /// An organization: type 2.5.4.10.
    ///
    /// # Errors
    /// `AllocError` where memory is refused. The string is then dropped.
    pub fn new_organization_name(alloc: A, text: DirectoryString<A>) -> Result<Self, AllocError>
        ensures { IfOk result (λ a. a ≡ text_by_attr attr.OrganizationName text) }
    {
        text_attribute(alloc, NameAttr::OrganizationName, text)
    }

    /// An organizational unit: type 2.5.4.11.
    ///
    /// # Errors
    /// `AllocError` where memory is refused. The string is then dropped.
    pub fn new_organizational_unit_name(
        alloc: A,
        text: DirectoryString<A>,
    ) -> Result<Self, AllocError>
        ensures { IfOk result (λ a. a ≡ text_by_attr attr.OrganizationalUnitName text) }
    {
        text_attribute(alloc, NameAttr::OrganizationalUnitName, text)
    }

    /// A given name: type 2.5.4.42.
    ///
    /// # Errors
    /// `AllocError` where memory is refused. The string is then dropped.
    pub fn new_given_name(alloc: A, text: DirectoryString<A>) -> Result<Self, AllocError>
        ensures { IfOk result (λ a. a ≡ text_by_attr attr.GivenName text) }
    {
        text_attribute(alloc, NameAttr::GivenName, text)
    }

    /// A telephone number: type 2.5.4.20.
    ///
    /// # Errors
    /// `AllocError` where memory is refused. The string is then dropped.
    pub fn new_phone(alloc: A, text: DirectoryString<A>) -> Result<Self, AllocError>
        ensures { IfOk result (λ a. a ≡ text_by_attr attr.Phone text) }
    {
        text_attribute(alloc, NameAttr::Phone, text)
    }

    /// An e-mail address: type 1.2.840.113549.1.9.1. RFC 5280, 4.1.2.6, would have it in an alternative name.
    ///
    /// # Errors
    /// `AllocError` where memory is refused. The string is then dropped.
    pub fn new_email_address(alloc: A, address: Ia5StringAsn1<A>) -> Result<Self, AllocError>
        ensures { IfOk result (λ a. a ≡ email_attribute address) }
    {
        let identifier = oids::email_address(alloc)?;
        Ok(AttributeTypeAndValue {
            ty: ObjectIdentifierAsn1(identifier),
            value: AttributeTypeAndValueParameters::EmailAddress(address),
        })
    }
}

/// The fields in the SEQUENCE, owned.
type Inner<A> = One<DefinedBy<ObjectIdentifierAsn1<A>, AttributeTypeAndValueParameters<A>>>;

/// The fields, borrowed.
type Written<'a, A> = One<
    DefinedBy<Ref<'a, ObjectIdentifierAsn1<A>>, Ref<'a, AttributeTypeAndValueParameters<A>>>,
>;

/// The fields of an attribute, to be written.
fn written<A: Allocator>(value: &AttributeTypeAndValue<A>) -> Written<'_, A>
    ensures { result ≡ attribute_parts value.now }
{
    One(DefinedBy(Ref(&value.ty), Ref(&value.value)))
}

impl<A: Allocator> ToDer for AttributeTypeAndValue<A> {
    ghost strict = { λ v. element 48 (attribute_bytes v) };

    fn put<O: Output>(&self, out: &mut [u8], at: usize) -> Result<usize, TooLong> {
        put_element::<O, _>(SEQUENCE_TAG, &written(self), out, at)
    }
}

impl<A: Allocator> Structure<Inner<A>> for AttributeTypeAndValue<A> {
    ghost fields = { attribute_parts };

    fn from_fields(parts: Inner<A>) -> Self {
        let One(DefinedBy(ty, value)) = parts;
        AttributeTypeAndValue { ty, value }
    }

    ghost same = { attribute_same };

    ghost made = { λ f. (attribute_of f, refl) };
}

impl<A: Allocator + Copy> Field<A> for AttributeTypeAndValue<A> {
    ghost use Rattle.x509_names.specs.facts.AttributeFacts.{attribute_agrees};

    type Brief = ();

    ghost shape = { attribute };

    ghost brief = { λ v. tt };

    ghost lawful = { λ h. structure_lawful attribute_parts attribute_base attribute_same
        (⟦<Tagged<Sequence, Inner<A>> as Field<A>>⟧.lawful (tt, λ c h. refl)) };

    ghost elements = { λ h. structure_element attribute_parts attribute_base
        (⟦<Tagged<Sequence, Inner<A>> as Field<A>>⟧.elements tt) };

    ghost agrees = { attribute_agrees };

    fn starts(byte: u8) -> bool {
        byte == SEQUENCE_TAG
    }

    fn known(&self) {
        self.ty.known();
        known_value(&self.value);
    }

    fn read(alloc: A, reader: &mut Reader<'_, A>) -> Result<Self, ReadError> {
        read_sequence::<Self, Inner<A>, A>(alloc, reader)
    }

    fn pass(alloc: A, reader: &mut Reader<'_, A>) -> Result<(), ReadError> {
        pass_sequence::<Self, Inner<A>, A>(alloc, reader)
    }
}

impl<A: Allocator + Copy> FromDer<A> for AttributeTypeAndValue<A> {
    ghost stands_alone = { (tt, tt) };
}
