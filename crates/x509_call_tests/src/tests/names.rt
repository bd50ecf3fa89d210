//! Attributes and names: what is made and added, with requests for memory refused.

use super::Heap;
use super::checks::{clone_turn, granted, is_so, is_written, made_turn, same};
use refusing::{Refusing, Turn, in_turn};
use std::alloc::{AllocError, Allocator};
use std::process::Abort;
use x509_names::{AttributeTypeAndValue, DirectoryString, Name, NameAttr};
use x509_prim::{Ia5String, Ia5StringAsn1, Utf8String};

/// A text as a directory string.
fn text_of<A: Allocator>(alloc: A, text: &str) -> Result<DirectoryString<A>, AllocError> {
    let text = String::from_str(alloc, text)?;
    Ok(DirectoryString::Utf8String(Utf8String(text)))
}

/// The address `a@b`; none where memory is refused.
fn address<A: Allocator>(alloc: A) -> Option<Ia5StringAsn1<A>> {
    let text = String::from_str(alloc, "a@b").ok()?;
    match Ia5String::from_string(text) {
        Ok(address) => Some(Ia5StringAsn1::from(address)),
        Err(_refused) => None,
    }
}

/// What the maker of the attribute gives.
fn made<A: Allocator>(
    alloc: A,
    attr: &NameAttr,
    text: DirectoryString<A>,
) -> Result<AttributeTypeAndValue<A>, AllocError> {
    match attr {
        NameAttr::CommonName => AttributeTypeAndValue::new_common_name(alloc, text),
        NameAttr::Surname => AttributeTypeAndValue::new_surname(alloc, text),
        NameAttr::SerialNumber => AttributeTypeAndValue::new_serial_number(alloc, text),
        NameAttr::CountryName => AttributeTypeAndValue::new_country_name(alloc, text),
        NameAttr::LocalityName => AttributeTypeAndValue::new_locality_name(alloc, text),
        NameAttr::StateOrProvinceName => {
            AttributeTypeAndValue::new_state_or_province_name(alloc, text)
        }
        NameAttr::StreetName => AttributeTypeAndValue::new_street_name(alloc, text),
        NameAttr::OrganizationName => AttributeTypeAndValue::new_organization_name(alloc, text),
        NameAttr::OrganizationalUnitName => {
            AttributeTypeAndValue::new_organizational_unit_name(alloc, text)
        }
        NameAttr::GivenName => AttributeTypeAndValue::new_given_name(alloc, text),
        NameAttr::Phone => AttributeTypeAndValue::new_phone(alloc, text),
    }
}

/// The attributes, and the last arcs of their types below 2.5.4.
const ATTRS: &[(NameAttr, u8)] = &[
    (NameAttr::CommonName, 3),
    (NameAttr::Surname, 4),
    (NameAttr::SerialNumber, 5),
    (NameAttr::CountryName, 6),
    (NameAttr::LocalityName, 7),
    (NameAttr::StateOrProvinceName, 8),
    (NameAttr::StreetName, 9),
    (NameAttr::OrganizationName, 10),
    (NameAttr::OrganizationalUnitName, 11),
    (NameAttr::GivenName, 42),
    (NameAttr::Phone, 20),
];

/// What a run showed that should make the attribute `a` with this last arc.
fn attribute_turn<A: Allocator + Copy>(alloc: A, attr: &NameAttr, arc: u8) -> Turn {
    match text_of(alloc, "a") {
        Ok(text) => made_turn(
            made(alloc, attr, text),
            &[0x30, 8, 6, 3, 0x55, 4, arc, 0x0C, 1, 0x61],
        ),
        Err(AllocError) => Turn::Refused,
    }
}

/// What a run showed that should make the e-mail address `a@b`.
fn email_turn<A: Allocator + Copy>(alloc: A) -> Turn {
    let bytes = b"\x30\x10\x06\x09\x2A\x86\x48\x86\xF7\x0D\x01\x09\x01\x16\x03a@b".as_slice();
    match address(alloc) {
        Some(address) => {
            made_turn(
                AttributeTypeAndValue::new_email_address(alloc, address),
                bytes,
            )
        }
        None => Turn::Refused,
    }
}

/// Each is made by one request, for the text. The attributes themselves are cloned without memory.
fn attributes_are_made_over<A: Heap>(rt: &impl Abort, heap: A) {
    for (attr, arc) in ATTRS {
        let requests = in_turn!(heap, attribute_turn(heap, attr, *arc));
        same(rt, &requests, &Some(1), "requests");
        let copy: Result<NameAttr, AllocError> = attr.clone();
        is_so(rt, copy.as_ref() == Ok(attr), "the same attribute");
    }
    let requests = in_turn!(heap, email_turn(heap));
    same(rt, &requests, &Some(1), "an e-mail address");
}

#[test]
fn attributes_are_made(rt: HostRuntime) {
    let heap = Refusing::new(rt.alloc());
    attributes_are_made_over(&rt, &heap);
}

/// The name whose one attribute is the common name `a`.
const NAMED: &[u8] = b"\x30\x0C\x31\x0A\x30\x08\x06\x03\x55\x04\x03\x0C\x01a";

/// The same, with the telephone number `b`.
const WITH_PHONE: &[u8] = &[
    0x30, 0x18, 0x31, 0x0A, 0x30, 0x08, 0x06, 0x03, 0x55, 0x04, 0x03, 0x0C, 0x01, 0x61, 0x31, 0x0A,
    0x30, 0x08, 0x06, 0x03, 0x55, 0x04, 0x14, 0x0C, 0x01, 0x62,
];

/// The first name, with the e-mail address `a@b`.
const WITH_EMAIL: &[u8] = &[
    0x30, 0x20, 0x31, 0x0A, 0x30, 0x08, 0x06, 0x03, 0x55, 0x04, 0x03, 0x0C, 0x01, 0x61, 0x31, 0x12,
    0x30, 0x10, 0x06, 0x09, 0x2A, 0x86, 0x48, 0x86, 0xF7, 0x0D, 0x01, 0x09, 0x01, 0x16, 0x03, 0x61,
    0x40, 0x62,
];

/// What `new_common_name` of the text `a` gives.
fn named<A: Allocator + Copy>(alloc: A) -> Result<Name<A>, AllocError> {
    Name::new_common_name(alloc, text_of(alloc, "a")?)
}

/// What a call that should add to the name showed: the name as it was where memory was refused.
fn added_turn<A: Allocator>(answer: Result<(), AllocError>, name: &Name<A>, after: &[u8]) -> Turn {
    match answer {
        Ok(()) => Turn::right(is_written(name, after)),
        Err(AllocError) => Turn::stands(is_written(name, NAMED)),
    }
}

/// What a run showed that should add a telephone number.
fn phone_turn<A: Allocator + Copy>(alloc: A, name: &mut Name<A>) -> Turn {
    match text_of(alloc, "b") {
        Ok(text) => {
            let answer = name.add_attr(NameAttr::Phone, text);
            added_turn(answer, name, WITH_PHONE)
        }
        Err(AllocError) => Turn::Refused,
    }
}

/// A name takes three requests: for the text, the set and the list. An attribute is added behind what stands there, or
/// nothing is.
fn attributes_are_added_over<A: Heap>(rt: &impl Abort, heap: A) {
    let requests = in_turn!(heap, made_turn(named(heap), NAMED));
    same(rt, &requests, &Some(3), "a name");
    let mut name = granted(rt, named(heap));
    let requests = in_turn!(heap, phone_turn(heap, &mut name));
    is_so(rt, requests.is_some(), "a telephone number");
    drop(name);
    let mut name = granted(rt, named(heap));
    let email = address(heap).expect(rt, "memory");
    granted(rt, name.add_email(email));
    is_so(rt, is_written(&name, WITH_EMAIL), "an e-mail address");
    drop(name);
}

#[test]
fn attributes_are_added(rt: HostRuntime) {
    let heap = Refusing::new(rt.alloc());
    attributes_are_added_over(&rt, &heap);
}

/// A value by itself is cloned by one request.
fn values_are_cloned_over<A: Heap>(rt: &impl Abort, heap: A) {
    let text = text_of(heap, "a").expect(rt, "memory");
    let attribute = AttributeTypeAndValue::new_common_name(heap, text).expect(rt, "memory");
    let value = &attribute.value;
    let requests = in_turn!(heap, clone_turn(value.clone(), value));
    same(rt, &requests, &Some(1), "requests");
    drop(attribute);
}

#[test]
fn values_are_cloned(rt: HostRuntime) {
    let heap = Refusing::new(rt.alloc());
    values_are_cloned_over(&rt, &heap);
}
