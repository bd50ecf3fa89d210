//! Names: what subjects, issuers and directory entries are called.

ghost use Rattle.std.specs.Prelude.{◌≡◌, ◌++◌, ◌∷◌, [], IfOk, OnOk, OnErr, MatchOption, Some, None};
ghost use Rattle.x509_names.specs.Attributes.{text_attribute, email_attribute};
ghost use Rattle.x509_der.specs.Items.{no_items};
ghost use Rattle.x509_names.specs.Names.{name_content, name_bytes};
ghost use Rattle.x509_names.specs.CommonNames.{common_name_of, first_of_set, first_common_name};
ghost use Rattle.x509_names.specs.declared.name_attr.NameAttr.TheVariants as attr;

use crate::attribute_type_and_value::{
    AttributeTypeAndValue, AttributeTypeAndValueParameters, text_attribute,
};
pub use crate::name_attr::NameAttr;
use std::alloc::{AllocError, Allocator, Global};
use std::marker::Model;
use x509_der::parts::{Content, FromContent, Output, OwnTag, Reader, Sequence, ToContent};
use x509_der::{Asn1SequenceOf, Asn1SetOf, CloneEq, ReadError, SameEq, TooLong};
use x509_names_parts::DirectoryString;
use x509_prim::Ia5StringAsn1;

/// The sets of attributes of a name, in order.
///
/// # Encoding
/// `RDNSequence ::= SEQUENCE OF RelativeDistinguishedName` (RFC 5280, 4.1.2.4).
pub type RdnSequence<A = Global> = Asn1SequenceOf<RelativeDistinguishedName<A>, A>;

/// A set of attributes, mostly of one. Its order is kept, and an empty one is read.
///
/// # Encoding
/// `RelativeDistinguishedName ::= SET SIZE (1..MAX) OF AttributeTypeAndValue` (RFC 5280, 4.1.2.4).
pub type RelativeDistinguishedName<A = Global> = Asn1SetOf<AttributeTypeAndValue<A>, A>;

/// A name in an alternative name (RFC 5280, 4.2.1.6).
pub type DirectoryName<A = Global> = Name<A>;

/// A name: sets of attributes, in order. It may be empty. Contracts see the list of the sets.
///
/// # Encoding
/// `Name ::= CHOICE { rdnSequence RDNSequence }` (RFC 5280, 4.1.2.4): tag 30, and the sets one behind another.
#[derive(Drop)]
#[derive_where(Debug, PartialEq, Eq)]
#[derive_where(Clone; A: Copy)]
pub struct Name<A: Allocator = Global>(pub RdnSequence<A>);

impl<A: Allocator> Model for Name<A> {
    ghost use Rattle.x509_names.specs.Names.{Sets};

    ghost Value = { Sets A };

    ghost view = { λ n. n.0 };

    ghost inverse = { λ sets. record { 0 = sets } };
}

impl<A: Allocator> Name<A> {
    /// The empty name. Takes no memory.
    pub fn new(alloc: A) -> Self
        ensures { result ≡ [] }
    {
        Name(Asn1SequenceOf(Vec::new(alloc)))
    }

    /// The first common name: the directory string of the first `CommonName` among all attributes of all sets, in
    /// order, whatever their types are. Takes no memory.
    pub fn find_common_name(&self) -> Option<&DirectoryString<A>>
        ensures { MatchOption result (first_common_name self.now ≡ None)
            (λ text. first_common_name self.now ≡ Some text.now) }
    {
        for set in &self.0.0 {
            if let Some(text) = common_name_in(&set.0) {
                return Some(text);
            }
        }
        None
    }
}

/// The first common name of a set.
fn common_name_in<A: Allocator>(set: &[AttributeTypeAndValue<A>]) -> Option<&DirectoryString<A>>
    ensures { MatchOption result (first_of_set set.now ≡ None)
        (λ text. first_of_set set.now ≡ Some text.now) }
{
    for attribute in set {
        if let Some(text) = common_name(&attribute.value) {
            return Some(text);
        }
    }
    None
}

/// The directory string of a value, if it is a common name.
fn common_name<A: Allocator>(
    value: &AttributeTypeAndValueParameters<A>,
) -> Option<&DirectoryString<A>>
    ensures { MatchOption result (common_name_of value.now ≡ None)
        (λ text. common_name_of value.now ≡ Some text.now) }
{
    match value {
        AttributeTypeAndValueParameters::CommonName(text) => Some(text),
        _ => None,
    }
}

impl<A: Allocator + Copy> Name<A> {
    /// A name of one set with one attribute, a common name.
    ///
    /// # Errors
    /// `AllocError` where memory is refused. The string is then dropped.
    pub fn new_common_name(alloc: A, text: DirectoryString<A>) -> Result<Self, AllocError>
        ensures { IfOk result (λ n. n ≡ (text_attribute attr.CommonName text ∷ []) ∷ []) }
    {
        let mut name = Name::new(alloc);
        name.add_attr(NameAttr::CommonName, text)?;
        Ok(name)
    }

    /// Adds a set of one attribute at the end.
    ///
    /// # Errors
    /// `AllocError` where memory is refused. The name is as it was, and the string is dropped.
    pub fn add_attr(&mut self, attr: NameAttr, text: DirectoryString<A>) -> Result<(), AllocError>
        ensures ok { OnOk result (self.new ≡ self.old ++ (text_attribute attr text ∷ []) ∷ []) }
        ensures err { OnErr result (self.new ≡ self.old) }
    {
        let attribute = text_attribute(self.allocator(), attr, text)?;
        self.add(attribute)
    }

    /// Adds a set of one e-mail address at the end. RFC 5280, 4.1.2.6, would have it in an alternative name instead.
    ///
    /// # Errors
    /// `AllocError` where memory is refused. The name is as it was, and the address is dropped.
    pub fn add_email(&mut self, address: Ia5StringAsn1<A>) -> Result<(), AllocError>
        ensures ok { OnOk result (self.new ≡ self.old ++ (email_attribute address ∷ []) ∷ []) }
        ensures err { OnErr result (self.new ≡ self.old) }
    {
        let email = AttributeTypeAndValue::new_email_address(self.allocator(), address)?;
        self.add(email)
    }

    /// The allocator of the list of sets.
    fn allocator(&self) -> A {
        *self.0.0.allocator()
    }

    /// Adds a set of one attribute at the end.
    fn add(&mut self, attribute: AttributeTypeAndValue<A>) -> Result<(), AllocError>
        ensures ok { OnOk result (self.new ≡ self.old ++ (attribute ∷ []) ∷ []) }
        ensures err { OnErr result (self.new ≡ self.old) }
    {
        let set = Asn1SetOf::of_one(self.allocator(), attribute)?;
        self.0.0.push(set)?;
        Ok(())
    }
}

impl<A: Allocator + Copy> CloneEq for Name<A> {
    ghost use Rattle.std.proofs.Common.{rules};

    ghost exact = { Prim.search (rules) };
}

impl<A: Allocator> SameEq for Name<A> {
    fn decides() {
        RdnSequence::<A>::decides();
    }
}

impl<A: Allocator> ToContent for Name<A> {
    ghost content = { name_bytes };

    fn put_content<O: Output>(&self, out: &mut [u8], at: usize) -> Result<usize, TooLong> {
        self.0.put_content::<O>(out, at)
    }
}

impl<A: Allocator + Copy> Content<A> for Name<A> {
    ghost use Rattle.x509_names.specs.facts.NameFacts.{content_agrees};

    type ContentBrief = bool;

    ghost content_shape = { name_content };

    ghost content_brief = { no_items };

    ghost content_lawful = { λ h. ⟦<RdnSequence<A> as Content<A>>⟧.content_lawful ((tt, tt), tt) };

    ghost content_agrees = { content_agrees };

    fn known_content(&self) {
        self.0.known_content();
    }

    fn read_content(alloc: A, reader: &mut Reader<'_, A>) -> Result<Self, ReadError> {
        let sets = RdnSequence::read_content(alloc, reader)?;
        Ok(Name(sets))
    }

    fn pass_content(alloc: A, reader: &mut Reader<'_, A>) -> Result<bool, ReadError> {
        RdnSequence::<A>::pass_content(alloc, reader)
    }
}

impl<A: Allocator + Copy> FromContent<A> for Name<A> {
    ghost content_always = { tt };
}

impl<A: Allocator> OwnTag for Name<A> {
    type Tag = Sequence;
}
