//! Which key signed a certificate.

ghost use Rattle.std.specs.Prelude.{◌≡◌, ◌&&◌, ℕ, nat_le, ◌<◌, Option, IfOk, IfSome, IfNone, None, refl};
ghost use Rattle.std.specs.Option.{option_copied};
ghost use Rattle.x509_der.specs.Items.{items};
ghost use Rattle.x509_der.specs.Reading.{Ready, Passes, thrifty};
ghost use Rattle.x509_der.specs.Lasts.{ascends};
ghost use Rattle.x509_der.specs.View.{if_found};
ghost use Rattle.x509_der.specs.laws.Meaning.{sequence_keeps, seen_lawful, seen_element};
ghost use Rattle.picky_asn1_x509_parts.specs.AuthorityKeyIdentifier.{Part, part, number, order_kinds, authority_of, authority_base, authority_meaning, authority_key_identifier, authority_bytes, with_part};
ghost use Rattle.picky_asn1_x509_parts.specs.facts.AuthorityKeyIdentifierFacts.{parts_apart, issuer_apart, authority_is, one_kind, authority_agrees};

use crate::key_identifier::KeyIdentifier;
use std::alloc::{Allocator, Global};
use std::marker::Model;
use x509_der::parts::{
    Choice, Content, ContextConstructed, ContextPrimitive, Field, Items, Join, Judge, One,
    Optional, Output, Reader, Ref, SEQUENCE_TAG, Sequence, Side, Tagged, ToContent, View,
    WholeDeviations, known_there, pass_side, pass_viewed, read_viewed,
};
use x509_der::{
    CloneEq, Deviation, FromDer, IntegerAsn1, OctetStringAsn1, ReadError, SameEq, ToDer, TooLong,
};
use x509_names::GeneralName;

/// Which key signed a certificate: by its identifier, or by a certificate of it, by who issued that and its serial
/// number. Each may be absent. Contracts see the three.
///
/// # Encoding
/// `AuthorityKeyIdentifier ::= SEQUENCE { keyIdentifier [0] KeyIdentifier OPTIONAL, authorityCertIssuer [1]
/// GeneralNames OPTIONAL, authorityCertSerialNumber [2] CertificateSerialNumber OPTIONAL }`, with implicit tags (RFC
/// 5280, 4.2.1.1). The `GeneralNames` are exactly one name.
///
/// Fields that repeat or stand in another order are read with the one deviation `AuthorityKeyFieldOrder`; of those with
/// one tag the last counts, and the others must be well formed too.
#[derive(Drop)]
#[derive_where(Debug, PartialEq, Eq)]
#[derive_where(Clone; A: Copy)]
pub struct AuthorityKeyIdentifier<A: Allocator = Global> {
    key_identifier: Option<KeyIdentifier<A>>,
    authority_cert_issuer: Option<GeneralName<A>>,
    authority_cert_serial_number: Option<IntegerAsn1<A>>,
}

impl<A: Allocator> Model for AuthorityKeyIdentifier<A> {
    ghost use Rattle.picky_asn1_x509_parts.specs.AuthorityKeyIdentifier.{KeyAuthority};

    ghost Value = { KeyAuthority A };

    ghost view = { λ v. record {
      key_identifier = v.key_identifier;
      issuer = v.authority_cert_issuer;
      serial_number = v.authority_cert_serial_number;
    } };

    ghost inverse = { λ v. record {
      key_identifier = v.key_identifier;
      authority_cert_issuer = v.issuer;
      authority_cert_serial_number = v.serial_number;
    } };
}

impl<A: Allocator> AuthorityKeyIdentifier<A> {
    /// These parts, of which each may be absent. Takes no memory.
    pub fn new(
        key_identifier: Option<KeyIdentifier<A>>,
        authority_cert_issuer: Option<GeneralName<A>>,
        authority_cert_serial_number: Option<IntegerAsn1<A>>,
    ) -> Self
        ensures { result ≡ record {
          key_identifier = key_identifier;
          issuer = authority_cert_issuer;
          serial_number = authority_cert_serial_number;
        } }
    {
        AuthorityKeyIdentifier {
            key_identifier,
            authority_cert_issuer,
            authority_cert_serial_number,
        }
    }

    /// The identifier of the key; `None` where the field is absent.
    pub fn key_identifier(&self) -> Option<&[u8]>
        ensures { option_copied result ≡ self.now.key_identifier }
    {
        match &self.key_identifier {
            None => None,
            Some(octets) => Some(octets.0.as_slice()),
        }
    }

    /// Who issued a certificate of the key; `None` where the field is absent.
    pub fn authority_cert_issuer(&self) -> Option<&GeneralName<A>>
        ensures { option_copied result ≡ self.now.issuer }
    {
        self.authority_cert_issuer.as_ref()
    }

    /// The serial number of that certificate; `None` where the field is absent.
    pub fn authority_cert_serial_number(&self) -> Option<&IntegerAsn1<A>>
        ensures { option_copied result ≡ self.now.serial_number }
    {
        self.authority_cert_serial_number.as_ref()
    }

    /// Takes one field more, in place of an earlier one with its tag.
    fn keep(&mut self, field: Part<A>)
        ensures { self.new ≡ with_part self.old field }
    {
        match field {
            Choice::First(key) => {
                put(&mut self.key_identifier, key.into_inner());
            }
            Choice::Second(Choice::First(issuer)) => {
                put(&mut self.authority_cert_issuer, issuer.into_value());
            }
            Choice::Second(Choice::Second(serial)) => {
                put(&mut self.authority_cert_serial_number, serial.into_inner());
            }
        }
    }
}

/// Sets a field that may be absent. What it held is let go here, where its type isn't known.
fn put<T: Drop>(field: &mut Option<T>, value: T)
    ensures { field.new ≡ Some value }
{
    *field = Some(value);
}

impl<A: Allocator + Copy> CloneEq for AuthorityKeyIdentifier<A> {
    ghost use Rattle.std.proofs.Common.{rules};

    ghost exact = { Prim.search (rules) };
}

impl<A: Allocator> SameEq for AuthorityKeyIdentifier<A> {
    fn decides() {
        Option::<KeyIdentifier<A>>::decides();
        Option::<GeneralName<A>>::decides();
        Option::<IntegerAsn1<A>>::decides();
    }
}

/// One field, by its tag.
type Part<A> = Choice<
    Tagged<ContextPrimitive<0>, KeyIdentifier<A>>,
    Choice<
        Tagged<ContextConstructed<1>, One<GeneralName<A>>>,
        Tagged<ContextPrimitive<2>, IntegerAsn1<A>>,
    >,
>;

/// The fields under the tags behind the first.
type OtherPart<A> = Choice<
    Tagged<ContextConstructed<1>, One<GeneralName<A>>>,
    Tagged<ContextPrimitive<2>, IntegerAsn1<A>>,
>;

/// Items under tags with numbers.
trait Numbered<A: Allocator>: Field<A> {
    /// The number of an item's tag.
    ghost number: { Self → ℕ };

    /// Goes past an item, and keeps the number of its tag.
    ///
    /// # Errors
    /// As the item.
    fn pass_numbered(alloc: A, reader: &mut Reader<'_, A>) -> Result<u8, ReadError>
        requires ready { Ready reader.old }
        requires fits { Self.fits }
        ensures passes { Passes (thrifty Self.shape) number reader.old reader.new result }
        ensures few { IfOk result (λ n. n < 3) };
}

impl<A: Allocator + Copy> Numbered<A> for Part<A> {
    ghost number = { number };

    fn pass_numbered(alloc: A, reader: &mut Reader<'_, A>) -> Result<u8, ReadError> {
        match pass_side::<Tagged<ContextPrimitive<0>, KeyIdentifier<A>>, OtherPart<A>, A>(
            alloc, reader,
        )? {
            Side::First(()) => Ok(0),
            Side::Second(true) => Ok(1),
            Side::Second(false) => Ok(2),
        }
    }
}

/// Goes past items up to the end of a content, and says whether the numbers of their tags are strictly ascending.
///
/// # Errors
/// As an item.
fn pass_ascending<T: Numbered<A>, A: Allocator + Copy>(
    alloc: A,
    reader: &mut Reader<'_, A>,
) -> Result<bool, ReadError>
    requires ready { Ready reader.old }
    requires fits { T.fits × T.alone }
    ensures { Passes (thrifty (items T.shape)) (ascends T.number) reader.old reader.new result }
{
    let mut least: u8 = 0;
    let mut sorted = true;
    'items: while !reader.is_empty() {
        let number = T::pass_numbered(alloc, reader)?;
        sorted = both(sorted, least, number);
        least = number + 1;
    }
    Ok(sorted)
}

/// Whether the numbers ascend with one more.
fn both(sorted: bool, least: u8, number: u8) -> bool
    ensures { result ≡ (sorted && nat_le least number) }
{
    sorted && least <= number
}

/// The fields that are read, in their order.
#[derive(Drop)]
struct Inner<A: Allocator>(Items<Part<A>, A>);

impl<A: Allocator> Model for Inner<A> {
    ghost use Rattle.std.specs.Prelude.{List};
    ghost use Rattle.picky_asn1_x509_parts.specs.AuthorityKeyIdentifier.{Part};

    ghost Value = { List (Part A) };

    ghost view = { λ p. p.0 };
}

impl<A: Allocator> ToContent for Inner<A> {
    ghost content = { λ v. (items part).strict v };

    fn put_content<O: Output>(&self, out: &mut [u8], at: usize) -> Result<usize, TooLong> {
        self.0.put_content::<O>(out, at)
    }
}

impl<A: Allocator + Copy> Content<A> for Inner<A> {
    type ContentBrief = bool;

    ghost content_shape = { items part };

    ghost content_brief = { ascends number };

    ghost content_lawful = { λ h. ⟦<Items<Part<A>, A> as Content<A>>⟧.content_lawful (
      (
        (tt, ((tt, tt), ((tt, tt), issuer_apart))),
        ((tt, (tt, tt)), parts_apart),
      ),
      (tt, (tt, tt)),
    ) };

    ghost content_agrees = { λ v. refl };

    fn known_content(&self) {
        self.0.known_content();
    }

    fn read_content(alloc: A, reader: &mut Reader<'_, A>) -> Result<Self, ReadError> {
        Ok(Inner(Items::read_content(alloc, reader)?))
    }

    fn pass_content(alloc: A, reader: &mut Reader<'_, A>) -> Result<bool, ReadError> {
        pass_ascending::<Part<A>, A>(alloc, reader)
    }
}

/// The fields in the SEQUENCE.
type Fields<A> = Tagged<Sequence, Inner<A>>;

/// The fields that are written, borrowed.
type Written<'a, A> = Tagged<
    Sequence,
    Join<
        Optional<Tagged<ContextPrimitive<0>, Ref<'a, KeyIdentifier<A>>>>,
        Join<
            Optional<Tagged<ContextConstructed<1>, One<Ref<'a, GeneralName<A>>>>>,
            One<Optional<Tagged<ContextPrimitive<2>, Ref<'a, IntegerAsn1<A>>>>>,
        >,
    >,
>;

/// The number of a field's tag.
fn number_of<A: Allocator>(field: &Part<A>) -> u8
    ensures number { result ≡ number field.now }
    ensures few { result < 3 }
{
    match field {
        Choice::First(_) => 0,
        Choice::Second(Choice::First(_)) => 1,
        Choice::Second(Choice::Second(_)) => 2,
    }
}

/// Whether the numbers of the fields' tags are strictly ascending.
fn are_ascending<A: Allocator>(fields: &[Part<A>]) -> bool
    ensures { result ≡ ascends number fields.now }
{
    let mut least: u8 = 0;
    'fields: for field in fields {
        let number = number_of(field);
        if number < least {
            return false;
        }
        least = number + 1;
    }
    true
}

/// The deviation of fields that repeat or are out of order.
fn disorder<A: Allocator>(fields: &[Part<A>]) -> Option<Deviation>
    ensures { if_found result ≡ order_kinds fields.now }
{
    if are_ascending(fields) {
        None
    } else {
        Some(Deviation::AuthorityKeyFieldOrder)
    }
}

/// The last field of each tag.
fn last_of_each<A: Allocator>(fields: Vec<Part<A>, A>) -> AuthorityKeyIdentifier<A>
    ensures { result ≡ authority_of fields.items }
{
    let mut value = AuthorityKeyIdentifier::new(None, None, None);
    'fields: for field in fields {
        value.keep(field);
    }
    value
}

/// The fields of an authority key identifier, to be written.
fn written<A: Allocator>(value: &AuthorityKeyIdentifier<A>) -> Written<'_, A>
    ensures { result ≡ (value.now.key_identifier, (value.now.issuer, value.now.serial_number)) }
{
    Tagged::new(Join(
        Optional::borrowed_content(&value.key_identifier),
        Join(
            Optional::borrowed_element(&value.authority_cert_issuer),
            One(Optional::borrowed_content(&value.authority_cert_serial_number)),
        ),
    ))
}

impl<A: Allocator> ToDer for AuthorityKeyIdentifier<A> {
    ghost strict = { λ v. authority_bytes v };

    fn put<O: Output>(&self, out: &mut [u8], at: usize) -> Result<usize, TooLong> {
        written(self).put::<O>(out, at)
    }
}

impl<A: Allocator + Copy> View<Fields<A>, A> for AuthorityKeyIdentifier<A> {
    ghost base = { authority_base };

    ghost view = { authority_meaning };

    ghost keeps = { sequence_keeps authority_meaning (items part)
        (⟦<Inner<A> as Content<A>>⟧.content_lawful tt) authority_is one_kind };

    fn meaning(_alloc: A, parts: Fields<A>) -> Result<(Self, WholeDeviations), ReadError> {
        let Inner(Items(fields)) = parts.into_inner();
        let found = WholeDeviations::of(disorder(fields.as_slice()));
        Ok((last_of_each(fields), found))
    }
}

impl<A: Allocator + Copy> Judge<Fields<A>, A> for AuthorityKeyIdentifier<A> {
    type Glimpse = bool;

    type Kept = ();

    ghost glimpse = { ascends number };

    ghost kept = { λ v. tt };

    fn judge(brief: bool) -> Result<((), WholeDeviations), ReadError> {
        if brief {
            Ok(((), WholeDeviations::Nothing))
        } else {
            Ok(((), WholeDeviations::One(Deviation::AuthorityKeyFieldOrder)))
        }
    }
}

impl<A: Allocator + Copy> Field<A> for AuthorityKeyIdentifier<A> {
    type Brief = ();

    ghost shape = { authority_key_identifier };

    ghost brief = { λ v. tt };

    ghost lawful = { λ h. seen_lawful authority_meaning authority_base ⟦<AuthorityKeyIdentifier<A> as View<Fields<A>, A>>⟧.keeps };

    ghost elements = { λ h. seen_element authority_meaning authority_base
        (⟦<Fields<A> as Field<A>>⟧.elements tt) authority_is };

    ghost agrees = { λ v. authority_agrees v };

    fn starts(byte: u8) -> bool {
        byte == SEQUENCE_TAG
    }

    fn known(&self) {
        known_there::<OctetStringAsn1<A>, A>(&self.key_identifier);
        known_there::<GeneralName<A>, A>(&self.authority_cert_issuer);
        known_there::<IntegerAsn1<A>, A>(&self.authority_cert_serial_number);
    }

    fn read(alloc: A, reader: &mut Reader<'_, A>) -> Result<Self, ReadError> {
        read_viewed::<Self, Fields<A>, A>(alloc, reader)
    }

    fn pass(alloc: A, reader: &mut Reader<'_, A>) -> Result<(), ReadError> {
        pass_viewed::<Self, Fields<A>, A>(alloc, reader)
    }
}

impl<A: Allocator + Copy> FromDer<A> for AuthorityKeyIdentifier<A> {
    ghost stands_alone = { (tt, tt) };
}
