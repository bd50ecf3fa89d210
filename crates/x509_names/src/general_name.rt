//! General names: what alternative names, key identifiers and other extensions hold.

ghost use Rattle.std.specs.Prelude.{◌≡◌, ℕ, List, refl};
ghost use Rattle.x509_der.specs.Types.{Choice as fields};
ghost use Rattle.x509_der.specs.Choice.{choice, is_first};
ghost use Rattle.x509_der.specs.Reading.{Ready, Reads, Passes, thrifty};
ghost use Rattle.x509_der.specs.Tally.{Tally};
ghost use Rattle.x509_der.specs.View.{seen};
ghost use Rattle.x509_names.specs.declared.general_name.GeneralName.TheVariants as form;
ghost use Rattle.x509_names.specs.GeneralNames.{strict_name, loose_name, general_base, general_meaning};
ghost use Rattle.x509_names.specs.GeneralNames.{general_name as general_names};
ghost use Rattle.x509_names.specs.facts.GeneralNames.{general_keeps, general_lawful, general_element};

use crate::edi_party_name::EdiPartyName;
use crate::name::Name;
use crate::other_name::OtherName;
use std::alloc::{Allocator, Global};
use x509_der::parts::Choice::{First, Second};
use x509_der::parts::{
    Choice, Content, ContextConstructed, ContextPrimitive, Field, Judge, One, Output, Reader, Ref,
    Tagged, View, WholeDeviations, pass_viewed, put_element, read_viewed,
};
use x509_der::{
    Asn1SequenceOf, CloneEq, Deviation, FromDer, ObjectIdentifierAsn1, OctetStringAsn1, ReadError,
    SameEq, ToDer, TooLong,
};
use x509_names_parts::DirectoryString;
use x509_prim::Ia5StringAsn1;

/// A list of general names.
///
/// # Encoding
/// `GeneralNames ::= SEQUENCE SIZE (1..MAX) OF GeneralName` (RFC 5280, 4.2.1.6). An empty list is read too.
pub type GeneralNames<A = Global> = Asn1SequenceOf<GeneralName<A>, A>;

/// A name in one of eight forms, told apart by the tag (RFC 5280, 4.2.1.6).
///
/// # Encoding
/// `GeneralName ::= CHOICE { otherName [0] OtherName, rfc822Name [1] IA5String, dNSName [2] IA5String, directoryName
/// [4] Name, ediPartyName [5] EDIPartyName, uniformResourceIdentifier [6] IA5String, iPAddress [7] OCTET STRING,
/// registeredID [8] OBJECT IDENTIFIER }`, with implicit tags but for the 4, which is explicit, since a `Name` is a
/// choice. The standard's `x400Address [3]` is refused.
///
/// The forms under 1, 2, 6, 7 and 8 are also read under the explicit tag, and a `Name` under the byte 84 with its
/// content alone, each with the deviation `GeneralNameForm`.
#[derive(Drop)]
#[derive_where(Debug, PartialEq, Eq)]
#[derive_where(Clone; A: Copy)]
pub enum GeneralName<A: Allocator = Global> {
    /// A name of the form that an object identifier tells.
    OtherName(OtherName<A>),
    /// A mail address (RFC 5280, 4.2.1.6; RFC 2821). What stands in it isn't looked at.
    Rfc822Name(Ia5StringAsn1<A>),
    /// A name of the domain name system. What stands in it isn't looked at.
    DnsName(Ia5StringAsn1<A>),
    /// A name of the directory.
    DirectoryName(Name<A>),
    /// A party to electronic data interchange.
    EdiPartyName(EdiPartyName<A>),
    /// A URI. What stands in it isn't looked at.
    Uri(Ia5StringAsn1<A>),
    /// An address of the internet protocol, in network byte order: 4 or 16 bytes by the standard, and any number here.
    IpAddress(OctetStringAsn1<A>),
    /// A registered object identifier.
    RegisteredId(ObjectIdentifierAsn1<A>),
}

impl<A: Allocator> GeneralName<A> {
    /// A party to electronic data interchange, and who named it, where that is to be said. Takes no memory.
    pub fn new_edi_party_name(
        party_name: DirectoryString<A>,
        name_assigner: Option<DirectoryString<A>>,
    ) -> Self
        ensures { result ≡ form.EdiPartyName (record {
          name_assigner = name_assigner;
          party_name = party_name;
        }) }
    {
        GeneralName::EdiPartyName(EdiPartyName {
            name_assigner,
            party_name,
        })
    }
}

impl<A: Allocator> From<Name<A>> for GeneralName<A> {
    ghost from_gives = { λ name general. general ≡ form.DirectoryName name };

    fn from(name: Name<A>) -> Self {
        GeneralName::DirectoryName(name)
    }
}

impl<A: Allocator + Copy> CloneEq for GeneralName<A> {
    ghost use Rattle.std.proofs.Common.{rules};

    ghost exact = { Prim.search (rules) };
}

impl<A: Allocator> SameEq for GeneralName<A> {
    fn decides() {
        OtherName::<A>::decides();
        Ia5StringAsn1::<A>::decides();
        Name::<A>::decides();
        EdiPartyName::<A>::decides();
        OctetStringAsn1::<A>::decides();
        ObjectIdentifierAsn1::<A>::decides();
    }
}

/// The alternatives that are written, the first half of them.
type StrictFront<A> = Choice<
    Choice<
        Tagged<ContextConstructed<0>, OtherName<A>>,
        Tagged<ContextPrimitive<1>, Ia5StringAsn1<A>>,
    >,
    Choice<
        Tagged<ContextPrimitive<2>, Ia5StringAsn1<A>>,
        Tagged<ContextConstructed<4>, One<Name<A>>>,
    >,
>;

/// The other half.
type StrictBack<A> = Choice<
    Choice<
        Tagged<ContextConstructed<5>, EdiPartyName<A>>,
        Tagged<ContextPrimitive<6>, Ia5StringAsn1<A>>,
    >,
    Choice<
        Tagged<ContextPrimitive<7>, OctetStringAsn1<A>>,
        Tagged<ContextPrimitive<8>, ObjectIdentifierAsn1<A>>,
    >,
>;

/// The alternatives that are written.
type Strict<A> = Choice<StrictFront<A>, StrictBack<A>>;

/// The alternatives that are deviations, the first two of them.
type LooseFront<A> = Choice<
    Tagged<ContextConstructed<1>, One<Ia5StringAsn1<A>>>,
    Tagged<ContextConstructed<2>, One<Ia5StringAsn1<A>>>,
>;

/// The other four.
type LooseBack<A> = Choice<
    Choice<
        Tagged<ContextConstructed<6>, One<Ia5StringAsn1<A>>>,
        Tagged<ContextConstructed<7>, One<OctetStringAsn1<A>>>,
    >,
    Choice<
        Tagged<ContextConstructed<8>, One<ObjectIdentifierAsn1<A>>>,
        Tagged<ContextPrimitive<4>, Name<A>>,
    >,
>;

/// The alternatives that are deviations.
type Loose<A> = Choice<LooseFront<A>, LooseBack<A>>;

/// All alternatives.
type Fields<A> = Choice<Strict<A>, Loose<A>>;

/// The general name of an alternative that is written.
fn from_strict<A: Allocator>(parts: Strict<A>) -> GeneralName<A>
    ensures { result ≡ strict_name parts }
{
    match parts {
        First(First(First(name))) => GeneralName::OtherName(name.into_inner()),
        First(First(Second(text))) => GeneralName::Rfc822Name(text.into_inner()),
        First(Second(First(text))) => GeneralName::DnsName(text.into_inner()),
        First(Second(Second(name))) => GeneralName::DirectoryName(name.into_value()),
        Second(First(First(name))) => GeneralName::EdiPartyName(name.into_inner()),
        Second(First(Second(text))) => GeneralName::Uri(text.into_inner()),
        Second(Second(First(octets))) => GeneralName::IpAddress(octets.into_inner()),
        Second(Second(Second(id))) => GeneralName::RegisteredId(id.into_inner()),
    }
}

/// The general name of an alternative that is a deviation.
fn from_loose<A: Allocator>(parts: Loose<A>) -> GeneralName<A>
    ensures { result ≡ loose_name parts }
{
    match parts {
        First(First(text)) => GeneralName::Rfc822Name(text.into_value()),
        First(Second(text)) => GeneralName::DnsName(text.into_value()),
        Second(First(First(text))) => GeneralName::Uri(text.into_value()),
        Second(First(Second(octets))) => GeneralName::IpAddress(octets.into_value()),
        Second(Second(First(id))) => GeneralName::RegisteredId(id.into_value()),
        Second(Second(Second(name))) => GeneralName::DirectoryName(name.into_inner()),
    }
}

/// The tags that the forms are written under.
const OTHER_NAME: u8 = 0xA0;

const RFC822_NAME: u8 = 0x81;

const DNS_NAME: u8 = 0x82;

const DIRECTORY_NAME: u8 = 0xA4;

const EDI_PARTY_NAME: u8 = 0xA5;

const URI: u8 = 0x86;

const IP_ADDRESS: u8 = 0x87;

const REGISTERED_ID: u8 = 0x88;

impl<A: Allocator> ToDer for GeneralName<A> {
    ghost strict = { λ v. general_names.strict v };

    fn put<O: Output>(&self, out: &mut [u8], at: usize) -> Result<usize, TooLong> {
        match self {
            GeneralName::OtherName(name) => put_element::<O, _>(OTHER_NAME, name, out, at),
            GeneralName::Rfc822Name(text) => put_element::<O, _>(RFC822_NAME, text, out, at),
            GeneralName::DnsName(text) => put_element::<O, _>(DNS_NAME, text, out, at),
            GeneralName::DirectoryName(name) => put_element::<O, _>(
                DIRECTORY_NAME,
                &One(Ref(name)),
                out,
                at,
            ),
            GeneralName::EdiPartyName(name) => put_element::<O, _>(EDI_PARTY_NAME, name, out, at),
            GeneralName::Uri(text) => put_element::<O, _>(URI, text, out, at),
            GeneralName::IpAddress(octets) => put_element::<O, _>(IP_ADDRESS, octets, out, at),
            GeneralName::RegisteredId(id) => put_element::<O, _>(REGISTERED_ID, id, out, at),
        }
    }
}

impl<A: Allocator + Copy> View<Fields<A>, A> for GeneralName<A> {
    ghost base = { general_base };

    ghost view = { general_meaning };

    ghost keeps = { general_keeps (record {
      other = ⟦<OtherName<A> as Content<A>>⟧.content_lawful tt;
      names = ⟦<Name<A> as Content<A>>⟧.content_lawful tt;
      edi = ⟦<EdiPartyName<A> as Content<A>>⟧.content_lawful tt;
    }) };

    fn meaning(_alloc: A, parts: Fields<A>) -> Result<(Self, WholeDeviations), ReadError> {
        match parts {
            First(strict) => Ok((from_strict(strict), WholeDeviations::Nothing)),
            Second(loose) => Ok((
                from_loose(loose),
                WholeDeviations::One(Deviation::GeneralNameForm),
            )),
        }
    }
}

impl<A: Allocator + Copy> Judge<Fields<A>, A> for GeneralName<A> {
    type Glimpse = bool;

    type Kept = ();

    ghost glimpse = { is_first };

    ghost kept = { λ v. tt };

    fn judge(brief: bool) -> Result<((), WholeDeviations), ReadError> {
        if brief {
            Ok(((), WholeDeviations::Nothing))
        } else {
            Ok(((), WholeDeviations::One(Deviation::GeneralNameForm)))
        }
    }
}

/// One of four fields.
type OfFour<F, G, H, I> = Choice<Choice<F, G>, Choice<H, I>>;

/// Reads a value by way of what one of four fields means: over any four, so that a proof about it doesn't have all
/// their alternatives.
///
/// # Errors
/// As the fields; also where none begins there.
fn read_of_four<
    T: View<OfFour<F, G, H, I>, A>,
    F: Field<A>,
    G: Field<A>,
    H: Field<A>,
    I: Field<A>,
    A: Allocator + Copy,
>(alloc: A, reader: &mut Reader<'_, A>) -> Result<T, ReadError>
    requires ready { Ready reader.old }
    requires fits { ⟦<OfFour<F, G, H, I> as Field<A>>⟧.fits }
    requires base { (b : fields (fields F G) (fields H I)) (p : List ℕ) (y : Tally)
        → (choice (choice F.shape G.shape) (choice H.shape I.shape)).spelled b p y → T.base.spelled b p y }
    ensures { Reads (seen T.view (choice (choice F.shape G.shape) (choice H.shape I.shape))) reader.old reader.new
        result }
{
    read_viewed::<T, OfFour<F, G, H, I>, A>(alloc, reader)
}

/// Goes past a value by way of what one of four fields means.
///
/// # Errors
/// As the fields; also where none begins there.
#[inline]
fn pass_of_four<
    T: Judge<OfFour<F, G, H, I>, A, Glimpse = bool>,
    F: Field<A>,
    G: Field<A>,
    H: Field<A>,
    I: Field<A>,
    A: Allocator + Copy,
>(alloc: A, reader: &mut Reader<'_, A>) -> Result<T::Kept, ReadError>
    requires ready { Ready reader.old }
    requires fits { ⟦<OfFour<F, G, H, I> as Field<A>>⟧.fits }
    requires base { (b : fields (fields F G) (fields H I)) (p : List ℕ) (y : Tally)
        → (choice (choice F.shape G.shape) (choice H.shape I.shape)).spelled b p y → T.base.spelled b p y }
    requires brief { (b : fields (fields F G) (fields H I)) → T.glimpse b ≡ is_first b }
    ensures { Passes (thrifty (seen T.view (choice (choice F.shape G.shape) (choice H.shape I.shape)))) T.kept
        reader.old reader.new result }
{
    pass_viewed::<T, OfFour<F, G, H, I>, A>(alloc, reader)
}

impl<A: Allocator + Copy> Field<A> for GeneralName<A> {
    type Brief = ();

    ghost shape = { general_names };

    ghost brief = { λ v. tt };

    ghost lawful = { λ h. general_lawful (record {
      other = ⟦<OtherName<A> as Content<A>>⟧.content_lawful tt;
      names = ⟦<Name<A> as Content<A>>⟧.content_lawful tt;
      edi = ⟦<EdiPartyName<A> as Content<A>>⟧.content_lawful tt;
    }) };

    ghost elements = { λ h. general_element (record {
      other = ⟦<OtherName<A> as Content<A>>⟧.content_lawful tt;
      names = ⟦<Name<A> as Content<A>>⟧.content_lawful tt;
      edi = ⟦<EdiPartyName<A> as Content<A>>⟧.content_lawful tt;
    }) };

    ghost agrees = { λ v. refl };

    fn starts(byte: u8) -> bool {
        // those that are written, and those that are deviations
        matches!(byte, 0x81 | 0x82 | 0x86 | 0x87 | 0x88 | 0xA0 | 0xA4 | 0xA5)
            || matches!(byte, 0x84 | 0xA1 | 0xA2 | 0xA6 | 0xA7 | 0xA8)
    }

    fn known(&self) {
        match self {
            GeneralName::OtherName(name) => name.known_content(),
            GeneralName::Rfc822Name(text) | GeneralName::DnsName(text) | GeneralName::Uri(text) =>
                Field::<A>::known(text),
            GeneralName::DirectoryName(name) => name.known(),
            GeneralName::EdiPartyName(name) => name.known_content(),
            GeneralName::IpAddress(octets) => octets.known(),
            GeneralName::RegisteredId(id) => id.known(),
        }
    }

    fn read(alloc: A, reader: &mut Reader<'_, A>) -> Result<Self, ReadError> {
        read_of_four::<Self, StrictFront<A>, StrictBack<A>, LooseFront<A>, LooseBack<A>, A>(
            alloc, reader,
        )
    }

    #[inline(always)]
    fn pass(alloc: A, reader: &mut Reader<'_, A>) -> Result<(), ReadError> {
        pass_of_four::<Self, StrictFront<A>, StrictBack<A>, LooseFront<A>, LooseBack<A>, A>(
            alloc, reader,
        )
    }
}

impl<A: Allocator + Copy> FromDer<A> for GeneralName<A> {
    ghost stands_alone = { (tt, tt) };
}
