//! Values of extensions, by the kind that the object identifier says.

ghost use Rattle.std.specs.Prelude.{◌≡◌, ◌++◌, Option, true, false, refl};
ghost use Rattle.std.proofs.Common.{eqb};
ghost use Rattle.x509_der.specs.Optional.{optional_strict, brief_if};
ghost use Rattle.x509_der.specs.Reading.{Ready, Reads, Passes, thrifty};
ghost use Rattle.picky_asn1_x509_parts.specs.Extensions.{kind_of as kind_by, value_bytes, IsValue, by_kind, key_kept};

use crate::authority_key_identifier::AuthorityKeyIdentifier;
use crate::basic_constraints::BasicConstraints;
use crate::extended_key_usage::ExtendedKeyUsage;
use crate::key_identifier::SubjectKeyIdentifier;
use crate::key_usage::KeyUsage;
use std::alloc::{Allocator, Global};
use std::marker::Model;
use x509_der::parts::{
    AnyDefinedBy, BOOLEAN_TAG, Content, Field, Join, OBJECT_IDENTIFIER_TAG, OCTET_STRING_TAG,
    OidRef, One, Optional, Output, Reader, ToContent, pass_oid, pass_only,
};
use x509_der::{
    CloneEq, IntegerAsn1, ObjectIdentifierAsn1, OctetStringAsn1, OctetStringAsn1Container,
    ReadError, SameEq, ToDer, TooLong,
};
use x509_names::GeneralNames;

/// The value of an extension, in an OCTET STRING.
#[derive(Drop)]
#[derive_where(Debug, PartialEq, Eq)]
#[derive_where(Clone; A: Copy)]
pub(crate) enum ExtensionValue<A: Allocator = Global> {
    /// Of `id-ce-authorityKeyIdentifier`, 2.5.29.35.
    AuthorityKeyIdentifier(OctetStringAsn1Container<AuthorityKeyIdentifier<A>>),
    /// Of `id-ce-subjectKeyIdentifier`, 2.5.29.14.
    SubjectKeyIdentifier(OctetStringAsn1Container<SubjectKeyIdentifier<A>>),
    /// Of `id-ce-keyUsage`, 2.5.29.15.
    KeyUsage(OctetStringAsn1Container<KeyUsage<A>>),
    /// Of `id-ce-subjectAltName`, 2.5.29.17.
    SubjectAltName(OctetStringAsn1Container<GeneralNames<A>>),
    /// Of `id-ce-issuerAltName`, 2.5.29.18.
    IssuerAltName(OctetStringAsn1Container<GeneralNames<A>>),
    /// Of `id-ce-basicConstraints`, 2.5.29.19.
    BasicConstraints(OctetStringAsn1Container<BasicConstraints>),
    /// Of `id-ce-extKeyUsage`, 2.5.29.37.
    ExtendedKeyUsage(OctetStringAsn1Container<ExtendedKeyUsage<A>>),
    /// Of any other extension: octets, which aren't looked into.
    Generic(OctetStringAsn1<A>),
    /// Of `id-ce-cRLNumber`, 2.5.29.20.
    CrlNumber(OctetStringAsn1Container<IntegerAsn1<A>>),
}

impl<A: Allocator + Copy> CloneEq for ExtensionValue<A> {
    ghost use Rattle.std.proofs.Common.{rules};

    ghost exact = { Prim.search (rules) };
}

impl<A: Allocator> SameEq for ExtensionValue<A> {
    fn decides() {
        OctetStringAsn1Container::<AuthorityKeyIdentifier<A>>::decides();
        OctetStringAsn1Container::<SubjectKeyIdentifier<A>>::decides();
        OctetStringAsn1Container::<KeyUsage<A>>::decides();
        OctetStringAsn1Container::<GeneralNames<A>>::decides();
        OctetStringAsn1Container::<BasicConstraints>::decides();
        OctetStringAsn1Container::<ExtendedKeyUsage<A>>::decides();
        OctetStringAsn1::<A>::decides();
        OctetStringAsn1Container::<IntegerAsn1<A>>::decides();
    }
}

/// What an object identifier says of the value.
#[derive(Debug, Drop, Clone, Copy, PartialEq, Eq)]
pub enum ExtensionKind {
    /// An authority key identifier.
    AuthorityKeyIdentifier,
    /// A subject key identifier.
    SubjectKeyIdentifier,
    /// A key usage.
    KeyUsage,
    /// General names of the subject.
    SubjectAltName,
    /// General names of the issuer.
    IssuerAltName,
    /// Basic constraints.
    BasicConstraints,
    /// Purposes of the key.
    ExtendedKeyUsage,
    /// Any octets.
    Generic,
    /// An INTEGER.
    CrlNumber,
}

/// The kind that an object identifier says. Contents are compared, and no arcs are decoded: `0x55, 0x1D` spells 2.5.29.
#[tactic(auto, unfolding(x509_der::specs::ObjectIdentifier::numbers_from))]
fn kind_of(identifier: &OidRef<'_>) -> ExtensionKind
    ensures { result ≡ kind_by identifier.now }
{
    if identifier.is_content(&[0x55, 0x1D, 35]) {
        ExtensionKind::AuthorityKeyIdentifier
    } else if identifier.is_content(&[0x55, 0x1D, 14]) {
        ExtensionKind::SubjectKeyIdentifier
    } else if identifier.is_content(&[0x55, 0x1D, 15]) {
        ExtensionKind::KeyUsage
    } else if identifier.is_content(&[0x55, 0x1D, 17]) {
        ExtensionKind::SubjectAltName
    } else if identifier.is_content(&[0x55, 0x1D, 18]) {
        ExtensionKind::IssuerAltName
    } else if identifier.is_content(&[0x55, 0x1D, 19]) {
        ExtensionKind::BasicConstraints
    } else if identifier.is_content(&[0x55, 0x1D, 37]) {
        ExtensionKind::ExtendedKeyUsage
    } else if identifier.is_content(&[0x55, 0x1D, 20]) {
        ExtensionKind::CrlNumber
    } else {
        ExtensionKind::Generic
    }
}

impl<A: Allocator> ToDer for ExtensionValue<A> {
    ghost strict = { value_bytes };

    fn put<O: Output>(&self, out: &mut [u8], at: usize) -> Result<usize, TooLong> {
        match self {
            ExtensionValue::AuthorityKeyIdentifier(key) => key.put::<O>(out, at),
            ExtensionValue::SubjectKeyIdentifier(key) => key.put::<O>(out, at),
            ExtensionValue::KeyUsage(usage) => usage.put::<O>(out, at),
            ExtensionValue::SubjectAltName(names) => names.put::<O>(out, at),
            ExtensionValue::IssuerAltName(names) => names.put::<O>(out, at),
            ExtensionValue::BasicConstraints(constraints) => constraints.put::<O>(out, at),
            ExtensionValue::ExtendedKeyUsage(usage) => usage.put::<O>(out, at),
            ExtensionValue::Generic(octets) => octets.put::<O>(out, at),
            ExtensionValue::CrlNumber(number) => number.put::<O>(out, at),
        }
    }
}

/// Says that the value is one of its type. It does nothing when it runs.
pub(crate) fn known_value<A: Allocator + Copy>(value: &ExtensionValue<A>)
    ensures { IsValue value.now }
{
    match value {
        ExtensionValue::AuthorityKeyIdentifier(key) => Field::<A>::known(key),
        ExtensionValue::SubjectKeyIdentifier(key) => Field::<A>::known(key),
        ExtensionValue::KeyUsage(usage) => Field::<A>::known(usage),
        ExtensionValue::SubjectAltName(names) => Field::<A>::known(names),
        ExtensionValue::IssuerAltName(names) => Field::<A>::known(names),
        ExtensionValue::BasicConstraints(constraints) => Field::<A>::known(constraints),
        ExtensionValue::ExtendedKeyUsage(usage) => Field::<A>::known(usage),
        ExtensionValue::Generic(octets) => octets.known(),
        ExtensionValue::CrlNumber(number) => Field::<A>::known(number),
    }
}

/// Reads a value of a kind.
///
/// # Errors
/// Refused where no value of the kind fills an OCTET STRING there, or memory is refused.
fn read_as<A: Allocator + Copy>(
    alloc: A,
    kind: ExtensionKind,
    reader: &mut Reader<'_, A>,
) -> Result<ExtensionValue<A>, ReadError>
    requires { Ready reader.old }
    ensures { Reads (by_kind kind) reader.old reader.new result }
{
    match kind {
        ExtensionKind::AuthorityKeyIdentifier => {
            Ok(ExtensionValue::AuthorityKeyIdentifier(Field::read(alloc, reader)?))
        }
        ExtensionKind::SubjectKeyIdentifier => {
            Ok(ExtensionValue::SubjectKeyIdentifier(Field::read(alloc, reader)?))
        }
        ExtensionKind::KeyUsage => Ok(ExtensionValue::KeyUsage(Field::read(alloc, reader)?)),
        ExtensionKind::SubjectAltName => {
            Ok(ExtensionValue::SubjectAltName(Field::read(alloc, reader)?))
        }
        ExtensionKind::IssuerAltName => {
            Ok(ExtensionValue::IssuerAltName(Field::read(alloc, reader)?))
        }
        ExtensionKind::BasicConstraints => {
            Ok(ExtensionValue::BasicConstraints(Field::read(alloc, reader)?))
        }
        ExtensionKind::ExtendedKeyUsage => {
            Ok(ExtensionValue::ExtendedKeyUsage(Field::read(alloc, reader)?))
        }
        ExtensionKind::Generic => Ok(ExtensionValue::Generic(Field::read(alloc, reader)?)),
        ExtensionKind::CrlNumber => Ok(ExtensionValue::CrlNumber(Field::read(alloc, reader)?)),
    }
}

/// What stands in front of a value, owned or borrowed: the object identifier, and whether the extension is critical where
/// that is encoded. Contracts see the two.
#[derive(Drop)]
pub(crate) struct KeyNest<I, C>(pub(crate) Join<I, One<Optional<C>>>);

impl<I, C> Model for KeyNest<I, C> {
    ghost Value = { I × Option C };

    ghost view = { λ k. k.0 };
}

impl<I: ToDer, C: ToDer> ToDer for KeyNest<I, C> {
    ghost strict = { λ k. I.strict k.0 ++ optional_strict C.strict k.1 };

    fn put<O: Output>(&self, out: &mut [u8], at: usize) -> Result<usize, TooLong> {
        self.0.put_content::<O>(out, at)
    }
}

/// The same, owned.
pub(crate) type Key<A> = KeyNest<ObjectIdentifierAsn1<A>, bool>;

/// The fields of it.
type KeyFields<A> = Join<ObjectIdentifierAsn1<A>, One<Optional<bool>>>;

impl<A: Allocator + Copy> Field<A> for Key<A> {
    ghost use Rattle.picky_asn1_x509_parts.specs.Extensions.{key};

    type Brief = ((), Option<bool>);

    ghost shape = { key };

    ghost brief = { λ k. (tt, brief_if (λ b. b) k.1) };

    ghost lawful = { λ h. ⟦<KeyFields<A> as Content<A>>⟧.content_lawful (tt, (tt, tt), λ c h. refl) };

    ghost alone = { ⊥ };

    ghost elements = { λ h. absurd h };

    ghost agrees = { λ k. refl };

    fn starts(byte: u8) -> bool {
        byte == OBJECT_IDENTIFIER_TAG || byte == BOOLEAN_TAG
    }

    fn known(&self) {
        self.0.known_content();
    }

    fn read(alloc: A, reader: &mut Reader<'_, A>) -> Result<Self, ReadError> {
        Ok(KeyNest(Join::read_content(alloc, reader)?))
    }

    fn pass(alloc: A, reader: &mut Reader<'_, A>) -> Result<((), Option<bool>), ReadError> {
        KeyFields::<A>::pass_content(alloc, reader)
    }
}

/// What is kept of what stands in front of a value.
#[derive(Debug, Drop, Clone, Copy)]
pub struct ExtensionKey {
    /// The kind of the value.
    pub value: ExtensionKind,
    /// Whether it is critical, where that is spelled.
    pub critical: Option<bool>,
}

/// Goes past a value of a kind.
///
/// # Errors
/// Refused where no value of the kind stands there.
fn pass_as<A: Allocator + Copy>(
    alloc: A,
    kind: ExtensionKind,
    reader: &mut Reader<'_, A>,
) -> Result<(), ReadError>
    requires { Ready reader.old }
    ensures { Passes (thrifty (by_kind {A = A} kind)) (λ v. tt) reader.old reader.new result }
{
    match kind {
        ExtensionKind::AuthorityKeyIdentifier => pass_only::<
            OctetStringAsn1Container<AuthorityKeyIdentifier<A>>,
            A,
        >(alloc, reader),
        ExtensionKind::SubjectKeyIdentifier => pass_only::<
            OctetStringAsn1Container<SubjectKeyIdentifier<A>>,
            A,
        >(alloc, reader),
        ExtensionKind::KeyUsage => pass_only::<OctetStringAsn1Container<KeyUsage<A>>, A>(
            alloc, reader,
        ),
        ExtensionKind::SubjectAltName => pass_only::<OctetStringAsn1Container<GeneralNames<A>>, A>(
            alloc, reader,
        ),
        ExtensionKind::IssuerAltName => pass_only::<OctetStringAsn1Container<GeneralNames<A>>, A>(
            alloc, reader,
        ),
        ExtensionKind::BasicConstraints => pass_only::<
            OctetStringAsn1Container<BasicConstraints>,
            A,
        >(alloc, reader),
        ExtensionKind::ExtendedKeyUsage => pass_only::<
            OctetStringAsn1Container<ExtendedKeyUsage<A>>,
            A,
        >(alloc, reader),
        ExtensionKind::Generic => pass_only::<OctetStringAsn1<A>, A>(alloc, reader),
        ExtensionKind::CrlNumber => pass_only::<OctetStringAsn1Container<IntegerAsn1<A>>, A>(
            alloc, reader,
        ),
    }
}

impl<A: Allocator + Copy> AnyDefinedBy<Key<A>, A> for ExtensionValue<A> {
    ghost use Rattle.picky_asn1_x509_parts.specs.facts.ExtensionFacts.{HoldLaws, value_family, value_agrees};

    type Kind = ExtensionKey;

    type BriefBehind = ();

    ghost shapes = { λ key. by_kind (kind_by key.0) };

    ghost kind = { key_kept };

    ghost brief_behind = { λ v. tt };

    ghost starts = { λ b. eqb b 4 };

    ghost avoids = { λ b. false };

    ghost family = { value_family (record {
      authority_key = ⟦<OctetStringAsn1Container<AuthorityKeyIdentifier<A>> as Field<A>>⟧.lawful tt;
      usage = ⟦<OctetStringAsn1Container<KeyUsage<A>> as Field<A>>⟧.lawful tt;
      names = ⟦<OctetStringAsn1Container<GeneralNames<A>> as Field<A>>⟧.lawful (tt, tt);
      constraints = ⟦<OctetStringAsn1Container<BasicConstraints> as Field<A>>⟧.lawful tt;
      purposes = ⟦<OctetStringAsn1Container<ExtendedKeyUsage<A>> as Field<A>>⟧.lawful tt;
      numbers = ⟦<OctetStringAsn1Container<IntegerAsn1<A>> as Field<A>>⟧.lawful tt;
    }) };

    ghost shapes_agree = { λ key v. value_agrees (kind_by key.0) v };

    fn starts(byte: u8) -> bool {
        byte == OCTET_STRING_TAG
    }

    fn known_behind(&self, _key: &Key<A>) {
        known_value(self);
    }

    fn read_behind(alloc: A, key: &Key<A>, reader: &mut Reader<'_, A>) -> Result<Self, ReadError> {
        read_as(alloc, kind_of(&key.0.0.0.lent()), reader)
    }

    fn pass_key(alloc: A, reader: &mut Reader<'_, A>) -> Result<ExtensionKey, ReadError> {
        let identifier = pass_oid(reader)?;
        let value = kind_of(&identifier);
        let critical = Optional::<bool>::pass(alloc, reader)?;
        Ok(ExtensionKey { value, critical })
    }

    fn pass_behind(
        alloc: A,
        chosen: ExtensionKey,
        reader: &mut Reader<'_, A>,
    ) -> Result<(), ReadError> {
        pass_as(alloc, chosen.value, reader)
    }
}
