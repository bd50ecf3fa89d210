//! Attributes of requests and of signed messages.

ghost use Rattle.std.specs.Prelude.{◌≡◌, ◌∷◌, [], true, false, refl, Err, IfOk, IsOkAnd, MatchResult};
ghost use Rattle.x509_der.specs.Reading.{Ready, Reads, Passes, thrifty};
ghost use Rattle.x509_der.specs.laws.Structure.{structure_lawful, structure_element};
ghost use Rattle.picky_asn1_x509_parts.specs.Attribute.{extension_request_arcs, content_type_arcs, message_digest_arcs, signing_time_arcs, data_arcs, kind_of as kind_by, value_bytes, IsValue, by_kind, attribute_parts, attribute_base, attribute, attribute_bytes};
ghost use Rattle.picky_asn1_x509_parts.specs.facts.AttributeSame.{attribute_of, attribute_same};
ghost use Rattle.picky_asn1_x509_parts.specs.declared.attribute.AttributeValues.TheVariants as value;

use crate::extension::Extension;
use crate::extensions::Extensions;
use std::alloc::{AllocError, Allocator, Global};
use x509_der::parts::{
    AnyDefinedBy, DefinedBy, Field, OidRef, One, Output, Reader, Ref, SEQUENCE_TAG, Sequence,
    Structure, Tagged, pass_fields, pass_oid, pass_only, read_fields,
};
use x509_der::{
    Asn1RawDer, Asn1SequenceOf, Asn1SetOf, CloneEq, FromDer, ObjectIdentifier,
    ObjectIdentifierAsn1, OctetStringAsn1, ReadError, SameEq, ToDer, TooLong,
};
use x509_oids_objects as oids;
use x509_prim::{UTCTime, UtcTimeAsn1};

/// A list of attributes. It may be empty.
///
/// # Encoding
/// `SEQUENCE OF Attribute`.
pub type Attributes<A = Global> = Asn1SequenceOf<Attribute<A>, A>;

/// The values of an attribute, by its type: a set of items, whose order is kept, and which may be empty.
#[derive(Drop)]
#[derive_where(Debug, PartialEq, Eq)]
#[derive_where(Clone; A: Copy)]
pub enum AttributeValues<A: Allocator = Global> {
    /// Of `extensionRequest`, 1.2.840.113549.1.9.14: lists of extensions (RFC 2985, 5.4.2).
    Extensions(Asn1SetOf<Extensions<A>, A>),
    /// Of `contentType`, 1.2.840.113549.1.9.3: identifiers (RFC 2985, 5.3.1).
    ContentType(Asn1SetOf<ObjectIdentifierAsn1<A>, A>),
    /// Of `SpcStatementType`, 1.3.6.1.4.1.311.2.1.11: lists of identifiers (Authenticode).
    SpcStatementType(Asn1SetOf<Asn1SequenceOf<ObjectIdentifierAsn1<A>, A>, A>),
    /// Of `messageDigest`, 1.2.840.113549.1.9.4: octets (RFC 2985, 5.3.2).
    MessageDigest(Asn1SetOf<OctetStringAsn1<A>, A>),
    /// Of `signingTime`, 1.2.840.113549.1.9.5: times from 1950 to 2049 (RFC 2985, 5.3.3).
    SigningTime(Asn1SetOf<UtcTimeAsn1, A>),
    /// Of any other type: one element, which isn't looked into, and needn't be a set.
    Custom(Asn1RawDer<A>),
}

impl<A: Allocator + Copy> CloneEq for AttributeValues<A> {
    ghost use Rattle.std.proofs.Common.{rules};

    ghost exact = { Prim.search (rules) };
}

impl<A: Allocator> SameEq for AttributeValues<A> {
    fn decides() {
        Asn1SetOf::<Extensions<A>, A>::decides();
        Asn1SetOf::<ObjectIdentifierAsn1<A>, A>::decides();
        Asn1SetOf::<Asn1SequenceOf<ObjectIdentifierAsn1<A>, A>, A>::decides();
        Asn1SetOf::<OctetStringAsn1<A>, A>::decides();
        Asn1SetOf::<UtcTimeAsn1, A>::decides();
        Asn1RawDer::<A>::decides();
    }
}

/// What an object identifier says of the values.
#[derive(Debug, Drop, Clone, Copy, PartialEq, Eq)]
pub enum AttributeKind {
    /// Lists of extensions.
    Extensions,
    /// Identifiers.
    ContentType,
    /// Lists of identifiers.
    SpcStatementType,
    /// Octets.
    MessageDigest,
    /// Times.
    SigningTime,
    /// Any one element.
    Custom,
}

/// The kind that an object identifier says. Contents are compared, and no arcs are decoded: `0x2A, 0x86, 0x48, 0x86,
/// 0xF7, 0x0D, 1, 9` spells 1.2.840.113549.1.9.
#[tactic(auto, unfolding(x509_der::specs::ObjectIdentifier::numbers_from))]
fn kind_of(identifier: &OidRef<'_>) -> AttributeKind
    ensures { result ≡ kind_by identifier.now }
{
    if identifier.is_content(&[0x2A, 0x86, 0x48, 0x86, 0xF7, 0x0D, 1, 9, 14]) {
        AttributeKind::Extensions
    } else if identifier.is_content(&[0x2A, 0x86, 0x48, 0x86, 0xF7, 0x0D, 1, 9, 3]) {
        AttributeKind::ContentType
    } else if identifier.is_content(&[0x2B, 6, 1, 4, 1, 0x82, 0x37, 2, 1, 11]) {
        AttributeKind::SpcStatementType
    } else if identifier.is_content(&[0x2A, 0x86, 0x48, 0x86, 0xF7, 0x0D, 1, 9, 4]) {
        AttributeKind::MessageDigest
    } else if identifier.is_content(&[0x2A, 0x86, 0x48, 0x86, 0xF7, 0x0D, 1, 9, 5]) {
        AttributeKind::SigningTime
    } else {
        AttributeKind::Custom
    }
}

impl<A: Allocator> ToDer for AttributeValues<A> {
    ghost strict = { value_bytes };

    fn put<O: Output>(&self, out: &mut [u8], at: usize) -> Result<usize, TooLong> {
        match self {
            AttributeValues::Extensions(lists) => lists.put::<O>(out, at),
            AttributeValues::ContentType(types) => types.put::<O>(out, at),
            AttributeValues::SpcStatementType(lists) => lists.put::<O>(out, at),
            AttributeValues::MessageDigest(digests) => digests.put::<O>(out, at),
            AttributeValues::SigningTime(times) => times.put::<O>(out, at),
            AttributeValues::Custom(element) => element.put::<O>(out, at),
        }
    }
}

/// Says that the values are those of their type. It does nothing when it runs.
fn known_value<A: Allocator + Copy>(value: &AttributeValues<A>)
    ensures { IsValue value.now }
{
    match value {
        AttributeValues::Extensions(lists) => Field::<A>::known(lists),
        AttributeValues::ContentType(types) => Field::<A>::known(types),
        AttributeValues::SpcStatementType(lists) => Field::<A>::known(lists),
        AttributeValues::MessageDigest(digests) => Field::<A>::known(digests),
        AttributeValues::SigningTime(times) => Field::<A>::known(times),
        AttributeValues::Custom(element) => element.known(),
    }
}

/// Reads values of a kind.
///
/// # Errors
/// Refused where no values of the kind stand there, or memory is refused.
fn read_as<A: Allocator + Copy>(
    alloc: A,
    kind: AttributeKind,
    reader: &mut Reader<'_, A>,
) -> Result<AttributeValues<A>, ReadError>
    requires { Ready reader.old }
    ensures { Reads (by_kind kind) reader.old reader.new result }
{
    match kind {
        AttributeKind::Extensions => {
            Ok(AttributeValues::Extensions(Field::read(alloc, reader)?))
        }
        AttributeKind::ContentType => {
            Ok(AttributeValues::ContentType(Field::read(alloc, reader)?))
        }
        AttributeKind::SpcStatementType => {
            Ok(AttributeValues::SpcStatementType(Field::read(alloc, reader)?))
        }
        AttributeKind::MessageDigest => {
            Ok(AttributeValues::MessageDigest(Field::read(alloc, reader)?))
        }
        AttributeKind::SigningTime => {
            Ok(AttributeValues::SigningTime(Field::read(alloc, reader)?))
        }
        AttributeKind::Custom => Ok(AttributeValues::Custom(Field::read(alloc, reader)?)),
    }
}

/// Goes past a value of a kind.
///
/// # Errors
/// Refused where no value of the kind stands there.
fn pass_as<A: Allocator + Copy>(
    alloc: A,
    kind: AttributeKind,
    reader: &mut Reader<'_, A>,
) -> Result<(), ReadError>
    requires { Ready reader.old }
    ensures { Passes (thrifty (by_kind {A = A} kind)) (λ v. tt) reader.old reader.new result }
{
    match kind {
        AttributeKind::Extensions => pass_only::<Asn1SetOf<Extensions<A>, A>, A>(alloc, reader),
        AttributeKind::ContentType => pass_only::<Asn1SetOf<ObjectIdentifierAsn1<A>, A>, A>(
            alloc, reader,
        ),
        AttributeKind::SpcStatementType => pass_only::<
            Asn1SetOf<Asn1SequenceOf<ObjectIdentifierAsn1<A>, A>, A>,
            A,
        >(alloc, reader),
        AttributeKind::MessageDigest => pass_only::<Asn1SetOf<OctetStringAsn1<A>, A>, A>(
            alloc, reader,
        ),
        AttributeKind::SigningTime => pass_only::<Asn1SetOf<UtcTimeAsn1, A>, A>(alloc, reader),
        AttributeKind::Custom => pass_only::<Asn1RawDer<A>, A>(alloc, reader),
    }
}

impl<A: Allocator + Copy> AnyDefinedBy<ObjectIdentifierAsn1<A>, A> for AttributeValues<A> {
    ghost use Rattle.picky_asn1_x509_parts.specs.facts.AttributeFacts.{HoldLaws, value_family, value_agrees};

    type Kind = AttributeKind;

    type BriefBehind = ();

    ghost shapes = { λ arcs. by_kind (kind_by arcs) };

    ghost kind = { kind_by };

    ghost brief_behind = { λ v. tt };

    ghost starts = { λ b. true };

    ghost avoids = { λ b. false };

    ghost family = { value_family (record {
      requests = ⟦<Asn1SetOf<Extensions<A>, A> as Field<A>>⟧.lawful (tt, tt);
      content_types = ⟦<Asn1SetOf<ObjectIdentifierAsn1<A>, A> as Field<A>>⟧.lawful (tt, tt);
      statements = ⟦<Asn1SetOf<Asn1SequenceOf<ObjectIdentifierAsn1<A>, A>, A> as Field<A>>⟧.lawful ((tt, tt), tt);
      digests = ⟦<Asn1SetOf<OctetStringAsn1<A>, A> as Field<A>>⟧.lawful (tt, tt);
      times = ⟦<Asn1SetOf<UtcTimeAsn1, A> as Field<A>>⟧.lawful (tt, tt);
    }) };

    ghost shapes_agree = { λ arcs v. value_agrees (kind_by arcs) v };

    fn starts(_byte: u8) -> bool {
        true
    }

    fn known_behind(&self, _ty: &ObjectIdentifierAsn1<A>) {
        known_value(self);
    }

    fn read_behind(
        alloc: A,
        ty: &ObjectIdentifierAsn1<A>,
        reader: &mut Reader<'_, A>,
    ) -> Result<Self, ReadError> {
        read_as(alloc, kind_of(&ty.0.lent()), reader)
    }

    fn pass_key(_alloc: A, reader: &mut Reader<'_, A>) -> Result<AttributeKind, ReadError> {
        let identifier = pass_oid(reader)?;
        Ok(kind_of(&identifier))
    }

    fn pass_behind(
        alloc: A,
        chosen: AttributeKind,
        reader: &mut Reader<'_, A>,
    ) -> Result<(), ReadError> {
        pass_as(alloc, chosen, reader)
    }
}

/// An attribute of a request or of a signed message: its type, and its values, whose kind the type says. Parts that
/// don't fit each other are written as they are; what is written is refused, or read as another value.
///
/// # Encoding
/// `Attribute ::= SEQUENCE { type OBJECT IDENTIFIER, values SET SIZE (1..MAX) OF ANY DEFINED BY type }` (RFC 2986,
/// 4.1). An empty set is read too; where the type isn't known, the values are any one element.
#[derive(Drop)]
#[derive_where(Debug, PartialEq, Eq)]
#[derive_where(Clone; A: Copy)]
pub struct Attribute<A: Allocator = Global> {
    /// The object identifier.
    pub ty: ObjectIdentifierAsn1<A>,
    /// The values.
    pub value: AttributeValues<A>,
}

impl<A: Allocator + Copy> CloneEq for Attribute<A> {
    ghost use Rattle.std.proofs.Common.{rules};

    ghost exact = { Prim.search (rules) };
}

impl<A: Allocator> SameEq for Attribute<A> {
    fn decides() {
        ObjectIdentifierAsn1::<A>::decides();
        AttributeValues::<A>::decides();
    }
}

/// An attribute with the identifier of its type, if there was memory for that.
///
/// # Errors
/// `AllocError` where there was none. The values are then dropped.
fn of_type<A: Allocator>(
    ty: Result<ObjectIdentifier<A>, AllocError>,
    values: AttributeValues<A>,
) -> Result<Attribute<A>, AllocError>
    ensures { MatchResult ty (λ id. IsOkAnd result (λ a. a ≡ record { ty = id; value = values }))
        (λ e. result ≡ Err e) }
{
    match ty {
        Ok(ty) => Ok(Attribute {
            ty: ObjectIdentifierAsn1(ty),
            value: values,
        }),
        // By a call, since the values' type is large, and would be walked through here.
        Err(error) => {
            drop(values);
            Err(error)
        }
    }
}

impl<A: Allocator + Copy> Attribute<A> {
    /// A request for extensions, `extensionRequest` (RFC 2985, 5.4.2): a set of the one list.
    ///
    /// # Errors
    /// `AllocError` where memory is refused. The extensions are then dropped.
    pub fn new_extension_request(
        alloc: A,
        extensions: Vec<Extension<A>, A>,
    ) -> Result<Self, AllocError>
        ensures { IfOk result (λ a. a ≡ record {
          ty = extension_request_arcs;
          value = value.Extensions
              (extensions.items ∷ []);
        }) }
    {
        let ty = ObjectIdentifierAsn1(oids::extension_request(alloc)?);
        let set = Asn1SetOf::of_one(alloc, Extensions::from(extensions))?;
        Ok(Attribute {
            ty,
            value: AttributeValues::Extensions(set),
        })
    }

    /// The content type of data, `contentType` (RFC 2985, 5.3.1): a set of the one identifier 1.2.840.113549.1.7.1 (RFC
    /// 2315, 14).
    ///
    /// # Errors
    /// `AllocError` where memory is refused.
    pub fn new_content_type_pkcs7(alloc: A) -> Result<Self, AllocError>
        ensures { IfOk result (λ a. a ≡ record {
          ty = content_type_arcs;
          value = value.ContentType
              (data_arcs ∷ []);
        }) }
    {
        let data = ObjectIdentifierAsn1(oids::content_info_type_data(alloc)?);
        let set = Asn1SetOf::of_one(alloc, data)?;
        of_type(oids::content_type(alloc), AttributeValues::ContentType(set))
    }

    /// When something was signed, `signingTime` (RFC 2985, 5.3.3): a set of the one time.
    ///
    /// # Errors
    /// `AllocError` where memory is refused.
    pub fn new_signing_time(alloc: A, signing_time: UTCTime) -> Result<Self, AllocError>
        ensures { IfOk result (λ a. a ≡ record {
          ty = signing_time_arcs;
          value = value.SigningTime
              (signing_time ∷ []);
        }) }
    {
        let set = Asn1SetOf::of_one(alloc, UtcTimeAsn1(signing_time))?;
        of_type(oids::signing_time(alloc), AttributeValues::SigningTime(set))
    }

    /// The digest of a message, `messageDigest` (RFC 2985, 5.3.2): a set of the one string of octets.
    ///
    /// # Errors
    /// `AllocError` where memory is refused. The octets are then dropped.
    pub fn new_message_digest(alloc: A, digest: Vec<u8, A>) -> Result<Self, AllocError>
        ensures { IfOk result (λ a. a ≡ record {
          ty = message_digest_arcs;
          value = value.MessageDigest
              (digest.items ∷ []);
        }) }
    {
        let set = Asn1SetOf::of_one(alloc, OctetStringAsn1(digest))?;
        of_type(
            oids::message_digest(alloc),
            AttributeValues::MessageDigest(set),
        )
    }
}

/// The fields in the SEQUENCE, owned.
type Fields<A> = Tagged<Sequence, One<DefinedBy<ObjectIdentifierAsn1<A>, AttributeValues<A>>>>;

/// The fields that are written, borrowed.
type Written<'a, A> = Tagged<
    Sequence,
    One<DefinedBy<Ref<'a, ObjectIdentifierAsn1<A>>, Ref<'a, AttributeValues<A>>>>,
>;

/// The fields of an attribute, to be written.
fn written<A: Allocator>(value: &Attribute<A>) -> Written<'_, A>
    ensures { result ≡ attribute_parts value.now }
{
    Tagged::new(One(DefinedBy(Ref(&value.ty), Ref(&value.value))))
}

impl<A: Allocator> ToDer for Attribute<A> {
    ghost strict = { attribute_bytes };

    fn put<O: Output>(&self, out: &mut [u8], at: usize) -> Result<usize, TooLong> {
        written(self).put::<O>(out, at)
    }
}

impl<A: Allocator> Structure<Fields<A>> for Attribute<A> {
    ghost fields = { attribute_parts };

    fn from_fields(parts: Fields<A>) -> Self {
        let One(DefinedBy(ty, value)) = parts.into_inner();
        Attribute { ty, value }
    }

    ghost same = { attribute_same };

    ghost made = { λ f. (attribute_of f, refl) };
}

impl<A: Allocator + Copy> Field<A> for Attribute<A> {
    ghost use Rattle.picky_asn1_x509_parts.specs.facts.AttributeFacts.{attribute_agrees};

    type Brief = ();

    ghost shape = { attribute };

    ghost brief = { λ v. tt };

    ghost lawful = { λ h. structure_lawful attribute_parts attribute_base attribute_same
        (⟦<Fields<A> as Field<A>>⟧.lawful (tt, λ c h. refl)) };

    ghost elements = { λ h. structure_element attribute_parts attribute_base
        (⟦<Fields<A> as Field<A>>⟧.elements tt) };

    ghost agrees = { attribute_agrees };

    fn starts(byte: u8) -> bool {
        byte == SEQUENCE_TAG
    }

    fn known(&self) {
        self.ty.known();
        known_value(&self.value);
    }

    fn read(alloc: A, reader: &mut Reader<'_, A>) -> Result<Self, ReadError> {
        read_fields::<Self, Fields<A>, A>(alloc, reader)
    }

    fn pass(alloc: A, reader: &mut Reader<'_, A>) -> Result<(), ReadError> {
        pass_fields::<Self, Fields<A>, A>(alloc, reader)
    }
}

impl<A: Allocator + Copy> FromDer<A> for Attribute<A> {
    ghost stands_alone = { (tt, tt) };
}
