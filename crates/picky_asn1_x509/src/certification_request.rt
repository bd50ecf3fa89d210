//! Requests for certificates.

ghost use Rattle.std.specs.Prelude.{◌≡◌, ◌++◌, ◌∷◌, [], refl, IfOk, IfErr, OnOk, OnErr};
ghost use Rattle.x509_der.specs.Calls.{NoWhole, NoValue};
ghost use Rattle.x509_der.specs.FirstField.{FirstPart, StartsContent};
ghost use Rattle.x509_der.specs.Items.{items};
ghost use Rattle.x509_der.specs.Reading.{Ready, Reads, Passes, thrifty};
ghost use Rattle.x509_der.specs.Tagged.{tagged};
ghost use Rattle.x509_der.specs.laws.Structure.{structure_lawful, structure_element};
ghost use Rattle.picky_asn1_x509.specs.Certificates.{signature_fields};
ghost use Rattle.picky_asn1_x509.specs.Requests.{request_attributes, request_attributes_bytes, info_parts, info_base, request_info, info_bytes, new_info, with_attributes, request_parts, request_base, request, request_bytes};
ghost use Rattle.picky_asn1_x509.specs.SignedParts.{SignedPartOf};
ghost use Rattle.picky_asn1_x509.specs.facts.Requests.{request_attributes_agree, info_from, info_same, info_agrees, request_from, request_same, request_agrees};

use crate::certificate::Signature;
use crate::signed_read::{SignedPart, SignedRead};
use crate::three::{pass_three, put_four, put_three, read_three};
use picky_asn1_x509_parts::{Attribute, Attributes};
use std::alloc::{AllocError, Allocator, Global};
use std::marker::Model;
use x509_der::parts::{
    ContextConstructed, Field, Join, One, Output, Reader, Ref, SEQUENCE_TAG, Sequence, Structure,
    Tag, Tagged, check_first_field, clone_three, known_items, pass_only, read_first_field,
};
use x509_der::{Asn1SequenceOf, BitStringAsn1, CloneEq, FromDer, ReadError, ToDer, TooLong};
use x509_keys::{AlgorithmIdentifier, SubjectPublicKeyInfo};
use x509_names::Name;

/// The attributes of a request, in a list whose order is kept. Contracts see the list.
///
/// # Encoding
/// `attributes [0] IMPLICIT SET OF Attribute` (RFC 2986, 4.1): tag A0, and the attributes one behind another. The tag
/// is asked for, also where there are no attributes.
#[derive(Drop)]
#[derive_where(Debug, PartialEq, Eq)]
#[derive_where(Clone; A: Copy)]
pub struct OpenSslAttributes<A: Allocator = Global>(pub Attributes<A>);

impl<A: Allocator> Model for OpenSslAttributes<A> {
    ghost use Rattle.std.specs.Prelude.{List};
    ghost use Rattle.picky_asn1_x509_parts.specs.declared.attribute.Attribute.{Attribute};

    ghost Value = { List (Attribute A) };

    ghost view = { λ v. v.0 };

    ghost inverse = { λ list. record { 0 = list } };
}

impl<A: Allocator> From<Attributes<A>> for OpenSslAttributes<A> {
    ghost from_gives = { λ list v. v ≡ list };

    fn from(attributes: Attributes<A>) -> Self {
        OpenSslAttributes(attributes)
    }
}

impl<A: Allocator + Copy> CloneEq for OpenSslAttributes<A> {
    ghost use Rattle.std.proofs.Common.{rules};

    ghost exact = { Prim.search (rules) };
}

impl<A: Allocator> OpenSslAttributes<A> {
    /// Adds an attribute at the list's end.
    ///
    /// # Errors
    /// The attribute, where memory is refused. The list is as it was.
    fn push(&mut self, attribute: Attribute<A>) -> Result<(), Attribute<A>>
        ensures ok { OnOk result (self.new ≡ self.old ++ attribute ∷ []) }
        ensures err { OnErr result (self.new ≡ self.old) }
        ensures back { IfErr result (λ a. a ≡ attribute) }
    {
        match self.0.0.push(attribute) {
            Ok(()) => Ok(()),
            Err(refused) => Err(refused.value),
        }
    }
}

/// The list under its tag, owned or borrowed.
type ListNest<L> = Tagged<ContextConstructed<0>, L>;

impl<A: Allocator> ToDer for OpenSslAttributes<A> {
    ghost strict = { request_attributes_bytes };

    fn put<O: Output>(&self, out: &mut [u8], at: usize) -> Result<usize, TooLong> {
        ListNest::new(Ref(&self.0)).put::<O>(out, at)
    }
}

/// Reads a list under the tag A0.
///
/// # Errors
/// As the items; also where another element stands there, or its content has bytes behind them.
fn read_list<T: FromDer<A>, A: Allocator + Copy>(
    alloc: A,
    reader: &mut Reader<'_, A>,
) -> Result<Asn1SequenceOf<T, A>, ReadError>
    requires { Ready reader.old }
    ensures { Reads (tagged 160 (items T.shape)) reader.old reader.new result }
{
    let list = ListNest::<Asn1SequenceOf<T, A>>::read(alloc, reader)?;
    Ok(list.into_inner())
}

/// Goes past a list under the tag A0.
///
/// # Errors
/// As `read_list`, but never for memory where no places are carried.
fn pass_list<T: FromDer<A>, A: Allocator + Copy>(
    alloc: A,
    reader: &mut Reader<'_, A>,
) -> Result<(), ReadError>
    requires { Ready reader.old }
    ensures { Passes (thrifty (tagged 160 (items T.shape))) (λ v. tt) reader.old reader.new result }
{
    pass_only::<ListNest<Asn1SequenceOf<T, A>>, A>(alloc, reader)
}

impl<A: Allocator + Copy> Field<A> for OpenSslAttributes<A> {
    type Brief = ();

    ghost brief = { λ v. tt };

    ghost shape = { request_attributes };

    ghost lawful = { λ h. ⟦<ListNest<Attributes<A>> as Field<A>>⟧.lawful (tt, tt) };

    ghost elements = { λ h. ⟦<ListNest<Attributes<A>> as Field<A>>⟧.elements tt };

    ghost agrees = { request_attributes_agree };

    fn starts(byte: u8) -> bool {
        byte == ContextConstructed::<0>::BYTE
    }

    fn known(&self) {
        known_items::<Attribute<A>, A>(self.0.0.as_slice());
    }

    fn read(alloc: A, reader: &mut Reader<'_, A>) -> Result<Self, ReadError> {
        Ok(OpenSslAttributes(read_list(alloc, reader)?))
    }

    fn pass(alloc: A, reader: &mut Reader<'_, A>) -> Result<(), ReadError> {
        pass_list::<Attribute<A>, A>(alloc, reader)
    }
}

impl<A: Allocator + Copy> FromDer<A> for OpenSslAttributes<A> {
    ghost stands_alone = { (tt, tt) };
}

/// The part of a request that is signed.
///
/// # Encoding
/// `CertificationRequestInfo ::= SEQUENCE { version INTEGER, subject Name, subjectPKInfo SubjectPublicKeyInfo,
/// attributes [0] IMPLICIT SET OF Attribute }` (RFC 2986, 4.1). The version is any from 0 to 255.
#[derive(Drop)]
#[derive_where(Debug, PartialEq, Eq)]
pub struct CertificationRequestInfo<A: Allocator = Global> {
    /// The version: 0 in RFC 2986.
    pub version: u8,
    /// Whose key is to be certified.
    pub subject: Name<A>,
    /// The key.
    pub subject_public_key_info: SubjectPublicKeyInfo<A>,
    /// What else is asked for.
    pub attributes: OpenSslAttributes<A>,
}

impl<A: Allocator> CertificationRequestInfo<A> {
    /// A request of version 0 without attributes. Takes no memory; attributes that are added take it from `alloc`.
    pub fn new(alloc: A, subject: Name<A>, subject_public_key_info: SubjectPublicKeyInfo<A>) -> Self
        ensures { result ≡ new_info subject subject_public_key_info }
    {
        CertificationRequestInfo {
            version: 0,
            subject,
            subject_public_key_info,
            attributes: OpenSslAttributes(Asn1SequenceOf(Vec::new(alloc))),
        }
    }

    /// The request with an attribute more, at the list's end.
    ///
    /// # Errors
    /// The request and the attribute as they were given, where memory is refused.
    pub fn with_attribute(mut self, attribute: Attribute<A>) -> Result<Self, (Self, Attribute<A>)>
        ensures ok { IfOk result (λ v. v ≡ with_attributes self (self.attributes ++ attribute ∷ [])) }
        ensures err { IfErr result (λ back. back ≡ (self, attribute)) }
    {
        match self.add_attribute(attribute) {
            Ok(()) => Ok(self),
            Err(attribute) => Err((self, attribute)),
        }
    }

    /// Adds an attribute at the list's end.
    ///
    /// # Errors
    /// The attribute, where memory is refused. The request is as it was.
    pub fn add_attribute(&mut self, attribute: Attribute<A>) -> Result<(), Attribute<A>>
        ensures ok { OnOk result (self.new ≡ with_attributes self.old
            (self.old.attributes ++ attribute ∷ [])) }
        ensures err { OnErr result (self.new ≡ self.old) }
        ensures back { IfErr result (λ a. a ≡ attribute) }
    {
        self.attributes.push(attribute)
    }
}

impl<A: Allocator + Copy> Clone for CertificationRequestInfo<A> {
    ghost is_clone = { λ x y. y ≡ x };

    fn clone(&self) -> Result<Self, AllocError> {
        let (subject, subject_public_key_info, attributes) = clone_three(
            &self.subject,
            &self.subject_public_key_info,
            &self.attributes,
        )?;
        Ok(CertificationRequestInfo {
            version: self.version,
            subject,
            subject_public_key_info,
            attributes,
        })
    }
}

impl<A: Allocator + Copy> CloneEq for CertificationRequestInfo<A> {
    ghost exact = { λ x y h. h };
}

/// The SEQUENCE, owned.
type InfoFields<A> = Tagged<Sequence, InfoInner<A>>;

/// The last two fields, owned.
type InfoEnd<A> = Join<SubjectPublicKeyInfo<A>, One<OpenSslAttributes<A>>>;

/// The fields, owned.
type InfoInner<A> = Join<u8, Join<Name<A>, InfoEnd<A>>>;

impl<A: Allocator> ToDer for CertificationRequestInfo<A> {
    ghost strict = { info_bytes };

    fn put<O: Output>(&self, out: &mut [u8], at: usize) -> Result<usize, TooLong> {
        put_four::<O, _, _, _, _>(
            &self.version,
            &self.subject,
            &self.subject_public_key_info,
            &One(Ref(&self.attributes)),
            out,
            at,
        )
    }
}

impl<A: Allocator> Structure<InfoInner<A>> for CertificationRequestInfo<A> {
    ghost fields = { info_parts };

    fn from_fields(parts: InfoInner<A>) -> Self {
        let Join(version, Join(subject, Join(subject_public_key_info, One(attributes)))) = parts;
        CertificationRequestInfo {
            version,
            subject,
            subject_public_key_info,
            attributes,
        }
    }

    ghost same = { info_same };

    ghost made = { λ f. (info_from f, refl) };
}

impl<A: Allocator + Copy> Field<A> for CertificationRequestInfo<A> {
    type Brief = ();

    ghost brief = { λ v. tt };

    ghost shape = { request_info };

    ghost lawful = { λ h. structure_lawful info_parts info_base info_same
        (⟦<InfoFields<A> as Field<A>>⟧.lawful (tt, (tt, (tt, tt, λ c h. refl), λ c h. refl), λ c h. refl)) };

    ghost elements = { λ h. structure_element info_parts info_base
        (⟦<InfoFields<A> as Field<A>>⟧.elements tt) };

    ghost agrees = { info_agrees };

    fn starts(byte: u8) -> bool {
        byte == SEQUENCE_TAG
    }

    fn known(&self) {
        let _version = self.version;
        self.subject.known();
        self.subject_public_key_info.known();
        self.attributes.known();
    }

    fn read(alloc: A, reader: &mut Reader<'_, A>) -> Result<Self, ReadError> {
        read_three::<Self, u8, Name<A>, InfoEnd<A>, A>(alloc, reader)
    }

    fn pass(alloc: A, reader: &mut Reader<'_, A>) -> Result<(), ReadError> {
        pass_three::<Self, u8, Name<A>, InfoEnd<A>, A>(alloc, reader)
    }
}

impl<A: Allocator + Copy> FromDer<A> for CertificationRequestInfo<A> {
    ghost stands_alone = { (tt, tt) };
}

/// A request for a certificate: what is signed, and the signature. Whether the signature is right isn't looked at.
///
/// # Encoding
/// `CertificationRequest ::= SEQUENCE { certificationRequestInfo CertificationRequestInfo, signatureAlgorithm
/// AlgorithmIdentifier, signature BIT STRING }` (RFC 2986, 4.2).
#[derive(Drop)]
#[derive_where(Debug, PartialEq, Eq)]
#[derive_where(Clone; A: Copy)]
pub struct CertificationRequest<A: Allocator = Global> {
    /// What is signed.
    pub certification_request_info: CertificationRequestInfo<A>,
    /// The algorithm of the signature.
    pub signature_algorithm: AlgorithmIdentifier<A>,
    /// The signature.
    pub signature: BitStringAsn1<A>,
}

impl<A: Allocator + Copy> CertificationRequest<A> {
    /// Reads a request from the whole of the bytes, as `from_bytes` does, and answers with it the bytes of
    /// `certification_request_info`, which the signature covers. The deviations inside those bytes are counted apart
    /// from the others: where there are none inside, the bytes are the DER encoding of `certification_request_info`,
    /// and else they aren't.
    ///
    /// # Errors
    /// As `from_bytes`: refused exactly where the bytes encode no request, or memory is refused.
    pub fn read_with_signed_part(alloc: A, bytes: &[u8]) -> Result<SignedRead<'_, Self>, ReadError>
        ensures ok { IfOk result (λ r. FirstPart request_parts request_info signature_fields bytes.now
            r.value r.signed.now r.inside r.outside) }
        ensures start { IfOk result (λ r. StartsContent bytes.now r.start) }
        ensures err { IfErr result (NoWhole (request {A = A}) bytes.now) }
    {
        let read = read_first_field::<Self, CertificationRequestInfo<A>, Signature<A>, A>(
            alloc, bytes,
        )?;
        Ok(SignedRead {
            value: read.value,
            signed: read.slice,
            start: read.start,
            inside: read.inside,
            outside: read.outside,
        })
    }

    /// Checks a request as `check` does, over the whole of the bytes, and answers the bytes of
    /// `certification_request_info`, which the signature covers. The deviations inside those bytes are counted apart from
    /// the others: where there are none inside, the bytes are the DER encoding of `certification_request_info`, and else
    /// they aren't. It builds no value and takes no memory.
    ///
    /// # Errors
    /// Refused exactly where the bytes encode no request; never for memory.
    pub fn check_signed_part(alloc: A, bytes: &[u8]) -> Result<SignedPart<'_>, ReadError>
        ensures ok { IfOk result (λ r. SignedPartOf (request_parts {A = A}) request_info signature_fields bytes.now r.signed.now
            r.inside r.outside) }
        ensures start { IfOk result (λ r. StartsContent bytes.now r.start) }
        ensures err { IfErr result (NoValue (request {A = A}) bytes.now) }
    {
        match check_first_field::<Self, CertificationRequestInfo<A>, Signature<A>, A>(
            alloc, bytes,
        ) {
            Ok(checked) => Ok(SignedPart {
                signed: checked.slice,
                start: checked.start,
                inside: checked.inside,
                outside: checked.outside,
            }),
            Err(error) => Err(error),
        }
    }
}

impl<A: Allocator + Copy> CloneEq for CertificationRequest<A> {
    ghost use Rattle.std.proofs.Common.{rules};

    ghost exact = { Prim.search (rules) };
}

/// The fields, owned.
type RequestInner<A> = Join<CertificationRequestInfo<A>, Signature<A>>;

/// The SEQUENCE, owned.
type RequestFields<A> = Tagged<Sequence, RequestInner<A>>;

impl<A: Allocator> ToDer for CertificationRequest<A> {
    ghost strict = { request_bytes };

    fn put<O: Output>(&self, out: &mut [u8], at: usize) -> Result<usize, TooLong> {
        put_three::<O, _, _, _>(
            &self.certification_request_info,
            &self.signature_algorithm,
            &One(Ref(&self.signature)),
            out,
            at,
        )
    }
}

impl<A: Allocator> Structure<RequestInner<A>> for CertificationRequest<A> {
    ghost fields = { request_parts };

    fn from_fields(parts: RequestInner<A>) -> Self {
        let Join(certification_request_info, Join(signature_algorithm, One(signature))) = parts;
        CertificationRequest {
            certification_request_info,
            signature_algorithm,
            signature,
        }
    }

    ghost same = { request_same };

    ghost made = { λ f. (request_from f, refl) };
}

impl<A: Allocator + Copy> Field<A> for CertificationRequest<A> {
    type Brief = ();

    ghost brief = { λ v. tt };

    ghost shape = { request };

    ghost lawful = { λ h. structure_lawful request_parts request_base request_same
        (⟦<RequestFields<A> as Field<A>>⟧.lawful (tt, (tt, tt, λ c h. refl), λ c h. refl)) };

    ghost elements = { λ h. structure_element request_parts request_base
        (⟦<RequestFields<A> as Field<A>>⟧.elements tt) };

    ghost agrees = { request_agrees };

    fn starts(byte: u8) -> bool {
        byte == SEQUENCE_TAG
    }

    fn known(&self) {
        self.certification_request_info.known();
        self.signature_algorithm.known();
        self.signature.known();
    }

    fn read(alloc: A, reader: &mut Reader<'_, A>) -> Result<Self, ReadError> {
        read_three::<
            Self,
            CertificationRequestInfo<A>,
            AlgorithmIdentifier<A>,
            One<BitStringAsn1<A>>,
            A,
        >(alloc, reader)
    }

    fn pass(alloc: A, reader: &mut Reader<'_, A>) -> Result<(), ReadError> {
        pass_three::<
            Self,
            CertificationRequestInfo<A>,
            AlgorithmIdentifier<A>,
            One<BitStringAsn1<A>>,
            A,
        >(alloc, reader)
    }
}

impl<A: Allocator + Copy> FromDer<A> for CertificationRequest<A> {
    ghost stands_alone = { (tt, tt) };
}
