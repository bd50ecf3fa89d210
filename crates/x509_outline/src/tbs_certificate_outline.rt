//! The part of a certificate that is signed, of which the frame alone is read.

ghost use Rattle.std.specs.Prelude.{◌≡◌, ◌++◌, refl, true, false, Err, IfOk, IfErr};
ghost use Rattle.x509_der.specs.Optional.{optional};
ghost use Rattle.x509_der.specs.Types.read_error.{OutOfMemory};
ghost use Rattle.x509_der.specs.View.{if_found, kinds_in, meant};
ghost use Rattle.x509_der.specs.laws.Meaning.{seen_lawful, seen_element};
ghost use Rattle.x509_outline.specs.Versions.{gone_fit, gone_kinds, version_in, written_version, version_kinds, list_in, written_list, list_kinds, is_absent, is_nil, ids_fit, extensions_fit, refusal_where};
ghost use Rattle.x509_outline.specs.TbsCertificates.{tbs_brief, tbs_fits, version_field, issuer_id_field, subject_id_field, extensions_field, tbs_base, is_fitting, tbs_means, tbs_meaning, tbs_refusal, tbs_certificate, tbs_back};
ghost use Rattle.x509_outline.specs.facts.TbsCertificates.{version_apart, issuer_id_apart, subject_id_apart, tbs_is, tbs_keeps};

use crate::required_fields::{RequiredFields, WrittenRequired, clone_required, from_required};
use crate::sequences::{pass_three_meanings, put_three, read_three_meanings};
use std::alloc::{AllocError, Allocator, Global};
use x509_der::parts::{
    Content, ContextConstructed, ContextPrimitive, Field, Join, Judge, One, Optional, Output,
    Reader, Ref, SEQUENCE_TAG, Sequence, Tagged, View, WholeDeviations, clone_three, known_there,
};
use x509_der::{
    BitStringAsn1, CloneEq, Deviation, FromDer, IntegerAsn1, ReadError, SameEq, ToDer, TooLong,
};
use x509_names::{Validity, Version};
use x509_outline_parts::{AlgorithmOutline, ExtensionsOutline, NameOutline, PublicKeyOutline};

/// The part of a certificate that is signed, with algorithms, attributes, keys and extensions of any kind. Parts that
/// don't fit the version are written as they are, and aren't read back.
///
/// # Encoding
/// `TBSCertificate ::= SEQUENCE { version [0] EXPLICIT Version DEFAULT v1, serialNumber INTEGER, signature
/// AlgorithmIdentifier, issuer Name, validity Validity, subject Name, subjectPublicKeyInfo SubjectPublicKeyInfo,
/// issuerUniqueID [1] IMPLICIT BIT STRING OPTIONAL, subjectUniqueID [2] IMPLICIT BIT STRING OPTIONAL, extensions [3]
/// EXPLICIT Extensions OPTIONAL }` (RFC 5280, 4.1).
///
/// Unique identifiers need version 2 or 3 (RFC 5280, 4.1.2.8), and extensions version 3 (4.1.2.9); others are refused
/// by `UniqueIdNeedsV2`, or else by `ExtensionsNeedV3`, where nothing else is wrong. An encoded version 1 is read with
/// the deviation `VersionZeroSpelled`, an encoded list of no extensions with `EmptyExtensionsSpelled`, both over the
/// whole, and neither is written. The serial number may be any number.
#[derive(Drop)]
#[derive_where(Debug, PartialEq, Eq)]
pub struct TbsCertificateOutline<A: Allocator = Global> {
    /// The version.
    pub version: Version,
    /// The serial number (RFC 5280, 4.1.2.2).
    pub serial_number: IntegerAsn1<A>,
    /// The algorithm of the signature (RFC 5280, 4.1.2.3).
    pub signature: AlgorithmOutline<A>,
    /// Who signs (RFC 5280, 4.1.2.4).
    pub issuer: NameOutline<A>,
    /// From when and until when (RFC 5280, 4.1.2.5).
    pub validity: Validity,
    /// Whose key is certified (RFC 5280, 4.1.2.6).
    pub subject: NameOutline<A>,
    /// The key that is certified (RFC 5280, 4.1.2.7).
    pub subject_public_key_info: PublicKeyOutline<A>,
    /// What tells issuers of one name apart (RFC 5280, 4.1.2.8).
    pub issuer_unique_id: Option<BitStringAsn1<A>>,
    /// What tells subjects of one name apart (RFC 5280, 4.1.2.8).
    pub subject_unique_id: Option<BitStringAsn1<A>>,
    /// The extensions (RFC 5280, 4.1.2.9); none are an empty list.
    pub extensions: ExtensionsOutline<A>,
}

impl<A: Allocator + Copy> Clone for TbsCertificateOutline<A> {
    ghost is_clone = { λ x y. y ≡ x };

    fn clone(&self) -> Result<Self, AllocError> {
        let required = clone_required(self)?;
        let behind = clone_three(
            &self.issuer_unique_id,
            &self.subject_unique_id,
            &self.extensions,
        );
        match behind {
            Ok((issuer, subject, extensions)) => {
                Ok(from_required(self.version, required, issuer, subject, extensions))
            }
            Err(refused) => {
                drop(required);
                Err(refused)
            }
        }
    }
}

impl<A: Allocator + Copy> CloneEq for TbsCertificateOutline<A> {
    ghost exact = { λ x y h. h };
}

impl<A: Allocator> SameEq for TbsCertificateOutline<A> {
    fn decides() {
        Version::decides();
        IntegerAsn1::<A>::decides();
        AlgorithmOutline::<A>::decides();
        NameOutline::<A>::decides();
        Validity::decides();
        PublicKeyOutline::<A>::decides();
        Option::<BitStringAsn1<A>>::decides();
        ExtensionsOutline::<A>::decides();
    }
}

/// The fields behind them, owned or borrowed.
type EndNest<B, E> = Join<
    Optional<Tagged<ContextPrimitive<1>, B>>,
    Join<
        Optional<Tagged<ContextPrimitive<2>, B>>,
        One<Optional<Tagged<ContextConstructed<3>, One<E>>>>,
    >,
>;

/// The fields behind them, owned.
type Ends<A> = EndNest<BitStringAsn1<A>, ExtensionsOutline<A>>;

/// The version, where it is encoded.
type SpelledVersion = Optional<Tagged<ContextConstructed<0>, One<Version>>>;

/// The fields behind the version, owned.
type AfterVersion<A> = Join<RequiredFields<A>, Ends<A>>;

/// The fields in the SEQUENCE, owned.
type Inner<A> = Join<SpelledVersion, AfterVersion<A>>;

/// The fields, owned.
type Fields<A> = Tagged<Sequence, Inner<A>>;

/// The fields behind those that every certificate has, borrowed.
type WrittenEnds<'a, A> = EndNest<Ref<'a, BitStringAsn1<A>>, Ref<'a, ExtensionsOutline<A>>>;

/// A version, to be written: none where it is version 1.
fn written_version(version: Version) -> SpelledVersion
    ensures { result ≡ written_version version }
{
    match version {
        Version::V1 => Optional(None),
        Version::V2 | Version::V3 => Optional(Some(Tagged::new(One(version)))),
    }
}

/// Whether a list of extensions is empty.
fn is_empty<A: Allocator>(extensions: &ExtensionsOutline<A>) -> bool
    ensures { result ≡ is_nil extensions.now }
{
    extensions.0.0.is_empty()
}

/// Extensions under their tag, to be written: none where the list is empty.
fn borrowed_extensions<A: Allocator>(
    extensions: &ExtensionsOutline<A>,
) -> Optional<Tagged<ContextConstructed<3>, One<Ref<'_, ExtensionsOutline<A>>>>>
    ensures { result ≡ written_list extensions.now }
{
    if is_empty(extensions) {
        Optional(None)
    } else {
        Optional(Some(Tagged::new(One(Ref(extensions)))))
    }
}

/// The fields behind them, to be written.
fn borrowed_ends<A: Allocator>(value: &TbsCertificateOutline<A>) -> WrittenEnds<'_, A>
    ensures { result ≡ (tbs_back value.now).1.1 }
{
    let issuer = Optional::borrowed_content(&value.issuer_unique_id);
    let subject = Optional::borrowed_content(&value.subject_unique_id);
    let extensions = borrowed_extensions(&value.extensions);
    Join(issuer, Join(subject, One(extensions)))
}

impl<A: Allocator> ToDer for TbsCertificateOutline<A> {
    ghost strict = { tbs_certificate.strict };

    fn put<O: Output>(&self, out: &mut [u8], at: usize) -> Result<usize, TooLong> {
        let version = written_version(self.version);
        let required = WrittenRequired(self);
        let ends = borrowed_ends(self);
        put_three::<O, _, _, _>(&version, &required, &ends, out, at)
    }
}

/// The version that is encoded, or version 1.
fn version_of(spelled: Option<Version>) -> Version
    ensures { result ≡ version_in spelled }
{
    match spelled {
        Some(version) => version,
        None => Version::V1,
    }
}

/// The deviation of a version 1 that is encoded.
fn spelled_first(spelled: Option<Version>) -> Option<Deviation>
    ensures { if_found result ≡ version_kinds spelled }
{
    match spelled {
        Some(Version::V1) => Some(Deviation::VersionZeroSpelled),
        Some(Version::V2 | Version::V3) | None => None,
    }
}

/// Whether a unique identifier is absent.
fn is_left_out<T>(id: &Option<T>) -> bool
    ensures { result ≡ is_absent id.now }
{
    match id {
        Some(_) => false,
        None => true,
    }
}

/// Whether the version has the unique identifiers that are there.
fn has_ids<A: Allocator>(value: &TbsCertificateOutline<A>) -> bool
    ensures { result ≡ ids_fit value.now.version value.now.issuer_unique_id value.now.subject_unique_id }
{
    match value.version {
        Version::V1 => {
            is_left_out(&value.issuer_unique_id) && is_left_out(&value.subject_unique_id)
        }
        Version::V2 | Version::V3 => true,
    }
}

/// The extensions that are encoded, or none.
fn extensions_of<A: Allocator>(
    alloc: A,
    spelled: Option<ExtensionsOutline<A>>,
) -> ExtensionsOutline<A>
    ensures { result ≡ list_in spelled }
{
    match spelled {
        Some(extensions) => extensions,
        None => ExtensionsOutline::from(Vec::new(alloc)),
    }
}

/// The deviation of an empty list of extensions that is encoded.
fn spelled_empty<A: Allocator>(spelled: &Option<ExtensionsOutline<A>>) -> Option<Deviation>
    ensures { if_found result ≡ list_kinds spelled.now }
{
    match spelled {
        Some(extensions) => {
            if is_empty(extensions) {
                Some(Deviation::EmptyExtensionsSpelled)
            } else {
                None
            }
        }
        None => None,
    }
}

/// The deviations over the whole.
fn found_in<A: Allocator>(
    version: Option<Version>,
    extensions: &Option<ExtensionsOutline<A>>,
) -> WholeDeviations
    ensures { kinds_in result ≡ version_kinds version ++ list_kinds extensions.now }
{
    WholeDeviations::of_two(spelled_first(version), spelled_empty(extensions))
}

/// Whether the version has the extensions that are there.
fn has_extensions<A: Allocator>(value: &TbsCertificateOutline<A>) -> bool
    ensures { result ≡ extensions_fit value.now.version value.now.extensions }
{
    match value.version {
        Version::V1 | Version::V2 => is_empty(&value.extensions),
        Version::V3 => true,
    }
}

/// Whether the version has the fields that are there.
fn fits<A: Allocator>(value: &TbsCertificateOutline<A>) -> bool
    ensures { result ≡ is_fitting value.now }
{
    has_ids(value) && has_extensions(value)
}

/// Why a value is refused whose version doesn't have its fields.
fn refusal_of<A: Allocator>(value: &TbsCertificateOutline<A>) -> ReadError
    ensures memory { result ≡ OutOfMemory → ⊥ }
    ensures name { result ≡ refusal_where
        (ids_fit value.now.version value.now.issuer_unique_id value.now.subject_unique_id) }
{
    if has_ids(value) {
        ReadError::ExtensionsNeedV3
    } else {
        ReadError::UniqueIdNeedsV2
    }
}

impl<A: Allocator + Copy> View<Fields<A>, A> for TbsCertificateOutline<A> {
    ghost base = { tbs_base };

    ghost view = { tbs_meaning };

    ghost keeps = { tbs_keeps (⟦<Version as Field<A>>⟧.lawful tt) (⟦<Tagged<ContextConstructed<0>, One<Version>> as Field<A>>⟧.lawful tt)
        (⟦<AfterVersion<A> as Content<A>>⟧.content_lawful (
          tt,
          (
            (tt, tt),
            ((tt, tt), (tt, tt), subject_id_apart),
            issuer_id_apart,
          ),
          λ c h. refl,
        ))
        (⟦<Inner<A> as Content<A>>⟧.content_lawful (
          (tt, tt),
          (
            tt,
            (
              (tt, tt),
              ((tt, tt), (tt, tt), subject_id_apart),
              issuer_id_apart,
            ),
            λ c h. refl,
          ),
          version_apart,
        )) };

    fn meaning(alloc: A, parts: Fields<A>) -> Result<(Self, WholeDeviations), ReadError>
        ensures meaning { tbs_means parts ≡ meant result }
        ensures refusal { result ≡ Err OutOfMemory → ⊥ }
        ensures name { IfErr result (λ e. e ≡ tbs_refusal parts) }
    {
        let Join(version, Join(required, Join(issuer, Join(subject, One(extensions))))) =
            parts.into_inner();
        let version = version.into_value();
        let extensions = extensions.into_value();
        let found = found_in(version, &extensions);
        let extensions = extensions_of(alloc, extensions);
        let issuer = issuer.into_inner();
        let subject = subject.into_inner();
        let value = from_required(version_of(version), required, issuer, subject, extensions);
        if fits(&value) {
            Ok((value, found))
        } else {
            let refusal = refusal_of(&value);
            // a proof in which a large value goes out of scope costs several times as much as this call
            drop(value);
            Err(refusal)
        }
    }
}

/// Says that a version is one of its type. It does nothing when it runs.
fn known_version(version: &Version)
    ensures { (optional version_field).valid (written_version version.now) }
{
    match version {
        Version::V1 | Version::V2 | Version::V3 => {}
    }
}

/// Says that extensions are of their type. It does nothing when it runs.
fn known_extensions<A: Allocator + Copy>(extensions: &ExtensionsOutline<A>)
    ensures { (optional extensions_field).valid (written_list extensions.now) }
{
    extensions.known();
    let _empty = is_empty(extensions);
}

/// What is kept of the fields behind those that every certificate has.
type EndsBrief = (Option<()>, (Option<()>, Option<bool>));

/// Whether the version has the unique identifiers that are there.
fn allows_ids(version: Version, issuer: Option<()>, subject: Option<()>) -> bool
    ensures { result ≡ ids_fit version issuer subject }
{
    match version {
        Version::V1 => is_left_out(&issuer) && is_left_out(&subject),
        Version::V2 | Version::V3 => true,
    }
}

/// Whether the version has the extensions, of which this is kept.
fn allows_list(version: Version, extensions: Option<bool>) -> bool
    ensures { result ≡ gone_fit version extensions }
{
    match version {
        Version::V1 | Version::V2 => extensions.unwrap_or(true),
        Version::V3 => true,
    }
}

/// The deviation of an empty list that is encoded, of which this is kept.
fn gone_empty(extensions: Option<bool>) -> Option<Deviation>
    ensures { if_found result ≡ gone_kinds extensions }
{
    match extensions {
        Some(true) => Some(Deviation::EmptyExtensionsSpelled),
        Some(false) | None => None,
    }
}

/// What the fields mean, of which this is kept.
fn judged(version: Option<Version>, ends: EndsBrief) -> Result<WholeDeviations, ReadError>
    ensures ok { IfOk result (λ w. (tbs_fits version ends ≡ true)
        × (kinds_in w ≡ version_kinds version ++ gone_kinds ends.1.1)) }
    ensures err { IfErr result (λ e. (tbs_fits version ends ≡ false) × (e ≡ OutOfMemory → ⊥)) }
{
    let (issuer, (subject, extensions)) = ends;
    let number = version_of(version);
    if !allows_ids(number, issuer, subject) {
        return Err(ReadError::UniqueIdNeedsV2);
    }
    if !allows_list(number, extensions) {
        return Err(ReadError::ExtensionsNeedV3);
    }
    Ok(WholeDeviations::of_two(spelled_first(version), gone_empty(extensions)))
}

impl<A: Allocator + Copy> Judge<Fields<A>, A> for TbsCertificateOutline<A> {
    type Glimpse = (Option<Version>, ((), EndsBrief));

    type Kept = ();

    ghost glimpse = { tbs_brief };

    ghost kept = { λ v. tt };

    fn judge(
        brief: (Option<Version>, ((), EndsBrief)),
    ) -> Result<((), WholeDeviations), ReadError> {
        let found = judged(brief.0, brief.1.1)?;
        Ok(((), found))
    }
}

impl<A: Allocator + Copy> Field<A> for TbsCertificateOutline<A> {
    type Brief = ();

    ghost brief = { λ v. tt };

    ghost shape = { tbs_certificate };

    ghost lawful = { λ h. seen_lawful tbs_meaning tbs_base ⟦<TbsCertificateOutline<A> as View<Fields<A>, A>>⟧.keeps };

    ghost elements = { λ h. seen_element tbs_meaning tbs_base (⟦<Fields<A> as Field<A>>⟧.elements tt) tbs_is };

    ghost agrees = { λ v. refl };

    fn starts(byte: u8) -> bool {
        byte == SEQUENCE_TAG
    }

    fn known(&self) {
        known_version(&self.version);
        self.serial_number.known();
        self.signature.known();
        self.issuer.known();
        Field::<A>::known(&self.validity);
        self.subject.known();
        self.subject_public_key_info.known();
        known_there::<BitStringAsn1<A>, A>(&self.issuer_unique_id);
        known_there::<BitStringAsn1<A>, A>(&self.subject_unique_id);
        known_extensions(&self.extensions);
    }

    fn read(alloc: A, reader: &mut Reader<'_, A>) -> Result<Self, ReadError> {
        read_three_meanings::<Self, SpelledVersion, RequiredFields<A>, Ends<A>, A>(alloc, reader)
    }

    fn pass(alloc: A, reader: &mut Reader<'_, A>) -> Result<(), ReadError> {
        pass_three_meanings::<Self, SpelledVersion, RequiredFields<A>, Ends<A>, A>(alloc, reader)
    }
}

impl<A: Allocator + Copy> FromDer<A> for TbsCertificateOutline<A> {
    ghost stands_alone = { (tt, tt) };
}
