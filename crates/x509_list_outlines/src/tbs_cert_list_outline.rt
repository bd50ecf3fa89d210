//! The part of a revocation list that is signed, of which the frame alone is read.

ghost use Rattle.std.specs.Prelude.{◌≡◌, refl, true, false, Err, IfOk, IfErr};
ghost use Rattle.x509_der.specs.Optional.{optional};
ghost use Rattle.x509_der.specs.Types.read_error.{BadVersion, OutOfMemory};
ghost use Rattle.x509_der.specs.View.{kinds_in, meant};
ghost use Rattle.x509_der.specs.laws.Meaning.{sequence_keeps, seen_lawful, seen_element};
ghost use Rattle.x509_names.specs.Versions.{version as versions};
ghost use Rattle.x509_outline.specs.Versions.{gone_kinds, version_in, written_version, written_list};
ghost use Rattle.x509_list_outlines.specs.TbsCertLists.{version_fits, tbs_list_brief, tbs_list_inner, tbs_list_base, tbs_list_means, tbs_list_meaning, tbs_list, tbs_list_back};
ghost use Rattle.x509_list_outlines.specs.facts.TbsCertLists.{version_apart, next_update_apart, revoked_apart, tbs_list_is, tbs_list_one};

use crate::extension_lists::{
    extensions_of, gone_empty, is_empty, known_extensions, spelled_empty,
};
use crate::required_fields::{RequiredFields, WrittenRequired, clone_required, from_required};
use crate::revoked_certificate_outline::RevokedCertificateOutline;
use std::alloc::{AllocError, Allocator, Global};
use x509_der::parts::{
    Content, ContextConstructed, Field, Join, Judge, One, Optional, Output, Reader, Ref,
    SEQUENCE_TAG, Sequence, Tagged, View, WholeDeviations, clone_three, known_there,
};
use x509_der::{Asn1SequenceOf, CloneEq, FromDer, ReadError, SameEq, ToDer, TooLong};
use x509_names::{Time, Version};
use x509_outline::sequences::{pass_three_meanings, put_three, read_three_meanings};
use x509_outline_parts::{AlgorithmOutline, ExtensionsOutline, NameOutline};

/// The part of a revocation list that is signed, with algorithms, attributes and extensions of any kind.
///
/// # Encoding
/// `TBSCertList ::= SEQUENCE { version Version OPTIONAL, signature AlgorithmIdentifier, issuer Name, thisUpdate Time,
/// nextUpdate Time OPTIONAL, revokedCertificates SEQUENCE OF SEQUENCE { userCertificate CertificateSerialNumber,
/// revocationDate Time, crlEntryExtensions Extensions OPTIONAL } OPTIONAL, crlExtensions [0] EXPLICIT Extensions
/// OPTIONAL }` (RFC 5280, 5.1).
///
/// A version that is encoded is version 2 (RFC 5280, 5.1.2.1); others are refused by `BadVersion`, where nothing else is
/// wrong, and a value of version 3 is written as it is and isn't read back. Whether the version has the extensions that
/// are there isn't looked at. An encoded list of no extensions is read with the deviation `EmptyExtensionsSpelled` over
/// the whole, and isn't written.
#[derive(Drop)]
#[derive_where(Debug, PartialEq, Eq)]
pub struct TbsCertListOutline<A: Allocator = Global> {
    /// The version: 1 where none is encoded, or 2.
    pub version: Version,
    /// The algorithm of the signature (RFC 5280, 5.1.2.2).
    pub signature: AlgorithmOutline<A>,
    /// Who signs (RFC 5280, 5.1.2.3).
    pub issuer: NameOutline<A>,
    /// When the list was issued (RFC 5280, 5.1.2.4).
    pub this_update: Time,
    /// By when the next one is issued (RFC 5280, 5.1.2.5).
    pub next_update: Option<Time>,
    /// The certificates that are revoked (RFC 5280, 5.1.2.6). An empty list is another value than none.
    pub revoked_certificates: Option<Asn1SequenceOf<RevokedCertificateOutline<A>, A>>,
    /// The extensions (RFC 5280, 5.1.2.7); none are an empty list.
    pub crl_extensions: ExtensionsOutline<A>,
}

/// The certificates that are revoked.
type Revoked<A> = Asn1SequenceOf<RevokedCertificateOutline<A>, A>;

impl<A: Allocator + Copy> Clone for TbsCertListOutline<A> {
    ghost is_clone = { λ x y. y ≡ x };

    fn clone(&self) -> Result<Self, AllocError> {
        let required = clone_required(self)?;
        let behind = clone_three(
            &self.next_update,
            &self.revoked_certificates,
            &self.crl_extensions,
        );
        match behind {
            Ok((next_update, revoked, extensions)) => {
                Ok(from_required(self.version, required, next_update, revoked, extensions))
            }
            Err(refused) => {
                drop(required);
                Err(refused)
            }
        }
    }
}

impl<A: Allocator + Copy> CloneEq for TbsCertListOutline<A> {
    ghost exact = { λ x y h. h };
}

impl<A: Allocator> SameEq for TbsCertListOutline<A> {
    fn decides() {
        Version::decides();
        AlgorithmOutline::<A>::decides();
        NameOutline::<A>::decides();
        Time::decides();
        Option::<Time>::decides();
        Option::<Revoked<A>>::decides();
        ExtensionsOutline::<A>::decides();
    }
}

/// The fields behind those that every list has, owned or borrowed.
type EndNest<T, R, E> = Join<
    Optional<T>,
    Join<Optional<R>, One<Optional<Tagged<ContextConstructed<0>, One<E>>>>>,
>;

/// The fields behind those that every list has, owned.
type Ends<A> = EndNest<Time, Revoked<A>, ExtensionsOutline<A>>;

/// The version, where it is encoded.
type SpelledVersion = Optional<Version>;

/// The fields in the SEQUENCE, owned.
type Inner<A> = Join<SpelledVersion, Join<RequiredFields<A>, Ends<A>>>;

/// The fields, owned.
type Fields<A> = Tagged<Sequence, Inner<A>>;

/// The fields behind those that every list has, borrowed.
type WrittenEnds<'a, A> = EndNest<
    Ref<'a, Time>,
    Ref<'a, Revoked<A>>,
    Ref<'a, ExtensionsOutline<A>>,
>;

/// A version, to be written: none where it is version 1.
fn written_version(version: Version) -> SpelledVersion
    ensures { result ≡ written_version version }
{
    match version {
        Version::V1 => Optional(None),
        Version::V2 | Version::V3 => Optional(Some(version)),
    }
}

/// Extensions under their tag, to be written: none where the list is empty.
fn borrowed_extensions<A: Allocator>(
    extensions: &ExtensionsOutline<A>,
) -> Optional<Tagged<ContextConstructed<0>, One<Ref<'_, ExtensionsOutline<A>>>>>
    ensures { result ≡ written_list extensions.now }
{
    if is_empty(extensions) {
        Optional(None)
    } else {
        Optional(Some(Tagged::new(One(Ref(extensions)))))
    }
}

/// The fields behind those that every list has, to be written.
fn borrowed_ends<A: Allocator>(value: &TbsCertListOutline<A>) -> WrittenEnds<'_, A>
    ensures { result ≡ (tbs_list_back value.now).1.1 }
{
    let next_update = Optional::borrowed(&value.next_update);
    let revoked = Optional::borrowed(&value.revoked_certificates);
    let extensions = borrowed_extensions(&value.crl_extensions);
    Join(next_update, Join(revoked, One(extensions)))
}

impl<A: Allocator> ToDer for TbsCertListOutline<A> {
    ghost strict = { tbs_list.strict };

    fn put<O: Output>(&self, out: &mut [u8], at: usize) -> Result<usize, TooLong> {
        let version = written_version(self.version);
        let required = WrittenRequired(self);
        let ends = borrowed_ends(self);
        put_three::<O, _, _, _>(&version, &required, &ends, out, at)
    }
}

/// The version that is encoded, or version 1.
fn version_of(spelled: Option<Version>) -> Version
    ensures { result ≡ version_in spelled }
{
    match spelled {
        Some(version) => version,
        None => Version::V1,
    }
}

/// Whether a version that is encoded is version 2.
fn fits(spelled: Option<Version>) -> bool
    ensures { result ≡ version_fits spelled }
{
    match spelled {
        Some(Version::V2) | None => true,
        Some(Version::V1 | Version::V3) => false,
    }
}

impl<A: Allocator + Copy> View<Fields<A>, A> for TbsCertListOutline<A> {
    ghost base = { tbs_list_base };

    ghost view = { tbs_list_meaning };

    ghost keeps = { sequence_keeps tbs_list_meaning tbs_list_inner
        (⟦<Inner<A> as Content<A>>⟧.content_lawful (
          (tt, tt),
          (
            tt,
            (
              (tt, tt),
              (((tt, tt), tt), (tt, tt), revoked_apart),
              next_update_apart,
            ),
            λ c h. refl,
          ),
          version_apart,
        )) tbs_list_is tbs_list_one };

    fn meaning(alloc: A, parts: Fields<A>) -> Result<(Self, WholeDeviations), ReadError>
        ensures meaning { tbs_list_means parts ≡ meant result }
        ensures refusal { result ≡ Err OutOfMemory → ⊥ }
        ensures name { IfErr result (λ e. e ≡ BadVersion) }
    {
        let Join(version, Join(required, Join(next_update, Join(revoked, One(extensions))))) =
            parts.into_inner();
        let version = version.0;
        let extensions = extensions.into_value();
        let found = WholeDeviations::of(spelled_empty(&extensions));
        let extensions = extensions_of(alloc, extensions);
        let value = from_required(
            version_of(version),
            required,
            next_update.0,
            revoked.0,
            extensions,
        );
        if fits(version) {
            Ok((value, found))
        } else {
            // a proof in which a large value goes out of scope costs several times as much as this call
            drop(value);
            Err(ReadError::BadVersion)
        }
    }
}

/// Says that a version is one of its type. It does nothing when it runs.
fn known_version(version: &Version)
    ensures { (optional versions).valid (written_version version.now) }
{
    match version {
        Version::V1 | Version::V2 | Version::V3 => {}
    }
}

/// What is kept of the fields behind those that every list has.
type EndsBrief = (Option<()>, (Option<bool>, Option<bool>));

/// What the fields mean, of which this is kept.
fn judged(version: Option<Version>, ends: EndsBrief) -> Result<WholeDeviations, ReadError>
    ensures ok { IfOk result (λ w. (version_fits version ≡ true) × (kinds_in w ≡ gone_kinds ends.1.1)) }
    ensures err { IfErr result (λ e. (version_fits version ≡ false) × (e ≡ OutOfMemory → ⊥)) }
{
    let (_next_update, (_revoked, extensions)) = ends;
    if !fits(version) {
        return Err(ReadError::BadVersion);
    }
    Ok(WholeDeviations::of(gone_empty(extensions)))
}

impl<A: Allocator + Copy> Judge<Fields<A>, A> for TbsCertListOutline<A> {
    type Glimpse = (Option<Version>, ((), EndsBrief));

    type Kept = ();

    ghost glimpse = { tbs_list_brief };

    ghost kept = { λ v. tt };

    fn judge(
        brief: (Option<Version>, ((), EndsBrief)),
    ) -> Result<((), WholeDeviations), ReadError> {
        let found = judged(brief.0, brief.1.1)?;
        Ok(((), found))
    }
}

impl<A: Allocator + Copy> Field<A> for TbsCertListOutline<A> {
    type Brief = ();

    ghost brief = { λ v. tt };

    ghost shape = { tbs_list };

    ghost lawful = { λ h. seen_lawful tbs_list_meaning tbs_list_base ⟦<TbsCertListOutline<A> as View<Fields<A>, A>>⟧.keeps };

    ghost elements = { λ h. seen_element tbs_list_meaning tbs_list_base (⟦<Fields<A> as Field<A>>⟧.elements tt)
        tbs_list_is };

    ghost agrees = { λ v. refl };

    fn starts(byte: u8) -> bool {
        byte == SEQUENCE_TAG
    }

    fn known(&self) {
        known_version(&self.version);
        self.signature.known();
        self.issuer.known();
        Field::<A>::known(&self.this_update);
        known_there::<Time, A>(&self.next_update);
        known_there::<Revoked<A>, A>(&self.revoked_certificates);
        known_extensions(&self.crl_extensions);
    }

    fn read(alloc: A, reader: &mut Reader<'_, A>) -> Result<Self, ReadError> {
        read_three_meanings::<Self, SpelledVersion, RequiredFields<A>, Ends<A>, A>(alloc, reader)
    }

    fn pass(alloc: A, reader: &mut Reader<'_, A>) -> Result<(), ReadError> {
        pass_three_meanings::<Self, SpelledVersion, RequiredFields<A>, Ends<A>, A>(alloc, reader)
    }
}

impl<A: Allocator + Copy> FromDer<A> for TbsCertListOutline<A> {
    ghost stands_alone = { (tt, tt) };
}
