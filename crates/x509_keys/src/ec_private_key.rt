//! Elliptic curve private keys.

ghost use Rattle.std.specs.Prelude.{◌≡◌, Err, IfErr, refl};
ghost use Rattle.x509_der.specs.Integer.{magnitude};
ghost use Rattle.x509_der.specs.Optional.{brief_if};
ghost use Rattle.x509_der.specs.Types.read_error.{BadVersion, OutOfMemory};
ghost use Rattle.x509_der.specs.View.{meant};
ghost use Rattle.x509_der.specs.laws.Meaning.{sequence_keeps, seen_lawful, seen_element};
ghost use Rattle.x509_keys.specs.EcPrivateKeys.{OptionalFields, optional_parts, ec_key_optional, ec_key_parts, ec_key_inner, ec_key_base, is_one, is_byte_one, ec_key_meaning, ec_private_key};
ghost use Rattle.x509_keys.specs.facts.EcPrivateKeys.{ec_key_is, ec_key_one, point_apart};

use crate::public_key::EncapsulatedEcPoint;
use std::alloc::{Allocator, Global};
use std::marker::Model;
use x509_der::parts::{
    Content, ContextConstructed, Field, Join, Judge, One, Optional, Output, Reader, Ref,
    SEQUENCE_TAG, Sequence, Tagged, ToContent, View, WholeDeviations, known_there, pass_viewed,
    put_element, read_viewed,
};
use x509_der::{
    CloneEq, FromDer, IntegerAsn1, Magnitude, OctetStringAsn1, ReadError, SameEq, ToDer, TooLong,
};
use x509_keys_parts::EcParameters;

/// The private key of an elliptic curve, and perhaps the curve and the public key. They aren't looked into.
///
/// # Encoding
/// `ECPrivateKey ::= SEQUENCE { version INTEGER { ecPrivkeyVer1(1) } (ecPrivkeyVer1), privateKey OCTET STRING,
/// parameters [0] EXPLICIT ECParameters OPTIONAL, publicKey [1] EXPLICIT BIT STRING OPTIONAL }` (RFC 5915, 3). Another
/// version than 1 is refused; a value with another is written as it is, and isn't read back.
#[derive(Drop)]
#[derive_where(Debug, PartialEq, Eq)]
#[derive_where(Clone; A: Copy)]
pub struct ECPrivateKey<A: Allocator = Global> {
    /// The version: 1 where it is read.
    pub version: IntegerAsn1<A>,
    /// The private key, a number in as many octets as the order of the curve has.
    pub private_key: OctetStringAsn1<A>,
    /// The curve.
    pub parameters: Option<EcParameters<A>>,
    /// The public key, a point of the curve.
    pub public_key: Option<EncapsulatedEcPoint<A>>,
}

impl<A: Allocator + Copy> CloneEq for ECPrivateKey<A> {
    ghost use Rattle.std.proofs.Common.{rules};

    ghost exact = { Prim.search (rules) };
}

impl<A: Allocator> SameEq for ECPrivateKey<A> {
    fn decides() {
        IntegerAsn1::<A>::decides();
        OctetStringAsn1::<A>::decides();
        Option::<EcParameters<A>>::decides();
        Option::<EncapsulatedEcPoint<A>>::decides();
    }
}

/// The fields that may be absent, owned or borrowed.
type OptionalNest<E, B> = Join<
    Optional<Tagged<ContextConstructed<0>, One<E>>>,
    One<Optional<Tagged<ContextConstructed<1>, One<B>>>>,
>;

/// The fields in the SEQUENCE, owned.
type Inner<A> = Join<
    IntegerAsn1<A>,
    Join<OctetStringAsn1<A>, OptionalNest<EcParameters<A>, EncapsulatedEcPoint<A>>>,
>;

/// The fields, owned.
type Fields<A> = Tagged<Sequence, Inner<A>>;

/// The fields of a key that may be absent, to be written: apart, since a proof about a nest of all is too deep.
#[derive(Drop)]
struct OptionalOf<'a, A: Allocator>(&'a ECPrivateKey<A>);

impl<'a, A: Allocator> Model for OptionalOf<'a, A> {
    ghost Value = { OptionalFields A };

    ghost view = { λ o. optional_parts o.0.now };
}

/// The fields that may be absent.
fn optional<A: Allocator>(
    key: &ECPrivateKey<A>,
) -> OptionalNest<Ref<'_, EcParameters<A>>, Ref<'_, EncapsulatedEcPoint<A>>>
    ensures { result ≡ optional_parts key.now }
{
    let point = One(Optional::borrowed_element(&key.public_key));
    Join(Optional::borrowed_element(&key.parameters), point)
}

impl<'a, A: Allocator> ToContent for OptionalOf<'a, A> {
    ghost content = { ec_key_optional.strict };

    fn put_content<O: Output>(&self, out: &mut [u8], at: usize) -> Result<usize, TooLong> {
        optional(self.0).put_content::<O>(out, at)
    }
}

/// The fields that are written, borrowed.
type Written<'a, A> = Join<
    Ref<'a, IntegerAsn1<A>>,
    Join<Ref<'a, OctetStringAsn1<A>>, OptionalOf<'a, A>>,
>;

/// Whether a version is 1.
fn is_version_1<A: Allocator>(version: &IntegerAsn1<A>) -> bool
    ensures { result ≡ is_one version.now }
{
    match version.as_bytes() {
        [byte] => *byte == 1,
        _ => false,
    }
}

/// The fields of a key, to be written.
fn written<A: Allocator>(key: &ECPrivateKey<A>) -> Written<'_, A>
    ensures { result ≡ ec_key_parts key.now }
{
    Join(
        Ref(&key.version),
        Join(Ref(&key.private_key), OptionalOf(key)),
    )
}

impl<A: Allocator> ToDer for ECPrivateKey<A> {
    ghost strict = { λ v. ec_key_base.strict (ec_key_parts v) };

    fn put<O: Output>(&self, out: &mut [u8], at: usize) -> Result<usize, TooLong> {
        put_element::<O, _>(SEQUENCE_TAG, &written(self), out, at)
    }
}

impl<A: Allocator + Copy> View<Fields<A>, A> for ECPrivateKey<A> {
    ghost base = { ec_key_base };

    ghost view = { ec_key_meaning };

    ghost keeps = { sequence_keeps ec_key_meaning ec_key_inner
        (⟦<Inner<A> as Content<A>>⟧.content_lawful (
          tt,
          (tt, ((tt, tt), (tt, tt), point_apart), λ c h. refl),
          λ c
              h. refl,
        )) ec_key_is ec_key_one };

    fn meaning(_alloc: A, parts: Fields<A>) -> Result<(Self, WholeDeviations), ReadError>
        ensures meaning { ec_key_meaning.of parts ≡ meant result }
        ensures refusal { result ≡ Err OutOfMemory → ⊥ }
        ensures name { IfErr result (λ e. e ≡ BadVersion) }
    {
        let Join(version, Join(private_key, optional)) = parts.into_inner();
        let Join(parameters, One(public_key)) = optional;
        let key = ECPrivateKey {
            version,
            private_key,
            parameters: parameters.into_value(),
            public_key: public_key.into_value(),
        };
        if is_version_1(&key.version) {
            Ok((key, WholeDeviations::Nothing))
        } else {
            drop(key);
            Err(ReadError::BadVersion)
        }
    }
}

/// Whether a version that is so large is 1.
fn is_byte_one(version: Magnitude) -> bool
    ensures { result ≡ is_byte_one version }
{
    match version {
        Magnitude::Byte(byte) => byte == 1,
        Magnitude::Negative | Magnitude::Small | Magnitude::Large => false,
    }
}

impl<A: Allocator + Copy> Judge<Fields<A>, A> for ECPrivateKey<A> {
    type Glimpse = (Magnitude, ((), (Option<()>, Option<()>)));

    type Kept = ();

    ghost glimpse = { λ f. (magnitude f.0, (tt, (brief_if (λ p. tt) f.1.1.0, brief_if (λ b. tt) f.1.1.1))) };

    ghost kept = { λ v. tt };

    fn judge(brief: Self::Glimpse) -> Result<((), WholeDeviations), ReadError> {
        let (version, _rest) = brief;
        if is_byte_one(version) {
            Ok(((), WholeDeviations::Nothing))
        } else {
            Err(ReadError::BadVersion)
        }
    }
}

impl<A: Allocator + Copy> Field<A> for ECPrivateKey<A> {
    type Brief = ();

    ghost brief = { λ v. tt };

    ghost shape = { ec_private_key };

    ghost lawful = { λ h. seen_lawful ec_key_meaning ec_key_base ⟦<ECPrivateKey<A> as View<Fields<A>, A>>⟧.keeps };

    ghost elements = { λ h. seen_element ec_key_meaning ec_key_base (⟦<Fields<A> as Field<A>>⟧.elements tt)
        ec_key_is };

    ghost agrees = { λ v. refl };

    fn starts(byte: u8) -> bool {
        byte == SEQUENCE_TAG
    }

    fn known(&self) {
        self.version.known();
        self.private_key.known();
        known_there::<EcParameters<A>, A>(&self.parameters);
        known_there::<EncapsulatedEcPoint<A>, A>(&self.public_key);
    }

    fn read(alloc: A, reader: &mut Reader<'_, A>) -> Result<Self, ReadError> {
        read_viewed::<Self, Fields<A>, A>(alloc, reader)
    }

    fn pass(alloc: A, reader: &mut Reader<'_, A>) -> Result<(), ReadError> {
        pass_viewed::<Self, Fields<A>, A>(alloc, reader)
    }
}

impl<A: Allocator + Copy> FromDer<A> for ECPrivateKey<A> {
    ghost stands_alone = { (tt, tt) };
}
