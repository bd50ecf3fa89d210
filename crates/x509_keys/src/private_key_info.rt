//! Private keys and their algorithms.

ghost use Rattle.std.specs.Prelude.{◌≡◌, [], ◌∷◌, Option, Some, None, Err, IfOk, IfErr, refl};
ghost use Rattle.x509_der.specs.Element.{element};
ghost use Rattle.x509_der.specs.Optional.{brief_if, optional, optional_strict};
ghost use Rattle.x509_der.specs.Types.read_error.{BadVersion, OutOfMemory};
ghost use Rattle.x509_der.specs.View.{meant};
ghost use Rattle.x509_der.specs.laws.Meaning.{sequence_keeps, seen_lawful, seen_element};
ghost use Rattle.x509_keys.specs.PrivateKeyInfos.{is_version, info_public_key, info_inner, info_base, info_meaning, private_key_info, info_bytes, curve_unless, version_with, info_with, rsa_info, ec_info, ed_info};
ghost use Rattle.x509_keys.specs.EcPrivateKeys.{ec_key_with};
ghost use Rattle.x509_keys_parts.specs.KeyKinds.{key_kind, rsa_encryption};
ghost use Rattle.x509_keys_parts.specs.AlgorithmIdentifier.{identified};
ghost use Rattle.x509_keys_parts.specs.declared.algorithm_parameters.AlgorithmIdentifierParameters.TheVariants as parameters;
ghost use Rattle.x509_keys.specs.facts.PrivateKeyInfos.{info_is, info_one, info_agrees, public_key_apart};

use crate::ec_private_key::ECPrivateKey;
use crate::private_key_value::PrivateKeyValue;
use crate::rsa_private_key::RsaPrivateKey;
use crate::skipping::{SkippedTags, Skipping, deviation_of, deviation_of_held, read_skipping};
use std::alloc::{AllocError, Allocator, Global};
use x509_der::parts::{
    AnyDefinedBy, BorrowedBits, Content, ContextConstructed, DefinedBy, Field, Join, Judge, One,
    Optional, Output, Reader, Ref, SEQUENCE_TAG, Sequence, Tagged, View, WholeDeviations,
    clone_three, pass_viewed,
};
use x509_der::{
    BitString, BitStringAsn1, CloneEq, Deviation, FromDer, IntegerAsn1, ObjectIdentifier,
    OctetStringAsn1, OctetStringAsn1Container, RawIn, ReadError, SameEq, ToDer, TooLong,
};
use x509_keys_parts::algorithm_identifier::new_unchecked;
use x509_keys_parts::key_kind::KeyKind;
use x509_keys_parts::{AlgorithmIdentifier, AlgorithmIdentifierParameters, EcParameters};

/// The version of a private key that stands without its public key, as most keys of RSA and elliptic curves do (RFC
/// 5958, 2).
pub const PRIVATE_KEY_INFO_VERSION_1: u8 = 0;

/// The version of a private key that stands together with its public key (RFC 5958, 2).
pub const PRIVATE_KEY_INFO_VERSION_2: u8 = 1;

/// A private key and its algorithm, and perhaps the public key: `OneAsymmetricKey`, which was `PrivateKeyInfo` of RFC
/// 5208.
///
/// # Encoding
/// `SEQUENCE { version INTEGER { v1(0), v2(1) }, privateKeyAlgorithm AlgorithmIdentifier, privateKey OCTET STRING,
/// publicKey [1] EXPLICIT BIT STRING OPTIONAL }`, after RFC 5958, 2, where the public key's tag is IMPLICIT.
///
/// | Algorithm | Private key, in the OCTET STRING |
/// |---|---|
/// | RSA, 1.2.840.113549.1.1.1 | [`PrivateKeyValue::Rsa`]: `RSAPrivateKey` (RFC 8017, A.1.2) |
/// | elliptic curves, 1.2.840.10045.2.1 | [`PrivateKeyValue::EC`]: `ECPrivateKey` (RFC 5915, 3) |
/// | Ed25519, X25519, Ed448, X448 | [`PrivateKeyValue::ED`]: `CurvePrivateKey`, an OCTET STRING (RFC 8410, 7) |
///
/// Keys of other algorithms and of other versions are refused. Behind the private key and before the public key one
/// element with any tag but A1, such as `attributes [0]`, is skipped: it is read with the deviation `SkippedKeyElement`
/// over the whole, and isn't kept.
/// Whether the version and the public key go together isn't looked at. A value of another version, or whose key isn't
/// of its algorithm's kind, is written by its parts, and isn't read back.
#[derive(Drop)]
#[derive_where(Debug, PartialEq, Eq)]
pub struct PrivateKeyInfo<A: Allocator = Global> {
    /// The version: 0 or 1 where it is read.
    pub version: u8,
    /// The algorithm.
    pub private_key_algorithm: AlgorithmIdentifier<A>,
    /// The private key.
    pub private_key: PrivateKeyValue<A>,
    /// The public key.
    pub public_key: Option<BitString<A>>,
}

/// The algorithm of RSA keys, and the version of those that have two primes.
///
/// # Errors
/// `AllocError` where memory is refused.
fn rsa_start<A: Allocator + Copy>(
    alloc: A,
) -> Result<(AlgorithmIdentifier<A>, IntegerAsn1<A>), AllocError>
    ensures { IfOk result (λ p. p ≡ (identified rsa_encryption parameters.Null, 0 ∷ [])) }
{
    let version = IntegerAsn1::zero(alloc)?;
    let algorithm = AlgorithmIdentifier::new_rsa_encryption(alloc)?;
    Ok((algorithm, version))
}

/// The curve inside an elliptic curve key, unless it is left out.
///
/// # Errors
/// `AllocError` where memory is refused.
fn inner_curve<A: Allocator + Copy>(
    curve: &ObjectIdentifier<A>,
    leave_out: bool,
) -> Result<Option<EcParameters<A>>, AllocError>
    ensures { IfOk result (λ p. p ≡ curve_unless leave_out curve.now) }
{
    if leave_out {
        return Ok(None);
    }
    let curve = curve.clone()?;
    Ok(Some(EcParameters::from(curve)))
}

/// A public key inside an elliptic curve key, where there is one.
fn inner_point<A: Allocator>(point: Option<BitString<A>>) -> Option<BitStringAsn1<A>>
    ensures { result ≡ point }
{
    match point {
        Some(bits) => Some(BitStringAsn1(bits)),
        None => None,
    }
}

/// An elliptic curve key.
///
/// # Errors
/// `AllocError` where memory is refused; what was given is dropped.
fn ec_key<A: Allocator + Copy>(
    alloc: A,
    secret: OctetStringAsn1<A>,
    parameters: Option<EcParameters<A>>,
    point: Option<BitString<A>>,
) -> Result<ECPrivateKey<A>, AllocError>
    ensures { IfOk result (λ k. k ≡ ec_key_with (1 ∷ []) secret parameters point) }
{
    let version = IntegerAsn1::from_u64(alloc, 1)?;
    Ok(ECPrivateKey {
        version,
        private_key: secret,
        parameters,
        public_key: inner_point(point),
    })
}

/// A private key that stands without its public key.
fn without_public_key<A: Allocator>(
    private_key_algorithm: AlgorithmIdentifier<A>,
    private_key: PrivateKeyValue<A>,
) -> PrivateKeyInfo<A>
    ensures { result ≡ info_with 0 private_key_algorithm private_key None }
{
    PrivateKeyInfo {
        version: PRIVATE_KEY_INFO_VERSION_1,
        private_key_algorithm,
        private_key,
        public_key: None,
    }
}

/// The version where a public key is given, and where none is.
fn version_for<A: Allocator>(public_key: &Option<BitString<A>>) -> u8
    ensures { result ≡ version_with public_key.now }
{
    match public_key {
        Some(_) => PRIVATE_KEY_INFO_VERSION_2,
        None => PRIVATE_KEY_INFO_VERSION_1,
    }
}

impl<A: Allocator + Copy> PrivateKeyInfo<A> {
    /// An RSA key with two primes: the inner and the outer version are 0, and there is no public key outside.
    ///
    /// # Errors
    /// `AllocError` where memory is refused; the numbers are dropped.
    pub fn new_rsa_encryption(
        alloc: A,
        modulus: IntegerAsn1<A>,
        public_exponent: IntegerAsn1<A>,
        private_exponent: IntegerAsn1<A>,
        primes: (IntegerAsn1<A>, IntegerAsn1<A>),
        exponents: (IntegerAsn1<A>, IntegerAsn1<A>),
        coefficient: IntegerAsn1<A>,
    ) -> Result<Self, AllocError>
        ensures { IfOk result (λ v. v ≡ rsa_info (record {
          version = 0 ∷ [];
          modulus = modulus;
          public_exponent = public_exponent;
          private_exponent = private_exponent;
          prime_1 = primes.0;
          prime_2 = primes.1;
          exponent_1 = exponents.0;
          exponent_2 = exponents.1;
          coefficient = coefficient;
        })) }
    {
        let (private_key_algorithm, version) = rsa_start(alloc)?;
        let key = RsaPrivateKey {
            version,
            modulus,
            public_exponent,
            private_exponent,
            prime_1: primes.0,
            prime_2: primes.1,
            exponent_1: exponents.0,
            exponent_2: exponents.1,
            coefficient,
        };
        let private_key = PrivateKeyValue::Rsa(OctetStringAsn1Container(key));
        Ok(without_public_key(private_key_algorithm, private_key))
    }

    /// A key of the elliptic curve that has an object identifier. The inner version is 1, the outer one 0. Where
    /// `skip_optional_params` is false, the curve stands inside the key too. A point is the public key inside the key;
    /// outside there is none.
    ///
    /// # Errors
    /// `AllocError` where memory is refused; the curve, the secret and the point are dropped.
    pub fn new_ec_encryption(
        alloc: A,
        curve: ObjectIdentifier<A>,
        secret: OctetStringAsn1<A>,
        point: Option<BitString<A>>,
        skip_optional_params: bool,
    ) -> Result<Self, AllocError>
        ensures { IfOk result (λ v. v ≡ ec_info curve (ec_key_with (1 ∷ []) secret
            (curve_unless skip_optional_params curve) point)) }
    {
        let parameters = inner_curve(&curve, skip_optional_params)?;
        let key = ec_key(alloc, secret, parameters, point)?;
        let private_key_algorithm = AlgorithmIdentifier::new_elliptic_curve(
            alloc,
            EcParameters::from(curve),
        )?;
        let private_key = PrivateKeyValue::EC(OctetStringAsn1Container(key));
        Ok(without_public_key(private_key_algorithm, private_key))
    }
}

impl<A: Allocator> PrivateKeyInfo<A> {
    /// A key of an algorithm without parameters, such as Ed25519: version 1 where a public key is given, else 0. Where
    /// the algorithm is another than Ed25519, X25519, Ed448 or X448, what is written isn't read back as this value.
    /// Takes no memory.
    pub fn new_ed_encryption(
        algorithm: ObjectIdentifier<A>,
        secret: OctetStringAsn1<A>,
        public_key: Option<BitString<A>>,
    ) -> Self
        ensures { result ≡ ed_info algorithm secret public_key }
    {
        PrivateKeyInfo {
            version: version_for(&public_key),
            private_key_algorithm: new_unchecked(algorithm, AlgorithmIdentifierParameters::None),
            private_key: PrivateKeyValue::ED(OctetStringAsn1Container(secret)),
            public_key,
        }
    }
}

impl<A: Allocator + Copy> Clone for PrivateKeyInfo<A> {
    ghost is_clone = { λ x y. y ≡ x };

    fn clone(&self) -> Result<Self, AllocError> {
        let (private_key_algorithm, private_key, public_key) = clone_three(
            &self.private_key_algorithm,
            &self.private_key,
            &self.public_key,
        )?;
        Ok(PrivateKeyInfo {
            version: self.version,
            private_key_algorithm,
            private_key,
            public_key,
        })
    }
}

impl<A: Allocator + Copy> CloneEq for PrivateKeyInfo<A> {
    ghost exact = { λ x y h. h };
}

impl<A: Allocator> SameEq for PrivateKeyInfo<A> {
    fn decides() {
        u8::decides();
        AlgorithmIdentifier::<A>::decides();
        PrivateKeyValue::<A>::decides();
        Option::<BitString<A>>::decides();
    }
}

/// The public key under its tag, where there is one.
type WrittenPublicKey<'a> = Optional<Tagged<ContextConstructed<1>, One<BorrowedBits<'a>>>>;

/// The public key, to be written, where there is one.
fn borrowed_public_key<A: Allocator>(public_key: &Option<BitString<A>>) -> WrittenPublicKey<'_>
    ensures { optional_strict (λ b. element 161 (element 3 b)) result ≡ optional_strict info_public_key.strict
        public_key.now }
{
    match public_key {
        Some(bits) => Optional(Some(Tagged::new(One(BorrowedBits::of(bits))))),
        None => Optional(None),
    }
}

/// The fields that are written: the algorithm and the key, owned or borrowed, and the public key.
type Nest<'a, K, V> = Tagged<Sequence, Join<u8, Join<DefinedBy<K, V>, One<WrittenPublicKey<'a>>>>>;

/// The fields that are written, borrowed.
type Written<'a, A> = Nest<'a, Ref<'a, AlgorithmIdentifier<A>>, Ref<'a, PrivateKeyValue<A>>>;

/// The fields of a private key, to be written.
fn written<A: Allocator>(value: &PrivateKeyInfo<A>) -> Written<'_, A>
    ensures { ⟦<Nest<'static, AlgorithmIdentifier<A>, PrivateKeyValue<A>> as ToDer>⟧.strict result
        ≡ info_bytes value.now }
{
    let key = DefinedBy(Ref(&value.private_key_algorithm), Ref(&value.private_key));
    let rest = Join(key, One(borrowed_public_key(&value.public_key)));
    Tagged::new(Join(value.version, rest))
}

impl<A: Allocator> ToDer for PrivateKeyInfo<A> {
    ghost strict = { info_bytes };

    fn put<O: Output>(&self, out: &mut [u8], at: usize) -> Result<usize, TooLong> {
        written(self).put::<O>(out, at)
    }
}

/// Whether a version is 0 or 1.
fn is_version(version: u8) -> bool
    ensures { result ≡ is_version version }
{
    version == PRIVATE_KEY_INFO_VERSION_1 || version == PRIVATE_KEY_INFO_VERSION_2
}

/// The bits of a public key, where there is one.
fn bits_in<A: Allocator>(key: Option<BitStringAsn1<A>>) -> Option<BitString<A>>
    ensures { result ≡ key }
{
    match key {
        Some(BitStringAsn1(bits)) => Some(bits),
        None => None,
    }
}

/// Says that the public key is one of its type. It does nothing when it runs.
fn known_bits<A: Allocator>(bits: &Option<BitString<A>>)
    ensures { (optional info_public_key).valid bits.now }
{
    match bits {
        Some(_) | None => {}
    }
}

/// The algorithm, and the key that it says.
type Key<A> = DefinedBy<AlgorithmIdentifier<A>, PrivateKeyValue<A>>;

/// The public key under its tag, where there is one.
type PublicKeyField<A> = Optional<Tagged<ContextConstructed<1>, One<BitStringAsn1<A>>>>;

/// The fields in the SEQUENCE. What is read keeps their laws, and lends the element that is skipped.
type Inner<A> = Join<
    u8,
    Join<Key<A>, Join<Optional<RawIn<SkippedTags, A>>, One<PublicKeyField<A>>>>,
>;

/// The fields in their SEQUENCE, all of them owned: those that are gone past, of which none is held.
type Whole<A> = Tagged<Sequence, Inner<A>>;

/// The fields that are read.
type Fields<'a, A> = Skipping<'a, u8, Key<A>, PublicKeyField<A>>;

impl<'a, A: Allocator + Copy> View<Fields<'a, A>, A> for PrivateKeyInfo<A> {
    ghost base = { info_base };

    ghost view = { info_meaning };

    ghost keeps = { sequence_keeps info_meaning info_inner
        (⟦<Inner<A> as Content<A>>⟧.content_lawful (
          tt,
          (
            (tt, λ c h. refl),
            ((tt, tt), (tt, tt), public_key_apart),
            λ c
                h. refl,
          ),
          λ c h. refl,
        )) info_is info_one };

    fn meaning(_alloc: A, parts: Fields<'a, A>) -> Result<(Self, WholeDeviations), ReadError>
        ensures meaning { info_meaning.of parts.entry ≡ meant result }
        ensures refusal { result ≡ Err OutOfMemory → ⊥ }
        ensures name { IfErr result (λ e. e ≡ BadVersion) }
    {
        let Join(version, Join(key, Join(Optional(skipped), public_key))) = parts;
        let found = WholeDeviations::of(deviation_of(&skipped));
        let DefinedBy(private_key_algorithm, private_key) = key;
        let info = PrivateKeyInfo {
            version,
            private_key_algorithm,
            private_key,
            public_key: bits_in(public_key.into_value()),
        };
        if is_version(version) {
            Ok((info, found))
        } else {
            drop(info);
            Err(ReadError::BadVersion)
        }
    }
}

impl<A: Allocator + Copy> View<Whole<A>, A> for PrivateKeyInfo<A> {
    ghost base = { info_base };

    ghost view = { info_meaning };

    ghost keeps = { ⟦<PrivateKeyInfo<A> as View<Fields<'static, A>, A>>⟧.keeps };

    fn meaning(_alloc: A, parts: Whole<A>) -> Result<(Self, WholeDeviations), ReadError>
        ensures meaning { info_meaning.of parts ≡ meant result }
        ensures refusal { result ≡ Err OutOfMemory → ⊥ }
        ensures name { IfErr result (λ e. e ≡ BadVersion) }
    {
        let Join(version, Join(key, Join(Optional(skipped), One(public_key)))) = parts.into_inner();
        let found = WholeDeviations::of(deviation_of_held(&skipped));
        let DefinedBy(private_key_algorithm, private_key) = key;
        let info = PrivateKeyInfo {
            version,
            private_key_algorithm,
            private_key,
            public_key: bits_in(public_key.into_value()),
        };
        if is_version(version) {
            Ok((info, found))
        } else {
            drop(info);
            Err(ReadError::BadVersion)
        }
    }
}

impl<A: Allocator + Copy> Judge<Whole<A>, A> for PrivateKeyInfo<A> {
    type Glimpse = (u8, ((KeyKind, ()), (Option<()>, Option<()>)));

    type Kept = ();

    ghost glimpse = { λ f. (f.0, ((key_kind f.1.0.0.algorithm, tt), (brief_if (λ e. tt) f.1.1.0, brief_if (λ b. tt) f.1.1.1))) };

    ghost kept = { λ v. tt };

    fn judge(brief: Self::Glimpse) -> Result<((), WholeDeviations), ReadError> {
        let (version, (_key, (skipped, _public_key))) = brief;
        if !is_version(version) {
            return Err(ReadError::BadVersion);
        }
        match skipped {
            Some(()) => Ok(((), WholeDeviations::One(Deviation::SkippedKeyElement))),
            None => Ok(((), WholeDeviations::Nothing)),
        }
    }
}

impl<A: Allocator + Copy> Field<A> for PrivateKeyInfo<A> {
    type Brief = ();

    ghost brief = { λ v. tt };

    ghost shape = { private_key_info };

    ghost lawful = { λ h. seen_lawful info_meaning info_base ⟦<PrivateKeyInfo<A> as View<Fields<'static, A>, A>>⟧.keeps };

    ghost elements = { λ h. seen_element info_meaning info_base (⟦<Whole<A> as Field<A>>⟧.elements tt)
        info_is };

    ghost agrees = { info_agrees };

    fn starts(byte: u8) -> bool {
        byte == SEQUENCE_TAG
    }

    fn known(&self) {
        let _version = self.version;
        self.private_key_algorithm.known();
        self.private_key.known_behind(&self.private_key_algorithm);
        known_bits(&self.public_key);
    }

    fn read(alloc: A, reader: &mut Reader<'_, A>) -> Result<Self, ReadError> {
        read_skipping::<Self, u8, Key<A>, SkippedTags, PublicKeyField<A>, A>(alloc, reader)
    }

    fn pass(alloc: A, reader: &mut Reader<'_, A>) -> Result<(), ReadError> {
        pass_viewed::<Self, Whole<A>, A>(alloc, reader)
    }
}

impl<A: Allocator + Copy> FromDer<A> for PrivateKeyInfo<A> {
    ghost stands_alone = { (tt, tt) };
}
