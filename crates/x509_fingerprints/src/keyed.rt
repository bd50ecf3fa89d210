//! Which public key a value holds.

ghost use Rattle.std.specs.Prelude.{◌≡◌, ℕ, List, Option, Some, None, IfOk, IsTrue, option_map, option_copied};
ghost use Rattle.std.specs.Option.{option_or};
ghost use Rattle.x509_keys.specs.SubjectPublicKeyInfos.{subject_bytes};
ghost use Rattle.x509_fingerprints.specs.HeldKeys.{rsa_key as rsa, rsa_bytes, point_bytes, key_bytes, point_held, held_behind, held};

use std::alloc::{AllocError, Allocator};
use x509_der::{BitString, BitStringAsn1, BitStringAsn1Container, IntegerAsn1, WriteError, to_vec};
use x509_keys::{
    AlgorithmIdentifier, ECPrivateKey, EcParameters, PrivateKeyInfo, PrivateKeyValue, PublicKey,
    RawAlgorithmIdentifier, RsaPrivateKey, RsaPublicKey, SubjectPublicKeyInfo,
};

/// A type whose values may hold a public key.
pub trait Keyed<A: Allocator + Copy> {
    /// The DER encoding of the public key with its algorithm, where the value holds it.
    ghost key: { Self → Option (List ℕ) };

    /// The DER encoding of the public key's `SubjectPublicKeyInfo`; `None` where the value holds none. Takes memory.
    ///
    /// # Errors
    /// `OutOfMemory` where memory is refused, and `TooLong` where it would have 2^64 bytes or more.
    fn encoded_key(&self, alloc: A) -> Result<Option<Vec<u8, A>>, WriteError>
        ensures ok { IfOk result (λ found. option_map (λ b. b.items) found ≡ key self.now) };
}

/// The DER encoding of a public key.
pub(crate) fn encoded<A: Allocator + Copy>(
    alloc: A,
    key: &SubjectPublicKeyInfo<A>,
) -> Result<Option<Vec<u8, A>>, WriteError>
    ensures ok { IfOk result (λ found. option_map (λ b. b.items) found ≡ Some (subject_bytes key.now)) }
{
    Ok(Some(to_vec(alloc, key)?))
}

/// The DER encoding of an RSA key with this modulus and this exponent.
fn encoded_rsa<A: Allocator + Copy>(
    alloc: A,
    modulus: &IntegerAsn1<A>,
    exponent: &IntegerAsn1<A>,
) -> Result<Option<Vec<u8, A>>, WriteError>
    ensures ok { IfOk result (λ found. option_map (λ b. b.items) found ≡ Some (rsa_bytes A modulus.now exponent.now)) }
{
    let modulus = modulus.clone()?;
    let exponent = exponent.clone()?;
    let key = SubjectPublicKeyInfo::new_rsa_key(alloc, modulus, exponent)?;
    let written = encoded(alloc, &key);
    drop(key);
    written
}

/// The DER encoding of a point of a curve.
fn encoded_point<A: Allocator + Copy>(
    alloc: A,
    curve: &EcParameters<A>,
    point: &BitString<A>,
) -> Result<Option<Vec<u8, A>>, WriteError>
    ensures ok { IfOk result (λ found. option_map (λ b. b.items) found ≡ Some (point_bytes curve.now point.now)) }
{
    let curve = curve.curve_oid().clone()?;
    let point = point.clone()?;
    let key = SubjectPublicKeyInfo::new_ec_key(alloc, curve, point)?;
    let written = encoded(alloc, &key);
    drop(key);
    written
}

/// The DER encoding of a key of an algorithm, as a private key of it has it.
fn encoded_behind<A: Allocator + Copy>(
    alloc: A,
    algorithm: &AlgorithmIdentifier<A>,
    key: PublicKey<A>,
) -> Result<Option<Vec<u8, A>>, WriteError>
    ensures ok { IfOk result (λ found. option_map (λ b. b.items) found ≡ Some (key_bytes algorithm.now key)) }
{
    let algorithm = algorithm.clone()?;
    let key = SubjectPublicKeyInfo {
        algorithm,
        subject_public_key: key,
    };
    let written = encoded(alloc, &key);
    drop(key);
    written
}

impl<A: Allocator + Copy> Keyed<A> for SubjectPublicKeyInfo<A> {
    ghost key = { λ k. Some (subject_bytes k) };

    fn encoded_key(&self, alloc: A) -> Result<Option<Vec<u8, A>>, WriteError> {
        encoded(alloc, self)
    }
}

impl<A: Allocator + Copy> Keyed<A> for RsaPublicKey<A> {
    ghost key = { λ k. Some (rsa_bytes A k.modulus k.public_exponent) };

    fn encoded_key(&self, alloc: A) -> Result<Option<Vec<u8, A>>, WriteError> {
        encoded_rsa(alloc, &self.modulus, &self.public_exponent)
    }
}

impl<A: Allocator + Copy> Keyed<A> for RsaPrivateKey<A> {
    ghost key = { λ k. Some (rsa_bytes A k.modulus k.public_exponent) };

    fn encoded_key(&self, alloc: A) -> Result<Option<Vec<u8, A>>, WriteError> {
        encoded_rsa(alloc, &self.modulus, &self.public_exponent)
    }
}

/// The public key of a private key that names its curve and holds its point.
fn encoded_if<A: Allocator + Copy>(
    alloc: A,
    curve: &Option<EcParameters<A>>,
    point: &Option<BitStringAsn1<A>>,
) -> Result<Option<Vec<u8, A>>, WriteError>
    ensures ok { IfOk result (λ found. option_map (λ b. b.items) found ≡ point_held curve.now point.now) }
{
    let Some(curve) = curve else {
        return Ok(None);
    };
    match point {
        Some(point) => encoded_point(alloc, curve, &point.0),
        None => Ok(None),
    }
}

impl<A: Allocator + Copy> Keyed<A> for ECPrivateKey<A> {
    ghost key = { λ k. point_held k.parameters k.public_key };

    fn encoded_key(&self, alloc: A) -> Result<Option<Vec<u8, A>>, WriteError> {
        encoded_if(alloc, &self.parameters, &self.public_key)
    }
}

/// An RSA public key of two numbers.
fn rsa_key<A: Allocator + Copy>(
    modulus: &IntegerAsn1<A>,
    exponent: &IntegerAsn1<A>,
) -> Result<PublicKey<A>, AllocError>
    ensures ok { IfOk result (λ k. k ≡ PublicKey.Rsa (rsa modulus.now exponent.now)) }
{
    let modulus = modulus.clone()?;
    let public_exponent = exponent.clone()?;
    Ok(PublicKey::Rsa(BitStringAsn1Container(RsaPublicKey {
        modulus,
        public_exponent,
    })))
}

/// The RSA public key of an algorithm whose numbers are among a private key's.
fn encoded_public_part<A: Allocator + Copy>(
    alloc: A,
    algorithm: &AlgorithmIdentifier<A>,
    key: &RsaPrivateKey<A>,
) -> Result<Option<Vec<u8, A>>, WriteError>
    ensures ok { IfOk result (λ found. option_map (λ b. b.items) found ≡ Some (key_bytes algorithm.now (PublicKey.Rsa (rsa key.now.modulus key.now.public_exponent)))) }
{
    let public = rsa_key(&key.modulus, &key.public_exponent)?;
    encoded_behind(alloc, algorithm, public)
}

/// The bits behind a private key, if there are any.
fn behind_of<A: Allocator>(bits: &Option<BitString<A>>) -> Option<&BitString<A>>
    ensures { option_copied result ≡ bits.now }
{
    match bits {
        Some(bits) => Some(bits),
        None => None,
    }
}

/// The point that a private key of an elliptic curve holds, or else the bits behind it.
fn point_of<'a, A: Allocator>(
    key: &'a ECPrivateKey<A>,
    behind: &'a Option<BitString<A>>,
) -> Option<&'a BitString<A>>
    ensures { option_copied result ≡ option_or key.now.public_key behind.now }
{
    match &key.public_key {
        Some(point) => Some(&point.0),
        None => behind_of(behind),
    }
}

/// A key of an algorithm that is a string of bits, where there are bits.
fn encoded_bits<A: Allocator + Copy>(
    alloc: A,
    algorithm: &AlgorithmIdentifier<A>,
    bits: Option<&BitString<A>>,
    is_point: bool,
) -> Result<Option<Vec<u8, A>>, WriteError>
    ensures point { IsTrue is_point → IfOk result (λ found. option_map (λ b. b.items) found ≡ option_map (λ p. key_bytes algorithm.now (PublicKey.Ec p)) (option_copied bits.entry)) }
    ensures other { (IsTrue is_point → ⊥) → IfOk result (λ found. option_map (λ b. b.items) found ≡ option_map (λ p. key_bytes algorithm.now (PublicKey.Ed p)) (option_copied bits.entry)) }
{
    let Some(bits) = bits else {
        return Ok(None);
    };
    let bits = BitStringAsn1(bits.clone()?);
    let key = if is_point {
        PublicKey::Ec(bits)
    } else {
        PublicKey::Ed(bits)
    };
    encoded_behind(alloc, algorithm, key)
}

impl<A: Allocator + Copy> Keyed<A> for PrivateKeyInfo<A> {
    ghost key = { held };

    fn encoded_key(&self, alloc: A) -> Result<Option<Vec<u8, A>>, WriteError> {
        let algorithm = &self.private_key_algorithm;
        match &self.private_key {
            PrivateKeyValue::Rsa(key) => encoded_public_part(alloc, algorithm, &key.0),
            PrivateKeyValue::EC(key) => {
                encoded_bits(alloc, algorithm, point_of(&key.0, &self.public_key), true)
            }
            PrivateKeyValue::ED(_) => {
                encoded_bits(alloc, algorithm, behind_of(&self.public_key), false)
            }
        }
    }
}

impl<A: Allocator + Copy> Keyed<A> for AlgorithmIdentifier<A> {
    ghost key = { λ _. None };

    fn encoded_key(&self, _alloc: A) -> Result<Option<Vec<u8, A>>, WriteError> {
        Ok(None)
    }
}

impl<A: Allocator + Copy> Keyed<A> for RawAlgorithmIdentifier<A> {
    ghost key = { λ _. None };

    fn encoded_key(&self, _alloc: A) -> Result<Option<Vec<u8, A>>, WriteError> {
        Ok(None)
    }
}
