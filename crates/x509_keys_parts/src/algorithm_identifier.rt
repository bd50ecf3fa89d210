//! Algorithm identifiers.

ghost use Rattle.std.specs.Prelude.{◌≡◌, ◌↔◌, ◌&&◌, IsTrue, refl};
ghost use Rattle.std.specs.List.{Contains};
ghost use Rattle.x509_der.specs.View.{if_found};
ghost use Rattle.x509_keys_parts.specs.KeyKinds.{key_kind};
ghost use Rattle.x509_keys_parts.specs.AlgorithmIdentifier.{chosen_by, is_rsa, identified, are_absent, with_null, kinds_if, algorithm_bytes, written_fields, lacks_null};

use crate::aes::AesParameters;
use crate::algorithm_parameters::{
    AlgorithmIdentifierParameters, AlgorithmKind, Chosen, is_rsa_algorithm,
};
use crate::ec_parameters::EcParameters;
use crate::hash_algorithm::HashAlgorithm;
use crate::key_kind::KeyKind;
use crate::rsassa_pss::{MaskGenAlgorithm, RsassaPssParams};
use std::alloc::{Allocator, Global};
use std::marker::Model;
use x509_der::parts::{
    AnyDefinedBy, Content, DefinedBy, Field, Judge, One, Output, Reader, Ref, SEQUENCE_TAG,
    Sequence, Tagged, View, WholeDeviations, pass_viewed, read_viewed,
};
use x509_der::{
    CloneEq, Deviation, FromDer, ObjectIdentifier, ObjectIdentifierAsn1, ReadError, SameEq, ToDer,
    TooLong,
};

/// An algorithm by its object identifier, and its parameters.
///
/// # Encoding
/// `SEQUENCE { algorithm OBJECT IDENTIFIER, parameters ANY DEFINED BY algorithm OPTIONAL }` (RFC 5280, 4.1.1.2).
///
/// | Algorithm | Parameters |
/// |---|---|
/// | RSA keys; RSASSA-PKCS1-v1_5 with SHA-1, SHA-224, SHA-256, SHA-384, SHA-512 or SHA-3 | NULL |
/// | RSASSA-PSS | `RSASSA-PSS-params` (RFC 4055, 3.1) |
/// | elliptic curve keys | `EcParameters` (RFC 5480, 2.1.1) |
/// | ECDSA with SHA-256, SHA-384, SHA-512 or SHA-3; DSA with SHA-1 | none |
/// | Ed25519, Ed448, X25519, X448, ML-DSA | none |
/// | AES, whose identifiers stand under 2.16.840.1.101.3.4.1 | `AesParameters`, or none |
/// | SHA-1, and hash functions under 2.16.840.1.101.3.4.2 | NULL |
///
/// An RSA algorithm whose NULL is left out is read with the deviation `RsaParametersAbsent`, and written with NULL.
/// Other algorithms aren't read, and nor are other parameters, or none where some are demanded.
#[derive(Drop)]
#[derive_where(Debug, PartialEq, Eq)]
#[derive_where(Clone; A: Copy)]
pub struct AlgorithmIdentifier<A: Allocator = Global> {
    algorithm: ObjectIdentifierAsn1<A>,
    parameters: AlgorithmIdentifierParameters<A>,
}

impl<A: Allocator> Model for AlgorithmIdentifier<A> {
    ghost use Rattle.x509_keys_parts.specs.AlgorithmIdentifier.{Algorithm};

    ghost Value = { Algorithm A };

    ghost view = { λ v. record { algorithm = v.algorithm; parameters = v.parameters } };

    ghost inverse = { λ v. record { algorithm = v.algorithm; parameters = v.parameters } };
}

/// An algorithm with parameters, which may be other than those that it has. Such an algorithm identifier is written by
/// its parts, and isn't read back. Takes no memory.
pub fn new_unchecked<A: Allocator>(
    algorithm: ObjectIdentifier<A>,
    parameters: AlgorithmIdentifierParameters<A>,
) -> AlgorithmIdentifier<A>
    ensures { result ≡ identified algorithm parameters }
{
    AlgorithmIdentifier {
        algorithm: ObjectIdentifierAsn1(algorithm),
        parameters,
    }
}

impl<A: Allocator> AlgorithmIdentifier<A> {
    /// The object identifier of the algorithm. This call and the next four take no memory.
    pub fn oid(&self) -> &ObjectIdentifier<A>
        ensures { result.now ≡ self.now.algorithm }
    {
        &self.algorithm.0
    }

    /// The object identifier of the algorithm, as an element.
    pub fn oid_asn1(&self) -> &ObjectIdentifierAsn1<A>
        ensures { result.now ≡ self.now.algorithm }
    {
        &self.algorithm
    }

    /// The parameters.
    pub fn parameters(&self) -> &AlgorithmIdentifierParameters<A>
        ensures { result.now ≡ self.now.parameters }
    {
        &self.parameters
    }

    /// Whether this is the algorithm. Its parameters aren't looked at.
    pub fn is_a(&self, algorithm: &ObjectIdentifier<A>) -> bool
        ensures { IsTrue result ↔ (self.now.algorithm ≡ algorithm.now) }
    {
        self.algorithm.0 == *algorithm
    }

    /// Whether the algorithm is one of these. Its parameters aren't looked at.
    pub fn is_one_of(&self, algorithms: &[ObjectIdentifier<A>]) -> bool
        ensures { IsTrue result ↔ Contains algorithms.now self.now.algorithm }
    {
        algorithms.iter().any(|algorithm| self.is_a(algorithm))
    }
}

impl<A: Allocator + Copy> CloneEq for AlgorithmIdentifier<A> {
    ghost use Rattle.std.proofs.Common.{rules};

    ghost exact = { Prim.search (rules) };
}

impl<A: Allocator> SameEq for AlgorithmIdentifier<A> {
    fn decides() {
        ObjectIdentifierAsn1::<A>::decides();
        AlgorithmIdentifierParameters::<A>::decides();
    }
}

/// The fields as they stand in the SEQUENCE, owned or borrowed.
type Nest<K, V> = Tagged<Sequence, One<DefinedBy<K, V>>>;

/// The fields in the SEQUENCE, owned.
type Inner<A> = One<DefinedBy<ObjectIdentifierAsn1<A>, AlgorithmIdentifierParameters<A>>>;

/// The fields, owned.
type Fields<A> = Tagged<Sequence, Inner<A>>;

impl<A: Allocator> ToDer for AlgorithmIdentifier<A> {
    ghost strict = { λ v. algorithm_bytes (written_fields v) };

    fn put<O: Output>(&self, out: &mut [u8], at: usize) -> Result<usize, TooLong> {
        Nest::new(One(DefinedBy(Ref(&self.algorithm), Ref(&self.parameters)))).put::<O>(out, at)
    }
}

/// Whether there are no parameters.
fn are_absent<A: Allocator>(parameters: &AlgorithmIdentifierParameters<A>) -> bool
    ensures { result ≡ are_absent parameters.now }
{
    match parameters {
        AlgorithmIdentifierParameters::None => true,
        AlgorithmIdentifierParameters::Null
        | AlgorithmIdentifierParameters::Aes(_)
        | AlgorithmIdentifierParameters::Ec(_)
        | AlgorithmIdentifierParameters::RsassaPss(_) => false,
    }
}

/// Whether the NULL of an RSA algorithm was left out.
#[tactic(auto, using(crate::specs::facts::AlgorithmContents::lacks_told))]
fn lacks_null<A: Allocator>(
    algorithm: &ObjectIdentifierAsn1<A>,
    parameters: &AlgorithmIdentifierParameters<A>,
) -> bool
    ensures { result ≡ lacks_null (algorithm.now, parameters.now) }
{
    are_absent(parameters) && is_rsa_algorithm(&algorithm.0.lent())
}

/// The parameters, and NULL where it was left out.
fn with_null<A: Allocator>(
    left_out: bool,
    parameters: AlgorithmIdentifierParameters<A>,
) -> AlgorithmIdentifierParameters<A>
    ensures { result ≡ with_null left_out parameters }
{
    if left_out {
        AlgorithmIdentifierParameters::Null
    } else {
        parameters
    }
}

/// The deviation of NULL that was left out.
fn absence(left_out: bool) -> Option<Deviation>
    ensures { if_found result ≡ kinds_if left_out }
{
    if left_out {
        Some(Deviation::RsaParametersAbsent)
    } else {
        None
    }
}

impl<A: Allocator + Copy> View<Fields<A>, A> for AlgorithmIdentifier<A> {
    ghost use Rattle.x509_der.specs.laws.Meaning.{sequence_keeps};
    ghost use Rattle.x509_keys_parts.specs.AlgorithmIdentifier.{inner, base, algorithm_meaning};
    ghost use Rattle.x509_keys_parts.specs.facts.AlgorithmIdentifier.{algorithm_means, algorithm_one};

    ghost base = { base };

    ghost view = { algorithm_meaning };

    ghost keeps = { sequence_keeps algorithm_meaning inner
        (⟦<Inner<A> as Content<A>>⟧.content_lawful (tt, λ c h. refl)) algorithm_means algorithm_one };

    fn meaning(_alloc: A, parts: Fields<A>) -> Result<(Self, WholeDeviations), ReadError> {
        let One(DefinedBy(algorithm, parameters)) = parts.into_inner();
        let left_out = lacks_null(&algorithm, &parameters);
        let value = AlgorithmIdentifier {
            algorithm,
            parameters: with_null(left_out, parameters),
        };
        Ok((value, WholeDeviations::of(absence(left_out))))
    }
}

/// Whether a kind is that of RSA algorithms with NULL.
fn is_rsa(kind: AlgorithmKind) -> bool
    ensures { result ≡ is_rsa kind }
{
    match kind {
        AlgorithmKind::Rsa => true,
        AlgorithmKind::RsassaPss
        | AlgorithmKind::EcPublicKey
        | AlgorithmKind::Bare
        | AlgorithmKind::Aes
        | AlgorithmKind::Hash
        | AlgorithmKind::Unknown => false,
    }
}

/// Whether parameters that are absent are those of RSA, which has NULL.
fn lacks(kind: AlgorithmKind, absent: bool) -> bool
    ensures { result ≡ (is_rsa kind && absent) }
{
    is_rsa(kind) && absent
}

impl<A: Allocator + Copy> Judge<Fields<A>, A> for AlgorithmIdentifier<A> {
    type Glimpse = (Chosen, bool);

    type Kept = KeyKind;

    ghost glimpse = { λ f. (chosen_by f.0, are_absent f.1) };

    ghost kept = { λ v. key_kind v.algorithm };

    fn judge(brief: (Chosen, bool)) -> Result<(KeyKind, WholeDeviations), ReadError> {
        let (chosen, absent) = brief;
        let left_out = lacks(chosen.parameters, absent);
        Ok((chosen.keys, WholeDeviations::of(absence(left_out))))
    }
}

impl<A: Allocator + Copy> Field<A> for AlgorithmIdentifier<A> {
    ghost use Rattle.x509_der.specs.laws.Meaning.{seen_lawful, seen_element};
    ghost use Rattle.x509_keys_parts.specs.AlgorithmIdentifier.{base, algorithm_meaning, algorithm_identifier};
    ghost use Rattle.x509_keys_parts.specs.facts.AlgorithmIdentifier.{algorithm_means, algorithm_agrees};

    type Brief = KeyKind;

    ghost shape = { algorithm_identifier };

    ghost brief = { λ v. key_kind v.algorithm };

    ghost lawful = { λ h. seen_lawful algorithm_meaning base ⟦<AlgorithmIdentifier<A> as View<Fields<A>, A>>⟧.keeps };

    ghost elements = { λ h. seen_element algorithm_meaning base (⟦<Fields<A> as Field<A>>⟧.elements tt)
        algorithm_means };

    ghost agrees = { λ v. algorithm_agrees (written_fields v) };

    fn starts(byte: u8) -> bool {
        byte == SEQUENCE_TAG
    }

    fn known(&self) {
        self.algorithm.known();
        self.parameters.known_behind(&self.algorithm);
    }

    fn read(alloc: A, reader: &mut Reader<'_, A>) -> Result<Self, ReadError> {
        read_viewed::<Self, Fields<A>, A>(alloc, reader)
    }

    fn pass(alloc: A, reader: &mut Reader<'_, A>) -> Result<KeyKind, ReadError> {
        pass_viewed::<Self, Fields<A>, A>(alloc, reader)
    }
}

impl<A: Allocator + Copy> FromDer<A> for AlgorithmIdentifier<A> {
    ghost stands_alone = { (tt, tt) };
}
