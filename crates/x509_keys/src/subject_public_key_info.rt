//! Public keys and their algorithms.

ghost use Rattle.std.specs.Prelude.{◌≡◌, IfOk, refl};
ghost use Rattle.x509_der.specs.laws.Structure.{structure_lawful, structure_element};
ghost use Rattle.x509_keys.specs.SubjectPublicKeyInfos.{subject_parts, subject_of, rsa_subject, ec_subject, ed_subject, subject_base, subject_public_key_info, subject_bytes};
ghost use Rattle.x509_keys.specs.facts.SubjectPublicKeyInfos.{subject_same, subject_agrees};

use crate::public_key::PublicKey;
use crate::rsa_public_key::RsaPublicKey;
use std::alloc::{AllocError, Allocator, Global};
use x509_der::parts::{
    AnyDefinedBy, DefinedBy, Field, One, Output, Reader, Ref, SEQUENCE_TAG, Sequence, Structure,
    Tagged, pass_sequence, read_sequence,
};
use x509_der::{
    BitString, BitStringAsn1, BitStringAsn1Container, CloneEq, FromDer, IntegerAsn1,
    ObjectIdentifier, ReadError, SameEq, ToDer, TooLong,
};
use x509_keys_parts::algorithm_identifier::new_unchecked;
use x509_keys_parts::{
    AesParameters, AlgorithmIdentifier, AlgorithmIdentifierParameters, EcParameters, HashAlgorithm,
    MaskGenAlgorithm, RsassaPssParams,
};

/// A public key and its algorithm.
///
/// # Encoding
/// `SubjectPublicKeyInfo ::= SEQUENCE { algorithm AlgorithmIdentifier, subjectPublicKey BIT STRING }` (RFC 5280,
/// 4.1.2.7).
///
/// | Algorithm | Key |
/// |---|---|
/// | RSA, 1.2.840.113549.1.1.1 | [`PublicKey::Rsa`]: an `RSAPublicKey` in whole bytes (RFC 3279, 2.3.1) |
/// | elliptic curves, 1.2.840.10045.2.1 | [`PublicKey::Ec`]: any BIT STRING (RFC 5480, 2.2) |
/// | Ed25519, X25519, Ed448, X448 | [`PublicKey::Ed`]: any BIT STRING (RFC 8410, 4) |
/// | ML-DSA | [`PublicKey::Mldsa`]: any BIT STRING (RFC 9881, 4) |
///
/// Keys of other algorithms are refused. A value whose key isn't of its algorithm's kind is written by its parts, and
/// isn't read back.
#[derive(Drop)]
#[derive_where(Debug, PartialEq, Eq)]
#[derive_where(Clone; A: Copy)]
pub struct SubjectPublicKeyInfo<A: Allocator = Global> {
    /// The algorithm.
    pub algorithm: AlgorithmIdentifier<A>,
    /// The key.
    pub subject_public_key: PublicKey<A>,
}

impl<A: Allocator> SubjectPublicKeyInfo<A> {
    /// An RSA key.
    ///
    /// # Errors
    /// `AllocError` where memory is refused; the numbers are dropped.
    pub fn new_rsa_key(
        alloc: A,
        modulus: IntegerAsn1<A>,
        public_exponent: IntegerAsn1<A>,
    ) -> Result<Self, AllocError>
        ensures { IfOk result (λ v. v ≡ rsa_subject (record
            { modulus = modulus; public_exponent = public_exponent })) }
    {
        let key = RsaPublicKey {
            modulus,
            public_exponent,
        };
        let algorithm = AlgorithmIdentifier::new_rsa_encryption(alloc)?;
        Ok(SubjectPublicKeyInfo {
            algorithm,
            subject_public_key: PublicKey::Rsa(BitStringAsn1Container(key)),
        })
    }

    /// A key of the elliptic curve that has an object identifier.
    ///
    /// # Errors
    /// `AllocError` where memory is refused; the curve and the point are dropped.
    pub fn new_ec_key(
        alloc: A,
        curve: ObjectIdentifier<A>,
        point: BitString<A>,
    ) -> Result<Self, AllocError>
        ensures { IfOk result (λ v. v ≡ ec_subject curve point) }
    {
        let algorithm = AlgorithmIdentifier::new_elliptic_curve(alloc, EcParameters::from(curve))?;
        Ok(SubjectPublicKeyInfo {
            algorithm,
            subject_public_key: PublicKey::Ec(BitStringAsn1(point)),
        })
    }

    /// A key of an algorithm without parameters, such as Ed25519. Where it is another than Ed25519, X25519, Ed448 or
    /// X448, what is written isn't read back as this value. Takes no memory.
    pub fn new_ed_key(algorithm: ObjectIdentifier<A>, public_key: BitString<A>) -> Self
        ensures { result ≡ ed_subject algorithm public_key }
    {
        SubjectPublicKeyInfo {
            algorithm: new_unchecked(algorithm, AlgorithmIdentifierParameters::None),
            subject_public_key: PublicKey::Ed(BitStringAsn1(public_key)),
        }
    }
}

impl<A: Allocator + Copy> CloneEq for SubjectPublicKeyInfo<A> {
    ghost use Rattle.std.proofs.Common.{rules};

    ghost exact = { Prim.search (rules) };
}

impl<A: Allocator> SameEq for SubjectPublicKeyInfo<A> {
    fn decides() {
        AlgorithmIdentifier::<A>::decides();
        PublicKey::<A>::decides();
    }
}

/// The fields as they stand in the SEQUENCE, owned or borrowed.
type Nest<K, V> = Tagged<Sequence, One<DefinedBy<K, V>>>;

/// The SEQUENCE, owned.
type Fields<A> = Nest<AlgorithmIdentifier<A>, PublicKey<A>>;

/// The fields, owned.
type Inner<A> = One<DefinedBy<AlgorithmIdentifier<A>, PublicKey<A>>>;

/// The SEQUENCE, borrowed.
type Written<'a, A> = Nest<Ref<'a, AlgorithmIdentifier<A>>, Ref<'a, PublicKey<A>>>;

/// The fields, to be written.
fn written<A: Allocator>(value: &SubjectPublicKeyInfo<A>) -> Written<'_, A>
    ensures { result ≡ subject_parts value.now }
{
    let key = DefinedBy(Ref(&value.algorithm), Ref(&value.subject_public_key));
    Tagged::new(One(key))
}

impl<A: Allocator> ToDer for SubjectPublicKeyInfo<A> {
    ghost strict = { subject_bytes };

    fn put<O: Output>(&self, out: &mut [u8], at: usize) -> Result<usize, TooLong> {
        written(self).put::<O>(out, at)
    }
}

impl<A: Allocator> Structure<Inner<A>> for SubjectPublicKeyInfo<A> {
    ghost fields = { subject_parts };

    fn from_fields(parts: Inner<A>) -> Self {
        let One(DefinedBy(algorithm, subject_public_key)) = parts;
        SubjectPublicKeyInfo {
            algorithm,
            subject_public_key,
        }
    }

    ghost same = { subject_same };

    ghost made = { λ f. (subject_of f.0 f.1, refl) };
}

impl<A: Allocator + Copy> Field<A> for SubjectPublicKeyInfo<A> {
    type Brief = ();

    ghost brief = { λ v. tt };

    ghost shape = { subject_public_key_info };

    ghost lawful = { λ h. structure_lawful subject_parts subject_base subject_same
        (⟦<Fields<A> as Field<A>>⟧.lawful (tt, λ c h. refl)) };

    ghost elements = { λ h. structure_element subject_parts subject_base
        (⟦<Fields<A> as Field<A>>⟧.elements tt) };

    ghost agrees = { subject_agrees };

    fn starts(byte: u8) -> bool {
        byte == SEQUENCE_TAG
    }

    fn known(&self) {
        self.algorithm.known();
        self.subject_public_key.known_behind(&self.algorithm);
    }

    fn read(alloc: A, reader: &mut Reader<'_, A>) -> Result<Self, ReadError> {
        read_sequence::<Self, Inner<A>, A>(alloc, reader)
    }

    fn pass(alloc: A, reader: &mut Reader<'_, A>) -> Result<(), ReadError> {
        pass_sequence::<Self, Inner<A>, A>(alloc, reader)
    }
}

impl<A: Allocator + Copy> FromDer<A> for SubjectPublicKeyInfo<A> {
    ghost stands_alone = { (tt, tt) };
}
