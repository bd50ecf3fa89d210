//! Hash functions, as RSASSA-PSS names them.

ghost use Rattle.std.specs.Prelude.{◌≡◌, false, refl, IfOk, IfErr, Err, None, Some};
ghost use Rattle.x509_der.specs.ObjectIdentifier.{arcs_spelled, dotted};
ghost use Rattle.x509_der.specs.Types.read_error.{OutOfMemory, Unsupported};
ghost use Rattle.x509_der.specs.View.{if_found, meant};
ghost use Rattle.x509_der.specs.Optional.{brief_if};
ghost use Rattle.x509_der.specs.laws.Meaning.{seen_lawful, seen_element, sequence_keeps};
ghost use Rattle.x509_keys_parts.specs.HashAlgorithms.{hash_arcs, hash_function_name, hash_len, hash_number, hash_of, hash_name_base, hash_name_meaning, hash_name, null_kinds, hash_inner, hash_base, hash_fields, hash_meaning, hash_algorithm};
ghost use Rattle.x509_keys_parts.specs.Unsupported.{Names};
ghost use Rattle.x509_keys_parts.specs.facts.HashAlgorithmFacts.{hash_name_is, hash_name_keeps, hash_is, few_kinds};

use crate::errors::{AlgorithmError, unsupported};
use std::alloc::{AllocError, Allocator};
use std::marker::Model;
use x509_der::parts::{
    Content, Field, Join, Judge, OBJECT_IDENTIFIER_TAG, OidRef, One, Optional, Output, Reader,
    SEQUENCE_TAG, Sequence, Tagged, View, WholeDeviations, from_lawful, pass_oid, pass_viewed,
    read_viewed,
};
use x509_der::{
    CloneEq, Deviation, FromDer, ObjectIdentifier, ObjectIdentifierAsn1, ReadError, SameEq, ToDer,
    TooLong,
};

/// A hash function.
///
/// # Encoding
/// `SEQUENCE { algorithm OBJECT IDENTIFIER, parameters NULL }` (RFC 4055, 2.1), with one of eight object identifiers;
/// others are refused. An encoding without NULL is read with the deviation `HashNullAbsent`; other parameters are
/// refused.
#[derive(Debug, Drop, Clone, Copy, PartialEq, Eq)]
pub enum HashAlgorithm {
    /// SHA-224, 28 bytes.
    SHA224,
    /// SHA-256, 32 bytes.
    SHA256,
    /// SHA-384, 48 bytes.
    SHA384,
    /// SHA-512, 64 bytes.
    SHA512,
    /// SHA3-224, 28 bytes.
    SHA3_224,
    /// SHA3-256, 32 bytes.
    SHA3_256,
    /// SHA3-384, 48 bytes.
    SHA3_384,
    /// SHA3-512, 64 bytes.
    SHA3_512,
}

/// All hash functions.
const HASHES: &'static [HashAlgorithm] = &[
    HashAlgorithm::SHA224,
    HashAlgorithm::SHA256,
    HashAlgorithm::SHA384,
    HashAlgorithm::SHA512,
    HashAlgorithm::SHA3_224,
    HashAlgorithm::SHA3_256,
    HashAlgorithm::SHA3_384,
    HashAlgorithm::SHA3_512,
];

/// The hash function that an object identifier names.
fn known(identifier: &OidRef<'_>) -> Option<HashAlgorithm>
    ensures { result ≡ hash_of identifier.now }
{
    for hash in HASHES {
        if identifier.is_content(&hash.content()) {
            return Some(*hash);
        }
    }
    None
}

impl HashAlgorithm {
    /// The function's name, as `SHA3_256`.
    pub fn name(self) -> &'static str
        ensures { result.now ≡ hash_function_name self }
    {
        match self {
            HashAlgorithm::SHA224 => "SHA224",
            HashAlgorithm::SHA256 => "SHA256",
            HashAlgorithm::SHA384 => "SHA384",
            HashAlgorithm::SHA512 => "SHA512",
            HashAlgorithm::SHA3_224 => "SHA3_224",
            HashAlgorithm::SHA3_256 => "SHA3_256",
            HashAlgorithm::SHA3_384 => "SHA3_384",
            HashAlgorithm::SHA3_512 => "SHA3_512",
        }
    }

    /// How many bytes a hash has.
    pub fn len(self) -> usize
        ensures { result ≡ hash_len self }
    {
        match self {
            HashAlgorithm::SHA224 | HashAlgorithm::SHA3_224 => 28,
            HashAlgorithm::SHA256 | HashAlgorithm::SHA3_256 => 32,
            HashAlgorithm::SHA384 | HashAlgorithm::SHA3_384 => 48,
            HashAlgorithm::SHA512 | HashAlgorithm::SHA3_512 => 64,
        }
    }

    /// Whether a hash has no bytes: never.
    pub fn is_empty(self) -> bool
        ensures { result ≡ false }
    {
        false
    }

    /// The arcs of its object identifier: all have the same but for the last.
    fn arcs(self) -> [u64; 9]
        ensures { result ≡ hash_arcs self }
    {
        [2, 16, 840, 1, 101, 3, 4, 2, self.number() as u64]
    }

    /// The content of its object identifier.
    fn content(self) -> [u8; 9]
        ensures { arcs_spelled result ≡ hash_arcs self }
    {
        [0x60, 0x86, 0x48, 1, 0x65, 3, 4, 2, self.number()]
    }

    /// The last arc of its object identifier.
    fn number(self) -> u8
        ensures { result ≡ hash_number self }
    {
        match self {
            HashAlgorithm::SHA224 => 4,
            HashAlgorithm::SHA256 => 1,
            HashAlgorithm::SHA384 => 2,
            HashAlgorithm::SHA512 => 3,
            HashAlgorithm::SHA3_224 => 7,
            HashAlgorithm::SHA3_256 => 8,
            HashAlgorithm::SHA3_384 => 9,
            HashAlgorithm::SHA3_512 => 10,
        }
    }

    /// Its object identifier, which is short enough to take no memory.
    ///
    /// # Errors
    /// `AllocError` where memory is refused.
    #[tactic(auto, using(crate::specs::facts::HashAlgorithmFacts::arcs_lawful))]
    pub fn to_oid<A: Allocator>(self, alloc: A) -> Result<ObjectIdentifier<A>, AllocError>
        ensures { IfOk result (λ o. o ≡ hash_arcs self) }
    {
        from_lawful(alloc, &self.arcs())
    }

    /// The hash function that an object identifier names. Takes memory only where there is none.
    ///
    /// # Errors
    /// Refused exactly where it names none of the eight: `Unsupported`, with the dotted text, or `OutOfMemory` where
    /// memory for that text is refused.
    pub fn from_oid<A: Allocator>(
        alloc: A,
        identifier: &ObjectIdentifier<A>,
    ) -> Result<Self, AlgorithmError<A>>
        ensures ok { IfOk result (λ hash. hash_of identifier.now ≡ Some hash) }
        ensures err { IfErr result (λ e. (hash_of identifier.now ≡ None) × Names e (dotted identifier.now)) }
    {
        match known(&identifier.lent()) {
            Some(hash) => Ok(hash),
            None => Err(unsupported(alloc, identifier)),
        }
    }
}

impl CloneEq for HashAlgorithm {
    ghost use Rattle.std.proofs.Common.{rules};

    ghost exact = { Prim.search (rules) };
}

impl SameEq for HashAlgorithm {
    fn decides() {}
}

/// A hash function as its object identifier alone.
#[derive(Drop)]
struct HashName(HashAlgorithm);

impl Model for HashName {
    ghost use Rattle.x509_keys_parts.specs.declared.hash_algorithm.HashAlgorithm.{HashAlgorithm};

    ghost Value = { HashAlgorithm };

    ghost view = { λ n. n.0 };

    ghost inverse = { λ hash. record { 0 = hash } };
}

/// The object identifier of a hash function as an element. All have the same arcs but for the last, which is below 128.
fn name_element(hash: HashAlgorithm) -> [u8; 11]
    ensures { result ≡ hash_name.strict hash }
{
    [6, 9, 0x60, 0x86, 0x48, 1, 0x65, 3, 4, 2, hash.number()]
}

impl ToDer for HashName {
    ghost strict = { hash_name.strict };

    fn put<O: Output>(&self, out: &mut [u8], at: usize) -> Result<usize, TooLong> {
        O::bytes(&name_element(self.0), out, at)
    }
}

impl<A: Allocator + Copy> View<ObjectIdentifierAsn1<A>, A> for HashName {
    ghost base = { hash_name_base };

    ghost view = { hash_name_meaning };

    ghost keeps = { hash_name_keeps };

    fn meaning(
        _alloc: A,
        parts: ObjectIdentifierAsn1<A>,
    ) -> Result<(Self, WholeDeviations), ReadError>
        ensures meaning { hash_name_meaning.of parts ≡ meant result }
        ensures refusal { result ≡ Err OutOfMemory → ⊥ }
        ensures name { IfErr result (λ e. e ≡ Unsupported) }
    {
        match known(&parts.0.lent()) {
            Some(hash) => Ok((HashName(hash), WholeDeviations::Nothing)),
            None => Err(ReadError::Unsupported),
        }
    }
}

impl<A: Allocator + Copy> Field<A> for HashName {
    type Brief = ();

    ghost shape = { hash_name };

    ghost brief = { λ v. tt };

    ghost lawful = { λ h. seen_lawful hash_name_meaning hash_name_base hash_name_keeps };

    ghost elements = { λ h. seen_element hash_name_meaning hash_name_base
        (⟦<ObjectIdentifierAsn1<A> as Field<A>>⟧.elements tt) hash_name_is };

    ghost agrees = { λ v. refl };

    fn starts(byte: u8) -> bool {
        byte == OBJECT_IDENTIFIER_TAG
    }

    #[tactic(auto, using(crate::specs::facts::HashAlgorithmFacts::arcs_lawful))]
    fn known(&self) {}

    fn read(alloc: A, reader: &mut Reader<'_, A>) -> Result<Self, ReadError> {
        read_viewed::<Self, ObjectIdentifierAsn1<A>, A>(alloc, reader)
    }

    fn pass(_alloc: A, reader: &mut Reader<'_, A>) -> Result<(), ReadError> {
        let spot = reader.spot();
        let identifier = pass_oid(reader)?;
        match known(&identifier) {
            Some(_hash) => Ok(()),
            None => {
                reader.go_back(spot);
                Err(ReadError::Unsupported)
            }
        }
    }
}

/// The fields that are written.
type Written = Tagged<Sequence, Join<HashName, One<()>>>;

impl ToDer for HashAlgorithm {
    ghost strict = { λ v. hash_base.strict (hash_fields v) };

    fn put<O: Output>(&self, out: &mut [u8], at: usize) -> Result<usize, TooLong> {
        Written::new(Join(HashName(*self), One(()))).put::<O>(out, at)
    }
}

/// The deviation of parameters that are absent.
fn absence(null: Option<()>) -> Option<Deviation>
    ensures { if_found result ≡ null_kinds null }
{
    match null {
        Some(_) => None,
        None => Some(Deviation::HashNullAbsent),
    }
}

/// The fields in the SEQUENCE.
type Inner = Join<HashName, One<Optional<()>>>;

/// The fields that are read.
type Fields = Tagged<Sequence, Inner>;

impl<A: Allocator + Copy> View<Fields, A> for HashAlgorithm {
    ghost base = { hash_base };

    ghost view = { hash_meaning };

    ghost keeps = { sequence_keeps hash_meaning hash_inner
        (⟦<Inner as Content<A>>⟧.content_lawful (tt, (tt, tt), λ c h. refl)) hash_is few_kinds };

    fn meaning(_alloc: A, parts: Fields) -> Result<(Self, WholeDeviations), ReadError> {
        let Join(HashName(hash), One(Optional(null))) = parts.into_inner();
        Ok((hash, WholeDeviations::of(absence(null))))
    }
}

impl<A: Allocator + Copy> Judge<Fields, A> for HashAlgorithm {
    type Glimpse = ((), Option<()>);

    type Kept = ();

    ghost glimpse = { λ f. (tt, brief_if (λ u. u) f.1) };

    ghost kept = { λ v. tt };

    fn judge(brief: ((), Option<()>)) -> Result<((), WholeDeviations), ReadError> {
        let (_name, null) = brief;
        Ok(((), WholeDeviations::of(absence(null))))
    }
}

impl<A: Allocator + Copy> Field<A> for HashAlgorithm {
    type Brief = ();

    ghost shape = { hash_algorithm };

    ghost brief = { λ v. tt };

    ghost lawful = { λ h. seen_lawful hash_meaning hash_base ⟦<HashAlgorithm as View<Fields, A>>⟧.keeps };

    ghost elements = { λ h. seen_element hash_meaning hash_base (⟦<Fields as Field<A>>⟧.elements tt)
        hash_is };

    ghost agrees = { λ v. refl };

    fn starts(byte: u8) -> bool {
        byte == SEQUENCE_TAG
    }

    fn known(&self) {}

    fn read(alloc: A, reader: &mut Reader<'_, A>) -> Result<Self, ReadError> {
        read_viewed::<Self, Fields, A>(alloc, reader)
    }

    fn pass(alloc: A, reader: &mut Reader<'_, A>) -> Result<(), ReadError> {
        pass_viewed::<Self, Fields, A>(alloc, reader)
    }
}

impl<A: Allocator + Copy> FromDer<A> for HashAlgorithm {
    ghost stands_alone = { (tt, tt) };
}
