//! Parameters of RSASSA-PSS.

ghost use Rattle.std.specs.Prelude.{MatchResult, None, Some, ◌≡◌, refl, IfOk, IfErr};
ghost use Rattle.x509_der.specs.Types.read_error.{BadNumber};
ghost use Rattle.x509_der.specs.View.{kinds_in, meant};
ghost use Rattle.x509_der.specs.Integer.{magnitude};
ghost use Rattle.x509_der.specs.laws.Meaning.{seen_element, seen_lawful, sequence_keeps};
ghost use Rattle.x509_der.specs.laws.Structure.{structure_lawful, structure_element};
ghost use Rattle.x509_keys_parts.specs.RsassaPss.{salt_kinds, mask_gen_parts, mask_gen_base, mask_gen, mgf1, pss_inner, pss_base, salt_of, pss_fields, pss_meaning, rsassa_pss, pss_with};
ghost use Rattle.x509_keys_parts.specs.facts.RsassaPssFacts.{mask_gen_of, mask_gen_same, pss_is, pss_one};

use crate::hash_algorithm::HashAlgorithm;
use crate::salt::Salt;
use crate::salt_length::SaltLength;
use std::alloc::{AllocError, Allocator, Global};
use x509_der::parts::{
    Content, ContextConstructed, Field, Join, Judge, One, Output, Reader, Ref, SEQUENCE_TAG,
    Sequence, Structure, Tagged, View, WholeDeviations, pass_fields, pass_viewed, read_fields,
    read_viewed,
};
use x509_der::{
    CloneEq, Deviation, FromDer, IntegerAsn1, Magnitude, ObjectIdentifierAsn1, ReadError, SameEq,
    ToDer, TooLong,
};
use x509_oids_algorithms::id_mgf1;

/// A mask generation function, and its hash function.
///
/// # Encoding
/// `SEQUENCE { algorithm OBJECT IDENTIFIER, parameters HashAlgorithm }` (RFC 4055, 2.2). Any object identifier is read.
#[derive(Drop)]
#[derive_where(Debug, PartialEq, Eq)]
#[derive_where(Clone; A: Copy)]
pub struct MaskGenAlgorithm<A: Allocator = Global> {
    /// The mask generation function: MGF1 in use.
    pub mask_gen_algorithm: ObjectIdentifierAsn1<A>,
    /// Its hash function.
    pub hash_algorithm: HashAlgorithm,
}

impl<A: Allocator> MaskGenAlgorithm<A> {
    /// MGF1 with a hash function (RFC 8017, B.2.1).
    ///
    /// # Errors
    /// `AllocError` where memory is refused.
    pub fn new(alloc: A, hash_algorithm: HashAlgorithm) -> Result<Self, AllocError>
        ensures { IfOk result (λ v. v ≡ mgf1 hash_algorithm) }
    {
        Ok(MaskGenAlgorithm {
            mask_gen_algorithm: ObjectIdentifierAsn1(id_mgf1(alloc)?),
            hash_algorithm,
        })
    }
}

impl<A: Allocator + Copy> CloneEq for MaskGenAlgorithm<A> {
    ghost use Rattle.std.proofs.Common.{rules};

    ghost exact = { Prim.search (rules) };
}

impl<A: Allocator> SameEq for MaskGenAlgorithm<A> {
    fn decides() {
        ObjectIdentifierAsn1::<A>::decides();
        HashAlgorithm::decides();
    }
}

/// The fields as they stand in the SEQUENCE, owned or borrowed.
type MaskGenNest<I> = Tagged<Sequence, Join<I, One<HashAlgorithm>>>;

impl<A: Allocator> ToDer for MaskGenAlgorithm<A> {
    ghost strict = { λ v. mask_gen_base.strict (mask_gen_parts v) };

    fn put<O: Output>(&self, out: &mut [u8], at: usize) -> Result<usize, TooLong> {
        MaskGenNest::new(Join(Ref(&self.mask_gen_algorithm), One(self.hash_algorithm))).put::<O>(
            out, at,
        )
    }
}

impl<A: Allocator> Structure<MaskGenNest<ObjectIdentifierAsn1<A>>> for MaskGenAlgorithm<A> {
    ghost fields = { mask_gen_parts };

    fn from_fields(parts: MaskGenNest<ObjectIdentifierAsn1<A>>) -> Self {
        let Join(mask_gen_algorithm, One(hash_algorithm)) = parts.into_inner();
        MaskGenAlgorithm {
            mask_gen_algorithm,
            hash_algorithm,
        }
    }

    ghost same = { mask_gen_same };

    ghost made = { λ f. (mask_gen_of f, refl) };
}

impl<A: Allocator + Copy> Field<A> for MaskGenAlgorithm<A> {
    type Brief = ();

    ghost shape = { mask_gen };

    ghost brief = { λ v. tt };

    ghost lawful = { λ h. structure_lawful mask_gen_parts mask_gen_base mask_gen_same
        (⟦<MaskGenNest<ObjectIdentifierAsn1<A>> as Field<A>>⟧.lawful (tt, tt, λ c h. refl)) };

    ghost elements = { λ h. structure_element mask_gen_parts mask_gen_base
        (⟦<MaskGenNest<ObjectIdentifierAsn1<A>> as Field<A>>⟧.elements tt) };

    ghost agrees = { λ v. refl };

    fn starts(byte: u8) -> bool {
        byte == SEQUENCE_TAG
    }

    fn known(&self) {
        self.mask_gen_algorithm.known();
    }

    fn read(alloc: A, reader: &mut Reader<'_, A>) -> Result<Self, ReadError> {
        read_fields::<Self, MaskGenNest<ObjectIdentifierAsn1<A>>, A>(alloc, reader)
    }

    fn pass(alloc: A, reader: &mut Reader<'_, A>) -> Result<(), ReadError> {
        pass_fields::<Self, MaskGenNest<ObjectIdentifierAsn1<A>>, A>(alloc, reader)
    }
}

impl<A: Allocator + Copy> FromDer<A> for MaskGenAlgorithm<A> {
    ghost stands_alone = { (tt, tt) };
}

/// Parameters of RSASSA-PSS. The trailer field isn't among them, since it is always the default.
///
/// # Encoding
/// `SEQUENCE { hashAlgorithm [0] EXPLICIT HashAlgorithm, maskGenAlgorithm [1] EXPLICIT MaskGenAlgorithm, saltLength [2]
/// EXPLICIT INTEGER }` (RFC 4055, 3.1): all three are demanded, and written also where they are defaults. A negative
/// salt length is refused; one above 2^64 - 1 is read as 2^64 - 1 with the deviation `SaltTooLarge`.
#[derive(Drop)]
#[derive_where(Debug, PartialEq, Eq)]
#[derive_where(Clone; A: Copy)]
pub struct RsassaPssParams<A: Allocator = Global> {
    /// The hash function.
    pub hash_algorithm: HashAlgorithm,
    /// The mask generation function.
    pub mask_gen_algorithm: MaskGenAlgorithm<A>,
    /// How many bytes the salt has.
    pub salt_length: usize,
}

impl<A: Allocator> RsassaPssParams<A> {
    /// MGF1 with the same hash function, and a salt as long as a hash.
    ///
    /// # Errors
    /// `AllocError` where memory is refused.
    pub fn new(alloc: A, hash_algorithm: HashAlgorithm) -> Result<Self, AllocError>
        ensures { IfOk result (λ v. v ≡ pss_with hash_algorithm) }
    {
        Ok(RsassaPssParams {
            hash_algorithm,
            mask_gen_algorithm: MaskGenAlgorithm::new(alloc, hash_algorithm)?,
            salt_length: hash_algorithm.len(),
        })
    }
}

impl<A: Allocator + Copy> CloneEq for RsassaPssParams<A> {
    ghost use Rattle.std.proofs.Common.{rules};

    ghost exact = { Prim.search (rules) };
}

impl<A: Allocator> SameEq for RsassaPssParams<A> {
    fn decides() {
        HashAlgorithm::decides();
        MaskGenAlgorithm::<A>::decides();
    }
}

/// The fields in the SEQUENCE, owned or borrowed.
type Nest<M, S> = Join<
    Tagged<ContextConstructed<0>, One<HashAlgorithm>>,
    Join<Tagged<ContextConstructed<1>, One<M>>, One<Tagged<ContextConstructed<2>, One<S>>>>,
>;

/// The fields in the SEQUENCE, owned.
type Inner<A> = Nest<MaskGenAlgorithm<A>, Salt<A>>;

/// The fields, owned.
type Fields<A> = Tagged<Sequence, Inner<A>>;

/// The fields that are written, borrowed.
type Written<'a, A> = Tagged<Sequence, Nest<Ref<'a, MaskGenAlgorithm<A>>, SaltLength>>;

/// The fields of parameters, to be written.
fn written<A: Allocator>(value: &RsassaPssParams<A>) -> Written<'_, A>
    ensures { result ≡ (value.now.hash_algorithm, (value.now.mask_gen_algorithm, value.now.salt_length)) }
{
    let salt = One(Tagged::new(One(SaltLength(value.salt_length))));
    let mask_gen = Tagged::new(One(Ref(&value.mask_gen_algorithm)));
    let hash = Tagged::new(One(value.hash_algorithm));
    Tagged::new(Join(hash, Join(mask_gen, salt)))
}

impl<A: Allocator> ToDer for RsassaPssParams<A> {
    ghost strict = { λ v. pss_base.strict (pss_fields v) };

    fn put<O: Output>(&self, out: &mut [u8], at: usize) -> Result<usize, TooLong> {
        written(self).put::<O>(out, at)
    }
}

/// The salt length that an INTEGER says, and the deviation of one that is too large.
///
/// # Errors
/// `BadNumber` exactly where it is negative.
#[tactic(auto, using(crate::specs::facts::RsassaPssFacts::salt_small, crate::specs::facts::RsassaPssFacts::salt_large, crate::specs::facts::RsassaPssFacts::salt_negative))]
fn salt_in<A: Allocator>(salt: &IntegerAsn1<A>) -> Result<(usize, WholeDeviations), ReadError>
    ensures meaning { salt_of salt.now ≡ meant result }
    ensures refusal { IfErr result (λ e. e ≡ BadNumber) }
{
    if salt.is_negative() {
        return Err(ReadError::BadNumber);
    }
    match salt.to_u64() {
        Some(number) => Ok((number as usize, WholeDeviations::Nothing)),
        None => Ok((usize::MAX, WholeDeviations::One(Deviation::SaltTooLarge))),
    }
}

impl<A: Allocator + Copy> View<Fields<A>, A> for RsassaPssParams<A> {
    ghost base = { pss_base };

    ghost view = { pss_meaning };

    ghost keeps = { sequence_keeps pss_meaning pss_inner
        (⟦<Inner<A> as Content<A>>⟧.content_lawful (tt, (tt, tt, λ c h. refl), λ c h. refl)) pss_is pss_one };

    fn meaning(_alloc: A, parts: Fields<A>) -> Result<(Self, WholeDeviations), ReadError> {
        let Join(hash_algorithm, Join(mask_gen_algorithm, One(salt))) = parts.into_inner();
        let (salt_length, found) = salt_in(salt.into_value().number())?;
        let parameters = RsassaPssParams {
            hash_algorithm: hash_algorithm.into_value(),
            mask_gen_algorithm: mask_gen_algorithm.into_value(),
            salt_length,
        };
        Ok((parameters, found))
    }
}

/// What a length says that is so large.
///
/// # Errors
/// `BadNumber` exactly where it is negative.
fn salt_within(magnitude: Magnitude) -> Result<WholeDeviations, ReadError>
    ensures { MatchResult result (λ w. salt_kinds magnitude ≡ Some (kinds_in w)) (λ e. (salt_kinds magnitude ≡ None) × (e ≡ BadNumber)) }
{
    match magnitude {
        Magnitude::Negative => Err(ReadError::BadNumber),
        Magnitude::Byte(_) | Magnitude::Small => Ok(WholeDeviations::Nothing),
        Magnitude::Large => Ok(WholeDeviations::One(Deviation::SaltTooLarge)),
    }
}

impl<A: Allocator + Copy> Judge<Fields<A>, A> for RsassaPssParams<A> {
    type Glimpse = ((), ((), Magnitude));

    type Kept = ();

    ghost glimpse = { λ f. (tt, (tt, magnitude f.1.1)) };

    ghost kept = { λ v. tt };

    fn judge(brief: ((), ((), Magnitude))) -> Result<((), WholeDeviations), ReadError> {
        let (_hash, (_mask, salt)) = brief;
        let found = salt_within(salt)?;
        Ok(((), found))
    }
}

impl<A: Allocator + Copy> Field<A> for RsassaPssParams<A> {
    type Brief = ();

    ghost shape = { rsassa_pss };

    ghost brief = { λ v. tt };

    ghost lawful = { λ h. seen_lawful pss_meaning pss_base ⟦<RsassaPssParams<A> as View<Fields<A>, A>>⟧.keeps };

    ghost elements = { λ h. seen_element pss_meaning pss_base (⟦<Fields<A> as Field<A>>⟧.elements tt)
        pss_is };

    ghost agrees = { λ v. refl };

    fn starts(byte: u8) -> bool {
        byte == SEQUENCE_TAG
    }

    fn known(&self) {
        self.mask_gen_algorithm.known();
        // The number is looked at, so that the proof knows its range.
        let _salt_length = self.salt_length;
    }

    fn read(alloc: A, reader: &mut Reader<'_, A>) -> Result<Self, ReadError> {
        read_viewed::<Self, Fields<A>, A>(alloc, reader)
    }

    fn pass(alloc: A, reader: &mut Reader<'_, A>) -> Result<(), ReadError> {
        pass_viewed::<Self, Fields<A>, A>(alloc, reader)
    }
}

impl<A: Allocator + Copy> FromDer<A> for RsassaPssParams<A> {
    ghost stands_alone = { (tt, tt) };
}
