//! Algorithm identifiers whose parameters are any element.

ghost use Rattle.std.specs.Prelude.{◌≡◌, IfOk, IsOk, MatchOption, Option, Some, None, true, refl};
ghost use Rattle.x509_keys_parts.specs.RawAlgorithm.{RawAlgorithm, NotNull, from_parts as parts_of, is_null, without_null, written_parameters, kinds_of, if_there};
ghost use Rattle.x509_der.specs.Reading.{IsRaw};
ghost use Rattle.x509_der.specs.View.{if_found};
ghost use Rattle.x509_der.specs.Optional.{brief_if};

use std::alloc::{AllocError, Allocator, Global};
use std::marker::Model;
use x509_der::parts::{
    Content, Field, Join, Judge, One, Optional, Output, Reader, Ref, SEQUENCE_TAG, Sequence,
    Tagged, View, WholeDeviations, known_bytes, known_there, pass_viewed, read_viewed,
};
use x509_der::{
    Asn1RawDer, CloneEq, Deviation, FromDer, ObjectIdentifier, ObjectIdentifierAsn1, ReadError,
    SameEq, ToDer, TooLong,
};

/// An algorithm and its parameters, which are any element and aren't looked into. Parameters that are NULL are held as
/// none.
///
/// # Encoding
/// `SEQUENCE { algorithm OBJECT IDENTIFIER, parameters ANY DEFINED BY algorithm OPTIONAL }` (RFC 5280, 4.1.1.2). Here
/// absent parameters and NULL are one value, whose one written encoding is NULL; an encoding without them is read with
/// the deviation `RawParametersAbsent`.
#[derive(Drop)]
#[derive_where(Debug, PartialEq, Eq)]
#[derive_where(Clone; A: Copy)]
pub struct RawAlgorithmIdentifier<A: Allocator = Global> {
    algorithm: ObjectIdentifierAsn1<A>,
    parameters: Option<Asn1RawDer<A>>,
}

impl<A: Allocator> Model for RawAlgorithmIdentifier<A> {
    ghost use Rattle.x509_keys_parts.specs.RawAlgorithm.{RawAlgorithm, NotNull};

    ghost Value = { RawAlgorithm };

    ghost view = { λ v. record { algorithm = v.algorithm; parameters = v.parameters } };

    ghost invariant = { λ v. NotNull v.parameters };

    ghost inverse = { λ v. record { algorithm = v.algorithm; parameters = v.parameters } };
}

/// Whether the bytes are NULL.
fn is_null_element(bytes: &[u8]) -> bool
    ensures { result ≡ is_null bytes.now }
{
    match bytes {
        [5, 0] => true,
        _ => false,
    }
}

/// The parameters, and none where they are NULL.
fn drop_null<A: Allocator>(parameters: Option<Asn1RawDer<A>>) -> Option<Asn1RawDer<A>>
    ensures { result ≡ without_null parameters }
{
    match parameters {
        Some(element) => {
            if is_null_element(element.as_bytes()) {
                None
            } else {
                Some(element)
            }
        }
        None => None,
    }
}

impl<A: Allocator> RawAlgorithmIdentifier<A> {
    /// An algorithm with parameters; those that are NULL become none. Takes no memory.
    pub fn from_parts(algorithm: ObjectIdentifier<A>, parameters: Option<Asn1RawDer<A>>) -> Self
        ensures { result ≡ parts_of algorithm parameters }
    {
        RawAlgorithmIdentifier {
            algorithm: ObjectIdentifierAsn1(algorithm),
            parameters: drop_null(parameters),
        }
    }

    /// The algorithm.
    pub fn algorithm(&self) -> &ObjectIdentifier<A>
        ensures { result.now ≡ self.now.algorithm }
    {
        &self.algorithm.0
    }

    /// The parameters: none where they are absent or NULL.
    pub fn parameters(&self) -> Option<&Asn1RawDer<A>>
        ensures parameters { MatchOption result (self.now.parameters ≡ None)
            (λ p. self.now.parameters ≡ Some p.now) }
        ensures not_null { NotNull self.now.parameters }
    {
        self.parameters.as_ref()
    }
}

impl<A: Allocator + Copy> CloneEq for RawAlgorithmIdentifier<A> {
    ghost use Rattle.std.proofs.Common.{rules};

    ghost exact = { Prim.search (rules) };
}

impl<A: Allocator> SameEq for RawAlgorithmIdentifier<A> {
    fn decides() {
        ObjectIdentifierAsn1::<A>::decides();
        Option::<Asn1RawDer<A>>::decides();
    }
}

/// The deviation of parameters that are absent.
fn absence<A: Allocator>(parameters: &Option<ReadParameters<A>>) -> Option<Deviation>
    ensures { if_found result ≡ kinds_of parameters.now }
{
    match parameters {
        Some(_) => None,
        None => Some(Deviation::RawParametersAbsent),
    }
}

/// The fields that are written, borrowed.
type Written<'a, A> = Tagged<
    Sequence,
    Join<Ref<'a, ObjectIdentifierAsn1<A>>, One<Parameters<'a, A>>>,
>;

/// Parameters as they are written: NULL where there are none.
#[derive(Drop)]
struct Parameters<'a, A: Allocator>(&'a Option<Asn1RawDer<A>>);

impl<'a, A: Allocator> ToDer for Parameters<'a, A> {
    ghost strict = { λ p. written_parameters p.0.now };

    fn put<O: Output>(&self, out: &mut [u8], at: usize) -> Result<usize, TooLong> {
        match self.0 {
            Some(element) => element.put::<O>(out, at),
            None => O::bytes(&[5, 0], out, at),
        }
    }
}

impl<A: Allocator> ToDer for RawAlgorithmIdentifier<A> {
    ghost use Rattle.x509_keys_parts.specs.RawAlgorithm.{written_fields, base};

    ghost strict = { λ v. base.strict (written_fields v) };

    fn put<O: Output>(&self, out: &mut [u8], at: usize) -> Result<usize, TooLong> {
        Written::new(Join(Ref(&self.algorithm), One(Parameters(&self.parameters)))).put::<O>(
            out, at,
        )
    }
}

/// Parameters as they are read: any element, and none where it is NULL.
#[derive(Drop)]
struct ReadParameters<A: Allocator>(Option<Asn1RawDer<A>>);

impl<A: Allocator> Model for ReadParameters<A> {
    ghost use Rattle.std.specs.Prelude.{List, ℕ, Option};
    ghost use Rattle.x509_keys_parts.specs.RawAlgorithm.{NotNull};

    ghost Value = { Option (List ℕ) };

    ghost view = { λ p. p.0 };

    ghost invariant = { λ p. NotNull p.0 };

    ghost inverse = { λ p. record { 0 = p } };
}

impl<A: Allocator> ToDer for ReadParameters<A> {
    ghost strict = { λ p. written_parameters p };

    fn put<O: Output>(&self, out: &mut [u8], at: usize) -> Result<usize, TooLong> {
        Parameters(&self.0).put::<O>(out, at)
    }
}

/// The parameters that an element is. NULL takes no memory, so it isn't refused.
///
/// # Errors
/// `AllocError` where memory is refused.
fn hold<A: Allocator + Copy>(alloc: A, bytes: &[u8]) -> Result<Option<Asn1RawDer<A>>, AllocError>
    requires { IsRaw bytes.now }
    ensures ok { IfOk result (λ p. p ≡ without_null (Some bytes.now)) }
    ensures null { is_null bytes.now ≡ true → IsOk result }
{
    if is_null_element(bytes) {
        return Ok(None);
    }
    let copy = Vec::from_slice(alloc, bytes)?;
    let Ok(element) = Asn1RawDer::from_vec(copy) else {
        unreachable!()
    };
    Ok(Some(element))
}

impl<A: Allocator + Copy> Field<A> for ReadParameters<A> {
    ghost use Rattle.std.specs.Prelude.{refl};
    ghost use Rattle.x509_keys_parts.specs.RawAlgorithm.{parameters};
    ghost use Rattle.x509_keys_parts.specs.facts.RawAlgorithmFacts.{parameters_lawful, parameters_element};

    type Brief = ();

    ghost shape = { parameters };

    ghost brief = { λ v. tt };

    ghost lawful = { λ h. parameters_lawful };

    ghost elements = { λ h. parameters_element };

    ghost agrees = { λ v. refl };

    fn starts(byte: u8) -> bool {
        byte % 32 != 31
    }

    fn known(&self) {
        known_there::<Asn1RawDer<A>, A>(&self.0);
    }

    fn read(alloc: A, reader: &mut Reader<'_, A>) -> Result<Self, ReadError> {
        let bytes = reader.whole_element()?;
        known_bytes(bytes);
        let parameters = hold(alloc, bytes)?;
        Ok(ReadParameters(parameters))
    }

    fn pass(_alloc: A, reader: &mut Reader<'_, A>) -> Result<(), ReadError> {
        let bytes = reader.whole_element()?;
        known_bytes(bytes);
        Ok(())
    }
}

/// The parameters, and none where they are absent.
fn if_there<A: Allocator>(parameters: Option<ReadParameters<A>>) -> Option<Asn1RawDer<A>>
    ensures parameters { result ≡ if_there parameters }
    ensures not_null { NotNull result }
{
    match parameters {
        Some(ReadParameters(parameters)) => parameters,
        None => None,
    }
}

/// The fields in the SEQUENCE.
type Inner<A> = Join<ObjectIdentifierAsn1<A>, One<Optional<ReadParameters<A>>>>;

/// The fields, owned.
type Fields<A> = Tagged<Sequence, Inner<A>>;

impl<A: Allocator + Copy> View<Fields<A>, A> for RawAlgorithmIdentifier<A> {
    ghost use Rattle.x509_der.specs.laws.Meaning.{sequence_keeps};
    ghost use Rattle.x509_keys_parts.specs.RawAlgorithm.{inner, base, raw_meaning};
    ghost use Rattle.x509_keys_parts.specs.facts.RawAlgorithmFacts.{raw_algorithm_means, one_kind};

    ghost base = { base };

    ghost view = { raw_meaning };

    ghost keeps = { sequence_keeps raw_meaning inner
        (⟦<Inner<A> as Content<A>>⟧.content_lawful (tt, (tt, tt), λ c h. refl)) raw_algorithm_means one_kind };

    fn meaning(_alloc: A, parts: Fields<A>) -> Result<(Self, WholeDeviations), ReadError> {
        let Join(ObjectIdentifierAsn1(algorithm), One(Optional(parameters))) = parts.into_inner();
        let absent = absence(&parameters);
        let value = RawAlgorithmIdentifier {
            algorithm: ObjectIdentifierAsn1(algorithm),
            parameters: if_there(parameters),
        };
        Ok((value, WholeDeviations::of(absent)))
    }
}

impl<A: Allocator + Copy> Judge<Fields<A>, A> for RawAlgorithmIdentifier<A> {
    type Glimpse = ((), Option<()>);

    type Kept = ();

    ghost glimpse = { λ f. (tt, brief_if (λ p. tt) f.1) };

    ghost kept = { λ v. tt };

    fn judge(brief: ((), Option<()>)) -> Result<((), WholeDeviations), ReadError> {
        let (_algorithm, parameters) = brief;
        match parameters {
            Some(()) => Ok(((), WholeDeviations::Nothing)),
            None => Ok(((), WholeDeviations::One(Deviation::RawParametersAbsent))),
        }
    }
}

impl<A: Allocator + Copy> Field<A> for RawAlgorithmIdentifier<A> {
    ghost use Rattle.std.specs.Prelude.{refl};
    ghost use Rattle.x509_der.specs.laws.Meaning.{seen_lawful, seen_element};
    ghost use Rattle.x509_keys_parts.specs.RawAlgorithm.{base, raw_meaning, raw_algorithm};
    ghost use Rattle.x509_keys_parts.specs.facts.RawAlgorithmFacts.{raw_algorithm_means, one_kind};

    type Brief = ();

    ghost shape = { raw_algorithm };

    ghost brief = { λ v. tt };

    ghost lawful = { λ h. seen_lawful raw_meaning base ⟦<RawAlgorithmIdentifier<A> as View<Fields<A>, A>>⟧.keeps };

    ghost elements = { λ h. seen_element raw_meaning base (⟦<Fields<A> as Field<A>>⟧.elements tt)
        raw_algorithm_means };

    ghost agrees = { λ v. refl };

    fn starts(byte: u8) -> bool {
        byte == SEQUENCE_TAG
    }

    fn known(&self) {
        self.algorithm.known();
        known_there::<Asn1RawDer<A>, A>(&self.parameters);
    }

    fn read(alloc: A, reader: &mut Reader<'_, A>) -> Result<Self, ReadError> {
        read_viewed::<Self, Fields<A>, A>(alloc, reader)
    }

    fn pass(alloc: A, reader: &mut Reader<'_, A>) -> Result<(), ReadError> {
        pass_viewed::<Self, Fields<A>, A>(alloc, reader)
    }
}

impl<A: Allocator + Copy> FromDer<A> for RawAlgorithmIdentifier<A> {
    ghost stands_alone = { (tt, tt) };
}
