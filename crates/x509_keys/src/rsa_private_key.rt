//! RSA private keys.

ghost use Rattle.std.specs.Prelude.{◌≡◌, refl};
ghost use Rattle.x509_der.specs.laws.Structure.{structure_lawful, structure_element};
ghost use Rattle.x509_keys.specs.RsaPrivateKeys.{LastFields, last_parts, last_inner, private_parts, private_base, rsa_private_key};
ghost use Rattle.x509_keys.specs.facts.RsaPrivateKeys.{private_key_of, private_key_same};

use std::alloc::{AllocError, Allocator, Global};
use std::marker::Model;
use x509_der::parts::{
    Field, Join, One, Output, Reader, Ref, SEQUENCE_TAG, Sequence, Structure, Tagged, ToContent,
    clone_three, pass_sequence, put_element, read_sequence,
};
use x509_der::{CloneEq, FromDer, IntegerAsn1, ReadError, SameEq, ToDer, TooLong};

/// The private key of RSA with two primes: a version and eight numbers, each held as the content of an INTEGER. They
/// aren't looked into.
///
/// # Encoding
/// `RSAPrivateKey ::= SEQUENCE { version INTEGER, modulus INTEGER, publicExponent INTEGER, privateExponent INTEGER,
/// prime1 INTEGER, prime2 INTEGER, exponent1 INTEGER, exponent2 INTEGER, coefficient INTEGER }` (RFC 8017, A.1.2),
/// exactly these nine. Any INTEGERs are read, and any version, though that of a key with two primes is 0.
#[derive(Drop)]
#[derive_where(Debug, PartialEq, Eq)]
pub struct RsaPrivateKey<A: Allocator = Global> {
    /// The version: 0 for two primes.
    pub version: IntegerAsn1<A>,
    /// The modulus n.
    pub modulus: IntegerAsn1<A>,
    /// The public exponent e.
    pub public_exponent: IntegerAsn1<A>,
    /// The private exponent d.
    pub private_exponent: IntegerAsn1<A>,
    /// The prime p.
    pub prime_1: IntegerAsn1<A>,
    /// The prime q.
    pub prime_2: IntegerAsn1<A>,
    /// d mod (p - 1).
    pub exponent_1: IntegerAsn1<A>,
    /// d mod (q - 1).
    pub exponent_2: IntegerAsn1<A>,
    /// The inverse of q mod p.
    pub coefficient: IntegerAsn1<A>,
}

impl<A: Allocator> RsaPrivateKey<A> {
    /// The modulus.
    #[deprecated(note = "the field is public")]
    pub fn modulus(&self) -> &IntegerAsn1<A>
        ensures { result.now ≡ self.now.modulus }
    {
        &self.modulus
    }

    /// The public exponent.
    #[deprecated(note = "the field is public")]
    pub fn public_exponent(&self) -> &IntegerAsn1<A>
        ensures { result.now ≡ self.now.public_exponent }
    {
        &self.public_exponent
    }

    /// The private exponent.
    #[deprecated(note = "the field is public")]
    pub fn private_exponent(&self) -> &IntegerAsn1<A>
        ensures { result.now ≡ self.now.private_exponent }
    {
        &self.private_exponent
    }

    /// The first prime.
    #[deprecated(note = "the field is public")]
    pub fn prime_1(&self) -> &IntegerAsn1<A>
        ensures { result.now ≡ self.now.prime_1 }
    {
        &self.prime_1
    }

    /// The second prime.
    #[deprecated(note = "the field is public")]
    pub fn prime_2(&self) -> &IntegerAsn1<A>
        ensures { result.now ≡ self.now.prime_2 }
    {
        &self.prime_2
    }

    /// The two primes, in their order.
    #[deprecated(note = "the fields are public")]
    pub fn primes(&self) -> (&IntegerAsn1<A>, &IntegerAsn1<A>)
        ensures first { result.0.now ≡ self.now.prime_1 }
        ensures second { result.1.now ≡ self.now.prime_2 }
    {
        (&self.prime_1, &self.prime_2)
    }

    /// The exponent that belongs to the first prime.
    #[deprecated(note = "the field is public")]
    pub fn exponent_1(&self) -> &IntegerAsn1<A>
        ensures { result.now ≡ self.now.exponent_1 }
    {
        &self.exponent_1
    }

    /// The exponent that belongs to the second prime.
    #[deprecated(note = "the field is public")]
    pub fn exponent_2(&self) -> &IntegerAsn1<A>
        ensures { result.now ≡ self.now.exponent_2 }
    {
        &self.exponent_2
    }

    /// The exponents that belong to the two primes, in their order.
    #[deprecated(note = "the fields are public")]
    pub fn exponents(&self) -> (&IntegerAsn1<A>, &IntegerAsn1<A>)
        ensures first { result.0.now ≡ self.now.exponent_1 }
        ensures second { result.1.now ≡ self.now.exponent_2 }
    {
        (&self.exponent_1, &self.exponent_2)
    }

    /// The coefficient.
    #[deprecated(note = "the field is public")]
    pub fn coefficient(&self) -> &IntegerAsn1<A>
        ensures { result.now ≡ self.now.coefficient }
    {
        &self.coefficient
    }

    /// The modulus and the public exponent; the rest is dropped. Takes no memory.
    pub fn into_public_components(self) -> (IntegerAsn1<A>, IntegerAsn1<A>)
        ensures modulus { result.0 ≡ self.modulus }
        ensures public_exponent { result.1 ≡ self.public_exponent }
    {
        (self.modulus, self.public_exponent)
    }
}

impl<A: Allocator + Copy> Clone for RsaPrivateKey<A> {
    ghost is_clone = { λ x y. y ≡ x };

    fn clone(&self) -> Result<Self, AllocError> {
        let (version, modulus, public_exponent) = clone_three(
            &self.version,
            &self.modulus,
            &self.public_exponent,
        )?;
        let (private_exponent, prime_1, prime_2) = clone_three(
            &self.private_exponent,
            &self.prime_1,
            &self.prime_2,
        )?;
        let (exponent_1, exponent_2, coefficient) = clone_three(
            &self.exponent_1,
            &self.exponent_2,
            &self.coefficient,
        )?;
        Ok(RsaPrivateKey {
            version,
            modulus,
            public_exponent,
            private_exponent,
            prime_1,
            prime_2,
            exponent_1,
            exponent_2,
            coefficient,
        })
    }
}

impl<A: Allocator + Copy> CloneEq for RsaPrivateKey<A> {
    ghost exact = { λ x y h. h };
}

impl<A: Allocator> SameEq for RsaPrivateKey<A> {
    fn decides() {
        IntegerAsn1::<A>::decides();
    }
}

/// The last four fields as they stand in the SEQUENCE, owned or borrowed.
type Last<I> = Join<I, Join<I, Join<I, One<I>>>>;

/// The fields as they stand in the SEQUENCE, owned or borrowed, with what stands behind the first five.
type Parts<I, R> = Join<I, Join<I, Join<I, Join<I, Join<I, R>>>>>;

/// The fields, owned.
type Inner<A> = Parts<IntegerAsn1<A>, Last<IntegerAsn1<A>>>;

/// The SEQUENCE of them.
type Fields<A> = Tagged<Sequence, Inner<A>>;

/// The last four fields of a key, to be written: apart, since a proof about a nest of nine borrowed fields is too deep.
#[derive(Drop)]
struct LastOf<'a, A: Allocator>(&'a RsaPrivateKey<A>);

impl<'a, A: Allocator> Model for LastOf<'a, A> {
    ghost Value = { LastFields };

    ghost view = { λ l. last_parts l.0.now };
}

/// The last four fields.
fn last<A: Allocator>(key: &RsaPrivateKey<A>) -> Last<Ref<'_, IntegerAsn1<A>>>
    ensures { result ≡ last_parts key.now }
{
    let exponents = Join(Ref(&key.exponent_2), One(Ref(&key.coefficient)));
    Join(Ref(&key.prime_2), Join(Ref(&key.exponent_1), exponents))
}

impl<'a, A: Allocator> ToContent for LastOf<'a, A> {
    ghost content = { last_inner.strict };

    fn put_content<O: Output>(&self, out: &mut [u8], at: usize) -> Result<usize, TooLong> {
        last(self.0).put_content::<O>(out, at)
    }
}

/// The fields of a key, to be written.
fn written<A: Allocator>(key: &RsaPrivateKey<A>) -> Parts<Ref<'_, IntegerAsn1<A>>, LastOf<'_, A>>
    ensures { result ≡ private_parts key.now }
{
    let primes = Join(
        Ref(&key.private_exponent),
        Join(Ref(&key.prime_1), LastOf(key)),
    );
    let numbers = Join(Ref(&key.modulus), Join(Ref(&key.public_exponent), primes));
    Join(Ref(&key.version), numbers)
}

impl<A: Allocator> ToDer for RsaPrivateKey<A> {
    ghost strict = { λ v. private_base.strict (private_parts v) };

    fn put<O: Output>(&self, out: &mut [u8], at: usize) -> Result<usize, TooLong> {
        put_element::<O, _>(SEQUENCE_TAG, &written(self), out, at)
    }
}

impl<A: Allocator> Structure<Inner<A>> for RsaPrivateKey<A> {
    ghost fields = { private_parts };

    fn from_fields(parts: Inner<A>) -> Self {
        let Join(version, Join(modulus, Join(public_exponent, rest))) = parts;
        let Join(private_exponent, Join(prime_1, last)) = rest;
        let Join(prime_2, Join(exponent_1, Join(exponent_2, One(coefficient)))) = last;
        RsaPrivateKey {
            version,
            modulus,
            public_exponent,
            private_exponent,
            prime_1,
            prime_2,
            exponent_1,
            exponent_2,
            coefficient,
        }
    }

    ghost same = { private_key_same };

    ghost made = { λ f. (private_key_of f, refl) };
}

impl<A: Allocator + Copy> Field<A> for RsaPrivateKey<A> {
    type Brief = ();

    ghost brief = { λ v. tt };

    ghost shape = { rsa_private_key };

    ghost lawful = { λ h. structure_lawful private_parts private_base private_key_same
        (⟦<Fields<A> as Field<A>>⟧.lawful (
          tt,
          (
            tt,
            (
              tt,
              (tt, (tt, (tt, (tt, (tt, tt, λ c h. refl), λ c h. refl), λ c h. refl), λ c h. refl), λ c h. refl),
              λ c
                  h. refl,
            ),
            λ c h. refl,
          ),
          λ c h. refl,
        )) };

    ghost elements = { λ h. structure_element private_parts private_base
        (⟦<Fields<A> as Field<A>>⟧.elements tt) };

    ghost agrees = { λ v. refl };

    fn starts(byte: u8) -> bool {
        byte == SEQUENCE_TAG
    }

    fn known(&self) {
        self.version.known();
        self.modulus.known();
        self.public_exponent.known();
        self.private_exponent.known();
        self.prime_1.known();
        self.prime_2.known();
        self.exponent_1.known();
        self.exponent_2.known();
        self.coefficient.known();
    }

    fn read(alloc: A, reader: &mut Reader<'_, A>) -> Result<Self, ReadError> {
        read_sequence::<Self, Inner<A>, A>(alloc, reader)
    }

    fn pass(alloc: A, reader: &mut Reader<'_, A>) -> Result<(), ReadError> {
        pass_sequence::<Self, Inner<A>, A>(alloc, reader)
    }
}

impl<A: Allocator + Copy> FromDer<A> for RsaPrivateKey<A> {
    ghost stands_alone = { (tt, tt) };
}
