//! The parameters of authenticated encryption with AES.

ghost use Rattle.std.specs.Prelude.{◌≡◌, IfOk, refl};
ghost use Rattle.x509_der.specs.Integer.{natural_content};
ghost use Rattle.x509_der.specs.laws.Structure.{structure_lawful, structure_element};
ghost use Rattle.x509_keys_parts.specs.AesAuthEncParams.{AuthEncParams, auth_enc_parts, auth_enc_base, auth_enc};
ghost use Rattle.x509_keys_parts.specs.facts.AesAuthEncParams.{auth_enc_of, auth_enc_same};

use std::alloc::{AllocError, Allocator, Global};
use std::marker::Model;
use x509_der::parts::{
    Field, Join, One, Output, Reader, Ref, SEQUENCE_TAG, Sequence, Structure, Tagged, pass_fields,
    read_fields,
};
use x509_der::{CloneEq, FromDer, IntegerAsn1, OctetStringAsn1, ReadError, SameEq, ToDer, TooLong};

/// The parameters of authenticated encryption with AES: a nonce, and how many bytes the integrity check value has,
/// which is held as the content of an INTEGER.
///
/// # Encoding
/// `SEQUENCE { aes-nonce OCTET STRING, aes-ICVlen INTEGER }` (RFC 5084, 3.1 and 3.2). Both fields are demanded, and the
/// length is written also where it is 12. Any INTEGER is read.
#[derive(Drop)]
#[derive_where(Debug, PartialEq, Eq)]
#[derive_where(Clone; A: Copy)]
pub struct AesAuthEncParams<A: Allocator = Global> {
    nonce: OctetStringAsn1<A>,
    icv_len: IntegerAsn1<A>,
}

impl<A: Allocator> Model for AesAuthEncParams<A> {
    ghost use Rattle.x509_keys_parts.specs.AesAuthEncParams.{AuthEncParams};

    ghost Value = { AuthEncParams };

    ghost view = { λ v. record { nonce = v.nonce; icv_len = v.icv_len } };

    ghost inverse = { λ v. record { nonce = v.nonce; icv_len = v.icv_len } };
}

impl<A: Allocator> AesAuthEncParams<A> {
    /// A nonce, and how many bytes the integrity check value has. Takes memory once, for the length.
    ///
    /// # Errors
    /// `AllocError` where memory is refused; the nonce is dropped.
    pub fn new(alloc: A, nonce: Vec<u8, A>, icv_len: usize) -> Result<Self, AllocError>
        ensures { IfOk result (λ v. v ≡ record { nonce = nonce.items; icv_len = natural_content icv_len }) }
    {
        let icv_len = IntegerAsn1::from_u64(alloc, icv_len as u64)?;
        Ok(AesAuthEncParams {
            nonce: OctetStringAsn1(nonce),
            icv_len,
        })
    }

    /// The nonce.
    pub fn nonce(&self) -> &[u8]
        ensures { result.now ≡ self.now.nonce }
    {
        self.nonce.0.as_slice()
    }

    /// How many bytes the integrity check value has: the content of the INTEGER, a number in two's complement.
    pub fn icv_len(&self) -> &[u8]
        ensures { result.now ≡ self.now.icv_len }
    {
        self.icv_len.as_bytes()
    }
}

impl<A: Allocator + Copy> CloneEq for AesAuthEncParams<A> {
    ghost use Rattle.std.proofs.Common.{rules};

    ghost exact = { Prim.search (rules) };
}

impl<A: Allocator> SameEq for AesAuthEncParams<A> {
    fn decides() {
        OctetStringAsn1::<A>::decides();
        IntegerAsn1::<A>::decides();
    }
}

/// The fields as they stand in the SEQUENCE, owned or borrowed.
type Nest<N, I> = Tagged<Sequence, Join<N, One<I>>>;

/// The fields, owned.
type Fields<A> = Nest<OctetStringAsn1<A>, IntegerAsn1<A>>;

impl<A: Allocator> ToDer for AesAuthEncParams<A> {
    ghost strict = { λ v. auth_enc_base.strict (auth_enc_parts v) };

    fn put<O: Output>(&self, out: &mut [u8], at: usize) -> Result<usize, TooLong> {
        Nest::new(Join(Ref(&self.nonce), One(Ref(&self.icv_len)))).put::<O>(out, at)
    }
}

impl<A: Allocator> Structure<Fields<A>> for AesAuthEncParams<A> {
    ghost fields = { auth_enc_parts };

    fn from_fields(parts: Fields<A>) -> Self {
        let Join(nonce, One(icv_len)) = parts.into_inner();
        AesAuthEncParams { nonce, icv_len }
    }

    ghost same = { auth_enc_same };

    ghost made = { λ f. (auth_enc_of f, refl) };
}

impl<A: Allocator + Copy> Field<A> for AesAuthEncParams<A> {
    type Brief = ();

    ghost shape = { auth_enc };

    ghost brief = { λ v. tt };

    ghost lawful = { λ h. structure_lawful auth_enc_parts auth_enc_base auth_enc_same
        (⟦<Fields<A> as Field<A>>⟧.lawful (tt, tt, λ c h. refl)) };

    ghost elements = { λ h. structure_element auth_enc_parts auth_enc_base
        (⟦<Fields<A> as Field<A>>⟧.elements tt) };

    ghost agrees = { λ v. refl };

    fn starts(byte: u8) -> bool {
        byte == SEQUENCE_TAG
    }

    fn known(&self) {
        self.nonce.known();
        self.icv_len.known();
    }

    fn read(alloc: A, reader: &mut Reader<'_, A>) -> Result<Self, ReadError> {
        read_fields::<Self, Fields<A>, A>(alloc, reader)
    }

    fn pass(alloc: A, reader: &mut Reader<'_, A>) -> Result<(), ReadError> {
        pass_fields::<Self, Fields<A>, A>(alloc, reader)
    }
}

impl<A: Allocator + Copy> FromDer<A> for AesAuthEncParams<A> {
    ghost stands_alone = { (tt, tt) };
}
