//! Digests as RSASSA-PKCS1-v1_5 signs them.

ghost use Rattle.std.specs.Prelude.{refl};
ghost use Rattle.std.proofs.Common.{ap};
ghost use Rattle.x509_der.specs.Element.{element};
ghost use Rattle.x509_der.specs.laws.Structure.{structure_lawful, structure_element};
ghost use Rattle.x509_keys_parts.specs.DigestInfos.{digest_info_parts, digest_info_base, digest_info, digest_info_bytes};
ghost use Rattle.x509_keys_parts.specs.facts.DigestInfoFacts.{digest_info_of, digest_info_same, digest_info_agrees};

use crate::aes::AesParameters;
use crate::algorithm_identifier::AlgorithmIdentifier;
use crate::algorithm_parameters::AlgorithmIdentifierParameters;
use crate::ec_parameters::EcParameters;
use crate::hash_algorithm::HashAlgorithm;
use crate::rsassa_pss::{MaskGenAlgorithm, RsassaPssParams};
use std::alloc::{Allocator, Global};
use x509_der::parts::{
    Field, Join, One, Output, Reader, Ref, SEQUENCE_TAG, Sequence, Structure, Tagged,
    pass_sequence, read_sequence,
};
use x509_der::{CloneEq, FromDer, OctetStringAsn1, ReadError, SameEq, ToDer, TooLong};

/// A digest, and the algorithm that made it. Whether the digest is of the algorithm's length isn't asked.
///
/// # Encoding
/// `SEQUENCE { digestAlgorithm AlgorithmIdentifier, digest OCTET STRING }` (RFC 8017, 9.2).
#[derive(Drop)]
#[derive_where(Debug, PartialEq, Eq)]
#[derive_where(Clone; A: Copy)]
pub struct DigestInfo<A: Allocator = Global> {
    /// The algorithm of the digest.
    pub oid: AlgorithmIdentifier<A>,
    /// The digest.
    pub digest: OctetStringAsn1<A>,
}

impl<A: Allocator + Copy> CloneEq for DigestInfo<A> {
    ghost use Rattle.std.proofs.Common.{rules};

    ghost exact = { Prim.search (rules) };
}

impl<A: Allocator> SameEq for DigestInfo<A> {
    fn decides() {
        AlgorithmIdentifier::<A>::decides();
        OctetStringAsn1::<A>::decides();
    }
}

/// The fields as they stand in the SEQUENCE, owned or borrowed.
type Nest<I, O> = Tagged<Sequence, Join<I, One<O>>>;

/// The SEQUENCE, owned.
type Fields<A> = Nest<AlgorithmIdentifier<A>, OctetStringAsn1<A>>;

/// The fields, owned.
type Inner<A> = Join<AlgorithmIdentifier<A>, One<OctetStringAsn1<A>>>;

impl<A: Allocator> ToDer for DigestInfo<A> {
    ghost strict = { λ v. element 48 (digest_info_bytes (digest_info_parts v)) };

    fn put<O: Output>(&self, out: &mut [u8], at: usize) -> Result<usize, TooLong> {
        Nest::new(Join(Ref(&self.oid), One(Ref(&self.digest)))).put::<O>(out, at)
    }
}

impl<A: Allocator> Structure<Inner<A>> for DigestInfo<A> {
    ghost fields = { digest_info_parts };

    fn from_fields(parts: Inner<A>) -> Self {
        let Join(oid, One(digest)) = parts;
        DigestInfo { oid, digest }
    }

    ghost same = { digest_info_same };

    ghost made = { λ f. (digest_info_of f, refl) };
}

impl<A: Allocator + Copy> Field<A> for DigestInfo<A> {
    type Brief = ();

    ghost shape = { digest_info };

    ghost brief = { λ v. tt };

    ghost lawful = { λ h. structure_lawful digest_info_parts digest_info_base digest_info_same
        (⟦<Fields<A> as Field<A>>⟧.lawful (tt, tt, λ c h. refl)) };

    ghost elements = { λ h. structure_element digest_info_parts digest_info_base
        (⟦<Fields<A> as Field<A>>⟧.elements tt) };

    ghost agrees = { λ v. ap (element 48) (digest_info_agrees (digest_info_parts v)) };

    fn starts(byte: u8) -> bool {
        byte == SEQUENCE_TAG
    }

    fn known(&self) {
        self.oid.known();
        self.digest.known();
    }

    fn read(alloc: A, reader: &mut Reader<'_, A>) -> Result<Self, ReadError> {
        read_sequence::<Self, Inner<A>, A>(alloc, reader)
    }

    fn pass(alloc: A, reader: &mut Reader<'_, A>) -> Result<(), ReadError> {
        pass_sequence::<Self, Inner<A>, A>(alloc, reader)
    }
}

impl<A: Allocator + Copy> FromDer<A> for DigestInfo<A> {
    ghost stands_alone = { (tt, tt) };
}
