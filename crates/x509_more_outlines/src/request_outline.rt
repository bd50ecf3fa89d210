//! Requests for certificates of which the frame alone is read.

ghost use Rattle.std.specs.Prelude.{◌≡◌, refl, IfOk, IfErr};
ghost use Rattle.x509_der.specs.Calls.{NoWhole, NoValue};
ghost use Rattle.x509_der.specs.FirstField.{FirstPart, StartsContent};
ghost use Rattle.x509_der.specs.laws.Structure.{structure_lawful, structure_element};
ghost use Rattle.x509_outline.specs.Certificates.{signature_fields};
ghost use Rattle.x509_outline.specs.SignedParts.{SignedPartOf};
ghost use Rattle.x509_more_outlines.specs.Requests.{request_info, request_parts, request_base, request};
ghost use Rattle.x509_more_outlines.specs.facts.Requests.{request_from, request_same};

use crate::request_info_outline::RequestInfoOutline;
use std::alloc::{Allocator, Global};
use x509_der::parts::{
    Field, Join, One, Output, Reader, Ref, SEQUENCE_TAG, Sequence, Structure, Tagged,
    check_first_field, read_first_field,
};
use x509_der::{BitStringAsn1, CloneEq, FromDer, ReadError, SameEq, ToDer, TooLong};
use x509_outline::certificate_outline::Signature;
use x509_outline::sequences::{pass_three, put_three, read_three};
use x509_outline::{SignedPart, SignedRead};
use x509_outline_parts::AlgorithmOutline;

/// A request for a certificate, with names, algorithms, keys and attributes of any kind: what is signed, and the
/// signature. Whether the signature is right isn't looked at.
///
/// # Encoding
/// `CertificationRequest ::= SEQUENCE { certificationRequestInfo CertificationRequestInfo, signatureAlgorithm
/// AlgorithmIdentifier, signature BIT STRING }` (RFC 2986, 4.2).
#[derive(Drop)]
#[derive_where(Debug, PartialEq, Eq)]
#[derive_where(Clone; A: Copy)]
pub struct RequestOutline<A: Allocator = Global> {
    /// What is signed.
    pub certification_request_info: RequestInfoOutline<A>,
    /// The algorithm of the signature.
    pub signature_algorithm: AlgorithmOutline<A>,
    /// The signature.
    pub signature: BitStringAsn1<A>,
}

impl<A: Allocator + Copy> RequestOutline<A> {
    /// Reads a request from the whole of the bytes, as `from_bytes` does, and answers with it the bytes of
    /// `certification_request_info`, which the signature covers. The deviations inside those bytes are counted apart
    /// from the others: where there are none inside, the bytes are the DER encoding of `certification_request_info`,
    /// and else they aren't.
    ///
    /// # Errors
    /// As `from_bytes`: refused exactly where the bytes encode no request, or memory is refused.
    pub fn read_with_signed_part(alloc: A, bytes: &[u8]) -> Result<SignedRead<'_, Self>, ReadError>
        ensures ok { IfOk result (λ r. FirstPart request_parts request_info signature_fields
            bytes.now r.value r.signed.now r.inside r.outside) }
        ensures start { IfOk result (λ r. StartsContent bytes.now r.start) }
        ensures err { IfErr result (NoWhole (request {A = A}) bytes.now) }
    {
        let read = read_first_field::<Self, RequestInfoOutline<A>, Signature<A>, A>(alloc, bytes)?;
        Ok(SignedRead {
            value: read.value,
            signed: read.slice,
            start: read.start,
            inside: read.inside,
            outside: read.outside,
        })
    }

    /// Checks a request as `check` does, over the whole of the bytes, and answers the bytes of
    /// `certification_request_info`, which the signature covers. The deviations inside those bytes are counted apart from
    /// the others: where there are none inside, the bytes are the DER encoding of `certification_request_info`, and else
    /// they aren't. It builds no value and takes no memory.
    ///
    /// # Errors
    /// Refused exactly where the bytes encode no request; never for memory.
    pub fn check_signed_part(alloc: A, bytes: &[u8]) -> Result<SignedPart<'_>, ReadError>
        ensures ok { IfOk result (λ r. SignedPartOf (request_parts {A = A}) request_info signature_fields
            bytes.now r.signed.now r.inside r.outside) }
        ensures start { IfOk result (λ r. StartsContent bytes.now r.start) }
        ensures err { IfErr result (NoValue (request {A = A}) bytes.now) }
    {
        match check_first_field::<Self, RequestInfoOutline<A>, Signature<A>, A>(alloc, bytes) {
            Ok(checked) => Ok(SignedPart {
                signed: checked.slice,
                start: checked.start,
                inside: checked.inside,
                outside: checked.outside,
            }),
            Err(error) => Err(error),
        }
    }
}

impl<A: Allocator + Copy> CloneEq for RequestOutline<A> {
    ghost use Rattle.std.proofs.Common.{rules};

    ghost exact = { Prim.search (rules) };
}

impl<A: Allocator> SameEq for RequestOutline<A> {
    fn decides() {
        RequestInfoOutline::<A>::decides();
        AlgorithmOutline::<A>::decides();
        BitStringAsn1::<A>::decides();
    }
}

/// The fields, owned.
type Inner<A> = Join<RequestInfoOutline<A>, Signature<A>>;

/// The SEQUENCE, owned.
type Fields<A> = Tagged<Sequence, Inner<A>>;

impl<A: Allocator> ToDer for RequestOutline<A> {
    ghost strict = { request.strict };

    fn put<O: Output>(&self, out: &mut [u8], at: usize) -> Result<usize, TooLong> {
        put_three::<O, _, _, _>(
            &self.certification_request_info,
            &self.signature_algorithm,
            &One(Ref(&self.signature)),
            out,
            at,
        )
    }
}

impl<A: Allocator> Structure<Inner<A>> for RequestOutline<A> {
    ghost fields = { request_parts };

    fn from_fields(parts: Inner<A>) -> Self {
        let Join(certification_request_info, Join(signature_algorithm, One(signature))) = parts;
        RequestOutline {
            certification_request_info,
            signature_algorithm,
            signature,
        }
    }

    ghost same = { request_same };

    ghost made = { λ f. (request_from f, refl) };
}

impl<A: Allocator + Copy> Field<A> for RequestOutline<A> {
    type Brief = ();

    ghost brief = { λ v. tt };

    ghost shape = { request };

    ghost lawful = { λ h. structure_lawful request_parts request_base request_same
        (⟦<Fields<A> as Field<A>>⟧.lawful (tt, (tt, tt, λ c h. refl), λ c h. refl)) };

    ghost elements = { λ h. structure_element request_parts request_base
        (⟦<Fields<A> as Field<A>>⟧.elements tt) };

    ghost agrees = { λ v. refl };

    fn starts(byte: u8) -> bool {
        byte == SEQUENCE_TAG
    }

    fn known(&self) {
        self.certification_request_info.known();
        self.signature_algorithm.known();
        self.signature.known();
    }

    fn read(alloc: A, reader: &mut Reader<'_, A>) -> Result<Self, ReadError> {
        read_three::<Self, RequestInfoOutline<A>, AlgorithmOutline<A>, One<BitStringAsn1<A>>, A>(
            alloc, reader,
        )
    }

    fn pass(alloc: A, reader: &mut Reader<'_, A>) -> Result<(), ReadError> {
        pass_three::<Self, RequestInfoOutline<A>, AlgorithmOutline<A>, One<BitStringAsn1<A>>, A>(
            alloc, reader,
        )
    }
}

impl<A: Allocator + Copy> FromDer<A> for RequestOutline<A> {
    ghost stands_alone = { (tt, tt) };
}
