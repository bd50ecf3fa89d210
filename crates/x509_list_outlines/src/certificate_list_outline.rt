//! Revocation lists of which the frame alone is read.

ghost use Rattle.std.specs.Prelude.{◌≡◌, refl, IfOk, IfErr};
ghost use Rattle.x509_der.specs.Calls.{NoWhole, NoValue};
ghost use Rattle.x509_der.specs.FirstField.{FirstPart, StartsContent};
ghost use Rattle.x509_der.specs.laws.Structure.{structure_lawful, structure_element};
ghost use Rattle.x509_outline.specs.Certificates.{signature_fields};
ghost use Rattle.x509_outline.specs.SignedParts.{SignedPartOf};
ghost use Rattle.x509_list_outlines.specs.CertificateLists.{list_parts, list_base, certificate_list};
ghost use Rattle.x509_list_outlines.specs.TbsCertLists.{tbs_list};
ghost use Rattle.x509_list_outlines.specs.facts.CertificateLists.{list_from, list_same};

use crate::tbs_cert_list_outline::TbsCertListOutline;
use std::alloc::{Allocator, Global};
use x509_der::parts::{
    Field, Join, One, Output, Reader, Ref, SEQUENCE_TAG, Sequence, Structure, Tagged,
    check_first_field, read_first_field,
};
use x509_der::{BitStringAsn1, CloneEq, FromDer, ReadError, SameEq, ToDer, TooLong};
use x509_outline::certificate_outline::Signature;
use x509_outline::sequences::{pass_three, put_three, read_three};
use x509_outline::{SignedPart, SignedRead};
use x509_outline_parts::AlgorithmOutline;

/// A revocation list with algorithms, attributes and extensions of any kind: what is signed, and the signature. Whether
/// the signature is right isn't looked at, nor whether the algorithm beside it is the one that is named in what is signed.
///
/// # Encoding
/// `CertificateList ::= SEQUENCE { tbsCertList TBSCertList, signatureAlgorithm AlgorithmIdentifier, signatureValue BIT
/// STRING }` (RFC 5280, 5.1).
#[derive(Drop)]
#[derive_where(Debug, PartialEq, Eq)]
#[derive_where(Clone; A: Copy)]
pub struct CertificateListOutline<A: Allocator = Global> {
    /// What is signed.
    pub tbs_cert_list: TbsCertListOutline<A>,
    /// The algorithm of the signature.
    pub signature_algorithm: AlgorithmOutline<A>,
    /// The signature.
    pub signature_value: BitStringAsn1<A>,
}

impl<A: Allocator + Copy> CertificateListOutline<A> {
    /// Reads a revocation list from the whole of the bytes, as `from_bytes` does, and answers with it the bytes of
    /// `tbs_cert_list`, which the signature covers. The deviations inside those bytes are counted apart from the
    /// others: where there are none inside, the bytes are the DER encoding of `tbs_cert_list`, and else they aren't.
    ///
    /// # Errors
    /// As `from_bytes`: refused exactly where the bytes encode no revocation list, or memory is refused.
    pub fn read_with_signed_part(alloc: A, bytes: &[u8]) -> Result<SignedRead<'_, Self>, ReadError>
        ensures ok { IfOk result (λ r. FirstPart list_parts tbs_list signature_fields
            bytes.now r.value r.signed.now r.inside r.outside) }
        ensures start { IfOk result (λ r. StartsContent bytes.now r.start) }
        ensures err { IfErr result (NoWhole (certificate_list {A = A}) bytes.now) }
    {
        let read = read_first_field::<Self, TbsCertListOutline<A>, Signature<A>, A>(alloc, bytes)?;
        Ok(SignedRead {
            value: read.value,
            signed: read.slice,
            start: read.start,
            inside: read.inside,
            outside: read.outside,
        })
    }

    /// Checks a revocation list as `check` does, over the whole of the bytes, and answers the bytes of `tbs_cert_list`,
    /// which the signature covers. The deviations inside those bytes are counted apart from the others: where there are
    /// none inside, the bytes are the DER encoding of `tbs_cert_list`, and else they aren't. It builds no value and
    /// takes no memory.
    ///
    /// # Errors
    /// Refused exactly where the bytes encode no revocation list; never for memory.
    pub fn check_signed_part(alloc: A, bytes: &[u8]) -> Result<SignedPart<'_>, ReadError>
        ensures ok { IfOk result (λ r. SignedPartOf (list_parts {A = A}) tbs_list signature_fields
            bytes.now r.signed.now r.inside r.outside) }
        ensures start { IfOk result (λ r. StartsContent bytes.now r.start) }
        ensures err { IfErr result (NoValue (certificate_list {A = A}) bytes.now) }
    {
        match check_first_field::<Self, TbsCertListOutline<A>, Signature<A>, A>(alloc, bytes) {
            Ok(checked) => Ok(SignedPart {
                signed: checked.slice,
                start: checked.start,
                inside: checked.inside,
                outside: checked.outside,
            }),
            Err(error) => Err(error),
        }
    }
}

impl<A: Allocator + Copy> CloneEq for CertificateListOutline<A> {
    ghost use Rattle.std.proofs.Common.{rules};

    ghost exact = { Prim.search (rules) };
}

impl<A: Allocator> SameEq for CertificateListOutline<A> {
    fn decides() {
        TbsCertListOutline::<A>::decides();
        AlgorithmOutline::<A>::decides();
        BitStringAsn1::<A>::decides();
    }
}

/// The SEQUENCE, owned.
type Fields<A> = Tagged<Sequence, Inner<A>>;

/// The fields, owned.
type Inner<A> = Join<TbsCertListOutline<A>, Signature<A>>;

impl<A: Allocator> ToDer for CertificateListOutline<A> {
    ghost strict = { certificate_list.strict };

    fn put<O: Output>(&self, out: &mut [u8], at: usize) -> Result<usize, TooLong> {
        put_three::<O, _, _, _>(
            &self.tbs_cert_list,
            &self.signature_algorithm,
            &One(Ref(&self.signature_value)),
            out,
            at,
        )
    }
}

impl<A: Allocator> Structure<Inner<A>> for CertificateListOutline<A> {
    ghost fields = { list_parts };

    fn from_fields(parts: Inner<A>) -> Self {
        let Join(tbs_cert_list, Join(signature_algorithm, One(signature_value))) = parts;
        CertificateListOutline {
            tbs_cert_list,
            signature_algorithm,
            signature_value,
        }
    }

    ghost same = { list_same };

    ghost made = { λ f. (list_from f, refl) };
}

impl<A: Allocator + Copy> Field<A> for CertificateListOutline<A> {
    type Brief = ();

    ghost brief = { λ v. tt };

    ghost shape = { certificate_list };

    ghost lawful = { λ h. structure_lawful list_parts list_base list_same
        (⟦<Fields<A> as Field<A>>⟧.lawful (tt, (tt, tt, λ c h. refl), λ c h. refl)) };

    ghost elements = { λ h. structure_element list_parts list_base
        (⟦<Fields<A> as Field<A>>⟧.elements tt) };

    ghost agrees = { λ v. refl };

    fn starts(byte: u8) -> bool {
        byte == SEQUENCE_TAG
    }

    fn known(&self) {
        self.tbs_cert_list.known();
        self.signature_algorithm.known();
        self.signature_value.known();
    }

    fn read(alloc: A, reader: &mut Reader<'_, A>) -> Result<Self, ReadError> {
        read_three::<Self, TbsCertListOutline<A>, AlgorithmOutline<A>, One<BitStringAsn1<A>>, A>(
            alloc, reader,
        )
    }

    fn pass(alloc: A, reader: &mut Reader<'_, A>) -> Result<(), ReadError> {
        pass_three::<Self, TbsCertListOutline<A>, AlgorithmOutline<A>, One<BitStringAsn1<A>>, A>(
            alloc, reader,
        )
    }
}

impl<A: Allocator + Copy> FromDer<A> for CertificateListOutline<A> {
    ghost stands_alone = { (tt, tt) };
}
