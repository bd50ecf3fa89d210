//! Certificates.

ghost use Rattle.std.specs.Prelude.{◌≡◌, refl, IfOk, IfErr, MatchOption, None, Some};
ghost use Rattle.x509_der.specs.Calls.{NoWhole, NoValue};
ghost use Rattle.x509_der.specs.FirstField.{FirstPart, StartsContent};
ghost use Rattle.x509_der.specs.laws.Structure.{structure_lawful, structure_element};
ghost use Rattle.picky_asn1_x509_parts.specs.Extensions.{subject_key_arcs, authority_key_arcs, constraints_arcs};
ghost use Rattle.picky_asn1_x509.specs.Certificates.{signature_fields, certificate_parts, certificate_base, certificate, certificate_bytes};
ghost use Rattle.picky_asn1_x509.specs.LookUps.{first_of, held_by, subject_key_in, authority_key_in, constraints_in};
ghost use Rattle.picky_asn1_x509.specs.SignedParts.{SignedPartOf};
ghost use Rattle.picky_asn1_x509.specs.TbsCertificates.{tbs_certificate};
ghost use Rattle.picky_asn1_x509.specs.facts.Certificates.{certificate_from, certificate_same, certificate_agrees};

use crate::signed_read::{SignedPart, SignedRead};
pub use crate::tbs_certificate::TbsCertificate;
use crate::three::{pass_three, put_three, read_three};
use picky_asn1_x509_parts::{AuthorityKeyIdentifier, BasicConstraints, Extension, ExtensionView};
use std::alloc::{Allocator, Global};
use x509_der::parts::{
    Field, Join, One, Output, Reader, Ref, SEQUENCE_TAG, Sequence, Structure, Tagged,
    check_first_field, read_first_field,
};
use x509_der::{BitStringAsn1, CloneEq, FromDer, ReadError, ToDer, TooLong};
use x509_keys::AlgorithmIdentifier;

/// A certificate: what is signed, and the signature. Whether the signature is right isn't looked at, nor whether the
/// algorithm beside it is the one that is named in what is signed.
///
/// # Encoding
/// `Certificate ::= SEQUENCE { tbsCertificate TBSCertificate, signatureAlgorithm AlgorithmIdentifier, signatureValue
/// BIT STRING }` (RFC 5280, 4.1.1).
#[derive(Drop)]
#[derive_where(Debug, PartialEq, Eq)]
#[derive_where(Clone; A: Copy)]
pub struct Certificate<A: Allocator = Global> {
    /// What is signed.
    pub tbs_certificate: TbsCertificate<A>,
    /// The algorithm of the signature.
    pub signature_algorithm: AlgorithmIdentifier<A>,
    /// The signature.
    pub signature_value: BitStringAsn1<A>,
}

impl<A: Allocator> Certificate<A> {
    /// The extensions, in order; none are an empty slice. Takes no memory.
    pub fn extensions(&self) -> &[Extension<A>]
        ensures { result.now ≡ self.now.tbs_certificate.extensions }
    {
        self.tbs_certificate.extensions.0.0.as_slice()
    }

    /// The first extension with the object identifier that has these arcs (RFC 5280, 4.2). Takes no memory.
    pub fn find_extension(&self, arcs: &[u64]) -> Option<&Extension<A>>
        ensures { MatchOption result (first_of arcs.now self.now.tbs_certificate.extensions ≡ None)
            (λ e. first_of arcs.now self.now.tbs_certificate.extensions ≡ Some e.now) }
    {
        self.tbs_certificate.extensions.find_extension(arcs)
    }

    /// The identifier of the certified key (RFC 5280, 4.2.1.2): what the first extension holds that has the identifier
    /// 2.5.29.14. Takes no memory.
    pub fn subject_key_identifier(&self) -> Option<&[u8]>
        ensures { MatchOption result
            (held_by subject_key_in (first_of subject_key_arcs self.now.tbs_certificate.extensions) ≡ None)
            (λ key. held_by subject_key_in
            (first_of subject_key_arcs self.now.tbs_certificate.extensions) ≡ Some key.now) }
    {
        let extension = self.find_extension(&[2, 5, 29, 14])?;
        match extension.extn_value() {
            ExtensionView::SubjectKeyIdentifier(key) => Some(key.0.as_slice()),
            _ => None,
        }
    }

    /// Which key signed (RFC 5280, 4.2.1.1): what the first extension holds that has the identifier 2.5.29.35. Takes no
    /// memory.
    pub fn authority_key_identifier(&self) -> Option<&AuthorityKeyIdentifier<A>>
        ensures { MatchOption result
            (held_by authority_key_in (first_of authority_key_arcs self.now.tbs_certificate.extensions) ≡ None)
            (λ key. held_by authority_key_in
            (first_of authority_key_arcs self.now.tbs_certificate.extensions) ≡ Some key.now) }
    {
        let extension = self.find_extension(&[2, 5, 29, 35])?;
        match extension.extn_value() {
            ExtensionView::AuthorityKeyIdentifier(key) => Some(key),
            _ => None,
        }
    }

    /// Whether the subject is an authority (RFC 5280, 4.2.1.9): what the first extension holds that has the identifier
    /// 2.5.29.19. Takes no memory.
    pub fn basic_constraints(&self) -> Option<&BasicConstraints>
        ensures { MatchOption result
            (held_by constraints_in (first_of constraints_arcs self.now.tbs_certificate.extensions) ≡ None)
            (λ constraints. held_by constraints_in
            (first_of constraints_arcs self.now.tbs_certificate.extensions) ≡ Some constraints.now) }
    {
        let extension = self.find_extension(&[2, 5, 29, 19])?;
        match extension.extn_value() {
            ExtensionView::BasicConstraints(constraints) => Some(constraints),
            _ => None,
        }
    }
}

impl<A: Allocator + Copy> Certificate<A> {
    /// Reads a certificate from the whole of the bytes, as `from_bytes` does, and answers with it the bytes of
    /// `tbs_certificate`, which the signature covers. The deviations inside those bytes are counted apart from the
    /// others: where there are none inside, the bytes are the DER encoding of `tbs_certificate`, and else they aren't.
    ///
    /// # Errors
    /// As `from_bytes`: refused exactly where the bytes encode no certificate, or memory is refused.
    pub fn read_with_signed_part(alloc: A, bytes: &[u8]) -> Result<SignedRead<'_, Self>, ReadError>
        ensures ok { IfOk result (λ r. FirstPart certificate_parts tbs_certificate signature_fields
            bytes.now r.value r.signed.now r.inside r.outside) }
        ensures start { IfOk result (λ r. StartsContent bytes.now r.start) }
        ensures err { IfErr result (NoWhole (certificate {A = A}) bytes.now) }
    {
        let read = read_first_field::<Self, TbsCertificate<A>, Signature<A>, A>(alloc, bytes)?;
        Ok(SignedRead {
            value: read.value,
            signed: read.slice,
            start: read.start,
            inside: read.inside,
            outside: read.outside,
        })
    }

    /// Checks a certificate as `check` does, over the whole of the bytes, and answers the bytes of
    /// `tbs_certificate`, which the signature covers. The deviations inside those bytes are counted apart from
    /// the others: where there are none inside, the bytes are the DER encoding of `tbs_certificate`, and else
    /// they aren't. It builds no value and takes no memory.
    ///
    /// # Errors
    /// Refused exactly where the bytes encode no certificate; never for memory.
    pub fn check_signed_part(alloc: A, bytes: &[u8]) -> Result<SignedPart<'_>, ReadError>
        ensures ok { IfOk result (λ r. SignedPartOf (certificate_parts {A = A}) tbs_certificate signature_fields bytes.now r.signed.now
            r.inside r.outside) }
        ensures start { IfOk result (λ r. StartsContent bytes.now r.start) }
        ensures err { IfErr result (NoValue (certificate {A = A}) bytes.now) }
    {
        match check_first_field::<Self, TbsCertificate<A>, Signature<A>, A>(alloc, bytes) {
            Ok(checked) => Ok(SignedPart {
                signed: checked.slice,
                start: checked.start,
                inside: checked.inside,
                outside: checked.outside,
            }),
            Err(error) => Err(error),
        }
    }
}

impl<A: Allocator + Copy> CloneEq for Certificate<A> {
    ghost use Rattle.std.proofs.Common.{rules};

    ghost exact = { Prim.search (rules) };
}

/// The signature behind its algorithm, owned.
pub(crate) type Signature<A> = Join<AlgorithmIdentifier<A>, One<BitStringAsn1<A>>>;

/// The SEQUENCE, owned.
type Fields<A> = Tagged<Sequence, Inner<A>>;

/// The fields, owned.
type Inner<A> = Join<TbsCertificate<A>, Signature<A>>;

impl<A: Allocator> ToDer for Certificate<A> {
    ghost strict = { certificate_bytes };

    fn put<O: Output>(&self, out: &mut [u8], at: usize) -> Result<usize, TooLong> {
        put_three::<O, _, _, _>(
            &self.tbs_certificate,
            &self.signature_algorithm,
            &One(Ref(&self.signature_value)),
            out,
            at,
        )
    }
}

impl<A: Allocator> Structure<Inner<A>> for Certificate<A> {
    ghost fields = { certificate_parts };

    fn from_fields(parts: Inner<A>) -> Self {
        let Join(tbs_certificate, Join(signature_algorithm, One(signature_value))) = parts;
        Certificate {
            tbs_certificate,
            signature_algorithm,
            signature_value,
        }
    }

    ghost same = { certificate_same };

    ghost made = { λ f. (certificate_from f, refl) };
}

impl<A: Allocator + Copy> Field<A> for Certificate<A> {
    type Brief = ();

    ghost brief = { λ v. tt };

    ghost shape = { certificate };

    ghost lawful = { λ h. structure_lawful certificate_parts certificate_base certificate_same
        (⟦<Fields<A> as Field<A>>⟧.lawful (tt, (tt, tt, λ c h. refl), λ c h. refl)) };

    ghost elements = { λ h. structure_element certificate_parts certificate_base
        (⟦<Fields<A> as Field<A>>⟧.elements tt) };

    ghost agrees = { certificate_agrees };

    fn starts(byte: u8) -> bool {
        byte == SEQUENCE_TAG
    }

    fn known(&self) {
        self.tbs_certificate.known();
        self.signature_algorithm.known();
        self.signature_value.known();
    }

    fn read(alloc: A, reader: &mut Reader<'_, A>) -> Result<Self, ReadError> {
        read_three::<Self, TbsCertificate<A>, AlgorithmIdentifier<A>, One<BitStringAsn1<A>>, A>(
            alloc, reader,
        )
    }

    fn pass(alloc: A, reader: &mut Reader<'_, A>) -> Result<(), ReadError> {
        pass_three::<Self, TbsCertificate<A>, AlgorithmIdentifier<A>, One<BitStringAsn1<A>>, A>(
            alloc, reader,
        )
    }
}

impl<A: Allocator + Copy> FromDer<A> for Certificate<A> {
    ghost stands_alone = { (tt, tt) };
}
