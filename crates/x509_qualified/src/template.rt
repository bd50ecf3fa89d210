//! The template by which Microsoft's authority issued a certificate.

ghost use Rattle.std.specs.Prelude.{◌≡◌, refl};
ghost use Rattle.x509_der.specs.laws.Structure.{structure_lawful};
ghost use Rattle.x509_qualified.specs.CertificateTemplate.{certificate_template_parts, certificate_template_inner, certificate_template_content};
ghost use Rattle.x509_qualified.specs.facts.CertificateTemplate.{certificate_template_of, certificate_template_same};

use std::alloc::{Allocator, Global};
use x509_der::parts::{
    Content, Field, FromContent, Join, Output, OwnTag, Reader, Ref, Sequence, Structure, ToContent,
    pass_as_content, read_as_content,
};
use x509_der::{
    Asn1SequenceOf, CloneEq, IntegerAsn1, ObjectIdentifierAsn1, ReadError, SameEq, TooLong,
};

/// By which template an authority of Microsoft's issued a certificate (MS-WCCE, 2.2.2.7.7.2).
///
/// # Encoding
/// `CertificateTemplateOID ::= SEQUENCE { templateID OBJECT IDENTIFIER, templateMajorVersion INTEGER (0..4294967295)
/// OPTIONAL, templateMinorVersion INTEGER (0..4294967295) OPTIONAL }`. Of one number alone nothing tells which it is, so that
/// they are a list, and any number of numbers is read.
#[derive(Drop)]
#[derive_where(Debug, PartialEq, Eq)]
#[derive_where(Clone; A: Copy)]
pub struct CertificateTemplate<A: Allocator = Global> {
    /// The template.
    pub template_id: ObjectIdentifierAsn1<A>,
    /// Its version: the major number and the minor one.
    pub version: Asn1SequenceOf<IntegerAsn1<A>, A>,
}

impl<A: Allocator + Copy> CloneEq for CertificateTemplate<A> {
    ghost use Rattle.std.proofs.Common.{rules};

    ghost exact = { Prim.search (rules) };
}

impl<A: Allocator> SameEq for CertificateTemplate<A> {
    fn decides() {
        ObjectIdentifierAsn1::<A>::decides();
        Version::<A>::decides();
    }
}

/// The fields in the SEQUENCE.
type Inner<A> = Join<ObjectIdentifierAsn1<A>, Version<A>>;

/// The numbers of a version.
type Version<A> = Asn1SequenceOf<IntegerAsn1<A>, A>;

/// The fields, borrowed.
type Written<'a, A> = Join<Ref<'a, ObjectIdentifierAsn1<A>>, Ref<'a, Version<A>>>;

/// The fields of a value, to be written.
fn written<A: Allocator>(value: &CertificateTemplate<A>) -> Written<'_, A>
    ensures { result ≡ certificate_template_parts value.now }
{
    Join(Ref(&value.template_id), Ref(&value.version))
}

impl<A: Allocator> ToContent for CertificateTemplate<A> {
    ghost content = { λ v. certificate_template_inner.strict (certificate_template_parts v) };

    fn put_content<O: Output>(&self, out: &mut [u8], at: usize) -> Result<usize, TooLong> {
        written(self).put_content::<O>(out, at)
    }
}

impl<A: Allocator> Structure<Inner<A>> for CertificateTemplate<A> {
    ghost fields = { certificate_template_parts };

    fn from_fields(parts: Inner<A>) -> Self {
        let Join(template_id, version) = parts;
        CertificateTemplate {
            template_id,
            version,
        }
    }

    ghost same = { certificate_template_same };

    ghost made = { λ f. (certificate_template_of f, refl) };
}

impl<A: Allocator + Copy> Content<A> for CertificateTemplate<A> {
    type ContentBrief = ();

    ghost content_shape = { certificate_template_content };

    ghost content_brief = { λ v. tt };

    ghost content_lawful = { λ h. structure_lawful certificate_template_parts certificate_template_inner certificate_template_same
        (⟦<Inner<A> as Content<A>>⟧.content_lawful (tt, (tt, tt), λ c h. refl)) };

    fn known_content(&self) {
        Field::<A>::known(&self.template_id);
        Field::<A>::known(&self.version);
    }

    fn read_content(alloc: A, reader: &mut Reader<'_, A>) -> Result<Self, ReadError> {
        read_as_content::<Self, Inner<A>, A>(alloc, reader)
    }

    fn pass_content(alloc: A, reader: &mut Reader<'_, A>) -> Result<(), ReadError> {
        pass_as_content::<Self, Inner<A>, A>(alloc, reader)
    }

    ghost content_agrees = { λ v. refl };
}

impl<A: Allocator + Copy> FromContent<A> for CertificateTemplate<A> {
    ghost content_always = { tt };
}

impl<A: Allocator> OwnTag for CertificateTemplate<A> {
    type Tag = Sequence;
}
