//! NoticeReference, written by `tools/structures.py` from `declarations.asn1`.

ghost use Rattle.std.specs.Prelude.{◌≡◌, refl};
ghost use Rattle.x509_der.specs.laws.Structure.{structure_lawful};
ghost use Rattle.x509_policies.specs.NoticeReference.{notice_reference_parts, notice_reference_inner, notice_reference_content};
ghost use Rattle.x509_policies.specs.facts.structures.NoticeReference.{notice_reference_of, notice_reference_same};

use crate::structures::DisplayText;
use std::alloc::{Allocator, Global};
use x509_der::parts::{
    Content, Field, FromContent, Join, One, Output, OwnTag, Reader, Ref, Sequence, Structure,
    ToContent, pass_as_content, read_as_content,
};
use x509_der::{Asn1SequenceOf, CloneEq, IntegerAsn1, ReadError, SameEq, TooLong};

/// Statements of an organization, by their numbers (RFC 5280, 4.2.1.4). An empty list is read too.
///
/// # Encoding
/// `NoticeReference ::= SEQUENCE { organization DisplayText, noticeNumbers SEQUENCE OF INTEGER }`.
#[derive(Drop)]
#[derive_where(Debug, PartialEq, Eq)]
#[derive_where(Clone; A: Copy)]
pub struct NoticeReference<A: Allocator = Global> {
    /// Whose statements they are.
    pub organization: DisplayText<A>,
    /// Which of them.
    pub notice_numbers: Asn1SequenceOf<IntegerAsn1<A>, A>,
}

impl<A: Allocator + Copy> CloneEq for NoticeReference<A> {
    ghost use Rattle.std.proofs.Common.{rules};

    ghost exact = { Prim.search (rules) };
}

impl<A: Allocator> SameEq for NoticeReference<A> {
    fn decides() {
        DisplayText::<A>::decides();
        Asn1SequenceOf::<IntegerAsn1<A>, A>::decides();
    }
}

/// The fields in the SEQUENCE, owned or borrowed.
type Nest<B, C> = Join<B, One<C>>;

/// The fields, owned.
type Inner<A> = Nest<DisplayText<A>, Asn1SequenceOf<IntegerAsn1<A>, A>>;

/// The fields, borrowed.
type Written<'a, A> = Nest<Ref<'a, DisplayText<A>>, Ref<'a, Asn1SequenceOf<IntegerAsn1<A>, A>>>;

/// The fields of a value, to be written.
fn written<A: Allocator>(value: &NoticeReference<A>) -> Written<'_, A>
    ensures { result ≡ notice_reference_parts value.now }
{
    Join(Ref(&value.organization), One(Ref(&value.notice_numbers)))
}

impl<A: Allocator> ToContent for NoticeReference<A> {
    ghost content = { λ v. notice_reference_inner.strict (notice_reference_parts v) };

    fn put_content<O: Output>(&self, out: &mut [u8], at: usize) -> Result<usize, TooLong> {
        written(self).put_content::<O>(out, at)
    }
}

impl<A: Allocator> Structure<Inner<A>> for NoticeReference<A> {
    ghost fields = { notice_reference_parts };

    fn from_fields(parts: Inner<A>) -> Self {
        let Join(organization, One(notice_numbers)) = parts;
        NoticeReference {
            organization,
            notice_numbers,
        }
    }

    ghost same = { notice_reference_same };

    ghost made = { λ f. (notice_reference_of f, refl) };
}

impl<A: Allocator + Copy> Content<A> for NoticeReference<A> {
    type ContentBrief = ();

    ghost content_shape = { notice_reference_content };

    ghost content_brief = { λ v. tt };

    ghost content_lawful = { λ h. structure_lawful notice_reference_parts notice_reference_inner notice_reference_same
        (⟦<Inner<A> as Content<A>>⟧.content_lawful (tt, (tt, tt), λ c h. refl)) };

    fn known_content(&self) {
        Field::<A>::known(&self.organization);
        Field::<A>::known(&self.notice_numbers);
    }

    fn read_content(alloc: A, reader: &mut Reader<'_, A>) -> Result<Self, ReadError> {
        read_as_content::<Self, Inner<A>, A>(alloc, reader)
    }

    fn pass_content(alloc: A, reader: &mut Reader<'_, A>) -> Result<(), ReadError> {
        pass_as_content::<Self, Inner<A>, A>(alloc, reader)
    }

    ghost content_agrees = { λ v. refl };
}

impl<A: Allocator + Copy> FromContent<A> for NoticeReference<A> {
    ghost content_always = { tt };
}

impl<A: Allocator> OwnTag for NoticeReference<A> {
    type Tag = Sequence;
}
