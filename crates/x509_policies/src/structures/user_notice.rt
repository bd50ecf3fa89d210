//! UserNotice, written by `tools/structures.py` from `declarations.asn1`.

ghost use Rattle.std.specs.Prelude.{◌≡◌, refl};
ghost use Rattle.x509_der.specs.laws.Structure.{structure_lawful};
ghost use Rattle.x509_policies.specs.UserNotice.{user_notice_parts, user_notice_inner, user_notice_content};
ghost use Rattle.x509_policies.specs.facts.structures.UserNotice.{user_notice_of, user_notice_same, user_notice_notice_ref_apart};

use crate::structures::{DisplayText, NoticeReference};
use std::alloc::{Allocator, Global};
use x509_der::parts::{
    Content, FromContent, Join, One, Optional, Output, OwnTag, Reader, Ref, Sequence, Structure,
    ToContent, known_there, pass_as_content, read_as_content,
};
use x509_der::{CloneEq, ReadError, SameEq, TooLong};

/// What is to be shown to whoever relies on a certificate (RFC 5280, 4.2.1.4). A structure without fields is read too.
///
/// # Encoding
/// `UserNotice ::= SEQUENCE { noticeRef NoticeReference OPTIONAL, explicitText DisplayText OPTIONAL }`.
#[derive(Drop)]
#[derive_where(Debug, PartialEq, Eq)]
#[derive_where(Clone; A: Copy)]
pub struct UserNotice<A: Allocator = Global> {
    /// Where it is found.
    pub notice_ref: Option<NoticeReference<A>>,
    /// What it says.
    pub explicit_text: Option<DisplayText<A>>,
}

impl<A: Allocator + Copy> CloneEq for UserNotice<A> {
    ghost use Rattle.std.proofs.Common.{rules};

    ghost exact = { Prim.search (rules) };
}

impl<A: Allocator> SameEq for UserNotice<A> {
    fn decides() {
        Option::<NoticeReference<A>>::decides();
        Option::<DisplayText<A>>::decides();
    }
}

/// The fields in the SEQUENCE, owned or borrowed.
type Nest<B, C> = Join<Optional<B>, One<Optional<C>>>;

/// The fields, owned.
type Inner<A> = Nest<NoticeReference<A>, DisplayText<A>>;

/// The fields, borrowed.
type Written<'a, A> = Nest<Ref<'a, NoticeReference<A>>, Ref<'a, DisplayText<A>>>;

/// The fields of a value, to be written.
fn written<A: Allocator>(value: &UserNotice<A>) -> Written<'_, A>
    ensures { result ≡ user_notice_parts value.now }
{
    Join(
        Optional::borrowed(&value.notice_ref),
        One(Optional::borrowed(&value.explicit_text)),
    )
}

impl<A: Allocator> ToContent for UserNotice<A> {
    ghost content = { λ v. user_notice_inner.strict (user_notice_parts v) };

    fn put_content<O: Output>(&self, out: &mut [u8], at: usize) -> Result<usize, TooLong> {
        written(self).put_content::<O>(out, at)
    }
}

impl<A: Allocator> Structure<Inner<A>> for UserNotice<A> {
    ghost fields = { user_notice_parts };

    fn from_fields(parts: Inner<A>) -> Self {
        let Join(notice_ref, One(explicit_text)) = parts;
        UserNotice {
            notice_ref: notice_ref.0,
            explicit_text: explicit_text.0,
        }
    }

    ghost same = { user_notice_same };

    ghost made = { λ f. (user_notice_of f, refl) };
}

impl<A: Allocator + Copy> Content<A> for UserNotice<A> {
    type ContentBrief = ();

    ghost content_shape = { user_notice_content };

    ghost content_brief = { λ v. tt };

    ghost content_lawful = { λ h. structure_lawful user_notice_parts user_notice_inner user_notice_same
        (⟦<Inner<A> as Content<A>>⟧.content_lawful ((tt, tt), (tt, tt), user_notice_notice_ref_apart)) };

    fn known_content(&self) {
        known_there::<NoticeReference<A>, A>(&self.notice_ref);
        known_there::<DisplayText<A>, A>(&self.explicit_text);
    }

    fn read_content(alloc: A, reader: &mut Reader<'_, A>) -> Result<Self, ReadError> {
        read_as_content::<Self, Inner<A>, A>(alloc, reader)
    }

    fn pass_content(alloc: A, reader: &mut Reader<'_, A>) -> Result<(), ReadError> {
        pass_as_content::<Self, Inner<A>, A>(alloc, reader)
    }

    ghost content_agrees = { λ v. refl };
}

impl<A: Allocator + Copy> FromContent<A> for UserNotice<A> {
    ghost content_always = { tt };
}

impl<A: Allocator> OwnTag for UserNotice<A> {
    type Tag = Sequence;
}
