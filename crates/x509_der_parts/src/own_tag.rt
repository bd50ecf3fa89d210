//! Types with a tag of their own: the element with the tag around the content.

ghost use Rattle.std.specs.Prelude.{refl};
ghost use Rattle.std.proofs.Common.{ap};
ghost use Rattle.x509_der_parts.specs.Element.{element};
ghost use Rattle.x509_der_parts.specs.Tagged.{tagged};
ghost use Rattle.x509_der_parts.specs.laws.Tagged.{tagged_lawful, tagged_element};

use crate::errors::{ReadError, TooLong};
use crate::output::Output;
use crate::reader::Reader;
use crate::tagged::{Tagged, pass_element, put_element, read_element};
use crate::traits::{Field, FromContent, FromDer, OneTag, OwnTag, Tag, TagOf, ToDer};
use std::alloc::Allocator;

impl<T: OwnTag> ToDer for T {
    ghost strict = { λ v. element T.Tag.BYTE (T.content v) };

    fn put<O: Output>(&self, out: &mut [u8], at: usize) -> Result<usize, TooLong> {
        put_element::<O, T>(T::Tag::BYTE, self, out, at)
    }
}

impl<A: Allocator + Copy, T: OwnTag + FromContent<A>> Field<A> for T {
    type Brief = T::ContentBrief;

    ghost shape = { tagged T.Tag.BYTE T.content_shape };

    ghost brief = { λ v. T.content_brief v };

    ghost fits = { T.content_fits };

    ghost lawful = { λ h. tagged_lawful T.Tag.BYTE T.content_shape (T.content_lawful h) };

    ghost elements = { λ h. tagged_element T.Tag.BYTE T.content_shape T.Tag.one_byte T.Tag.is_byte };

    ghost agrees = { λ v. ap (element T.Tag.BYTE) (T.content_agrees v) };

    fn starts(byte: u8) -> bool {
        byte == T::Tag::BYTE
    }

    fn known(&self) {
        self.known_content();
    }

    fn read(alloc: A, reader: &mut Reader<'_, A>) -> Result<Self, ReadError> {
        read_element(alloc, T::Tag::BYTE, reader)
    }

    fn pass(alloc: A, reader: &mut Reader<'_, A>) -> Result<Self::Brief, ReadError> {
        pass_element::<A, T>(alloc, T::Tag::BYTE, reader)
    }
}

impl<A: Allocator + Copy, T: OwnTag + FromContent<A>> FromDer<A> for T {
    ghost stands_alone = { (T.content_always, tt) };
}

impl<A: Allocator + Copy, T: OwnTag + FromContent<A>> OneTag<A> for T {
    type Form = <T::Tag as Tag>::Form;

    ghost tag = { T.Tag.BYTE };

    ghost form = { T.Tag.form };

    ghost spelled_around = { λ v p y. (λ s. s, λ s. s) };

    ghost strict_around = { λ v. refl };

    ghost content_always = { T.content_always };
}

/// A type under an implicit tag is read alone too, where it has one tag of the same form: no CHOICE (X.680, 31.2.7), and
/// no primitive tag around a list (X.690, 8.14).
impl<A: Allocator + Copy, N: TagOf<T::Form>, T: OneTag<A>> FromDer<A> for Tagged<N, T> {
    ghost stands_alone = { (T.content_always, tt) };
}
