//! The strings that stand in names.

ghost use Rattle.std.specs.Prelude.{◌≡◌, refl};
ghost use Rattle.x509_der.specs.laws.Structure.{structure_lawful, structure_element};
ghost use Rattle.x509_names_parts.specs.DirectoryStrings.{directory_parts, directory_base, directory_string};
ghost use Rattle.x509_names_parts.specs.facts.DirectoryStrings.{directory_of, directory_whole, directory_same, unicode_apart, printable_apart};

use std::alloc::{Allocator, Global};
use x509_der::parts::{
    BMP_STRING_TAG, Choice, Field, Output, PRINTABLE_STRING_TAG, Reader, Ref, Structure,
    UTF8_STRING_TAG, pass_fields, read_fields,
};
use x509_der::{CloneEq, FromDer, ReadError, SameEq, ToDer, TooLong};
use x509_prim::{BmpStringAsn1, PrintableStringAsn1, Utf8String};

/// A text in one of three string types, told apart by the tag.
///
/// # Encoding
/// `CHOICE { printableString PrintableString, utf8String UTF8String, bmpString BMPString }` (RFC 5280, 4.1.2.4): tag
/// 13, 0C or 1E. The standard's teletexString and universalString are refused, and an empty string is read.
#[derive(Drop)]
#[derive_where(Debug, PartialEq, Eq)]
#[derive_where(Clone; A: Copy)]
pub enum DirectoryString<A: Allocator = Global> {
    /// Letters, digits, spaces and a few marks.
    PrintableString(PrintableStringAsn1<A>),
    /// Unicode scalar values, in UTF-8.
    Utf8String(Utf8String<A>),
    /// Characters of two bytes each, the high one first. Surrogates may stand in it, with a partner or without.
    BmpString(BmpStringAsn1<A>),
}

/// The alternatives, owned or borrowed.
type Nest<P, U, B> = Choice<P, Choice<U, B>>;

/// The alternatives, owned.
type Fields<A> = Nest<PrintableStringAsn1<A>, Utf8String<A>, BmpStringAsn1<A>>;

/// The alternatives, borrowed.
type Written<'a, A> = Nest<
    Ref<'a, PrintableStringAsn1<A>>,
    Ref<'a, Utf8String<A>>,
    Ref<'a, BmpStringAsn1<A>>,
>;

impl<A: Allocator + Copy> CloneEq for DirectoryString<A> {
    ghost use Rattle.std.proofs.Common.{rules};

    ghost exact = { Prim.search (rules) };
}

impl<A: Allocator> SameEq for DirectoryString<A> {
    fn decides() {
        PrintableStringAsn1::<A>::decides();
        Utf8String::<A>::decides();
        BmpStringAsn1::<A>::decides();
    }
}

/// The alternative of a string, to be written.
fn written<A: Allocator>(value: &DirectoryString<A>) -> Written<'_, A>
    ensures { result ≡ directory_parts value.now }
{
    match value {
        DirectoryString::PrintableString(text) => Choice::First(Ref(text)),
        DirectoryString::Utf8String(text) => Choice::Second(Choice::First(Ref(text))),
        DirectoryString::BmpString(text) => Choice::Second(Choice::Second(Ref(text))),
    }
}

impl<A: Allocator> ToDer for DirectoryString<A> {
    ghost strict = { λ v. directory_base.strict (directory_parts v) };

    fn put<O: Output>(&self, out: &mut [u8], at: usize) -> Result<usize, TooLong> {
        written(self).put::<O>(out, at)
    }
}

impl<A: Allocator> Structure<Fields<A>> for DirectoryString<A> {
    ghost fields = { directory_parts };

    fn from_fields(parts: Fields<A>) -> Self {
        match parts {
            Choice::First(text) => DirectoryString::PrintableString(text),
            Choice::Second(Choice::First(text)) => DirectoryString::Utf8String(text),
            Choice::Second(Choice::Second(text)) => DirectoryString::BmpString(text),
        }
    }

    ghost same = { directory_same };

    ghost made = { λ f. (directory_of f, directory_whole _ f) };
}

impl<A: Allocator + Copy> Field<A> for DirectoryString<A> {
    type Brief = ();

    ghost shape = { directory_string };

    ghost brief = { λ v. tt };

    ghost lawful = { λ h. structure_lawful directory_parts directory_base directory_same
        (⟦<Fields<A> as Field<A>>⟧.lawful (
          (tt, ((tt, tt), ((tt, tt), unicode_apart))),
          ((tt, (tt, tt)), printable_apart),
        )) };

    ghost elements = { λ h. structure_element directory_parts directory_base
        (⟦<Fields<A> as Field<A>>⟧.elements (tt, (tt, tt))) };

    ghost agrees = { λ v. refl };

    fn starts(byte: u8) -> bool {
        byte == PRINTABLE_STRING_TAG || byte == UTF8_STRING_TAG || byte == BMP_STRING_TAG
    }

    fn known(&self) {
        match self {
            DirectoryString::PrintableString(text) => Field::<A>::known(text),
            DirectoryString::Utf8String(text) => Field::<A>::known(text),
            DirectoryString::BmpString(text) => Field::<A>::known(text),
        }
    }

    fn read(alloc: A, reader: &mut Reader<'_, A>) -> Result<Self, ReadError> {
        read_fields::<Self, Fields<A>, A>(alloc, reader)
    }

    fn pass(alloc: A, reader: &mut Reader<'_, A>) -> Result<(), ReadError> {
        pass_fields::<Self, Fields<A>, A>(alloc, reader)
    }
}

impl<A: Allocator + Copy> FromDer<A> for DirectoryString<A> {
    ghost stands_alone = { (tt, tt) };
}
