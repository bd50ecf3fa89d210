//! DisplayText, written by `tools/structures.py` from `declarations.asn1`.

ghost use Rattle.std.specs.Prelude.{◌≡◌, refl};
ghost use Rattle.x509_der.specs.laws.Structure.{structure_lawful, structure_element};
ghost use Rattle.x509_policies.specs.DisplayText.{display_text_parts, display_text_base, display_text as shape};
ghost use Rattle.x509_policies.specs.facts.structures.DisplayText.{display_text_of, display_text_same, display_text_whole, display_text_ia5_string_apart, display_text_visible_string_apart, display_text_bmp_string_apart};

use crate::visible_string::VisibleStringAsn1;
use std::alloc::{Allocator, Global};
use x509_der::parts::{Choice, Field, Output, Reader, Ref, Structure, pass_fields, read_fields};
use x509_der::{CloneEq, FromDer, ReadError, SameEq, ToDer, TooLong};
use x509_prim::{BmpStringAsn1, Ia5StringAsn1, Utf8String};

/// A text to be shown (RFC 5280, 4.2.1.4). Any length is read, of which the standard allows 1 to 200.
///
/// # Encoding
/// `DisplayText ::= CHOICE { ia5String IA5String (SIZE (1..200)), visibleString VisibleString (SIZE (1..200)),
/// bmpString BMPString (SIZE (1..200)), utf8String UTF8String (SIZE (1..200)) }`.
#[derive(Drop)]
#[derive_where(Debug, PartialEq, Eq)]
#[derive_where(Clone; A: Copy)]
pub enum DisplayText<A: Allocator = Global> {
    /// Characters of ASCII.
    Ia5String(Ia5StringAsn1<A>),
    /// Characters of ASCII that are printed.
    VisibleString(VisibleStringAsn1<A>),
    /// Characters of two bytes each.
    BmpString(BmpStringAsn1<A>),
    /// Unicode scalar values, in UTF-8.
    Utf8String(Utf8String<A>),
}

impl<A: Allocator + Copy> CloneEq for DisplayText<A> {
    ghost use Rattle.std.proofs.Common.{rules};

    ghost exact = { Prim.search (rules) };
}

impl<A: Allocator> SameEq for DisplayText<A> {
    fn decides() {
        Ia5StringAsn1::<A>::decides();
        VisibleStringAsn1::<A>::decides();
        BmpStringAsn1::<A>::decides();
        Utf8String::<A>::decides();
    }
}

/// The alternatives, owned or borrowed.
type Nest<B, C, D, E> = Choice<B, Choice<C, Choice<D, E>>>;

/// The alternatives, owned.
type Fields<A> = Nest<Ia5StringAsn1<A>, VisibleStringAsn1<A>, BmpStringAsn1<A>, Utf8String<A>>;

/// The alternatives, borrowed.
type Written<'a, A> = Nest<
    Ref<'a, Ia5StringAsn1<A>>,
    Ref<'a, VisibleStringAsn1<A>>,
    Ref<'a, BmpStringAsn1<A>>,
    Ref<'a, Utf8String<A>>,
>;

/// The alternative of a value, to be written.
fn written<A: Allocator>(value: &DisplayText<A>) -> Written<'_, A>
    ensures { result ≡ display_text_parts value.now }
{
    match value {
        DisplayText::Ia5String(value) => Choice::First(Ref(value)),
        DisplayText::VisibleString(value) => Choice::Second(Choice::First(Ref(value))),
        DisplayText::BmpString(value) => Choice::Second(Choice::Second(Choice::First(Ref(value)))),
        DisplayText::Utf8String(value) => {
            Choice::Second(Choice::Second(Choice::Second(Ref(value))))
        }
    }
}

impl<A: Allocator> ToDer for DisplayText<A> {
    ghost strict = { λ v. display_text_base.strict (display_text_parts v) };

    fn put<O: Output>(&self, out: &mut [u8], at: usize) -> Result<usize, TooLong> {
        written(self).put::<O>(out, at)
    }
}

impl<A: Allocator> Structure<Fields<A>> for DisplayText<A> {
    ghost fields = { display_text_parts };

    fn from_fields(parts: Fields<A>) -> Self {
        match parts {
            Choice::First(value) => DisplayText::Ia5String(value),
            Choice::Second(Choice::First(value)) => DisplayText::VisibleString(value),
            Choice::Second(Choice::Second(Choice::First(value))) => DisplayText::BmpString(value),
            Choice::Second(Choice::Second(Choice::Second(value))) => DisplayText::Utf8String(value),
        }
    }

    ghost same = { display_text_same };

    ghost made = { λ f. (display_text_of f, display_text_whole _ f) };
}

impl<A: Allocator + Copy> Field<A> for DisplayText<A> {
    type Brief = ();

    ghost shape = { shape };

    ghost brief = { λ v. tt };

    ghost lawful = { λ h. structure_lawful display_text_parts display_text_base display_text_same
        (⟦<Fields<A> as Field<A>>⟧.lawful ((tt, ((tt, ((tt, tt), ((tt, tt), display_text_bmp_string_apart))), ((tt, (tt, tt)), display_text_visible_string_apart))), ((tt, (tt, (tt, tt))), display_text_ia5_string_apart))) };

    ghost elements = { λ h. structure_element display_text_parts display_text_base
        (⟦<Fields<A> as Field<A>>⟧.elements (tt, (tt, (tt, tt)))) };

    ghost agrees = { λ v. refl };

    fn starts(byte: u8) -> bool {
        byte == 0x16 || byte == 0x1A || byte == 0x1E || byte == 0x0C
    }

    fn known(&self) {
        match self {
            DisplayText::Ia5String(value) => Field::<A>::known(value),
            DisplayText::VisibleString(value) => Field::<A>::known(value),
            DisplayText::BmpString(value) => Field::<A>::known(value),
            DisplayText::Utf8String(value) => Field::<A>::known(value),
        }
    }

    fn read(alloc: A, reader: &mut Reader<'_, A>) -> Result<Self, ReadError> {
        read_fields::<Self, Fields<A>, A>(alloc, reader)
    }

    fn pass(alloc: A, reader: &mut Reader<'_, A>) -> Result<(), ReadError> {
        pass_fields::<Self, Fields<A>, A>(alloc, reader)
    }
}

impl<A: Allocator + Copy> FromDer<A> for DisplayText<A> {
    ghost stands_alone = { (tt, tt) };
}
