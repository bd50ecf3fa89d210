//! Lists of extensions whose values are octets.

ghost use Rattle.std.specs.Prelude.{◌≡◌, refl};
ghost use Rattle.x509_der.specs.Items.{no_items};
ghost use Rattle.x509_outline_parts.specs.Extensions.{extensions};

use crate::extension_outline::ExtensionOutline;
use std::alloc::{Allocator, Global};
use std::marker::Model;
use x509_der::parts::{Field, Output, Reader, SEQUENCE_TAG};
use x509_der::{Asn1SequenceOf, CloneEq, FromDer, ReadError, SameEq, ToDer, TooLong};

/// Extensions, known or not, in a list whose order is kept. It may be empty, and an extension may repeat. Contracts see
/// the list.
///
/// # Encoding
/// `Extensions ::= SEQUENCE SIZE (1..MAX) OF Extension` (RFC 5280, 4.1): tag 30, and the extensions one behind another.
#[derive(Drop)]
#[derive_where(Debug, PartialEq, Eq)]
#[derive_where(Clone; A: Copy)]
pub struct ExtensionsOutline<A: Allocator = Global>(pub Asn1SequenceOf<ExtensionOutline<A>, A>);

impl<A: Allocator> Model for ExtensionsOutline<A> {
    ghost use Rattle.std.specs.Prelude.{List};
    ghost use Rattle.x509_outline_parts.specs.declared.extension_outline.ExtensionOutline.{ExtensionOutline};

    ghost Value = { List (ExtensionOutline A) };

    ghost view = { λ v. v.0 };

    ghost inverse = { λ list. record { 0 = list } };
}

impl<A: Allocator> SameEq for ExtensionsOutline<A> {
    fn decides() {
        Asn1SequenceOf::<ExtensionOutline<A>, A>::decides();
    }
}

impl<A: Allocator> From<Vec<ExtensionOutline<A>, A>> for ExtensionsOutline<A> {
    ghost from_gives = { λ items list. list ≡ items.items };

    fn from(items: Vec<ExtensionOutline<A>, A>) -> Self {
        ExtensionsOutline(Asn1SequenceOf(items))
    }
}

impl<A: Allocator + Copy> CloneEq for ExtensionsOutline<A> {
    ghost use Rattle.std.proofs.Common.{rules};

    ghost exact = { Prim.search (rules) };
}

impl<A: Allocator> ToDer for ExtensionsOutline<A> {
    ghost strict = { extensions.strict };

    fn put<O: Output>(&self, out: &mut [u8], at: usize) -> Result<usize, TooLong> {
        self.0.put::<O>(out, at)
    }
}

impl<A: Allocator + Copy> Field<A> for ExtensionsOutline<A> {
    type Brief = bool;

    ghost shape = { extensions };

    ghost brief = { no_items };

    ghost lawful = { λ h. ⟦<Asn1SequenceOf<ExtensionOutline<A>, A> as Field<A>>⟧.lawful (tt, tt) };

    ghost elements = { λ h. ⟦<Asn1SequenceOf<ExtensionOutline<A>, A> as Field<A>>⟧.elements tt };

    ghost agrees = { λ v. refl };

    fn starts(byte: u8) -> bool {
        byte == SEQUENCE_TAG
    }

    fn known(&self) {
        Field::<A>::known(&self.0);
    }

    fn read(alloc: A, reader: &mut Reader<'_, A>) -> Result<Self, ReadError> {
        Ok(ExtensionsOutline(Asn1SequenceOf::read(alloc, reader)?))
    }

    fn pass(alloc: A, reader: &mut Reader<'_, A>) -> Result<bool, ReadError> {
        Asn1SequenceOf::<ExtensionOutline<A>, A>::pass(alloc, reader)
    }
}

impl<A: Allocator + Copy> FromDer<A> for ExtensionsOutline<A> {
    ghost stands_alone = { (tt, tt) };
}
