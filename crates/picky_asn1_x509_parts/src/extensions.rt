//! Lists of extensions.

ghost use Rattle.std.specs.Prelude.{◌≡◌, MatchOption, None, Some};
ghost use Rattle.x509_der.specs.Items.{no_items};
ghost use Rattle.picky_asn1_x509_parts.specs.ExtensionLists.{extensions, extensions_bytes};
ghost use Rattle.picky_asn1_x509_parts.specs.FirstExtensions.{has_identifier, first_of};

use crate::extension::Extension;
use std::alloc::{Allocator, Global};
use std::marker::Model;
use x509_der::parts::{Field, Output, Reader, SEQUENCE_TAG};
use x509_der::{Asn1SequenceOf, CloneEq, FromDer, ReadError, SameEq, ToDer, TooLong};

/// Extensions, in a list whose order is kept. It may be empty, and an extension may repeat. Contracts see the list.
///
/// # Encoding
/// `Extensions ::= SEQUENCE SIZE (1..MAX) OF Extension` (RFC 5280, 4.1): tag 30, and the extensions one behind another.
#[derive(Drop)]
#[derive_where(Debug, PartialEq, Eq)]
#[derive_where(Clone; A: Copy)]
pub struct Extensions<A: Allocator = Global>(pub Asn1SequenceOf<Extension<A>, A>);

impl<A: Allocator> Model for Extensions<A> {
    ghost use Rattle.std.specs.Prelude.{List};
    ghost use Rattle.picky_asn1_x509_parts.specs.Extensions.{ExtensionFields};

    ghost Value = { List (ExtensionFields A) };

    ghost view = { λ v. v.0 };

    ghost inverse = { λ list. record { 0 = list } };
}

impl<A: Allocator> SameEq for Extensions<A> {
    fn decides() {
        Asn1SequenceOf::<Extension<A>, A>::decides();
    }
}

impl<A: Allocator> From<Vec<Extension<A>, A>> for Extensions<A> {
    ghost from_gives = { λ items list. list ≡ items.items };

    fn from(items: Vec<Extension<A>, A>) -> Self {
        Extensions(Asn1SequenceOf(items))
    }
}

/// Whether an extension has an identifier.
fn is_identified<A: Allocator>(extension: &Extension<A>, arcs: &[u64]) -> bool
    ensures { result ≡ has_identifier arcs.now extension.now }
{
    extension.extn_id().0.is_arcs(arcs)
}

/// The first extension with an identifier.
fn first_extension<'a, A: Allocator>(
    extensions: &'a [Extension<A>],
    arcs: &[u64],
) -> Option<&'a Extension<A>>
    ensures { MatchOption result (first_of arcs.now extensions.now ≡ None)
        (λ e. first_of arcs.now extensions.now ≡ Some e.now) }
{
    for extension in extensions {
        if is_identified(extension, arcs) {
            return Some(extension);
        }
    }
    None
}

impl<A: Allocator> Extensions<A> {
    /// The first extension with the object identifier that has these arcs (RFC 5280, 4.2). Takes no memory.
    pub fn find_extension(&self, arcs: &[u64]) -> Option<&Extension<A>>
        ensures { MatchOption result (first_of arcs.now self.now ≡ None)
            (λ e. first_of arcs.now self.now ≡ Some e.now) }
    {
        first_extension(self.0.0.as_slice(), arcs)
    }
}

impl<A: Allocator + Copy> CloneEq for Extensions<A> {
    ghost use Rattle.std.proofs.Common.{rules};

    ghost exact = { Prim.search (rules) };
}

impl<A: Allocator> ToDer for Extensions<A> {
    ghost strict = { extensions_bytes };

    fn put<O: Output>(&self, out: &mut [u8], at: usize) -> Result<usize, TooLong> {
        self.0.put::<O>(out, at)
    }
}

impl<A: Allocator + Copy> Field<A> for Extensions<A> {
    ghost use Rattle.picky_asn1_x509_parts.specs.facts.ExtensionListFacts.{extensions_agree};

    type Brief = bool;

    ghost shape = { extensions };

    ghost brief = { no_items };

    ghost lawful = { λ h. ⟦<Asn1SequenceOf<Extension<A>, A> as Field<A>>⟧.lawful (tt, tt) };

    ghost elements = { λ h. ⟦<Asn1SequenceOf<Extension<A>, A> as Field<A>>⟧.elements tt };

    ghost agrees = { extensions_agree };

    fn starts(byte: u8) -> bool {
        byte == SEQUENCE_TAG
    }

    fn known(&self) {
        Field::<A>::known(&self.0);
    }

    fn read(alloc: A, reader: &mut Reader<'_, A>) -> Result<Self, ReadError> {
        Ok(Extensions(Asn1SequenceOf::read(alloc, reader)?))
    }

    fn pass(alloc: A, reader: &mut Reader<'_, A>) -> Result<bool, ReadError> {
        Asn1SequenceOf::<Extension<A>, A>::pass(alloc, reader)
    }
}

impl<A: Allocator + Copy> FromDer<A> for Extensions<A> {
    ghost stands_alone = { (tt, tt) };
}
