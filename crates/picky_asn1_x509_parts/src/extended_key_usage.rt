//! What a certified key is for.

ghost use Rattle.std.specs.Prelude.{◌≡◌, ◌↔◌, ◌<◌, ◌^◌, Contains, IfOk, IsTrue, length, refl};
ghost use Rattle.std.specs.Iterator.Adapters.{IterYieldsInOrder};
ghost use Rattle.std.specs.List.{flat_map};
ghost use Rattle.std.specs.Slice.Iter.{iter_rest};
ghost use Rattle.x509_der.specs.Element.{element};
ghost use Rattle.x509_der.specs.Items.{no_items};
ghost use Rattle.picky_asn1_x509_parts.specs.ExtendedKeyUsage.{key_purpose, extended_key_usage};

use std::alloc::{Allocator, Global};
use std::marker::Model;
use std::slice;
use x509_der::parts::{Field, Output, Reader, SEQUENCE_TAG};
use x509_der::{
    Asn1SequenceOf, CloneEq, FromDer, ObjectIdentifier, ObjectIdentifierAsn1, ReadError, SameEq,
    ToDer, TooLong,
};

/// The purposes as they stand in the SEQUENCE.
type Purposes<A> = Asn1SequenceOf<ObjectIdentifierAsn1<A>, A>;

/// What a certified key is for: the identifiers of purposes, in a list whose order is kept. Contracts see the list.
///
/// # Encoding
/// `ExtKeyUsageSyntax ::= SEQUENCE OF KeyPurposeId`, where `KeyPurposeId ::= OBJECT IDENTIFIER` (RFC 5280, 4.2.1.12).
///
/// # Limitation
/// The standard wants one purpose at least; an empty list is read and written too.
#[derive(Drop)]
#[derive_where(Debug, PartialEq, Eq)]
#[derive_where(Clone; A: Copy)]
pub struct ExtendedKeyUsage<A: Allocator = Global>(Asn1SequenceOf<ObjectIdentifierAsn1<A>, A>);

impl<A: Allocator> Model for ExtendedKeyUsage<A> {
    ghost use Rattle.std.specs.Prelude.{List, ℕ};

    ghost Value = { List (List ℕ) };

    ghost view = { λ u. u.0 };

    ghost inverse = { λ list. record { 0 = list } };
}

/// Whether two identifiers are the same.
fn is_purpose<A: Allocator>(known: &ObjectIdentifierAsn1<A>, purpose: &ObjectIdentifier<A>) -> bool
    ensures { IsTrue result ↔ (known.now ≡ purpose.now) }
{
    known.0 == *purpose
}

impl<A: Allocator> ExtendedKeyUsage<A> {
    /// These purposes, in this order. Takes no memory.
    pub fn new(purposes: Vec<ObjectIdentifierAsn1<A>, A>) -> Self
        ensures { result ≡ purposes.items }
    {
        ExtendedKeyUsage(Asn1SequenceOf(purposes))
    }

    /// The purposes, in the list's order.
    pub fn iter(&self) -> slice::Iter<'_, ObjectIdentifierAsn1<A>>
        ensures rest { iter_rest result ≡ self.now }
        ensures bound { length (iter_rest result) < 2 ^ 64 }
        ensures runs { IterYieldsInOrder (ObjectIdentifierAsn1 A) }
    {
        self.0.0.as_slice().iter()
    }

    /// Whether a purpose is in the list.
    pub fn contains(&self, purpose: &ObjectIdentifier<A>) -> bool
        ensures { IsTrue result ↔ Contains self.now purpose.now }
    {
        self.0.0.iter().any(|known| is_purpose(known, purpose))
    }
}

impl<A: Allocator> ExtendedKeyUsage<A> {
    ghost use Rattle.std.specs.Prelude.{◌≡◌, slice_get};
    ghost use Rattle.std.specs.Borrow.{sem};
    ghost use Rattle.std.specs.Option.{option_copied_mut};
    ghost use Rattle.picky_asn1_x509_parts.specs.Lending.{lends_purpose};

    /// The purpose at a place, from 0, to be changed; none past the end. All others stay as they are.
    pub fn get_mut(&mut self, index: usize) -> Option<&mut ObjectIdentifierAsn1<A>>
        ensures* writes_back { sem 𝓛 (lends_purpose A.row A.Allocator self.entry index result) }
        ensures value { option_copied_mut result ≡ slice_get self.old index }
    {
        self.0.0.get_mut(index)
    }
}

impl<A: Allocator> From<Vec<ObjectIdentifierAsn1<A>, A>> for ExtendedKeyUsage<A> {
    ghost from_gives = { λ purposes usage. usage ≡ purposes.items };

    fn from(purposes: Vec<ObjectIdentifierAsn1<A>, A>) -> Self {
        ExtendedKeyUsage::new(purposes)
    }
}

impl<A: Allocator + Copy> CloneEq for ExtendedKeyUsage<A> {
    ghost use Rattle.std.proofs.Common.{rules};

    ghost exact = { Prim.search (rules) };
}

impl<A: Allocator> SameEq for ExtendedKeyUsage<A> {
    fn decides() {
        Purposes::<A>::decides();
    }
}

impl<A: Allocator> ToDer for ExtendedKeyUsage<A> {
    ghost strict = { λ v. element 48 (flat_map key_purpose.strict v) };

    fn put<O: Output>(&self, out: &mut [u8], at: usize) -> Result<usize, TooLong> {
        self.0.put::<O>(out, at)
    }
}

impl<A: Allocator + Copy> Field<A> for ExtendedKeyUsage<A> {
    type Brief = bool;

    ghost shape = { extended_key_usage };

    ghost brief = { no_items };

    ghost lawful = { λ h. ⟦<Purposes<A> as Field<A>>⟧.lawful (tt, tt) };

    ghost elements = { λ h. ⟦<Purposes<A> as Field<A>>⟧.elements tt };

    ghost agrees = { λ v. refl };

    fn starts(byte: u8) -> bool {
        byte == SEQUENCE_TAG
    }

    fn known(&self) {
        Field::<A>::known(&self.0);
    }

    fn read(alloc: A, reader: &mut Reader<'_, A>) -> Result<Self, ReadError> {
        Ok(ExtendedKeyUsage(Asn1SequenceOf::read(alloc, reader)?))
    }

    fn pass(alloc: A, reader: &mut Reader<'_, A>) -> Result<bool, ReadError> {
        Purposes::<A>::pass(alloc, reader)
    }
}

impl<A: Allocator + Copy> FromDer<A> for ExtendedKeyUsage<A> {
    ghost stands_alone = { (tt, tt) };
}
