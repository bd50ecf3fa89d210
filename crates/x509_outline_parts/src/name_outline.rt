//! Names whose attributes have any element as value.

ghost use Rattle.std.specs.Prelude.{refl};
ghost use Rattle.x509_outline_parts.specs.Names.{name};

use crate::attribute_outline::AttributeOutline;
use std::alloc::{Allocator, Global};
use std::marker::Model;
use x509_der::parts::{Field, Output, Reader, SEQUENCE_TAG, pass_only};
use x509_der::{Asn1SequenceOf, Asn1SetOf, CloneEq, FromDer, ReadError, SameEq, ToDer, TooLong};

/// A set of attributes, mostly of one. Its order is kept, and an empty one is read.
///
/// # Encoding
/// `RelativeDistinguishedName ::= SET SIZE (1..MAX) OF AttributeTypeAndValue` (RFC 5280, 4.1.2.4).
pub type RelativeNameOutline<A = Global> = Asn1SetOf<AttributeOutline<A>, A>;

/// The sets of attributes of a name.
type Sets<A> = Asn1SequenceOf<RelativeNameOutline<A>, A>;

/// A name whose attributes have any element as value: sets of attributes, in order. It may be empty. Contracts see the
/// list of the sets.
///
/// # Encoding
/// `Name ::= CHOICE { rdnSequence RDNSequence }` (RFC 5280, 4.1.2.4): tag 30, and the sets one behind another.
#[derive(Drop)]
#[derive_where(Debug, PartialEq, Eq)]
#[derive_where(Clone; A: Copy)]
pub struct NameOutline<A: Allocator = Global>(pub Asn1SequenceOf<RelativeNameOutline<A>, A>);

impl<A: Allocator> Model for NameOutline<A> {
    ghost use Rattle.x509_outline_parts.specs.Names.{Sets};

    ghost Value = { Sets A };

    ghost view = { λ v. v.0 };

    ghost inverse = { λ sets. record { 0 = sets } };
}

impl<A: Allocator + Copy> CloneEq for NameOutline<A> {
    ghost use Rattle.std.proofs.Common.{rules};

    ghost exact = { Prim.search (rules) };
}

impl<A: Allocator> SameEq for NameOutline<A> {
    fn decides() {
        Sets::<A>::decides();
    }
}

impl<A: Allocator> ToDer for NameOutline<A> {
    ghost strict = { name.strict };

    fn put<O: Output>(&self, out: &mut [u8], at: usize) -> Result<usize, TooLong> {
        self.0.put::<O>(out, at)
    }
}

impl<A: Allocator + Copy> Field<A> for NameOutline<A> {
    type Brief = ();

    ghost shape = { name };

    ghost brief = { λ v. tt };

    ghost lawful = { λ h. ⟦<Sets<A> as Field<A>>⟧.lawful ((tt, tt), tt) };

    ghost elements = { λ h. ⟦<Sets<A> as Field<A>>⟧.elements tt };

    ghost agrees = { λ v. refl };

    fn starts(byte: u8) -> bool {
        byte == SEQUENCE_TAG
    }

    fn known(&self) {
        Field::<A>::known(&self.0);
    }

    fn read(alloc: A, reader: &mut Reader<'_, A>) -> Result<Self, ReadError> {
        Ok(NameOutline(Asn1SequenceOf::read(alloc, reader)?))
    }

    fn pass(alloc: A, reader: &mut Reader<'_, A>) -> Result<(), ReadError> {
        pass_only::<Sets<A>, A>(alloc, reader)
    }
}

impl<A: Allocator + Copy> FromDer<A> for NameOutline<A> {
    ghost stands_alone = { (tt, tt) };
}
