//! The times between which a certificate is valid.

ghost use Rattle.std.specs.Prelude.{◌≡◌, refl};
ghost use Rattle.x509_der.specs.laws.Structure.{structure_lawful, structure_element};
ghost use Rattle.x509_names_parts.specs.Validities.{validity_parts, validity_base, validity as validities};
ghost use Rattle.x509_names_parts.specs.facts.Validities.{validity_of, validity_same};

use crate::time::Time;
use std::alloc::Allocator;
use x509_der::parts::{
    Field, Join, One, Output, Reader, Ref, SEQUENCE_TAG, Sequence, Structure, Tagged,
    pass_sequence, put_element, read_sequence,
};
use x509_der::{CloneEq, FromDer, ReadError, SameEq, ToDer, TooLong};

/// The times between which a certificate is valid, both included (RFC 5280, 4.1.2.5). They aren't compared with one
/// another.
///
/// # Encoding
/// `Validity ::= SEQUENCE { notBefore Time, notAfter Time }`. Reading it takes no memory.
#[derive(Clone, Debug, Drop, PartialEq, Eq)]
pub struct Validity {
    /// The first second.
    pub not_before: Time,
    /// The last second.
    pub not_after: Time,
}

impl CloneEq for Validity {
    ghost use Rattle.std.proofs.Common.{rules};

    ghost exact = { Prim.search (rules) };
}

impl SameEq for Validity {
    fn decides() {
        Time::decides();
    }
}

/// The fields in the SEQUENCE.
type Inner = Join<Time, One<Time>>;

/// The fields, borrowed.
fn borrowed(value: &Validity) -> Join<Ref<'_, Time>, One<Ref<'_, Time>>>
    ensures { result ≡ validity_parts value.now }
{
    Join(Ref(&value.not_before), One(Ref(&value.not_after)))
}

impl ToDer for Validity {
    ghost strict = { λ v. validity_base.strict (validity_parts v) };

    fn put<O: Output>(&self, out: &mut [u8], at: usize) -> Result<usize, TooLong> {
        put_element::<O, _>(SEQUENCE_TAG, &borrowed(self), out, at)
    }
}

impl Structure<Inner> for Validity {
    ghost fields = { validity_parts };

    fn from_fields(parts: Inner) -> Self {
        let Join(not_before, One(not_after)) = parts;
        Validity {
            not_before,
            not_after,
        }
    }

    ghost same = { validity_same };

    ghost made = { λ f. (validity_of f, refl) };
}

impl<A: Allocator + Copy> Field<A> for Validity {
    type Brief = ();

    ghost shape = { validities };

    ghost brief = { λ v. tt };

    ghost lawful = { λ h. structure_lawful validity_parts validity_base validity_same
        (⟦<Tagged<Sequence, Inner> as Field<A>>⟧.lawful (tt, tt, λ c h. refl)) };

    ghost elements = { λ h. structure_element validity_parts validity_base
        (⟦<Tagged<Sequence, Inner> as Field<A>>⟧.elements tt) };

    ghost agrees = { λ v. refl };

    fn starts(byte: u8) -> bool {
        byte == SEQUENCE_TAG
    }

    fn known(&self) {
        Field::<A>::known(&self.not_before);
        Field::<A>::known(&self.not_after);
    }

    fn read(alloc: A, reader: &mut Reader<'_, A>) -> Result<Self, ReadError> {
        read_sequence::<Self, Inner, A>(alloc, reader)
    }

    fn pass(alloc: A, reader: &mut Reader<'_, A>) -> Result<(), ReadError> {
        pass_sequence::<Self, Inner, A>(alloc, reader)
    }
}

impl<A: Allocator + Copy> FromDer<A> for Validity {
    ghost stands_alone = { (tt, tt) };
}
