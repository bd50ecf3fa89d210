//! The public key beside a private key, in one of two forms.

ghost use Rattle.std.specs.Prelude.{◌≡◌, refl};
ghost use Rattle.x509_der.specs.laws.Structure.{structure_lawful, structure_element};
ghost use Rattle.x509_more_outlines.specs.PublicBits.{bits_parts, bits_base, public_bits};
ghost use Rattle.x509_more_outlines.specs.facts.PublicBits.{bits_of, bits_whole, bits_same, bits_apart};

use std::alloc::{Allocator, Global};
use x509_der::parts::{
    Choice, ContextConstructed, ContextPrimitive, Field, One, Output, Reader, Ref, Structure,
    Tagged, pass_fields, read_fields,
};
use x509_der::{BitStringAsn1, CloneEq, FromDer, ReadError, SameEq, ToDer, TooLong};

/// The bits of a public key that stands beside its private key, in one of two forms, told apart by the tag.
///
/// # Encoding
/// `publicKey [1] BIT STRING` (RFC 5958, 2): tag 81 around the bits where the tag is IMPLICIT, as the standard says, or
/// tag A1 around the BIT STRING where it is EXPLICIT, as many programs write it.
#[derive(Drop)]
#[derive_where(Debug, PartialEq, Eq)]
#[derive_where(Clone; A: Copy)]
pub enum PublicBitsOutline<A: Allocator = Global> {
    /// Under the implicit tag.
    Implicit(BitStringAsn1<A>),
    /// Under the explicit tag.
    Explicit(BitStringAsn1<A>),
}

/// The alternatives, owned or borrowed.
type Nest<B> = Choice<Tagged<ContextPrimitive<1>, B>, Tagged<ContextConstructed<1>, One<B>>>;

/// The alternatives, owned.
type Fields<A> = Nest<BitStringAsn1<A>>;

/// The alternatives, borrowed.
type Written<'a, A> = Nest<Ref<'a, BitStringAsn1<A>>>;

impl<A: Allocator + Copy> CloneEq for PublicBitsOutline<A> {
    ghost use Rattle.std.proofs.Common.{rules};

    ghost exact = { Prim.search (rules) };
}

impl<A: Allocator> SameEq for PublicBitsOutline<A> {
    fn decides() {
        BitStringAsn1::<A>::decides();
    }
}

/// The alternative of a public key, to be written.
fn written<A: Allocator>(value: &PublicBitsOutline<A>) -> Written<'_, A>
    ensures { result ≡ bits_parts value.now }
{
    match value {
        PublicBitsOutline::Implicit(bits) => Choice::First(Tagged::new(Ref(bits))),
        PublicBitsOutline::Explicit(bits) => Choice::Second(Tagged::new(One(Ref(bits)))),
    }
}

impl<A: Allocator> ToDer for PublicBitsOutline<A> {
    ghost strict = { λ v. bits_base.strict (bits_parts v) };

    fn put<O: Output>(&self, out: &mut [u8], at: usize) -> Result<usize, TooLong> {
        written(self).put::<O>(out, at)
    }
}

impl<A: Allocator> Structure<Fields<A>> for PublicBitsOutline<A> {
    ghost fields = { bits_parts };

    fn from_fields(parts: Fields<A>) -> Self {
        match parts {
            Choice::First(bits) => PublicBitsOutline::Implicit(bits.into_inner()),
            Choice::Second(bits) => PublicBitsOutline::Explicit(bits.into_value()),
        }
    }

    ghost same = { bits_same };

    ghost made = { λ f. (bits_of f, bits_whole _ f) };
}

impl<A: Allocator + Copy> Field<A> for PublicBitsOutline<A> {
    type Brief = ();

    ghost shape = { public_bits };

    ghost brief = { λ v. tt };

    ghost lawful = { λ h. structure_lawful bits_parts bits_base bits_same
        (⟦<Fields<A> as Field<A>>⟧.lawful ((tt, tt), ((tt, tt), bits_apart))) };

    ghost elements = { λ h. structure_element bits_parts bits_base
        (⟦<Fields<A> as Field<A>>⟧.elements (tt, tt)) };

    ghost agrees = { λ v. refl };

    fn starts(byte: u8) -> bool {
        byte == 0x81 || byte == 0xA1
    }

    fn known(&self) {
        match self {
            PublicBitsOutline::Implicit(bits) => bits.known(),
            PublicBitsOutline::Explicit(bits) => bits.known(),
        }
    }

    fn read(alloc: A, reader: &mut Reader<'_, A>) -> Result<Self, ReadError> {
        read_fields::<Self, Fields<A>, A>(alloc, reader)
    }

    fn pass(alloc: A, reader: &mut Reader<'_, A>) -> Result<(), ReadError> {
        pass_fields::<Self, Fields<A>, A>(alloc, reader)
    }
}

impl<A: Allocator + Copy> FromDer<A> for PublicBitsOutline<A> {
    ghost stands_alone = { (tt, tt) };
}
