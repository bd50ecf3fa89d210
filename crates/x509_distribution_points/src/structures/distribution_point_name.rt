//! DistributionPointName, written by `tools/structures.py` from `declarations.asn1`.

ghost use Rattle.std.specs.Prelude.{◌≡◌, refl};
ghost use Rattle.x509_der.specs.laws.Structure.{structure_lawful, structure_element};
ghost use Rattle.x509_distribution_points.specs.DistributionPointName.{distribution_point_name_parts, distribution_point_name_base, distribution_point_name as shape};
ghost use Rattle.x509_distribution_points.specs.facts.structures.DistributionPointName.{distribution_point_name_of, distribution_point_name_same, distribution_point_name_whole, distribution_point_name_full_name_apart};

use std::alloc::{Allocator, Global};
use x509_der::parts::{
    Choice, ContextConstructed, Field, Output, Reader, Ref, Structure, Tagged, pass_fields,
    read_fields,
};
use x509_der::{CloneEq, FromDer, ReadError, SameEq, ToDer, TooLong};
use x509_names::{GeneralNames, RelativeDistinguishedName};

/// Where a revocation list is found (RFC 5280, 4.2.1.13).
///
/// # Encoding
/// `DistributionPointName ::= CHOICE { fullName [0] GeneralNames, nameRelativeToCRLIssuer [1] RelativeDistinguishedName
/// }`.
#[derive(Drop)]
#[derive_where(Debug, PartialEq, Eq)]
#[derive_where(Clone; A: Copy)]
pub enum DistributionPointName<A: Allocator = Global> {
    /// Its names, mostly addresses where it is fetched.
    FullName(GeneralNames<A>),
    /// The last part of its name, behind the name of who issues it.
    NameRelativeToCrlIssuer(RelativeDistinguishedName<A>),
}

impl<A: Allocator + Copy> CloneEq for DistributionPointName<A> {
    ghost use Rattle.std.proofs.Common.{rules};

    ghost exact = { Prim.search (rules) };
}

impl<A: Allocator> SameEq for DistributionPointName<A> {
    fn decides() {
        GeneralNames::<A>::decides();
        RelativeDistinguishedName::<A>::decides();
    }
}

/// The alternatives, owned or borrowed.
type Nest<B, C> = Choice<Tagged<ContextConstructed<0>, B>, Tagged<ContextConstructed<1>, C>>;

/// The alternatives, owned.
type Fields<A> = Nest<GeneralNames<A>, RelativeDistinguishedName<A>>;

/// The alternatives, borrowed.
type Written<'a, A> = Nest<Ref<'a, GeneralNames<A>>, Ref<'a, RelativeDistinguishedName<A>>>;

/// The alternative of a value, to be written.
fn written<A: Allocator>(value: &DistributionPointName<A>) -> Written<'_, A>
    ensures { result ≡ distribution_point_name_parts value.now }
{
    match value {
        DistributionPointName::FullName(value) => Choice::First(Tagged::new(Ref(value))),
        DistributionPointName::NameRelativeToCrlIssuer(value) => {
            Choice::Second(Tagged::new(Ref(value)))
        }
    }
}

impl<A: Allocator> ToDer for DistributionPointName<A> {
    ghost strict = { λ v. distribution_point_name_base.strict (distribution_point_name_parts v) };

    fn put<O: Output>(&self, out: &mut [u8], at: usize) -> Result<usize, TooLong> {
        written(self).put::<O>(out, at)
    }
}

impl<A: Allocator> Structure<Fields<A>> for DistributionPointName<A> {
    ghost fields = { distribution_point_name_parts };

    fn from_fields(parts: Fields<A>) -> Self {
        match parts {
            Choice::First(value) => DistributionPointName::FullName(value.into_inner()),
            Choice::Second(value) => {
                DistributionPointName::NameRelativeToCrlIssuer(value.into_inner())
            }
        }
    }

    ghost same = { distribution_point_name_same };

    ghost made = { λ f. (distribution_point_name_of f, distribution_point_name_whole _ f) };
}

impl<A: Allocator + Copy> Field<A> for DistributionPointName<A> {
    type Brief = ();

    ghost shape = { shape };

    ghost brief = { λ v. tt };

    ghost lawful = { λ h. structure_lawful distribution_point_name_parts distribution_point_name_base distribution_point_name_same
        (⟦<Fields<A> as Field<A>>⟧.lawful (((tt, tt), (tt, tt)), ((tt, tt), distribution_point_name_full_name_apart))) };

    ghost elements = { λ h. structure_element distribution_point_name_parts distribution_point_name_base
        (⟦<Fields<A> as Field<A>>⟧.elements (tt, tt)) };

    ghost agrees = { λ v. refl };

    fn starts(byte: u8) -> bool {
        byte == 0xA0 || byte == 0xA1
    }

    fn known(&self) {
        match self {
            DistributionPointName::FullName(value) => Field::<A>::known(value),
            DistributionPointName::NameRelativeToCrlIssuer(value) => Field::<A>::known(value),
        }
    }

    fn read(alloc: A, reader: &mut Reader<'_, A>) -> Result<Self, ReadError> {
        read_fields::<Self, Fields<A>, A>(alloc, reader)
    }

    fn pass(alloc: A, reader: &mut Reader<'_, A>) -> Result<(), ReadError> {
        pass_fields::<Self, Fields<A>, A>(alloc, reader)
    }
}

impl<A: Allocator + Copy> FromDer<A> for DistributionPointName<A> {
    ghost stands_alone = { (tt, tt) };
}
