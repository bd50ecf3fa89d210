//! The parameters of elliptic curve keys.

ghost use Rattle.std.specs.Prelude.{◌≡◌, refl};
ghost use Rattle.x509_der.specs.laws.Structure.{structure_lawful, structure_element};
ghost use Rattle.x509_keys_parts.specs.EcParameters.{curve_of, ec_base, ec_parameters};
ghost use Rattle.x509_keys_parts.specs.declared.ec_parameters.EcParameters.TheVariants.{NamedCurve};
ghost use Rattle.x509_keys_parts.specs.facts.EcParameters.{ec_same};

use std::alloc::{Allocator, Global};
use x509_der::parts::{
    Field, OBJECT_IDENTIFIER_TAG, Output, Reader, Structure, pass_fields, read_fields,
};
use x509_der::{
    CloneEq, FromDer, ObjectIdentifier, ObjectIdentifierAsn1, ReadError, SameEq, ToDer, TooLong,
};

/// The parameters of an elliptic curve key: a curve by its object identifier.
///
/// # Encoding
/// `CHOICE { namedCurve OBJECT IDENTIFIER }` (RFC 5480, 2.1.1). Curves that aren't named are refused.
#[derive(Drop)]
#[derive_where(Debug, PartialEq, Eq)]
#[derive_where(Clone; A: Copy)]
pub enum EcParameters<A: Allocator = Global> {
    /// The curve of an object identifier.
    NamedCurve(ObjectIdentifierAsn1<A>),
}

impl<A: Allocator> EcParameters<A> {
    /// The object identifier of the curve.
    pub fn curve_oid(&self) -> &ObjectIdentifier<A>
        ensures { result.now ≡ curve_of self.now }
    {
        match self {
            EcParameters::NamedCurve(curve) => &curve.0,
        }
    }
}

impl<A: Allocator> From<ObjectIdentifier<A>> for EcParameters<A> {
    ghost use Rattle.std.specs.Prelude.{◌≡◌};
    ghost use Rattle.x509_keys_parts.specs.declared.ec_parameters.EcParameters.TheVariants.{NamedCurve};

    ghost from_gives = { λ arcs v. v ≡ NamedCurve arcs };

    fn from(curve: ObjectIdentifier<A>) -> Self {
        EcParameters::NamedCurve(ObjectIdentifierAsn1(curve))
    }
}

impl<A: Allocator> From<ObjectIdentifierAsn1<A>> for EcParameters<A> {
    ghost use Rattle.std.specs.Prelude.{◌≡◌};
    ghost use Rattle.x509_keys_parts.specs.declared.ec_parameters.EcParameters.TheVariants.{NamedCurve};

    ghost from_gives = { λ arcs v. v ≡ NamedCurve arcs };

    fn from(curve: ObjectIdentifierAsn1<A>) -> Self {
        EcParameters::NamedCurve(curve)
    }
}

impl<A: Allocator + Copy> CloneEq for EcParameters<A> {
    ghost use Rattle.std.proofs.Common.{rules};

    ghost exact = { Prim.search (rules) };
}

impl<A: Allocator> SameEq for EcParameters<A> {
    fn decides() {
        ObjectIdentifierAsn1::<A>::decides();
    }
}

impl<A: Allocator> ToDer for EcParameters<A> {
    ghost strict = { λ v. ec_base.strict (curve_of v) };

    fn put<O: Output>(&self, out: &mut [u8], at: usize) -> Result<usize, TooLong> {
        match self {
            EcParameters::NamedCurve(curve) => curve.put::<O>(out, at),
        }
    }
}

impl<A: Allocator> Structure<ObjectIdentifierAsn1<A>> for EcParameters<A> {
    ghost fields = { curve_of };

    fn from_fields(parts: ObjectIdentifierAsn1<A>) -> Self {
        EcParameters::NamedCurve(parts)
    }

    ghost same = { ec_same };

    ghost made = { λ f. (NamedCurve f, refl) };
}

impl<A: Allocator + Copy> Field<A> for EcParameters<A> {
    type Brief = ();

    ghost shape = { ec_parameters };

    ghost brief = { λ v. tt };

    ghost lawful = { λ h. structure_lawful curve_of ec_base ec_same
        (⟦<ObjectIdentifierAsn1<A> as Field<A>>⟧.lawful tt) };

    ghost elements = { λ h. structure_element curve_of ec_base
        (⟦<ObjectIdentifierAsn1<A> as Field<A>>⟧.elements tt) };

    ghost agrees = { λ v. refl };

    fn starts(byte: u8) -> bool {
        byte == OBJECT_IDENTIFIER_TAG
    }

    fn known(&self) {
        match self {
            EcParameters::NamedCurve(curve) => curve.known(),
        }
    }

    fn read(alloc: A, reader: &mut Reader<'_, A>) -> Result<Self, ReadError> {
        read_fields::<Self, ObjectIdentifierAsn1<A>, A>(alloc, reader)
    }

    fn pass(alloc: A, reader: &mut Reader<'_, A>) -> Result<(), ReadError> {
        pass_fields::<Self, ObjectIdentifierAsn1<A>, A>(alloc, reader)
    }
}

impl<A: Allocator + Copy> FromDer<A> for EcParameters<A> {
    ghost stands_alone = { (tt, tt) };
}
