//! Whether the subject of a certificate is an authority.

ghost use Rattle.std.specs.Prelude.{◌≡◌, refl};
ghost use Rattle.x509_der.specs.laws.Structure.{structure_lawful, structure_element};
ghost use Rattle.picky_asn1_x509_parts.specs.BasicConstraints.{constraints_parts, constraints_base, basic_constraints};
ghost use Rattle.picky_asn1_x509_parts.specs.facts.BasicConstraints.{constraints_of, constraints_same, pathlen_apart};

use std::alloc::Allocator;
use std::marker::Model;
use x509_der::parts::{
    Field, Join, One, Optional, Output, Reader, Ref, SEQUENCE_TAG, Sequence, Structure, Tagged,
    known_there, pass_fields, read_fields,
};
use x509_der::{CloneEq, FromDer, ReadError, SameEq, ToDer, TooLong};

/// Whether the subject of a certificate is an authority, and how many intermediate certificates may follow in a path.
/// Contracts see the two fields. One that is absent and one that encodes the default, FALSE, are two values.
///
/// # Encoding
/// `SEQUENCE { cA BOOLEAN OPTIONAL, pathLenConstraint INTEGER (0..255) OPTIONAL }`, after RFC 5280, 4.2.1.9, where `cA`
/// is FALSE by default and the path length has no upper bound. Greater path lengths are refused. FALSE is read, and
/// written where it is there (X.690, 11.5, would leave it out). Reading it takes no memory.
#[derive(Drop, Debug, Clone, PartialEq, Eq)]
pub struct BasicConstraints {
    ca: Option<bool>,
    path_len_constraint: Option<u8>,
}

impl Model for BasicConstraints {
    ghost use Rattle.picky_asn1_x509_parts.specs.BasicConstraints.{Constraints};

    ghost Value = { Constraints };

    ghost view = { λ c. record { ca = c.ca; pathlen = c.path_len_constraint } };

    ghost inverse = { λ v. record { ca = v.ca; path_len_constraint = v.pathlen } };
}

impl BasicConstraints {
    /// These fields, of which each may be absent. Takes no memory.
    pub fn new(ca: Option<bool>, pathlen: Option<u8>) -> Self
        ensures { result ≡ record { ca = ca; pathlen = pathlen } }
    {
        BasicConstraints {
            ca,
            path_len_constraint: pathlen,
        }
    }

    /// Whether the subject is an authority; `None`, which means that it isn't, where the field is absent.
    pub fn ca(&self) -> Option<bool>
        ensures { result ≡ self.now.ca }
    {
        self.ca
    }

    /// How many intermediate certificates may follow, 0 to 255; `None`, which means any number, where the field is
    /// absent.
    pub fn pathlen(&self) -> Option<u8>
        ensures { result ≡ self.now.pathlen }
    {
        self.path_len_constraint
    }
}

impl CloneEq for BasicConstraints {
    ghost use Rattle.std.proofs.Common.{rules};

    ghost exact = { Prim.search (rules) };
}

impl SameEq for BasicConstraints {
    fn decides() {
        Option::<bool>::decides();
        Option::<u8>::decides();
    }
}

/// The fields as they stand in the SEQUENCE, owned or borrowed.
type Nest<C, P> = Tagged<Sequence, Join<Optional<C>, One<Optional<P>>>>;

/// The fields, owned.
type Fields = Nest<bool, u8>;

/// The fields that are written, borrowed.
type Written<'a> = Nest<Ref<'a, bool>, Ref<'a, u8>>;

/// The fields of constraints, to be written.
fn written(value: &BasicConstraints) -> Written<'_>
    ensures { result ≡ constraints_parts value.now }
{
    Tagged::new(Join(
        Optional::borrowed(&value.ca),
        One(Optional::borrowed(&value.path_len_constraint)),
    ))
}

impl ToDer for BasicConstraints {
    ghost strict = { λ v. constraints_base.strict (constraints_parts v) };

    fn put<O: Output>(&self, out: &mut [u8], at: usize) -> Result<usize, TooLong> {
        written(self).put::<O>(out, at)
    }
}

impl Structure<Fields> for BasicConstraints {
    ghost fields = { constraints_parts };

    fn from_fields(parts: Fields) -> Self {
        let Join(ca, One(pathlen)) = parts.into_inner();
        BasicConstraints {
            ca: ca.0,
            path_len_constraint: pathlen.0,
        }
    }

    ghost same = { constraints_same };

    ghost made = { λ f. (constraints_of f, refl) };
}

impl<A: Allocator + Copy> Field<A> for BasicConstraints {
    type Brief = ();

    ghost shape = { basic_constraints };

    ghost brief = { λ v. tt };

    ghost lawful = { λ h. structure_lawful constraints_parts constraints_base constraints_same
        (⟦<Fields as Field<A>>⟧.lawful ((tt, tt), (tt, tt), pathlen_apart)) };

    ghost elements = { λ h. structure_element constraints_parts constraints_base
        (⟦<Fields as Field<A>>⟧.elements tt) };

    ghost agrees = { λ v. refl };

    fn starts(byte: u8) -> bool {
        byte == SEQUENCE_TAG
    }

    fn known(&self) {
        known_there::<bool, A>(&self.ca);
        known_there::<u8, A>(&self.path_len_constraint);
    }

    fn read(alloc: A, reader: &mut Reader<'_, A>) -> Result<Self, ReadError> {
        read_fields::<Self, Fields, A>(alloc, reader)
    }

    fn pass(alloc: A, reader: &mut Reader<'_, A>) -> Result<(), ReadError> {
        pass_fields::<Self, Fields, A>(alloc, reader)
    }
}

impl<A: Allocator + Copy> FromDer<A> for BasicConstraints {
    ghost stands_alone = { (tt, tt) };
}
