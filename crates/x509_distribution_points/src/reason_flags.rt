//! Why certificates are revoked.

ghost use Rattle.std.specs.Prelude.{◌≡◌, false, refl, slice_index_or};
ghost use Rattle.x509_der.specs.BitString.{bit_content, bit_strings};
ghost use Rattle.x509_distribution_points.specs.ReasonFlags.{bit_of};

use std::alloc::{Allocator, Global};
use std::marker::Model;
use x509_der::parts::{Content, FromContent, Output, OwnTag, Reader, ToContent, Universal};
use x509_der::{BitStringAsn1, CloneEq, ReadError, SameEq, TooLong};

/// Why a certificate is revoked (RFC 5280, 4.2.1.13).
#[derive(Clone, Copy, Debug, Drop, PartialEq, Eq)]
pub enum Reason {
    /// Its private key is known to others, or may be.
    KeyCompromise,
    /// That of an authority is.
    CaCompromise,
    /// The subject's name or other information has changed.
    AffiliationChanged,
    /// Another certificate took its place.
    Superseded,
    /// It isn't needed any more.
    CessationOfOperation,
    /// It is suspended.
    CertificateHold,
    /// A privilege that it states was withdrawn.
    PrivilegeWithdrawn,
    /// The private key of an attribute authority is known to others, or may be.
    AaCompromise,
}

impl Reason {
    /// The number of the reason's bit.
    fn bit(self) -> usize
        ensures { result ≡ bit_of self }
    {
        match self {
            Reason::KeyCompromise => 1,
            Reason::CaCompromise => 2,
            Reason::AffiliationChanged => 3,
            Reason::Superseded => 4,
            Reason::CessationOfOperation => 5,
            Reason::CertificateHold => 6,
            Reason::PrivilegeWithdrawn => 7,
            Reason::AaCompromise => 8,
        }
    }
}

/// A set of reasons for which certificates are revoked: a list of bits, of which eight have names. Contracts see the
/// list. Bits past its end count as unset, and its length is kept, also where its last bits are unset.
///
/// # Encoding
/// `ReasonFlags ::= BIT STRING { unused (0), keyCompromise (1), cACompromise (2), affiliationChanged (3), superseded (4),
/// cessationOfOperation (5), certificateHold (6), privilegeWithdrawn (7), aACompromise (8) }` (RFC 5280, 4.2.1.13). Any
/// number of bits is read, and trailing bits that are unset are written (X.690, 11.2.2, would take them away).
#[derive(Drop)]
#[derive_where(Debug, PartialEq, Eq)]
#[derive_where(Clone; A: Copy)]
pub struct ReasonFlags<A: Allocator = Global>(pub BitStringAsn1<A>);

impl<A: Allocator> Model for ReasonFlags<A> {
    ghost use Rattle.std.specs.Prelude.{List, Bool};

    ghost Value = { List Bool };

    ghost view = { λ s. s.0 };

    ghost inverse = { λ bits. record { 0 = bits } };
}

impl<A: Allocator> ReasonFlags<A> {
    /// Whether the reason is in the set; false where its bit is past the end.
    pub fn has(&self, reason: Reason) -> bool
        ensures { result ≡ slice_index_or self.now (bit_of reason) false }
    {
        self.0.0.is_set(reason.bit())
    }
}

impl<A: Allocator + Copy> CloneEq for ReasonFlags<A> {
    ghost use Rattle.std.proofs.Common.{rules};

    ghost exact = { Prim.search (rules) };
}

impl<A: Allocator> SameEq for ReasonFlags<A> {
    fn decides() {
        BitStringAsn1::<A>::decides();
    }
}

impl<A: Allocator> ToContent for ReasonFlags<A> {
    ghost content = { bit_content };

    fn put_content<O: Output>(&self, out: &mut [u8], at: usize) -> Result<usize, TooLong> {
        self.0.put_content::<O>(out, at)
    }
}

impl<A: Allocator + Copy> Content<A> for ReasonFlags<A> {
    type ContentBrief = ();

    ghost content_shape = { bit_strings };

    ghost content_brief = { λ v. tt };

    ghost content_lawful = { λ h. ⟦<BitStringAsn1<A> as Content<A>>⟧.content_lawful tt };

    fn known_content(&self) {}

    fn read_content(alloc: A, reader: &mut Reader<'_, A>) -> Result<Self, ReadError> {
        Ok(ReasonFlags(BitStringAsn1::read_content(alloc, reader)?))
    }

    fn pass_content(alloc: A, reader: &mut Reader<'_, A>) -> Result<(), ReadError> {
        BitStringAsn1::<A>::pass_content(alloc, reader)
    }

    ghost content_agrees = { λ v. refl };
}

impl<A: Allocator + Copy> FromContent<A> for ReasonFlags<A> {
    ghost content_always = { tt };
}

impl<A: Allocator> OwnTag for ReasonFlags<A> {
    type Tag = Universal<3>;
}
