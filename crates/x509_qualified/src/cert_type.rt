//! What certificates are for, as Netscape named it.

ghost use Rattle.std.specs.Prelude.{◌≡◌, false, refl, slice_index_or};
ghost use Rattle.x509_der.specs.BitString.{bit_content, bit_strings};
ghost use Rattle.x509_qualified.specs.NetscapeCertType.{bit_of};

use std::alloc::{Allocator, Global};
use std::marker::Model;
use x509_der::parts::{Content, FromContent, Output, OwnTag, Reader, ToContent, Universal};
use x509_der::{BitStringAsn1, CloneEq, ReadError, SameEq, TooLong};

/// What a certificate is for (Netscape Certificate Extensions).
#[derive(Clone, Copy, Debug, Drop, PartialEq, Eq)]
pub enum CertUse {
    /// Clients in TLS.
    SslClient,
    /// Servers in TLS.
    SslServer,
    /// Mail.
    Smime,
    /// Signatures over code.
    ObjectSigning,
    /// An authority for certificates of clients and servers.
    SslCa,
    /// An authority for those of mail.
    SmimeCa,
    /// An authority for those that sign code.
    ObjectSigningCa,
}

impl CertUse {
    /// The number of the use's bit.
    fn bit(self) -> usize
        ensures { result ≡ bit_of self }
    {
        match self {
            CertUse::SslClient => 0,
            CertUse::SslServer => 1,
            CertUse::Smime => 2,
            CertUse::ObjectSigning => 3,
            CertUse::SslCa => 5,
            CertUse::SmimeCa => 6,
            CertUse::ObjectSigningCa => 7,
        }
    }
}

/// What a certificate is for, before there were key usages: a list of bits, of which seven have names. Contracts see the
/// list. Bits past its end count as unset, and its length is kept.
///
/// # Encoding
/// `netscape-cert-type`, 2.16.840.1.113730.1.1: a BIT STRING with ssl-client (0), ssl-server (1), smime (2), object-signing
/// (3), ssl-CA (5), smime-CA (6) and object-signing-CA (7). Any number of bits is read, and trailing bits that are unset are
/// written (X.690, 11.2.2, would take them away).
#[derive(Drop)]
#[derive_where(Debug, PartialEq, Eq)]
#[derive_where(Clone; A: Copy)]
pub struct NetscapeCertType<A: Allocator = Global>(pub BitStringAsn1<A>);

impl<A: Allocator> Model for NetscapeCertType<A> {
    ghost use Rattle.std.specs.Prelude.{List, Bool};

    ghost Value = { List Bool };

    ghost view = { λ s. s.0 };

    ghost inverse = { λ bits. record { 0 = bits } };
}

impl<A: Allocator> NetscapeCertType<A> {
    /// Whether it is for a use; false where its bit is past the end.
    pub fn has(&self, purpose: CertUse) -> bool
        ensures { result ≡ slice_index_or self.now (bit_of purpose) false }
    {
        self.0.0.is_set(purpose.bit())
    }
}

impl<A: Allocator + Copy> CloneEq for NetscapeCertType<A> {
    ghost use Rattle.std.proofs.Common.{rules};

    ghost exact = { Prim.search (rules) };
}

impl<A: Allocator> SameEq for NetscapeCertType<A> {
    fn decides() {
        BitStringAsn1::<A>::decides();
    }
}

impl<A: Allocator> ToContent for NetscapeCertType<A> {
    ghost content = { bit_content };

    fn put_content<O: Output>(&self, out: &mut [u8], at: usize) -> Result<usize, TooLong> {
        self.0.put_content::<O>(out, at)
    }
}

impl<A: Allocator + Copy> Content<A> for NetscapeCertType<A> {
    type ContentBrief = ();

    ghost content_shape = { bit_strings };

    ghost content_brief = { λ v. tt };

    ghost content_lawful = { λ h. ⟦<BitStringAsn1<A> as Content<A>>⟧.content_lawful tt };

    fn known_content(&self) {}

    fn read_content(alloc: A, reader: &mut Reader<'_, A>) -> Result<Self, ReadError> {
        Ok(NetscapeCertType(BitStringAsn1::read_content(alloc, reader)?))
    }

    fn pass_content(alloc: A, reader: &mut Reader<'_, A>) -> Result<(), ReadError> {
        BitStringAsn1::<A>::pass_content(alloc, reader)
    }

    ghost content_agrees = { λ v. refl };
}

impl<A: Allocator + Copy> FromContent<A> for NetscapeCertType<A> {
    ghost content_always = { tt };
}

impl<A: Allocator> OwnTag for NetscapeCertType<A> {
    type Tag = Universal<3>;
}
