//! Revoked certificates, of whose extensions the frame alone is read.

ghost use Rattle.std.specs.Prelude.{◌≡◌, refl};
ghost use Rattle.x509_der.specs.Integer.{magnitude};
ghost use Rattle.x509_der.specs.Items.{no_items};
ghost use Rattle.x509_der.specs.Optional.{brief_if};
ghost use Rattle.x509_der.specs.laws.Meaning.{sequence_keeps, seen_lawful, seen_element};
ghost use Rattle.x509_outline.specs.Versions.{written_list};
ghost use Rattle.x509_list_outlines.specs.Revoked.{revoked_inner, revoked_base, revoked_meaning, revoked};
ghost use Rattle.x509_list_outlines.specs.facts.Revoked.{revoked_is, revoked_one};

use crate::extension_lists::{
    extensions_of, gone_empty, is_empty, known_extensions, spelled_empty,
};
use std::alloc::{Allocator, Global};
use x509_der::parts::{
    Content, Field, Join, Judge, One, Optional, Output, Reader, Ref, SEQUENCE_TAG, Sequence,
    Tagged, View, WholeDeviations,
};
use x509_der::{CloneEq, FromDer, IntegerAsn1, Magnitude, ReadError, SameEq, ToDer, TooLong};
use x509_names::Time;
use x509_outline::sequences::{pass_three_meanings, put_three, read_three_meanings};
use x509_outline_parts::ExtensionsOutline;

/// A certificate that is revoked: its serial number, since when, and extensions of any kind.
///
/// # Encoding
/// `SEQUENCE { userCertificate CertificateSerialNumber, revocationDate Time, crlEntryExtensions Extensions OPTIONAL }` (RFC
/// 5280, 5.1). An encoded list of no extensions is read with the deviation `EmptyExtensionsSpelled` over the whole, and
/// isn't written. The serial number may be any number.
#[derive(Drop)]
#[derive_where(Debug, PartialEq, Eq)]
#[derive_where(Clone; A: Copy)]
pub struct RevokedCertificateOutline<A: Allocator = Global> {
    /// The serial number of the certificate.
    pub user_certificate: IntegerAsn1<A>,
    /// Since when it is revoked.
    pub revocation_date: Time,
    /// The extensions (RFC 5280, 5.3); none are an empty list.
    pub crl_entry_extensions: ExtensionsOutline<A>,
}

impl<A: Allocator + Copy> CloneEq for RevokedCertificateOutline<A> {
    ghost use Rattle.std.proofs.Common.{rules};

    ghost exact = { Prim.search (rules) };
}

impl<A: Allocator> SameEq for RevokedCertificateOutline<A> {
    fn decides() {
        IntegerAsn1::<A>::decides();
        Time::decides();
        ExtensionsOutline::<A>::decides();
    }
}

/// The extensions, where they are encoded.
type SpelledExtensions<A> = One<Optional<ExtensionsOutline<A>>>;

/// The fields in the SEQUENCE, owned.
type Inner<A> = Join<IntegerAsn1<A>, Join<Time, SpelledExtensions<A>>>;

/// The fields, owned.
type Fields<A> = Tagged<Sequence, Inner<A>>;

/// Extensions, to be written: none where the list is empty.
fn borrowed_extensions<A: Allocator>(
    extensions: &ExtensionsOutline<A>,
) -> Optional<Ref<'_, ExtensionsOutline<A>>>
    ensures { result ≡ written_list extensions.now }
{
    if is_empty(extensions) {
        Optional(None)
    } else {
        Optional(Some(Ref(extensions)))
    }
}

impl<A: Allocator> ToDer for RevokedCertificateOutline<A> {
    ghost strict = { revoked.strict };

    fn put<O: Output>(&self, out: &mut [u8], at: usize) -> Result<usize, TooLong> {
        let extensions = borrowed_extensions(&self.crl_entry_extensions);
        put_three::<O, _, _, _>(
            &self.user_certificate,
            &self.revocation_date,
            &One(extensions),
            out,
            at,
        )
    }
}

impl<A: Allocator + Copy> View<Fields<A>, A> for RevokedCertificateOutline<A> {
    ghost base = { revoked_base };

    ghost view = { revoked_meaning };

    ghost keeps = { sequence_keeps revoked_meaning revoked_inner
        (⟦<Inner<A> as Content<A>>⟧.content_lawful (tt, (tt, (tt, tt), λ c h. refl), λ c h. refl)) revoked_is
        revoked_one };

    fn meaning(alloc: A, parts: Fields<A>) -> Result<(Self, WholeDeviations), ReadError> {
        let Join(user_certificate, Join(revocation_date, One(Optional(spelled)))) =
            parts.into_inner();
        let found = WholeDeviations::of(spelled_empty(&spelled));
        let crl_entry_extensions = extensions_of(alloc, spelled);
        Ok((
            RevokedCertificateOutline {
                user_certificate,
                revocation_date,
                crl_entry_extensions,
            },
            found,
        ))
    }
}

impl<A: Allocator + Copy> Judge<Fields<A>, A> for RevokedCertificateOutline<A> {
    type Glimpse = (Magnitude, ((), Option<bool>));

    type Kept = ();

    ghost glimpse = { λ f. (magnitude f.0, (tt, brief_if no_items f.1.1)) };

    ghost kept = { λ v. tt };

    fn judge(brief: (Magnitude, ((), Option<bool>))) -> Result<((), WholeDeviations), ReadError> {
        let (_serial_number, (_date, extensions)) = brief;
        Ok(((), WholeDeviations::of(gone_empty(extensions))))
    }
}

impl<A: Allocator + Copy> Field<A> for RevokedCertificateOutline<A> {
    type Brief = ();

    ghost shape = { revoked };

    ghost brief = { λ v. tt };

    ghost lawful = { λ h. seen_lawful revoked_meaning revoked_base ⟦<RevokedCertificateOutline<A> as View<Fields<A>, A>>⟧.keeps };

    ghost elements = { λ h. seen_element revoked_meaning revoked_base
        (⟦<Fields<A> as Field<A>>⟧.elements tt) revoked_is };

    ghost agrees = { λ v. refl };

    fn starts(byte: u8) -> bool {
        byte == SEQUENCE_TAG
    }

    fn known(&self) {
        self.user_certificate.known();
        Field::<A>::known(&self.revocation_date);
        known_extensions(&self.crl_entry_extensions);
    }

    fn read(alloc: A, reader: &mut Reader<'_, A>) -> Result<Self, ReadError> {
        read_three_meanings::<Self, IntegerAsn1<A>, Time, SpelledExtensions<A>, A>(alloc, reader)
    }

    fn pass(alloc: A, reader: &mut Reader<'_, A>) -> Result<(), ReadError> {
        pass_three_meanings::<Self, IntegerAsn1<A>, Time, SpelledExtensions<A>, A>(alloc, reader)
    }
}

impl<A: Allocator + Copy> FromDer<A> for RevokedCertificateOutline<A> {
    ghost stands_alone = { (tt, tt) };
}
