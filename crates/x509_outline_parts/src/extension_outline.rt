//! Extensions whose values are octets.

ghost use Rattle.std.specs.Prelude.{◌≡◌, refl};
ghost use Rattle.x509_der.specs.Optional.{brief_if};
ghost use Rattle.x509_der.specs.View.{if_found};
ghost use Rattle.x509_der.specs.laws.Meaning.{sequence_keeps, seen_lawful, seen_element};
ghost use Rattle.x509_outline_parts.specs.Extensions.{extension_inner, extension_base, critical_of, critical_kinds, extension_back, extension_meaning, extension};
ghost use Rattle.x509_outline_parts.specs.facts.Extensions.{octets_apart, extension_is, extension_one};

use std::alloc::{Allocator, Global};
use x509_der::parts::{
    Content, Field, Join, Judge, One, Optional, Output, Reader, Ref, SEQUENCE_TAG, Sequence,
    Tagged, View, WholeDeviations, pass_viewed, read_viewed,
};
use x509_der::{
    CloneEq, Deviation, FromDer, ObjectIdentifierAsn1, OctetStringAsn1, ReadError, SameEq, ToDer,
    TooLong,
};

/// An extension, known or not: its object identifier, whether it is critical, and the octets of its value, which aren't
/// looked into.
///
/// # Encoding
/// `Extension ::= SEQUENCE { extnID OBJECT IDENTIFIER, critical BOOLEAN DEFAULT FALSE, extnValue OCTET STRING }` (RFC
/// 5280, 4.1). An encoded FALSE is read with the deviation `CriticalFalseSpelled` over the whole, and isn't written.
#[derive(Drop)]
#[derive_where(Debug, PartialEq, Eq)]
#[derive_where(Clone; A: Copy)]
pub struct ExtensionOutline<A: Allocator = Global> {
    /// Which extension it is.
    pub extn_id: ObjectIdentifierAsn1<A>,
    /// Whether it is critical.
    pub critical: bool,
    /// The octets of the value.
    pub extn_value: OctetStringAsn1<A>,
}

impl<A: Allocator + Copy> CloneEq for ExtensionOutline<A> {
    ghost use Rattle.std.proofs.Common.{rules};

    ghost exact = { Prim.search (rules) };
}

impl<A: Allocator> SameEq for ExtensionOutline<A> {
    fn decides() {
        ObjectIdentifierAsn1::<A>::decides();
        bool::decides();
        OctetStringAsn1::<A>::decides();
    }
}

/// The fields in the SEQUENCE, owned or borrowed.
type Nest<I, C, O> = Join<I, Join<Optional<C>, One<O>>>;

/// The fields in the SEQUENCE, owned.
type Inner<A> = Nest<ObjectIdentifierAsn1<A>, bool, OctetStringAsn1<A>>;

/// The fields, owned.
type Fields<A> = Tagged<Sequence, Inner<A>>;

/// The fields that are written, borrowed.
type Written<'a, A> = Tagged<
    Sequence,
    Nest<Ref<'a, ObjectIdentifierAsn1<A>>, Ref<'a, bool>, Ref<'a, OctetStringAsn1<A>>>,
>;

/// The fields of an extension, to be written.
fn written<A: Allocator>(value: &ExtensionOutline<A>) -> Written<'_, A>
    ensures { result ≡ extension_back value.now }
{
    let critical = if value.critical {
        Optional(Some(Ref(&value.critical)))
    } else {
        Optional(None)
    };
    let behind = Join(critical, One(Ref(&value.extn_value)));
    Tagged::new(Join(Ref(&value.extn_id), behind))
}

/// Whether an extension is critical: not, where it isn't encoded.
fn critical_in(spelled: Option<bool>) -> bool
    ensures { result ≡ critical_of spelled }
{
    spelled.unwrap_or(false)
}

/// The deviation of a FALSE that is encoded.
fn spelled_false(spelled: Option<bool>) -> Option<Deviation>
    ensures { if_found result ≡ critical_kinds spelled }
{
    match spelled {
        Some(false) => Some(Deviation::CriticalFalseSpelled),
        Some(true) | None => None,
    }
}

impl<A: Allocator> ToDer for ExtensionOutline<A> {
    ghost strict = { λ v. extension_base.strict (extension_back v) };

    fn put<O: Output>(&self, out: &mut [u8], at: usize) -> Result<usize, TooLong> {
        written(self).put::<O>(out, at)
    }
}

impl<A: Allocator + Copy> View<Fields<A>, A> for ExtensionOutline<A> {
    ghost base = { extension_base };

    ghost view = { extension_meaning };

    ghost keeps = { sequence_keeps extension_meaning extension_inner
        (⟦<Inner<A> as Content<A>>⟧.content_lawful (tt, ((tt, tt), tt, octets_apart), λ c h. refl)) extension_is
        extension_one };

    fn meaning(_alloc: A, parts: Fields<A>) -> Result<(Self, WholeDeviations), ReadError> {
        let Join(extn_id, Join(Optional(spelled), One(extn_value))) = parts.into_inner();
        let found = WholeDeviations::of(spelled_false(spelled));
        let critical = critical_in(spelled);
        Ok((
            ExtensionOutline {
                extn_id,
                critical,
                extn_value,
            },
            found,
        ))
    }
}

impl<A: Allocator + Copy> Judge<Fields<A>, A> for ExtensionOutline<A> {
    type Glimpse = ((), (Option<bool>, ()));

    type Kept = ();

    ghost glimpse = { λ f. (tt, (brief_if (λ b. b) f.1.0, tt)) };

    ghost kept = { λ v. tt };

    fn judge(brief: ((), (Option<bool>, ()))) -> Result<((), WholeDeviations), ReadError> {
        let (_identifier, (critical, _octets)) = brief;
        Ok(((), WholeDeviations::of(spelled_false(critical))))
    }
}

impl<A: Allocator + Copy> Field<A> for ExtensionOutline<A> {
    type Brief = ();

    ghost shape = { extension };

    ghost brief = { λ v. tt };

    ghost lawful = { λ h. seen_lawful extension_meaning extension_base ⟦<ExtensionOutline<A> as View<Fields<A>, A>>⟧.keeps };

    ghost elements = { λ h. seen_element extension_meaning extension_base
        (⟦<Fields<A> as Field<A>>⟧.elements tt) extension_is };

    ghost agrees = { λ v. refl };

    fn starts(byte: u8) -> bool {
        byte == SEQUENCE_TAG
    }

    fn known(&self) {
        self.extn_id.known();
        self.extn_value.known();
    }

    fn read(alloc: A, reader: &mut Reader<'_, A>) -> Result<Self, ReadError> {
        read_viewed::<Self, Fields<A>, A>(alloc, reader)
    }

    fn pass(alloc: A, reader: &mut Reader<'_, A>) -> Result<(), ReadError> {
        pass_viewed::<Self, Fields<A>, A>(alloc, reader)
    }
}

impl<A: Allocator + Copy> FromDer<A> for ExtensionOutline<A> {
    ghost stands_alone = { (tt, tt) };
}
