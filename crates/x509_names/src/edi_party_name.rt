//! Names of parties to electronic data interchange.

ghost use Rattle.std.specs.Prelude.{◌≡◌, refl};
ghost use Rattle.x509_der.specs.laws.Structure.{structure_lawful};
ghost use Rattle.x509_names.specs.EdiPartyNames.{edi_parts, edi_inner, edi_content};
ghost use Rattle.x509_names.specs.facts.EdiPartyNames.{edi_of, edi_same, assigner_apart};

use std::alloc::{Allocator, Global};
use x509_der::parts::{
    Content, ContextConstructed, Field, FromContent, Join, One, Optional, Output, OwnTag, Reader,
    Ref, Sequence, Structure, Tagged, ToContent, known_there, pass_as_content, read_as_content,
};
use x509_der::{CloneEq, ReadError, SameEq, TooLong};
use x509_names_parts::DirectoryString;

/// A party to electronic data interchange, and who named it (RFC 5280, 4.2.1.6).
///
/// # Encoding
/// `EDIPartyName ::= SEQUENCE { nameAssigner [0] DirectoryString OPTIONAL, partyName [1] DirectoryString }`, where the
/// tags are explicit ones, since a `DirectoryString` is a choice.
#[derive(Drop)]
#[derive_where(Debug, PartialEq, Eq)]
#[derive_where(Clone; A: Copy)]
pub struct EdiPartyName<A: Allocator = Global> {
    /// Who named the party, where that is said.
    pub name_assigner: Option<DirectoryString<A>>,
    /// The party.
    pub party_name: DirectoryString<A>,
}

impl<A: Allocator + Copy> CloneEq for EdiPartyName<A> {
    ghost use Rattle.std.proofs.Common.{rules};

    ghost exact = { Prim.search (rules) };
}

impl<A: Allocator> SameEq for EdiPartyName<A> {
    fn decides() {
        Option::<DirectoryString<A>>::decides();
        DirectoryString::<A>::decides();
    }
}

/// The fields in the SEQUENCE, owned or borrowed.
type Nest<D> = Join<
    Optional<Tagged<ContextConstructed<0>, One<D>>>,
    One<Tagged<ContextConstructed<1>, One<D>>>,
>;

/// The fields, owned.
type Inner<A> = Nest<DirectoryString<A>>;

/// The fields, borrowed.
type Written<'a, A> = Nest<Ref<'a, DirectoryString<A>>>;

/// The fields of a name, to be written.
fn written<A: Allocator>(value: &EdiPartyName<A>) -> Written<'_, A>
    ensures { result ≡ edi_parts value.now }
{
    Join(
        Optional::borrowed_element(&value.name_assigner),
        One(Tagged::new(One(Ref(&value.party_name)))),
    )
}

impl<A: Allocator> ToContent for EdiPartyName<A> {
    ghost content = { λ v. edi_inner.strict (edi_parts v) };

    fn put_content<O: Output>(&self, out: &mut [u8], at: usize) -> Result<usize, TooLong> {
        written(self).put_content::<O>(out, at)
    }
}

impl<A: Allocator> Structure<Inner<A>> for EdiPartyName<A> {
    ghost fields = { edi_parts };

    fn from_fields(parts: Inner<A>) -> Self {
        let Join(name_assigner, One(party_name)) = parts;
        EdiPartyName {
            name_assigner: name_assigner.into_value(),
            party_name: party_name.into_value(),
        }
    }

    ghost same = { edi_same };

    ghost made = { λ f. (edi_of f, refl) };
}

impl<A: Allocator + Copy> Content<A> for EdiPartyName<A> {
    type ContentBrief = ();

    ghost content_shape = { edi_content };

    ghost content_brief = { λ v. tt };

    ghost content_lawful = { λ h. structure_lawful edi_parts edi_inner edi_same
        (⟦<Inner<A> as Content<A>>⟧.content_lawful ((tt, tt), tt, assigner_apart)) };

    fn known_content(&self) {
        known_there::<DirectoryString<A>, A>(&self.name_assigner);
        self.party_name.known();
    }

    fn read_content(alloc: A, reader: &mut Reader<'_, A>) -> Result<Self, ReadError> {
        read_as_content::<Self, Inner<A>, A>(alloc, reader)
    }

    fn pass_content(alloc: A, reader: &mut Reader<'_, A>) -> Result<(), ReadError> {
        pass_as_content::<Self, Inner<A>, A>(alloc, reader)
    }

    ghost content_agrees = { λ v. refl };
}

impl<A: Allocator + Copy> FromContent<A> for EdiPartyName<A> {
    ghost content_always = { tt };
}

impl<A: Allocator> OwnTag for EdiPartyName<A> {
    type Tag = Sequence;
}
