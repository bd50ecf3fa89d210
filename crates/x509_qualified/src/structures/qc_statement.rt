//! QcStatement, written by `tools/structures.py` from `declarations.asn1`.

ghost use Rattle.std.specs.Prelude.{◌≡◌, refl};
ghost use Rattle.x509_der.specs.laws.Structure.{structure_lawful};
ghost use Rattle.x509_qualified.specs.QcStatement.{qc_statement_parts, qc_statement_inner, qc_statement_content};
ghost use Rattle.x509_qualified.specs.facts.structures.QcStatement.{qc_statement_of, qc_statement_same};

use std::alloc::{Allocator, Global};
use x509_der::parts::{
    Content, Field, FromContent, Join, One, Optional, Output, OwnTag, Reader, Ref, Sequence,
    Structure, ToContent, known_there, pass_as_content, read_as_content,
};
use x509_der::{Asn1RawDer, CloneEq, ObjectIdentifierAsn1, ReadError, SameEq, TooLong};

/// Something that is stated of a certificate, by an object identifier (RFC 3739, 3.2.6). What is said behind the
/// identifier isn't looked into.
///
/// # Encoding
/// `QCStatement ::= SEQUENCE { statementId OBJECT IDENTIFIER, statementInfo ANY OPTIONAL }`.
#[derive(Drop)]
#[derive_where(Debug, PartialEq, Eq)]
#[derive_where(Clone; A: Copy)]
pub struct QcStatement<A: Allocator = Global> {
    /// What is stated.
    pub statement_id: ObjectIdentifierAsn1<A>,
    /// What more is said of it, any one element.
    pub statement_info: Option<Asn1RawDer<A>>,
}

impl<A: Allocator + Copy> CloneEq for QcStatement<A> {
    ghost use Rattle.std.proofs.Common.{rules};

    ghost exact = { Prim.search (rules) };
}

impl<A: Allocator> SameEq for QcStatement<A> {
    fn decides() {
        ObjectIdentifierAsn1::<A>::decides();
        Option::<Asn1RawDer<A>>::decides();
    }
}

/// The fields in the SEQUENCE, owned or borrowed.
type Nest<B, C> = Join<B, One<Optional<C>>>;

/// The fields, owned.
type Inner<A> = Nest<ObjectIdentifierAsn1<A>, Asn1RawDer<A>>;

/// The fields, borrowed.
type Written<'a, A> = Nest<Ref<'a, ObjectIdentifierAsn1<A>>, Ref<'a, Asn1RawDer<A>>>;

/// The fields of a value, to be written.
fn written<A: Allocator>(value: &QcStatement<A>) -> Written<'_, A>
    ensures { result ≡ qc_statement_parts value.now }
{
    Join(
        Ref(&value.statement_id),
        One(Optional::borrowed(&value.statement_info)),
    )
}

impl<A: Allocator> ToContent for QcStatement<A> {
    ghost content = { λ v. qc_statement_inner.strict (qc_statement_parts v) };

    fn put_content<O: Output>(&self, out: &mut [u8], at: usize) -> Result<usize, TooLong> {
        written(self).put_content::<O>(out, at)
    }
}

impl<A: Allocator> Structure<Inner<A>> for QcStatement<A> {
    ghost fields = { qc_statement_parts };

    fn from_fields(parts: Inner<A>) -> Self {
        let Join(statement_id, One(statement_info)) = parts;
        QcStatement {
            statement_id,
            statement_info: statement_info.0,
        }
    }

    ghost same = { qc_statement_same };

    ghost made = { λ f. (qc_statement_of f, refl) };
}

impl<A: Allocator + Copy> Content<A> for QcStatement<A> {
    type ContentBrief = ();

    ghost content_shape = { qc_statement_content };

    ghost content_brief = { λ v. tt };

    ghost content_lawful = { λ h. structure_lawful qc_statement_parts qc_statement_inner qc_statement_same
        (⟦<Inner<A> as Content<A>>⟧.content_lawful (tt, (tt, tt), λ c h. refl)) };

    fn known_content(&self) {
        Field::<A>::known(&self.statement_id);
        known_there::<Asn1RawDer<A>, A>(&self.statement_info);
    }

    fn read_content(alloc: A, reader: &mut Reader<'_, A>) -> Result<Self, ReadError> {
        read_as_content::<Self, Inner<A>, A>(alloc, reader)
    }

    fn pass_content(alloc: A, reader: &mut Reader<'_, A>) -> Result<(), ReadError> {
        pass_as_content::<Self, Inner<A>, A>(alloc, reader)
    }

    ghost content_agrees = { λ v. refl };
}

impl<A: Allocator + Copy> FromContent<A> for QcStatement<A> {
    ghost content_always = { tt };
}

impl<A: Allocator> OwnTag for QcStatement<A> {
    type Tag = Sequence;
}
