//! A content that is one field.

use crate::errors::{ReadError, TooLong};
use crate::output::Output;
use crate::reader::Reader;
use crate::traits::{Content, Field, ToContent, ToDer};
use std::alloc::Allocator;
use std::marker::Model;

/// A content that is one field: the last one of a SEQUENCE, or what an explicit tag stands around (X.690, 8.14). Contracts
/// see the field.
#[derive(Drop)]
pub struct One<F>(pub F);

impl<F> Model for One<F> {
    ghost Value = { F };

    ghost view = { λ v. v.0 };
}

impl<F: ToDer> ToContent for One<F> {
    ghost content = { λ v. F.strict v };

    fn put_content<O: Output>(&self, out: &mut [u8], at: usize) -> Result<usize, TooLong> {
        self.0.put::<O>(out, at)
    }
}

impl<A: Allocator + Copy, F: Field<A>> Content<A> for One<F> {
    type ContentBrief = F::Brief;

    ghost content_shape = { F.shape };

    ghost content_brief = { λ v. F.brief v };

    ghost content_fits = { F.fits };

    ghost content_lawful = { λ h. F.lawful h };

    ghost content_agrees = { λ v. F.agrees v };

    fn known_content(&self) {
        self.0.known();
    }

    fn read_content(alloc: A, reader: &mut Reader<'_, A>) -> Result<Self, ReadError> {
        let field = F::read(alloc, reader)?;
        Ok(One(field))
    }

    fn pass_content(alloc: A, reader: &mut Reader<'_, A>) -> Result<Self::ContentBrief, ReadError> {
        F::pass(alloc, reader)
    }
}
