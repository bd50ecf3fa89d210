//! The fields of an extension as they are read: the object identifier says the kind of the value.

ghost use Rattle.picky_asn1_x509_parts.specs.Extensions.{key_kept, inner, fields_bytes};

use crate::extension_value::{ExtensionKey, ExtensionValue, Key};
use std::alloc::Allocator;
use std::marker::Model;
use x509_der::parts::{Content, DefinedBy, Field, Output, Reader, ToContent};
use x509_der::{ReadError, ToDer, TooLong};

/// The fields in the SEQUENCE, owned.
type Inner<A> = DefinedBy<Key<A>, ExtensionValue<A>>;

/// The fields as they were read: the value is of the kind that the object identifier says.
#[derive(Drop)]
pub(crate) struct MatchingFields<A: Allocator>(pub(crate) Inner<A>);

impl<A: Allocator> Model for MatchingFields<A> {
    ghost use Rattle.picky_asn1_x509_parts.specs.Extensions.{Fields, AreFitting};

    ghost Value = { Fields A };

    ghost view = { λ f. f.0 };

    ghost invariant = { λ f. AreFitting f.0 };

    ghost inverse = { λ f. record { 0 = f } };
}

impl<A: Allocator> ToContent for MatchingFields<A> {
    ghost content = { fields_bytes };

    fn put_content<O: Output>(&self, out: &mut [u8], at: usize) -> Result<usize, TooLong> {
        self.0.put::<O>(out, at)
    }
}

impl<A: Allocator + Copy> Content<A> for MatchingFields<A> {
    ghost use Rattle.picky_asn1_x509_parts.specs.facts.ExtensionFacts.{key_apart, inner_agrees};

    type ContentBrief = (ExtensionKey, ());

    ghost content_shape = { inner };

    ghost content_brief = { λ f. (key_kept f.0, tt) };

    ghost content_lawful = { λ h. ⟦<Inner<A> as Field<A>>⟧.lawful (tt, key_apart) };

    ghost content_agrees = { inner_agrees };

    fn known_content(&self) {
        self.0.known();
    }

    fn read_content(alloc: A, reader: &mut Reader<'_, A>) -> Result<Self, ReadError> {
        let fields = Inner::<A>::read(alloc, reader)?;
        Ok(MatchingFields(fields))
    }

    fn pass_content(alloc: A, reader: &mut Reader<'_, A>) -> Result<(ExtensionKey, ()), ReadError> {
        Inner::<A>::pass(alloc, reader)
    }
}
