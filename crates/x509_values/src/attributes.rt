//! The attributes of a name.

ghost use Rattle.std.specs.Prelude.{◌≡◌, ◌+◌, ◌<◌, ◌≤◌, ◌^◌, List, ℕ, length};
ghost use Rattle.x509_der.specs.Element.{element, header};
ghost use Rattle.x509_der.specs.Fields.{Stands};
ghost use Rattle.x509_der.specs.Tally.{Tally};
ghost use Rattle.x509_names.specs.Attributes.{attribute as attributes};
ghost use Rattle.x509_names.specs.declared.attribute_type_and_value.AttributeTypeAndValue.{AttributeTypeAndValue as Attribute};
ghost use Rattle.x509_values.specs.Names.{AttributeTold, NameWithin, PutsSet};

use crate::elements::Elements;
use crate::put::put;
use std::alloc::Allocator;
use x509_fields::Span;
use x509_names::{DirectoryString, Name, laws};

/// Where an attribute of a name stands in an input (RFC 5280, 4.1.2.4).
#[repr(C)]
#[derive(Clone, Copy, Debug, PartialEq, Eq)]
pub struct AttributePlace {
    /// The number of its RelativeDistinguishedName, from 0 on: attributes of one set have the same.
    pub set: usize,
    /// The content of `type OBJECT IDENTIFIER`.
    pub identifier: Span,
    /// The tag of `value`.
    pub tag: u8,
    /// The content of `value`.
    pub value: Span,
}

/// Where an attribute stands, whose fields are given.
fn placed<A: Allocator + Copy>(set: usize, fields: Elements<'_>) -> AttributePlace
    ensures { (v : Attribute A) (n t : ℕ) (slice string : List ℕ) (whole : Tally) → Stands attributes v n slice string whole →
        slice ≡ element t fields.entry.rest → fields.entry.at ≡ n + header fields.entry.rest →
        AttributeTold set string whole v n slice result }
{
    x509_der::laws::spellings_are_lawful::<DirectoryString<A>, A>();
    let mut fields = fields;
    let identifier = fields.take();
    let value = fields.take();
    AttributePlace {
        set,
        identifier: identifier.inside.span(),
        tag: value.tag,
        value: value.inside.span(),
    }
}

/// Writes where the attributes of a set stand, behind as many as were told before, as far as there is room, and answers
/// how many were told by then.
fn put_set<A: Allocator + Copy>(
    number: usize,
    set: Elements<'_>,
    count: usize,
    out: &mut [AttributePlace],
) -> usize
    requires { count + length set.rest < 2 ^ 64 }
    ensures told { PutsSet A number set.entry count out.old out.new result }
    ensures bound { result ≤ count + length set.entry.rest }
{
    let mut attributes = set;
    let mut told = count;
    'attributes: while let Some(attribute) = attributes.next() {
        put(placed::<A>(number, attribute.inside), told, out);
        told += 1;
    }
    told
}

/// Writes where the attributes of the name stand that a span of an input encodes, whatever name it is, in order, as far as
/// the slice has room, and answers how many there are. Takes no memory. Of a span that encodes no name it says nothing.
pub fn attributes_within<A: Allocator + Copy>(
    bytes: &[u8],
    span: Span,
    out: &mut [AttributePlace],
) -> usize
    ensures { NameWithin A bytes.now span out.old out.new result }
{
    x509_der::laws::spellings_are_lawful::<Name<A>, A>();
    let mut name = Elements::over(bytes, span);
    let mut sets = name.take().inside;
    let mut told: usize = 0;
    let mut number: usize = 0;
    'sets: while let Some(set) = sets.next() {
        told = put_set::<A>(number, set.inside, told, out);
        number += 1;
    }
    told
}
