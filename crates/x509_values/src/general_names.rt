//! The general names of a list, as of an alternative name.

ghost use Rattle.std.specs.Prelude.{◌≡◌, ◌+◌, List, ℕ};
ghost use Rattle.x509_der.specs.Element.{element, header};
ghost use Rattle.x509_der.specs.Fields.{Stands};
ghost use Rattle.x509_der.specs.Tally.{Tally};
ghost use Rattle.x509_names.specs.GeneralNames.{general_name};
ghost use Rattle.x509_names.specs.declared.general_name.GeneralName.{GeneralName as Named};
ghost use Rattle.x509_values.specs.GeneralNames.{GeneralNameTold, NamesWithin};

use crate::elements::{Element, Elements};
use crate::put::put;
use std::alloc::Allocator;
use x509_der::laws::spellings_are_lawful;
use x509_fields::Span;
use x509_names::{GeneralName, GeneralNames};

/// Where a general name stands in an input (RFC 5280, 4.2.1.6).
///
/// Its form is the number in the low five bits of the tag: 0 `otherName`, 1 `rfc822Name`, 2 `dNSName`, 4
/// `directoryName`, 5 `ediPartyName`, 6 `uniformResourceIdentifier`, 7 `iPAddress`, 8 `registeredID`. Under the tags A1,
/// A2, A6, A7 and A8, which are deviations, stands an element in place of its content, and under 84 the content of a name.
#[repr(C)]
#[derive(Clone, Copy, Debug, PartialEq, Eq)]
pub struct GeneralNamePlace {
    /// The tag.
    pub tag: u8,
    /// What stands under the tag.
    pub content: Span,
}

/// Where a general name stands that is the element.
fn placed<A: Allocator + Copy>(name: Element<'_>) -> GeneralNamePlace
    ensures { (v : Named A) (n : ℕ) (slice string : List ℕ) (whole : Tally) → Stands general_name v n slice string whole →
        slice ≡ element name.entry.tag name.entry.inside.rest → name.entry.inside.at ≡ n + header name.entry.inside.rest →
        GeneralNameTold string whole v n slice result }
{
    GeneralNamePlace {
        tag: name.tag,
        content: name.inside.span(),
    }
}

/// Writes where the general names of the list stand that a span of an input encodes, whatever list it is, in order, as far
/// as the slice has room, and answers how many there are. Takes no memory. Of a span that encodes no such list it says
/// nothing.
pub fn general_names_within<A: Allocator + Copy>(
    bytes: &[u8],
    span: Span,
    out: &mut [GeneralNamePlace],
) -> usize
    ensures { NamesWithin A bytes.now span out.old out.new result }
{
    spellings_are_lawful::<GeneralNames<A>, A>();
    spellings_are_lawful::<GeneralName<A>, A>();
    let mut list = Elements::over(bytes, span);
    let mut names = list.take().inside;
    let mut told: usize = 0;
    'names: while let Some(name) = names.next() {
        put(placed::<A>(name), told, out);
        told += 1;
    }
    told
}
