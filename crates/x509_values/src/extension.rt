//! The extension with an identifier.

ghost use Rattle.std.specs.Prelude.{◌≡◌, ◌↔◌, ◌+◌, IsTrue, List, ℕ};
ghost use Rattle.x509_der.specs.Element.{element, header};
ghost use Rattle.x509_der.specs.Fields.{Stands};
ghost use Rattle.x509_der.specs.Tally.{Tally};
ghost use Rattle.picky_asn1_x509.specs.Extensions.{ExtensionFields, extension as extensions};
ghost use Rattle.x509_values.specs.Extensions.{FindsIn, ToldIf};

use crate::elements::Elements;
use picky_asn1_x509::{Extension, Extensions, laws};
use std::alloc::Allocator;
use x509_der::parts::BOOLEAN_TAG;
use x509_fields::Span;

/// Whether two slices hold the same bytes.
fn is_same(left: &[u8], right: &[u8]) -> bool
    ensures { IsTrue result ↔ (left.now ≡ right.now) }
{
    left == right
}

/// Where the content of the value stands of an extension whose fields are given, where it has the identifier.
fn value_if<A: Allocator + Copy>(fields: Elements<'_>, identifier: &[u8]) -> Option<Span>
    ensures { (v : ExtensionFields A) (n t : ℕ) (slice string : List ℕ) (whole : Tally) → Stands extensions v n slice string whole →
        slice ≡ element t fields.entry.rest → fields.entry.at ≡ n + header fields.entry.rest →
        ToldIf identifier.now string whole v n slice result }
{
    laws::extension_fields::<A>();
    let mut fields = fields;
    let own = fields.take();
    if is_same(own.inside.bytes(), identifier) {
        let next = fields.take();
        if next.tag != BOOLEAN_TAG {
            return Some(next.inside.span());
        }
        let value = fields.take();
        return Some(value.inside.span());
    }
    None
}

/// Where the content of the OCTET STRING stands that holds the value of the first extension with an identifier, in the
/// list of extensions that a span of an input encodes, whatever list it is. The identifier is given by the content of its
/// OBJECT IDENTIFIER: `55 1D 11` is that of `subjectAltName`. Takes no memory. Of a span that encodes no such list it says
/// nothing.
///
/// It is `None` exactly where no extension has the identifier.
pub fn find_extension_within<A: Allocator + Copy>(
    bytes: &[u8],
    span: Span,
    identifier: &[u8],
) -> Option<Span>
    ensures { FindsIn A bytes.now span identifier.now result }
{
    laws::spellings_are_lawful::<Extensions<A>, A>();
    laws::spellings_are_lawful::<Extension<A>, A>();
    let mut list = Elements::over(bytes, span);
    let mut items = list.take().inside;
    'items: while let Some(extension) = items.next() {
        if let Some(value) = value_if::<A>(extension.inside, identifier) {
            return Some(value);
        }
    }
    None
}
