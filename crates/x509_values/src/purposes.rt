//! The purposes of an extended key usage.

ghost use Rattle.std.specs.Prelude.{◌≡◌, ◌+◌, List, ℕ};
ghost use Rattle.x509_der.specs.Element.{element, header};
ghost use Rattle.x509_der.specs.Fields.{Stands};
ghost use Rattle.x509_der.specs.Tally.{Tally};
ghost use Rattle.picky_asn1_x509.specs.ExtendedKeyUsage.{key_purpose};
ghost use Rattle.x509_values.specs.Purposes.{PurposeTold, PurposesWithin};

use crate::elements::{Element, Elements};
use crate::put::put;
use picky_asn1_x509::ExtendedKeyUsage;
use std::alloc::Allocator;
use x509_der::ObjectIdentifierAsn1;
use x509_der::laws::spellings_are_lawful;
use x509_fields::Span;

/// Where the content of an object identifier stands that is the element.
fn placed(identifier: Element<'_>) -> Span
    ensures { (v : List ℕ) (n : ℕ) (slice string : List ℕ) (whole : Tally) → Stands key_purpose v n slice string whole →
        slice ≡ element identifier.entry.tag identifier.entry.inside.rest →
        identifier.entry.inside.at ≡ n + header identifier.entry.inside.rest → PurposeTold string whole v n slice result }
{
    identifier.inside.span()
}

/// Writes where the contents of the object identifiers stand of the purposes that a span of an input encodes, whatever
/// purposes they are (RFC 5280, 4.2.1.12), in order, as far as the slice has room, and answers how many there are. Takes no
/// memory. Of a span that encodes no such list it says nothing.
pub fn purposes_within<A: Allocator + Copy>(bytes: &[u8], span: Span, out: &mut [Span]) -> usize
    ensures { PurposesWithin bytes.now span out.old out.new result }
{
    spellings_are_lawful::<ExtendedKeyUsage<A>, A>();
    spellings_are_lawful::<ObjectIdentifierAsn1<A>, A>();
    let mut list = Elements::over(bytes, span);
    let mut purposes = list.take().inside;
    let mut told: usize = 0;
    'purposes: while let Some(identifier) = purposes.next() {
        put(placed(identifier), told, out);
        told += 1;
    }
    told
}
