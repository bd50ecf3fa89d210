//! Where services of an authority or a subject are found.

ghost use Rattle.x509_flat_values.specs.Accesses.{AccessTold, AccessesFill};

use crate::lists::{Placing, list_told};
use std::alloc::Allocator;
use x509_der::laws::spellings_are_lawful;
use x509_fields::Span;
use x509_flat::status::Sized;
use x509_more_extensions::AccessDescription;
use x509_names::GeneralName;
use x509_values::GeneralNamePlace;
use x509_values::elements::Element;

/// Where an access description stands in an input (RFC 5280, 4.2.2.1).
#[repr(C)]
#[derive(Clone, Copy, Debug, PartialEq, Eq)]
pub struct AccessPlace {
    /// The content of `accessMethod OBJECT IDENTIFIER`.
    pub method: Span,
    /// `accessLocation GeneralName`.
    pub location: GeneralNamePlace,
}

/// Access descriptions, of which the method and the location are told.
struct Accesses;

impl<A: Allocator + Copy> Placing<AccessDescription<A>, A> for Accesses {
    type Place = AccessPlace;

    ghost tells = { AccessTold };

    fn placed(item: Element<'_>) -> AccessPlace {
        spellings_are_lawful::<GeneralName<A>, A>();
        let mut fields = item.inside;
        let method = fields.take();
        let location = fields.take();
        AccessPlace {
            method: method.inside.span(),
            location: GeneralNamePlace {
                tag: location.tag,
                content: location.inside.span(),
            },
        }
    }
}

/// Writes where the access descriptions stand that the octets of an extension's value encode (RFC 5280, 4.2.2), in order, as far
/// as there is room, and tells how many there are. Takes no memory.
pub fn access_descriptions<A: Allocator + Copy>(
    alloc: A,
    value: &[u8],
    out: &mut [AccessPlace],
) -> Sized
    ensures { AccessesFill A value.now out.old out.new result.status result.size }
{
    list_told::<Accesses, AccessDescription<A>, A>(alloc, value, out)
}
