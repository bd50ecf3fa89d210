//! The attributes of a request.

ghost use Rattle.x509_flat_values.specs.Requests.{AttributesFill, RequestAttributeTold};

use crate::lists::{Placing, items_within};
use crate::requests::front_of;
use picky_asn1_x509::Attribute;
use std::alloc::Allocator;
use x509_fields::{CertificationRequestFields, Span};
use x509_flat::status::{Sized, unsized_of};
use x509_values::elements::Element;

/// Where an attribute of a request stands in an input (RFC 2986, 4.1).
#[repr(C)]
#[derive(Clone, Copy, Debug, PartialEq, Eq)]
pub struct RequestAttributePlace {
    /// The content of `type OBJECT IDENTIFIER`.
    pub identifier: Span,
    /// The tag of `values`: that of a SET, 31, but of an attribute that isn't known perhaps another.
    pub tag: u8,
    /// The content of `values SET OF`: the values, one behind another.
    pub values: Span,
}

/// Attributes of a request, of which the type and the values are told.
struct Attributes;

impl<A: Allocator + Copy> Placing<Attribute<A>, A> for Attributes {
    type Place = RequestAttributePlace;

    ghost tells = { RequestAttributeTold };

    fn placed(item: Element<'_>) -> RequestAttributePlace {
        let mut fields = item.inside;
        let identifier = fields.take();
        let values = fields.take();
        RequestAttributePlace {
            identifier: identifier.inside.span(),
            tag: values.tag,
            values: values.inside.span(),
        }
    }
}

/// Writes where the attributes of a request stand (RFC 2986, 4.1), in order, as far as there is room, and tells how many there are.
/// Takes no memory.
pub fn request_attributes<A: Allocator + Copy>(
    alloc: A,
    bytes: &[u8],
    out: &mut [RequestAttributePlace],
) -> Sized
    ensures { AttributesFill A bytes.now out.old out.new result.status result.size }
{
    let room = out.len();
    match CertificationRequestFields::find(alloc, bytes) {
        Ok(places) => {
            let list = places.fields.attributes;
            let count = items_within::<Attributes, Attribute<A>, A>(bytes, list, out);
            front_of(count, room)
        }
        Err(error) => unsized_of(error),
    }
}
