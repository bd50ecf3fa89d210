//! The policies under which a certificate is issued.

ghost use Rattle.x509_flat_values.specs.Policies.{PoliciesFill, PolicyTold};

use crate::lists::{Placing, list_told};
use std::alloc::Allocator;
use x509_fields::Span;
use x509_flat::status::Sized;
use x509_policies::PolicyInformation;
use x509_values::elements::Element;

/// Policies, of which the content of the identifier is told (RFC 5280, 4.2.1.4).
struct Policies;

impl<A: Allocator + Copy> Placing<PolicyInformation<A>, A> for Policies {
    type Place = Span;

    ghost tells = { PolicyTold };

    fn placed(item: Element<'_>) -> Span {
        let mut fields = item.inside;
        fields.take().inside.span()
    }
}

/// Writes where the identifiers of the policies stand that the octets of an extension's value encode (RFC 5280, 4.2.1.4), in
/// order, as far as there is room, and tells how many there are. Takes no memory.
pub fn certificate_policies<A: Allocator + Copy>(alloc: A, value: &[u8], out: &mut [Span]) -> Sized
    ensures { PoliciesFill A value.now out.old out.new result.status result.size }
{
    list_told::<Policies, PolicyInformation<A>, A>(alloc, value, out)
}
