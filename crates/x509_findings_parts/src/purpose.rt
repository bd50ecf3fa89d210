//! Purposes of keys.

ghost use Rattle.std.specs.Prelude.{◌≡◌};
ghost use Rattle.std.specs.List.{list_any};
ghost use Rattle.x509_der.specs.ObjectIdentifier.{is_arcs};
ghost use Rattle.picky_asn1_x509_parts.specs.Extensions.{any_usage_arcs};
ghost use Rattle.x509_findings_parts.specs.Extensions.{has_any_purpose};

use picky_asn1_x509_parts::{Extension, ExtensionView};
use std::alloc::Allocator;
use x509_der::ObjectIdentifierAsn1;

/// Whether a purpose is any purpose. Contents are compared: `0x55, 0x1D` encodes 2.5.29.
#[tactic(auto, unfolding(x509_der::specs::ObjectIdentifier::numbers_from))]
fn is_any<A: Allocator>(purpose: &ObjectIdentifierAsn1<A>) -> bool
    ensures { result ≡ is_arcs purpose.now any_usage_arcs }
{
    purpose.0.is_content(&[0x55, 0x1D, 37, 0])
}

/// Whether one of some purposes is any purpose.
fn some_are_any<A: Allocator>(purposes: &[ObjectIdentifierAsn1<A>]) -> bool
    ensures { result ≡ list_any (λ purpose. is_arcs purpose any_usage_arcs) purposes.now }
{
    for purpose in purposes {
        if is_any(purpose) {
            return true;
        }
    }
    false
}

/// Whether an extension allows any purpose of the key.
pub(crate) fn has_any_purpose<A: Allocator>(extension: &Extension<A>) -> bool
    ensures { result ≡ has_any_purpose extension.now.extn_value }
{
    match extension.extn_value() {
        ExtensionView::ExtendedKeyUsage(usage) => some_are_any(usage.iter().as_slice()),
        _ => false,
    }
}
