//! What a key may be used for.

ghost use Rattle.std.specs.Prelude.{◌≡◌, ◌<◌};
ghost use Rattle.x509_der.specs.BitString.{has_bit};
ghost use Rattle.x509_findings_parts.specs.Usages.{allows_nothing, are_unset, end_unset, ends_unset};

use picky_asn1_x509_parts::{Extension, ExtensionView, KeyUsage};
use std::alloc::Allocator;

/// Whether none of the nine bits that have names is set.
fn are_unset<A: Allocator>(usage: &KeyUsage<A>) -> bool
    ensures { result ≡ are_unset usage.now }
{
    !(usage.digital_signature()
        || usage.content_commitment()
        || usage.key_encipherment()
        || usage.data_encipherment()
        || usage.key_agreement()
        || usage.key_cert_sign()
        || usage.crl_sign()
        || usage.encipher_only()
        || usage.decipher_only())
}

/// Whether a byte has the bit that weighs 2 to the power of the place.
fn has_bit(byte: u8, place: u8) -> bool
    requires { place < 8 }
    ensures { result ≡ has_bit byte place }
{
    (byte >> place) % 2 == 1
}

/// Whether there is a last bit, and it isn't set.
fn end_unset<A: Allocator>(usage: &KeyUsage<A>) -> bool
    ensures { result ≡ end_unset usage.now }
{
    let bytes = usage.as_bytes();
    let size = bytes.len();
    if size == 0 {
        return false;
    }
    let unused = ((8 - usage.len() % 8) % 8) as u8;
    !has_bit(bytes[size - 1], unused)
}

/// Whether an extension says what the key may be used for, which is nothing.
pub(crate) fn allows_nothing<A: Allocator>(extension: &Extension<A>) -> bool
    ensures { result ≡ allows_nothing extension.now.extn_value }
{
    match extension.extn_value() {
        ExtensionView::KeyUsage(usage) => are_unset(usage),
        _ => false,
    }
}

/// Whether an extension says what the key may be used for, and its last bit isn't set.
pub(crate) fn ends_unset<A: Allocator>(extension: &Extension<A>) -> bool
    ensures { result ≡ ends_unset extension.now.extn_value }
{
    match extension.extn_value() {
        ExtensionView::KeyUsage(usage) => end_unset(usage),
        _ => false,
    }
}
