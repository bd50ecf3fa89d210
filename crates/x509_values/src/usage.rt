//! The bits of a key usage.

ghost use Rattle.std.specs.Prelude.{◌≡◌, ◌<◌, Bool, false, List, slice_index_or};
ghost use Rattle.x509_der.specs.BitString.{IsBits, bits_of, has_bit};
ghost use Rattle.x509_values.specs.Usages.{UsageBit};

use crate::elements::Elements;
use x509_fields::Span;

/// Whether a byte has the bit that weighs 2 to the power of the place.
fn has_bit(byte: u8, place: u8) -> bool
    requires { place < 8 }
    ensures { result ≡ has_bit byte place }
{
    (byte >> place) % 2 == 1
}

/// The bit at a place of bytes, from the top bit of the first on; false past the end.
fn bit_at(bytes: &[u8], index: usize) -> bool
    ensures { result ≡ slice_index_or (bits_of bytes.now) index false }
{
    let at = index / 8;
    at < bytes.len() && has_bit(bytes[at], 7 - (index % 8) as u8)
}

/// The named bit at a place of a BIT STRING with this content (X.690, 8.6.2 and 11.2.2); false past the end.
fn named_bit(content: &[u8], index: usize) -> bool
    ensures { (v : List Bool) → IsBits v content.now → result ≡ slice_index_or v index false }
{
    match content {
        [_unused, bytes @ ..] => bit_at(bytes, index),
        [] => false,
    }
}

/// The bit at a place of the key usage that a span of an input encodes, whatever usage it is (RFC 5280, 4.2.1.3): 0 is
/// `digitalSignature`, 8 `decipherOnly`. False past the end. Takes no memory. Of a span that encodes no key usage it says
/// nothing.
pub fn usage_bit_within(bytes: &[u8], span: Span, index: usize) -> bool
    ensures { UsageBit bytes.now span index result }
{
    let mut usage = Elements::over(bytes, span);
    named_bit(usage.take().inside.bytes(), index)
}
