//! Decodes what stands behind the full lines of a block.

ghost use Rattle.std.specs.Prelude.{◌≡◌, OnOk, OnErr};
ghost use Rattle.x509_pem.specs.Rest.{IsDecoded};

use base64::DecodeAllocError;
use base64::engine::general_purpose::STANDARD;
use std::alloc::Allocator;

/// Appends the bytes that a text stands for.
///
/// # Errors
/// The text is invalid base64, or memory is refused. The bytes are what they were then.
pub(crate) fn decode_rest<A: Allocator>(
    text: &[u8],
    bytes: &mut Vec<u8, A>,
) -> Result<(), DecodeAllocError>
    ensures ok { OnOk result (IsDecoded text.now bytes.old.items bytes.new.items) }
    ensures err { OnErr result (bytes.new.items ≡ bytes.old.items) }
{
    STANDARD.decode_vec(text, bytes)
}
