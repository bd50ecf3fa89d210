//! Lists of timestamps.

ghost use Rattle.std.specs.Prelude.{◌≡◌, ℕ, List, map, IfOk, IfErr};
ghost use Rattle.x509_timestamps.specs.Timestamps.{IsList, list_bytes};
ghost use Rattle.x509_timestamps.specs.declared.list.BadList.TheVariants.{Malformed, OutOfMemory};

use crate::vectors::{vector_at, whole_of};
use std::alloc::{AllocError, AllocFailed, Allocator};

/// Why a list isn't read.
#[derive(Clone, Copy, Debug, Drop, PartialEq, Eq)]
pub enum BadList {
    /// The bytes are no list.
    Malformed,
    /// A request for memory was refused.
    OutOfMemory,
}

impl From<AllocError> for BadList {
    ghost from_gives = { λ _ e. e ≡ OutOfMemory };

    fn from(_refused: AllocError) -> BadList {
        BadList::OutOfMemory
    }
}

impl<T: Drop> From<AllocFailed<T>> for BadList {
    ghost from_gives = { λ _ e. e ≡ OutOfMemory };

    fn from(_refused: AllocFailed<T>) -> BadList {
        BadList::OutOfMemory
    }
}

/// The timestamps of a list, as bytes, of which `read_timestamp` reads each that it knows: the content of the OCTET STRING
/// that is the extension's value. An empty list is read too, and empty items.
///
/// # Encoding
/// `opaque SerializedSCT<1..2^16-1>; struct { SerializedSCT sct_list <1..2^16-1>; } SignedCertificateTimestampList` (RFC
/// 6962, 3.3).
///
/// # Errors
/// `Malformed`, exactly where the bytes are no list; `OutOfMemory` where memory is refused.
pub fn timestamps<'a, A: Allocator>(alloc: A, bytes: &'a [u8]) -> Result<Vec<&'a [u8], A>, BadList>
    ensures ok { IfOk result (λ v. IsList (map (λ s. s.now) v.items) × (bytes.now ≡ list_bytes (map (λ s. s.now) v.items))) }
    ensures err { IfErr result (λ e. e ≡ Malformed → (items : List (List ℕ)) → IsList items → bytes.now ≡ list_bytes items → ⊥) }
{
    let Some(content) = whole_of(bytes) else {
        return Err(BadList::Malformed);
    };
    let mut items = Vec::new(alloc);
    let mut rest = content;
    'items: while !rest.is_empty() {
        let Some((item, behind)) = vector_at(rest) else {
            return Err(BadList::Malformed);
        };
        items.push(item)?;
        rest = behind;
    }
    Ok(items)
}
