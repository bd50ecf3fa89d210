//! One timestamp.

ghost use Rattle.std.specs.Prelude.{◌≡◌, length, MatchOption};
ghost use Rattle.std.specs.Int.{w64, from_be_bytes};
ghost use Rattle.x509_timestamps.specs.Reading.{Gives, signed_at, body_at, timestamp_at};
ghost use Rattle.x509_timestamps.specs.Timestamps.{Entry, IsTimestamp, timestamp_bytes};
ghost use Rattle.x509_timestamps.specs.Views.{view};

use crate::vectors::vector_at;

/// A log's promise to have the certificate among its own (RFC 6962, 3.2).
///
/// # Encoding
/// `struct { Version sct_version; LogID id; uint64 timestamp; CtExtensions extensions; digitally-signed struct { .. } }
/// SignedCertificateTimestamp`, in version 1.
#[derive(Clone, Copy, Debug, Drop, PartialEq, Eq)]
pub struct Timestamp<'a> {
    /// Which log it is: the hash of its key, 32 bytes.
    pub log_id: &'a [u8],
    /// When it was issued: milliseconds since the beginning of 1970, without leap seconds.
    pub time: u64,
    /// Extensions of the log; none are known.
    pub extensions: &'a [u8],
    /// The number of the hash that is signed: 4 for SHA-256 (RFC 5246, 7.4.1.4.1).
    pub hash: u8,
    /// The number of the kind of signature: 1 for RSA, 3 for ECDSA.
    pub signature_kind: u8,
    /// The signature.
    pub signature: &'a [u8],
}

/// The end of a timestamp, behind its extensions: how it is signed, and the signature.
#[tactic(auto, unfolding(crate::specs::Reading::signed_at))]
fn signed<'a>(
    log_id: &'a [u8],
    time: u64,
    extensions: &'a [u8],
    bytes: &'a [u8],
) -> Option<Timestamp<'a>>
    ensures { Gives view result (signed_at log_id.now time extensions.now bytes.now) }
{
    match bytes {
        [hash, signature_kind, rest @ ..] => {
            let (signature, behind) = vector_at(rest)?;
            if !behind.is_empty() {
                return None;
            }
            Some(Timestamp {
                log_id,
                time,
                extensions,
                hash: *hash,
                signature_kind: *signature_kind,
                signature,
            })
        }
        _ => None,
    }
}

/// A number of eight bytes, the high one first.
fn number(bytes: &[u8]) -> u64
    requires { length bytes.now ≡ 8 }
    ensures { result ≡ from_be_bytes w64 bytes.now }
{
    u64::from_be_bytes([
        bytes[0], bytes[1], bytes[2], bytes[3], bytes[4], bytes[5], bytes[6], bytes[7],
    ])
}

/// A timestamp without its version.
#[tactic(auto, unfolding(crate::specs::Reading::body_at))]
fn body(bytes: &[u8]) -> Option<Timestamp<'_>>
    ensures { Gives view result (body_at bytes.now) }
{
    if bytes.len() < 40 {
        return None;
    }
    let (log_id, rest) = bytes.split_at(32);
    let (time, rest) = rest.split_at(8);
    let (extensions, rest) = vector_at(rest)?;
    signed(log_id, number(time), extensions, rest)
}

/// The timestamp of version 1 that the bytes are.
#[tactic(auto, unfolding(crate::specs::Reading::timestamp_at))]
fn exact(bytes: &[u8]) -> Option<Timestamp<'_>>
    ensures { Gives view result (timestamp_at bytes.now) }
{
    match bytes {
        [0, rest @ ..] => body(rest),
        _ => None,
    }
}

/// The timestamp that the bytes are, one item of a list. `None` exactly where they aren't one of version 1. Takes no
/// memory.
pub fn read_timestamp(bytes: &[u8]) -> Option<Timestamp<'_>>
    ensures { MatchOption result ((t : Entry) → IsTimestamp t → bytes.now ≡ timestamp_bytes t → ⊥)
        (λ t. IsTimestamp (view t) × (bytes.now ≡ timestamp_bytes (view t))) }
{
    exact(bytes)
}
