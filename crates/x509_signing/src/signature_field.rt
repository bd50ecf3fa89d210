//! The algorithm that a certificate's signed part names.

ghost use Rattle.std.specs.Prelude.{◌≡◌, ◌++◌, ℕ, List, IfNone, IfSome};
ghost use Rattle.x509_der.specs.Element.{element};
ghost use Rattle.x509_signing.specs.SignatureFields.{IsSignatureField, IsVersionField};

use crate::elements::split_tagged;
use x509_der::parts::{INTEGER_TAG, SEQUENCE_TAG};

/// The tag of a certificate's version, `[0]`.
const VERSION_TAG: u8 = 0xA0;

/// What stands behind the version, where there is one in front.
fn behind_version(fields: &[u8]) -> &[u8]
    ensures some { (version : List ℕ) × IsVersionField version × (fields.now ≡ version ++ result.now) }
    ensures one { (version serial rest : List ℕ) → IsVersionField version →
        fields.now ≡ version ++ (element 2 serial ++ rest) → result.now ≡ element 2 serial ++ rest }
{
    match split_tagged(VERSION_TAG, fields) {
        Some((_, _, rest)) => rest,
        None => fields,
    }
}

/// The algorithm that a `TBSCertificate` names: the bytes of its field `signature`, which must be those of the certificate's
/// `signatureAlgorithm` too (RFC 5280, 4.1.1.2). Only the elements up to it are looked at. Takes no memory.
///
/// It is `None` exactly where no such field stands there.
///
/// # Encoding
/// `TBSCertificate ::= SEQUENCE { version [0] EXPLICIT Version DEFAULT v1, serialNumber INTEGER, signature
/// AlgorithmIdentifier, .. }` (RFC 5280, 4.1), where `AlgorithmIdentifier` is a SEQUENCE.
pub fn signature_algorithm(part: &[u8]) -> Option<&[u8]>
    ensures some { IfSome result (λ s. IsSignatureField part.now s.now) }
    ensures none { IfNone result ((slice : List ℕ) → IsSignatureField part.now slice → ⊥) }
{
    let (_, fields, after) = split_tagged(SEQUENCE_TAG, part)?;
    if !after.is_empty() {
        return None;
    }
    let required = behind_version(fields);
    let (_, _, behind) = split_tagged(INTEGER_TAG, required)?;
    let (algorithm, _, _) = split_tagged(SEQUENCE_TAG, behind)?;
    Some(algorithm)
}
