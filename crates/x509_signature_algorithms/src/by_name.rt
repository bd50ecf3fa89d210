//! The algorithm of signatures that a name stands for.

ghost use Rattle.std.specs.Prelude.{◌≡◌, IfOk, IfErr};
ghost use Rattle.x509_signature_algorithms.specs.SignatureAlgorithms.{IsNamed, WhyNotNamed, identifier};

use crate::parameters::parameters_of;
use std::alloc::Allocator;
use x509_der::parts::{Join, One, Optional, Ref, Sequence, Tagged};
use x509_der::{ObjectIdentifier, ObjectIdentifierAsn1, OidError, WriteError, to_vec};
use x509_oids_by_name::oid_by_name;

/// Why a text gives no algorithm of signatures.
#[derive(Clone, Copy, Debug, PartialEq, Eq)]
pub enum NotNamed {
    /// It is neither a name that is known nor the arcs of an object identifier with dots.
    Unknown,
    /// It names something else than an algorithm of signatures that is known, or one with parameters of its own.
    NoSignature,
    /// Memory was refused.
    OutOfMemory,
}

/// The identifier of an algorithm in DER.
///
/// # Errors
/// `OutOfMemory`.
fn written<A: Allocator + Copy>(
    alloc: A,
    algorithm: ObjectIdentifier<A>,
    parameters: Option<()>,
) -> Result<Vec<u8, A>, WriteError>
    ensures { IfOk result (λ b. b.items ≡ identifier algorithm parameters) }
{
    let algorithm = ObjectIdentifierAsn1(algorithm);
    let whole: Tagged<Sequence, _> = Tagged::new(Join(Ref(&algorithm), One(Optional(parameters))));
    to_vec(alloc, &whole)
}

/// The `AlgorithmIdentifier` in DER of the signature algorithm that a text names: by its name, as `ecdsa-with-SHA256`,
/// `sha256WithRSAEncryption` or `id-Ed25519`, or by its object identifier with dots. Its parameters are NULL for RSA (of
/// PKCS #1 v1.5), and absent for ECDSA, DSA, EdDSA and ML-DSA. Takes memory.
///
/// # Encoding
/// `AlgorithmIdentifier ::= SEQUENCE { algorithm OBJECT IDENTIFIER, parameters ANY DEFINED BY algorithm OPTIONAL }` (RFC
/// 5280, 4.1.1.2).
///
/// # Errors
/// As `NotNamed` says: `NoSignature` for id-RSASSA-PSS too, whose parameters the name doesn't say.
pub fn signature_algorithm_by_name<A: Allocator + Copy>(
    alloc: A,
    text: &str,
) -> Result<Vec<u8, A>, NotNamed>
    ensures ok { IfOk result (λ b. IsNamed text.now b.items) }
    ensures err { IfErr result (WhyNotNamed text.now) }
{
    let algorithm = match oid_by_name(alloc, text) {
        Ok(algorithm) => algorithm,
        Err(OidError::Bad) => return Err(NotNamed::Unknown),
        Err(OidError::OutOfMemory) => return Err(NotNamed::OutOfMemory),
    };
    let Some(parameters) = parameters_of(&algorithm) else {
        return Err(NotNamed::NoSignature);
    };
    match written(alloc, algorithm, parameters) {
        Ok(bytes) => Ok(bytes),
        Err(_) => Err(NotNamed::OutOfMemory),
    }
}
