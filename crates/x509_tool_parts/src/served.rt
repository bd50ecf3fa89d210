//! The types that the program serves. A further type is a variant here, and a line of each function and of each sum in
//! `specs/Output.antt`.

ghost use Rattle.std.specs.Prelude.{◌≡◌, IfSome, IfNone};
ghost use Rattle.x509_tool_parts.specs.Output.{Answers, AnswersAs, served_name, listed_answer};

use crate::fault::ToolFault;
use crate::report::report;
use picky_asn1_x509::{
    AlgorithmIdentifier, Certificate, CertificationRequest, Extensions, FromDer, Name,
    PrivateKeyInfo, RawAlgorithmIdentifier, SubjectPublicKeyInfo, read_counted, to_vec,
};
use std::alloc::Allocator;

/// A type that the program serves.
#[derive(Drop, Clone, Copy)]
pub enum Served {
    /// `algorithm`.
    Algorithm,
    /// `certificate`.
    Certificate,
    /// `extensions`.
    Extensions,
    /// `name`.
    Name,
    /// `private-key`.
    PrivateKey,
    /// `public-key`.
    PublicKey,
    /// `raw-algorithm`.
    RawAlgorithm,
    /// `request`.
    Request,
}

impl Served {
    /// The type of a name, if it is served.
    pub fn from_name(type_name: &str) -> Option<Served>
        ensures some { IfSome result (λ s. type_name.now ≡ served_name s) }
        ensures none { IfNone result ((s : Served) → type_name.now ≡ served_name s → ⊥) }
    {
        match type_name {
            "algorithm" => Some(Served::Algorithm),
            "certificate" => Some(Served::Certificate),
            "extensions" => Some(Served::Extensions),
            "name" => Some(Served::Name),
            "private-key" => Some(Served::PrivateKey),
            "public-key" => Some(Served::PublicKey),
            "raw-algorithm" => Some(Served::RawAlgorithm),
            "request" => Some(Served::Request),
            _ => None,
        }
    }

    /// The answer to the bytes as a value of the type.
    ///
    /// # Errors
    /// As `answer`.
    pub fn answer<A: Allocator + Copy>(
        self,
        alloc: A,
        bytes: &[u8],
    ) -> Result<Vec<u8, A>, ToolFault>
        ensures { AnswersAs A self bytes.now (listed_answer (λ v. v.items) result) }
    {
        match self {
            Served::Algorithm => answer::<AlgorithmIdentifier<A>, A>(alloc, bytes),
            Served::Certificate => answer::<Certificate<A>, A>(alloc, bytes),
            Served::Extensions => answer::<Extensions<A>, A>(alloc, bytes),
            Served::Name => answer::<Name<A>, A>(alloc, bytes),
            Served::PrivateKey => answer::<PrivateKeyInfo<A>, A>(alloc, bytes),
            Served::PublicKey => answer::<SubjectPublicKeyInfo<A>, A>(alloc, bytes),
            Served::RawAlgorithm => answer::<RawAlgorithmIdentifier<A>, A>(alloc, bytes),
            Served::Request => answer::<CertificationRequest<A>, A>(alloc, bytes),
        }
    }
}

/// The answer to the bytes as a value of a type.
///
/// # Errors
/// `Refused`, exactly where the bytes encode no value of the type; `TooLong`, exactly where its DER
/// encoding is longer than a `usize` can say; `OutOfMemory` in place of any of these, where memory is refused.
fn answer<T: FromDer<A>, A: Allocator + Copy>(
    alloc: A,
    bytes: &[u8],
) -> Result<Vec<u8, A>, ToolFault>
    ensures { Answers T.shape bytes.now (listed_answer (λ v. v.items) result) }
{
    let (value, deviations) = read_counted::<T, A>(alloc, bytes)?;
    let strict = to_vec(alloc, &value)?;
    let text = report(alloc, &strict, deviations.counts())?;
    Ok(text)
}
