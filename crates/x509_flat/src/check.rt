//! Whether bytes encode a value.

ghost use Rattle.std.specs.Prelude.{◌≡◌, ◌+◌, ◌/◌, ◌≤◌, length};
ghost use Rattle.x509_flat.specs.Statuses.{IsStatusOf};
ghost use Rattle.x509_flat.specs.Checks.{Tells, TellsOf, no_verdict, verdict_of};

use crate::kind::Kind;
use crate::status::{Status, status_of};
use picky_asn1_x509::{
    AlgorithmIdentifier, Certificate, CertificationRequest, CertificationRequestInfo, ECPrivateKey,
    Extensions, FromDer, Name, PrivateKeyInfo, RawAlgorithmIdentifier, Refused, RsaPrivateKey,
    RsaPublicKey, SubjectPublicKeyInfo, TbsCertificate, check_metered,
};
use std::alloc::Allocator;
use x509_list_outlines::CertificateListOutline;
use x509_more_outlines::{PrivateKeyOutline, RequestOutline};
use x509_outline::{CertificateOutline, PublicKeyOutline};

/// What a check finds.
#[repr(C)]
#[derive(Clone, Copy, Debug, PartialEq, Eq)]
pub struct Verdict {
    /// How many deviations of each kind stand in the bytes, in the order of the kinds.
    pub counts: [usize; 10],
    /// How many headers were decoded, also where the bytes are refused.
    pub headers: usize,
    /// The number of the error, from 1 to 15; 0 where there is none.
    pub error: usize,
    /// The byte that the error stands at.
    pub at: usize,
}

impl Verdict {
    /// All zeros.
    pub fn none() -> Self
        ensures { result ≡ no_verdict }
    {
        Verdict {
            counts: [0; 10],
            headers: 0,
            error: 0,
            at: 0,
        }
    }
}

/// A verdict by its status.
#[derive(Clone, Copy, Debug, PartialEq, Eq)]
pub struct Checked {
    /// The status.
    pub status: Status,
    /// The verdict.
    pub verdict: Verdict,
}

/// The verdict on bytes that were refused.
fn refused_by(refused: Refused, headers: usize) -> Checked
    ensures status { IsStatusOf refused.error result.status }
    ensures verdict { result.verdict ≡ verdict_of (Err refused) headers }
{
    Checked {
        status: status_of(refused.error),
        verdict: Verdict {
            counts: [0; 10],
            headers,
            error: refused.error.number(),
            at: refused.at,
        },
    }
}

/// Whether the bytes encode a value of a type.
fn check_as<T: FromDer<A>, A: Allocator + Copy>(alloc: A, bytes: &[u8]) -> Checked
    ensures told { Tells T.shape bytes.now result.status result.verdict }
    ensures bound { result.verdict.headers ≤ length bytes.now / 2 + 1 }
{
    let (outcome, headers) = check_metered::<T, A>(alloc, bytes);
    match outcome {
        Ok(deviations) => Checked {
            status: Status::Done,
            verdict: Verdict {
                counts: deviations.array(),
                headers,
                error: 0,
                at: 0,
            },
        },
        Err(refused) => refused_by(refused, headers),
    }
}

/// Whether the bytes encode a value of a type, and how they deviate from its DER encoding; or why and where they are
/// refused. It builds no value and takes no memory.
pub fn check<A: Allocator + Copy>(alloc: A, kind: Kind, bytes: &[u8]) -> Checked
    ensures told { TellsOf A kind bytes.now result.status result.verdict }
    ensures bound { result.verdict.headers ≤ length bytes.now / 2 + 1 }
{
    match kind {
        Kind::Certificate => check_as::<Certificate<A>, A>(alloc, bytes),
        Kind::Request => check_as::<CertificationRequest<A>, A>(alloc, bytes),
        Kind::PrivateKey => check_as::<PrivateKeyInfo<A>, A>(alloc, bytes),
        Kind::PublicKey => check_as::<SubjectPublicKeyInfo<A>, A>(alloc, bytes),
        Kind::RsaPrivateKey => check_as::<RsaPrivateKey<A>, A>(alloc, bytes),
        Kind::RsaPublicKey => check_as::<RsaPublicKey<A>, A>(alloc, bytes),
        Kind::EcPrivateKey => check_as::<ECPrivateKey<A>, A>(alloc, bytes),
        Kind::Name => check_as::<Name<A>, A>(alloc, bytes),
        Kind::Extensions => check_as::<Extensions<A>, A>(alloc, bytes),
        Kind::Algorithm => check_as::<AlgorithmIdentifier<A>, A>(alloc, bytes),
        Kind::RawAlgorithm => check_as::<RawAlgorithmIdentifier<A>, A>(alloc, bytes),
        Kind::RequestInfo => check_as::<CertificationRequestInfo<A>, A>(alloc, bytes),
        Kind::TbsCertificate => check_as::<TbsCertificate<A>, A>(alloc, bytes),
        Kind::CertificateOutline => check_as::<CertificateOutline<A>, A>(alloc, bytes),
        Kind::RequestOutline => check_as::<RequestOutline<A>, A>(alloc, bytes),
        Kind::PrivateKeyOutline => check_as::<PrivateKeyOutline<A>, A>(alloc, bytes),
        Kind::PublicKeyOutline => check_as::<PublicKeyOutline<A>, A>(alloc, bytes),
        Kind::Crl => check_as::<CertificateListOutline<A>, A>(alloc, bytes),
    }
}
