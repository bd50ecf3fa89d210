//! Where the fields of a revocation list stand.

ghost use Rattle.std.specs.Prelude.{◌≡◌};
ghost use Rattle.x509_flat.specs.Fields.{flat_list, no_list, RevocationListTold};

use crate::span::FlatSpan;
use crate::status::Answer;
use std::alloc::Allocator;
use x509_outline_fields::{CertificateListFields, fields_of_list};

/// Where the fields of a revocation list stand, each with its tag and its length (RFC 5280, 5.1).
#[repr(C)]
#[derive(Clone, Copy, Debug, PartialEq, Eq)]
pub struct FlatList {
    /// `tbsCertList TBSCertList`.
    pub tbs_cert_list: FlatSpan,
    /// `version Version OPTIONAL`.
    pub version: FlatSpan,
    /// `signature AlgorithmIdentifier`.
    pub signature: FlatSpan,
    /// `issuer Name`.
    pub issuer: FlatSpan,
    /// `thisUpdate Time`.
    pub this_update: FlatSpan,
    /// `nextUpdate Time OPTIONAL`.
    pub next_update: FlatSpan,
    /// `revokedCertificates SEQUENCE OF SEQUENCE { .. } OPTIONAL`.
    pub revoked_certificates: FlatSpan,
    /// `crlExtensions [0] EXPLICIT Extensions OPTIONAL`.
    pub crl_extensions: FlatSpan,
    /// `signatureAlgorithm AlgorithmIdentifier`.
    pub signature_algorithm: FlatSpan,
    /// `signatureValue BIT STRING`.
    pub signature_value: FlatSpan,
}

impl FlatList {
    /// The same places.
    fn of(places: CertificateListFields) -> Self
        ensures { result ≡ flat_list places }
    {
        FlatList {
            tbs_cert_list: FlatSpan::of(places.tbs_cert_list),
            version: FlatSpan::of_optional(places.fields.version),
            signature: FlatSpan::of(places.fields.signature),
            issuer: FlatSpan::of(places.fields.issuer),
            this_update: FlatSpan::of(places.fields.this_update),
            next_update: FlatSpan::of_optional(places.fields.next_update),
            revoked_certificates: FlatSpan::of_optional(places.fields.revoked_certificates),
            crl_extensions: FlatSpan::of_optional(places.fields.crl_extensions),
            signature_algorithm: FlatSpan::of(places.signature_algorithm),
            signature_value: FlatSpan::of(places.signature_value),
        }
    }

    /// All zeros.
    fn none() -> Self
        ensures { result ≡ no_list }
    {
        FlatList {
            tbs_cert_list: FlatSpan { start: 0, end: 0 },
            version: FlatSpan { start: 0, end: 0 },
            signature: FlatSpan { start: 0, end: 0 },
            issuer: FlatSpan { start: 0, end: 0 },
            this_update: FlatSpan { start: 0, end: 0 },
            next_update: FlatSpan { start: 0, end: 0 },
            revoked_certificates: FlatSpan { start: 0, end: 0 },
            crl_extensions: FlatSpan { start: 0, end: 0 },
            signature_algorithm: FlatSpan { start: 0, end: 0 },
            signature_value: FlatSpan { start: 0, end: 0 },
        }
    }
}

/// Where the fields of a revocation list stand. It takes no memory.
pub fn list_fields<A: Allocator + Copy>(alloc: A, bytes: &[u8]) -> Answer<FlatList>
    ensures { RevocationListTold A bytes.now result.status result.fields }
{
    match fields_of_list(alloc, bytes) {
        Ok(places) => Answer::done(FlatList::of(places)),
        Err(error) => Answer::refused(error, FlatList::none()),
    }
}
