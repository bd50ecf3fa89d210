//! What a signature covers.

ghost use Rattle.std.specs.Prelude.{◌≡◌, ◌+◌, ◌<◌, ◌^◌, length};
ghost use Rattle.picky_asn1_x509.specs.Certificates.{signature_fields, certificate, certificate_parts};
ghost use Rattle.picky_asn1_x509.specs.Requests.{request, request_info, request_parts};
ghost use Rattle.picky_asn1_x509.specs.TbsCertificates.{tbs_certificate};
ghost use Rattle.x509_list_outlines.specs.CertificateLists.{certificate_list, list_parts};
ghost use Rattle.x509_list_outlines.specs.TbsCertLists.{tbs_list};
ghost use Rattle.x509_more_outlines.specs.Requests.{request as request_outline, request_info as info_outline, request_parts as outline_of_request};
ghost use Rattle.x509_outline.specs.Certificates.{certificate as certificate_outline, certificate_parts as outline_of_certificate, signature_fields as signature_outline};
ghost use Rattle.x509_outline.specs.TbsCertificates.{tbs_certificate as tbs_outline};
ghost use Rattle.x509_flat.specs.SignedParts.{IsSigned, SignedOf, SignedTold, no_signed};
ghost use Rattle.x509_flat.specs.Statuses.{IsStatusOf};

use crate::kind::Kind;
use crate::span::FlatSpan;
use crate::status::{Status, status_of};
use picky_asn1_x509::{Certificate, CertificationRequest, Deviations, ReadError};
use std::alloc::Allocator;
use x509_list_outlines::CertificateListOutline;
use x509_more_outlines::RequestOutline;
use x509_outline::CertificateOutline;

/// Where the signed part stands, and how many deviations of each kind stand inside and outside of it.
#[repr(C)]
#[derive(Clone, Copy, Debug, PartialEq, Eq)]
pub struct FlatSigned {
    /// Where it stands.
    pub part: FlatSpan,
    /// How many stand inside of it.
    pub inside: [usize; 10],
    /// How many stand outside of it.
    pub outside: [usize; 10],
}

impl FlatSigned {
    /// All zeros.
    pub fn none() -> Self
        ensures { result ≡ no_signed }
    {
        FlatSigned {
            part: FlatSpan { start: 0, end: 0 },
            inside: [0; 10],
            outside: [0; 10],
        }
    }
}

/// A signed part by its status.
#[derive(Clone, Copy, Debug, PartialEq, Eq)]
pub struct SignedAnswer {
    /// The status.
    pub status: Status,
    /// The signed part: all zeros where there is none.
    pub signed: FlatSigned,
}

/// The answer to bytes that were refused.
fn refused(error: ReadError) -> SignedAnswer
    ensures status { IsStatusOf error result.status }
    ensures signed { result.signed ≡ no_signed }
{
    SignedAnswer {
        status: status_of(error),
        signed: FlatSigned::none(),
    }
}

/// The answer to a check that found a signed part, where it starts, and the deviations inside and outside of it.
fn told(signed: &[u8], start: usize, inside: Deviations, outside: Deviations) -> SignedAnswer
    requires { start + length signed.now < 2 ^ 64 }
    ensures status { result.status ≡ Status.Done }
    ensures signed { IsSigned start signed.now inside outside result.signed }
{
    SignedAnswer {
        status: Status::Done,
        signed: FlatSigned {
            part: FlatSpan {
                start,
                end: start + signed.len(),
            },
            inside: inside.array(),
            outside: outside.array(),
        },
    }
}

/// The signed part of a certificate. It takes no memory.
fn of_certificate<A: Allocator + Copy>(alloc: A, bytes: &[u8]) -> SignedAnswer
    ensures { SignedTold (certificate {A = A}) certificate_parts tbs_certificate signature_fields bytes.now result.status result.signed }
{
    match Certificate::check_signed_part(alloc, bytes) {
        Ok(checked) => told(
            checked.signed,
            checked.start,
            checked.inside,
            checked.outside,
        ),
        Err(error) => refused(error),
    }
}

/// The signed part of a request. It takes no memory.
fn of_request<A: Allocator + Copy>(alloc: A, bytes: &[u8]) -> SignedAnswer
    ensures { SignedTold (request {A = A}) request_parts request_info signature_fields bytes.now result.status result.signed }
{
    match CertificationRequest::check_signed_part(alloc, bytes) {
        Ok(checked) => told(
            checked.signed,
            checked.start,
            checked.inside,
            checked.outside,
        ),
        Err(error) => refused(error),
    }
}

/// The signed part of a certificate's outline. It takes no memory.
fn of_certificate_outline<A: Allocator + Copy>(alloc: A, bytes: &[u8]) -> SignedAnswer
    ensures { SignedTold (certificate_outline {A = A}) outline_of_certificate tbs_outline signature_outline bytes.now result.status result.signed }
{
    match CertificateOutline::check_signed_part(alloc, bytes) {
        Ok(checked) => told(
            checked.signed,
            checked.start,
            checked.inside,
            checked.outside,
        ),
        Err(error) => refused(error),
    }
}

/// The signed part of a request's outline. It takes no memory.
fn of_request_outline<A: Allocator + Copy>(alloc: A, bytes: &[u8]) -> SignedAnswer
    ensures { SignedTold (request_outline {A = A}) outline_of_request info_outline signature_outline bytes.now result.status result.signed }
{
    match RequestOutline::check_signed_part(alloc, bytes) {
        Ok(checked) => told(
            checked.signed,
            checked.start,
            checked.inside,
            checked.outside,
        ),
        Err(error) => refused(error),
    }
}

/// The signed part of a revocation list. It takes no memory.
fn of_list<A: Allocator + Copy>(alloc: A, bytes: &[u8]) -> SignedAnswer
    ensures { SignedTold (certificate_list {A = A}) list_parts tbs_list signature_outline bytes.now result.status result.signed }
{
    match CertificateListOutline::check_signed_part(alloc, bytes) {
        Ok(checked) => told(
            checked.signed,
            checked.start,
            checked.inside,
            checked.outside,
        ),
        Err(error) => refused(error),
    }
}

/// The answer of a type that isn't signed.
fn unsigned() -> SignedAnswer
    ensures { (result.status ≡ Status.UnknownKind) × (result.signed ≡ no_signed) }
{
    SignedAnswer {
        status: Status::UnknownKind,
        signed: FlatSigned::none(),
    }
}

/// What the signature covers of bytes that encode a value of a type that is signed. It takes no memory.
pub fn signed_part<A: Allocator + Copy>(alloc: A, kind: Kind, bytes: &[u8]) -> SignedAnswer
    ensures { SignedOf A kind bytes.now result.status result.signed }
{
    match kind {
        Kind::Certificate => of_certificate(alloc, bytes),
        Kind::Request => of_request(alloc, bytes),
        Kind::CertificateOutline => of_certificate_outline(alloc, bytes),
        Kind::RequestOutline => of_request_outline(alloc, bytes),
        Kind::Crl => of_list(alloc, bytes),
        Kind::PrivateKey
        | Kind::PublicKey
        | Kind::RsaPrivateKey
        | Kind::RsaPublicKey
        | Kind::EcPrivateKey
        | Kind::Name
        | Kind::Extensions
        | Kind::Algorithm
        | Kind::RawAlgorithm
        | Kind::RequestInfo
        | Kind::TbsCertificate
        | Kind::PrivateKeyOutline
        | Kind::PublicKeyOutline => unsigned(),
    }
}
