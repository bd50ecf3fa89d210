//! Certificates and requests that are put together of what was signed and the signature.

use crate::status::Status;
use crate::stop::Stop;
use anyhow::Error;
use std::alloc::Global;
use std::fmt::Display;
use x509_inspect::{Determined, Kind, RefusalLine, Refused, determine};
use x509_make::{NotAssembled, certificate, request};
use x509_report_parts::shown::ShownBytes;
use x509_signing::{NotConverted, ecdsa_signature, signature_algorithm};

/// An input: its path, as it was given, and what it holds.
#[derive(Clone, Copy, Drop)]
pub struct Piece<'a> {
    /// The path.
    pub path: &'a str,
    /// The bytes.
    pub bytes: &'a [u8],
}

/// What is put together.
#[derive(Clone, Copy, Drop)]
pub struct Pieces<'a> {
    /// What was signed.
    pub part: Piece<'a>,
    /// The signature.
    pub signature: Piece<'a>,
    /// The algorithm of a request, in DER.
    pub algorithm: Option<Piece<'a>>,
    /// Whether the signature is r and s of ECDSA, one behind the other.
    pub is_raw: bool,
}

/// What is wrong with an input.
fn refused(piece: Piece<'_>, why: impl Display + Drop) -> Stop {
    Stop::at(Status::Refused, piece.path, why)
}

/// What is wrong with the command line because of what an input is.
fn misused(piece: Piece<'_>, why: &'static str) -> Stop {
    Stop::usage(Error::msg(why).context(ShownBytes(piece.path.as_bytes())))
}

/// Of what the part is the signed part: a certificate or a request.
fn kind_of(alloc: Global, part: Piece<'_>) -> Result<Kind, Stop> {
    match determine(alloc, part.bytes) {
        Determined::One(Kind::TbsCertificate) => Ok(Kind::Certificate),
        Determined::One(Kind::RequestInfo) => Ok(Kind::Request),
        Determined::One(Kind::Certificate | Kind::Request) => Err(refused(
            part,
            "signed already; cimaroly signed writes the part that was signed",
        )),
        Determined::None(kind @ (Kind::TbsCertificate | Kind::RequestInfo), why) => {
            Err(refused(part, line_of(why, kind, part)))
        }
        _ => Err(refused(
            part,
            "neither a TBSCertificate nor a CertificationRequestInfo in DER",
        )),
    }
}

/// Where an input is refused as a type, and why.
fn line_of(refused: Refused, kind: Kind, piece: Piece<'_>) -> RefusalLine<'_> {
    RefusalLine {
        refused,
        kind,
        bytes: piece.bytes,
    }
}

/// The algorithm: that which a certificate's part names, or that which is given for a request.
fn algorithm_of<'a>(kind: Kind, pieces: Pieces<'a>) -> Result<Piece<'a>, Stop> {
    let part = pieces.part;
    match (kind, pieces.algorithm) {
        (Kind::Certificate, None) => match signature_algorithm(part.bytes) {
            Some(bytes) => Ok(Piece {
                path: part.path,
                bytes,
            }),
            None => Err(refused(part, "it names no algorithm")),
        },
        (Kind::Certificate, Some(_)) => Err(misused(
            part,
            "a certificate's signed part names the algorithm: leave out --algorithm",
        )),
        (_, Some(algorithm)) => Ok(algorithm),
        (_, None) => Err(misused(
            part,
            "a request's signed part names no algorithm: give it, such as --algorithm ecdsa-with-SHA256",
        )),
    }
}

/// The certificate or the request of its three parts.
fn put_together(
    alloc: Global,
    kind: Kind,
    part: &[u8],
    algorithm: &[u8],
    signature: &[u8],
) -> Result<Vec<u8>, NotAssembled> {
    if kind == Kind::Certificate {
        certificate(alloc, part, algorithm, signature)
    } else {
        request(alloc, part, algorithm, signature)
    }
}

/// What is said of an algorithm that isn't in DER.
const DEVIATING: &str = "the algorithm of the signature isn't in DER: NULL is left out";

/// What is said of a signature in another form.
const NO_SEQUENCE: &str =
    "not a SEQUENCE of two INTEGERs, as ECDSA signatures are (r and s alone need --raw-ecdsa)";

/// Why nothing is put together.
fn stop_of(why: NotAssembled, pieces: Pieces<'_>, algorithm: Piece<'_>) -> Stop {
    match why {
        NotAssembled::Part(why) => refused(pieces.part, why),
        NotAssembled::Algorithm(why) => refused(
            algorithm,
            format_args!("the algorithm of the signature: {}", why.error),
        ),
        NotAssembled::AlgorithmDeviates => refused(algorithm, DEVIATING),
        NotAssembled::Signature(why) => Stop {
            status: Status::Refused,
            error: Some(
                Error::msg(why)
                    .context(NO_SEQUENCE)
                    .context(ShownBytes(pieces.signature.path.as_bytes())),
            ),
        },
        NotAssembled::TooLong => refused(pieces.part, "the encoding is too long"),
        NotAssembled::OutOfMemory => Stop::memory(),
    }
}

/// The signature in the form of X.509 of r and s.
fn converted(
    alloc: Global,
    kind: Kind,
    pieces: Pieces<'_>,
    algorithm: Piece<'_>,
) -> Result<Vec<u8>, Stop> {
    let signature = pieces.signature;
    // only ECDSA refuses a signature without bytes
    match put_together(alloc, kind, pieces.part.bytes, algorithm.bytes, &[]) {
        Ok(_made) => return Err(misused(algorithm, "--raw-ecdsa is for ECDSA alone")),
        Err(NotAssembled::Signature(_)) => {}
        Err(why) => return Err(stop_of(why, pieces, algorithm)),
    }
    match ecdsa_signature(alloc, signature.bytes) {
        Ok(bytes) => Ok(bytes),
        Err(NotConverted::BadLength) => Err(refused(
            signature,
            format_args!(
                "not two numbers of equal length: {} bytes",
                signature.bytes.len()
            ),
        )),
        Err(NotConverted::TooLong) => Err(refused(signature, "too long")),
        Err(NotConverted::OutOfMemory) => Err(Stop::memory()),
    }
}

/// The certificate or the request that the pieces make, in DER, and which of both it is.
///
/// # Errors
/// A piece is refused, the command line doesn't fit them, or memory is refused.
pub fn assembled(alloc: Global, pieces: Pieces<'_>) -> Result<(Kind, Vec<u8>), Stop> {
    let kind = kind_of(alloc, pieces.part)?;
    let algorithm = algorithm_of(kind, pieces)?;
    let part = pieces.part.bytes;
    let made = if pieces.is_raw {
        let signature = converted(alloc, kind, pieces, algorithm)?;
        put_together(alloc, kind, part, algorithm.bytes, signature.as_slice())
    } else {
        put_together(alloc, kind, part, algorithm.bytes, pieces.signature.bytes)
    };
    match made {
        Ok(bytes) => Ok((kind, bytes)),
        Err(why) => Err(stop_of(why, pieces, algorithm)),
    }
}
