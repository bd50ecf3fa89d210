//! Work on bytes as one of the types that are known.

ghost use Rattle.std.specs.Prelude.{IfOk, IfErr, MatchOption};
ghost use Rattle.x509_inspect.specs.Outcomes.{Counts, Encodes, EncodesNone, Finds, IsEncoding, NotChecked, NotRead, NotWritten};
ghost use Rattle.x509_inspect.specs.Shapes.{Value, shape_of};

use crate::json_report::{WriteJson, WriteMembers, Written};
use crate::row::{Row, Told, WriteRow};
use crate::text_report::WriteText;
use crate::told::{
    Accepting, Checking, Dated, Dating, Encoding, Pinned, Pinning, Searched, Searching, Task,
};
use picky_asn1_x509::{
    AlgorithmIdentifier, Certificate, CertificationRequest, CertificationRequestInfo, ECPrivateKey,
    Extensions, Name, Place, PrivateKeyInfo, RawAlgorithmIdentifier, RsaPrivateKey, RsaPublicKey,
    SubjectPublicKeyInfo, TbsCertificate, WriteError,
};
use std::alloc::{AllocError, Allocator};
use std::fmt::{self, Write};
use x509_der::Refused;
use x509_inspect_parts::{Head, Kind, Options};
use x509_report_parts::Layout;

/// Does a task with bytes as a type.
fn run_as<A: Allocator + Copy, K: Task<A>>(kind: Kind, task: K) -> K::Answer
    ensures { K.says task (Value A kind) (shape_of A kind) result }
{
    match kind {
        Kind::Certificate => task.run::<Certificate<A>>(),
        Kind::Request => task.run::<CertificationRequest<A>>(),
        Kind::PrivateKey => task.run::<PrivateKeyInfo<A>>(),
        Kind::PublicKey => task.run::<SubjectPublicKeyInfo<A>>(),
        Kind::RsaPrivateKey => task.run::<RsaPrivateKey<A>>(),
        Kind::RsaPublicKey => task.run::<RsaPublicKey<A>>(),
        Kind::EcPrivateKey => task.run::<ECPrivateKey<A>>(),
        Kind::Name => task.run::<Name<A>>(),
        Kind::Extensions => task.run::<Extensions<A>>(),
        Kind::Algorithm => task.run::<AlgorithmIdentifier<A>>(),
        Kind::RawAlgorithm => task.run::<RawAlgorithmIdentifier<A>>(),
        Kind::RequestInfo => task.run::<CertificationRequestInfo<A>>(),
        Kind::TbsCertificate => task.run::<TbsCertificate<A>>(),
    }
}

/// The deviations of bytes as a type, by start and then by kind: none where the bytes are in DER.
///
/// # Errors
/// The bytes encode no value of the type, or memory for places is refused.
pub fn check<A: Allocator + Copy>(
    alloc: A,
    kind: Kind,
    bytes: &[u8],
) -> Result<Vec<Place, A>, Refused>
    ensures ok { IfOk result (λ places. Finds (Value A kind) (shape_of A kind) bytes.now places.items) }
    ensures err { IfErr result (NotChecked (Value A kind) (shape_of A kind) bytes.now) }
{
    run_as(kind, Checking { alloc, bytes })
}

/// The same, and from when until when the value is valid, if it says so.
///
/// # Errors
/// As `check`; also memory for the value is refused.
pub fn dated<A: Allocator + Copy>(alloc: A, kind: Kind, bytes: &[u8]) -> Result<Dated<A>, Refused>
    ensures ok { IfOk result (λ dated. Finds (Value A kind) (shape_of A kind) bytes.now dated.0.items) }
    ensures err { IfErr result (NotRead (Value A kind) (shape_of A kind) bytes.now) }
{
    run_as(kind, Dating { alloc, bytes })
}

/// The same, and what is wrong in extensions that the encoding keeps as octets.
///
/// # Errors
/// As `dated`.
pub fn searched<A: Allocator + Copy>(
    alloc: A,
    kind: Kind,
    bytes: &[u8],
) -> Result<Searched<A>, Refused>
    ensures ok { IfOk result (λ searched. Finds (Value A kind) (shape_of A kind) bytes.now searched.places.items) }
    ensures err { IfErr result (NotRead (Value A kind) (shape_of A kind) bytes.now) }
{
    run_as(kind, Searching { alloc, bytes })
}

/// How many deviations bytes have as a type, and the pin of the public key that they hold, if they hold one.
///
/// # Errors
/// The bytes encode no value of the type, or memory is refused.
pub fn pinned<A: Allocator + Copy>(alloc: A, kind: Kind, bytes: &[u8]) -> Result<Pinned, Refused>
    ensures ok { IfOk result (λ pinned. Counts (Value A kind) (shape_of A kind) bytes.now pinned.0) }
    ensures err { IfErr result (NotRead (Value A kind) (shape_of A kind) bytes.now) }
{
    run_as(kind, Pinning { alloc, bytes })
}

/// Writes a structure on one line, without a line feed where the most important is told, and answers how many deviations
/// it has.
///
/// # Errors
/// The bytes encode no value of the type, or memory is refused; inside, writing failed.
pub fn write_row<A: Allocator + Copy, W: Write>(
    alloc: A,
    row: Row<'_>,
    told: Told<'_>,
    out: &mut W,
) -> Result<Result<usize, fmt::Error>, Refused>
    ensures ok { IfOk result (λ written. IfOk written (Counts (Value A row.entry.kind) (shape_of A row.entry.kind) row.entry.bytes.now)) }
    ensures err { IfErr result (NotRead (Value A row.entry.kind) (shape_of A row.entry.kind) row.entry.bytes.now) }
{
    run_as(
        row.kind,
        WriteRow {
            alloc,
            row,
            told,
            out,
        },
    )
}

/// Why bytes aren't read as a type; `None` where they are. It takes no memory.
pub(crate) fn accepts<A: Allocator + Copy>(alloc: A, kind: Kind, bytes: &[u8]) -> Option<Refused>
    ensures { MatchOption result (Encodes (Value A kind) (shape_of A kind) bytes.now) (EncodesNone (Value A kind) (shape_of A kind) bytes.now) }
{
    run_as(kind, Accepting { alloc, bytes })
}

/// The DER encoding of the value that bytes encode as a type, and how many deviations they have.
///
/// # Errors
/// The bytes encode no value of the type, or memory is refused; inside, writing is refused.
pub fn encoded<A: Allocator + Copy>(
    alloc: A,
    kind: Kind,
    bytes: &[u8],
) -> Result<Result<Vec<u8, A>, WriteError>, Refused>
    ensures ok { IfOk result (λ written. IfOk written (λ encoding. IsEncoding (Value A kind) (shape_of A kind) bytes.now encoding.items) × IfErr written (NotWritten (Value A kind) (shape_of A kind) bytes.now)) }
    ensures err { IfErr result (NotRead (Value A kind) (shape_of A kind) bytes.now) }
{
    run_as(kind, Encoding { alloc, bytes })
}

/// Writes the report of bytes as a type, and answers how many deviations they have.
///
/// # Errors
/// The bytes encode no value of the type, or memory is refused; inside, writing failed.
pub fn write_text<A: Allocator + Copy, W: Write>(
    alloc: A,
    kind: Kind,
    bytes: &[u8],
    options: Options,
    layout: Layout,
    out: &mut W,
) -> Result<Result<usize, fmt::Error>, Refused>
    ensures ok { IfOk result (λ written. IfOk written (Counts (Value A kind) (shape_of A kind) bytes.now)) }
    ensures err { IfErr result (NotRead (Value A kind) (shape_of A kind) bytes.now) }
{
    run_as(
        kind,
        WriteText {
            alloc,
            bytes,
            options,
            layout,
            out,
        },
    )
}

/// Appends the object of bytes as a type, on one line.
///
/// # Errors
/// `AllocError` where memory is refused; what stood in the vector is dropped.
pub fn push_json<A: Allocator + Copy>(
    alloc: A,
    out: Vec<u8, A>,
    head: Head<'_>,
) -> Result<Written<A>, AllocError>
    ensures read { IfOk result (λ written. IfOk written.1 (Counts (Value A head.entry.kind) (shape_of A head.entry.kind) head.entry.bytes.now)) }
    ensures refused { IfOk result (λ written. IfErr written.1 (NotRead (Value A head.entry.kind) (shape_of A head.entry.kind) head.entry.bytes.now)) }
{
    run_as(head.kind, WriteJson { alloc, out, head })
}

/// The object of bytes as a type, with the members that stand behind `result`: all that is told but as what they are read,
/// how many they are, and what the read came to.
///
/// # Errors
/// `AllocError` where memory is refused.
pub fn members<A: Allocator + Copy>(
    alloc: A,
    kind: Kind,
    bytes: &[u8],
    options: Options,
) -> Result<Written<A>, AllocError>
    ensures read { IfOk result (λ written. IfOk written.1 (Counts (Value A kind) (shape_of A kind) bytes.now)) }
    ensures refused { IfOk result (λ written. IfErr written.1 (NotRead (Value A kind) (shape_of A kind) bytes.now)) }
{
    run_as(
        kind,
        WriteMembers {
            alloc,
            kind,
            bytes,
            options,
        },
    )
}
