//! What is done with bytes as an outline.

ghost use Rattle.std.specs.Prelude.{IfOk};
ghost use Rattle.x509_outline_kinds.specs.Outcomes.{Finds};
ghost use Rattle.x509_outline_kinds.specs.Shapes.{Value, shape_of};

use std::alloc::{AllocError, Allocator};
use x509_der::{
    FromDer, Place, ReadError, Refused, WriteError, read_explained, read_located, to_vec,
};
use x509_fingerprints::{Fingerprints, Pin};
use x509_inspect::{Faults, Moment, Searched, Secrets};
use x509_list_outlines::CertificateListOutline;
use x509_more_outlines::{PrivateKeyOutline, RequestOutline};
use x509_outline::{CertificateOutline, PublicKeyOutline};
use x509_outline_kinds::{OutlineKind, check_outline};
use x509_report::Reported;
use x509_report_outlines::{
    CertificateReport, Entries, Keyholder, ListReport, PrivateKeyReport, PublicKeyReport,
    RequestReport,
};

/// Bytes as an outline, and which entries are told, where they are a revocation list.
#[derive(Clone, Copy, Drop)]
pub struct Asked<'a> {
    /// As what they are read.
    pub kind: OutlineKind,
    /// The bytes.
    pub bytes: &'a [u8],
    /// Which entries are told.
    pub entries: Entries<'a>,
}

/// What is done with a value that is reported.
pub(crate) trait Task<A: Allocator + Copy> {
    /// What it answers.
    type Answer;

    /// Does it with a value that has these deviations.
    fn run<R: Reported + Keyholder<A>>(self, report: &R, places: &[Place]) -> Self::Answer;

    /// The answer where no value is read.
    fn refuse(self, refused: Refused) -> Self::Answer;
}

/// Reads a value, and tells each deviation with its place, or where the read was refused; at the start where only the read of
/// the places was, for want of memory.
fn read_told<T: FromDer<A>, A: Allocator + Copy>(
    alloc: A,
    bytes: &[u8],
) -> Result<(T, Vec<Place, A>), Refused> {
    let error = match read_located::<T, A>(alloc, bytes) {
        Ok(read) => return Ok(read),
        Err(error) => error,
    };
    match read_explained::<T, A>(alloc, bytes) {
        Ok((value, _deviations)) => {
            drop(value);
            Err(Refused { error, at: 0 })
        }
        Err(refused) => Err(refused),
    }
}

/// Does a task with a certificate.
fn with_certificate<A: Allocator + Copy, K: Task<A>>(alloc: A, bytes: &[u8], task: K) -> K::Answer {
    match read_told::<CertificateOutline<A>, A>(alloc, bytes) {
        Ok((value, places)) => {
            let report = CertificateReport {
                alloc,
                bytes,
                value: &value,
            };
            let answer = task.run(&report, places.as_slice());
            drop(report);
            drop(value);
            answer
        }
        Err(refused) => task.refuse(refused),
    }
}

/// Does a task with a request.
fn with_request<A: Allocator + Copy, K: Task<A>>(alloc: A, bytes: &[u8], task: K) -> K::Answer {
    match read_told::<RequestOutline<A>, A>(alloc, bytes) {
        Ok((value, places)) => {
            let report = RequestReport {
                alloc,
                bytes,
                value: &value,
            };
            let answer = task.run(&report, places.as_slice());
            drop(report);
            drop(value);
            answer
        }
        Err(refused) => task.refuse(refused),
    }
}

/// Does a task with a private key.
fn with_private_key<A: Allocator + Copy, K: Task<A>>(alloc: A, bytes: &[u8], task: K) -> K::Answer {
    match read_told::<PrivateKeyOutline<A>, A>(alloc, bytes) {
        Ok((value, places)) => {
            let report = PrivateKeyReport {
                alloc,
                bytes,
                value: &value,
            };
            let answer = task.run(&report, places.as_slice());
            drop(report);
            drop(value);
            answer
        }
        Err(refused) => task.refuse(refused),
    }
}

/// Does a task with a public key.
fn with_public_key<A: Allocator + Copy, K: Task<A>>(alloc: A, bytes: &[u8], task: K) -> K::Answer {
    match read_told::<PublicKeyOutline<A>, A>(alloc, bytes) {
        Ok((value, places)) => {
            let report = PublicKeyReport {
                alloc,
                bytes,
                value: &value,
            };
            let answer = task.run(&report, places.as_slice());
            drop(report);
            drop(value);
            answer
        }
        Err(refused) => task.refuse(refused),
    }
}

/// Does a task with a revocation list.
fn with_list<A: Allocator + Copy, K: Task<A>>(alloc: A, asked: Asked<'_>, task: K) -> K::Answer {
    let Asked { bytes, entries, .. } = asked;
    match read_told::<CertificateListOutline<A>, A>(alloc, bytes) {
        Ok((value, places)) => {
            let report = ListReport {
                alloc,
                bytes,
                value: &value,
                entries,
            };
            let answer = task.run(&report, places.as_slice());
            drop(report);
            drop(value);
            answer
        }
        Err(refused) => task.refuse(refused),
    }
}

/// Does a task with bytes as an outline.
///
/// # Errors
/// The bytes encode no value of the type, or memory is refused.
pub(crate) fn run_as<A: Allocator + Copy, K: Task<A>>(
    alloc: A,
    asked: Asked<'_>,
    task: K,
) -> K::Answer {
    let bytes = asked.bytes;
    match asked.kind {
        OutlineKind::Certificate => with_certificate(alloc, bytes, task),
        OutlineKind::Request => with_request(alloc, bytes, task),
        OutlineKind::PrivateKey => with_private_key(alloc, bytes, task),
        OutlineKind::PublicKey => with_public_key(alloc, bytes, task),
        OutlineKind::RevocationList => with_list(alloc, asked, task),
    }
}

/// The refusal for want of memory.
const WANTS_MEMORY: Refused = Refused {
    error: ReadError::OutOfMemory,
    at: 0,
};

/// The pin of the public key that an outline holds, if it holds one: the SHA-256 of its DER encoding.
///
/// # Errors
/// `AllocError` where memory is refused.
pub(crate) fn pin_of<A: Allocator + Copy, R: Keyholder<A>>(
    alloc: A,
    report: &R,
) -> Result<Option<Pin>, AllocError> {
    let Some(key) = report.public_key() else {
        return Ok(None);
    };
    match to_vec(alloc, key) {
        Ok(bytes) => {
            let prints = Fingerprints::of(bytes.as_slice());
            let sha256 = prints.sha256;
            Ok(Some(Pin { sha256 }))
        }
        Err(WriteError::OutOfMemory) => Err(AllocError),
        Err(WriteError::TooLong) => Ok(None),
    }
}

/// What is wrong in extensions that the encoding keeps as octets.
///
/// # Errors
/// `AllocError` where memory is refused.
pub(crate) fn faults_in<A: Allocator + Copy, R: Reported>(
    alloc: A,
    report: &R,
    bytes: &[u8],
) -> Result<Faults<A>, AllocError> {
    let mut faults = Faults::new(alloc);
    report.tell(&mut faults, bytes, Secrets::Hidden)?;
    Ok(faults)
}

/// The first and the last second for which an outline is valid, and what is wrong in octets.
type Found<A> = (Option<(Moment, Moment)>, Faults<A>);

/// The search of an outline.
#[derive(Clone, Copy, Drop)]
struct Searching<'a, A> {
    alloc: A,
    bytes: &'a [u8],
}

impl<A: Allocator + Copy> Task<A> for Searching<'_, A> {
    type Answer = Result<Found<A>, Refused>;

    fn run<R: Reported + Keyholder<A>>(
        self,
        report: &R,
        _places: &[Place],
    ) -> Result<Found<A>, Refused> {
        let validity = report.validity();
        match faults_in(self.alloc, report, self.bytes) {
            Ok(faults) => Ok((validity, faults)),
            Err(AllocError) => Err(WANTS_MEMORY),
        }
    }

    fn refuse(self, refused: Refused) -> Result<Found<A>, Refused> {
        Err(refused)
    }
}

/// The deviations of bytes as an outline, from when until when it is valid, if it says so, and what is wrong in extensions
/// that the encoding keeps as octets, those of all entries among them.
///
/// # Errors
/// The bytes encode no value of the type, or memory is refused.
pub fn searched_outline<A: Allocator + Copy>(
    alloc: A,
    kind: OutlineKind,
    bytes: &[u8],
) -> Result<Searched<A>, Refused>
    ensures { IfOk result (λ searched. Finds (Value A kind) (shape_of A kind) bytes.now searched.places.items) }
{
    let asked = Asked {
        kind,
        bytes,
        entries: Entries::All,
    };
    let places = check_outline(alloc, kind, bytes)?;
    match run_as(alloc, asked, Searching { alloc, bytes }) {
        Ok((validity, faults)) => Ok(Searched {
            places,
            validity,
            faults,
        }),
        Err(refused) => {
            drop(places);
            Err(refused)
        }
    }
}
