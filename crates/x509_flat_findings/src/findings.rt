//! The findings of a certificate, in a buffer.

ghost use Rattle.std.specs.Prelude.{◌≡◌, ◌≤◌, IfOk, length, take};
ghost use Rattle.x509_flat_findings.specs.Findings.{AllFindings, FindingsTold, PutsFindings, PutsList, flat_finding, no_finding};

use crate::number::number_of;
use picky_asn1_x509::{Certificate, from_bytes};
use std::alloc::{AllocError, Allocator};
use x509_fields::CertificateFields;
use x509_findings::{Rule, is_broken, place_of};
use x509_flat::span::FlatSpan;
use x509_flat::status::{Sized, Status, unsized_of};

/// A rule that a certificate or request breaks, and where.
#[repr(C)]
#[derive(Clone, Copy, Debug, PartialEq, Eq)]
pub struct FlatFinding {
    /// The number of the rule, from 1.
    pub rule: u32,
    /// Where the part stands that the rule is about.
    pub at: FlatSpan,
}

impl FlatFinding {
    /// All zeros.
    pub fn none() -> Self
        ensures { result ≡ no_finding }
    {
        FlatFinding {
            rule: 0,
            at: FlatSpan { start: 0, end: 0 },
        }
    }

    /// That a rule is broken, by the places of a certificate's fields.
    fn of(rule: Rule, places: &CertificateFields) -> Self
        ensures { result ≡ flat_finding rule places.now }
    {
        let span = place_of(rule.part(), places);
        FlatFinding {
            rule: number_of(rule),
            at: FlatSpan {
                start: span.start,
                end: span.end,
            },
        }
    }
}

/// Puts the findings by some rules to the front of a row that has room for one of each, and counts them.
fn found<A: Allocator, B: Allocator + Copy>(
    alloc: B,
    rules: &[Rule],
    certificate: &Certificate<A>,
    places: &CertificateFields,
    row: &mut [FlatFinding],
) -> Result<usize, AllocError>
    requires { length rules.now ≤ length row.old }
    ensures few { IfOk result (λ count. count ≤ length rules.now) }
    ensures size { length row.new ≡ length row.old }
    ensures found { IfOk result (λ count. AllFindings certificate.now places.now rules.now (take count row.new)) }
{
    let mut count: usize = 0;
    'rules: for index in 0..rules.len() {
        let is_told = is_broken(alloc, rules[index], certificate)?;
        if is_told {
            row[count] = FlatFinding::of(rules[index], places);
            count += 1;
        }
    }
    Ok(count)
}

/// Writes a list to the front of a slice that may be too short, and tells its size.
pub(crate) fn put(list: &[FlatFinding], out: &mut [FlatFinding]) -> Sized
    ensures { PutsList list.now out.old out.new result.status result.size }
{
    let size = list.len();
    if out.len() < size {
        return Sized {
            status: Status::TooShort,
            size,
        };
    }
    out[..size].copy_from_slice(list);
    Sized {
        status: Status::Done,
        size,
    }
}

/// Writes the findings of a certificate to the front of a slice.
fn put_findings<A: Allocator, B: Allocator + Copy>(
    alloc: B,
    certificate: &Certificate<A>,
    places: &CertificateFields,
    out: &mut [FlatFinding],
) -> Sized
    ensures { PutsFindings certificate.now places.now out.old out.new result.status result.size }
{
    let mut row = [FlatFinding::none(); 67];
    match found(alloc, &Rule::ALL, certificate, places, &mut row) {
        Ok(count) => put(&row[..count], out),
        Err(AllocError) => Sized {
            status: Status::OutOfMemory,
            size: 0,
        },
    }
}

/// Writes which rules the certificate breaks that the bytes encode, and where, to the front of a slice, in the order of the
/// rules, and tells how many there are. It takes memory for the certificate, and to tell some of the rules.
pub fn findings<A: Allocator + Copy>(alloc: A, bytes: &[u8], out: &mut [FlatFinding]) -> Sized
    ensures { FindingsTold A bytes.now out.old out.new result.status result.size }
{
    match from_bytes::<Certificate<A>, A>(alloc, bytes) {
        Ok(value) => {
            let places = CertificateFields::of(&value, bytes);
            let sized = put_findings(alloc, &value, &places, out);
            drop(value);
            sized
        }
        Err(error) => unsized_of(error),
    }
}
