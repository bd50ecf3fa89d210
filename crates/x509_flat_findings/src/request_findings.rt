//! The findings of a request, in a buffer.

ghost use Rattle.std.specs.Prelude.{◌≡◌, ◌≤◌, IfOk, length, take};
ghost use Rattle.x509_flat_findings.specs.RequestFindings.{AllRequestFindings, PutsRequestFindings, RequestFindingsTold, flat_request_finding};

use crate::findings::{FlatFinding, put};
use crate::number::number_of;
use picky_asn1_x509::{CertificationRequest, from_bytes};
use std::alloc::{AllocError, Allocator};
use x509_fields::CertificationRequestFields;
use x509_findings::{Rule, is_broken_by_request, place_in_request};
use x509_flat::span::FlatSpan;
use x509_flat::status::{Sized, Status, unsized_of};

/// That a rule is broken, by the places of a request's fields.
fn finding_of(rule: Rule, places: &CertificationRequestFields) -> FlatFinding
    ensures { result ≡ flat_request_finding rule places.now }
{
    let span = place_in_request(rule.part(), places);
    FlatFinding {
        rule: number_of(rule),
        at: FlatSpan {
            start: span.start,
            end: span.end,
        },
    }
}

/// Puts the findings by some rules to the front of a row that has room for one of each, and counts them.
fn found_in_request<A: Allocator, B: Allocator + Copy>(
    alloc: B,
    rules: &[Rule],
    request: &CertificationRequest<A>,
    places: &CertificationRequestFields,
    row: &mut [FlatFinding],
) -> Result<usize, AllocError>
    requires { length rules.now ≤ length row.old }
    ensures few { IfOk result (λ count. count ≤ length rules.now) }
    ensures size { length row.new ≡ length row.old }
    ensures found { IfOk result (λ count. AllRequestFindings request.now places.now rules.now (take count row.new)) }
{
    let mut count: usize = 0;
    'rules: for index in 0..rules.len() {
        let is_told = is_broken_by_request(alloc, rules[index], request)?;
        if is_told {
            row[count] = finding_of(rules[index], places);
            count += 1;
        }
    }
    Ok(count)
}

/// Writes the findings of a request to the front of a slice.
fn put_request_findings<A: Allocator, B: Allocator + Copy>(
    alloc: B,
    request: &CertificationRequest<A>,
    places: &CertificationRequestFields,
    out: &mut [FlatFinding],
) -> Sized
    ensures { PutsRequestFindings request.now places.now out.old out.new result.status result.size }
{
    let mut row = [FlatFinding::none(); 67];
    match found_in_request(alloc, &Rule::ALL, request, places, &mut row) {
        Ok(count) => put(&row[..count], out),
        Err(AllocError) => Sized {
            status: Status::OutOfMemory,
            size: 0,
        },
    }
}

/// Writes which rules the request breaks that the bytes encode, and where, to the front of a slice, in the order of the
/// rules, and tells how many there are. It takes memory for the request, and to tell some of the rules.
pub fn request_findings<A: Allocator + Copy>(
    alloc: A,
    bytes: &[u8],
    out: &mut [FlatFinding],
) -> Sized
    ensures { RequestFindingsTold A bytes.now out.old out.new result.status result.size }
{
    match from_bytes::<CertificationRequest<A>, A>(alloc, bytes) {
        Ok(value) => {
            let places = CertificationRequestFields::of(&value, bytes);
            let sized = put_request_findings(alloc, &value, &places, out);
            drop(value);
            sized
        }
        Err(error) => unsized_of(error),
    }
}
