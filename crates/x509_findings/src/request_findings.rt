//! The findings of a request, one after another.

ghost use Rattle.std.specs.Prelude.{◌≡◌, ◌↔◌, false, IfOk, IsOk, IsTrue, OnErr};
ghost use Rattle.x509_der.specs.Tally.{Tally};
ghost use Rattle.picky_asn1_x509.specs.Requests.{request};
ghost use Rattle.x509_fields.specs.Requests.{RequestIn};
ghost use Rattle.x509_rules.specs.Rules.{all_rules};
ghost use Rattle.x509_findings.specs.Broken.{condition_of};
ghost use Rattle.x509_findings.specs.Conditions.{takes_memory};
ghost use Rattle.x509_findings.specs.RequestFindings.{BrokenByRequest, FirstBrokenByRequest, TellsOfRequest};

use crate::condition::condition_of;
use crate::findings::Finding;
use crate::place::place_in_request;
use crate::request_condition::holds_of_request;
use picky_asn1_x509::CertificationRequest;
use std::alloc::{AllocError, Allocator, Global};
use std::marker::Model;
use x509_fields::CertificationRequestFields;
use x509_rules::Rule;

/// Whether a request breaks a rule: by its subject, its key, the algorithm of its signature or an extension that it asks for.
/// Rules about other fields, and about what isn't there, are kept: an authority adds that. Takes memory as `is_broken` does.
///
/// # Errors
/// `AllocError`, where memory is refused.
pub fn is_broken_by_request<A: Allocator, B: Allocator + Copy>(
    alloc: B,
    rule: Rule,
    request: &CertificationRequest<A>,
) -> Result<bool, AllocError>
    ensures told { IfOk result (λ told. IsTrue told ↔ BrokenByRequest rule request.now) }
    ensures free { takes_memory (condition_of rule) ≡ false → IsOk result }
{
    holds_of_request(alloc, condition_of(rule), request)
}

/// How many of some rules stand before the first one that a request breaks.
fn first_broken_by_request<A: Allocator, B: Allocator + Copy>(
    alloc: B,
    rules: &[Rule],
    request: &CertificationRequest<A>,
) -> Result<Option<usize>, AllocError>
    ensures { IfOk result (λ found. FirstBrokenByRequest request.now rules.now found) }
{
    for index in 0..rules.len() {
        if is_broken_by_request(alloc, rules[index], request)? {
            return Ok(Some(index));
        }
    }
    Ok(None)
}

/// The findings of a request that are left. Contracts see the request, the places of its fields, and the rules that are left to
/// be asked.
#[derive(Drop)]
pub struct RequestFindings<'a, A: Allocator = Global> {
    alloc: A,
    request: &'a CertificationRequest<A>,
    places: CertificationRequestFields,
    left: &'static [Rule],
}

impl<'a, A: Allocator> Model for RequestFindings<'a, A> {
    ghost use Rattle.x509_findings.specs.RequestFindings.{LeftOfRequest};

    ghost Value = { LeftOfRequest A };

    ghost view = { λ f. record { request = f.request.now; places = f.places; rules = f.left.now } };
}

impl<'a, A: Allocator + Copy> RequestFindings<'a, A> {
    /// All findings of a request, in the order of the rules, with places in the bytes that it was read from. Takes no memory, but
    /// `next` does. Of bytes that don't encode the request the places say nothing.
    pub fn of(alloc: A, value: &'a CertificationRequest<A>, bytes: &[u8]) -> Self
        ensures request { result.request ≡ value.now }
        ensures rules { result.rules ≡ all_rules }
        ensures places { (y : Tally) → (request {A = A}).spelled value.now bytes.now y
            → RequestIn value.now result.places bytes.now y }
    {
        RequestFindings {
            alloc,
            request: value,
            places: CertificationRequestFields::of(value, bytes),
            left: &Rule::ALL,
        }
    }

    /// The next finding; `None` where none is left. Takes memory as `is_broken_by_request` does.
    ///
    /// # Errors
    /// `AllocError`, where memory is refused. The findings are then as they were.
    pub fn next(&mut self) -> Result<Option<Finding>, AllocError>
        ensures told { IfOk result (λ found. TellsOfRequest self.old self.new found) }
        ensures kept { OnErr result (self.new ≡ self.old) }
    {
        let left = self.left;
        let Some(index) = first_broken_by_request(self.alloc, left, self.request)? else {
            self.left = &[];
            return Ok(None);
        };
        let (_, rest) = left.split_at(index + 1);
        self.left = rest;
        let rule = left[index];
        Ok(Some(Finding {
            rule,
            at: place_in_request(rule.part(), &self.places),
        }))
    }
}
