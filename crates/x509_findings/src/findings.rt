//! The findings of a certificate, one after another.

ghost use Rattle.std.specs.Prelude.{◌≡◌, IfOk, OnErr};
ghost use Rattle.x509_der.specs.Tally.{Tally};
ghost use Rattle.picky_asn1_x509.specs.Certificates.{certificate};
ghost use Rattle.x509_fields.specs.Certificates.{CertificateIn};
ghost use Rattle.x509_rules.specs.Rules.{all_rules};
ghost use Rattle.x509_findings.specs.Findings.{Tells};

use crate::broken::first_broken;
use crate::place::place_of;
use picky_asn1_x509::Certificate;
use std::alloc::{AllocError, Allocator, Global};
use std::marker::Model;
use x509_fields::{CertificateFields, Span};
use x509_rules::Rule;

/// A rule that a certificate breaks, and where.
#[derive(Clone, Copy, Debug, PartialEq, Eq)]
pub struct Finding {
    /// The rule.
    pub rule: Rule,
    /// The part of the certificate that the rule is about.
    pub at: Span,
}

/// The findings of a certificate that are left. Contracts see the certificate, the places of its fields, and the rules that are
/// left to be asked.
#[derive(Drop)]
pub struct Findings<'a, A: Allocator = Global> {
    alloc: A,
    certificate: &'a Certificate<A>,
    places: CertificateFields,
    left: &'static [Rule],
}

impl<'a, A: Allocator> Model for Findings<'a, A> {
    ghost use Rattle.x509_findings.specs.Findings.{Left};

    ghost Value = { Left A };

    ghost view = { λ f. record { certificate = f.certificate.now; places = f.places; rules = f.left.now } };
}

impl<'a, A: Allocator + Copy> Findings<'a, A> {
    /// All findings of a certificate, in the order of their places, with places in the bytes that it was read from. Takes no
    /// memory, but `next` does. Of bytes that don't encode the certificate the places say nothing.
    pub fn of(alloc: A, value: &'a Certificate<A>, bytes: &[u8]) -> Self
        ensures certificate { result.certificate ≡ value.now }
        ensures rules { result.rules ≡ all_rules }
        ensures places { (y : Tally) → (certificate {A = A}).spelled value.now bytes.now y
            → CertificateIn value.now result.places bytes.now y }
    {
        Findings {
            alloc,
            certificate: value,
            places: CertificateFields::of(value, bytes),
            left: &Rule::ALL,
        }
    }

    /// The next finding; `None` where none is left. Takes memory as `is_broken` does.
    ///
    /// # Errors
    /// `AllocError`, where memory is refused. The findings are then as they were.
    pub fn next(&mut self) -> Result<Option<Finding>, AllocError>
        ensures told { IfOk result (λ found. Tells self.old self.new found) }
        ensures kept { OnErr result (self.new ≡ self.old) }
    {
        let left = self.left;
        let Some(index) = first_broken(self.alloc, left, self.certificate)? else {
            self.left = &[];
            return Ok(None);
        };
        let (_, rest) = left.split_at(index + 1);
        self.left = rest;
        let rule = left[index];
        Ok(Some(Finding {
            rule,
            at: place_of(rule.part(), &self.places),
        }))
    }
}
