//! What the summary of a report says of extensions that the port keeps as octets: where the status of a certificate is asked
//! for, where its issuer's certificates and revocation lists are, and under which policies it was issued.

use picky_asn1_x509::{Extension, ExtensionView, GeneralNames};
use std::alloc::Allocator;
use std::fmt::{self, Display, Write};
use x509_der::{ObjectIdentifier, ReadError};
use x509_distribution_points::{DistributionPoint, DistributionPointName};
use x509_further_extensions::{Further, FurtherKind, read_further};
use x509_more_extensions::AccessDescription;
use x509_policies::PolicyInformation;
use x509_report_fields::name::AddressLine;
use x509_report_parts::Identifiers;
use x509_report_parts::text_sink::Named;

/// The content of `id-ad-ocsp`, 1.3.6.1.5.5.7.48.1 (RFC 5280, 4.2.2.1).
const OCSP: &[u8] = &[0x2b, 6, 1, 5, 5, 7, 48, 1];
/// The content of `id-ad-caIssuers`, 1.3.6.1.5.5.7.48.2.
const ISSUERS: &[u8] = &[0x2b, 6, 1, 5, 5, 7, 48, 2];

/// A line of a summary with words that have commas between them; none where there are no words.
#[derive(Drop)]
struct Line<'w, W: Write> {
    out: &'w mut W,
    /// What stands before the first.
    title: &'static str,
    has_begun: bool,
}

impl<'w, W: Write> Line<'w, W> {
    /// A line without words.
    fn new(out: &'w mut W, title: &'static str) -> Self {
        Line {
            out,
            title,
            has_begun: false,
        }
    }

    /// One more word.
    fn add<T: Display>(&mut self, word: &T) -> fmt::Result {
        let before = if self.has_begun { ", " } else { self.title };
        self.has_begun = true;
        write!(self.out, "{before}{word}")
    }

    /// Ends the line.
    fn finish(&mut self) -> fmt::Result {
        match self.has_begun {
            true => self.out.write_str("\n"),
            false => Ok(()),
        }
    }
}

/// Writes the lines that tell the most important of extensions, each behind two spaces and a word in twelve columns: `OCSP`,
/// `CA issuers`, `CRL` and `policies`, where they are there.
///
/// # Errors
/// What the writer fails with, also where memory for an extension is refused.
pub fn write_services<A: Allocator + Copy, W: Write>(
    out: &mut W,
    extensions: &[Extension<A>],
) -> fmt::Result {
    for extension in extensions {
        if let ExtensionView::Generic(octets) = extension.extn_value() {
            let alloc = *octets.0.allocator();
            write_extension(out, alloc, &extension.extn_id().0, octets.0.as_slice())?;
        }
    }
    Ok(())
}

/// Whether a summary tells of a kind of extension.
fn is_told(kind: FurtherKind) -> bool {
    matches!(
        kind,
        FurtherKind::AuthorityInfoAccess
            | FurtherKind::CrlDistributionPoints
            | FurtherKind::CertificatePolicies
    )
}

/// Writes the lines of an extension, if it has any, as `write_services` does.
///
/// # Errors
/// What the writer fails with, also where memory for the extension is refused.
pub fn write_extension<A: Allocator + Copy, W: Write>(
    out: &mut W,
    alloc: A,
    identifier: &ObjectIdentifier<A>,
    octets: &[u8],
) -> fmt::Result {
    let kind = match FurtherKind::of(identifier) {
        Some(kind) if is_told(kind) => kind,
        _ => return Ok(()),
    };
    match read_further(alloc, kind, octets) {
        Ok((value, _deviations)) => {
            let written = write_value(out, &value);
            drop(value);
            written
        }
        Err(refused) if refused.error == ReadError::OutOfMemory => Err(fmt::Error),
        Err(_malformed) => Ok(()),
    }
}

/// Writes the lines of what was read.
fn write_value<A: Allocator, W: Write>(out: &mut W, value: &Further<A>) -> fmt::Result {
    match value {
        Further::AuthorityInfoAccess(services) => {
            write_locations(out, "  OCSP        ", OCSP, services.0.as_slice())?;
            write_locations(out, "  CA issuers  ", ISSUERS, services.0.as_slice())
        }
        Further::CrlDistributionPoints(points) => write_points(out, points.0.as_slice()),
        Further::CertificatePolicies(policies) => write_policies(out, policies.0.as_slice()),
        _ => Ok(()),
    }
}

/// Writes where services of one kind are found.
fn write_locations<A: Allocator, W: Write>(
    out: &mut W,
    title: &'static str,
    method: &[u8],
    services: &[AccessDescription<A>],
) -> fmt::Result {
    let mut line = Line::new(out, title);
    for service in services {
        if service.access_method.0.content() == method {
            line.add(&AddressLine(&service.access_location))?;
        }
    }
    line.finish()
}

/// Writes where revocation lists are found.
fn write_points<A: Allocator, W: Write>(
    out: &mut W,
    points: &[DistributionPoint<A>],
) -> fmt::Result {
    let mut line = Line::new(out, "  CRL         ");
    for point in points {
        if let Some(DistributionPointName::FullName(names)) = &point.distribution_point {
            add_names(&mut line, names)?;
        }
    }
    line.finish()
}

/// Adds names to a line.
fn add_names<A: Allocator, W: Write>(
    line: &mut Line<'_, W>,
    names: &GeneralNames<A>,
) -> fmt::Result {
    for name in &names.0 {
        line.add(&AddressLine(name))?;
    }
    Ok(())
}

/// Writes the policies, by their names where they have one.
fn write_policies<A: Allocator, W: Write>(
    out: &mut W,
    policies: &[PolicyInformation<A>],
) -> fmt::Result {
    let mut line = Line::new(out, "  policies    ");
    for policy in policies {
        let identifier = policy.policy_identifier.0.content();
        line.add(&Named(identifier, Identifiers::Named))?;
    }
    line.finish()
}
