//! An inspector: what a certificate says, and its deviations, each with its place.

ghost use Rattle.std.specs.Prelude.{◌≡◌, IfOk, IfErr, MatchOption, None, Some};
ghost use Rattle.std.specs.Fmt.{WritesOnOk};
ghost use Rattle.picky_asn1_x509.specs.Calls.{Located, NoWhole};
ghost use Rattle.picky_asn1_x509.specs.Certificates.{certificate};
ghost use Rattle.picky_asn1_x509.specs.CommonNames.{first_common_name};
ghost use Rattle.picky_asn1_x509.specs.Extensions.{subject_name_arcs};
ghost use Rattle.picky_asn1_x509.specs.LookUps.{first_of, held_by};
ghost use Rattle.x509_callers.specs.AlternativeNames.{names_in};
ghost use Rattle.x509_callers.specs.Reports.{place_line, place_lines};

use picky_asn1_x509::{
    Certificate, DirectoryString, ExtensionView, GeneralName, GeneralNames, Place, ReadError, Time,
    Validity, read_located,
};
use std::alloc::Allocator;
use std::fmt::{self, Write};

/// Reads a certificate, and tells each deviation with its place, by start and then by kind.
///
/// # Errors
/// The bytes encode no certificate, or memory is refused.
pub fn located<A: Allocator + Copy>(
    alloc: A,
    bytes: &[u8],
) -> Result<(Certificate<A>, Vec<Place, A>), ReadError>
    ensures ok { IfOk result (λ r. Located (certificate {A = A}) bytes.now r.0 r.1.items) }
    ensures err { IfErr result (NoWhole (certificate {A = A}) bytes.now) }
{
    read_located(alloc, bytes)
}

/// The first common name of the subject. Takes no memory.
pub fn common_name<A: Allocator>(certificate: &Certificate<A>) -> Option<&DirectoryString<A>>
    ensures { MatchOption result
        (first_common_name certificate.now.tbs_certificate.subject ≡ None)
        (λ text. first_common_name certificate.now.tbs_certificate.subject ≡ Some text.now) }
{
    certificate.tbs_certificate.subject.find_common_name()
}

/// From when until when a certificate is valid. Takes no memory.
pub fn validity<A: Allocator>(certificate: &Certificate<A>) -> &Validity
    ensures { result.now ≡ certificate.now.tbs_certificate.validity }
{
    &certificate.tbs_certificate.validity
}

/// The alternative names of the subject (RFC 5280, 4.2.1.6): what the first extension holds that has the identifier
/// 2.5.29.17. Takes no memory.
pub fn alternative_names<A: Allocator>(certificate: &Certificate<A>) -> Option<&GeneralNames<A>>
    ensures { MatchOption result
        (held_by names_in (first_of subject_name_arcs certificate.now.tbs_certificate.extensions) ≡ None)
        (λ names. held_by names_in
        (first_of subject_name_arcs certificate.now.tbs_certificate.extensions) ≡ Some names.now) }
{
    let extension = certificate.find_extension(&[2, 5, 29, 17])?;
    match extension.extn_value() {
        ExtensionView::SubjectAltName(names) => Some(names),
        _ => None,
    }
}

/// Writes a time, as in `2019-10-17 17:41:28`.
fn write_time<W: Write>(f: &mut fmt::Formatter<W>, time: &Time) -> fmt::Result {
    let ((year, month, day), (hour, minute, second)) = match time {
        Time::Utc(time) => (
            (time.0.year(), time.0.month(), time.0.day()),
            (time.0.hour(), time.0.minute(), time.0.second()),
        ),
        Time::Generalized(time) => (
            (time.0.year(), time.0.month(), time.0.day()),
            (time.0.hour(), time.0.minute(), time.0.second()),
        ),
    };
    write!(f, "{year:04}-{month:02}-{day:02} ")?;
    write!(f, "{hour:02}:{minute:02}:{second:02}")
}

/// Writes from when until when a certificate is valid.
fn write_validity<W: Write>(f: &mut fmt::Formatter<W>, validity: &Validity) -> fmt::Result {
    write!(f, "valid: ")?;
    write_time(f, &validity.not_before)?;
    write!(f, " to ")?;
    write_time(f, &validity.not_after)?;
    writeln!(f)
}

/// Writes bytes in lower-case hexadecimal behind a `#`.
fn write_hex<W: Write>(f: &mut fmt::Formatter<W>, bytes: &[u8]) -> fmt::Result {
    write!(f, "#")?;
    for byte in bytes {
        write!(f, "{byte:02x}")?;
    }
    Ok(())
}

/// Writes an address of the internet protocol: one of four bytes with dots, and any other in hexadecimal.
fn write_address<W: Write>(f: &mut fmt::Formatter<W>, bytes: &[u8]) -> fmt::Result {
    match bytes {
        [first, second, third, fourth] => write!(f, "{first}.{second}.{third}.{fourth}"),
        _ => write_hex(f, bytes),
    }
}

/// A general name that prints its form and its text, of which nothing is escaped. Of a party, who named it isn't
/// printed.
#[derive(Drop)]
pub struct NameText<'a, A: Allocator>(pub &'a GeneralName<A>);

impl<A: Allocator> fmt::Display for NameText<'_, A> {
    fn fmt<W: Write>(&self, f: &mut fmt::Formatter<W>) -> fmt::Result {
        match self.0 {
            GeneralName::OtherName(name) => {
                write!(f, "other name: {}=", name.type_id.0)?;
                write_hex(f, name.value.as_bytes())
            }
            GeneralName::Rfc822Name(text) => write!(f, "mail: {text}"),
            GeneralName::DnsName(text) => write!(f, "host: {text}"),
            GeneralName::DirectoryName(name) => write!(f, "directory: {name}"),
            GeneralName::EdiPartyName(party) => write!(f, "party: {}", party.party_name),
            GeneralName::Uri(text) => write!(f, "uri: {text}"),
            GeneralName::IpAddress(address) => {
                write!(f, "address: ")?;
                write_address(f, address.0.as_slice())
            }
            GeneralName::RegisteredId(identifier) => write!(f, "identifier: {}", identifier.0),
        }
    }
}

/// A certificate that prints a line each for its subject, its validity and its alternative names.
#[derive(Drop)]
pub struct Description<'a, A: Allocator>(pub &'a Certificate<A>);

impl<A: Allocator> fmt::Display for Description<'_, A> {
    fn fmt<W: Write>(&self, f: &mut fmt::Formatter<W>) -> fmt::Result {
        let certificate = self.0;
        writeln!(f, "subject: {}", certificate.tbs_certificate.subject)?;
        write_validity(f, validity(certificate))?;
        if let Some(names) = alternative_names(certificate) {
            for name in &names.0 {
                writeln!(f, "{}", NameText(name))?;
            }
        }
        Ok(())
    }
}

/// Deviations that print a line each: the name, and the bytes that it covers.
#[derive(Clone, Copy)]
pub struct Report<'a>(pub &'a [Place]);

/// Writes the line of a deviation.
fn write_place<W: Write>(f: &mut fmt::Formatter<W>, place: &Place) -> fmt::Result
    ensures { WritesOnOk W.write_str_gives f.old result (place_line place.now) f.new }
{
    writeln!(f, "{}: bytes {}..{}", place.kind, place.start, place.end)
}

impl fmt::Display for Report<'_> {
    ghost output = { λ report. Some (place_lines report.0.now) };

    fn fmt<W: Write>(&self, f: &mut fmt::Formatter<W>) -> fmt::Result {
        for place in self.0 {
            write_place(f, place)?;
        }
        Ok(())
    }
}
