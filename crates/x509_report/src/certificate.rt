//! Certificates.

use crate::extension::extensions;
use crate::places::{field_at, place, whole};
use crate::reported::Reported;
use picky_asn1_x509::{
    BitString, Certificate, Extension, ExtensionView, GeneralNames, TbsCertificate, Time, Validity,
    Version,
};
use std::alloc::Allocator;
use std::fmt::{self, Write};
use x509_fields::{CertificateFields, Span as FieldSpan, TbsCertificateFields};
use x509_report_fields::algorithm::{algorithm, write_algorithm};
use x509_report_fields::column::Column;
use x509_report_fields::key::{bits, public_key, public_line};
use x509_report_fields::name::{NameLine, NamesLine, name};
use x509_report_fields::number::NumberLine;
use x509_report_further::Limited;
use x509_report_further::summary::write_services;
use x509_report_parts::values::{Hex, Stamp};
use x509_report_parts::{Element, Label, Moment, Secrets, Shape, Span, Value};

/// The second that a time says.
pub fn moment_of(time: &Time) -> Moment {
    match time {
        Time::Utc(time) => Moment {
            date: (time.0.year(), time.0.month(), time.0.day()),
            time: (time.0.hour(), time.0.minute(), time.0.second()),
        },
        Time::Generalized(time) => Moment {
            date: (time.0.year(), time.0.month(), time.0.day()),
            time: (time.0.hour(), time.0.minute(), time.0.second()),
        },
    }
}

/// From when until when.
pub(crate) fn moments_of(validity: &Validity) -> (Moment, Moment) {
    (
        moment_of(&validity.not_before),
        moment_of(&validity.not_after),
    )
}

/// The value of a time.
pub fn time_of(time: &Time) -> Value<'_> {
    match time {
        Time::Utc(_) => Value::UtcTime(moment_of(time)),
        Time::Generalized(_) => Value::Time(moment_of(time)),
    }
}

/// The word for a version (RFC 5280, 4.1.2.1).
pub fn version_word(version: Version) -> &'static str {
    match version {
        Version::V1 => "v1",
        Version::V2 => "v2",
        Version::V3 => "v3",
    }
}

/// Tells the version, where it is encoded.
fn version<S: Limited>(
    sink: &mut S,
    at: Option<FieldSpan>,
    version: Version,
) -> Result<(), S::Error> {
    let word = Value::Word(version_word(version));
    match at {
        Some(at) => sink.field(Label::Field("version"), place(at), word),
        None => Ok(()),
    }
}

/// Tells from when and until when a certificate is valid.
///
/// # Errors
/// What the sink fails with.
pub fn validity<S: Limited>(
    sink: &mut S,
    at: Element<'_>,
    value: &Validity,
) -> Result<(), S::Error> {
    let mut fields = at.inside;
    sink.begin(Label::Field("validity"), at.span, Shape::Fields)?;
    let before = time_of(&value.not_before);
    sink.field(Label::Field("notBefore"), fields.next().span, before)?;
    let after = time_of(&value.not_after);
    sink.field(Label::Field("notAfter"), fields.next().span, after)?;
    sink.end()
}

/// Tells a unique identifier, where there is one.
fn unique_id<A: Allocator, S: Limited>(
    sink: &mut S,
    field: &'static str,
    at: Option<FieldSpan>,
    value: &Option<BitString<A>>,
) -> Result<(), S::Error> {
    match (at, value) {
        (Some(at), Some(value)) => sink.field(Label::Field(field), place(at), bits(value)),
        _ => Ok(()),
    }
}

/// Tells the fields that each certificate has.
fn head<A: Allocator, S: Limited>(
    sink: &mut S,
    bytes: &[u8],
    at: &TbsCertificateFields,
    value: &TbsCertificate<A>,
) -> Result<(), S::Error> {
    let span = place(at.serial_number);
    let serial = Value::Integer(value.serial_number.as_bytes());
    sink.field(Label::Field("serialNumber"), span, serial)?;
    let signature = field_at(bytes, at.signature);
    algorithm(sink, "signature", signature, &value.signature)?;
    name(sink, "issuer", field_at(bytes, at.issuer), &value.issuer)?;
    validity(sink, field_at(bytes, at.validity), &value.validity)?;
    name(sink, "subject", field_at(bytes, at.subject), &value.subject)?;
    let key = &value.subject_public_key_info;
    let at = field_at(bytes, at.subject_public_key_info);
    public_key(sink, "subjectPublicKeyInfo", at, key)
}

/// Tells the fields that a certificate may lack.
fn tail<A: Allocator + Copy, S: Limited>(
    sink: &mut S,
    bytes: &[u8],
    at: &TbsCertificateFields,
    value: &TbsCertificate<A>,
) -> Result<(), S::Error> {
    let issuer = at.issuer_unique_id;
    unique_id(sink, "issuerUniqueID", issuer, &value.issuer_unique_id)?;
    let subject = at.subject_unique_id;
    unique_id(sink, "subjectUniqueID", subject, &value.subject_unique_id)?;
    match at.extensions {
        Some(at) => {
            let mut inside = field_at(bytes, at).inside;
            extensions(sink, "extensions", bytes, inside.next(), &value.extensions)
        }
        None => Ok(()),
    }
}

/// Tells the fields of what is signed.
pub(crate) fn tbs_fields<A: Allocator + Copy, S: Limited>(
    sink: &mut S,
    bytes: &[u8],
    at: &TbsCertificateFields,
    value: &TbsCertificate<A>,
) -> Result<(), S::Error> {
    version(sink, at.version, value.version)?;
    head(sink, bytes, at, value)?;
    tail(sink, bytes, at, value)?;
    sink.end()
}

/// The alternative names of the subject, by the first extension that has them.
pub(crate) fn alternative_names<A: Allocator>(
    extensions: &[Extension<A>],
) -> Option<&GeneralNames<A>> {
    for extension in extensions {
        if let ExtensionView::SubjectAltName(names) = extension.extn_value() {
            return Some(names);
        }
    }
    None
}

/// Writes who the subject and the issuer are.
fn write_parties<A: Allocator, W: Write>(out: &mut W, value: &TbsCertificate<A>) -> fmt::Result {
    writeln!(out, "  subject     {}", NameLine(&value.subject))?;
    if value.issuer == value.subject {
        return writeln!(out, "  issuer      the same");
    }
    writeln!(out, "  issuer      {}", NameLine(&value.issuer))
}

/// Writes the lines that say the most important.
pub(crate) fn write_summary<A: Allocator + Copy, W: Write>(
    out: &mut W,
    value: &TbsCertificate<A>,
) -> fmt::Result {
    write_parties(out, value)?;
    let serial = NumberLine(value.serial_number.as_bytes());
    writeln!(out, "  serial      {serial}")?;
    let before = Stamp(moment_of(&value.validity.not_before));
    let after = Stamp(moment_of(&value.validity.not_after));
    writeln!(out, "  valid       {before} to {after}")?;
    let extensions = value.extensions.0.0.as_slice();
    if let Some(names) = alternative_names(extensions) {
        writeln!(out, "  names       {}", NamesLine(names))?;
    }
    write_services(out, extensions)?;
    let key = public_line(&value.subject_public_key_info);
    writeln!(out, "  key         {key}")
}

/// Writes the most important on one line.
pub(crate) fn write_brief<A: Allocator, W: Write>(
    out: &mut W,
    value: &TbsCertificate<A>,
) -> fmt::Result {
    let after = Stamp(moment_of(&value.validity.not_after));
    let key = public_line(&value.subject_public_key_info);
    write!(out, "{}; until {after}; {key}", NameLine(&value.subject))
}

/// Writes what a column tells.
pub(crate) fn write_column<A: Allocator, W: Write>(
    out: &mut W,
    value: &TbsCertificate<A>,
    column: Column,
) -> fmt::Result {
    match column {
        Column::Subject => write!(out, "{}", NameLine(&value.subject)),
        Column::Issuer => write!(out, "{}", NameLine(&value.issuer)),
        Column::SerialNumber => write!(out, "{}", Hex(value.serial_number.as_bytes())),
        Column::NotBefore => write!(out, "{}", Stamp(moment_of(&value.validity.not_before))),
        Column::NotAfter => write!(out, "{}", Stamp(moment_of(&value.validity.not_after))),
        Column::Key => write!(out, "{}", public_line(&value.subject_public_key_info)),
        Column::Names => match alternative_names(value.extensions.0.0.as_slice()) {
            Some(names) => write!(out, "{}", NamesLine(names)),
            None => Ok(()),
        },
        Column::SignatureAlgorithm => write_algorithm(out, &value.signature),
        _ => Ok(()),
    }
}

impl<A: Allocator + Copy> Reported for Certificate<A> {
    const TITLE: &'static str = "Certificate";

    fn tell<S: Limited>(
        &self,
        sink: &mut S,
        bytes: &[u8],
        _secrets: Secrets,
    ) -> Result<(), S::Error> {
        let at = CertificateFields::of(self, bytes);
        sink.begin(Label::Field("Certificate"), whole(bytes), Shape::Fields)?;
        let span = place(at.tbs_certificate);
        sink.begin(Label::Field("tbsCertificate"), span, Shape::Fields)?;
        tbs_fields(sink, bytes, &at.fields, &self.tbs_certificate)?;
        let field = field_at(bytes, at.signature_algorithm);
        algorithm(sink, "signatureAlgorithm", field, &self.signature_algorithm)?;
        let span = place(at.signature_value);
        let signature = bits(&self.signature_value.0);
        sink.field(Label::Field("signatureValue"), span, signature)?;
        sink.end()
    }

    fn signed(&self, bytes: &[u8]) -> Option<Span> {
        Some(place(CertificateFields::of(self, bytes).tbs_certificate))
    }

    fn summary<W: Write>(&self, out: &mut W) -> fmt::Result {
        write_summary(out, &self.tbs_certificate)
    }

    fn column<W: Write>(&self, column: Column, out: &mut W) -> fmt::Result {
        match column {
            Column::SignatureAlgorithm => write_algorithm(out, &self.signature_algorithm),
            _ => write_column(out, &self.tbs_certificate, column),
        }
    }

    fn brief<W: Write>(&self, out: &mut W) -> fmt::Result {
        write_brief(out, &self.tbs_certificate)
    }

    fn validity(&self) -> Option<(Moment, Moment)> {
        Some(moments_of(&self.tbs_certificate.validity))
    }
}
