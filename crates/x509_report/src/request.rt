//! Certification requests.

use crate::attribute::{attributes, requested_names, write_requested};
use crate::places::{field_at, place, whole};
use crate::reported::Reported;
use picky_asn1_x509::{CertificationRequest, CertificationRequestInfo};
use std::alloc::Allocator;
use std::fmt::{self, Write};
use x509_fields::{CertificationRequestFields, CertificationRequestInfoFields};
use x509_report_fields::algorithm::{algorithm, write_algorithm};
use x509_report_fields::column::Column;
use x509_report_fields::key::{bits, public_key, public_line};
use x509_report_fields::name::{NameLine, NamesLine, name};
use x509_report_further::Limited;
use x509_report_parts::{Label, Secrets, Shape, Span, Value};

/// The version of a request: `v1` is 0 (RFC 2986, 4.1).
fn version_of(version: u8) -> Value<'static> {
    match version {
        0 => Value::Word("v1"),
        _ => Value::Number(u64::from(version)),
    }
}

/// Tells the fields of what is signed.
pub(crate) fn info_fields<A: Allocator + Copy, S: Limited>(
    sink: &mut S,
    bytes: &[u8],
    at: &CertificationRequestInfoFields,
    value: &CertificationRequestInfo<A>,
) -> Result<(), S::Error> {
    let version = version_of(value.version);
    sink.field(Label::Field("version"), place(at.version), version)?;
    name(sink, "subject", field_at(bytes, at.subject), &value.subject)?;
    let key = field_at(bytes, at.subject_public_key_info);
    public_key(sink, "subjectPKInfo", key, &value.subject_public_key_info)?;
    let list = field_at(bytes, at.attributes);
    attributes(sink, bytes, list, &value.attributes.0)?;
    sink.end()
}

/// Writes the lines that say the most important.
pub(crate) fn write_summary<A: Allocator + Copy, W: Write>(
    out: &mut W,
    info: &CertificationRequestInfo<A>,
) -> fmt::Result {
    writeln!(out, "  subject     {}", NameLine(&info.subject))?;
    if let Some(names) = requested_names(&info.attributes.0) {
        writeln!(out, "  names       {}", NamesLine(names))?;
    }
    write_requested(out, &info.attributes.0)?;
    let key = public_line(&info.subject_public_key_info);
    writeln!(out, "  key         {key}")
}

/// Writes what a column tells.
pub(crate) fn write_column<A: Allocator, W: Write>(
    out: &mut W,
    info: &CertificationRequestInfo<A>,
    column: Column,
) -> fmt::Result {
    match column {
        Column::Subject => write!(out, "{}", NameLine(&info.subject)),
        Column::Key => write!(out, "{}", public_line(&info.subject_public_key_info)),
        Column::Names => match requested_names(&info.attributes.0) {
            Some(names) => write!(out, "{}", NamesLine(names)),
            None => Ok(()),
        },
        _ => Ok(()),
    }
}

/// Writes the most important on one line.
pub(crate) fn write_brief<A: Allocator, W: Write>(
    out: &mut W,
    info: &CertificationRequestInfo<A>,
) -> fmt::Result {
    let key = public_line(&info.subject_public_key_info);
    write!(out, "{}; {key}", NameLine(&info.subject))
}

impl<A: Allocator + Copy> Reported for CertificationRequest<A> {
    const TITLE: &'static str = "Certification request";

    fn tell<S: Limited>(
        &self,
        sink: &mut S,
        bytes: &[u8],
        _secrets: Secrets,
    ) -> Result<(), S::Error> {
        let at = CertificationRequestFields::of(self, bytes);
        let label = Label::Field("CertificationRequest");
        sink.begin(label, whole(bytes), Shape::Fields)?;
        let label = Label::Field("certificationRequestInfo");
        sink.begin(label, place(at.certification_request_info), Shape::Fields)?;
        info_fields(sink, bytes, &at.fields, &self.certification_request_info)?;
        let field = field_at(bytes, at.signature_algorithm);
        algorithm(sink, "signatureAlgorithm", field, &self.signature_algorithm)?;
        let signature = bits(&self.signature.0);
        sink.field(Label::Field("signature"), place(at.signature), signature)?;
        sink.end()
    }

    fn signed(&self, bytes: &[u8]) -> Option<Span> {
        let at = CertificationRequestFields::of(self, bytes);
        Some(place(at.certification_request_info))
    }

    fn summary<W: Write>(&self, out: &mut W) -> fmt::Result {
        write_summary(out, &self.certification_request_info)
    }

    fn column<W: Write>(&self, column: Column, out: &mut W) -> fmt::Result {
        match column {
            Column::SignatureAlgorithm => write_algorithm(out, &self.signature_algorithm),
            _ => write_column(out, &self.certification_request_info, column),
        }
    }

    fn brief<W: Write>(&self, out: &mut W) -> fmt::Result {
        write_brief(out, &self.certification_request_info)
    }
}
