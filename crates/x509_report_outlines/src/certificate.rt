//! Certificates.

use crate::algorithm::{algorithm, write_name, write_unread};
use crate::extension::{extensions, write_extensions, write_names};
use crate::input::first_at;
use crate::key::{Keyholder, public_key, write_key};
use crate::name::{NameText, name};
use std::alloc::Allocator;
use std::fmt::{self, Write};
use x509_der::BitStringAsn1;
use x509_outline::{CertificateOutline, PublicKeyOutline, TbsCertificateOutline};
use x509_report::parts::{moment_of, validity, version_word};
use x509_report::{Column, Reported};
use x509_report_fields::key::bits;
use x509_report_fields::number::NumberLine;
use x509_report_further::Limited;
use x509_report_parts::values::{Hex, Stamp};
use x509_report_parts::{Cursor, Element, Label, Moment, Secrets, Shape, Span, Value};

/// A certificate of which the frame was read from some bytes, to be reported.
#[derive(Drop)]
pub struct CertificateReport<'a, A: Allocator> {
    /// Where memory is asked for.
    pub alloc: A,
    /// The bytes.
    pub bytes: &'a [u8],
    /// What was read.
    pub value: &'a CertificateOutline<A>,
}

/// Where the fields stand that are told of beside the tree.
#[derive(Clone, Copy, Drop)]
struct Places<'a> {
    /// What is signed.
    tbs: Element<'a>,
    /// The public key.
    key: Element<'a>,
    /// The algorithm of the signature.
    algorithm: Element<'a>,
}

/// Where they stand in a certificate.
fn places_of(bytes: &[u8]) -> Places<'_> {
    let mut outer = first_at(bytes).inside;
    let tbs = outer.next();
    let mut fields = tbs.inside;
    let _version = fields.next_if(0xa0);
    let _serial = fields.next();
    let _signature = fields.next();
    let _issuer = fields.next();
    let _validity = fields.next();
    let _subject = fields.next();
    let key = fields.next();
    Places {
        tbs,
        key,
        algorithm: outer.next(),
    }
}

/// Tells the fields that each certificate has, which stand one behind another.
fn head<A: Allocator + Copy, S: Limited>(
    sink: &mut S,
    alloc: A,
    bytes: &[u8],
    fields: &mut Cursor<'_>,
    value: &TbsCertificateOutline<A>,
) -> Result<(), S::Error> {
    let serial = Value::Integer(value.serial_number.as_bytes());
    sink.field(Label::Field("serialNumber"), fields.next().span, serial)?;
    algorithm(
        sink,
        alloc,
        bytes,
        "signature",
        fields.next(),
        &value.signature,
    )?;
    name(sink, "issuer", fields.next(), &value.issuer)?;
    validity(sink, fields.next(), &value.validity)?;
    name(sink, "subject", fields.next(), &value.subject)?;
    let key = &value.subject_public_key_info;
    public_key(
        sink,
        alloc,
        bytes,
        "subjectPublicKeyInfo",
        fields.next(),
        key,
    )
}

/// Tells a unique identifier, where there is one.
fn unique_id<A: Allocator, S: Limited>(
    sink: &mut S,
    field: &'static str,
    at: Option<Element<'_>>,
    value: &Option<BitStringAsn1<A>>,
) -> Result<(), S::Error> {
    match (at, value) {
        (Some(at), Some(value)) => sink.field(Label::Field(field), at.span, bits(&value.0)),
        _ => Ok(()),
    }
}

/// Tells the fields that a certificate may lack.
fn tail<A: Allocator + Copy, S: Limited>(
    sink: &mut S,
    alloc: A,
    bytes: &[u8],
    fields: &mut Cursor<'_>,
    value: &TbsCertificateOutline<A>,
) -> Result<(), S::Error> {
    let issuer = fields.next_if(0x81);
    unique_id(sink, "issuerUniqueID", issuer, &value.issuer_unique_id)?;
    let subject = fields.next_if(0x82);
    unique_id(sink, "subjectUniqueID", subject, &value.subject_unique_id)?;
    match fields.next_if(0xa3) {
        Some(at) => {
            let mut inside = at.inside;
            extensions(
                sink,
                alloc,
                bytes,
                "extensions",
                inside.next(),
                &value.extensions,
            )
        }
        None => Ok(()),
    }
}

/// Tells what is signed.
fn tbs_certificate<A: Allocator + Copy, S: Limited>(
    sink: &mut S,
    alloc: A,
    bytes: &[u8],
    at: Element<'_>,
    value: &TbsCertificateOutline<A>,
) -> Result<(), S::Error> {
    let mut fields = at.inside;
    sink.begin(Label::Field("tbsCertificate"), at.span, Shape::Fields)?;
    if let Some(at) = fields.next_if(0xa0) {
        let word = Value::Word(version_word(value.version));
        sink.field(Label::Field("version"), at.span, word)?;
    }
    head(sink, alloc, bytes, &mut fields, value)?;
    tail(sink, alloc, bytes, &mut fields, value)?;
    sink.end()
}

/// Writes who the subject and the issuer are.
fn write_parties<A: Allocator, W: Write>(
    out: &mut W,
    value: &TbsCertificateOutline<A>,
) -> fmt::Result {
    writeln!(out, "  subject     {}", NameText(&value.subject))?;
    if value.issuer == value.subject {
        return writeln!(out, "  issuer      the same");
    }
    writeln!(out, "  issuer      {}", NameText(&value.issuer))
}

/// Writes what a column tells of a name, a number or a time.
fn write_column<A: Allocator, W: Write>(
    out: &mut W,
    value: &TbsCertificateOutline<A>,
    column: Column,
) -> fmt::Result {
    match column {
        Column::Subject => write!(out, "{}", NameText(&value.subject)),
        Column::Issuer => write!(out, "{}", NameText(&value.issuer)),
        Column::SerialNumber => write!(out, "{}", Hex(value.serial_number.as_bytes())),
        Column::NotBefore => write!(out, "{}", Stamp(moment_of(&value.validity.not_before))),
        Column::NotAfter => write!(out, "{}", Stamp(moment_of(&value.validity.not_after))),
        _ => Ok(()),
    }
}

impl<A: Allocator + Copy> CertificateReport<'_, A> {
    /// Writes what is said of the public key.
    fn write_key<W: Write>(&self, out: &mut W) -> fmt::Result {
        let at = places_of(self.bytes).key;
        let key = &self.value.tbs_certificate.subject_public_key_info;
        write_key(out, self.alloc, self.bytes, at, key)
    }
}

impl<A: Allocator + Copy> Reported for CertificateReport<'_, A> {
    const TITLE: &'static str = "Certificate outline";

    fn tell<S: Limited>(
        &self,
        sink: &mut S,
        bytes: &[u8],
        _secrets: Secrets,
    ) -> Result<(), S::Error> {
        let alloc = self.alloc;
        let value = self.value;
        let at = first_at(bytes);
        let mut fields = at.inside;
        sink.begin(Label::Field("Certificate"), at.span, Shape::Fields)?;
        tbs_certificate(sink, alloc, bytes, fields.next(), &value.tbs_certificate)?;
        let kind = &value.signature_algorithm;
        algorithm(
            sink,
            alloc,
            bytes,
            "signatureAlgorithm",
            fields.next(),
            kind,
        )?;
        let signature = bits(&value.signature_value.0);
        sink.field(
            Label::Field("signatureValue"),
            fields.next().span,
            signature,
        )?;
        sink.end()
    }

    fn signed(&self, bytes: &[u8]) -> Option<Span> {
        Some(places_of(bytes).tbs.span)
    }

    fn summary<W: Write>(&self, out: &mut W) -> fmt::Result {
        let fields = &self.value.tbs_certificate;
        write_parties(out, fields)?;
        let serial = NumberLine(fields.serial_number.as_bytes());
        writeln!(out, "  serial      {serial}")?;
        let before = Stamp(moment_of(&fields.validity.not_before));
        let after = Stamp(moment_of(&fields.validity.not_after));
        writeln!(out, "  valid       {before} to {after}")?;
        write_extensions(out, self.alloc, &fields.extensions)?;
        out.write_str("  key         ")?;
        self.write_key(out)?;
        out.write_str("\n")?;
        let at = places_of(self.bytes).algorithm;
        write_unread(
            out,
            self.alloc,
            self.bytes,
            at,
            &self.value.signature_algorithm,
        )
    }

    fn column<W: Write>(&self, column: Column, out: &mut W) -> fmt::Result {
        let fields = &self.value.tbs_certificate;
        match column {
            Column::Names => write_names(out, self.alloc, &fields.extensions, "", ""),
            Column::Key => self.write_key(out),
            Column::SignatureAlgorithm => {
                let at = places_of(self.bytes).algorithm;
                write_name(
                    out,
                    self.alloc,
                    self.bytes,
                    at,
                    &self.value.signature_algorithm,
                )
            }
            _ => write_column(out, fields, column),
        }
    }

    fn brief<W: Write>(&self, out: &mut W) -> fmt::Result {
        let fields = &self.value.tbs_certificate;
        let after = Stamp(moment_of(&fields.validity.not_after));
        write!(out, "{}; until {after}; ", NameText(&fields.subject))?;
        self.write_key(out)
    }

    fn validity(&self) -> Option<(Moment, Moment)> {
        let validity = &self.value.tbs_certificate.validity;
        Some((
            moment_of(&validity.not_before),
            moment_of(&validity.not_after),
        ))
    }
}

impl<A: Allocator> Keyholder<A> for CertificateReport<'_, A> {
    fn public_key(&self) -> Option<&PublicKeyOutline<A>> {
        Some(&self.value.tbs_certificate.subject_public_key_info)
    }
}
