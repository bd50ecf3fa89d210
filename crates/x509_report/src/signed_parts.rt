//! What is signed of certificates and requests, by itself.

use crate::certificate::{self, moments_of, tbs_fields};
use crate::places::whole;
use crate::reported::Reported;
use crate::request::{self, info_fields};
use picky_asn1_x509::{CertificationRequestInfo, TbsCertificate};
use std::alloc::Allocator;
use std::fmt::{self, Write};
use x509_fields::{CertificationRequestInfoFields, Span as FieldSpan, TbsCertificateFields};
use x509_report_fields::column::Column;
use x509_report_further::Limited;
use x509_report_parts::{Cursor, Element, Label, Moment, Secrets, Shape};

/// Where an element stands.
fn at(element: Element<'_>) -> FieldSpan {
    FieldSpan {
        start: element.span.start,
        end: element.span.end,
    }
}

/// Where the element with a tag stands, which is next, or not there.
fn at_if(cursor: &mut Cursor<'_>, tag: u8) -> Option<FieldSpan> {
    match cursor.next_if(tag) {
        Some(element) => Some(at(element)),
        None => None,
    }
}

/// Where the fields of what is signed of a certificate stand (RFC 5280, 4.1.2).
fn tbs_places(bytes: &[u8]) -> TbsCertificateFields {
    let mut cursor = Cursor::new(bytes).next().inside;
    let version = at_if(&mut cursor, 0xa0);
    let serial_number = at(cursor.next());
    let signature = at(cursor.next());
    let issuer = at(cursor.next());
    let validity = at(cursor.next());
    let subject = at(cursor.next());
    let subject_public_key_info = at(cursor.next());
    let issuer_unique_id = at_if(&mut cursor, 0x81);
    let subject_unique_id = at_if(&mut cursor, 0x82);
    let extensions = at_if(&mut cursor, 0xa3);
    TbsCertificateFields {
        version,
        serial_number,
        signature,
        issuer,
        validity,
        subject,
        subject_public_key_info,
        issuer_unique_id,
        subject_unique_id,
        extensions,
    }
}

/// Where the fields of what is signed of a request stand (RFC 2986, 4.1).
fn info_places(bytes: &[u8]) -> CertificationRequestInfoFields {
    let mut cursor = Cursor::new(bytes).next().inside;
    let version = at(cursor.next());
    let subject = at(cursor.next());
    let subject_public_key_info = at(cursor.next());
    let attributes = at(cursor.next());
    CertificationRequestInfoFields {
        version,
        subject,
        subject_public_key_info,
        attributes,
    }
}

impl<A: Allocator + Copy> Reported for TbsCertificate<A> {
    const TITLE: &'static str = "To-be-signed certificate";

    fn tell<S: Limited>(
        &self,
        sink: &mut S,
        bytes: &[u8],
        _secrets: Secrets,
    ) -> Result<(), S::Error> {
        sink.begin(Label::Field("TBSCertificate"), whole(bytes), Shape::Fields)?;
        tbs_fields(sink, bytes, &tbs_places(bytes), self)
    }

    fn summary<W: Write>(&self, out: &mut W) -> fmt::Result {
        certificate::write_summary(out, self)
    }

    fn column<W: Write>(&self, column: Column, out: &mut W) -> fmt::Result {
        certificate::write_column(out, self, column)
    }

    fn brief<W: Write>(&self, out: &mut W) -> fmt::Result {
        certificate::write_brief(out, self)
    }

    fn validity(&self) -> Option<(Moment, Moment)> {
        Some(moments_of(&self.validity))
    }
}

impl<A: Allocator + Copy> Reported for CertificationRequestInfo<A> {
    const TITLE: &'static str = "Certification request information";

    fn tell<S: Limited>(
        &self,
        sink: &mut S,
        bytes: &[u8],
        _secrets: Secrets,
    ) -> Result<(), S::Error> {
        let label = Label::Field("CertificationRequestInfo");
        sink.begin(label, whole(bytes), Shape::Fields)?;
        info_fields(sink, bytes, &info_places(bytes), self)
    }

    fn summary<W: Write>(&self, out: &mut W) -> fmt::Result {
        request::write_summary(out, self)
    }

    fn column<W: Write>(&self, column: Column, out: &mut W) -> fmt::Result {
        request::write_column(out, self, column)
    }

    fn brief<W: Write>(&self, out: &mut W) -> fmt::Result {
        request::write_brief(out, self)
    }
}
