//! Certificate revocation lists.

use crate::algorithm::{algorithm, write_name, write_unread};
use crate::entry::{Entries, tell_entries, write_entries};
use crate::extension::extensions;
use crate::input::first_at;
use crate::key::Keyholder;
use crate::name::{NameText, name};
use std::alloc::Allocator;
use std::fmt::{self, Display, Write};
use x509_list_outlines::{CertificateListOutline, RevokedCertificateOutline, TbsCertListOutline};
use x509_outline::PublicKeyOutline;
use x509_report::parts::{moment_of, time_of, version_word};
use x509_report::{Column, Reported};
use x509_report_fields::key::bits;
use x509_report_further::Limited;
use x509_report_parts::values::Stamp;
use x509_report_parts::{Cursor, Element, Label, Moment, Secrets, Shape, Span, Value};

/// A revocation list of which the frame was read from some bytes, to be reported.
#[derive(Drop)]
pub struct ListReport<'a, A: Allocator> {
    /// Where memory is asked for.
    pub alloc: A,
    /// The bytes.
    pub bytes: &'a [u8],
    /// What was read.
    pub value: &'a CertificateListOutline<A>,
    /// Which entries are told.
    pub entries: Entries<'a>,
}

/// How many entries there are. (One may take a certificate back out of the list, or name one again.)
#[derive(Clone, Copy, Drop)]
struct EntryCount(usize);

impl Display for EntryCount {
    fn fmt<W: Write>(&self, f: &mut fmt::Formatter<W>) -> fmt::Result {
        match self.0 {
            1 => f.write_str("1 entry"),
            count => write!(f, "{count} entries"),
        }
    }
}

/// The entries of a list.
fn revoked<A: Allocator>(value: &TbsCertListOutline<A>) -> &[RevokedCertificateOutline<A>] {
    match &value.revoked_certificates {
        Some(list) => list.0.as_slice(),
        None => &[],
    }
}

/// The element with what is signed, and the one behind it, with the algorithm of the signature.
fn places_of(bytes: &[u8]) -> (Element<'_>, Element<'_>) {
    let mut outer = first_at(bytes).inside;
    let tbs = outer.next();
    (tbs, outer.next())
}

/// Tells the fields up to the dates.
fn head<A: Allocator + Copy, S: Limited>(
    sink: &mut S,
    alloc: A,
    bytes: &[u8],
    fields: &mut Cursor<'_>,
    value: &TbsCertListOutline<A>,
) -> Result<(), S::Error> {
    if let Some(at) = fields.next_if(0x02) {
        let word = Value::Word(version_word(value.version));
        sink.field(Label::Field("version"), at.span, word)?;
    }
    algorithm(
        sink,
        alloc,
        bytes,
        "signature",
        fields.next(),
        &value.signature,
    )?;
    name(sink, "issuer", fields.next(), &value.issuer)?;
    let this_update = time_of(&value.this_update);
    sink.field(Label::Field("thisUpdate"), fields.next().span, this_update)?;
    match &value.next_update {
        Some(time) => sink.field(
            Label::Field("nextUpdate"),
            fields.next().span,
            time_of(time),
        ),
        None => Ok(()),
    }
}

/// Tells the entries and the extensions, where there are any.
fn tail<A: Allocator + Copy, S: Limited>(
    sink: &mut S,
    alloc: A,
    bytes: &[u8],
    fields: &mut Cursor<'_>,
    value: &TbsCertListOutline<A>,
    asked: Entries<'_>,
) -> Result<(), S::Error> {
    if let Some(at) = fields.next_if(0x30) {
        tell_entries(sink, alloc, bytes, at, revoked(value), asked)?;
    }
    match fields.next_if(0xa0) {
        Some(at) => {
            let mut inside = at.inside;
            let list = &value.crl_extensions;
            extensions(sink, alloc, bytes, "crlExtensions", inside.next(), list)
        }
        None => Ok(()),
    }
}

/// Writes the lines of a summary that tell when a list was issued, and by when the next one is.
fn write_dates<A: Allocator, W: Write>(out: &mut W, value: &TbsCertListOutline<A>) -> fmt::Result {
    let this_update = Stamp(moment_of(&value.this_update));
    writeln!(out, "  this update {this_update}")?;
    match &value.next_update {
        Some(time) => writeln!(out, "  next update {}", Stamp(moment_of(time))),
        None => Ok(()),
    }
}

impl<A: Allocator + Copy> Reported for ListReport<'_, A> {
    const TITLE: &'static str = "Certificate revocation list";

    fn tell<S: Limited>(
        &self,
        sink: &mut S,
        bytes: &[u8],
        _secrets: Secrets,
    ) -> Result<(), S::Error> {
        let alloc = self.alloc;
        let value = self.value;
        let at = first_at(bytes);
        let mut fields = at.inside;
        sink.begin(Label::Field("CertificateList"), at.span, Shape::Fields)?;
        let tbs = fields.next();
        let mut inside = tbs.inside;
        sink.begin(Label::Field("tbsCertList"), tbs.span, Shape::Fields)?;
        let list = &value.tbs_cert_list;
        head(sink, alloc, bytes, &mut inside, list)?;
        tail(sink, alloc, bytes, &mut inside, list, self.entries)?;
        sink.end()?;
        let kind = &value.signature_algorithm;
        algorithm(
            sink,
            alloc,
            bytes,
            "signatureAlgorithm",
            fields.next(),
            kind,
        )?;
        let signature = bits(&value.signature_value.0);
        sink.field(
            Label::Field("signatureValue"),
            fields.next().span,
            signature,
        )?;
        sink.end()
    }

    fn signed(&self, bytes: &[u8]) -> Option<Span> {
        Some(places_of(bytes).0.span)
    }

    fn summary<W: Write>(&self, out: &mut W) -> fmt::Result {
        let list = &self.value.tbs_cert_list;
        writeln!(out, "  issuer      {}", NameText(&list.issuer))?;
        write_dates(out, list)?;
        writeln!(out, "  revoked     {}", EntryCount(revoked(list).len()))?;
        if let Entries::With(number) = self.entries {
            write_entries(out, revoked(list), number)?;
        }
        let at = places_of(self.bytes).1;
        write_unread(
            out,
            self.alloc,
            self.bytes,
            at,
            &self.value.signature_algorithm,
        )
    }

    fn column<W: Write>(&self, column: Column, out: &mut W) -> fmt::Result {
        let list = &self.value.tbs_cert_list;
        match (column, &list.next_update) {
            (Column::Issuer, _) => write!(out, "{}", NameText(&list.issuer)),
            (Column::NotBefore, _) => write!(out, "{}", Stamp(moment_of(&list.this_update))),
            (Column::NotAfter, Some(time)) => write!(out, "{}", Stamp(moment_of(time))),
            (Column::SignatureAlgorithm, _) => {
                let at = places_of(self.bytes).1;
                write_name(
                    out,
                    self.alloc,
                    self.bytes,
                    at,
                    &self.value.signature_algorithm,
                )
            }
            _ => Ok(()),
        }
    }

    fn brief<W: Write>(&self, out: &mut W) -> fmt::Result {
        let list = &self.value.tbs_cert_list;
        let count = EntryCount(revoked(list).len());
        write!(out, "{}; {count}", NameText(&list.issuer))?;
        match &list.next_update {
            Some(time) => write!(out, "; until {}", Stamp(moment_of(time))),
            None => Ok(()),
        }
    }

    fn validity(&self) -> Option<(Moment, Moment)> {
        let list = &self.value.tbs_cert_list;
        match &list.next_update {
            Some(next) => Some((moment_of(&list.this_update), moment_of(next))),
            None => None,
        }
    }
}

impl<A: Allocator> Keyholder<A> for ListReport<'_, A> {
    fn public_key(&self) -> Option<&PublicKeyOutline<A>> {
        None
    }
}
