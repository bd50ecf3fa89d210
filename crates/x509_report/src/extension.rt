//! Extensions.

use crate::certificate::alternative_names;
use crate::extension_values::{authority, basic_constraints, key_usage, purposes};
use crate::places::extn_value_at;
use crate::reported::Reported;
use picky_asn1_x509::{Extension, ExtensionView, Extensions, GeneralNames};
use std::alloc::Allocator;
use std::fmt::{self, Write};
use x509_report_fields::column::Column;
use x509_report_fields::name::{NamesLine, general_names};
use x509_report_further::summary::write_services;
use x509_report_further::{Limited, Place, further};
use x509_report_parts::values::Count;
use x509_report_parts::{Cursor, Element, Label, Secrets, Shape, Span, Value};

/// Tells extensions.
pub(crate) fn extensions<A: Allocator + Copy, S: Limited>(
    sink: &mut S,
    field: &'static str,
    bytes: &[u8],
    at: Element<'_>,
    value: &Extensions<A>,
) -> Result<(), S::Error> {
    let mut items = at.inside;
    sink.begin(Label::Field(field), at.span, Shape::Items)?;
    for item in &value.0.0 {
        extension(sink, bytes, items.next().span, item)?;
    }
    sink.end()
}

/// Tells an extension, which was read from the bytes of an input that stand at a place.
///
/// # Errors
/// What the sink fails with, also where memory is refused.
pub fn extension<A: Allocator + Copy, S: Limited>(
    sink: &mut S,
    bytes: &[u8],
    at: Span,
    value: &Extension<A>,
) -> Result<(), S::Error> {
    let inside = extn_value_at(bytes, at, value).inside.next();
    let label = Label::Extension {
        content: value.extn_id().0.content(),
        is_critical: value.critical(),
        octets: None,
    };
    let view = value.extn_value();
    if let ExtensionView::Generic(octets) = view {
        let place = Place {
            label,
            span: at,
            inside,
        };
        let alloc = *octets.0.allocator();
        if further(sink, alloc, place, &value.extn_id().0, octets.0.as_slice())? {
            return Ok(());
        }
    }
    held(sink, label, at, inside, view)
}

/// Tells what an extension holds.
fn held<A: Allocator, S: Limited>(
    sink: &mut S,
    label: Label<'_>,
    span: Span,
    inside: Element<'_>,
    value: ExtensionView<'_, A>,
) -> Result<(), S::Error> {
    match value {
        ExtensionView::AuthorityKeyIdentifier(key) => authority(sink, label, span, inside, key),
        ExtensionView::SubjectKeyIdentifier(key) => {
            sink.field(label, span, Value::Octets(key.0.as_slice()))
        }
        ExtensionView::KeyUsage(usage) => key_usage(sink, label, span, usage),
        ExtensionView::SubjectAltName(names) => alternative(sink, label, span, inside, names),
        ExtensionView::IssuerAltName(names) => alternative(sink, label, span, inside, names),
        ExtensionView::BasicConstraints(constraints) => {
            basic_constraints(sink, label, span, inside, constraints)
        }
        ExtensionView::ExtendedKeyUsage(usage) => purposes(sink, label, span, inside, usage),
        ExtensionView::Generic(octets) => {
            sink.field(label, span, Value::Kept(octets.0.as_slice()))
        }
        ExtensionView::CrlNumber(number) => {
            sink.field(label, span, Value::Integer(number.0.as_bytes()))
        }
    }
}

/// Tells alternative names.
fn alternative<A: Allocator, S: Limited>(
    sink: &mut S,
    label: Label<'_>,
    span: Span,
    inside: Element<'_>,
    names: &GeneralNames<A>,
) -> Result<(), S::Error> {
    sink.begin(label, span, Shape::Items)?;
    general_names(sink, inside, names)?;
    sink.end()
}

impl<A: Allocator + Copy> Reported for Extensions<A> {
    const TITLE: &'static str = "Extensions";

    fn tell<S: Limited>(
        &self,
        sink: &mut S,
        bytes: &[u8],
        _secrets: Secrets,
    ) -> Result<(), S::Error> {
        let at = Cursor::new(bytes).next();
        extensions(sink, "Extensions", bytes, at, self)
    }

    fn summary<W: Write>(&self, out: &mut W) -> fmt::Result {
        writeln!(out, "  extensions  {}", self.0.0.len())?;
        for extension in &self.0.0 {
            if let ExtensionView::SubjectAltName(names) = extension.extn_value() {
                writeln!(out, "  names       {}", NamesLine(names))?;
            }
        }
        write_services(out, self.0.0.as_slice())
    }

    fn column<W: Write>(&self, column: Column, out: &mut W) -> fmt::Result {
        match (column, alternative_names(self.0.0.as_slice())) {
            (Column::Names, Some(names)) => write!(out, "{}", NamesLine(names)),
            _ => Ok(()),
        }
    }

    fn brief<W: Write>(&self, out: &mut W) -> fmt::Result {
        write!(out, "{}", Count(self.0.0.len() as u64, "extension"))
    }
}
