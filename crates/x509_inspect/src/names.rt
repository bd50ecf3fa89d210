//! The names of subjects and issuers by RFC 4514.

use std::alloc::{AllocError, Allocator};
use std::fmt::{self, Write};
use std::str;
use x509_inspect_parts::NameForm;
use x509_name_text::name_text;
use x509_report::{Label, Reported, Secrets, Shape, Sink, Span, Value};
use x509_report_further::Limited;

/// Finds where the names of the subject and the issuer stand; a structure that is a name counts as its subject's.
#[derive(Clone, Copy, Drop)]
struct NamePlaces {
    subject: Option<Span>,
    issuer: Option<Span>,
}

impl Sink for NamePlaces {
    type Error = fmt::Error;

    fn begin(&mut self, label: Label<'_>, span: Span, _shape: Shape) -> fmt::Result {
        match label {
            Label::Field("Name" | "subject") if self.subject.is_none() => {
                self.subject = Some(span);
            }
            Label::Field("issuer") if self.issuer.is_none() => self.issuer = Some(span),
            _ => {}
        }
        Ok(())
    }

    fn field(&mut self, _label: Label<'_>, _span: Span, _value: Value<'_>) -> fmt::Result {
        Ok(())
    }

    fn end(&mut self) -> fmt::Result {
        Ok(())
    }
}

impl Limited for NamePlaces {
    fn out_of_memory() -> fmt::Error {
        fmt::Error
    }
}

/// The text of the name that stands at a place, if there is one.
fn text_at<A: Allocator + Copy>(
    alloc: A,
    bytes: &[u8],
    place: Option<Span>,
) -> Result<Option<Vec<u8, A>>, AllocError> {
    let Some(Span { start, end }) = place else {
        return Ok(None);
    };
    let name = bytes.get(start..end).unwrap_or(&[]);
    let mut nothing: [u8; 0] = [];
    let size = match name_text(name, &mut nothing) {
        Ok(size) | Err(size) => size,
    };
    let mut text = Vec::from_elem(alloc, 0u8, size)?;
    let _ = name_text(name, text.as_mut_slice());
    Ok(Some(text))
}

/// The names of a structure's subject and issuer by RFC 4514, where they are asked for and there.
#[derive(Drop)]
pub struct NameTexts<A: Allocator> {
    subject: Option<Vec<u8, A>>,
    issuer: Option<Vec<u8, A>>,
}

/// The names of a structure's subject and issuer by RFC 4514, where they are asked for and there.
#[derive(Clone, Copy, Drop)]
pub struct Names<'a> {
    /// The subject's; that of a structure that is a name.
    pub subject: Option<&'a str>,
    /// The issuer's.
    pub issuer: Option<&'a str>,
}

/// A text that may be there.
fn as_str<A: Allocator>(text: &Option<Vec<u8, A>>) -> Option<&str> {
    match text {
        Some(text) => str::from_utf8(text.as_slice()).ok(),
        None => None,
    }
}

impl<A: Allocator + Copy> NameTexts<A> {
    /// The names in a value that was read from these bytes.
    ///
    /// # Errors
    /// `AllocError` where memory is refused.
    pub fn of<T: Reported>(
        alloc: A,
        value: &T,
        bytes: &[u8],
        form: NameForm,
    ) -> Result<Self, AllocError> {
        let mut places = NamePlaces {
            subject: None,
            issuer: None,
        };
        if form == NameForm::Rfc4514 {
            let _ = value.tell(&mut places, bytes, Secrets::Hidden);
        }
        Ok(NameTexts {
            subject: text_at(alloc, bytes, places.subject)?,
            issuer: text_at(alloc, bytes, places.issuer)?,
        })
    }

    /// The names.
    pub fn as_names(&self) -> Names<'_> {
        Names {
            subject: as_str(&self.subject),
            issuer: as_str(&self.issuer),
        }
    }
}

impl Names<'_> {
    /// Writes the lines of the names that are there.
    pub(crate) fn write_lines<W: Write>(&self, out: &mut W) -> fmt::Result {
        if let Some(text) = self.subject {
            writeln!(out, "  subject DN  {text}")?;
        }
        if let Some(text) = self.issuer {
            writeln!(out, "  issuer DN   {text}")?;
        }
        Ok(())
    }
}
