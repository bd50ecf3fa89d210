//! Names, algorithm identifiers and public keys by themselves.

use crate::reported::Reported;
use picky_asn1_x509::{
    AlgorithmIdentifier, Name, RawAlgorithmIdentifier, RsaPublicKey, SubjectPublicKeyInfo,
};
use std::alloc::Allocator;
use std::fmt::{self, Write};
use x509_report_fields::algorithm::algorithm;
use x509_report_fields::column::Column;
use x509_report_fields::key::{public_key, public_line, rsa, rsa_line};
use x509_report_fields::name::{NameLine, name};
use x509_report_further::Limited;
use x509_report_parts::text_sink::Named;
use x509_report_parts::{Cursor, Identifiers, Label, Secrets, Shape, Value};

impl<A: Allocator> Reported for Name<A> {
    const TITLE: &'static str = "Name";

    fn tell<S: Limited>(
        &self,
        sink: &mut S,
        bytes: &[u8],
        _secrets: Secrets,
    ) -> Result<(), S::Error> {
        name(sink, "Name", Cursor::new(bytes).next(), self)
    }

    fn summary<W: Write>(&self, out: &mut W) -> fmt::Result {
        writeln!(out, "  name        {}", NameLine(self))
    }

    fn column<W: Write>(&self, column: Column, out: &mut W) -> fmt::Result {
        match column {
            Column::Subject => self.brief(out),
            _ => Ok(()),
        }
    }

    fn brief<W: Write>(&self, out: &mut W) -> fmt::Result {
        write!(out, "{}", NameLine(self))
    }
}

impl<A: Allocator> Reported for AlgorithmIdentifier<A> {
    const TITLE: &'static str = "Algorithm identifier";

    fn tell<S: Limited>(
        &self,
        sink: &mut S,
        bytes: &[u8],
        _secrets: Secrets,
    ) -> Result<(), S::Error> {
        algorithm(sink, "AlgorithmIdentifier", Cursor::new(bytes).next(), self)
    }

    fn summary<W: Write>(&self, out: &mut W) -> fmt::Result {
        writeln!(
            out,
            "  algorithm   {}",
            Named(self.oid().content(), Identifiers::Dotted)
        )
    }

    fn column<W: Write>(&self, column: Column, out: &mut W) -> fmt::Result {
        match column {
            Column::SignatureAlgorithm => self.brief(out),
            _ => Ok(()),
        }
    }

    fn brief<W: Write>(&self, out: &mut W) -> fmt::Result {
        write!(out, "{}", Named(self.oid().content(), Identifiers::Named))
    }
}

impl<A: Allocator> Reported for RawAlgorithmIdentifier<A> {
    const TITLE: &'static str = "Algorithm identifier with any parameters";

    fn tell<S: Limited>(
        &self,
        sink: &mut S,
        bytes: &[u8],
        _secrets: Secrets,
    ) -> Result<(), S::Error> {
        let at = Cursor::new(bytes).next();
        let mut fields = at.inside;
        sink.begin(Label::Field("AlgorithmIdentifier"), at.span, Shape::Line)?;
        let identifier = Value::Identifier(self.algorithm().content());
        sink.field(Label::Field("algorithm"), fields.next().span, identifier)?;
        if fields.tag().is_some() {
            let value = match self.parameters() {
                Some(element) => Value::Raw(element.as_bytes()),
                None => Value::Null,
            };
            sink.field(Label::Field("parameters"), fields.next().span, value)?;
        }
        sink.end()
    }

    fn summary<W: Write>(&self, out: &mut W) -> fmt::Result {
        writeln!(
            out,
            "  algorithm   {}",
            Named(self.algorithm().content(), Identifiers::Dotted)
        )
    }

    fn column<W: Write>(&self, column: Column, out: &mut W) -> fmt::Result {
        match column {
            Column::SignatureAlgorithm => self.brief(out),
            _ => Ok(()),
        }
    }

    fn brief<W: Write>(&self, out: &mut W) -> fmt::Result {
        write!(
            out,
            "{}",
            Named(self.algorithm().content(), Identifiers::Named)
        )
    }
}

impl<A: Allocator> Reported for SubjectPublicKeyInfo<A> {
    const TITLE: &'static str = "Public key";

    fn tell<S: Limited>(
        &self,
        sink: &mut S,
        bytes: &[u8],
        _secrets: Secrets,
    ) -> Result<(), S::Error> {
        public_key(
            sink,
            "SubjectPublicKeyInfo",
            Cursor::new(bytes).next(),
            self,
        )
    }

    fn summary<W: Write>(&self, out: &mut W) -> fmt::Result {
        writeln!(out, "  key         {}", public_line(self))
    }

    fn column<W: Write>(&self, column: Column, out: &mut W) -> fmt::Result {
        match column {
            Column::Key => write!(out, "{}", public_line(self)),
            _ => Ok(()),
        }
    }
}

impl<A: Allocator> Reported for RsaPublicKey<A> {
    const TITLE: &'static str = "RSA public key";

    fn tell<S: Limited>(
        &self,
        sink: &mut S,
        bytes: &[u8],
        _secrets: Secrets,
    ) -> Result<(), S::Error> {
        rsa(sink, "RSAPublicKey", Cursor::new(bytes).next(), self)
    }

    fn summary<W: Write>(&self, out: &mut W) -> fmt::Result {
        writeln!(out, "  key         {}", rsa_line(&self.modulus))
    }

    fn column<W: Write>(&self, column: Column, out: &mut W) -> fmt::Result {
        match column {
            Column::Key => write!(out, "{}", rsa_line(&self.modulus)),
            _ => Ok(()),
        }
    }
}
