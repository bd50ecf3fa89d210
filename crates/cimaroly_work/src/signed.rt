//! What a signature covers.

use crate::session::Session;
use crate::stop::Stop;
use anyhow::Error;
use picky_asn1_x509::{Certificate, CertificationRequest, ReadError, SignedPart};
use std::alloc::Global;
use std::io::Write;
use x509_inspect::{Kind, Source, check};
use x509_inspect_outlines::{OutlineKind, check_outline, signed_part};

/// What the signature of a certificate or of a request covers.
fn covered(alloc: Global, kind: Kind, bytes: &[u8]) -> Result<SignedPart<'_>, ReadError> {
    if kind == Kind::Certificate {
        Certificate::check_signed_part(alloc, bytes)
    } else {
        CertificationRequest::check_signed_part(alloc, bytes)
    }
}

/// What is said of structures without a signature.
const UNSIGNED: &str = "not signed: give a certificate, a request or a CRL";

impl<W: Write> Session<'_, W> {
    /// Sees that nothing is kept for the end so far.
    fn expect_one(&self) -> Result<(), Stop> {
        if self.encoding.is_some() {
            return Err(Stop::usage(Error::msg(
                "more than one structure: give one certificate, request or CRL",
            )));
        }
        Ok(())
    }

    /// Keeps what an outline's signature covers for the end.
    pub(crate) fn signed_outline(
        &mut self,
        source: Source<'_>,
        kind: OutlineKind,
        bytes: &[u8],
    ) -> Result<(), Stop> {
        self.expect_one()?;
        if let Err(refused) = check_outline(self.alloc, kind, bytes) {
            return self.refuse_outline(source, kind, refused);
        }
        let signed = signed_part(kind, bytes).and_then(|at| bytes.get(at.start..at.end));
        let Some(signed) = signed else {
            return self.refuse(source, UNSIGNED);
        };
        self.encoding = Some(Vec::from_slice(self.alloc, signed)?);
        self.tally.add(0);
        Ok(())
    }

    /// Keeps what a structure's signature covers for the end.
    pub(crate) fn signed(
        &mut self,
        source: Source<'_>,
        kind: Kind,
        bytes: &[u8],
    ) -> Result<(), Stop> {
        self.expect_one()?;
        if kind != Kind::Certificate && kind != Kind::Request {
            return self.refuse(source, UNSIGNED);
        }
        match covered(self.alloc, kind, bytes) {
            Ok(part) => {
                self.encoding = Some(Vec::from_slice(self.alloc, part.signed)?);
                self.tally.add(0);
                Ok(())
            }
            Err(_) => match check(self.alloc, kind, bytes) {
                Ok(_places) => Ok(()),
                Err(why) => self.refuse_with(source, why, kind, bytes),
            },
        }
    }
}
