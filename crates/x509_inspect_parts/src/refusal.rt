//! Why bytes are refused, and where.

use crate::field_path::FieldPath;
use crate::kind::Kind;
use std::fmt::{self, Display, Write};
use x509_der::Refused;

/// A refusal with the field that it stands in, as in `wrong tag at byte 1043 (in tbsCertificate, validity)`.
#[derive(Clone, Copy, Drop)]
pub struct RefusalLine<'a> {
    /// Why and where.
    pub refused: Refused,
    /// As what the bytes were read.
    pub kind: Kind,
    /// The bytes.
    pub bytes: &'a [u8],
}

impl Display for RefusalLine<'_> {
    fn fmt<W: Write>(&self, f: &mut fmt::Formatter<W>) -> fmt::Result {
        write!(f, "{}", self.refused)?;
        let path = FieldPath {
            kind: self.kind,
            bytes: self.bytes,
            at: self.refused.at,
            separator: ", ",
        };
        if path.is_empty() {
            return Ok(());
        }
        write!(f, " (in {path})")
    }
}
