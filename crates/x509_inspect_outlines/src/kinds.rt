//! The types of outlines beside those that are read whole.

use x509_inspect::Kind;
use x509_outline_kinds::OutlineKind;
use x509_report_parts::{Cursor, Span};

/// The outline of a type that is read whole, if there is one.
pub fn outline_kind(kind: Kind) -> Option<OutlineKind> {
    match kind {
        Kind::Certificate => Some(OutlineKind::Certificate),
        Kind::Request => Some(OutlineKind::Request),
        Kind::PrivateKey => Some(OutlineKind::PrivateKey),
        Kind::PublicKey => Some(OutlineKind::PublicKey),
        _ => None,
    }
}

/// The type of an outline that is read whole; `None` for revocation lists, which aren't.
pub fn whole_kind(kind: OutlineKind) -> Option<Kind> {
    match kind {
        OutlineKind::Certificate => Some(Kind::Certificate),
        OutlineKind::Request => Some(Kind::Request),
        OutlineKind::PrivateKey => Some(Kind::PrivateKey),
        OutlineKind::PublicKey => Some(Kind::PublicKey),
        OutlineKind::RevocationList => None,
    }
}

/// Where what a signature covers stands in bytes that are of a type: in its first field. `None` where the type isn't signed.
pub fn signed_part(kind: OutlineKind, bytes: &[u8]) -> Option<Span> {
    if !kind.is_signed() {
        return None;
    }
    let mut outer = Cursor::new(bytes);
    let mut fields = outer.next().inside;
    Some(fields.next().span)
}
