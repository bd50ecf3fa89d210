//! As what a report reads bytes.

ghost use Rattle.std.specs.Prelude.{◌≡◌};
ghost use Rattle.x509_flat_report.specs.Reports.{reading_of};

use x509_flat::kind::Kind;
use x509_inspect::Kind as Inspected;
use x509_inspect_outlines::OutlineKind;

/// As what a report reads bytes: as a type that is read whole, or as one of which the frame alone is.
#[derive(Clone, Copy, Debug, PartialEq, Eq)]
pub enum Reading {
    /// Whole.
    Whole(Inspected),
    /// In outline.
    Outline(OutlineKind),
}

/// As what a type is read.
pub(crate) fn read_as(kind: Kind) -> Reading
    ensures { result ≡ reading_of kind }
{
    match kind {
        Kind::Certificate => Reading::Whole(Inspected::Certificate),
        Kind::Request => Reading::Whole(Inspected::Request),
        Kind::PrivateKey => Reading::Whole(Inspected::PrivateKey),
        Kind::PublicKey => Reading::Whole(Inspected::PublicKey),
        Kind::RsaPrivateKey => Reading::Whole(Inspected::RsaPrivateKey),
        Kind::RsaPublicKey => Reading::Whole(Inspected::RsaPublicKey),
        Kind::EcPrivateKey => Reading::Whole(Inspected::EcPrivateKey),
        Kind::Name => Reading::Whole(Inspected::Name),
        Kind::Extensions => Reading::Whole(Inspected::Extensions),
        Kind::Algorithm => Reading::Whole(Inspected::Algorithm),
        Kind::RawAlgorithm => Reading::Whole(Inspected::RawAlgorithm),
        Kind::RequestInfo => Reading::Whole(Inspected::RequestInfo),
        Kind::TbsCertificate => Reading::Whole(Inspected::TbsCertificate),
        Kind::CertificateOutline => Reading::Outline(OutlineKind::Certificate),
        Kind::RequestOutline => Reading::Outline(OutlineKind::Request),
        Kind::PrivateKeyOutline => Reading::Outline(OutlineKind::PrivateKey),
        Kind::PublicKeyOutline => Reading::Outline(OutlineKind::PublicKey),
        Kind::Crl => Reading::Outline(OutlineKind::RevocationList),
    }
}
