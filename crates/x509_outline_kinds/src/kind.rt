//! The types of outlines.

ghost use Rattle.std.specs.Prelude.{◌≡◌, ◌↔◌, IsTrue};
ghost use Rattle.x509_outline_kinds.specs.Kinds.{label_of, outline_name, IsSigned};

/// A type of which the frame alone is read, whatever algorithms, attributes and keys stand in it.
#[derive(Clone, Copy, Debug, PartialEq, Eq)]
pub enum OutlineKind {
    /// `Certificate` (RFC 5280, 4.1).
    Certificate,
    /// `CertificationRequest` (RFC 2986, 4).
    Request,
    /// `OneAsymmetricKey` (RFC 5958, 2).
    PrivateKey,
    /// `SubjectPublicKeyInfo` (RFC 5280, 4.1.2.7).
    PublicKey,
    /// `CertificateList` (RFC 5280, 5.1).
    RevocationList,
}

impl OutlineKind {
    /// The name, as JSON and lines have it.
    pub fn name(self) -> &'static str
        ensures { result.now ≡ outline_name self }
    {
        match self {
            OutlineKind::Certificate => "certificate-outline",
            OutlineKind::Request => "request-outline",
            OutlineKind::PrivateKey => "private-key-outline",
            OutlineKind::PublicKey => "public-key-outline",
            OutlineKind::RevocationList => "crl",
        }
    }

    /// The label of its PEM block (RFC 7468, 5, 6, 7, 10 and 13).
    pub fn label(self) -> &'static str
        ensures { result.now ≡ label_of self }
    {
        match self {
            OutlineKind::Certificate => "CERTIFICATE",
            OutlineKind::Request => "CERTIFICATE REQUEST",
            OutlineKind::PrivateKey => "PRIVATE KEY",
            OutlineKind::PublicKey => "PUBLIC KEY",
            OutlineKind::RevocationList => "X509 CRL",
        }
    }

    /// Whether its first field is what a signature covers (RFC 5280, 4.1.1.3 and 5.1.1.3; RFC 2986, 4.2).
    pub fn is_signed(self) -> bool
        ensures { IsTrue result ↔ IsSigned self }
    {
        match self {
            OutlineKind::Certificate | OutlineKind::Request | OutlineKind::RevocationList => true,
            OutlineKind::PrivateKey | OutlineKind::PublicKey => false,
        }
    }
}
