//! The types that are known.

ghost use Rattle.std.specs.Prelude.{◌≡◌, ◌↔◌, IsTrue, IfSome, IfNone, Some, None};
ghost use Rattle.x509_inspect_parts.specs.Kinds.{kind_name, label_of, IsLabelled};

/// A type that bytes are read as.
#[derive(Clone, Copy, Debug, PartialEq, Eq)]
pub enum Kind {
    /// `Certificate` (RFC 5280, 4.1).
    Certificate,
    /// `CertificationRequest` (RFC 2986, 4).
    Request,
    /// `PrivateKeyInfo`, also called `OneAsymmetricKey` (RFC 5958, 2).
    PrivateKey,
    /// `SubjectPublicKeyInfo` (RFC 5280, 4.1.2.7).
    PublicKey,
    /// `RSAPrivateKey` (RFC 8017, A.1.2).
    RsaPrivateKey,
    /// `RSAPublicKey` (RFC 8017, A.1.1).
    RsaPublicKey,
    /// `ECPrivateKey` (RFC 5915, 3).
    EcPrivateKey,
    /// `Name` (RFC 5280, 4.1.2.4).
    Name,
    /// `Extensions` (RFC 5280, 4.1).
    Extensions,
    /// `AlgorithmIdentifier` (RFC 5280, 4.1.1.2), of an algorithm that is known.
    Algorithm,
    /// `AlgorithmIdentifier` with any parameters.
    RawAlgorithm,
    /// `CertificationRequestInfo` (RFC 2986, 4.1).
    RequestInfo,
    /// `TBSCertificate` (RFC 5280, 4.1.2).
    TbsCertificate,
}

/// Whether a label is a text.
pub(crate) fn is(label: &[u8], text: &str) -> bool
    ensures { IsTrue result ↔ (label.now ≡ text.now) }
{
    label == text.as_bytes()
}

impl Kind {
    /// All types, those that are met the most first.
    pub const ALL: [Kind; 13] = [
        Kind::Certificate,
        Kind::Request,
        Kind::PrivateKey,
        Kind::PublicKey,
        Kind::RsaPrivateKey,
        Kind::RsaPublicKey,
        Kind::EcPrivateKey,
        Kind::Name,
        Kind::Extensions,
        Kind::Algorithm,
        Kind::RawAlgorithm,
        Kind::RequestInfo,
        Kind::TbsCertificate,
    ];

    /// The name, as `--type` takes it.
    pub fn name(self) -> &'static str
        ensures { result.now ≡ kind_name self }
    {
        match self {
            Kind::Certificate => "certificate",
            Kind::Request => "request",
            Kind::PrivateKey => "private-key",
            Kind::PublicKey => "public-key",
            Kind::RsaPrivateKey => "rsa-private-key",
            Kind::RsaPublicKey => "rsa-public-key",
            Kind::EcPrivateKey => "ec-private-key",
            Kind::Name => "name",
            Kind::Extensions => "extensions",
            Kind::Algorithm => "algorithm",
            Kind::RawAlgorithm => "raw-algorithm",
            Kind::RequestInfo => "request-info",
            Kind::TbsCertificate => "tbs-certificate",
        }
    }

    /// The type of a name, if it is one of theirs.
    pub fn from_name(name: &str) -> Option<Kind>
        ensures some { IfSome result (λ kind. name.now ≡ kind_name kind) }
        ensures none { IfNone result ((kind : Kind) → name.now ≡ kind_name kind → ⊥) }
    {
        match name {
            "certificate" => Some(Kind::Certificate),
            "request" => Some(Kind::Request),
            "private-key" => Some(Kind::PrivateKey),
            "public-key" => Some(Kind::PublicKey),
            "rsa-private-key" => Some(Kind::RsaPrivateKey),
            "rsa-public-key" => Some(Kind::RsaPublicKey),
            "ec-private-key" => Some(Kind::EcPrivateKey),
            "name" => Some(Kind::Name),
            "extensions" => Some(Kind::Extensions),
            "algorithm" => Some(Kind::Algorithm),
            "raw-algorithm" => Some(Kind::RawAlgorithm),
            "request-info" => Some(Kind::RequestInfo),
            "tbs-certificate" => Some(Kind::TbsCertificate),
            _ => None,
        }
    }

    /// The type that a PEM label says (RFC 7468, 4; the others are OpenSSL's).
    pub fn from_label(label: &[u8]) -> Option<Kind>
        ensures some { IfSome result (λ kind. IsLabelled kind label.now) }
        ensures none { IfNone result ((kind : Kind) → IsLabelled kind label.now → ⊥) }
    {
        if is(label, "CERTIFICATE") || is(label, "X509 CERTIFICATE") {
            Some(Kind::Certificate)
        } else if is(label, "CERTIFICATE REQUEST") || is(label, "NEW CERTIFICATE REQUEST") {
            Some(Kind::Request)
        } else if is(label, "PRIVATE KEY") {
            Some(Kind::PrivateKey)
        } else if is(label, "PUBLIC KEY") {
            Some(Kind::PublicKey)
        } else if is(label, "RSA PRIVATE KEY") {
            Some(Kind::RsaPrivateKey)
        } else if is(label, "RSA PUBLIC KEY") {
            Some(Kind::RsaPublicKey)
        } else if is(label, "EC PRIVATE KEY") {
            Some(Kind::EcPrivateKey)
        } else {
            None
        }
    }

    /// The label of its PEM block, if it has one.
    pub fn label(self) -> Option<&'static str>
        ensures some { IfSome result (λ label. label_of self ≡ Some label.now) }
        ensures none { IfNone result (label_of self ≡ None) }
    {
        match self {
            Kind::Certificate => Some("CERTIFICATE"),
            Kind::Request => Some("CERTIFICATE REQUEST"),
            Kind::PrivateKey => Some("PRIVATE KEY"),
            Kind::PublicKey => Some("PUBLIC KEY"),
            Kind::RsaPrivateKey => Some("RSA PRIVATE KEY"),
            Kind::RsaPublicKey => Some("RSA PUBLIC KEY"),
            Kind::EcPrivateKey => Some("EC PRIVATE KEY"),
            Kind::Name
            | Kind::Extensions
            | Kind::Algorithm
            | Kind::RawAlgorithm
            | Kind::RequestInfo
            | Kind::TbsCertificate => None,
        }
    }
}
