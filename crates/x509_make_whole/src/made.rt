//! What can be made of a description.

/// What can be made of a description.
#[derive(Clone, Copy, Debug, PartialEq, Eq)]
pub enum Made {
    /// `CertificationRequestInfo` (RFC 2986, 4.1): what is signed of a request.
    RequestInfo,
    /// `TBSCertificate` (RFC 5280, 4.1.2): what is signed of a certificate.
    TbsCertificate,
    /// `Certificate` (RFC 5280, 4.1).
    Certificate,
    /// `CertificationRequest` (RFC 2986, 4.2).
    Request,
    /// `SubjectPublicKeyInfo` (RFC 5280, 4.1.2.7).
    PublicKey,
    /// `RSAPublicKey` (RFC 8017, A.1.1).
    RsaPublicKey,
    /// `Name` (RFC 5280, 4.1.2.4).
    Name,
    /// `Extensions` (RFC 5280, 4.1).
    Extensions,
    /// `AlgorithmIdentifier` (RFC 5280, 4.1.1.2), of an algorithm that is known.
    Algorithm,
    /// The same with any parameters.
    RawAlgorithm,
    /// `PrivateKeyInfo`, or `OneAsymmetricKey` (RFC 5958, 2).
    PrivateKey,
    /// `RSAPrivateKey` (RFC 8017, A.1.2).
    RsaPrivateKey,
    /// `ECPrivateKey` (RFC 5915, 3).
    EcPrivateKey,
}

impl Made {
    /// What a description names as its `type`.
    pub fn from_name(name: &str) -> Option<Made> {
        match name {
            "request-info" => Some(Made::RequestInfo),
            "tbs-certificate" => Some(Made::TbsCertificate),
            "certificate" => Some(Made::Certificate),
            "request" => Some(Made::Request),
            "public-key" => Some(Made::PublicKey),
            "rsa-public-key" => Some(Made::RsaPublicKey),
            "name" => Some(Made::Name),
            "extensions" => Some(Made::Extensions),
            "algorithm" => Some(Made::Algorithm),
            "raw-algorithm" => Some(Made::RawAlgorithm),
            "private-key" => Some(Made::PrivateKey),
            "rsa-private-key" => Some(Made::RsaPrivateKey),
            "ec-private-key" => Some(Made::EcPrivateKey),
            _ => None,
        }
    }

    /// The member that has the fields, named as the type is in its standard.
    pub fn title(self) -> &'static str {
        match self {
            Made::RequestInfo => "CertificationRequestInfo",
            Made::TbsCertificate => "TBSCertificate",
            Made::Certificate => "Certificate",
            Made::Request => "CertificationRequest",
            Made::PublicKey => "SubjectPublicKeyInfo",
            Made::RsaPublicKey => "RSAPublicKey",
            Made::Name => "Name",
            Made::Extensions => "Extensions",
            Made::Algorithm | Made::RawAlgorithm => "AlgorithmIdentifier",
            Made::PrivateKey => "PrivateKeyInfo",
            Made::RsaPrivateKey => "RSAPrivateKey",
            Made::EcPrivateKey => "ECPrivateKey",
        }
    }

    /// The label of its PEM (RFC 7468), if it has one.
    pub fn label(self) -> Option<&'static str> {
        match self {
            Made::Certificate => Some("CERTIFICATE"),
            Made::Request => Some("CERTIFICATE REQUEST"),
            Made::PublicKey => Some("PUBLIC KEY"),
            Made::RsaPublicKey => Some("RSA PUBLIC KEY"),
            Made::PrivateKey => Some("PRIVATE KEY"),
            Made::RsaPrivateKey => Some("RSA PRIVATE KEY"),
            Made::EcPrivateKey => Some("EC PRIVATE KEY"),
            _ => None,
        }
    }
}
