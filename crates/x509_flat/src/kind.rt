//! The types that are served, by number.

ghost use Rattle.std.specs.Prelude.{◌≡◌, IfSome, IfNone};
ghost use Rattle.x509_flat.specs.Numbers.{kind_number};

/// A type that bytes are read as.
#[derive(Clone, Copy, Debug, PartialEq, Eq)]
pub enum Kind {
    /// `Certificate` (RFC 5280, 4.1).
    Certificate,
    /// `CertificationRequest` (RFC 2986, 4).
    Request,
    /// `PrivateKeyInfo`, also called `OneAsymmetricKey` (RFC 5958, 2).
    PrivateKey,
    /// `SubjectPublicKeyInfo` (RFC 5280, 4.1.2.7).
    PublicKey,
    /// `RSAPrivateKey` (RFC 8017, A.1.2).
    RsaPrivateKey,
    /// `RSAPublicKey` (RFC 8017, A.1.1).
    RsaPublicKey,
    /// `ECPrivateKey` (RFC 5915, 3).
    EcPrivateKey,
    /// `Name` (RFC 5280, 4.1.2.4).
    Name,
    /// `Extensions` (RFC 5280, 4.1).
    Extensions,
    /// `AlgorithmIdentifier` (RFC 5280, 4.1.1.2), of an algorithm that is known.
    Algorithm,
    /// `AlgorithmIdentifier` with any parameters.
    RawAlgorithm,
    /// `CertificationRequestInfo` (RFC 2986, 4.1).
    RequestInfo,
    /// `TBSCertificate` (RFC 5280, 4.1.2).
    TbsCertificate,
    /// `Certificate` (RFC 5280, 4.1), of any algorithm.
    CertificateOutline,
    /// `CertificationRequest` (RFC 2986, 4), of any algorithm.
    RequestOutline,
    /// `OneAsymmetricKey` (RFC 5958, 2), of any algorithm.
    PrivateKeyOutline,
    /// `SubjectPublicKeyInfo` (RFC 5280, 4.1.2.7), of any algorithm.
    PublicKeyOutline,
    /// `CertificateList` (RFC 5280, 5.1), of any algorithm.
    Crl,
}

impl Kind {
    /// The type of a number, 1 to 18 in the order above.
    pub fn from_number(number: u32) -> Option<Kind>
        ensures some { IfSome result (λ kind. number ≡ kind_number kind) }
        ensures none { IfNone result ((kind : Kind) → number ≡ kind_number kind → ⊥) }
    {
        match number {
            1 => Some(Kind::Certificate),
            2 => Some(Kind::Request),
            3 => Some(Kind::PrivateKey),
            4 => Some(Kind::PublicKey),
            5 => Some(Kind::RsaPrivateKey),
            6 => Some(Kind::RsaPublicKey),
            7 => Some(Kind::EcPrivateKey),
            8 => Some(Kind::Name),
            9 => Some(Kind::Extensions),
            10 => Some(Kind::Algorithm),
            11 => Some(Kind::RawAlgorithm),
            12 => Some(Kind::RequestInfo),
            13 => Some(Kind::TbsCertificate),
            14 => Some(Kind::CertificateOutline),
            15 => Some(Kind::RequestOutline),
            16 => Some(Kind::PrivateKeyOutline),
            17 => Some(Kind::PublicKeyOutline),
            18 => Some(Kind::Crl),
            _ => None,
        }
    }
}
