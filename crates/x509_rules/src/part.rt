//! Parts of certificates.

/// A part of a certificate that a rule is about, as RFC 5280, 4.1, names them.
#[derive(Clone, Copy, Debug, PartialEq, Eq)]
pub enum Part {
    /// `serialNumber`.
    SerialNumber,
    /// `signature`, the algorithm in what is signed.
    Signature,
    /// `issuer`.
    Issuer,
    /// `validity`.
    Validity,
    /// `subject`.
    Subject,
    /// `subjectPublicKeyInfo`.
    SubjectPublicKeyInfo,
    /// `issuerUniqueID`.
    IssuerUniqueId,
    /// `subjectUniqueID`.
    SubjectUniqueId,
    /// `extensions`.
    Extensions,
}
