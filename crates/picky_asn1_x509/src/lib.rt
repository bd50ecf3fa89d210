//! Certificates and requests (RFC 5280, RFC 2986), and all that they hold: names, keys and their algorithms, extensions
//! and attributes. Everything that a user names stands at the root of this crate, and by modules too.
#![tactic(auto)]

pub mod algorithm_identifier;
pub mod attribute;
pub mod attribute_type_and_value;
pub mod certificate;
pub mod certification_request;
pub mod directory_string;
pub mod extension;
pub mod laws;
pub mod name;
pub mod oid;
pub mod oids;
pub mod private_key_info;
mod required_fields;
mod same_eq;
pub mod signed_read;
pub mod subject_public_key_info;
pub mod tbs_certificate;
mod three;
pub mod validity;
pub mod version;

// Certificates, requests, and what they hold.
pub use crate::certificate::Certificate;
pub use crate::certification_request::{
    CertificationRequest, CertificationRequestInfo, OpenSslAttributes,
};
pub use crate::signed_read::{SignedPart, SignedRead};
pub use crate::tbs_certificate::TbsCertificate;
pub use picky_asn1_x509_parts::{
    Attribute, AttributeValues, Attributes, AuthorityKeyIdentifier, BasicConstraints,
    ExtendedKeyUsage, Extension, ExtensionView, Extensions, KeyIdentifier, KeyUsage,
    SubjectKeyIdentifier,
};

// Elements of any type, and the calls on whole values.
pub use x509_der::parts::Field;
pub use x509_der::{
    Asn1RawDer, Asn1SequenceOf, Asn1SetOf, BitString, BitStringAsn1, BitStringAsn1Container,
    CloneEq, Deviation, Deviations, FromDer, IntegerAsn1, Magnitude, ObjectIdentifier,
    ObjectIdentifierAsn1, OctetStringAsn1, OctetStringAsn1Container, OidError, Place, RawIn,
    ReadError, Refused, SameEq, SliceError, Tags, ToDer, TooLong, WriteError, check,
    check_explained, check_located, check_metered, encoded_len, from_bytes, read_counted,
    read_explained, read_located, read_metered, to_vec, write_to_slice,
};

// Keys and their algorithms.
pub use x509_keys::{
    AesAuthEncParams, AesMode, AesParameters, AlgorithmError, AlgorithmIdentifier,
    AlgorithmIdentifierParameters, DigestInfo, ECPrivateKey, EcParameters, EcPoint,
    EncapsulatedEcPoint, EncapsulatedEcSecret, EncapsulatedMldsaPublicKey,
    EncapsulatedRsaPublicKey, HashAlgorithm, MaskGenAlgorithm, PRIVATE_KEY_INFO_VERSION_1,
    PRIVATE_KEY_INFO_VERSION_2, PrivateKeyInfo, PrivateKeyValue, PublicKey, RawAlgorithmIdentifier,
    RsaPrivateKey, RsaPublicKey, RsassaPssParams, ShaVariant, SubjectPublicKeyInfo,
    UnsupportedAlgorithmError,
};

// Names, times and character strings.
pub use x509_names::{
    AttributeTypeAndValue, AttributeTypeAndValueParameters, DirectoryName, DirectoryString,
    EdiPartyName, GeneralName, GeneralNames, Name, NameAttr, NamePrettyFormatter, OtherName,
    RdnSequence, RelativeDistinguishedName, Time, Validity, Version,
};
pub use x509_prim::{
    AsciiCharSet, BmpCharSet, BmpString, BmpStringAsn1, CharSet, CharSetError, GeneralizedTime,
    GeneralizedTimeAsn1, Ia5CharSet, Ia5String, Ia5StringAsn1, PrintableCharSet, PrintableString,
    PrintableStringAsn1, RestrictedString, RestrictedStringAsn1, UTCTime, UtcTimeAsn1, Utf8String,
};
