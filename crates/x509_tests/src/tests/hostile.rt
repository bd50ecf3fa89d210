//! Headers that no element begins with, against every type.

use picky_asn1_x509::{
    Attribute, AuthorityKeyIdentifier, BasicConstraints, Certificate, CertificationRequest,
    CertificationRequestInfo, ExtendedKeyUsage, Extension, Extensions, KeyUsage, OpenSslAttributes,
    TbsCertificate,
};
use std::alloc::Global;
use std::process::Abort;
use x509_der::{
    Asn1RawDer, Asn1SequenceOf, Asn1SetOf, BitStringAsn1, BitStringAsn1Container, FromDer,
    IntegerAsn1, ObjectIdentifierAsn1, OctetStringAsn1, OctetStringAsn1Container, read_metered,
};
use x509_keys::{
    AesAuthEncParams, AesParameters, AlgorithmIdentifier, DigestInfo, ECPrivateKey, EcParameters,
    HashAlgorithm, MaskGenAlgorithm, PrivateKeyInfo, RawAlgorithmIdentifier, RsaPrivateKey,
    RsaPublicKey, RsassaPssParams, SubjectPublicKeyInfo,
};
use x509_names::{
    AttributeTypeAndValue, DirectoryString, EdiPartyName, GeneralName, Name, OtherName, Time,
    Validity, Version,
};
use x509_prim::{
    BmpStringAsn1, GeneralizedTimeAsn1, Ia5StringAsn1, PrintableStringAsn1, UtcTimeAsn1, Utf8String,
};

/// What begins with no element, in hexadecimal, behind the tags of a SEQUENCE, a SET and each universal type that is
/// read.
const HOSTILE: &[&str] = &[
    // no bytes
    "",
    // tags of several bytes
    "1f",
    "1f01",
    "1f8100",
    "1f81808080808000",
    "3f8100",
    "bf8100",
    // a tag alone
    "00",
    "01",
    "02",
    "03",
    "04",
    "05",
    "06",
    "0c",
    "13",
    "16",
    "17",
    "18",
    "1e",
    "30",
    "31",
    "a0",
    // an indefinite length
    "0480",
    "3080",
    "30800000",
    "3180",
    "a080",
    // a length of 2^64 - 1, and of 2^63
    "0488ffffffffffffffff",
    "3088ffffffffffffffff",
    "30888000000000000000",
    // lengths of nine bytes and more
    "3089010000000000000000",
    "0489010000000000000000",
    "30ff",
    "04ff00",
    // lengths that are cut
    "3081",
    "3082",
    "308201",
    "3084ffffff",
    "0481",
    "a082ff",
    // lengths that aren't the shortest
    "308100",
    "30817f",
    "30820080",
    "048100",
    "02820001ff",
    "0382000100",
    // contents that are cut
    "3001",
    "3005020101",
    "3081ff00",
    "3084ffffffff00",
    "0401",
    "020200",
    "0603",
    "a00500",
];

/// Each of them is refused, and at most one header is decoded.
fn no_element<T: FromDer<Global>>(rt: &impl Abort, alloc: Global) {
    for text in HOSTILE {
        let bytes = hex::decode(alloc, *text).expect(rt, *text);
        let (outcome, headers) = read_metered::<T, Global>(alloc, &bytes);
        let is_refused = outcome.is_err();
        drop(outcome);
        assert!(rt; is_refused && headers <= 1, "{headers} headers of {text}");
    }
}

#[test]
fn elements(rt: HostRuntime) {
    let alloc = rt.alloc();
    no_element::<()>(&rt, alloc);
    no_element::<bool>(&rt, alloc);
    no_element::<u8>(&rt, alloc);
    no_element::<IntegerAsn1>(&rt, alloc);
    no_element::<OctetStringAsn1>(&rt, alloc);
    no_element::<BitStringAsn1>(&rt, alloc);
    no_element::<ObjectIdentifierAsn1>(&rt, alloc);
    no_element::<Asn1RawDer>(&rt, alloc);
}

#[test]
fn lists(rt: HostRuntime) {
    let alloc = rt.alloc();
    no_element::<Asn1SequenceOf<u8>>(&rt, alloc);
    no_element::<Asn1SetOf<u8>>(&rt, alloc);
    no_element::<OctetStringAsn1Container<u8>>(&rt, alloc);
    no_element::<BitStringAsn1Container<u8>>(&rt, alloc);
}

#[test]
fn character_strings_and_times(rt: HostRuntime) {
    let alloc = rt.alloc();
    no_element::<PrintableStringAsn1>(&rt, alloc);
    no_element::<Ia5StringAsn1>(&rt, alloc);
    no_element::<BmpStringAsn1>(&rt, alloc);
    no_element::<Utf8String>(&rt, alloc);
    no_element::<UtcTimeAsn1>(&rt, alloc);
    no_element::<GeneralizedTimeAsn1>(&rt, alloc);
}

#[test]
fn names(rt: HostRuntime) {
    let alloc = rt.alloc();
    no_element::<DirectoryString>(&rt, alloc);
    no_element::<AttributeTypeAndValue>(&rt, alloc);
    no_element::<Name>(&rt, alloc);
    no_element::<OtherName>(&rt, alloc);
    no_element::<EdiPartyName>(&rt, alloc);
    no_element::<GeneralName>(&rt, alloc);
    no_element::<Version>(&rt, alloc);
    no_element::<Time>(&rt, alloc);
    no_element::<Validity>(&rt, alloc);
}

#[test]
fn algorithms(rt: HostRuntime) {
    let alloc = rt.alloc();
    no_element::<AlgorithmIdentifier>(&rt, alloc);
    no_element::<RawAlgorithmIdentifier>(&rt, alloc);
    no_element::<HashAlgorithm>(&rt, alloc);
    no_element::<MaskGenAlgorithm>(&rt, alloc);
    no_element::<RsassaPssParams>(&rt, alloc);
    no_element::<AesParameters>(&rt, alloc);
    no_element::<AesAuthEncParams>(&rt, alloc);
    no_element::<EcParameters>(&rt, alloc);
    no_element::<DigestInfo>(&rt, alloc);
}

#[test]
fn keys(rt: HostRuntime) {
    let alloc = rt.alloc();
    no_element::<RsaPublicKey>(&rt, alloc);
    no_element::<RsaPrivateKey>(&rt, alloc);
    no_element::<ECPrivateKey>(&rt, alloc);
    no_element::<SubjectPublicKeyInfo>(&rt, alloc);
    no_element::<PrivateKeyInfo>(&rt, alloc);
}

#[test]
fn extensions(rt: HostRuntime) {
    let alloc = rt.alloc();
    no_element::<KeyUsage>(&rt, alloc);
    no_element::<BasicConstraints>(&rt, alloc);
    no_element::<ExtendedKeyUsage>(&rt, alloc);
    no_element::<AuthorityKeyIdentifier>(&rt, alloc);
    no_element::<Extension>(&rt, alloc);
    no_element::<Extensions>(&rt, alloc);
    no_element::<Attribute>(&rt, alloc);
    no_element::<OpenSslAttributes>(&rt, alloc);
}

#[test]
fn certificates(rt: HostRuntime) {
    let alloc = rt.alloc();
    no_element::<TbsCertificate>(&rt, alloc);
    no_element::<Certificate>(&rt, alloc);
    no_element::<CertificationRequestInfo>(&rt, alloc);
    no_element::<CertificationRequest>(&rt, alloc);
}
