//! Equality of certificates and requests holds of the same value alone.

use crate::certificate::Certificate;
use crate::certification_request::{
    CertificationRequest, CertificationRequestInfo, OpenSslAttributes,
};
use crate::tbs_certificate::TbsCertificate;
use picky_asn1_x509_parts::{Attributes, Extensions};
use std::alloc::Allocator;
use x509_der::{BitString, BitStringAsn1, IntegerAsn1, SameEq};
use x509_keys::{AlgorithmIdentifier, SubjectPublicKeyInfo};
use x509_names::{Name, Validity, Version};

impl<A: Allocator> SameEq for TbsCertificate<A> {
    fn decides() {
        Version::decides();
        IntegerAsn1::<A>::decides();
        AlgorithmIdentifier::<A>::decides();
        Name::<A>::decides();
        Validity::decides();
        SubjectPublicKeyInfo::<A>::decides();
        Option::<BitString<A>>::decides();
        Extensions::<A>::decides();
    }
}

impl<A: Allocator> SameEq for Certificate<A> {
    fn decides() {
        TbsCertificate::<A>::decides();
        AlgorithmIdentifier::<A>::decides();
        BitStringAsn1::<A>::decides();
    }
}

impl<A: Allocator> SameEq for OpenSslAttributes<A> {
    fn decides() {
        Attributes::<A>::decides();
    }
}

impl<A: Allocator> SameEq for CertificationRequestInfo<A> {
    fn decides() {
        u8::decides();
        Name::<A>::decides();
        SubjectPublicKeyInfo::<A>::decides();
        OpenSslAttributes::<A>::decides();
    }
}

impl<A: Allocator> SameEq for CertificationRequest<A> {
    fn decides() {
        CertificationRequestInfo::<A>::decides();
        AlgorithmIdentifier::<A>::decides();
        BitStringAsn1::<A>::decides();
    }
}
