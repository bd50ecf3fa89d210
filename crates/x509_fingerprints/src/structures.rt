//! Which public key a certificate or a request holds, and what holds none.

ghost use Rattle.std.specs.Prelude.{Some, None};
ghost use Rattle.x509_keys.specs.SubjectPublicKeyInfos.{subject_bytes};

use crate::keyed::{Keyed, encoded};
use picky_asn1_x509::{
    Certificate, CertificationRequest, CertificationRequestInfo, Extensions, Name, TbsCertificate,
};
use std::alloc::Allocator;
use x509_der::WriteError;

impl<A: Allocator + Copy> Keyed<A> for Certificate<A> {
    ghost key = { λ c. Some (subject_bytes c.tbs_certificate.subject_public_key_info) };

    fn encoded_key(&self, alloc: A) -> Result<Option<Vec<u8, A>>, WriteError> {
        encoded(alloc, &self.tbs_certificate.subject_public_key_info)
    }
}

impl<A: Allocator + Copy> Keyed<A> for CertificationRequest<A> {
    ghost key = { λ r. Some (subject_bytes r.certification_request_info.subject_public_key_info) };

    fn encoded_key(&self, alloc: A) -> Result<Option<Vec<u8, A>>, WriteError> {
        encoded(
            alloc,
            &self.certification_request_info.subject_public_key_info,
        )
    }
}

impl<A: Allocator + Copy> Keyed<A> for TbsCertificate<A> {
    ghost key = { λ c. Some (subject_bytes c.subject_public_key_info) };

    fn encoded_key(&self, alloc: A) -> Result<Option<Vec<u8, A>>, WriteError> {
        encoded(alloc, &self.subject_public_key_info)
    }
}

impl<A: Allocator + Copy> Keyed<A> for CertificationRequestInfo<A> {
    ghost key = { λ r. Some (subject_bytes r.subject_public_key_info) };

    fn encoded_key(&self, alloc: A) -> Result<Option<Vec<u8, A>>, WriteError> {
        encoded(alloc, &self.subject_public_key_info)
    }
}

impl<A: Allocator + Copy> Keyed<A> for Name<A> {
    ghost key = { λ _. None };

    fn encoded_key(&self, _alloc: A) -> Result<Option<Vec<u8, A>>, WriteError> {
        Ok(None)
    }
}

impl<A: Allocator + Copy> Keyed<A> for Extensions<A> {
    ghost key = { λ _. None };

    fn encoded_key(&self, _alloc: A) -> Result<Option<Vec<u8, A>>, WriteError> {
        Ok(None)
    }
}
