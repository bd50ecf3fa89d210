//! Laws that tie outlines to the types that they are outlines of. A function here does nothing when it runs: its
//! contract is the law.

ghost use Rattle.std.specs.Prelude.{ℕ, List};
ghost use Rattle.x509_der.specs.Element.{AreBytes};
ghost use Rattle.picky_asn1_x509.specs.Certificates.{certificate};
ghost use Rattle.picky_asn1_x509.specs.declared.certificate.Certificate.{Certificate};
ghost use Rattle.x509_keys.specs.SubjectPublicKeyInfos.{subject_public_key_info};
ghost use Rattle.x509_keys.specs.declared.subject_public_key_info.SubjectPublicKeyInfo.{SubjectPublicKeyInfo};
ghost use Rattle.x509_outline.specs.Certificates.{certificate as outlines};
ghost use Rattle.x509_outline.specs.declared.certificate_outline.CertificateOutline.{CertificateOutline};
ghost use Rattle.x509_outline_laws.specs.Frames.{Reads, HasOutline, HasKeyOutline, IsReadByParts};

use std::alloc::Allocator;

/// Whatever is read as a certificate is read as an outline of one too. Both have the same version, serial number, dates,
/// unique identifiers and signature, the same algorithms, types of attributes and identifiers of extensions, and each
/// field in the same slice of the bytes: what is signed is the same (RFC 5280, 4.1).
pub fn certificate_has_outline<A: Allocator + Copy>()
    ensures { (value : Certificate A) (string : List ℕ) → AreBytes string → Reads certificate value string →
        HasOutline value string }
{}

/// Whatever is read as a public key is read as an outline of one too, of the same algorithm (RFC 5280, 4.1.2.7).
pub fn public_key_has_outline<A: Allocator + Copy>()
    ensures { (value : SubjectPublicKeyInfo A) (string : List ℕ) → AreBytes string →
        Reads subject_public_key_info value string → HasKeyOutline value string }
{}

/// An outline keeps two algorithms, two names, the public key and each extension as they are. Where its bytes are refused
/// as a certificate, one of these is the reason: if each is read by itself, so is the whole (RFC 5280, 4.1).
pub fn outline_is_read_by_parts<A: Allocator + Copy>()
    ensures { (value : CertificateOutline A) (string : List ℕ) → Reads outlines value string →
        IsReadByParts value string }
{}
