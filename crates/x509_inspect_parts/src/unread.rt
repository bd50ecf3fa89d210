//! What is recognised, and isn't read.

ghost use Rattle.std.specs.Prelude.{IfSome, IfNone};
ghost use Rattle.x509_inspect_parts.specs.UnreadLabels.{HasUnreadLabel};

use crate::header::header_at;
use crate::kind::is;

/// What is recognised by a label or by its first bytes, and isn't read.
#[derive(Clone, Copy, Debug, PartialEq, Eq)]
pub enum Unread {
    /// `ContentInfo` (RFC 2315, 7; RFC 5652, 3).
    Cms,
    /// `PFX` (RFC 7292, 4).
    Pkcs12,
    /// `EncryptedPrivateKeyInfo` (RFC 5958, 3).
    EncryptedKey,
    /// `CertificateList` (RFC 5280, 5.1).
    RevocationList,
    /// `OCSPResponse` (RFC 6960, 4.2.1).
    OcspResponse,
    /// A keystore of Java.
    JavaKeystore,
    /// A key of OpenSSH.
    OpenSshKey,
}

/// The arcs 1.2.840.113549.1, under which RSA's standards are.
const PKCS: [u8; 7] = [0x2a, 0x86, 0x48, 0x86, 0xf7, 0x0d, 0x01];

/// What OpenSSH's public keys begin with.
const SSH_NAMES: [&'static str; 5] = ["ssh-rsa ", "ssh-dss ", "ssh-ed25519 ", "ecdsa-sha2-", "sk-"];

/// What stands in an element, as far as it is there.
#[derive(Clone, Copy, Drop)]
struct Part<'a> {
    tag: u8,
    inside: &'a [u8],
    behind: &'a [u8],
}

/// The element at the start; one without content where there is none.
fn first_part(bytes: &[u8]) -> Part<'_> {
    match header_at(bytes, 0, bytes.len()) {
        Some(header) => Part {
            tag: header.tag,
            inside: bytes.get(header.content..header.stop).unwrap_or(&[]),
            behind: bytes.get(header.stop..).unwrap_or(&[]),
        },
        None => Part {
            tag: 0,
            inside: &[],
            behind: &[],
        },
    }
}

/// The arcs of an object identifier at the start, behind those of `PKCS`; of anything else none.
fn pkcs_arcs(bytes: &[u8]) -> &[u8] {
    let part = first_part(bytes);
    if part.tag == 0x06 {
        part.inside.strip_prefix(&PKCS).unwrap_or(&[])
    } else {
        &[]
    }
}

/// Whether a content is that of a `ContentInfo`: its type, and behind it what is explicitly tagged.
fn is_cms(inside: &[u8]) -> bool {
    let is_type = matches!(pkcs_arcs(inside), [7, _] | [9, 16, 1, _]);
    is_type && matches!(first_part(inside).behind.first(), None | Some(0xa0))
}

/// Whether a content is that of a `PFX`: version 3, and a `ContentInfo`.
fn is_pkcs12(inside: &[u8]) -> bool {
    match inside {
        [0x02, 0x01, 0x03, rest @ ..] => is_cms(first_part(rest).inside),
        _ => false,
    }
}

/// Whether a content is that of an `EncryptedPrivateKeyInfo`: an algorithm of PKCS #5 or PKCS #12, and an OCTET STRING.
fn is_encrypted_key(inside: &[u8]) -> bool {
    let algorithm = first_part(inside);
    let is_algorithm = matches!(pkcs_arcs(algorithm.inside), [5, _] | [12, 1, _]);
    algorithm.tag == 0x30 && is_algorithm && algorithm.behind.first() == Some(&0x04)
}

/// Whether a content is that of a `CertificateList`: behind the issuer stands a time.
fn is_revocation_list(inside: &[u8]) -> bool {
    let signed = first_part(inside);
    let mut fields = signed.inside;
    if let [0x02, ..] = fields {
        fields = first_part(fields).behind;
    }
    let algorithm = first_part(fields);
    let issuer = first_part(algorithm.behind);
    signed.tag == 0x30
        && algorithm.tag == 0x30
        && issuer.tag == 0x30
        && matches!(issuer.behind, [0x17 | 0x18, ..])
}

/// What a SEQUENCE with this content is.
fn in_sequence(inside: &[u8]) -> Option<Unread> {
    if is_cms(inside) {
        Some(Unread::Cms)
    } else if is_pkcs12(inside) {
        Some(Unread::Pkcs12)
    } else if is_encrypted_key(inside) {
        Some(Unread::EncryptedKey)
    } else if is_revocation_list(inside) {
        Some(Unread::RevocationList)
    } else if matches!(inside, [0x0a, 0x01, _] | [0x0a, 0x01, _, 0xa0, ..]) {
        Some(Unread::OcspResponse)
    } else {
        None
    }
}

/// Whether bytes begin as a key of OpenSSH does.
fn is_ssh_key(bytes: &[u8]) -> bool {
    bytes.starts_with(b"openssh-key-v1\0")
        || SSH_NAMES
            .iter()
            .any(|name| bytes.starts_with(name.as_bytes()))
}

impl Unread {
    /// Why it is passed over.
    pub fn reason(self) -> &'static str {
        match self {
            Unread::Cms => "PKCS #7 or CMS, which isn't read",
            Unread::Pkcs12 => "PKCS #12, which isn't read",
            Unread::EncryptedKey => "an encrypted private key, which isn't read",
            Unread::RevocationList => "a CRL, which isn't read",
            Unread::OcspResponse => "an OCSP response, which isn't read",
            Unread::JavaKeystore => "a Java keystore, which isn't read",
            Unread::OpenSshKey => "an OpenSSH key, which isn't read",
        }
    }

    /// What a PEM label says (RFC 7468, 6, 8, 9 and 11; the last is OpenSSH's).
    pub fn from_label(label: &[u8]) -> Option<Unread>
        ensures some { IfSome result (λ unread. HasUnreadLabel unread label.now) }
        ensures none { IfNone result ((unread : Unread) → HasUnreadLabel unread label.now → ⊥) }
    {
        if is(label, "CMS") || is(label, "PKCS7") {
            Some(Unread::Cms)
        } else if is(label, "ENCRYPTED PRIVATE KEY") {
            Some(Unread::EncryptedKey)
        } else if is(label, "X509 CRL") {
            Some(Unread::RevocationList)
        } else if is(label, "OPENSSH PRIVATE KEY") {
            Some(Unread::OpenSshKey)
        } else {
            None
        }
    }

    /// What bytes are by the way in which they begin, also where they are cut off; not each that is recognised is well
    /// formed.
    pub fn from_bytes(bytes: &[u8]) -> Option<Unread> {
        match bytes {
            [0xfe, 0xed, 0xfe, 0xed, ..] | [0xce, 0xce, 0xce, 0xce, ..] => {
                Some(Unread::JavaKeystore)
            }
            [0x30, ..] => in_sequence(first_part(bytes).inside),
            _ if is_ssh_key(bytes) => Some(Unread::OpenSshKey),
            _ => None,
        }
    }
}
