//! Structures of X.509 made of descriptions in JSON.
//!
//! `make` takes a description and answers the DER encoding of what it describes, mostly the part of a request or
//! certificate that is to be signed; `x509_make` puts it together with its signature. There is no clock and no
//! randomness in it: serial numbers and times come from whoever calls. What is made is read again, and answered only
//! if it is the DER encoding of a value, without any deviation.
//!
//! # A request
//!
//! ```json
//! {"type": "request-info", "subject": "CN=example.org, O=Example GmbH, C=DE",
//!  "key": "-----BEGIN PUBLIC KEY-----\n..", "names": ["DNS:example.org", "IP:192.0.2.7"],
//!  "keyUsage": ["digitalSignature", "keyEncipherment"], "extendedKeyUsage": ["serverAuth"]}
//! ```
//!
//! # A certificate authority
//!
//! ```json
//! {"type": "tbs-certificate", "serialNumber": "1a:2b:3c", "signature": "sha256WithRSAEncryption", "issuer": "subject",
//!  "notBefore": "2026-11-27T00:00:00Z", "notAfter": "2027-11-27T00:00:00Z",
//!  "subject": "/C=DE/O=Example CA/CN=Example Root", "key": "-----BEGIN PUBLIC KEY-----\n..",
//!  "basicConstraints": {"ca": true, "pathLen": 1}, "keyUsage": ["keyCertSign", "cRLSign"],
//!  "subjectKeyIdentifier": "hash", "authorityKeyIdentifier": "keyid"}
//! ```
//!
//! # A certificate of that authority
//!
//! ```json
//! {"type": "tbs-certificate", "serialNumber": 65281, "signature": "sha256WithRSAEncryption",
//!  "issuer": "-----BEGIN CERTIFICATE-----\n..",
//!  "notBefore": "2026-11-27T18:04:46Z", "notAfter": "2027-02-25T18:04:46Z",
//!  "subject": {"C": "DE", "O": "Example Gründe GmbH", "CN": "leaf.example.org"},
//!  "key": "-----BEGIN PUBLIC KEY-----\n..", "basicConstraints": {"ca": false, "critical": true},
//!  "keyUsage": ["digitalSignature"], "extendedKeyUsage": ["serverAuth"],
//!  "subjectKeyIdentifier": "hash", "authorityKeyIdentifier": "keyid",
//!  "names": ["DNS:leaf.example.org", "IP:192.0.2.7"]}
//! ```
//!
//! # Members of the short form
//!
//! - `type`: `request-info` (`CertificationRequestInfo`) or `tbs-certificate` (`TBSCertificate`, version 3).
//! - `subject`, a name: `/C=DE/CN=x` (as OpenSSL writes it, in order); `CN=x, C=DE` (RFC 4514: the last first), where
//!   a name of several parts that begins with `C=` is refused; an object, with a list for several values of one
//!   attribute; or a list of objects, one for each set. Attributes are named as in RFC 4514 or the standards, or by
//!   their identifier. A request in PEM stands for its subject, byte for byte.
//! - `issuer`: `"subject"`, a name, or the issuer's certificate in PEM, whose subject is taken byte for byte.
//! - `key`: a public key in PEM (`-----BEGIN PUBLIC KEY-----`), or by its fields. A request in PEM stands for its key.
//! - `serialNumber`: hexadecimal, not negative; a number is decimal. `notBefore`, `notAfter`: universal time, as RFC
//!   3339 writes it. `signature`: the name of an algorithm, or its fields.
//! - Extensions, in the order in which they stand: `names` and `issuerNames` (`DNS:`, `IP:`, `email:`, `URI:`, `RID:`,
//!   `dirName:` with a name), `keyUsage`, `extendedKeyUsage`, `basicConstraints` (`ca`, `pathLen`),
//!   `subjectKeyIdentifier` (`"hash"`: SHA-1 of the key's bits, RFC 5280, 4.2.1.2; or hexadecimal),
//!   `authorityKeyIdentifier` (`"keyid"`: that of the issuer's certificate, or of `"subject"`; or hexadecimal), and
//!   `extensions`, a list of any by their fields.
//! - Key usage is critical, basic constraints are if `ca` is true, and `names` if the subject is empty; `{"critical":
//!   .., "value": ..}` says otherwise, and for `basicConstraints` a member `critical`.
//!
//! # By fields
//!
//! Everything can also be written as docs/JSON.md tells it, in a member with the name of the type: `{"type":
//! "certificate", "Certificate": {"tbsCertificate": ..}}`. Types are `request-info`, `tbs-certificate`, `certificate`,
//! `request`, `public-key`, `rsa-public-key`, `name`, `extensions`, `algorithm`, `raw-algorithm`, `private-key`,
//! `rsa-private-key` and `ec-private-key`. Wherever a node stands, its bare value may stand: a list for a node with
//! `items`, a name or dots for an object identifier, a text or a number for `{"value": ..}`. `at`, `name` beside `id`,
//! `asn1`, `bits`, versions, and what a report says around the structure may be left out. The octets of extensions
//! that the encoding keeps as octets are their `value` in hexadecimal, or their `der`, beside which nothing else counts.
//!
//! - Strings are PrintableStrings in countryName, serialNumber and dnQualifier, IA5Strings in emailAddress and
//!   domainComponent, else UTF8Strings, if `asn1` doesn't say otherwise. A text that doesn't fit is refused.
//! - Times are UTCTimes from 1950 to 2049, if `asn1` doesn't say otherwise.
//! - The version of a certificate is 3 with extensions, 2 with unique identifiers, else 1.
//! - Parameters that aren't given are NULL for RSA encryption, its signatures of PKCS #1, and hash functions, else
//!   absent.
//! - The `value` of a number is its content in hexadecimal, in two's complement; a bare text is a number that isn't
//!   negative, so that `FF01` is 65281.
//! - Items keep their order; members of an object that is a set are sorted as DER asks (X.690, 11.6).
//!
//! # What is refused
//!
//! Members that aren't known, members that stand twice, and what encodes no value of the type. An error says where and
//! why, and the front of the text that stands there, escaped, but nothing of a private key:
//!
//! ```text
//! names[1]: not an address: "IP:300.1.2.3"
//! subject: between commas the country comes last, as CN=x, C=DE (RFC 4514); in order write /C=DE/CN=x: "C=DE, CN=a"
//! basicConstraints.CA: no such member here
//! ```
#![tactic(auto)]

mod accepted;
mod described;
pub mod made;
pub mod making;
pub mod not_made;

pub use crate::made::Made;
pub use crate::making::{make, make_of};
pub use crate::not_made::{NotMade, Why};
pub use x509_make_parts::Fault;
