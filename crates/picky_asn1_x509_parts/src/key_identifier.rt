//! Names of keys.

use std::alloc::Global;
use x509_der::OctetStringAsn1;

/// Octets that identify a key (RFC 5280, 4.2.1.1).
pub type KeyIdentifier<A = Global> = OctetStringAsn1<A>;

/// The identifier of the certified key (RFC 5280, 4.2.1.2).
pub type SubjectKeyIdentifier<A = Global> = OctetStringAsn1<A>;
