//! What is looked for in a certificate.

ghost use Rattle.std.specs.Prelude.{◌≡◌, ◌↔◌, IsTrue};
ghost use Rattle.x509_hosts.specs.Hosts.{HostTold, IsFor, unbracketed, undotted};

use crate::name::{is_host_name, is_name_for};
use std::net::{Ipv4Addr, Ipv6Addr};

/// The tag of a `dNSName` (RFC 5280, 4.2.1.6).
const DNS_NAME: u8 = 0x82;

/// The tag of an `iPAddress` (RFC 5280, 4.2.1.6).
const IP_ADDRESS: u8 = 0x87;

/// A host that is looked for in a certificate (RFC 9525, 6.1).
#[derive(Clone, Copy)]
pub enum Host<'a> {
    /// A DNS name, without a dot at its end.
    Name(&'a [u8]),
    /// An address of version 4.
    V4([u8; 4]),
    /// An address of version 6.
    V6([u8; 16]),
}

/// What stands in brackets, as URIs have addresses of version 6 (RFC 3986, 3.2.2); else the text itself.
fn without_brackets(text: &[u8]) -> &[u8]
    ensures { result.now ≡ unbracketed text.now }
{
    let size = text.len();
    if size > 1 && text[0] == b'[' && text[size - 1] == b']' {
        return &text[1..size - 1];
    }
    text
}

/// A text without the dot at its end, which says that a name is whole.
fn without_dot(text: &[u8]) -> &[u8]
    ensures { result.now ≡ undotted text.now }
{
    let size = text.len();
    if size > 0 && text[size - 1] == b'.' {
        return &text[..size - 1];
    }
    text
}

impl<'a> Host<'a> {
    /// The host that a text writes: an address, of version 6 in brackets or without; else a DNS name in ASCII, behind which
    /// one dot may stand. None where the text writes neither.
    pub fn of(text: &'a [u8]) -> Option<Host<'a>>
        ensures { HostTold text.now result }
    {
        if let Ok(address) = Ipv4Addr::parse_ascii(text) {
            return Some(Host::V4(address.octets()));
        }
        if let Ok(address) = Ipv6Addr::parse_ascii(without_brackets(text)) {
            return Some(Host::V6(address.octets()));
        }
        let name = without_dot(text);
        if is_host_name(name) {
            Some(Host::Name(name))
        } else {
            None
        }
    }

    /// Whether a general name that a certificate presents is for the host, by its tag and its content (RFC 9525, 6.3 and
    /// 6.4): a `dNSName` for a name, and an `iPAddress` of the same bytes for an address.
    pub fn is_presented(&self, tag: u8, content: &[u8]) -> bool
        ensures { IsTrue result ↔ IsFor self.now tag content.now }
    {
        match *self {
            Host::Name(name) => tag == DNS_NAME && is_name_for(content, name),
            Host::V4(octets) => tag == IP_ADDRESS && content == octets.as_slice(),
            Host::V6(octets) => tag == IP_ADDRESS && content == octets.as_slice(),
        }
    }
}
