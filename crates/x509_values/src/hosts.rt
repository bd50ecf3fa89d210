//! Whether a certificate is for a host.

ghost use Rattle.std.specs.Prelude.{◌↔◌, IsTrue, IfOk, IfErr, length};
ghost use Rattle.x509_der.specs.Calls.{NoValue};
ghost use Rattle.picky_asn1_x509.specs.Certificates.{certificate};
ghost use Rattle.x509_values.specs.Hosts.{HostCarried, HostWithin, NamesHost};

use crate::certificate::find_extension;
use crate::elements::Elements;
use picky_asn1_x509::ReadError;
use std::alloc::Allocator;
use x509_der::parts::SEQUENCE_TAG;
use x509_fields::Span;
use x509_hosts::Host;

/// The content of `id-ce-subjectAltName`, 2.5.29.17 (RFC 5280, 4.2.1.6).
const SUBJECT_ALT_NAME: &[u8] = &[0x55, 0x1D, 0x11];

/// Whether one of the elements that are left is a name for the host.
fn names_host(names: Elements<'_>, host: &Host<'_>) -> bool
    ensures { IsTrue result ↔ NamesHost host.now names.entry.rest }
{
    let mut names = names;
    'names: while let Some(name) = names.next() {
        if host.is_presented(name.tag, name.inside.bytes()) {
            return true;
        }
    }
    false
}

/// Whether the list of general names that a span of an input encodes has one for a host: a `dNSName` or an `iPAddress`, by
/// their tags 82 and 87, as `Host::is_presented` says. Names in other forms, which are deviations, aren't looked at. Takes no
/// memory. Of a span that doesn't lie in the input it says nothing.
pub fn host_within(bytes: &[u8], span: Span, host: &Host<'_>) -> bool
    ensures { HostWithin bytes.now span host.now result }
{
    let mut octets = Elements::over(bytes, span);
    let Some(list) = octets.next() else {
        return false;
    };
    if list.tag != SEQUENCE_TAG {
        return false;
    }
    if !octets.bytes().is_empty() {
        return false;
    }
    names_host(list.inside, host)
}

/// Whether the certificate that the bytes encode is for the host that a text writes (RFC 9525, 6): whether the first of its
/// extensions that is a `subjectAltName` has a name for it, as `host_within` says. The subject's common name is never
/// looked at. A text that writes neither a DNS name nor an address is no certificate's host. Takes no memory.
///
/// # Errors
/// Refused exactly where the bytes encode no certificate; never for memory.
pub fn host_matches<A: Allocator + Copy>(
    alloc: A,
    bytes: &[u8],
    host: &[u8],
) -> Result<bool, ReadError>
    ensures ok { IfOk result (HostCarried A host.now bytes.now) }
    ensures err { IfErr result (NoValue (certificate {A = A}) bytes.now) }
{
    let Some(names) = find_extension(alloc, bytes, SUBJECT_ALT_NAME)? else {
        return Ok(false);
    };
    match Host::of(host) {
        Some(host) => Ok(host_within(bytes, names, &host)),
        None => Ok(false),
    }
}
