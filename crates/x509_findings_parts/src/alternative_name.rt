//! Further names of subjects and issuers.

ghost use Rattle.std.specs.Prelude.{◌≡◌};
ghost use Rattle.std.specs.List.{list_any};
ghost use Rattle.x509_findings_parts.specs.AlternativeNames.{has_fault, is_at, is_empty_name, is_mailbox, is_no_host, is_no_mailbox, is_no_uri, is_odd_address, name_has_fault, names_mailbox};

use crate::host::{has_scheme, is_host};
use picky_asn1_x509_parts::{Extension, ExtensionView};
use std::alloc::Allocator;
use x509_names::GeneralName;

/// What may be wrong with a name.
#[derive(Clone, Copy, Debug, PartialEq, Eq)]
pub enum NameFault {
    /// It is an IP address of neither four bytes nor sixteen.
    OddAddress,
    /// It has no characters, or no attributes.
    EmptyName,
    /// It is a mail address without an `@`.
    NoMailbox,
    /// It is a DNS name, and no name of a host.
    NoHost,
    /// It is a URI without a scheme.
    NoScheme,
}

/// Whether a name is an IP address of neither four bytes nor sixteen.
fn is_odd_address<A: Allocator>(name: &GeneralName<A>) -> bool
    ensures { result ≡ is_odd_address name.now }
{
    match name {
        GeneralName::IpAddress(octets) => {
            let size = octets.0.len();
            !(size == 4 || size == 16)
        }
        GeneralName::OtherName(_)
        | GeneralName::Rfc822Name(_)
        | GeneralName::DnsName(_)
        | GeneralName::DirectoryName(_)
        | GeneralName::EdiPartyName(_)
        | GeneralName::Uri(_)
        | GeneralName::RegisteredId(_) => false,
    }
}

/// Whether a name has no characters, or no attributes.
fn is_empty_name<A: Allocator>(name: &GeneralName<A>) -> bool
    ensures { result ≡ is_empty_name name.now }
{
    match name {
        GeneralName::Rfc822Name(text) => text.as_bytes().is_empty(),
        GeneralName::DnsName(text) => text.as_bytes().is_empty(),
        GeneralName::DirectoryName(name) => name.0.0.is_empty(),
        GeneralName::Uri(text) => text.as_bytes().is_empty(),
        GeneralName::OtherName(_)
        | GeneralName::EdiPartyName(_)
        | GeneralName::IpAddress(_)
        | GeneralName::RegisteredId(_) => false,
    }
}

/// Whether one of some characters is an `@`.
fn have_at(characters: &[u8]) -> bool
    ensures { result ≡ list_any is_at characters.now }
{
    for character in characters {
        if *character == b'@' {
            return true;
        }
    }
    false
}

/// Whether a name is a mail address without an `@`.
fn is_no_mailbox<A: Allocator>(name: &GeneralName<A>) -> bool
    ensures { result ≡ is_no_mailbox name.now }
{
    match name {
        GeneralName::Rfc822Name(text) => !have_at(text.as_bytes()),
        GeneralName::OtherName(_)
        | GeneralName::DnsName(_)
        | GeneralName::DirectoryName(_)
        | GeneralName::EdiPartyName(_)
        | GeneralName::Uri(_)
        | GeneralName::IpAddress(_)
        | GeneralName::RegisteredId(_) => false,
    }
}

/// Whether a name is a DNS name with characters, and no name of a host.
fn is_no_host<A: Allocator>(name: &GeneralName<A>) -> bool
    ensures { result ≡ is_no_host name.now }
{
    match name {
        GeneralName::DnsName(text) => {
            let octets = text.as_bytes();
            !octets.is_empty() && !is_host(octets)
        }
        GeneralName::OtherName(_)
        | GeneralName::Rfc822Name(_)
        | GeneralName::DirectoryName(_)
        | GeneralName::EdiPartyName(_)
        | GeneralName::Uri(_)
        | GeneralName::IpAddress(_)
        | GeneralName::RegisteredId(_) => false,
    }
}

/// Whether a name is a URI with characters, and without a scheme.
fn is_no_uri<A: Allocator>(name: &GeneralName<A>) -> bool
    ensures { result ≡ is_no_uri name.now }
{
    match name {
        GeneralName::Uri(text) => {
            let octets = text.as_bytes();
            !octets.is_empty() && !has_scheme(octets)
        }
        GeneralName::OtherName(_)
        | GeneralName::Rfc822Name(_)
        | GeneralName::DnsName(_)
        | GeneralName::DirectoryName(_)
        | GeneralName::EdiPartyName(_)
        | GeneralName::IpAddress(_)
        | GeneralName::RegisteredId(_) => false,
    }
}

/// Whether a name is a mail address.
fn is_mailbox<A: Allocator>(name: &GeneralName<A>) -> bool
    ensures { result ≡ is_mailbox name.now }
{
    match name {
        GeneralName::Rfc822Name(_) => true,
        GeneralName::OtherName(_)
        | GeneralName::DnsName(_)
        | GeneralName::DirectoryName(_)
        | GeneralName::EdiPartyName(_)
        | GeneralName::Uri(_)
        | GeneralName::IpAddress(_)
        | GeneralName::RegisteredId(_) => false,
    }
}

/// Whether a name has a fault.
fn has_fault<A: Allocator>(name: &GeneralName<A>, fault: NameFault) -> bool
    ensures { result ≡ has_fault fault name.now }
{
    match fault {
        NameFault::OddAddress => is_odd_address(name),
        NameFault::EmptyName => is_empty_name(name),
        NameFault::NoMailbox => is_no_mailbox(name),
        NameFault::NoHost => is_no_host(name),
        NameFault::NoScheme => is_no_uri(name),
    }
}

/// Whether one of some names has a fault.
fn some_have_fault<A: Allocator>(names: &[GeneralName<A>], fault: NameFault) -> bool
    ensures { result ≡ list_any (has_fault fault) names.now }
{
    for name in names {
        if has_fault(name, fault) {
            return true;
        }
    }
    false
}

/// Whether an extension has further names, and one has a fault.
pub(crate) fn name_has_fault<A: Allocator>(extension: &Extension<A>, fault: NameFault) -> bool
    ensures { result ≡ name_has_fault fault extension.now.extn_value }
{
    match extension.extn_value() {
        ExtensionView::SubjectAltName(names) => some_have_fault(names.0.as_slice(), fault),
        ExtensionView::IssuerAltName(names) => some_have_fault(names.0.as_slice(), fault),
        _ => false,
    }
}

/// Whether one of some names is a mail address.
fn some_are_mailboxes<A: Allocator>(names: &[GeneralName<A>]) -> bool
    ensures { result ≡ list_any is_mailbox names.now }
{
    names.iter().any(|name| is_mailbox(name))
}

/// Whether an extension has further names of the subject, and one is a mail address.
pub(crate) fn names_mailbox<A: Allocator>(extension: &Extension<A>) -> bool
    ensures { result ≡ names_mailbox extension.now.extn_value }
{
    match extension.extn_value() {
        ExtensionView::SubjectAltName(names) => some_are_mailboxes(names.0.as_slice()),
        _ => false,
    }
}
