//! Names of hosts, and URIs.

ghost use Rattle.std.specs.Prelude.{◌≡◌, ◌<◌, MatchOption, length};
ghost use Rattle.std.specs.List.{list_all, position_or_len, slice_split};
ghost use Rattle.x509_findings_parts.specs.Hosts.{has_scheme, is_dot, is_host, is_no_scheme_octet, is_label, is_label_octet, is_numeric_octet, is_scheme_octet, unstarred};

/// How many octets a label has at most (RFC 1034, 3.1).
const MOST_OF_LABEL: usize = 63;

/// How many octets a name has at most, as it is written (RFC 1034, 3.1).
const MOST: usize = 253;

/// Whether a label may have the octet.
fn is_label_octet(octet: u8) -> bool
    ensures { result ≡ is_label_octet octet }
{
    octet.is_ascii_alphanumeric() || octet == b'-'
}

/// Whether a label may have each of the octets.
fn are_label_octets(octets: &[u8]) -> bool
    ensures { result ≡ list_all is_label_octet octets.now }
{
    octets.iter().all(|octet| is_label_octet(*octet))
}

/// Whether octets are a label.
fn is_label(octets: &[u8]) -> bool
    ensures { result ≡ is_label octets.now }
{
    let size = octets.len();
    if size == 0 || size > MOST_OF_LABEL {
        return false;
    }
    if octets[0] == b'-' || octets[size - 1] == b'-' {
        return false;
    }
    are_label_octets(octets)
}

/// A name without the wildcard that may be its first label.
fn unstarred(name: &[u8]) -> &[u8]
    ensures { result.now ≡ unstarred name.now }
{
    if name.len() > 1 && name[0] == b'*' && name[1] == b'.' {
        return &name[2..];
    }
    name
}

/// Whether octets are digits and dots alone, as an address is written.
fn is_numeric(octets: &[u8]) -> bool
    ensures { result ≡ list_all is_numeric_octet octets.now }
{
    octets
        .iter()
        .all(|octet| octet.is_ascii_digit() || *octet == b'.')
}

/// Where the first dot stands.
fn first_dot(octets: &[u8]) -> Option<usize>
    ensures { MatchOption result (position_or_len is_dot octets.now ≡ length octets.now)
        (λ at. (position_or_len is_dot octets.now ≡ at) × (at < length octets.now)) }
{
    'octets: for (index, octet) in octets.iter().enumerate() {
        if *octet == b'.' {
            return Some(index);
        }
    }
    None
}

/// Whether the parts between dots are labels.
fn are_labels(name: &[u8]) -> bool
    ensures { result ≡ list_all is_label (slice_split is_dot name.now) }
{
    let mut rest = name;
    'labels: while let Some(at) = first_dot(rest) {
        let (label, _) = rest.split_at(at);
        if !is_label(label) {
            return false;
        }
        let (_, behind) = rest.split_at(at + 1);
        rest = behind;
    }
    is_label(rest)
}

/// Whether octets are the name of a host: labels of 1 to 63 letters, digits and hyphens, with no hyphen at their ends, joined
/// by dots, of which the first may be `*`, 253 octets at most, and not digits and dots alone.
pub(crate) fn is_host(name: &[u8]) -> bool
    ensures { result ≡ is_host name.now }
{
    if name.len() > MOST || is_numeric(name) {
        return false;
    }
    are_labels(unstarred(name))
}

/// Whether a scheme may have the octet.
fn is_scheme_octet(octet: u8) -> bool
    ensures { result ≡ is_scheme_octet octet }
{
    octet.is_ascii_alphanumeric() || octet == b'+' || octet == b'-' || octet == b'.'
}

/// How many octets stand in front of the first that a scheme may not have.
fn scheme_size(text: &[u8]) -> usize
    ensures { result ≡ position_or_len is_no_scheme_octet text.now }
{
    'octets: for (index, octet) in text.iter().enumerate() {
        if !is_scheme_octet(*octet) {
            return index;
        }
    }
    text.len()
}

/// Whether a text begins with a scheme and a colon, and has something behind it.
pub(crate) fn has_scheme(text: &[u8]) -> bool
    ensures { result ≡ has_scheme text.now }
{
    let size = scheme_size(text);
    if size >= text.len() || size + 1 == text.len() {
        return false;
    }
    text[0].is_ascii_alphabetic() && text[size] == b':'
}
