//! DNS names of hosts.

ghost use Rattle.std.specs.Prelude.{◌≡◌, ◌↔◌, ◌<◌, IsTrue, MatchOption, length};
ghost use Rattle.std.specs.List.{list_all, position_or_len};
ghost use Rattle.std.specs.Char.{is_ascii_digit};
ghost use Rattle.x509_hosts.specs.Names.{AreLabels, IsHostName, IsLabel, IsPresentedFor, is_dot, is_label_byte, labels};

/// How many bytes a label has at most (RFC 1034, 3.1).
const MOST_OF_LABEL: usize = 63;

/// How many bytes a name has at most, as it is written (RFC 1034, 3.1).
const MOST: usize = 253;

/// Whether a label may have the byte.
fn may_stand(byte: u8) -> bool
    ensures { result ≡ is_label_byte byte }
{
    byte.is_ascii_alphanumeric() || byte == b'-' || byte == b'_'
}

/// Whether a label may have each of the bytes.
fn may_all_stand(bytes: &[u8]) -> bool
    ensures { result ≡ list_all is_label_byte bytes.now }
{
    bytes.iter().all(|byte| may_stand(*byte))
}

/// Whether bytes are a label.
fn is_label(bytes: &[u8]) -> bool
    ensures { IsTrue result ↔ IsLabel bytes.now }
{
    let size = bytes.len();
    if size == 0 || size > MOST_OF_LABEL {
        return false;
    }
    bytes[0] != b'-' && bytes[size - 1] != b'-' && may_all_stand(bytes)
}

/// Whether bytes are digits alone.
fn is_number(bytes: &[u8]) -> bool
    ensures { result ≡ list_all is_ascii_digit bytes.now }
{
    bytes.iter().all(|byte| byte.is_ascii_digit())
}

/// Where the first dot stands.
fn first_dot(bytes: &[u8]) -> Option<usize>
    ensures { MatchOption result (position_or_len is_dot bytes.now ≡ length bytes.now)
        (λ at. (position_or_len is_dot bytes.now ≡ at) × (at < length bytes.now)) }
{
    'bytes: for (index, byte) in bytes.iter().enumerate() {
        if *byte == b'.' {
            return Some(index);
        }
    }
    None
}

/// Whether the parts between dots are labels, of which the last is no number.
fn are_labels(name: &[u8]) -> bool
    ensures { IsTrue result ↔ AreLabels (labels name.now) }
{
    let mut rest = name;
    'labels: while let Some(at) = first_dot(rest) {
        let (label, _) = rest.split_at(at);
        if !is_label(label) {
            return false;
        }
        let (_, behind) = rest.split_at(at + 1);
        rest = behind;
    }
    is_label(rest) && !is_number(rest)
}

/// Whether bytes are the DNS name of a host, without a dot at its end: labels of 1 to 63 letters, digits, hyphens and
/// underscores, with no hyphen at their ends, joined by dots, 253 bytes at most, and the last label no number
/// (RFC 1034, 3.5; RFC 1123, 2.1).
pub fn is_host_name(name: &[u8]) -> bool
    ensures { IsTrue result ↔ IsHostName name.now }
{
    name.len() <= MOST && are_labels(name)
}

/// Whether a name that a certificate presents is for a host with this DNS name (RFC 9525, 6.3): the same name, in any case
/// of letters; or `*.` and the same name behind its left-most label.
pub fn is_name_for(presented: &[u8], host: &[u8]) -> bool
    ensures { IsTrue result ↔ IsPresentedFor presented.now host.now }
{
    if presented.eq_ignore_ascii_case(host) {
        return true;
    }
    let Some(at) = first_dot(host) else {
        return false;
    };
    let (_, behind) = host.split_at(at + 1);
    match presented {
        [b'*', b'.', rest @ ..] => rest.eq_ignore_ascii_case(behind),
        _ => false,
    }
}
