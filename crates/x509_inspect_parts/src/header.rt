//! The headers of elements in the basic encoding rules (X.690, 8.1), also of elements that are cut off.

use std::fmt::{self, Display, Write};

/// How the length of an element is said.
#[derive(Clone, Copy, Debug, PartialEq, Eq)]
pub(crate) enum Length {
    /// In as few bytes as there may be, as DER asks (X.690, 10.1).
    Shortest,
    /// In more bytes.
    Long,
    /// Not at all: two zero bytes stand behind the content (X.690, 8.1.3.6).
    Indefinite,
}

/// Where an element stands and what its header says.
#[derive(Clone, Copy, Debug, PartialEq, Eq)]
pub(crate) struct Header {
    /// The first byte of the tag.
    pub(crate) tag: u8,
    /// Where it starts.
    pub(crate) start: usize,
    /// Where its content starts.
    pub(crate) content: usize,
    /// Where it ends, or else what it stands in: there it is cut off, or its length is indefinite.
    pub(crate) stop: usize,
    /// How its length is said.
    pub(crate) length: Length,
    /// How many bytes of it are missing.
    pub(crate) missing: usize,
}

impl Header {
    /// Whether there are elements in it.
    pub(crate) fn is_constructed(&self) -> bool {
        self.tag % 64 >= 32
    }

    /// Whether it is whole and said as DER asks.
    pub(crate) fn is_shortest(&self) -> bool {
        self.length == Length::Shortest && self.missing == 0
    }
}

/// How many bytes an element's tag has (X.690, 8.1.2): one, or for numbers above 30 those of the number too.
fn tag_len(bytes: &[u8]) -> Option<usize> {
    let first = *bytes.first()?;
    if first % 32 != 31 {
        return Some(1);
    }
    let mut count: usize = 1;
    for byte in bytes.get(1..)? {
        count = count.saturating_add(1);
        if *byte < 128 {
            return Some(count);
        }
    }
    None
}

/// What length the bytes behind a tag say (X.690, 8.1.3), in how many bytes, and how; 0 where it is indefinite.
fn length_of(bytes: &[u8]) -> Option<(usize, usize, Length)> {
    let first = *bytes.first()?;
    if first < 128 {
        return Some((usize::from(first), 1, Length::Shortest));
    }
    let count = usize::from(first - 128);
    if count == 0 {
        return Some((0, 1, Length::Indefinite));
    }
    if count > 8 {
        return None;
    }
    let mut length: usize = 0;
    for digit in bytes.get(1..1 + count)? {
        length = length.wrapping_mul(256) | usize::from(*digit);
    }
    let is_shortest = length >= 128 && bytes.get(1) != Some(&0);
    let how = if is_shortest {
        Length::Shortest
    } else {
        Length::Long
    };
    Some((length, 1 + count, how))
}

/// The header of the element that begins at a place, in what ends at another; `None` where there is none.
pub(crate) fn header_at(bytes: &[u8], start: usize, end: usize) -> Option<Header> {
    let within = bytes.get(start..end)?;
    let tag = *within.first()?;
    let tag_len = tag_len(within)?;
    let (size, size_len, length) = length_of(within.get(tag_len..)?)?;
    let content = start.checked_add(tag_len)?.checked_add(size_len)?;
    let room = end.saturating_sub(content);
    let stop = if length == Length::Indefinite {
        end
    } else {
        content.saturating_add(size.min(room))
    };
    let header = Header {
        tag,
        start,
        content,
        stop,
        length,
        missing: size.saturating_sub(room),
    };
    if length == Length::Indefinite && !header.is_constructed() {
        return None;
    }
    Some(header)
}

/// The name of a universal tag (X.680, 8.4).
fn universal_name(number: u8) -> Option<&'static str> {
    match number {
        1 => Some("BOOLEAN"),
        2 => Some("INTEGER"),
        3 => Some("BIT STRING"),
        4 => Some("OCTET STRING"),
        5 => Some("NULL"),
        6 => Some("OBJECT IDENTIFIER"),
        10 => Some("ENUMERATED"),
        12 => Some("UTF8String"),
        16 => Some("SEQUENCE"),
        17 => Some("SET"),
        18 => Some("NumericString"),
        19 => Some("PrintableString"),
        20 => Some("TeletexString"),
        22 => Some("IA5String"),
        23 => Some("UTCTime"),
        24 => Some("GeneralizedTime"),
        26 => Some("VisibleString"),
        28 => Some("UniversalString"),
        30 => Some("BMPString"),
        _ => None,
    }
}

/// A tag by its name, or by its class and number.
#[derive(Clone, Copy, Drop)]
pub(crate) struct TagName(pub(crate) u8);

impl Display for TagName {
    fn fmt<W: Write>(&self, f: &mut fmt::Formatter<W>) -> fmt::Result {
        let number = self.0 % 32;
        let class = match self.0 / 64 {
            0 => "UNIVERSAL ",
            1 => "APPLICATION ",
            2 => "",
            _ => "PRIVATE ",
        };
        match universal_name(number) {
            Some(name) if self.0 < 64 => f.write_str(name),
            _ if number == 31 => write!(f, "[{class}31 or more]"),
            _ => write!(f, "[{class}{number}]"),
        }
    }
}
