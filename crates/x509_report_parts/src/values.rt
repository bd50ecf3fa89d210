//! How values print: bytes, times, object identifiers, addresses, and text in UTF-16, UTF-32 or ISO 8859-1.

ghost use Rattle.std.specs.Prelude.{◌≤◌, ◌<◌, length};

use crate::sink::Moment;
use std::fmt::{self, Display, Write};
use std::str;
use x509_der::Arcs;
pub use x509_oid_text::name_in;

/// The hexadecimal digits.
const DIGITS: [u8; 16] = [
    b'0', b'1', b'2', b'3', b'4', b'5', b'6', b'7', b'8', b'9', b'a', b'b', b'c', b'd', b'e', b'f',
];

/// How many bytes are written at a time.
const GROUP: usize = 16;

/// Puts the digits of bytes behind the colons that stand there, as in `:0a:ff`.
fn put_digits(room: &mut [u8; 3 * GROUP], bytes: &[u8]) {
    for (index, byte) in bytes.iter().enumerate() {
        if index < GROUP {
            room[3 * index + 1] = DIGITS[usize::from(*byte / 16)];
            room[3 * index + 2] = DIGITS[usize::from(*byte % 16)];
        }
    }
}

/// Bytes in lower-case hexadecimal with colons between them, as in `0a:ff`.
#[derive(Clone, Copy, Drop)]
pub struct Hex<'a>(pub &'a [u8]);

impl Display for Hex<'_> {
    fn fmt<W: Write>(&self, f: &mut fmt::Formatter<W>) -> fmt::Result {
        let mut room = [b':'; 3 * GROUP];
        // the first byte has no colon before it
        let mut start = 1;
        for group in self.0.chunks(GROUP) {
            put_digits(&mut room, group);
            let end = group.len().saturating_mul(3);
            let digits = room.get(start..end).unwrap_or(&[]);
            f.write_str(str::from_utf8(digits).unwrap_or(""))?;
            start = 0;
        }
        Ok(())
    }
}

/// The digits of a length in base 256, high digits first, and how many there are.
fn length_digits(length: usize) -> ([u8; 8], usize) {
    let digits = (length as u64).to_be_bytes();
    let zeros = digits.iter().take_while(|digit| **digit == 0).count();
    (digits, 8usize.saturating_sub(zeros))
}

/// Writes a length as DER has it (X.690, 8.1.3, 10.1).
fn write_length<W: Write>(f: &mut fmt::Formatter<W>, length: usize) -> fmt::Result {
    if length < 128 {
        return write!(f, "{length:02x}");
    }
    let (digits, count) = length_digits(length);
    let shown = digits.get(8usize.saturating_sub(count)..).unwrap_or(&[]);
    let size = u8::try_from(count).unwrap_or(8);
    write!(f, "{:02x}:{}", 0x80 | size, Hex(shown))
}

/// An element in hexadecimal, by its tag and its content: of a BIT STRING the number of unused bits and the bytes.
#[derive(Clone, Copy, Drop)]
pub struct ElementHex<'a>(pub u8, pub Option<u8>, pub &'a [u8]);

impl Display for ElementHex<'_> {
    fn fmt<W: Write>(&self, f: &mut fmt::Formatter<W>) -> fmt::Result {
        let ElementHex(tag, unused, bytes) = *self;
        write!(f, "{tag:02x}:")?;
        write_length(f, bytes.len().saturating_add(usize::from(unused.is_some())))?;
        if let Some(unused) = unused {
            write!(f, ":{unused:02x}")?;
        }
        if bytes.is_empty() {
            return Ok(());
        }
        write!(f, ":{}", Hex(bytes))
    }
}

/// How many bytes are shown of those that are too many for a line.
const SHOWN: usize = 16;

/// How many bytes are shown whole.
const WHOLE: usize = 32;

/// Bytes as `Hex`, of which the first sixteen stand for more than 32.
#[derive(Clone, Copy, Drop)]
pub struct ShortHex<'a>(pub &'a [u8]);

impl Display for ShortHex<'_> {
    fn fmt<W: Write>(&self, f: &mut fmt::Formatter<W>) -> fmt::Result {
        if self.0.len() <= WHOLE {
            return write!(f, "{}", Hex(self.0));
        }
        let front = self.0.get(..SHOWN).unwrap_or(&[]);
        write!(f, "{}:..", Hex(front))
    }
}

/// So many of something, by its name in the singular, as in `1 bit` and `2 bits`.
#[derive(Clone, Copy, Drop)]
pub struct Count(pub u64, pub &'static str);

impl Display for Count {
    fn fmt<W: Write>(&self, f: &mut fmt::Formatter<W>) -> fmt::Result {
        let Count(count, name) = *self;
        let ending = if count == 1 { "" } else { "s" };
        write!(f, "{count} {name}{ending}")
    }
}

/// A time as RFC 3339 writes it, as in `2019-10-17T17:41:28Z`.
#[derive(Clone, Copy, Drop)]
pub struct Stamp(pub Moment);

impl Display for Stamp {
    fn fmt<W: Write>(&self, f: &mut fmt::Formatter<W>) -> fmt::Result {
        let (year, month, day) = self.0.date;
        let (hour, minute, second) = self.0.time;
        write!(f, "{year:04}-{month:02}-{day:02}")?;
        write!(f, "T{hour:02}:{minute:02}:{second:02}Z")
    }
}

/// The last arcs of an object identifier under 2.5, as those of most attributes and extensions are, where there are two
/// and each is below 128.
fn under_2_5(content: &[u8]) -> Option<(u8, u8)> {
    match content {
        [0x55, third @ 0..=127, last @ 0..=127] => Some((*third, *last)),
        _ => None,
    }
}

/// An object identifier with dots, as in `2.5.4.3`, by its content. Bytes that are no object identifier's content stand in
/// hexadecimal.
#[derive(Clone, Copy, Drop)]
pub struct Dotted<'a>(pub &'a [u8]);

impl Display for Dotted<'_> {
    fn fmt<W: Write>(&self, f: &mut fmt::Formatter<W>) -> fmt::Result {
        if let Some((third, last)) = under_2_5(self.0) {
            return write!(f, "2.5.{third}.{last}");
        }
        let Some(arcs) = Arcs::in_content(self.0) else {
            return write!(f, "{}", Hex(self.0));
        };
        let mut is_first = true;
        for arc in arcs {
            if !is_first {
                f.write_str(".")?;
            }
            is_first = false;
            write!(f, "{arc}")?;
        }
        Ok(())
    }
}

/// An address of the internet protocol: of four bytes with dots, of sixteen as RFC 5952 writes it, and of any other length
/// in hexadecimal.
#[derive(Clone, Copy, Drop)]
pub struct Address<'a>(pub &'a [u8]);

/// The eight groups of an address of sixteen bytes.
fn groups_of(bytes: &[u8]) -> [u16; 8] {
    let mut groups = [0; 8];
    for (group, pair) in groups.iter_mut().zip(bytes.chunks(2)) {
        if let [high, low] = pair {
            *group = u16::from(*high) * 256 + u16::from(*low);
        }
    }
    groups
}

/// Where the first of the longest runs of at least two zero groups begins, and how long it is (RFC 5952, 4.2).
fn longest_zeros(groups: &[u16; 8]) -> (usize, usize) {
    let mut best = (8, 1);
    let mut run: usize = 0;
    for (index, group) in groups.iter().enumerate() {
        run = if *group == 0 {
            run.saturating_add(1)
        } else {
            0
        };
        if run > best.1 {
            best = (index.saturating_add(1).saturating_sub(run), run);
        }
    }
    best
}

/// Writes an address of sixteen bytes.
fn write_groups<W: Write>(f: &mut fmt::Formatter<W>, bytes: &[u8]) -> fmt::Result {
    let groups = groups_of(bytes);
    let (from, count) = longest_zeros(&groups);
    let behind = from.saturating_add(count);
    for (index, group) in groups.iter().enumerate() {
        if index == from && count > 1 {
            f.write_str("::")?;
        }
        if index < from || index >= behind {
            if index != 0 && index != behind {
                f.write_str(":")?;
            }
            write!(f, "{group:x}")?;
        }
    }
    Ok(())
}

impl Display for Address<'_> {
    fn fmt<W: Write>(&self, f: &mut fmt::Formatter<W>) -> fmt::Result {
        match self.0 {
            [first, second, third, fourth] => write!(f, "{first}.{second}.{third}.{fourth}"),
            bytes if bytes.len() == 16 => write_groups(f, bytes),
            bytes => write!(f, "{}", Hex(bytes)),
        }
    }
}

/// The characters of text in UTF-16, high bytes first; U+FFFD for a surrogate without a partner.
#[derive(Clone, Copy, Drop)]
pub struct Utf16<'a>(pub &'a [u8]);

/// The unit at the start; 0 where there is none.
fn unit(bytes: &[u8]) -> u32 {
    match bytes {
        [high, low, ..] => u32::from(*high) * 256 + u32::from(*low),
        _ => 0,
    }
}

/// The character of a unit and the one behind it, if they are a pair of surrogates.
fn pair(high: u32, low: u32) -> Option<char> {
    if high & 0xfc00 != 0xd800 || low & 0xfc00 != 0xdc00 {
        return None;
    }
    char::from_u32(0x1_0000 + (high & 0x3ff) * 0x400 + (low & 0x3ff))
}

/// The character at the start, and what comes behind it.
fn next_char(bytes: &[u8]) -> (char, &[u8])
    requires { 2 ≤ length bytes.now }
    ensures shorter { length result.1.now < length bytes.entry.now }
{
    let high = unit(bytes);
    let rest = &bytes[2..];
    match pair(high, unit(rest)) {
        Some(character) if rest.len() >= 2 => (character, &rest[2..]),
        _ => (char::from_u32(high).unwrap_or('\u{fffd}'), rest),
    }
}

/// Whether text in UTF-16 is whole: pairs of bytes, and no surrogate without a partner.
pub fn is_whole_utf16(bytes: &[u8]) -> bool {
    let mut rest = bytes;
    while rest.len() >= 2 {
        let (character, behind) = next_char(rest);
        if character == '\u{fffd}' && unit(rest) != 0xfffd {
            return false;
        }
        rest = behind;
    }
    rest.is_empty()
}

impl Display for Utf16<'_> {
    fn fmt<W: Write>(&self, f: &mut fmt::Formatter<W>) -> fmt::Result {
        let mut rest = self.0;
        while rest.len() >= 2 {
            let (character, behind) = next_char(rest);
            f.write_char(character)?;
            rest = behind;
        }
        Ok(())
    }
}

/// The characters of text in UTF-32, high bytes first; U+FFFD for what is none.
#[derive(Clone, Copy, Drop)]
pub struct Utf32<'a>(pub &'a [u8]);

/// The character of four bytes, high bytes first, if it is one.
fn wide_char(bytes: &[u8]) -> Option<char> {
    match bytes {
        [0, plane @ 0..=16, high, low] => {
            char::from_u32(u32::from(*plane) * 0x1_0000 + u32::from(*high) * 256 + u32::from(*low))
        }
        _ => None,
    }
}

/// Whether text in UTF-32 is whole: four bytes for each character, and each of these is one.
pub fn is_whole_utf32(bytes: &[u8]) -> bool {
    bytes.chunks(4).all(|group| wide_char(group).is_some())
}

impl Display for Utf32<'_> {
    fn fmt<W: Write>(&self, f: &mut fmt::Formatter<W>) -> fmt::Result {
        for group in self.0.chunks(4) {
            f.write_char(wide_char(group).unwrap_or('\u{fffd}'))?;
        }
        Ok(())
    }
}

/// The characters of text in ISO 8859-1, whose numbers are those of Unicode.
#[derive(Clone, Copy, Drop)]
pub struct Latin1<'a>(pub &'a [u8]);

impl Display for Latin1<'_> {
    fn fmt<W: Write>(&self, f: &mut fmt::Formatter<W>) -> fmt::Result {
        for byte in self.0 {
            f.write_char(char::from(*byte))?;
        }
        Ok(())
    }
}
