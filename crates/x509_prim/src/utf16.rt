//! The characters of bytes that are units of UTF-16.

ghost use Rattle.std.specs.Prelude.{◌≡◌, ◌<◌, ◌≤◌, ◌&&◌, ◌∷◌, length, slice_index_or, encode_utf8_all, IsTrue};
ghost use Rattle.std.specs.Fmt.{WritesOnOk};
ghost use Rattle.std.specs.Option.{unwrap_or};
ghost use Rattle.std.specs.Char.Utf16.{is_high_surrogate, is_low_surrogate, lone_unit_char, surrogate_pair_char};
ghost use Rattle.x509_prim.specs.Utf16.{units_in, lossy_chars};

use std::fmt;

/// The unit that the first two bytes encode, and 0 where there are fewer.
fn first_unit(bytes: &[u8]) -> u16
    ensures { result ≡ slice_index_or (units_in bytes.now) 0 0 }
{
    if bytes.len() < 2 {
        return 0;
    }
    u16::from(bytes[0]) * 256 + u16::from(bytes[1])
}

/// Whether the two units are a pair of surrogates.
fn is_pair(unit: u16, next: u16) -> bool
    ensures { result ≡ (is_high_surrogate unit && is_low_surrogate next) }
{
    0xD800 <= unit && unit < 0xDC00 && 0xDC00 <= next && next < 0xE000
}

/// The character of a pair of surrogates.
fn pair_char(high: u16, low: u16) -> char
    requires { IsTrue (is_high_surrogate high && is_low_surrogate low) }
    ensures { result ≡ surrogate_pair_char high low }
{
    let code = 0x1_0000 + (u32::from(high) - 0xD800) * 0x400 + (u32::from(low) - 0xDC00);
    char::from_u32(code).unwrap_or(char::REPLACEMENT_CHARACTER)
}

/// The character of a unit that is in no pair: U+FFFD for a surrogate.
fn lone_char(unit: u16) -> char
    ensures { result ≡ unwrap_or (lone_unit_char unit) 0xFFFD }
{
    char::from_u32(u32::from(unit)).unwrap_or(char::REPLACEMENT_CHARACTER)
}

/// The first character of the bytes, and the bytes behind it.
fn next_char(bytes: &[u8]) -> (char, &[u8])
    requires { 2 ≤ length bytes.now }
    ensures text { lossy_chars bytes.entry.now ≡ result.0 ∷ lossy_chars result.1.now }
    ensures shorter { length result.1.now < length bytes.entry.now }
{
    let unit = first_unit(bytes);
    let rest = &bytes[2..];
    let next = first_unit(rest);
    if is_pair(unit, next) {
        return (pair_char(unit, next), &rest[2..]);
    }
    (lone_char(unit), rest)
}

/// Writes the characters that the bytes encode. Takes no memory.
pub(crate) fn write_utf16<W: fmt::Write>(f: &mut fmt::Formatter<W>, bytes: &[u8]) -> fmt::Result
    ensures { WritesOnOk W.write_str_gives f.old result (encode_utf8_all (lossy_chars bytes.now)) f.new }
{
    let mut rest = bytes;
    while rest.len() >= 2 {
        let (character, behind) = next_char(rest);
        f.write_char(character)?;
        rest = behind;
    }
    Ok(())
}
