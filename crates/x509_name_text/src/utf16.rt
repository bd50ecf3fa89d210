//! Text in UTF-16, high bytes first.

ghost use Rattle.std.specs.Prelude.{◌≡◌, ◌+◌, ◌*◌, ◌<◌, ◌&&◌, [], ◌∷◌, false, true, length, MatchOption};
ghost use Rattle.std.specs.Char.Utf16.{is_high_surrogate, is_low_surrogate, lone_unit_char, surrogate_pair_char, utf16_lossy_chars};
ghost use Rattle.std.specs.Option.{unwrap_or};
ghost use Rattle.x509_name_text.specs.Texts.{units_of};

/// The unit of two bytes.
fn unit_of(high: u8, low: u8) -> u16
    ensures { result ≡ high * 256 + low }
{
    u16::from(high) * 256 + u16::from(low)
}

/// The character of two surrogates, if they are a pair.
fn of_pair(high: u16, low: u16) -> Option<char>
    ensures { MatchOption result
        ((is_high_surrogate high && is_low_surrogate low) ≡ false)
        (λ c. ((is_high_surrogate high && is_low_surrogate low) ≡ true) × (c ≡ surrogate_pair_char high low)) }
{
    if 0xd800 <= high && high < 0xdc00 && 0xdc00 <= low && low < 0xe000 {
        let high = u32::from(high) - 0xd800;
        let low = u32::from(low) - 0xdc00;
        return char::from_u32(0x10000 + high * 0x400 + low);
    }
    None
}

/// The character of a unit by itself: U+FFFD of a surrogate.
fn of_unit(unit: u16) -> char
    ensures { result ≡ unwrap_or (lone_unit_char unit) 0xfffd }
{
    char::from_u32(u32::from(unit)).unwrap_or('\u{fffd}')
}

/// The first unit of a text, and what comes behind it.
fn first_unit(text: &[u8]) -> Option<(u16, &[u8])>
    ensures { MatchOption result (units_of text.now ≡ [])
        (λ r. (units_of text.now ≡ r.0 ∷ units_of r.1.now) × (length r.1.now < length text.now)) }
{
    let (high, behind) = text.split_first()?;
    let (low, rest) = behind.split_first()?;
    Some((unit_of(*high, *low), rest))
}

/// The first character of a text, and what comes behind it.
pub(crate) fn first_of(text: &[u8]) -> Option<(char, &[u8])>
    ensures { MatchOption result (units_of text.now ≡ [])
        (λ r. (utf16_lossy_chars (units_of text.now) ≡ r.0 ∷ utf16_lossy_chars (units_of r.1.now)) × (length r.1.now < length text.now)) }
{
    let (first, rest) = first_unit(text)?;
    let Some((second, behind)) = first_unit(rest) else {
        return Some((of_unit(first), rest));
    };
    match of_pair(first, second) {
        Some(symbol) => Some((symbol, behind)),
        None => Some((of_unit(first), rest)),
    }
}
