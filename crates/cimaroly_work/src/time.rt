//! Times of the command line.

use x509_inspect::Moment;

/// The number that decimal digits of ASCII are; `None` where these aren't such.
fn number(digits: &[u8]) -> Option<u16> {
    let mut number: u16 = 0;
    for digit in digits {
        if !digit.is_ascii_digit() {
            return None;
        }
        number = number
            .checked_mul(10)?
            .checked_add(u16::from(digit.wrapping_sub(b'0')))?;
    }
    Some(number)
}

/// The number of two digits, if it is at least one number and at most another.
fn pair(digits: &[u8], least: u8, greatest: u8) -> Option<u8> {
    let number = u8::try_from(number(digits)?).ok()?;
    if number < least || number > greatest {
        return None;
    }
    Some(number)
}

/// How many days a month has in the Gregorian calendar.
fn days_of(year: u16, month: u8) -> u8 {
    let is_leap = year % 4 == 0 && (year % 100 != 0 || year % 400 == 0);
    match month {
        2 if is_leap => 29,
        2 => 28,
        4 | 6 | 9 | 11 => 30,
        _ => 31,
    }
}

/// The day of a text as `2026-12-26`.
fn date_of(text: &[u8]) -> Option<(u16, u8, u8)> {
    let [a, b, c, d, b'-', e, f, b'-', g, h] = text else {
        return None;
    };
    let year = number(&[*a, *b, *c, *d])?;
    let month = pair(&[*e, *f], 1, 12)?;
    let day = pair(&[*g, *h], 1, days_of(year, month))?;
    Some((year, month, day))
}

/// The second of a day of a text as `10:24:46`.
fn clock_of(text: &[u8]) -> Option<(u8, u8, u8)> {
    let [a, b, b':', c, d, b':', e, f] = text else {
        return None;
    };
    let hour = pair(&[*a, *b], 0, 23)?;
    let minute = pair(&[*c, *d], 0, 59)?;
    let second = pair(&[*e, *f], 0, 59)?;
    Some((hour, minute, second))
}

/// The second of a text as `2026-12-26T10:24:46Z` (RFC 3339, 5.6), of universal time and without fractions; `None` where it
/// isn't such.
pub fn moment_of(text: &str) -> Option<Moment> {
    let (date, rest) = text.split_once('T')?;
    let clock = rest.strip_suffix('Z')?;
    Some(Moment {
        date: date_of(date.as_bytes())?,
        time: clock_of(clock.as_bytes())?,
    })
}
