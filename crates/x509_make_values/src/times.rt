//! UTCTimes and GeneralizedTimes.

ghost use Rattle.std.specs.Prelude.{◌≤◌, IfSome, OnOk};
ghost use Rattle.x509_make_parts.specs.Appending.{Appends};

use json::Value;
use std::alloc::Allocator;
use x509_make_parts::node::{check_leaf, text_of};
use x509_make_parts::write::append_value;
use x509_make_parts::{Done, Fault, Maker};
use x509_prim::{GeneralizedTime, GeneralizedTimeAsn1, UTCTime, UtcTimeAsn1};

/// The value of a decimal digit.
fn digit(byte: u8) -> Option<u8>
    ensures { IfSome result (λ d. d ≤ 9) }
{
    match byte {
        b'0'..=b'9' => Some(byte - b'0'),
        _ => None,
    }
}

/// The number of two decimal digits.
fn pair(tens: u8, ones: u8) -> Option<u8>
    ensures { IfSome result (λ n. n ≤ 99) }
{
    let tens = digit(tens)?;
    let ones = digit(ones)?;
    Some(tens * 10 + ones)
}

/// A year, and from the month on the other numbers of a second.
#[derive(Clone, Copy, Drop)]
struct Second {
    year: u16,
    parts: [u8; 5],
}

/// The date that a text of ten bytes says, as `2026-11-26`: the year, the month and the day.
fn date_of(text: &[u8]) -> Option<(u16, u8, u8)> {
    let [a, b, c, d, b'-', e, f, b'-', g, h] = text else {
        return None;
    };
    let century = pair(*a, *b)?;
    let year = pair(*c, *d)?;
    let month = pair(*e, *f)?;
    let day = pair(*g, *h)?;
    Some((u16::from(century) * 100 + u16::from(year), month, day))
}

/// The time of the day that a text of nine bytes says, as `10:06:40Z`.
fn time_of(text: &[u8]) -> Option<(u8, u8, u8)> {
    let [a, b, b':', c, d, b':', e, f, b'Z'] = text else {
        return None;
    };
    let hour = pair(*a, *b)?;
    let minute = pair(*c, *d)?;
    let second = pair(*e, *f)?;
    Some((hour, minute, second))
}

/// The second that a text says in universal time, as `2026-11-26T10:06:40Z` (RFC 3339, 5.6).
fn second_of(text: &str) -> Option<Second> {
    let (date, time) = text.split_once('T')?;
    let (year, month, day) = date_of(date.as_bytes())?;
    let (hour, minute, second) = time_of(time.as_bytes())?;
    Some(Second {
        year,
        parts: [month, day, hour, minute, second],
    })
}

/// Whether a time is written as a UTCTime: as `asn1` says, and else from 1950 to 2049 (RFC 5280, 4.1.2.5).
fn is_utc<A: Allocator + Copy>(node: &Value<'_, A>, year: u16) -> Result<bool, Fault> {
    match node.get("asn1") {
        None => Ok(1950 <= year && year < 2050),
        Some(Value::String("UTCTime")) => Ok(true),
        Some(Value::String("GeneralizedTime")) => Ok(false),
        Some(_) => Err(Fault::Said("asn1 is neither UTCTime nor GeneralizedTime")),
    }
}

/// What a time is asked to be.
const THERE: &'static str = "a day and a time that there are";

/// Appends a UTCTime.
fn utc_time<A: Allocator + Copy>(maker: &mut Maker<A>, second: &Second) -> Done
    ensures { OnOk result (Appends maker.old.out.items maker.new.out.items) }
{
    let [month, day, hour, minute, last] = second.parts;
    match UTCTime::new(second.year, month, day, hour, minute, last) {
        Some(time) => append_value(maker.alloc, &mut maker.out, &UtcTimeAsn1(time)),
        None if 1950 <= second.year && second.year < 2050 => Err(Fault::Not(THERE)),
        None => Err(Fault::Said("a UTCTime is from 1950 to 2049")),
    }
}

/// Appends a GeneralizedTime.
fn generalized_time<A: Allocator + Copy>(maker: &mut Maker<A>, second: &Second) -> Done
    ensures { OnOk result (Appends maker.old.out.items maker.new.out.items) }
{
    let [month, day, hour, minute, last] = second.parts;
    match GeneralizedTime::new(second.year, month, day, hour, minute, last) {
        Some(time) => append_value(maker.alloc, &mut maker.out, &GeneralizedTimeAsn1(time)),
        None => Err(Fault::Not(THERE)),
    }
}

/// Appends the time that a node says in universal time, as `2026-11-26T10:06:40Z`: a UTCTime from 1950 to 2049, and else a
/// GeneralizedTime, unless its member `asn1` says otherwise.
///
/// # Errors
/// `Not` where it says none, `Said` where `asn1` names neither type, and those of `check_leaf`.
pub fn time<A: Allocator + Copy>(maker: &mut Maker<A>, node: &Value<'_, A>) -> Done
    ensures { OnOk result (Appends maker.old.out.items maker.new.out.items) }
{
    check_leaf(&mut maker.place, node)?;
    let text = text_of(node, "a time")?;
    let Some(second) = second_of(text) else {
        return Err(Fault::Not("a time, as 2026-11-26T10:06:40Z"));
    };
    if is_utc(node, second.year)? {
        utc_time(maker, &second)
    } else {
        generalized_time(maker, &second)
    }
}
