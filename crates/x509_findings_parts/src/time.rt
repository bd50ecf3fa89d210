//! Times.

ghost use Rattle.std.specs.Prelude.{◌≡◌, ◌↔◌, IsTrue};
ghost use Rattle.x509_findings_parts.specs.Times.{IsBefore, IsEarly, Less, clock_in, date_in, moment_in};

use x509_names::Time;

/// The day that a time says: year, month and day.
fn date_of(time: &Time) -> (u16, u8, u8)
    ensures { result ≡ date_in (moment_in time.now) }
{
    match time {
        Time::Utc(time) => (time.0.year(), time.0.month(), time.0.day()),
        Time::Generalized(time) => (time.0.year(), time.0.month(), time.0.day()),
    }
}

/// The second of the day that a time says: hour, minute and second.
fn clock_of(time: &Time) -> (u8, u8, u8)
    ensures { result ≡ clock_in (moment_in time.now) }
{
    match time {
        Time::Utc(time) => (time.0.hour(), time.0.minute(), time.0.second()),
        Time::Generalized(time) => (time.0.hour(), time.0.minute(), time.0.second()),
    }
}

/// Whether one day comes before another.
fn is_earlier_day(first: (u16, u8, u8), second: (u16, u8, u8)) -> bool
    ensures { IsTrue result ↔ Less first second }
{
    if first.0 != second.0 {
        first.0 < second.0
    } else if first.1 != second.1 {
        first.1 < second.1
    } else {
        first.2 < second.2
    }
}

/// Whether one second of a day comes before another.
fn is_earlier_second(first: (u8, u8, u8), second: (u8, u8, u8)) -> bool
    ensures { IsTrue result ↔ Less first second }
{
    if first.0 != second.0 {
        first.0 < second.0
    } else if first.1 != second.1 {
        first.1 < second.1
    } else {
        first.2 < second.2
    }
}

/// Whether one time comes before another, in whichever form each is. Takes no memory.
pub fn is_before(first: &Time, second: &Time) -> bool
    ensures { IsTrue result ↔ IsBefore (moment_in first.now) (moment_in second.now) }
{
    let first_day = date_of(first);
    let second_day = date_of(second);
    if first_day == second_day {
        is_earlier_second(clock_of(first), clock_of(second))
    } else {
        is_earlier_day(first_day, second_day)
    }
}

/// Whether a time is a GeneralizedTime before the year 2050. Takes no memory.
pub fn is_early(time: &Time) -> bool
    ensures { IsTrue result ↔ IsEarly time.now }
{
    match time {
        Time::Utc(_) => false,
        Time::Generalized(time) => time.0.year() < 2050,
    }
}
