//! Seconds as numbers.

ghost use Rattle.std.specs.Prelude.{◌≡◌, ◌<◌, ◌≤◌, ◌*◌};
ghost use Rattle.x509_prim.specs.Calendar.{IsMoment};
ghost use Rattle.x509_values.specs.Moments.{moment_of};
ghost use Rattle.x509_values.specs.UnixTimes.{is_leap as leap_of, days_before_month as days_to_month, days_before_year as days_to_year, seconds_before, unix_seconds, CountSeconds};

/// How many seconds stand before 1970, from the year 0 on.
const SECONDS_BEFORE_1970: i64 = 62_167_219_200;

/// A second in UTC, in the Gregorian calendar.
#[derive(Clone, Copy, Debug, PartialEq, Eq)]
pub struct Moment {
    /// The year, 0 to 9999.
    pub year: u16,
    /// The month, from 1.
    pub month: u8,
    /// The day of the month, from 1.
    pub day: u8,
    /// The hour, 0 to 23.
    pub hour: u8,
    /// The minute, 0 to 59.
    pub minute: u8,
    /// The second, 0 to 59.
    pub second: u8,
}

/// Whether a year has 366 days.
fn is_leap(year: u16) -> bool
    ensures { result ≡ leap_of year }
{
    year % 4 == 0 && (year % 100 != 0 || year % 400 == 0)
}

/// How many days stand before a year, from the year 0 on.
fn days_before_year(year: u16) -> u32
    ensures days { result ≡ days_to_year year }
    ensures fits { result ≤ 366 * year }
{
    let year = year as u32;
    365 * year + (year + 3) / 4 + (year + 399) / 400 - (year + 99) / 100
}

/// How many days stand before each month of a year that isn't a leap year.
const DAYS_BEFORE_MONTHS: [u16; 12] = [0, 31, 59, 90, 120, 151, 181, 212, 243, 273, 304, 334];

/// How many days of a year stand before a month.
fn days_before_month(year: u16, month: u8) -> u16
    requires from_january { 1 ≤ month }
    requires to_december { month ≤ 12 }
    ensures days { result ≡ days_to_month year month }
    ensures fits { result < 366 }
{
    let common = DAYS_BEFORE_MONTHS[month as usize - 1];
    if month > 2 && is_leap(year) {
        common + 1
    } else {
        common
    }
}

impl Moment {
    /// How many seconds stand before it, from the year 0 on.
    fn seconds(&self) -> u64
        requires { IsMoment (moment_of self.now) }
        ensures seconds { result ≡ seconds_before (moment_of self.now) }
        ensures fits { result < 1000000000000 }
    {
        let before = days_before_month(self.year, self.month) as u64;
        let days = days_before_year(self.year) as u64 + before + (self.day as u64 - 1);
        let second_of_day = self.hour as u64 * 3600 + self.minute as u64 * 60 + self.second as u64;
        days * 86400 + second_of_day
    }

    /// Seconds since 1970-01-01 00:00:00 UTC, leap seconds not counted: below 0 before that.
    pub fn unix_time(&self) -> i64
        requires { IsMoment (moment_of self.now) }
        ensures { result ≡ unix_seconds (moment_of self.now) }
    {
        self.seconds() as i64 - SECONDS_BEFORE_1970
    }
}

/// What the numbers of seconds are: that of the first second of 1970 is 0, and each second's is one more than that of the
/// second before it.
pub fn unix_times()
    ensures { CountSeconds unix_seconds }
{}
