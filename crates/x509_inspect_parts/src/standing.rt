//! Whether something is valid at a time.

ghost use Rattle.std.specs.Prelude.{◌≡◌, ◌↔◌, IsTrue};
ghost use Rattle.x509_inspect_parts.specs.Standings.{Before, DateBefore, ClockBefore};

use x509_report_parts::Moment;

/// How a time stands to that for which something is valid.
#[derive(Clone, Copy, Debug, PartialEq, Eq)]
pub enum Standing {
    /// It is within.
    Valid,
    /// It is before.
    Early,
    /// It is behind.
    Late,
}

/// Whether one day comes before another.
fn is_earlier_day(first: (u16, u8, u8), second: (u16, u8, u8)) -> bool
    ensures { IsTrue result ↔ DateBefore first second }
{
    if first.0 != second.0 {
        first.0 < second.0
    } else if first.1 != second.1 {
        first.1 < second.1
    } else {
        first.2 < second.2
    }
}

/// Whether one second of a day comes before another.
fn is_earlier_second(first: (u8, u8, u8), second: (u8, u8, u8)) -> bool
    ensures { IsTrue result ↔ ClockBefore first second }
{
    if first.0 != second.0 {
        first.0 < second.0
    } else if first.1 != second.1 {
        first.1 < second.1
    } else {
        first.2 < second.2
    }
}

/// Whether one second comes before another.
fn is_before(first: Moment, second: Moment) -> bool
    ensures { IsTrue result ↔ Before first second }
{
    if first.date == second.date {
        is_earlier_second(first.time, second.time)
    } else {
        is_earlier_day(first.date, second.date)
    }
}

impl Standing {
    /// How a time stands to what begins with one second and ends with another.
    pub fn of(at: Moment, first: Moment, last: Moment) -> Standing
        ensures early { (result ≡ Standing.Early) ↔ Before at first }
        ensures late { (Before at first → ⊥) → ((result ≡ Standing.Late) ↔ Before last at) }
    {
        if is_before(at, first) {
            Standing::Early
        } else if is_before(last, at) {
            Standing::Late
        } else {
            Standing::Valid
        }
    }

    /// The name, as JSON has it.
    pub fn name(self) -> &'static str {
        match self {
            Standing::Valid => "valid",
            Standing::Early => "not yet valid",
            Standing::Late => "expired",
        }
    }
}
