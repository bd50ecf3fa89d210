//! When a certificate is valid.

ghost use Rattle.std.specs.Prelude.{◌≡◌};
ghost use Rattle.x509_flat.specs.Validities.{IsTime, ValidityTold, no_time};

use crate::status::Answer;
use picky_asn1_x509::{Time, Validity};
use std::alloc::Allocator;
use x509_values::{Moment, certificate_validity};

/// A second in UTC, in the Gregorian calendar (RFC 5280, 4.1.2.5).
#[repr(C)]
#[derive(Clone, Copy, Debug, PartialEq, Eq)]
pub struct FlatTime {
    /// Seconds since 1970-01-01 00:00:00, leap seconds not counted: below 0 before that.
    pub unix_time: i64,
    /// The year, 0 to 9999.
    pub year: u16,
    /// The month, 1 to 12.
    pub month: u8,
    /// The day of the month, 1 to 31.
    pub day: u8,
    /// The hour, 0 to 23.
    pub hour: u8,
    /// The minute, 0 to 59.
    pub minute: u8,
    /// The second, 0 to 59.
    pub second: u8,
}

/// The times between which a certificate is valid, both included.
#[derive(Clone, Copy, Debug, PartialEq, Eq)]
pub struct FlatValidity {
    /// The first second.
    pub not_before: FlatTime,
    /// The last second.
    pub not_after: FlatTime,
}

impl FlatTime {
    /// The same second.
    fn of(time: &Time) -> Self
        ensures { IsTime time.now result }
    {
        let moment = Moment::of(time);
        FlatTime {
            unix_time: moment.unix_time(),
            year: moment.year,
            month: moment.month,
            day: moment.day,
            hour: moment.hour,
            minute: moment.minute,
            second: moment.second,
        }
    }

    /// All zeros.
    fn none() -> Self
        ensures { result ≡ no_time }
    {
        FlatTime {
            unix_time: 0,
            year: 0,
            month: 0,
            day: 0,
            hour: 0,
            minute: 0,
            second: 0,
        }
    }
}

impl FlatValidity {
    /// The same times.
    fn of(validity: &Validity) -> Self
        ensures not_before { IsTime validity.now.not_before result.not_before }
        ensures not_after { IsTime validity.now.not_after result.not_after }
    {
        FlatValidity {
            not_before: FlatTime::of(&validity.not_before),
            not_after: FlatTime::of(&validity.not_after),
        }
    }

    /// All zeros.
    fn none() -> Self
        ensures not_before { result.not_before ≡ no_time }
        ensures not_after { result.not_after ≡ no_time }
    {
        FlatValidity {
            not_before: FlatTime::none(),
            not_after: FlatTime::none(),
        }
    }
}

/// When the certificate is valid. It takes no memory.
pub fn validity<A: Allocator + Copy>(alloc: A, bytes: &[u8]) -> Answer<FlatValidity>
    ensures { ValidityTold A bytes.now result.status result.fields.not_before result.fields.not_after }
{
    match certificate_validity(alloc, bytes) {
        Ok(validity) => Answer::done(FlatValidity::of(&validity)),
        Err(error) => Answer::refused(error, FlatValidity::none()),
    }
}
