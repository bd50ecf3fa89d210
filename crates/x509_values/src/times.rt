//! The six numbers of a time.

ghost use Rattle.std.specs.Prelude.{◌≡◌};
ghost use Rattle.x509_prim.specs.Calendar.{IsMoment};
ghost use Rattle.x509_values.specs.Moments.{moment_of};
ghost use Rattle.x509_values.specs.Times.{moment_in};

use crate::moment::Moment;
use x509_names::Time;

impl Moment {
    /// The second that a time says, in either of its forms.
    pub fn of(time: &Time) -> Self
        ensures moment { moment_of result ≡ moment_in time.now }
        ensures lawful { IsMoment (moment_of result) }
    {
        match time {
            Time::Utc(time) => Moment {
                year: time.0.year(),
                month: time.0.month(),
                day: time.0.day(),
                hour: time.0.hour(),
                minute: time.0.minute(),
                second: time.0.second(),
            },
            Time::Generalized(time) => Moment {
                year: time.0.year(),
                month: time.0.month(),
                day: time.0.day(),
                hour: time.0.hour(),
                minute: time.0.minute(),
                second: time.0.second(),
            },
        }
    }
}
