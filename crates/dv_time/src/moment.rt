//! Moments.

ghost use Rattle.std.specs.Prelude.{◌≡◌, ◌+◌, ◌*◌, ◌<◌, ◌≤◌, MatchOption};
ghost use Rattle.dv_time.specs.Text.{last_second};

use crate::civil::DAY;
use std::marker::Model;

/// 1970-01-01T00:00:00Z, in seconds from 1950-01-01T00:00:00Z.
const UNIX_EPOCH: u64 = 631_152_000;

/// 9999-12-31T23:59:59Z, in seconds from 1950-01-01T00:00:00Z.
const LAST: u64 = 254_033_452_799;

/// A second of the years 1950 to 9999 in UTC.
///
/// Contracts see it as the number of seconds from 1950-01-01T00:00:00Z, with no leap seconds.
#[derive(Clone, Copy, Debug, PartialEq, Eq, PartialOrd, Ord)]
pub struct Moment(u64);

impl Model for Moment {
    ghost use Rattle.std.specs.Prelude.{ℕ, ◌≤◌};
    ghost use Rattle.dv_time.specs.Text.{last_second};

    ghost Value = { ℕ };

    ghost view = { λ m. m.0 };

    ghost invariant = { λ m. m.0 ≤ last_second };

    ghost inverse = { λ n. record { 0 = n } };
}

impl Moment {
    /// The moment so many seconds after 1950-01-01T00:00:00Z; None exactly past 9999-12-31T23:59:59Z.
    pub(crate) fn at(seconds: u64) -> Option<Moment>
        ensures { MatchOption result (last_second < seconds)
            (λ m. (m ≡ seconds) × (seconds ≤ last_second)) }
    {
        if seconds > LAST {
            None
        } else {
            Some(Moment(seconds))
        }
    }

    /// The moment so many seconds after 1970-01-01T00:00:00Z; None exactly past 9999-12-31T23:59:59Z.
    pub fn from_unix(seconds: u64) -> Option<Moment>
        ensures { MatchOption result (last_second < seconds + 631_152_000)
            (λ m. (m ≡ seconds + 631_152_000) × (m ≤ last_second)) }
    {
        match seconds.checked_add(UNIX_EPOCH) {
            None => None,
            Some(seconds) => Moment::at(seconds),
        }
    }

    /// The seconds from 1950-01-01T00:00:00Z.
    pub fn seconds(self) -> u64
        ensures value { result ≡ self }
        ensures within { result ≤ last_second }
    {
        self.0
    }
}

/// The same time of day so many days later; None exactly past 9999-12-31T23:59:59Z.
pub fn add_days(m: Moment, days: u32) -> Option<Moment>
    ensures { MatchOption result (last_second < m + days * 86_400)
        (λ r. (r ≡ m + days * 86_400) × (r ≤ last_second)) }
{
    Moment::at(m.0 + days as u64 * DAY)
}
