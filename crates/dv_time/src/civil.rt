//! Civil dates and times of day, and the seconds at which they are.

ghost use Rattle.std.specs.Prelude.{◌≡◌, ◌≤◌, true, false, MatchOption};
ghost use Rattle.dv_time.specs.Text.{civil_of, is_civil, last_second, second_of as number_of_second};

use jiff_core::civil::Date;

/// The days from -9999-01-01, the first date of the calendar's crate, to 1950-01-01.
const DAYS_BEFORE_1950: u32 = 4_364_282;

/// The seconds of a day.
pub(crate) const DAY: u64 = 86_400;

/// A civil date and a time of day.
#[derive(Clone, Copy)]
pub(crate) struct Civil {
    pub year: u16,
    pub month: u8,
    pub day: u8,
    pub hour: u8,
    pub minute: u8,
    pub second: u8,
}

/// The civil date and time of this second, counted from 1950-01-01T00:00:00Z.
pub(crate) fn civil_at(second: u64) -> Civil
    requires { second ≤ last_second }
    ensures { result ≡ civil_of second }
{
    let date = Date::from_days_since_min(DAYS_BEFORE_1950 + (second / DAY) as u32);
    Civil {
        year: date.year as u16,
        month: date.month,
        day: date.day,
        hour: (second / 3600 % 24) as u8,
        minute: (second / 60 % 60) as u8,
        second: (second % 60) as u8,
    }
}

/// The second at which this civil date and time is; None exactly where the calendar hasn't the date from 1950 on, or the day
/// hasn't the time.
pub(crate) fn second_of(civil: Civil) -> Option<u64>
    requires year { civil.year ≤ 9999 }
    requires month { civil.month ≤ 99 }
    requires day { civil.day ≤ 99 }
    ensures { MatchOption result (is_civil civil ≡ false)
        (λ s. (is_civil civil ≡ true) × (s ≡ number_of_second civil)) }
{
    if civil.year < 1950 || civil.hour > 23 || civil.minute > 59 || civil.second > 59 {
        return None;
    }
    match Date::new(civil.year as i16, civil.month as i8, civil.day as i8) {
        Err(_) => None,
        Ok(date) => {
            let days = (date.days_since_min() - DAYS_BEFORE_1950) as u64;
            let clock = civil.hour as u64 * 3600 + civil.minute as u64 * 60 + civil.second as u64;
            Some(days * DAY + clock)
        }
    }
}
