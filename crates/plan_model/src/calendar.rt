//! The calendar of the years that moments may have: jiff's, for numbers that aren't signed.
ghost use Rattle.std.specs.Prelude.{◌≡◌, ◌<◌, ◌≤◌, ◌*◌, ◌^◌, IsTrue};
ghost use Rattle.plan_model.specs.Calendar.{is_date, days_before};

use crate::SECONDS_PER_DAY;
use jiff::civil::{Date, date};

/// The first year of a moment.
pub const MIN_YEAR: u64 = 2000;

/// The last year of a moment.
pub const MAX_YEAR: u64 = 2999;

/// Whether the calendar has this date.
pub(crate) fn is_date(year: u64, month: u64, day: u64) -> bool
    requires { year ≤ MAX_YEAR }
    ensures { result ≡ is_date year month day }
{
    month <= 12 && day <= 31 && Date::new(year as i16, month as i8, day as i8).is_ok()
}

/// The seconds from 1 January 1970 up to the beginning of the date.
pub(crate) fn seconds_before_date(year: u64, month: u64, day: u64) -> u64
    requires date { IsTrue (is_date year month day) }
    requires late { 1970 ≤ year }
    requires early { year ≤ MAX_YEAR }
    ensures value { result ≡ days_before year month day * SECONDS_PER_DAY }
    ensures small { result < 2 ^ 63 }
{
    let date_read = date(year as i16, month as i8, day as i8);
    date_read.duration_since(date(1970, 1, 1)).as_secs() as u64
}
