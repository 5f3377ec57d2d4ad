//! Days counted from the first day of a year.

ghost use Rattle.std.specs.Prelude.{◌≡◌, ◌≤◌, ◌+ℤ◌, ◌-ℤ◌, pos, neg_ℤ};
ghost use Rattle.cal_days.specs.Day.{IsBetween};

use cal_days::RataDie;

/// Returns the day number of a day of the month, from the first day of the year and the days of the year before the
/// month.
///
/// - `first_day`: day number, -4000000000 to 4000000000.
/// - `days_before`: 0 to 400.
/// - `day`: counted from 1.
pub fn counted_day(first_day: i64, days_before: u16, day: u8) -> RataDie
    requires first { IsBetween (neg_ℤ (pos 4000000000)) (pos 4000000000) first_day }
    requires before { days_before ≤ 400 }
    ensures { result ≡ first_day +ℤ pos days_before +ℤ pos day -ℤ pos 1 }
{
    RataDie::new(first_day + i64::from(days_before) + i64::from(day) - 1)
}
