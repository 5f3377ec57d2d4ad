//! Weeks by the day on which they begin.

ghost use Rattle.std.specs.Prelude.{◌≡◌, ◌-ℤ◌, neg_ℤ, pos};
ghost use Rattle.cal_days.specs.Day.{IsBetween};
ghost use Rattle.cal_rrule.specs.Weeks.{IsWeekOf};

use cal_days::RataDie;
use cal_types::Weekday;

/// Returns how many days a day lies behind another one, which is near day 0.
fn days_from(number: u8, day: RataDie) -> i64
    requires { IsBetween (neg_ℤ (pos 2000000000)) (pos 2000000000) day }
    ensures { result ≡ day -ℤ pos number }
{
    day.to_i64_date() - i64::from(number)
}

/// Returns the first day of the week of a day, by the weekday on which weeks begin.
pub(crate) fn week_of(week_start: Weekday, day: RataDie) -> i64
    requires { IsBetween (neg_ℤ (pos 2000000000)) (pos 2000000000) day }
    ensures { IsWeekOf week_start day result }
{
    let ahead = days_from(week_start.number(), day);
    let behind = ahead.rem_euclid(7);
    day.to_i64_date() - behind
}
