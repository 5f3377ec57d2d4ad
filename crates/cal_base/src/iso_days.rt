//! Day numbers and month lengths in ISO years.

ghost use Rattle.std.specs.Prelude.{◌≡◌, ◌↔◌, ◌≤◌, IsTrue, pos, neg_ℤ};
ghost use Rattle.cal_days.specs.Day.{IsShiftedYear, IsBetween, IsValidDay};
ghost use Rattle.cal_days.specs.Gregorian.{gregorian_leap};
ghost use Rattle.cal_types.specs.CalendarList.{date, day_number, IsDate, IsOn};
ghost use Rattle.cal_base.specs.GregorianList.{gregorian_list, gregorian_month_length};

use crate::gregorian_months::{
    days_from_march, days_in_month, in_march_year, month_and_day_from_march,
};
use crate::numbered_year::NumberedYear;
use cal_days::{RataDie, gregorian};

/// Returns whether an ISO year has 366 days.
pub(crate) fn is_leap(year: NumberedYear) -> bool
    ensures { IsTrue result ↔ IsTrue (gregorian_leap year.number) }
{
    gregorian::is_leap_year(year.number)
}

/// Returns the number of days in a month, 1 to 12. Only February depends on whether the year is a leap year.
pub(crate) fn days_in_iso_month(year: NumberedYear, month: u8) -> u8
    requires { (1 ≤ month) × (month ≤ 12) }
    ensures { result ≡ gregorian_month_length (gregorian_leap year.number) month }
{
    days_in_month(month == 2 && is_leap(year), month)
}

/// Returns the day number of a date of an ISO year from -8009999 to 8009999.
pub(crate) fn iso_day_number(year: i32, month: u8, day: u8) -> i64
    requires year { IsShiftedYear year }
    requires date { IsDate gregorian_list (date year month day) }
    ensures value { result ≡ day_number gregorian_list (date year month day) }
    ensures bound { IsBetween (neg_ℤ (pos 4000000000)) (pos 4000000000) result }
{
    let (march_year, march_month) = in_march_year(year, month);
    let before = days_from_march(march_month) + u16::from(day - 1);
    gregorian::march_start(march_year).to_i64_date() + i64::from(before)
}

/// Returns the ISO year, the ordinal month and the day of the month of a valid day.
pub(crate) fn iso_date(rd: RataDie) -> (i32, u8, u8)
    requires { IsValidDay rd }
    ensures on { IsOn gregorian_list rd (date result.0 result.1 result.2) }
    ensures year { IsBetween (neg_ℤ (pos 1000000)) (pos 1000000) result.0 }
{
    let (year, since_march) = gregorian::march_year_and_day_from_fixed(rd);
    let (month, day) = month_and_day_from_march(since_march);
    if month > 12 {
        (year + 1, month - 12, day)
    } else {
        (year, month, day)
    }
}
