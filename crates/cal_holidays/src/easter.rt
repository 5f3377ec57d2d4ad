//! Days counted from Easter.

ghost use Rattle.std.specs.Prelude.{◌-ℤ◌, ◌+ℤ◌, ◌≤ℤ◌, ◌<ℤ◌, pos, neg_ℤ};
ghost use Rattle.cal_days.specs.Day.{IsBetween, IsValidDay};
ghost use Rattle.cal_days.specs.Easter.{IsSundayAfter};
ghost use Rattle.cal_holidays.specs.NamedDays.{IsEasterOf};
ghost use Rattle.cal_holidays.specs.Naming.{easter_moon, year_start};
ghost use Rattle.cal_holidays.specs.OwnDays.{AreYearsOf, IsValidOne};

use crate::own_days::YearSpan;
use crate::valid_days::{first_valid, last_valid, valid_day};
use cal_days::{RataDie, gregorian, julian};

/// How many years before and after a day's year have to be searched for an Easter at most 400 days away.
const YEARS_BESIDE: i32 = 2;

/// Returns the day that lies `offset` days after Easter of a year, or before it if `offset` is negative, if it is valid.
pub(crate) fn easter_day(julian: bool, offset: i32, year: i32) -> Option<RataDie>
    requires near { IsBetween (neg_ℤ (pos 400)) (pos 400) offset }
    ensures { IsValidOne (λ n. IsEasterOf julian year (n -ℤ offset)) result }
{
    valid_day(easter_and(julian, year, offset))
}

/// Returns the years whose Easters lie `offset` days before days from one day to another.
pub(crate) fn easter_years(julian: bool, offset: i32, from: i64, to: i64) -> YearSpan
    requires near { IsBetween (neg_ℤ (pos 400)) (pos 400) offset }
    requires from { from ≤ℤ pos 365242134 }
    requires to { neg_ℤ (pos 365242499) ≤ℤ to }
    ensures { AreYearsOf (λ y n. IsEasterOf julian y (n -ℤ offset)) from to result }
{
    YearSpan {
        low: year_containing(julian, first_valid(from)) - YEARS_BESIDE,
        high: year_containing(julian, last_valid(to)) + YEARS_BESIDE,
    }
}

/// Returns the number of the day that lies `offset` days after Easter of a year.
fn easter_and(julian: bool, year: i32, offset: i32) -> i64
    requires near { IsBetween (neg_ℤ (pos 400)) (pos 400) offset }
    ensures { IsSundayAfter (easter_moon julian year) (result -ℤ offset) }
{
    easter(julian, year).to_i64_date() + i64::from(offset)
}

/// Returns the year that contains a valid day.
fn year_containing(julian: bool, day: RataDie) -> i32
    requires { IsValidDay day }
    ensures first { year_start julian result ≤ℤ day }
    ensures last { day <ℤ year_start julian (result +ℤ pos 1) }
    ensures range { IsBetween (neg_ℤ (pos 999999)) (pos 999999) result }
{
    if julian {
        julian::year_from_fixed(day)
    } else {
        gregorian::year_from_fixed(day)
    }
}

/// Returns the day of Easter of a year.
fn easter(julian: bool, year: i32) -> RataDie
    ensures { IsSundayAfter (easter_moon julian year) result }
{
    if julian {
        julian::easter(year)
    } else {
        gregorian::easter(year)
    }
}
