//! Coptic years, which dates of the Coptic and the Ethiopian calendar store, with their months and days.

ghost use Rattle.std.specs.Prelude.{◌≡◌, ◌+◌, ◌/◌, ◌%◌, ◌<◌, ◌≤◌, ◌↔◌, IsTrue, neg_ℤ, pos, ◌-ℤ◌};
ghost use Rattle.cal_days.specs.Coptic.{coptic_leap};
ghost use Rattle.cal_days.specs.Day.{IsBetween, IsShiftedYear, IsValidDay, is_field_year};
ghost use Rattle.cal_types.specs.CalendarList.{IsDate, IsOn, date, day_number, month_length};
ghost use Rattle.cal_coptic.specs.CopticList.{coptic_list};
ghost use Rattle.cal_coptic.specs.CopticNames.{coptic_reference_year};

use cal_base::NumberedYear;
use cal_days::ranges::MAX_FIELD_YEAR;
use cal_days::{RataDie, coptic};

/// The greatest absolute value of a year that fields may name.
const MOST: i64 = MAX_FIELD_YEAR as i64;

/// Returns whether the year has 366 days.
pub(crate) fn is_leap(year: NumberedYear) -> bool
    ensures { IsTrue result ↔ IsTrue (coptic_leap year.number) }
{
    coptic::is_leap_year(year.number)
}

/// Returns the number of days in a month of the year, 1 to 13: 30, or 5 or 6 in month 13.
pub(crate) fn days_in_month(year: NumberedYear, month: u8) -> u8
    requires { (1 ≤ month) × (month ≤ 13) }
    ensures { result ≡ month_length coptic_list year.number month }
{
    if month <= 12 {
        30
    } else if is_leap(year) {
        6
    } else {
        5
    }
}

/// Returns the day number of a month and a day of a year from -8009999 to 8009999.
pub(crate) fn day_number(year: NumberedYear, month: u8, day: u8) -> RataDie
    requires year { IsShiftedYear year.number }
    requires date { IsDate coptic_list (date year.number month day) }
    ensures { result ≡ day_number coptic_list (date year.number month day) }
{
    let before = 30 * u16::from(month - 1) + u16::from(day - 1);
    RataDie::new(coptic::year_start(year.number).to_i64_date() + i64::from(before))
}

/// Returns whether fields may name the year, whose extended year is its number minus `offset`.
pub(crate) fn can_be_named_from(year: NumberedYear, offset: i32) -> bool
    ensures { result ≡ is_field_year (year.number -ℤ offset) }
{
    may_be_named(i64::from(year.number) - i64::from(offset))
}

/// Returns whether fields may name an extended year.
fn may_be_named(extended_year: i64) -> bool
    ensures { result ≡ is_field_year extended_year }
{
    -MOST <= extended_year && extended_year <= MOST
}

/// Returns the month and the day of the month of a day of the year, 0 to 365.
pub(crate) fn month_and_day(day_of_year: u16) -> (u8, u8)
    requires { day_of_year < 366 }
    ensures month { result.0 ≡ day_of_year / 30 + 1 }
    ensures day { result.1 ≡ day_of_year % 30 + 1 }
{
    ((day_of_year / 30) as u8 + 1, (day_of_year % 30) as u8 + 1)
}

/// Returns the Coptic year, the ordinal month and the day of the month of a valid day.
pub(crate) fn coptic_date(rd: RataDie) -> (NumberedYear, u8, u8)
    requires { IsValidDay rd }
    ensures on { IsOn coptic_list rd (date result.0.number result.1 result.2) }
    ensures year { IsBetween (neg_ℤ (pos 1000263)) (pos 999695) result.0.number }
{
    let (number, day_of_year) = coptic::year_and_day_from_fixed(rd);
    let (month, day) = month_and_day(day_of_year);
    (NumberedYear { number }, month, day)
}

/// Returns the reference year of a day of a month, 1 to 13: the latest year in which the day falls on or before
/// 1972-12-31 of the ISO calendar.
pub(crate) fn reference_year(month: u8, day: u8) -> NumberedYear
    ensures year { result.number ≡ coptic_reference_year month day }
    ensures range { IsBetween (pos 1687) (pos 1689) result.number }
{
    let number = match (month, day) {
        (..=3, _) | (4, ..=22) => 1689,
        (13, 6..) => 1687,
        _ => 1688,
    };
    NumberedYear { number }
}
