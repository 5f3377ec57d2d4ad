//! Getters of dates that belong to their calendar.

ghost use Rattle.std.specs.Prelude.{◌≡◌, ◌+◌, ◌+ℤ◌, pos, ◌&&◌, nat_le};
ghost use Rattle.cal_days.specs.Day.{is_valid_day, is_covered_year};
ghost use Rattle.cal_types.specs.MonthParts.{month_parts};
ghost use Rattle.cal_types.specs.CalendarList.{date, day_number, is_date, is_valid_date, month_at, month_count, month_length, start_of_year, year_length};
ghost use Rattle.cal_arith.specs.Dates.{date_of, Belongs, IsGivenDate};
ghost use Rattle.cal_arith.specs.Given.{IsGiven};

use crate::arithmetic_date::ArithmeticDate;
use crate::dates::{Ymd, to_rata_die};
use crate::years::YearShapes;
use cal_days::RataDie;
use cal_days::ranges::{is_covered_year, is_valid_day};
use cal_types::Month;

impl<C: YearShapes> ArithmeticDate<C> {
    /// Returns the extended year: the calendar's own number of the year, without eras.
    pub fn extended_year(self, cal: &C) -> i32
        requires { Belongs (C.years cal.now) self.parts }
        ensures { result ≡ (C.years cal.now).extended self.parts.year }
    {
        cal.extended_from_year_info(self.parts.year)
    }

    /// Returns the number of months in the date's year, 12 or 13.
    pub fn months_in_year(self, cal: &C) -> u8
        requires { Belongs (C.years cal.now) self.parts }
        ensures { let y = C.years cal.now in
            result ≡ month_count y.list (y.extended self.parts.year) }
    {
        cal.months_in_provided_year(self.parts.year)
    }

    /// Returns the number of days in the date's year, at most 403.
    pub fn days_in_year(self, cal: &C) -> u16
        requires { Belongs (C.years cal.now) self.parts }
        ensures { let y = C.years cal.now in
            result ≡ year_length y.list (y.extended self.parts.year) }
    {
        days_of_year(self.parts.year, cal)
    }

    /// Returns the number of days in the date's month, from 1 to 31.
    pub fn days_in_month(self, cal: &C) -> u8
        requires { Belongs (C.years cal.now) self.parts }
        ensures { let y = C.years cal.now in
            result ≡ month_length y.list (y.extended self.parts.year) self.parts.month }
    {
        let date = self.parts;
        cal.days_in_provided_month(date.year, date.month)
    }

    /// Returns the day of the year, from 1.
    pub fn day_of_year(self, cal: &C) -> u16
        requires { Belongs (C.years cal.now) self.parts }
        ensures { let y = C.years cal.now in start_of_year y.list (y.extended self.parts.year) +ℤ pos result
            ≡ day_number y.list (date_of y self.parts) +ℤ pos 1 }
    {
        day_in_year(self.parts, cal)
    }

    /// Returns the month: its number, and whether it is a leap month. The number can differ from the ordinal month.
    pub fn month_in_calendar(self, cal: &C) -> Month
        requires { Belongs (C.years cal.now) self.parts }
        ensures { let y = C.years cal.now in
            month_parts result ≡ month_at y.list (y.extended self.parts.year) self.parts.month }
    {
        let date = self.parts;
        cal.month_from_ordinal(date.year, date.month)
    }

    /// Returns whether the calendar has this date and its day number is valid. The year must be one of the calendar's
    /// years; the ordinal month and the day may be any numbers.
    pub fn is_date_of(self, cal: &C) -> bool
        requires { IsGiven (C.years cal.now) self.parts.year }
        ensures { let y = C.years cal.now in
            result ≡ is_valid_date y.list (date_of y self.parts) }
    {
        let date = self.parts;
        is_listed(date, cal) && has_valid_day(date, cal)
    }
}

/// Returns the number of days in a given year: the day of the year of its last day.
fn days_of_year<C: YearShapes>(year: C::YearInfo, cal: &C) -> u16
    requires { IsGiven (C.years cal.now) year }
    ensures { let y = C.years cal.now in result ≡ year_length y.list (y.extended year) }
{
    let month = cal.months_in_provided_year(year);
    let day = cal.days_in_provided_month(year, month);
    day_in_year(Ymd { year, month, day }, cal)
}

/// Returns the day of the year of a date, from 1.
fn day_in_year<C: YearShapes>(date: Ymd<C::YearInfo>, cal: &C) -> u16
    requires { IsGivenDate (C.years cal.now) date }
    ensures { let y = C.years cal.now in
        start_of_year y.list (y.extended date.year) +ℤ pos result ≡ day_number y.list (date_of y date) +ℤ pos 1 }
{
    let first = cal.to_rata_die_inner(date.year, 1, 1);
    let before = to_rata_die(date, cal).since(first) as u16;
    before + 1
}

/// Returns whether a number is from 1 to `last`.
pub(crate) fn is_up_to(number: u8, last: u8) -> bool
    ensures { result ≡ (nat_le 1 number && nat_le number last) }
{
    1 <= number && number <= last
}

/// Returns whether a given year has the ordinal month and the day.
fn is_listed<C: YearShapes>(date: Ymd<C::YearInfo>, cal: &C) -> bool
    requires { IsGiven (C.years cal.now) date.year }
    ensures { let y = C.years cal.now in result ≡ is_date y.list (date_of y date) }
{
    is_up_to(date.month, cal.months_in_provided_year(date.year))
        && is_up_to(date.day, cal.days_in_provided_month(date.year, date.month))
}

/// Returns whether the day number of a date that the calendar has is valid. It is computed only for years outside of
/// -980000 to 980000: in between, all days are valid.
pub(crate) fn has_valid_day<C: YearShapes>(date: Ymd<C::YearInfo>, cal: &C) -> bool
    requires { IsGivenDate (C.years cal.now) date }
    ensures { let y = C.years cal.now in result ≡ is_valid_day (day_number y.list (date_of y date)) }
{
    if is_covered(cal.extended_from_year_info(date.year)) {
        return true;
    }
    is_in_range(to_rata_die(date, cal))
}

/// Returns whether a year is from -980000 to 980000.
fn is_covered(year: i32) -> bool
    ensures { result ≡ is_covered_year year }
{
    is_covered_year(year)
}

/// Returns whether a day number is valid, from -365242499 to 365242134.
pub(crate) fn is_in_range(rd: RataDie) -> bool
    ensures { result ≡ is_valid_day rd }
{
    is_valid_day(rd.to_i64_date())
}
