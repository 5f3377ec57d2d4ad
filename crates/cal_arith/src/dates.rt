//! Dates as a year, an ordinal month and a day, and their day numbers.

ghost use Rattle.std.specs.Prelude.{◌≡◌, ◌<◌, ◌+ℤ◌, pos};
ghost use Rattle.cal_types.specs.CalendarList.{HasPlace, IsOn, date, day_number, month_length, start_of_year, year_length};
ghost use Rattle.cal_days.specs.Day.{IsValidDay};
ghost use Rattle.cal_arith.specs.Given.{IsGiven};
ghost use Rattle.cal_arith.specs.Dates.{date_of, ymd, Belongs, IsGivenDate};

use crate::years::{YearShapes, Years};
use cal_days::RataDie;

/// A year, an ordinal month, and a day of that month.
#[derive(Clone, Copy, Debug)]
pub struct Ymd<Y> {
    /// The year.
    pub year: Y,
    /// The ordinal month, from 1.
    pub month: u8,
    /// The day of the month, from 1.
    pub day: u8,
}

/// Returns the day number of a date that the calendar has.
pub(crate) fn to_rata_die<C: YearShapes>(date: Ymd<C::YearInfo>, cal: &C) -> RataDie
    requires { IsGivenDate (C.years cal.now) date }
    ensures { let y = C.years cal.now in result ≡ day_number y.list (date_of y date) }
{
    cal.to_rata_die_inner(date.year, date.month, date.day)
}

/// Returns the length of a given year's month in days.
fn length_of_month<C: YearShapes>(year: C::YearInfo, month: u8, cal: &C) -> u16
    requires year { IsGiven (C.years cal.now) year }
    requires place { let y = C.years cal.now in HasPlace y.list (y.extended year) month }
    ensures { let y = C.years cal.now in result ≡ month_length y.list (y.extended year) month }
{
    u16::from(cal.days_in_provided_month(year, month))
}

/// Returns the ordinal month and the day of the month for a day of a given year. `day_of_year` counts from 0. It asks
/// for the length of each month up to the day's.
pub(crate) fn month_by_month<C: YearShapes>(
    year: C::YearInfo,
    day_of_year: u16,
    cal: &C,
) -> (u8, u8)
    requires year { IsGiven (C.years cal.now) year }
    requires within { let y = C.years cal.now in day_of_year < year_length y.list (y.extended year) }
    ensures { let y = C.years cal.now in let day = start_of_year y.list (y.extended year) +ℤ pos day_of_year in
        IsOn y.list day (date_of y (ymd year result.0 result.1)) }
{
    let mut month = 1;
    let mut rest = day_of_year;
    let mut length = length_of_month(year, month, cal);
    'months: while rest >= length {
        rest -= length;
        month += 1;
        length = length_of_month(year, month, cal);
    }
    (month, rest as u8 + 1)
}

/// Returns the date of a valid day.
pub(crate) fn from_rata_die<C: Years>(rd: RataDie, cal: &C) -> Ymd<C::YearInfo>
    requires { IsValidDay rd }
    ensures on { let y = C.years cal.now in IsOn y.list rd (date_of y result) }
    ensures belongs { Belongs (C.years cal.now) result }
{
    let (year, month, day) = cal.year_month_day(rd);
    Ymd { year, month, day }
}
