//! The reference years of China and Korea: the years of dates without a year.

ghost use Rattle.std.specs.Prelude.{◌≡◌, ◌≤◌, IsTrue, Some, None, pos};
ghost use Rattle.cal_types.specs.MonthParts.{month_parts};
ghost use Rattle.cal_east_asian.specs.EastAsianPlaces.{is_east_asian_month};
ghost use Rattle.cal_east_asian.specs.EastAsianReferences.{leap_row, month_row, plain_row, side_reference, third_month_30};

use crate::east_asian_months::is_east_asian;
use crate::sides::Side;
use cal_types::{EcmaReferenceYearError, Month};

/// The reference years of a month, if it has them: for days up to 26, for days up to 29, and for later days.
#[derive(Clone, Copy)]
struct ReferenceYears {
    to_26: Option<i32>,
    to_29: Option<i32>,
    later: Option<i32>,
}

/// Returns a year for days up to 29, and another year for later days.
fn both(to_29: i32, later: i32) -> ReferenceYears
    ensures to_26 { result.to_26 ≡ Some to_29 }
    ensures to_29 { result.to_29 ≡ Some to_29 }
    ensures later { result.later ≡ Some later }
{
    ReferenceYears {
        to_26: Some(to_29),
        to_29: Some(to_29),
        later: Some(later),
    }
}

/// Returns a year for days up to 29 only.
fn short(to_29: i32) -> ReferenceYears
    ensures to_26 { result.to_26 ≡ Some to_29 }
    ensures to_29 { result.to_29 ≡ Some to_29 }
    ensures later { result.later ≡ None }
{
    ReferenceYears {
        to_26: Some(to_29),
        to_29: Some(to_29),
        later: None,
    }
}

/// Returns no year.
fn no_years() -> ReferenceYears
    ensures to_26 { result.to_26 ≡ None }
    ensures to_29 { result.to_29 ≡ None }
    ensures later { result.later ≡ None }
{
    ReferenceYears {
        to_26: None,
        to_29: None,
        later: None,
    }
}

/// Returns the year of day 30 of the third month.
fn year_of_day_30_of_month_3(side: Side) -> i32
    ensures { result ≡ pos (third_month_30 side) }
{
    match side {
        Side::China => 1966,
        Side::Korea => 1968,
    }
}

/// Returns the reference years of a plain month.
fn plain_month_years(side: Side, number: u8) -> ReferenceYears
    requires { (1 ≤ number) × (number ≤ 12) }
    ensures to_26 { result.to_26 ≡ (plain_row side number).to_26 }
    ensures to_29 { result.to_29 ≡ (plain_row side number).to_29 }
    ensures later { result.later ≡ (plain_row side number).later }
{
    match number {
        1 => both(1972, 1970),
        2 => both(1972, 1972),
        3 => both(1972, year_of_day_30_of_month_3(side)),
        4 => both(1972, 1970),
        5 => both(1972, 1972),
        6 => both(1972, 1971),
        7 => both(1972, 1972),
        8 => both(1972, 1971),
        9 => both(1972, 1972),
        10 => both(1972, 1972),
        11 => ReferenceYears {
            to_26: Some(1972),
            to_29: Some(1971),
            later: Some(1969),
        },
        _ => both(1971, 1971),
    }
}

/// Returns the reference years of a leap month, by its number.
fn leap_month_years(number: u8) -> ReferenceYears
    requires { (1 ≤ number) × (number ≤ 12) }
    ensures to_26 { result.to_26 ≡ (leap_row number).to_26 }
    ensures to_29 { result.to_29 ≡ (leap_row number).to_29 }
    ensures later { result.later ≡ (leap_row number).later }
{
    match number {
        1 => no_years(),
        2 => short(1947),
        3 => both(1966, 1955),
        4 => both(1963, 1944),
        5 => both(1971, 1952),
        6 => both(1960, 1941),
        7 => both(1968, 1938),
        8 => short(1957),
        9 => short(2014),
        10 => short(1984),
        11 => short(2033),
        _ => no_years(),
    }
}

/// Returns the reference years of a month.
fn years_of_month(side: Side, month: Month) -> ReferenceYears
    requires { IsTrue (is_east_asian_month (month_parts month)) }
    ensures to_26 { result.to_26 ≡ (month_row side (month_parts month)).to_26 }
    ensures to_29 { result.to_29 ≡ (month_row side (month_parts month)).to_29 }
    ensures later { result.later ≡ (month_row side (month_parts month)).later }
{
    if month.is_leap() {
        leap_month_years(month.number())
    } else {
        plain_month_years(side, month.number())
    }
}

/// Returns the reference year of a month and a day. The day may be above the length of the month.
///
/// # Errors
///
/// - [`EcmaReferenceYearError::MonthNotInCalendar`] if the month isn't one of the months 1 to 12, plain or leap.
/// - [`EcmaReferenceYearError::UseRegularIfConstrain`] if a leap month has no reference year for the day.
pub(crate) fn reference_year(
    side: Side,
    month: Month,
    day: u8,
) -> Result<i32, EcmaReferenceYearError>
    ensures { result ≡ side_reference side (month_parts month) day }
{
    if !is_east_asian(month) {
        return Err(EcmaReferenceYearError::MonthNotInCalendar);
    }
    let years = years_of_month(side, month);
    let year = if day <= 26 {
        years.to_26
    } else if day <= 29 {
        years.to_29
    } else {
        years.later
    };
    year.ok_or(EcmaReferenceYearError::UseRegularIfConstrain)
}
