//! The months of a Chinese or Korean year, determined by the ordinal month of its leap month (0 without one) and the
//! bits of its months of 30 days (bit 0 for the first month).

ghost use Rattle.std.specs.Prelude.{◌≡◌, ◌-◌, ◌≤◌, sum_by};
ghost use Rattle.cal_types.specs.MonthParts.{month_parts};
ghost use Rattle.cal_types.specs.CalendarList.{days_of};
ghost use Rattle.cal_east_asian.specs.EastAsianYear.{months_of_year};
ghost use Rattle.cal_east_asian.specs.EastAsianMonths.{month_in_place as month_placed, year_entries};
ghost use Rattle.cal_east_asian.specs.EastAsianPlaces.{days_of_months, east_asian_place, is_east_asian_month, leap_status_of_place, month_days, plain_month_place};

use cal_types::{LeapStatus, Month, MonthError, Overflow};

/// Returns the number of months in a year.
pub(crate) fn months_in_year(leap_month: u8) -> u8
    ensures value { result ≡ months_of_year leap_month }
    ensures bound { result ≤ 13 }
{
    if leap_month == 0 { 12 } else { 13 }
}

/// Returns the number of days in an ordinal month.
pub(crate) fn days_in_month(long_months: u16, place: u8) -> u8
    requires { (1 ≤ place) × (place ≤ 13) }
    ensures value { result ≡ month_days long_months place }
    ensures bound { result ≤ 30 }
{
    29 + ((long_months >> (place - 1)) % 2) as u8
}

/// Returns the number of days in the year before an ordinal month.
pub(crate) fn days_before_month(long_months: u16, place: u8) -> u16
    requires { (1 ≤ place) × (place ≤ 13) }
    ensures value { result ≡ days_of_months long_months (place - 1) }
    ensures bound { result ≤ 390 }
{
    let mut days = 0;
    let mut before = 1;
    'months: while before < place {
        days += u16::from(days_in_month(long_months, before));
        before += 1;
    }
    days
}

/// Returns the number of days in a year.
pub(crate) fn days_in_year(leap_month: u8, long_months: u16) -> u16
    ensures value { result ≡ sum_by days_of (year_entries leap_month long_months) }
    ensures bound { result ≤ 420 }
{
    let last = months_in_year(leap_month);
    days_before_month(long_months, last) + u16::from(days_in_month(long_months, last))
}

/// Returns whether a month is a plain month 1 to 12, or the leap month of one of these numbers.
pub(crate) fn is_east_asian(month: Month) -> bool
    ensures { result ≡ is_east_asian_month (month_parts month) }
{
    1 <= month.number() && month.number() <= 12
}

/// Returns the month at an ordinal number. The leap month has the number of the month before it.
pub(crate) fn month_in_place(leap_month: u8, place: u8) -> Month
    requires { (1 ≤ place) × (place ≤ 13) }
    ensures { month_parts result ≡ month_placed leap_month place }
{
    if place == leap_month {
        Month::leap(place - 1)
    } else if leap_month == 0 || place < leap_month {
        Month::new(place)
    } else {
        Month::new(place - 1)
    }
}

/// Returns the ordinal month of a plain month, 1 to 12.
fn place_of_plain_month(leap_month: u8, number: u8) -> u8
    requires { number ≤ 12 }
    ensures { result ≡ plain_month_place leap_month number }
{
    if leap_month == 0 || number < leap_month {
        number
    } else {
        number + 1
    }
}

/// Returns the ordinal month of a month. Under [`Overflow::Constrain`], the plain month of its number stands in for a
/// leap month that doesn't occur in the year.
///
/// # Errors
///
/// - [`MonthError::NotInCalendar`] if the month isn't one of the months 1 to 12, plain or leap.
/// - [`MonthError::NotInYear`] if a leap month doesn't occur in the year and `overflow` is [`Overflow::Reject`].
pub(crate) fn place_of_month(
    leap_month: u8,
    month: Month,
    overflow: Overflow,
) -> Result<u8, MonthError>
    ensures { result ≡ east_asian_place leap_month (month_parts month) overflow }
{
    if !is_east_asian(month) {
        return Err(MonthError::NotInCalendar);
    }
    if !month.is_leap() {
        return Ok(place_of_plain_month(leap_month, month.number()));
    }
    if leap_month == month.number() + 1 {
        return Ok(leap_month);
    }
    match overflow {
        Overflow::Reject => Err(MonthError::NotInYear),
        Overflow::Constrain => Ok(place_of_plain_month(leap_month, month.number())),
    }
}

/// Returns the leap status of an ordinal month. The month right before the leap month is its base.
pub(crate) fn leap_status(leap_month: u8, place: u8) -> LeapStatus
    requires { place ≤ 13 }
    ensures { result ≡ leap_status_of_place leap_month place }
{
    if place == leap_month {
        LeapStatus::Leap
    } else if place + 1 == leap_month {
        LeapStatus::Base
    } else {
        LeapStatus::Normal
    }
}
