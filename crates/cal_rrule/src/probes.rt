//! Months of years whose days needn't be valid, by asking which dates exist.

ghost use Rattle.std.specs.Prelude.{◌≡◌, ◌↔◌, ◌≤◌, IsTrue, neg_ℤ, pos, ◌≤ℤ◌};
ghost use Rattle.cal_days.specs.Day.{IsFieldYear};
ghost use Rattle.cal_types.specs.CalendarList.{HasPlace, date, is_date, month_at, month_count, month_length};
ghost use Rattle.cal_types.specs.Month.{month_rank};
ghost use Rattle.cal_types.specs.MonthParts.{month_parts};
ghost use Rattle.cal_rrule.specs.NearDays.{IsNearList};
ghost use Rattle.cal_rrule.specs.Probes.{is_out_of_range};

use cal_base::Calendar;
use cal_types::{DateFields, DateFromFieldsError, DateFromFieldsOptions, Month, Overflow};

/// Returns whether fields name a date outside of the valid days.
fn is_overflow(error: DateFromFieldsError) -> bool
    ensures { result ≡ is_out_of_range error }
{
    match error {
        DateFromFieldsError::Overflow => true,
        _ => false,
    }
}

/// Returns whether a year has a day in an ordinal month.
fn has_day<C: Calendar>(calendar: &C, year: i32, place: u8, day: u8) -> bool
    requires { IsFieldYear year }
    ensures { result ≡ is_date (C.system calendar.now).list (date year place day) }
{
    let fields = DateFields {
        era: None,
        era_year: None,
        extended_year: Some(year),
        month: None,
        month_code: None,
        ordinal_month: Some(place),
        day: Some(day),
    };
    let options = DateFromFieldsOptions {
        overflow: Some(Overflow::Reject),
        missing_fields_strategy: None,
    };
    match calendar.from_fields(fields, options) {
        Ok(_) => true,
        Err(error) => is_overflow(error),
    }
}

/// Returns the number of months of a year.
pub(crate) fn months_of_year<C: Calendar>(calendar: &C, year: i32) -> u8
    requires low { neg_ℤ (pos 1040000) ≤ℤ year }
    requires high { year ≤ℤ pos 1040000 }
    ensures { result ≡ month_count (C.system calendar.now).list year }
{
    if has_day(calendar, year, 13, 1) {
        return 13;
    }
    12
}

/// Returns the number of days of the month in a place of a year.
pub(crate) fn days_of_month<C: Calendar>(calendar: &C, year: i32, place: u8) -> u8
    requires place { HasPlace (C.system calendar.now).list year place }
    requires year { IsFieldYear year }
    ensures { result ≡ month_length (C.system calendar.now).list year place }
{
    for fewer in 0..30u8 {
        if has_day(calendar, year, place, 31 - fewer) {
            return 31 - fewer;
        }
    }
    1
}

/// Returns whether a month is the one in a place of a year.
fn is_in_place<C: Calendar>(calendar: &C, year: i32, place: u8, month: Month) -> bool
    requires place { HasPlace (C.system calendar.now).list year place }
    requires year { IsFieldYear year }
    ensures { IsTrue result ↔ (month_at (C.system calendar.now).list year place ≡ month_parts month) }
{
    let fields = DateFields {
        era: None,
        era_year: None,
        extended_year: Some(year),
        month: Some(month),
        month_code: None,
        ordinal_month: Some(place),
        day: Some(1),
    };
    let options = DateFromFieldsOptions {
        overflow: Some(Overflow::Reject),
        missing_fields_strategy: None,
    };
    match calendar.from_fields(fields, options) {
        Ok(_) => true,
        Err(error) => is_overflow(error),
    }
}

/// Returns the month that so many months are less than in the order of months.
fn month_ranked(rank: u8) -> Month
    requires { rank ≤ 27 }
    ensures { month_rank (month_parts result) ≡ rank }
{
    if rank % 2 == 0 {
        return Month::new(rank / 2);
    }
    Month::leap(rank / 2)
}

/// Returns the month in a place of a year.
pub(crate) fn month_in_place<C: Calendar>(calendar: &C, year: i32, place: u8) -> Month
    requires place { HasPlace (C.system calendar.now).list year place }
    requires year { IsFieldYear year }
    requires nearby { IsNearList (C.system calendar.now).list }
    ensures { month_parts result ≡ month_at (C.system calendar.now).list year place }
{
    for rank in 0..27u8 {
        let month = month_ranked(rank);
        if is_in_place(calendar, year, place, month) {
            return month;
        }
    }
    month_ranked(27)
}
