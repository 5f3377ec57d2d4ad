//! The day number of a record's date, with its numbers checked.

ghost use Rattle.std.specs.Prelude.{◌≡◌, Ok, IfOk, is_ok, pos, neg_ℤ};
ghost use Rattle.std.specs.Result.{result_map_both};
ghost use Rattle.cal_days.specs.Day.{IsBetween, IsValidDay};
ghost use Rattle.cal_types.specs.CalendarList.{HasPlace, date, day_number};
ghost use Rattle.cal_base.specs.IsoSystem.{iso_list};
ghost use Rattle.cal_types.specs.Placing.{out_of_range, placed_day, placed_in_year};
ghost use Rattle.cal_errors.specs.RangeParts.{range_parts};
ghost use Rattle.icu_calendar.specs.RecordDates.{date_numbers, numbered_date};

use crate::ixdtf_record::DateRecord;
use cal_arith::YearShapes;
use cal_base::{AbstractGregorian, IsoYears, NumberedYear};
use cal_days::RataDie;
use cal_types::RangeError;

/// The greatest year of a record, with either sign.
const MAX_YEAR: i32 = 999999;

/// The greatest month of a record.
const MAX_MONTH: u8 = 12;

/// Returns the error for a number that isn't from `min` to `max`.
fn out_of_range(field: &'static str, value: i32, min: i32, max: i32) -> RangeError
    ensures { range_parts result ≡ out_of_range field.now value min max }
{
    RangeError {
        field,
        value,
        min,
        max,
    }
}

/// Returns the error for a number that isn't from 1 to `max`.
fn not_up_to(field: &'static str, value: u8, max: u8) -> RangeError
    ensures { range_parts result ≡ out_of_range field.now (pos value) (pos 1) (pos max) }
{
    out_of_range(field, i32::from(value), 1, i32::from(max))
}

/// Checks that a day is in its month.
fn test_day(year: i32, month: u8, day: u8) -> Result<(), RangeError>
    requires year { IsBetween (neg_ℤ (pos 999999)) (pos 999999) year }
    requires month { HasPlace iso_list year month }
    ensures { result_map_both (λ _. date year month day) range_parts result ≡ placed_day iso_list year month day }
{
    let last = AbstractGregorian(IsoYears).days_in_provided_month(
        NumberedYear { number: year },
        month,
    );
    if 1 <= day && day <= last {
        Ok(())
    } else {
        Err(not_up_to("day", day, last))
    }
}

/// Checks that a month is in its year, then that a day is in its month.
fn test_in_year(year: i32, month: u8, day: u8) -> Result<(), RangeError>
    requires { IsBetween (neg_ℤ (pos 999999)) (pos 999999) year }
    ensures { result_map_both (λ _. date year month day) range_parts result ≡ placed_in_year iso_list year month day }
{
    if 1 <= month && month <= MAX_MONTH {
        test_day(year, month, day)
    } else {
        Err(not_up_to("month", month, MAX_MONTH))
    }
}

/// Checks that a record's date exists: the year is from -999999 to 999999, the month from 1 to 12, and the day from 1
/// to the month's length. The error names the first number out of range.
fn test(date: DateRecord) -> Result<(), RangeError>
    ensures { result_map_both (λ _. date_numbers date) range_parts result ≡ numbered_date (date_numbers date) }
{
    let DateRecord { year, month, day } = date;
    if -MAX_YEAR <= year && year <= MAX_YEAR {
        test_in_year(year, month, day)
    } else {
        Err(out_of_range("year", year, -MAX_YEAR, MAX_YEAR))
    }
}

/// Returns `true` if a record's date exists.
pub fn is_date(date: DateRecord) -> bool
    ensures { result ≡ is_ok (numbered_date (date_numbers date)) }
{
    test(date).is_ok()
}

/// Returns the day number of a date that exists.
fn day(date: DateRecord) -> RataDie
    requires { numbered_date (date_numbers date) ≡ Ok (date_numbers date) }
    ensures value { result ≡ day_number iso_list (date_numbers date) }
    ensures valid { IsValidDay result }
{
    let year = NumberedYear { number: date.year };
    AbstractGregorian(IsoYears).to_rata_die_inner(year, date.month, date.day)
}

/// Returns the day number of a record's date.
///
/// # Errors
///
/// - [`RangeError`] for the first number out of range: `"year"`, `"month"` or `"day"`.
pub fn record_day(date: DateRecord) -> Result<RataDie, RangeError>
    ensures value { result_map_both (λ n. n) range_parts result
        ≡ result_map_both (day_number iso_list) (λ e. e) (numbered_date (date_numbers date)) }
    ensures valid { IfOk result (λ n. IsValidDay n) }
{
    match test(date) {
        Ok(()) => Ok(day(date)),
        Err(cause) => Err(cause),
    }
}
