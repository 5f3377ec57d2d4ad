//! The days of UNTIL.

ghost use Rattle.std.specs.Prelude.{◌≡◌, ◌<◌, pos, if◌then◌else◌, Some, None};
ghost use Rattle.cal_days.specs.Day.{IsBetween};
ghost use Rattle.cal_types.specs.CalendarList.{HasPlace, date, day_number, is_date};
ghost use Rattle.cal_base.specs.IsoSystem.{iso_list};
ghost use Rattle.cal_rule.specs.Until.{is_time, is_zone, until_dated, until_read, until_whole};

use crate::numbers::are_digits;
use crate::value_fault::ValueFault;
use cal_arith::YearShapes;
use cal_base::{AbstractGregorian, IsoYears, NumberedYear};
use cal_days::RataDie;
use word_values::read_number;

/// Returns the day number of a day of a month, if the month has the day.
fn day_in_month(year: i32, month: u8, day: u8) -> Option<RataDie>
    requires year { IsBetween (pos 0) (pos 99999) year }
    requires month { HasPlace iso_list year month }
    ensures { let t = date year month day in
        result ≡ if is_date iso_list t then Some (day_number iso_list t) else None }
{
    let years = AbstractGregorian(IsoYears);
    let last = years.days_in_provided_month(NumberedYear { number: year }, month);
    if 1 <= day && day <= last {
        Some(years.to_rata_die_inner(NumberedYear { number: year }, month, day))
    } else {
        None
    }
}

/// Returns the day number of a date in the Gregorian calendar, if the date exists.
fn day_of(year: i32, month: u8, day: u8) -> Option<RataDie>
    requires { IsBetween (pos 0) (pos 99999) year }
    ensures { let t = date year month day in
        result ≡ if is_date iso_list t then Some (day_number iso_list t) else None }
{
    if 1 <= month && month <= 12 {
        day_in_month(year, month, day)
    } else {
        None
    }
}

/// Returns the day number of a date that is written as one number, such as 20240229.
fn dated(number: u32) -> Result<RataDie, ValueFault>
    requires { number < 1000000000 }
    ensures { result ≡ until_dated number }
{
    let year = (number / 10000) as i32;
    let month = (number / 100 % 100) as u8;
    let day = (number % 100) as u8;
    day_of(year, month, day).ok_or(ValueFault::OutOfRange)
}

/// Returns whether a text is nothing or a `Z`.
fn is_zone(text: &[u8]) -> bool
    ensures { result ≡ is_zone text.now }
{
    match text {
        [] => true,
        [zone] => zone.eq_ignore_ascii_case(&b'Z'),
        _ => false,
    }
}

/// Returns whether a text is a time of day: `T`, six digits, and an optional `Z`.
fn is_time(text: &[u8]) -> bool
    ensures { result ≡ is_time text.now }
{
    text.len() >= 7
        && text[0].eq_ignore_ascii_case(&b'T')
        && are_digits(&text[1..7])
        && is_zone(&text[7..])
}

/// Reads a day whose date has been read as a number, from what stands behind the digits.
fn whole(number: u32, behind: &[u8]) -> Result<RataDie, ValueFault>
    requires { number < 1000000000 }
    ensures { result ≡ until_whole behind.now number }
{
    if behind.is_empty() {
        return dated(number);
    }
    if is_time(behind) {
        Err(ValueFault::Time)
    } else {
        Err(ValueFault::Bad)
    }
}

/// Reads the day of UNTIL.
pub(crate) fn read_until(text: &[u8]) -> Result<RataDie, ValueFault>
    ensures { result ≡ until_read text.now }
{
    if text.len() < 8 {
        return Err(ValueFault::Bad);
    }
    let number = read_number(&text[..8], 8).ok_or(ValueFault::Bad)?;
    whole(number, &text[8..])
}
