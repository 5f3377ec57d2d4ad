//! The year so many years after a year.

ghost use Rattle.std.specs.Prelude.{◌≡◌, ◌↔◌, ◌≤◌, MatchOption, IsTrue, neg_ℤ, pos, negsuc};
ghost use Rattle.std.specs.Prelude.{◌+ℤ◌, ◌-ℤ◌, ◌≤ℤ◌, ◌<ℤ◌};
ghost use Rattle.cal_days.specs.Day.{IsFieldYear, IsValidDay};
ghost use Rattle.cal_types.specs.CalendarList.{start_of_year};
ghost use Rattle.cal_rrule.specs.Looks.{IsYearLook, look_year};
ghost use Rattle.cal_rrule.specs.NearDays.{IsNearList};
ghost use Rattle.cal_rrule.specs.Stretches.{InStretch, end_of};

use crate::looks::year_of;
use crate::near_years::year_after;
use crate::year_look::YearLook;
use cal_base::Calendar;
use cal_days::RataDie;
use cal_types::{DateFields, DateFromFieldsOptions, Overflow};

/// Returns the first day of a year if it is valid.
fn first_day<C: Calendar>(calendar: &C, year: i32) -> Option<i64>
    requires { IsFieldYear year }
    ensures { let first = start_of_year (C.system calendar.now).list year in
        MatchOption result (¬ (IsValidDay first)) (λ day. (day ≡ first) × IsValidDay first) }
{
    let fields = DateFields {
        era: None,
        era_year: None,
        extended_year: Some(year),
        month: None,
        month_code: None,
        ordinal_month: Some(1),
        day: Some(1),
    };
    let options = DateFromFieldsOptions {
        overflow: Some(Overflow::Reject),
        missing_fields_strategy: None,
    };
    match calendar.from_fields(fields, options) {
        Ok(date) => Some(calendar.to_rata_die(&date).to_i64_date()),
        Err(_) => None,
    }
}

/// Returns whether a number of years is greater than another number, which may be negative.
pub(crate) fn is_more(years: u64, most: i64) -> bool
    ensures { IsTrue result ↔ (most <ℤ pos years) }
{
    most < 0 || years > most as u64
}

/// Returns how many years lie from a year to the one after another.
pub(crate) fn years_to_next(look: &YearLook, high: &YearLook) -> i64
    requires look { IsFieldYear look.now.year }
    requires high { IsFieldYear high.now.year }
    ensures { result ≡ high.now.year +ℤ pos 1 -ℤ look.now.year }
{
    i64::from(high.year) + 1 - i64::from(look.year)
}

/// Returns whether a year ends more than some days, three at most, behind a day.
pub(crate) fn ends_behind(year: &YearLook, last: RataDie, days: u8) -> bool
    requires last { IsValidDay last }
    requires few { days ≤ 3 }
    ensures { IsTrue result ↔ ((last +ℤ pos days) <ℤ end_of (look_year year.now)) }
{
    year.end() > last.to_i64_date() + i64::from(days)
}

/// Returns the number of the year so many years after a year.
fn number_after(look: &YearLook, years: u64) -> i64
    requires look { IsFieldYear look.now.year }
    requires few { years ≤ 2080001 }
    ensures { result ≡ look.now.year +ℤ pos years }
{
    i64::from(look.year) + years as i64
}

/// Returns the year with a number, whose first day is valid.
fn year_numbered<C: Calendar>(calendar: &C, number: i32) -> Option<YearLook>
    requires low { neg_ℤ (pos 1040000) ≤ℤ number }
    requires high { number ≤ℤ pos 1040000 }
    ensures { let list = (C.system calendar.now).list in
        MatchOption result (¬ (IsValidDay (start_of_year list number)))
        (λ found. IsYearLook list found × (found.year ≡ number)) }
{
    let first = first_day(calendar, number)?;
    Some(year_of(calendar, first))
}

/// Returns the year so many years after a year, which is at most the year after that of a last day, or `None` if it
/// begins more than a day behind the last day.
fn year_within<C: Calendar>(
    calendar: &C,
    look: &YearLook,
    years: u64,
    high: &YearLook,
    last: RataDie,
) -> Option<YearLook>
    requires look { IsYearLook (C.system calendar.now).list look.now }
    requires field { IsFieldYear look.now.year }
    requires low { negsuc 365242498 ≤ℤ end_of (look_year look.now) }
    requires high { IsYearLook (C.system calendar.now).list high.now }
    requires high_field { IsFieldYear high.now.year }
    requires last { IsValidDay last }
    requires within { InStretch (look_year high.now) last }
    requires nearby { IsNearList (C.system calendar.now).list }
    requires most { (look.now.year +ℤ pos years) ≤ℤ (high.now.year +ℤ pos 1) }
    ensures { let list = (C.system calendar.now).list in
        MatchOption result ((last +ℤ pos 1) <ℤ start_of_year list (look.now.year +ℤ pos years))
        (λ found. IsYearLook list found × (found.year ≡ look.now.year +ℤ pos years)
        × (found.first ≤ℤ (last +ℤ pos 1))) }
{
    let number = number_after(look, years);
    if number > i64::from(high.year) {
        if ends_behind(high, last, 1) {
            return None;
        }
        return Some(year_after(calendar, high));
    }
    if years == 0 {
        return Some(*look);
    }
    year_numbered(calendar, number as i32)
}

/// Returns the year so many years after a year, or `None` if it begins more than a day behind a last day.
pub(crate) fn years_after<C: Calendar>(
    calendar: &C,
    look: &YearLook,
    years: u64,
    last: RataDie,
) -> Option<YearLook>
    requires look { IsYearLook (C.system calendar.now).list look.now }
    requires field { IsFieldYear look.now.year }
    requires low { negsuc 365242498 ≤ℤ end_of (look_year look.now) }
    requires last { IsValidDay last }
    requires nearby { IsNearList (C.system calendar.now).list }
    ensures { let list = (C.system calendar.now).list in
        MatchOption result ((last +ℤ pos 1) <ℤ start_of_year list (look.now.year +ℤ pos years))
        (λ found. IsYearLook list found × (found.year ≡ look.now.year +ℤ pos years)
        × (found.first ≤ℤ (last +ℤ pos 1))) }
{
    let high = year_of(calendar, last.to_i64_date());
    if is_more(years, years_to_next(look, &high)) {
        return None;
    }
    year_within(calendar, look, years, &high, last)
}
