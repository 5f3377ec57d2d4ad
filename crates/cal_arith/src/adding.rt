//! Adding a duration to a date (ECMAScript Temporal, `NonISODateAdd`).

ghost use Rattle.std.specs.Prelude.{◌≡◌, ◌+◌, ◌*◌, ◌≤◌, ◌+ℤ◌, pos, neg_ℤ, true, false, IfSome, IfNone, IfOk};
ghost use Rattle.cal_days.specs.Day.{IsBetween, IsFieldYear, IsRuleYear, is_field_year};
ghost use Rattle.cal_types.specs.CalendarList.{day_number, month_length, date};
ghost use Rattle.cal_types.specs.Difference.{toward};
ghost use Rattle.cal_types.specs.Adding.{is_addable, IsValidOn, IsSumFromMonth, IsSum};
ghost use Rattle.cal_arith.specs.Given.{HasMonth, IsGiven};
ghost use Rattle.cal_arith.specs.Dates.{answer_of, date_of, Belongs, IsGivenDate};
ghost use Rattle.cal_arith.specs.Directions.{is_backward};

use crate::dates::{Ymd, from_rata_die, to_rata_die};
use crate::direction::Direction;
use crate::getters::has_valid_day;
use crate::months::{YearMonth, months_away};
use crate::years::{YearShapes, Years};
use cal_days::RataDie;
use cal_days::ranges::{
    are_addable_days, are_addable_months, are_addable_years, is_field_year, is_valid_day,
};
use cal_types::{DateAddError, DateDuration, Overflow};

/// Returns whether a duration has at most 2080000 years, 27040000 months, and 838240000 days with seven for a week.
fn can_be_added(duration: DateDuration) -> bool
    ensures { result ≡ is_addable duration }
{
    let days = 7 * u64::from(duration.weeks) + u64::from(duration.days);
    are_addable_years(duration.years)
        && are_addable_months(duration.months)
        && are_addable_days(days)
}

/// Returns the date of a day number, or [`DateAddError::Overflow`] if it isn't a valid day. Kept out of line so that
/// sums within a month don't pay for clearing its locals.
#[inline(never)]
fn valid_date<C: Years>(day: RataDie, cal: &C) -> Result<Ymd<C::YearInfo>, DateAddError>
    ensures on { let y = C.years cal.now in IsValidOn y.list day (answer_of y result) }
    ensures belongs { IfOk result (λ d. Belongs (C.years cal.now) d) }
{
    if !is_valid_day(day.to_i64_date()) {
        return Err(DateAddError::Overflow);
    }
    Ok(from_rata_die(day, cal))
}

/// Returns the day number `days` days later or earlier.
fn days_away(day: RataDie, days: u32, direction: Direction) -> RataDie
    requires { IsBetween (neg_ℤ (pos 36028000000000000)) (pos 36028000000000000) day }
    ensures { result ≡ day +ℤ toward (is_backward direction) days }
{
    let count = i64::from(days);
    match direction {
        Direction::Forward => RataDie::new(day.to_i64_date() + count),
        Direction::Backward => RataDie::new(day.to_i64_date() - count),
    }
}

/// Returns the date itself, or [`DateAddError::Overflow`] if its day number isn't valid.
#[inline(always)]
fn date_in_range<C: YearShapes>(
    date: Ymd<C::YearInfo>,
    cal: &C,
) -> Result<Ymd<C::YearInfo>, DateAddError>
    requires { IsGivenDate (C.years cal.now) date }
    ensures on { let y = C.years cal.now in
        IsValidOn y.list (day_number y.list (date_of y date)) (answer_of y result) }
    ensures belongs { IfOk result (λ d. Belongs (C.years cal.now) d) }
{
    if has_valid_day(date, cal) {
        Ok(date)
    } else {
        Err(DateAddError::Overflow)
    }
}

/// Returns the day of the month `days` days later or earlier if it is in the same month, else `None`. `last` is the
/// month's length; no month is longer than 31 days.
fn day_in_month(day: u8, last: u8, days: u32, direction: Direction) -> Option<u8>
    requires { (1 ≤ day) × (day ≤ last) }
    ensures { IfSome result
        (λ d. (1 ≤ d) × (d ≤ last) × (pos d ≡ pos day +ℤ toward (is_backward direction) days)) }
{
    if days > 30 {
        return None;
    }
    let count = days as u8;
    match direction {
        Direction::Forward if count <= last - day => Some(day + count),
        Direction::Backward if count < day => Some(day - count),
        _ => None,
    }
}

/// Returns the date `days` days later or earlier, or [`DateAddError::Overflow`] if its day number isn't valid. `last`
/// is the length of the date's month.
#[inline(always)]
fn date_days_away<C: Years>(
    date: Ymd<C::YearInfo>,
    last: u8,
    days: u32,
    direction: Direction,
    cal: &C,
) -> Result<Ymd<C::YearInfo>, DateAddError>
    requires date { IsGivenDate (C.years cal.now) date }
    requires last { let y = C.years cal.now in last ≡ month_length y.list (y.extended date.year) date.month }
    ensures on { let y = C.years cal.now in
        IsValidOn y.list (day_number y.list (date_of y date) +ℤ toward (is_backward direction) days)
        (answer_of y result) }
    ensures belongs { IfOk result (λ d. Belongs (C.years cal.now) d) }
{
    if days == 0 {
        return date_in_range(date, cal);
    }
    match day_in_month(date.day, last, days, direction) {
        Some(day) => {
            let there = Ymd {
                year: date.year,
                month: date.month,
                day,
            };
            date_in_range(there, cal)
        }
        None => valid_date(days_away(to_rata_die(date, cal), days, direction), cal),
    }
}

/// Returns the extended year `years` years later or earlier.
fn moved_year(year: i32, years: u32, direction: Direction) -> i32
    requires year { IsFieldYear year }
    requires years { years ≤ 2080000 }
    ensures { result ≡ year +ℤ toward (is_backward direction) years }
{
    match direction {
        Direction::Forward => year + years as i32,
        Direction::Backward => year - years as i32,
    }
}

/// Returns whether a year is from -1040000 to 1040000: whether fields may name it.
pub fn can_be_named(year: i32) -> bool
    ensures { result ≡ is_field_year year }
{
    is_field_year(year)
}

/// Returns the extended year `years` years later or earlier, or `None` if that year plus `shift` isn't from -1040000
/// to 1040000.
fn field_year(year: i32, years: u32, direction: Direction, shift: i32) -> Option<i32>
    requires year { IsFieldYear year }
    requires years { years ≤ 2080000 }
    requires shift { IsFieldYear shift }
    ensures some { let moved = year +ℤ toward (is_backward direction) years in
        IfSome result (λ y. (y ≡ moved) × (is_field_year (moved +ℤ shift) ≡ true)) }
    ensures none { IfNone result (is_field_year (year +ℤ toward (is_backward direction) years +ℤ shift) ≡ false) }
{
    let number = moved_year(year, years, direction);
    if can_be_named(number + shift) {
        Some(number)
    } else {
        None
    }
}

/// Returns the year of an extended year, which is looked up only if it isn't the extended year of `given`.
#[inline(always)]
fn looked_up<C: Years>(given: C::YearInfo, extended_year: i32, cal: &C) -> C::YearInfo
    requires given { IsGiven (C.years cal.now) given }
    requires range { IsRuleYear extended_year }
    ensures { result ≡ (C.years cal.now).year_of extended_year }
{
    if cal.extended_from_year_info(given) == extended_year {
        given
    } else {
        cal.year_info_from_extended(extended_year)
    }
}

/// Returns the date with a duration added. The limit on years is tested on the year plus `shift`.
///
/// # Errors
///
/// Fails with the first of these:
/// - [`DateAddError::Overflow`] if the duration has more than 2080000 years, 27040000 months, or 838240000 days with
///   seven for a week, or if the year after adding the years, plus `shift`, isn't from -1040000 to 1040000;
/// - [`DateAddError::MonthNotInYear`] under [`Overflow::Reject`] if that year lacks the date's month;
/// - [`DateAddError::InvalidDay`] under [`Overflow::Reject`] if the month after adding the months lacks the date's
///   day;
/// - [`DateAddError::Overflow`] if the sum isn't a valid day.
#[inline(always)]
pub(crate) fn added<C: Years>(
    from: Ymd<C::YearInfo>,
    duration: DateDuration,
    overflow: Overflow,
    shift: i32,
    cal: &C,
) -> Result<Ymd<C::YearInfo>, DateAddError>
    requires from { IsGivenDate (C.years cal.now) from }
    requires range { IsFieldYear ((C.years cal.now).extended from.year) }
    requires shift { IsFieldYear shift }
    ensures sum { let y = C.years cal.now in
        IsSum y.list shift (date_of y from) duration overflow (answer_of y result) }
    ensures belongs { IfOk result (λ d. Belongs (C.years cal.now) d) }
{
    if !can_be_added(duration) {
        return Err(DateAddError::Overflow);
    }
    let direction = Direction::from_sign(duration.is_negative);
    let year = cal.extended_from_year_info(from.year);
    let reached = match field_year(year, duration.years, direction, shift) {
        None => return Err(DateAddError::Overflow),
        Some(number) => looked_up(from.year, number, cal),
    };
    match cal.ordinal_in_other_year(from.year, from.month, reached, overflow) {
        None => Err(DateAddError::MonthNotInYear),
        Some(place) => {
            let there = months_away(reached, place, duration.months, direction, cal);
            sum_from_month(there, from.day, duration, overflow, cal)
        }
    }
}

/// Returns the sum, counted from the month that is reached by adding the years and months.
#[inline(always)]
fn sum_from_month<C: Years>(
    reached: YearMonth<C::YearInfo>,
    day: u8,
    duration: DateDuration,
    overflow: Overflow,
    cal: &C,
) -> Result<Ymd<C::YearInfo>, DateAddError>
    requires month { HasMonth (C.years cal.now) reached.year reached.month }
    requires day { 1 ≤ day }
    requires days { 7 * duration.weeks + duration.days ≤ 838240000 }
    ensures sum { let y = C.years cal.now in
        IsSumFromMonth y.list (y.extended reached.year) reached.month day duration overflow (answer_of y result) }
    ensures belongs { IfOk result (λ d. Belongs (C.years cal.now) d) }
{
    let last = cal.days_in_provided_month(reached.year, reached.month);
    if matches!(overflow, Overflow::Reject) && day > last {
        return Err(DateAddError::InvalidDay { max: last });
    }
    let there = Ymd {
        year: reached.year,
        month: reached.month,
        day: day.min(last),
    };
    date_days_away(
        there,
        last,
        7 * duration.weeks + duration.days,
        Direction::from_sign(duration.is_negative),
        cal,
    )
}
