//! Counting in the sequence of all months, across years.

ghost use Rattle.std.specs.Prelude.{◌≡◌, ◌≤◌, ◌<◌, ◌+◌, ◌*◌, IfSome, IsSome, pos, neg_ℤ, unsigned_abs, ◌+ℤ◌, ◌-ℤ◌, ◌*ℤ◌, ◌≤ℤ◌};
ghost use Rattle.cal_types.specs.CalendarList.{IsMonthsAfter, month_count, month_number};
ghost use Rattle.cal_types.specs.Difference.{toward};
ghost use Rattle.cal_arith.specs.Counting.{IsCountable, IsMonthsFrom};
ghost use Rattle.cal_arith.specs.Given.{IsGiven};
ghost use Rattle.cal_arith.specs.Directions.{is_backward};

use crate::direction::Direction;
use crate::given_years::{given_year, given_year_counted};
use crate::steps::Steps;
use crate::years::{YearShapes, Years};
use std::marker::Brand;
use std::sync::ledger::{Blank, Ledger};

/// A year and an ordinal month.
#[derive(Clone, Copy, Debug)]
pub struct YearMonth<Y> {
    /// The year.
    pub year: Y,
    /// The ordinal month, from 1.
    pub month: u8,
}

/// Returns the number of months from the start of one year to the start of another, which must not be earlier.
///
/// The calendar counts as many years as it can by their numbers. Each other year is looked up, at the cost of one
/// tick. There is at most one tick for each year in between.
pub(crate) fn months_between_counted<C: YearShapes, L: Ledger>(
    first: C::YearInfo,
    last: C::YearInfo,
    cal: &C,
    steps: &mut Steps<L>,
) -> u32
    requires first { IsGiven (C.years cal.now) first }
    requires last { IsGiven (C.years cal.now) last }
    requires order { let y = C.years cal.now in y.extended first ≤ℤ y.extended last }
    ensures count { let y = C.years cal.now in
        month_number y.list (y.extended last) 1 ≡ month_number y.list (y.extended first) 1 +ℤ pos result }
    ensures ticks { let y = C.years cal.now in
        steps.new ≤ steps.old + unsigned_abs (y.extended last -ℤ y.extended first) }
{
    let end = cal.extended_from_year_info(last);
    let mut number = cal.extended_from_year_info(first);
    let mut count = 0;
    'years: while number < end {
        let (next, months) = cal.months_by_number(number, end);
        count += months;
        number = next;
        if number < end {
            let year = given_year_counted(number, cal, steps);
            count += u32::from(cal.months_in_provided_year(year));
            number += 1;
        }
    }
    count
}

/// Returns the number of months from the start of one year to the start of another, with a counter that nobody reads.
fn months_between_with_blank<C: YearShapes, L: Ledger>(
    first: C::YearInfo,
    last: C::YearInfo,
    cal: &C,
    blank: Blank,
) -> u32
    requires first { IsGiven (C.years cal.now) first }
    requires last { IsGiven (C.years cal.now) last }
    requires order { let y = C.years cal.now in y.extended first ≤ℤ y.extended last }
    requires name { blank.name ≡ L.name }
    requires parts { blank.parts ≡ L.parts }
    requires some { 0 < blank.parts }
    ensures { let y = C.years cal.now in
        month_number y.list (y.extended last) 1 ≡ month_number y.list (y.extended first) 1 +ℤ pos result }
{
    let mut steps = Steps::<L>::new(blank);
    months_between_counted(first, last, cal, &mut steps)
}

/// Returns the number of months from the start of one year to the start of another, which must not be earlier.
fn months_between_years<C: YearShapes>(first: C::YearInfo, last: C::YearInfo, cal: &C) -> u32
    requires first { IsGiven (C.years cal.now) first }
    requires last { IsGiven (C.years cal.now) last }
    requires order { let y = C.years cal.now in y.extended first ≤ℤ y.extended last }
    ensures { let y = C.years cal.now in
        month_number y.list (y.extended last) 1 ≡ month_number y.list (y.extended first) 1 +ℤ pos result }
{
    months_between_with_blank::<C, Brand>(first, last, cal, Blank::new(1))
}

/// A year, and a number of months counted from its first month.
#[derive(Clone, Copy)]
struct MonthsFrom<Y> {
    year: Y,
    months: u32,
}

/// Returns the year `ahead` years after `year`, and the months left from its first month to the month that is
/// `months` after the first month of `year`. Returns `Some` if `months` is at least 13 times `ahead`; `None` if the
/// later year begins after that month.
fn years_ahead<C: Years>(
    year: C::YearInfo,
    months: u32,
    ahead: u32,
    cal: &C,
) -> Option<MonthsFrom<C::YearInfo>>
    requires year { IsGiven (C.years cal.now) year }
    requires range { (pos 12 *ℤ (C.years cal.now).extended year +ℤ pos months) ≤ℤ pos 95000000 }
    requires some { 1 ≤ ahead }
    requires few { 12 * ahead ≤ months }
    ensures later { IfSome result (IsMonthsFrom (C.years cal.now) year months) }
    ensures there { 13 * ahead ≤ months → IsSome result }
{
    let number = cal.extended_from_year_info(year);
    let there = given_year(number + ahead as i32, cal);
    let between = months_between_years(year, there, cal);
    if between > months {
        return None;
    }
    Some(MonthsFrom {
        year: there,
        months: months - between,
    })
}

/// Returns a later year, and the months left from its first month to the month that is `months` after the first month
/// of `year`. Fewer months are left than `months`, which is at least 26.
///
/// It tries the calendar's estimate, limited to between a thirteenth and a twelfth of the months. If that year begins
/// too late, it takes a thirteenth: no year has more than 13 months.
fn estimated<C: Years>(year: C::YearInfo, months: u32, cal: &C) -> MonthsFrom<C::YearInfo>
    requires year { IsGiven (C.years cal.now) year }
    requires range { (pos 12 *ℤ (C.years cal.now).extended year +ℤ pos months) ≤ℤ pos 95000000 }
    requires many { 26 ≤ months }
    ensures { IsMonthsFrom (C.years cal.now) year months result }
{
    let estimate = cal.estimated_years(year, months);
    let ahead = estimate.min(months / 12).max(months / 13);
    match years_ahead(year, months, ahead, cal) {
        Some(there) => there,
        None => match years_ahead(year, months, months / 13, cal) {
            Some(there) => there,
            None => unreachable!(),
        },
    }
}

/// Returns a later year, and the months left from its first month to the month that is `months` after the first month
/// of `year`. Fewer months are left than `months`. `count` is the number of months in `year`, at most `months`.
fn jumped<C: Years>(year: C::YearInfo, months: u32, count: u32, cal: &C) -> MonthsFrom<C::YearInfo>
    requires year { IsGiven (C.years cal.now) year }
    requires range { (pos 12 *ℤ (C.years cal.now).extended year +ℤ pos months) ≤ℤ pos 95000000 }
    requires count { let y = C.years cal.now in count ≡ month_count y.list (y.extended year) }
    requires within { count ≤ months }
    ensures { IsMonthsFrom (C.years cal.now) year months result }
{
    if months >= 26 {
        return estimated(year, months, cal);
    }
    let number = cal.extended_from_year_info(year);
    MonthsFrom {
        year: given_year(number + 1, cal),
        months: months - count,
    }
}

/// Returns the month that is `months` after the first month of a year. Each jump leaves at most a thirteenth of the
/// months and 12 more. If the calendar estimates well, one or two jumps are enough.
fn month_after_first<C: Years>(year: C::YearInfo, months: u32, cal: &C) -> YearMonth<C::YearInfo>
    requires year { IsGiven (C.years cal.now) year }
    requires range { (pos 12 *ℤ (C.years cal.now).extended year +ℤ pos months) ≤ℤ pos 95000000 }
    ensures year { IsGiven (C.years cal.now) result.year }
    ensures moved { let y = C.years cal.now in
        IsMonthsAfter y.list (y.extended year) 1 (pos months) (y.extended result.year) result.month }
{
    let mut later = year;
    let mut left = months;
    let mut count = u32::from(cal.months_in_provided_year(later));
    'years: while left >= count {
        let ahead = jumped(later, left, count, cal);
        later = ahead.year;
        left = ahead.months;
        count = u32::from(cal.months_in_provided_year(later));
    }
    YearMonth {
        year: later,
        month: left as u8 + 1,
    }
}

/// Returns the month `months` months later.
fn months_later<C: Years>(
    year: C::YearInfo,
    month: u8,
    months: u32,
    cal: &C,
) -> YearMonth<C::YearInfo>
    requires from { IsCountable (C.years cal.now) year month }
    requires months { months ≤ 27050000 }
    ensures year { IsGiven (C.years cal.now) result.year }
    ensures moved { let y = C.years cal.now in
        IsMonthsAfter y.list (y.extended year) month (pos months) (y.extended result.year) result.month }
{
    month_after_first(year, u32::from(month) - 1 + months, cal)
}

/// Returns the month `months` months earlier, counted forward from the start of an earlier year.
fn month_from_before<C: Years>(
    year: C::YearInfo,
    month: u8,
    months: u32,
    cal: &C,
) -> YearMonth<C::YearInfo>
    requires from { IsCountable (C.years cal.now) year month }
    requires months { months ≤ 27050000 }
    ensures year { IsGiven (C.years cal.now) result.year }
    ensures moved { let y = C.years cal.now in
        IsMonthsAfter y.list (y.extended year) month (neg_ℤ (pos months)) (y.extended result.year) result.month }
{
    let number = cal.extended_from_year_info(year) - (months / 12) as i32 - 1;
    let start = given_year(number, cal);
    let between = months_between_years(start, year, cal);
    month_after_first(start, between + (u32::from(month) - 1) - months, cal)
}

/// Returns the month `months` months earlier.
fn months_earlier<C: Years>(
    year: C::YearInfo,
    month: u8,
    months: u32,
    cal: &C,
) -> YearMonth<C::YearInfo>
    requires from { IsCountable (C.years cal.now) year month }
    requires months { months ≤ 27050000 }
    ensures year { IsGiven (C.years cal.now) result.year }
    ensures moved { let y = C.years cal.now in
        IsMonthsAfter y.list (y.extended year) month (neg_ℤ (pos months)) (y.extended result.year) result.month }
{
    if months < u32::from(month) {
        return YearMonth {
            year,
            month: month - months as u8,
        };
    }
    let before = given_year(cal.extended_from_year_info(year) - 1, cal);
    let count = u32::from(cal.months_in_provided_year(before));
    let back = months - u32::from(month);
    if back < count {
        return YearMonth {
            year: before,
            month: (count - back) as u8,
        };
    }
    month_from_before(year, month, months, cal)
}

/// Returns the month `months` months later or earlier.
#[inline(always)]
pub(crate) fn months_away<C: Years>(
    year: C::YearInfo,
    month: u8,
    months: u32,
    direction: Direction,
    cal: &C,
) -> YearMonth<C::YearInfo>
    requires from { IsCountable (C.years cal.now) year month }
    requires months { months ≤ 27050000 }
    ensures year { IsGiven (C.years cal.now) result.year }
    ensures moved { let y = C.years cal.now in
        IsMonthsAfter y.list (y.extended year) month (toward (is_backward direction) months)
        (y.extended result.year) result.month }
{
    if months == 0 {
        return YearMonth { year, month };
    }
    match direction {
        Direction::Forward => months_later(year, month, months, cal),
        Direction::Backward => months_earlier(year, month, months, cal),
    }
}
